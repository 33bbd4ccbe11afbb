//! The lexemes of a part of a MATCH text.
ghost use Rattle.std.specs.Prelude.{◌≡◌, ◌+◌, ◌≤◌, ◌==◌, ◌&&◌, ◌++◌, ◌∷◌, [], ℕ, List, map, min, drop, length, codes, nat_eq, slice_index, string_bytes, if◌then◌else◌, true, false, position, None, Some, MatchOption, IfOk, OnOk};
ghost use Rattle.std.specs.List.{before_first, after_first, list_any, list_all, starts_with};
ghost use Rattle.std.specs.Char.{is_ascii_digit};
ghost use Rattle.std.specs.Str.{byte, str_eq_ignore_ascii_case};
ghost use Rattle.ft_match.specs.Trees.{plain_term};
ghost use Rattle.ft_match.specs.Lexemes.{filter_on, word, terms_of, follows_caret, is_colon, column_filter_of, words_after, digits_number, is_digit_run, lexemes_of_chunk};
ghost use Rattle.ft_match.specs.Machine.{plain_lexeme, capped};

use crate::limits::MOST_BETWEEN;
use crate::query::QueryTerm;
use crate::text::{Token, tokens};
use std::alloc::{AllocError, Global};

/// A lexeme. A NEAR number past its limit stands as the least such number.
#[derive(Drop)]
pub enum Lexeme {
    Open,
    Close,
    And,
    Or,
    Not,
    Near(usize),
    Filter(usize),
    Word(QueryTerm),
    Quoted(Vec<QueryTerm>),
}

// The term that a token of a part is.
fn term_of(part: &[u8], token: Token) -> QueryTerm
    requires { token.start + token.size ≤ length part.now }
    ensures { plain_term result ≡ record {
      text = string_bytes token.term;
      prefix = slice_index part.now (token.start + token.size) == byte "*";
      first = follows_caret part.now token.start;
    } }
{
    let end = token.start + token.size;
    QueryTerm {
        text: token.term,
        prefix: end < part.len() && part[end] == b'*',
        first: token.start > 0 && part[token.start - 1] == b'^',
    }
}

/// The terms of a chunk's rest or of a quoted part.
#[tactic(auto, using(crate::proofs::Terms::within_part))]
pub fn terms_of(alloc: Global, part: &str) -> Result<Vec<QueryTerm>, AllocError>
    ensures { IfOk result (λ terms. map plain_term terms.items ≡ terms_of part.now) }
{
    let mut terms = Vec::new(alloc);
    for token in tokens(alloc, part)? {
        terms.push(term_of(part.as_bytes(), token))?;
    }
    Ok(terms)
}

// The number that these digits write; one past the limit of NEAR stands as the least such number.
fn number_of(digits: &[u8]) -> usize
    ensures { result ≡ min (digits_number digits.now) 1000001 }
{
    let mut number = 0usize;
    for digit in digits {
        let more = 10 * number + usize::from(digit.saturating_sub(b'0'));
        number = more.min(MOST_BETWEEN + 1);
    }
    number
}

fn are_digits(bytes: &[u8]) -> bool
    ensures { result ≡ list_all is_ascii_digit bytes.now }
{
    bytes.iter().all(|b| b.is_ascii_digit())
}

#[tactic(auto, using(crate::proofs::Terms::digits_are_number))]
fn is_number(digits: &[u8]) -> bool
    ensures { result ≡ is_digit_run digits.now }
{
    !digits.is_empty() && are_digits(digits)
}

// The number of a chunk that is `NEAR/` and digits.
fn near_number(chunk: &str) -> Option<usize>
    ensures { result ≡ (if starts_with nat_eq chunk.now (codes "NEAR/") && is_digit_run
        (drop 5 chunk.now) then Some (min (digits_number (drop 5 chunk.now)) 1000001) else None) }
{
    let digits = chunk.strip_prefix("NEAR/")?.as_bytes();
    if is_number(digits) {
        Some(number_of(digits))
    } else {
        None
    }
}

// The operator that a chunk is.
fn operator_of(chunk: &str) -> Option<Lexeme>
    ensures { MatchOption result ((columns : List (List ℕ))
        → lexemes_of_chunk columns chunk.now
        ≡ words_after (column_filter_of columns chunk.now) chunk.now)
        (λ l. (columns : List (List ℕ))
        → map capped (lexemes_of_chunk columns chunk.now) ≡ plain_lexeme l ∷ []) }
{
    match chunk {
        "AND" => Some(Lexeme::And),
        "OR" => Some(Lexeme::Or),
        "NOT" => Some(Lexeme::Not),
        "NEAR" => Some(Lexeme::Near(10)),
        _ => near_number(chunk).map(Lexeme::Near),
    }
}

// What stands before and after a chunk's first colon.
fn split_colon(chunk: &str) -> Option<(&str, &str)>
    ensures { MatchOption result (list_any is_colon chunk.now ≡ false)
        (λ parts. (list_any is_colon chunk.now ≡ true)
        × (parts.0.now ≡ before_first is_colon chunk.now)
        × (parts.1.now ≡ after_first is_colon chunk.now)) }
{
    chunk.split_once(':')
}

// The first column of this name.
fn column_named(columns: &[String], name: &str) -> Option<usize>
    ensures { result ≡ position (λ c. str_eq_ignore_ascii_case (string_bytes c) name.now)
        columns.now }
{
    columns
        .iter()
        .position(|c| c.as_str().eq_ignore_ascii_case(name))
}

// The column of a chunk's filter, and what follows the filter.
fn filter_of<'a>(columns: &[String], chunk: &'a str) -> Option<(usize, &'a str)>
    ensures { MatchOption result (column_filter_of (map string_bytes columns.now) chunk.now ≡ None)
        (λ f. (column_filter_of (map string_bytes columns.now) chunk.now ≡ Some f.0)
        × (f.1.now ≡ after_first is_colon chunk.now)) }
{
    let (name, rest) = split_colon(chunk)?;
    let column = column_named(columns, name)?;
    Some((column, rest))
}

// Adds a word for each token.
fn push_words(alloc: Global, found: &mut Vec<Lexeme>, part: &str) -> Result<(), AllocError>
    ensures { OnOk result (map plain_lexeme found.new.items
        ≡ map plain_lexeme found.old.items ++ map word (terms_of part.now)) }
{
    for term in terms_of(alloc, part)? {
        found.push(Lexeme::Word(term))?;
    }
    Ok(())
}

// Adds the lexemes of a chunk with a filter.
fn push_filtered(
    alloc: Global,
    found: &mut Vec<Lexeme>,
    column: usize,
    rest: &str,
) -> Result<(), AllocError>
    ensures { OnOk result (map plain_lexeme found.new.items
        ≡ map plain_lexeme found.old.items ++ filter_on column ∷ map word (terms_of rest.now)) }
{
    found.push(Lexeme::Filter(column))?;
    push_words(alloc, found, rest)
}

/// Adds the lexemes of a chunk.
#[tactic(auto, using(crate::proofs::Terms::words_kept))]
pub fn push_chunk(
    alloc: Global,
    columns: &[String],
    found: &mut Vec<Lexeme>,
    chunk: &str,
) -> Result<(), AllocError>
    ensures { OnOk result (map plain_lexeme found.new.items
        ≡ map plain_lexeme found.old.items ++ map capped
        (lexemes_of_chunk (map string_bytes columns.now) chunk.now)) }
{
    if let Some(operator) = operator_of(chunk) {
        found.push(operator)?;
        return Ok(());
    }
    match filter_of(columns, chunk) {
        None => push_words(alloc, found, chunk),
        Some((column, rest)) => push_filtered(alloc, found, column, rest),
    }
}
