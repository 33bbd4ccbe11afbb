//! The parser of MATCH queries.
ghost use Rattle.std.specs.Prelude.{◌≡◌, ◌≢◌, ◌==◌, map, string_bytes, option_map, Ok, Err, IfOk, IfErr};
ghost use Rattle.std.specs.List.{list_any};
ghost use Rattle.ft_match.specs.Trees.{tree_of};
ghost use Rattle.ft_match.specs.Reads.{query_of};
ghost use Rattle.ft_match.specs.Machine.{plain_lexeme, query_within};

use crate::lexeme::Lexeme;
use crate::lexer::lexemes_of;
use crate::limits::{MOST_BYTES, is_too_large};
use crate::machine::query_from;
use crate::query::{Query, QueryFault};
use std::alloc::Global;

// As which query these lexemes read, where they don't ask for too much.
fn read(
    alloc: Global,
    default: Option<usize>,
    lexemes: Vec<Lexeme>,
) -> Result<Option<Query>, QueryFault>
    ensures ok { IfOk result (λ query. query_within default (map plain_lexeme lexemes.items)
        ≡ Ok (option_map tree_of query)) }
    ensures fault { IfErr result (λ fault. fault ≢ QueryFault.Memory
        → query_within default (map plain_lexeme lexemes.items) ≡ Err fault) }
{
    if is_too_large(&lexemes) {
        return Err(QueryFault::TooLarge);
    }
    if lexemes.is_empty() {
        return Ok(None);
    }
    match query_from(alloc, default, lexemes)? {
        Some(query) => Ok(Some(query)),
        None => Err(QueryFault::Malformed),
    }
}

fn has_zero(text: &str) -> bool
    ensures { result ≡ list_any (λ b. b == 0) text.now }
{
    text.as_bytes().contains(&0)
}

/// Reads a MATCH query ("Full-text Index Queries" and "Set Operations Using The Enhanced Query
/// Syntax" of the SQLite document "SQLite FTS3 and FTS4 Extensions"). A phrase with no filter
/// searches the default column, or all columns. `None` is a text with no lexeme, which finds
/// nothing.
///
/// # Errors
///
/// The first that applies of these, each an own choice; `Memory` may come in place of any answer:
///
/// 1. `TooLarge`: the text has over 10,000 bytes.
/// 2. `Malformed`: a quote isn't closed, or the text has U+0000.
/// 3. `TooLarge`: over 64 terms, a number of NEAR over 1,000,000, or over 32 parentheses around one
///    place.
/// 4. `Malformed`: the lexemes read as no query.
pub fn parse(
    alloc: Global,
    text: &str,
    columns: &[String],
    default: Option<usize>,
) -> Result<Option<Query>, QueryFault>
    ensures ok { IfOk result (λ query.
        query_of (map string_bytes columns.now) default text.now ≡ Ok (option_map tree_of query)) }
    ensures fault { IfErr result (λ fault. fault ≢ QueryFault.Memory
        → query_of (map string_bytes columns.now) default text.now ≡ Err fault) }
{
    if text.len() > MOST_BYTES {
        return Err(QueryFault::TooLarge);
    }
    if has_zero(text) {
        return Err(QueryFault::Malformed);
    }
    match lexemes_of(alloc, columns, text)? {
        None => Err(QueryFault::Malformed),
        Some(lexemes) => read(alloc, default, lexemes),
    }
}
