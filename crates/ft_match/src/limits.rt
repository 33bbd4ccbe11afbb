//! The limits on what a query may ask for.
ghost use Rattle.std.specs.Prelude.{◌≡◌, nat_lt, map, sum_by};
ghost use Rattle.std.specs.List.{list_any};
ghost use Rattle.ft_match.specs.Reads.{term_count, is_far, nests_deep};
ghost use Rattle.ft_match.specs.Machine.{plain_lexeme, asks_much};

use crate::lexeme::Lexeme;

/// The most bytes of a query's text.
pub const MOST_BYTES: usize = 10_000;
/// The most terms of a query.
pub const MOST_TERMS: usize = 64;
/// The greatest number of NEAR.
pub const MOST_BETWEEN: usize = 1_000_000;
/// The most parentheses around a place.
pub const MOST_PARENTHESES: usize = 32;

fn term_count(lexeme: &Lexeme) -> usize
    ensures { result ≡ term_count (plain_lexeme lexeme.now) }
{
    match lexeme {
        Lexeme::Word(_) => 1,
        Lexeme::Quoted(terms) => terms.len(),
        _ => 0,
    }
}

#[tactic(auto, using(crate::proofs::LimitTests::terms_counted))]
fn has_many_terms(lexemes: &[Lexeme]) -> bool
    ensures { result ≡ nat_lt 64 (sum_by term_count (map plain_lexeme lexemes.now)) }
{
    let mut left = MOST_TERMS;
    for lexeme in lexemes {
        let count = term_count(lexeme);
        if count > left {
            return true;
        }
        left -= count;
    }
    false
}

fn is_far(lexeme: &Lexeme) -> bool
    ensures { result ≡ is_far (plain_lexeme lexeme.now) }
{
    match lexeme {
        Lexeme::Near(most) => *most > MOST_BETWEEN,
        _ => false,
    }
}

fn has_far_number(lexemes: &[Lexeme]) -> bool
    ensures { result ≡ list_any (λ l. is_far (plain_lexeme l)) lexemes.now }
{
    lexemes.iter().any(is_far)
}

fn nests_deep(lexemes: &[Lexeme]) -> bool
    ensures { result ≡ nests_deep (0, 0) (map plain_lexeme lexemes.now) }
{
    let mut opens = 0usize;
    let mut closes = 0usize;
    for lexeme in lexemes {
        match lexeme {
            Lexeme::Open => opens += 1,
            Lexeme::Close => closes += 1,
            _ => {}
        }
        if opens.saturating_sub(closes) > MOST_PARENTHESES {
            return true;
        }
    }
    false
}

/// There are too many terms, a number of NEAR is too great, or parentheses nest too deep.
#[tactic(auto, using(crate::proofs::LimitTests::numbers_tested))]
pub fn is_too_large(lexemes: &[Lexeme]) -> bool
    ensures { result ≡ asks_much (map plain_lexeme lexemes.now) }
{
    has_many_terms(lexemes) || has_far_number(lexemes) || nests_deep(lexemes)
}
