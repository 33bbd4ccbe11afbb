//! The lexemes of a MATCH text.
ghost use Rattle.std.specs.Prelude.{◌≡◌, ◌++◌, ◌==◌, ◌&&◌, not, true, false, map, flat_map, string_bytes, MatchOption, IfOk, OnOk};
ghost use Rattle.std.specs.List.{list_any};
ghost use Rattle.ft_match.specs.Lexemes.{parts_of, lexemes_of_part, lexemes_of};
ghost use Rattle.ft_match.specs.Reads.{is_unclosed_part};
ghost use Rattle.ft_match.specs.Machine.{plain_lexeme, capped, byte_mark, parts_ended, begun_part, ends_begun};

use crate::lexeme::{Lexeme, push_chunk, terms_of};
use std::alloc::{AllocError, Global};

// The byte ends the quoted part or the chunk that is begun.
fn ends_part(in_quote: bool, byte: u8) -> bool
    ensures { result ≡ ends_begun in_quote (byte_mark byte) }
{
    if in_quote {
        byte == b'"'
    } else {
        matches!(byte, b'"' | b'(' | b')' | 9..=13 | b' ')
    }
}

// A quoted part begins after a byte that ends what was begun.
fn begins_quote(in_quote: bool, byte: u8) -> bool
    ensures { result ≡ (not in_quote && byte == 34) }
{
    !in_quote && byte == b'"'
}

// Adds the lexemes of the part that the byte ends, and of the parenthesis that it is.
fn push_part(
    alloc: Global,
    columns: &[String],
    found: &mut Vec<Lexeme>,
    part: &str,
    in_quote: bool,
    byte: u8,
) -> Result<(), AllocError>
    requires { ends_begun in_quote (byte_mark byte) ≡ true }
    ensures { OnOk result (map plain_lexeme found.new.items
        ≡ map plain_lexeme found.old.items ++ map capped
        (flat_map (lexemes_of_part (map string_bytes columns.now))
        (parts_ended (begun_part in_quote part.now) (byte_mark byte)))) }
{
    if in_quote {
        found.push(Lexeme::Quoted(terms_of(alloc, part)?))?;
        return Ok(());
    }
    push_chunk(alloc, columns, found, part)?;
    match byte {
        b'(' => found.push(Lexeme::Open)?,
        b')' => found.push(Lexeme::Close)?,
        _ => {}
    }
    Ok(())
}

/// The lexemes of a text among columns of these names, or `None` where a quote isn't closed.
pub fn lexemes_of(
    alloc: Global,
    columns: &[String],
    text: &str,
) -> Result<Option<Vec<Lexeme>>, AllocError>
    ensures { IfOk result (λ found. MatchOption found
        (list_any is_unclosed_part (parts_of text.now) ≡ true)
        (λ ls. (list_any is_unclosed_part (parts_of text.now) ≡ false)
        × (map plain_lexeme ls.items ≡ map capped
        (lexemes_of (map string_bytes columns.now) text.now)))) }
{
    let mut found: Vec<Lexeme> = Vec::new(alloc);
    let mut start = 0;
    let mut in_quote = false;
    for (place, byte) in text.as_bytes().iter().enumerate() {
        if ends_part(in_quote, *byte) {
            let part = &text[start..place];
            push_part(alloc, columns, &mut found, part, in_quote, *byte)?;
            in_quote = begins_quote(in_quote, *byte);
            start = place + 1;
        }
    }
    if in_quote {
        return Ok(None);
    }
    push_chunk(alloc, columns, &mut found, &text[start..])?;
    Ok(Some(found))
}
