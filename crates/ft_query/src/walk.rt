//! What a walk over the documents that a query accepts gives.
ghost use Rattle.std.specs.Prelude.{◌≡◌, [], ◌∷◌, ◌++◌, decimal, string_bytes, IfOk, IfSome, OnOk};
ghost use Rattle.std.specs.List.{join_with_byte};
ghost use Rattle.ft_match.specs.Occurs.{offsets_text};

mod cursor;
mod joint;
mod load;
mod matches;
mod search;
mod spine;
mod starts;
mod visit;

pub(crate) use crate::standing::Steps;
pub(crate) use cursor::Cursor;
use ft_match::Offset;
use itoa::Buffer;
pub(crate) use load::load;
pub use matches::Matches;
pub(crate) use search::search;
use std::alloc::{AllocError, Global};
pub(crate) use visit::Wanted;

fn push_number(text: &mut String, number: usize) -> Result<(), AllocError>
    ensures { OnOk result (string_bytes text.new ≡ string_bytes text.old ++ decimal number) }
{
    let mut buffer = Buffer::new();
    text.push_str(buffer.format(number))
}

// A space and a number of one digit.
fn spaced_digit(number: usize) -> Option<&'static str>
    ensures { IfSome result (λ text. text.now ≡ 32 ∷ decimal number) }
{
    match number {
        0 => Some(" 0"),
        1 => Some(" 1"),
        2 => Some(" 2"),
        3 => Some(" 3"),
        4 => Some(" 4"),
        5 => Some(" 5"),
        6 => Some(" 6"),
        7 => Some(" 7"),
        8 => Some(" 8"),
        9 => Some(" 9"),
        _ => None,
    }
}

// A number after a space. Most have one digit.
fn push_spaced(text: &mut String, number: usize) -> Result<(), AllocError>
    ensures { OnOk result (string_bytes text.new ≡ string_bytes text.old ++ 32 ∷ decimal number) }
{
    if let Some(digit) = spaced_digit(number) {
        return text.push_str(digit);
    }
    text.push_str(" ")?;
    push_number(text, number)
}

// The numbers of an offset but the first.
fn push_others(text: &mut String, offset: &Offset) -> Result<(), AllocError>
    ensures { OnOk result (string_bytes text.new ≡ string_bytes text.old ++ 32 ∷ join_with_byte 32
        (decimal offset.now.term ∷ decimal offset.now.place ∷ decimal offset.now.size ∷ [])) }
{
    push_spaced(text, offset.term)?;
    push_spaced(text, offset.place)?;
    push_spaced(text, offset.size)
}

#[tactic(auto, using(crate::proofs::OffsetTexts::text_split))]
/// The numbers of the offsets, in decimal and separated by single spaces ("The Offsets Function" of
/// the SQLite document "SQLite FTS3 and FTS4 Extensions").
pub fn offsets_text(alloc: Global, offsets: &[Offset]) -> Result<String, AllocError>
    ensures { IfOk result (λ text. string_bytes text ≡ offsets_text offsets.now) }
{
    // four numbers and their spaces have some ten bytes
    let mut text = String::with_capacity(alloc, offsets.len().saturating_mul(10))?;
    let Some((first, rest)) = offsets.split_first() else {
        return Ok(text);
    };
    push_number(&mut text, first.column)?;
    push_others(&mut text, first)?;
    for offset in rest {
        push_spaced(&mut text, offset.column)?;
        push_others(&mut text, offset)?;
    }
    Ok(text)
}
