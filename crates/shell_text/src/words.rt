//! Words of SQL.

ghost use Rattle.std.specs.Prelude.{◌≡◌, ◌==◌, ◌+◌, List, ℕ, false, true, slice_get, All, IsCharBoundary};
ghost use Rattle.std.specs.Str.{IsUtf8};
ghost use Rattle.shell_text.specs.declared.words.LexFault.TheVariants.{Memory};
ghost use Rattle.shell_text.specs.Words.{IsRising, Piece, pieces_of, begins_word, begun, ends_line, goes_on_word, in_comment, in_marks, in_number, in_word, is_space, next_is, turn, words_of, FindsWords};
ghost use Rattle.shell_text.specs.WordForms.{ArePieces};

use std::alloc::{AllocFailed, Global};
use thiserror::Error;

/// What kind of word stands in a text.
#[derive(Clone, Copy, Debug, PartialEq, Eq)]
pub enum SqlKind {
    Word,
    Quoted,
    Text,
    Number,
    Symbol,
}

/// A word, by its place in the text: its first byte, from 0, and how many bytes it has.
#[derive(Clone, Copy, Debug)]
pub struct SqlWord {
    pub kind: SqlKind,
    pub start: usize,
    pub size: usize,
}

/// Why a text has no list of words.
#[derive(Debug, Drop, Error)]
pub enum LexFault {
    #[error("a literal, a quoted name or a comment is not closed")]
    Open,
    #[error("out of memory")]
    Memory,
}

impl<T: Drop> From<AllocFailed<T>> for LexFault {
    ghost from_gives = { λ _ e. e ≡ Memory };

    fn from(_failed: AllocFailed<T>) -> LexFault {
        LexFault::Memory
    }
}

/// What the next byte of a text stands in.
#[derive(Clone, Copy)]
pub(crate) enum Place {
    Between,
    InWord,
    InNumber,
    InText,
    TextMark,
    InDouble,
    DoubleMark,
    InBackquotes,
    BackquoteMark,
    InBrackets,
    LineComment,
    CommentMark,
    BlockComment,
    Star,
}

/// What ends with a byte.
#[derive(Clone, Copy)]
pub(crate) enum Ended {
    Word(SqlKind),
    Gap,
}

/// What a byte does: it leads on inside a piece, or is the last byte of one.
#[derive(Clone, Copy)]
pub(crate) enum Turn {
    Goes(Place),
    Ends(Ended),
}

fn is_space(b: u8) -> bool
    ensures { result ≡ is_space b }
{
    matches!(b, b'\t' | b'\n' | 0x0C | b'\r' | b' ')
}

fn begins_word(b: u8) -> bool
    ensures { result ≡ begins_word b }
{
    b.is_ascii_alphabetic() || b == b'_' || b >= 128
}

fn goes_on_word(b: u8) -> bool
    ensures { result ≡ goes_on_word b }
{
    begins_word(b) || b.is_ascii_digit() || b == b'$'
}

pub(crate) fn is_next(next: Option<u8>, mark: u8) -> bool
    ensures { result ≡ next_is (λ c. c == mark) next }
{
    match next {
        Some(c) => c == mark,
        None => false,
    }
}

fn ends_line(next: Option<u8>) -> bool
    ensures { result ≡ ends_line next }
{
    match next {
        Some(c) => c == b'\n',
        None => true,
    }
}

fn in_word(next: Option<u8>) -> Turn
    ensures { result ≡ in_word next }
{
    match next {
        Some(c) if goes_on_word(c) => Turn::Goes(Place::InWord),
        _ => Turn::Ends(Ended::Word(SqlKind::Word)),
    }
}

fn in_number(next: Option<u8>) -> Turn
    ensures { result ≡ in_number next }
{
    match next {
        Some(c) if c.is_ascii_digit() => Turn::Goes(Place::InNumber),
        _ => Turn::Ends(Ended::Word(SqlKind::Number)),
    }
}

// A byte of what goes up to a mark, by the place after the first of two marks.
fn in_marks(inside: Place, doubled: Place, kind: SqlKind, mark: u8, b: u8, next: Option<u8>) -> Turn
    ensures { result ≡ in_marks inside doubled kind mark b next }
{
    if b != mark {
        Turn::Goes(inside)
    } else if is_next(next, mark) {
        Turn::Goes(doubled)
    } else {
        Turn::Ends(Ended::Word(kind))
    }
}

// What a byte does at which a piece begins, by the byte after it.
#[tactic(auto, unfolding(crate::specs::Words::begun))]
fn begun(b: u8, next: Option<u8>) -> Turn
    ensures { result ≡ begun b next }
{
    if is_space(b) {
        Turn::Ends(Ended::Gap)
    } else if b == b'-' && is_next(next, b'-') {
        Turn::Goes(Place::LineComment)
    } else if b == b'/' && is_next(next, b'*') {
        Turn::Goes(Place::CommentMark)
    } else if b == b'\'' {
        Turn::Goes(Place::InText)
    } else if b == b'"' {
        Turn::Goes(Place::InDouble)
    } else if b == b'`' {
        Turn::Goes(Place::InBackquotes)
    } else if b == b'[' {
        Turn::Goes(Place::InBrackets)
    } else if begins_word(b) {
        in_word(next)
    } else if b.is_ascii_digit() {
        in_number(next)
    } else {
        Turn::Ends(Ended::Word(SqlKind::Symbol))
    }
}

fn in_comment(b: u8) -> Turn
    ensures { result ≡ in_comment b }
{
    if b == b'*' {
        Turn::Goes(Place::Star)
    } else {
        Turn::Goes(Place::BlockComment)
    }
}

/// What a byte does at a place, by the byte after it.
#[tactic(auto, unfolding(crate::specs::Words::turn))]
pub(crate) fn turn_of(place: Place, b: u8, next: Option<u8>) -> Turn
    ensures { result ≡ turn place b next }
{
    match place {
        Place::Between => begun(b, next),
        Place::InWord => in_word(next),
        Place::InNumber => in_number(next),
        Place::InText => in_marks(place, Place::TextMark, SqlKind::Text, b'\'', b, next),
        Place::TextMark => Turn::Goes(Place::InText),
        Place::InDouble => in_marks(place, Place::DoubleMark, SqlKind::Quoted, b'"', b, next),
        Place::DoubleMark => Turn::Goes(Place::InDouble),
        Place::InBackquotes => {
            in_marks(place, Place::BackquoteMark, SqlKind::Quoted, b'`', b, next)
        }
        Place::BackquoteMark => Turn::Goes(Place::InBackquotes),
        Place::InBrackets if b == b']' => Turn::Ends(Ended::Word(SqlKind::Quoted)),
        Place::InBrackets => Turn::Goes(Place::InBrackets),
        Place::LineComment if ends_line(next) => Turn::Ends(Ended::Gap),
        Place::LineComment => Turn::Goes(Place::LineComment),
        Place::CommentMark => Turn::Goes(Place::BlockComment),
        Place::Star if b == b'/' => Turn::Ends(Ended::Gap),
        Place::Star | Place::BlockComment => in_comment(b),
    }
}

pub(crate) fn byte_at(text: &[u8], i: usize) -> Option<u8>
    ensures { result ≡ slice_get text.now i }
{
    if i < text.len() { Some(text[i]) } else { None }
}

/// The words of a text, in order. Where a literal, a quoted name or a block comment is not
/// closed the text has none: `Open`.
pub fn sql_words(alloc: Global, text: &str) -> Result<Vec<SqlWord>, LexFault>
    ensures { FindsWords text.now result }
{
    let bytes = text.as_bytes();
    let mut words = Vec::new(alloc);
    let mut place = Place::Between;
    let mut start = 0;
    for (i, b) in bytes.iter().enumerate() {
        match turn_of(place, *b, byte_at(bytes, i + 1)) {
            Turn::Goes(to) => place = to,
            Turn::Ends(Ended::Word(kind)) => {
                words.push(SqlWord {
                    kind,
                    start,
                    size: i + 1 - start,
                })?;
                place = Place::Between;
                start = i + 1;
            }
            Turn::Ends(Ended::Gap) => {
                place = Place::Between;
                start = i + 1;
            }
        }
    }
    match place {
        Place::Between => Ok(words),
        _ => Err(LexFault::Open),
    }
}

/// Words of a text have at least one byte each, and rise.
pub fn words_rise()
    ensures { (text : List ℕ) → IsRising 0 (words_of text) }
{}

/// Words of a text begin and end where it may be cut.
pub fn words_on_characters()
    ensures { (text : List ℕ) → IsUtf8 text
        → All (λ w. IsCharBoundary text w.start × IsCharBoundary text (w.start + w.size))
        (words_of text) }
{}

/// A text falls into pieces of the forms in one way, which is the computed one: its words are those
/// of that reading.
pub fn words_by_forms()
    ensures computed { (text : List ℕ) → ArePieces text (pieces_of text) }
    ensures once { (text : List ℕ) (ps : List Piece) → ArePieces text ps → ps ≡ pieces_of text }
{}
