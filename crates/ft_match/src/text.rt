//! The simple tokenizer.
ghost use Rattle.std.specs.Prelude.{◌≡◌, ◌<◌, ◌≤◌, ◌+◌, ◌∷◌, ◌++◌, [], ℕ, length, map, slice_index, IsTrue, IfOk, OnErr, MatchOption, IsCharBoundary};
ghost use Rattle.ft_match.specs.Tokens.{AreTokens, is_eligible, plain_token, token_of, small_range, tokens_of};
ghost use Rattle.ft_match.specs.Cutting.{tokens_left};

use std::alloc::{AllocError, Global};
use std::marker::Model;

/// A term and where it stands: its number and its place in the text, from 0, and its size in bytes.
#[derive(Debug, Drop)]
pub struct Token {
    pub term: String,
    pub pos: usize,
    pub start: usize,
    pub size: usize,
}

/// Whether a byte belongs to a term: an ASCII letter or digit, or a byte of a character past ASCII.
pub fn is_eligible(byte: u8) -> bool
    ensures { result ≡ is_eligible byte }
{
    byte.is_ascii_alphanumeric() || byte >= 128
}

// Where the first token from a place on begins, or the text's end.
fn token_start(text: &str, from: usize) -> usize
    requires { IsCharBoundary text.now from }
    ensures later { from ≤ result }
    ensures cut { IsCharBoundary text.now result }
    ensures same { (count : ℕ)
        → tokens_left text.now count from ≡ tokens_left text.now count result }
    ensures begun { result < length text.now
        → IsTrue (is_eligible (slice_index text.now result)) }
{
    let bytes = text.as_bytes();
    let mut place = from;
    while place < bytes.len() && !is_eligible(bytes[place]) {
        place += 1;
    }
    place
}

// Where a token ends that begins at a place.
fn token_end(text: &str, start: usize) -> usize
    requires { IsCharBoundary text.now start }
    ensures later { start ≤ result }
    ensures some { start < length text.now
        → IsTrue (is_eligible (slice_index text.now start)) → start < result }
    ensures cut { IsCharBoundary text.now result }
    ensures token { (count : ℕ) → start < result → tokens_left text.now count start
        ≡ token_of count start (small_range text.now start result)
        ++ tokens_left text.now (count + 1) result }
{
    let bytes = text.as_bytes();
    let mut place = start;
    while place < bytes.len() && is_eligible(bytes[place]) {
        place += 1;
    }
    place
}

/// Cuts a text into its tokens, one at a time, by the tokenizer "simple" ("Tokenizers" of the
/// SQLite document "SQLite FTS3 and FTS4 Extensions"): a token is a run of eligible bytes that goes
/// as far as it can, its letters A to Z made small.
#[derive(Drop)]
pub struct Tokenizer<'a> {
    alloc: Global,
    text: &'a str,
    // where what is left of the text begins, and how many tokens came before
    place: usize,
    count: usize,
}

impl<'a> Model for Tokenizer<'a> {
    ghost use Rattle.std.specs.Prelude.{List, ◌≤◌, IsCharBoundary};
    ghost use Rattle.std.specs.Coded.{coded_list};
    ghost use Rattle.ft_match.specs.Tokens.{PlainToken};
    ghost use Rattle.ft_match.specs.Cutting.{plain_code, tokens_left};

    ghost Value = { List PlainToken };

    ghost coded = { coded_list plain_code };

    ghost view = { λ t. tokens_left t.text.now t.count t.place };

    ghost invariant = { λ t. IsCharBoundary t.text.now t.place × (t.count ≤ t.place) };
}

impl<'a> Tokenizer<'a> {
    /// A tokenizer before the first token of a text.
    pub fn new(alloc: Global, text: &'a str) -> Tokenizer<'a>
        ensures { result ≡ tokens_of text.now }
    {
        Tokenizer {
            alloc,
            text,
            place: 0,
            count: 0,
        }
    }

    /// The next token, or none after the last, also when it is asked again. Where there is no
    /// memory for its term, it is still to come.
    pub fn next(&mut self) -> Result<Option<Token>, AllocError>
        ensures next { IfOk result (λ found. MatchOption found
            ((self.old ≡ []) × (self.new ≡ []))
            (λ token. self.old ≡ plain_token token ∷ self.new)) }
        ensures refused { OnErr result (self.new ≡ self.old) }
    {
        let start = token_start(self.text, self.place);
        let end = token_end(self.text, start);
        if start == end {
            return Ok(None);
        }
        let term = self.text[start..end].to_ascii_lowercase(self.alloc)?;
        let token = Token {
            term,
            pos: self.count,
            start,
            size: end - start,
        };
        self.place = end;
        self.count += 1;
        Ok(Some(token))
    }
}

/// All tokens of a text, as a `Tokenizer` cuts them.
pub fn tokens(alloc: Global, text: &str) -> Result<Vec<Token>, AllocError>
    ensures are { IfOk result (λ v. AreTokens text.now (map plain_token v.items)) }
    ensures computed { IfOk result (λ v. map plain_token v.items ≡ tokens_of text.now) }
{
    let mut found: Vec<Token> = Vec::new(alloc);
    let mut tokenizer = Tokenizer::new(alloc, text);
    while let Some(token) = tokenizer.next()? {
        found.push(token)?;
    }
    Ok(found)
}
