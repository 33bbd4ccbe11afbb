//! Words of a statement with their texts.
ghost use Rattle.std.specs.Prelude.{◌≡◌, false, chars, string_bytes, encode_utf8_all, IfOk};
ghost use Rattle.std.specs.List.{list_any};
ghost use Rattle.shell_text.specs.Words.{words_of};
ghost use Rattle.ft_statements.specs.Words as forms;
ghost use Rattle.ft_statements.specs.Views.{seen, plain, Gives};

use ft_commands::StatementFault;
use shell_text::{SqlKind, SqlWord, words_on_characters};
use std::alloc::{AllocError, Global};

/// A word and its text, with the marks of a literal or a quoted name.
#[derive(Clone, Copy)]
pub(crate) struct Token<'a> {
    pub(crate) kind: SqlKind,
    pub(crate) text: &'a str,
}

/// The words of a text, each with its own.
pub(crate) fn tokens_of<'a>(
    alloc: Global,
    text: &'a str,
    words: &[SqlWord],
) -> Result<Vec<Token<'a>>, AllocError>
    requires { words.now ≡ words_of text.now }
    ensures { IfOk result (λ tokens. plain tokens.items ≡ forms.sql_tokens text.now) }
{
    words_on_characters();
    let mut tokens = Vec::new(alloc);
    for word in words {
        tokens.push(Token {
            kind: word.kind,
            text: &text[word.start..word.start + word.size],
        })?;
    }
    Ok(tokens)
}

/// Whether a word is this one, a keyword or a single character.
pub(crate) fn is_word(token: &Token<'_>, word: &str) -> bool
    ensures { result ≡ forms.spells word.now (seen token.now) }
{
    matches!(token.kind, SqlKind::Word | SqlKind::Symbol) && token.text.eq_ignore_ascii_case(word)
}

/// Whether a word is one of these.
pub(crate) fn is_one_of(token: &Token<'_>, words: &[&str]) -> bool
    ensures { result ≡ list_any (λ word. forms.spells word.now (seen token.now)) words.now }
{
    words.iter().any(|word| is_word(token, word))
}

fn closing(mark: char) -> char
    ensures { result ≡ forms.closing mark }
{
    if mark == '[' { ']' } else { mark }
}

// The characters of a text, with one mark for two.
fn halved(alloc: Global, mark: char, text: &str) -> Result<String, AllocError>
    ensures { IfOk result (λ found. string_bytes found
        ≡ encode_utf8_all (forms.halved mark false (chars text.now))) }
{
    let mut found = String::new(alloc);
    let mut after = false;
    for c in text.chars() {
        if after && c == mark {
            after = false;
        } else {
            found.push(c)?;
            after = c == mark;
        }
    }
    Ok(found)
}

// The text between marks, of which the closing one is doubled.
fn without_marks(alloc: Global, text: &str) -> Result<String, AllocError>
    ensures { IfOk result (λ found. string_bytes found ≡ forms.without_marks text.now) }
{
    let mut inside = text.chars();
    let Some(mark) = inside.next() else {
        return Ok(String::new(alloc));
    };
    inside.next_back();
    halved(alloc, closing(mark), inside.as_str())
}

/// The text that a word stands for.
pub(crate) fn bare(alloc: Global, token: &Token<'_>) -> Result<String, AllocError>
    ensures { IfOk result (λ text. string_bytes text ≡ forms.bare (seen token.now)) }
{
    match token.kind {
        SqlKind::Quoted | SqlKind::Text => without_marks(alloc, token.text),
        _ => token.text.to_string(alloc),
    }
}

/// The name that a word is.
pub(crate) fn name_of(alloc: Global, token: &Token<'_>) -> Result<String, StatementFault>
    ensures { Gives string_bytes result (forms.name_of (seen token.now)) }
{
    match token.kind {
        SqlKind::Word | SqlKind::Quoted => Ok(bare(alloc, token)?),
        _ => Err(StatementFault::Syntax),
    }
}

/// The text of a literal.
pub(crate) fn literal_of(alloc: Global, token: &Token<'_>) -> Result<String, StatementFault>
    ensures { Gives string_bytes result (forms.literal_of (seen token.now)) }
{
    match token.kind {
        SqlKind::Text => Ok(without_marks(alloc, token.text)?),
        _ => Err(StatementFault::Syntax),
    }
}
