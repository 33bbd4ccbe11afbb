//! What is asked of a plain statement.
ghost use Rattle.std.specs.Prelude.{◌≡◌, codes, string_bytes, IfOk, Some};
ghost use Rattle.std.specs.List.{list_any};
ghost use Rattle.shell_text.specs.Words.{words_of};
ghost use Rattle.ft_statements.specs.Words as tokens;
ghost use Rattle.ft_statements.specs.Reading.{read};
ghost use Rattle.ft_statements.specs.Plain as forms;
ghost use Rattle.ft_statements.specs.Views.{seen, plain, rest_of, Gives, IsRunAs};

use crate::reading::Reader;
use crate::words::{Token, is_one_of, is_word, tokens_of};
use ft_commands::StatementFault;
use shell_text::SqlWord;
use std::alloc::{AllocError, Global};

/// How a plain statement is run.
#[derive(Drop)]
pub struct PlainStatement {
    /// Whether it is run as a query, whose rows are printed.
    pub asks: bool,
    /// Whether MATCH is one of its words.
    pub seeks: bool,
    /// The name of the table that it makes, if it is a CREATE TABLE.
    pub made: Option<String>,
}

// Whether this is one of the words.
fn has(words: &[Token<'_>], this: &str) -> bool
    ensures { result ≡ list_any (λ word. tokens.spells this.now (seen word)) words.now }
{
    words.iter().any(|word| is_word(word, this))
}

// Whether MATCH is one of the words.
fn seeks(words: &[Token<'_>]) -> bool
    ensures { result ≡ forms.seeks (plain words.now) }
{
    has(words, "MATCH")
}

// Whether a statement of these words is run as a query.
fn asks(words: &[Token<'_>]) -> bool
    ensures { result ≡ forms.asks (plain words.now) }
{
    let [first, rest @ ..] = words else {
        return false;
    };
    is_one_of(first, &["SELECT", "VALUES", "WITH"])
        || is_one_of(first, &["INSERT", "UPDATE", "DELETE", "REPLACE"]) && has(rest, "RETURNING")
}

// Passes TEMP or TEMPORARY, if one of them stands there.
#[tactic(auto, unfolding(crate::specs::Plain::temporary))]
fn temporary(words: &mut Reader<'_>)
    ensures { Some (tt, rest_of words.new) ≡ read forms.temporary (rest_of words.old) }
{
    if !words.takes("TEMP") {
        words.takes("TEMPORARY");
    }
}

// The name that a CREATE TABLE gives.
fn made_name(mut words: Reader<'_>) -> Result<String, StatementFault>
    ensures { Gives string_bytes result (forms.made_name (rest_of words.entry)) }
{
    words.word("CREATE")?;
    temporary(&mut words);
    words.word("TABLE")?;
    words.takes_all(&["IF", "NOT", "EXISTS"]);
    words.name()
}

/// How a plain statement is run: as a query where its first word is SELECT, VALUES or WITH, or
/// where it writes and RETURNING stands after its first word. The words are those of the text.
pub fn read_plain(
    alloc: Global,
    text: &str,
    words: &[SqlWord],
) -> Result<PlainStatement, AllocError>
    requires { words.now ≡ words_of text.now }
    ensures { IfOk result (IsRunAs (tokens.sql_tokens text.now)) }
{
    let tokens = tokens_of(alloc, text, words)?;
    let left = tokens.as_slice();
    let (asks, seeks) = (asks(left), seeks(left));
    let made = match made_name(Reader { alloc, left }) {
        Ok(name) => Some(name),
        Err(StatementFault::Syntax) => None,
        Err(StatementFault::Memory) => return Err(AllocError),
    };
    Ok(PlainStatement { asks, seeks, made })
}
