//! Which class a statement is of.
ghost use Rattle.std.specs.Prelude.{◌≡◌, IfOk};
ghost use Rattle.shell_text.specs.Words.{words_of};
ghost use Rattle.ft_commands.specs.Views as views;
ghost use Rattle.ft_values.specs.Names.{info_names};
ghost use Rattle.ft_statements.specs.Words as tokens;
ghost use Rattle.ft_statements.specs.Reading.{read};
ghost use Rattle.ft_statements.specs.Grammar as grammar;
ghost use Rattle.ft_statements.specs.Statements as forms;
ghost use Rattle.ft_statements.specs.Views.{seen, plain, rest_of, Gives, Advances, ReadsClass};

use crate::change::{delete, update};
use crate::create::{create, drop_table};
use crate::insert::insert;
use crate::reading::Reader;
use crate::select::select;
use crate::words::{Token, is_one_of, name_of, tokens_of};
use ft_commands::{Command, StatementFault};
use ft_values::{TableInfo, has_table};
use shell_text::SqlWord;
use std::alloc::{AllocError, Global};

/// Who runs a statement: plain SQL, or full-text tables.
#[derive(Drop)]
pub enum Class {
    Plain,
    FullText(Command),
}

// A command, by its first word.
#[tactic(auto, unfolding(crate::specs::Grammar::command))]
fn command(words: &mut Reader<'_>) -> Result<Command, StatementFault>
    ensures { Advances views.command_of (read grammar.command) words.old words.new result }
{
    if words.stands("CREATE") {
        create(words)
    } else if words.stands("DROP") {
        drop_table(words)
    } else if words.stands("INSERT") {
        insert(words)
    } else if words.stands("UPDATE") {
        update(words)
    } else if words.stands("DELETE") {
        delete(words)
    } else {
        select(words)
    }
}

// The command that all of the words spell.
#[tactic(auto, unfolding(crate::specs::Statements::spelled_command, crate::specs::Grammar::statement))]
fn statement(mut words: Reader<'_>) -> Result<Command, StatementFault>
    ensures { Gives views.command_of result (forms.spelled_command (rest_of words.entry)) }
{
    let command = command(&mut words)?;
    words.done()?;
    Ok(command)
}

// The words after which a full-text table's name makes a statement full-text.
const LEADS: [&str; 6] = ["FROM", "INTO", "UPDATE", "TABLE", "JOIN", "EXISTS"];

// Whether this word is the name of one of these tables.
fn is_table(alloc: Global, tables: &[TableInfo], word: &Token<'_>) -> Result<bool, AllocError>
    ensures { IfOk result (λ is. is ≡ forms.is_table (info_names tables.now)
        (seen word.now)) }
{
    match name_of(alloc, word) {
        Ok(name) => Ok(has_table(tables, name.as_str())),
        Err(StatementFault::Syntax) => Ok(false),
        Err(StatementFault::Memory) => Err(AllocError),
    }
}

// Whether one of these tables is named after a word that leads to it.
fn names_table(alloc: Global, tables: &[TableInfo], words: &[Token<'_>]) -> Result<bool, AllocError>
    ensures { IfOk result (λ names. names ≡ forms.names_table (info_names tables.now)
        (plain words.now)) }
{
    for place in 1..words.len() {
        if is_one_of(&words[place - 1], &LEADS) && is_table(alloc, tables, &words[place])? {
            return Ok(true);
        }
    }
    Ok(false)
}

fn is_full_text(mut words: Reader<'_>, tables: &[TableInfo]) -> Result<bool, AllocError>
    ensures { IfOk result (λ is. is ≡ forms.is_full_text (info_names tables.now)
        (rest_of words.entry)) }
{
    if words.takes_all(&["CREATE", "VIRTUAL"]) {
        return Ok(true);
    }
    names_table(words.alloc, tables, words.left)
}

/// The class of a statement, where these full-text tables are there, as the grammar of full-text
/// statements spells it. A full-text statement is one that begins with CREATE VIRTUAL or names one
/// of the tables directly after FROM, INTO, UPDATE, TABLE, JOIN or EXISTS; one that spells no
/// command has no class and is refused as `Syntax`. Any other is plain. The words are those of the
/// text.
#[tactic(auto, unfolding(crate::specs::Statements::class_of), using(crate::proofs::GrammarClass::class_sound, crate::proofs::GrammarClass::no_class_is))]
pub fn read_statement(
    alloc: Global,
    text: &str,
    words: &[SqlWord],
    tables: &[TableInfo],
) -> Result<Class, StatementFault>
    requires { words.now ≡ words_of text.now }
    ensures { ReadsClass (info_names tables.now) (tokens.sql_tokens text.now) result }
{
    let tokens = tokens_of(alloc, text, words)?;
    let left = tokens.as_slice();
    if !is_full_text(Reader { alloc, left }, tables)? {
        return Ok(Class::Plain);
    }
    Ok(Class::FullText(statement(Reader { alloc, left })?))
}
