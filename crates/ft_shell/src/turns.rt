//! What a unit of the input does in a session, and a statement by its class.
ghost use Rattle.shell_text.specs.Splitting.{member_of_unit};
ghost use Rattle.shell_io.specs.OutputViews.{answer_as};
ghost use Rattle.ft_shell.specs.Turns.{Body};
ghost use Rattle.ft_shell.specs.Shell.{shell_of};
ghost use Rattle.std.specs.Prelude.{◌≡◌, string_bytes, option_map};
ghost use Rattle.ft_shell.specs.StatementTurns.{StatementTurn};
ghost use Rattle.ft_shell.specs.FullTextTurns.{FullTextTurn, NoteTurn};
ghost use Rattle.ft_shell.specs.PlainTurns.{CommandTurn, PlainTurn, OrNothing};
ghost use Rattle.shell_text.specs.Words.{words_of};
ghost use Rattle.ft_statements.specs.Plain.{seeks};
ghost use Rattle.ft_statements.specs.Words.{sql_tokens};
ghost use Rattle.ft_commands.specs.Views as views;

use crate::dot_turn::dot_line_turn;
use ft_calls::TextTables;
use ft_content::{Command, Fault};
use ft_statements::{Class, PlainStatement, read_plain, read_statement, write_reply};
use plain_sql::{query_turn, refusal};
use shell_io::{Answer, Complaint, Output, Source};
use shell_text::{Settings, SqlWord, Unit, UnitKind, sql_words};
use sqlite::{Alter, Connection};
use std::alloc::Global;

/// Runs a unit.
pub(crate) fn unit_turn<P: Alter, S: Alter, T: TextTables<Over = S>, F: Source>(
    alloc: Global,
    settings: &mut Settings,
    plain: &mut Connection<P>,
    full_text: &mut T,
    source: &mut F,
    unit: &Unit,
) -> Answer
    ensures { Body P.Store S.Store (member_of_unit unit.now)
        (shell_of settings.old plain.old (T.known full_text.old) (F.holds source.old))
        (shell_of settings.new plain.new (T.known full_text.new) (F.holds source.new))
        (answer_as result) }
{
    let text = unit.text.as_str();
    match unit.kind {
        UnitKind::Sql => statement_turn(alloc, settings, plain, full_text, text),
        UnitKind::Dot => dot_line_turn(alloc, settings, plain, full_text, source, text),
    }
}

// Runs a statement, by its class.
fn statement_turn<P: Alter, S: Alter, T: TextTables<Over = S>>(
    alloc: Global,
    settings: &Settings,
    plain: &mut Connection<P>,
    full_text: &mut T,
    text: &str,
) -> Answer
    ensures { StatementTurn P.Store S.Store settings.now text.now plain.old plain.new
        (T.known full_text.old) (T.known full_text.new) (answer_as result) }
{
    let words = sql_words(alloc, text)?;
    let words = words.as_slice();
    match read_statement(alloc, text, words, full_text.tables())? {
        Class::Plain => plain_turn(alloc, settings, plain, full_text, text, words),
        Class::FullText(command) => full_text_turn(alloc, settings, full_text, &command),
    }
}

// Executes a command, and prints its reply.
fn full_text_turn<S: Alter, T: TextTables<Over = S>>(
    alloc: Global,
    settings: &Settings,
    full_text: &mut T,
    command: &Command,
) -> Answer
    ensures { FullTextTurn S.Store settings.now (views.command_of command.now)
        (T.known full_text.old) (T.known full_text.new) (answer_as result) }
{
    let reply = full_text.execute(command)?;
    let mut bytes: Vec<u8> = Vec::new(alloc);
    write_reply(alloc, settings, reply, &mut bytes)?;
    Ok(Output::Bytes(bytes))
}

/// Notes the name of a plain table that was made, and gives the warnings of that.
pub(crate) fn note_turn<S: Alter, T: TextTables<Over = S>>(
    full_text: &mut T,
    name: &str,
    warnings: String,
) -> Answer
    ensures { NoteTurn S.Store (string_bytes warnings) name.now (T.known full_text.old)
        (T.known full_text.new) (answer_as result) }
{
    match full_text.note(name) {
        Ok(()) => Ok(Output::Warnings(warnings)),
        Err(fault) => match fault {
            Fault::Memory => Err(Complaint::after(warnings, "out of memory")),
            _ => Err(Complaint::after(warnings, "table not noted")),
        },
    }
}

// Runs what is no query. The name of the table that it makes is noted.
fn command_turn<P: Alter, S: Alter, T: TextTables<Over = S>>(
    alloc: Global,
    plain: &mut Connection<P>,
    full_text: &mut T,
    text: &str,
    statement: &PlainStatement,
) -> Answer
    requires { statement.now.seeks ≡ seeks (sql_tokens text.now) }
    ensures { CommandTurn P.Store S.Store text.now
        (option_map string_bytes statement.now.made) plain.old plain.new (T.known full_text.old)
        (T.known full_text.new) (answer_as result) }
{
    match plain.execute(text, &[]) {
        Ok(_) => match &statement.made {
            Some(name) => note_turn(full_text, name.as_str(), String::new(alloc)),
            None => Ok(Output::Nothing),
        },
        Err(error) => Err(refusal(alloc, error, statement.seeks)),
    }
}

// Runs a statement of plain SQL. The words are those of the text.
fn plain_turn<P: Alter, S: Alter, T: TextTables<Over = S>>(
    alloc: Global,
    settings: &Settings,
    plain: &mut Connection<P>,
    full_text: &mut T,
    text: &str,
    words: &[SqlWord],
) -> Answer
    requires { words.now ≡ words_of text.now }
    ensures { OrNothing (PlainTurn P.Store S.Store settings.now text.now plain.old plain.new
        (T.known full_text.old) (T.known full_text.new) (answer_as result)) plain.old plain.new
        (T.known full_text.old) (T.known full_text.new) (answer_as result) }
{
    let statement = read_plain(alloc, text, words)?;
    if statement.asks {
        return query_turn(alloc, settings, plain, text, statement.seeks);
    }
    command_turn(alloc, plain, full_text, text, &statement)
}
