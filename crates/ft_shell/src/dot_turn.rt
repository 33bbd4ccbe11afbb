//! What a dot-command does in a session.
ghost use Rattle.std.specs.Prelude.{◌≡◌, ◌⊎◌};
ghost use Rattle.shell_text.specs.Dot.{dot_words_of};
ghost use Rattle.shell_io.specs.OutputViews.{answer_as};
ghost use Rattle.ft_statements.specs.Views.{command_as};
ghost use Rattle.ft_statements.specs.Dots.{dot_command_of};
ghost use Rattle.shell_io.specs.Outcomes.{lacks_memory};
ghost use Rattle.ft_shell.specs.Turns.{DotOrLacks};
ghost use Rattle.ft_shell.specs.Shell.{shell_of};
ghost use Rattle.ft_shell.specs.TablesTurns.{TablesTurn};
ghost use Rattle.ft_shell.specs.DotParts as parts;

use crate::import::import_turn;
use ft_calls::TextTables;
use ft_statements::{DotCommand, apply, dot_command, listed_tables, print_text};
use plain_sql::found_tables;
use shell_io::{Answer, Complaint, FaultText, Output, Source};
use shell_text::{Settings, dot_words, write_names};
use sqlite::{Alter, Connection};
use std::alloc::Global;

// Does what a dot-command says.
fn dot_turn<P: Alter, S: Alter, T: TextTables<Over = S>, F: Source>(
    alloc: Global,
    settings: &mut Settings,
    plain: &mut Connection<P>,
    full_text: &mut T,
    source: &mut F,
    command: &DotCommand,
) -> Answer
    ensures { DotOrLacks P.Store S.Store
        (shell_of settings.old plain.old (T.known full_text.old) (F.holds source.old))
        (shell_of settings.new plain.new (T.known full_text.new) (F.holds source.new))
        (answer_as result) (command_as command.now) }
{
    match command {
        DotCommand::Print(words) => {
            let text = print_text(alloc, words.as_slice())?;
            Ok(Output::Bytes(text.into_bytes()))
        }
        DotCommand::Import(what) => import_turn(alloc, settings, plain, full_text, source, what),
        DotCommand::Tables => tables_turn(alloc, plain, full_text),
        DotCommand::Quit => Ok(Output::Quit),
        DotCommand::Usage(usage) => Err(Complaint::from(FaultText::Usage(usage))),
        DotCommand::Unknown => Err(Complaint::fixed("unknown dot-command")),
        _ => set_turn(settings, command),
    }
}

// Changes a setting.
fn set_turn(settings: &mut Settings, command: &DotCommand) -> Answer
    ensures { parts.Sets (command_as command.now) settings.old settings.new (answer_as result)
        ⊎ ((settings.new ≡ settings.old) × (answer_as result ≡ lacks_memory)) }
{
    apply(settings, command)?;
    Ok(Output::Nothing)
}

// What stands after the full stop at its front.
fn after_stop(text: &str) -> &str
    ensures { result.now ≡ parts.after_stop text.now }
{
    match text.as_bytes() {
        [b'.', ..] => &text[1..],
        _ => text,
    }
}

/// Does what a dot line says.
pub(crate) fn dot_line_turn<P: Alter, S: Alter, T: TextTables<Over = S>, F: Source>(
    alloc: Global,
    settings: &mut Settings,
    plain: &mut Connection<P>,
    full_text: &mut T,
    source: &mut F,
    text: &str,
) -> Answer
    ensures { DotOrLacks P.Store S.Store
        (shell_of settings.old plain.old (T.known full_text.old) (F.holds source.old))
        (shell_of settings.new plain.new (T.known full_text.new) (F.holds source.new))
        (answer_as result) (dot_command_of (dot_words_of (parts.after_stop text.now))) }
{
    let words = dot_words(alloc, after_stop(text))?;
    let command = dot_command(alloc, words.as_slice())?;
    dot_turn(alloc, settings, plain, full_text, source, &command)
}

// Lists the full-text tables, and those plain tables that were noted and can be read.
fn tables_turn<P: Alter, S: Alter, T: TextTables<Over = S>>(
    alloc: Global,
    plain: &mut Connection<P>,
    full_text: &mut T,
) -> Answer
    ensures { TablesTurn P.Store S.Store plain.old plain.new (T.known full_text.old)
        (T.known full_text.new) (answer_as result) }
{
    let noted = full_text.noted()?;
    let found = found_tables(alloc, plain, noted.as_slice())?;
    let names = listed_tables(alloc, full_text.tables(), found)?;
    let mut bytes: Vec<u8> = Vec::new(alloc);
    write_names(alloc, names.as_slice(), &mut bytes)?;
    Ok(Output::Bytes(bytes))
}
