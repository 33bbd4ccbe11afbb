//! INSERT and the special commands.
ghost use Rattle.std.specs.Prelude.{◌≡◌, List, option_map, string_bytes};
ghost use Rattle.ft_values.specs.Cells.{Cell};
ghost use Rattle.ft_commands.specs.Views as views;
ghost use Rattle.ft_statements.specs.Reading.{read};
ghost use Rattle.ft_statements.specs.Grammar as forms;
ghost use Rattle.ft_statements.specs.Views.{Gives, Advances};
ghost use Rattle.ft_commands.specs.Views.{texts_of};

use crate::reading::{Reader, Spelled};
use ft_commands::{Command, Insertion, StatementFault};
use ft_values::Value;

// The special command of this word.
fn special_of(table: String, word: &str) -> Result<Command, StatementFault>
    ensures { Gives views.command_of result (forms.special_of (string_bytes table) word.now) }
{
    if word.eq_ignore_ascii_case("rebuild") {
        Ok(Command::Rebuild { table })
    } else if word.eq_ignore_ascii_case("integrity-check") {
        Ok(Command::Check { table })
    } else if word.eq_ignore_ascii_case("optimize") {
        Ok(Command::Optimize { table })
    } else {
        Err(StatementFault::Syntax)
    }
}

// A special command: the one column is named as the table.
#[tactic(auto, unfolding(crate::specs::Grammar::special))]
fn special(words: &mut Reader<'_>) -> Result<Command, StatementFault>
    ensures { Advances views.command_of (read forms.special) words.old words.new result }
{
    words.word("INSERT")?;
    words.word("INTO")?;
    let table = words.name()?;
    words.word("(")?;
    let column = words.name()?;
    words.word(")")?;
    words.word("VALUES")?;
    words.word("(")?;
    let word = words.literal()?;
    words.word(")")?;
    words.done()?;
    if !column.as_str().eq_ignore_ascii_case(table.as_str()) {
        return Err(StatementFault::Syntax);
    }
    special_of(table, word.as_str())
}

// A list of names, if a parenthesis stands there.
#[tactic(auto, unfolding(crate::specs::Grammar::columns))]
fn columns(words: &mut Reader<'_>) -> Result<Option<Vec<String>>, StatementFault>
    ensures { Advances (option_map texts_of) (read forms.columns) words.old words.new result }
{
    if !words.takes("(") {
        return Ok(None);
    }
    let names = words.list()?;
    words.word(")")?;
    Ok(Some(names))
}

// The values of a row, in parentheses.
impl Spelled for Vec<Value> {
    ghost Form = { List Cell };

    ghost shown = { views.cells_of };

    ghost form = { read forms.row };

    #[tactic(auto, unfolding(crate::specs::Grammar::row))]
    fn read(words: &mut Reader<'_>) -> Result<Vec<Value>, StatementFault> {
        words.word("(")?;
        let values = words.list()?;
        words.word(")")?;
        Ok(values)
    }
}

// An INSERT of rows.
#[tactic(auto, unfolding(crate::specs::Grammar::insert_rows))]
fn insert_rows(words: &mut Reader<'_>) -> Result<Command, StatementFault>
    ensures { Advances views.command_of (read forms.insert_rows) words.old words.new result }
{
    words.word("INSERT")?;
    words.word("INTO")?;
    let table = words.name()?;
    let columns = columns(words)?;
    words.word("VALUES")?;
    let rows = words.list()?;
    Ok(Command::Insert(Insertion {
        table,
        columns,
        rows,
    }))
}

/// A special command, or else an INSERT of rows.
#[tactic(auto, unfolding(crate::specs::Grammar::insert))]
pub(crate) fn insert(words: &mut Reader<'_>) -> Result<Command, StatementFault>
    ensures { Advances views.command_of (read forms.insert) words.old words.new result }
{
    let start = *words;
    match special(words) {
        Err(StatementFault::Syntax) => {
            *words = start;
            insert_rows(words)
        }
        command => command,
    }
}
