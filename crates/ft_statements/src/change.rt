//! Filters, UPDATE and DELETE.
ghost use Rattle.std.specs.Prelude.{◌≡◌, List, ℕ};
ghost use Rattle.ft_values.specs.Cells.{Cell};
ghost use Rattle.ft_commands.specs.Views as views;
ghost use Rattle.ft_statements.specs.Reading.{read};
ghost use Rattle.ft_statements.specs.Grammar as forms;
ghost use Rattle.ft_statements.specs.Views.{rest_of, Advances, Passes};

use crate::reading::{Reader, Spelled};
use crate::values::integer;
use ft_commands::{Command, Deletion, Filter, Modification, StatementFault};
use ft_values::Value;

/// Passes one of the names of the docid.
#[tactic(auto, unfolding(crate::specs::Grammar::key))]
pub(crate) fn key(words: &mut Reader<'_>) -> Result<(), StatementFault>
    ensures { Passes forms.key words.old words.new result }
{
    if words.takes("docid") {
        return Ok(());
    }
    words.word("rowid")
}

// A docid, after its name and an equals sign.
#[tactic(auto, unfolding(crate::specs::Grammar::by_docid))]
fn docid(words: &mut Reader<'_>) -> Result<Filter, StatementFault>
    ensures { Advances views.filter_of (read forms.by_docid) words.old words.new result }
{
    key(words)?;
    words.word("=")?;
    Ok(Filter::Docid(integer(words)?))
}

// A query, after a name and MATCH.
#[tactic(auto, unfolding(crate::specs::Grammar::by_match))]
fn matching(words: &mut Reader<'_>) -> Result<Filter, StatementFault>
    ensures { Advances views.filter_of (read forms.by_match) words.old words.new result }
{
    let name = words.name()?;
    words.word("MATCH")?;
    let query = words.literal()?;
    Ok(Filter::Match { name, query })
}

/// The filter after WHERE, or all documents where that word doesn't stand there.
#[tactic(auto, unfolding(crate::specs::Grammar::filter))]
pub(crate) fn filter(words: &mut Reader<'_>) -> Result<Filter, StatementFault>
    ensures { Advances views.filter_of (read forms.filter) words.old words.new result }
{
    if !words.takes("WHERE") {
        return Ok(Filter::All);
    }
    let start = *words;
    match docid(words) {
        Err(StatementFault::Syntax) => {
            *words = start;
            matching(words)
        }
        read => read,
    }
}

// A column and its new value.
impl Spelled for (String, Value) {
    ghost Form = { List ℕ × Cell };

    ghost shown = { views.set_of };

    ghost form = { read forms.set };

    #[tactic(auto, unfolding(crate::specs::Grammar::set))]
    fn read(words: &mut Reader<'_>) -> Result<(String, Value), StatementFault> {
        let name = words.name()?;
        words.word("=")?;
        Ok((name, Value::read(words)?))
    }
}

/// UPDATE.
#[tactic(auto, unfolding(crate::specs::Grammar::update))]
pub(crate) fn update(words: &mut Reader<'_>) -> Result<Command, StatementFault>
    ensures { Advances views.command_of (read forms.update) words.old words.new result }
{
    words.word("UPDATE")?;
    let table = words.name()?;
    words.word("SET")?;
    let sets = words.list()?;
    let filter = filter(words)?;
    Ok(Command::Update(Modification {
        table,
        sets,
        filter,
    }))
}

/// DELETE.
#[tactic(auto, unfolding(crate::specs::Grammar::delete))]
pub(crate) fn delete(words: &mut Reader<'_>) -> Result<Command, StatementFault>
    ensures { Advances views.command_of (read forms.delete) words.old words.new result }
{
    words.word("DELETE")?;
    words.word("FROM")?;
    let table = words.name()?;
    let filter = filter(words)?;
    Ok(Command::Delete(Deletion { table, filter }))
}
