//! SELECT.
ghost use Rattle.std.specs.Prelude.{◌≡◌};
ghost use Rattle.ft_commands.specs.Command as commands;
ghost use Rattle.ft_commands.specs.Views as views;
ghost use Rattle.ft_statements.specs.Reading.{read};
ghost use Rattle.ft_statements.specs.Grammar as forms;
ghost use Rattle.ft_statements.specs.Views.{Advances};

use crate::change::{filter, key};
use crate::reading::{Reader, Spelled};
use crate::values::count;
use ft_commands::{Command, Item, Items, Selection, StatementFault};

// The call of `offsets`.
#[tactic(auto, unfolding(crate::specs::Grammar::offsets))]
fn offsets(words: &mut Reader<'_>) -> Result<Item, StatementFault>
    ensures { Advances views.item_of (read forms.offsets) words.old words.new result }
{
    words.word("offsets")?;
    words.word("(")?;
    let name = words.name()?;
    words.word(")")?;
    Ok(Item::Offsets(name))
}

// A star, a call of `offsets`, or a name.
impl Spelled for Item {
    ghost Form = { commands.Item };

    ghost shown = { views.item_of };

    ghost form = { read forms.item };

    #[tactic(auto, unfolding(crate::specs::Grammar::item))]
    fn read(words: &mut Reader<'_>) -> Result<Item, StatementFault> {
        if words.takes("*") {
            return Ok(Item::All);
        }
        let start = *words;
        match offsets(words) {
            Err(StatementFault::Syntax) => {
                *words = start;
                Ok(Item::Name(words.name()?))
            }
            read => read,
        }
    }
}

// count(*) alone.
#[tactic(auto, unfolding(crate::specs::Grammar::count_all))]
fn count_all(words: &mut Reader<'_>) -> Result<Items, StatementFault>
    ensures { Advances views.items_of (read forms.count_all) words.old words.new result }
{
    words.word("count")?;
    words.word("(")?;
    words.word("*")?;
    words.word(")")?;
    Ok(Items::Count)
}

// What is selected: a count, or items.
#[tactic(auto, unfolding(crate::specs::Grammar::items))]
fn selection(words: &mut Reader<'_>) -> Result<Items, StatementFault>
    ensures { Advances views.items_of (read forms.items) words.old words.new result }
{
    let start = *words;
    match count_all(words) {
        Err(StatementFault::Syntax) => {
            *words = start;
            Ok(Items::List(words.list()?))
        }
        read => read,
    }
}

// Passes ORDER BY and the docid, if ORDER stands there.
#[tactic(auto, unfolding(crate::specs::Grammar::order))]
fn order(words: &mut Reader<'_>) -> Result<(), StatementFault>
    ensures { Advances (λ none. none) (read forms.order) words.old words.new result }
{
    if words.takes("ORDER") {
        words.word("BY")?;
        key(words)?;
        words.takes_all(&["ASC"]);
    }
    Ok(())
}

// The offset, if OFFSET stands there.
#[tactic(auto, unfolding(crate::specs::Grammar::offset))]
fn offset(words: &mut Reader<'_>) -> Result<u64, StatementFault>
    ensures { Advances (λ n. n) (read forms.offset) words.old words.new result }
{
    if words.takes("OFFSET") {
        return count(words);
    }
    Ok(0)
}

// The limit, if there is one, and the offset.
#[tactic(auto, unfolding(crate::specs::Grammar::limits))]
fn limits(words: &mut Reader<'_>) -> Result<(Option<u64>, u64), StatementFault>
    ensures { Advances (λ limits. limits) (read forms.limits) words.old words.new result }
{
    if !words.takes("LIMIT") {
        return Ok((None, 0));
    }
    let limit = count(words)?;
    Ok((Some(limit), offset(words)?))
}

/// SELECT.
#[tactic(auto, unfolding(crate::specs::Grammar::select))]
pub(crate) fn select(words: &mut Reader<'_>) -> Result<Command, StatementFault>
    ensures { Advances views.command_of (read forms.select) words.old words.new result }
{
    words.word("SELECT")?;
    let items = selection(words)?;
    words.word("FROM")?;
    let table = words.name()?;
    let filter = filter(words)?;
    order(words)?;
    let (limit, offset) = limits(words)?;
    Ok(Command::Select(Selection {
        table,
        items,
        filter,
        limit,
        offset,
    }))
}
