//! CREATE VIRTUAL TABLE and DROP TABLE.
ghost use Rattle.std.specs.Prelude.{◌≡◌, map, string_bytes, IfOk};
ghost use Rattle.ft_commands.specs.Views as views;
ghost use Rattle.ft_statements.specs.Create as makes;
ghost use Rattle.ft_statements.specs.Reading.{read};
ghost use Rattle.ft_statements.specs.Grammar as forms;
ghost use Rattle.ft_statements.specs.Views.{plain, argument_as, Advances};

use crate::reading::{Reader, Spelled};
use crate::words::{Token, bare, literal_of, name_of};
use ft_commands::{Command, Creation, StatementFault};
use std::alloc::{AllocError, Global};

/// An argument: an option with its value, or a column.
#[derive(Drop)]
pub(crate) enum Argument {
    Setting { name: String, value: String },
    Column(String),
}

// The texts of words, with a space between each two.
#[tactic(auto, using(crate::proofs::CreateLemmas::joined_behind))]
fn joined(alloc: Global, words: &[Token<'_>]) -> Result<String, AllocError>
    ensures { IfOk result (λ text. string_bytes text ≡ makes.joined (plain words.now)) }
{
    let [first, rest @ ..] = words else {
        return Ok(String::new(alloc));
    };
    let mut text = bare(alloc, first)?;
    for word in rest {
        text.push(' ')?;
        text.push_str(bare(alloc, word)?.as_str())?;
    }
    Ok(text)
}

// The option `tokenize` with a tokenizer.
#[tactic(auto, unfolding(crate::specs::Grammar::tokenizer), using(crate::proofs::CreateLemmas::tokenizer_is))]
fn tokenizer(words: &mut Reader<'_>) -> Result<Argument, StatementFault>
    ensures { Advances argument_as (read forms.tokenizer) words.old words.new result }
{
    words.word("tokenize")?;
    words.takes_all(&["="]);
    let given = words.any_words()?;
    if given.is_empty() {
        return Err(StatementFault::Syntax);
    }
    let name = "tokenize".to_string(words.alloc)?;
    let value = joined(words.alloc, given)?;
    Ok(Argument::Setting { name, value })
}

// Any other option.
#[tactic(auto, unfolding(crate::specs::Grammar::setting))]
fn setting(words: &mut Reader<'_>) -> Result<Argument, StatementFault>
    ensures { Advances argument_as (read forms.setting) words.old words.new result }
{
    let name = words.name()?;
    words.word("=")?;
    let value = joined(words.alloc, words.any_words()?)?;
    Ok(Argument::Setting { name, value })
}

// A column by its name; what stands after it is ignored.
#[tactic(auto, unfolding(crate::specs::Grammar::column))]
fn column(words: &mut Reader<'_>) -> Result<Argument, StatementFault>
    ensures { Advances argument_as (read forms.column) words.old words.new result }
{
    let word = words.next()?;
    let name = match name_of(words.alloc, word) {
        Err(StatementFault::Syntax) => literal_of(words.alloc, word)?,
        name => name?,
    };
    words.any_words()?;
    Ok(Argument::Column(name))
}

// An option or a column: the first of the three that the words are.
impl Spelled for Argument {
    ghost Form = { makes.Argument };

    ghost shown = { argument_as };

    ghost form = { read forms.argument };

    #[tactic(auto, unfolding(crate::specs::Grammar::argument))]
    fn read(words: &mut Reader<'_>) -> Result<Argument, StatementFault> {
        let start = *words;
        match tokenizer(words) {
            Err(StatementFault::Syntax) => *words = start,
            read => return read,
        }
        match setting(words) {
            Err(StatementFault::Syntax) => {
                *words = start;
                column(words)
            }
            read => read,
        }
    }
}

// Nothing, or arguments in parentheses.
#[tactic(auto, unfolding(crate::specs::Grammar::arguments))]
fn arguments(words: &mut Reader<'_>) -> Result<Vec<Argument>, StatementFault>
    ensures { Advances (λ found. map argument_as found.items) (read forms.arguments) words.old
        words.new result }
{
    if !words.takes("(") {
        return Ok(Vec::new(words.alloc));
    }
    if words.takes(")") {
        return Ok(Vec::new(words.alloc));
    }
    let found = words.list()?;
    words.word(")")?;
    Ok(found)
}

// The options among arguments, and the columns.
fn sorted(
    alloc: Global,
    arguments: Vec<Argument>,
) -> Result<(Vec<(String, String)>, Vec<String>), AllocError>
    ensures { IfOk result (λ sorted.
        (map views.option_of sorted.0.items ≡ makes.settings_in (map argument_as arguments.items))
        × (views.texts_of sorted.1 ≡ makes.columns_in (map argument_as arguments.items))) }
{
    let mut options = Vec::new(alloc);
    let mut columns = Vec::new(alloc);
    for argument in arguments {
        match argument {
            Argument::Setting { name, value } => options.push((name, value))?,
            Argument::Column(name) => columns.push(name)?,
        }
    }
    Ok((options, columns))
}

/// CREATE VIRTUAL TABLE.
#[tactic(auto, unfolding(crate::specs::Grammar::create))]
pub(crate) fn create(words: &mut Reader<'_>) -> Result<Command, StatementFault>
    ensures { Advances views.command_of (read forms.create) words.old words.new result }
{
    words.word("CREATE")?;
    words.word("VIRTUAL")?;
    words.word("TABLE")?;
    let if_new = words.takes_all(&["IF", "NOT", "EXISTS"]);
    let table = words.name()?;
    words.word("USING")?;
    let module = words.name()?;
    let (options, columns) = sorted(words.alloc, arguments(words)?)?;
    Ok(Command::Create(Creation {
        table,
        module,
        options,
        columns,
        if_new,
    }))
}

/// DROP TABLE.
#[tactic(auto, unfolding(crate::specs::Grammar::drop_table))]
pub(crate) fn drop_table(words: &mut Reader<'_>) -> Result<Command, StatementFault>
    ensures { Advances views.command_of (read forms.drop_table) words.old words.new result }
{
    words.word("DROP")?;
    words.word("TABLE")?;
    let if_there = words.takes_all(&["IF", "EXISTS"]);
    let table = words.name()?;
    Ok(Command::Drop { table, if_there })
}
