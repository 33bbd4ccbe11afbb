//! Full-text tables over a store, and statements as commands on them.

use ft_index::{Command, Fault, FullText, Reply, TableInfo};
use ft_opening::Adopt;
use ft_statements::{Class, read_statement};
use ft_store::Store;
use shell_text::sql_words;
use sqlite::{Alter, Connection};
use std::alloc::Global;
use std::test::Fail;

// The tables of a store.
fn tables_of<S: Alter + Drop>(alloc: Global, store: Store<S>) -> Result<FullText<S>, Fail> {
    match FullText::new(alloc, store) {
        Ok(tables) => Ok(tables),
        Err(_) => Err(Fail::new("no tables")),
    }
}

/// The tables of a database that is taken as a store.
pub(crate) fn taken<S: Alter + Drop>(
    alloc: Global,
    conn: Connection<S>,
) -> Result<FullText<S>, Fail> {
    match Store::adopt(alloc, conn) {
        Ok(store) => tables_of(alloc, store),
        Err(_) => Err(Fail::new("no store")),
    }
}

/// Whether all tables are sound.
pub(crate) fn are_sound<S: Alter>(tables: &mut FullText<S>) -> Result<bool, Fault> {
    tables.check_all()
}

/// What a command is answered: of a call by itself the checker follows the fewest ways out.
pub(crate) fn answer<S: Alter>(
    tables: &mut FullText<S>,
    command: &Command,
) -> Result<Reply, Fault> {
    tables.execute(command)
}

// The command that a statement spells.
fn command_of(alloc: Global, text: &str, tables: &[TableInfo]) -> Result<Command, Fail> {
    let words = sql_words(alloc, text)?;
    match read_statement(alloc, text, words.as_slice(), tables) {
        Ok(Class::FullText(command)) => Ok(command),
        _ => Err(Fail::new("no command")),
    }
}

// What a statement is answered.
fn answered<S: Alter>(
    alloc: Global,
    tables: &mut FullText<S>,
    text: &str,
) -> Result<Result<Reply, Fault>, Fail> {
    let command = command_of(alloc, text, tables.tables())?;
    Ok(answer(tables, &command))
}

/// Whether all statements of an input are executed, of which each has a line.
pub(crate) fn are_done<S: Alter>(
    alloc: Global,
    tables: &mut FullText<S>,
    input: &str,
) -> Result<bool, Fail> {
    let mut all = true;
    for text in input.lines() {
        all = answered(alloc, tables, text)?.is_ok() && all;
    }
    Ok(all)
}

/// The tables of a database in which an input was executed, of which nothing is refused.
pub(crate) fn begun<S: Alter + Drop>(
    alloc: Global,
    conn: Connection<S>,
    input: &str,
) -> Result<FullText<S>, Fail> {
    let mut tables = taken(alloc, conn)?;
    if !are_done(alloc, &mut tables, input)? {
        return Err(Fail::new("refused"));
    }
    Ok(tables)
}
