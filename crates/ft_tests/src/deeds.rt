//! What is done on the files of a store, and may be stopped: among it commands over many documents,
//! and those that write in groups.

use crate::commands::are_done;
use crate::files::NEVER;
use ft_index::FullText;
use ft_opening::Adopt;
use ft_store::Store;
use sqlite::{Alter, Connection};
use std::alloc::{AllocError, Global};
use std::test::Fail;

/// Rows of one text each: how many, a word, and how many spaces behind it.
type Rows = (usize, &'static str, usize);

#[derive(Clone, Copy)]
pub(crate) enum Deed {
    Sql(&'static str),
    Open,
    Execute(&'static str),
    /// Rows that are put into `d` by one statement.
    Insert(&'static [Rows]),
    Note(&'static str),
}

/// A deed, of which each so-many-th call is stopped, and what is there after it.
pub(crate) type Turn = (Deed, u64, &'static str);

// So many bytes of text fill a group of documents that are written together.
const GROUP: usize = 524_288;

/// What is there in an empty store.
pub(crate) const EMPTY: &str = "3 true []";

/// Each kind of command: among them a rebuild of a table whose index lacks a row, and a table that is
/// emptied and dropped beside another. At last the store becomes one of version 2, and is taken.
pub(crate) const EACH_KIND: [Turn; 13] = [
    (
        Deed::Execute("CREATE VIRTUAL TABLE d USING fts4(x);"),
        1,
        "3 true [] d 0:",
    ),
    (
        Deed::Execute("INSERT INTO d VALUES('red apple'),('red pear');"),
        1,
        "3 true [] d 2: 1|red apple 2|red pear",
    ),
    (
        Deed::Execute("CREATE VIRTUAL TABLE e USING fts4(y);"),
        1,
        "3 true [] d 2: 1|red apple 2|red pear e 0:",
    ),
    (
        Deed::Execute("INSERT INTO e VALUES('red');"),
        1,
        "3 true [] d 2: 1|red apple 2|red pear e 1: 1|red",
    ),
    (
        Deed::Execute("UPDATE d SET x='green' WHERE docid=1;"),
        1,
        "3 true [] d 2: 1|green 2|red pear e 1: 1|red",
    ),
    (
        Deed::Sql("DELETE FROM posting WHERE tab = 1 AND docid = 1"),
        1,
        "3 false [] d 2: 1|green 2|red pear e 1: 1|red",
    ),
    (
        Deed::Execute("INSERT INTO d(d) VALUES('rebuild');"),
        1,
        "3 true [] d 2: 1|green 2|red pear e 1: 1|red",
    ),
    (
        Deed::Note("plain"),
        1,
        "3 true [\"plain\"] d 2: 1|green 2|red pear e 1: 1|red",
    ),
    (
        Deed::Execute("DELETE FROM d WHERE x MATCH 'red';"),
        1,
        "3 true [\"plain\"] d 1: 1|green e 1: 1|red",
    ),
    (
        Deed::Execute("DELETE FROM d;"),
        1,
        "3 true [\"plain\"] d 0: e 1: 1|red",
    ),
    (
        Deed::Execute("DROP TABLE d;"),
        1,
        "3 true [\"plain\"] e 1: 1|red",
    ),
    (
        Deed::Sql("BEGIN; DROP TABLE skip; UPDATE meta SET version = 2; COMMIT"),
        1,
        "2 true [\"plain\"] e 1: 1|red",
    ),
    (Deed::Open, 1, "3 true [\"plain\"] e 1: 1|red"),
];

/// Commands over 150 documents; rows of two groups that are inserted, and made anew by a rebuild of a
/// table whose index lacks a row; and such a table that is emptied and dropped beside another.
pub(crate) const LARGE: [Turn; 12] = [
    (
        Deed::Execute("CREATE VIRTUAL TABLE d USING fts4(x);"),
        NEVER,
        "3 true [] d 0:",
    ),
    (
        Deed::Execute("CREATE VIRTUAL TABLE e USING fts4(x);"),
        NEVER,
        "3 true [] d 0: e 0:",
    ),
    (
        Deed::Execute("INSERT INTO e VALUES('red'),('red');"),
        NEVER,
        "3 true [] d 0: e 2: 1|red",
    ),
    (
        Deed::Insert(&[(150, "red", 0), (2, "blue", 0)]),
        1,
        "3 true [] d 152: 1|red 151|blue e 2: 1|red",
    ),
    (
        Deed::Execute("UPDATE d SET x='green' WHERE d MATCH 'red';"),
        1,
        "3 true [] d 152: 1|green 151|blue e 2: 1|red",
    ),
    (
        Deed::Execute("DELETE FROM d WHERE d MATCH 'green';"),
        1,
        "3 true [] d 2: 151|blue e 2: 1|red",
    ),
    (
        Deed::Insert(&[(1, "red", GROUP), (150, "fig", 0)]),
        5,
        "3 true [] d 153: 151|blue 153|red of 524291 154|fig e 2: 1|red",
    ),
    (
        Deed::Sql("DELETE FROM posting WHERE tab = 1 AND docid = 154"),
        11,
        "3 false [] d 153: 151|blue 153|red of 524291 154|fig e 2: 1|red",
    ),
    (
        Deed::Execute("INSERT INTO d(d) VALUES('rebuild');"),
        5,
        "3 true [] d 153: 151|blue 153|red of 524291 154|fig e 2: 1|red",
    ),
    (
        Deed::Execute("DELETE FROM d;"),
        11,
        "3 true [] d 0: e 2: 1|red",
    ),
    (
        Deed::Insert(&[(150, "red", 0)]),
        NEVER,
        "3 true [] d 150: 1|red e 2: 1|red",
    ),
    (Deed::Execute("DROP TABLE d;"), 1, "3 true [] e 2: 1|red"),
];

fn write_rows(alloc: Global, statement: &mut String, rows: Rows) -> Result<(), AllocError> {
    let (count, word, spaces) = rows;
    let filling = " ".repeat(alloc, spaces)?;
    let row = format!(in alloc; "('{word}{filling}'),")?;
    statement.push_str(row.as_str().repeat(alloc, count)?.as_str())
}

// The statement that puts rows into `d`.
fn insert_of(alloc: Global, all: &[Rows]) -> Result<String, AllocError> {
    let mut statement = String::from_str(alloc, "INSERT INTO d VALUES")?;
    for rows in all {
        write_rows(alloc, &mut statement, *rows)?;
    }
    statement.pop();
    statement.push(';')?;
    Ok(statement)
}

fn done_in<S: Alter>(alloc: Global, tables: &mut FullText<S>, deed: Deed) -> Result<bool, Fail> {
    match deed {
        Deed::Execute(text) => are_done(alloc, tables, text),
        Deed::Insert(rows) => are_done(alloc, tables, insert_of(alloc, rows)?.as_str()),
        Deed::Note(name) => Ok(tables.note(name).is_ok()),
        _ => Ok(true),
    }
}

fn done_on<S: Alter + Drop>(
    alloc: Global,
    store: Store<S>,
    deed: Deed,
) -> Result<(bool, Connection<S>), Fail> {
    match FullText::new(alloc, store) {
        Ok(mut tables) => {
            let done = done_in(alloc, &mut tables, deed)?;
            Ok((done, tables.into_store().into_connection()))
        }
        Err(fault) => Ok((false, fault.store.into_connection())),
    }
}

/// Whether a deed is done on a database.
pub(crate) fn done_over<S: Alter + Drop>(
    alloc: Global,
    conn: Connection<S>,
    deed: Deed,
) -> Result<(bool, Connection<S>), Fail> {
    if let Deed::Sql(texts) = deed {
        let mut conn = conn;
        let done = conn.execute_batch(texts).is_ok();
        return Ok((done, conn));
    }
    match Store::adopt(alloc, conn) {
        Ok(store) => done_on(alloc, store, deed),
        Err(fault) => Ok((false, fault.connection)),
    }
}
