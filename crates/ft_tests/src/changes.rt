//! What a plan names, commands that no statement spells, and how many rows are read.

use crate::commands::{answer, begun};
use crate::files::{Trial, tried};
use ft_index::{Command, Deletion, Fault, Filter, FullText, Insertion, Reply};
use ft_store::{RowChange, Store, StoreFault};
use sqlite::{Alter, Connection};
use std::alloc::{AllocError, Global};
use std::test::Fail;

// A command on the table `d`.
#[derive(Clone, Copy)]
enum Order {
    InsertNone,
    DeleteFirst,
    DeleteAll,
    Check,
    Drop { if_there: bool },
}

fn command_of(alloc: Global, order: Order) -> Result<Command, AllocError> {
    let table = "d".to_string(alloc)?;
    match order {
        Order::InsertNone => Ok(Command::Insert(Insertion {
            table,
            columns: None,
            rows: Vec::new(alloc),
        })),
        Order::DeleteFirst => Ok(Command::Delete(Deletion {
            table,
            filter: Filter::Docid(1),
        })),
        Order::DeleteAll => Ok(Command::Delete(Deletion {
            table,
            filter: Filter::All,
        })),
        Order::Check => Ok(Command::Check { table }),
        Order::Drop { if_there } => Ok(Command::Drop { table, if_there }),
    }
}

// What an order is answered.
fn answered<S: Alter>(
    tables: &mut FullText<S>,
    alloc: Global,
    order: Order,
) -> Result<Result<Reply, Fault>, Fail> {
    let command = command_of(alloc, order)?;
    Ok(answer(tables, &command))
}

// The changes that the plan of an order names.
fn planned<S: Alter>(
    tables: &mut FullText<S>,
    alloc: Global,
    order: Order,
) -> Result<Vec<RowChange>, Fail> {
    let command = command_of(alloc, order)?;
    Ok(tables.plan(&command)?)
}

// What is read of all rows: the tables, and the cells, entries and sizes of the first.
fn all_read<S: Alter>(store: &mut Store<S>, alloc: Global) -> Result<String, StoreFault> {
    let tables = store.tables()?;
    let cells = store.cells(1)?;
    let entries = store.entries(1)?;
    let sizes = store.sizes(1)?;
    Ok(format!(in alloc; "{tables:?} {cells:?} {entries:?} {sizes:?}")?)
}

fn rows_with<S: Alter + Drop>(
    alloc: Global,
    store: Store<S>,
    changes: &[RowChange],
) -> Result<String, Fail> {
    let mut store = store;
    store.change(changes)?;
    Ok(all_read(&mut store, alloc)?)
}

// The rows that an input leaves, and then the changes that the plan of an order names.
#[derive(Clone, Copy)]
struct AfterPlan(&'static str, Order);

impl Trial for AfterPlan {
    type Found = String;

    fn over<S: Alter + Drop>(self, alloc: Global, conn: Connection<S>) -> Result<String, Fail> {
        let mut tables = begun(alloc, conn, self.0)?;
        let changes = planned(&mut tables, alloc, self.1)?;
        rows_with(alloc, tables.into_store(), changes.as_slice())
    }
}

// Inputs with the rows that are left by the plan that deletes the first document.
const DELETES: [(&str, &str); 2] = [
    (
        "CREATE VIRTUAL TABLE d USING fts4(x);\n\
         INSERT INTO d VALUES('red apple');\n",
        "[TabRow { id: 1, name: \"d\", columns: [(0, \"x\")], skipped: [] }] [] [] []",
    ),
    (
        "CREATE VIRTUAL TABLE d USING fts4(x);\n\
         INSERT INTO d VALUES('red apple'),('red pear');\n",
        "[TabRow { id: 1, name: \"d\", columns: [(0, \"x\")], skipped: [] }] \
         [CellRow { docid: 2, column: 0, value: Text(\"red pear\") }] \
         [EntryRow { term: \"pear\", docid: 2, spot: Spot { column: 0, pos: 1, place: 4, size: 4 } }, \
         EntryRow { term: \"red\", docid: 2, spot: Spot { column: 0, pos: 0, place: 0, size: 3 } }] \
         [SizeRow { docid: 2, column: 0, n: 2 }]",
    ),
];

#[test]
fn a_plan_is_what_is_done(rt: HostRuntime) -> Result<(), Fail> {
    for (input, rows) in DELETES {
        let found = tried(rt.alloc(), AfterPlan(input, Order::DeleteFirst))?;
        assert_eq!(&rt; found.as_str(), rows);
    }
    Ok(())
}

// What an order is answered after an input, and the rows then. A shell never gives such an order: a
// statement has rows, and one on a table that isn't there is taken for a plain one.
#[derive(Clone, Copy)]
struct AfterOrder(&'static str, Order);

impl Trial for AfterOrder {
    type Found = (Result<Reply, Fault>, String);

    fn over<S: Alter + Drop>(
        self,
        alloc: Global,
        conn: Connection<S>,
    ) -> Result<(Result<Reply, Fault>, String), Fail> {
        let mut tables = begun(alloc, conn, self.0)?;
        let reply = answered(&mut tables, alloc, self.1)?;
        let mut store = tables.into_store();
        Ok((reply, all_read(&mut store, alloc)?))
    }
}

#[test]
fn an_insert_of_no_rows_does_nothing(rt: HostRuntime) -> Result<(), Fail> {
    let trial = AfterOrder("CREATE VIRTUAL TABLE d USING fts4(x);\n", Order::InsertNone);
    let (reply, found) = tried(rt.alloc(), trial)?;
    assert!(&rt; matches!(&reply, Ok(Reply::Done)));
    let wanted = "[TabRow { id: 1, name: \"d\", columns: [(0, \"x\")], skipped: [] }] [] [] []";
    assert_eq!(&rt; found.as_str(), wanted);
    Ok(())
}

#[test]
fn missing_tables_are_told(rt: HostRuntime) -> Result<(), Fail> {
    for order in [
        Order::Drop { if_there: false },
        Order::DeleteAll,
        Order::Check,
    ] {
        let (reply, _) = tried(rt.alloc(), AfterOrder("", order))?;
        assert!(&rt; matches!(&reply, Err(Fault::NoSuchTable)));
    }
    let (spared, _) = tried(rt.alloc(), AfterOrder("", Order::Drop { if_there: true }))?;
    assert!(&rt; spared.is_ok());
    Ok(())
}

// 999 documents `a`, one `rare`, and then this statement.
fn thousand_and(alloc: Global, last: &str) -> Result<String, AllocError> {
    let others = ",('a')".repeat(alloc, 999)?;
    format!(in alloc;
        "CREATE VIRTUAL TABLE d USING fts4(x);\nINSERT INTO d VALUES('rare'){others};\n{last}"
    )
}

// How many rows the store was read for in all, where an input is executed.
#[derive(Clone, Copy)]
struct RowsRead<'a>(&'a str);

impl<'a> Trial for RowsRead<'a> {
    type Found = u64;

    fn over<S: Alter + Drop>(self, alloc: Global, conn: Connection<S>) -> Result<u64, Fail> {
        Ok(begun(alloc, conn, self.0)?.into_store().rows_read())
    }
}

fn rows_read_after(alloc: Global, last: &str) -> Result<u64, Fail> {
    let input = thousand_and(alloc, last)?;
    tried(alloc, RowsRead(input.as_str()))
}

#[test]
fn statements_without_match_read_what_they_answer(rt: HostRuntime) -> Result<(), Fail> {
    let alloc = rt.alloc();
    let before = rows_read_after(alloc, "")?;
    for (last, more) in [
        ("SELECT docid FROM d LIMIT 10;\n", 10),
        ("SELECT docid FROM d LIMIT 10 OFFSET 995;\n", 5),
        ("SELECT docid FROM d LIMIT 4294967296 OFFSET 990;\n", 1000),
        ("SELECT x FROM d LIMIT 3 OFFSET 1;\n", 6),
        ("SELECT count(*) FROM d;\n", 1000),
        ("INSERT INTO d(docid, x) VALUES(2000, 'a');\n", 1),
        ("DELETE FROM d;\n", 0),
    ] {
        let after = rows_read_after(alloc, last)?;
        assert_eq!(&rt; after.checked_sub(before), Some(more));
    }
    Ok(())
}

#[test]
fn a_match_reads_what_it_answers(rt: HostRuntime) -> Result<(), Fail> {
    let alloc = rt.alloc();
    let before = rows_read_after(alloc, "")?;
    for (last, more) in [
        ("SELECT docid FROM d WHERE d MATCH 'rare';\n", 1),
        ("SELECT count(*) FROM d WHERE d MATCH 'rare';\n", 1),
        ("SELECT docid, x FROM d WHERE d MATCH 'rare';\n", 2),
    ] {
        let after = rows_read_after(alloc, last)?;
        assert_eq!(&rt; after.checked_sub(before), Some(more));
    }
    Ok(())
}
