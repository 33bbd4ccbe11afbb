//! Changes of rows, and the reads after them.

use crate::steps::{Step, change_each, change_once};
use crate::trials::{Trial, adopted_after, all_read, tried};
use ft_store::{Store, StoreFault};
use sqlite::{Alter, Connection};
use std::alloc::Global;
use std::test::Fail;

// The table 1, `d`, of one column `x`, with the documents 1, `green`, and 2, `red pear`.
const PEARS: &str = "INSERT INTO tab VALUES (1, 'd');
    INSERT INTO col VALUES (1, 0, 'x');
    INSERT INTO cell VALUES (1, 1, 0, NULL, 'green'), (1, 2, 0, NULL, 'red pear');
    INSERT INTO posting VALUES (1, 'green', 1, x'00000005'), (1, 'pear', 2, x'00010404'), (1, 'red', 2, x'00000003');
    INSERT INTO sizes VALUES (1, 1, 0, 1), (1, 2, 0, 2)";

// What is read of some, each by one call: a document, a term and a prefix.
fn some_read<S: Alter>(store: &mut Store<S>, alloc: Global) -> Result<String, StoreFault> {
    let document = store.document(1, 2)?;
    let term = store.term(1, "red")?;
    let prefix = store.prefix(1, "re")?;
    Ok(format!(in alloc; "{document:?} {term:?} {prefix:?}")?)
}

// The last docids of two tables, all docids, those after the first, whether two documents are
// there, the noted names, and how many rows that were.
fn rest_read<S: Alter>(store: &mut Store<S>, alloc: Global) -> Result<String, StoreFault> {
    let first = store.last_docid(1)?;
    let second = store.last_docid(2)?;
    let docids = store.docids(1, None, 0)?;
    let behind = store.docids(1, Some(1), 1)?;
    let (there, missing) = (store.has_document(1, 2)?, store.has_document(1, 3)?);
    let names = store.noted()?;
    let count = store.rows_read();
    let ends = format!(in alloc; "{first:?} {second:?} {docids:?} {behind:?}")?;
    Ok(format!(in alloc; "{ends} {there} {missing} {names:?} {count}")?)
}

// What is read then.
#[derive(Clone, Copy)]
enum Read {
    All,
    Some,
    Rest,
}

fn read_then<S: Alter>(
    store: &mut Store<S>,
    alloc: Global,
    read: Read,
) -> Result<String, StoreFault> {
    match read {
        Read::All => all_read(store, alloc),
        Read::Some => some_read(store, alloc),
        Read::Rest => rest_read(store, alloc),
    }
}

// What is read after calls on a store of those rows.
#[derive(Clone, Copy)]
struct After {
    calls: &'static [&'static [Step]],
    read: Read,
}

impl Trial for After {
    type Found = String;

    fn over<S: Alter + Drop>(self, alloc: Global, conn: Connection<S>) -> Result<String, Fail> {
        let mut store = adopted_after(alloc, conn, PEARS)?;
        change_each(&mut store, alloc, self.calls)?;
        Ok(read_then(&mut store, alloc, self.read)?)
    }
}

const FIRST: &str = "[TabRow { id: 1, name: \"d\", columns: [(0, \"x\")], skipped: [] }] \
    [CellRow { docid: 1, column: 0, value: Text(\"green\") }, CellRow { docid: 2, column: 0, value: Text(\"red pear\") }] \
    [EntryRow { term: \"green\", docid: 1, spot: Spot { column: 0, pos: 0, place: 0, size: 5 } }, \
    EntryRow { term: \"pear\", docid: 2, spot: Spot { column: 0, pos: 1, place: 4, size: 4 } }, \
    EntryRow { term: \"red\", docid: 2, spot: Spot { column: 0, pos: 0, place: 0, size: 3 } }] \
    [SizeRow { docid: 1, column: 0, n: 1 }, SizeRow { docid: 2, column: 0, n: 2 }]";

// A document that changes, and one that goes.
const BOTH: &[&[Step]] = &[
    &[Step::PutText(1, "red"), Step::DropTerm("green", 1)],
    &[Step::PutTerm("red", 1, 3), Step::PutSize(1, 7)],
    &[Step::DropCells(2), Step::DropSize(2)],
    &[Step::PutNull(3)],
];

// The table goes, and comes again without rows.
const RENEWED: &[&[Step]] = &[&[Step::ClearIndex, Step::DropTable], &[Step::MakeTable]];

const TRIALS: [(&[&[Step]], Read, &str); 6] = [
    (&[], Read::All, FIRST),
    (
        &[],
        Read::Some,
        "[CellRow { docid: 2, column: 0, value: Text(\"red pear\") }] \
         [EntryRow { term: \"red\", docid: 2, spot: Spot { column: 0, pos: 0, place: 0, size: 3 } }] \
         [EntryRow { term: \"red\", docid: 2, spot: Spot { column: 0, pos: 0, place: 0, size: 3 } }]",
    ),
    // A name is noted, and again with other letters.
    (
        &[&[Step::Note("Plain")], &[Step::Note("PLAIN")]],
        Read::Rest,
        "Some(2) None [1, 2] [2] true false [\"PLAIN\"] 6",
    ),
    (
        BOTH,
        Read::All,
        "[TabRow { id: 1, name: \"d\", columns: [(0, \"x\")], skipped: [] }] \
         [CellRow { docid: 1, column: 0, value: Text(\"red\") }, CellRow { docid: 3, column: 0, value: Null }] \
         [EntryRow { term: \"pear\", docid: 2, spot: Spot { column: 0, pos: 1, place: 4, size: 4 } }, \
         EntryRow { term: \"red\", docid: 1, spot: Spot { column: 0, pos: 0, place: 0, size: 3 } }, \
         EntryRow { term: \"red\", docid: 2, spot: Spot { column: 0, pos: 0, place: 0, size: 3 } }] \
         [SizeRow { docid: 1, column: 0, n: 7 }]",
    ),
    (
        &[&[Step::ClearIndex]],
        Read::All,
        "[TabRow { id: 1, name: \"d\", columns: [(0, \"x\")], skipped: [] }] \
         [CellRow { docid: 1, column: 0, value: Text(\"green\") }, CellRow { docid: 2, column: 0, value: Text(\"red pear\") }] \
         [] []",
    ),
    (
        RENEWED,
        Read::All,
        "[TabRow { id: 1, name: \"d\", columns: [(0, \"x\")], skipped: [] }] [] [] []",
    ),
];

#[test]
fn reads_and_changes(rt: HostRuntime) -> Result<(), Fail> {
    for (calls, read, want) in TRIALS {
        let found = tried(rt.alloc(), After { calls, read })?;
        assert_eq!(&rt; found.as_str(), want);
    }
    Ok(())
}

// A document goes, and a list is put that can't be packed.
const BAD: &[Step] = &[Step::DropCells(1), Step::PutTerm("p", 1, 0)];

// What a call of both answers, and all that is read then.
#[derive(Clone, Copy)]
struct Bad;

impl Trial for Bad {
    type Found = (Result<(), StoreFault>, String);

    fn over<S: Alter + Drop>(
        self,
        alloc: Global,
        conn: Connection<S>,
    ) -> Result<(Result<(), StoreFault>, String), Fail> {
        let mut store = adopted_after(alloc, conn, PEARS)?;
        let answer = change_once(&mut store, alloc, BAD);
        Ok((answer, all_read(&mut store, alloc)?))
    }
}

#[test]
fn a_call_that_is_refused_changes_nothing(rt: HostRuntime) -> Result<(), Fail> {
    let (answer, found) = tried(rt.alloc(), Bad)?;
    assert_eq!(&rt; answer, Err(StoreFault::Damaged));
    assert_eq!(&rt; found.as_str(), FIRST);
    Ok(())
}
