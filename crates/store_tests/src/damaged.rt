//! Lists whose bytes are not in their one form, and terms that are no text.

use crate::trials::{Trial, adopted_after, tried};
use ft_store::{EntryRow, Store, StoreFault};
use sqlite::{Alter, Connection};
use std::alloc::Global;
use std::test::Fail;

// A read of the lists of the table 1.
#[derive(Clone, Copy)]
enum Read {
    Term,
    Prefix,
    Entries,
}

fn entries_of<S: Alter>(store: &mut Store<S>, read: Read) -> Result<Vec<EntryRow>, StoreFault> {
    match read {
        Read::Term => store.term(1, "red"),
        Read::Prefix => store.prefix(1, "re"),
        Read::Entries => store.entries(1),
    }
}

// What a read answers of a store with these rows.
#[derive(Clone, Copy)]
struct Asked(&'static str, Read);

impl Trial for Asked {
    type Found = String;

    fn over<S: Alter + Drop>(self, alloc: Global, conn: Connection<S>) -> Result<String, Fail> {
        let mut store = adopted_after(alloc, conn, self.0)?;
        let found = entries_of(&mut store, self.1);
        Ok(format!(in alloc; "{found:?}")?)
    }
}

const DAMAGED: &str = "Err(Damaged)";

const NONE: &str = "Ok([])";

const LAST_COLUMN: &str = "Ok([EntryRow { term: \"red\", docid: 2, \
    spot: Spot { column: 99, pos: 0, place: 0, size: 1 } }])";

// A place in the last column that there may be; then no bytes, a list that ends too early, a longer
// form of a number, a size of 0, two places at one position, and a column too far.
const LISTS: [(&str, &str); 7] = [
    (
        "INSERT INTO posting VALUES (1, 'red', 2, x'63000001')",
        LAST_COLUMN,
    ),
    ("INSERT INTO posting VALUES (1, 'red', 2, x'')", DAMAGED),
    (
        "INSERT INTO posting VALUES (1, 'red', 2, x'000106')",
        DAMAGED,
    ),
    (
        "INSERT INTO posting VALUES (1, 'red', 2, x'800001060501051805')",
        DAMAGED,
    ),
    (
        "INSERT INTO posting VALUES (1, 'red', 2, x'00010600')",
        DAMAGED,
    ),
    (
        "INSERT INTO posting VALUES (1, 'red', 2, x'0001060500000105')",
        DAMAGED,
    ),
    (
        "INSERT INTO posting VALUES (1, 'red', 2, x'64000001')",
        DAMAGED,
    ),
];

// A list that is whole, of a term that is not UTF-8.
const NO_TEXT: &str = "INSERT INTO posting VALUES (1, CAST(x'7265ff' AS TEXT), 2, x'63000001')";

#[test]
fn wrong_lists_are_damaged(rt: HostRuntime) -> Result<(), Fail> {
    for (rows, want) in LISTS {
        for read in [Read::Term, Read::Prefix, Read::Entries] {
            let found = tried(rt.alloc(), Asked(rows, read))?;
            assert_eq!(&rt; found.as_str(), want, "{rows}");
        }
    }
    Ok(())
}

#[test]
fn terms_that_are_no_text_are_damaged(rt: HostRuntime) -> Result<(), Fail> {
    for (read, want) in [
        (Read::Term, NONE),
        (Read::Prefix, DAMAGED),
        (Read::Entries, DAMAGED),
    ] {
        let found = tried(rt.alloc(), Asked(NO_TEXT, read))?;
        assert_eq!(&rt; found.as_str(), want);
    }
    Ok(())
}
