//! Lists that a table is asked for, beside those that it has.

use crate::trials::{Trial, adopted_after, tried};
use ft_store::{Posting, Spot, TermLists};
use sqlite::{Alter, Connection};
use std::alloc::{AllocError, Global};
use std::test::Fail;

// The term `pear` in the documents 2 and 5 of the table 1, `red` in 2, and a list of another table.
const ROWS: &str =
    "INSERT INTO posting VALUES (1, 'pear', 2, x'00010404'), (1, 'pear', 5, x'00000004'),
    (1, 'red', 2, x'00000003'), (2, 'red', 9, x'00000003')";

// The same with a list that can't be read.
const DAMAGED: &str =
    "INSERT INTO posting VALUES (1, 'pear', 2, x'00010404'), (1, 'pear', 5, x'00000004'),
    (1, 'red', 2, x'00')";

// The term `pear` twice in one document and once in another.
const TWICE: &str =
    "INSERT INTO posting VALUES (1, 'pear', 2, x'0001040400010504'), (1, 'pear', 5, x'00000004')";

// A document with a place of a term: its position, where its bytes begin, and how many they are.
type Place = (i64, u32, u32, u32);

// A term and its places.
type Term = (&'static str, &'static [Place]);

const PEAR: Term = ("pear", &[(2, 1, 4, 4), (5, 0, 0, 4)]);

const RED: Term = ("red", &[(2, 0, 0, 3)]);

// What is asked of which rows, what is answered, and how many rows were read then.
const TRIALS: [(&str, &[Term], bool, u64); 15] = [
    (ROWS, &[PEAR, RED], true, 3),
    (ROWS, &[PEAR, ("plum", &[]), RED, ("zoo", &[])], true, 3),
    (ROWS, &[], false, 0),
    (ROWS, &[PEAR], false, 0),
    (ROWS, &[RED], false, 0),
    (ROWS, &[PEAR, RED, ("zoo", &[(2, 2, 9, 3)])], false, 0),
    (
        ROWS,
        &[("pear", &[(2, 1, 4, 4), (6, 0, 0, 4)]), RED],
        false,
        0,
    ),
    (ROWS, &[PEAR, ("redo", &[(2, 0, 0, 3)])], false, 0),
    (ROWS, &[PEAR, ("red", &[(2, 0, 0, 4)])], false, 0),
    (DAMAGED, &[PEAR, RED], false, 0),
    (
        TWICE,
        &[("pear", &[(2, 1, 4, 4), (2, 2, 9, 4), (5, 0, 0, 4)])],
        true,
        3,
    ),
    (TWICE, &[("pear", &[(2, 1, 4, 4), (5, 0, 0, 4)])], false, 0),
    (
        TWICE,
        &[("pear", &[(2, 1, 4, 4), (2, 2, 9, 5), (5, 0, 0, 4)])],
        false,
        0,
    ),
    (
        TWICE,
        &[("pear", &[(2, 1, 4, 4), (2, 1, 4, 4), (5, 0, 0, 4)])],
        false,
        0,
    ),
    ("", &[], true, 0),
];

fn postings_of(alloc: Global, places: &[Place]) -> Result<Vec<Posting>, AllocError> {
    let mut postings = Vec::new(alloc);
    for (docid, pos, place, size) in places {
        let spot = Spot {
            column: 0,
            pos: *pos,
            place: *place,
            size: *size,
        };
        postings.push(Posting {
            docid: *docid,
            spot,
        })?;
    }
    Ok(postings)
}

fn terms_of(alloc: Global, terms: &[Term]) -> Result<Vec<TermLists>, AllocError> {
    let mut found = Vec::new(alloc);
    for (term, places) in terms {
        let postings = postings_of(alloc, places)?;
        found.push(TermLists {
            term: String::from_str(alloc, term)?,
            postings,
        })?;
    }
    Ok(found)
}

// Whether a store of these rows has exactly these lists in its table 1, and how many rows were read
// then.
#[derive(Clone, Copy)]
struct Asked {
    rows: &'static str,
    terms: &'static [Term],
}

impl Trial for Asked {
    type Found = (bool, u64);

    fn over<S: Alter + Drop>(
        self,
        alloc: Global,
        conn: Connection<S>,
    ) -> Result<(bool, u64), Fail> {
        let mut store = adopted_after(alloc, conn, self.rows)?;
        let terms = terms_of(alloc, self.terms)?;
        let same = store.has_lists(1, terms)?;
        Ok((same, store.rows_read()))
    }
}

#[test]
fn lists_are_those_asked_for(rt: HostRuntime) -> Result<(), Fail> {
    for (rows, terms, want, read) in TRIALS {
        let found = tried(rt.alloc(), Asked { rows, terms })?;
        assert_eq!(&rt; found, (want, read));
    }
    Ok(())
}
