//! Databases that are taken as stores, why others are not, and what is left of them.

use crate::trials::{Trial, adopted, all_read, number, tried};
use ft_opening::Adopt;
use ft_store::StoreFault::{NotAStore, Refused, Version};
use ft_store::{Store, StoreFault};
use sqlite::{Alter, Connection};
use std::alloc::Global;
use std::test::Fail;

// Why a database isn't taken, and the database.
fn refused<S: Alter + Drop>(
    alloc: Global,
    conn: Connection<S>,
) -> Result<(StoreFault, Connection<S>), Fail> {
    match Store::adopt(alloc, conn) {
        Ok(_) => Err(Fail::new("taken")),
        Err(fault) => Ok((fault.cause, fault.connection)),
    }
}

const META: &str = "SELECT count(*) FROM sqlite_schema WHERE name = 'meta'";

// Why a database isn't taken after statements, and how many tables called `meta` it still has. It is
// empty before them, or holds a store.
#[derive(Clone, Copy)]
struct Other<'a> {
    is_store: bool,
    texts: &'a str,
}

impl<'a> Trial for Other<'a> {
    type Found = (StoreFault, i64);

    fn over<S: Alter + Drop>(
        self,
        alloc: Global,
        conn: Connection<S>,
    ) -> Result<(StoreFault, i64), Fail> {
        let mut conn = conn;
        if self.is_store {
            conn = adopted(alloc, conn)?.into_connection();
        }
        conn.execute_batch(self.texts)?;
        let (cause, left) = refused(alloc, conn)?;
        let mut conn = left;
        Ok((cause, number(&mut conn, META)?))
    }
}

const BARE: &str = "CREATE TABLE meta (one INTEGER PRIMARY KEY, version INTEGER NOT NULL)";

// Statements on an empty database, why it isn't taken then, and how many tables called `meta` it has.
const NO_STORES: [(&str, StoreFault, i64); 3] = [
    (BARE, NotAStore, 1),
    ("CREATE TABLE meta (x INTEGER)", NotAStore, 1),
    ("CREATE TABLE p (a INTEGER)", Refused, 0),
];

// The same of statements on a store, where that table stays.
const CHANGED: [(&str, StoreFault); 8] = [
    ("UPDATE meta SET version = 9", Version(9)),
    ("UPDATE meta SET version = 7", Version(7)),
    ("UPDATE meta SET version = 4", Version(4)),
    ("UPDATE meta SET version = -1", Version(-1)),
    ("UPDATE meta SET version = 1", Version(1)),
    ("UPDATE meta SET version = 2", Refused),
    ("DROP TABLE skip", Refused),
    ("DELETE FROM meta", NotAStore),
];

// The same as a call: whether a store is there before the statements, and these.
fn told(alloc: Global, is_store: bool, texts: &str) -> Result<(StoreFault, i64), Fail> {
    tried(alloc, Other { is_store, texts })
}

#[test]
fn other_databases_are_handed_back(rt: HostRuntime) -> Result<(), Fail> {
    for (texts, cause, count) in NO_STORES {
        assert_eq!(&rt; told(rt.alloc(), false, texts)?, (cause, count), "{texts}");
    }
    for (texts, cause) in CHANGED {
        assert_eq!(&rt; told(rt.alloc(), true, texts)?, (cause, 1), "{texts}");
    }
    Ok(())
}

// What is read of an empty database that is adopted, handed out and adopted again.
#[derive(Clone, Copy)]
struct Twice;

impl Trial for Twice {
    type Found = String;

    fn over<S: Alter + Drop>(self, alloc: Global, conn: Connection<S>) -> Result<String, Fail> {
        let first = adopted(alloc, conn)?;
        let mut again = adopted(alloc, first.into_connection())?;
        Ok(all_read(&mut again, alloc)?)
    }
}

#[test]
fn an_empty_database_is_adopted_and_again(rt: HostRuntime) -> Result<(), Fail> {
    let found = tried(rt.alloc(), Twice)?;
    assert_eq!(&rt; found.as_str(), "[] [] [] []");
    Ok(())
}
