//! A database in memory, and the file that it stands on.

use crate::trials::{Trial, number, tried};
use ram_disk::Ram;
use sqlite::{Alter, Connection, params};
use sqlite_disk::Disk;
use std::alloc::Global;
use std::test::Fail;

const MADE: &str = "CREATE TABLE note (id INTEGER PRIMARY KEY, title TEXT NOT NULL) STRICT";

const INSERT: &str = "INSERT INTO note (title) VALUES (?1)";

const UNDONE: &str = "BEGIN; DELETE FROM note; ROLLBACK";

// How many rows each of two calls puts, and how many are there once their deletion was undone.
#[derive(Clone, Copy)]
struct Rows;

impl Trial for Rows {
    type Found = (usize, usize, i64);

    fn over<S: Alter + Drop>(
        self,
        _: Global,
        conn: Connection<S>,
    ) -> Result<(usize, usize, i64), Fail> {
        let mut conn = conn;
        conn.execute_batch(MADE)?;
        let first = conn.execute(INSERT, params!["a"])?;
        let second = conn.execute(INSERT, params!["b"])?;
        conn.execute_batch(UNDONE)?;
        let left = number(&mut conn, "SELECT count(*) FROM note")?;
        Ok((first, second, left))
    }
}

#[test]
fn holds_rows_and_undoes(rt: HostRuntime) -> Result<(), Fail> {
    assert_eq!(rt; tried(rt.alloc(), Rows)?, (1, 1, 2));
    Ok(())
}

#[test]
fn writes_grow_and_cut(rt: HostRuntime) -> Result<(), Fail> {
    let mut file = Ram::new(rt.alloc());
    file.write_at(2, b"abc")?;
    assert_eq!(rt; file.bytes(), b"\0\0abc".as_slice());
    file.set_len(4)?;
    file.sync()?;
    let mut read = [0u8; 2];
    file.read_at(2, &mut read)?;
    assert_eq!(rt; read.as_slice(), b"ab".as_slice());
    assert!(rt; file.read_at(3, &mut read).is_err());
    assert_eq!(rt; file.len()?, 4);
    Ok(())
}
