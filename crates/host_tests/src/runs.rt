//! Runs of the program over the host.

use crate::shelf::{ALL, Held, Shelf};
use ft_files::Databases;
use ft_program::start::start_in;
use sqlite_disk::Disk;
use std::process::Abort;
use std::str;
use std::test::Fail;

const FILE: &str = "a.db";

const BESIDE: &str = "a.db-fts4";

// The status of a run on FILE, and what it writes on its output and on its errors.
fn ran<D: Disk + Drop, H: Databases<D>>(
    rt: &HostRuntime,
    host: &mut H,
    input: &str,
) -> Result<String, Fail> {
    let alloc = rt.alloc();
    let mut out = Vec::new(alloc);
    let mut err = Vec::new(alloc);
    let mut bytes = input.as_bytes();
    let status = start_in(rt, &[FILE], host, &mut bytes, &mut out, &mut err);
    let out = str::from_utf8(out.as_slice())?;
    let err = str::from_utf8(err.as_slice())?;
    Ok(format!(in alloc; "{status}|{out}|{err}")?)
}

// The program over such bytes: what is written, and whether both names hold the same afterwards.
fn ran_over<R: Abort>(
    rt: &HostRuntime,
    host: &mut Shelf<'_, R>,
    held: &Held,
    calls: u64,
) -> Result<(String, bool), Fail> {
    host.hold(held, calls)?;
    let written = ran(rt, host, ASKED)?;
    Ok((written, host.held()? == *held))
}

// What both names hold after an input over nothing.
fn left_by<R: Abort>(
    rt: &HostRuntime,
    host: &mut Shelf<'_, R>,
    input: &str,
    want: &str,
) -> Result<Held, Fail> {
    let none = Held::none(rt.alloc());
    host.hold(&none, ALL)?;
    if ran(rt, host, input)?.as_str() != want {
        return Err(Fail::new("another answer"));
    }
    Ok(host.held()?)
}

const MADE: &str = "CREATE VIRTUAL TABLE mail USING fts4(subject, body);
INSERT INTO mail VALUES('hello world', 'This message is a hello world message.');
INSERT INTO mail VALUES('urgent: serious', 'This mail is seen as a more serious mail');
CREATE TABLE note(id INTEGER PRIMARY KEY, title TEXT);
INSERT INTO note(title) VALUES('plain');
SELECT docid FROM mail WHERE mail MATCH 'serious';
";

const MADE_SAYS: &str = "0|2\n|";

const ASKED: &str = "SELECT docid, offsets(mail) FROM mail WHERE mail MATCH 'world';
SELECT id, title FROM note;
INSERT INTO mail(mail) VALUES('integrity-check');
.tables
";

const ASKED_SAYS: &str = "0|1|0 0 6 5 1 0 24 5\n1|plain\nmail  note\n|";

// How many calls of the host are answered, and what the program writes then. It asks whether either
// name is free, opens the one, makes ready for the other and opens it: the next call is the first
// that is refused.
const REFUSED: [(u64, &str); 5] = [
    (0, "1||Error: unable to open database\n"),
    (1, "1||Error: unable to open full-text store\n"),
    (2, "1||Error: unable to open database\n"),
    (3, "1||Error: unable to open full-text store\n"),
    (4, "1||Error: unable to open full-text store\n"),
];

// With these calls answered both are open.
const ENOUGH: u64 = 5;

#[test]
fn a_next_run_finds_what_the_first_left(rt: HostRuntime) -> Result<(), Fail> {
    let mut host = Shelf::new(&rt, rt.alloc(), FILE, BESIDE);
    let left = left_by(&rt, &mut host, MADE, MADE_SAYS)?;
    assert!(&rt; left.tables.db.as_slice().starts_with(b"SQLite format 3\0"));
    assert!(&rt; left.texts.db.as_slice().starts_with(b"SQLite format 3\0"));
    let mut next = Shelf::new(&rt, rt.alloc(), FILE, BESIDE);
    let (written, is_same) = ran_over(&rt, &mut next, &left, ENOUGH)?;
    assert_eq!(&rt; written.as_str(), ASKED_SAYS);
    assert!(&rt; is_same);
    Ok(())
}

#[test]
fn each_refused_call_leaves_both_as_they_were(rt: HostRuntime) -> Result<(), Fail> {
    let mut host = Shelf::new(&rt, rt.alloc(), FILE, BESIDE);
    let left = left_by(&rt, &mut host, MADE, MADE_SAYS)?;
    for (calls, want) in REFUSED {
        let (written, is_same) = ran_over(&rt, &mut host, &left, calls)?;
        assert_eq!(&rt; written.as_str(), want, "after {calls} calls");
        assert!(&rt; is_same, "after {calls} calls");
    }
    Ok(())
}

// What is written where only so many calls are answered over nothing, and by a next run then.
fn ran_twice<R: Abort>(
    rt: &HostRuntime,
    host: &mut Shelf<'_, R>,
    calls: u64,
) -> Result<(String, String), Fail> {
    host.hold(&Held::none(rt.alloc()), calls)?;
    let first = ran(rt, host, MADE)?;
    host.answer(ALL);
    Ok((first, ran(rt, host, MADE)?))
}

#[test]
fn after_a_refused_call_over_nothing_there_is_no_table(rt: HostRuntime) -> Result<(), Fail> {
    let mut host = Shelf::new(&rt, rt.alloc(), FILE, BESIDE);
    for (calls, want) in REFUSED {
        let (first, next) = ran_twice(&rt, &mut host, calls)?;
        assert_eq!(&rt; first.as_str(), want, "after {calls} calls");
        assert_eq!(&rt; next.as_str(), MADE_SAYS, "after {calls} calls");
    }
    Ok(())
}

#[test]
fn a_second_file_that_is_no_store_stays(rt: HostRuntime) -> Result<(), Fail> {
    let mut host = Shelf::new(&rt, rt.alloc(), FILE, BESIDE);
    let left = left_by(&rt, &mut host, MADE, MADE_SAYS)?;
    let other = left_by(&rt, &mut host, "CREATE TABLE meta(x INTEGER);\n", "0||")?;
    let held = Held {
        tables: left.tables,
        texts: other.tables,
    };
    let (written, is_same) = ran_over(&rt, &mut host, &held, ALL)?;
    assert_eq!(&rt; written.as_str(), "1||Error: not a full-text store\n");
    assert!(&rt; is_same);
    Ok(())
}
