//! Stops at calls of a file, of which each write is one. The two files that are left are taken again,
//! with what was not synced and without it: each table is sound, and all is as before the command or
//! as after it, and as after it where it was answered.

use crate::commands::{are_sound, taken};
use crate::deeds::{Deed, EACH_KIND, EMPTY, LARGE, Turn, done_over};
use crate::files::{Image, NEVER, Part, Stops, files_of, image_of, no_files, opened};
use ft_store::{CellRow, Store, Value};
use sqlite::{Alter, Connection, Files};
use sqlite_disk::{Fuse, Memory};
use std::alloc::{AllocError, Global};
use std::test::Fail;

// Whether a deed is done on files, and what is left of them.
fn ran<D: Stops>(alloc: Global, files: Files<D>, deed: Deed) -> Result<(bool, Files<D>), Fail> {
    match opened(alloc, files) {
        Ok(conn) => {
            let (done, conn) = done_over(alloc, conn, deed)?;
            Ok((done, conn.into_store().close()))
        }
        Err(files) => Ok((false, files)),
    }
}

// Whether a cell has the value of the one before it, and is of the next document.
fn goes_on(before: Option<&CellRow>, cell: &CellRow) -> bool {
    match before {
        Some(it) => it.docid.checked_add(1) == Some(cell.docid) && it.value == cell.value,
        None => false,
    }
}

// A text without the spaces at its end. Where it has such, it is told how many bytes it has.
fn write_cell(told: &mut String, cell: &CellRow) -> Result<(), AllocError> {
    if let Value::Text(text) = &cell.value {
        let words = text.as_str().trim_end();
        write!(told, " {}|{words}", cell.docid)?;
        if words.len() < text.len() {
            write!(told, " of {}", text.len())?;
        }
    }
    Ok(())
}

// How many cells there are, and the first of those that have the same value from docid to docid.
fn write_cells(told: &mut String, cells: &[CellRow]) -> Result<(), AllocError> {
    write!(told, " {}:", cells.len())?;
    let mut before = None;
    for cell in cells {
        if !goes_on(before, cell) {
            write_cell(told, cell)?;
        }
        before = Some(cell);
    }
    Ok(())
}

// The tables of a store, and their texts.
fn write_tables<S: Alter>(told: &mut String, store: &mut Store<S>) -> Result<(), Fail> {
    for table in store.tables()? {
        write!(told, " {}", table.name)?;
        write_cells(told, store.cells(table.id)?.as_slice())?;
    }
    Ok(())
}

// The version of a database, whether each table is sound, the noted names, the tables and their
// texts.
fn told<S: Alter + Drop>(alloc: Global, conn: Connection<S>) -> Result<String, Fail> {
    let mut conn = conn;
    let version: i64 = conn.query_row("SELECT version FROM meta", &[])?.get(0)?;
    let mut tables = taken(alloc, conn)?;
    let sound = are_sound(&mut tables)?;
    let names = tables.noted()?;
    let mut told = format!(in alloc; "{version} {sound} {names:?}")?;
    let mut store = tables.into_store();
    write_tables(&mut told, &mut store)?;
    Ok(told)
}

// A deed on files, with what is there before and after it.
#[derive(Drop)]
struct Case<'a> {
    first: &'a Image,
    deed: Deed,
    before: &'static str,
    after: &'static str,
}

// What is left has to be as before the deed or as after it, and as after it where it was done.
fn look_at<D: Stops>(alloc: Global, case: &Case<'_>, done: bool, left: &Image) -> Result<(), Fail> {
    if !done && *left == *case.first {
        return Ok(());
    }
    let Ok(conn) = opened(alloc, files_of::<D>(alloc, left, Part::Log, NEVER)?) else {
        return Err(Fail::new("not opened"));
    };
    let found = told(alloc, conn)?;
    if found.as_str() != case.after && (done || found.as_str() != case.before) {
        return Err(format!(in alloc; "done {done}: {found}")?)?;
    }
    Ok(())
}

fn answers<D: Stops>(file: &mut D) -> bool {
    file.may_be_used() && file.len().is_ok()
}

// What a stop leaves: the files as they were, or others; or none is met, and what is there then.
#[derive(Drop)]
enum Left {
    AsBefore,
    Written,
    AtEnd(Image),
}

// One stop after so many calls.
fn stopped<D: Stops>(alloc: Global, case: &Case<'_>, part: Part, calls: u64) -> Result<Left, Fail> {
    let files = files_of::<D>(alloc, case.first, part, calls)?;
    let (done, mut left) = ran(alloc, files, case.deed)?;
    let is_over = answers(&mut left.log) && answers(&mut left.db);
    let kept = image_of(alloc, &left)?;
    look_at::<D>(alloc, case, done || is_over, &kept)?;
    left.log.crash();
    left.db.crash();
    let lost = image_of(alloc, &left)?;
    if lost != kept {
        look_at::<D>(alloc, case, done || is_over, &lost)?;
    }
    match (is_over, kept == *case.first) {
        (true, _) => Ok(Left::AtEnd(kept)),
        (_, true) => Ok(Left::AsBefore),
        _ => Ok(Left::Written),
    }
}

// How many calls of a file the opening of a database makes, which writes nothing.
fn calls_of_opening<D: Stops>(alloc: Global, first: &Image, part: Part) -> Result<u64, Fail> {
    let (mut too_few, mut enough): (u64, u64) = (0, 1 << 12);
    for _ in 0..12 {
        let calls = too_few.midpoint(enough);
        let (done, left) = ran(
            alloc,
            files_of::<D>(alloc, first, part, calls)?,
            Deed::Sql(""),
        )?;
        if image_of(alloc, &left)? != *first {
            return Err(Fail::new("an opening writes"));
        }
        if done {
            enough = calls;
        } else {
            too_few = calls;
        }
    }
    Ok(enough)
}

// A stop after each so-many-th number of calls of a file that opens the database, up to that of all
// its calls, and what is left then. After some of them something is written, unless none is wanted.
fn each_stopped<D: Stops>(
    alloc: Global,
    case: &Case<'_>,
    part: Part,
    step: u64,
) -> Result<Image, Fail> {
    let mut calls = calls_of_opening::<D>(alloc, case.first, part)?;
    let mut is_written = step == NEVER;
    for _ in 0..NEVER {
        match stopped::<D>(alloc, case, part, calls)? {
            Left::AsBefore => {}
            Left::Written => is_written = true,
            Left::AtEnd(left) if is_written => return Ok(left),
            Left::AtEnd(_) => return Err(Fail::new("no stop after a write")),
        }
        calls = calls.saturating_add(step);
    }
    Err(Fail::new("no end"))
}

// The files of an empty store.
fn begun<D: Stops>(alloc: Global) -> Result<Image, Fail> {
    let (_, left) = ran(alloc, no_files::<D>(alloc)?, Deed::Open)?;
    Ok(image_of(alloc, &left)?)
}

fn are_whole<D: Stops>(alloc: Global, part: Part, turns: &[Turn]) -> Result<(), Fail> {
    let mut first = begun::<D>(alloc)?;
    let mut before = EMPTY;
    for (deed, step, after) in turns {
        let case = Case {
            first: &first,
            deed: *deed,
            before,
            after: *after,
        };
        first = each_stopped::<D>(alloc, &case, part, *step)?;
        before = *after;
    }
    Ok(())
}

#[test]
fn a_stop_of_the_log_leaves_all_or_nothing(rt: HostRuntime) -> Result<(), Fail> {
    are_whole::<Fuse<Memory>>(rt.alloc(), Part::Log, &EACH_KIND)
}

#[test]
fn a_stop_of_the_database_leaves_all_or_nothing(rt: HostRuntime) -> Result<(), Fail> {
    are_whole::<Fuse<Memory>>(rt.alloc(), Part::Data, &EACH_KIND)
}

#[test]
fn a_stop_of_the_log_in_a_large_command_leaves_all_or_nothing(rt: HostRuntime) -> Result<(), Fail> {
    are_whole::<Fuse<Memory>>(rt.alloc(), Part::Log, &LARGE)
}

#[test]
fn a_stop_of_the_database_in_a_large_command_leaves_all_or_nothing(
    rt: HostRuntime,
) -> Result<(), Fail> {
    are_whole::<Fuse<Memory>>(rt.alloc(), Part::Data, &LARGE)
}
