//! The two files of a database, which may stop, and what is tried on a database over them.

use sqlite::{Alter, Connection, FileStore, Files, Options};
use sqlite_disk::{Crash, Disk, Fuse, Memory};
use std::alloc::{AllocError, Global};
use std::test::Fail;

/// More calls than a run makes.
pub(crate) const NEVER: u64 = u64::MAX;

/// A file that holds bytes, and stops after so many calls.
pub(crate) trait Stops: Crash + Drop {
    fn holding(alloc: Global, bytes: &[u8], calls: u64) -> Result<Self, Fail>;

    fn held(&self) -> &[u8];
}

impl Stops for Fuse<Memory> {
    fn holding(alloc: Global, bytes: &[u8], calls: u64) -> Result<Fuse<Memory>, Fail> {
        let mut file = Memory::new(alloc);
        file.write_at(0, bytes)?;
        file.sync()?;
        Ok(Fuse::new(file, calls))
    }

    fn held(&self) -> &[u8] {
        self.inner().bytes()
    }
}

/// What stands in the files of a database.
#[derive(Drop, PartialEq)]
pub(crate) struct Image {
    log: Vec<u8>,
    db: Vec<u8>,
}

pub(crate) fn image_of<D: Stops>(alloc: Global, files: &Files<D>) -> Result<Image, AllocError> {
    Ok(Image {
        log: files.log.held().to_vec(alloc)?,
        db: files.db.held().to_vec(alloc)?,
    })
}

/// Which file stops.
#[derive(Clone, Copy)]
pub(crate) enum Part {
    Log,
    Data,
}

/// Files that hold an image, of which one stops after so many calls.
pub(crate) fn files_of<D: Stops>(
    alloc: Global,
    image: &Image,
    part: Part,
    calls: u64,
) -> Result<Files<D>, Fail> {
    let (log, db) = match part {
        Part::Log => (calls, NEVER),
        Part::Data => (NEVER, calls),
    };
    Ok(Files {
        log: D::holding(alloc, image.log.as_slice(), log)?,
        db: D::holding(alloc, image.db.as_slice(), db)?,
    })
}

/// Empty files that don't stop.
pub(crate) fn no_files<D: Stops>(alloc: Global) -> Result<Files<D>, Fail> {
    let none = Image {
        log: Vec::new(alloc),
        db: Vec::new(alloc),
    };
    files_of(alloc, &none, Part::Log, NEVER)
}

// Few pages are kept in memory, and nothing is written before a transaction's end. Each commit goes
// from the log into the database file before the next one, so that a command writes to both.
fn options() -> Options {
    let mut options = Options::new(1);
    options.cache_pages = 64;
    options.spill_pages = 0xffff_0000;
    options.checkpoint_frames = 1;
    options
}

/// The database that files hold, or else the files.
pub(crate) fn opened<D: Stops>(
    alloc: Global,
    files: Files<D>,
) -> Result<Connection<FileStore<D>>, Files<D>> {
    if !files.may_be_used() {
        return Err(files);
    }
    match Connection::open_files(alloc, files, options()) {
        Ok(conn) => Ok(conn),
        Err((_, left)) => Err(left.into_files()),
    }
}

/// What is tried on a database, whatever its files are.
pub(crate) trait Trial: Copy {
    /// What is found by it.
    type Found;

    /// What is found in this database.
    fn over<S: Alter + Drop>(self, alloc: Global, conn: Connection<S>) -> Result<Self::Found, Fail>;
}

// What is found in an empty database, whatever its files are.
fn found_in<D: Stops, T: Trial>(alloc: Global, trial: T) -> Result<T::Found, Fail> {
    match opened(alloc, no_files::<D>(alloc)?) {
        Ok(conn) => trial.over(alloc, conn),
        Err(_) => Err(Fail::new("not opened")),
    }
}

/// What is found in an empty database. All tests here stand on one kind of files, so that the engine
/// is compiled once.
pub(crate) fn tried<T: Trial>(alloc: Global, trial: T) -> Result<T::Found, Fail> {
    found_in::<Fuse<Memory>, T>(alloc, trial)
}
