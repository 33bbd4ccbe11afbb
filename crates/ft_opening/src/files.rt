//! Databases in files.
ghost use Rattle.std.specs.Prelude.{◌≡◌, codes, IsTrue, IfOk, IfErr, Err, true, false};
ghost use Rattle.sqlite_std_file.specs.File.{file_is_usable, IsFresh};
ghost use Rattle.sqlite_wal.specs.Files.{image_at};
ghost use Rattle.sqlite.specs.State.{HasCleanDisk};
ghost use Rattle.sqlite.specs.Held.{IsNew};
ghost use Rattle.sqlite.specs.Start.{FindsIn};
ghost use Rattle.sqlite.specs.Opening.{is_open_error};
ghost use Rattle.sqlite.specs.Files.{file_state, IsOpened};
ghost use Rattle.sqlite.specs.declared.error.Error.{Error};

use sqlite::{Connection, Error, ErrorCode, FileFrom, FileStore, Files, Options, Start};
use sqlite_std_file::OpenError;
use std::fs;
use std::hash::{BuildHasher, RandomState};
use std::io::ErrorKind;

const NO_MEMORY: Error = Error::SqliteFailure(ErrorCode::OutOfMemory);

const CANNOT_OPEN: Error = Error::SqliteFailure(ErrorCode::CannotOpen);

// How many bytes a page has.
const PAGE: u64 = 4096;

// The least and the most pages that are kept in memory of what was read.
const LEAST_CACHE: u64 = 200;

const MOST_CACHE: u64 = 20_000;

// How many pages that a command changes stay in memory up to its end. Those past it go to the log.
const SPILL_PAGES: usize = 3000;

// How many pages are logged before they are written into the database: a change of a document logs
// some 100 to 200, and each that is written back costs once more. So the log has some 16 MB at the
// most, beside what the last command wrote.
const CHECKPOINT_FRAMES: usize = 4000;

/// The files of a database, as they are opened.
pub fn open_pair<S: Start>(
    rt: &HostRuntime,
    path: &str,
    start: S,
) -> Result<Files<FileFrom<S>>, Error>
    ensures memory { path.now ≡ codes ":memory:"
        → result ≡ Err (Error.SqliteFailure ErrorCode.CannotOpen) }
    ensures named { IfErr result (λ e. IsTrue (is_open_error e)) }
    ensures usable { IfOk result (λ files. IsTrue (file_is_usable S.Start files.log)
        × IsTrue (file_is_usable S.Start files.db)) }
    ensures fresh { IfOk result (λ files. IsFresh true files.log × IsFresh false files.db) }
{
    if path == ":memory:" || path.starts_with("file:") {
        return Err(CANNOT_OPEN);
    }
    match sqlite_std_file::open(rt, path, start) {
        Ok(files) => Ok(files),
        Err(OpenError::OutOfMemory) => Err(NO_MEMORY),
        Err(OpenError::Busy) => Err(Error::SqliteFailure(ErrorCode::DatabaseBusy)),
        Err(OpenError::Io(error)) if error.kind() == ErrorKind::OutOfMemory => Err(NO_MEMORY),
        Err(_) => Err(CANNOT_OPEN),
    }
}

// How many pages that were read are kept: those of the file, in bounds. Each costs time at the
// open.
fn cache_pages(rt: &HostRuntime, path: &str) -> usize {
    let pages = fs::metadata(rt, path).map_or(0, |found| found.len() / PAGE);
    pages.clamp(LEAST_CACHE, MOST_CACHE) as usize
}

/// The options that suit a file (our own choice): what a command writes stays in memory up to its
/// end, as far as that holds it.
pub fn file_options(rt: &HostRuntime, path: &str) -> Result<Options, Error>
    ensures { IfErr result (λ e. e ≡ Error.SqliteFailure ErrorCode.CannotOpen) }
{
    let seed = RandomState::new(rt)
        .map_err(|_| CANNOT_OPEN)?
        .hash_one(&0u8);
    let mut options = Options::new(seed);
    options.cache_pages = cache_pages(rt, path);
    options.spill_pages = SPILL_PAGES;
    options.checkpoint_frames = CHECKPOINT_FRAMES;
    Ok(options)
}

/// The database in a file, which is made where it isn't there, with a page cache that fits it.
/// `:memory:` and a URI are refused. `S` stands for what the files held.
pub fn open_database<S: Start>(
    rt: &HostRuntime,
    path: &str,
    start: S,
) -> Result<Connection<FileStore<FileFrom<S>>>, Error>
    ensures memory { path.now ≡ codes ":memory:"
        → result ≡ Err (Error.SqliteFailure ErrorCode.CannotOpen) }
    ensures named { IfErr result (λ e. IsTrue (is_open_error e)) }
    ensures opened { IfOk result (λ c. HasCleanDisk (file_state c) → IsOpened c) }
    ensures found { IfOk result (λ c. HasCleanDisk (file_state c)
        → FindsIn (image_at S.Start) (file_state c)) }
    ensures fresh { IfOk result IsNew }
{
    let files = open_pair(rt, path, start)?;
    let options = file_options(rt, path)?;
    match Connection::open_files(rt.alloc(), files, options) {
        Ok(mut conn) => {
            conn.set_clock(rt);
            Ok(conn)
        }
        Err((error, _)) => Err(error),
    }
}
