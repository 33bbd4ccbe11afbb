//! A database in memory over B-trees, as pages in two byte vectors: as fast as a file, clean at all
//! times, and a crash leaves what was written.
#![tactic(auto)]

ghost use Rattle.std.specs.Prelude.{◌≡◌, [], IfOk, IfErr};
ghost use Rattle.sqlite_trees.specs.Objects.{catalog_tree};
ghost use Rattle.sqlite.specs.State.{HasCleanDisk};
ghost use Rattle.sqlite.specs.Held.{IsNew};
ghost use Rattle.ram_disk.specs.Refused.{LacksMemory};
ghost use Rattle.sqlite.specs.Files.{file_state};
ghost use Rattle.sqlite.specs.Steps.{IsEmpty};

use sqlite::{Connection, Error, FileStore, Files, Options};
use std::alloc::Global;

mod disk;
mod honest;

pub use disk::Ram;
pub use honest::Honest;

/// The options that suit memory (measured, our own choice). A read is a copy that no digest tests,
/// so a small cache serves, and each of its pages costs about 4 microseconds at the open. A
/// transaction never spills, since one that does writes its pages to the log again and again, which
/// then only grows.
fn ram_options() -> Options {
    let mut options = Options::new(1);
    options.cache_pages = 64;
    options.spill_pages = 0xffff_0000;
    options.checkpoint_frames = 1000;
    options
}

/// A new, empty database in memory. An error is want of memory.
pub fn open_ram(alloc: Global) -> Result<Connection<FileStore<Ram>>, Error>
    ensures empty { IfOk result (λ c. IsEmpty (file_state c)) }
    ensures bare { IfOk result (λ c. (file_state c).now.trees catalog_tree ≡ []) }
    ensures clean { IfOk result (λ c. HasCleanDisk (file_state c)) }
    ensures shielded { IfOk result (λ c. (file_state c).IsShielded) }
    ensures fresh { IfOk result IsNew }
    ensures memory { IfErr result LacksMemory }
{
    let log = Ram::new(alloc);
    let db = Ram::new(alloc);
    match Connection::open_files(alloc, Files { log, db }, ram_options()) {
        Ok(conn) => Ok(conn),
        Err((error, _)) => Err(error),
    }
}

/// The law that a connection in memory is clean at all times, whatever was done with it.
pub fn is_always_clean(conn: &Connection<FileStore<Ram>>)
    ensures { HasCleanDisk (file_state conn.now) }
{
    let _ = conn;
}
