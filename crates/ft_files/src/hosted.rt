//! The two databases of a host.
ghost use Rattle.std.specs.Prelude.{◌≡◌, ◌≢◌, IsTrue, IfErr};
ghost use Rattle.sqlite.specs.Files.{image_of, over_files};
ghost use Rattle.sqlite.specs.Closing.{files_left};
ghost use Rattle.ft_opening.specs.Opened.{IsNewFrom};
ghost use Rattle.ft_files.specs.Hosts.{IsLeft, OpensBothIn, OpensPlainIn, OpensStoreIn, StayBut, files_in};

use crate::databases::{OpenFault, store_fault};
use crate::host::{Databases, Opened};
use ft_opening::adopt_opened;
use ft_store::{Store, StoreFault};
use sqlite::{Connection, FileStore, Files};
use sqlite_disk::Disk;

// How many pages of the full-text store are kept in memory at least: each command reads and
// changes rows all over its trees.
const STORE_PAGES: usize = 300;

/// What a close leaves: the two files of a database, its log copied into its file, or where that is
/// refused as they are.
pub type Left<D> = Result<Files<D>, Files<D>>;

/// The files that a close leaves.
pub fn left_files<D: Disk>(left: Left<D>) -> Files<D>
    ensures { result ≡ files_in left }
{
    match left {
        Ok(files) => files,
        Err(files) => files,
    }
}

/// Closes a database: what was committed goes from the log into the file.
pub fn close_one<D: Disk + Drop>(conn: Connection<FileStore<D>>) -> Left<D>
    ensures { IsLeft conn result }
{
    match conn.close_files() {
        Ok(files) => Ok(files),
        Err((_, store)) => Err(store.close()),
    }
}

// The tables under a name, with a cache of at least so many pages.
fn open_plain_in<D: Disk + Drop, H: Databases<D>>(
    rt: &HostRuntime,
    host: &mut H,
    name: &str,
    least_pages: usize,
) -> Result<Connection<FileStore<D>>, OpenFault>
    ensures { OpensPlainIn D.Disk H.tells name.now (H.holds host.old) (H.holds host.new) result }
{
    let Some(Opened { files, mut options }) = host.open(name) else {
        return Err(OpenFault::Database);
    };
    options.cache_pages = options.cache_pages.max(least_pages);
    match Connection::open_files(rt.alloc(), files, options) {
        Ok(mut conn) => {
            conn.set_clock(rt);
            Ok(conn)
        }
        Err((_, rest)) => {
            host.close(name, rest.into_files());
            Err(OpenFault::Database)
        }
    }
}

// Closes a database under a name to which nothing was done.
fn let_go_in<D: Disk + Drop, H: Databases<D>>(
    host: &mut H,
    name: &str,
    conn: Connection<FileStore<D>>,
)
    ensures held { IsTrue H.tells → (left : _) × IsLeft conn left × (H.holds host.new name.now
        ≡ image_of D.Disk (files_in left)) }
    ensures others { IsTrue H.tells → StayBut name.now (H.holds host.old) (H.holds host.new) }
{
    host.close(name, left_files(close_one(conn)));
}

// The full-text store under a name, beside the plain tables under another.
fn open_store_in<D: Disk + Drop, H: Databases<D>>(
    rt: &HostRuntime,
    host: &mut H,
    path: &str,
    name: &str,
) -> Result<Store<FileStore<D>>, OpenFault>
    ensures { OpensStoreIn D.Disk H.tells name.now (H.holds host.old) (H.holds host.new) result }
{
    if !host.make_beside(path, name) {
        return Err(store_fault(StoreFault::Refused));
    }
    match open_plain_in(rt, host, name, STORE_PAGES) {
        Ok(conn) => match adopt_opened(rt.alloc(), conn) {
            Ok(store) => Ok(store),
            Err(fault) => {
                let_go_in(host, name, fault.connection);
                Err(store_fault(fault.cause))
            }
        },
        Err(_) => Err(store_fault(StoreFault::Refused)),
    }
}

/// Both databases of a host: the plain tables under a name, and the full-text store beside them.
/// Where one is not opened neither is, and what was opened is closed as it was found.
pub fn open_both_in<D: Disk + Drop, H: Databases<D>>(
    rt: &HostRuntime,
    host: &mut H,
    path: &str,
    beside: &str,
) -> Result<(Connection<FileStore<D>>, Store<FileStore<D>>), OpenFault>
    requires apart { path.now ≢ beside.now }
    ensures { OpensBothIn D.Disk H.tells path.now beside.now (H.holds host.old)
        (H.holds host.new) result }
{
    if !host.is_free(path) {
        return Err(OpenFault::Database);
    }
    if !host.is_free(beside) {
        return Err(store_fault(StoreFault::Refused));
    }
    let plain = open_plain_in(rt, host, path, 0)?;
    match open_store_in(rt, host, path, beside) {
        Ok(store) => Ok((plain, store)),
        Err(fault) => {
            let_go_in(host, path, plain);
            Err(fault)
        }
    }
}
