//! Two databases in memory, the plain tables and the full-text store, and why one isn't opened.

ghost use Rattle.std.specs.Prelude.{◌≡◌};
ghost use Rattle.sqlite.specs.Files.{over_files};
ghost use Rattle.ft_files.specs.Opening.{Opens, OpensMemory, IsNoPlain, IsNoStore};
ghost use Rattle.ft_files.specs.Opening as forms;
ghost use Rattle.ft_files.specs.declared.databases.OpenFault.TheVariants as fault;

use ft_opening::OpenMemory;
use ft_store::{Store, StoreFault};
use ram_disk::{Ram, open_ram};
use sqlite::{Connection, FileStore};
use std::alloc::Global;

/// Why a database is not opened.
#[derive(Clone, Copy, Debug, PartialEq, Eq)]
pub enum OpenFault {
    Database,
    NotAStore,
    Version(i64),
    Store,
}

/// Why a store is not opened.
pub(crate) fn store_fault(cause: StoreFault) -> OpenFault
    ensures { result ≡ forms.open_fault_of cause }
{
    match cause {
        StoreFault::NotAStore => OpenFault::NotAStore,
        StoreFault::Version(number) => OpenFault::Version(number),
        _ => OpenFault::Store,
    }
}

// No plain tables, in memory. The statements know the time.
fn plain_in_memory(rt: &HostRuntime) -> Result<Connection<FileStore<Ram>>, OpenFault>
    ensures { Opens result (IsNoPlain over_files) (λ f. f ≡ fault.Database) }
{
    match open_ram(rt.alloc()) {
        Ok(mut conn) => {
            conn.set_clock(rt);
            Ok(conn)
        }
        Err(_) => Err(OpenFault::Database),
    }
}

// An empty full-text store in memory.
fn store_in_memory(alloc: Global) -> Result<Store<FileStore<Ram>>, OpenFault>
    ensures { Opens result (IsNoStore over_files) (λ f. f ≡ fault.Store) }
{
    match Store::open_memory(alloc) {
        Ok(store) => Ok(store),
        Err(_) => Err(OpenFault::Store),
    }
}

/// Two empty databases in memory.
pub fn open_in_memory(
    rt: &HostRuntime,
) -> Result<(Connection<FileStore<Ram>>, Store<FileStore<Ram>>), OpenFault>
    ensures { OpensMemory over_files over_files result }
{
    let plain = plain_in_memory(rt)?;
    let store = store_in_memory(rt.alloc())?;
    Ok((plain, store))
}
