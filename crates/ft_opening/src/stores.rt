//! Stores that are opened, and databases that are taken as stores.
ghost use Rattle.std.specs.Prelude.{◌≡◌, ◌≢◌, ℤ, false, codes, None, Err, MatchResult, IfErr, IsTrue, IfOk, OnErr};
ghost use Rattle.sqlite.specs.Files.{over_files};
ghost use Rattle.sqlite.specs.Held.{IsNew, state};
ghost use Rattle.sqlite.specs.State.{HasCleanDisk};
ghost use Rattle.sqlite_wal.specs.Files.{image_at};
ghost use Rattle.ft_rows.specs.Store.{StoreValue, nothing_held};
ghost use Rattle.ft_store.specs.Calls.{IsStored};
ghost use Rattle.ft_store.specs.Kept.{shows, value_in};
ghost use Rattle.ft_store.specs.Settled.{IsSettled};
ghost use Rattle.ft_opening.specs.declared.examine.Rowids.TheVariants.{Apart};
ghost use Rattle.ft_opening.specs.Adopted.{IsTakenAsStore, IsNotTaken, IsNotTakenFor, LeavesMade};
ghost use Rattle.ft_opening.specs.Older.{IsOlder};
ghost use Rattle.ft_opening.specs.Opened.{IsOpenedFrom, IsRefusedFrom};
ghost use Rattle.ft_opening.specs.Taking.{AreAsKnown, IsBare, IsEmptyStore};

use crate::adopt::take;
use crate::examine::Rowids;
use crate::files::open_database;
use crate::make::make;
use crate::opens::{Adopt, AdoptFault, OpenFile, OpenMemory};
use ft_store::{Store, StoreFault};
use ram_disk::{Ram, open_ram};
use sqlite::{Alter, Connection, Error as SqlError, File, FileFrom, FileStore, Start, Unknown};
use std::alloc::Global;

impl OpenMemory for Store<FileStore<Ram>> {
    /// An empty store in memory, which is clean at all times and has no limit on steps. A disk in
    /// memory fails only where a write finds none, so each error is want of memory.
    fn open_memory(alloc: Global) -> Result<Store<FileStore<Ram>>, StoreFault>
        ensures empty { IfOk result (λ store. value_in over_files store ≡ nothing_held) }
        ensures clean { IfOk result (λ store. HasCleanDisk (shows over_files store)) }
        ensures up { IfOk result (λ store. IsTrue (shows over_files store).is_open) }
        ensures unread { IfOk result (λ store. store.rows_read ≡ 0) }
        ensures unlimited { IfOk result (λ store. store.held.step_limit ≡ None) }
        ensures causes { OnErr result (result ≡ Err StoreFault.Memory) }
    {
        begun(alloc, open_ram(alloc))
    }
}

impl OpenFile for Store<FileStore<File>> {
    /// The store in a file, which is made where it isn't there. `:memory:` is refused. Nothing is
    /// supposed of what a file that isn't empty held: where something is known of it, `open_from`
    /// says what is found.
    fn open_file(rt: &HostRuntime, path: &str) -> Result<Store<FileStore<File>>, StoreFault>
        ensures memory { path.now ≡ codes ":memory:" → result ≡ Err StoreFault.Refused }
        ensures unread { IfOk result (λ store. store.rows_read ≡ 0) }
    {
        open_from(rt, path, Unknown)
    }
}

/// The store in a file, as `open_file`, where `B` stands for what the file held: the database that
/// it holds is taken as a store.
pub fn open_from<B: Start>(
    rt: &HostRuntime,
    path: &str,
    start: B,
) -> Result<Store<FileStore<FileFrom<B>>>, StoreFault>
    ensures memory { path.now ≡ codes ":memory:" → result ≡ Err StoreFault.Refused }
    ensures opened { IfOk result (λ store. IsOpenedFrom (image_at B.Start) store.held) }
    ensures refused { IsRefusedFrom (image_at B.Start) result }
    ensures unread { IfOk result (λ store. store.rows_read ≡ 0) }
{
    let conn = open_database(rt, path, start)?;
    taken(rt.alloc(), conn)
}

impl<S: Alter> Adopt<Connection<S>, AdoptFault<S>> for Store<S> {
    /// Takes a database that holds a store, as it is, or one without objects, which becomes an
    /// empty store in one transaction. A store of version 2 becomes one of version 3 that holds the
    /// same, also in one transaction. Any other is handed back as it was, outside a transaction.
    /// One in a transaction is refused, and handed back in it.
    fn adopt(alloc: Global, conn: Connection<S>) -> Result<Store<S>, AdoptFault<S>>
        ensures taken { conn.in_transaction ≡ false
            → IfOk result (λ store. IsTakenAsStore S.Store conn store.held
            × (store.rows_read ≡ 0)) }
        ensures refused { conn.in_transaction ≡ false
            → IfErr result (λ fault. IsNotTaken S.Store conn fault.connection fault.cause) }
        ensures again { conn.in_transaction ≡ false
            → IfErr result (λ fault. HasCleanDisk (state S.Store fault.connection)
            → IsTrue (state S.Store conn).is_open → (v : StoreValue)
            → IsStored (state S.Store conn).now.trees v → (fault.cause ≢ StoreFault.NotAStore)
            × ((n : ℤ) → fault.cause ≢ StoreFault.Version n)) }
        ensures again_older { conn.in_transaction ≡ false
            → IfErr result (λ fault. HasCleanDisk (state S.Store fault.connection)
            → IsTrue (state S.Store conn).is_open → IsOlder (state S.Store conn).now.trees
            → (fault.cause ≢ StoreFault.NotAStore)
            × ((n : ℤ) → fault.cause ≢ StoreFault.Version n)) }
        ensures busy { IsTrue conn.in_transaction
            → MatchResult result (λ _. ⊥) (λ fault. (fault.connection ≡ conn)
            × (fault.cause ≡ StoreFault.Refused)) }
        ensures crash { conn.in_transaction ≡ false
            → MatchResult result (λ store. LeavesMade S.Store conn store.held)
            (λ fault. LeavesMade S.Store conn fault.connection) }
    {
        let mut conn = conn;
        // For the proof: an open database keeps the rules of its schema.
        let _schema = conn.schema();
        if !conn.is_autocommit() {
            return Err(AdoptFault {
                connection: conn,
                cause: StoreFault::Refused,
            });
        }
        match take(&mut conn, alloc, Rowids::Unknown) {
            Ok(()) => Ok(Store::over(alloc, conn)),
            Err(cause) => Err(AdoptFault {
                connection: conn,
                cause,
            }),
        }
    }
}

/// As `Store::adopt`, of a database outside a transaction whose rowids are known to be apart, as
/// those of every database are that was opened over files: they aren't looked at.
pub fn adopt_opened<S: Alter>(alloc: Global, conn: Connection<S>) -> Result<Store<S>, AdoptFault<S>>
    requires settled { conn.in_transaction ≡ false }
    requires known { AreAsKnown Apart (state S.Store conn) }
    ensures taken { IfOk result (λ store. IsTakenAsStore S.Store conn store.held
        × LeavesMade S.Store conn store.held × (store.rows_read ≡ 0)) }
    ensures refused { IfErr result (λ fault.
        IsNotTaken S.Store conn fault.connection fault.cause
        × LeavesMade S.Store conn fault.connection) }
{
    let mut conn = conn;
    match take(&mut conn, alloc, Rowids::Apart) {
        Ok(()) => Ok(Store::over(alloc, conn)),
        Err(cause) => Err(AdoptFault {
            connection: conn,
            cause,
        }),
    }
}

// The database, whose rowids are apart, as a store, or why it is not taken: then what it stands
// on is let go here alone.
fn taken<S: Alter + Drop>(alloc: Global, conn: Connection<S>) -> Result<Store<S>, StoreFault>
    requires settled { conn.in_transaction ≡ false }
    requires known { AreAsKnown Apart (state S.Store conn) }
    ensures taken { IfOk result (λ store. IsTakenAsStore S.Store conn store.held
        × LeavesMade S.Store conn store.held × (store.rows_read ≡ 0)) }
    ensures refused { IfErr result (IsNotTakenFor S.Store conn) }
{
    let mut conn = conn;
    take(&mut conn, alloc, Rowids::Apart)?;
    Ok(Store::over(alloc, conn))
}

// An empty store in a new database, if it was opened. Each refusal is want of memory.
fn begun<S: Alter + Drop>(
    alloc: Global,
    found: Result<Connection<S>, SqlError>,
) -> Result<Store<S>, StoreFault>
    requires bare { IfOk found (λ conn. IsSettled IsBare (state S.Store conn)) }
    requires fresh { IfOk found IsNew }
    ensures empty { IfOk result (λ store. HasCleanDisk (state S.Store store.held)
        → IsEmptyStore (state S.Store store.held).now) }
    ensures up { IfOk result (λ store. HasCleanDisk (state S.Store store.held)
        → IsTrue (state S.Store store.held).is_open) }
    ensures unread { IfOk result (λ store. store.rows_read ≡ 0) }
    ensures unlimited { IfOk result (λ store. store.held.step_limit ≡ None) }
    ensures causes { OnErr result (result ≡ Err StoreFault.Memory) }
{
    let Ok(mut conn) = found else {
        return Err(StoreFault::Memory);
    };
    let Ok(()) = make(&mut conn) else {
        return Err(StoreFault::Memory);
    };
    Ok(Store::over(alloc, conn))
}
