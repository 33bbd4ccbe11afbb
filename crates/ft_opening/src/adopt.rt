//! Whether a database is taken as a store.
ghost use Rattle.std.specs.Prelude.{◌≡◌, ◌⊎◌, false, IsTrue, IfErr, OnOk};
ghost use Rattle.sqlite.specs.State.{HasCleanDisk};
ghost use Rattle.sqlite.specs.Held.{state};
ghost use Rattle.ft_opening.specs.Adopted.{TellsAs, rows_cause, error_cause, told_cause, has_our_name, IsAdoptFault, IsForeign, IsTakenAsStore, IsNotTaken, LeavesMade};
ghost use Rattle.ft_store.specs.Blame.{IsBlamed};
ghost use Rattle.ft_store.specs.Calls.{IsStoreIfOpen};
ghost use Rattle.ft_opening.specs.Taking.{AreAsKnown, LeavesAlone};

use crate::examine::{Rowids, examine};
use crate::make::make;
use crate::migrate::take_older;
use crate::same::{Layout, is_bare, is_our_name, layout_of};
use ft_store::StoreFault;
use sqlite::types::ValueRef;
use sqlite::{Alter, Connection, Error as SqlError, ErrorCode, Row};
use sqlite_schema::schema::Schema;
use std::alloc::Global;

// What the database answers when it is asked for its version, whatever its tables are. It changes
// nothing.
fn version_answer<S: Alter>(conn: &mut Connection<S>) -> Result<Vec<Row>, SqlError>
    requires settled { (state S.Store conn.old).in_transaction ≡ false }
    ensures told { HasCleanDisk (state S.Store conn.new) → TellsAs S.Store conn.old result }
    ensures refused { HasCleanDisk (state S.Store conn.new) → IfErr result (λ e.
        error_cause e ≡ StoreFault.Refused
        → IsBlamed (state S.Store conn.old) (state S.Store conn.new)) }
    ensures alone { LeavesAlone (state S.Store conn.old) (state S.Store conn.new) }
{
    // For the proof: outside a transaction an open database is as the last commit left it.
    let _settled = conn.is_autocommit();
    let mut tx = conn.transaction();
    let found = tx.query_all("SELECT version FROM meta", &[]);
    tx.rollback();
    found
}

fn cause_of_rows(rows: &[Row]) -> StoreFault
    ensures { result ≡ rows_cause rows.now }
{
    match rows {
        [row] => match row.get_ref(0) {
            Ok(ValueRef::Int(2 | 3)) => StoreFault::Refused,
            Ok(ValueRef::Int(version)) => StoreFault::Version(version),
            _ => StoreFault::NotAStore,
        },
        _ => StoreFault::NotAStore,
    }
}

fn cause_of_error(error: &SqlError) -> StoreFault
    ensures { result ≡ error_cause error.now }
{
    match error {
        SqlError::SqliteFailure(ErrorCode::OutOfMemory) => StoreFault::Memory,
        SqlError::SqliteFailure(
            ErrorCode::SystemIoFailure
            | ErrorCode::DatabaseCorrupt
            | ErrorCode::DiskFull
            | ErrorCode::Closed,
        ) => StoreFault::Refused,
        _ => StoreFault::NotAStore,
    }
}

// Whether a table has the name of one of a store.
fn names_ours(schema: &Schema) -> bool
    ensures { result ≡ has_our_name schema.now }
{
    let mut tables = schema.tables.as_slice().iter();
    tables.any(|table| is_our_name(table.name.as_slice()))
}

// Why a database with other tables is not taken. It changes nothing.
fn foreign<S: Alter>(conn: &mut Connection<S>) -> StoreFault
    requires settled { (state S.Store conn.old).in_transaction ≡ false }
    ensures none { has_our_name (state S.Store conn.old).now.schema ≡ false
        → result ≡ StoreFault.Refused }
    ensures told { HasCleanDisk (state S.Store conn.new)
        → IsTrue (has_our_name (state S.Store conn.old).now.schema) → (found : _)
        × TellsAs S.Store conn.old found × (result ≡ told_cause found) }
    ensures cause { IsAdoptFault result }
    ensures refused { HasCleanDisk (state S.Store conn.new) → result ≡ StoreFault.Refused
        → IsBlamed (state S.Store conn.old) (state S.Store conn.new)
        ⊎ IsForeign S.Store conn.old }
    ensures alone { LeavesAlone (state S.Store conn.old) (state S.Store conn.new) }
{
    if !names_ours(conn.schema()) {
        return StoreFault::Refused;
    }
    match version_answer(conn) {
        Ok(rows) => cause_of_rows(rows.as_slice()),
        Err(error) => cause_of_error(&error),
    }
}

/// Takes a database as a store. One without objects becomes an empty store, and one of version 2
/// becomes one of version 3, each in one transaction.
pub(crate) fn take<S: Alter>(
    conn: &mut Connection<S>,
    alloc: Global,
    rowids: Rowids,
) -> Result<(), StoreFault>
    requires settled { (state S.Store conn.old).in_transaction ≡ false }
    requires known { AreAsKnown rowids (state S.Store conn.old) }
    ensures store { OnOk result (IsStoreIfOpen (state S.Store conn.new)) }
    ensures taken { OnOk result (IsTakenAsStore S.Store conn.old conn.new) }
    ensures refused { IfErr result (IsNotTaken S.Store conn.old conn.new) }
    ensures mode { (state S.Store conn.new).in_transaction ≡ false }
    ensures crash { LeavesMade S.Store conn.old conn.new }
{
    if is_bare(conn.schema()) {
        return make(conn);
    }
    match layout_of(conn.schema()) {
        Some(Layout::Present) => examine(conn, alloc, Layout::Present, rowids),
        Some(Layout::Older) => take_older(conn, alloc, rowids),
        None => Err(foreign(conn)),
    }
}
