//! A store of version 2 becomes one of version 3.
ghost use Rattle.std.specs.Prelude.{◌≡◌, ◌⊎◌, Err};
ghost use Rattle.sqlite.specs.State.{HasCleanDisk};
ghost use Rattle.sqlite.specs.Held.{state};
ghost use Rattle.ft_opening.specs.declared.same.Layout.TheVariants.{Older};
ghost use Rattle.ft_store.specs.Rows.{value_of};
ghost use Rattle.ft_opening.specs.Older.{older_value, IsOlder, IsRenewed, IsStoreBy};
ghost use Rattle.ft_opening.specs.Marking.{IsTabled, IsUnmarked};
ghost use Rattle.ft_store.specs.Inside.{MakesInside};
ghost use Rattle.ft_opening.specs.Adopted.{IsAdoptFault, IsOddStore};
ghost use Rattle.ft_store.specs.Blame.{IsBlamed, Blames, BlamesIn};
ghost use Rattle.ft_store.specs.Calls.{IsPlainFault, IsStored};
ghost use Rattle.ft_store.specs.Settled.{IsSettled};
ghost use Rattle.ft_opening.specs.Taking.{AreAsKnown, IsLaidOut, IsJudged, MakesWhole};

use crate::examine::{Rowids, examine};
use crate::make::mark;
use crate::same::Layout;
use ft_store::{MAKE_SKIP, StoreFault, run};
use sqlite::{Alter, Connection, Transaction};
use std::alloc::Global;

// Adds the table of the columns that aren't indexed, without a row.
fn add_table<S: Alter>(tx: &mut Transaction<'_, S>) -> Result<(), StoreFault>
    ensures done { MakesInside S.Store tx.old.conn tx.new.conn result (IsStoreBy Older)
        (λ old new. IsTabled new × (value_of new.trees ≡ older_value old.trees)) }
    ensures refused { BlamesIn S.Store tx.old.conn.now tx.new.conn.now result (IsStoreBy Older) }
{
    run(tx, MAKE_SKIP, &[])
}

// Takes the version out.
fn unmark<S: Alter>(tx: &mut Transaction<'_, S>) -> Result<(), StoreFault>
    ensures done { MakesInside S.Store tx.old.conn tx.new.conn result IsTabled
        (λ old new. IsUnmarked new × (value_of new.trees ≡ value_of old.trees)) }
    ensures refused { BlamesIn S.Store tx.old.conn.now tx.new.conn.now result IsTabled }
{
    run(tx, "DELETE FROM meta", &[])
}

// Makes a store of version 3 of one of version 2, all at once.
fn migrate<S: Alter>(conn: &mut Connection<S>) -> Result<(), StoreFault>
    requires { IsSettled (IsStoreBy Older) (state S.Store conn.old) }
    ensures made { MakesWhole (state S.Store conn.old) (state S.Store conn.new) result
        (IsRenewed (state S.Store conn.old).now)
        (λ db. IsStored db (older_value (state S.Store conn.old).now.trees)) IsPlainFault }
    ensures refused { Blames (state S.Store conn.old) (state S.Store conn.new) result }
{
    // For the proof: outside a transaction an open database is as the last commit left it.
    let _settled = conn.is_autocommit();
    let mut tx = conn.transaction();
    add_table(&mut tx)?;
    unmark(&mut tx)?;
    mark(&mut tx)?;
    tx.commit()?;
    Ok(())
}

/// Takes a database with the tables of version 2 as a store. All of it is looked at before anything
/// changes.
pub(crate) fn take_older<S: Alter>(
    conn: &mut Connection<S>,
    alloc: Global,
    rowids: Rowids,
) -> Result<(), StoreFault>
    requires rest { IsSettled (IsLaidOut Older) (state S.Store conn.old) }
    requires known { AreAsKnown rowids (state S.Store conn.old) }
    ensures made { MakesWhole (state S.Store conn.old) (state S.Store conn.new) result
        (λ db. IsOlder (state S.Store conn.old).now.trees
        × IsRenewed (state S.Store conn.old).now db)
        (λ db. IsOlder (state S.Store conn.old).now.trees
        × IsStored db (older_value (state S.Store conn.old).now.trees)) IsAdoptFault }
    ensures judged { HasCleanDisk (state S.Store conn.new)
        → IsJudged (state S.Store conn.old).now.trees result }
    ensures refused { HasCleanDisk (state S.Store conn.new) → result ≡ Err StoreFault.Refused
        → IsBlamed (state S.Store conn.old) (state S.Store conn.new)
        ⊎ IsOddStore Older (state S.Store conn.old).now.trees }
{
    examine(conn, alloc, Layout::Older, rowids)?;
    migrate(conn)
}
