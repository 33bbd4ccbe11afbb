//! The tables of an empty store, made in one transaction.
ghost use Rattle.std.specs.Prelude.{◌≡◌};
ghost use Rattle.sqlite.specs.Held.{state};
ghost use Rattle.ft_rows.specs.Store.{nothing_held};
ghost use Rattle.ft_store.specs.Rows.{value_of};
ghost use Rattle.ft_store.specs.Calls.{IsPlainFault, IsStore, IsStored};
ghost use Rattle.ft_store.specs.Settled.{IsSettled};
ghost use Rattle.ft_store.specs.Made.{IsEmptyOf};
ghost use Rattle.ft_store.specs.Inside.{MakesInside};
ghost use Rattle.ft_store.specs.Blame.{Blames, BlamesIn};
ghost use Rattle.ft_opening.specs.Adopted.{no_schema};
ghost use Rattle.ft_opening.specs.Marking.{IsUnmarked};
ghost use Rattle.ft_opening.specs.Taking.{IsBare, IsEmptyStore, MakesWhole};

use ft_store::{StoreFault, create, run};
use sqlite::{Alter, Connection, Transaction};

/// How many tables a store has.
const TABLES: usize = 8;

// The tables, without a row.
fn create_all<S: Alter>(tx: &mut Transaction<'_, S>) -> Result<(), StoreFault>
    ensures done { MakesInside S.Store tx.old.conn tx.new.conn result (IsEmptyOf no_schema)
        (λ _ new. IsUnmarked new × (value_of new.trees ≡ nothing_held)) }
    ensures refused { BlamesIn S.Store tx.old.conn.now tx.new.conn.now result
        (IsEmptyOf no_schema) }
{
    for at in 0..TABLES {
        create(tx, at)?;
    }
    Ok(())
}

/// Marks the tables of a store with their version.
pub(crate) fn mark<S: Alter>(tx: &mut Transaction<'_, S>) -> Result<(), StoreFault>
    ensures done { MakesInside S.Store tx.old.conn tx.new.conn result IsUnmarked
        (λ old new. IsStore new × (value_of new.trees ≡ value_of old.trees)) }
    ensures refused { BlamesIn S.Store tx.old.conn.now tx.new.conn.now result IsUnmarked }
{
    run(tx, "INSERT INTO meta (one, version) VALUES (1, 3)", &[])
}

/// Makes an empty store, all at once, in a database that has no table.
pub(crate) fn make<S: Alter>(conn: &mut Connection<S>) -> Result<(), StoreFault>
    requires { IsSettled IsBare (state S.Store conn.old) }
    ensures made { MakesWhole (state S.Store conn.old) (state S.Store conn.new) result IsEmptyStore
        (λ db. IsStored db nothing_held) IsPlainFault }
    ensures refused { Blames (state S.Store conn.old) (state S.Store conn.new) result }
{
    // For the proof: outside a transaction an open database is as the last commit left it.
    let _settled = conn.is_autocommit();
    // For the proof: an open database keeps the rules of its schema.
    let _schema = conn.schema();
    let mut tx = conn.transaction();
    create_all(&mut tx)?;
    mark(&mut tx)?;
    tx.commit()?;
    Ok(())
}
