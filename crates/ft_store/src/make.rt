//! The tables of a store, as they are made.
ghost use Rattle.std.specs.Prelude.{◌+◌, ◌<◌};
ghost use Rattle.ft_store.specs.Made.{first_tables, IsEmptyOf, MakesNext};
ghost use Rattle.ft_store.specs.Inside.{MakesInside};
ghost use Rattle.ft_store.specs.Blame.{BlamesIn};
ghost use Rattle.ft_store.specs.Anew.{HasFirst, AddsNext};

use crate::fault::StoreFault;
use crate::sql::{
    MAKE_CELL, MAKE_COL, MAKE_META, MAKE_NOTED, MAKE_POSTING, MAKE_SIZES, MAKE_SKIP, MAKE_TAB,
};
use crate::statements::run;
use sqlite::{Alter, Transaction};

// The text of a table, by its place in the schema.
fn table_text(at: usize) -> &'static str
    ensures { at < 8 → MakesNext at result.now }
{
    match at {
        0 => MAKE_META,
        1 => MAKE_TAB,
        2 => MAKE_COL,
        3 => MAKE_CELL,
        4 => MAKE_POSTING,
        5 => MAKE_SIZES,
        6 => MAKE_NOTED,
        _ => MAKE_SKIP,
    }
}

/// A table of a store, where those before it were made.
pub fn create<S: Alter>(tx: &mut Transaction<'_, S>, at: usize) -> Result<(), StoreFault>
    requires { at < 8 }
    ensures done { MakesInside S.Store tx.old.conn tx.new.conn result (IsEmptyOf (first_tables at))
        (λ _ new. IsEmptyOf (first_tables (at + 1)) new) }
    ensures adds { MakesInside S.Store tx.old.conn tx.new.conn result (HasFirst at)
        (AddsNext at) }
    ensures refused { BlamesIn S.Store tx.old.conn.now tx.new.conn.now result (HasFirst at) }
{
    run(tx, table_text(at), &[])
}
