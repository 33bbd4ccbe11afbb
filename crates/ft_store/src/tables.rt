//! The tables of a store, each with its columns.
ghost use Rattle.std.specs.Prelude.{◌≡◌, map, string_bytes};
ghost use Rattle.sqlite.specs.Held.{state};
ghost use Rattle.ft_store.specs.Rows.{value_of};
ghost use Rattle.ft_rows.specs.Shown.{shown_table, table_listed, tables_listed};
ghost use Rattle.ft_store.specs.Blame.{Blames, AreTableTexts};
ghost use Rattle.ft_store.specs.Calls.{IsAtRest};
ghost use Rattle.ft_store.specs.Settled.{ReadsFor};

use crate::fault::StoreFault;
use crate::sql::{COLUMNS, NAMES, SKIPS};
use crate::stream::select;
use ft_values::TabRow;
use sqlite::{Alter, Connection, params};
use std::alloc::Global;

/// A table that is there, with its columns.
pub(crate) fn table<S: Alter>(
    conn: &mut Connection<S>,
    alloc: Global,
    id: i64,
    name: String,
) -> Result<TabRow, StoreFault>
    requires { IsAtRest (state S.Store conn.old) }
    ensures given { ReadsFor S.Store conn.old conn.new result
        (λ found. shown_table found
        ≡ table_listed (value_of (state S.Store conn.old).now.trees) (id, string_bytes name)) }
    ensures refused { Blames (state S.Store conn.old) (state S.Store conn.new) result }
{
    let columns = select(conn, alloc, COLUMNS, params![id])?;
    let skipped = select(conn, alloc, SKIPS, params![id])?;
    Ok(TabRow {
        id,
        name,
        columns,
        skipped,
    })
}

/// All tables.
pub(crate) fn tables<S: Alter>(
    conn: &mut Connection<S>,
    alloc: Global,
) -> Result<Vec<TabRow>, StoreFault>
    requires { IsAtRest (state S.Store conn.old) }
    ensures given { ReadsFor S.Store conn.old conn.new result
        (λ found. map shown_table found.items
        ≡ tables_listed (value_of (state S.Store conn.old).now.trees)) }
    ensures refused { AreTableTexts (value_of (state S.Store conn.old).now.trees)
        → Blames (state S.Store conn.old) (state S.Store conn.new) result }
{
    let names: Vec<TabRow> = select(conn, alloc, NAMES, &[])?;
    let mut found = Vec::new(alloc);
    for named in &names {
        let name = named.name.clone()?;
        found.push(table(conn, alloc, named.id, name)?)?;
    }
    Ok(found)
}
