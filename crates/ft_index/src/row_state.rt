//! How the rows of tables stand, as a store is taken and as one table is asked for.
ghost use Rattle.std.specs.Prelude.{◌≡◌, ◌<◌, ◌↔◌, ℤ, ℕ, List, map, length, IsTrue, IfOk};
ghost use Rattle.sqlite.specs.State.{HasCleanDisk};
ghost use Rattle.ft_store.specs.Blame.{Blames, AreTableTexts};
ghost use Rattle.ft_store.specs.Calls.{IsPlainFault};
ghost use Rattle.ft_store.specs.Kept.{shows, value_in};
ghost use Rattle.ft_content.specs.Views.{column_of, shown_info};
ghost use Rattle.ft_content.specs.Step.{TableState};
ghost use Rattle.ft_index.specs.DocumentsRead.{AsksStore};
ghost use Rattle.ft_calls.specs.Kept.{is_sound};
ghost use Rattle.ft_index.specs.Opened.{state_of, StandsSo, HasState, IsListed, AreMarked};
ghost use Rattle.ft_documents.specs.Tables.{table_rows, table_index};

use ft_content::{Column, TableInfo};
use ft_documents::{index_lists, is_content, listed_columns};
use ft_store::{CellRow, Store, StoreFault, TabRow};
use sqlite::Alter;
use std::alloc::Global;

/// How the rows of a table stand: they are a content with exactly the index rows made from scratch,
/// a content with others, or no content.
#[derive(Clone, Copy, Debug)]
pub(crate) enum RowState {
    Sound,
    Stale,
    Loose,
}

impl RowState {
    /// The mark of a table that stands so: it is sound where its index rows are those made from
    /// scratch out of its content.
    pub(crate) fn is_sound(self) -> bool
        ensures { (held : TableState) → self ≡ state_of held → result ≡ is_sound held }
    {
        matches!(self, RowState::Sound)
    }
}

/// How the rows of a table that is known stand. The store is only read, whatever is answered.
pub(crate) fn known_state<S: Alter>(
    alloc: Global,
    store: &mut Store<S>,
    table: &TableInfo,
) -> Result<RowState, StoreFault>
    ensures told { (held : TableState) → HasCleanDisk (shows S.Store store.new)
        → HasState (value_in S.Store store.old) (shown_info table.now) held
        → IfOk result (λ s. s ≡ state_of held) }
    ensures asks { AsksStore S.Store store.old store.new result IsPlainFault }
    ensures refused { Blames (shows S.Store store.old) (shows S.Store store.new) result }
{
    let listed = store.table(table.id, table.name.as_str())?;
    read_state(alloc, store, &listed)
}

// How the rows of a table that is listed stand: whether they are a content, and whether the index
// rows are those made from scratch out of it. A posting list that can't be read is none of them. The
// store is only read, whatever is answered.
fn read_state<S: Alter>(
    alloc: Global,
    store: &mut Store<S>,
    table: &TabRow,
) -> Result<RowState, StoreFault>
    ensures told { (named : ℤ × List ℕ) → HasCleanDisk (shows S.Store store.new)
        → IsListed (value_in S.Store store.old) named table.now
        → IfOk result (λ s. StandsSo named.1 (table_rows named.0 (value_in S.Store store.old))
        (table_index named.0 (value_in S.Store store.old)) s) }
    ensures asks { AsksStore S.Store store.old store.new result IsPlainFault }
    ensures refused { Blames (shows S.Store store.old) (shows S.Store store.new) result }
{
    let columns = listed_columns(alloc, table)?;
    let cells = store.cells(table.id)?;
    if !is_content(alloc, table, columns.as_slice(), cells.as_slice())? {
        return Ok(RowState::Loose);
    }
    let sizes = store.sizes(table.id)?;
    let Some(lists) = index_lists(alloc, columns.as_slice(), cells, sizes.as_slice())? else {
        return Ok(RowState::Stale);
    };
    if store.has_lists(table.id, lists)? {
        return Ok(RowState::Sound);
    }
    Ok(RowState::Stale)
}

/// All tables of a store by rising id, each with its mark. The store is only read, whatever is
/// answered.
pub(crate) fn opened_tables<S: Alter>(
    alloc: Global,
    store: &mut Store<S>,
) -> Result<Vec<TableInfo>, StoreFault>
    ensures told { HasCleanDisk (shows S.Store store.new)
        → IfOk result (λ tables. AreMarked (value_in S.Store store.old)
        (value_in S.Store store.old).tables (map shown_info tables.items)) }
    ensures asks { AsksStore S.Store store.old store.new result IsPlainFault }
    ensures refused { AreTableTexts (value_in S.Store store.old)
        → Blames (shows S.Store store.old) (shows S.Store store.new) result }
{
    let rows = store.tables()?;
    let mut tables = Vec::new(alloc);
    for row in rows {
        let columns = listed_columns(alloc, &row)?;
        let sound = read_state(alloc, store, &row)?.is_sound();
        tables.push(TableInfo {
            id: row.id,
            name: row.name,
            columns,
            sound,
        })?;
    }
    Ok(tables)
}
