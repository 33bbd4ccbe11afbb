//! The special commands: integrity-check, rebuild and optimize.
ghost use Rattle.std.specs.Prelude.{map, ◌≡◌, ℕ, List, Some};
ghost use Rattle.ft_content.specs.Views.{shown_info};
ghost use Rattle.ft_commands.specs.Views.{answer_of};
ghost use Rattle.ft_index.specs.Changed.{with_tables, Does};
ghost use Rattle.ft_index.specs.DocumentsRead.{LooksOn};
ghost use Rattle.ft_calls.specs.Kept.{Executes, Answers, BlamesStore, table_info};
ghost use Rattle.ft_store.specs.Kept.{shows};
ghost use Rattle.ft_documents.specs.Found.{info_named};
ghost use Rattle.ft_index.specs.Refused.{BlamesDone, NeverStore};
ghost use Rattle.ft_index.specs.Written.{PlansIn, RebuildsIn};
ghost use Rattle.ft_content.specs.Step.{Contents};
ghost use Rattle.ft_commands.specs.Command as plain;
ghost use Rattle.ft_content.specs.Views as views;

use crate::documents::all_documents;
use crate::row_state::{RowState, known_state};
use crate::tables::adding;
use crate::written::{Written, make_anew};
use ft_content::{Fault, Reply, TableInfo};
use ft_documents::{additions, mark_sound, named_table, sound_table};
use ft_store::{RowChange, Store};
use sqlite::Alter;
use std::alloc::Global;

/// Answers a Check, by the rows as they are read.
pub(crate) fn check_table<S: Alter>(
    alloc: Global,
    store: &mut Store<S>,
    tables: &[TableInfo],
    table: &str,
) -> Result<Reply, Fault>
    ensures told { Executes S.Store (with_tables store.old (map shown_info tables.now))
        (plain.Check table.now) (answer_of result) (with_tables store.new
        (map shown_info tables.now)) }
    ensures looks { LooksOn S.Store store.old store.new result }
    ensures refused { BlamesStore (shows S.Store store.old) (shows S.Store store.new) result }
{
    store.is_in_order();
    let known = named_table(tables, table)?;
    if known_state(alloc, store, known)?.is_sound() {
        return Ok(Reply::Done);
    }
    Err(Fault::Corrupt)
}

/// Answers a Rebuild: a table whose rows are right as they are read stays, and another is made anew
/// with its documents. It is marked sound.
pub(crate) fn rebuild_table<S: Alter>(
    alloc: Global,
    store: &mut Store<S>,
    tables: &mut Vec<TableInfo>,
    table: &str,
) -> Result<Reply, Fault>
    ensures does { Does S.Store (with_tables store.old (map shown_info tables.old.items))
        (plain.Rebuild table.now) result (with_tables store.new (map shown_info tables.new.items)) }
    ensures refused { BlamesDone S.Store (map shown_info tables.old.items) store.old
        (plain.Rebuild table.now) store.new result }
{
    store.is_in_order();
    let known = named_table(tables.as_slice(), table)?;
    let id = known.id;
    let anew = rebuilt(alloc, store, known)?;
    make_anew(alloc, store, anew)?;
    mark_sound(tables, id);
    Ok(Reply::Done)
}

/// The row changes of a Rebuild. The store is only read, whatever is answered.
pub(crate) fn rebuild_changes<S: Alter>(
    alloc: Global,
    store: &mut Store<S>,
    tables: &[TableInfo],
    table: &str,
) -> Result<Vec<RowChange>, Fault>
    ensures told { PlansIn S.Store (map shown_info tables.now) store.old store.new
        (plain.Rebuild table.now) result }
    ensures looks { LooksOn S.Store store.old store.new result }
    ensures refused { BlamesStore (shows S.Store store.old) (shows S.Store store.new) result }
{
    let known = named_table(tables, table)?;
    let Some(written) = rebuilt(alloc, store, known)? else {
        return Ok(Vec::new(alloc));
    };
    let first = adding(alloc, written.table)?;
    let mut changes = written.changes(alloc)?;
    changes.insert(0, first)?;
    Ok(changes)
}

// The table with the documents that it is made anew with, none where its rows are right as they are
// read; or the fault of a Rebuild. The store is only read, whatever is answered.
fn rebuilt<'t, S: Alter>(
    alloc: Global,
    store: &mut Store<S>,
    table: &'t TableInfo,
) -> Result<Option<Written<'t>>, Fault>
    ensures told { (tables : List views.TableInfo) (name : List ℕ)
        → info_named tables name ≡ Some (shown_info table.now)
        → RebuildsIn S.Store tables store.old store.new (plain.Rebuild name) result }
    ensures looks { LooksOn S.Store store.old store.new result }
    ensures refused { BlamesStore (shows S.Store store.old) (shows S.Store store.new) result }
{
    store.is_in_order();
    match known_state(alloc, store, table)? {
        RowState::Sound => Ok(None),
        RowState::Stale => {
            let rewrites = additions(alloc, all_documents(alloc, store, table.id)?)?;
            Ok(Some(Written { table, rewrites }))
        }
        RowState::Loose => Err(Fault::Corrupt),
    }
}

/// Answers an Optimize.
pub(crate) fn optimize(tables: &[TableInfo], table: &str) -> Result<Reply, Fault>
    ensures answers { (contents : Contents) → map shown_info tables.now ≡ map table_info contents →
        Answers contents (plain.Optimize table.now) (answer_of result) contents }
    ensures never { NeverStore result }
{
    sound_table(tables, table)?;
    Ok(Reply::Done)
}
