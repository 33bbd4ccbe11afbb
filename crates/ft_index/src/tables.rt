//! Tables that are made and removed, and names that are noted.
ghost use Rattle.std.specs.Prelude.{◌≡◌, ◌∷◌, [], map, All, IfOk};
ghost use Rattle.ft_rows.specs.Changes.{shown_change, CanApply};
ghost use Rattle.ft_content.specs.Views.{shown_info};
ghost use Rattle.ft_commands.specs.Views.{creation_of};
ghost use Rattle.ft_content.specs.Step.{Contents};
ghost use Rattle.ft_calls.specs.Kept.{BlamesStore, BlamesChanges, table_info};
ghost use Rattle.ft_index.specs.Planned.{PlansOver, PlansTable, table_change};
ghost use Rattle.ft_index.specs.Changed.{with_tables, MakesRows, Does, MakesAsked};
ghost use Rattle.ft_index.specs.Refused.{BlamesDone, NeverStore};
ghost use Rattle.ft_rows.specs.Store.{Note};
ghost use Rattle.ft_store.specs.Kept.{shows};
ghost use Rattle.ft_commands.specs.Command as plain;
ghost use Rattle.ft_store.specs.Blame.{TakesOut};

use ft_content::{
    Creation, Fault, Reply, TableInfo, column_names, create_fault, free_id, made_columns,
    made_names,
};
use ft_documents::{insert_table, remove_table, skipped};
use ft_store::{RowChange, Store};
use ft_values::table_place;
use sqlite::Alter;
use std::alloc::{AllocError, Global};

// The table that a Create makes, or None where one of its name may be there and is.
fn made_table(
    alloc: Global,
    tables: &[TableInfo],
    creation: &Creation,
) -> Result<Option<TableInfo>, Fault>
    ensures makes { (contents : Contents) → map shown_info tables.now ≡ map table_info contents
        → PlansTable contents creation.now result }
    ensures never { NeverStore result }
{
    let names = made_names(alloc, creation.columns.as_slice())?;
    if let Some(fault) = create_fault(alloc, tables, creation, names.as_slice()) {
        return Err(fault);
    }
    if table_place(tables, creation.table.as_str()).is_some() {
        return Ok(None);
    }
    let name = creation.table.clone()?;
    let columns = made_columns(alloc, creation.options.as_slice(), names)?;
    Ok(Some(TableInfo {
        id: free_id(tables),
        name,
        columns,
        sound: true,
    }))
}

/// The row change that makes a table.
pub(crate) fn adding(alloc: Global, table: &TableInfo) -> Result<RowChange, AllocError>
    ensures { IfOk result (λ change. shown_change change ≡ table_change table.now) }
{
    let name = table.name.clone()?;
    let names = column_names(alloc, table.columns.as_slice())?;
    let skipped = skipped(alloc, table.columns.as_slice())?;
    Ok(RowChange::AddTable(table.id, name, names, skipped))
}

/// The row changes of a Create, or its fault.
pub(crate) fn create_changes(
    alloc: Global,
    tables: &[TableInfo],
    creation: &Creation,
) -> Result<Vec<RowChange>, Fault>
    ensures plans { PlansOver tables.now (creation_of creation.now) result }
    ensures never { NeverStore result }
{
    match made_table(alloc, tables, creation)? {
        Some(made) => Ok(vec![in alloc; adding(alloc, &made)?]?),
        None => Ok(Vec::new(alloc)),
    }
}

/// Answers a Create. A table is made in the store, and in the list that is kept beside it.
pub(crate) fn create_table<S: Alter>(
    alloc: Global,
    store: &mut Store<S>,
    tables: &mut Vec<TableInfo>,
    creation: &Creation,
) -> Result<Reply, Fault>
    ensures does { Does S.Store (with_tables store.old (map shown_info tables.old.items))
        (creation_of creation.now) result (with_tables store.new
        (map shown_info tables.new.items)) }
    ensures refused { BlamesDone S.Store (map shown_info tables.old.items) store.old
        (creation_of creation.now) store.new result }
{
    store.is_in_order();
    let Some(made) = made_table(alloc, tables.as_slice(), creation)? else {
        return Ok(Reply::Done);
    };
    let changes = vec![in alloc; adding(alloc, &made)?]?;
    let place = insert_table(tables, made)?;
    if let Err(fault) = change_rows(store, changes.as_slice()) {
        tables.remove(place);
        return Err(fault);
    }
    Ok(Reply::Done)
}

/// The row changes of a Drop.
pub(crate) fn drop_changes(
    alloc: Global,
    tables: &[TableInfo],
    table: &str,
    if_there: bool,
) -> Result<Vec<RowChange>, Fault>
    ensures plans { PlansOver tables.now (plain.Drop table.now if_there) result }
    ensures drops { IfOk result (λ changes. All TakesOut changes.items) }
    ensures never { NeverStore result }
{
    match table_place(tables, table) {
        Some(place) => Ok(vec![in alloc; RowChange::DropTable(tables[place].id)]?),
        None if if_there => Ok(Vec::new(alloc)),
        None => Err(Fault::NoSuchTable),
    }
}

/// Answers a Drop.
pub(crate) fn drop_table<S: Alter>(
    alloc: Global,
    store: &mut Store<S>,
    tables: &mut Vec<TableInfo>,
    table: &str,
    if_there: bool,
) -> Result<Reply, Fault>
    ensures does { Does S.Store (with_tables store.old (map shown_info tables.old.items))
        (plain.Drop table.now if_there) result (with_tables store.new
        (map shown_info tables.new.items)) }
    ensures refused { BlamesStore (shows S.Store store.old) (shows S.Store store.new) result }
{
    store.is_in_order();
    let changes = drop_changes(alloc, tables.as_slice(), table, if_there)?;
    change_rows(store, changes.as_slice())?;
    let known = tables.as_slice();
    if let Some(place) = table_place(known, table) {
        let id = known[place].id;
        remove_table(tables, id);
    }
    Ok(Reply::Done)
}

// Makes all changes or none.
fn change_rows<S: Alter>(store: &mut Store<S>, changes: &[RowChange]) -> Result<(), Fault>
    ensures makes { MakesRows S.Store store.old store.new (map shown_change changes.now) result }
    ensures refused { All CanApply changes.now
        → BlamesChanges (shows S.Store store.old) (shows S.Store store.new) result
        (map shown_change changes.now) }
{
    Ok(store.change(changes)?)
}

/// Notes a name, where the store is open: it is asked first.
pub(crate) fn note_name<S: Alter>(
    alloc: Global,
    store: &mut Store<S>,
    name: &str,
) -> Result<(), Fault>
    ensures makes { MakesAsked S.Store store.old store.new (Note name.now ∷ []) result }
    ensures refused { BlamesChanges (shows S.Store store.old) (shows S.Store store.new) result
        (Note name.now ∷ []) }
{
    let changes = vec![in alloc; RowChange::Note(String::from_str(alloc, name)?)]?;
    store.ping()?;
    change_rows(store, changes.as_slice())
}
