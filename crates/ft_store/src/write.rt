//! Row changes, all in one transaction.
ghost use Rattle.std.specs.Prelude.{◌≡◌, ◌⊎◌, ◌+◌, Any, ◌<◌, ◌≤◌, [], ◌∷◌, ◌++◌, length, map, if◌then◌else◌, string_bytes, All, IfOk, IfSome, OnOk};
ghost use Rattle.std.specs.Vec.{vec_items};
ghost use Rattle.std.specs.List.{enumerate_from, flat_map};
ghost use Rattle.std.specs.FinMap.Entries.{put};
ghost use Rattle.std.specs.Ordering.{int_cmp};
ghost use Rattle.sqlite.specs.Held.{state};
ghost use Rattle.sqlite.specs.Values.{bound};
ghost use Rattle.ft_rows.specs.Store.{without_rows, with_columns, with_skipped, AddTable, PutEntries, applied};
ghost use Rattle.ft_rows.specs.Changes.{shown_change, CanApply};
ghost use Rattle.ft_store.specs.Calls.{ChangesAllOrNone, IsAtRest};
ghost use Rattle.ft_store.specs.Inside.{without_columns, without_skips};
ghost use Rattle.ft_store.specs.Groups.{entry_values, entry_put, PutsList, ArePacked};
ghost use Rattle.ft_store.specs.Puts.{IsFull, IsTooBig, IsOthers, CantPut, BlamesPuts};
ghost use Rattle.ft_store.specs.Changes.{Changes, ChangesIfOpen, Drops, MakesSome, MakesAll};
ghost use Rattle.ft_store.specs.Rows.{value_of};
ghost use Rattle.ft_store.specs.Parts.{changes_in, CanMake};

use crate::clear::{clear_documents, clear_index};
use crate::fault::StoreFault;
use crate::parts::Parts;
use crate::sql::{ADD_NAME, DROP_COLUMNS, DROP_NAME, DROP_SKIPS};
use crate::statements::{
    add_lists, beside, delete, drop_cells, drop_list, drop_size, put_cell, put_column, put_list,
    put_note, put_size, put_skip, run,
};
use ft_rows::{can_pack, pack};
use ft_values::{RowChange, Spot, Value};
use sqlite::types::{ToSql, ValueRef};
use sqlite::{Alter, Connection, Transaction};
use std::alloc::{AllocError, Global};

// Puts a term's places in a document. Places that can't be packed are Damaged.
fn put_entries<S: Alter>(
    tx: &mut Transaction<'_, S>,
    alloc: Global,
    tab: i64,
    term: &str,
    docid: i64,
    spots: &[Spot],
) -> Result<(), StoreFault>
    ensures { MakesAll S.Store tx.old.conn tx.new.conn result
        (PutEntries tab term.now docid spots.now ∷ []) }
{
    if !can_pack(spots) {
        return Err(StoreFault::Damaged);
    }
    let list = pack(alloc, spots)?;
    put_list(tx, tab, term, docid, list.as_slice())
}

// Takes the columns of a table out.
fn clear_columns<S: Alter>(tx: &mut Transaction<'_, S>, tab: i64) -> Result<(), StoreFault>
    ensures { Drops S.Store tx.old.conn tx.new.conn result
        (λ v. without_columns tab (without_skips tab v)) }
{
    delete(tx, DROP_SKIPS, &[tab.to_sql()])?;
    delete(tx, DROP_COLUMNS, &[tab.to_sql()])
}

// Takes all rows of a table out.
fn clear_rows<S: Alter>(tx: &mut Transaction<'_, S>, tab: i64) -> Result<(), StoreFault>
    ensures { Drops S.Store tx.old.conn tx.new.conn result
        (λ v. without_rows tab v) }
{
    clear_columns(tx, tab)?;
    clear_documents(tx, tab)?;
    delete(tx, DROP_NAME, &[tab.to_sql()])
}

// Puts the names of a table's columns, which are numbered from 0.
fn put_columns<S: Alter>(
    tx: &mut Transaction<'_, S>,
    tab: i64,
    columns: &[String],
) -> Result<(), StoreFault>
    ensures { ChangesIfOpen S.Store tx.old.conn tx.new.conn result
        (λ v. record v {
          columns = with_columns tab
              (enumerate_from 0 (map string_bytes columns.now)) v.columns;
        })
        (length columns.now) (λ db. IsFull (length columns.now) (db 3)
        ⊎ Any (λ c. IsTooBig 4 (length c)) (map string_bytes columns.now)) }
{
    for (at, name) in columns.iter().enumerate() {
        put_column(tx, tab, at as i64, name.as_str())?;
    }
    Ok(())
}

// Puts which columns of a table aren't indexed.
fn put_skips<S: Alter>(
    tx: &mut Transaction<'_, S>,
    tab: i64,
    skipped: &[i64],
) -> Result<(), StoreFault>
    ensures { ChangesIfOpen S.Store tx.old.conn tx.new.conn result
        (λ v. record v { skipped = with_skipped tab skipped.now v.skipped })
        (length skipped.now) (λ db. IsFull (length skipped.now) (db 13)) }
{
    for column in skipped {
        put_skip(tx, tab, *column)?;
    }
    Ok(())
}

// Puts the name of a table in place of all rows of its number.
fn rename<S: Alter>(tx: &mut Transaction<'_, S>, tab: i64, name: &str) -> Result<(), StoreFault>
    ensures { Changes S.Store tx.old.conn tx.new.conn result
        (λ v. let bare = without_rows tab v in
        record bare { tables = put int_cmp tab name.now bare.tables })
        0 (λ db. IsTooBig 3 (length name.now) ⊎ IsOthers tab name.now (value_of db).tables) }
{
    clear_rows(tx, tab)?;
    run(tx, ADD_NAME, &[beside(tab, name), name.to_sql()])
}

// Adds a table in place of all rows of its number.
fn add_table<S: Alter>(
    tx: &mut Transaction<'_, S>,
    tab: i64,
    name: &str,
    columns: &[String],
    skipped: &[i64],
) -> Result<(), StoreFault>
    ensures { Changes S.Store tx.old.conn tx.new.conn result
        (λ v. applied (AddTable tab name.now (map string_bytes columns.now) skipped.now) v)
        (length columns.now + length skipped.now)
        (λ db. CantPut (length columns.now + length skipped.now) db (value_of db)
        (AddTable tab name.now (map string_bytes columns.now) skipped.now)) }
{
    rename(tx, tab, name)?;
    put_columns(tx, tab, columns)?;
    put_skips(tx, tab, skipped)
}

// Makes one row change.
fn apply<S: Alter>(
    tx: &mut Transaction<'_, S>,
    alloc: Global,
    change: &RowChange,
) -> Result<(), StoreFault>
    ensures { MakesAll S.Store tx.old.conn tx.new.conn result (shown_change change.now ∷ []) }
{
    match change {
        RowChange::AddTable(tab, name, columns, skipped) => add_table(
            tx,
            *tab,
            name.as_str(),
            columns.as_slice(),
            skipped.as_slice(),
        ),
        RowChange::DropTable(tab) => clear_rows(tx, *tab),
        RowChange::PutCell(tab, docid, column, value) => put_cell(tx, *tab, *docid, *column, value),
        RowChange::DropCells(tab, docid) => drop_cells(tx, *tab, *docid),
        RowChange::PutEntries(tab, term, docid, spots) => {
            put_entries(tx, alloc, *tab, term.as_str(), *docid, spots.as_slice())
        }
        RowChange::DropEntries(tab, term, docid) => drop_list(tx, *tab, term.as_str(), *docid),
        RowChange::PutSize(tab, docid, column, n) => put_size(tx, *tab, *docid, *column, *n),
        RowChange::DropSize(tab, docid, column) => drop_size(tx, *tab, *docid, *column),
        RowChange::ClearIndex(tab) => clear_index(tx, *tab),
        RowChange::Note(name) => put_note(tx, name.as_str()),
    }
}

// Makes row changes one by one.
fn apply_each<S: Alter>(
    tx: &mut Transaction<'_, S>,
    alloc: Global,
    changes: &[RowChange],
) -> Result<(), StoreFault>
    ensures { MakesAll S.Store tx.old.conn tx.new.conn result (map shown_change changes.now) }
{
    for change in changes {
        apply(tx, alloc, change)?;
    }
    Ok(())
}

// ---- lists that are added by one statement

/// So many lists are added by one statement.
const GROUP: usize = 8;

fn puts_list(change: &RowChange) -> bool {
    matches!(change, RowChange::PutEntries(_, _, _, _))
}

// How many of the first changes are made together: eight that put lists, or else one.
fn group_size(changes: &[RowChange]) -> usize
    requires { 0 < length changes.now }
    ensures { (0 < result) × (result ≤ length changes.now) }
{
    if changes.len() >= GROUP && changes[..GROUP].iter().all(puts_list) {
        GROUP
    } else {
        1
    }
}

// The packed lists of changes, if each puts one that can be packed.
fn packed_lists(alloc: Global, changes: &[RowChange]) -> Result<Option<Vec<Vec<u8>>>, AllocError>
    ensures { IfOk result (λ o. IfSome o
        (λ lists. ArePacked changes.now (map vec_items lists.items))) }
{
    let mut lists = Vec::new(alloc);
    for change in changes {
        let RowChange::PutEntries(_, _, _, spots) = change else {
            return Ok(None);
        };
        if !can_pack(spots.as_slice()) {
            return Ok(None);
        }
        lists.push(pack(alloc, spots.as_slice())?)?;
    }
    Ok(Some(lists))
}

// Binds the row of a packed list.
fn push_values<'a>(
    values: &mut Vec<ValueRef<'a>>,
    change: &'a RowChange,
    list: &'a [u8],
) -> Result<(), AllocError>
    requires { PutsList change.now }
    ensures { OnOk result (bound values.new.items
        ≡ bound values.old.items ++ entry_values ((entry_put change.now).0, list.now)) }
{
    if let RowChange::PutEntries(tab, term, docid, _) = change {
        values.extend_from_slice(&[
            ValueRef::Int(*tab),
            ValueRef::Text(term.as_bytes()),
            ValueRef::Int(*docid),
            ValueRef::Blob(list),
        ])?;
    }
    Ok(())
}

// What is bound for the rows of packed lists.
fn list_values<'a>(
    alloc: Global,
    changes: &'a [RowChange],
    lists: &'a [Vec<u8>],
) -> Result<Vec<ValueRef<'a>>, AllocError>
    requires { ArePacked changes.now (map vec_items lists.now) }
    ensures { IfOk result
        (λ values. bound values.items ≡ flat_map entry_values (map entry_put changes.now)) }
{
    let mut values = Vec::new(alloc);
    for at in 0..changes.len() {
        push_values(&mut values, &changes[at], lists[at].as_slice())?;
    }
    Ok(values)
}

// Adds the lists that eight changes put, by one statement. False where that can't be done, and
// then nothing is changed.
fn add_group<S: Alter>(
    tx: &mut Transaction<'_, S>,
    alloc: Global,
    changes: &[RowChange],
) -> Result<bool, StoreFault>
    ensures { MakesSome S.Store tx.old.conn tx.new.conn result
        (λ added. if added then map shown_change changes.now else [])
        (map shown_change changes.now) }
{
    if changes.len() != GROUP {
        return Ok(false);
    }
    let Some(lists) = packed_lists(alloc, changes)? else {
        return Ok(false);
    };
    let values = list_values(alloc, changes, lists.as_slice())?;
    add_lists(tx, values.as_slice())
}

// Makes row changes, eight lists by one statement where their keys are new.
fn apply_group<S: Alter>(
    tx: &mut Transaction<'_, S>,
    alloc: Global,
    changes: &[RowChange],
) -> Result<(), StoreFault>
    ensures { MakesAll S.Store tx.old.conn tx.new.conn result (map shown_change changes.now) }
{
    let added = add_group(tx, alloc, changes)?;
    if added {
        return Ok(());
    }
    apply_each(tx, alloc, changes)
}

// Makes row changes in a transaction, in their order.
fn apply_all<S: Alter>(
    tx: &mut Transaction<'_, S>,
    alloc: Global,
    changes: &[RowChange],
) -> Result<(), StoreFault>
    ensures { MakesAll S.Store tx.old.conn tx.new.conn result (map shown_change changes.now) }
{
    let mut at = 0;
    while at < changes.len() {
        let end = at + group_size(&changes[at..]);
        apply_group(tx, alloc, &changes[at..end])?;
        at = end;
    }
    Ok(())
}

/// Makes all changes, in their order, or none.
pub(crate) fn change<S: Alter>(
    conn: &mut Connection<S>,
    alloc: Global,
    changes: &[RowChange],
) -> Result<(), StoreFault>
    requires { IsAtRest (state S.Store conn.old) }
    ensures done { ChangesAllOrNone (state S.Store conn.old) (state S.Store conn.new) result
        (All CanApply changes.now) (map shown_change changes.now) }
    ensures refused { BlamesPuts (state S.Store conn.old) (state S.Store conn.new) result
        (map shown_change changes.now) }
{
    // For the proof: outside a transaction an open database is as the last commit left it.
    let _settled = conn.is_autocommit();
    let mut tx = conn.transaction();
    apply_all(&mut tx, alloc, changes)?;
    tx.commit()?;
    Ok(())
}

/// Makes all changes of all parts that come, in their order, or none.
pub(crate) fn change_parts<S: Alter, P: Parts>(
    conn: &mut Connection<S>,
    alloc: Global,
    parts: &mut P,
) -> Result<(), StoreFault>
    requires { IsAtRest (state S.Store conn.old) }
    ensures done { ChangesAllOrNone (state S.Store conn.old) (state S.Store conn.new) result
        (All CanMake (changes_in (P.Parts.to_come parts.old)))
        (changes_in (P.Parts.to_come parts.old)) }
    ensures refused { BlamesPuts (state S.Store conn.old) (state S.Store conn.new) result
        (changes_in (P.Parts.to_come parts.old)) }
{
    // For the proof: outside a transaction an open database is as the last commit left it.
    let _settled = conn.is_autocommit();
    let mut tx = conn.transaction();
    while let Some(changes) = parts.next()? {
        apply_all(&mut tx, alloc, changes.as_slice())?;
    }
    tx.commit()?;
    Ok(())
}
