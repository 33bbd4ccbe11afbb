//! The statements that change rows, each with what it makes of the store's value.
ghost use Rattle.std.specs.Prelude.{◌≡◌, ◌≤◌, ◌⊎◌, ◌+◌, ℕ, Any, List, [], length, take, not, ◌&&◌, if◌then◌else◌, unwrap_or};
ghost use Rattle.std.specs.List.{flat_map};
ghost use Rattle.std.specs.Ordering.{int_eq, eq_by_cmp};
ghost use Rattle.std.specs.FinMap.Entries.{put, where_key};
ghost use Rattle.sqlite.specs.Values.{bound};
ghost use Rattle.sqlite_value.specs.Value.{owned};
ghost use Rattle.sqlite_value.specs.Order.{bytes};
ghost use Rattle.sqlite_value.specs.Keys.{without_case};
ghost use Rattle.sqlite.specs.declared.types.Value.TheVariants.{Int};
ghost use Rattle.ft_rows.specs.Packed.{unpacked};
ghost use Rattle.ft_rows.specs.Store.{cell_key_cmp, list_key_cmp, column_key_cmp, name_cmp};
ghost use Rattle.ft_values.specs.Cells.{shown_value};
ghost use Rattle.ft_store.specs.Blame.{RefusesRun};
ghost use Rattle.ft_store.specs.Puts.{IsFull, IsTooBig, IsBigEntry, GrowsIfAdded, KeepsRestOnOk, BlamesRows, RefusesAdd};
ghost use Rattle.ft_store.specs.Changes.{TakesRows, PutsRow, Changes, Drops};
ghost use Rattle.ft_rows.specs.Store.{StoreValue};
ghost use Rattle.ft_store.specs.Rows.{cell_in, num_of, txt_of};
ghost use Rattle.ft_store.specs.Inside.{DoneInside, RunsOnOk, RunsOrKeeps};
ghost use Rattle.ft_store.specs.Groups.{PackedList, entry_values, with_lists, GoesOnOk};

use crate::fault::StoreFault;
use crate::sql::{
    ADD_CELL, ADD_COLUMN, ADD_LIST, ADD_LISTS, ADD_NOTE, ADD_SIZE, ADD_SKIP, DROP_CELL, DROP_CELLS,
    DROP_COLUMN, DROP_LIST, DROP_NOTE, DROP_SIZE, DROP_SKIP,
};
use ft_values::Value;
use sqlite::types::{ToSql, ValueRef};
use sqlite::{Alter, Error as SqlError, ErrorCode, Transaction};

/// One statement that changes rows.
pub fn run<S: Alter>(
    tx: &mut Transaction<'_, S>,
    sql: &str,
    params: &[ValueRef<'_>],
) -> Result<(), StoreFault>
    ensures done { DoneInside S.Store tx.old.conn tx.new.conn result
        (RunsOnOk S.Store tx.old.conn.now tx.new.conn.now result sql.now (bound params.now)) }
    ensures refused { RefusesRun S.Store tx.old.conn.now tx.new.conn.now result sql.now
        (bound params.now) }
{
    let _count = tx.execute(sql, params)?;
    Ok(())
}

// One statement that adds rows. False where a rule of their table refuses them, and then nothing
// is changed.
fn add<S: Alter>(
    tx: &mut Transaction<'_, S>,
    sql: &str,
    params: &[ValueRef<'_>],
) -> Result<bool, StoreFault>
    ensures done { DoneInside S.Store tx.old.conn tx.new.conn result
        (RunsOrKeeps S.Store tx.old.conn.now tx.new.conn.now result sql.now (bound params.now)) }
    ensures refused { RefusesAdd S.Store tx.old.conn.now tx.new.conn.now result sql.now
        (bound params.now) }
{
    match tx.execute(sql, params) {
        Ok(_) => Ok(true),
        Err(SqlError::SqliteFailure(ErrorCode::ConstraintViolation(_))) => Ok(false),
        Err(error) => Err(StoreFault::from(error)),
    }
}

/// A number as a parameter beside a text.
pub(crate) fn beside(number: i64, _text: &str) -> ValueRef<'_>
    ensures { owned result ≡ Int number }
{
    ValueRef::Int(number)
}

// A number as a parameter beside those of a cell.
fn beside_value(number: i64, _value: &Value) -> ValueRef<'_>
    ensures { owned result ≡ Int number }
{
    ValueRef::Int(number)
}

fn number_of(value: &Value) -> ValueRef<'_>
    ensures { owned result ≡ num_of (shown_value value.now) }
{
    match value {
        Value::Int(number) => ValueRef::Int(*number),
        _ => ValueRef::Null,
    }
}

fn text_of(value: &Value) -> ValueRef<'_>
    ensures value { owned result ≡ txt_of (shown_value value.now) }

    // It is read again as it is.
    ensures again { let cell = shown_value value.now in cell_in (num_of cell) (txt_of cell) ≡ cell }
{
    match value {
        Value::Text(text) => ValueRef::Text(text.as_str().as_bytes()),
        _ => ValueRef::Null,
    }
}

/// Takes rows out by one statement.
pub(crate) fn delete<S: Alter>(
    tx: &mut Transaction<'_, S>,
    sql: &str,
    params: &[ValueRef<'_>],
) -> Result<(), StoreFault>
    ensures { (tree : ℕ) (f : StoreValue → StoreValue)
        → TakesRows S.Store sql.now (bound params.now) tree f
        → Drops S.Store tx.old.conn tx.new.conn result f }
{
    run(tx, sql, params)
}

// Puts a row: one statement adds it, where its key is new. Otherwise another first takes out what
// has its key, the first of its values.
fn put<S: Alter>(
    tx: &mut Transaction<'_, S>,
    drop: &str,
    insert: &str,
    keys: usize,
    row: &[ValueRef<'_>],
) -> Result<(), StoreFault>
    requires { keys ≤ length row.now }
    ensures changes { (tree : ℕ) (f : StoreValue → StoreValue) (values count : ℕ)
        → PutsRow S.Store drop.now insert.now (bound (take keys row.now)) (bound row.now) tree f
        values count
        → Changes S.Store tx.old.conn tx.new.conn result f 1
        (λ db. IsFull 1 (db tree) ⊎ IsTooBig values count) }
    ensures others { (tree : ℕ) (f : StoreValue → StoreValue) (values count : ℕ)
        → PutsRow S.Store drop.now insert.now (bound (take keys row.now)) (bound row.now) tree f
        values count
        → KeepsRestOnOk S.Store tx.old.conn.now tx.new.conn.now result tree }
{
    if add(tx, insert, row)? {
        return Ok(());
    }
    run(tx, drop, &row[..keys])?;
    run(tx, insert, row)
}

/// Takes the cells of a document out.
pub(crate) fn drop_cells<S: Alter>(
    tx: &mut Transaction<'_, S>,
    tab: i64,
    docid: i64,
) -> Result<(), StoreFault>
    ensures { Drops S.Store tx.old.conn tx.new.conn result
        (λ v. record v {
          cells = where_key cell_key_cmp
              (λ k. not (int_eq tab k.0 && int_eq docid k.1)) v.cells;
        }) }
{
    delete(tx, DROP_CELLS, &[tab.to_sql(), docid.to_sql()])
}

/// Takes a term's list in a document out.
pub(crate) fn drop_list<S: Alter>(
    tx: &mut Transaction<'_, S>,
    tab: i64,
    term: &str,
    docid: i64,
) -> Result<(), StoreFault>
    ensures { Drops S.Store tx.old.conn tx.new.conn result
        (λ v. record v {
          lists = where_key list_key_cmp
              (λ k. not (eq_by_cmp list_key_cmp (tab, term.now, docid) k)) v.lists;
        }) }
{
    delete(
        tx,
        DROP_LIST,
        &[beside(tab, term), term.to_sql(), beside(docid, term)],
    )
}

/// Takes the size of a cell out.
pub(crate) fn drop_size<S: Alter>(
    tx: &mut Transaction<'_, S>,
    tab: i64,
    docid: i64,
    column: i64,
) -> Result<(), StoreFault>
    ensures { Drops S.Store tx.old.conn tx.new.conn result
        (λ v. record v {
          sizes = where_key cell_key_cmp
              (λ k. not (eq_by_cmp cell_key_cmp (tab, docid, column) k)) v.sizes;
        }) }
{
    delete(
        tx,
        DROP_SIZE,
        &[tab.to_sql(), docid.to_sql(), column.to_sql()],
    )
}

/// Adds eight packed lists, whose rows are bound one after the other. False where a table has one
/// of its terms in a docid already, or twice among the eight, and then nothing is changed.
pub(crate) fn add_lists<S: Alter>(
    tx: &mut Transaction<'_, S>,
    values: &[ValueRef<'_>],
) -> Result<bool, StoreFault>
    ensures done { DoneInside S.Store tx.old.conn tx.new.conn result
        ((entries : List PackedList) → length entries ≡ 8
        → bound values.now ≡ flat_map entry_values entries
        → GoesOnOk S.Store tx.old.conn.now tx.new.conn.now result
        (λ added v. if added then with_lists entries v else v)) }
    ensures grown { (entries : List PackedList) → length entries ≡ 8
        → bound values.now ≡ flat_map entry_values entries
        → GrowsIfAdded S.Store tx.old.conn.now tx.new.conn.now result 8 }
    ensures refused { (entries : List PackedList) → length entries ≡ 8
        → bound values.now ≡ flat_map entry_values entries
        → BlamesRows S.Store tx.old.conn.now tx.new.conn.now result
        (λ db. IsFull 8 (db 7) ⊎ Any IsBigEntry entries) }
{
    add(tx, ADD_LISTS, values)
}

/// Puts a column's name.
pub(crate) fn put_column<S: Alter>(
    tx: &mut Transaction<'_, S>,
    tab: i64,
    column: i64,
    name: &str,
) -> Result<(), StoreFault>
    ensures { Changes S.Store tx.old.conn tx.new.conn result
        (λ v. record v { columns = put column_key_cmp (tab, column) name.now v.columns })
        1 (λ db. IsFull 1 (db 3) ⊎ IsTooBig 4 (length name.now)) }
{
    put(
        tx,
        DROP_COLUMN,
        ADD_COLUMN,
        2,
        &[beside(tab, name), beside(column, name), name.to_sql()],
    )
}

/// Puts that a column isn't indexed.
pub(crate) fn put_skip<S: Alter>(
    tx: &mut Transaction<'_, S>,
    tab: i64,
    column: i64,
) -> Result<(), StoreFault>
    ensures { Changes S.Store tx.old.conn tx.new.conn result
        (λ v. record v { skipped = put column_key_cmp (tab, column) tt v.skipped })
        1 (λ db. IsFull 1 (db 13)) }
{
    put(tx, DROP_SKIP, ADD_SKIP, 2, &[tab.to_sql(), column.to_sql()])
}

/// Puts a cell.
pub(crate) fn put_cell<S: Alter>(
    tx: &mut Transaction<'_, S>,
    tab: i64,
    docid: i64,
    column: i64,
    value: &Value,
) -> Result<(), StoreFault>
    ensures { Changes S.Store tx.old.conn tx.new.conn result
        (λ v. record v {
          cells = put cell_key_cmp (tab, docid, column) (shown_value value.now)
              v.cells;
        })
        1 (λ db. IsFull 1 (db 5)
        ⊎ IsTooBig 6 (length (bytes (txt_of (shown_value value.now))))) }
{
    put(
        tx,
        DROP_CELL,
        ADD_CELL,
        3,
        &[
            beside_value(tab, value),
            beside_value(docid, value),
            beside_value(column, value),
            number_of(value),
            text_of(value),
        ],
    )
}

/// Puts a noted name.
pub(crate) fn put_note<S: Alter>(tx: &mut Transaction<'_, S>, name: &str) -> Result<(), StoreFault>
    ensures changes { Changes S.Store tx.old.conn tx.new.conn result
        (λ v. record v { noted = put name_cmp (without_case name.now) name.now v.noted })
        1 (λ db. IsFull 1 (db 11) ⊎ IsTooBig 2 (length name.now)) }
    ensures others { KeepsRestOnOk S.Store tx.old.conn.now tx.new.conn.now result 11 }
{
    put(tx, DROP_NOTE, ADD_NOTE, 1, &[name.to_sql()])
}

/// Puts the size of a cell.
pub(crate) fn put_size<S: Alter>(
    tx: &mut Transaction<'_, S>,
    tab: i64,
    docid: i64,
    column: i64,
    n: i64,
) -> Result<(), StoreFault>
    ensures { Changes S.Store tx.old.conn tx.new.conn result
        (λ v. record v { sizes = put cell_key_cmp (tab, docid, column) n v.sizes })
        1 (λ db. IsFull 1 (db 9)) }
{
    put(
        tx,
        DROP_SIZE,
        ADD_SIZE,
        3,
        &[tab.to_sql(), docid.to_sql(), column.to_sql(), n.to_sql()],
    )
}

/// Puts a term's packed list in a document.
pub(crate) fn put_list<'a, S: Alter>(
    tx: &mut Transaction<'_, S>,
    tab: i64,
    term: &'a str,
    docid: i64,
    list: &'a [u8],
) -> Result<(), StoreFault>
    ensures { Changes S.Store tx.old.conn tx.new.conn result
        (λ v. record v {
          lists = put list_key_cmp (tab, term.now, docid)
              (unwrap_or (unpacked list.now) []) v.lists;
        })
        1 (λ db. IsFull 1 (db 7) ⊎ IsTooBig 5 (length term.now + length list.now)) }
{
    put(
        tx,
        DROP_LIST,
        ADD_LIST,
        3,
        &[
            beside(tab, term),
            term.to_sql(),
            beside(docid, term),
            list.to_sql(),
        ],
    )
}
