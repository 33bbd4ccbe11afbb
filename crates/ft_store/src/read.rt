//! What stands in the rows of queries.
ghost use Rattle.std.specs.Prelude.{◌≡◌, ◌<◌, Err, length, ℤ, string_bytes, IfOk};
ghost use Rattle.sqlite.specs.State.{Shown};
ghost use Rattle.sqlite.specs.declared.types.Value.TheVariants.{Int};
ghost use Rattle.sqlite.specs.Query.{as_count};
ghost use Rattle.sqlite.specs.Order as order;
ghost use Rattle.sqlite.specs.Order.{column};
ghost use Rattle.ft_values.specs.Cells.{shown_value};
ghost use Rattle.ft_store.specs.Rows.{text_in, cell_in};
ghost use Rattle.ft_store.specs.Found.{id_and_name};
ghost use Rattle.ft_rows.specs.Shown.{shown_cell, shown_size, shown_column, shown_note};
ghost use Rattle.ft_store.specs.Settled.{FindsOrRefuses};

use crate::fault::StoreFault;
use crate::stream::{InRow, select};
use ft_values::{CellRow, SizeRow, TabRow, Value};
use sqlite::types::ValueRef;
use sqlite::{Alter, Connection, Row, params};
use std::alloc::{AllocError, Global};

/// What is shown of bytes that aren't UTF-8: no text of a content has it.
const UNREADABLE: &str = "\0";

// A text of a cell or a column, as it is shown: bytes that aren't UTF-8 as a character that no
// content has.
fn shown_text(alloc: Global, stored: &[u8]) -> Result<String, AllocError>
    ensures { IfOk result (λ text. string_bytes text ≡ text_in stored.now) }
{
    match str::from_utf8(stored) {
        Ok(text) => String::from_str(alloc, text),
        Err(_) => String::from_str(alloc, UNREADABLE),
    }
}

// The value of a cell, of its two columns.
fn cell_value(alloc: Global, row: &Row) -> Result<Value, StoreFault>
    ensures found { FindsOrRefuses result (λ value. shown_value value
        ≡ cell_in (column row.now 2) (column row.now 3)) }
    ensures refused { result ≡ Err StoreFault.Refused → 3 < length row.now → ⊥ }
{
    if let ValueRef::Int(number) = row.get_ref(2)? {
        return Ok(Value::Int(number));
    }
    match row.get_ref(3)? {
        ValueRef::Text(stored) => Ok(Value::Text(shown_text(alloc, stored)?)),
        _ => Ok(Value::Null),
    }
}

impl InRow for CellRow {
    ghost use Rattle.ft_rows.specs.Shown.{shown_cell};
    ghost use Rattle.ft_store.specs.Found.{found_cell};
    ghost use Rattle.ft_rows.specs.Store.{CellKey};
    ghost use Rattle.ft_values.specs.Cells.{Cell};
    ghost use Rattle.std.specs.Prelude.{◌<◌, length};
    ghost use Rattle.sqlite.specs.Values.{IsInt};
    ghost use Rattle.sqlite.specs.Order.{column};

    ghost Shown = { CellKey × Cell };

    ghost shown = { shown_cell };

    ghost found = { found_cell };

    ghost is_readable = { λ row. (3 < length row) × IsInt (column row 0) × IsInt (column row 1) };

    fn read(alloc: Global, row: &Row) -> Result<CellRow, StoreFault> {
        Ok(CellRow {
            docid: row.get(0)?,
            column: row.get(1)?,
            value: cell_value(alloc, row)?,
        })
    }
}

impl InRow for SizeRow {
    ghost use Rattle.std.specs.Prelude.{◌<◌, ℤ, length};
    ghost use Rattle.sqlite.specs.Values.{IsInt};
    ghost use Rattle.sqlite.specs.Order.{column};
    ghost use Rattle.ft_rows.specs.Shown.{shown_size};
    ghost use Rattle.ft_store.specs.Found.{found_size};
    ghost use Rattle.ft_rows.specs.Store.{CellKey};

    ghost Shown = { CellKey × ℤ };

    ghost shown = { shown_size };

    ghost found = { found_size };

    ghost is_readable = { λ row. (2 < length row) × IsInt (column row 0) × IsInt (column row 1)
        × IsInt (column row 2) };

    fn read(_alloc: Global, row: &Row) -> Result<SizeRow, StoreFault> {
        Ok(SizeRow {
            docid: row.get(0)?,
            column: row.get(1)?,
            n: row.get(2)?,
        })
    }
}

/// A table's number and name. Its columns come later.
impl InRow for TabRow {
    ghost use Rattle.std.specs.Prelude.{◌≡◌, ◌<◌, ℤ, ℕ, List, length, IsUtf8};
    ghost use Rattle.sqlite.specs.Order.{column};
    ghost use Rattle.sqlite.specs.Values.{IsInt};
    ghost use Rattle.sqlite.specs.declared.types.Value.TheVariants.{Text};
    ghost use Rattle.ft_store.specs.Found.{id_and_name, found_table};

    ghost Shown = { ℤ × List ℕ };

    ghost shown = { λ _. id_and_name };

    ghost found = { λ _. found_table };

    ghost is_readable = { λ row. (1 < length row) × IsInt (column row 0)
        × ((t : List ℕ) × (column row 1 ≡ Text t) × IsUtf8 t) };

    fn read(alloc: Global, row: &Row) -> Result<TabRow, StoreFault> {
        Ok(TabRow {
            id: row.get(0)?,
            name: row.get(1)?,
            columns: Vec::new(alloc),
            skipped: Vec::new(alloc),
        })
    }
}

/// A column's number and name.
impl InRow for (i64, String) {
    ghost use Rattle.std.specs.Prelude.{◌≡◌, ◌<◌, ℕ, List, length};
    ghost use Rattle.sqlite.specs.Order.{column};
    ghost use Rattle.sqlite.specs.Values.{IsInt};
    ghost use Rattle.sqlite.specs.declared.types.Value.TheVariants.{Text};
    ghost use Rattle.ft_rows.specs.Shown.{shown_column};
    ghost use Rattle.ft_store.specs.Found.{found_column};
    ghost use Rattle.ft_rows.specs.Store.{ColumnKey};

    ghost Shown = { ColumnKey × List ℕ };

    ghost shown = { shown_column };

    ghost found = { found_column };

    ghost is_readable = { λ row. (1 < length row) × IsInt (column row 0)
        × ((t : List ℕ) × (column row 1 ≡ Text t)) };

    fn read(alloc: Global, row: &Row) -> Result<(i64, String), StoreFault> {
        let ValueRef::Text(stored) = row.get_ref(1)? else {
            return Err(StoreFault::Refused);
        };
        Ok((row.get(0)?, shown_text(alloc, stored)?))
    }
}

/// The number in the first column.
impl InRow for i64 {
    ghost use Rattle.sqlite.specs.Order.{column};
    ghost use Rattle.sqlite.specs.declared.types.Value.{Value as SqlValue};
    ghost use Rattle.sqlite.specs.declared.types.Value.TheVariants.{Int};
    ghost use Rattle.std.specs.Prelude.{◌<◌, length};
    ghost use Rattle.sqlite.specs.Values.{IsInt};

    ghost Shown = { SqlValue };

    ghost shown = { λ _ number. Int number };

    ghost found = { λ _ row. column row 0 };

    ghost is_readable = { λ row. (0 < length row) × IsInt (column row 0) };

    fn read(_alloc: Global, row: &Row) -> Result<i64, StoreFault> {
        Ok(row.get(0)?)
    }
}

/// A noted name.
impl InRow for String {
    ghost use Rattle.std.specs.Prelude.{◌≡◌, ◌<◌, ℕ, List, length, IsUtf8};
    ghost use Rattle.sqlite.specs.Order.{column};
    ghost use Rattle.sqlite.specs.declared.types.Value.TheVariants.{Text};
    ghost use Rattle.ft_rows.specs.Shown.{shown_note};
    ghost use Rattle.ft_store.specs.Found.{found_note};

    ghost Shown = { List ℕ × List ℕ };

    ghost shown = { λ _. shown_note };

    ghost found = { λ _. found_note };

    ghost is_readable = { λ row. (0 < length row)
        × ((t : List ℕ) × (column row 0 ≡ Text t) × IsUtf8 t) };

    fn read(_alloc: Global, row: &Row) -> Result<String, StoreFault> {
        Ok(row.get(0)?)
    }
}

/// A limit on rows as SQL has it, where -1 stands for none.
pub(crate) fn row_limit(most: Option<u32>) -> i64
    ensures { as_count (Int result) ≡ most }
{
    most.map_or(-1, |count| i64::from(count))
}
