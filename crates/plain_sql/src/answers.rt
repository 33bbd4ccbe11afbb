//! The rows that `sqlite` answers, as they are printed.
ghost use Rattle.std.specs.Prelude.{◌≡◌, true, false, map, string_bytes, IfOk, IfSome, IfNone};
ghost use Rattle.std.specs.Str.{is_utf8};
ghost use Rattle.std.specs.List.{list_any};
ghost use Rattle.sqlite_value.specs.Order.{column};
ghost use Rattle.sqlite_value.specs.Value.{owned};
ghost use Rattle.shell_text.specs.Print as print;
ghost use Rattle.shell_io.specs.Outcomes.{Tells};
ghost use Rattle.shell_io.specs.OutputViews.{answer_as};
ghost use Rattle.plain_sql.specs.Answers as forms;

use shell_io::{Answer, Complaint, Output};
use shell_text::{Cell, Grid, Settings, write_grid};
use sqlite::Row;
use sqlite_value::value::{Bytes, ValueRef};
use std::alloc::{AllocError, Global};

fn is_float(value: ValueRef<'_>) -> bool
    ensures { result ≡ forms.is_float (owned value.entry) }
{
    matches!(value, ValueRef::Real(_))
}

fn utf8_of(bytes: &[u8]) -> Option<&str>
    ensures some { IfSome result (λ text. (text.now ≡ bytes.now) × (is_utf8 bytes.now ≡ true)) }
    ensures none { IfNone result (is_utf8 bytes.now ≡ false) }
{
    let Ok(text) = str::from_utf8(bytes) else {
        return None;
    };
    Some(text)
}

fn cell_of(alloc: Global, value: ValueRef<'_>) -> Result<Cell, AllocError>
    ensures { IfOk result (λ cell. print.value_of_cell cell
        ≡ forms.printed_value (owned value.entry)) }
{
    match value {
        ValueRef::Null | ValueRef::Real(_) => Ok(Cell::Null),
        ValueRef::Int(number) => Ok(Cell::Int(number)),
        ValueRef::Text(bytes) => match utf8_of(bytes) {
            Some(text) => Ok(Cell::Text(String::from_str(alloc, text)?)),
            None => Ok(Cell::Bytes(Vec::from_slice(alloc, bytes)?)),
        },
        ValueRef::Blob(bytes) => Ok(Cell::Bytes(Vec::from_slice(alloc, bytes)?)),
    }
}

// The value in a column, and NULL past the end.
fn value_at<'r>(row: &'r Row, at: usize) -> ValueRef<'r>
    ensures { owned result ≡ column row.now at }
{
    row.get_ref(at).unwrap_or(ValueRef::Null)
}

fn has_float(row: &Row) -> bool
    ensures { result ≡ list_any forms.is_float row.now }
{
    for at in 0..row.column_count() {
        if is_float(value_at(row, at)) {
            return true;
        }
    }
    false
}

fn have_float(rows: &[Row]) -> bool
    ensures { result ≡ forms.has_float rows.now }
{
    rows.iter().any(|row| has_float(row))
}

fn row_cells(alloc: Global, row: &Row) -> Result<Vec<Cell>, AllocError>
    ensures { IfOk result (λ cells. map print.value_of_cell cells.items
        ≡ map forms.printed_value row.now) }
{
    let mut cells = Vec::new(alloc);
    for at in 0..row.column_count() {
        cells.push(cell_of(alloc, value_at(row, at))?)?;
    }
    Ok(cells)
}

fn all_cells(alloc: Global, rows: &[Row]) -> Result<Vec<Vec<Cell>>, AllocError>
    ensures { IfOk result (λ cells. map (λ row. map print.value_of_cell row.items) cells.items
        ≡ map (map forms.printed_value) rows.now) }
{
    let mut cells = Vec::new(alloc);
    for row in rows {
        cells.push(row_cells(alloc, row)?)?;
    }
    Ok(cells)
}

// The name of the column at this place, counted from 1.
fn column_name(alloc: Global, place: usize, name: &[u8]) -> Result<String, AllocError>
    ensures { IfOk result (λ text. string_bytes text ≡ forms.column_name place name.now) }
{
    match utf8_of(name) {
        Some(text) if !text.is_empty() => String::from_str(alloc, text),
        _ => format!(in alloc; "column{place}"),
    }
}

fn column_names(alloc: Global, names: &[Bytes]) -> Result<Vec<String>, AllocError>
    ensures { IfOk result (λ texts. map string_bytes texts.items ≡ forms.column_names 1 names.now) }
{
    let mut texts = Vec::new(alloc);
    for at in 0..names.len() {
        texts.push(column_name(alloc, at + 1, names[at].as_slice())?)?;
    }
    Ok(texts)
}

/// What is printed of an answer with these columns.
pub(crate) fn row_print(alloc: Global, settings: &Settings, names: &[Bytes], rows: &[Row]) -> Answer
    ensures { Tells (forms.row_print settings.now names.now rows.now) (answer_as result) }
{
    if have_float(rows) {
        return Err(Complaint::fixed("floating-point value in result"));
    }
    let grid = Grid {
        names: column_names(alloc, names)?,
        rows: all_cells(alloc, rows)?,
    };
    let mut bytes: Vec<u8> = Vec::new(alloc);
    write_grid(alloc, settings, &grid, &mut bytes)?;
    Ok(Output::Bytes(bytes))
}
