//! Whether the rows of a table are a content.
ghost use Rattle.std.specs.Prelude.{◌≡◌, ◌<◌, ◌≤◌, ◌↔◌, [], map, string_bytes, IsTrue, IfOk};
ghost use Rattle.ft_content.specs.Content as content;
ghost use Rattle.ft_content.specs.Views.{column_of};
ghost use Rattle.ft_documents.specs.Standing as standing;

use crate::tables::skipped;
use ft_content::{Column, are_names, column_names, has_nul, is_too_long, names_clash};
use ft_values::{CellRow, TabRow};
use std::alloc::{AllocError, Global};

// Whether a cell of this docid may be the one at this place of a document, after a cell of the
// docid `last`.
fn stands_after(place: usize, last: Option<i64>, docid: i64) -> bool
    ensures { result ≡ standing.stands_after place last docid }
{
    match last {
        Some(last) if place == 0 => last < docid,
        Some(last) => last == docid,
        None => place == 0,
    }
}

fn follows(place: usize, last: Option<i64>, cell: &CellRow) -> bool
    requires { place < 100 }
    ensures { result ≡ standing.follows place last (standing.shown_row cell.now) }
{
    cell.column == place as i64
        && !is_too_long(&cell.value)
        && !has_nul(&cell.value)
        && stands_after(place, last, cell.docid)
}

// Whether cells are those of documents with so many columns, by rising docid.
fn are_documents(width: usize, cells: &[CellRow]) -> bool
    requires { (0 < width) × (width ≤ 100) }
    ensures { IsTrue result ↔ standing.AreDocumentCells width (map standing.shown_row cells.now) }
{
    let mut place = 0;
    let mut last = None;
    for cell in cells {
        if !follows(place, last, cell) {
            return false;
        }
        last = Some(cell.docid);
        place = if place + 1 == width { 0 } else { place + 1 };
    }
    place == 0
}

/// The columns of a table that is listed.
pub fn listed_columns(alloc: Global, table: &TabRow) -> Result<Vec<Column>, AllocError>
    ensures { IfOk result (λ columns. map column_of columns.items
        ≡ standing.columns_said (standing.listed_rows table.now [])) }
{
    let mut columns = Vec::new(alloc);
    for column in table.columns.as_slice() {
        let indexed = !table.skipped.contains(&column.0);
        let name = column.1.clone()?;
        columns.push(Column { name, indexed })?;
    }
    Ok(columns)
}

// Whether columns are numbered from 0 on.
fn are_numbered(columns: &[(i64, String)]) -> bool
    ensures { result ≡ standing.numbered_from 0 (map standing.numbered_column columns.now) }
{
    for (place, column) in columns.iter().enumerate() {
        if column.0 != place as i64 {
            return false;
        }
    }
    true
}

// Whether a Create could make these columns.
fn are_columns(alloc: Global, table: &str, columns: &[Column]) -> Result<bool, AllocError>
    ensures { IfOk result (λ b. b ≡ content.are_columns table.now (map column_of columns.now)) }
{
    if columns.is_empty() || columns.len() > 100 {
        return Ok(false);
    }
    let names = column_names(alloc, columns)?;
    Ok(are_names(names.as_slice()) && !names_clash(alloc, table, names.as_slice()))
}

/// Whether the rows of a table that is listed are a content, where these are its columns.
pub fn is_content(
    alloc: Global,
    table: &TabRow,
    columns: &[Column],
    cells: &[CellRow],
) -> Result<bool, AllocError>
    ensures { map column_of columns.now ≡ standing.columns_said (standing.listed_rows table.now [])
        → IfOk result (λ b. IsTrue b ↔ standing.AreContent (string_bytes table.now.name)
        (standing.listed_rows table.now cells.now)) }
{
    if !are_numbered(table.columns.as_slice()) {
        return Ok(false);
    }
    if !are_columns(alloc, table.name.as_str(), columns)? {
        return Ok(false);
    }
    let skipped = skipped(alloc, columns)?;
    Ok(table.skipped == skipped && are_documents(columns.len(), cells))
}
