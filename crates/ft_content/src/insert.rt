//! What an Insert makes of its rows, and the tests that refuse them.
ghost use Rattle.std.specs.Prelude.{◌≡◌, ◌&&◌, map, length, zip, slice_get, option_map, string_bytes, IfOk};
ghost use Rattle.std.specs.List.{list_any};
ghost use Rattle.ft_values.specs.Cells.{shown_value};
ghost use Rattle.ft_values.specs.Cells as stored;
ghost use Rattle.ft_content.specs.Content as content;
ghost use Rattle.ft_content.specs.Step as step;
ghost use Rattle.ft_content.specs.Views.{bare_content, column_of};
ghost use Rattle.ft_commands.specs.Views.{cells_of};

use crate::columns::has_column;
use crate::names::is_docid;
use crate::value::{docid_under, has_nul, is_too_long};
use ft_values::{Column, Fault, Value, same_name};
use std::alloc::{AllocError, Global};

/// The names that the values of an Insert stand under: those given, or the columns'.
pub fn listed_names<'a>(
    alloc: Global,
    columns: &'a [Column],
    names: Option<&'a [String]>,
) -> Result<Vec<&'a str>, AllocError>
    ensures { IfOk result (λ listed. map (λ n. n.now) listed.items
        ≡ step.listed_columns (bare_content columns.now)
        (option_map (λ n. map string_bytes n.now) names.entry)) }
{
    match names {
        Some(names) => names.iter().map(|name| name.as_str()).collect(alloc),
        None => columns.iter().map(|c| c.name.as_str()).collect(alloc),
    }
}

// Whether a text is given as the docid.
fn gives_text(names: &[&str], row: &[Value]) -> bool
    ensures { result ≡ list_any (λ v. content.is_docid v.0 && step.is_text v.1)
        (zip (map (λ n. n.now) names.now) (map shown_value row.now)) }
{
    let mut values = names.iter().zip(row.iter());
    values.any(|(name, value)| is_docid(name) && matches!(value, Value::Text(_)))
}

// How many docids a row gives.
fn docid_count(names: &[&str], row: &[Value]) -> usize
    ensures { result ≡ length (step.docids_named
        (zip (map (λ n. n.now) names.now) (map shown_value row.now))) }
{
    names
        .iter()
        .zip(row.iter())
        .filter_map(|(name, value)| docid_under(name, value))
        .count()
}

/// The first test of an Insert that refuses it, before those of the docids that its rows give.
pub fn insert_tests(columns: &[Column], names: &[&str], rows: &[Vec<Value>]) -> Option<Fault>
    ensures { result ≡ step.insert_tests (bare_content columns.now) (map (λ n. n.now) names.now)
        (map cells_of rows.now) }
{
    if !names.iter().all(|name| has_column(columns, name)) {
        Some(Fault::NoSuchColumn)
    } else if rows.iter().any(|row| row.len() != names.len()) {
        Some(Fault::Count)
    } else if rows.iter().any(|row| gives_text(names, row)) {
        Some(Fault::DocidKind)
    } else if rows.iter().any(|row| docid_count(names, row) > 1) {
        Some(Fault::DocidTwice)
    } else if rows.iter().flatten().any(is_too_long) {
        Some(Fault::TooLong)
    } else if rows.iter().flatten().any(has_nul) {
        Some(Fault::HasNul)
    } else {
        None
    }
}

/// The first docid that a row gives.
pub fn row_docid(names: &[&str], row: &[Value]) -> Option<i64>
    ensures { result ≡ slice_get (step.docids_named
        (zip (map (λ n. n.now) names.now) (map shown_value row.now))) 0 }
{
    names
        .iter()
        .zip(row.iter())
        .filter_map(|(name, value)| docid_under(name, value))
        .next()
}

// What a row has for a column.
fn cell_under(names: &[&str], row: &[Value], column: &Column) -> Result<Value, AllocError>
    ensures { IfOk result (λ cell. shown_value cell
        ≡ step.value_under (zip (map (λ n. n.now) names.now) (map shown_value row.now))
        (column_of column.now) stored.Null) }
{
    let mut values = names.iter().zip(row.iter());
    match values.find(|(name, _)| same_name(name, &column.name)) {
        Some((_, value)) => value.clone(),
        None => Ok(Value::Null),
    }
}

/// The cells of the document that a row makes.
pub fn new_cells(
    alloc: Global,
    columns: &[Column],
    names: &[&str],
    row: &[Value],
) -> Result<Vec<Value>, AllocError>
    ensures { IfOk result (λ cells. cells_of cells
        ≡ step.new_cells (zip (map (λ n. n.now) names.now) (map shown_value row.now))
        (map column_of columns.now)) }
{
    let mut cells = Vec::new(alloc);
    for column in columns {
        cells.push(cell_under(names, row, column)?)?;
    }
    Ok(cells)
}
