//! What a Select answers, and the tests of its names.
ghost use Rattle.std.specs.Prelude.{◌≡◌, ◌∷◌, [], map, option_and_then, slice_get, unwrap_or, IfOk};
ghost use Rattle.std.specs.List.{list_any};
ghost use Rattle.ft_values.specs.Cells as stored;
ghost use Rattle.ft_values.specs.Cells.{shown_value};
ghost use Rattle.ft_content.specs.Answer as answer;
ghost use Rattle.ft_content.specs.Calls.{IsItemRow};
ghost use Rattle.ft_content.specs.Step as step;
ghost use Rattle.ft_content.specs.Views.{bare_content};
ghost use Rattle.ft_commands.specs.Views.{cells_of, texts_of, rows_of, item_of, items_of, filter_of};

use crate::columns::{column_names, column_place, has_column, names_unknown};
use crate::names::is_docid;
use ft_commands::{Filter, Item, Items};
use ft_values::{Column, Fault, Value, same_name};
use std::alloc::{AllocError, Global};

/// Whether offsets are among the items.
pub fn any_offsets(items: &[Item]) -> bool
    ensures { result ≡ list_any step.is_offsets (map item_of items.now) }
{
    items.iter().any(|item| matches!(item, Item::Offsets(_)))
}

/// The first test of a Select that refuses it, before its query.
pub fn select_tests(
    table: &str,
    columns: &[Column],
    items: &Items,
    filter: &Filter,
) -> Option<Fault>
    ensures { result ≡ step.select_tests table.now (bare_content columns.now)
        (items_of items.now) (filter_of filter.now) }
{
    let listed = match items {
        Items::Count => &[],
        Items::List(items) => items.as_slice(),
    };
    let is_unknown = listed.iter().any(|item| match item {
        Item::All => false,
        Item::Name(name) => !has_column(columns, name),
        Item::Offsets(name) => !same_name(table, name),
    });
    if is_unknown || names_unknown(table, columns, filter) {
        Some(Fault::NoSuchColumn)
    } else if any_offsets(listed) && !matches!(filter, Filter::Match { .. }) {
        Some(Fault::Context)
    } else {
        None
    }
}

/// The test of a Delete that refuses it, before its query.
pub fn delete_tests(table: &str, columns: &[Column], filter: &Filter) -> Option<Fault>
    ensures { result ≡ step.delete_tests table.now (bare_content columns.now)
        (filter_of filter.now) }
{
    names_unknown(table, columns, filter).then_some(Fault::NoSuchColumn)
}

// The name of a column as declared, or of the docid.
fn header<'a>(columns: &'a [Column], name: &str) -> &'a str
    ensures { result.now ≡ answer.header (bare_content columns.now) name.now }
{
    if same_name(name, "docid") {
        return "docid";
    }
    if same_name(name, "rowid") {
        return "rowid";
    }
    match column_place(columns, name) {
        Some(place) => columns[place].name.as_str(),
        None => "",
    }
}

/// The names of an answer of the table.
pub fn answer_names(
    alloc: Global,
    table: &str,
    columns: &[Column],
    items: &Items,
) -> Result<Vec<String>, AllocError>
    ensures { IfOk result (λ names. texts_of names
        ≡ answer.answer_names table.now (bare_content columns.now) (items_of items.now)) }
{
    let Items::List(items) = items else {
        return Ok(vec![in alloc; "count(*)".to_string(alloc)?]?);
    };
    let mut names = Vec::new(alloc);
    for item in items {
        match item {
            Item::All => names.append(&mut column_names(alloc, columns)?)?,
            Item::Name(name) => names.push(header(columns, name).to_string(alloc)?)?,
            Item::Offsets(_) => names.push(format!(in alloc; "offsets({table})")?)?,
        }
    }
    Ok(names)
}

// The cell of a document under a column's name.
fn cell_named(columns: &[Column], cells: &[Value], name: &str) -> Result<Value, AllocError>
    ensures { IfOk result (λ cell. shown_value cell
        ≡ unwrap_or (option_and_then (slice_get (map shown_value cells.now))
        (answer.column_place (bare_content columns.now) name.now)) stored.Null) }
{
    match column_place(columns, name).and_then(|place| cells.get(place)) {
        Some(cell) => cell.clone(),
        None => Ok(Value::Null),
    }
}

/// The row of a document, where the offsets of the query in it are this text. They need not be
/// where none are asked for.
pub fn item_row(
    alloc: Global,
    columns: &[Column],
    items: &[Item],
    docid: i64,
    cells: &[Value],
    offsets: &str,
) -> Result<Vec<Value>, AllocError>
    ensures { IfOk result (λ row. IsItemRow (bare_content columns.now) (map item_of items.now)
        (docid, map shown_value cells.now) offsets.now (cells_of row)) }
{
    let mut row = Vec::with_capacity(alloc, items.len())?;
    for item in items {
        match item {
            Item::All => row.extend_with_clones(cells)?,
            Item::Name(name) if is_docid(name) => row.push(Value::Int(docid))?,
            Item::Name(name) => row.push(cell_named(columns, cells, name)?)?,
            Item::Offsets(_) => row.push(Value::Text(offsets.to_string(alloc)?))?,
        }
    }
    Ok(row)
}

/// The rows of a count: one with the number, if it isn't cut off.
pub fn count_rows(
    alloc: Global,
    count: i64,
    limit: Option<u64>,
    offset: u64,
) -> Result<Vec<Vec<Value>>, AllocError>
    ensures { IfOk result (λ rows. rows_of rows
        ≡ answer.cut limit offset ((stored.Int count ∷ []) ∷ [])) }
{
    let mut rows = Vec::new(alloc);
    if offset == 0 && limit != Some(0) {
        rows.push(vec![in alloc; Value::Int(count)]?)?;
    }
    Ok(rows)
}
