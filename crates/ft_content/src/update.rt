//! What an Update makes of a document, and the tests that refuse it.
ghost use Rattle.std.specs.Prelude.{◌≡◌, map, slice_get, string_bytes, IfOk};
ghost use Rattle.ft_values.specs.Cells.{shown_value};
ghost use Rattle.ft_content.specs.Content as content;
ghost use Rattle.ft_content.specs.Step as step;
ghost use Rattle.ft_content.specs.Views.{bare_content, column_of};
ghost use Rattle.ft_commands.specs.Views.{cells_of, set_of, filter_of};

use crate::columns::{has_column, names_unknown};
use crate::names::{Named, is_docid, repeats};
use crate::value::{docid_under, has_nul, is_too_long};
use ft_commands::Filter;
use ft_values::{Column, Fault, Value, same_name};
use std::alloc::{AllocError, Global};

impl Named for (String, Value) {
    ghost name_of = { λ s. string_bytes s.0 };

    fn name(&self) -> &str {
        self.0.as_str()
    }
}

/// Whether two of these values stand under one name.
#[tactic(auto, using(crate::proofs::Lists::map_of_map))]
pub fn repeats_set(alloc: Global, sets: &[(String, Value)]) -> bool
    ensures { result ≡ content.repeats_name (map (λ s. s.0) (map set_of sets.now)) }
{
    repeats(alloc, sets)
}

/// The first test of an Update that refuses it, before its query.
pub fn update_tests(
    table: &str,
    columns: &[Column],
    sets: &[(String, Value)],
    filter: &Filter,
) -> Option<Fault>
    ensures { result ≡ step.update_tests table.now (bare_content columns.now)
        (map set_of sets.now) (filter_of filter.now) }
{
    let docids = sets
        .iter()
        .filter_map(|(name, value)| docid_under(name, value))
        .count();
    if !sets.iter().all(|(name, _)| has_column(columns, name))
        || names_unknown(table, columns, filter)
    {
        Some(Fault::NoSuchColumn)
    } else if sets.iter().any(|(name, value)| is_docid(name) && !matches!(value, Value::Int(_))) {
        Some(Fault::DocidKind)
    } else if docids > 1 {
        Some(Fault::DocidTwice)
    } else if sets.iter().any(|(_, value)| is_too_long(value)) {
        Some(Fault::TooLong)
    } else if sets.iter().any(|(_, value)| has_nul(value)) {
        Some(Fault::HasNul)
    } else {
        None
    }
}

/// The first docid that is set.
pub fn set_docid(sets: &[(String, Value)]) -> Option<i64>
    ensures { result ≡ slice_get (step.docids_named (map set_of sets.now)) 0 }
{
    sets.iter()
        .filter_map(|(name, value)| docid_under(name, value))
        .next()
}

// A cell after these values are set.
fn cell_after(sets: &[(String, Value)], column: &Column, cell: &Value) -> Result<Value, AllocError>
    ensures { IfOk result (λ after. shown_value after
        ≡ step.value_under (map set_of sets.now) (column_of column.now)
        (shown_value cell.now)) }
{
    match sets.iter().find(|set| same_name(&set.0, &column.name)) {
        Some(set) => set.1.clone(),
        None => cell.clone(),
    }
}

/// The cells of a document after these values are set.
pub fn with_values(
    alloc: Global,
    columns: &[Column],
    sets: &[(String, Value)],
    cells: &[Value],
) -> Result<Vec<Value>, AllocError>
    ensures { IfOk result (λ after. cells_of after
        ≡ step.with_values (map set_of sets.now) (map column_of columns.now)
        (map shown_value cells.now)) }
{
    let mut after = Vec::new(alloc);
    for (column, cell) in columns.iter().zip(cells.iter()) {
        after.push(cell_after(sets, column, cell)?)?;
    }
    Ok(after)
}
