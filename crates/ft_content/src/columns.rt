//! The columns of a table by their names.
ghost use Rattle.std.specs.Prelude.{◌≡◌, map, string_bytes, IfOk};
ghost use Rattle.std.specs.List.{list_any};
ghost use Rattle.ft_content.specs.Content as content;
ghost use Rattle.ft_content.specs.Answer as answer;
ghost use Rattle.ft_content.specs.Step as step;
ghost use Rattle.ft_content.specs.Views.{bare_content, column_of};
ghost use Rattle.ft_commands.specs.Views.{filter_of};

use crate::names::is_docid;
use ft_commands::Filter;
use ft_values::{Column, same_name};
use std::alloc::{AllocError, Global};

/// The place of the column of this name, if there is one.
pub(crate) fn column_place(columns: &[Column], name: &str) -> Option<usize>
    ensures { result ≡ answer.column_place (bare_content columns.now) name.now }
{
    columns.iter().position(|c| same_name(name, &c.name))
}

/// Whether one of the columns has this name.
pub(crate) fn is_column(columns: &[Column], name: &str) -> bool
    ensures { result ≡ list_any (content.same_name name.now)
        (content.names_of (bare_content columns.now).columns) }
{
    columns.iter().any(|c| same_name(name, &c.name))
}

/// Whether a value may stand under this name: that of a column, or of the docid.
pub fn has_column(columns: &[Column], name: &str) -> bool
    ensures { result ≡ step.has_column (bare_content columns.now) name.now }
{
    is_docid(name) || is_column(columns, name)
}

/// Whether a MATCH of the filter has a name that is neither the table's nor a column's.
pub(crate) fn names_unknown(table: &str, columns: &[Column], filter: &Filter) -> bool
    ensures { result ≡ step.names_unknown table.now (bare_content columns.now)
        (filter_of filter.now) }
{
    match filter {
        Filter::All | Filter::Docid(_) => false,
        Filter::Match { name, .. } => !(same_name(table, name) || is_column(columns, name)),
    }
}

/// The names of columns.
pub fn column_names(alloc: Global, columns: &[Column]) -> Result<Vec<String>, AllocError>
    ensures { IfOk result (λ names. map string_bytes names.items
        ≡ content.names_of (map column_of columns.now)) }
{
    let mut names = Vec::new(alloc);
    for column in columns {
        names.push(column.name.clone()?)?;
    }
    Ok(names)
}
