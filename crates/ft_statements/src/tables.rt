//! The names that `.tables` lists.
ghost use Rattle.std.specs.Prelude.{◌≡◌, ◌++◌, map, not, filter, string_bytes, IfOk};
ghost use Rattle.ft_values.specs.Names.{info_names};
ghost use Rattle.ft_statements.specs.Replies as forms;
ghost use Rattle.ft_commands.specs.Views.{texts_of};

use ft_values::TableInfo;
use std::alloc::{AllocError, Global};

// Whether one of these tables has this name.
fn has_table(tables: &[TableInfo], name: &str) -> bool
    ensures { result ≡ forms.is_own (info_names tables.now) name.now }
{
    ft_values::has_table(tables, name)
}

// The names of full-text tables.
fn own_names(alloc: Global, tables: &[TableInfo]) -> Result<Vec<String>, AllocError>
    ensures { IfOk result (λ names. texts_of names ≡ info_names tables.now) }
{
    let mut names = Vec::new(alloc);
    for table in tables {
        names.push(String::from_str(alloc, table.name.as_str())?)?;
    }
    Ok(names)
}

// The names of full-text tables, and those of plain ones that none of these hides.
fn all_names(
    alloc: Global,
    tables: &[TableInfo],
    found: Vec<String>,
) -> Result<Vec<String>, AllocError>
    ensures { IfOk result (λ names. texts_of names
        ≡ forms.listed (info_names tables.now) (texts_of found)) }
{
    let mut names = own_names(alloc, tables)?;
    for name in found {
        if !has_table(tables, name.as_str()) {
            names.push(name)?;
        }
    }
    Ok(names)
}

/// The names that `.tables` lists, in the order of their bytes: those of the full-text tables, and
/// those of the plain tables that were found, but for names that a full-text table has too.
pub fn listed_tables(
    alloc: Global,
    tables: &[TableInfo],
    found: Vec<String>,
) -> Result<Vec<String>, AllocError>
    ensures { IfOk result (λ names. forms.AreSorted
        (forms.listed (info_names tables.now) (texts_of found)) (texts_of names)) }
{
    let mut names = all_names(alloc, tables, found)?;
    names.sort()?;
    Ok(names)
}
