//! Names, and tables by their names. Names are compared without ASCII case.
ghost use Rattle.std.specs.Prelude.{◌≡◌, position, string_bytes};
ghost use Rattle.std.specs.List.{list_any};
ghost use Rattle.ft_values.specs.Names as forms;

use crate::table::TableInfo;

/// Whether two names are the same.
pub fn same_name(name: &str, other: &str) -> bool
    ensures { result ≡ forms.same_name name.now other.now }
{
    name.eq_ignore_ascii_case(other)
}

/// The place of the first table of this name, from 0, if there is one.
pub fn table_place(tables: &[TableInfo], name: &str) -> Option<usize>
    ensures { result ≡ position (λ t. forms.same_name (string_bytes t.name) name.now) tables.now }
{
    tables
        .iter()
        .position(|table| same_name(table.name.as_str(), name))
}

/// Whether a table of this name is there.
pub fn has_table(tables: &[TableInfo], name: &str) -> bool
    ensures { result ≡ list_any (λ n. forms.same_name n name.now) (forms.info_names tables.now) }
{
    tables
        .iter()
        .any(|table| same_name(table.name.as_str(), name))
}
