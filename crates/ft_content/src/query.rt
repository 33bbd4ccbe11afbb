//! MATCH texts as queries over a table's columns.
ghost use Rattle.std.specs.Prelude.{◌≡◌, Err, Some};
ghost use Rattle.ft_content.specs.Step.{reading_fault};
ghost use Rattle.ft_content.specs.Calls.{ReadsQuery};
ghost use Rattle.ft_content.specs.Views.{bare_content};

use crate::columns::{column_names, column_place};
use ft_match::{Query, QueryFault, parse};
use ft_values::{Column, Fault};
use std::alloc::Global;

// The fault of a command whose text the parser refuses.
fn fault_of(fault: QueryFault) -> Fault
    ensures { reading_fault (Err fault) ≡ Some result }
{
    match fault {
        QueryFault::Malformed => Fault::Malformed,
        QueryFault::TooLarge => Fault::TooLarge,
        QueryFault::Memory => Fault::Memory,
    }
}

/// The query of a MATCH on this name, where the name is the table's or a column's. There is none in
/// a text without lexemes.
///
/// # Errors
///
/// `Malformed` and `TooLarge` as the text deserves them, or `Memory`.
pub fn read_query(
    alloc: Global,
    columns: &[Column],
    name: &str,
    text: &str,
) -> Result<Option<Query>, Fault>
    ensures { ReadsQuery (bare_content columns.now) name.now text.now result }
{
    let names = column_names(alloc, columns)?;
    let default = column_place(columns, name);
    parse(alloc, text, names.as_slice(), default).map_err(fault_of)
}
