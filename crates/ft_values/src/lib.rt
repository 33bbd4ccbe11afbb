//! What the crates of full-text tables say to each other: values, rows, tables by their names, and
//! faults.
#![tactic(auto)]

mod fault;
mod names;
mod rows;
mod table;

pub use fault::Fault;
pub use names::{has_table, same_name, table_place};
pub use rows::{CellRow, EntryRow, ListRow, RowChange, SizeRow, Spot, TabRow, Value};
pub use table::{Column, TableInfo};
