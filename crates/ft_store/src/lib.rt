//! Rows of full-text tables in an SQL database of their own.
#![tactic(auto)]

mod clear;
mod expected;
mod fault;
mod lists;
mod make;
mod parts;
mod read;
mod sql;
mod statements;
mod store;
mod stream;
mod tables;
mod write;

pub use fault::StoreFault;
pub use ft_rows::{Posting, TermLists, packed_lists};
pub use ft_values::{CellRow, EntryRow, ListRow, RowChange, SizeRow, Spot, TabRow, Value};
pub use parts::Parts;
pub use store::Store;

// For `ft_opening`, which looks at databases and makes stores of them: what statements and reads are
// made of, and the texts of tables.
pub use make::create;
pub use sql::MAKE_SKIP;
pub use statements::run;
pub use stream::{Gathered, InRow, gather, select};
