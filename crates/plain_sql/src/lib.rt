//! Plain SQL: queries and what is said of a refusal, listings of tables, imports into plain tables.
#![tactic(auto)]

mod answers;
mod imports;
mod plain_import;
mod queries;
mod readable;

pub use crate::imports::delimiter_of;
pub use crate::plain_import::{ImportFault, import_records, into_table};
pub use crate::queries::{query_turn, refusal};
pub use crate::readable::{found_tables, reads_table};
