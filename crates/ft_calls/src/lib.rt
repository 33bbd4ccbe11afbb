//! What calls of full-text tables do one after another, whoever answers them.
#![tactic(auto)]

mod laws;
mod tables;

pub use laws::{kept_by_calls, kept_with_causes};
pub use tables::TextTables;
