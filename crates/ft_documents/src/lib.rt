//! Documents as rows, and what commands on full-text tables do with them in memory: what needs no
//! store.
#![tactic(auto)]

mod document_index;
mod documents;
mod hits;
mod lists;
mod new_documents;
mod rewrite;
mod standing_index;
mod standing_rows;
mod tables;
mod tokens;
mod writes;

pub use documents::{Document, gathered};
pub use hits::{bare_hit, filter_query, taken};
pub use lists::{doc_lists, row_lists};
pub use new_documents::made_documents;
pub use rewrite::{Rewrite, in_groups, row_changes};
pub use standing_index::index_lists;
pub use standing_rows::{is_content, listed_columns};
pub use tables::{insert_table, mark_sound, named_table, remove_table, skipped, sound_table};
pub use writes::{additions, removals, update_rewrites};
