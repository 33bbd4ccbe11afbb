//! The rows of a store as a value, what row changes make of it, the packed list of a term's places
//! in a document, and postings by their terms.
#![tactic(auto)]

mod packed;
mod terms;

pub use packed::{can_pack, is_list_of, pack, packed_lists, unpack};
pub use terms::{Posting, TermLists, first_list, split_list};
