//! The walk: how the documents that a query accepts are found from the lists of its terms. It offers
//! the language of queries, too.
#![tactic(auto)]

mod lists;
mod standing;
mod walk;

pub use ft_match::{
    Chain, Hit, Link, Offset, Phrase, Query, QueryFault, QueryTerm, Token, Tokenizer,
    choices_of_chain, documents_of_texts, eligible_by_character, is_eligible, parse,
    parts_by_forms, postings_of_texts, query_of_text, reads_once, tokens, tokens_once,
};
pub use lists::{DocList, ListFault, Lists, Place};
pub use walk::{Matches, offsets_text};
