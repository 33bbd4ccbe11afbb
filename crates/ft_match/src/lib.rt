//! Tokens, and the MATCH language: what a query says and what it means of documents.
#![tactic(auto)]

mod hit;
mod laws;
mod lexeme;
mod lexer;
mod limits;
mod machine;
mod parser;
mod query;
mod text;

pub use hit::{Hit, Offset};
pub use laws::{
    choices_of_chain, documents_of_texts, eligible_by_character, parts_by_forms, postings_of_texts,
    query_of_text, reads_once, tokens_once,
};
pub use parser::parse;
pub use query::{By, Chain, Link, Phrase, Query, QueryFault, QueryTerm};
pub use text::{Token, Tokenizer, is_eligible, tokens};
