//! The language of the shell: its statements and its dot-commands, and how replies are printed.
#![tactic(auto)]

mod change;
mod create;
mod dots;
mod insert;
mod laws;
mod plain;
mod reading;
mod replies;
mod select;
mod setting;
mod statement;
mod tables;
mod values;
mod words;

pub use crate::dots::{DotCommand, dot_command};
pub use crate::laws::{
    dot_lines_by_grammar, literals_by_marks, one_class_each, plain_by_grammar,
    statements_by_grammar,
};
pub use crate::plain::{PlainStatement, read_plain};
pub use crate::replies::write_reply;
pub use crate::setting::{apply, print_text};
pub use crate::statement::{Class, read_statement};
pub use crate::tables::listed_tables;
pub use ft_commands::{Import, StatementFault};
