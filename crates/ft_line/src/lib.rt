//! The command line of the program: what its words mean.
#![tactic(auto)]

mod line;

pub use crate::line::{Line, LineFault, read_line};
