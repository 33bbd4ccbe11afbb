//! The program over its words, the databases of a host, its input and its outputs.
#![tactic(auto)]

pub mod process;
pub mod start;
