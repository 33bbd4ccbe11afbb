//! The shell: what a session does with each line of its input.
#![tactic(auto)]

mod dot_turn;
mod import;
mod session;
mod turns;

pub use crate::session::Session;
pub use shell_io::{Outputs, RunFault, Source, SourceFault, Status};
