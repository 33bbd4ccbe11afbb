//! The program's files: its two databases, in files or in memory, and the files that are imported.
#![tactic(auto)]

mod access;
mod databases;
mod host;
mod hosted;
mod names;
mod paths;
mod source;
mod system;

pub use databases::{OpenFault, open_in_memory};
pub use host::{Databases, Opened};
pub use hosted::{Left, close_one, left_files, open_both_in};
pub use paths::{BothNames, names_of};
pub use source::SystemFiles;
pub use system::SystemDatabases;
