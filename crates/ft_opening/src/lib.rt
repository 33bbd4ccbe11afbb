//! Which databases are taken as a store, and how stores are opened.
#![tactic(auto)]

mod adopt;
mod examine;
mod files;
mod make;
mod migrate;
mod opens;
mod same;
mod stores;

pub use files::{file_options, open_database, open_pair};
pub use opens::{Adopt, AdoptFault, OpenFile, OpenMemory};
pub use stores::{adopt_opened, open_from};
