//! Commands on full-text tables and their replies, and imports, as data.
#![tactic(auto)]

mod command;
mod fault;

pub use command::{
    Command, Creation, Deletion, Filter, Grid, Import, Insertion, Item, Items, Modification, Reply,
    Selection,
};
pub use fault::StatementFault;
