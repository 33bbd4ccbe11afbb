//! Full-text tables over a store, with an index that is always the one made from scratch.
#![tactic(auto)]

mod calls;
mod chosen;
mod commands;
mod documents;
mod full_text;
mod matching;
mod row_state;
mod select;
mod special;
mod table_lists;
mod tables;
mod written;

pub use ft_calls::TextTables;
pub use ft_content::{
    Column, Command, Creation, Deletion, Fault, Filter, Grid, Insertion, Item, Items, Modification,
    Reply, Selection, TableInfo, Value,
};
pub use full_text::{FullText, NewFault};
