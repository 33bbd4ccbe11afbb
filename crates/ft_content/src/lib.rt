//! What commands on full-text tables mean: contents, the rows that hold them, faults and answers.
#![tactic(auto)]

mod columns;
mod create;
mod docid;
mod insert;
mod laws;
mod limit;
mod names;
mod query;
mod select;
mod update;
mod value;

pub use columns::{column_names, has_column};
pub use create::{create_fault, free_id, made_columns, made_names};
pub use docid::{docid_for_row, last_docid_after, moves_fault};
pub use ft_commands::{
    Command, Creation, Deletion, Filter, Grid, Insertion, Item, Items, Modification, Reply,
    Selection,
};
pub use ft_values::{Column, Fault, TableInfo, Value};
pub use insert::{insert_tests, listed_names, new_cells, row_docid};
pub use laws::{
    commands_in_pieces, commands_keep_contents, lists_mean_documents, rows_hold_one_content,
};
pub use limit::cut;
pub use names::{are_names, is_docid, names_clash, repeats_name};
pub use query::read_query;
pub use select::{answer_names, any_offsets, count_rows, delete_tests, item_row, select_tests};
pub use update::{repeats_set, set_docid, update_tests, with_values};
pub use value::{has_nul, is_too_long};
