//! Commands over a store: what each does, and the row changes that it asks for.
ghost use Rattle.std.specs.Prelude.{map};
ghost use Rattle.ft_content.specs.Views.{shown_info};
ghost use Rattle.ft_commands.specs.Views.{command_of, answer_of};
ghost use Rattle.ft_index.specs.Changed.{with_tables, Does};
ghost use Rattle.ft_calls.specs.RowsRead.{CountsRows};
ghost use Rattle.ft_index.specs.DocumentsRead.{Looks};
ghost use Rattle.ft_index.specs.Refused.{BlamesOver, BlamesDone};
ghost use Rattle.ft_index.specs.Written.{PlansIn};

use crate::select::{select_from, select_query};
use crate::special::{check_table, optimize, rebuild_changes, rebuild_table};
use crate::tables::{create_changes, create_table, drop_changes, drop_table};
use crate::written::{delete_from, delete_written, insert_written, update_written, write_found};
use ft_content::{Command, Fault, Reply, TableInfo};
use ft_documents::sound_table;
use ft_store::{RowChange, Store};
use sqlite::Alter;
use std::alloc::Global;

/// Executes a command over a store and the list of its tables.
pub(crate) fn execute_command<S: Alter>(
    alloc: Global,
    store: &mut Store<S>,
    tables: &mut Vec<TableInfo>,
    command: &Command,
) -> Result<Reply, Fault>
    ensures does { Does S.Store (with_tables store.old (map shown_info tables.old.items))
        (command_of command.now) result (with_tables store.new (map shown_info tables.new.items)) }
    ensures counts { CountsRows S.Store (with_tables store.old (map shown_info tables.old.items))
        (command_of command.now) (answer_of result)
        (with_tables store.new (map shown_info tables.new.items)) }
    ensures refused { BlamesDone S.Store (map shown_info tables.old.items) store.old
        (command_of command.now) store.new result }
{
    match command {
        Command::Create(creation) => create_table(alloc, store, tables, creation),
        Command::Drop { table, if_there } => {
            drop_table(alloc, store, tables, table.as_str(), *if_there)
        }
        Command::Insert(insertion) => {
            let written = insert_written(alloc, store, tables.as_slice(), insertion);
            write_found(alloc, store, written)
        }
        Command::Update(modification) => {
            let written = update_written(alloc, store, tables.as_slice(), modification);
            write_found(alloc, store, written)
        }
        Command::Delete(deletion) => delete_from(alloc, store, tables.as_slice(), deletion),
        Command::Select(select) => select_from(alloc, store, tables.as_slice(), select),
        Command::Rebuild { table } => rebuild_table(alloc, store, tables, table.as_str()),
        Command::Check { table } => check_table(alloc, store, tables.as_slice(), table.as_str()),
        Command::Optimize { table } => optimize(tables.as_slice(), table.as_str()),
    }
}

/// The row changes that a command asks for, or its fault. The store is only read, whatever is
/// answered.
pub(crate) fn planned_changes<S: Alter>(
    alloc: Global,
    store: &mut Store<S>,
    tables: &[TableInfo],
    command: &Command,
) -> Result<Vec<RowChange>, Fault>
    ensures plans { PlansIn S.Store (map shown_info tables.now) store.old store.new
        (command_of command.now) result }
    ensures looks { Looks S.Store store.old store.new }
    ensures refused { BlamesOver S.Store (map shown_info tables.now) store.old store.new result }
{
    store.is_in_order();
    let written = match command {
        Command::Insert(insertion) => insert_written(alloc, store, tables, insertion)?,
        Command::Update(modification) => update_written(alloc, store, tables, modification)?,
        Command::Delete(deletion) => delete_written(alloc, store, tables, deletion)?,
        Command::Create(creation) => return create_changes(alloc, tables, creation),
        Command::Drop { table, if_there } => {
            return drop_changes(alloc, tables, table.as_str(), *if_there);
        }
        Command::Select(select) => {
            let info = sound_table(tables, select.table.as_str())?;
            select_query(alloc, info, select)?;
            return Ok(Vec::new(alloc));
        }
        Command::Rebuild { table } => return rebuild_changes(alloc, store, tables, table.as_str()),
        Command::Check { table } => {
            check_table(alloc, store, tables, table.as_str())?;
            return Ok(Vec::new(alloc));
        }
        Command::Optimize { table } => {
            optimize(tables, table.as_str())?;
            return Ok(Vec::new(alloc));
        }
    };
    Ok(written.changes(alloc)?)
}
