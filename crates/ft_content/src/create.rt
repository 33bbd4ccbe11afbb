//! What a Create makes, and the tests that refuse it.
ghost use Rattle.std.specs.Prelude.{◌≡◌, ◌-◌, ◌^◌, ◌<◌, ◌&&◌, not, map, length, string_bytes, IfOk};
ghost use Rattle.std.specs.List.{list_any};
ghost use Rattle.ft_content.specs.Calls.{IsFreeId};
ghost use Rattle.ft_content.specs.Content as content;
ghost use Rattle.ft_content.specs.Step as step;
ghost use Rattle.ft_content.specs.Step.{Contents};
ghost use Rattle.ft_content.specs.Views.{column_of, table_names, info_names, info_ids};
ghost use Rattle.ft_commands.specs.Views.{option_of};

use crate::names::{are_names, has_name, is_name, names_clash};
use ft_commands::Creation;
use ft_values::{Column, Fault, TableInfo, has_table, same_name};
use std::alloc::{AllocError, Global};

/// The names of the columns that a Create makes: those given, or `content` where there are none.
pub fn made_names(alloc: Global, columns: &[String]) -> Result<Vec<String>, AllocError>
    ensures { IfOk result (λ names. map string_bytes names.items
        ≡ step.made_columns (map string_bytes columns.now)) }
{
    let mut names = columns.to_vec(alloc)?;
    if names.is_empty() {
        names.push("content".to_string(alloc)?)?;
    }
    Ok(names)
}

/// The columns of these names that a Create with these options makes.
pub fn made_columns(
    alloc: Global,
    options: &[(String, String)],
    names: Vec<String>,
) -> Result<Vec<Column>, AllocError>
    ensures { IfOk result (λ columns. map column_of columns.items
        ≡ map (step.made_column (map option_of options.now)) (map string_bytes names.items)) }
{
    let mut columns = Vec::new(alloc);
    for name in names {
        let indexed = is_indexed(options, name.as_str());
        columns.push(Column { name, indexed })?;
    }
    Ok(columns)
}

fn is_tokenize(option: &(String, String)) -> bool
    ensures { result ≡ step.is_tokenize (option_of option.now) }
{
    same_name(option.0.as_str(), "tokenize")
}

fn is_notindexed(option: &(String, String)) -> bool
    ensures { result ≡ step.is_notindexed (option_of option.now) }
{
    same_name(option.0.as_str(), "notindexed")
}

// Whether no option says that the column of this name isn't indexed.
fn is_indexed(options: &[(String, String)], name: &str) -> bool
    ensures { result ≡ not (list_any (λ o. step.is_notindexed o && content.same_name o.1
        name.now) (map option_of options.now)) }
{
    !options.iter().any(|option| is_notindexed(option) && same_name(option.1.as_str(), name))
}

/// The fault of a Create of a table with columns of these names, if it deserves one. The tables are
/// those that are there.
pub fn create_fault(
    alloc: Global,
    tables: &[TableInfo],
    creation: &Creation,
    names: &[String],
) -> Option<Fault>
    ensures { (contents : Contents) → table_names contents ≡ info_names tables.now
        → result ≡ step.create_fault contents (string_bytes creation.now.table)
        (string_bytes creation.now.module) (map option_of creation.now.options.items)
        (map string_bytes names.now) creation.now.if_new }
{
    let table = creation.table.as_str();
    let options = creation.options.as_slice();
    let is_there = has_table(tables, table);
    if !same_name(creation.module.as_str(), "fts4") {
        Some(Fault::Module)
    } else if options.iter().any(|option| is_tokenize(option) && !same_name(&option.1, "simple")) {
        Some(Fault::Tokenizer)
    } else if !options.iter().all(|o| is_tokenize(o) || is_notindexed(o)) {
        Some(Fault::Parameter)
    } else if !(is_name(table) && are_names(names)) {
        Some(Fault::Name)
    } else if names_clash(alloc, table, names) {
        Some(Fault::DuplicateColumn)
    } else if names.len() > 100 {
        Some(Fault::TooManyColumns)
    } else if is_there {
        (!creation.if_new).then_some(Fault::TableExists)
    } else if tables.len() >= 1000 {
        Some(Fault::TooManyTables)
    } else if options.iter().any(|option| is_notindexed(option) && !has_name(names, &option.1)) {
        Some(Fault::NoSuchColumn)
    } else {
        None
    }
}

/// The least positive id that none of these tables has, which stand by rising id.
pub fn free_id(tables: &[TableInfo]) -> i64
    requires { length tables.now < 2 ^ 63 - 1 }
    ensures { IsFreeId (info_ids tables.now) result }
{
    let mut id = 1;
    for table in tables {
        if table.id == id {
            id += 1;
        }
    }
    id
}
