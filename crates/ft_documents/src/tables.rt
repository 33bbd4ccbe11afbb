//! The tables of a store, as they are listed beside it.
ghost use Rattle.std.specs.Prelude.{◌≡◌, MatchResult, map, Some, None, ◌<◌, vec_len, IfOk, remove, OnErr};
ghost use Rattle.ft_content.specs.Views.{shown_info, column_of};
ghost use Rattle.ft_documents.specs.Found.{info_named, IsSoundNamed, IsUnfit, with_sound, with_info, without_info};
ghost use Rattle.ft_content.specs.Content.{skipped_from};
ghost use Rattle.ft_values.specs.declared.fault.Fault.TheVariants as faults;

use ft_content::{Column, Fault, TableInfo};
use ft_values::table_place;
use std::alloc::{AllocError, Global};

/// The table of this name.
pub fn named_table<'a>(tables: &'a [TableInfo], name: &str) -> Result<&'a TableInfo, Fault>
    ensures { MatchResult result (λ table. info_named (map shown_info tables.now) name.now
        ≡ Some (shown_info table.now)) (λ fault. (fault ≡ faults.NoSuchTable)
        × (info_named (map shown_info tables.now) name.now ≡ None)) }
{
    let place = table_place(tables, name).ok_or(Fault::NoSuchTable)?;
    Ok(&tables[place])
}

/// The table of this name, which has to be sound.
pub fn sound_table<'a>(tables: &'a [TableInfo], name: &str) -> Result<&'a TableInfo, Fault>
    ensures { MatchResult result (λ table. IsSoundNamed (map shown_info tables.now) name.now
        (shown_info table.now)) (λ fault. IsUnfit (map shown_info tables.now) name.now fault) }
{
    let table = named_table(tables, name)?;
    if table.sound {
        Ok(table)
    } else {
        Err(Fault::Unsound)
    }
}

/// Adds a table in its place by its id, which is answered.
pub fn insert_table(tables: &mut Vec<TableInfo>, table: TableInfo) -> Result<usize, AllocError>
    ensures added { IfOk result (λ _. map shown_info tables.new.items
        ≡ with_info (shown_info table) (map shown_info tables.old.items)) }
    ensures back { IfOk result (λ place. (place < vec_len tables.new)
        × (remove tables.new.items place ≡ tables.old.items)) }
    ensures err { OnErr result (tables.new.items ≡ tables.old.items) }
{
    let place = tables.iter().position(|other| table.id < other.id);
    let place = place.unwrap_or(tables.len());
    tables.insert(place, table)?;
    Ok(place)
}

/// Takes the table of an id out.
pub fn remove_table(tables: &mut Vec<TableInfo>, id: i64)
    ensures { map shown_info tables.new.items ≡ without_info id (map shown_info tables.old.items) }
{
    tables.retain(|table| table.id != id);
}

/// Marks the table of an id sound.
pub fn mark_sound(tables: &mut Vec<TableInfo>, id: i64)
    ensures { map shown_info tables.new.items ≡ with_sound id (map shown_info tables.old.items) }
{
    for table in tables.as_mut_slice() {
        if table.id == id {
            table.sound = true;
        }
    }
}

/// The numbers of the columns that aren't indexed.
pub fn skipped(alloc: Global, columns: &[Column]) -> Result<Vec<i64>, AllocError>
    ensures { IfOk result (λ numbers. numbers.items ≡ skipped_from 0 (map column_of columns.now)) }
{
    let mut numbers = Vec::new(alloc);
    for (number, column) in columns.iter().enumerate() {
        if !column.indexed {
            numbers.push(number as i64)?;
        }
    }
    Ok(numbers)
}
