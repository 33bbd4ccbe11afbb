//! The records of an import: those that are not skipped, brought to the columns of its table.
ghost use Rattle.std.specs.Prelude.{◌≡◌, ◌+◌, ◌^◌, ◌<◌, ◌++◌, drop, length, map, min, option_map, slice_get, string_bytes, unwrap_or, IfOk, OnOk};
ghost use Rattle.std.specs.List.{enumerate_from};
ghost use Rattle.shell_io.specs.Records as forms;
ghost use Rattle.ft_commands.specs.Views.{texts_of};

use std::alloc::{AllocError, Global};
use std::fmt::Write;

// The field at a place, if there is one.
fn field_at(fields: &[String], at: usize) -> Option<&str>
    ensures { option_map (λ text. text.now) result ≡ slice_get (map string_bytes fields.now) at }
{
    fields.get(at).map(|field| field.as_str())
}

/// A record's fields in so many columns: cut, or filled with none, which is NULL.
pub fn fitted(
    alloc: Global,
    fields: &[String],
    columns: usize,
) -> Result<Vec<Option<&str>>, AllocError>
    ensures { IfOk result (λ row. map (option_map (λ text. text.now)) row.items
        ≡ forms.fitted columns (map string_bytes fields.now)) }
{
    let mut row = Vec::with_capacity(alloc, columns)?;
    for at in 0..columns {
        row.push(field_at(fields, at))?;
    }
    Ok(row)
}

// The line for a record of this number that doesn't fit.
fn push_warning(
    text: &mut String,
    file: &str,
    columns: usize,
    number: usize,
    fields: &[String],
) -> Result<(), AllocError>
    ensures { OnOk result (string_bytes text.new
        ≡ string_bytes text.old ++ forms.warning file.now columns
        (number, map string_bytes fields.now)) }
{
    let count = fields.len();
    if count != columns {
        writeln!(
            text,
            "Warning: {file}:{number}: fields {count}, columns {columns}"
        )?;
    }
    Ok(())
}

/// The lines for those of the records that don't fit so many columns. The first of the records has
/// this number.
pub fn warnings(
    alloc: Global,
    file: &str,
    columns: usize,
    first: usize,
    records: &[Vec<String>],
) -> Result<String, AllocError>
    requires { first + length records.now < 2 ^ 64 }
    ensures { IfOk result (λ text. string_bytes text
        ≡ forms.warnings file.now columns (enumerate_from first (map texts_of records.now))) }
{
    let mut text = String::new(alloc);
    for (i, record) in records.iter().enumerate() {
        push_warning(&mut text, file, columns, first + i, record.as_slice())?;
    }
    Ok(text)
}

/// How many of so many records are skipped.
pub fn skipped(skip: Option<u64>, count: usize) -> usize
    ensures { result ≡ min (unwrap_or skip 0) count }
{
    (skip.unwrap_or(0) as usize).min(count)
}

/// The records that are not skipped.
pub fn left_records(
    alloc: Global,
    records: Vec<Vec<String>>,
    skip: usize,
) -> Result<Vec<Vec<String>>, AllocError>
    ensures { IfOk result (λ left. left.items ≡ drop skip records.items) }
{
    records.into_iter().skip(skip).collect(alloc)
}
