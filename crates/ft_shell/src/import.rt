//! What `.import` does in a session.
ghost use Rattle.std.specs.Prelude.{◌≡◌, ◌+◌, ◌^◌, ◌<◌, length, map, None, option_map, string_bytes, IfOk};
ghost use Rattle.std.specs.List.{enumerate_from};
ghost use Rattle.ft_content.specs.Views.{shown_info};
ghost use Rattle.ft_shell.specs.ImportTurns.{width_in, TextImport, IntoNamed, IntoNew, PlainImport};
ghost use Rattle.ft_shell.specs.DotTurns.{DotTurn};
ghost use Rattle.ft_shell.specs.Shell.{shell_of};
ghost use Rattle.ft_statements.specs.Dots.{Importing};
ghost use Rattle.shell_io.specs.OutputViews.{answer_as};
ghost use Rattle.ft_commands.specs.Views.{import_as, texts_of};
ghost use Rattle.ft_values.specs.Cells.{shown_value};
ghost use Rattle.ft_commands.specs.Command.{Insert};
ghost use Rattle.ft_commands.specs.Views as views;
ghost use Rattle.plain_sql.specs.Imports as forms;

use crate::turns::note_turn;
use ft_calls::TextTables;
use ft_commands::Import;
use ft_content::{Command, Insertion, TableInfo, Value};
use ft_values::table_place;
use plain_sql::{ImportFault, delimiter_of, import_records, into_table, reads_table};
use shell_io::{Answer, Complaint, Output, Source, fitted, left_records, skipped, warnings};
use shell_text::{Settings, read_records};
use sqlite::{Alter, Connection};
use std::alloc::{AllocError, Global};

/// Puts the records of a file into a table, all of them or none.
pub(crate) fn import_turn<P: Alter, S: Alter, T: TextTables<Over = S>, F: Source>(
    alloc: Global,
    settings: &Settings,
    plain: &mut Connection<P>,
    full_text: &mut T,
    source: &mut F,
    what: &Import,
) -> Answer
    ensures { DotTurn P.Store S.Store
        (shell_of settings.now plain.old (T.known full_text.old) (F.holds source.old))
        (shell_of settings.now plain.new (T.known full_text.new) (F.holds source.new))
        (answer_as result) (Importing (import_as what.now)) }
{
    let Some(delimiter) = delimiter_of(what.csv, settings) else {
        return Err(Complaint::fixed("bad separator"));
    };
    let bytes = source.fetch(alloc, what.file.as_str())?;
    let records = read_records(alloc, bytes.as_slice(), delimiter)?;
    drop(bytes);
    let skip = skipped(what.skip, records.len());
    let left = left_records(alloc, records, skip)?;
    records_turn(alloc, plain, full_text, what, skip + 1, left)
}

// Records into the table of that name. The first of them has this number.
fn records_turn<P: Alter, S: Alter, T: TextTables<Over = S>>(
    alloc: Global,
    plain: &mut Connection<P>,
    full_text: &mut T,
    what: &Import,
    first: usize,
    records: Vec<Vec<String>>,
) -> Answer
    requires { first + length records.items < 2 ^ 64 }
    ensures { IntoNamed P.Store S.Store (import_as what.now) plain.old plain.new
        (T.known full_text.old) (T.known full_text.new) (answer_as result)
        (enumerate_from first (map texts_of records.items))
        (width_in (T.known full_text.old).tables (import_as what.now).table) }
{
    match columns_named(full_text.tables(), what.table.as_str()) {
        Some(columns) => full_text_import(alloc, full_text, what, columns, first, records),
        None => plain_import(alloc, plain, full_text, what, first, records.as_slice()),
    }
}

// How many columns the full-text table of this name has, if there is one.
fn columns_named(tables: &[TableInfo], name: &str) -> Option<usize>
    ensures { result ≡ width_in (map shown_info tables.now) name.now }
{
    match table_place(tables, name) {
        Some(place) => Some(tables[place].columns.len()),
        None => None,
    }
}

// Records into a full-text table with so many columns: one command.
fn full_text_import<S: Alter, T: TextTables<Over = S>>(
    alloc: Global,
    full_text: &mut T,
    what: &Import,
    columns: usize,
    first: usize,
    records: Vec<Vec<String>>,
) -> Answer
    requires { first + length records.items < 2 ^ 64 }
    ensures { TextImport S.Store (import_as what.now) columns
        (enumerate_from first (map texts_of records.items)) (T.known full_text.old)
        (T.known full_text.new) (answer_as result) }
{
    let lines = warnings(
        alloc,
        what.file.as_str(),
        columns,
        first,
        records.as_slice(),
    )?;
    let command = insert_of(alloc, what.table.as_str(), columns, records)?;
    full_text.execute(&command)?;
    Ok(Output::Warnings(lines))
}

// Records into a plain table.
fn plain_import<P: Alter, S: Alter, T: TextTables<Over = S>>(
    alloc: Global,
    plain: &mut Connection<P>,
    full_text: &mut T,
    what: &Import,
    first: usize,
    records: &[Vec<String>],
) -> Answer
    requires { first + length records.now < 2 ^ 64 }
    ensures { PlainImport P.Store (import_as what.now)
        (enumerate_from first (map texts_of records.now)) S.Store plain.old plain.new
        (T.known full_text.old) (T.known full_text.new) (answer_as result) }
{
    let can_read = reads_table(alloc, plain, what.table.as_str())?;
    if can_read {
        return into_table(alloc, plain, what, first, records);
    }
    into_new_table(alloc, plain, full_text, what, first, records)
}

// Records into a plain table that the first of them names the columns of.
fn into_new_table<P: Alter, S: Alter, T: TextTables<Over = S>>(
    alloc: Global,
    plain: &mut Connection<P>,
    full_text: &mut T,
    what: &Import,
    first: usize,
    records: &[Vec<String>],
) -> Answer
    requires { first + length records.now < 2 ^ 64 }
    ensures { IntoNew P.Store (import_as what.now)
        (enumerate_from first (map texts_of records.now)) S.Store plain.old plain.new
        (T.known full_text.old) (T.known full_text.new) (answer_as result) }
{
    let [names, rest @ ..] = records else {
        return Err(Complaint::fixed("no header record"));
    };
    let columns = names.len();
    if columns > 100 {
        return Err(Complaint::from(ImportFault::Refused));
    }
    let table = what.table.as_str();
    let lines = warnings(alloc, what.file.as_str(), columns, first + 1, rest)?;
    import_records(alloc, plain, table, Some(names.as_slice()), columns, rest)?;
    note_turn(full_text, table, lines)
}

// A field as a value: its text, or NULL.
fn field_cell(alloc: Global, field: Option<&str>) -> Result<Value, AllocError>
    ensures { IfOk result (λ value. shown_value value
        ≡ forms.field_cell (option_map (λ text. text.now) field.entry)) }
{
    match field {
        Some(text) => Ok(Value::Text(String::from_str(alloc, text)?)),
        None => Ok(Value::Null),
    }
}

// A record as a row of so many values of a full-text table.
fn row_cells(alloc: Global, fields: &[String], columns: usize) -> Result<Vec<Value>, AllocError>
    ensures { IfOk result (λ row. views.cells_of row
        ≡ forms.row_cells columns (map string_bytes fields.now)) }
{
    let mut row = Vec::with_capacity(alloc, columns)?;
    for field in fitted(alloc, fields, columns)? {
        row.push(field_cell(alloc, field)?)?;
    }
    Ok(row)
}

// The command that puts records into a full-text table with so many columns.
fn insert_of(
    alloc: Global,
    table: &str,
    columns: usize,
    records: Vec<Vec<String>>,
) -> Result<Command, AllocError>
    ensures { IfOk result (λ command. views.command_of command
        ≡ Insert table.now None (map (forms.row_cells columns) (map texts_of records.items))) }
{
    let mut rows: Vec<Vec<Value>> = Vec::with_capacity(alloc, records.len())?;
    for fields in records {
        rows.push(row_cells(alloc, fields.as_slice(), columns)?)?;
    }
    Ok(Command::Insert(Insertion {
        table: String::from_str(alloc, table)?,
        columns: None,
        rows,
    }))
}
