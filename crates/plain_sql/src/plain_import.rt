//! An import into a plain table, in one transaction, and what is said of it.
ghost use Rattle.std.specs.Prelude.{ℕ, List, ◌≡◌, ◌+◌, ◌≤◌, [], ◌∷◌, map, if◌then◌else◌, option_map, string_bytes, IfOk, OnOk, OnErr, IsErrOf, MatchResult, ◌^◌, ◌<◌, length};
ghost use Rattle.sqlite_value.specs.Value.{owned};
ghost use Rattle.sqlite.specs.Values.{bound};
ghost use Rattle.sqlite.specs.Schema.{Schema};
ghost use Rattle.sqlite.specs.Held.{state};
ghost use Rattle.sqlite.specs.State.{HasCleanDisk};
ghost use Rattle.plain_sql.specs.declared.plain_import.ImportFault.TheVariants.{Refused, Memory};
ghost use Rattle.plain_sql.specs.Imports.{create_text, insert_text};
ghost use Rattle.plain_sql.specs.PlainImports.{HasColumns, IsOnlyBelow, CommitsNothing, Prepare, Run, runs_of, insertions, import_steps, CommitsAll, CountsColumns, Declines, IsInside, StaysInside, TriesCount, TriesStep, TriesSteps};
ghost use Rattle.plain_sql.specs.PlainStatements.{IfClean};
ghost use Rattle.ft_commands.specs.Views.{import_as, texts_of};
ghost use Rattle.std.specs.List.{enumerate_from};
ghost use Rattle.plain_sql.specs.IntoTables.{IntoTable, fault_words};
ghost use Rattle.shell_io.specs.Outcomes.{blames};
ghost use Rattle.shell_io.specs.OutputViews.{answer_as, complaint_as};
ghost use Rattle.plain_sql.specs.PlainStatements as turns;
ghost use Rattle.plain_sql.specs.PlainImports as forms;

use crate::imports::{creation_text, insertion_text};
use crate::queries::is_memory_error;
use ft_commands::Import;
use shell_io::{Answer, Complaint, Output, fitted, warnings};
use sqlite::types::ValueRef;
use sqlite::{Alter, Connection, Error, Statement, Transaction};
use std::alloc::{AllocError, AllocFailed, Global};

/// Why an import into a plain table did nothing.
#[derive(Clone, Copy, Debug, PartialEq, Eq)]
pub enum ImportFault {
    Refused,
    Memory,
}

impl From<AllocError> for ImportFault {
    ghost from_gives = { λ _ fault. fault ≡ Memory };

    fn from(_failed: AllocError) -> ImportFault {
        ImportFault::Memory
    }
}

impl<T: Drop> From<AllocFailed<T>> for ImportFault {
    ghost from_gives = { λ _ fault. fault ≡ Memory };

    fn from(_failed: AllocFailed<T>) -> ImportFault {
        ImportFault::Memory
    }
}

impl From<Error> for ImportFault {
    ghost from_gives = { λ error fault. fault ≡ (if turns.is_memory_error error then Memory else Refused) };

    fn from(error: Error) -> ImportFault {
        if is_memory_error(error) {
            ImportFault::Memory
        } else {
            ImportFault::Refused
        }
    }
}

impl From<ImportFault> for Complaint {
    ghost from_gives = { λ fault complaint. complaint_as complaint ≡ blames (fault_words fault) };

    fn from(fault: ImportFault) -> Complaint {
        Complaint::fixed(match fault {
            ImportFault::Refused => "import refused",
            ImportFault::Memory => "out of memory",
        })
    }
}

/// Puts records into a plain table with so many columns, all of them or none. Where names for its
/// columns are given the table is made too.
pub fn import_records<P: Alter>(
    alloc: Global,
    plain: &mut Connection<P>,
    table: &str,
    names: Option<&[String]>,
    columns: usize,
    records: &[Vec<String>],
) -> Result<(), ImportFault>
    ensures done { OnOk result (CommitsAll P.Store
        (import_steps (option_map (λ n. map string_bytes n.now) names.entry) table.now columns
        (map texts_of records.now)) plain.old plain.new) }
    ensures declined { IsErrOf result ImportFault.Refused
        → Declines P.Store (import_steps (option_map (λ n. map string_bytes n.now) names.entry)
        table.now columns (map texts_of records.now)) plain.old plain.new }
    ensures kept { OnErr result (IfClean P.Store plain.old plain.new
        (CommitsNothing (state P.Store plain.old) (state P.Store plain.new))) }
{
    if !plain.is_autocommit() {
        return Err(ImportFault::Refused);
    }
    let mut tx = plain.transaction();
    fill(alloc, &mut tx, table, names, columns, records)?;
    tx.commit()?;
    Ok(())
}

// Puts records into a table, which is made first where names for its columns are given.
fn fill<P: Alter>(
    alloc: Global,
    tx: &mut Transaction<'_, P>,
    table: &str,
    names: Option<&[String]>,
    columns: usize,
    records: &[Vec<String>],
) -> Result<(), ImportFault>
    requires inside { IsInside P.Store tx.old.conn.now }
    ensures steps { TriesSteps P.Store
        (import_steps (option_map (λ n. map string_bytes n.now) names.entry) table.now columns
        (map texts_of records.now)) tx.old.conn.now tx.new.conn.now result }
    ensures stays { StaysInside P.Store tx.old.conn tx.new.conn result }
{
    match names {
        Some(names) => {
            create_table(alloc, tx, table, names)?;
            insert_records(alloc, tx, table, columns, records)
        }
        None => insert_records(alloc, tx, table, columns, records),
    }
}

// Makes a table with columns of these names.
fn create_table<P: Alter>(
    alloc: Global,
    tx: &mut Transaction<'_, P>,
    table: &str,
    names: &[String],
) -> Result<(), ImportFault>
    requires inside { IsInside P.Store tx.old.conn.now }
    ensures step { TriesStep P.Store (Run (create_text table.now (map string_bytes names.now)) [])
        tx.old.conn.now tx.new.conn.now result }
    ensures stays { StaysInside P.Store tx.old.conn tx.new.conn result }
{
    let text = creation_text(alloc, table, names)?;
    let _count = tx.execute(text.as_str(), &[])?;
    Ok(())
}

// Puts in records, by a statement that is prepared once.
fn insert_records<P: Alter>(
    alloc: Global,
    tx: &mut Transaction<'_, P>,
    table: &str,
    columns: usize,
    records: &[Vec<String>],
) -> Result<(), ImportFault>
    requires inside { IsInside P.Store tx.old.conn.now }
    ensures steps { TriesSteps P.Store (insertions table.now columns (map texts_of records.now))
        tx.old.conn.now tx.new.conn.now result }
    ensures stays { StaysInside P.Store tx.old.conn tx.new.conn result }
{
    let statement = prepared_insertion(alloc, tx, table, columns)?;
    insert_all(alloc, tx, &statement, columns, records)
}

// The insertion of so many values into the table.
fn prepared_insertion<P: Alter>(
    alloc: Global,
    tx: &mut Transaction<'_, P>,
    table: &str,
    columns: usize,
) -> Result<Statement, ImportFault>
    requires inside { IsInside P.Store tx.old.conn.now }
    ensures step { TriesStep P.Store (Prepare (insert_text table.now columns)) tx.old.conn.now
        tx.new.conn.now result }
    ensures text { IfOk result (λ statement. HasCleanDisk (state P.Store tx.new.conn.now)
        → statement.text ≡ insert_text table.now columns) }
    ensures stays { StaysInside P.Store tx.old.conn tx.new.conn result }
{
    let text = insertion_text(alloc, table, columns)?;
    let statement = tx.prepare(text.as_str())?;
    Ok(statement)
}

// Puts in records, by a statement that was prepared for its text.
fn insert_all<P: Alter>(
    alloc: Global,
    tx: &mut Transaction<'_, P>,
    statement: &Statement,
    columns: usize,
    records: &[Vec<String>],
) -> Result<(), ImportFault>
    requires inside { IsInside P.Store tx.old.conn.now }
    ensures steps { (text : List ℕ)
        → (HasCleanDisk (state P.Store tx.old.conn.now) → statement.now.text ≡ text)
        → TriesSteps P.Store (runs_of text columns (map texts_of records.now)) tx.old.conn.now
        tx.new.conn.now result }
    ensures stays { StaysInside P.Store tx.old.conn tx.new.conn result }
{
    for fields in records {
        insert_record(alloc, tx, statement, fields.as_slice(), columns)?;
    }
    Ok(())
}

// Puts in one record, by a statement that was prepared for its text.
fn insert_record<P: Alter>(
    alloc: Global,
    tx: &mut Transaction<'_, P>,
    statement: &Statement,
    fields: &[String],
    columns: usize,
) -> Result<(), ImportFault>
    requires inside { IsInside P.Store tx.old.conn.now }
    ensures step { (text : List ℕ)
        → (HasCleanDisk (state P.Store tx.old.conn.now) → statement.now.text ≡ text)
        → TriesStep P.Store (Run text (forms.row_values columns (map string_bytes fields.now)))
        tx.old.conn.now tx.new.conn.now result }
    ensures stays { StaysInside P.Store tx.old.conn tx.new.conn result }
{
    let row = row_values(alloc, fields, columns)?;
    let _count = tx.execute_prepared(statement, row.as_slice())?;
    Ok(())
}

// A record as a row of so many values.
fn row_values(
    alloc: Global,
    fields: &[String],
    columns: usize,
) -> Result<Vec<ValueRef<'_>>, AllocError>
    ensures { IfOk result (λ row. bound row.items
        ≡ forms.row_values columns (map string_bytes fields.now)) }
{
    let mut row = Vec::with_capacity(alloc, columns)?;
    for field in fitted(alloc, fields, columns)? {
        row.push(field_value(field))?;
    }
    Ok(row)
}

// A field as a value: its text, or NULL.
fn field_value(field: Option<&str>) -> ValueRef<'_>
    ensures { owned result ≡ forms.field_value (option_map (λ text. text.now) field.entry) }
{
    match field {
        Some(text) => ValueRef::Text(text.as_bytes()),
        None => ValueRef::Null,
    }
}

// How many columns a plain table has: the one number from 1 to 100 of values that it takes.
fn column_count<P: Alter>(
    alloc: Global,
    plain: &mut Connection<P>,
    table: &str,
) -> Result<usize, ImportFault>
    ensures counts { CountsColumns P.Store table.now plain.old plain.new result }
    ensures kept { OnErr result (IfClean P.Store plain.old plain.new
        (CommitsNothing (state P.Store plain.old) (state P.Store plain.new))) }
{
    let mut found = None;
    for count in 1..101 {
        let takes = takes_values(alloc, plain, table, count)?;
        found = with_count(found, takes, count)?;
    }
    match found {
        Some(count) => Ok(count),
        None => Err(ImportFault::Refused),
    }
}

// Whether `sqlite` understands an insertion of so many values into the table.
fn takes_values<P: Alter>(
    alloc: Global,
    plain: &mut Connection<P>,
    table: &str,
    count: usize,
) -> Result<bool, ImportFault>
    ensures tries { TriesCount P.Store table.now count plain.old plain.new result }
    ensures kept { IfClean P.Store plain.old plain.new
        (CommitsNothing (state P.Store plain.old) (state P.Store plain.new)) }
{
    let text = insertion_text(alloc, table, count)?;
    match plain.prepare(text.as_str()) {
        Ok(_) => Ok(true),
        Err(error) => match error {
            Error::SqlInputError(_) => Ok(false),
            _ => Err(ImportFault::from(error)),
        },
    }
}

// The one number so far of values that a table takes, with a number more that was tried.
fn with_count(found: Option<usize>, takes: bool, count: usize) -> Result<Option<usize>, ImportFault>
    requires { 1 ≤ count }
    ensures { (schema : Schema) (name : List ℕ)
        → takes ≡ forms.takes_values schema name count → IsOnlyBelow schema name count found
        → MatchResult result (λ next. IsOnlyBelow schema name (count + 1) next)
        (λ _. count ≤ 100 → (n : ℕ) → HasColumns schema name n → ⊥) }
{
    if !takes {
        return Ok(found);
    }
    match found {
        Some(_) => Err(ImportFault::Refused),
        None => Ok(Some(count)),
    }
}

/// Records into a plain table that is there. The first of them has this number.
pub fn into_table<P: Alter>(
    alloc: Global,
    plain: &mut Connection<P>,
    what: &Import,
    first: usize,
    records: &[Vec<String>],
) -> Answer
    requires { first + length records.now < 2 ^ 64 }
    ensures { IntoTable P.Store (import_as what.now)
        (enumerate_from first (map texts_of records.now)) plain.old plain.new (answer_as result) }
{
    let table = what.table.as_str();
    let columns = column_count(alloc, plain, table)?;
    let lines = warnings(alloc, what.file.as_str(), columns, first, records)?;
    import_records(alloc, plain, table, None, columns, records)?;
    Ok(Output::Warnings(lines))
}
