//! Records of CSV.

ghost use Rattle.std.specs.Prelude.{◌≡◌, ◌∷◌, ◌++◌, ℕ, List, [], true, false, IfOk};
ghost use Rattle.std.specs.Str.{is_utf8};
ghost use Rattle.std.specs.List.{list_all};
ghost use Rattle.shell_text.specs.Print.{bytes_of, is_csv_separator};
ghost use Rattle.shell_text.specs.Records.{AreTexts, ReadsAs, csv_reader, ReadsRecords};
ghost use Rattle.csv.specs.Records.{fields_of};
ghost use Rattle.shell_text.specs.declared.records.RecordFault.TheVariants.{Memory};
ghost use Rattle.shell_text.specs.Calls.{IsAnswered};

use csv::{ByteRecord, ReaderBuilder};
use std::alloc::{AllocError, AllocFailed, Global};
use thiserror::Error;

/// Why bytes have no records of texts, in the order of the tests.
#[derive(Debug, Drop, Error)]
pub enum RecordFault {
    #[error("not UTF-8")]
    NotUtf8,
    #[error("out of memory")]
    Memory,
}

impl From<AllocError> for RecordFault {
    ghost from_gives = { λ _ e. e ≡ Memory };

    fn from(_failed: AllocError) -> RecordFault {
        RecordFault::Memory
    }
}

impl<T: Drop> From<AllocFailed<T>> for RecordFault {
    ghost from_gives = { λ _ e. e ≡ Memory };

    fn from(_failed: AllocFailed<T>) -> RecordFault {
        RecordFault::Memory
    }
}

// The records of bytes, as the `csv` crate reads them with a delimiter and no header row, or none
// where a field is not UTF-8. Each becomes texts as it is read, so that none is held twice.
fn text_records(
    alloc: Global,
    bytes: &[u8],
    delimiter: u8,
) -> Result<Option<Vec<Vec<String>>>, AllocError>
    ensures { IfOk result (λ found. ReadsAs (csv_reader delimiter) bytes.now found) }
{
    let rdr = ReaderBuilder::new()
        .has_headers(false)
        .flexible(true)
        .delimiter(delimiter)
        .from_reader(alloc, bytes);
    let mut records = Some(Vec::new(alloc));
    for row in rdr.into_byte_records() {
        match row {
            Ok(row) => records = with_record(alloc, records, &row)?,
            Err(_) => return Err(AllocError),
        }
    }
    Ok(records)
}

// The records so far with one more, or none where a field is not UTF-8.
fn with_record(
    alloc: Global,
    so_far: Option<Vec<Vec<String>>>,
    row: &ByteRecord,
) -> Result<Option<Vec<Vec<String>>>, AllocError>
    ensures { (rows : List (List (List ℕ))) → AreTexts rows so_far
        → IfOk result (AreTexts (rows ++ fields_of row.now ∷ [])) }
{
    let Some(mut records) = so_far else {
        return Ok(None);
    };
    match field_texts(alloc, row) {
        Ok(texts) => records.push(texts)?,
        Err(RecordFault::NotUtf8) => return Ok(None),
        Err(RecordFault::Memory) => return Err(AllocError),
    }
    Ok(Some(records))
}

// The texts of a record's fields.
fn field_texts(alloc: Global, row: &ByteRecord) -> Result<Vec<String>, RecordFault>
    ensures { IsAnswered result (λ texts. bytes_of texts ≡ fields_of row.now)
        (λ e. e ≡ RecordFault.NotUtf8 → list_all is_utf8 (fields_of row.now) ≡ false) }
{
    let mut texts = Vec::with_capacity(alloc, row.len())?;
    for i in 0..row.len() {
        if let Some(field) = row.get(i) {
            let Ok(text) = str::from_utf8(field) else {
                return Err(RecordFault::NotUtf8);
            };
            texts.push(String::from_str(alloc, text)?)?;
        }
    }
    Ok(texts)
}

/// The records of a text of CSV, as the `csv` crate reads them: fields between quotation marks,
/// records of any length, the first of them a record as the others. The delimiter is a byte that a
/// csv separator may be. `NotUtf8` comes where the bytes, or a field that is read in them, are not
/// UTF-8.
pub fn read_records(
    alloc: Global,
    bytes: &[u8],
    delimiter: u8,
) -> Result<Vec<Vec<String>>, RecordFault>
    requires { is_csv_separator (delimiter ∷ []) ≡ true }
    ensures { ReadsRecords (csv_reader delimiter) bytes.now result }
{
    let Ok(_) = str::from_utf8(bytes) else {
        return Err(RecordFault::NotUtf8);
    };
    match text_records(alloc, bytes, delimiter)? {
        Some(records) => Ok(records),
        None => Err(RecordFault::NotUtf8),
    }
}
