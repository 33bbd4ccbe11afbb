//! The parts of an import.
ghost use Rattle.std.specs.Prelude.{◌≡◌, ◌++◌, map, codes, string_bytes, replicate, IfOk, OnOk};
ghost use Rattle.plain_sql.specs.Imports as forms;

use shell_text::{Settings, is_csv_separator};
use std::alloc::{AllocError, Global};

// Puts a name between quotation marks after a text. Each mark in it is doubled.
fn push_identifier(text: &mut String, name: &str) -> Result<(), AllocError>
    ensures { OnOk result (string_bytes text.new
        ≡ string_bytes text.old ++ forms.identifier name.now) }
{
    text.push('"')?;
    for c in name.chars() {
        push_doubled(text, c)?;
    }
    text.push('"')?;
    Ok(())
}

// Puts a character after a text, or two quotation marks for one.
fn push_doubled(text: &mut String, c: char) -> Result<(), AllocError>
    ensures { OnOk result (string_bytes text.new ≡ string_bytes text.old ++ forms.doubled c) }
{
    if c == '"' {
        text.push(c)?;
    }
    text.push(c)?;
    Ok(())
}

/// A statement that `sqlite` runs where a table of this name can be read.
pub(crate) fn reading_text(alloc: Global, name: &str) -> Result<String, AllocError>
    ensures { IfOk result (λ text. string_bytes text ≡ forms.reading_of name.now) }
{
    let mut text = "SELECT 1 FROM ".to_string(alloc)?;
    push_identifier(&mut text, name)?;
    text.push_str(" LIMIT 1")?;
    Ok(text)
}

// Puts so many marks after a text, with a comma between each two.
fn push_marks(text: &mut String, count: usize) -> Result<(), AllocError>
    ensures { OnOk result (string_bytes text.new
        ≡ string_bytes text.old ++ forms.with_commas (λ mark. mark) (replicate count (codes "?"))) }
{
    if count == 0 {
        return Ok(());
    }
    text.push_str("?")?;
    for place in 1..count {
        text.push_str(", ?")?;
    }
    Ok(())
}

/// A statement that puts a row of so many values into a table of this name.
pub(crate) fn insertion_text(alloc: Global, name: &str, count: usize) -> Result<String, AllocError>
    ensures { IfOk result (λ text. string_bytes text ≡ forms.insert_text name.now count) }
{
    let mut text = "INSERT INTO ".to_string(alloc)?;
    push_identifier(&mut text, name)?;
    text.push_str(" VALUES (")?;
    push_marks(&mut text, count)?;
    text.push_str(")")?;
    Ok(text)
}

fn push_column(text: &mut String, column: &str) -> Result<(), AllocError>
    ensures { OnOk result (string_bytes text.new
        ≡ string_bytes text.old ++ forms.text_column column.now) }
{
    push_identifier(text, column)?;
    text.push_str(" TEXT")?;
    Ok(())
}

// Puts columns after a text, with a comma between each two.
fn push_columns(text: &mut String, columns: &[String]) -> Result<(), AllocError>
    ensures { OnOk result (string_bytes text.new
        ≡ string_bytes text.old ++ forms.with_commas forms.text_column
        (map string_bytes columns.now)) }
{
    let [first, rest @ ..] = columns else {
        return Ok(());
    };
    push_column(text, first.as_str())?;
    for column in rest {
        text.push_str(", ")?;
        push_column(text, column.as_str())?;
    }
    Ok(())
}

/// A statement that makes a table of this name, with columns of texts.
pub(crate) fn creation_text(
    alloc: Global,
    name: &str,
    columns: &[String],
) -> Result<String, AllocError>
    ensures { IfOk result (λ text. string_bytes text
        ≡ forms.create_text name.now (map string_bytes columns.now)) }
{
    let mut text = "CREATE TABLE ".to_string(alloc)?;
    push_identifier(&mut text, name)?;
    text.push_str(" (")?;
    push_columns(&mut text, columns)?;
    text.push_str(")")?;
    Ok(text)
}

/// What parts the fields of a file: a comma where that is said, or else the separator, if it may
/// part fields.
pub fn delimiter_of(csv: bool, settings: &Settings) -> Option<u8>
    ensures { result ≡ forms.delimiter_of csv settings.now }
{
    let separator = settings.separator();
    if csv {
        Some(b',')
    } else if is_csv_separator(separator) {
        separator.as_bytes().first().copied()
    } else {
        None
    }
}
