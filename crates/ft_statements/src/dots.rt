//! Which dot-command a line's words are.
ghost use Rattle.std.specs.Prelude.{◌≡◌, map, string_bytes, option_map, unwrap_or, IfOk, Some};
ghost use Rattle.std.specs.Char.{is_ascii_digit};
ghost use Rattle.std.specs.List.{list_all};
ghost use Rattle.ft_statements.specs.Forms.{means, one, ends, ◌·◌};
ghost use Rattle.ft_statements.specs.Reading.{found, read};
ghost use Rattle.ft_statements.specs.Dots as forms;
ghost use Rattle.ft_commands.specs.Views.{import_as};
ghost use Rattle.ft_statements.specs.Views.{command_as, with_left, IsSaid};

use crate::values::digits_value;
use ft_commands::Import;
use shell_text::Mode;
use std::alloc::{AllocError, Global};

/// What a dot line says.
#[derive(Drop)]
pub enum DotCommand {
    Nothing,
    Mode(Mode),
    Headers(bool),
    Separator(String),
    Null(String),
    Echo(bool),
    Bail(bool),
    Print(Vec<String>),
    Import(Import),
    Tables,
    Quit,
    /// The words are wrong: how the command is used.
    Usage(&'static str),
    Unknown,
}

/// The command that a dot line's words make, as their grammar says. A line without words is none; a
/// known name with a wrong number or form of words gives its usage; any other name is
/// unknown.
pub fn dot_command(alloc: Global, words: &[String]) -> Result<DotCommand, AllocError>
    ensures { IfOk result (IsSaid (map string_bytes words.now)) }
{
    line_command(alloc, words)
}

// The command that a dot line's words make, by its name.
#[tactic(auto, unfolding(crate::specs::Dots::dot_command_of))]
fn line_command(alloc: Global, words: &[String]) -> Result<DotCommand, AllocError>
    ensures { IfOk result (λ command. command_as command
        ≡ forms.dot_command_of (map string_bytes words.now)) }
{
    match words {
        [name, words @ ..] => named(alloc, name.as_str(), words),
        [] => Ok(DotCommand::Nothing),
    }
}

// The command of a name, or how it is used where the words after it don't fit.
#[tactic(auto, unfolding(crate::specs::Dots::rows), using(crate::proofs::DotLaw::mapped, crate::proofs::DotLaw::printed))]
fn named(alloc: Global, name: &str, words: &[String]) -> Result<DotCommand, AllocError>
    ensures { IfOk result (λ command. command_as command
        ≡ forms.said_in forms.rows name.now (map string_bytes words.now)) }
{
    match name {
        "mode" => Ok(said(
            ".mode list|csv|column|quote",
            mode_in(words).map(DotCommand::Mode),
        )),
        "headers" | "header" => Ok(said(
            ".headers BOOL",
            switch_in(words).map(DotCommand::Headers),
        )),
        "separator" => Ok(said(
            ".separator TEXT",
            text_in(alloc, words)?.map(DotCommand::Separator),
        )),
        "nullvalue" => Ok(said(
            ".nullvalue TEXT",
            text_in(alloc, words)?.map(DotCommand::Null),
        )),
        "print" => Ok(DotCommand::Print(copied(alloc, words)?)),
        "echo" => Ok(said(".echo BOOL", switch_in(words).map(DotCommand::Echo))),
        "bail" => Ok(said(".bail BOOL", switch_in(words).map(DotCommand::Bail))),
        "import" => Ok(said(
            ".import [--csv] [--skip N] FILE TABLE",
            import_of(alloc, words)?.map(DotCommand::Import),
        )),
        "tables" => Ok(said(".tables", alone(DotCommand::Tables, words))),
        "quit" => Ok(said(".quit", alone(DotCommand::Quit, words))),
        "exit" => Ok(said(".exit", alone(DotCommand::Quit, words))),
        _ => Ok(DotCommand::Unknown),
    }
}

// The command that words make, or how it is used where they make none.
fn said(usage: &'static str, command: Option<DotCommand>) -> DotCommand
    ensures { command_as result
        ≡ unwrap_or (option_map command_as command) (forms.Usage usage.now) }
{
    command.unwrap_or(DotCommand::Usage(usage))
}

// The mode that is the one word.
#[tactic(auto, using(crate::proofs::DotLaw::alone))]
fn mode_in(words: &[String]) -> Option<Mode>
    ensures { result ≡ found (read (one forms.mode_named · ends) (map string_bytes words.now)) }
{
    match lone(words)? {
        "list" => Some(Mode::List),
        "csv" => Some(Mode::Csv),
        "column" => Some(Mode::Column),
        "quote" => Some(Mode::Quote),
        _ => None,
    }
}

// The one word, if there is no other.
fn lone(words: &[String]) -> Option<&str>
    ensures { option_map (λ w. w.now) result
        ≡ found (read (forms.any_word · ends) (map string_bytes words.now)) }
{
    match words {
        [word] => Some(word.as_str()),
        _ => None,
    }
}

// The switch that is the one word, in any case of ASCII letters.
#[tactic(auto, using(crate::proofs::DotLaw::alone))]
fn switch_in(words: &[String]) -> Option<bool>
    ensures { result ≡ found (read (one forms.switch_named · ends) (map string_bytes words.now)) }
{
    let word = lone(words)?;
    if word.eq_ignore_ascii_case("on") || word.eq_ignore_ascii_case("yes") || word == "1" {
        Some(true)
    } else if word.eq_ignore_ascii_case("off") || word.eq_ignore_ascii_case("no") || word == "0" {
        Some(false)
    } else {
        None
    }
}

// The text that is the one word.
fn text_in(alloc: Global, words: &[String]) -> Result<Option<String>, AllocError>
    ensures { IfOk result (λ text. option_map string_bytes text
        ≡ found (read (forms.any_word · ends) (map string_bytes words.now))) }
{
    lone(words)
        .map(|text| String::from_str(alloc, text))
        .transpose()
}

// Copies of words.
fn copied(alloc: Global, words: &[String]) -> Result<Vec<String>, AllocError>
    ensures { IfOk result (λ copies. map string_bytes copies.items ≡ map string_bytes words.now) }
{
    let mut copies = Vec::new(alloc);
    for word in words {
        copies.push(String::from_str(alloc, word.as_str())?)?;
    }
    Ok(copies)
}

// A command that has no words after it.
fn alone(command: DotCommand, words: &[String]) -> Option<DotCommand>
    ensures { option_map command_as result
        ≡ found (read (means (command_as command) · ends) (map string_bytes words.now)) }
{
    words.is_empty().then_some(command)
}

// The two options in any order, and then FILE and TABLE.
#[tactic(auto, unfolding(crate::specs::Dots::import), using(crate::proofs::DotLaw::import_read))]
fn import_of(alloc: Global, words: &[String]) -> Result<Option<Import>, AllocError>
    ensures { IfOk result (λ what. option_map import_as what
        ≡ found (read (forms.import · ends) (map string_bytes words.now))) }
{
    let Some(((csv, skip), rest)) = options(words) else {
        return Ok(None);
    };
    let Some((file, table)) = files_in(rest) else {
        return Ok(None);
    };
    Ok(Some(Import {
        csv,
        skip,
        file: String::from_str(alloc, file.as_str())?,
        table: String::from_str(alloc, table.as_str())?,
    }))
}

// FILE and TABLE, and nothing else; an option is no file.
#[tactic(auto, unfolding(crate::specs::Dots::files), using(crate::proofs::DotLaw::files_are))]
fn files_in(words: &[String]) -> Option<(&String, &String)>
    ensures { option_map (λ f. (string_bytes f.0.now, string_bytes f.1.now)) result
        ≡ found (read (forms.files · ends) (map string_bytes words.now)) }
{
    match words {
        [file, table] if file.as_str() != "--csv" && file.as_str() != "--skip" => {
            Some((file, table))
        }
        _ => None,
    }
}

// The options, and the words after them.
#[tactic(auto, unfolding(crate::specs::Dots::options))]
fn options(words: &[String]) -> Option<((bool, Option<u64>), &[String])>
    ensures { option_map with_left result ≡ read forms.options (map string_bytes words.now) }
{
    match words {
        [first, ..] if first.as_str() == "--csv" => {
            let (csv, rest) = csv_at(words);
            let (skip, rest) = skip_at(rest)?;
            Some(((csv, skip), rest))
        }
        _ => {
            let (skip, rest) = skip_at(words)?;
            let (csv, rest) = csv_at(rest);
            Some(((csv, skip), rest))
        }
    }
}

// Whether `--csv` stands there, and the words after it.
#[tactic(auto, unfolding(crate::specs::Dots::may_csv))]
fn csv_at(words: &[String]) -> (bool, &[String])
    ensures { Some (with_left result) ≡ read forms.may_csv (map string_bytes words.now) }
{
    match words {
        [first, rest @ ..] if first.as_str() == "--csv" => (true, rest),
        _ => (false, words),
    }
}

// The number after `--skip`, if that stands there, and the words after it.
#[tactic(auto, unfolding(crate::specs::Dots::may_skip))]
fn skip_at(words: &[String]) -> Option<(Option<u64>, &[String])>
    ensures { option_map with_left result ≡ read forms.may_skip (map string_bytes words.now) }
{
    match words {
        [first, rest @ ..] if first.as_str() == "--skip" => {
            let [number, rest @ ..] = rest else {
                return None;
            };
            Some((Some(skip_named(number.as_str())?), rest))
        }
        _ => Some((None, words)),
    }
}

// A number of records.
fn skip_named(word: &str) -> Option<u64>
    ensures { result ≡ forms.skip_named word.now }
{
    let digits = word.as_bytes();
    if digits.is_empty() || digits.len() > 7 || !are_digits(digits) {
        return None;
    }
    let number = digits_value(digits);
    (number <= 1_000_000).then_some(number)
}

fn are_digits(bytes: &[u8]) -> bool
    ensures { result ≡ list_all is_ascii_digit bytes.now }
{
    bytes.iter().all(|b| b.is_ascii_digit())
}
