//! What the words of the command line mean.

ghost use Rattle.std.specs.Prelude.{◌≡◌, ◌∷◌, [], ◌&&◌, not, map, codes, string_bytes, option_map, if◌then◌else◌, IfOk, IfErr};
ghost use Rattle.std.specs.Char.{is_ascii_alphabetic};
ghost use Rattle.std.specs.List.{list_all};
ghost use Rattle.std.specs.Str.{bytes_eq};
ghost use Rattle.clap.specs.Words.{app_of, found_of, rows_of, rule_of, with_rule, first_of, all_of};
ghost use Rattle.ft_line.specs.Line as forms;
ghost use Rattle.ft_line.specs.LineGives.{HasMatches, IsRefusal, HasMeaning, HasSettings, ReadsLine};
ghost use Rattle.ft_line.specs.declared.line.LineFault.TheVariants.{Memory};

use clap::error::ErrorKind;
use clap::{Arg, ArgAction, ArgMatches, Command};
use shell_text::{Mode, SetFault, Settings};
use std::alloc::{AllocError, Global};
use thiserror::Error;

/// What a command line says.
#[derive(Drop)]
pub struct Line {
    /// How answers are printed, and what the shell does beside.
    pub settings: Settings,
    /// The file of the plain tables; nothing where both databases are in memory.
    pub file: Option<String>,
    /// The SQL texts, each an input of its own; where there is none standard input is run.
    pub inputs: Vec<String>,
}

/// Why a command line says nothing. What it displays is the program's own line, but for the words
/// that the command refuses: then it is the text of `clap`, which is the help where that was asked
/// for.
#[derive(Debug, Drop, Error)]
pub enum LineFault {
    #[error("{0}")]
    Words(clap::Error),
    #[error("ft4sh: conflicting options")]
    Conflict,
    #[error("ft4sh: bad separator")]
    BadSeparator,
    #[error("ft4sh: out of memory")]
    Memory,
}

impl From<AllocError> for LineFault {
    ghost from_gives = { λ _ e. e ≡ Memory };

    fn from(_failed: AllocError) -> LineFault {
        LineFault::Memory
    }
}

// ---- the words

fn are_letters(bytes: &[u8]) -> bool
    ensures { result ≡ list_all is_ascii_alphabetic bytes.now }
{
    bytes.iter().all(|b| b.is_ascii_alphabetic())
}

fn is_single_dashed(word: &str) -> bool
    ensures { result ≡ forms.is_single_dashed word.now }
{
    match word.as_bytes() {
        [b'-', letters @ ..] => letters.len() >= 2 && are_letters(letters),
        _ => false,
    }
}

// The word, with two dashes for one where words are rewritten.
fn dashed(alloc: Global, rewrites: bool, word: &str) -> Result<String, AllocError>
    ensures { IfOk result (λ text. string_bytes text
        ≡ (if rewrites then forms.dashed word.now else word.now)) }
{
    if rewrites && is_single_dashed(word) {
        format!(in alloc; "-{word}")
    } else {
        String::from_str(alloc, word)
    }
}

// Whether this word is one that may be rewritten.
fn is_before_end(rewrites: bool, word: &str) -> bool
    ensures { result ≡ (rewrites && not (bytes_eq word.now (codes "--"))) }
{
    rewrites && word != "--"
}

// The words with two dashes for one, up to a word of two dashes.
fn dashed_words(alloc: Global, words: &[&str]) -> Result<Vec<String>, AllocError>
    ensures { IfOk result (λ texts. map string_bytes texts.items
        ≡ forms.dashed_words (map (λ word. word.now) words.now)) }
{
    let mut texts = Vec::new(alloc);
    let mut rewrites = true;
    for word in words {
        rewrites = is_before_end(rewrites, *word);
        texts.push(dashed(alloc, rewrites, *word)?)?;
    }
    Ok(texts)
}

// ---- the command

fn with_flag<'a>(
    alloc: Global,
    command: Command<'a>,
    name: &'a str,
    help: &'a str,
) -> Result<Command<'a>, AllocError>
    ensures { IfOk result (λ more. app_of more
        ≡ with_rule (app_of command.entry) (forms.flag name.entry.now)) }
{
    let flag = Arg::new(alloc, name)
        .long(name)
        .action(ArgAction::SetTrue)
        .help(help);
    command.arg(flag)
}

fn with_option<'a>(
    alloc: Global,
    command: Command<'a>,
    name: &'a str,
    help: &'a str,
) -> Result<Command<'a>, AllocError>
    ensures { IfOk result (λ more. app_of more
        ≡ with_rule (app_of command.entry) (forms.value_option name.entry.now)) }
{
    let option = Arg::new(alloc, name)
        .long(name)
        .action(ArgAction::Set)
        .help(help);
    command.arg(option)
}

fn with_places<'a>(alloc: Global, command: Command<'a>) -> Result<Command<'a>, AllocError>
    ensures { IfOk result (λ more. app_of more
        ≡ with_rule (with_rule (app_of command.entry) forms.file) forms.sql) }
{
    let file = Arg::new(alloc, "FILE").action(ArgAction::Set).help(
        "Plain tables; full-text tables are in FILE-fts4 [default: both in memory]",
    );
    let sql = Arg::new(alloc, "SQL")
        .action(ArgAction::Append)
        .help("SQL text to run in place of standard input");
    command.arg(file)?.arg(sql)
}

// The end of the help.
const HELP_END: &str = "\
Dot-commands: .bail .echo .exit .header .headers .import .mode .nullvalue .print .quit .separator .tables
Manual: man ft4sh, or docs/MANUAL.md";

// The program's version, and the kit that proves and builds it.
const VERSION: &str = "1.0.0 (rattle-kit-13)";

// The command before its arguments.
fn without_arguments<'a>(alloc: Global) -> Command<'a>
    ensures { app_of result ≡ forms.without_arguments }
{
    Command::new(alloc, "ft4sh")
        .about("SQL shell with full-text tables")
        .version(VERSION)
        .after_help(HELP_END)
        .no_binary_name(true)
}

fn with_switches<'a>(alloc: Global, command: Command<'a>) -> Result<Command<'a>, AllocError>
    ensures { IfOk result (λ more. app_of more
        ≡ forms.with_rules (app_of command.entry) forms.switches) }
{
    let bail = with_flag(alloc, command, "bail", "Stop after the first fault")?;
    let echo = with_flag(alloc, bail, "echo", "Print each input before it runs")?;
    let header = with_flag(alloc, echo, "header", "Always print the names of columns")?;
    with_flag(
        alloc,
        header,
        "noheader",
        "Never print the names of columns",
    )
}

fn with_modes<'a>(alloc: Global, command: Command<'a>) -> Result<Command<'a>, AllocError>
    ensures { IfOk result (λ more. app_of more
        ≡ forms.with_rules (app_of command.entry) forms.modes) }
{
    let list = with_flag(
        alloc,
        command,
        "list",
        "Print values with a separator between [default]",
    )?;
    let csv = with_flag(alloc, list, "csv", "Print comma-separated records")?;
    let column = with_flag(alloc, csv, "column", "Print columns of even width")?;
    with_flag(alloc, column, "quote", "Print SQL literals")
}

fn with_texts<'a>(alloc: Global, command: Command<'a>) -> Result<Command<'a>, AllocError>
    ensures { IfOk result (λ more. app_of more
        ≡ forms.with_rules (app_of command.entry) forms.texts) }
{
    let separator = with_option(
        alloc,
        command,
        "separator",
        "Text between the values of a row",
    )?;
    with_option(alloc, separator, "nullvalue", "Text that stands for NULL")
}

// The command, which is given its words without the program's name.
fn command<'a>(alloc: Global) -> Result<Command<'a>, AllocError>
    ensures { IfOk result (λ command. app_of command ≡ forms.ft4sh) }
{
    let switches = with_switches(alloc, without_arguments(alloc))?;
    let modes = with_modes(alloc, switches)?;
    let texts = with_texts(alloc, modes)?;
    with_places(alloc, texts)
}

// What the command finds in the words.
fn matches_in<'a>(alloc: Global, words: &'a [String]) -> Result<ArgMatches<'a>, LineFault>
    ensures ok { IfOk result (HasMatches (map string_bytes words.entry.now)) }
    ensures err { IfErr result (IsRefusal (map string_bytes words.entry.now)) }
{
    let command = command(alloc)?;
    match command.try_get_matches_from(words) {
        Ok(matches) => Ok(matches),
        Err(error) => {
            if let ErrorKind::OutOfMemory = error.kind() {
                return Err(LineFault::Memory);
            }
            Err(LineFault::Words(error))
        }
    }
}

// ---- what was found

// The first value of an option or a positional.
fn text_of<'a>(matches: &ArgMatches<'a>, name: &str) -> Option<&'a str>
    ensures { option_map (λ text. text.now) result
        ≡ first_of name.now (rows_of (found_of matches.now)) }
{
    matches.get_str(name)
}

fn is_given(matches: &ArgMatches<'_>, name: &str) -> bool
    ensures { result ≡ forms.is_given name.now (rows_of (found_of matches.now)) }
{
    match text_of(matches, name) {
        Some(text) => text == "true",
        None => false,
    }
}

fn has_two_modes(matches: &ArgMatches<'_>) -> bool
    ensures { result ≡ forms.has_two_modes (rows_of (found_of matches.now)) }
{
    let list = is_given(matches, "list");
    let csv = is_given(matches, "csv");
    let column = is_given(matches, "column");
    let quote = is_given(matches, "quote");
    (list && (csv || column || quote)) || (csv && (column || quote)) || (column && quote)
}

fn is_conflict(matches: &ArgMatches<'_>) -> bool
    ensures { result ≡ forms.is_conflict (rows_of (found_of matches.now)) }
{
    has_two_modes(matches) || (is_given(matches, "header") && is_given(matches, "noheader"))
}

fn set_mode_if(settings: &mut Settings, given: bool, mode: Mode)
    ensures { settings.new ≡ forms.with_modes (forms.mode_if given mode) settings.old }
{
    if given {
        settings.set_mode(mode);
    }
}

fn set_modes(settings: &mut Settings, matches: &ArgMatches<'_>)
    ensures { settings.new ≡ forms.with_modes (forms.modes_in (rows_of (found_of matches.now)))
        settings.old }
{
    set_mode_if(settings, is_given(matches, "list"), Mode::List);
    set_mode_if(settings, is_given(matches, "csv"), Mode::Csv);
    set_mode_if(settings, is_given(matches, "column"), Mode::Column);
    set_mode_if(settings, is_given(matches, "quote"), Mode::Quote);
}

fn headers_in(matches: &ArgMatches<'_>) -> Option<bool>
    ensures { result ≡ forms.headers_in (rows_of (found_of matches.now)) }
{
    if is_given(matches, "header") {
        Some(true)
    } else if is_given(matches, "noheader") {
        Some(false)
    } else {
        None
    }
}

fn null_in<'a>(matches: &ArgMatches<'a>) -> &'a str
    ensures { result.now ≡ forms.null_in (rows_of (found_of matches.now)) }
{
    match text_of(matches, "nullvalue") {
        Some(text) => text,
        None => "",
    }
}

fn set_headers(settings: &mut Settings, headers: Option<bool>)
    requires { settings.old.headers ≡ None }
    ensures { settings.new ≡ record settings.old { headers = headers } }
{
    if let Some(shown) = headers {
        settings.set_headers(shown);
    }
}

// The settings but for the separator.
fn flag_settings(alloc: Global, matches: &ArgMatches<'_>) -> Result<Settings, AllocError>
    ensures { IfOk result (λ settings. settings
        ≡ forms.settings_from (rows_of (found_of matches.now))) }
{
    let mut settings = Settings::new(alloc);
    set_modes(&mut settings, matches);
    settings.set_null(null_in(matches))?;
    set_headers(&mut settings, headers_in(matches));
    settings.set_echo(is_given(matches, "echo"));
    settings.set_bail(is_given(matches, "bail"));
    Ok(settings)
}

// The mode is set before the separator.
fn settings_in(alloc: Global, matches: &ArgMatches<'_>) -> Result<Settings, LineFault>
    ensures { HasSettings (rows_of (found_of matches.now)) result }
{
    let mut settings = flag_settings(alloc, matches)?;
    let Some(text) = text_of(matches, "separator") else {
        return Ok(settings);
    };
    match settings.set_separator(text) {
        Ok(()) => Ok(settings),
        Err(SetFault::BadSeparator) => Err(LineFault::BadSeparator),
        Err(SetFault::Memory) => Err(LineFault::Memory),
    }
}

fn file_in(alloc: Global, matches: &ArgMatches<'_>) -> Result<Option<String>, AllocError>
    ensures { IfOk result (λ file. option_map string_bytes file
        ≡ forms.file_in (rows_of (found_of matches.now))) }
{
    let Some(text) = text_of(matches, "FILE") else {
        return Ok(None);
    };
    if text.is_empty() || text == ":memory:" {
        return Ok(None);
    }
    Ok(Some(String::from_str(alloc, text)?))
}

fn copied(alloc: Global, texts: &[&str]) -> Result<Vec<String>, AllocError>
    ensures { IfOk result (λ copies. map string_bytes copies.items
        ≡ map (λ text. text.now) texts.now) }
{
    let mut copies = Vec::new(alloc);
    for text in texts {
        copies.push(String::from_str(alloc, *text)?)?;
    }
    Ok(copies)
}

fn inputs_in(alloc: Global, matches: &ArgMatches<'_>) -> Result<Vec<String>, AllocError>
    ensures { IfOk result (λ inputs. map string_bytes inputs.items
        ≡ forms.inputs_in (rows_of (found_of matches.now))) }
{
    match matches.get_raw("SQL") {
        Some(texts) => copied(alloc, texts),
        None => Ok(Vec::new(alloc)),
    }
}

// What was found in the words means this.
fn meaning_of(alloc: Global, matches: &ArgMatches<'_>) -> Result<Line, LineFault>
    ensures { HasMeaning (rows_of (found_of matches.now)) result }
{
    if is_conflict(matches) {
        return Err(LineFault::Conflict);
    }
    let settings = settings_in(alloc, matches)?;
    let file = file_in(alloc, matches)?;
    let inputs = inputs_in(alloc, matches)?;
    Ok(Line {
        settings,
        file,
        inputs,
    })
}

/// Reads the words of a command line, without the program's own name. A word of one dash and at
/// least two ASCII letters is read with two dashes, up to a word of two dashes.
pub fn read_line(alloc: Global, words: &[&str]) -> Result<Line, LineFault>
    ensures { ReadsLine (map (λ word. word.now) words.now) result }
{
    let words = dashed_words(alloc, words)?;
    let matches = matches_in(alloc, words.as_slice())?;
    meaning_of(alloc, &matches)
}
