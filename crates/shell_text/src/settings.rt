//! How answers are printed, and what the shell does beside.

ghost use Rattle.std.specs.Prelude.{◌≡◌, None, Some, false};
ghost use Rattle.shell_text.specs.Print.{first_settings, is_csv_separator, separator_of, shows_headers, with_mode, SetsSeparator};
ghost use Rattle.shell_text.specs.declared.settings.SetFault.TheVariants.{Memory};
ghost use Rattle.shell_text.specs.AllOrNothing.{Becomes};

use std::alloc::{AllocError, Global};
use std::marker::Model;
use thiserror::Error;

/// How a grid is printed.
#[derive(Clone, Copy, Debug, PartialEq, Eq)]
pub enum Mode {
    List,
    Csv,
    Column,
    Quote,
}

/// Why a separator is not set, in the order of the tests.
#[derive(Debug, Drop, Error)]
pub enum SetFault {
    #[error("bad separator")]
    BadSeparator,
    #[error("out of memory")]
    Memory,
}

impl From<AllocError> for SetFault {
    ghost from_gives = { λ _ e. e ≡ Memory };

    fn from(_failed: AllocError) -> SetFault {
        SetFault::Memory
    }
}

impl Mode {
    // The mode's own separator.
    fn separator(self) -> &'static str
        ensures { result.now ≡ separator_of self }
    {
        match self {
            Mode::Csv | Mode::Quote => ",",
            Mode::List | Mode::Column => "|",
        }
    }
}

/// Whether a text may part the fields of CSV: one byte from U+0001 to U+007F other than a quotation
/// mark, CR and LF. That is our own choice, since RFC 4180 has the comma alone.
pub fn is_csv_separator(text: &str) -> bool
    ensures { result ≡ is_csv_separator text.now }
{
    match text.as_bytes() {
        [b] => *b > 0 && *b < 0x80 && !(*b == b'"' || *b == b'\r' || *b == b'\n'),
        _ => false,
    }
}

/// The output mode with its separator, the text that stands for NULL, and whether headers are
/// shown, input is echoed and a fault ends the run.
#[derive(Drop)]
pub struct Settings {
    alloc: Global,
    mode: Mode,
    separator: Option<String>,
    null: String,
    headers: Option<bool>,
    echo: bool,
    bail: bool,
}

impl Model for Settings {
    ghost use Rattle.shell_text.specs.Print as forms;

    ghost Value = { forms.Settings };

    ghost use Rattle.shell_text.specs.SettingsViews.{settings_of};

    ghost view = { settings_of };
}

impl Settings {
    /// List mode with its own separator, an empty null text, headers never set, no echo, no bail.
    pub fn new(alloc: Global) -> Settings
        ensures { result ≡ first_settings }
    {
        Settings {
            alloc,
            mode: Mode::List,
            separator: None,
            null: String::new(alloc),
            headers: None,
            echo: false,
            bail: false,
        }
    }

    /// Sets the mode: how rows are printed from now on. At first it is list mode. The separator
    /// becomes the mode's own, as `.mode` does in "Command Line Shell For SQLite"; that it does so
    /// in column mode too is our own choice.
    pub fn set_mode(&mut self, mode: Mode)
        ensures { self.new ≡ with_mode mode self.old }
    {
        self.mode = mode;
        self.separator = None;
    }

    /// Sets that the line of column names is always printed above rows, or never. While it was
    /// never set it is printed in column mode alone. It is `.headers` of "Command Line Shell For
    /// SQLite".
    pub fn set_headers(&mut self, shown: bool)
        ensures { self.new ≡ record self.old { headers = Some shown } }
    {
        self.headers = Some(shown);
    }

    /// Sets whether each unit of the input is printed before it runs, from the next one on. At
    /// first it is not. It is `.echo` of "Command Line Shell For SQLite".
    pub fn set_echo(&mut self, on: bool)
        ensures { self.new ≡ record self.old { echo = on } }
    {
        self.echo = on;
    }

    /// Sets whether the run ends after the next fault line. At first it does not. It is `.bail` of
    /// "Command Line Shell For SQLite".
    pub fn set_bail(&mut self, on: bool)
        ensures { self.new ≡ record self.old { bail = on } }
    {
        self.bail = on;
    }

    /// Sets the text between the cells of a row, of any size in bytes. At first it is the mode's
    /// own. In csv mode it has to be one byte from U+0001 to U+007F other than a quotation mark, CR
    /// and LF, or else it is refused: that is our own choice, since RFC 4180 has the comma alone.
    /// After a fault all is as it was.
    pub fn set_separator(&mut self, separator: &str) -> Result<(), SetFault>
        ensures { SetsSeparator separator.now self.old self.new result }
    {
        if let Mode::Csv = self.mode {
            if !is_csv_separator(separator) {
                return Err(SetFault::BadSeparator);
            }
        }
        let text = String::from_str(self.alloc, separator)?;
        self.separator = Some(text);
        Ok(())
    }

    /// Sets the text that is printed for NULL, of any size in bytes. At first it is empty. Quote
    /// mode prints `NULL` whatever is set. It is `.nullvalue` of "Command Line Shell For SQLite".
    /// After a fault all is as it was.
    pub fn set_null(&mut self, null: &str) -> Result<(), AllocError>
        ensures { Becomes (record self.old { null = null.now }) self.old self.new result }
    {
        let text = String::from_str(self.alloc, null)?;
        self.null = text;
        Ok(())
    }

    /// The mode, as `set_mode` set it last; list mode at first.
    pub fn mode(&self) -> Mode
        ensures { result ≡ self.now.mode }
    {
        self.mode
    }

    /// The text between the cells of a row, as it was set since the mode was; else the mode's own:
    /// a comma in csv and quote mode, a vertical bar in list and column mode, as in "Command Line
    /// Shell For SQLite" (the vertical bar of column mode is our own choice).
    pub fn separator(&self) -> &str
        ensures { result.now ≡ self.now.separator }
    {
        match &self.separator {
            Some(text) => text.as_str(),
            None => self.mode.separator(),
        }
    }

    /// The text that is printed for NULL, as `set_null` set it last; empty at first.
    pub fn null(&self) -> &str
        ensures { result.now ≡ self.now.null }
    {
        self.null.as_str()
    }

    /// Whether headers are always shown, or never, as `set_headers` set it last; nothing while that
    /// was never set.
    pub fn headers(&self) -> Option<bool>
        ensures { result ≡ self.now.headers }
    {
        self.headers
    }

    /// Whether units are printed before they run, as `set_echo` set it last; not at first.
    pub fn echo(&self) -> bool
        ensures { result ≡ self.now.echo }
    {
        self.echo
    }

    /// Whether the run ends after a fault line, as `set_bail` set it last; not at first.
    pub fn bail(&self) -> bool
        ensures { result ≡ self.now.bail }
    {
        self.bail
    }

    /// Whether a grid is printed with its header.
    pub(crate) fn shows_headers(&self) -> bool
        ensures { result ≡ shows_headers self.now }
    {
        match self.headers {
            Some(shown) => shown,
            None => matches!(self.mode, Mode::Column),
        }
    }
}
