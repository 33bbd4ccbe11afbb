//! What a turn of a session has to say, or why it does nothing.
ghost use Rattle.std.specs.Prelude.{◌≡◌, string_bytes};
ghost use Rattle.shell_io.specs.Texts.{fault_text, statement_text, text_as};
ghost use Rattle.shell_io.specs.Outcomes as forms;
ghost use Rattle.shell_io.specs.OutputViews.{complaint_as};
ghost use Rattle.shell_io.specs.Sources.{fetch_words};
ghost use Rattle.shell_io.specs.FaultWords.{lex_words, record_words, set_words};

use crate::source::SourceFault;
use crate::texts::{FaultText, fault_text, statement_text};
use ft_commands::StatementFault;
use ft_values::Fault;
use shell_text::{LexFault, PrintFault, RecordFault, SetFault};
use std::alloc::{AllocError, AllocFailed};

/// What a turn has to say: bytes for the output or warnings, if anything, or that the session ends.
#[derive(Drop)]
pub enum Output {
    Nothing,
    Bytes(Vec<u8>),
    Warnings(String),
    Quit,
}

/// Why a turn fails: the text of its fault line, and the warnings that go before.
#[derive(Drop)]
pub struct Complaint {
    pub(crate) warnings: Option<String>,
    pub(crate) text: FaultText,
}

/// What a turn answers.
pub type Answer = Result<Output, Complaint>;

impl Complaint {
    /// With a text that takes no memory.
    pub fn fixed(text: &'static str) -> Complaint
        ensures { complaint_as result ≡ forms.blames text.now }
    {
        Complaint::from(FaultText::Fixed(text))
    }

    /// The same after warnings.
    pub fn after(warnings: String, text: &'static str) -> Complaint
        ensures { complaint_as result ≡ forms.complains (string_bytes warnings) text.now }
    {
        Complaint {
            warnings: Some(warnings),
            text: FaultText::Fixed(text),
        }
    }
}

impl From<FaultText> for Complaint {
    ghost from_gives = { λ text complaint. complaint_as complaint ≡ forms.blames (text_as text) };

    fn from(text: FaultText) -> Complaint {
        Complaint {
            warnings: None,
            text,
        }
    }
}

impl From<AllocError> for Complaint {
    ghost from_gives = { λ _ complaint. complaint_as complaint ≡ forms.lacks_memory };

    fn from(_failed: AllocError) -> Complaint {
        Complaint::fixed("out of memory")
    }
}

impl<T: Drop> From<AllocFailed<T>> for Complaint {
    ghost from_gives = { λ _ complaint. complaint_as complaint ≡ forms.lacks_memory };

    fn from(_failed: AllocFailed<T>) -> Complaint {
        Complaint::from(AllocError)
    }
}

// What is printed goes to memory.
impl From<PrintFault> for Complaint {
    ghost from_gives = { λ _ complaint. complaint_as complaint ≡ forms.lacks_memory };

    fn from(_fault: PrintFault) -> Complaint {
        Complaint::from(AllocError)
    }
}

impl From<Fault> for Complaint {
    ghost from_gives = { λ fault complaint. complaint_as complaint ≡ forms.blames (fault_text fault) };

    fn from(fault: Fault) -> Complaint {
        Complaint::from(fault_text(fault))
    }
}

impl From<StatementFault> for Complaint {
    ghost from_gives = { λ fault complaint. complaint_as complaint ≡ forms.blames (statement_text fault) };

    fn from(fault: StatementFault) -> Complaint {
        Complaint::fixed(statement_text(fault))
    }
}

impl From<LexFault> for Complaint {
    ghost from_gives = { λ fault complaint. complaint_as complaint ≡ forms.blames (lex_words fault) };

    fn from(fault: LexFault) -> Complaint {
        Complaint::fixed(match fault {
            LexFault::Open => "incomplete input",
            LexFault::Memory => "out of memory",
        })
    }
}

impl From<SetFault> for Complaint {
    ghost from_gives = { λ fault complaint. complaint_as complaint ≡ forms.blames (set_words fault) };

    fn from(fault: SetFault) -> Complaint {
        Complaint::fixed(match fault {
            SetFault::BadSeparator => "bad separator",
            SetFault::Memory => "out of memory",
        })
    }
}

impl From<RecordFault> for Complaint {
    ghost from_gives = { λ fault complaint. complaint_as complaint ≡ forms.blames (record_words fault) };

    fn from(fault: RecordFault) -> Complaint {
        Complaint::fixed(match fault {
            RecordFault::NotUtf8 => "file is not UTF-8",
            RecordFault::Memory => "out of memory",
        })
    }
}

impl From<SourceFault> for Complaint {
    ghost from_gives = { λ fault complaint. complaint_as complaint ≡ forms.blames (fetch_words fault) };

    fn from(fault: SourceFault) -> Complaint {
        Complaint::fixed(match fault {
            SourceFault::Missing | SourceFault::Read => "cannot read file",
            SourceFault::TooBig => "file too big",
            SourceFault::Memory => "out of memory",
        })
    }
}
