//! The texts of fault lines.
ghost use Rattle.std.specs.Prelude.{◌≡◌, codes};
ghost use Rattle.shell_io.specs.Texts as forms;

use ft_commands::StatementFault;
use ft_values::Fault;
use shell_text::SplitFault;

/// The text of a fault line. It takes no memory, but for one that is made.
#[derive(Drop)]
pub enum FaultText {
    Fixed(&'static str),
    /// How a dot-command is used.
    Usage(&'static str),
    /// The docid that a row has already.
    DocidTaken(i64),
    Made(String),
}

/// Why a line, or the end of the input, gives no unit.
pub fn split_text(fault: &SplitFault) -> &'static str
    ensures { result.now ≡ forms.split_text fault.now }
{
    match fault {
        SplitFault::TooLong => "statement too long",
        SplitFault::NotUtf8 => "input is not UTF-8",
        SplitFault::HasNul => "NUL character in input",
        SplitFault::Incomplete(_) => "incomplete input",
        SplitFault::Memory => "out of memory",
    }
}

/// Why a statement has no class.
pub fn statement_text(fault: StatementFault) -> &'static str
    ensures { result.now ≡ forms.statement_text fault }
{
    match fault {
        StatementFault::Syntax => "unsupported full-text statement",
        StatementFault::Memory => "out of memory",
    }
}

/// Why a full-text command was refused.
pub fn fault_text(fault: Fault) -> FaultText
    ensures { forms.text_as result ≡ forms.fault_text fault }
{
    let text = match fault {
        Fault::Module => "no such module",
        Fault::Tokenizer => "unknown tokenizer",
        Fault::Parameter => "unrecognized parameter",
        Fault::Name => "bad name",
        Fault::DuplicateColumn => "duplicate column name",
        Fault::TooManyColumns => "too many columns",
        Fault::TableExists => "table already exists",
        Fault::TooManyTables => "too many full-text tables",
        Fault::NoSuchTable => "no such table",
        Fault::Unsound => "full-text index is unsound",
        Fault::NoSuchColumn => "no such column",
        Fault::Count => "values do not fit columns",
        Fault::DocidKind => "datatype mismatch",
        Fault::DocidTwice => "docid given twice",
        Fault::TooLong => "string or blob too big",
        Fault::HasNul => "NUL character in value",
        Fault::Context => "unable to use function offsets in the requested context",
        Fault::Malformed => "malformed MATCH expression",
        Fault::TooLarge => "MATCH expression too large",
        Fault::DocidTaken(docid) => return FaultText::DocidTaken(docid),
        Fault::DocidFull => "no docid left",
        Fault::Corrupt => "database disk image is malformed",
        Fault::Store => "full-text store refused",
        Fault::Memory => "out of memory",
    };
    FaultText::Fixed(text)
}
