//! Why a full-text command is refused.
ghost use Rattle.std.specs.Prelude.{◌≡◌};
ghost use Rattle.ft_values.specs.declared.fault.Fault.TheVariants.{Memory};

use std::alloc::{AllocError, AllocFailed};
use std::fmt::{self, Display, Formatter, Write};
use thiserror::Error;

/// Why a command was refused, in the order of the tests.
#[derive(Clone, Copy, Debug, PartialEq, Eq, Error)]
pub enum Fault {
    Module,
    Tokenizer,
    Parameter,
    Name,
    DuplicateColumn,
    TooManyColumns,
    TableExists,
    TooManyTables,
    NoSuchTable,
    Unsound,
    NoSuchColumn,
    Count,
    DocidKind,
    DocidTwice,
    TooLong,
    HasNul,
    Context,
    Malformed,
    TooLarge,
    DocidTaken(i64),
    DocidFull,
    Corrupt,
    Store,
    Memory,
}

/// Names the fault. The lines that the shell prints of it stand in `shell_io`.
impl Display for Fault {
    fn fmt<W: Write>(&self, f: &mut Formatter<W>) -> fmt::Result {
        write!(f, "full-text command refused: {self:?}")
    }
}

impl From<AllocError> for Fault {
    ghost from_gives = { λ _ fault. fault ≡ Memory };

    fn from(_error: AllocError) -> Fault {
        Fault::Memory
    }
}

impl<T: Drop> From<AllocFailed<T>> for Fault {
    ghost from_gives = { λ _ fault. fault ≡ Memory };

    fn from(_error: AllocFailed<T>) -> Fault {
        Fault::Memory
    }
}
