//! Why words spell no command.
ghost use Rattle.std.specs.Prelude.{◌≡◌};
ghost use Rattle.ft_commands.specs.declared.fault.StatementFault.TheVariants.{Memory};

use std::alloc::{AllocError, AllocFailed};
use thiserror::Error;

/// Why a statement has no class, in the order of the tests.
#[derive(Clone, Copy, Debug, PartialEq, Eq, Error)]
pub enum StatementFault {
    #[error("unsupported full-text statement")]
    Syntax,
    #[error("out of memory")]
    Memory,
}

impl From<AllocError> for StatementFault {
    ghost from_gives = { λ _ fault. fault ≡ Memory };

    fn from(_error: AllocError) -> StatementFault {
        StatementFault::Memory
    }
}

impl<T: Drop> From<AllocFailed<T>> for StatementFault {
    ghost from_gives = { λ _ fault. fault ≡ Memory };

    fn from(_error: AllocFailed<T>) -> StatementFault {
        StatementFault::Memory
    }
}
