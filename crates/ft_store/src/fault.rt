//! Why a call of the store is refused.
ghost use Rattle.std.specs.Prelude.{◌≡◌};
ghost use Rattle.ft_store.specs.Calls.{IsPlainFault, fault_of, fault_of_read};
ghost use Rattle.ft_store.specs.declared.fault.StoreFault.TheVariants as fault;

use ft_values::Fault;
use sqlite::{Error as SqlError, ErrorCode};
use std::alloc::{AllocError, AllocFailed};
use thiserror::Error;

/// Why a call of the store is refused.
#[derive(Clone, Copy, Debug, PartialEq, Eq, Error)]
pub enum StoreFault {
    #[error("out of memory")]
    Memory,
    /// A call of the database was refused.
    #[error("the database refused")]
    Refused,
    /// A table of a store is there, and no version can be read.
    #[error("not a full-text store")]
    NotAStore,
    /// The store has a version that is not taken.
    #[error("full-text store of version {0}")]
    Version(i64),
    /// A list of places is not in its one form, or its term is no text; or one of a change is none
    /// that can be packed.
    #[error("a damaged posting list")]
    Damaged,
}

impl From<AllocError> for StoreFault {
    ghost from_gives = { λ _ e. e ≡ fault.Memory };

    fn from(_: AllocError) -> StoreFault {
        StoreFault::Memory
    }
}

impl<T: Drop> From<AllocFailed<T>> for StoreFault {
    ghost from_gives = { λ _ e. e ≡ fault.Memory };

    fn from(_: AllocFailed<T>) -> StoreFault {
        StoreFault::Memory
    }
}

impl From<SqlError> for StoreFault {
    ghost from_gives = { λ error e. (e ≡ fault_of error) × IsPlainFault e };

    fn from(error: SqlError) -> StoreFault {
        match error {
            SqlError::SqliteFailure(ErrorCode::OutOfMemory) => StoreFault::Memory,
            _ => StoreFault::Refused,
        }
    }
}

impl From<StoreFault> for Fault {
    ghost from_gives = { λ store fault. fault ≡ fault_of_read store };

    fn from(fault: StoreFault) -> Fault {
        match fault {
            StoreFault::Memory => Fault::Memory,
            _ => Fault::Store,
        }
    }
}
