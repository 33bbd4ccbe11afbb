//! Where an import's file comes from.
ghost use Rattle.std.specs.Prelude.{◌≡◌, ℕ, List, IfOk, IfErr};
ghost use Rattle.shell_io.specs.Sources.{Files, GivesFile, Refuses};

use std::alloc::Global;
use thiserror::Error;

/// Why a file's bytes are not there.
#[derive(Clone, Copy, Debug, PartialEq, Eq, Error)]
pub enum SourceFault {
    #[error("no such file")]
    Missing,
    #[error("file not read")]
    Read,
    /// It has more than 64 MiB.
    #[error("file too big")]
    TooBig,
    #[error("out of memory")]
    Memory,
}

/// Files by their names.
pub trait Source {
    /// What is known of the file of each name. It stays so.
    ghost holds: { Self → Files };

    /// A file's bytes, at most 64 MiB of them.
    fn fetch(&mut self, alloc: Global, name: &str) -> Result<Vec<u8>, SourceFault>
        ensures bytes { IfOk result (λ bytes. GivesFile (holds self.old) name.now bytes.items) }
        ensures refused { IfErr result (λ fault. Refuses (holds self.old) name.now fault) }
        ensures same { (other : List ℕ) → holds self.new other ≡ holds self.old other };
}
