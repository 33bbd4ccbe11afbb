//! Stores that are clean at all times, so that what is said of values holds with no premise.
ghost use Rattle.std.specs.Prelude.{true, refl};
ghost use Rattle.sqlite_trees.specs.View.{IsClean};
ghost use Rattle.sqlite_trees.proofs.Doubt.{no_doubt};
ghost use Rattle.ram_disk.specs.Clean.{never_lies_store};

use crate::disk::Ram;
use sqlite::{Alter, FileStore, MemStore};

/// A store in memory, which never takes a wrong answer as true.
pub trait Honest: Alter {
    ghost always_clean: { (store : Self) → IsClean (Self.Store.view store) };
}

impl Honest for MemStore {
    ghost always_clean = { λ _. no_doubt true refl };
}

impl Honest for FileStore<Ram> {
    ghost always_clean = { λ it. never_lies_store (λ _. refl) it };
}
