//! The lists that a walk asks for.
ghost use Rattle.std.specs.Prelude.{◌≡◌, ℕ, ◌+◌, ◌-◌, ◌^◌, ◌||◌, Bool, List, map, min, bytes_eq, nat_eq, is_ok, IfOk, OnErr};
ghost use Rattle.std.specs.List.{starts_with};
ghost use Rattle.ft_match.specs.Documents.{Document, AreDocuments, lists_with, place_count};
ghost use Rattle.ft_query.specs.Lists.{plain_list, is_failed};

mod doc_list;
mod place;

pub use doc_list::DocList;
pub(crate) use place::Gap;
pub use place::Place;
use std::alloc::{AllocError, AllocFailed, Global};
use thiserror::Error;

/// Why there is no list.
#[derive(Clone, Copy, Debug, PartialEq, Eq, Error)]
pub enum ListFault {
    #[error("the lists can't be read")]
    Failed,
    #[error("out of memory")]
    Memory,
}

impl From<AllocError> for ListFault {
    ghost use Rattle.std.specs.Prelude.{◌≡◌};
    ghost use Rattle.ft_query.specs.declared.lists.ListFault.TheVariants.{Memory};

    ghost from_gives = { λ _ fault. fault ≡ Memory };

    fn from(_error: AllocError) -> ListFault {
        ListFault::Memory
    }
}

impl<T: Drop> From<AllocFailed<T>> for ListFault {
    ghost use Rattle.std.specs.Prelude.{◌≡◌};
    ghost use Rattle.ft_query.specs.declared.lists.ListFault.TheVariants.{Memory};

    ghost from_gives = { λ _ fault. fault ≡ Memory };

    fn from(_error: AllocFailed<T>) -> ListFault {
        ListFault::Memory
    }
}

/// The lists of places of an index. Where they are clean as a call ends, its answer is exact.
pub trait Lists {
    /// The documents that the lists mean, while they are clean.
    ghost documents: { Self → List Document };

    /// The lists can be relied on.
    ghost is_clean: { Self → Type 0 };

    /// A call has answered `Failed`.
    ghost has_failed: { Self → Bool };

    /// How many places the answers gave.
    ghost given_so_far: { Self → ℕ };

    /// What else is known of a call that is answered, or refused: what it makes of the lists.
    ghost becomes: { Self → Bool → Self → Type 0 } = { λ old is_answered new. Unit {0} };

    /// The places of one term.
    fn word(&mut self, alloc: Global, term: &str) -> Result<Vec<DocList>, ListFault>
        ensures answer { IfOk result (λ lists. is_clean self.new
            → map plain_list lists.items ≡ lists_with (λ t. bytes_eq t term.now)
            (documents self.new)) }
        ensures clean { is_clean self.new → is_clean self.old
            × (documents self.new ≡ documents self.old) }
        ensures failed { has_failed self.new ≡ (has_failed self.old || is_failed result) }
        ensures given { IfOk result (λ lists. given_so_far self.new
            ≡ min (given_so_far self.old + place_count (map plain_list lists.items)) (2 ^ 64 - 1)) }
        ensures none_given { OnErr result (given_so_far self.new ≡ given_so_far self.old) }
        ensures becomes { becomes self.old (is_ok result) self.new };

    /// The places of the terms that begin so.
    fn prefix(&mut self, alloc: Global, begin: &str) -> Result<Vec<DocList>, ListFault>
        ensures answer { IfOk result (λ lists. is_clean self.new
            → map plain_list lists.items ≡ lists_with (λ t. starts_with nat_eq t begin.now)
            (documents self.new)) }
        ensures clean { is_clean self.new → is_clean self.old
            × (documents self.new ≡ documents self.old) }
        ensures failed { has_failed self.new ≡ (has_failed self.old || is_failed result) }
        ensures given { IfOk result (λ lists. given_so_far self.new
            ≡ min (given_so_far self.old + place_count (map plain_list lists.items)) (2 ^ 64 - 1)) }
        ensures none_given { OnErr result (given_so_far self.new ≡ given_so_far self.old) }
        ensures becomes { becomes self.old (is_ok result) self.new };

    /// A call has answered `Failed`.
    fn failed(&self) -> bool
        ensures { result ≡ has_failed self.now };

    /// How many places the answers gave, up to 2^64 - 1.
    fn given(&self) -> u64
        ensures { result ≡ given_so_far self.now };

    /// What clean lists mean is in order.
    ghost in_order: { (lists : Self) → is_clean lists → AreDocuments (documents lists) };
}
