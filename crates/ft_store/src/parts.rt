//! Row changes that come in parts.
ghost use Rattle.std.specs.Prelude.{List};
ghost use Rattle.ft_rows.specs.Store.{Change};
ghost use Rattle.ft_store.specs.Parts.{IsNext};

use ft_values::RowChange;
use std::alloc::AllocError;

/// Row changes that come in parts, so that they needn't stand in memory all at once.
pub trait Parts {
    /// The parts that are still to come.
    ghost to_come: { Self → List (List Change) };

    /// The next part, none where no more come. An error is want of memory.
    fn next(&mut self) -> Result<Option<Vec<RowChange>>, AllocError>
        ensures { IsNext (to_come self.old) result (to_come self.new) };
}
