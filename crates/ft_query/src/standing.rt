//! Where a walk stands, and how much work it has done. A count of steps is made here alone, and nothing
//! but a search can be done with it here: what looks at a docid or a place is seen in `walk` alone, where no
//! count can be made.
ghost use Rattle.std.specs.Prelude.{◌≡◌, ◌≤◌, length, map, vec_len, IfOk, OnErr};
ghost use Rattle.ft_match.specs.Trees.{tree_of};
ghost use Rattle.ft_query.specs.Work.{terms_in};
ghost use Rattle.ft_query.specs.Cursors.{lists_kept};
ghost use Rattle.ft_query.specs.Loaded.{AsksLists, Loads};
ghost use Rattle.ft_query.specs.Search.{stands_at, FindsNext};
ghost use Rattle.ft_query.specs.Taken.{TakesSteps};

use crate::lists::{ListFault, Lists};
use crate::walk::{Cursor, Wanted, load, search};
use ft_match::{Hit, Query};
use std::alloc::{AllocError, Global};

/// The steps so far: the docids and positions that were looked at, and the nodes of a query that
/// were visited for a document. The count stays at its greatest value. A search has one, made of the
/// steps up to where it begins, and what it calls can only add to it.
#[derive(Drop)]
pub(crate) struct Steps {
    taken: u64,
}

/// The cursors of a walk, and the steps up to where it stands.
#[derive(Drop)]
pub(crate) struct Standing {
    cursors: Vec<Cursor>,
    taken: u64,
}

impl Steps {
    /// One step more.
    pub(crate) fn take(&mut self)
        ensures { TakesSteps 1 self.old self.new }
    {
        self.taken = self.taken.saturating_add(1);
    }

    /// So many steps more.
    pub(crate) fn take_all(&mut self, count: usize)
        ensures { TakesSteps count self.old self.new }
    {
        self.taken = self.taken.saturating_add(count as u64);
    }
}

impl Standing {
    /// Asks for the lists of a query's terms, and stands before their first document, with no steps
    /// so far.
    pub(crate) fn open<L: Lists>(
        alloc: Global,
        query: &Query,
        lists: &mut L,
    ) -> Result<Standing, ListFault>
        ensures loads { IfOk result (λ s.
            Loads L.Lists (terms_in (tree_of query.now)) lists.old lists.new s.cursors) }
        ensures none { IfOk result (λ s. s.taken ≡ 0) }
        ensures asks { AsksLists L.Lists lists.old lists.new result }
    {
        let cursors = load(alloc, query, lists)?;
        Ok(Standing { cursors, taken: 0 })
    }

    /// The steps up to where the walk stands.
    pub(crate) fn steps(&self) -> u64
        ensures { result ≡ self.now.taken }
    {
        self.taken
    }

    /// The next hit, without offsets where they aren't wanted. The walk then stands after it, and
    /// after an error where it stood.
    pub(crate) fn search(
        &mut self,
        alloc: Global,
        query: &Query,
        wanted: Wanted,
    ) -> Result<Option<Hit>, AllocError>
        requires { vec_len self.old.cursors ≡ length (terms_in (tree_of query.now)) }
        ensures finds { IfOk result
            (FindsNext wanted (stands_at query.now self.old.cursors.items self.old.taken)
            (stands_at query.now self.new.cursors.items self.new.taken)) }
        ensures rise { self.old.taken ≤ self.new.taken }
        ensures err { OnErr result
            ((map lists_kept self.new.cursors.items ≡ map lists_kept self.old.cursors.items)
            × (self.new.taken ≡ self.old.taken)) }
        ensures cursors { vec_len self.new.cursors ≡ vec_len self.old.cursors }
    {
        let cursors = self.cursors.as_mut_slice();
        let mut steps = Steps { taken: self.taken };
        let hit = search(alloc, query, cursors, wanted, &mut steps)?;
        self.taken = steps.taken;
        Ok(hit)
    }
}
