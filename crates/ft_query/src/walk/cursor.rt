//! One term's list of documents, passed from front to back.
ghost use Rattle.std.specs.Prelude.{◌≡◌, map, IfOk};
ghost use Rattle.ft_query.specs.Lists.{plain_list};
ghost use Rattle.ft_query.specs.Cursors.{lists_left, lists_kept, docid_ahead, is_next, next_places, after_next};
ghost use Rattle.ft_query.specs.Sought.{StandsAt, SearchesOn};
ghost use Rattle.ft_query.specs.Taken.{TakesSteps, LooksForNext};

use crate::lists::{DocList, Place};
use crate::walk::Steps;
use std::alloc::{AllocError, Global};
use std::rc::Rc;

/// A term's list: where the walk stands in it, and how far the search for the next hit has come.
#[derive(Drop)]
pub(crate) struct Cursor {
    lists: Rc<Vec<DocList>>,
    kept: usize,
    at: usize,
}

impl Cursor {
    /// Before the first document of a list.
    pub(super) fn new(alloc: Global, lists: Vec<DocList>) -> Result<Cursor, AllocError>
        ensures { IfOk result (λ c. lists_kept c ≡ map plain_list lists.items) }
    {
        Ok(Cursor {
            lists: Rc::new(alloc, lists)?,
            kept: 0,
            at: 0,
        })
    }

    /// Another one where this one stands, over the same list, which is held once.
    pub(super) fn again(&self) -> Result<Cursor, AllocError>
        ensures { IfOk result (λ c. lists_kept c ≡ lists_kept self.now) }
    {
        Ok(Cursor {
            lists: self.lists.clone()?,
            kept: self.kept,
            at: self.kept,
        })
    }

    /// Begins a search where the walk stands.
    pub(super) fn begin(&mut self)
        ensures { StandsAt self.new (lists_kept self.old) }
    {
        self.at = self.kept;
    }

    /// The walk now stands where the search is.
    pub(super) fn keep(&mut self)
        ensures { StandsAt self.new (lists_left self.old) }
    {
        self.kept = self.at;
    }

    /// The next docid here, if there is one, which is looked at.
    pub(super) fn docid(&self, steps: &mut Steps) -> Option<i64>
        ensures docid { result ≡ docid_ahead (lists_left self.now) }
        ensures steps { LooksForNext (lists_left self.now) result steps.old steps.new }
    {
        let list = self.lists.get(self.at)?;
        Some(list.docid(steps))
    }

    /// This document is the next one here. It is a step to ask, also where there is no next one.
    pub(super) fn is_at(&self, docid: i64, steps: &mut Steps) -> bool
        ensures next { result ≡ is_next docid (lists_left self.now) }
        ensures step { TakesSteps 1 steps.old steps.new }
    {
        match self.lists.get(self.at) {
            Some(list) => list.is_of(docid, steps),
            None => {
                steps.take();
                false
            }
        }
    }

    /// The places in the next document, if there is one. No docid is looked at.
    pub(super) fn here(&self) -> &[Place]
        ensures { result.now ≡ next_places (lists_left self.now) }
    {
        match self.lists.get(self.at) {
            Some(list) => list.places(),
            None => &[],
        }
    }

    /// Goes on past the next document, if there is one. No docid is looked at.
    pub(super) fn go_on(&mut self)
        ensures { SearchesOn self.old self.new (after_next (lists_left self.old)) }
    {
        if let Some(_) = self.lists.get(self.at) {
            self.at += 1;
        }
    }
}
