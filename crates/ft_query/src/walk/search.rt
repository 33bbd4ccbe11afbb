//! The search for the next document that a query accepts.
ghost use Rattle.std.specs.Prelude.{◌≡◌, ◌≤◌, None, map, length, IfOk, OnErr};
ghost use Rattle.ft_match.specs.Trees.{tree_of};
ghost use Rattle.ft_query.specs.Work.{terms_in};
ghost use Rattle.ft_query.specs.Cursors.{lists_left, lists_kept, passed, least_of, least_from};
ghost use Rattle.ft_query.specs.Search.{walk_at, stands_at, FindsNext};
ghost use Rattle.ft_query.specs.Sought.{SearchesOn, AllSearchOn};
ghost use Rattle.ft_query.specs.Taken.{TakesSteps, LooksForNext, LooksAtAll};

use crate::walk::Steps;
use crate::walk::cursor::Cursor;
use crate::walk::visit::{Wanted, visit};
use ft_match::{Hit, Query};
use std::alloc::{AllocError, Global};

impl Cursor {
    // The lesser of this docid and the next one here, which is looked at if there is one.
    fn lesser(&self, docid: Option<i64>, steps: &mut Steps) -> Option<i64>
        ensures docid { result ≡ least_of docid (lists_left self.now) }
        ensures steps { LooksForNext (lists_left self.now) result steps.old steps.new }
    {
        let Some(next) = self.docid(steps) else {
            return docid;
        };
        match docid {
            Some(least) if least <= next => docid,
            _ => Some(next),
        }
    }

    // Goes on past this document.
    fn pass(&mut self, docid: i64, steps: &mut Steps)
        ensures goes { SearchesOn self.old self.new (passed docid (lists_left self.old)) }
        ensures step { TakesSteps 1 steps.old steps.new }
    {
        if self.is_at(docid, steps) {
            self.go_on();
        }
    }
}

// The least docid that is next in some list.
fn least(cursors: &[Cursor], steps: &mut Steps) -> Option<i64>
    ensures docid { result ≡ least_from None (map lists_left cursors.now) }
    ensures steps { LooksAtAll (length cursors.now) result steps.old steps.new }
{
    let mut docid = None;
    for cursor in cursors {
        docid = cursor.lesser(docid, steps);
    }
    docid
}

// Goes on past this document in each list.
fn pass(cursors: &mut [Cursor], docid: i64, steps: &mut Steps)
    ensures go { AllSearchOn cursors.old cursors.new
        (map (passed docid) (map lists_left cursors.old)) }
    ensures steps { TakesSteps (length cursors.old) steps.old steps.new }
{
    for cursor in cursors.iter_mut() {
        cursor.pass(docid, steps);
    }
}

// Begins a search where the walk stands.
fn begin(cursors: &mut [Cursor])
    ensures { AllSearchOn cursors.old cursors.new (map lists_kept cursors.old) }
{
    for cursor in cursors.iter_mut() {
        cursor.begin();
    }
}

// The walk now stands where the search is.
fn keep(cursors: &mut [Cursor])
    ensures { map lists_kept cursors.new ≡ map lists_left cursors.old }
{
    for cursor in cursors.iter_mut() {
        cursor.keep();
    }
}

// Goes on past the documents that have one of the query's terms, in their order, up to the first one
// that it accepts: that one, without offsets where they aren't wanted.
fn search_on(
    alloc: Global,
    query: &Query,
    cursors: &mut [Cursor],
    wanted: Wanted,
    steps: &mut Steps,
) -> Result<Option<Hit>, AllocError>
    requires { length cursors.old ≡ length (terms_in (tree_of query.now)) }
    ensures kept { map lists_kept cursors.new ≡ map lists_kept cursors.old }
    ensures finds { IfOk result
        (FindsNext wanted (walk_at query.now cursors.old steps.old.taken)
        (walk_at query.now cursors.new steps.new.taken)) }
    ensures rise { steps.old.taken ≤ steps.new.taken }
{
    let mut joints = Vec::new(alloc);
    while let Some(docid) = least(cursors, steps) {
        let offsets = visit(query, &mut joints, cursors, docid, wanted, steps)?;
        pass(cursors, docid, steps);
        if let Some(offsets) = offsets {
            return Ok(Some(Hit { docid, offsets }));
        }
    }
    Ok(None)
}

#[tactic(auto, using(crate::proofs::Finding::kept_on))]
/// The next hit, without offsets where they aren't wanted. The walk then stands after it, and after
/// an error where it stood: nothing else sets it back.
pub(crate) fn search(
    alloc: Global,
    query: &Query,
    cursors: &mut [Cursor],
    wanted: Wanted,
    steps: &mut Steps,
) -> Result<Option<Hit>, AllocError>
    requires { length cursors.old ≡ length (terms_in (tree_of query.now)) }
    ensures finds { IfOk result
        (FindsNext wanted (stands_at query.now cursors.old steps.old.taken)
        (stands_at query.now cursors.new steps.new.taken)) }
    ensures rise { steps.old.taken ≤ steps.new.taken }
    ensures err { OnErr result (map lists_kept cursors.new ≡ map lists_kept cursors.old) }
{
    begin(cursors);
    let hit = search_on(alloc, query, cursors, wanted, steps)?;
    keep(cursors);
    Ok(hit)
}
