//! The evaluation of a query in one document.
ghost use Rattle.std.specs.Prelude.{◌≡◌, ◌≤◌, ◌<◌, ◌+◌, ◌-◌, ◌*◌, ◌^◌, [], if◌then◌else◌, length, take, drop, map, flat_map, vec_len, option_map, sum_by, List, AllPairs, Some, None, IfOk, OnOk, OnErr};
ghost use Rattle.std.specs.List.Sorted.{IsPermutation, IsSortedBy};
ghost use Rattle.ft_query.specs.Cursors.{lists_left, places_at};
ghost use Rattle.ft_match.specs.Documents.{Posting, IsBefore, is_filled};
ghost use Rattle.ft_match.specs.Occurs.{accepts, offsets_of};
ghost use Rattle.ft_match.specs.Trees.{plain_term, plain_phrase, plain_link, tree_of, phrase, chain};
ghost use Rattle.ft_query.specs.Marked.{chain_tree, own_lists, lists_after, AreNumbered, HaveLists, IsEmpty, AreLinked, Marks, Evaluates, Joins};
ghost use Rattle.ft_query.specs.Spines.{leaf_tree};
ghost use Rattle.ft_query.specs.Taken.{more_steps, TakesSteps, TakesAtMost, TakesOf, LooksForAll};
ghost use Rattle.ft_query.specs.Work.{terms_in, node_count, width};
ghost use Rattle.ft_query.specs.Visit.{followed, last_phrase, if_wanted, starts_of, marks_from, linked, link_marks, plain_starts, plain_lists, listed_places, precedes, places_in, total, linked_cost, link_cost, visit_cost};

use crate::lists::{Gap, Place};
use crate::walk::Steps;
use crate::walk::cursor::Cursor;
use crate::walk::joint::Joint;
use crate::walk::spine::{Leaf, add_spine, chain_count, term_count};
use crate::walk::starts::{are_filled, begin, followed, mark, near_those};
use ft_match::{By, Chain, Link, Offset, Phrase, Query, QueryTerm};
use smallvec::SmallVec;
use std::alloc::{AllocError, Global};

// Of these occurrences of a phrase's first term the ones that its other terms follow, which have
// these lists.
fn follow(
    alloc: Global,
    first: Vec<Place>,
    terms: &[QueryTerm],
    lists: &[&[Place]],
    steps: &mut Steps,
) -> Result<Vec<Place>, AllocError>
    requires { length lists.now ≡ length terms.now }
    ensures starts { IfOk result (λ s. s.items
        ≡ followed 1 (map plain_term terms.now) (plain_lists lists.now) first.items) }
    ensures steps { TakesAtMost (length first.items + 2 * total (plain_lists lists.now))
        steps.old steps.new }
{
    let mut starts = first;
    for (i, term) in terms.iter().enumerate() {
        starts = followed(alloc, &starts, i + 1, term, lists[i], steps)?;
    }
    Ok(starts)
}

#[tactic(auto, using(crate::proofs::Passes::filter_short))]
// The occurrences of a phrase.
fn starts_of(
    alloc: Global,
    phrase: &Phrase,
    lists: &[&[Place]],
    steps: &mut Steps,
) -> Result<Vec<Place>, AllocError>
    requires { length lists.now ≡ vec_len phrase.now.terms }
    ensures starts { IfOk result (λ s. s.items
        ≡ starts_of (plain_phrase phrase.now) (plain_lists lists.now)) }
    ensures steps { TakesAtMost (2 * total (plain_lists lists.now)) steps.old steps.new }
{
    let Some((term, terms)) = phrase.terms.split_first() else {
        return Ok(Vec::new(alloc));
    };
    let Some((list, lists)) = lists.split_first() else {
        return Ok(Vec::new(alloc));
    };
    let first = begin(alloc, list, phrase.filter, term.first, steps)?;
    follow(alloc, first, terms, lists, steps)
}

#[tactic(auto, using(crate::proofs::Passes::all_may_begin))]
// Whether a phrase occurs. A single word does so where its list has a place, and no position is
// looked at, unless it has to stand in one column or at the front.
fn occurs(
    alloc: Global,
    phrase: &Phrase,
    lists: &[&[Place]],
    steps: &mut Steps,
) -> Result<bool, AllocError>
    requires { length lists.now ≡ vec_len phrase.now.terms }
    ensures occurs { IfOk result
        (λ b. b ≡ is_filled (starts_of (plain_phrase phrase.now) (plain_lists lists.now))) }
    ensures steps { TakesAtMost (2 * total (plain_lists lists.now)) steps.old steps.new }
{
    if let ([term], [list]) = (phrase.terms.as_slice(), lists) {
        if phrase.filter.is_none() && !term.first {
            return Ok(are_filled(list));
        }
    }
    let starts = starts_of(alloc, phrase, lists, steps)?;
    Ok(are_filled(&starts))
}

/// What is asked of a document that is accepted: its docid alone, or also its offsets.
#[derive(Clone, Copy, Debug, PartialEq, Eq)]
pub(crate) enum Wanted {
    Docids,
    Offsets,
}

// What is asked, the offsets so far, the number of the next term, and where memory comes from.
// Where docids alone are asked for no offsets are added.
#[derive(Drop)]
struct Found {
    alloc: Global,
    wanted: Wanted,
    offsets: Vec<Offset>,
    next: usize,
}

// No offsets so far.
fn no_offsets(alloc: Global, wanted: Wanted) -> Found
    ensures { IsEmpty result wanted }
{
    Found {
        alloc,
        wanted,
        offsets: Vec::new(alloc),
        next: 0,
    }
}

// Adds the offsets of a phrase's terms, which have these lists, in its occurrences.
fn mark_phrase(
    found: &mut Found,
    starts: &[Place],
    lists: &[&[Place]],
    steps: &mut Steps,
) -> Result<(), AllocError>
    requires { found.old.next + length lists.now < 2 ^ 64 }
    ensures marks { Marks result found.old found.new
        (marks_from 0 (plain_lists lists.now) starts.now) (length lists.now) }
    ensures steps { TakesAtMost
        (total (plain_lists lists.now) + length lists.now * length starts.now)
        steps.old steps.new }
{
    for (i, list) in lists.iter().enumerate() {
        mark(&mut found.offsets, found.next, starts, i, list, steps)?;
        found.next += 1;
    }
    Ok(())
}

// The last phrase of a chain.
fn last_phrase<'q>(first: &'q Phrase, links: &'q [Link]) -> &'q Phrase
    ensures { result.now ≡ last_phrase first.now links.now }
{
    match links.split_last() {
        Some((link, _)) => &link.to,
        None => first,
    }
}

// For each phrase of a chain its occurrences that are near one of the next phrase's here: those of
// the first phrase, and from the last one back those of the others. It goes back by a loop, since a
// text can join more than a thousand phrases by NEAR.
fn linked(
    alloc: Global,
    near: &Chain,
    lists: &[&[Place]],
    steps: &mut Steps,
) -> Result<(Vec<Place>, Vec<Vec<Place>>), AllocError>
    requires { length lists.now ≡ length (terms_in (chain_tree near.now)) }
    ensures starts { IfOk result (λ r. AreLinked r.0 r.1.items (linked
        (plain_phrase near.now.first) (map plain_link near.now.links.items)
        (plain_lists lists.now))) }
    ensures steps { TakesAtMost (linked_cost (plain_phrase near.now.first)
        (map plain_link near.now.links.items) (plain_lists lists.now)) steps.old steps.new }
{
    let mut left = near.links.as_slice();
    let last = last_phrase(&near.first, left);
    let (mut front, own) = lists.split_at(lists.len() - last.terms.len());
    let mut next = starts_of(alloc, last, own, steps)?;
    let mut rest = Vec::new(alloc);
    while let Some((link, before)) = left.split_last() {
        let phrase = last_phrase(&near.first, before);
        let size = phrase.terms.len();
        let (ahead, own) = front.split_at(front.len() - size);
        let starts = starts_of(alloc, phrase, own, steps)?;
        let k = link.to.terms.len();
        let most = link.most;
        let gap = Gap { k, m: size, most };
        let kept = near_those(alloc, gap, &next, &starts, steps)?;
        rest.push(next)?;
        next = kept;
        left = before;
        front = ahead;
    }
    Ok((next, rest))
}

// Adds the offsets of a chain's phrases after the first one, which has these occurrences: for each
// phrase those that are near one of the phrase before and one of the next phrase's.
fn mark_links(
    found: &mut Found,
    near: &Chain,
    starts: &[Place],
    lists: &[&[Place]],
    all: &[Vec<Place>],
    steps: &mut Steps,
) -> Result<(), AllocError>
    requires lists { AreNumbered found.old
        (flat_map (λ l. l.to.terms) (map plain_link near.now.links.items)) lists.now }
    requires all { length all.now ≡ length near.now.links.items }
    ensures marks { Marks result found.old found.new
        (link_marks (length near.now.first.terms.items) starts.now
        (map plain_link near.now.links.items) (plain_lists lists.now) (plain_starts all.now))
        (length lists.now) }
    ensures steps { TakesAtMost
        (link_cost (length near.now.first.terms.items) starts.now
        (map plain_link near.now.links.items) (plain_lists lists.now) (plain_starts all.now))
        steps.old steps.new }
{
    let mut k = near.first.terms.len();
    let mut at = 0;
    let mut kept: Option<Vec<Place>> = None;
    for (i, link) in near.links.iter().enumerate() {
        let size = link.to.terms.len();
        let own = &lists[at..at + size];
        let starts = kept.as_deref().unwrap_or(starts);
        let most = link.most;
        let gap = Gap { k, m: size, most };
        let next = near_those(found.alloc, gap, starts, &all[i], steps)?;
        mark_phrase(found, &next, own, steps)?;
        k = size;
        at += size;
        kept = Some(next);
    }
    Ok(())
}

#[tactic(auto, using(crate::proofs::Passes::phrase_marks_count))]
// Adds the offsets of a phrase, if they are wanted, and says whether it occurs.
fn visit_phrase(
    words: &Phrase,
    lists: &[&[Place]],
    found: &mut Found,
    steps: &mut Steps,
) -> Result<bool, AllocError>
    requires { AreNumbered found.old (terms_in (phrase (plain_phrase words.now))) lists.now }
    ensures evaluates { Evaluates result found.old found.new (phrase (plain_phrase words.now))
        lists.now }
    ensures steps { TakesOf
        (visit_cost (phrase (plain_phrase words.now)) (plain_lists lists.now)) 1
        steps.old steps.new }
{
    match found.wanted {
        Wanted::Docids => occurs(found.alloc, words, lists, steps),
        Wanted::Offsets => {
            let starts = starts_of(found.alloc, words, lists, steps)?;
            mark_phrase(found, &starts, lists, steps)?;
            Ok(are_filled(&starts))
        }
    }
}

#[tactic(auto, using(crate::proofs::Passes::chain_marks_count))]
// Adds the offsets of a chain, if they are wanted, and says whether its phrases occur near one
// another.
fn visit_chain(
    near: &Chain,
    lists: &[&[Place]],
    found: &mut Found,
    steps: &mut Steps,
) -> Result<bool, AllocError>
    requires { AreNumbered found.old (terms_in (chain_tree near.now)) lists.now }
    ensures evaluates { Evaluates result found.old found.new (chain_tree near.now) lists.now }
    ensures steps { TakesOf (visit_cost (chain_tree near.now) (plain_lists lists.now))
        (node_count (chain_tree near.now)) steps.old steps.new }
{
    let (starts, mut all) = linked(found.alloc, near, lists, steps)?;
    match found.wanted {
        Wanted::Docids => Ok(are_filled(&starts)),
        Wanted::Offsets => {
            all.reverse();
            let size = near.first.terms.len();
            let (own, lists) = lists.split_at(size);
            mark_phrase(found, &starts, own, steps)?;
            mark_links(found, near, &starts, lists, &all, steps)?;
            Ok(are_filled(&starts))
        }
    }
}

// The first so many of these lists, which are taken off.
fn take_lists<'l, 'p>(lists: &mut &'l [&'p [Place]], count: usize) -> &'l [&'p [Place]]
    requires { count ≤ length lists.old.now }
    ensures taken { result.now ≡ take count lists.old.now }
    ensures left { lists.new.now ≡ drop count lists.old.now }
{
    let all: &'l [&'p [Place]] = *lists;
    *lists = &all[count..];
    &all[..count]
}

// Adds the offsets of a first operand, if they are wanted, and says whether it accepts the
// document. Its lists are taken off, and each of its phrases is a step.
fn visit_leaf(
    leaf: Leaf<'_>,
    lists: &mut &[&[Place]],
    found: &mut Found,
    steps: &mut Steps,
) -> Result<bool, AllocError>
    requires { HaveLists found.old (terms_in (leaf_tree leaf)) lists.old.now }
    ensures evaluates { Evaluates result found.old found.new (leaf_tree leaf.entry)
        (own_lists (leaf_tree leaf.entry) lists.old.now) }
    ensures left { lists.new.now ≡ lists_after (leaf_tree leaf.entry) lists.old.now }
    ensures steps { TakesAtMost (visit_cost (leaf_tree leaf.entry)
        (plain_lists (own_lists (leaf_tree leaf.entry) lists.old.now))) steps.old steps.new }
    ensures nodes { OnOk result (more_steps (node_count (leaf_tree leaf.entry)) steps.old
        ≤ steps.new.taken) }
{
    steps.take();
    match leaf {
        Leaf::Phrase(phrase) => {
            let own = take_lists(lists, phrase.terms.len());
            visit_phrase(phrase, own, found, steps)
        }
        Leaf::Near(near) => {
            let count = chain_count(near, steps);
            let own = take_lists(lists, count);
            visit_chain(near, own, found, steps)
        }
    }
}

#[cycle(visit_part)]
// Adds the offsets of a right side, if they are wanted, and says whether it and its left one accept
// the document, where `accepted` is what the left one answers. Nothing is added right of a NOT,
// which is evaluated only where its left side accepts. Its lists are taken off.
fn visit_joint<'q>(
    joint: Joint<'q>,
    accepted: bool,
    joints: &mut Vec<Joint<'q>>,
    lists: &mut &[&[Place]],
    found: &mut Found,
    steps: &mut Steps,
) -> Result<bool, AllocError>
    requires { HaveLists found.old (terms_in (tree_of joint.right.now)) lists.old.now }
    ensures joins { Joins joint.entry.by accepted result found.old found.new
        (tree_of joint.entry.right.now)
        (own_lists (tree_of joint.entry.right.now) lists.old.now) }
    ensures left { OnOk result
        (lists.new.now ≡ lists_after (tree_of joint.entry.right.now) lists.old.now) }
    ensures steps { TakesAtMost (1 + visit_cost (tree_of joint.entry.right.now)
        (plain_lists (own_lists (tree_of joint.entry.right.now) lists.old.now)))
        steps.old steps.new }
    ensures nodes { OnOk result (more_steps (1 + node_count (tree_of joint.entry.right.now))
        steps.old ≤ steps.new.taken) }
    ensures joints { OnOk result (joints.new.items ≡ joints.old.items) }
{
    match joint.visit(steps) {
        By::And => {
            let is_right = visit_part(joint.right, joints, lists, found, steps)?;
            Ok(accepted && is_right)
        }
        By::Or => {
            let is_right = visit_part(joint.right, joints, lists, found, steps)?;
            Ok(accepted || is_right)
        }
        By::Not => {
            if !accepted {
                let count = term_count(joint.right, steps);
                take_lists(lists, count);
                return Ok(false);
            }
            let mut unmarked = no_offsets(found.alloc, Wanted::Docids);
            let is_right = visit_part(joint.right, joints, lists, &mut unmarked, steps)?;
            Ok(!is_right)
        }
    }
}

#[cycle(visit_part)]
// Adds the offsets of a query or of a part of one, if they are wanted, and says whether it accepts
// the document. It goes up from the first operand, since a text can join thousands of phrases. Its
// lists are taken off, and each of its nodes is visited once. The joints that wait stand behind those
// of the parts around it, so that no part needs memory of its own.
fn visit_part<'q>(
    query: &'q Query,
    joints: &mut Vec<Joint<'q>>,
    lists: &mut &[&[Place]],
    found: &mut Found,
    steps: &mut Steps,
) -> Result<bool, AllocError>
    requires { HaveLists found.old (terms_in (tree_of query.now)) lists.old.now }
    ensures evaluates { Evaluates result found.old found.new (tree_of query.now)
        (own_lists (tree_of query.now) lists.old.now) }
    ensures left { OnOk result
        (lists.new.now ≡ lists_after (tree_of query.now) lists.old.now) }
    ensures steps { TakesAtMost (visit_cost (tree_of query.now)
        (plain_lists (own_lists (tree_of query.now) lists.old.now))) steps.old steps.new }
    ensures nodes { OnOk result (more_steps (node_count (tree_of query.now)) steps.old
        ≤ steps.new.taken) }
    ensures joints { OnOk result (joints.new.items ≡ joints.old.items) }
{
    let around = joints.len();
    let leaf = add_spine(query, joints)?;
    let mut accepted = visit_leaf(leaf, lists, found, steps)?;
    while joints.len() > around {
        let Some(joint) = joints.pop() else {
            unreachable!();
        };
        accepted = visit_joint(joint, accepted, joints, lists, found, steps)?;
    }
    Ok(accepted)
}

// By column, then by place, then by term number.
fn sort_offsets(offsets: &mut Vec<Offset>)
    ensures permutation { IsPermutation offsets.old.items offsets.new.items }
    ensures sorted { IsSortedBy precedes offsets.new.items }
{
    offsets.sort_unstable_by_key(|offset| (offset.column, offset.place, offset.term));
}

impl Cursor {
    // The places in this document, if it is the next one here.
    fn places(&self, docid: i64, steps: &mut Steps) -> &[Place]
        ensures places { result.now ≡ places_at docid (lists_left self.now) }
        ensures step { TakesSteps 1 steps.old steps.new }
    {
        if self.is_at(docid, steps) {
            self.here()
        } else {
            &[]
        }
    }
}

// The places of each term in this document. Those of few terms take no memory of their own.
fn lists_of<'a>(
    alloc: Global,
    cursors: &'a [Cursor],
    docid: i64,
    steps: &mut Steps,
) -> Result<SmallVec<&'a [Place], 4>, AllocError>
    ensures lists { IfOk result (λ v. plain_lists v.items ≡ places_in docid cursors.now) }
    ensures steps { LooksForAll (length cursors.now) result steps.old steps.new }
{
    let mut lists = SmallVec::new(alloc);
    for cursor in cursors {
        lists.push(cursor.places(docid, steps))?;
    }
    Ok(lists)
}

/// The offsets of a document, if the query accepts it: none where they aren't wanted. The cursors
/// are those of the query's terms, in the text's order. The joints are room that the documents of a
/// search share.
pub(crate) fn visit<'q>(
    query: &'q Query,
    joints: &mut Vec<Joint<'q>>,
    cursors: &[Cursor],
    docid: i64,
    wanted: Wanted,
    steps: &mut Steps,
) -> Result<Option<Vec<Offset>>, AllocError>
    requires { length cursors.now ≡ length (terms_in (tree_of query.now)) }
    ensures offsets { IfOk result (λ offsets. (postings : List Posting) → AllPairs IsBefore postings
        → map (λ c. places_at docid (lists_left c)) cursors.now
        ≡ map (listed_places postings) (terms_in (tree_of query.now))
        → option_map (λ o. o.items) offsets ≡ (if accepts postings (tree_of query.now) then Some
        (if_wanted wanted (offsets_of postings (tree_of query.now))) else None)) }
    ensures steps { TakesAtMost
        (12 * (sum_by (λ c. length (places_at docid (lists_left c))) cursors.now)
        + 3 * width (tree_of query.now)) steps.old steps.new }
    ensures nodes { OnOk result (more_steps
        (length cursors.now + node_count (tree_of query.now)) steps.old ≤ steps.new.taken) }
{
    let alloc = *joints.allocator();
    let lists = lists_of(alloc, cursors, docid, steps)?;
    let mut left = lists.as_slice();
    let mut found = no_offsets(alloc, wanted);
    if !visit_part(query, joints, &mut left, &mut found, steps)? {
        return Ok(None);
    }
    let mut offsets = found.offsets;
    sort_offsets(&mut offsets);
    Ok(Some(offsets))
}
