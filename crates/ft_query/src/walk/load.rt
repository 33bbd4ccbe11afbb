//! The lists of a query's terms: each is asked for as often as its term is written, and held once.
ghost use Rattle.std.specs.Prelude.{◌≡◌, ◌≤◌, true, ◌+◌, ◌-◌, ◌^◌, ◌++◌, List, IsTrue, length, map, min, flat_map, IfOk, IfSome, OnOk};
ghost use Rattle.ft_match.specs.Documents.{Document, place_count};
ghost use Rattle.ft_query.specs.Lists.{plain_list};
ghost use Rattle.ft_match.specs.Trees.{plain_term, plain_link, tree_of};
ghost use Rattle.ft_query.specs.Work.{terms_in};
ghost use Rattle.ft_query.specs.Cursors.{lists_kept, listed_for};
ghost use Rattle.ft_query.specs.Loaded.{plain_terms, AreCursorsOf, AsksLists, Loads};
ghost use Rattle.ft_query.specs.Spines.{leaf_tree};

use crate::lists::{DocList, ListFault, Lists};
use crate::walk::cursor::Cursor;
use crate::walk::spine::{Leaf, spine_of};
use ft_match::{Link, Query, QueryTerm};
use std::alloc::{AllocError, Global};

// ---- the terms, in the text's order

// Adds some terms.
fn add_terms<'q>(terms: &'q [QueryTerm], all: &mut Vec<&'q QueryTerm>) -> Result<(), AllocError>
    ensures { OnOk result
        (plain_terms all.new.items ≡ plain_terms all.old.items ++ map plain_term terms.now) }
{
    for term in terms {
        all.push(term)?;
    }
    Ok(())
}

// Adds the terms of some links.
fn add_links<'q>(links: &'q [Link], all: &mut Vec<&'q QueryTerm>) -> Result<(), AllocError>
    ensures { OnOk result (plain_terms all.new.items ≡ plain_terms all.old.items
        ++ flat_map (λ link. link.to.terms) (map plain_link links.now)) }
{
    for link in links {
        add_terms(link.to.terms.as_slice(), all)?;
    }
    Ok(())
}

// Adds the terms of a first operand.
fn add_leaf<'q>(leaf: Leaf<'q>, all: &mut Vec<&'q QueryTerm>) -> Result<(), AllocError>
    ensures { OnOk result (plain_terms all.new.items
        ≡ plain_terms all.old.items ++ terms_in (leaf_tree leaf.entry)) }
{
    match leaf {
        Leaf::Phrase(phrase) => add_terms(phrase.terms.as_slice(), all),
        Leaf::Near(chain) => {
            add_terms(chain.first.terms.as_slice(), all)?;
            add_links(chain.links.as_slice(), all)
        }
    }
}

// Adds the terms of a query.
fn add_query<'q>(
    alloc: Global,
    query: &'q Query,
    all: &mut Vec<&'q QueryTerm>,
) -> Result<(), AllocError>
    ensures { OnOk result (plain_terms all.new.items
        ≡ plain_terms all.old.items ++ terms_in (tree_of query.now)) }
{
    let (leaf, mut joints) = spine_of(alloc, query)?;
    add_leaf(leaf, all)?;
    while let Some(joint) = joints.pop() {
        add_query(alloc, joint.right, all)?;
    }
    Ok(())
}

// ---- their lists

#[tactic(auto, using(crate::proofs::Reaching::one_call))]
// The answer for a term.
fn ask<L: Lists>(alloc: Global, term: &QueryTerm, lists: &mut L) -> Result<Vec<DocList>, ListFault>
    ensures list { IfOk result (λ r. L.is_clean lists.new
        → map plain_list r.items ≡ listed_for (L.documents lists.new) (plain_term term.now)) }
    ensures asks { AsksLists L.Lists lists.old lists.new result }
    ensures becomes { OnOk result (L.becomes lists.old true lists.new) }
    ensures given { IfOk result (λ r. L.given_so_far lists.new
        ≡ min (L.given_so_far lists.old + place_count (map plain_list r.items)) (2 ^ 64 - 1)) }
{
    let list = if term.prefix {
        lists.prefix(alloc, term.text.as_str())?
    } else {
        lists.word(alloc, term.text.as_str())?
    };
    Ok(list)
}

// Whether both terms have one list.
fn are_alike(one: &QueryTerm, other: &QueryTerm) -> bool
    ensures { IsTrue result
        → (documents : List Document) → listed_for documents (plain_term one.now)
        ≡ listed_for documents (plain_term other.now) }
{
    one.prefix == other.prefix && one.text == other.text
}

// Of these cursors, which are those of the first of these terms, one whose list is this term's.
fn held<'c>(terms: &[&QueryTerm], cursors: &'c [Cursor], term: &QueryTerm) -> Option<&'c Cursor>
    requires { length cursors.now ≤ length terms.now }
    ensures { IfSome result (λ c. (documents : List Document)
        → AreCursorsOf documents terms.now cursors.now
        → lists_kept c.now ≡ listed_for documents (plain_term term.now)) }
{
    for (i, cursor) in cursors.iter().enumerate() {
        if are_alike(terms[i], term) {
            return Some(cursor);
        }
    }
    None
}

// A cursor over a term's list: over one that is held, if there is one, or over this answer.
fn cursor_of(
    alloc: Global,
    terms: &[&QueryTerm],
    cursors: &[Cursor],
    term: &QueryTerm,
    answer: Vec<DocList>,
) -> Result<Cursor, AllocError>
    requires { length cursors.now ≤ length terms.now }
    ensures { IfOk result (λ c. (documents : List Document)
        → map plain_list answer.items ≡ listed_for documents (plain_term term.now)
        → AreCursorsOf documents terms.now cursors.now
        → lists_kept c ≡ listed_for documents (plain_term term.now)) }
{
    match held(terms, cursors, term) {
        Some(cursor) => cursor.again(),
        None => Cursor::new(alloc, answer),
    }
}

#[tactic(auto, using(crate::proofs::Reaching::reaches_on))]
// The lists of these terms.
fn load_terms<L: Lists>(
    alloc: Global,
    terms: &[&QueryTerm],
    lists: &mut L,
) -> Result<Vec<Cursor>, ListFault>
    ensures loads { IfOk result
        (Loads L.Lists (plain_terms terms.now) lists.old lists.new) }
    ensures asks { AsksLists L.Lists lists.old lists.new result }
{
    let mut cursors = Vec::new(alloc);
    for term in terms {
        let answer = ask(alloc, term, lists)?;
        let cursor = cursor_of(alloc, terms, cursors.as_slice(), term, answer)?;
        cursors.push(cursor)?;
    }
    Ok(cursors)
}

/// The lists of a query's terms.
pub(crate) fn load<L: Lists>(
    alloc: Global,
    query: &Query,
    lists: &mut L,
) -> Result<Vec<Cursor>, ListFault>
    ensures loads { IfOk result
        (Loads L.Lists (terms_in (tree_of query.now)) lists.old lists.new) }
    ensures asks { AsksLists L.Lists lists.old lists.new result }
{
    let mut terms = Vec::new(alloc);
    add_query(alloc, query, &mut terms)?;
    load_terms(alloc, terms.as_slice(), lists)
}
