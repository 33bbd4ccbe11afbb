//! Index rows, as lists of places by document.
ghost use Rattle.std.specs.Prelude.{◌≡◌, map, IfOk, OnOk, IsPermutation, IsSorted};
ghost use Rattle.ft_query.specs.Lists.{plain_list};
ghost use Rattle.ft_rows.specs.Terms.{lists_of_postings};
ghost use Rattle.ft_documents.specs.Placed.{place_of, read_list, list_of, all_in, posting_cmp, AreListsOf};

use ft_query::{DocList, Place};
use ft_rows::{Posting, split_list};
use ft_values::{ListRow, Spot};
use std::alloc::{AllocError, Global};

// ---- rows of one term

// A spot as the walk has it.
fn place_of(spot: &Spot) -> Place
    ensures { result ≡ place_of spot.now }
{
    Place::new(spot.column, spot.pos, spot.place, spot.size)
}

/// The list of each row, in the rows' order. Each row goes as its list is made, so that the next list
/// finds its room free.
pub fn row_lists(alloc: Global, rows: Vec<ListRow>) -> Result<Vec<DocList>, AllocError>
    ensures { IfOk result (λ lists. map plain_list lists.items ≡ map list_of rows.items) }
{
    let mut lists = Vec::with_capacity(alloc, rows.len())?;
    for row in rows {
        let mut places = Vec::with_capacity(alloc, row.spots.len())?;
        places.extend(row.spots.iter().map(|spot| place_of(spot)))?;
        lists.push(DocList::new(row.docid, places))?;
    }
    Ok(lists)
}

// ---- rows of several terms, by document

// The postings of rows, one after another.
fn postings_of(alloc: Global, rows: &[ListRow]) -> Result<Vec<Posting>, AllocError>
    ensures { IfOk result (λ postings. postings.items ≡ all_in (map list_of rows.now)) }
{
    let mut postings = Vec::new(alloc);
    for row in rows {
        let docid = row.docid;
        postings.extend(row.spots.iter().map(|spot| Posting { docid, spot: *spot }))?;
    }
    Ok(postings)
}

#[tactic(auto, using(crate::proofs::AskedLemmas::same_postings))]
// Puts postings in order.
fn put_in_order(postings: &mut Vec<Posting>) -> Result<(), AllocError>
    ensures { IsPermutation postings.old.items postings.new.items
        × OnOk result (IsSorted posting_cmp postings.new.items) }
{
    if !postings.is_sorted() {
        postings.sort()?;
    }
    Ok(())
}

// The lists of postings: those of one document that stand beside each other are one.
fn lists_by_document(alloc: Global, postings: &[Posting]) -> Result<Vec<DocList>, AllocError>
    ensures { IfOk result (λ lists. map plain_list lists.items
        ≡ map read_list (lists_of_postings postings.now)) }
{
    let mut lists = Vec::new(alloc);
    let mut left = postings;
    while let Some((docid, list, rest)) = split_list(left) {
        let places = list.iter().map(|p| place_of(&p.spot)).collect(alloc)?;
        lists.push(DocList::new(docid, places))?;
        left = rest;
    }
    Ok(lists)
}

/// A list for each document of some rows, by rising docid, with its places by column and position.
pub fn doc_lists(alloc: Global, rows: Vec<ListRow>) -> Result<Vec<DocList>, AllocError>
    ensures { IfOk result (λ lists. AreListsOf rows.items (map plain_list lists.items)) }
{
    let mut postings = postings_of(alloc, rows.as_slice())?;
    put_in_order(&mut postings)?;
    lists_by_document(alloc, postings.as_slice())
}
