//! Documents that are written anew, as row changes, and in groups.
ghost use Rattle.std.specs.Prelude.{◌≡◌, ◌++◌, ◌≤◌, ◌-◌, ◌^◌, min, map, option_map, length, string_bytes, All, IsTrue, IfOk, OnOk};
ghost use Rattle.std.specs.Ordering.{int_cmp, int_eq};
ghost use Rattle.std.specs.FinMap.Entries.{find, is_sorted};
ghost use Rattle.ft_values.specs.Cells.{shown_value};
ghost use Rattle.ft_rows.specs.Changes.{shown_change, CanApply};
ghost use Rattle.ft_rows.specs.Store.{column_key_cmp};
ghost use Rattle.ft_content.specs.Index.{key_cmp};
ghost use Rattle.ft_content.specs.Views.{column_of};
ghost use Rattle.ft_commands.specs.Views.{cells_of};
ghost use Rattle.ft_documents.specs.Tables.{IsOfDocids};
ghost use Rattle.ft_documents.specs.Rewrite.{shown_rewrite, rewritten_docids, under_docids, AreRight, FitIfAny, IsSmall};
ghost use Rattle.ft_documents.specs.Rewrite as texts;
ghost use Rattle.ft_documents.specs.Terms.{kept_list, lists_of_term, lists_in_groups};
ghost use Rattle.std.specs.Vec.{vec_items};
ghost use Rattle.std.specs.List.{flat_map};
ghost use Rattle.ft_documents.specs.RewriteRows as rows;

use crate::document_index::{DocumentIndex, Sizes, Terms, term_lists};
use ft_content::{Column, Value};
use ft_rows::{TermLists, split_list};
use ft_values::{RowChange, Spot};
use std::alloc::{AllocError, Global};

/// A document that is written anew: the cells that it had, if it was there, and those that it gets,
/// if it stays.
#[derive(Drop)]
pub struct Rewrite {
    pub docid: i64,
    pub before: Option<Vec<Value>>,
    pub after: Option<Vec<Value>>,
}

impl Rewrite {
    ghost use Rattle.std.specs.Prelude.{◌≡◌};

    pub(crate) fn new(docid: i64, old: Option<Vec<Value>>, new: Option<Vec<Value>>) -> Rewrite
        ensures { result ≡ record { docid = docid; before = old; after = new } }
    {
        Rewrite {
            docid,
            before: old,
            after: new,
        }
    }
}

/// The row changes that follow from documents which are written anew.
pub fn row_changes(
    alloc: Global,
    tab: i64,
    columns: &[Column],
    rewrites: Vec<Rewrite>,
) -> Result<Vec<RowChange>, AllocError>
    ensures plan { IfOk result (λ changes. map shown_change changes.items ≡ rows.rewrite_changes
        tab (map column_of columns.now) (map shown_rewrite rewrites.items)) }
    ensures right { IfOk result (λ changes. AreRight tab (map column_of columns.now)
        (map shown_rewrite rewrites.items) (map shown_change changes.items)) }
    ensures packable { IfOk result (λ changes. length columns.now ≤ 100
        → IsTrue (is_sorted int_cmp (under_docids (map shown_rewrite rewrites.items)))
        → All (FitIfAny (length columns.now)) (map shown_rewrite rewrites.items)
        → All CanApply changes.items) }
    ensures near { IfOk result (λ changes. All
        (IsOfDocids tab (rewritten_docids (map shown_rewrite rewrites.items)))
        (map shown_change changes.items)) }
{
    let mut changes = Vec::new(alloc);
    let mut old = DocumentIndex::new(alloc);
    let mut new = DocumentIndex::new(alloc);
    for rewrite in rewrites.as_slice() {
        old.add(columns, rewrite.docid, &rewrite.before)?;
        new.add(columns, rewrite.docid, &rewrite.after)?;
        if rewrite.before.is_some() && rewrite.after.is_none() {
            changes.push(RowChange::DropCells(tab, rewrite.docid))?;
        }
    }
    put_documents(alloc, &mut changes, tab, rewrites)?;
    let before = posting_lists(alloc, old.terms)?;
    let after = posting_lists(alloc, new.terms)?;
    drop_lists(&mut changes, tab, before.as_slice(), after.as_slice())?;
    put_lists(&mut changes, tab, before.as_slice(), after)?;
    drop_sizes(&mut changes, tab, &old.sizes, &new.sizes)?;
    put_sizes(&mut changes, tab, &old.sizes, &new.sizes)?;
    Ok(changes)
}

// Puts the cells that are new or differ. They are moved into the changes.
fn put_documents(
    alloc: Global,
    changes: &mut Vec<RowChange>,
    tab: i64,
    rewrites: Vec<Rewrite>,
) -> Result<(), AllocError>
    ensures { OnOk result (map shown_change changes.new.items
        ≡ map shown_change changes.old.items ++ rows.put_documents tab
        (map shown_rewrite rewrites.items)) }
{
    for rewrite in rewrites {
        let before = rewrite.before.unwrap_or(Vec::new(alloc));
        let after = rewrite.after.unwrap_or(Vec::new(alloc));
        put_cells(changes, tab, rewrite.docid, before.as_slice(), after)?;
    }
    Ok(())
}

// Puts the cells of one document that are new or differ.
fn put_cells(
    changes: &mut Vec<RowChange>,
    tab: i64,
    docid: i64,
    before: &[Value],
    after: Vec<Value>,
) -> Result<(), AllocError>
    ensures { OnOk result (map shown_change changes.new.items
        ≡ map shown_change changes.old.items ++ rows.put_cells tab docid
        (map shown_value before.now) (map shown_value after.items)) }
{
    for (place, value) in after.into_iter().enumerate() {
        if before.get(place) != Some(&value) {
            changes.push(RowChange::PutCell(tab, docid, place as i64, value))?;
        }
    }
    Ok(())
}

// ---- from one index of documents to another

// A posting list under its term and docid.
type List = ((String, i64), Vec<Spot>);

// Row changes that are made.
type Changes = Vec<RowChange>;

// The posting lists of terms, by rising terms and then docids.
fn posting_lists(alloc: Global, terms: Terms) -> Result<Vec<List>, AllocError>
    ensures { IfOk result (λ lists. map kept_list lists.items ≡ lists_in_groups terms.entries) }
{
    let mut lists = Vec::new(alloc);
    for term in term_lists(alloc, terms)? {
        add_lists(alloc, &mut lists, &term)?;
    }
    Ok(lists)
}

// Adds the posting lists of a term.
fn add_lists(alloc: Global, lists: &mut Vec<List>, term: &TermLists) -> Result<(), AllocError>
    ensures { OnOk result (map kept_list lists.new.items ≡ map kept_list lists.old.items
        ++ lists_of_term (string_bytes term.now.term) term.now.postings.items) }
{
    let mut left = term.postings.as_slice();
    while let Some((docid, list, rest)) = split_list(left) {
        let spots = list.iter().map(|posting| posting.spot).collect(alloc)?;
        lists.push(((term.term.clone()?, docid), spots))?;
        left = rest;
    }
    Ok(())
}

// Whether exactly this list is among those of an index.
fn has_list(lists: &[List], list: &List) -> bool
    requires { IsTrue (is_sorted key_cmp (map kept_list lists.now)) }
    ensures { result ≡ rows.was_there rows.same_spots (find key_cmp (kept_list list.now).0
        (map kept_list lists.now)) (kept_list list.now).1 }
{
    match lists.binary_search_by(|other| other.0.cmp(&list.0)) {
        Ok(place) => lists[place].1 == list.1,
        Err(_) => false,
    }
}

// Drops the lists that the new ones have not, or have otherwise.
fn drop_lists(changes: &mut Changes, tab: i64, old: &[List], new: &[List]) -> Result<(), AllocError>
    requires { IsTrue (is_sorted key_cmp (map kept_list new.now)) }
    ensures { OnOk result (map shown_change changes.new.items
        ≡ map shown_change changes.old.items ++ rows.dropped_lists tab
        (rows.changed key_cmp rows.same_spots (map kept_list new.now)
        (map kept_list old.now))) }
{
    for list in old {
        if !has_list(new, list) {
            changes.push(RowChange::DropEntries(tab, list.0.0.clone()?, list.0.1))?;
        }
    }
    Ok(())
}

// Puts the lists that are new or differ. They are moved into the changes.
fn put_lists(
    changes: &mut Changes,
    tab: i64,
    old: &[List],
    new: Vec<List>,
) -> Result<(), AllocError>
    requires { IsTrue (is_sorted key_cmp (map kept_list old.now)) }
    ensures { OnOk result (map shown_change changes.new.items
        ≡ map shown_change changes.old.items ++ rows.put_lists tab
        (rows.changed key_cmp rows.same_spots (map kept_list old.now)
        (map kept_list new.items))) }
{
    for list in new {
        if !has_list(old, &list) {
            let ((term, docid), spots) = list;
            changes.push(RowChange::PutEntries(tab, term, docid, spots))?;
        }
    }
    Ok(())
}

// Drops the sizes that the new ones have not.
fn drop_sizes(changes: &mut Changes, tab: i64, old: &Sizes, new: &Sizes) -> Result<(), AllocError>
    ensures { OnOk result (map shown_change changes.new.items
        ≡ map shown_change changes.old.items ++ rows.dropped_sizes tab
        (rows.gone column_key_cmp old.now.entries new.now.entries)) }
{
    let gone = old.iter().filter(|&(key, _n)| !new.contains_key(key));
    changes.extend(gone.map(|(key, _n)| RowChange::DropSize(tab, key.0, key.1)))
}

// Puts the sizes that are new or differ.
fn put_sizes(changes: &mut Changes, tab: i64, old: &Sizes, new: &Sizes) -> Result<(), AllocError>
    ensures { OnOk result (map shown_change changes.new.items
        ≡ map shown_change changes.old.items ++ rows.put_sizes tab
        (rows.changed column_key_cmp int_eq old.now.entries new.now.entries)) }
{
    let changed = new.iter().filter(|&(key, n)| old.get(key) != Some(n));
    changes.extend(changed.map(|(key, n)| RowChange::PutSize(tab, key.0, key.1, *n)))?;
    Ok(())
}

// ---- in groups

/// With so many bytes of text a group is full.
const GROUP_BYTES: usize = 524_288;

/// Documents that are written anew in groups, in their order. A group ends with the document that
/// fills it, so that the row changes of a group take few megabytes, however many documents there
/// are.
pub fn in_groups(alloc: Global, rewrites: Vec<Rewrite>) -> Result<Vec<Vec<Rewrite>>, AllocError>
    ensures whole { IfOk result (λ groups. flat_map vec_items groups.items ≡ rewrites.items) }
    ensures small { IfOk result (λ groups. All (λ group. IsSmall (map shown_rewrite group.items))
        groups.items) }
{
    let mut groups = Vec::new(alloc);
    let mut group = Vec::new(alloc);
    let mut bytes: usize = 0;
    for rewrite in rewrites {
        bytes = bytes.saturating_add(text_bytes(&rewrite.before));
        bytes = bytes.saturating_add(text_bytes(&rewrite.after));
        group.push(rewrite)?;
        if bytes >= GROUP_BYTES {
            groups.push(group)?;
            group = Vec::new(alloc);
            bytes = 0;
        }
    }
    groups.push(group)?;
    Ok(groups)
}

// How many bytes of text a document has, none where there is none.
fn text_bytes(cells: &Option<Vec<Value>>) -> usize
    ensures { result ≡ min (texts.text_bytes (option_map cells_of cells.now)) (2 ^ 64 - 1) }
{
    let mut bytes: usize = 0;
    for cell in cells.as_deref().unwrap_or(&[]) {
        if let Value::Text(text) = cell {
            bytes = bytes.saturating_add(text.len());
        }
    }
    bytes
}
