//! The index of some documents, made from scratch.
ghost use Rattle.std.specs.Prelude.{◌≡◌, IsTrue, IfOk, OnOk};
ghost use Rattle.ft_documents.specs.Placed.{rise};
ghost use Rattle.ft_documents.specs.Terms.{by_docids, lists_of_terms, lists_in_groups, spots_of_docid};

use crate::tokens::{spot_of, text_of};
use ft_content::{Column, Value};
use ft_query::Tokenizer;
use ft_rows::{Posting, TermLists};
use itoa::Buffer;
use std::alloc::{AllocError, Global};
use std::collections::{BTreeMap, HashMap};

/// Postings under their terms, in the order in which they came.
pub(crate) type Terms = HashMap<String, Vec<Posting>>;

/// The sizes of cells under docid and column.
pub(crate) type Sizes = BTreeMap<(i64, i64), i64>;

/// The postings of documents under their terms, and the sizes of their cells. A term is found by
/// its hash, and the terms are sorted once, at the end: there is a step for each posting, and far
/// fewer terms.
#[derive(Drop)]
pub(crate) struct DocumentIndex {
    alloc: Global,
    pub(crate) terms: Terms,
    pub(crate) sizes: Sizes,
}

impl DocumentIndex {
    ghost use Rattle.std.specs.Prelude.{◌≡◌, ◌<◌, ◌^◌, ◌++◌, ◌∷◌, [], map, option_map, unwrap_or, string_bytes, OnOk};
    ghost use Rattle.std.specs.FinMap.Entries.{put, find};
    ghost use Rattle.ft_values.specs.Cells.{shown_value};
    ghost use Rattle.ft_content.specs.Index.{key_cmp};
    ghost use Rattle.ft_content.specs.Views.{column_of};
    ghost use Rattle.ft_commands.specs.Views.{cells_of};
    ghost use Rattle.ft_documents.specs.MadeIndex.{Shows, AddsDocuments, AddsCell, lists_in, sizes_in};
    ghost use Rattle.ft_documents.specs.Rewrite.{document_if};

    /// The index of no document.
    pub(crate) fn new(alloc: Global) -> DocumentIndex
        ensures { Shows result [] [] }
    {
        DocumentIndex {
            alloc,
            terms: HashMap::new(alloc),
            sizes: BTreeMap::new(alloc),
        }
    }

    /// Adds the tokens of a document, if there is one.
    pub(crate) fn add(
        &mut self,
        columns: &[Column],
        docid: i64,
        cells: &Option<Vec<Value>>,
    ) -> Result<(), AllocError>
        ensures { OnOk result (AddsDocuments (map column_of columns.now)
            (document_if docid (option_map cells_of cells.now)) self.old self.new) }
    {
        let Some(cells) = cells else {
            return Ok(());
        };
        let values = cells.as_slice();
        for place in 0..columns.len().min(values.len()) {
            let value = &values[place];
            if columns[place].indexed {
                self.add_cell(docid, place, value)?;
            }
        }
        Ok(())
    }

    // Adds the tokens of a cell that is indexed.
    fn add_cell(&mut self, docid: i64, place: usize, value: &Value) -> Result<(), AllocError>
        requires { place < 2 ^ 63 }
        ensures { OnOk result (AddsCell docid place (shown_value value.now) self.old self.new) }
    {
        let mut buffer = Buffer::new();
        let mut tokenizer = Tokenizer::new(self.alloc, text_of(value, &mut buffer));
        let mut count: usize = 0;
        while let Some(token) = tokenizer.next()? {
            let spot = spot_of(place, &token)?;
            self.add_posting(token.term, Posting { docid, spot })?;
            count += 1;
        }
        if count > 0 {
            self.sizes.insert((docid, place as i64), count as i64)?;
        }
        Ok(())
    }

    // Adds a posting of a term.
    fn add_posting(&mut self, term: String, posting: Posting) -> Result<(), AllocError>
        ensures { OnOk result (Shows self.new (put key_cmp (string_bytes term, posting.docid)
            (unwrap_or (find key_cmp (string_bytes term, posting.docid) (lists_in self.old)) []
            ++ posting.spot ∷ []) (lists_in self.old)) (sizes_in self.old)) }
    {
        if let Some(postings) = self.terms.get_mut(&term) {
            postings.push(posting)?;
            return Ok(());
        }
        let postings = vec![in self.alloc; posting]?;
        self.terms.insert(term, postings)?;
        Ok(())
    }
}

// Puts postings in order by their documents. Those of one document stay as they came.
fn put_in_order(postings: &mut Vec<Posting>) -> Result<(), AllocError>
    ensures { OnOk result (IsTrue (rise by_docids postings.new.items)
        × (spots_of_docid postings.new.items ≡ spots_of_docid postings.old.items)) }
{
    if !postings.is_sorted_by_key(|posting| posting.docid) {
        postings.sort_by_key(|posting| posting.docid)?;
    }
    Ok(())
}

/// The postings of each term, by rising terms and then docids.
pub(crate) fn term_lists(alloc: Global, terms: Terms) -> Result<Vec<TermLists>, AllocError>
    ensures { IfOk result (λ lists. lists_of_terms lists.items ≡ lists_in_groups terms.entries) }
{
    let mut found = Vec::with_capacity(alloc, terms.len())?;
    for (term, mut postings) in terms {
        put_in_order(&mut postings)?;
        found.push(TermLists { term, postings })?;
    }
    found.sort_unstable_by(|one, other| one.term.cmp(&other.term));
    Ok(found)
}
