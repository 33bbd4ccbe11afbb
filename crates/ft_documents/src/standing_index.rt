//! The index rows of a table, made from scratch out of its cells.
ghost use Rattle.std.specs.Prelude.{◌≡◌, ◌↔◌, map, IsTrue, IfOk};
ghost use Rattle.ft_content.specs.Content.{Content};
ghost use Rattle.ft_content.specs.Views.{column_of};
ghost use Rattle.ft_documents.specs.Standing as standing;

use crate::document_index::{DocumentIndex, Sizes, term_lists};
use crate::documents::gathered;
use ft_content::Column;
use ft_rows::TermLists;
use ft_values::{CellRow, SizeRow};
use std::alloc::{AllocError, Global};

// Whether these are the sizes of an index.
fn are_sizes(sizes: &Sizes, rows: &[SizeRow]) -> bool
    ensures { IsTrue result ↔ (map standing.size_under_key rows.now ≡ sizes.now.entries) }
{
    let own = rows.iter().map(|row| ((row.docid, row.column), row.n));
    let mut pairs = own.zip(sizes.iter());
    rows.len() == sizes.len() && pairs.all(|(size, (key, n))| size == (*key, *n))
}

/// The postings of a content that has these cells, made from scratch, by their terms; none where
/// these aren't the sizes of its cells.
pub fn index_lists(
    alloc: Global,
    columns: &[Column],
    cells: Vec<CellRow>,
    sizes: &[SizeRow],
) -> Result<Option<Vec<TermLists>>, AllocError>
    ensures { (content : Content)
        → standing.HaveContent (map column_of columns.now) (map standing.shown_row cells.items)
        content
        → IfOk result (standing.AreTheirs content (map standing.size_under_key sizes.now)) }
{
    let mut index = DocumentIndex::new(alloc);
    for document in gathered(alloc, cells)? {
        index.add(columns, document.docid, &Some(document.cells))?;
    }
    if !are_sizes(&index.sizes, sizes) {
        return Ok(None);
    }
    Ok(Some(term_lists(alloc, index.terms)?))
}
