//! The rewrites that a Delete, an Update and a Rebuild make of documents.
ghost use Rattle.std.specs.Prelude.{◌≡◌, map, IfOk, OnOk};
ghost use Rattle.ft_content.specs.Views.{column_of};
ghost use Rattle.ft_commands.specs.Views.{set_of};
ghost use Rattle.ft_documents.specs.Gathered.{shown_document};
ghost use Rattle.ft_documents.specs.NewDocuments.{new_rewrite};
ghost use Rattle.ft_documents.specs.Rewrite.{shown_rewrite, removal};
ghost use Rattle.ft_documents.specs.Updated.{changing, MovesOnly, MayMove};

use crate::documents::Document;
use crate::rewrite::Rewrite;
use ft_content::{Column, Value, with_values};
use std::alloc::{AllocError, Global};

/// The rewrites that remove documents.
pub fn removals(alloc: Global, documents: Vec<Document>) -> Result<Vec<Rewrite>, AllocError>
    ensures { IfOk result (λ rewrites. map shown_rewrite rewrites.items
        ≡ map removal (map shown_document documents.items)) }
{
    documents
        .into_iter()
        .map(|document| Rewrite::new(document.docid, Some(document.cells), None))
        .collect(alloc)
}

/// The rewrites that make documents.
pub fn additions(alloc: Global, documents: Vec<Document>) -> Result<Vec<Rewrite>, AllocError>
    ensures { IfOk result (λ rewrites. map shown_rewrite rewrites.items
        ≡ map new_rewrite (map shown_document documents.items)) }
{
    documents
        .into_iter()
        .map(|document| Rewrite::new(document.docid, None, Some(document.cells)))
        .collect(alloc)
}

/// The rewrites of chosen documents. A docid is given where one document is chosen at most: that one
/// gets it.
pub fn update_rewrites(
    alloc: Global,
    columns: &[Column],
    sets: &[(String, Value)],
    documents: Vec<Document>,
    given: Option<i64>,
) -> Result<Vec<Rewrite>, AllocError>
    ensures { IfOk result (λ rewrites. MayMove given
        (map (changing (map set_of sets.now) (map column_of columns.now))
        (map shown_document documents.items)) (map shown_rewrite rewrites.items)) }
{
    let mut rewrites = Vec::new(alloc);
    for document in documents {
        let after = with_values(alloc, columns, sets, document.cells.as_slice())?;
        rewrites.push(Rewrite::new(document.docid, Some(document.cells), Some(after)))?;
    }
    if let Some(docid) = given {
        move_only(&mut rewrites, docid)?;
    }
    Ok(rewrites)
}

// Where this is the only rewrite, its document gets this docid.
fn move_only(rewrites: &mut Vec<Rewrite>, docid: i64) -> Result<(), AllocError>
    ensures { OnOk result (MovesOnly docid (map shown_rewrite rewrites.old.items)
        (map shown_rewrite rewrites.new.items)) }
{
    let Some(only) = rewrites.pop() else {
        return Ok(());
    };
    if only.docid == docid {
        rewrites.push(only)?;
    } else {
        let place = usize::from(only.docid < docid);
        rewrites.push(Rewrite::new(only.docid, only.before, None))?;
        rewrites.insert(place, Rewrite::new(docid, None, only.after))?;
    }
    Ok(())
}
