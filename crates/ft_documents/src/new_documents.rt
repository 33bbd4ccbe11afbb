//! The documents that rows of an Insert make.
ghost use Rattle.std.specs.Prelude.{◌≡◌, map, zip, IsTrue};
ghost use Rattle.std.specs.Ordering.{int_cmp};
ghost use Rattle.std.specs.FinMap.Entries.{is_sorted};
ghost use Rattle.ft_content.specs.Content.{Documents};
ghost use Rattle.ft_content.specs.Step.{inserted_rows};
ghost use Rattle.ft_content.specs.Views as views;
ghost use Rattle.ft_content.specs.Views.{column_of};
ghost use Rattle.ft_commands.specs.Views.{cells_of};
ghost use Rattle.ft_documents.specs.Inserted.{AreKnown, MakesDocuments};

use crate::rewrite::Rewrite;
use ft_content::{Column, Fault, Value, docid_for_row, last_docid_after, new_cells, row_docid};
use std::alloc::Global;
use std::collections::BTreeMap;

// New documents by rising docid, and the last docid of a table with them.
#[derive(Drop)]
struct NewDocuments {
    alloc: Global,
    last: Option<i64>,
    documents: BTreeMap<i64, Vec<Value>>,
}

impl NewDocuments {
    ghost use Rattle.std.specs.Prelude.{map, zip, slice_get, IfSome};
    ghost use Rattle.ft_values.specs.Cells.{shown_value};
    ghost use Rattle.ft_content.specs.Content.{Documents};
    ghost use Rattle.ft_content.specs.Step as step;
    ghost use Rattle.ft_content.specs.Views.{column_of};
    ghost use Rattle.ft_documents.specs.NewDocuments.{with_new, AreBeside, Places};

    // Adds the document of a row, whose docid, if it gives one, may be that of a document of the
    // table.
    fn add(
        &mut self,
        columns: &[Column],
        names: &[&str],
        row: &[Value],
        is_stored: bool,
    ) -> Result<(), Fault>
        ensures { (documents : Documents) → AreBeside documents self.old
            → IfSome (slice_get (step.docids_named
            (zip (map (λ n. n.now) names.now) (map shown_value row.now))) 0)
            (λ docid. step.has_docid documents docid ≡ is_stored)
            → Places documents (step.insert_row (with_new self.old documents)
            (step.docids_named (zip (map (λ n. n.now) names.now) (map shown_value row.now)))
            (step.new_cells (zip (map (λ n. n.now) names.now) (map shown_value row.now))
            (map column_of columns.now))) self.new result }
    {
        let given = row_docid(names, row);
        let is_taken = is_stored || given.is_some_and(|docid| self.documents.contains_key(&docid));
        let docid = docid_for_row(self.last, given, is_taken)?;
        let cells = new_cells(self.alloc, columns, names, row)?;
        self.documents.insert(docid, cells)?;
        self.last = Some(last_docid_after(self.last, docid));
        Ok(())
    }
}

/// The rewrites that make the documents of rows in a table with this last docid, or the fault of the
/// first row that fails. At the place of each row stands whether the table has a document with the
/// docid that the row gives.
pub fn made_documents(
    alloc: Global,
    last: Option<i64>,
    columns: &[Column],
    names: &[&str],
    rows: &[Vec<Value>],
    stored: &[bool],
) -> Result<Vec<Rewrite>, Fault>
    ensures { (documents : Documents) → IsTrue (is_sorted int_cmp documents)
        → views.last_docid documents ≡ last
        → AreKnown documents (map (zip (map (λ n. n.now) names.now)) (map cells_of rows.now))
        stored.now
        → MakesDocuments documents (inserted_rows (map column_of columns.now)
        (map (zip (map (λ n. n.now) names.now)) (map cells_of rows.now)) documents) result }
{
    let mut new = NewDocuments {
        alloc,
        last,
        documents: BTreeMap::new(alloc),
    };
    for (place, row) in rows.iter().enumerate() {
        let is_stored = stored.get(place).copied().unwrap_or(false);
        new.add(columns, names, row.as_slice(), is_stored)?;
    }
    let documents = new.documents.into_iter();
    let rewrites = documents.map(|(docid, cells)| Rewrite::new(docid, None, Some(cells)));
    Ok(rewrites.collect(alloc)?)
}
