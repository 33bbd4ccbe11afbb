//! Documents that are held in memory.
ghost use Rattle.std.specs.Prelude.{◌≡◌, map, IfOk};
ghost use Rattle.ft_documents.specs.Gathered.{shown_document, gathered_row};
ghost use Rattle.ft_content.specs.Content as content;

use ft_content::Value;
use ft_values::CellRow;
use std::alloc::{AllocError, Global};

/// A document: its docid, and a cell for each column.
#[derive(Drop)]
pub struct Document {
    pub docid: i64,
    pub cells: Vec<Value>,
}

/// The documents that rows of cells are of.
pub fn gathered(alloc: Global, rows: Vec<CellRow>) -> Result<Vec<Document>, AllocError>
    ensures { IfOk result (λ documents. map shown_document documents.items
        ≡ content.gathered (map gathered_row rows.items)) }
{
    let mut documents: Vec<Document> = Vec::new(alloc);
    for row in rows {
        let CellRow { docid, value, .. } = row;
        let mut cells = Vec::new(alloc);
        if let Some(last) = documents.pop() {
            if last.docid == docid {
                cells = last.cells;
            } else {
                documents.push(last)?;
            }
        }
        cells.push(value)?;
        documents.push(Document { docid, cells })?;
    }
    Ok(documents)
}
