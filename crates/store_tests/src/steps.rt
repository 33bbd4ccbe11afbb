//! Changes of a store, and calls that make them.

use ft_store::{RowChange, Spot, Store, StoreFault, Value};
use sqlite::Alter;
use std::alloc::{AllocError, Global};

/// A change of the table 1, `d`, of one column `x`. What is copied has no way out of a function to
/// be followed.
#[derive(Clone, Copy)]
pub(crate) enum Step {
    MakeTable,
    DropTable,
    ClearIndex,
    PutText(i64, &'static str),
    PutNull(i64),
    DropCells(i64),
    /// A term at the first place of a document, with a size in bytes.
    PutTerm(&'static str, i64, u32),
    DropTerm(&'static str, i64),
    PutSize(i64, i64),
    DropSize(i64),
    Note(&'static str),
}

fn change_of(alloc: Global, step: Step) -> Result<RowChange, AllocError> {
    match step {
        Step::MakeTable => table_d(alloc),
        Step::DropTable => Ok(RowChange::DropTable(1)),
        Step::ClearIndex => Ok(RowChange::ClearIndex(1)),
        Step::PutText(docid, words) => {
            let text = Value::Text(String::from_str(alloc, words)?);
            Ok(RowChange::PutCell(1, docid, 0, text))
        }
        Step::PutNull(docid) => Ok(RowChange::PutCell(1, docid, 0, Value::Null)),
        Step::DropCells(docid) => Ok(RowChange::DropCells(1, docid)),
        Step::PutTerm(term, docid, size) => put_term(alloc, term, docid, size),
        Step::DropTerm(term, docid) => {
            Ok(RowChange::DropEntries(1, String::from_str(alloc, term)?, docid))
        }
        Step::PutSize(docid, count) => Ok(RowChange::PutSize(1, docid, 0, count)),
        Step::DropSize(docid) => Ok(RowChange::DropSize(1, docid, 0)),
        Step::Note(name) => Ok(RowChange::Note(String::from_str(alloc, name)?)),
    }
}

fn table_d(alloc: Global) -> Result<RowChange, AllocError> {
    let mut columns = Vec::new(alloc);
    columns.push(String::from_str(alloc, "x")?)?;
    let name = String::from_str(alloc, "d")?;
    Ok(RowChange::AddTable(1, name, columns, Vec::new(alloc)))
}

fn put_term(alloc: Global, term: &str, docid: i64, size: u32) -> Result<RowChange, AllocError> {
    let mut spots = Vec::new(alloc);
    spots.push(Spot {
        column: 0,
        pos: 0,
        place: 0,
        size,
    })?;
    Ok(RowChange::PutEntries(1, String::from_str(alloc, term)?, docid, spots))
}

fn changes_of(alloc: Global, steps: &[Step]) -> Result<Vec<RowChange>, AllocError> {
    let mut changes = Vec::new(alloc);
    for step in steps {
        changes.push(change_of(alloc, *step)?)?;
    }
    Ok(changes)
}

/// Steps, all by one call.
pub(crate) fn change_once<S: Alter>(
    store: &mut Store<S>,
    alloc: Global,
    steps: &[Step],
) -> Result<(), StoreFault> {
    let changes = changes_of(alloc, steps)?;
    store.change(changes.as_slice())
}

/// Calls, each of some steps, up to the first that is refused.
pub(crate) fn change_each<S: Alter>(
    store: &mut Store<S>,
    alloc: Global,
    calls: &[&[Step]],
) -> Result<(), StoreFault> {
    for steps in calls {
        change_once(store, alloc, steps)?;
    }
    Ok(())
}
