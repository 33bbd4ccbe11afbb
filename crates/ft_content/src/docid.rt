//! Docids that rows and Updates give.
ghost use Rattle.std.specs.Prelude.{◌≡◌, ℤ, List, slice_get, IfSome, IsTrue};
ghost use Rattle.std.specs.Ordering.{int_cmp};
ghost use Rattle.std.specs.FinMap.Entries.{put, is_sorted};
ghost use Rattle.ft_values.specs.Cells.{Cell};
ghost use Rattle.ft_content.specs.Content.{Documents};
ghost use Rattle.ft_content.specs.Step as step;
ghost use Rattle.ft_content.specs.Views.{last_docid, placed};

use ft_values::Fault;

/// Under which docid a row is put among documents of which this is the last docid. The row may give
/// a docid, which may be taken.
///
/// # Errors
///
/// `DocidTaken` where the docid that is given is taken, and `DocidFull` where none is given and
/// none is left.
pub fn docid_for_row(last: Option<i64>, given: Option<i64>, is_taken: bool) -> Result<i64, Fault>
    ensures { (documents : Documents) (docids : List ℤ) (cells : List Cell)
        → last_docid documents ≡ last → slice_get docids 0 ≡ given
        → IfSome given (λ docid. step.has_docid documents docid ≡ is_taken)
        → step.insert_row documents docids cells ≡ placed documents cells result }
{
    match given {
        Some(docid) if is_taken => Err(Fault::DocidTaken(docid)),
        Some(docid) => Ok(docid),
        None => match last {
            Some(last) => last.checked_add(1).ok_or(Fault::DocidFull),
            None => Ok(1),
        },
    }
}

/// The fault of an Update that chooses the documents of these docids and may set one, if it
/// deserves a fault. The docid that is set may be taken by a document of the table.
pub fn moves_fault(chosen: &[i64], given: Option<i64>, is_taken: bool) -> Option<Fault>
    ensures { (documents picked : Documents) (docids : List ℤ) → step.docids_of picked ≡ chosen.now
        → slice_get docids 0 ≡ given
        → IfSome given (λ docid. step.has_docid documents docid ≡ is_taken)
        → result ≡ step.moves_fault documents picked docids }
{
    let docid = given?;
    match chosen {
        [] => None,
        [only] if !is_taken || *only == docid => None,
        _ => Some(Fault::DocidTaken(docid)),
    }
}

/// The last docid of documents after one is put under this docid, where the other was the last.
pub fn last_docid_after(last: Option<i64>, docid: i64) -> i64
    ensures { (documents : Documents) (cells : List Cell) → IsTrue (is_sorted int_cmp documents)
        → last_docid documents ≡ last
        → last_docid (put int_cmp docid cells documents) ≡ Some result }
{
    last.map_or(docid, |last| last.max(docid))
}
