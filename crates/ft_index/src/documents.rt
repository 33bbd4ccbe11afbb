//! The documents of a table, read from a store.
ghost use Rattle.std.specs.Prelude.{◌≡◌, ◌*◌, length, is_some, map, option_map, vec_len, IfOk, IfSome, OnOk};
ghost use Rattle.std.specs.Option.{option_map_or};
ghost use Rattle.std.specs.Ordering.{int_cmp};
ghost use Rattle.std.specs.FinMap.Entries.{find};
ghost use Rattle.ft_store.specs.Kept.{shows, more_rows};
ghost use Rattle.ft_content.specs.Content as content;
ghost use Rattle.ft_content.specs.Content.{Content};
ghost use Rattle.ft_content.specs.Answer.{cut};
ghost use Rattle.ft_commands.specs.Views as views;
ghost use Rattle.ft_index.specs.DocumentsRead.{HasRows, LooksFor, AsksStore};
ghost use Rattle.ft_calls.specs.RowsRead.{are_short, docids_asked};
ghost use Rattle.ft_documents.specs.Gathered.{shown_document, has_given};
ghost use Rattle.ft_calls.specs.Kept.{BlamesStore, IsOutside};

use ft_content::{Fault, Value, cut};
use ft_documents::{Document, gathered};
use ft_store::Store;
use sqlite::Alter;
use std::alloc::Global;

/// The cells of the document of a docid, if there is one. The store is only read, whatever is
/// answered.
pub(crate) fn document<S: Alter>(
    alloc: Global,
    store: &mut Store<S>,
    tab: i64,
    docid: i64,
) -> Result<Option<Vec<Value>>, Fault>
    ensures told { IfOk result (λ found. (content : Content)
        → HasRows S.Store tab store.old store.new content → option_map views.cells_of found
        ≡ find int_cmp docid content.documents) }
    ensures looks { AsksStore S.Store store.old store.new result IsOutside }
    ensures counted { IfOk result (λ found. store.new.rows_read
        ≡ more_rows (option_map_or vec_len found 0) store.old) }
    ensures refused { BlamesStore (shows S.Store store.old) (shows S.Store store.new) result }
{
    let rows = store.document(tab, docid)?;
    if rows.is_empty() {
        return Ok(None);
    }
    Ok(Some(rows.into_iter().map(|row| row.value).collect(alloc)?))
}

/// All documents of a table, by rising docid. The store is only read, whatever is answered.
pub(crate) fn all_documents<S: Alter>(
    alloc: Global,
    store: &mut Store<S>,
    tab: i64,
) -> Result<Vec<Document>, Fault>
    ensures told { IfOk result (λ found. (content : Content)
        → HasRows S.Store tab store.old store.new content → map shown_document found.items
        ≡ content.documents) }
    ensures looks { AsksStore S.Store store.old store.new result IsOutside }
    ensures counted { OnOk result ((content : Content)
        → HasRows S.Store tab store.old store.new content → store.new.rows_read
        ≡ more_rows (length content.columns * length content.documents) store.old) }
    ensures refused { BlamesStore (shows S.Store store.old) (shows S.Store store.new) result }
{
    Ok(gathered(alloc, store.cells(tab)?)?)
}

/// The docids of a table's documents, rising: without the first `offset`, and at most `limit` of
/// those. No others are read, where both numbers have at most 32 bits. The store is only read,
/// whatever is answered.
pub(crate) fn docids<S: Alter>(
    alloc: Global,
    store: &mut Store<S>,
    tab: i64,
    limit: Option<u64>,
    offset: u64,
) -> Result<Vec<i64>, Fault>
    ensures told { IfOk result (λ found. (content : Content)
        → HasRows S.Store tab store.old store.new content
        → found.items ≡ cut limit offset (map (λ d. d.0) content.documents)) }
    ensures looks { AsksStore S.Store store.old store.new result IsOutside }
    ensures counted { OnOk result ((content : Content)
        → HasRows S.Store tab store.old store.new content → store.new.rows_read
        ≡ more_rows (docids_asked content limit offset) store.old) }
    ensures refused { BlamesStore (shows S.Store store.old) (shows S.Store store.new) result }
{
    if let Some((most, first)) = short(limit, offset) {
        return Ok(store.docids(tab, most, first)?);
    }
    let all = store.docids(tab, None, 0)?;
    Ok(cut(all.as_slice(), limit, offset).to_vec(alloc)?)
}

// A limit and an offset as the store takes them, if they are small enough.
fn short(limit: Option<u64>, offset: u64) -> Option<(Option<u32>, u32)>
    ensures same { IfSome result (λ r. (r.0 ≡ limit) × (r.1 ≡ offset)) }
    ensures short { is_some result ≡ are_short limit offset }
{
    let first = u32::try_from(offset).ok()?;
    match limit {
        Some(limit) => Some((Some(u32::try_from(limit).ok()?), first)),
        None => Some((None, first)),
    }
}

/// Whether the table has a document of the docid that is given. The store is only read, whatever is
/// answered.
pub(crate) fn has_document<S: Alter>(
    store: &mut Store<S>,
    tab: i64,
    given: Option<i64>,
) -> Result<bool, Fault>
    ensures found { IfOk result (λ found. (content : Content)
        → HasRows S.Store tab store.old store.new content
        → found ≡ has_given content.documents given) }
    ensures looks { LooksFor S.Store store.old store.new result IsOutside }
    ensures refused { BlamesStore (shows S.Store store.old) (shows S.Store store.new) result }
{
    match given {
        Some(docid) => Ok(store.has_document(tab, docid)?),
        None => Ok(false),
    }
}
