//! The documents that a filter chooses, read from a store.
ghost use Rattle.std.specs.Prelude.{◌≡◌, ◌*◌, false, length, map, option_map, IfOk, OnOk};
ghost use Rattle.ft_match.specs.Trees.{tree_of};
ghost use Rattle.ft_store.specs.Kept.{more_rows};
ghost use Rattle.ft_content.specs.Content.{Content};
ghost use Rattle.ft_commands.specs.Command.{Docid};
ghost use Rattle.ft_content.specs.Answer.{chosen};
ghost use Rattle.ft_content.specs.Step.{is_match};
ghost use Rattle.ft_commands.specs.Views.{filter_of};
ghost use Rattle.ft_index.specs.DocumentsRead.{HasRows, LooksFor};
ghost use Rattle.ft_documents.specs.Gathered.{shown_document};
ghost use Rattle.ft_index.specs.Walked.{IsIndexed};
ghost use Rattle.ft_documents.specs.Chosen.{ReadsFilterAs, document_at};
ghost use Rattle.ft_calls.specs.Kept.{IsOutside};
ghost use Rattle.ft_index.specs.Refused.{BlamesContent, AreThere};

use crate::documents::{all_documents, document};
use crate::matching::matched;
use ft_content::{Fault, Filter};
use ft_documents::Document;
use ft_query::Query;
use ft_store::Store;
use sqlite::Alter;
use std::alloc::Global;

/// The documents that a filter chooses, by rising docid, where the text of a MATCH reads as this
/// query. The table is read once for all documents, and otherwise each chosen document is. The
/// store is only read, whatever is answered.
pub(crate) fn chosen_documents<S: Alter>(
    alloc: Global,
    store: &mut Store<S>,
    tab: i64,
    filter: &Filter,
    query: Option<&Query>,
) -> Result<Vec<Document>, Fault>
    ensures told { IfOk result (λ found. (content : Content)
        → HasRows S.Store tab store.old store.new content
        → IsIndexed S.Store tab store.old store.new content
        → ReadsFilterAs content (filter_of filter.now) (option_map (λ q. tree_of q.now) query.entry)
        → map shown_document found.items ≡ chosen content (filter_of filter.now)) }
    ensures looks { LooksFor S.Store store.old store.new result IsOutside }
    ensures counted { OnOk result ((content : Content)
        → HasRows S.Store tab store.old store.new content
        → is_match (filter_of filter.now) ≡ false
        → store.new.rows_read ≡ more_rows (length content.columns
        * length (chosen content (filter_of filter.now))) store.old) }
    ensures refused { BlamesContent S.Store tab store.old store.new result
        (λ content. ReadsFilterAs content
        (filter_of filter.now) (option_map (λ q. tree_of q.now) query.entry)) }
{
    match filter {
        Filter::All => all_documents(alloc, store, tab),
        Filter::Docid(docid) => {
            let (docid, mut documents) = (*docid, Vec::new(alloc));
            if let Some(cells) = document(alloc, store, tab, docid)? {
                documents.push(Document { docid, cells })?;
            }
            Ok(documents)
        }
        Filter::Match { .. } => {
            let hits = matched(alloc, store, tab, query, false, None)?;
            let docids: Vec<i64> = hits.iter().map(|hit| hit.docid).collect(alloc)?;
            documents_under(alloc, store, tab, docids.as_slice())
        }
    }
}

// The documents of docids. One that isn't there is a refusal by the store.
fn documents_under<S: Alter>(
    alloc: Global,
    store: &mut Store<S>,
    tab: i64,
    docids: &[i64],
) -> Result<Vec<Document>, Fault>
    ensures told { IfOk result (λ found. (content : Content)
        → HasRows S.Store tab store.old store.new content → map shown_document found.items
        ≡ map (document_at content) docids.now) }
    ensures looks { LooksFor S.Store store.old store.new result IsOutside }
    ensures refused { BlamesContent S.Store tab store.old store.new result
        (λ content. AreThere content docids.now) }
{
    let mut documents = Vec::new(alloc);
    for &docid in docids {
        let cells = document(alloc, store, tab, docid)?.ok_or(Fault::Store)?;
        documents.push(Document { docid, cells })?;
    }
    Ok(documents)
}
