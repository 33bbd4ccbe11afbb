//! Answers of a Select.
ghost use Rattle.std.specs.Prelude.{◌≡◌, ◌⊎◌, ◌+◌, ◌*◌, ◌<◌, ◌^◌, if◌then◌else◌, ℕ, List, [], Option, None, Some, map, option_map, length, pos, true, false, string_bytes, IsTrue, IfOk, IfErr, OnOk};
ghost use Rattle.std.specs.List.{list_any};
ghost use Rattle.sqlite.specs.State.{HasCleanDisk};
ghost use Rattle.ft_match.specs.Trees.{tree_of};
ghost use Rattle.ft_match.specs.Occurs.{PlainHit, plain_hit};
ghost use Rattle.ft_store.specs.Kept.{shows, more_rows};
ghost use Rattle.ft_values.specs.declared.fault.Fault.TheVariants as faults;
ghost use Rattle.ft_content.specs.Content.{Content};
ghost use Rattle.ft_commands.specs.Command.{Match};
ghost use Rattle.ft_content.specs.Answer as answer;
ghost use Rattle.ft_content.specs.Answer.{chosen, query_in};
ghost use Rattle.ft_content.specs.Step as step;
ghost use Rattle.ft_content.specs.Views.{bare_content, column_of, shown_info};
ghost use Rattle.ft_commands.specs.Views.{rows_of, item_of, items_of, filter_of, selection_of, answer_of};
ghost use Rattle.ft_calls.specs.Kept.{Executes, OnlyLooks, IsOutside};
ghost use Rattle.ft_index.specs.Changed.{with_tables};
ghost use Rattle.ft_index.specs.Refused.{BlamesContent, BlamesOver, AreThere, NeverStore};
ghost use Rattle.ft_index.specs.DocumentsRead.{HasRows, LooksFor};
ghost use Rattle.ft_documents.specs.Gathered.{shown_document};
ghost use Rattle.ft_calls.specs.RowsRead as rows;
ghost use Rattle.ft_calls.specs.RowsRead.{rows_asked, CountsRows};
ghost use Rattle.ft_documents.specs.Chosen.{ReadsFilterAs, cells_at};
ghost use Rattle.ft_index.specs.Selected.{hit_cells, IsOf, IsAsked};

use crate::chosen::chosen_documents;
use crate::documents::{docids, document};
use crate::matching::matched;
use ft_content::{
    Column, Fault, Filter, Grid, Item, Items, Reply, Selection, TableInfo, Value, answer_names,
    any_offsets, count_rows, cut, is_docid, item_row, select_tests,
};
use ft_documents::{Document, bare_hit, filter_query, sound_table};
use ft_query::{Hit, Query, offsets_text};
use ft_store::Store;
use sqlite::Alter;
use std::alloc::{AllocError, Global};

/// Answers a Select: the tests of its names, its query, and then the reads that it asks for.
pub(crate) fn select_from<S: Alter>(
    alloc: Global,
    store: &mut Store<S>,
    tables: &[TableInfo],
    select: &Selection,
) -> Result<Reply, Fault>
    ensures executes { Executes S.Store (with_tables store.old (map shown_info tables.now))
        (selection_of select.now) (answer_of result)
        (with_tables store.new (map shown_info tables.now)) }
    ensures counts { CountsRows S.Store (with_tables store.old (map shown_info tables.now))
        (selection_of select.now) (answer_of result)
        (with_tables store.new (map shown_info tables.now)) }
    ensures looks { OnlyLooks S.Store (with_tables store.old (map shown_info tables.now))
        (with_tables store.new (map shown_info tables.now)) }
    ensures live { HasCleanDisk (shows S.Store store.new)
        → OnOk result (IsTrue (shows S.Store store.old).is_open
        → IsTrue (shows S.Store store.new).is_open) }
    ensures refused { BlamesOver S.Store (map shown_info tables.now) store.old store.new result }
{
    store.is_in_order();
    let info = sound_table(tables, select.table.as_str())?;
    let query = select_query(alloc, info, select)?;
    let columns = info.columns.as_slice();
    let rows = selected_rows(alloc, store, info.id, columns, select, query.as_ref())?;
    let names = answer_names(alloc, info.name.as_str(), columns, &select.items)?;
    Ok(Reply::Rows(Grid { names, rows }))
}

/// The query of a Select over a table, after the tests of its names, or the fault that it deserves.
pub(crate) fn select_query(
    alloc: Global,
    info: &TableInfo,
    select: &Selection,
) -> Result<Option<Query>, Fault>
    ensures query { IfOk result (λ query. ReadsFilterAs (bare_content info.now.columns.items)
        (filter_of select.now.filter) (option_map tree_of query)) }
    ensures fine { OnOk result (step.select_fault (string_bytes info.now.name)
        (bare_content info.now.columns.items) (items_of select.now.items)
        (filter_of select.now.filter) ≡ None) }
    ensures fault { IfErr result (λ fault. (fault ≡ faults.Memory)
        ⊎ (step.select_fault (string_bytes info.now.name) (bare_content info.now.columns.items)
        (items_of select.now.items) (filter_of select.now.filter) ≡ Some fault)) }
    ensures never { NeverStore result }
{
    let columns = info.columns.as_slice();
    if let Some(fault) = select_tests(info.name.as_str(), columns, &select.items, &select.filter) {
        return Err(fault);
    }
    filter_query(alloc, columns, &select.filter)
}

// The rows of an answer. A walk stops where no more hits are answered, and of all documents with a
// limit, or without columns, just those are read that are answered.
fn selected_rows<S: Alter>(
    alloc: Global,
    store: &mut Store<S>,
    tab: i64,
    columns: &[Column],
    select: &Selection,
    query: Option<&Query>,
) -> Result<Vec<Vec<Value>>, Fault>
    ensures told { IfOk result (λ found. (content : Content) → IsAsked S.Store tab
        (map column_of columns.now) (items_of select.now.items) (filter_of select.now.filter)
        (option_map (λ q. tree_of q.now) query.entry) store.old store.new content
        → rows_of found ≡ answer.cut select.now.limit select.now.offset (answer.answer_rows content
        (items_of select.now.items) (filter_of select.now.filter))) }
    ensures looks { LooksFor S.Store store.old store.new result IsOutside }
    ensures counted { OnOk result ((content : Content)
        → IsAsked S.Store tab (map column_of columns.now) (items_of select.now.items)
        (filter_of select.now.filter) (option_map (λ q. tree_of q.now) query.entry) store.old
        store.new content → store.new.rows_read
        ≡ more_rows (rows_asked content (items_of select.now.items)
        (filter_of select.now.filter) select.now.limit select.now.offset) store.old) }
    ensures refused { BlamesContent S.Store tab store.old store.new result
        (λ content. ReadsFilterAs content
        (filter_of select.now.filter) (option_map (λ q. tree_of q.now) query.entry)) }
{
    let Items::List(items) = &select.items else {
        let count = chosen_count(alloc, store, tab, &select.filter, query)?;
        return Ok(count_rows(alloc, count, select.limit, select.offset)?);
    };
    let items = items.as_slice();
    match &select.filter {
        Filter::Match { .. } => {
            let most = most_hits(select.limit, select.offset);
            let hits = matched(alloc, store, tab, query, any_offsets(items), most)?;
            let answered = cut(hits.as_slice(), select.limit, select.offset);
            hit_rows(alloc, store, tab, columns, items, answered)
        }
        Filter::All if select.limit.is_some() || !has_column(items) => {
            let docids = docids(alloc, store, tab, select.limit, select.offset)?;
            let hits = bare_hits(alloc, docids.as_slice())?;
            hit_rows(alloc, store, tab, columns, items, hits.as_slice())
        }
        Filter::All | Filter::Docid(_) => {
            let documents = chosen_documents(alloc, store, tab, &select.filter, query)?;
            let answered = cut(documents.as_slice(), select.limit, select.offset);
            Ok(document_rows(alloc, columns, items, answered)?)
        }
    }
}

// How many documents a filter chooses. Those of a MATCH are not read.
fn chosen_count<S: Alter>(
    alloc: Global,
    store: &mut Store<S>,
    tab: i64,
    filter: &Filter,
    query: Option<&Query>,
) -> Result<i64, Fault>
    ensures told { IfOk result (λ count. (content : Content)
        → IsOf S.Store tab store.old store.new content
        → ReadsFilterAs content (filter_of filter.now) (option_map (λ q. tree_of q.now) query.entry)
        → count ≡ pos (length (chosen content (filter_of filter.now)))) }
    ensures looks { LooksFor S.Store store.old store.new result IsOutside }
    ensures counted { OnOk result ((content : Content)
        → IsOf S.Store tab store.old store.new content
        → ReadsFilterAs content (filter_of filter.now) (option_map (λ q. tree_of q.now) query.entry)
        → store.new.rows_read ≡ more_rows (rows.count_asked content (filter_of filter.now))
        store.old) }
    ensures refused { BlamesContent S.Store tab store.old store.new result
        (λ content. ReadsFilterAs content
        (filter_of filter.now) (option_map (λ q. tree_of q.now) query.entry)) }
{
    match filter {
        Filter::Match { .. } => Ok(matched(alloc, store, tab, query, false, None)?.len() as i64),
        Filter::All => Ok(docids(alloc, store, tab, None, 0)?.len() as i64),
        Filter::Docid(_) => Ok(chosen_documents(alloc, store, tab, filter, None)?.len() as i64),
    }
}

// Hits of docids, without offsets.
fn bare_hits(alloc: Global, docids: &[i64]) -> Result<Vec<Hit>, AllocError>
    ensures { IfOk result (λ hits. map plain_hit hits.items
        ≡ map (λ docid. record { docid = docid; offsets = [] }) docids.now) }
{
    docids.iter().map(|&d| bare_hit(alloc, d)).collect(alloc)
}

// A row for each document, without offsets.
fn document_rows(
    alloc: Global,
    columns: &[Column],
    items: &[Item],
    documents: &[Document],
) -> Result<Vec<Vec<Value>>, AllocError>
    ensures { IfOk result (λ found. list_any step.is_offsets (map item_of items.now) ≡ false
        → rows_of found ≡ answer.item_rows None (bare_content columns.now) (map item_of items.now)
        (map shown_document documents.now)) }
{
    let mut rows = Vec::with_capacity(alloc, documents.len())?;
    for document in documents {
        let cells = document.cells.as_slice();
        rows.push(item_row(alloc, columns, items, document.docid, cells, "")?)?;
    }
    Ok(rows)
}

// How many hits a walk has to find: all of them where it says none.
fn most_hits(limit: Option<u64>, offset: u64) -> Option<u64>
    ensures none { limit ≡ None → result ≡ None }
    ensures sum { (n : ℕ) → limit ≡ Some n → offset + n < 2 ^ 64 → result ≡ Some (offset + n) }
    ensures enough { (hits : List PlainHit)
        → answer.cut limit offset (answer.cut result 0 hits) ≡ answer.cut limit offset hits }
{
    offset.checked_add(limit?)
}

// Whether cells of documents are asked for.
fn has_column(items: &[Item]) -> bool
    ensures { result ≡ list_any rows.reads_document (map item_of items.now) }
{
    items.iter().any(|item| match item {
        Item::All => true,
        Item::Name(name) => !is_docid(name.as_str()),
        Item::Offsets(_) => false,
    })
}

// A row for each hit, with the cells of its document, which is read where an item is a column.
fn hit_rows<S: Alter>(
    alloc: Global,
    store: &mut Store<S>,
    tab: i64,
    columns: &[Column],
    items: &[Item],
    hits: &[Hit],
) -> Result<Vec<Vec<Value>>, Fault>
    ensures told { IfOk result (λ found. (content : Content)
        → HasRows S.Store tab store.old store.new content → rows_of found
        ≡ map (hit_cells (map column_of columns.now) (map item_of items.now) (cells_at content))
        hits.now) }
    ensures looks { LooksFor S.Store store.old store.new result IsOutside }
    ensures counted { OnOk result ((content : Content)
        → HasRows S.Store tab store.old store.new content
        → store.new.rows_read ≡ more_rows ((if list_any rows.reads_document (map item_of items.now)
        then length content.columns else 0) * length hits.now) store.old) }
    ensures refused { BlamesContent S.Store tab store.old store.new result
        (λ content. AreThere content (map (λ h. h.docid) hits.now)) }
{
    // So the count of rows is known to be of 64 bits.
    let _read = store.rows_read();
    let reads = has_column(items);
    let mut rows = Vec::new(alloc);
    for hit in hits {
        let cells = if reads {
            document(alloc, store, tab, hit.docid)?.ok_or(Fault::Store)?
        } else {
            Vec::new(alloc)
        };
        let offsets = offsets_text(alloc, hit.offsets.as_slice())?;
        let (cells, offsets) = (cells.as_slice(), offsets.as_str());
        rows.push(item_row(alloc, columns, items, hit.docid, cells, offsets)?)?;
    }
    Ok(rows)
}
