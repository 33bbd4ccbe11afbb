//! Documents that commands write: which they are, and how they are made.
ghost use Rattle.std.specs.Prelude.{◌++◌, map, IfOk, ◌≡◌, zip, slice_get};
ghost use Rattle.std.specs.Vec.Iter.{into_iter_items};
ghost use Rattle.ft_content.specs.Views.{column_of, shown_info};
ghost use Rattle.ft_commands.specs.Views.{cells_of, insertion_of, modification_of, deletion_of};
ghost use Rattle.ft_documents.specs.Rewrite.{shown_rewrite};
ghost use Rattle.ft_documents.specs.RewriteRows.{rewrite_changes};
ghost use Rattle.ft_rows.specs.Changes.{shown_change};
ghost use Rattle.ft_index.specs.Written.{first_parts, AnswersWritten, MakesAnew, WritesIn, BlamesWritten};
ghost use Rattle.ft_store.specs.Kept.{shows};
ghost use Rattle.ft_content.specs.Content.{Content};
ghost use Rattle.ft_content.specs.Step.{docids_named};
ghost use Rattle.ft_index.specs.DocumentsRead.{HasRows, LooksOn, LooksFor};
ghost use Rattle.ft_documents.specs.Gathered.{has_given};
ghost use Rattle.ft_content.specs.Answer.{chosen};
ghost use Rattle.ft_index.specs.Changed.{with_tables, Does};
ghost use Rattle.ft_calls.specs.Kept.{BlamesStore, IsOutside};
ghost use Rattle.ft_index.specs.Refused.{BlamesOver, BlamesDone};
ghost use Rattle.ft_content.specs.Content as content;

use crate::chosen::chosen_documents;
use crate::documents::has_document;
use crate::tables::adding;
use ft_content::{
    Deletion, Fault, Filter, Insertion, Modification, Reply, TableInfo, Value, delete_tests,
    insert_tests, listed_names, moves_fault, repeats_name, repeats_set, row_docid, set_docid,
    update_tests,
};
use ft_documents::{
    Rewrite, filter_query, in_groups, made_documents, removals, row_changes, sound_table,
    update_rewrites,
};
use ft_store::{Parts, RowChange, Store};
use sqlite::Alter;
use std::alloc::{AllocError, Global};
use std::vec::IntoIter;

/// Documents of a table that a command writes anew.
#[derive(Drop)]
pub(crate) struct Written<'t> {
    pub table: &'t TableInfo,
    pub rewrites: Vec<Rewrite>,
}

impl Written<'_> {
    ghost use Rattle.std.specs.Prelude.{[], map, IfOk};
    ghost use Rattle.ft_rows.specs.Changes.{shown_change};
    ghost use Rattle.ft_store.specs.Parts.{changes_in};
    ghost use Rattle.ft_index.specs.Written.{first_parts, AreOfWritten, MakesWritten};

    /// Their row changes.
    pub(crate) fn changes(self, alloc: Global) -> Result<Vec<RowChange>, AllocError>
        ensures { IfOk result (λ changes. AreOfWritten self.entry
            (map shown_change changes.items)) }
    {
        let Written { table, rewrites } = self;
        Ok(row_changes(alloc, table.id, table.columns.as_slice(), rewrites)?)
    }

    // Makes all their row changes or none, after the change that comes first, if there is one.
    // They are made group by group, so that the changes of one group are in memory at a time.
    fn make<S: Alter>(
        self,
        alloc: Global,
        store: &mut Store<S>,
        first: Option<RowChange>,
    ) -> Result<(), Fault>
        ensures { MakesWritten S.Store (changes_in (first_parts first)) self.entry store.old
            store.new result }
    {
        let Written { table, rewrites } = self;
        let groups = in_groups(alloc, rewrites)?;
        let mut parts = GroupChanges {
            alloc,
            table,
            first,
            groups: groups.into_iter(),
        };
        Ok(store.change_parts(&mut parts)?)
    }
}

/// Answers a command by the documents that it was found to write, or by its fault.
pub(crate) fn write_found<S: Alter>(
    alloc: Global,
    store: &mut Store<S>,
    found: Result<Written, Fault>,
) -> Result<Reply, Fault>
    ensures answers { AnswersWritten S.Store found.entry store.old store.new result }
    ensures refused { BlamesWritten S.Store found.entry store.old store.new result }
{
    found?.make(alloc, store, None)?;
    Ok(Reply::Done)
}

/// Makes a table anew with documents, or nothing where nothing is to be made. All of it is made or
/// nothing, group by group.
pub(crate) fn make_anew<S: Alter>(
    alloc: Global,
    store: &mut Store<S>,
    anew: Option<Written>,
) -> Result<(), Fault>
    ensures { MakesAnew S.Store anew.entry store.old store.new result }
{
    let Some(written) = anew else {
        return Ok(());
    };
    let first = adding(alloc, written.table)?;
    written.make(alloc, store, Some(first))
}

/// The row changes of documents, a part for each group, after the change that comes first.
#[derive(Drop)]
struct GroupChanges<'t> {
    alloc: Global,
    table: &'t TableInfo,
    first: Option<RowChange>,
    groups: IntoIter<Vec<Rewrite>>,
}

impl Parts for GroupChanges<'_> {
    ghost to_come = { λ changes. first_parts changes.first ++ map (λ group. rewrite_changes
        changes.table.now.id (map column_of changes.table.now.columns.items)
        (map shown_rewrite group.items)) (into_iter_items changes.groups) };

    fn next(&mut self) -> Result<Option<Vec<RowChange>>, AllocError> {
        if let Some(first) = self.first.take() {
            return Ok(Some(vec![in self.alloc; first]?));
        }
        let Some(group) = self.groups.next() else {
            return Ok(None);
        };
        let table = self.table;
        Ok(Some(row_changes(self.alloc, table.id, table.columns.as_slice(), group)?))
    }
}

/// The documents that an Insert makes, or its fault. The store is only read, whatever is answered.
pub(crate) fn insert_written<'t, S: Alter>(
    alloc: Global,
    store: &mut Store<S>,
    tables: &'t [TableInfo],
    insertion: &Insertion,
) -> Result<Written<'t>, Fault>
    ensures told { WritesIn S.Store (map shown_info tables.now) store.old store.new
        (insertion_of insertion.now) result }
    ensures looks { LooksOn S.Store store.old store.new result }
    ensures refused { BlamesOver S.Store (map shown_info tables.now) store.old store.new result }
{
    store.is_in_order();
    let listed = insertion.columns.as_deref();
    if repeats_name(alloc, listed.unwrap_or(&[])) {
        return Err(Fault::DuplicateColumn);
    }
    let table = sound_table(tables, insertion.table.as_str())?;
    let columns = table.columns.as_slice();
    let names = listed_names(alloc, columns, listed)?;
    let (names, rows) = (names.as_slice(), insertion.rows.as_slice());
    if let Some(fault) = insert_tests(columns, names, rows) {
        return Err(fault);
    }
    let last = store.last_docid(table.id)?;
    let stored = stored_docids(alloc, store, table.id, names, rows)?;
    let rewrites = made_documents(alloc, last, columns, names, rows, stored.as_slice())?;
    Ok(Written { table, rewrites })
}

// Of each row, whether the table has a document with the docid that the row gives. The store is
// only read, whatever is answered.
fn stored_docids<S: Alter>(
    alloc: Global,
    store: &mut Store<S>,
    tab: i64,
    names: &[&str],
    rows: &[Vec<Value>],
) -> Result<Vec<bool>, Fault>
    ensures found { IfOk result (λ stored. (content : Content)
        → HasRows S.Store tab store.old store.new content
        → stored.items ≡ map (λ row. has_given content.documents
        (slice_get (docids_named (zip (map (λ n. n.now) names.now) (cells_of row))) 0)) rows.now) }
    ensures looks { LooksFor S.Store store.old store.new result IsOutside }
    ensures refused { BlamesStore (shows S.Store store.old) (shows S.Store store.new) result }
{
    let mut stored = Vec::new(alloc);
    for row in rows {
        let given = row_docid(names, row.as_slice());
        stored.push(has_document(store, tab, given)?)?;
    }
    Ok(stored)
}

/// The documents that an Update changes, or its fault. The store is only read, whatever is
/// answered.
pub(crate) fn update_written<'t, S: Alter>(
    alloc: Global,
    store: &mut Store<S>,
    tables: &'t [TableInfo],
    modification: &Modification,
) -> Result<Written<'t>, Fault>
    ensures told { WritesIn S.Store (map shown_info tables.now) store.old store.new
        (modification_of modification.now) result }
    ensures looks { LooksOn S.Store store.old store.new result }
    ensures refused { BlamesOver S.Store (map shown_info tables.now) store.old store.new result }
{
    store.is_in_order();
    let sets = modification.sets.as_slice();
    if repeats_set(alloc, sets) {
        return Err(Fault::DuplicateColumn);
    }
    let table = sound_table(tables, modification.table.as_str())?;
    let (columns, filter) = (table.columns.as_slice(), &modification.filter);
    if let Some(fault) = update_tests(table.name.as_str(), columns, sets, filter) {
        return Err(fault);
    }
    let query = filter_query(alloc, columns, filter)?;
    let documents = chosen_documents(alloc, store, table.id, filter, query.as_ref())?;
    let given = set_docid(sets);
    let docids: Vec<i64> = documents.iter().map(|chosen| chosen.docid).collect(alloc)?;
    let is_taken = has_document(store, table.id, given)?;
    if let Some(fault) = moves_fault(docids.as_slice(), given, is_taken) {
        return Err(fault);
    }
    let rewrites = update_rewrites(alloc, columns, sets, documents, given)?;
    Ok(Written { table, rewrites })
}

/// Answers a Delete. One of all documents makes the table anew, and reads nothing of the store.
pub(crate) fn delete_from<S: Alter>(
    alloc: Global,
    store: &mut Store<S>,
    tables: &[TableInfo],
    deletion: &Deletion,
) -> Result<Reply, Fault>
    ensures does { Does S.Store (with_tables store.old (map shown_info tables.now))
        (deletion_of deletion.now) result (with_tables store.new (map shown_info tables.now)) }
    ensures refused { BlamesDone S.Store (map shown_info tables.now) store.old
        (deletion_of deletion.now) store.new result }
{
    store.is_in_order();
    if let Filter::All = &deletion.filter {
        let table = sound_table(tables, deletion.table.as_str())?;
        let rewrites = Vec::new(alloc);
        make_anew(alloc, store, Some(Written { table, rewrites }))?;
        return Ok(Reply::Done);
    }
    let written = delete_written(alloc, store, tables, deletion);
    write_found(alloc, store, written)
}

/// The documents that a Delete removes, or its fault. The store is only read, whatever is answered.
pub(crate) fn delete_written<'t, S: Alter>(
    alloc: Global,
    store: &mut Store<S>,
    tables: &'t [TableInfo],
    deletion: &Deletion,
) -> Result<Written<'t>, Fault>
    ensures told { WritesIn S.Store (map shown_info tables.now) store.old store.new
        (deletion_of deletion.now) result }
    ensures looks { LooksOn S.Store store.old store.new result }
    ensures refused { BlamesOver S.Store (map shown_info tables.now) store.old store.new result }
{
    store.is_in_order();
    let table = sound_table(tables, deletion.table.as_str())?;
    let (columns, filter) = (table.columns.as_slice(), &deletion.filter);
    if let Some(fault) = delete_tests(table.name.as_str(), columns, filter) {
        return Err(fault);
    }
    let query = filter_query(alloc, columns, filter)?;
    let documents = chosen_documents(alloc, store, table.id, filter, query.as_ref())?;
    let rewrites = removals(alloc, documents)?;
    Ok(Written { table, rewrites })
}
