//! Queries on the lists of terms.
ghost use Rattle.std.specs.Prelude.{◌≡◌, ◌≢◌, IsUtf8, ℤ, ◌<◌, ◌-◌, ◌^◌, [], ◌++◌, map, min, Err, IfOk, OnOk, MatchOption};
ghost use Rattle.std.specs.List.{AllByRecursion, flat_map};
ghost use Rattle.sqlite.specs.Order as order;
ghost use Rattle.sqlite.specs.Order.{column};
ghost use Rattle.sqlite_value.specs.Order.{bytes};
ghost use Rattle.sqlite.specs.Values.{bound};
ghost use Rattle.sqlite.specs.Held.{state};
ghost use Rattle.sqlite_value.specs.Value.{owned};
ghost use Rattle.sqlite.specs.declared.types.Value.TheVariants.{Int, Text};
ghost use Rattle.ft_store.specs.Rows.{value_of};
ghost use Rattle.ft_store.specs.Range.{after_last, limit_of};
ghost use Rattle.ft_store.specs.Found.{found_spots, found_places};
ghost use Rattle.ft_rows.specs.Shown.{shown_list, shown_entry, entries_with, entries_of, lists_under_term, lists_of_prefix, spot_count, AreWhole, SomeDamaged};
ghost use Rattle.ft_store.specs.Blame.{Blames, RefusesRead, IsListRow, IsTermRow};
ghost use Rattle.ft_store.specs.Calls.{AreTold, IsAtRest};
ghost use Rattle.ft_store.specs.Settled.{IsSettled, IsPlainIn, FindsOrRefuses, ReadsLists, GivesLists, GivesTold, GivesRows};

use crate::fault::StoreFault;
use crate::sql::{PREFIX, PREFIX_LISTS, TERM_LISTS};
use crate::stream::{Gathered, gather};
use ft_rows::unpack;
use ft_values::{EntryRow, ListRow};
use sqlite::types::ValueRef;
use sqlite::{Alter, Connection, Row, params};
use std::alloc::{AllocError, Global};

// ---- rows

// A list, of its row, in which docid and packed list come first; none where its bytes are damaged.
fn list_row(alloc: Global, row: &Row) -> Result<Option<ListRow>, StoreFault>
    ensures found { FindsOrRefuses result (λ list. MatchOption list ((found_spots row.now).1 ≡ [])
        (λ l. (shown_list l ≡ found_spots row.now) × ((found_spots row.now).1 ≢ []))) }
    ensures refused { result ≡ Err StoreFault.Refused → IsListRow row.now → ⊥ }
{
    let docid: i64 = row.get(0)?;
    let ValueRef::Blob(bytes) = row.get_ref(1)? else {
        return Err(StoreFault::Refused);
    };
    match unpack(alloc, bytes)? {
        Some(spots) => Ok(Some(ListRow { docid, spots })),
        None => Ok(None),
    }
}

// The term of a row, in which it stands last; none where it is no text.
fn row_term(row: &Row) -> Result<Option<&str>, StoreFault>
    ensures found { FindsOrRefuses result (λ term. let stored = bytes (column row.now 2)
        in MatchOption term (¬ (IsUtf8 stored)) (λ t. (t.now ≡ stored) × IsUtf8 stored)) }
    ensures refused { result ≡ Err StoreFault.Refused → IsTermRow row.now → ⊥ }
{
    let ValueRef::Text(bytes) = row.get_ref(2)? else {
        return Err(StoreFault::Refused);
    };
    Ok(str::from_utf8(bytes).ok())
}

/// Room for so many lists is taken at once: it is still a small block of memory.
const ROOM: usize = 30;

/// Lists, as their rows come.
#[derive(Drop)]
struct ListsOf {
    alloc: Global,
    lists: Vec<ListRow>,
}

impl Gathered for ListsOf {
    ghost use Rattle.std.specs.Prelude.{◌≡◌, map, MatchBool};
    ghost use Rattle.ft_store.specs.Found.{found_spots};
    ghost use Rattle.ft_rows.specs.Shown.{shown_list, AreWhole, SomeDamaged};

    ghost takes = { IsListRow };

    ghost is_made_of = { λ made whole rows. MatchBool whole
        ((map shown_list made.lists.items ≡ map found_spots rows) × AreWhole (map found_spots rows))
        (SomeDamaged (map found_spots rows)) };

    fn add(&mut self, whole: bool, row: &Row) -> Result<bool, StoreFault> {
        if !whole {
            return Ok(false);
        }
        let Some(list) = list_row(self.alloc, row)? else {
            return Ok(false);
        };
        self.lists.push(list)?;
        Ok(true)
    }
}

// The lists that a query gives, in the order of its rows. Damaged bytes are Damaged.
fn select_lists<S: Alter>(
    conn: &mut Connection<S>,
    alloc: Global,
    sql: &str,
    params: &[ValueRef<'_>],
) -> Result<Vec<ListRow>, StoreFault>
    requires { IsSettled (IsPlainIn sql.now) (state S.Store conn.old) }
    ensures given { ReadsLists S.Store conn.old conn.new result
        (λ lists. GivesRows S.Store conn.old conn.new sql.now (bound params.now) (λ rows.
        (map shown_list lists.items ≡ map found_spots rows) × AreWhole (map found_spots rows)))
        (GivesRows S.Store conn.old conn.new sql.now (bound params.now) (λ rows.
        SomeDamaged (map found_spots rows))) }
    ensures refused { RefusesRead S.Store conn.old conn.new result sql.now (bound params.now)
        IsListRow }
{
    let mut found = ListsOf {
        alloc,
        lists: Vec::with_capacity(alloc, ROOM)?,
    };
    if gather(conn, sql, params, &mut found)? {
        Ok(found.lists)
    } else {
        Err(StoreFault::Damaged)
    }
}

/// How many places lists have, up to 2^64 - 1.
pub(crate) fn count_spots(lists: &[ListRow]) -> u64
    ensures { result ≡ min (spot_count (map shown_list lists.now)) (2 ^ 64 - 1) }
{
    let mut count: u64 = 0;
    for list in lists {
        count = count.saturating_add(list.spots.len() as u64);
    }
    count
}

// Adds the entries of a list, which is one of this term.
fn push_entries(
    alloc: Global,
    entries: &mut Vec<EntryRow>,
    term: &str,
    list: &ListRow,
) -> Result<(), AllocError>
    ensures { OnOk result (map shown_entry entries.new.items
        ≡ map shown_entry entries.old.items ++ entries_with term.now (shown_list list.now)) }
{
    for spot in &list.spots {
        let term = String::from_str(alloc, term)?;
        entries.push(EntryRow {
            term,
            docid: list.docid,
            spot: *spot,
        })?;
    }
    Ok(())
}

/// The entries of lists, as their rows come, in which the term stands last.
#[derive(Drop)]
struct EntriesOf {
    alloc: Global,
    entries: Vec<EntryRow>,
}

impl Gathered for EntriesOf {
    ghost use Rattle.std.specs.Prelude.{◌≡◌, ℤ, map, MatchBool};
    ghost use Rattle.ft_store.specs.Calls.{AreTold};
    ghost use Rattle.ft_store.specs.Found.{found_places};
    ghost use Rattle.ft_rows.specs.Shown.{shown_entry, entries_of};

    ghost takes = { IsTermRow };

    ghost is_made_of = { λ made whole rows. (tab : ℤ) → MatchBool whole
        ((map shown_entry made.entries.items ≡ entries_of (map (found_places tab) rows))
        × AreTold (map (found_places tab) rows))
        (¬ AreTold (map (found_places tab) rows)) };

    fn add(&mut self, whole: bool, row: &Row) -> Result<bool, StoreFault> {
        if !whole {
            return Ok(false);
        }
        let Some(list) = list_row(self.alloc, row)? else {
            return Ok(false);
        };
        let Some(term) = row_term(row)? else {
            return Ok(false);
        };
        push_entries(self.alloc, &mut self.entries, term, &list)?;
        Ok(true)
    }
}

// The entries of the lists that a query gives, in the order of its rows. Damaged bytes are
// Damaged, and so is a term that is no text.
fn select_entries<S: Alter>(
    conn: &mut Connection<S>,
    alloc: Global,
    sql: &str,
    params: &[ValueRef<'_>],
) -> Result<Vec<EntryRow>, StoreFault>
    requires { IsSettled (IsPlainIn sql.now) (state S.Store conn.old) }
    ensures given { ReadsLists S.Store conn.old conn.new result
        (λ entries. GivesRows S.Store conn.old conn.new sql.now (bound params.now) (λ rows.
        (tab : ℤ) → (map shown_entry entries.items ≡ entries_of (map (found_places tab) rows))
        × AreTold (map (found_places tab) rows)))
        (GivesRows S.Store conn.old conn.new sql.now (bound params.now) (λ rows.
        (tab : ℤ) → ¬ AreTold (map (found_places tab) rows))) }
    ensures refused { RefusesRead S.Store conn.old conn.new result sql.now (bound params.now)
        IsTermRow }
{
    let mut found = EntriesOf {
        alloc,
        entries: Vec::new(alloc),
    };
    if gather(conn, sql, params, &mut found)? {
        Ok(found.entries)
    } else {
        Err(StoreFault::Damaged)
    }
}

/// The entries of lists of one term, in their order.
pub(crate) fn term_entries(
    alloc: Global,
    term: &str,
    lists: &[ListRow],
) -> Result<Vec<EntryRow>, AllocError>
    ensures { IfOk result (λ entries. map shown_entry entries.items
        ≡ flat_map (entries_with term.now) (map shown_list lists.now)) }
{
    let mut entries = Vec::new(alloc);
    for list in lists {
        push_entries(alloc, &mut entries, term, list)?;
    }
    Ok(entries)
}

// ---- one term

/// The lists of one term.
pub(crate) fn term_lists<S: Alter>(
    conn: &mut Connection<S>,
    alloc: Global,
    tab: i64,
    term: &str,
) -> Result<Vec<ListRow>, StoreFault>
    requires { IsAtRest (state S.Store conn.old) }
    ensures given { GivesLists S.Store conn.old conn.new result
        (lists_under_term tab term.now (value_of (state S.Store conn.old).now.trees)) }
    ensures refused { Blames (state S.Store conn.old) (state S.Store conn.new) result }
{
    select_lists(conn, alloc, TERM_LISTS, params![tab, term])
}

// ---- all terms, and those that begin so

// The bytes with the last one raised by one.
fn after_last(alloc: Global, bytes: &[u8]) -> Result<Vec<u8>, AllocError>
    requires { AllByRecursion (λ b. b < 255) bytes.now }
    ensures { IfOk result (λ end. end.items ≡ after_last bytes.now) }
{
    let mut end = bytes.to_vec(alloc)?;
    if let Some(last) = end.pop() {
        end.push(last + 1)?;
    }
    Ok(end)
}

// A number as a parameter beside bytes.
fn beside(number: i64, _bytes: &[u8]) -> ValueRef<'_>
    ensures { owned result ≡ Int number }
{
    ValueRef::Int(number)
}

// A text as a parameter beside bytes.
fn text_beside<'a>(text: &'a str, _bytes: &'a [u8]) -> ValueRef<'a>
    ensures { owned result ≡ Text text.now }
{
    ValueRef::Text(text.as_bytes())
}

// What the texts of a range are below: this text or, where it is empty, a blob, since all texts
// are below each blob.
fn limit_of(end: &[u8]) -> ValueRef<'_>
    ensures { owned result ≡ limit_of end.now }
{
    if end.is_empty() {
        ValueRef::Blob(end)
    } else {
        ValueRef::Text(end)
    }
}

/// The entries of the terms that begin so.
pub(crate) fn prefix<S: Alter>(
    conn: &mut Connection<S>,
    alloc: Global,
    tab: i64,
    begin: &str,
) -> Result<Vec<EntryRow>, StoreFault>
    requires { IsAtRest (state S.Store conn.old) }
    ensures given { GivesTold S.Store conn.old conn.new result
        (lists_of_prefix tab begin.now (value_of (state S.Store conn.old).now.trees)) }
    ensures refused { Blames (state S.Store conn.old) (state S.Store conn.new) result }
{
    let end = after_last(alloc, begin.as_bytes())?;
    let end = end.as_slice();
    select_entries(
        conn,
        alloc,
        PREFIX,
        &[beside(tab, end), text_beside(begin, end), limit_of(end)],
    )
}

/// The lists of the terms that begin so.
pub(crate) fn prefix_lists<S: Alter>(
    conn: &mut Connection<S>,
    alloc: Global,
    tab: i64,
    begin: &str,
) -> Result<Vec<ListRow>, StoreFault>
    requires { IsAtRest (state S.Store conn.old) }
    ensures given { GivesLists S.Store conn.old conn.new result
        (lists_of_prefix tab begin.now (value_of (state S.Store conn.old).now.trees)) }
    ensures refused { Blames (state S.Store conn.old) (state S.Store conn.new) result }
{
    let end = after_last(alloc, begin.as_bytes())?;
    let end = end.as_slice();
    select_lists(
        conn,
        alloc,
        PREFIX_LISTS,
        &[beside(tab, end), text_beside(begin, end), limit_of(end)],
    )
}
