//! The rows of a table that are taken out. Where no other table has rows, the tables are made anew.
ghost use Rattle.std.specs.Prelude.{◌≡◌, ◌<◌, ◌≤◌, ◌+◌, ⊤, ℕ, List, [], ◌∷◌, map, length, All, IsTrue, IsUtf8, IfOk, IfSome, OnOk, None};
ghost use Rattle.std.specs.Prelude.{not, ◌&&◌};
ghost use Rattle.std.specs.Ordering.{int_eq, is_le};
ghost use Rattle.std.specs.FinMap.Entries.{where_key};
ghost use Rattle.sqlite.specs.Held.{state};
ghost use Rattle.sqlite.specs.Values.{bound};
ghost use Rattle.sqlite.specs.Term.{Term};
ghost use Rattle.sqlite.specs.State.{HasCleanDisk, Shown};
ghost use Rattle.sqlite.specs.declared.types.Value.TheVariants.{Text};
ghost use Rattle.sqlite.specs.Order.{column};
ghost use Rattle.ft_rows.specs.Store.{list_key_cmp, name_cmp, without_index};
ghost use Rattle.ft_store.specs.Blame.{BlamesIn, BlamesOutside};
ghost use Rattle.ft_store.specs.Calls.{StepsOnOk};
ghost use Rattle.ft_store.specs.Inside.{DoneInside, MakesInside, without_contents, without_lists};
ghost use Rattle.ft_store.specs.Puts.{IsFull, GrowsOnOk, KeepsRestOnOk, KeepsRestIfOpen};
ghost use Rattle.ft_store.specs.Changes.{Changes, ChangesIfOpen, Drops};
ghost use Rattle.ft_store.specs.Groups.{put_each};
ghost use Rattle.ft_store.specs.Found.{found_note};
ghost use Rattle.ft_store.specs.Anew.{HasFirst, DropsLast, DropsNext, Fills, LooksAt, IsProbe, IsNear, IsFree, AreFree, IsShortNote, AreNotes, FindsInside, RestsOnOk, ThinsOnOk};

use crate::fault::StoreFault;
use crate::make::create;
use crate::sql::{DROP_CONTENTS, DROP_LISTS, DROP_LISTS_FROM, DROP_SIZES, NOTED};
use crate::statements::{beside, delete, put_note, run};
use sqlite::types::{ToSql, ValueRef};
use sqlite::{Alter, Row, Transaction};

/// So many noted names are put again at most.
const MANY: usize = 1000;

/// A noted name that is put again has fewer bytes.
const LONG: usize = 1_000_000;

// Whether the transaction goes on: only then a statement is run. It does nothing.
fn go_on<S: Alter>(tx: &mut Transaction<'_, S>) -> Result<(), StoreFault>
    ensures done { DoneInside S.Store tx.old.conn tx.new.conn result
        (RestsOnOk S.Store tx.old.conn.now tx.new.conn.now result) }
    ensures inside { HasCleanDisk (state S.Store tx.new.conn.now)
        → OnOk result (IsTrue (state S.Store tx.new.conn.now).in_transaction) }
    ensures refused { BlamesOutside S.Store tx.old.conn.now tx.new.conn.now result }
{
    let _count = tx.execute("", &[])?;
    Ok(())
}

// The rows of a query in a transaction.
fn look<S: Alter>(
    tx: &mut Transaction<'_, S>,
    sql: &str,
    params: &[ValueRef<'_>],
) -> Result<Vec<Row>, StoreFault>
    ensures done { DoneInside S.Store tx.old.conn tx.new.conn result
        ((tree : ℕ) (terms : List Term) (limit offset : Term)
        → LooksAt sql.now (bound params.now) tree terms limit offset
        → FindsInside S.Store tx.old.conn.now tx.new.conn.now result
        (λ rows. Shown sql.now (bound params.now) (state S.Store tx.old.conn.now)
        (state S.Store tx.new.conn.now) rows.items)) }
    ensures refused { (tree : ℕ) (terms : List Term) (limit offset : Term)
        → LooksAt sql.now (bound params.now) tree terms limit offset
        → BlamesOutside S.Store tx.old.conn.now tx.new.conn.now result }
{
    // For the proof: a query alone doesn't tell whether the transaction goes on.
    go_on(tx)?;
    Ok(tx.query_all(sql, params)?)
}

// ---- whether tables can be made anew

/// How many queries look for what stands in the way.
const PROBES: usize = 8;

/// The queries of the cells come first, and then those of the index.
const CELL_PROBE: usize = 0;

const INDEX_PROBE: usize = 2;

// A query of one row that stands in the way: one of another table, one of `skip`, or a noted name
// whose number is below 1. The engine looks a bound with an equals sign up by the key, and reads
// all rows for one without.
fn probe_text(at: usize) -> &'static str
    ensures { at < 8 → IsProbe at result.now }
{
    match at {
        0 => "SELECT tab FROM cell WHERE tab <= ?1 ORDER BY tab, docid, col LIMIT 1",
        1 => "SELECT tab FROM cell WHERE tab >= ?1 ORDER BY tab, docid, col LIMIT 1",
        2 => "SELECT tab FROM posting WHERE tab <= ?1 ORDER BY tab, term, docid LIMIT 1",
        3 => "SELECT tab FROM posting WHERE tab >= ?1 ORDER BY tab, term, docid LIMIT 1",
        4 => "SELECT tab FROM sizes WHERE tab <= ?1 ORDER BY tab, docid, col LIMIT 1",
        5 => "SELECT tab FROM sizes WHERE tab >= ?1 ORDER BY tab, docid, col LIMIT 1",
        6 => "SELECT tab FROM skip WHERE ?1 = 1 ORDER BY tab, col LIMIT 1",
        _ => "SELECT rowid FROM noted WHERE rowid < ?1 ORDER BY rowid LIMIT 1",
    }
}

// What is bound in it: the last number below the table's, or the first one above it.
fn probe_number(at: usize, tab: i64) -> i64
    ensures { IsNear at tab result }
{
    if at >= 6 {
        return 1;
    }
    if at % 2 == 0 {
        tab.saturating_sub(1)
    } else {
        tab.saturating_add(1)
    }
}

// Whether one of the queries gives no row.
fn is_free<S: Alter>(tx: &mut Transaction<'_, S>, tab: i64, at: usize) -> Result<bool, StoreFault>
    requires { at < 8 }
    ensures done { DoneInside S.Store tx.old.conn tx.new.conn result
        (FindsInside S.Store tx.old.conn.now tx.new.conn.now result
        (λ free. IsTrue free → IsFree at tab (state S.Store tx.old.conn.now).now.trees)) }
    ensures refused { BlamesOutside S.Store tx.old.conn.now tx.new.conn.now result }
{
    let number = probe_number(at, tab);
    let found = look(tx, probe_text(at), &[number.to_sql()])?;
    Ok(found.is_empty())
}

// Whether no row stands in the way, by the queries from one on.
fn is_alone<S: Alter>(
    tx: &mut Transaction<'_, S>,
    tab: i64,
    from: usize,
) -> Result<bool, StoreFault>
    requires { from < 8 }
    ensures done { DoneInside S.Store tx.old.conn tx.new.conn result
        (FindsInside S.Store tx.old.conn.now tx.new.conn.now result
        (λ alone. IsTrue alone → AreFree from tab (state S.Store tx.old.conn.now).now.trees)) }
    ensures refused { BlamesOutside S.Store tx.old.conn.now tx.new.conn.now result }
{
    for at in from..PROBES {
        if !is_free(tx, tab, at)? {
            return Ok(false);
        }
    }
    Ok(true)
}

// Whether a table has so many lists that to make the tables anew takes less time.
fn has_many<S: Alter>(tx: &mut Transaction<'_, S>, tab: i64) -> Result<bool, StoreFault>
    ensures done { DoneInside S.Store tx.old.conn tx.new.conn result
        (FindsInside S.Store tx.old.conn.now tx.new.conn.now result (λ _. ⊤)) }
    ensures refused { BlamesOutside S.Store tx.old.conn.now tx.new.conn.now result }
{
    let found = look(
        tx,
        "SELECT tab FROM posting WHERE tab = ?1 ORDER BY tab, term, docid LIMIT 1 OFFSET 200",
        &[tab.to_sql()],
    )?;
    Ok(!found.is_empty())
}

// The noted name in a row, if it can be put again.
fn name_in(row: &Row) -> Option<&str>
    ensures found { IfSome result (λ name. (column row.now 0 ≡ Text name.now)
        × IsUtf8 name.now × (length name.now < 1000000)) }
    ensures none { result ≡ None → IsShortNote row.now → ⊥ }
{
    let Ok(ValueRef::Text(stored)) = row.get_ref(0) else {
        return None;
    };
    let name = str::from_utf8(stored).ok()?;
    if name.len() < LONG { Some(name) } else { None }
}

// Whether all noted names in rows can be put again.
fn are_short(rows: &[Row]) -> bool
    ensures { IsTrue result → (length rows.now < 1000) × All IsShortNote rows.now }
{
    if rows.len() >= MANY {
        return false;
    }
    for row in rows {
        if name_in(row).is_none() {
            return false;
        }
    }
    true
}

// The noted names, where the tables can be made anew.
fn notes_beside<S: Alter>(
    tx: &mut Transaction<'_, S>,
    tab: i64,
    from: usize,
) -> Result<Option<Vec<Row>>, StoreFault>
    requires { from < 8 }
    ensures done { DoneInside S.Store tx.old.conn tx.new.conn result
        (FindsInside S.Store tx.old.conn.now tx.new.conn.now result
        (λ notes. let db = (state S.Store tx.old.conn.now).now.trees in
        IfSome notes (λ rows. AreFree from tab db × AreNotes db rows.items))) }
    ensures short { IfOk result (λ notes. IfSome notes (λ rows. All IsShortNote rows.items)) }
    ensures refused { BlamesOutside S.Store tx.old.conn.now tx.new.conn.now result }
{
    if !has_many(tx, tab)? || !is_alone(tx, tab, from)? {
        return Ok(None);
    }
    let notes = look(tx, NOTED, &[])?;
    if are_short(notes.as_slice()) {
        Ok(Some(notes))
    } else {
        Ok(None)
    }
}

// ---- tables that are made anew

// The text that drops a table, by its place in the schema.
fn drop_text(at: usize) -> &'static str
    ensures { 3 ≤ at → at < 8 → DropsNext at result.now }
{
    match at {
        3 => "DROP TABLE cell",
        4 => "DROP TABLE posting",
        5 => "DROP TABLE sizes",
        6 => "DROP TABLE noted",
        _ => "DROP TABLE skip",
    }
}

// Drops the last table that is there.
fn drop_table<S: Alter>(tx: &mut Transaction<'_, S>, at: usize) -> Result<(), StoreFault>
    requires { (3 ≤ at) × (at < 8) }
    ensures done { MakesInside S.Store tx.old.conn tx.new.conn result (HasFirst (at + 1))
        (DropsLast at) }
    ensures refused { BlamesIn S.Store tx.old.conn.now tx.new.conn.now result
        (HasFirst (at + 1)) }
{
    run(tx, drop_text(at), &[])
}

// Drops the tables of the index, and those behind them.
fn drop_index<S: Alter>(tx: &mut Transaction<'_, S>) -> Result<(), StoreFault>
    ensures done { MakesInside S.Store tx.old.conn tx.new.conn result (HasFirst 8) (DropsLast 4) }
    ensures refused { BlamesIn S.Store tx.old.conn.now tx.new.conn.now result (HasFirst 8) }
{
    drop_table(tx, 7)?;
    drop_table(tx, 6)?;
    drop_table(tx, 5)?;
    drop_table(tx, 4)
}

// Makes them.
fn make_index<S: Alter>(tx: &mut Transaction<'_, S>) -> Result<(), StoreFault>
    ensures done { MakesInside S.Store tx.old.conn tx.new.conn result (HasFirst 4) (Fills 4 8) }
    ensures refused { BlamesIn S.Store tx.old.conn.now tx.new.conn.now result (HasFirst 4) }
{
    create(tx, 4)?;
    create(tx, 5)?;
    create(tx, 6)?;
    create(tx, 7)
}

// Makes the tables of the index anew, and those behind them.
fn renew_index<S: Alter>(tx: &mut Transaction<'_, S>) -> Result<(), StoreFault>
    ensures done { MakesInside S.Store tx.old.conn tx.new.conn result (HasFirst 8) (Fills 4 8) }
    ensures refused { BlamesIn S.Store tx.old.conn.now tx.new.conn.now result (HasFirst 8) }
{
    drop_index(tx)?;
    make_index(tx)
}

// Makes the table of the cells anew, where it is the last.
fn renew_cells<S: Alter>(tx: &mut Transaction<'_, S>) -> Result<(), StoreFault>
    ensures done { MakesInside S.Store tx.old.conn tx.new.conn result (HasFirst 4) (Fills 3 4) }
    ensures refused { BlamesIn S.Store tx.old.conn.now tx.new.conn.now result (HasFirst 4) }
{
    drop_table(tx, 3)?;
    create(tx, 3)
}

// Makes the table of the cells anew, with all behind it.
fn renew_documents<S: Alter>(tx: &mut Transaction<'_, S>) -> Result<(), StoreFault>
    ensures done { MakesInside S.Store tx.old.conn tx.new.conn result (HasFirst 8) (Fills 3 8) }
    ensures refused { BlamesIn S.Store tx.old.conn.now tx.new.conn.now result (HasFirst 8) }
{
    drop_index(tx)?;
    renew_cells(tx)?;
    make_index(tx)
}

// Puts a noted name again.
fn put_again<S: Alter>(tx: &mut Transaction<'_, S>, row: &Row) -> Result<(), StoreFault>
    requires { IsShortNote row.now }
    ensures changes { Changes S.Store tx.old.conn tx.new.conn result
        (λ v. record v { noted = put_each name_cmp (found_note row.now ∷ []) v.noted })
        1 (λ db. IsFull 1 (db 11)) }
    ensures others { KeepsRestOnOk S.Store tx.old.conn.now tx.new.conn.now result 11 }
{
    match name_in(row) {
        Some(name) => put_note(tx, name),
        None => Err(StoreFault::Damaged),
    }
}

// Puts noted names again.
fn put_notes<S: Alter>(tx: &mut Transaction<'_, S>, notes: &[Row]) -> Result<(), StoreFault>
    requires { All IsShortNote notes.now }
    ensures changes { ChangesIfOpen S.Store tx.old.conn tx.new.conn result
        (λ v. record v { noted = put_each name_cmp (map found_note notes.now) v.noted })
        (length notes.now) (λ db. IsFull (length notes.now) (db 11)) }
    ensures others { KeepsRestIfOpen S.Store tx.old.conn.now tx.new.conn.now result 11 }
{
    for note in notes {
        put_again(tx, note)?;
    }
    Ok(())
}

// ---- the rows of a table

// Takes all index rows of the only table that has rows out.
fn empty_index<S: Alter>(
    tx: &mut Transaction<'_, S>,
    _tab: i64,
    notes: &[Row],
) -> Result<(), StoreFault>
    requires { All IsShortNote notes.now }
    ensures done { DoneInside S.Store tx.old.conn tx.new.conn result
        (AreFree 2 _tab (state S.Store tx.old.conn.now).now.trees
        → AreNotes (state S.Store tx.old.conn.now).now.trees notes.now
        → StepsOnOk S.Store tx.old.conn.now tx.new.conn.now result (without_index _tab)) }
    ensures grown { AreFree 2 _tab (state S.Store tx.old.conn.now).now.trees
        → AreNotes (state S.Store tx.old.conn.now).now.trees notes.now
        → GrowsOnOk S.Store tx.old.conn.now tx.new.conn.now result 0 }
    ensures refused { AreFree 2 _tab (state S.Store tx.old.conn.now).now.trees
        → AreNotes (state S.Store tx.old.conn.now).now.trees notes.now
        → BlamesOutside S.Store tx.old.conn.now tx.new.conn.now result }
{
    renew_index(tx)?;
    put_notes(tx, notes)
}

// The same of its documents, with their index rows.
fn empty_documents<S: Alter>(
    tx: &mut Transaction<'_, S>,
    _tab: i64,
    notes: &[Row],
) -> Result<(), StoreFault>
    requires { All IsShortNote notes.now }
    ensures done { DoneInside S.Store tx.old.conn tx.new.conn result
        (AreFree 0 _tab (state S.Store tx.old.conn.now).now.trees
        → AreNotes (state S.Store tx.old.conn.now).now.trees notes.now
        → StepsOnOk S.Store tx.old.conn.now tx.new.conn.now result
        (λ v. without_contents _tab (without_index _tab v))) }
    ensures grown { AreFree 0 _tab (state S.Store tx.old.conn.now).now.trees
        → AreNotes (state S.Store tx.old.conn.now).now.trees notes.now
        → GrowsOnOk S.Store tx.old.conn.now tx.new.conn.now result 0 }
    ensures refused { AreFree 0 _tab (state S.Store tx.old.conn.now).now.trees
        → AreNotes (state S.Store tx.old.conn.now).now.trees notes.now
        → BlamesOutside S.Store tx.old.conn.now tx.new.conn.now result }
{
    renew_documents(tx)?;
    put_notes(tx, notes)
}

/// First letters of terms, from the last one on.
const LETTERS: &[&str] = &[
    "z", "y", "x", "w", "v", "u", "t", "s", "r", "q", "p", "o", "n", "m", "l", "k", "j", "i", "h",
    "g", "f", "e", "d", "c", "b", "a", "9", "8", "7", "6", "5", "4", "3", "2", "1",
];

// Takes the lists of a table out whose terms aren't below one.
fn drop_lists_from<S: Alter>(
    tx: &mut Transaction<'_, S>,
    tab: i64,
    from: &str,
) -> Result<(), StoreFault>
    ensures { Drops S.Store tx.old.conn tx.new.conn result
        (λ v. record v {
          lists = where_key list_key_cmp
              (λ k. not (int_eq tab k.0 && is_le (name_cmp from.now k.1))) v.lists;
        }) }
{
    delete(tx, DROP_LISTS_FROM, &[beside(tab, from), from.to_sql()])
}

// Takes lists of a table out in parts, where it has many: the database holds the rows that one
// statement takes out. Some may be left.
fn thin_lists<S: Alter>(tx: &mut Transaction<'_, S>, tab: i64) -> Result<(), StoreFault>
    ensures done { DoneInside S.Store tx.old.conn tx.new.conn result
        (ThinsOnOk S.Store tx.old.conn.now tx.new.conn.now result tab) }
    ensures refused { BlamesOutside S.Store tx.old.conn.now tx.new.conn.now result }
{
    if !has_many(tx, tab)? {
        return Ok(());
    }
    for letter in LETTERS {
        drop_lists_from(tx, tab, letter)?;
    }
    Ok(())
}

// Takes all lists of a table out.
fn delete_lists<S: Alter>(tx: &mut Transaction<'_, S>, tab: i64) -> Result<(), StoreFault>
    ensures { Drops S.Store tx.old.conn tx.new.conn result
        (λ v. without_lists tab v) }
{
    thin_lists(tx, tab)?;
    delete(tx, DROP_LISTS, &[tab.to_sql()])
}

// Takes all index rows of a table out, one by one.
fn delete_index<S: Alter>(tx: &mut Transaction<'_, S>, tab: i64) -> Result<(), StoreFault>
    ensures { Drops S.Store tx.old.conn tx.new.conn result
        (λ v. without_index tab v) }
{
    delete_lists(tx, tab)?;
    delete(tx, DROP_SIZES, &[tab.to_sql()])
}

// The same of its documents, with their index rows.
fn delete_documents<S: Alter>(tx: &mut Transaction<'_, S>, tab: i64) -> Result<(), StoreFault>
    ensures { Drops S.Store tx.old.conn tx.new.conn result
        (λ v. without_contents tab (without_index tab v)) }
{
    delete_index(tx, tab)?;
    delete(tx, DROP_CONTENTS, &[tab.to_sql()])
}

/// Takes all index rows of a table out.
pub(crate) fn clear_index<S: Alter>(tx: &mut Transaction<'_, S>, tab: i64) -> Result<(), StoreFault>
    ensures { Drops S.Store tx.old.conn tx.new.conn result
        (λ v. without_index tab v) }
{
    match notes_beside(tx, tab, INDEX_PROBE)? {
        Some(notes) => empty_index(tx, tab, notes.as_slice()),
        None => delete_index(tx, tab),
    }
}

/// Takes the documents of a table out, with its index rows.
pub(crate) fn clear_documents<S: Alter>(
    tx: &mut Transaction<'_, S>,
    tab: i64,
) -> Result<(), StoreFault>
    ensures { Drops S.Store tx.old.conn tx.new.conn result
        (λ v. without_contents tab (without_index tab v)) }
{
    match notes_beside(tx, tab, CELL_PROBE)? {
        Some(notes) => empty_documents(tx, tab, notes.as_slice()),
        None => delete_documents(tx, tab),
    }
}
