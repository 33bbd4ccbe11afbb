//! Whether a database with the tables of a store is one.
ghost use Rattle.std.specs.Prelude.{◌≡◌, ◌≢◌, ◌↔◌, ◌⊎◌, ℤ, ◌<◌, length, MatchOption, Err, Some, None, IsTrue, IfErr, OnOk};
ghost use Rattle.sqlite.specs.State.{HasCleanDisk};
ghost use Rattle.sqlite.specs.Held.{state};
ghost use Rattle.sqlite.specs.Order.{column};
ghost use Rattle.ft_opening.specs.declared.same.Layout.{Layout};
ghost use Rattle.ft_opening.specs.Scan.{Scans, tree_at};
ghost use Rattle.ft_opening.specs.Older.{schema_of, tables_of, version_of, IsStoreBy};
ghost use Rattle.ft_opening.specs.Adopted.{HasVersion, other_version, IsAdoptFault, IsOddStore, IsOtherVersion};
ghost use Rattle.ft_store.specs.Blame.{IsBlamed, Blames};
ghost use Rattle.ft_store.specs.Calls.{HasOwnRowids, HaveOwnRowids, ReadsOnly};
ghost use Rattle.ft_store.specs.Settled.{IsSettled, ReadsFor};
ghost use Rattle.ft_opening.specs.Taking.{AreAsKnown, IsLaidOut, IsJudged};

use crate::same::Layout;
use ft_store::{Gathered, StoreFault, gather, select};
use sqlite::{Alter, Connection, Row};
use std::alloc::Global;

/// What is known of the rowids of a database's tables.
#[derive(Clone, Copy, PartialEq)]
pub(crate) enum Rowids {
    /// No two rows of a table have the same.
    Apart,
    /// Nothing, so that they are looked at.
    Unknown,
}

// How many tables a store has.
fn tables_in(layout: Layout) -> usize
    ensures { result ≡ tables_of layout }
{
    match layout {
        Layout::Older => 7,
        Layout::Present => 8,
    }
}

// The query of a table's rowids, in their order.
fn rowids_query(at: usize) -> &'static str
    ensures { (layout : Layout) → at < tables_of layout
        → Scans (schema_of layout) result.now (tree_at at) }
{
    match at {
        0 => "SELECT rowid FROM meta ORDER BY rowid",
        1 => "SELECT rowid FROM tab ORDER BY rowid",
        2 => "SELECT rowid FROM col ORDER BY rowid",
        3 => "SELECT rowid FROM cell ORDER BY rowid",
        4 => "SELECT rowid FROM posting ORDER BY rowid",
        5 => "SELECT rowid FROM sizes ORDER BY rowid",
        6 => "SELECT rowid FROM noted ORDER BY rowid",
        _ => "SELECT rowid FROM skip ORDER BY rowid",
    }
}

/// The numbers in the first column, as their rows come: whole as long as they rise.
#[derive(Drop)]
struct Rising {
    last: Option<i64>,
}

impl Gathered for Rising {
    ghost use Rattle.std.specs.Prelude.{◌<◌, length, IsTrue};
    ghost use Rattle.sqlite.specs.Order.{column};
    ghost use Rattle.sqlite.specs.Values.{IsInt};
    ghost use Rattle.ft_opening.specs.Scan.{RiseTo, AreRising, IsOneOf};

    ghost is_made_of = { λ made whole rows. (IsTrue whole → RiseTo made.last rows)
        × (AreRising rows → IsTrue whole) × IsOneOf made.last rows };

    ghost takes = { λ row. (0 < length row) × IsInt (column row 0) };

    fn add(&mut self, whole: bool, row: &Row) -> Result<bool, StoreFault> {
        let id: i64 = row.get(0)?;
        let rises = self.last.is_none_or(|last| last < id);
        self.last = Some(id);
        Ok(whole && rises)
    }
}

// Whether no two rows of a table have one rowid.
fn is_numbered<S: Alter>(
    conn: &mut Connection<S>,
    layout: Layout,
    at: usize,
) -> Result<bool, StoreFault>
    requires within { at < tables_of layout }
    requires rest { IsSettled (IsLaidOut layout) (state S.Store conn.old) }
    ensures numbered { ReadsFor S.Store conn.old conn.new result
        (λ b. IsTrue b ↔ HasOwnRowids ((state S.Store conn.old).now.trees (tree_at at))) }
    ensures refused { HasCleanDisk (state S.Store conn.new) → result ≡ Err StoreFault.Refused
        → IsBlamed (state S.Store conn.old) (state S.Store conn.new)
        ⊎ ¬ HasOwnRowids ((state S.Store conn.old).now.trees (tree_at at)) }
{
    let mut numbers = Rising { last: None };
    gather(conn, rowids_query(at), &[], &mut numbers)
}

// The version, where `meta` has one row.
fn version<S: Alter>(
    conn: &mut Connection<S>,
    alloc: Global,
    layout: Layout,
) -> Result<Option<i64>, StoreFault>
    requires { IsSettled (IsLaidOut layout) (state S.Store conn.old) }
    ensures found { ReadsFor S.Store conn.old conn.new result
        (λ o. MatchOption o (length ((state S.Store conn.old).now.trees 0) ≢ 1)
        (λ n. HasVersion n (state S.Store conn.old).now.trees)) }
    ensures refused { Blames (state S.Store conn.old) (state S.Store conn.new) result }
{
    // For the proof: an open database keeps the rules of its schema.
    let _schema = conn.schema();
    let found: Vec<i64> = select(conn, alloc, "SELECT version FROM meta", &[])?;
    if found.len() != 1 {
        return Ok(None);
    }
    Ok(Some(found[0]))
}

// Whether no two rows of any table have one rowid.
fn are_numbered<S: Alter>(conn: &mut Connection<S>, layout: Layout) -> Result<bool, StoreFault>
    requires { IsSettled (IsLaidOut layout) (state S.Store conn.old) }
    ensures numbered { ReadsFor S.Store conn.old conn.new result
        (λ b. IsTrue b ↔ HaveOwnRowids (schema_of layout).tables
        (state S.Store conn.old).now.trees) }
    ensures refused { HasCleanDisk (state S.Store conn.new) → result ≡ Err StoreFault.Refused
        → IsBlamed (state S.Store conn.old) (state S.Store conn.new)
        ⊎ ¬ HaveOwnRowids (schema_of layout).tables (state S.Store conn.old).now.trees }
{
    for at in 0..tables_in(layout) {
        if !is_numbered(conn, layout, at)? {
            return Ok(false);
        }
    }
    Ok(true)
}

// What the version in `meta` says of a database with the tables of a store.
fn judge(found: Option<i64>, layout: Layout) -> Result<(), StoreFault>
    ensures marked { OnOk result (found ≡ Some (version_of layout)) }
    ensures unmarked { result ≡ Err StoreFault.NotAStore → found ≡ None }
    ensures version { (n : ℤ) → result ≡ Err (StoreFault.Version n)
        → (found ≡ Some n) × IsOtherVersion n }
    ensures other { result ≡ Err StoreFault.Refused → found ≡ Some (other_version layout) }
    ensures cause { IfErr result IsAdoptFault }
{
    match (found, layout) {
        (Some(2), Layout::Older) | (Some(3), Layout::Present) => Ok(()),
        (Some(2 | 3), _) => Err(StoreFault::Refused),
        (Some(other), _) => Err(StoreFault::Version(other)),
        (None, _) => Err(StoreFault::NotAStore),
    }
}

/// Whether a database with the tables of a store is a store. Nothing changes. Rowids that are known
/// to be apart aren't read.
pub(crate) fn examine<S: Alter>(
    conn: &mut Connection<S>,
    alloc: Global,
    layout: Layout,
    rowids: Rowids,
) -> Result<(), StoreFault>
    requires rest { IsSettled (IsLaidOut layout) (state S.Store conn.old) }
    requires known { AreAsKnown rowids (state S.Store conn.old) }
    ensures store { HasCleanDisk (state S.Store conn.new)
        → OnOk result (IsStoreBy layout (state S.Store conn.new).now) }
    ensures judged { HasCleanDisk (state S.Store conn.new)
        → IsJudged (state S.Store conn.old).now.trees result }
    ensures read { ReadsOnly S.Store conn.old conn.new result IsAdoptFault }
    ensures refused { HasCleanDisk (state S.Store conn.new) → result ≡ Err StoreFault.Refused
        → IsBlamed (state S.Store conn.old) (state S.Store conn.new)
        ⊎ IsOddStore layout (state S.Store conn.old).now.trees }
{
    // For the proof: an open database keeps the rules of its schema.
    let _schema = conn.schema();
    judge(version(conn, alloc, layout)?, layout)?;
    if rowids == Rowids::Apart || are_numbered(conn, layout)? {
        Ok(())
    } else {
        Err(StoreFault::Refused)
    }
}
