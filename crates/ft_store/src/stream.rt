//! The rows of a query, gathered as they come.
ghost use Rattle.std.specs.Prelude.{◌≡◌, ◌++◌, ◌∷◌, [], List, Bool, true, Err, ℤ, map, IfOk, IfErr};
ghost use Rattle.sqlite.specs.Order as order;
ghost use Rattle.sqlite.specs.Values.{bound};
ghost use Rattle.sqlite.specs.Held.{state};
ghost use Rattle.ft_rows.specs.declared.terms.TermLists.{TermLists};
ghost use Rattle.ft_store.specs.Blame.{RefusesRead};
ghost use Rattle.ft_store.specs.Calls.{IsPlainFault};
ghost use Rattle.ft_store.specs.Settled.{IsSettled, IsPlainIn, FindsOrRefuses, ReadsFor, GivesRows};

use crate::fault::StoreFault;
use sqlite::types::ValueRef;
use sqlite::{Alter, Connection, Row};
use std::alloc::Global;

/// What is made of rows, one after the other.
pub trait Gathered: Sized {
    /// It is made of these rows, which are all whole, or it is known that one of them isn't.
    ghost is_made_of: { Self → Bool → List order.Row → Type 0 };

    /// The lists that the rows are compared with, which stay. Mostly there are none.
    ghost expects: { Self → List TermLists } = { λ _. [] };

    /// The rows that are taken, where it is said which.
    ghost takes: { order.Row → Type 0 } = { λ _. ⊥ };

    /// Adds what a row gives, where those before it are whole, and says whether all still are.
    fn add(&mut self, whole: bool, row: &Row) -> Result<bool, StoreFault>
        ensures added { IfOk result (λ still. (rows : List order.Row)
            → is_made_of self.old whole rows → is_made_of self.new still (rows ++ row.now ∷ [])) }
        ensures expects { IfOk result (λ _. expects self.new ≡ expects self.old) }
        ensures fault { IfErr result IsPlainFault }
        ensures refused { result ≡ Err StoreFault.Refused → takes row.now → ⊥ };
}

/// Gathers the rows that a query gives, and says whether all are whole. It changes nothing.
pub fn gather<S: Alter, G: Gathered>(
    conn: &mut Connection<S>,
    sql: &str,
    params: &[ValueRef<'_>],
    into: &mut G,
) -> Result<bool, StoreFault>
    requires asked { IsSettled (IsPlainIn sql.now) (state S.Store conn.old) }
    requires none { G.Gathered.is_made_of into.old true [] }
    ensures given { ReadsFor S.Store conn.old conn.new result
        (λ whole. GivesRows S.Store conn.old conn.new sql.now (bound params.now)
        (G.Gathered.is_made_of into.new whole)) }
    ensures expects { IfOk result (λ _.
        G.Gathered.expects into.new ≡ G.Gathered.expects into.old) }
    ensures refused { RefusesRead S.Store conn.old conn.new result sql.now (bound params.now)
        G.Gathered.takes }
{
    // For the proof: an open database keeps the rules of its schema.
    let _schema = conn.schema();
    // For the proof: outside a transaction an open database is as the last commit left it.
    let _settled = conn.is_autocommit();
    let mut rows = conn.query(sql, params)?;
    let mut whole = true;
    'rows: for _ in 0..usize::MAX {
        match rows.next()? {
            Some(row) => whole = into.add(whole, row)?,
            None => return Ok(whole),
        }
    }
    // So many rows can't be held.
    Err(StoreFault::Memory)
}

/// What stands in a row of a query.
pub trait InRow: Drop {
    /// The same under its key in the store's value, with the table that is asked for.
    ghost Shown: { Type 0 };

    ghost shown: { ℤ → Self → Shown };

    ghost found: { ℤ → order.Row → Shown };

    /// The rows that are read, where it is said which.
    ghost is_readable: { order.Row → Type 0 } = { λ _. ⊥ };

    fn read(alloc: Global, row: &Row) -> Result<Self, StoreFault>
        ensures found { FindsOrRefuses result (λ x. (tab : ℤ) → shown tab x ≡ found tab row.now) }
        ensures refused { result ≡ Err StoreFault.Refused → is_readable row.now → ⊥ };
}

/// What stands in rows, as they come.
#[derive(Drop)]
struct InRows<T> {
    alloc: Global,
    items: Vec<T>,
}

impl<T: InRow> Gathered for InRows<T> {
    ghost use Rattle.std.specs.Prelude.{◌≡◌, ℤ, map, IsTrue};

    ghost is_made_of = { λ made whole rows. IsTrue whole
        × ((tab : ℤ) → map (T.InRow.shown tab) made.items.items ≡ map (T.InRow.found tab) rows) };

    ghost takes = { T.InRow.is_readable };

    fn add(&mut self, whole: bool, row: &Row) -> Result<bool, StoreFault> {
        self.items.push(T::read(self.alloc, row)?)?;
        Ok(whole)
    }
}

/// What stands in the rows that a query gives, in their order.
pub fn select<S: Alter, T: InRow>(
    conn: &mut Connection<S>,
    alloc: Global,
    sql: &str,
    params: &[ValueRef<'_>],
) -> Result<Vec<T>, StoreFault>
    requires { IsSettled (IsPlainIn sql.now) (state S.Store conn.old) }
    ensures given { ReadsFor S.Store conn.old conn.new result
        (λ found. GivesRows S.Store conn.old conn.new sql.now (bound params.now) (λ rows.
        (tab : ℤ) → map (T.InRow.shown tab) found.items ≡ map (T.InRow.found tab) rows)) }
    ensures refused { RefusesRead S.Store conn.old conn.new result sql.now (bound params.now)
        T.InRow.is_readable }
{
    let mut found = InRows {
        alloc,
        items: Vec::new(alloc),
    };
    gather(conn, sql, params, &mut found)?;
    Ok(found.items)
}
