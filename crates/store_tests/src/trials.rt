//! Trials over databases in memory. What these stand on is named here alone: of a call that names
//! it the checker follows each way out into the parts of a disk. So a trial is generic in it.

use ft_opening::Adopt;
use ft_store::{Store, StoreFault};
use ram_disk::{is_always_clean, open_ram};
use sqlite::{Alter, Connection};
use std::alloc::Global;
use std::test::Fail;

/// What is tried on a database, whatever it stands on.
pub(crate) trait Trial: Copy {
    /// What is found by it.
    type Found;

    /// What is found in this database.
    fn over<S: Alter + Drop>(self, alloc: Global, conn: Connection<S>) -> Result<Self::Found, Fail>;
}

/// What is found in an empty database.
pub(crate) fn tried<T: Trial>(alloc: Global, trial: T) -> Result<T::Found, Fail> {
    let conn = open_ram(alloc)?;
    is_always_clean(&conn);
    trial.over(alloc, conn)
}

/// The number that a query answers.
pub(crate) fn number<S: Alter>(conn: &mut Connection<S>, query: &str) -> Result<i64, Fail> {
    Ok(conn.query_row(query, &[])?.get(0)?)
}

/// A database that is taken, as the store that it then is.
pub(crate) fn adopted<S: Alter + Drop>(
    alloc: Global,
    conn: Connection<S>,
) -> Result<Store<S>, Fail> {
    match Store::adopt(alloc, conn) {
        Ok(store) => Ok(store),
        Err(_) => Err(Fail::new("no store")),
    }
}

/// The same, taken again after statements, by which any SQL tool may change the rows.
pub(crate) fn adopted_after<S: Alter + Drop>(
    alloc: Global,
    conn: Connection<S>,
    texts: &str,
) -> Result<Store<S>, Fail> {
    let mut conn = adopted(alloc, conn)?.into_connection();
    conn.execute_batch(texts)?;
    adopted(alloc, conn)
}

/// What is read of all rows: the tables, and the cells, entries and sizes of the first.
pub(crate) fn all_read<S: Alter>(
    store: &mut Store<S>,
    alloc: Global,
) -> Result<String, StoreFault> {
    let tables = store.tables()?;
    let cells = store.cells(1)?;
    let entries = store.entries(1)?;
    let sizes = store.sizes(1)?;
    Ok(format!(in alloc; "{tables:?} {cells:?} {entries:?} {sizes:?}")?)
}
