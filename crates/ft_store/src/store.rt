//! The store: what its tables hold is one value, read by key and changed in transactions.
ghost use Rattle.sqlite.specs.Held.{state};
ghost use Rattle.std.specs.Prelude.{◌≡◌, ◌↔◌, if◌then◌else◌, ◌&&◌, false, Err, IfErr, map, vec_len, length, option_to_list, slice_get, is_some, nat_eq, All, IsTrue, IfOk, OnOk};
ghost use Rattle.std.specs.Ordering.{int_eq, is_eq};
ghost use Rattle.std.specs.List.{starts_with};
ghost use Rattle.std.specs.FinMap.Entries.{where_key};
ghost use Rattle.sqlite.specs.State.{HasCleanDisk};
ghost use Rattle.sqlite_trees.specs.Tree.{Trees};
ghost use Rattle.ft_rows.specs.Store.{cell_key_cmp, list_key_cmp, name_cmp, all_applied, AreInOrder};
ghost use Rattle.ft_rows.specs.Changes.{shown_change, CanApply};
ghost use Rattle.ft_rows.specs.Shown.{shown_cell, shown_size, shown_note, shown_list, shown_entry, lists_under_term, lists_of_prefix, spot_count, table_listed, tables_listed, shown_table, last_docid_of, entries_of, AreWhole, AreListRows, SomeDamaged, AreNamedApart};
ghost use Rattle.ft_rows.specs.Terms.{lists_by_terms};
ghost use Rattle.ft_store.specs.Blame.{Blames, AreTableTexts, AreNotedTexts};
ghost use Rattle.ft_store.specs.Puts.{BlamesPuts};
ghost use Rattle.ft_store.specs.Docids.{docids_in, cut_to};
ghost use Rattle.ft_store.specs.Expected.{posting_count};
ghost use Rattle.ft_store.specs.Calls.{AreTold, IsPlainFault, IsReadFault, IsChangeFault, IsStored, IsStoreIfOpen, MakesAllOrNone};
ghost use Rattle.ft_store.specs.Parts.{changes_in, CanMake};

use crate::expected::count_places;
use crate::fault::StoreFault;
use crate::lists::{count_spots, term_entries};
use crate::parts::Parts;
use crate::read::row_limit;
use crate::sql::{CELLS, DOCIDS, DOCUMENT, LAST_DOCID, NOTED, ONE_CELL, SIZES};
use crate::stream::select;
use crate::{expected, lists, tables, write};
use ft_rows::TermLists;
use ft_values::{CellRow, EntryRow, ListRow, RowChange, SizeRow, TabRow};
use sqlite::{Alter, Connection, params};
use std::alloc::Global;
use std::marker::Model;

/// How many rows the reads of a new store gave.
const UNREAD: u64 = 0;

/// Rows of full-text tables, in a database that holds nothing else.
///
/// What a call says of rows holds where the database is clean and open as the call ends: so far the
/// disk returned what was written, and nobody else wrote it. Over memory that is always so.
#[derive(Drop)]
pub struct Store<S: Alter> {
    conn: Connection<S>,
    alloc: Global,
    rows_read: u64,
}

impl<S: Alter> Model for Store<S> {
    ghost use Rattle.ft_store.specs.Kept.{StoreState, store_code, IsKept};

    ghost Value = { StoreState S };

    ghost coded = { store_code S.code };

    ghost view = { λ s. record { held = s.conn; rows_read = s.rows_read } };

    ghost invariant = { λ s. IsKept S.Store s.conn };
}

impl<S: Alter> Store<S> {
    ghost use Rattle.ft_store.specs.Kept.{shows, value_in, AreCommitted, Pings, ReadsRows};

    /// The store that a connection stands for, where its database is known to be one: nothing of it
    /// is looked at.
    pub fn over(alloc: Global, conn: Connection<S>) -> Store<S>
        requires settled { conn.in_transaction ≡ false }
        requires store { IsStoreIfOpen (state S.Store conn) }
        ensures held { result.held ≡ conn }
        ensures unread { result.rows_read ≡ 0 }
    {
        Store {
            conn,
            alloc,
            rows_read: UNREAD,
        }
    }

    /// Asks the database whether it is open, and for nothing else.
    pub fn ping(&mut self) -> Result<(), StoreFault>
        ensures { Pings S.Store self.old self.new result }
    {
        // For the proof: outside a transaction an open database is as the last commit left it.
        let _settled = self.conn.is_autocommit();
        let _statement = self.conn.prepare("")?;
        Ok(())
    }

    /// All tables, by rising number, each with its columns and the numbers of those that aren't
    /// indexed.
    pub fn tables(&mut self) -> Result<Vec<TabRow>, StoreFault>
        ensures rows { HasCleanDisk (shows S.Store self.new)
            → IfOk result (λ found. map shown_table found.items
            ≡ tables_listed (value_in S.Store self.old)) }
        ensures read { ReadsRows S.Store self.old self.new result vec_len IsPlainFault }
        ensures refused { AreTableTexts (value_in S.Store self.old)
            → Blames (shows S.Store self.old) (shows S.Store self.new) result }
    {
        let found = tables::tables(&mut self.conn, self.alloc)?;
        self.rows_read = self.rows_read.saturating_add(found.len() as u64);
        Ok(found)
    }

    /// The table of a number with its columns, under a name that is given.
    pub fn table(&mut self, id: i64, name: &str) -> Result<TabRow, StoreFault>
        ensures rows { HasCleanDisk (shows S.Store self.new)
            → IfOk result (λ found. shown_table found
            ≡ table_listed (value_in S.Store self.old) (id, name.now)) }
        ensures read { ReadsRows S.Store self.old self.new result (λ _. 1) IsPlainFault }
        ensures refused { Blames (shows S.Store self.old) (shows S.Store self.new) result }
    {
        let name = String::from_str(self.alloc, name)?;
        let found = tables::table(&mut self.conn, self.alloc, id, name)?;
        self.rows_read = self.rows_read.saturating_add(1);
        Ok(found)
    }

    /// All cells of a table, by rising docid and then column.
    pub fn cells(&mut self, tab: i64) -> Result<Vec<CellRow>, StoreFault>
        ensures rows { HasCleanDisk (shows S.Store self.new)
            → IfOk result (λ found. map (shown_cell tab) found.items
            ≡ where_key cell_key_cmp (λ k. int_eq tab k.0) (value_in S.Store self.old).cells) }
        ensures read { ReadsRows S.Store self.old self.new result vec_len IsPlainFault }
        ensures refused { Blames (shows S.Store self.old) (shows S.Store self.new) result }
    {
        let found = select(&mut self.conn, self.alloc, CELLS, params![tab])?;
        self.rows_read = self.rows_read.saturating_add(found.len() as u64);
        Ok(found)
    }

    /// The cells of one document, by rising column.
    pub fn document(&mut self, tab: i64, docid: i64) -> Result<Vec<CellRow>, StoreFault>
        ensures rows { HasCleanDisk (shows S.Store self.new)
            → IfOk result (λ found. map (shown_cell tab) found.items
            ≡ where_key cell_key_cmp (λ k. int_eq tab k.0 && int_eq docid k.1)
            (value_in S.Store self.old).cells) }
        ensures read { ReadsRows S.Store self.old self.new result vec_len IsPlainFault }
        ensures refused { Blames (shows S.Store self.old) (shows S.Store self.new) result }
    {
        let found = select(&mut self.conn, self.alloc, DOCUMENT, params![tab, docid])?;
        self.rows_read = self.rows_read.saturating_add(found.len() as u64);
        Ok(found)
    }

    /// The docids of a table, rising: those of its cells of column 0, from an offset on and at most
    /// so many.
    pub fn docids(
        &mut self,
        tab: i64,
        most: Option<u32>,
        offset: u32,
    ) -> Result<Vec<i64>, StoreFault>
        ensures rows { HasCleanDisk (shows S.Store self.new)
            → IfOk result (λ found. found.items
            ≡ cut_to most offset (docids_in tab (value_in S.Store self.old).cells)) }
        ensures read { ReadsRows S.Store self.old self.new result vec_len IsPlainFault }
        ensures refused { Blames (shows S.Store self.old) (shows S.Store self.new) result }
    {
        let limit = row_limit(most);
        let found = select(
            &mut self.conn,
            self.alloc,
            DOCIDS,
            params![tab, limit, offset],
        )?;
        self.rows_read = self.rows_read.saturating_add(found.len() as u64);
        Ok(found)
    }

    /// Whether a table has a cell under a docid. Where it has, that counts as one row, else none.
    pub fn has_document(&mut self, tab: i64, docid: i64) -> Result<bool, StoreFault>
        ensures there { HasCleanDisk (shows S.Store self.new)
            → IfOk result (λ found. found ≡ is_some (slice_get
            (where_key cell_key_cmp (λ k. int_eq tab k.0 && int_eq docid k.1)
            (value_in S.Store self.old).cells) 0)) }
        ensures read { ReadsRows S.Store self.old self.new result
            (λ found. if found then 1 else 0) IsPlainFault }
        ensures refused { Blames (shows S.Store self.old) (shows S.Store self.new) result }
    {
        let found: Vec<i64> = select(&mut self.conn, self.alloc, ONE_CELL, params![tab, docid])?;
        let is_there = !found.is_empty();
        self.rows_read = self.rows_read.saturating_add(u64::from(is_there));
        Ok(is_there)
    }

    /// The greatest docid of a table's cells, None where it has none.
    pub fn last_docid(&mut self, tab: i64) -> Result<Option<i64>, StoreFault>
        ensures last { HasCleanDisk (shows S.Store self.new)
            → IfOk result (λ last. last ≡ last_docid_of tab (value_in S.Store self.old).cells) }
        ensures read { ReadsRows S.Store self.old self.new result
            (λ last. length (option_to_list last)) IsPlainFault }
        ensures refused { Blames (shows S.Store self.old) (shows S.Store self.new) result }
    {
        let found: Vec<i64> = select(&mut self.conn, self.alloc, LAST_DOCID, params![tab])?;
        let last = found.first().copied();
        self.rows_read = self.rows_read.saturating_add(u64::from(last.is_some()));
        Ok(last)
    }

    /// The entries of one term, by rising docid, then column and position. Damaged where one of its
    /// lists is.
    pub fn term(&mut self, tab: i64, term: &str) -> Result<Vec<EntryRow>, StoreFault>
        ensures rows { HasCleanDisk (shows S.Store self.new)
            → IfOk result (λ found. let asked = where_key list_key_cmp
            (λ k. int_eq tab k.0 && is_eq (name_cmp term.now k.1)) (value_in S.Store self.old).lists
            in (map shown_entry found.items ≡ entries_of asked) × AreWhole asked) }
        ensures read { ReadsRows S.Store self.old self.new result vec_len IsReadFault }
        ensures damaged { HasCleanDisk (shows S.Store self.new) → result ≡ Err StoreFault.Damaged
            → SomeDamaged (where_key list_key_cmp
            (λ k. int_eq tab k.0 && is_eq (name_cmp term.now k.1))
            (value_in S.Store self.old).lists) }
        ensures refused { Blames (shows S.Store self.old) (shows S.Store self.new) result }
    {
        let lists = lists::term_lists(&mut self.conn, self.alloc, tab, term)?;
        let found = term_entries(self.alloc, term, lists.as_slice())?;
        self.rows_read = self.rows_read.saturating_add(found.len() as u64);
        Ok(found)
    }

    /// The lists of one term, by rising docid. Damaged where one of them is. Each place counts as a
    /// row.
    pub fn term_lists(&mut self, tab: i64, term: &str) -> Result<Vec<ListRow>, StoreFault>
        ensures rows { HasCleanDisk (shows S.Store self.new)
            → IfOk result (λ found. AreListRows
            (lists_under_term tab term.now (value_in S.Store self.old))
            found.items) }
        ensures read { ReadsRows S.Store self.old self.new result
            (λ found. spot_count (map shown_list found.items)) IsReadFault }
        ensures damaged { HasCleanDisk (shows S.Store self.new) → result ≡ Err StoreFault.Damaged
            → SomeDamaged (lists_under_term tab term.now (value_in S.Store self.old)) }
        ensures refused { Blames (shows S.Store self.old) (shows S.Store self.new) result }
    {
        let found = lists::term_lists(&mut self.conn, self.alloc, tab, term)?;
        self.rows_read = self.rows_read.saturating_add(count_spots(found.as_slice()));
        Ok(found)
    }

    /// The entries of the terms that begin so, by term, then docid, column and position. Damaged
    /// where one of their lists is, or a term is no text.
    pub fn prefix(&mut self, tab: i64, begin: &str) -> Result<Vec<EntryRow>, StoreFault>
        ensures rows { HasCleanDisk (shows S.Store self.new)
            → IfOk result (λ found. let asked = where_key list_key_cmp
            (λ k. int_eq tab k.0 && starts_with nat_eq k.1 begin.now)
            (value_in S.Store self.old).lists in (map shown_entry found.items ≡ entries_of asked)
            × AreTold asked) }
        ensures read { ReadsRows S.Store self.old self.new result vec_len IsReadFault }
        ensures damaged { HasCleanDisk (shows S.Store self.new) → result ≡ Err StoreFault.Damaged
            → ¬ AreTold (where_key list_key_cmp
            (λ k. int_eq tab k.0 && starts_with nat_eq k.1 begin.now)
            (value_in S.Store self.old).lists) }
        ensures refused { Blames (shows S.Store self.old) (shows S.Store self.new) result }
    {
        let found = lists::prefix(&mut self.conn, self.alloc, tab, begin)?;
        self.rows_read = self.rows_read.saturating_add(found.len() as u64);
        Ok(found)
    }

    /// The lists of the terms that begin so, by term and then docid. Damaged where one of them is.
    /// Each place counts as a row.
    pub fn prefix_lists(&mut self, tab: i64, begin: &str) -> Result<Vec<ListRow>, StoreFault>
        ensures rows { HasCleanDisk (shows S.Store self.new)
            → IfOk result (λ found. AreListRows (lists_of_prefix tab begin.now
            (value_in S.Store self.old)) found.items) }
        ensures read { ReadsRows S.Store self.old self.new result
            (λ found. spot_count (map shown_list found.items)) IsReadFault }
        ensures damaged { HasCleanDisk (shows S.Store self.new) → result ≡ Err StoreFault.Damaged
            → SomeDamaged (lists_of_prefix tab begin.now (value_in S.Store self.old)) }
        ensures refused { Blames (shows S.Store self.old) (shows S.Store self.new) result }
    {
        let found = lists::prefix_lists(&mut self.conn, self.alloc, tab, begin)?;
        self.rows_read = self.rows_read.saturating_add(count_spots(found.as_slice()));
        Ok(found)
    }

    /// All entries of a table, by term, then docid, column and position. Damaged where one of its
    /// lists is, or a term is no text.
    pub fn entries(&mut self, tab: i64) -> Result<Vec<EntryRow>, StoreFault>
        ensures rows { HasCleanDisk (shows S.Store self.new)
            → IfOk result (λ found. let asked = where_key list_key_cmp (λ k. int_eq tab k.0)
            (value_in S.Store self.old).lists in (map shown_entry found.items ≡ entries_of asked)
            × AreTold asked) }
        ensures read { ReadsRows S.Store self.old self.new result vec_len IsReadFault }
        ensures damaged { HasCleanDisk (shows S.Store self.new) → result ≡ Err StoreFault.Damaged
            → ¬ AreTold (where_key list_key_cmp (λ k. int_eq tab k.0)
            (value_in S.Store self.old).lists) }
        ensures stays { HasCleanDisk (shows S.Store self.new) → result ≡ Err StoreFault.Damaged
            → IsTrue (shows S.Store self.new).is_open }
        ensures refused { Blames (shows S.Store self.old) (shows S.Store self.new) result }
    {
        let found = lists::prefix(&mut self.conn, self.alloc, tab, "")?;
        self.rows_read = self.rows_read.saturating_add(found.len() as u64);
        Ok(found)
    }

    /// Whether the lists of a table are exactly these, by term and docid. Where they are, each
    /// place counts as a row, else none.
    pub fn has_lists(&mut self, tab: i64, terms: Vec<TermLists>) -> Result<bool, StoreFault>
        ensures same { HasCleanDisk (shows S.Store self.new)
            → IfOk result (λ b. IsTrue b ↔ (where_key list_key_cmp (λ k. int_eq tab k.0)
            (value_in S.Store self.old).lists ≡ lists_by_terms tab terms.items)) }
        ensures read { ReadsRows S.Store self.old self.new result
            (λ b. if b then posting_count terms.items else 0) IsPlainFault }
        ensures refused { Blames (shows S.Store self.old) (shows S.Store self.new) result }
    {
        let places = count_places(terms.as_slice());
        let same = expected::has_lists(&mut self.conn, tab, terms)?;
        if same {
            self.rows_read = self.rows_read.saturating_add(places);
        }
        Ok(same)
    }

    /// The sizes of a table's cells, by rising docid and then column.
    pub fn sizes(&mut self, tab: i64) -> Result<Vec<SizeRow>, StoreFault>
        ensures rows { HasCleanDisk (shows S.Store self.new)
            → IfOk result (λ found. map (shown_size tab) found.items
            ≡ where_key cell_key_cmp (λ k. int_eq tab k.0) (value_in S.Store self.old).sizes) }
        ensures read { ReadsRows S.Store self.old self.new result vec_len IsPlainFault }
        ensures refused { Blames (shows S.Store self.old) (shows S.Store self.new) result }
    {
        let found = select(&mut self.conn, self.alloc, SIZES, params![tab])?;
        self.rows_read = self.rows_read.saturating_add(found.len() as u64);
        Ok(found)
    }

    /// The noted names, in the order of their small letters.
    pub fn noted(&mut self) -> Result<Vec<String>, StoreFault>
        ensures rows { HasCleanDisk (shows S.Store self.new)
            → IfOk result (λ found. map shown_note found.items
            ≡ (value_in S.Store self.old).noted) }
        ensures read { ReadsRows S.Store self.old self.new result vec_len IsPlainFault }
        ensures refused { AreNotedTexts (value_in S.Store self.old)
            → Blames (shows S.Store self.old) (shows S.Store self.new) result }
    {
        let found = select(&mut self.conn, self.alloc, NOTED, &[])?;
        self.rows_read = self.rows_read.saturating_add(found.len() as u64);
        Ok(found)
    }

    /// Makes all changes, in their order, or none. Places that can't be packed are Damaged.
    pub fn change(&mut self, changes: &[RowChange]) -> Result<(), StoreFault>
        ensures packable { OnOk result (All CanApply changes.now) }
        ensures causes { IfErr result (IsChangeFault (All CanApply changes.now)) }
        ensures made { MakesAllOrNone (shows S.Store self.old) (shows S.Store self.new) result
            (map shown_change changes.now) }
        ensures unread { self.new.rows_read ≡ self.old.rows_read }

        // It is refused by the database only for what lies outside the store, or since one of the
        // changes can't be put.
        ensures refused { BlamesPuts (shows S.Store self.old) (shows S.Store self.new) result
            (map shown_change changes.now) }

        // After Ok, and while the store is open, a crash leaves that store alone.
        ensures alone { HasCleanDisk (shows S.Store self.new)
            → OnOk result (IsTrue (shows S.Store self.new).is_open → (db : Trees)
            → (shows S.Store self.new).may_leave db
            → IsStored db (all_applied (map shown_change changes.now)
            (value_in S.Store self.old))) }
    {
        write::change(&mut self.conn, self.alloc, changes)?;
        // For the proof: outside a transaction an open database is as the last commit left it.
        let _settled = self.conn.is_autocommit();
        Ok(())
    }

    /// Makes all changes of all parts that come, in their order, in one transaction, or none: as
    /// they come one part stands in memory at a time. A part that is not made for want of memory is
    /// `Memory`; the other causes are those of `change`.
    pub fn change_parts<P: Parts>(&mut self, parts: &mut P) -> Result<(), StoreFault>
        ensures packable { OnOk result (All CanMake (changes_in (P.Parts.to_come parts.old))) }
        ensures causes { IfErr result
            (IsChangeFault (All CanMake (changes_in (P.Parts.to_come parts.old)))) }
        ensures made { MakesAllOrNone (shows S.Store self.old) (shows S.Store self.new) result
            (changes_in (P.Parts.to_come parts.old)) }
        ensures unread { self.new.rows_read ≡ self.old.rows_read }
        ensures refused { BlamesPuts (shows S.Store self.old) (shows S.Store self.new) result
            (changes_in (P.Parts.to_come parts.old)) }
        ensures alone { HasCleanDisk (shows S.Store self.new)
            → OnOk result (IsTrue (shows S.Store self.new).is_open → (db : Trees)
            → (shows S.Store self.new).may_leave db
            → IsStored db (all_applied (changes_in (P.Parts.to_come parts.old))
            (value_in S.Store self.old))) }
    {
        write::change_parts(&mut self.conn, self.alloc, parts)?;
        // For the proof: outside a transaction an open database is as the last commit left it.
        let _settled = self.conn.is_autocommit();
        Ok(())
    }

    /// The law that rows stand in the order of their keys, each key once, and that no two tables
    /// have one name.
    pub fn is_in_order(&self)
        ensures order { AreInOrder (value_in S.Store self.now) }
        ensures names { HasCleanDisk (shows S.Store self.now)
            → IsTrue (shows S.Store self.now).is_open → AreNamedApart (value_in S.Store self.now) }
    {
        let _ = &self.conn;
    }

    /// The law that a crash leaves what an open store holds, and nothing else.
    pub fn is_settled(&self)
        ensures { HasCleanDisk (shows S.Store self.now) → IsTrue (shows S.Store self.now).is_open
            → (db : Trees) → (shows S.Store self.now).may_leave db
            → IsStored db (value_in S.Store self.now) }
    {
        // For the proof: outside a transaction an open database is as the last commit left it.
        let _ = self.conn.is_autocommit();
    }

    /// How many rows the reads gave so far. It stays at its greatest value.
    pub fn rows_read(&self) -> u64
        ensures { result ≡ self.now.rows_read }
    {
        self.rows_read
    }

    /// The database as it stands. While it is open, its last commit is what the store holds.
    pub fn into_connection(self) -> Connection<S>
        ensures held { result ≡ self.held }
        ensures committed { AreCommitted S.Store self }
    {
        let Store { conn, .. } = self;
        // For the proof: outside a transaction an open database is as the last commit left it.
        let _settled = conn.is_autocommit();
        conn
    }
}
