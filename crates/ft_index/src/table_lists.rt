//! The posting lists of one table.
ghost use Rattle.std.specs.Prelude.{◌≡◌, ◌+◌, ◌-◌, ◌^◌, ◌||◌, false, min, map, Err};
ghost use Rattle.ft_match.specs.Documents.{place_count};
ghost use Rattle.ft_query.specs.Lists.{plain_list, is_failed};

use ft_documents::{doc_lists, row_lists};
use ft_query::{DocList, ListFault, Lists};
use ft_store::{ListRow, Store, StoreFault};
use sqlite::Alter;
use std::alloc::{AllocError, Global};

// How many places lists have, up to 2^64 - 1.
fn count_places(lists: &[DocList]) -> u64
    ensures { result ≡ min (place_count (map plain_list lists.now)) (2 ^ 64 - 1) }
{
    let mut count: u64 = 0;
    for list in lists {
        count = count.saturating_add(list.place_count() as u64);
    }
    count
}

/// The posting lists of one table of a store, as a walk asks for them: one read for each term.
#[derive(Drop)]
pub(crate) struct TableLists<'s, S: Alter> {
    store: &'s mut Store<S>,
    tab: i64,
    has_failed: bool,
    given: u64,
}

impl<'s, S: Alter> TableLists<'s, S> {
    pub(crate) fn new(store: &'s mut Store<S>, tab: i64) -> TableLists<'s, S>
        ensures same_reference { result.store.ghost_name ≡ store.entry.ghost_name }
        ensures same_store { result.store.now ≡ store.old }
        ensures table { result.tab ≡ tab }
        ensures given { (result.has_failed ≡ false) × (result.given ≡ 0) }
    {
        TableLists {
            store,
            tab,
            has_failed: false,
            given: 0,
        }
    }

    // Counts the places of lists that are given.
    fn counts(&mut self, lists: &[DocList])
        ensures { self.new ≡ record self.old {
          given = min (self.old.given + place_count (map plain_list lists.now)) (2 ^ 64 - 1);
        } }
    {
        self.given = self.given.saturating_add(count_places(lists));
    }

    // Notes that a read was refused.
    fn refused(&mut self, fault: StoreFault) -> ListFault
        ensures noted { self.new ≡ record self.old {
          has_failed = self.old.has_failed || is_failed
              {X = Unit {0}} (Err result);
        } }
        ensures memory { fault ≡ StoreFault.Memory → self.new.has_failed ≡ self.old.has_failed }
    {
        match fault {
            StoreFault::Memory => ListFault::Memory,
            _ => {
                self.has_failed = true;
                ListFault::Failed
            }
        }
    }
}

impl<'s, S: Alter> Lists for TableLists<'s, S> {
    ghost use Rattle.std.specs.Prelude.{◌≡◌};
    ghost use Rattle.ft_index.specs.Walked.{table_documents, AreReliable, ReadsStore, FailsIf};

    ghost documents = { λ l. table_documents S.Store l.tab l.store.now };

    ghost is_clean = { λ l. AreReliable S.Store l.tab l.store.now };

    ghost has_failed = { λ l. l.has_failed };

    ghost given_so_far = { λ l. l.given };

    ghost becomes = { λ old is_answered new. (new.store.ghost_name ≡ old.store.ghost_name)
        × (new.tab ≡ old.tab)
        × ReadsStore S.Store old.store.now old.given is_answered new.store.now new.given
        × FailsIf S.Store old.tab old.store.now old.has_failed is_answered new.store.now
        new.has_failed };

    ghost in_order = { λ l reliable. reliable.in_order };

    fn word(&mut self, alloc: Global, term: &str) -> Result<Vec<DocList>, ListFault> {
        match self.store.term_lists(self.tab, term) {
            Ok(rows) => {
                let lists = row_lists(alloc, rows)?;
                self.counts(lists.as_slice());
                Ok(lists)
            }
            Err(fault) => Err(self.refused(fault)),
        }
    }

    fn prefix(&mut self, alloc: Global, begin: &str) -> Result<Vec<DocList>, ListFault> {
        match self.store.prefix_lists(self.tab, begin) {
            Ok(rows) => {
                let lists = doc_lists(alloc, rows)?;
                self.counts(lists.as_slice());
                Ok(lists)
            }
            Err(fault) => Err(self.refused(fault)),
        }
    }

    fn failed(&self) -> bool {
        self.has_failed
    }

    fn given(&self) -> u64 {
        self.given
    }
}
