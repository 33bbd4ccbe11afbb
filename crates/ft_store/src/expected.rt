//! Whether the lists of a table are exactly those that are expected.
ghost use Rattle.std.specs.Prelude.{◌≡◌, ◌↔◌, ℤ, ◌-◌, ◌^◌, min, map, drop, [], Err, IsTrue, MatchBool};
ghost use Rattle.std.specs.Ordering.{int_eq};
ghost use Rattle.std.specs.FinMap.Entries.{where_key};
ghost use Rattle.sqlite.specs.Held.{state};
ghost use Rattle.ft_rows.specs.Store.{list_key_cmp};
ghost use Rattle.ft_rows.specs.Terms.{lists_by_terms};
ghost use Rattle.ft_store.specs.Rows.{value_of};
ghost use Rattle.ft_store.specs.Expected.{left_of, HasMore, IsList, posting_count};
ghost use Rattle.ft_store.specs.Blame.{Blames, IsTermRow};
ghost use Rattle.ft_store.specs.Calls.{IsAtRest};
ghost use Rattle.ft_store.specs.Settled.{FindsOrRefuses, ReadsFor};

use crate::fault::StoreFault;
use crate::stream::{Gathered, gather};
use ft_rows::{Posting, TermLists, first_list, is_list_of};
use sqlite::types::ValueRef;
use sqlite::{Alter, Connection, Row, params};

/// How many places the lists of terms have, up to 2^64 - 1.
pub(crate) fn count_places(terms: &[TermLists]) -> u64
    ensures { result ≡ min (posting_count terms.now) (2 ^ 64 - 1) }
{
    let mut count: u64 = 0;
    for term in terms {
        count = count.saturating_add(term.postings.len() as u64);
    }
    count
}

/// Lists that are expected, by their terms, of which those before a place were found.
#[derive(Drop)]
struct Expected {
    terms: Vec<TermLists>,
    // the place of a term, and how many of its postings were found
    term: usize,
    posting: usize,
}

impl Expected {
    // Goes to the next list, and says whether there is one.
    fn find_next(&mut self) -> bool
        ensures terms { self.new.terms ≡ self.old.terms }
        ensures left { (tab : ℤ)
            → left_of tab (drop self.new.term self.new.terms.items) self.new.posting
            ≡ left_of tab (drop self.old.term self.old.terms.items) self.old.posting }
        ensures next { MatchBool result
            (HasMore (drop self.new.term self.new.terms.items) self.new.posting)
            ((tab : ℤ)
            → left_of tab (drop self.new.term self.new.terms.items) self.new.posting ≡ []) }
    {
        'terms: while self.term < self.terms.len() {
            if self.posting < self.terms[self.term].postings.len() {
                return true;
            }
            self.term += 1;
            self.posting = 0;
        }
        false
    }
}

// Whether a row, in which docid and packed list come before the term, is this list of the term. No
// row is the list of no postings.
fn is_list(row: &Row, term: &str, list: &[Posting]) -> Result<bool, StoreFault>
    ensures found { FindsOrRefuses result (λ b. (tab : ℤ)
        → IsTrue b ↔ IsList tab row.now term.now list.now) }
    ensures refused { result ≡ Err StoreFault.Refused → IsTermRow row.now → ⊥ }
{
    let docid: i64 = row.get(0)?;
    let ValueRef::Text(bytes) = row.get_ref(2)? else {
        return Err(StoreFault::Refused);
    };
    let Some(first) = list.first() else {
        return Ok(false);
    };
    if docid != first.docid || bytes != term.as_bytes() {
        return Ok(false);
    }
    let ValueRef::Blob(packed) = row.get_ref(1)? else {
        return Err(StoreFault::Refused);
    };
    Ok(is_list_of(packed, list))
}

impl Gathered for Expected {
    ghost use Rattle.std.specs.Prelude.{◌≡◌, ℤ, List, ◌++◌, map, drop, MatchBool};
    ghost use Rattle.sqlite.specs.Order as order;
    ghost use Rattle.ft_rows.specs.Terms.{lists_by_terms};
    ghost use Rattle.ft_store.specs.Found.{found_places};
    ghost use Rattle.ft_store.specs.Expected.{left_of};

    ghost expects = { λ made. made.terms.items };

    ghost takes = { IsTermRow };

    ghost is_made_of = { λ made whole rows. (tab : ℤ) → MatchBool whole
        (map (found_places tab) rows
        ++ left_of tab (drop made.term made.terms.items) made.posting
        ≡ lists_by_terms tab made.terms.items)
        ((more : List order.Row)
        → map (found_places tab) (rows ++ more)
        ≡ lists_by_terms tab made.terms.items → ⊥) };

    fn add(&mut self, whole: bool, row: &Row) -> Result<bool, StoreFault> {
        if !whole {
            return Ok(false);
        }
        if !self.find_next() {
            return Ok(false);
        }
        let term = &self.terms[self.term];
        let (_, rest) = term.postings.as_slice().split_at(self.posting);
        let count = first_list(rest);
        let (list, _) = rest.split_at(count);
        let same = is_list(row, term.term.as_str(), list)?;
        self.posting += count;
        Ok(same)
    }
}

/// Whether the lists of a table are exactly these, by their terms.
pub(crate) fn has_lists<S: Alter>(
    conn: &mut Connection<S>,
    tab: i64,
    terms: Vec<TermLists>,
) -> Result<bool, StoreFault>
    requires { IsAtRest (state S.Store conn.old) }
    ensures given { ReadsFor S.Store conn.old conn.new result
        (λ b. IsTrue b ↔ (where_key list_key_cmp (λ k. int_eq tab k.0)
        (value_of (state S.Store conn.old).now.trees).lists ≡ lists_by_terms tab terms.items)) }
    ensures refused { Blames (state S.Store conn.old) (state S.Store conn.new) result }
{
    let mut expected = Expected {
        terms,
        term: 0,
        posting: 0,
    };
    let whole = gather(
        conn,
        "SELECT docid, list, term FROM posting WHERE tab = ?1 ORDER BY term, docid",
        params![tab],
        &mut expected,
    )?;
    Ok(whole && !expected.find_next())
}
