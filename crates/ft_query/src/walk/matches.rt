//! The documents that a query accepts, one after the other.
ghost use Rattle.std.specs.Prelude.{◌≡◌, ◌+◌, ◌-◌, ◌^◌, ◌<◌, ◌≤◌, ◌||◌, List, length, map, min, is_ok, IfOk, IfSome, OnOk, OnErr};
ghost use Rattle.ft_match.specs.Documents.{Document};
ghost use Rattle.ft_match.specs.Trees.{tree_of};
ghost use Rattle.ft_query.specs.Lists.{is_failed, Reaches, AllAnswer};
ghost use Rattle.ft_query.specs.Work.{terms_in, entry_count};
ghost use Rattle.ft_query.specs.Cursors.{lists_left, lists_kept};
ghost use Rattle.ft_query.specs.Walk.{lists_to_come, StandsBefore, Walked, WalkedTo};
ghost use Rattle.ft_query.specs.Search.{stands_at, FindsNext};

use crate::lists::{ListFault, Lists};
use crate::standing::Standing;
use crate::walk::visit::Wanted;
use ft_match::{Hit, Query};
use std::alloc::{AllocError, Global};
use std::marker::Model;

/// The walk over the documents that a query accepts, by rising docid. It goes over the lists of the
/// query's terms once.
#[derive(Drop)]
pub struct Matches<'q> {
    query: &'q Query,
    standing: Standing,
    alloc: Global,
}

impl<'q> Model for Matches<'q> {
    ghost use Rattle.std.specs.Prelude.{◌≡◌, map, length, vec_len};
    ghost use Rattle.ft_match.specs.Trees.{tree_of};
    ghost use Rattle.ft_query.specs.Work.{terms_in};
    ghost use Rattle.ft_query.specs.Cursors.{lists_kept};
    ghost use Rattle.ft_query.specs.Walk.{Walk};
    ghost use Rattle.ft_match.specs.contracts.query.Query as q;
    ghost use Rattle.std.specs.Coded.{codes};

    ghost Value = { Walk };

    ghost coded = { Prim.hlevel (codes, q.the_row.coded) };

    ghost view = { λ m. record { query = m.query.now; lists = map lists_kept m.standing.cursors.items; steps = m.standing.taken } };

    ghost invariant = { λ m. vec_len m.standing.cursors ≡ length (terms_in (tree_of m.query.now)) };
}

impl<'q> Matches<'q> {
    /// Begins a walk: asks once for each term of the query. Where the lists are clean afterwards,
    /// the walk stands before the documents that they mean.
    pub fn open<L: Lists>(
        alloc: Global,
        query: &'q Query,
        lists: &mut L,
    ) -> Result<Matches<'q>, ListFault>
        ensures stands { IfOk result (λ m. L.is_clean lists.new
            → StandsBefore m (L.documents lists.new)) }
        ensures query { IfOk result (λ m. (m.query ≡ query.now) × (m.steps ≡ 0)) }
        ensures given { OnOk result (L.is_clean lists.new → L.given_so_far lists.old < 2 ^ 64
            → L.given_so_far lists.new ≡ min
            (L.given_so_far lists.old + entry_count (tree_of query.now) (L.documents lists.new))
            (2 ^ 64 - 1)) }
        ensures clean { L.is_clean lists.new → L.is_clean lists.old
            × (L.documents lists.new ≡ L.documents lists.old) }
        ensures failed { L.has_failed lists.new ≡ (L.has_failed lists.old || is_failed result) }
        ensures becomes { Reaches L.becomes lists.old (is_ok result) lists.new }
        ensures asks { OnOk result (AllAnswer L.becomes (length (terms_in (tree_of query.now)))
            lists.old lists.new) }
    {
        Ok(Matches {
            query,
            standing: Standing::open(alloc, query, lists)?,
            alloc,
        })
    }

    // The next hit, without offsets where they aren't wanted.
    fn find(&mut self, wanted: Wanted) -> Result<Option<Hit>, AllocError>
        ensures finds { IfOk result (FindsNext wanted self.old self.new) }
        ensures rise { self.old.steps ≤ self.new.steps }
        ensures query { self.new.query ≡ self.old.query }
        ensures err { OnErr result (self.new ≡ self.old) }
    {
        self.standing.search(self.alloc, self.query, wanted)
    }

    /// The next hit, or `None` where there is none. After an error the walk stands where it stood.
    pub fn next(&mut self) -> Result<Option<Hit>, AllocError>
        ensures walked { IfOk result (λ hit. (documents : List Document)
            → StandsBefore self.old documents → Walked self.old self.new hit documents) }
        ensures passes { IfOk result (λ hit. IfSome hit
            (λ _. lists_to_come self.new < lists_to_come self.old)) }
        ensures rise { self.old.steps ≤ self.new.steps }
        ensures query { self.new.query ≡ self.old.query }
        ensures err { OnErr result (self.new ≡ self.old) }
    {
        self.find(Wanted::Offsets)
    }

    /// The docid of the next hit, or `None` where there is none. No offsets are made. After an
    /// error the walk stands where it stood.
    pub fn next_docid(&mut self) -> Result<Option<i64>, AllocError>
        ensures walked { IfOk result (λ docid. (documents : List Document)
            → StandsBefore self.old documents → WalkedTo self.old self.new docid documents) }
        ensures passes { IfOk result (λ docid.
            IfSome docid (λ _. lists_to_come self.new < lists_to_come self.old)) }
        ensures rise { self.old.steps ≤ self.new.steps }
        ensures query { self.new.query ≡ self.old.query }
        ensures err { OnErr result (self.new ≡ self.old) }
    {
        match self.find(Wanted::Docids)? {
            Some(hit) => Ok(Some(hit.docid)),
            None => Ok(None),
        }
    }

    /// The steps that the walk has taken: docids and positions that were looked at, and nodes of
    /// the query that were visited for a document.
    pub fn steps(&self) -> u64
        ensures { result ≡ self.now.steps }
    {
        self.standing.steps()
    }
}
