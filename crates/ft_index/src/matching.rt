//! What a MATCH finds in a table's index.
ghost use Rattle.std.specs.Prelude.{◌≡◌, ℕ, List, map, option_map, Ok, IfOk, OnOk};
ghost use Rattle.ft_match.specs.Trees.{tree_of};
ghost use Rattle.ft_match.specs.Occurs.{plain_hit};
ghost use Rattle.ft_store.specs.Kept.{more_rows};
ghost use Rattle.ft_content.specs.Content.{Content};
ghost use Rattle.ft_commands.specs.Command.{Match};
ghost use Rattle.ft_content.specs.Answer.{reading, query_in, cut};
ghost use Rattle.ft_index.specs.Walked.{IsIndexed};
ghost use Rattle.ft_documents.specs.Matched.{chosen_hits, as_wanted};
ghost use Rattle.ft_calls.specs.RowsRead.{entries_asked};
ghost use Rattle.ft_index.specs.DocumentsRead.{LooksFor};
ghost use Rattle.ft_calls.specs.Kept.{IsOutside};
ghost use Rattle.ft_index.specs.Refused.{BlamesContent};

use crate::table_lists::TableLists;
use ft_content::Fault;
use ft_documents::taken;
use ft_query::{Hit, ListFault, Matches, Query};
use ft_store::Store;
use sqlite::Alter;
use std::alloc::Global;

/// The documents that a MATCH chooses by the lists of a table's index, the first ones where a
/// number is given, each with its offsets where they are wanted. One read for each term of its
/// text's query: without a query there are none, and nothing is read. The store is only read,
/// whatever is answered.
pub(crate) fn matched<S: Alter>(
    alloc: Global,
    store: &mut Store<S>,
    tab: i64,
    query: Option<&Query>,
    wants_offsets: bool,
    most: Option<u64>,
) -> Result<Vec<Hit>, Fault>
    ensures told { IfOk result (λ hits. (content : Content) (name text : List ℕ)
        → reading content name text ≡ Ok (option_map (λ q. tree_of q.now) query.entry)
        → IsIndexed S.Store tab store.old store.new content
        → map plain_hit hits.items
        ≡ cut most 0 (map (as_wanted wants_offsets) (chosen_hits content (Match name text)))) }
    ensures looks { LooksFor S.Store store.old store.new result IsOutside }
    ensures counted { OnOk result ((content : Content) (name text : List ℕ)
        → reading content name text ≡ Ok (option_map (λ q. tree_of q.now) query.entry)
        → IsIndexed S.Store tab store.old store.new content
        → store.new.rows_read ≡ more_rows (entries_asked content
        (query_in content (Match name text))) store.old) }
    ensures refused { BlamesContent S.Store tab store.old store.new result (λ _. Unit {0}) }
{
    // So the count of rows is known to be of 64 bits.
    let _read = store.rows_read();
    let Some(query) = query else {
        return Ok(Vec::new(alloc));
    };
    let mut lists = TableLists::new(store, tab);
    match Matches::open(alloc, query, &mut lists) {
        Ok(mut walk) => Ok(taken(alloc, &mut walk, wants_offsets, most)?),
        Err(ListFault::Failed) => Err(Fault::Store),
        Err(ListFault::Memory) => Err(Fault::Memory),
    }
}
