//! The query of a filter, and the hits of its walk.
ghost use Rattle.std.specs.Prelude.{◌≡◌, ◌≢◌, option_map, None, Some, IfOk, IfErr, OnOk, List, [], map};
ghost use Rattle.ft_match.specs.Trees.{tree_of};
ghost use Rattle.ft_content.specs.Step.{query_fault};
ghost use Rattle.ft_content.specs.Views.{bare_content};
ghost use Rattle.ft_commands.specs.Views.{filter_of};
ghost use Rattle.ft_documents.specs.Chosen.{ReadsFilterAs};
ghost use Rattle.ft_match.specs.Documents.{Document};
ghost use Rattle.ft_match.specs.Occurs.{plain_hit, hits_of};
ghost use Rattle.ft_query.specs.Walk.{StandsBefore};
ghost use Rattle.ft_content.specs.Answer.{cut};
ghost use Rattle.ft_documents.specs.Matched.{as_wanted, TellsNext};
ghost use Rattle.ft_values.specs.declared.fault.Fault.TheVariants as faults;

use ft_content::{Column, Fault, Filter, read_query};
use ft_query::{Hit, Matches, Query};
use std::alloc::{AllocError, Global};

/// The query that the text of a MATCH reads as over columns of these names. There is none in
/// another filter, and none in a text without lexemes.
///
/// # Errors
///
/// `Malformed` and `TooLarge` as the text deserves them, or `Memory`.
pub fn filter_query(
    alloc: Global,
    columns: &[Column],
    filter: &Filter,
) -> Result<Option<Query>, Fault>
    ensures query { IfOk result (λ query. ReadsFilterAs (bare_content columns.now)
        (filter_of filter.now)
        (option_map tree_of query)) }
    ensures fine { OnOk result (query_fault (bare_content columns.now) (filter_of filter.now)
        ≡ None) }
    ensures fault { IfErr result (λ fault. fault ≢ faults.Memory
        → query_fault (bare_content columns.now) (filter_of filter.now) ≡ Some fault) }
{
    match filter {
        Filter::All | Filter::Docid(_) => Ok(None),
        Filter::Match { name, query } => {
            read_query(alloc, columns, name.as_str(), query.as_str())
        }
    }
}

/// The hit of a docid, without offsets.
pub fn bare_hit(alloc: Global, docid: i64) -> Hit
    ensures { plain_hit result ≡ record { docid = docid; offsets = [] } }
{
    let offsets = Vec::new(alloc);
    Hit { docid, offsets }
}

// The next hit, with its offsets where they are wanted, or `None` where there is none left.
fn next_hit(
    alloc: Global,
    walk: &mut Matches<'_>,
    wants_offsets: bool,
) -> Result<Option<Hit>, AllocError>
    ensures { TellsNext wants_offsets walk.old walk.new result }
{
    if wants_offsets {
        return walk.next();
    }
    Ok(walk.next_docid()?.map(|docid| bare_hit(alloc, docid)))
}

/// The hits that are left, or the first ones where there are more than wanted.
pub fn taken(
    alloc: Global,
    walk: &mut Matches<'_>,
    wants_offsets: bool,
    most: Option<u64>,
) -> Result<Vec<Hit>, AllocError>
    ensures { IfOk result (λ hits. (documents : List Document) → StandsBefore walk.old documents
        → map plain_hit hits.items ≡ cut most 0
        (map (as_wanted wants_offsets) (hits_of (tree_of walk.old.query) documents))) }
{
    let most = most.unwrap_or(u64::MAX);
    let mut hits = Vec::new(alloc);
    while (hits.len() as u64) < most {
        let Some(hit) = next_hit(alloc, walk, wants_offsets)? else {
            break;
        };
        hits.push(hit)?;
    }
    Ok(hits)
}
