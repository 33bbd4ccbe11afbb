//! Where phrases occur in one document: each occurrence is the place of its first token.
ghost use Rattle.std.specs.Prelude.{◌≡◌, ◌∷◌, ◌+◌, ◌*◌, ◌++◌, [], if◌then◌else◌, length, filter, map, IfOk, OnOk, MatchOption};
ghost use Rattle.ft_match.specs.Documents.{is_filled};
ghost use Rattle.ft_query.specs.Visit.{seek, among, skip_behind, begin_near, near_those, may_begin, offset_at};
ghost use Rattle.ft_query.specs.Taken.{TakesAtMost, TakesOf, TakesSteps};

use crate::lists::{Gap, Place};
use crate::walk::Steps;
use ft_match::{Offset, QueryTerm};
use std::alloc::{AllocError, Global};
use std::cmp::Ordering;

// The first place, and those after it.
fn split_first(places: &[Place]) -> Option<(&Place, &[Place])>
    ensures { MatchOption result (places.now ≡ []) (λ r. places.now ≡ r.0.now ∷ r.1.now) }
{
    let (first, rest) = places.split_first()?;
    Some((first, rest))
}

// Whether a place moved by i is one of those moved by j, and which of them are after it. Each step
// passes a place, but for the last one where it isn't there.
fn seek<'a>(
    place: &Place,
    i: usize,
    places: &'a [Place],
    j: usize,
    steps: &mut Steps,
) -> (bool, &'a [Place])
    ensures found { (result.0, result.1.now) ≡ seek i place.now j places.now }
    ensures steps { TakesOf (length places.now + (if result.0 then 0 else 1))
        (length result.1.now) steps.old steps.new }
{
    let mut left = places;
    while let Some((other, behind)) = split_first(left) {
        match other.order(j, place, i, steps) {
            Ordering::Less => left = behind,
            Ordering::Equal => return (true, behind),
            Ordering::Greater => return (false, left),
        }
    }
    (false, left)
}

// What is left of these occurrences from the first on that doesn't end too far before this place to
// be near it.
fn skip_behind<'a>(places: &'a [Place], gap: Gap, place: &Place, steps: &mut Steps) -> &'a [Place]
    ensures rest { result.now ≡ skip_behind gap.most gap.k places.now place.now }
    ensures steps { TakesOf (length places.now + 1) (length result.now) steps.old steps.new }
{
    let mut left = places;
    while let Some((other, behind)) = split_first(left) {
        if !other.is_behind(gap, place, steps) {
            return left;
        }
        left = behind;
    }
    left
}

// One of the first two is near this occurrence.
fn begin_near(places: &[Place], gap: Gap, place: &Place, steps: &mut Steps) -> bool
    ensures near { result ≡ begin_near gap.most gap.k places.now gap.m place.now }
    ensures steps { TakesAtMost 2 steps.old steps.new }
{
    let Some((first, rest)) = split_first(places) else {
        return false;
    };
    if first.is_near(gap, place, steps) {
        return true;
    }
    match split_first(rest) {
        None => false,
        Some((next, _)) => next.is_near(gap, place, steps),
    }
}

// An occurrence at each of these places, all of which are looked at.
fn at_all(alloc: Global, places: &[Place], steps: &mut Steps) -> Result<Vec<Place>, AllocError>
    ensures starts { IfOk result (λ s. s.items ≡ places.now) }
    ensures steps { TakesSteps (length places.now) steps.old steps.new }
{
    steps.take_all(places.len());
    places.to_vec(alloc)
}

/// There are some places.
pub(crate) fn are_filled(places: &[Place]) -> bool
    ensures { result ≡ is_filled places.now }
{
    !places.is_empty()
}

#[tactic(auto, using(crate::proofs::Passes::all_may_begin))]
/// The places of a phrase's first term where the phrase may begin: without a filter and `^` each of
/// them.
pub(crate) fn begin(
    alloc: Global,
    places: &[Place],
    only: Option<usize>,
    first: bool,
    steps: &mut Steps,
) -> Result<Vec<Place>, AllocError>
    ensures starts { IfOk result (λ s. s.items ≡ filter (may_begin only first) places.now) }
    ensures steps { TakesAtMost (length places.now) steps.old steps.new }
{
    if only.is_none() && !first {
        return at_all(alloc, places, steps);
    }
    let mut kept = Vec::with_capacity(alloc, places.len())?;
    let mut left = places;
    while let Some((spot, behind)) = split_first(left) {
        if spot.may_begin(only, first, steps) {
            kept.push(*spot)?;
        }
        left = behind;
    }
    Ok(kept)
}

/// Of these occurrences those that this term follows after i positions, which has these places. A
/// first term follows nothing.
pub(crate) fn followed(
    alloc: Global,
    starts: &[Place],
    i: usize,
    term: &QueryTerm,
    places: &[Place],
    steps: &mut Steps,
) -> Result<Vec<Place>, AllocError>
    ensures starts { IfOk result (λ s. s.items
        ≡ (if term.now.first then [] else among i 0 starts.now places.now)) }
    ensures steps { TakesAtMost (length starts.now + length places.now)
        steps.old steps.new }
{
    if term.first {
        return Ok(Vec::new(alloc));
    }
    let mut kept = Vec::with_capacity(alloc, starts.len())?;
    let mut ahead = starts;
    let mut left = places;
    while let Some((start, more)) = split_first(ahead) {
        let (is_there, behind) = seek(start, i, left, 0, steps);
        if is_there {
            kept.push(*start)?;
        }
        left = behind;
        ahead = more;
    }
    Ok(kept)
}

/// Of these others those that are near one of these occurrences.
pub(crate) fn near_those(
    alloc: Global,
    gap: Gap,
    starts: &[Place],
    others: &[Place],
    steps: &mut Steps,
) -> Result<Vec<Place>, AllocError>
    ensures starts { IfOk result (λ s. s.items
        ≡ near_those gap.most gap.k starts.now gap.m others.now) }
    ensures steps { TakesAtMost (length starts.now + 3 * length others.now)
        steps.old steps.new }
{
    let mut kept = Vec::with_capacity(alloc, others.len())?;
    let mut left = starts;
    let mut ahead = others;
    while let Some((other, more)) = split_first(ahead) {
        left = skip_behind(left, gap, other, steps);
        if begin_near(left, gap, other, steps) {
            kept.push(*other)?;
        }
        ahead = more;
    }
    Ok(kept)
}

/// Adds an offset with this number for each of these places that stands i positions after one of
/// these occurrences.
pub(crate) fn mark(
    found: &mut Vec<Offset>,
    number: usize,
    starts: &[Place],
    i: usize,
    places: &[Place],
    steps: &mut Steps,
) -> Result<(), AllocError>
    ensures marked { OnOk result (found.new.items
        ≡ found.old.items ++ map (offset_at number) (among 0 i places.now starts.now)) }
    ensures steps { TakesAtMost (length places.now + length starts.now)
        steps.old steps.new }
{
    let mut ahead = places;
    let mut left = starts;
    while let Some((spot, more)) = split_first(ahead) {
        let (is_there, behind) = seek(spot, 0, left, i, steps);
        if is_there {
            found.push(spot.offset(number, steps))?;
        }
        left = behind;
        ahead = more;
    }
    Ok(())
}
