//! A place in one document, whose position is seen here alone: each comparison of one is a step.
ghost use Rattle.std.specs.Prelude.{◌≡◌};
ghost use Rattle.ft_match.specs.Occurs.{are_near};
ghost use Rattle.ft_query.specs.Visit.{place_order, is_behind, may_begin, offset_at};
ghost use Rattle.ft_query.specs.Taken.{TakesSteps};

use crate::walk::Steps;
use ft_match::Offset;
use std::cmp::Ordering;
use std::marker::Model;

/// Where a token stands: its column, its number in the cell, and its place and size in bytes.
/// Nothing but a comparison that is counted tells its number in the cell.
#[derive(Clone, Copy)]
pub struct Place {
    column: u32,
    pos: u32,
    start: u32,
    size: u32,
}

// Contracts see the place of the definitions, which has the same numbers.
impl Model for Place {
    ghost use Rattle.ft_match.specs.Documents.{Place};

    ghost Value = { Place };

    ghost view = { λ p.
        record { column = p.column; pos = p.pos; start = p.start; size = p.size } };

    ghost inverse = { λ p.
        record { column = p.column; pos = p.pos; start = p.start; size = p.size } };
}

/// How near an occurrence of k terms and one of m have to be: with at most so many tokens between.
#[derive(Clone, Copy)]
pub(crate) struct Gap {
    pub(crate) k: usize,
    pub(crate) m: usize,
    pub(crate) most: usize,
}

impl Place {
    pub fn new(column: u32, pos: u32, start: u32, size: u32) -> Place
        ensures { result ≡ record { column = column; pos = pos; start = start; size = size } }
    {
        Place {
            column,
            pos,
            start,
            size,
        }
    }

    // Looks at the position.
    fn look(&self, steps: &mut Steps) -> u32
        ensures pos { result ≡ self.now.pos }
        ensures step { TakesSteps 1 steps.old steps.new }
    {
        steps.take();
        self.pos
    }

    /// The order of this place, moved by i, and the other, moved by j: by column, then position.
    pub(crate) fn order(&self, i: usize, other: &Place, j: usize, steps: &mut Steps) -> Ordering
        ensures order { result ≡ place_order i self.now j other.now }
        ensures step { TakesSteps 1 steps.old steps.new }
    {
        let here = self.look(steps) as u128 + i as u128;
        let there = other.pos as u128 + j as u128;
        self.column.cmp(&other.column).then(here.cmp(&there))
    }

    /// This occurrence, of k terms, ends too far before the other one to be near it.
    pub(crate) fn is_behind(&self, gap: Gap, other: &Place, steps: &mut Steps) -> bool
        ensures behind { result ≡ is_behind gap.most gap.k self.now other.now }
        ensures step { TakesSteps 1 steps.old steps.new }
    {
        let last = self.look(steps) as u128 + gap.k as u128 + gap.most as u128;
        self.column < other.column || self.column == other.column && last < other.pos as u128
    }

    /// This occurrence, of k terms, and the other one, of m terms, are near: they stand in one
    /// column, don't end at the same token, and have at most so many tokens between them.
    pub(crate) fn is_near(&self, gap: Gap, other: &Place, steps: &mut Steps) -> bool
        ensures near { result ≡ are_near gap.most gap.k self.now gap.m other.now }
        ensures step { TakesSteps 1 steps.old steps.new }
    {
        let pos = self.look(steps) as u128;
        let end = pos + gap.k as u128;
        let other_pos = other.pos as u128;
        let other_end = other_pos + gap.m as u128;
        let between = other_pos
            .saturating_sub(end)
            .max(pos.saturating_sub(other_end));
        self.column == other.column && end != other_end && between <= gap.most as u128
    }

    /// A phrase with this filter may begin here, where its first term may want position 0.
    pub(crate) fn may_begin(&self, only: Option<usize>, first: bool, steps: &mut Steps) -> bool
        ensures begins { result ≡ may_begin only first self.now }
        ensures step { TakesSteps 1 steps.old steps.new }
    {
        let pos = self.look(steps);
        let is_within = match only {
            None => true,
            Some(column) => column == self.column as usize,
        };
        is_within && (!first || pos == 0)
    }

    /// The offset of this place, for the term with this number: a look, too, since it tells which of
    /// two places comes first.
    pub(crate) fn offset(&self, number: usize, steps: &mut Steps) -> Offset
        ensures offset { result ≡ offset_at number self.now }
        ensures step { TakesSteps 1 steps.old steps.new }
    {
        let _pos = self.look(steps);
        Offset {
            column: self.column as usize,
            term: number,
            place: self.start as usize,
            size: self.size as usize,
        }
    }
}
