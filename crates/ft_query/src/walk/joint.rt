//! A right side of a query, whose joint is seen here alone: each visit of one is a step.
ghost use Rattle.std.specs.Prelude.{◌≡◌};
ghost use Rattle.ft_query.specs.Taken.{TakesSteps};

use crate::walk::Steps;
use ft_match::{By, Query};

/// A right side, and how it is joined to what is left of it. Nothing but a visit that is counted tells
/// how.
#[derive(Clone, Copy)]
pub(crate) struct Joint<'q> {
    by: By,
    pub(crate) right: &'q Query,
}

impl<'q> Joint<'q> {
    pub(crate) fn new(by: By, right: &'q Query) -> Joint<'q>
        ensures by { result.by ≡ by }
        ensures right { result.right.now ≡ right.now }
    {
        Joint { by, right }
    }

    /// Visits it for a document.
    pub(crate) fn visit(&self, steps: &mut Steps) -> By
        ensures by { result ≡ self.now.by }
        ensures step { TakesSteps 1 steps.old steps.new }
    {
        steps.take();
        self.by
    }
}
