//! The list of one document, whose docid is seen here alone: each look at one is a step.
ghost use Rattle.std.specs.Prelude.{◌≡◌, length};
ghost use Rattle.std.specs.Ordering.{int_eq};
ghost use Rattle.ft_query.specs.Lists.{plain_list};
ghost use Rattle.ft_query.specs.Taken.{TakesSteps};

use crate::lists::place::Place;
use crate::walk::Steps;

/// The places of some terms in one document. Nothing but a look that is counted tells its docid.
#[derive(Drop)]
pub struct DocList {
    docid: i64,
    places: Vec<Place>,
}

impl DocList {
    pub fn new(docid: i64, places: Vec<Place>) -> DocList
        ensures { plain_list result ≡ record { docid = docid; places = places.items } }
    {
        DocList { docid, places }
    }

    /// How many places it has.
    pub fn place_count(&self) -> usize
        ensures { result ≡ length (plain_list self.now).places }
    {
        self.places.len()
    }

    /// Its places. The docid isn't looked at.
    pub(crate) fn places(&self) -> &[Place]
        ensures { result.now ≡ (plain_list self.now).places }
    {
        self.places.as_slice()
    }

    /// Looks at the docid.
    pub(crate) fn docid(&self, steps: &mut Steps) -> i64
        ensures docid { result ≡ (plain_list self.now).docid }
        ensures step { TakesSteps 1 steps.old steps.new }
    {
        steps.take();
        self.docid
    }

    /// Looks whether it is this document's.
    pub(crate) fn is_of(&self, docid: i64, steps: &mut Steps) -> bool
        ensures is { result ≡ int_eq (plain_list self.now).docid docid }
        ensures step { TakesSteps 1 steps.old steps.new }
    {
        self.docid(steps) == docid
    }
}
