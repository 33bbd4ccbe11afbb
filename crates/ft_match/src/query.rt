//! MATCH queries.
ghost use Rattle.std.specs.Prelude.{◌<◌, vec_len};

use std::alloc::AllocError;
use thiserror::Error;

/// A term of a phrase, in small letters. With `prefix` it matches every term that begins so, with
/// `first` only the first token of a column.
#[derive(Debug, Drop)]
pub struct QueryTerm {
    pub text: String,
    pub prefix: bool,
    pub first: bool,
}

/// Terms that stand one after the other, in the filter's column if there is one.
#[derive(Debug, Drop)]
pub struct Phrase {
    pub filter: Option<usize>,
    pub terms: Vec<QueryTerm>,
}

/// The next phrase of a chain, with at most `most` tokens between it and the one before.
#[derive(Debug, Drop)]
pub struct Link {
    pub most: usize,
    pub to: Phrase,
}

/// Two or more phrases, each near the next.
#[derive(Debug, Drop)]
pub struct Chain {
    pub first: Phrase,
    pub links: Vec<Link>,
    ghost linked: { 0 < vec_len links },
}

/// A query. `Not` wants the left and not the right.
#[derive(Debug)]
pub enum Query {
    Phrase(Phrase),
    Near(Chain),
    And(Box<Query>, Box<Query>),
    Or(Box<Query>, Box<Query>),
    Not(Box<Query>, Box<Query>),
}

/// How a right side is joined to its left one.
#[derive(Clone, Copy, Debug, PartialEq, Eq)]
pub enum By {
    And,
    Or,
    Not,
}

// Goes down the left sides by a loop, since a text can join thousands of phrases from the left.
impl Drop for Query {
    fn drop(mut self) {
        loop {
            match self {
                Query::Phrase(_phrase) => return,
                Query::Near(_chain) => return,
                Query::And(left, _right) | Query::Or(left, _right) | Query::Not(left, _right) =>
                    self = Box::into_inner(left),
            }
        }
    }
}

/// Why a text is no query.
#[derive(Clone, Copy, Debug, PartialEq, Eq, Error)]
pub enum QueryFault {
    #[error("malformed MATCH expression")]
    Malformed,
    #[error("MATCH expression too large")]
    TooLarge,
    #[error("out of memory")]
    Memory,
}

impl From<AllocError> for QueryFault {
    ghost use Rattle.std.specs.Prelude.{◌≡◌};
    ghost use Rattle.ft_match.specs.declared.query.QueryFault.TheVariants.{Memory};

    ghost from_gives = { λ _ fault. fault ≡ Memory };

    fn from(_error: AllocError) -> QueryFault {
        QueryFault::Memory
    }
}
