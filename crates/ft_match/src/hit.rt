//! What a query finds in a document.

/// One term of a phrase's occurrence: its column, the term's number in the query, and its place and
/// size in bytes.
#[derive(Clone, Copy, Debug, PartialEq, Eq)]
pub struct Offset {
    pub column: usize,
    pub term: usize,
    pub place: usize,
    pub size: usize,
}

/// A document that the query accepts.
#[derive(Debug, Drop)]
pub struct Hit {
    pub docid: i64,
    pub offsets: Vec<Offset>,
}
