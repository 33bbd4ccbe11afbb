//! Postings by their terms.
ghost use Rattle.std.specs.Prelude.{◌≡◌, [], MatchOption};
ghost use Rattle.ft_rows.specs.Terms.{AreFirstList, IsSplit};

use ft_values::Spot;

/// A place of a term in a document. Postings stand by docid, column and position.
#[derive(Clone, Copy, Debug, PartialEq, Eq, PartialOrd, Ord)]
pub struct Posting {
    pub docid: i64,
    pub spot: Spot,
}

/// The postings of one term, of a table that isn't named. Those of one document that stand beside
/// each other are its posting list.
#[derive(Debug, Drop)]
pub struct TermLists {
    pub term: String,
    pub postings: Vec<Posting>,
}

/// How many of these postings are their first list: the first ones, as many as are of one document.
pub fn first_list(postings: &[Posting]) -> usize
    ensures { AreFirstList postings.now result }
{
    let Some(first) = postings.first() else {
        return 0;
    };
    let docid = first.docid;
    postings.iter().take_while(|p| p.docid == docid).count()
}

/// The docid of the first list of postings, its postings, and those behind them; None where there is
/// no posting.
pub fn split_list(postings: &[Posting]) -> Option<(i64, &[Posting], &[Posting])>
    ensures { MatchOption result (postings.now ≡ [])
        (λ list. IsSplit postings.now list.0 list.1.now list.2.now) }
{
    let docid = postings.first()?.docid;
    let (list, rest) = postings.split_at(first_list(postings));
    Some((docid, list, rest))
}
