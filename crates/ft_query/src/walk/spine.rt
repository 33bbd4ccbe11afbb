//! A query as its first operand and a list of what is joined to it: a text can join thousands of
//! phrases from the left, and so no call goes down the left sides.
ghost use Rattle.std.specs.Prelude.{◌≡◌, ◌<◌, ◌+◌, ◌^◌, length, map, vec_len, flat_map, IfOk};
ghost use Rattle.ft_match.specs.Trees.{plain_phrase, plain_link, tree_of, chain};
ghost use Rattle.ft_query.specs.Marked.{chain_tree};
ghost use Rattle.ft_query.specs.Taken.{TakesSteps};
ghost use Rattle.ft_query.specs.Work.{terms_in, node_count};
ghost use Rattle.ft_query.specs.Spines.{leaf_tree, whole, AddsSpine};

use crate::walk::Steps;
use crate::walk::joint::Joint;
use ft_match::{By, Chain, Phrase, Query};
use std::alloc::{AllocError, Global};

/// A query that joins nothing.
#[derive(Clone, Copy)]
pub(crate) enum Leaf<'q> {
    Phrase(&'q Phrase),
    Near(&'q Chain),
}

#[tactic(auto, using(crate::proofs::Spines::spine_on))]
/// The first operand of a query. What is joined to it comes behind these joints, the last one first.
pub(crate) fn add_spine<'q>(
    query: &'q Query,
    joints: &mut Vec<Joint<'q>>,
) -> Result<Leaf<'q>, AllocError>
    ensures { IfOk result (λ leaf.
        AddsSpine joints.old.items joints.new.items (leaf_tree leaf) (tree_of query.now)) }
{
    let mut part = query;
    loop {
        let (by, left, right) = match part {
            Query::Phrase(phrase) => return Ok(Leaf::Phrase(phrase)),
            Query::Near(chain) => return Ok(Leaf::Near(chain)),
            Query::And(left, right) => (By::And, left, right),
            Query::Or(left, right) => (By::Or, left, right),
            Query::Not(left, right) => (By::Not, left, right),
        };
        joints.push(Joint::new(by, right))?;
        part = left;
    }
}

#[tactic(auto, using(crate::proofs::Spines::spine_alone))]
/// The first operand of a query, and what is joined to it, the last joint first.
pub(crate) fn spine_of<'q>(
    alloc: Global,
    query: &'q Query,
) -> Result<(Leaf<'q>, Vec<Joint<'q>>), AllocError>
    ensures { IfOk result (λ s. whole s.1.items (leaf_tree s.0) ≡ tree_of query.now) }
{
    let mut joints = Vec::new(alloc);
    let leaf = add_spine(query, &mut joints)?;
    Ok((leaf, joints))
}

#[tactic(auto, using(crate::proofs::Passes::count_more))]
/// How many terms a chain has. Each of its phrases after the first one is a step.
pub(crate) fn chain_count(near: &Chain, steps: &mut Steps) -> usize
    requires { length (terms_in (chain_tree near.now)) < 2 ^ 64 }
    ensures count { result ≡ length (terms_in (chain_tree near.now)) }
    ensures steps { TakesSteps (vec_len near.now.links) steps.old steps.new }
{
    steps.take_all(near.links.len());
    let mut count = near.first.terms.len();
    for link in &near.links {
        count += link.to.terms.len();
    }
    count
}

#[tactic(auto, using(crate::proofs::Spines::some_width))]
/// How many terms a query has. Each of its nodes is a step.
pub(crate) fn term_count(query: &Query, steps: &mut Steps) -> usize
    requires { length (terms_in (tree_of query.now)) < 2 ^ 64 }
    ensures count { result ≡ length (terms_in (tree_of query.now)) }
    ensures steps { TakesSteps (node_count (tree_of query.now)) steps.old steps.new }
{
    let mut count = 0;
    let mut part = query;
    loop {
        steps.take();
        match part {
            Query::Phrase(phrase) => return count + phrase.terms.len(),
            Query::Near(chain) => return count + chain_count(chain, steps),
            Query::And(left, right) | Query::Or(left, right) | Query::Not(left, right) => {
                count += term_count(right, steps);
                part = left;
            }
        }
    }
}
