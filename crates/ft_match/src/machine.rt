//! One pass over the lexemes, with a stack of what waits for a right side.
ghost use Rattle.std.specs.Prelude.{◌≡◌, [], ◌∷◌, ◌++◌, map, option_map, IfOk};
ghost use Rattle.ft_match.specs.Trees.{plain_phrase, plain_link, tree_of, tree_of_chain};
ghost use Rattle.ft_match.specs.Pass.{chained, operator, nothing_waits, last_state, join, or_whole, not_state, and_state, or_state, begin, close, after_operand, phrase_of, pass_step, finish, tree_from};
ghost use Rattle.ft_match.specs.Machine.{joined_sides, plain_lexeme, plain_waiting, plain_outer, plain_last, plain_state};

use crate::lexeme::Lexeme;
use crate::query::{By, Chain, Link, Phrase, Query};
use std::alloc::{AllocError, Global};

// The left sides that wait for a right one, at each level.
#[derive(Drop)]
pub struct Waiting {
    pub or_left: Option<Query>,
    pub and_left: Option<Query>,
    pub not_left: Option<Query>,
}

// A phrase and those that NEAR has joined to it.
#[derive(Drop)]
pub struct Linked {
    pub first: Phrase,
    pub links: Vec<Link>,
}

// What was read last: an operator or `(` or nothing, a filter, a chain that NEAR may follow, a
// chain and NEAR with its number, the same and a filter, or any other whole operand.
#[derive(Drop)]
pub enum Last {
    Operator,
    Filtered(usize),
    Chained(Linked),
    NearTo(Linked, usize),
    NearFiltered(Linked, usize, usize),
    Whole(Query),
}

// The left sides in this parenthesis, and those in the parentheses around it, the outermost first.
#[derive(Drop)]
pub struct Around {
    pub waiting: Waiting,
    pub outer: Vec<Waiting>,
}

// The left sides, and what was read last.
#[derive(Drop)]
pub struct State {
    pub around: Around,
    pub last: Last,
}

/// The query as which these lexemes read, if they read as one.
pub fn query_from(
    alloc: Global,
    default: Option<usize>,
    lexemes: Vec<Lexeme>,
) -> Result<Option<Query>, AllocError>
    ensures { IfOk result (λ q. option_map tree_of q
        ≡ tree_from default (map plain_lexeme lexemes.items)) }
{
    let mut state = begun(Vec::new(alloc));
    for lexeme in lexemes {
        match step(alloc, default, state, lexeme)? {
            None => return Ok(None),
            Some(next) => state = next,
        }
    }
    finish(alloc, state)
}

// Nothing is read yet inside of these parentheses.
fn begun(outer: Vec<Waiting>) -> State
    ensures { plain_state result ≡ last_state nothing_waits (plain_outer outer.items) operator }
{
    let waiting = Waiting {
        or_left: None,
        and_left: None,
        not_left: None,
    };
    State {
        around: Around { waiting, outer },
        last: Last::Operator,
    }
}

// What is known after one more lexeme, if the lexemes can begin a query.
fn step(
    alloc: Global,
    default: Option<usize>,
    state: State,
    lexeme: Lexeme,
) -> Result<Option<State>, AllocError>
    ensures { IfOk result (λ next. option_map plain_state next
        ≡ pass_step default (plain_waiting state.around.waiting)
        (plain_outer state.around.outer.items) (plain_last state.last) (plain_lexeme lexeme)) }
{
    let State { around, last } = state;
    let last = match last {
        Last::Operator => return begin(alloc, default, around, lexeme),
        Last::Whole(operand) => return after_operand(alloc, default, around, operand, lexeme),
        Last::Filtered(column) => first_phrase(alloc, Some(column), lexeme)?,
        Last::Chained(chain) => match lexeme {
            Lexeme::Near(most) => Some(Last::NearTo(chain, most)),
            other => {
                let operand = query_of_chain(chain);
                return after_operand(alloc, default, around, operand, other);
            }
        },
        Last::NearTo(chain, most) => match lexeme {
            Lexeme::Filter(column) => Some(Last::NearFiltered(chain, most, column)),
            other => next_phrase(alloc, chain, most, default, other)?,
        },
        Last::NearFiltered(chain, most, column) => {
            next_phrase(alloc, chain, most, Some(column), lexeme)?
        }
    };
    Ok(last.map(|last| State { around, last }))
}

// An operand begins with this lexeme, if one can.
fn begin(
    alloc: Global,
    default: Option<usize>,
    around: Around,
    lexeme: Lexeme,
) -> Result<Option<State>, AllocError>
    ensures { IfOk result (λ next. option_map plain_state next
        ≡ begin default (plain_waiting around.waiting) (plain_outer around.outer.items)
        (plain_lexeme lexeme)) }
{
    let Around { waiting, mut outer } = around;
    let last = match lexeme {
        Lexeme::Open => {
            outer.push(waiting)?;
            return Ok(Some(begun(outer)));
        }
        Lexeme::Filter(column) => Some(Last::Filtered(column)),
        other => first_phrase(alloc, default, other)?,
    };
    let around = Around { waiting, outer };
    Ok(last.map(|last| State { around, last }))
}

// A chain begins with this lexeme, if it is a phrase.
fn first_phrase(
    alloc: Global,
    column: Option<usize>,
    lexeme: Lexeme,
) -> Result<Option<Last>, AllocError>
    ensures { IfOk result (λ last. option_map plain_last last
        ≡ option_map (λ p. chained p []) (phrase_of column (plain_lexeme lexeme))) }
{
    let Some(first) = phrase_of(alloc, column, lexeme)? else {
        return Ok(None);
    };
    let links = Vec::new(alloc);
    Ok(Some(Last::Chained(Linked { first, links })))
}

// The phrase that a word or a quoted part is, with this filter.
fn phrase_of(
    alloc: Global,
    filter: Option<usize>,
    lexeme: Lexeme,
) -> Result<Option<Phrase>, AllocError>
    ensures { IfOk result (λ p. option_map plain_phrase p
        ≡ phrase_of filter (plain_lexeme lexeme)) }
{
    let terms = match lexeme {
        Lexeme::Word(term) => vec![in alloc; term]?,
        Lexeme::Quoted(terms) => terms,
        _ => return Ok(None),
    };
    Ok(Some(Phrase { filter, terms }))
}

// A lexeme after an operand, where it isn't a NEAR that belongs to it.
fn after_operand(
    alloc: Global,
    default: Option<usize>,
    around: Around,
    operand: Query,
    lexeme: Lexeme,
) -> Result<Option<State>, AllocError>
    ensures { IfOk result (λ next. option_map plain_state next
        ≡ after_operand default (plain_waiting around.waiting) (plain_outer around.outer.items)
        (tree_of operand) (plain_lexeme lexeme)) }
{
    let Around { waiting, outer } = around;
    let waiting = match lexeme {
        Lexeme::Close => return Ok(close(outer, whole(alloc, waiting, operand)?)),
        Lexeme::And => after_and(alloc, waiting, operand)?,
        Lexeme::Or => after_or(alloc, waiting, operand)?,
        Lexeme::Not => after_not(alloc, waiting, operand)?,
        other => {
            let waiting = after_and(alloc, waiting, operand)?;
            return begin(alloc, default, Around { waiting, outer }, other);
        }
    };
    let around = Around { waiting, outer };
    let last = Last::Operator;
    Ok(Some(State { around, last }))
}

// The operand in a parenthesis is whole, and so is the parenthesis.
fn close(mut outer: Vec<Waiting>, operand: Query) -> Option<State>
    ensures { option_map plain_state result ≡ close (plain_outer outer.items) (tree_of operand) }
{
    let waiting = outer.pop()?;
    let around = Around { waiting, outer };
    let last = Last::Whole(operand);
    Some(State { around, last })
}

// The whole of what waits and the operand.
fn whole(alloc: Global, waiting: Waiting, operand: Query) -> Result<Query, AllocError>
    ensures { IfOk result (λ q. tree_of q ≡ or_whole (plain_waiting waiting) (tree_of operand)) }
{
    let right = joined(alloc, By::Not, waiting.not_left, operand)?;
    let both = joined(alloc, By::And, waiting.and_left, right)?;
    joined(alloc, By::Or, waiting.or_left, both)
}

// Both sides joined so, or the right one alone.
fn joined(alloc: Global, by: By, left: Option<Query>, right: Query) -> Result<Query, AllocError>
    ensures { IfOk result (λ q. tree_of q
        ≡ join (λ l r. joined_sides l by r) (option_map tree_of left) (tree_of right)) }
{
    let Some(left) = left else {
        return Ok(right);
    };
    let left = Box::new(alloc, left)?;
    let right = Box::new(alloc, right)?;
    Ok(match by {
        By::And => Query::And(left, right),
        By::Or => Query::Or(left, right),
        By::Not => Query::Not(left, right),
    })
}

// What waits after the operand and AND.
fn after_and(alloc: Global, waiting: Waiting, operand: Query) -> Result<Waiting, AllocError>
    ensures { IfOk result (λ w. plain_waiting w
        ≡ (and_state (plain_waiting waiting) [] (tree_of operand)).waiting) }
{
    let right = joined(alloc, By::Not, waiting.not_left, operand)?;
    let left = joined(alloc, By::And, waiting.and_left, right)?;
    Ok(Waiting {
        or_left: waiting.or_left,
        and_left: Some(left),
        not_left: None,
    })
}

// What waits after the operand and OR.
fn after_or(alloc: Global, waiting: Waiting, operand: Query) -> Result<Waiting, AllocError>
    ensures { IfOk result (λ w. plain_waiting w
        ≡ (or_state (plain_waiting waiting) [] (tree_of operand)).waiting) }
{
    let left = whole(alloc, waiting, operand)?;
    Ok(Waiting {
        or_left: Some(left),
        and_left: None,
        not_left: None,
    })
}

// What waits after the operand and NOT.
fn after_not(alloc: Global, waiting: Waiting, operand: Query) -> Result<Waiting, AllocError>
    ensures { IfOk result (λ w. plain_waiting w
        ≡ (not_state (plain_waiting waiting) [] (tree_of operand)).waiting) }
{
    let left = joined(alloc, By::Not, waiting.not_left, operand)?;
    Ok(Waiting {
        not_left: Some(left),
        ..waiting
    })
}

// The query that a chain is: a phrase where it has no links.
fn query_of_chain(chain: Linked) -> Query
    ensures { tree_of result ≡ tree_of_chain (plain_phrase chain.first)
        (map plain_link chain.links.items) }
{
    let Linked { first, links } = chain;
    if links.is_empty() {
        Query::Phrase(first)
    } else {
        Query::Near(Chain { first, links })
    }
}

// NEAR joins one more phrase to the chain, if the lexeme is one.
fn next_phrase(
    alloc: Global,
    chain: Linked,
    most: usize,
    column: Option<usize>,
    lexeme: Lexeme,
) -> Result<Option<Last>, AllocError>
    ensures { IfOk result (λ last. option_map plain_last last
        ≡ option_map (λ q. chained (plain_phrase chain.first)
        (map plain_link chain.links.items ++ record { most = most; to = q } ∷ []))
        (phrase_of column (plain_lexeme lexeme))) }
{
    let Some(to) = phrase_of(alloc, column, lexeme)? else {
        return Ok(None);
    };
    let Linked { first, mut links } = chain;
    links.push(Link { most, to })?;
    Ok(Some(Last::Chained(Linked { first, links })))
}

// The query of a state after which nothing comes, if it has one.
fn finish(alloc: Global, state: State) -> Result<Option<Query>, AllocError>
    ensures { IfOk result (λ q. option_map tree_of q
        ≡ finish (plain_waiting state.around.waiting) (plain_outer state.around.outer.items)
        (plain_last state.last)) }
{
    let State { around, last } = state;
    if !around.outer.is_empty() {
        return Ok(None);
    }
    let operand = match last {
        Last::Chained(chain) => query_of_chain(chain),
        Last::Whole(operand) => operand,
        _ => return Ok(None),
    };
    Ok(Some(whole(alloc, around.waiting, operand)?))
}
