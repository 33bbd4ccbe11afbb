//! Queries by their trees, the limits on both sides, and what the default column is for.
use crate::expected::expect;
use ft_query::{Chain, Phrase, Query, QueryFault, QueryTerm, parse};
use std::alloc::{AllocError, Global};
use std::test::Fail;

// The filter's column, as `0:`, or nothing.
fn show_filter(filter: Option<usize>, out: &mut String) -> Result<(), AllocError> {
    match filter {
        Some(column) => write!(out, "{column}:"),
        None => Ok(()),
    }
}

// A term, with `^` where it is a first term and `*` where it is a prefix term.
fn show_term(term: &QueryTerm, out: &mut String) -> Result<(), AllocError> {
    let first = if term.first { "^" } else { "" };
    let prefix = if term.prefix { "*" } else { "" };
    write!(out, "{first}{}{prefix}", term.text)
}

// The filter and the terms, joined by `+`.
fn show_phrase(phrase: &Phrase, out: &mut String) -> Result<(), AllocError> {
    show_filter(phrase.filter, out)?;
    let mut sign = "";
    for term in &phrase.terms {
        out.push_str(sign)?;
        show_term(term, out)?;
        sign = "+";
    }
    Ok(())
}

fn show_chain(chain: &Chain, out: &mut String) -> Result<(), AllocError> {
    show_phrase(&chain.first, out)?;
    for link in &chain.links {
        write!(out, " ~{} ", link.most)?;
        show_phrase(&link.to, out)?;
    }
    Ok(())
}

fn show(query: &Query, out: &mut String) -> Result<(), AllocError> {
    let (name, left, right) = match query {
        Query::Phrase(phrase) => return show_phrase(phrase, out),
        Query::Near(chain) => return show_chain(chain, out),
        Query::And(left, right) => ("And(", left, right),
        Query::Or(left, right) => ("Or(", left, right),
        Query::Not(left, right) => ("Not(", left, right),
    };
    out.push_str(name)?;
    show(left, out)?;
    out.push_str(", ")?;
    show(right, out)?;
    out.push_str(")")
}

// The tree, `no query` or the fault's text.
fn told(alloc: Global, answer: Result<Option<Query>, QueryFault>) -> Result<String, AllocError> {
    let mut out = String::new(alloc);
    match answer {
        Ok(None) => out.push_str("no query")?,
        Ok(Some(query)) => show(&query, &mut out)?,
        Err(QueryFault::Memory) => return Err(AllocError),
        Err(fault) => write!(out, "{fault}")?,
    }
    Ok(out)
}

// What a text reads as among the columns `subject` and `body`.
fn read(alloc: Global, text: &str, default: Option<usize>) -> Result<String, AllocError> {
    let columns = vec![in alloc; "subject".to_string(alloc)?, "body".to_string(alloc)?]?;
    told(alloc, parse(alloc, text, &columns, default))
}

// Rows of a text and what it reads as.
fn reads(alloc: Global, rows: &[(&str, &str)]) -> Result<(), Fail> {
    for (text, want) in rows {
        expect(alloc, read(alloc, text, None)?.as_str(), want, text)?;
    }
    Ok(())
}

// A text of many like pieces.
fn repeated(alloc: Global, pieces: &Pieces<'_>) -> Result<String, AllocError> {
    let (begin, piece, count, end) = *pieces;
    let mut text = begin.to_string(alloc)?;
    for _ in 0..count {
        text.push_str(piece)?;
    }
    text.push_str(end)?;
    Ok(text)
}

// How a text begins, a piece, how often it stands there, and how the text ends.
type Pieces<'a> = (&'a str, &'a str, usize, &'a str);

const MALFORMED: &str = "malformed MATCH expression";

const TOO_LARGE: &str = "MATCH expression too large";

const NONE: &str = "no query";

const FORMS: [(&str, &str); 22] = [
    ("a OR b NOT c", "Or(a, Not(b, c))"),
    ("a OR b c OR d", "Or(Or(a, And(b, c)), d)"),
    ("a b NOT c NOT d", "And(a, Not(Not(b, c), d))"),
    ("(a OR b) NOT c", "Not(Or(a, b), c)"),
    ("subject:\"x y*\" NEAR/3 z", "0:x+y* ~3 z"),
    ("a NEAR/ b", "And(And(a, near), b)"),
    ("a*b", "And(a*, b)"),
    ("subject:nosuch:x", "And(0:nosuch, x)"),
    ("nosuch:world", "And(nosuch, world)"),
    ("BODY:World", "1:world"),
    ("a NEAR b NEAR c", "a ~10 b ~10 c"),
    ("a NEAR body:\"b\" NEAR/0 c", "a ~10 1:b ~0 c"),
    ("a and b", "And(And(a, and), b)"),
    ("^a b", "And(^a, b)"),
    ("subject: ^lin*", "0:^lin*"),
    ("subject:^lin*", "0:^lin*"),
    ("\"^the linux\"", "^the+linux"),
    ("\"the ^linux\"", "the+^linux"),
    ("^a:red", "And(^a, red)"),
    ("^\"a b\"", "a+b"),
    ("a ^^b", "And(a, ^b)"),
    ("\"!!\"", ""),
];

const REFUSED: [(&str, &str); 16] = [
    ("a AND", MALFORMED),
    ("NOT a", MALFORMED),
    ("()", MALFORMED),
    ("a AND OR b", MALFORMED),
    ("(a b) NEAR c", MALFORMED),
    ("a NEAR (b)", MALFORMED),
    ("subject:(a)", MALFORMED),
    ("subject:", MALFORMED),
    ("a \"b", MALFORMED),
    ("a \0 b", MALFORMED),
    ("(a", MALFORMED),
    ("a)", MALFORMED),
    ("", NONE),
    ("!!", NONE),
    ("^", NONE),
    (" \t\n ", NONE),
];

const LIMITS: [(Pieces<'static>, &str); 12] = [
    (("", " ", 10_000, ""), NONE),
    (("", " ", 10_001, ""), TOO_LARGE),
    (("\"", " ", 10_000, ""), TOO_LARGE),
    (("", "a ", 65, ""), TOO_LARGE),
    (("", "a ", 65, "\""), MALFORMED),
    (("\"", "a ", 65, "\""), TOO_LARGE),
    (("a NEAR/", "0", 9_000, "1000000 b"), "a ~1000000 b"),
    (("a NEAR/", "0", 9_000, "1000001 b"), TOO_LARGE),
    (("NEAR/", "9", 9_000, ""), TOO_LARGE),
    (("", "(", 33, ""), TOO_LARGE),
    (("", "(", 32, ""), MALFORMED),
    ((")", "(", 33, ""), MALFORMED),
];

#[test]
fn reads_each_form(rt: HostRuntime) -> Result<(), Fail> {
    reads(rt.alloc(), &FORMS)
}

#[test]
fn refuses_what_reads_as_no_query(rt: HostRuntime) -> Result<(), Fail> {
    reads(rt.alloc(), &REFUSED)
}

// What a text of many like pieces reads as.
fn read_repeated(alloc: Global, pieces: &Pieces<'_>) -> Result<String, AllocError> {
    read(alloc, repeated(alloc, pieces)?.as_str(), None)
}

#[test]
fn limits_stand_on_both_sides(rt: HostRuntime) -> Result<(), Fail> {
    let alloc = rt.alloc();
    for (pieces, want) in &LIMITS {
        expect(
            alloc,
            read_repeated(alloc, pieces)?.as_str(),
            want,
            pieces.1,
        )?;
    }
    Ok(())
}

#[test]
fn as_many_terms_and_parentheses_as_there_may_be(rt: HostRuntime) -> Result<(), Fail> {
    let alloc = rt.alloc();
    let words = repeated(alloc, &("", "a ", 64, ""))?;
    let tree = repeated(alloc, &("", "And(", 63, "a"))?;
    let tree = repeated(alloc, &(tree.as_str(), ", a)", 63, ""))?;
    let nested = repeated(alloc, &("", "(", 32, "a"))?;
    let nested = repeated(alloc, &(nested.as_str(), ")", 32, ""))?;
    reads(
        alloc,
        &[(words.as_str(), tree.as_str()), (nested.as_str(), "a")],
    )
}

#[test]
fn the_default_column_is_for_phrases_without_a_filter(rt: HostRuntime) -> Result<(), Fail> {
    let text = "a NEAR subject:b OR (\"c d\")";
    let told = read(rt.alloc(), text, Some(1))?;
    expect(rt.alloc(), told.as_str(), "Or(1:a ~10 0:b, 1:c+d)", text)
}
