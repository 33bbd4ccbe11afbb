//! Walks over the words of some documents: what they find, in how many steps, and that a call
//! without memory may be made again. `tests/memory_of_queries` refuses each of their allocations
//! alone.
use crate::expected::expect;
use crate::words::{Texts, words_of};
use ft_query::{Hit, ListFault, Lists, Matches, Offset, Query, QueryFault, offsets_text, parse};
use std::alloc::{AllocError, Global};
use std::test::Fail;

// What a call of `next` answers. It promises nothing, so that a caller has nothing to carry.
fn asked(matches: &mut Matches<'_>) -> Option<Option<Hit>> {
    matches.next().ok()
}

// The next hit, also where the first call lacks memory: that changes neither the hit nor the steps.
fn next(matches: &mut Matches<'_>) -> Result<Option<Hit>, Fail> {
    let steps = matches.steps();
    if let Some(hit) = asked(matches) {
        return Ok(hit);
    }
    if matches.steps() != steps {
        return Err("a refused call took steps")?;
    }
    match asked(matches) {
        Some(hit) => Ok(hit),
        None => Err("refused twice")?,
    }
}

// A walk, if there is memory for it.
fn opened<'q>(alloc: Global, query: &'q Query, documents: &[Texts<'_>]) -> Option<Matches<'q>> {
    Matches::open(alloc, query, &mut words_of(documents)).ok()
}

// A walk, also where the first call lacks memory.
fn open<'q>(alloc: Global, query: &'q Query, documents: &[Texts<'_>]) -> Result<Matches<'q>, Fail> {
    if let Some(matches) = opened(alloc, query, documents) {
        return Ok(matches);
    }
    match opened(alloc, query, documents) {
        Some(matches) => Ok(matches),
        None => Err("no walk")?,
    }
}

// These names, each a text of its own.
fn names_of(alloc: Global, names: &[&str]) -> Result<Vec<String>, AllocError> {
    let mut texts: Vec<String> = Vec::new(alloc);
    for name in names {
        texts.push(name.to_string(alloc)?)?;
    }
    Ok(texts)
}

// The query of a text that is one, or is none, also where the first call lacks memory.
fn query_of(alloc: Global, columns: &[&str], text: &str) -> Result<Option<Query>, Fail> {
    let names = names_of(alloc, columns)?;
    if let Ok(query) = parse(alloc, text, &names, None) {
        return Ok(query);
    }
    match parse(alloc, text, &names, None) {
        Ok(query) => Ok(query),
        Err(QueryFault::Memory) => Err("refused twice")?,
        Err(fault) => Err(fault)?,
    }
}

// `docid: offsets;`
fn tell(alloc: Global, hit: &Hit, out: &mut String) -> Result<(), AllocError> {
    let offsets = offsets_text(alloc, &hit.offsets)?;
    write!(out, "{}: {offsets};", hit.docid)
}

// The end of a walk stays its end.
fn ends(matches: &mut Matches<'_>) -> Result<(), Fail> {
    match next(matches)? {
        Some(_) => Err("a hit behind the end")?,
        None => Ok(()),
    }
}

// Each hit of a walk.
fn walked(alloc: Global, matches: &mut Matches<'_>) -> Result<String, Fail> {
    let mut out = String::new(alloc);
    for _ in 0..u64::MAX {
        let Some(hit) = next(matches)? else {
            break;
        };
        tell(alloc, &hit, &mut out)?;
    }
    ends(matches)?;
    Ok(out)
}

// Each hit of a text among documents.
fn found(
    alloc: Global,
    columns: &[&str],
    documents: &[Texts<'_>],
    text: &str,
) -> Result<String, Fail> {
    match query_of(alloc, columns, text)? {
        Some(query) => walked(alloc, &mut open(alloc, &query, documents)?),
        None => Ok(String::new(alloc)),
    }
}

// Rows of a text and its hits, among documents with these columns.
fn finds(
    alloc: Global,
    columns: &[&str],
    documents: &[Texts<'_>],
    rows: &[(&str, &str)],
) -> Result<(), Fail> {
    for (text, want) in rows {
        expect(
            alloc,
            found(alloc, columns, documents, text)?.as_str(),
            want,
            text,
        )?;
    }
    Ok(())
}

const MAILS: [Texts<'static>; 2] = [
    (
        1,
        &["hello world", "This message is a hello world message."],
    ),
    (
        2,
        &[
            "urgent: serious",
            "This mail is seen as a more serious mail",
        ],
    ),
];

const MAIL_ROWS: [(&str, &str); 8] = [
    ("world", "1: 0 0 6 5 1 0 24 5;"),
    ("message", "1: 1 0 5 7 1 0 30 7;"),
    ("\"serious mail\"", "2: 1 0 28 7 1 1 36 4;"),
    ("subject:world", "1: 0 0 6 5;"),
    ("subject:mail", ""),
    ("body:mail", "2: 1 0 5 4 1 0 36 4;"),
    ("nosuch:world", ""),
    ("\"world this\"", ""),
];

#[test]
fn two_columns(rt: HostRuntime) -> Result<(), Fail> {
    finds(rt.alloc(), &["subject", "body"], &MAILS, &MAIL_ROWS)
}

const SQLITE: [Texts<'static>; 1] = [(
    1,
    &["SQLite is an ACID compliant embedded relational database management system"],
)];

const SQLITE_ROWS: [(&str, &str); 5] = [
    ("database NEAR/6 sqlite", "1: 0 1 0 6 0 0 48 8;"),
    ("database NEAR/5 sqlite", ""),
    (
        "database NEAR/2 \"ACID compliant\"",
        "1: 0 1 13 4 0 2 18 9 0 0 48 8;",
    ),
    (
        "sqlite NEAR/2 acid NEAR/2 relational",
        "1: 0 0 0 6 0 1 13 4 0 2 37 10;",
    ),
    ("acid NEAR/2 sqlite NEAR/2 relational", ""),
];

#[test]
fn near_and_chains(rt: HostRuntime) -> Result<(), Fail> {
    finds(rt.alloc(), &["x"], &SQLITE, &SQLITE_ROWS)
}

// Documents in a column `x`, each list of them with one text and its hits.
const REPEATED: [(&[Texts<'static>], &str, &str); 5] = [
    (
        &[(1, &["b"]), (2, &["b a b"])],
        "b NEAR b",
        "2: 0 0 0 1 0 1 0 1 0 0 4 1 0 1 4 1;",
    ),
    (
        &[(1, &["a a a"])],
        "\"a a\"",
        "1: 0 0 0 1 0 0 2 1 0 1 2 1 0 1 4 1;",
    ),
    (
        &[(1, &["a b x a b c"])],
        "a NEAR/0 b NEAR/0 c",
        "1: 0 0 6 1 0 1 8 1 0 2 10 1;",
    ),
    (
        &[(1, &["a b"])],
        "a NEAR b NEAR a",
        "1: 0 0 0 1 0 2 0 1 0 1 2 1;",
    ),
    (
        &[(3, &["wb q"]), (i64::MAX, &["wa p"])],
        "w*",
        "3: 0 0 0 2;9223372036854775807: 0 0 0 2;",
    ),
];

#[test]
fn occurrences_of_one_word_and_documents_by_docid(rt: HostRuntime) -> Result<(), Fail> {
    let alloc = rt.alloc();
    for (documents, text, want) in REPEATED {
        finds(alloc, &["x"], documents, &[(text, want)])?;
    }
    Ok(())
}

const SETS: [Texts<'static>; 4] = [(1, &["a c"]), (2, &["b c"]), (3, &["b"]), (4, &["a"])];

const SET_ROWS: [(&str, &str); 8] = [
    (
        "(a NOT b) OR c",
        "1: 0 0 0 1 0 1 2 1;2: 0 1 2 1;4: 0 0 0 1;",
    ),
    ("a OR b NOT c", "1: 0 0 0 1;3: 0 1 0 1;4: 0 0 0 1;"),
    (
        "a OR b AND c",
        "1: 0 0 0 1 0 2 2 1;2: 0 1 0 1 0 2 2 1;4: 0 0 0 1;",
    ),
    (
        "a OR b c",
        "1: 0 0 0 1 0 2 2 1;2: 0 1 0 1 0 2 2 1;4: 0 0 0 1;",
    ),
    ("(a OR b) NOT c", "3: 0 1 0 1;4: 0 0 0 1;"),
    ("a and c", ""),
    ("\"!!\"", ""),
    ("!!", ""),
];

#[test]
fn sets_of_documents(rt: HostRuntime) -> Result<(), Fail> {
    finds(rt.alloc(), &["x"], &SETS, &SET_ROWS)
}

const LINES: [Texts<'static>; 3] = [(1, &["linux driver"]), (2, &["line"]), (3, &["lion"])];

const LINE_ROWS: [(&str, &str); 3] = [
    ("lin*", "1: 0 0 0 5;2: 0 0 0 4;"),
    ("\"lin* dri*\"", "1: 0 0 0 5 0 1 6 6;"),
    ("lin", ""),
];

#[test]
fn prefixes(rt: HostRuntime) -> Result<(), Fail> {
    finds(rt.alloc(), &["x"], &LINES, &LINE_ROWS)
}

const FIRSTS: [Texts<'static>; 2] = [(1, &["linux driver"]), (2, &["the linux"])];

const FIRST_ROWS: [(&str, &str); 7] = [
    ("^linux", "1: 0 0 0 5;"),
    ("^lin*", "1: 0 0 0 5;"),
    ("x: ^lin*", "1: 0 0 0 5;"),
    ("\"^the linux\"", "2: 0 0 0 3 0 1 4 5;"),
    ("\"the ^linux\"", ""),
    ("the ^linux", ""),
    ("^", ""),
];

#[test]
fn first_terms(rt: HostRuntime) -> Result<(), Fail> {
    finds(rt.alloc(), &["x"], &FIRSTS, &FIRST_ROWS)
}

// Whether the second word of a query is asked for in vain, and the fault then stands.
fn fails(alloc: Global, query: &Query) -> bool {
    let mut lists = words_of(&[(1, &["a b"])]);
    lists.calls_left = 1;
    let fault = Matches::open(alloc, query, &mut lists).err();
    fault == Some(ListFault::Failed) && lists.failed() && lists.given() == 1
}

#[test]
fn a_list_that_fails_fails_the_walk(rt: HostRuntime) -> Result<(), Fail> {
    let Some(query) = query_of(rt.alloc(), &[], "a b")? else {
        return Err("no query")?;
    };
    assert!(rt; fails(rt.alloc(), &query));
    Ok(())
}

// The hits are this many. After each the steps are no more than `most`, and at the end no fewer
// than the hits.
fn counted(matches: &mut Matches<'_>, most: u64) -> Result<u64, Fail> {
    let mut hits: u64 = 0;
    for _ in 0..u64::MAX {
        if next(matches)?.is_none() {
            break;
        }
        hits = hits.saturating_add(1);
        if matches.steps() > most {
            return Err("too many steps")?;
        }
    }
    if matches.steps() > most || matches.steps() < hits {
        return Err("too many steps or too few")?;
    }
    Ok(hits)
}

// Refuses another number of hits than the wanted one.
fn counts(
    alloc: Global,
    documents: &[Texts<'_>],
    text: &str,
    most: u64,
    want: u64,
) -> Result<(), Fail> {
    let Some(query) = query_of(alloc, &[], text)? else {
        return Err("no query")?;
    };
    if counted(&mut open(alloc, &query, documents)?, most)? != want {
        return Err("another number of hits")?;
    }
    Ok(())
}

const THREE: [Texts<'static>; 3] = [(1, &["a"]), (2, &["a"]), (3, &["a"])];

// A text, the most steps that it may take, and how many hits it has.
const STEPS: [(&str, u64, u64); 4] = [
    ("a", 121, 3),
    ("a a", 241, 3),
    ("b", 1, 0),
    ("\"!!\"", 1, 0),
];

#[test]
fn steps_are_bounded(rt: HostRuntime) -> Result<(), Fail> {
    let alloc = rt.alloc();
    for (text, most, want) in STEPS {
        counts(alloc, &THREE, text, most, want)?;
    }
    Ok(())
}

#[test]
fn steps_of_many_documents_are_bounded(rt: HostRuntime) -> Result<(), Fail> {
    let mut many: Vec<Texts<'_>> = Vec::new(rt.alloc());
    for docid in 1..1_001 {
        many.push((docid, &["a"]))?;
    }
    counts(rt.alloc(), &many, "a", 40_001, 1_000)
}

// Where the docid is 2 the list of `a` is at its end.
const TWO: [Texts<'static>; 2] = [(1, &["a b"]), (2, &["b"])];

const FOUR: [Texts<'static>; 2] = [(1, &["a b c d"]), (2, &["b a d c"])];

// Documents, a text, and the steps of its whole walk: for docids alone, and how many more offsets
// take. A step is a docid considered at a list, a comparison of positions, or a node visited:
//
// - For each document each list is asked for its next docid, where it has one left, whether that is
//   the document's, and as the walk goes on.
// - Each phrase is a node, and so is each AND, OR and NOT.
// - The places of a phrase's first word are taken over, one by one, but for a single word only where
//   offsets are wanted. Where the next word stands is sought on from where it was found before.
// - NEAR asks for each place on its left which on its right is not too far ahead, and whether that one
//   is near, or else the one behind it. For offsets it then asks the same for those on its right.
// - For an offset its place is sought in the occurrences, and told. None is made right of a NOT.
const BY_HAND: [(&[Texts<'static>], &str, u64, u64); 15] = [
    // 3 docids, 1 node; 2 places, each taken over, sought and told
    (&[(1, &["a b a b"])], "a", 3 + 1, 2 * 3),
    // 6 docids, 1 node, 2 places of `a`, 2 comparisons of `b`; 4 places, each sought and told
    (&[(1, &["a b a b"])], "\"a b\"", 6 + 1 + 2 + 2, 4 * 2),
    // `b` is compared with the first `a` in vain, also for the offsets
    (&[(1, &["a a b"])], "\"a b\"", 6 + 1 + 2 + 2, 2 * 2 + 1),
    // 2 places are taken over, and `b` is not too far ahead of `a`, and near; the same for `b`
    (&[(1, &["a x b"])], "a NEAR b", 6 + 2 + 2 + 2, 2 + 2 * 2),
    // `b` isn't near, and with no occurrence left there is nothing to compare with
    (&[(1, &["a x b"])], "a NEAR/0 b", 6 + 2 + 2 + 2, 0),
    // 3 places; for `a` the first `b` is too far ahead, and the other isn't, and is near. For each `b`
    // two comparisons with `a`; the first `b` is sought in vain, and 2 places are told
    (
        &[(1, &["b x a b"])],
        "a NEAR/0 b",
        6 + 2 + 3 + 3,
        4 + 1 + 2 * 2,
    ),
    // 6 docids in the one document, 5 in the other, 3 nodes in both; 3 places
    (&TWO, "a AND b", 6 + 5 + 2 * 3, 3 * 3),
    (&TWO, "a OR b", 6 + 5 + 2 * 3, 3 * 3),
    // the offsets of `a` alone; where `a` rejects `b` is a node, too
    (&TWO, "a NOT b", 6 + 5 + 2 * 3, 3),
    // 12 docids, 7 nodes; the offsets of all but `d`
    (
        &[(1, &["a b c d"])],
        "a OR (b AND (c NOT d))",
        12 + 7,
        3 * 3,
    ),
    // the list of `a` is at its end: it rejects, and the 5 nodes right of it are counted, too
    (&[(1, &["b c d"])], "a NOT (b OR (c NOT d))", 11 + 7, 0),
    // 12 docids and 7 nodes in both documents, however they are nested
    (&FOUR, "a OR b OR c OR d", 2 * (12 + 7), 8 * 3),
    (&FOUR, "a OR (b OR (c OR d))", 2 * (12 + 7), 8 * 3),
    (
        &FOUR,
        "((((a OR b)))) OR ((((c OR d))))",
        2 * (12 + 7),
        8 * 3,
    ),
    // `c NOT d` rejects, so that `b NOT ..` accepts and `a NOT ..` rejects; the offsets of `a` are made
    // before that
    (&FOUR, "a NOT (b NOT (c NOT d))", 2 * (12 + 7), 2 * 3),
];

// Whether there was a further hit.
fn goes_on(matches: &mut Matches<'_>, wants_offsets: bool) -> Result<bool, Fail> {
    if wants_offsets {
        return Ok(next(matches)?.is_some());
    }
    Ok(matches.next_docid()?.is_some())
}

// Refuses another number of steps of the whole walk than the wanted one.
fn takes(
    alloc: Global,
    documents: &[Texts<'_>],
    text: &str,
    wants_offsets: bool,
    want: u64,
) -> Result<(), Fail> {
    let Some(query) = query_of(alloc, &["x"], text)? else {
        return Err("no query")?;
    };
    let mut matches = open(alloc, &query, documents)?;
    for _ in 0..u64::MAX {
        if !goes_on(&mut matches, wants_offsets)? {
            break;
        }
    }
    if matches.steps() != want {
        return Err(format!(in alloc; "{text}: {} steps", matches.steps())?)?;
    }
    Ok(())
}

#[test]
fn steps_are_those_counted_by_hand(rt: HostRuntime) -> Result<(), Fail> {
    let alloc = rt.alloc();
    for (documents, text, docids, more) in BY_HAND {
        takes(alloc, documents, text, false, docids)?;
        takes(alloc, documents, text, true, docids.saturating_add(more))?;
    }
    Ok(())
}

// `w0 OR w1 OR w2 ..`, 64 words, where every other OR may open a parenthesis, which makes 31 of them.
fn or_of_words(alloc: Global, is_nested: bool) -> Result<String, AllocError> {
    let mut text = format!(in alloc; "w0")?;
    for i in 1..64 {
        let opening = if is_nested && i % 2 == 0 { "(" } else { "" };
        write!(text, " OR {opening}w{i}")?;
    }
    if is_nested {
        text.push_str(")".repeat(alloc, 31)?.as_str())?;
    }
    Ok(text)
}

// In the one document, which has one of the 64 words, 1 list has a next docid, 64 are asked twice,
// and 127 nodes are visited. The one place takes 3 for its offset. The bound is 32 * 1 + 8 * 64 * 1.
#[test]
fn nested_words_take_as_many_steps_as_flat_ones(rt: HostRuntime) -> Result<(), Fail> {
    let alloc = rt.alloc();
    let all: [Texts<'_>; 1] = [(1, &["w0"])];
    for is_nested in [false, true] {
        let text = or_of_words(alloc, is_nested)?;
        takes(alloc, &all, text.as_str(), false, 1 + 2 * 64 + 127)?;
        takes(alloc, &all, text.as_str(), true, 256 + 3)?;
        counts(alloc, &all, text.as_str(), 32 + 8 * 64, 1)?;
    }
    Ok(())
}

const FIRST: Offset = Offset {
    column: 1,
    term: 0,
    place: 5,
    size: 7,
};

const SECOND: Offset = Offset { place: 30, ..FIRST };

#[test]
fn four_numbers_an_offset(rt: HostRuntime) -> Result<(), Fail> {
    let alloc = rt.alloc();
    let text = offsets_text(alloc, &[FIRST, SECOND])?;
    expect(alloc, text.as_str(), "1 0 5 7 1 0 30 7", "two offsets")?;
    let text = offsets_text(alloc, &[])?;
    expect(alloc, text.as_str(), "", "no offset")
}
