//! Lists that are put by one call, of which eight are written together where their keys are new.

use crate::steps::{Step, change_each};
use crate::trials::{Trial, adopted, tried};
use ft_store::{Store, StoreFault};
use sqlite::{Alter, Connection};
use std::alloc::{AllocError, Global};
use std::process::Abort;
use std::test::Fail;

// Two groups and one more, in order.
const WORDS: [&str; 17] = [
    "a", "b", "c", "d", "e", "f", "g", "h", "i", "j", "k", "l", "m", "n", "o", "p", "q",
];

// A word at the front of the only document, with a size in bytes. A place without a byte can't be
// packed.
fn put_word(number: usize, size: u32) -> Step {
    match WORDS.get(number) {
        Some(word) => Step::PutTerm(word, 1, size),
        None => Step::ClearIndex,
    }
}

// All words are put, each of one size.
fn words(size: u32) -> [Step; 17] {
    let mut steps = [Step::ClearIndex; 17];
    for (step, word) in steps.iter_mut().zip(WORDS.iter()) {
        *step = Step::PutTerm(word, 1, size);
    }
    steps
}

// The same, where the list of one word can't be packed.
fn words_but(bad: usize) -> [Step; 17] {
    let mut steps = words(2);
    if let Some(step) = steps.get_mut(bad) {
        *step = put_word(bad, 0);
    }
    steps
}

// One word eight times: the last list stays.
const EIGHT: [Step; 8] = [
    Step::PutTerm("f", 1, 1),
    Step::PutTerm("f", 1, 2),
    Step::PutTerm("f", 1, 3),
    Step::PutTerm("f", 1, 4),
    Step::PutTerm("f", 1, 5),
    Step::PutTerm("f", 1, 6),
    Step::PutTerm("f", 1, 7),
    Step::PutTerm("f", 1, 8),
];

// Eight words, between changes of other kinds.
const MIXED: [Step; 11] = [
    Step::PutTerm("z", 1, 1),
    Step::DropTerm("z", 1),
    Step::PutTerm("a", 1, 2),
    Step::PutTerm("b", 1, 2),
    Step::PutTerm("c", 1, 2),
    Step::PutTerm("d", 1, 2),
    Step::PutTerm("e", 1, 2),
    Step::PutTerm("f", 1, 2),
    Step::PutTerm("g", 1, 2),
    Step::PutTerm("h", 1, 2),
    Step::DropTerm("h", 1),
];

// Each term that the store has, with the size of its first place.
fn sizes_of<S: Alter>(store: &mut Store<S>, alloc: Global) -> Result<String, StoreFault> {
    let entries = store.entries(1)?;
    let mut told = String::new(alloc);
    for entry in &entries {
        write!(told, "{}{} ", entry.term, entry.spot.size)?;
    }
    Ok(told)
}

// What calls on a store with one table answer, and its terms with their sizes then.
#[derive(Clone, Copy)]
struct Calls<'a>(&'a [&'a [Step]]);

impl<'a> Trial for Calls<'a> {
    type Found = (Result<(), StoreFault>, String);

    fn over<S: Alter + Drop>(
        self,
        alloc: Global,
        conn: Connection<S>,
    ) -> Result<(Result<(), StoreFault>, String), Fail> {
        let mut store = adopted(alloc, conn)?;
        change_each(&mut store, alloc, &[&[Step::MakeTable]])?;
        let answer = change_each(&mut store, alloc, self.0);
        Ok((answer, sizes_of(&mut store, alloc)?))
    }
}

// Calls are done, and leave so many words of one size.
fn leave(
    rt: &impl Abort,
    alloc: Global,
    calls: &[&[Step]],
    count: usize,
    size: i64,
) -> Result<(), Fail> {
    let (answer, left) = tried(alloc, Calls(calls))?;
    assert_eq!(rt; answer, Ok(()));
    assert_eq!(rt; left.as_str(), told_words(alloc, count, size)?.as_str());
    Ok(())
}

fn told_words(alloc: Global, count: usize, size: i64) -> Result<String, AllocError> {
    let mut told = String::new(alloc);
    for word in WORDS.iter().take(count) {
        write!(told, "{word}{size} ")?;
    }
    Ok(told)
}

// So many words are put where one of them is there with another list.
#[test]
fn put_replaces_what_is_there(rt: HostRuntime) -> Result<(), Fail> {
    let all = words(2);
    for (count, there) in [
        (1, 0),
        (8, 0),
        (8, 4),
        (8, 7),
        (9, 4),
        (9, 8),
        (17, 12),
        (17, 16),
    ] {
        leave(
            &rt,
            rt.alloc(),
            &[&[put_word(there, 9)], &all[..count]],
            count,
            2,
        )?;
    }
    Ok(())
}

// All words are put again, as they are and then with other lists; of one word that is put eight
// times by one call the last list stays; what comes after eight words of which one is there is
// done too.
#[test]
fn words_are_put_again(rt: HostRuntime) -> Result<(), Fail> {
    let alloc = rt.alloc();
    let (two, three) = (words(2), words(3));
    leave(&rt, alloc, &[&two], 17, 2)?;
    leave(&rt, alloc, &[&two, &two], 17, 2)?;
    leave(&rt, alloc, &[&two, &two, &three], 17, 3)?;
    leave(&rt, alloc, &[&[put_word(4, 9)], &MIXED], 7, 2)?;
    let (answer, left) = tried(alloc, Calls(&[&EIGHT]))?;
    assert_eq!(&rt; answer, Ok(()));
    assert_eq!(&rt; left.as_str(), "f8 ");
    Ok(())
}

#[test]
fn list_that_cannot_be_packed_changes_nothing(rt: HostRuntime) -> Result<(), Fail> {
    for bad in [0, 5, 12, 16] {
        let steps = words_but(bad);
        let (answer, left) = tried(rt.alloc(), Calls(&[&[put_word(3, 9)], &steps]))?;
        assert_eq!(&rt; answer, Err(StoreFault::Damaged));
        assert_eq!(&rt; left.as_str(), "d9 ");
    }
    Ok(())
}
