//! Lists of the words of documents, for walks. They promise nothing to a proof.
ghost use Rattle.std.specs.Prelude.{◌≡◌, ◌+◌, ◌-◌, ◌^◌, ◌||◌, [], map, min, IfOk, OnErr};
ghost use Rattle.ft_match.specs.Documents.{place_count};
ghost use Rattle.ft_query.specs.Lists.{plain_list, is_failed};

use ft_query::{DocList, ListFault, Lists, Place, tokens};
use std::alloc::{AllocError, Global};

// A document: its docid, and the texts of its columns.
pub type Texts<'a> = (i64, &'a [&'a str]);

// Lists of the words of documents that stand by rising docid.
#[derive(Drop)]
pub struct Words<'a> {
    documents: &'a [Texts<'a>],
    pub calls_left: usize,
    failed: bool,
    given: u64,
}

fn count(lists: &[DocList]) -> u64
    ensures { result ≡ min (place_count (map plain_list lists.now)) (2 ^ 64 - 1) }
{
    let mut places: u64 = 0;
    for list in lists {
        places = places.saturating_add(list.place_count() as u64);
    }
    places
}

fn is_asked(term: &str, asked: &str, begins: bool) -> bool {
    if begins {
        term.starts_with(asked)
    } else {
        term == asked
    }
}

fn number(n: usize) -> Result<u32, AllocError> {
    u32::try_from(n).map_err(|_| AllocError)
}

fn push_places(
    alloc: Global,
    column: usize,
    text: &str,
    asked: &str,
    begins: bool,
    places: &mut Vec<Place>,
) -> Result<(), AllocError> {
    for token in &tokens(alloc, text)? {
        if is_asked(token.term.as_str(), asked, begins) {
            places.push(Place::new(
                number(column)?,
                number(token.pos)?,
                number(token.start)?,
                number(token.size)?,
            ))?;
        }
    }
    Ok(())
}

fn lists_of(
    alloc: Global,
    documents: &[Texts<'_>],
    asked: &str,
    begins: bool,
) -> Result<Vec<DocList>, AllocError> {
    let mut lists: Vec<DocList> = Vec::new(alloc);
    for (docid, texts) in documents {
        let mut places: Vec<Place> = Vec::new(alloc);
        for (column, text) in texts.iter().enumerate() {
            push_places(alloc, column, text, asked, begins, &mut places)?;
        }
        if !places.is_empty() {
            lists.push(DocList::new(*docid, places))?;
        }
    }
    Ok(lists)
}

impl<'a> Words<'a> {
    fn ask(&mut self, alloc: Global, asked: &str, begins: bool) -> Result<Vec<DocList>, ListFault>
        ensures failed { self.new.failed ≡ (self.old.failed || is_failed result) }
        ensures given { IfOk result (λ lists. self.new.given
            ≡ min (self.old.given + place_count (map plain_list lists.items)) (2 ^ 64 - 1)) }
        ensures none_given { OnErr result (self.new.given ≡ self.old.given) }
    {
        if self.calls_left == 0 {
            self.failed = true;
            return Err(ListFault::Failed);
        }
        self.calls_left -= 1;
        let lists = lists_of(alloc, self.documents, asked, begins)?;
        self.given = self.given.saturating_add(count(&lists));
        Ok(lists)
    }
}

impl<'a> Lists for Words<'a> {
    ghost documents = { λ _. [] };

    ghost is_clean = { λ _. ⊥ };

    ghost has_failed = { λ l. l.failed };

    ghost given_so_far = { λ l. l.given };

    fn word(&mut self, alloc: Global, term: &str) -> Result<Vec<DocList>, ListFault> {
        self.ask(alloc, term, false)
    }

    fn prefix(&mut self, alloc: Global, begin: &str) -> Result<Vec<DocList>, ListFault> {
        self.ask(alloc, begin, true)
    }

    fn failed(&self) -> bool {
        self.failed
    }

    fn given(&self) -> u64 {
        self.given
    }

    ghost in_order = { λ _ never. absurd never };
}

pub(crate) fn words_of<'a>(documents: &'a [Texts<'a>]) -> Words<'a> {
    Words {
        documents,
        calls_left: 1_000,
        failed: false,
        given: 0,
    }
}
