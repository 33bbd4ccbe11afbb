//! Reading words from the front of a statement.
ghost use Rattle.std.specs.Prelude.{◌≡◌, ◌≤◌, ◌+◌, ◌-◌, ◌==◌, ◌&&◌, codes, ◌<◌, OnOk, ◌^◌, string_bytes, IfOk, ℕ, List, map, length, Some, Ok, IfErr, Err};
ghost use Rattle.ft_commands.specs.declared.fault.StatementFault.TheVariants.{Syntax};
ghost use Rattle.ft_statements.specs.Forms.{Closes, one, begins, ends, ends_part};
ghost use Rattle.ft_statements.specs.Words as words;
ghost use Rattle.ft_statements.specs.Words.{Token};
ghost use Rattle.ft_statements.specs.Reading as reads;
ghost use Rattle.ft_statements.specs.Reading.{FrontRead, read, list_at};
ghost use Rattle.ft_statements.specs.Grammar as forms;
ghost use Rattle.ft_statements.specs.Views.{seen, plain, rest_of, Advances, Passes, Takes};

use crate::words::{Token, is_word, literal_of, name_of};
use ft_commands::StatementFault;
use std::alloc::Global;

/// The words of a statement that are still to be read.
#[derive(Clone, Copy)]
pub(crate) struct Reader<'a> {
    pub(crate) alloc: Global,
    pub(crate) left: &'a [Token<'a>],
}

/// What words at the front spell.
pub(crate) trait Spelled: Sized + Drop {
    ghost Form: { Type 0 };

    ghost shown: { Self → Form };

    ghost form: { List Token → FrontRead Token Form };

    fn read(words: &mut Reader<'_>) -> Result<Self, StatementFault>
        ensures { Advances shown form words.old words.new result };
}

impl Spelled for String {
    ghost Form = { List ℕ };

    ghost shown = { string_bytes };

    ghost form = { read forms.name };

    fn read(words: &mut Reader<'_>) -> Result<String, StatementFault> {
        words.name()
    }
}

impl<'a> Reader<'a> {
    /// Whether this is the next word.
    pub(crate) fn stands(&self, word: &str) -> bool
        ensures { result ≡ begins (words.spells word.now) (rest_of self.now) }
    {
        match self.left {
            [first, ..] => is_word(first, word),
            [] => false,
        }
    }

    /// Passes this word if it stands there, and says whether it does.
    pub(crate) fn takes(&mut self, word: &str) -> bool
        ensures { Takes (words.spells word.now) (forms.spelled word.now) self.old self.new result }
    {
        match self.left {
            [first, rest @ ..] if is_word(first, word) => {
                self.left = rest;
                true
            }
            _ => false,
        }
    }

    /// Passes this word.
    pub(crate) fn word(&mut self, word: &str) -> Result<(), StatementFault>
        ensures { Passes (forms.spelled word.now) self.old self.new result }
    {
        match self.left {
            [first, rest @ ..] if is_word(first, word) => {
                self.left = rest;
                Ok(())
            }
            _ => Err(StatementFault::Syntax),
        }
    }

    // Passes these words, which stand one after the other.
    fn words(&mut self, words: &[&str]) -> Result<(), StatementFault>
        ensures { Passes (forms.words (map (λ w. w.now) words.now)) self.old self.new result }
    {
        let mut ahead = *self;
        for word in words {
            ahead.word(word)?;
        }
        *self = ahead;
        Ok(())
    }

    /// Passes these words if they stand there, and says whether they do.
    pub(crate) fn takes_all(&mut self, words: &[&str]) -> bool
        ensures { Some (result, rest_of self.new)
            ≡ read (forms.may (map (λ w. w.now) words.now)) (rest_of self.old) }
    {
        self.words(words).is_ok()
    }

    /// The next word.
    pub(crate) fn next(&mut self) -> Result<&'a Token<'a>, StatementFault>
        ensures { Advances (λ p. seen p.now) (read (one Some)) self.old self.new result }
    {
        let [first, rest @ ..] = self.left else {
            return Err(StatementFault::Syntax);
        };
        self.left = rest;
        Ok(first)
    }

    /// The name that stands there.
    pub(crate) fn name(&mut self) -> Result<String, StatementFault>
        ensures { Advances string_bytes (read forms.name) self.old self.new result }
    {
        name_of(self.alloc, self.next()?)
    }

    /// The text that stands there.
    pub(crate) fn literal(&mut self) -> Result<String, StatementFault>
        ensures { Advances string_bytes (read forms.text) self.old self.new result }
    {
        literal_of(self.alloc, self.next()?)
    }

    /// A semicolon may stand there, and nothing else.
    #[tactic(auto, unfolding(crate::specs::Grammar::done))]
    pub(crate) fn done(&mut self) -> Result<(), StatementFault>
        ensures { Advances (λ none. none) (read forms.done) self.old self.new result }
    {
        self.takes_all(&[";"]);
        match self.left {
            [] => Ok(()),
            _ => Err(StatementFault::Syntax),
        }
    }

    /// Any words, up to a comma or a parenthesis that closes none of theirs.
    pub(crate) fn any_words(&mut self) -> Result<&'a [Token<'a>], StatementFault>
        ensures { Advances (λ words. plain words.now) (read forms.any_words) self.old self.new
            result }
    {
        let words = self.left;
        let mut depth = 0usize;
        for (i, word) in words.iter().enumerate() {
            if ends_words(depth, word) {
                self.left = &words[i..];
                return Ok(&words[..i]);
            }
            depth = depth_after(depth, word);
        }
        if depth > 0 {
            return Err(StatementFault::Syntax);
        }
        self.left = &[];
        Ok(words)
    }

    /// What stands between commas.
    pub(crate) fn list<T: Spelled>(&mut self) -> Result<Vec<T>, StatementFault>
        ensures { Advances (λ found. map T.shown found.items)
            (λ left. list_at (words.spells (codes ",")) T.form (length left + 1) left)
            self.old self.new result }
    {
        let mut found = Vec::new(self.alloc);
        let most = self.left.len() + 1;
        for i in 0..most {
            found.push(T::read(self)?)?;
            if !self.takes(",") {
                return Ok(found);
            }
        }
        Err(StatementFault::Syntax)
    }
}

// How many parentheses are open after a word.
fn depth_after(depth: usize, word: &Token<'_>) -> usize
    requires { depth < 2 ^ 64 - 1 }
    ensures groups { result ≡ reads.depth_after (forms.mark_of (seen word.now)) depth }
    ensures most { result ≤ depth + 1 }
{
    if is_word(word, "(") {
        depth + 1
    } else if is_word(word, ")") {
        depth.saturating_sub(1)
    } else {
        depth
    }
}

// Whether a word is a comma or a parenthesis that closes, outside of parentheses.
fn ends_words(depth: usize, word: &Token<'_>) -> bool
    ensures { result ≡ (depth == 0 && ends_part (forms.mark_of (seen word.now))) }
{
    depth == 0 && (is_word(word, ")") || is_word(word, ","))
}
