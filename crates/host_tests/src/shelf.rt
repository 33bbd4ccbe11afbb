//! A host in memory. It has the names of two databases, tells what they hold, and refuses its calls
//! from some number of them on.
ghost use Rattle.std.specs.Prelude.{◌≡◌, true, IsTrue};
ghost use Rattle.std.specs.Str.{bytes_eq};
ghost use Rattle.sqlite.specs.Files.{image_of};
ghost use Rattle.ft_files.specs.Hosts.{StayBut};
ghost use Rattle.host_tests.specs.Names.{two_names};

use crate::image::{Image, files_of, no_files, read_of};
use ft_files::{Databases, Opened};
use ram_disk::Ram;
use sqlite::{Files, Options};
use sqlite_disk::Disk;
use std::alloc::{AllocError, Global};
use std::mem;
use std::process::Abort;
use std::test::Fail;

// A name, and what its two files are while they are not open.
#[derive(Drop)]
struct Slot {
    name: &'static str,
    files: Files<Ram>,
}

impl Slot {
    fn is_of(&self, name: &str) -> bool
        ensures { result ≡ bytes_eq self.now.name.now name.now }
    {
        self.name == name
    }

    // The files. None are left.
    fn take(&mut self, alloc: Global) -> Files<Ram>
        ensures files { result ≡ self.old.files }
        ensures name { self.new.name ≡ self.old.name }
    {
        mem::replace(&mut self.files, no_files(alloc))
    }

    // Puts the files in the place of those that it has.
    fn put(&mut self, files: Files<Ram>)
        ensures files { self.new.files ≡ files }
        ensures name { self.new.name ≡ self.old.name }
    {
        self.files = files;
    }
}

// Whether one more call is answered, and then it is counted.
fn is_answered(calls: &mut u64) -> bool {
    if *calls == 0 {
        return false;
    }
    *calls -= 1;
    true
}

/// What both names hold.
#[derive(Drop, PartialEq)]
pub(crate) struct Held {
    pub(crate) tables: Image,
    pub(crate) texts: Image,
}

impl Held {
    /// Nothing.
    pub(crate) fn none(alloc: Global) -> Held {
        Held {
            tables: Image::empty(alloc),
            texts: Image::empty(alloc),
        }
    }
}

/// The host. The runtime is for a close under a name that it doesn't have, for which it has no room:
/// then the test stops.
#[derive(Drop)]
pub(crate) struct Shelf<'a, R: Abort> {
    rt: &'a R,
    alloc: Global,
    tables: Slot,
    texts: Slot,
    calls: u64,
}

/// More calls than a run makes.
pub(crate) const ALL: u64 = u64::MAX;

impl<'a, R: Abort> Shelf<'a, R> {
    /// Nothing under either name, and all calls answered.
    pub(crate) fn new(
        rt: &'a R,
        alloc: Global,
        tables: &'static str,
        texts: &'static str,
    ) -> Shelf<'a, R> {
        Shelf {
            rt,
            alloc,
            tables: Slot {
                name: tables,
                files: no_files(alloc),
            },
            texts: Slot {
                name: texts,
                files: no_files(alloc),
            },
            calls: ALL,
        }
    }

    /// Puts these bytes under both names, and answers so many calls from now on.
    pub(crate) fn hold(&mut self, held: &Held, calls: u64) -> Result<(), Fail> {
        self.tables.put(files_of(self.alloc, &held.tables)?);
        self.texts.put(files_of(self.alloc, &held.texts)?);
        self.answer(calls);
        Ok(())
    }

    /// Answers so many calls from now on.
    pub(crate) fn answer(&mut self, calls: u64) {
        self.calls = calls;
    }

    /// What both names hold.
    pub(crate) fn held(&self) -> Result<Held, AllocError> {
        Ok(Held {
            tables: read_of(self.alloc, &self.tables.files)?,
            texts: read_of(self.alloc, &self.texts.files)?,
        })
    }
}

// The files of a slot, open.
fn opened(slot: &mut Slot, alloc: Global) -> Opened<Ram>
    ensures files { result.files ≡ slot.old.files }
    ensures name { slot.new.name ≡ slot.old.name }
{
    Opened {
        files: slot.take(alloc),
        options: Options::new(1),
    }
}

impl<R: Abort> Databases<Ram> for Shelf<'_, R> {
    ghost tells = { true };

    ghost holds = { λ it. two_names ⟦<Ram as Disk>⟧ it.tables.name.now it.tables.files
        it.texts.name.now it.texts.files };

    fn is_free(&mut self, name: &str) -> bool {
        is_answered(&mut self.calls) && (self.tables.is_of(name) || self.texts.is_of(name))
    }

    fn make_beside(&mut self, of: &str, name: &str) -> bool {
        is_answered(&mut self.calls) && self.tables.is_of(of) && self.texts.is_of(name)
    }

    fn open(&mut self, name: &str) -> Option<Opened<Ram>> {
        if !is_answered(&mut self.calls) {
            return None;
        }
        if self.tables.is_of(name) {
            return Some(opened(&mut self.tables, self.alloc));
        }
        if self.texts.is_of(name) {
            return Some(opened(&mut self.texts, self.alloc));
        }
        None
    }

    fn close(&mut self, name: &str, files: Files<Ram>)
        ensures held { IsTrue true → two_names ⟦<Ram as Disk>⟧ self.new.tables.name.now
            self.new.tables.files self.new.texts.name.now self.new.texts.files name.now
            ≡ image_of ⟦<Ram as Disk>⟧ files }
        ensures others { IsTrue true → StayBut name.now
            (two_names ⟦<Ram as Disk>⟧ self.old.tables.name.now self.old.tables.files
            self.old.texts.name.now self.old.texts.files)
            (two_names ⟦<Ram as Disk>⟧ self.new.tables.name.now self.new.tables.files
            self.new.texts.name.now self.new.texts.files) }
    {
        if self.tables.is_of(name) {
            self.tables.put(files);
        } else if self.texts.is_of(name) {
            self.texts.put(files);
        } else {
            panic!(self.rt; "{name} is closed and was never there");
        }
    }
}
