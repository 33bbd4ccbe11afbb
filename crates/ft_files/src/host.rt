//! Where the two databases come from: a host that opens the files of a name, and takes them back.
ghost use Rattle.std.specs.Prelude.{◌≡◌, ℕ, Bool, List, None, IsTrue, IfSome};
ghost use Rattle.sqlite_wal.specs.Recovery.{Image};
ghost use Rattle.sqlite.specs.Files.{image_of};
ghost use Rattle.ft_files.specs.Hosts.{Stay, StayBut};

use sqlite::{Files, Options};
use sqlite_disk::Disk;

/// The two files of a database, open, with the options that suit them.
pub struct Opened<D: Disk> {
    pub files: Files<D>,
    pub options: Options,
}

/// Databases by their names.
pub trait Databases<D: Disk> {
    /// Whether it tells what its names hold.
    ghost tells: { Bool };

    /// What the two files of each name hold that are not open.
    ghost holds: { Self → List ℕ → Image };

    /// Whether nothing is known against opening a database of this name. None is made.
    fn is_free(&mut self, name: &str) -> bool
        ensures stay { IsTrue tells → Stay (holds self.old) (holds self.new) };

    /// Makes ready for a database with this name beside another, which is open and whose access it
    /// is to have. A name that is not there holds nothing, before and after.
    fn make_beside(&mut self, of: &str, name: &str) -> bool
        ensures stay { IsTrue tells → Stay (holds self.old) (holds self.new) };

    /// The two files of a name, empty where there are none. Until they are given back nothing is
    /// said of what the name holds.
    fn open(&mut self, name: &str) -> Option<Opened<D>>
        ensures log { IfSome result (λ it. IsTrue (D.Disk.is_usable it.files.log)) }
        ensures db { IfSome result (λ it. IsTrue (D.Disk.is_usable it.files.db)) }
        ensures held { IsTrue tells → IfSome result (λ it. image_of D.Disk it.files
            ≡ holds self.old name.now) }
        ensures refused { IsTrue tells → result ≡ None → holds self.new name.now
            ≡ holds self.old name.now }
        ensures others { IsTrue tells → StayBut name.now (holds self.old) (holds self.new) };

    /// Takes the files of a name back: that is what it holds.
    fn close(&mut self, name: &str, files: Files<D>)
        ensures held { IsTrue tells → holds self.new name.now ≡ image_of D.Disk files }
        ensures others { IsTrue tells → StayBut name.now (holds self.old) (holds self.new) };
}
