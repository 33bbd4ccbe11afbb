//! The databases of the system, as files.
ghost use Rattle.std.specs.Prelude.{◌≡◌, false, IsTrue};
ghost use Rattle.sqlite.specs.Files.{image_of};
ghost use Rattle.ft_files.specs.Hosts.{StayBut, empty_image};

use crate::access::make_beside;
use crate::host::{Databases, Opened};
use crate::names::are_free;
use ft_opening::{file_options, open_pair};
use sqlite::{File, Files, Unknown};
use sqlite_disk::Disk;

/// The files of the system. Nothing is known of what they hold.
#[derive(Drop)]
pub struct SystemDatabases<'a> {
    pub rt: &'a HostRuntime,
}

impl Databases<File> for SystemDatabases<'_> {
    ghost tells = { false };

    ghost holds = { λ _ _. empty_image };

    fn is_free(&mut self, name: &str) -> bool {
        matches!(are_free(self.rt, name), Ok(true))
    }

    fn make_beside(&mut self, of: &str, name: &str) -> bool {
        make_beside(self.rt, of, name).is_ok()
    }

    fn open(&mut self, name: &str) -> Option<Opened<File>> {
        let Ok(files) = open_pair(self.rt, name, Unknown) else {
            return None;
        };
        let Ok(options) = file_options(self.rt, name) else {
            return None;
        };
        Some(Opened { files, options })
    }

    fn close(&mut self, name: &str, files: Files<File>)
        ensures held { IsTrue false → empty_image ≡ image_of ⟦<File as Disk>⟧ files }
        ensures others { IsTrue false → StayBut name.now (λ _. empty_image) (λ _. empty_image) }
    {
        let _ = name;
        drop(files);
    }
}
