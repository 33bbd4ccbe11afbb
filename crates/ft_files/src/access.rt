//! Who may read the file of the full-text store: no more than may read the file of the plain
//! tables.

ghost use Rattle.std.specs.Prelude.{◌≡◌};
ghost use Rattle.ft_files.specs.Opening as forms;

use std::fs::{self, File, Metadata, OpenOptions, Permissions};
use std::io::{self, ErrorKind};
use std::os::unix::fs::{MetadataExt, OpenOptionsExt, PermissionsExt, fchown};

// The mode of a file that is being made: its owner alone has it.
const OWNER: u32 = 0o600;

// The bits of a mode that say who may do what, and those of them that aren't the group's.
const EVERYBODY: u32 = 0o777;

const NOT_THE_GROUP: u32 = 0o707;

// This process may not set an owner or a group.
fn unless_denied(outcome: io::Result<()>) -> io::Result<()> {
    match outcome {
        Err(error) if error.kind() == ErrorKind::PermissionDenied => Ok(()),
        outcome => outcome,
    }
}

// The mode of a new file beside one of this mode, whose group it has or not.
fn mode_beside(of: u32, has_group: bool) -> u32
    ensures { result ≡ forms.mode_beside of has_group }
{
    if has_group {
        of & EVERYBODY
    } else {
        of & NOT_THE_GROUP
    }
}

// Gives a new file the group, the owner and the mode of another, as far as this process may.
fn copy_access(of: &Metadata, to: &File) -> io::Result<()> {
    unless_denied(fchown(to, None, Some(of.gid())))?;
    unless_denied(fchown(to, Some(of.uid()), None))?;
    let has_group = to.metadata()?.gid() == of.gid();
    to.set_permissions(Permissions::from_mode(mode_beside(of.mode(), has_group)))
}

/// Makes an empty file at `beside`, where none is, with the access that the file at `path` has, as
/// SQLite makes the log of a database. It is never open to more.
pub(crate) fn make_beside(rt: &HostRuntime, path: &str, beside: &str) -> io::Result<()> {
    let of = fs::metadata(rt, path)?;
    match OpenOptions::new()
        .write(true)
        .create_new(true)
        .mode(OWNER)
        .open(rt, beside)
    {
        Ok(file) => copy_access(&of, &file),
        Err(error) if error.kind() == ErrorKind::AlreadyExists => Ok(()),
        Err(error) => Err(error),
    }
}
