//! The names of a database's files: what is refused for a name is refused before a file is made.

ghost use Rattle.std.specs.Prelude.{◌≡◌, string_bytes, IfOk};
ghost use Rattle.ft_files.specs.Opening as forms;

use std::alloc::{AllocError, Global};
use std::fs;
use std::io::{self, ErrorKind};
use std::os::unix::fs::MetadataExt;
use std::path::{Path, PathBuf};

// The most bytes of a file's name, since those of `NAME-fts4-journal` are 255 at the most.
const MOST_BYTES: usize = 242;

// The end of the name of a database's file, of its log and of its rollback journal, and how many
// hard links each may have.
const FILES: [(&str, u64); 3] = [("", 1), ("-wal", 1), ("-journal", u64::MAX)];

/// Where the file of this name lies: one that begins with `file:` is no URI.
pub(crate) fn file_path(alloc: Global, path: &str) -> Result<String, AllocError>
    ensures { IfOk result (λ text. string_bytes text ≡ forms.file_path path.now) }
{
    if path.as_bytes().starts_with(b"file:") {
        format!(in alloc; "./{path}")
    } else {
        String::from_str(alloc, path)
    }
}

/// Whether the name of the file at a path is too long for those of the files beside it.
pub(crate) fn is_long(path: &str) -> bool
    ensures { result ≡ forms.has_long_name path.now }
{
    match Path::new(path).file_name() {
        Some(name) => name.len() > MOST_BYTES,
        None => false,
    }
}

// Where a file lies or is to be made, with no link in its path.
fn real_path(rt: &HostRuntime, path: &str) -> io::Result<PathBuf> {
    match fs::canonicalize(rt, path) {
        Err(error) if error.kind() == ErrorKind::NotFound => {
            let path = Path::new(path);
            let (Some(folder), Some(name)) = (path.parent(), path.file_name()) else {
                return Err(error);
            };
            let folder = if folder.to_string_lossy().is_empty() {
                "."
            } else {
                folder.to_string_lossy()
            };
            let mut real = fs::canonicalize(rt, folder)?;
            real.push(name)?;
            Ok(real)
        }
        found => found,
    }
}

// Whether a file may be made under a name, or is there with no more than so many hard links.
fn is_free(rt: &HostRuntime, path: &str, most: u64) -> io::Result<bool> {
    match fs::symlink_metadata(rt, path) {
        Ok(found) => Ok(found.is_file() && found.nlink() <= most),
        Err(error) if error.kind() == ErrorKind::NotFound => Ok(true),
        Err(error) => Err(error),
    }
}

/// Whether the names of a database's files say nothing against opening it. No file is made.
pub(crate) fn are_free(rt: &HostRuntime, path: &str) -> io::Result<bool> {
    let real = real_path(rt, path)?;
    for (end, most) in FILES {
        let name = format!(in rt.alloc(); "{}{end}", real.as_str())?;
        if !is_free(rt, name.as_str(), most)? {
            return Ok(false);
        }
    }
    Ok(true)
}
