//! The bytes of the two files of a name.

use ram_disk::Ram;
use sqlite::Files;
use sqlite_disk::Disk;
use std::alloc::{AllocError, Global};
use std::test::Fail;

#[derive(Drop, PartialEq)]
pub(crate) struct Image {
    pub(crate) log: Vec<u8>,
    pub(crate) db: Vec<u8>,
}

impl Image {
    pub(crate) fn empty(alloc: Global) -> Image {
        Image {
            log: Vec::new(alloc),
            db: Vec::new(alloc),
        }
    }
}

/// What two files hold.
pub(crate) fn read_of(alloc: Global, files: &Files<Ram>) -> Result<Image, AllocError> {
    Ok(Image {
        log: files.log.bytes().to_vec(alloc)?,
        db: files.db.bytes().to_vec(alloc)?,
    })
}

/// Two files that hold nothing.
pub(crate) fn no_files(alloc: Global) -> Files<Ram> {
    Files {
        log: Ram::new(alloc),
        db: Ram::new(alloc),
    }
}

/// Two files that hold these bytes.
pub(crate) fn files_of(alloc: Global, image: &Image) -> Result<Files<Ram>, Fail> {
    let mut files = no_files(alloc);
    files.log.write_at(0, image.log.as_slice())?;
    files.db.write_at(0, image.db.as_slice())?;
    Ok(files)
}
