//! The files of the system, as an import reads them.

ghost use Rattle.ft_files.specs.Reading.{unknown_files, ReadsAll};
ghost use Rattle.ft_files.specs.Reading as forms;
ghost use Rattle.std.specs.Prelude.{◌≡◌};
ghost use Rattle.std.specs.IoError.{error_kind};

use shell_io::{Source, SourceFault};
use std::alloc::Global;
use std::fs;
use std::io::{self, ErrorKind, Read};

// The most bytes of a file that is imported: 64 MiB.
const MOST_BYTES: u64 = 64 << 20;

/// The files that the host knows, by their paths.
#[derive(Drop)]
pub struct SystemFiles<'a> {
    pub rt: &'a HostRuntime,
}

// Why a file that isn't opened or read is not there.
fn fault_of(error: io::Error) -> SourceFault
    ensures { result ≡ forms.source_fault_of (error_kind error) }
{
    match error.kind() {
        ErrorKind::NotFound => SourceFault::Missing,
        ErrorKind::OutOfMemory => SourceFault::Memory,
        _ => SourceFault::Read,
    }
}

// The bytes of a reader, to its end. At most 64 MiB and one byte are read.
fn read_all<R: Read + Drop>(alloc: Global, reader: R) -> Result<Vec<u8>, SourceFault>
    ensures { ReadsAll (R.remaining reader) result }
{
    let mut bytes = Vec::new(alloc);
    match reader.take(MOST_BYTES + 1).read_to_end(&mut bytes) {
        Ok(count) if count as u64 > MOST_BYTES => Err(SourceFault::TooBig),
        Ok(_) => Ok(bytes),
        Err(error) => Err(fault_of(error)),
    }
}

impl Source for SystemFiles<'_> {
    ghost holds = { λ files. unknown_files };

    fn fetch(&mut self, alloc: Global, name: &str) -> Result<Vec<u8>, SourceFault> {
        let file = fs::open(self.rt, name).map_err(|e| fault_of(e))?;
        read_all(alloc, file)
    }
}
