//! How a store is opened. Rust lets a type's own functions be written in its crate alone, so `Store`
//! has these by traits, and their contracts stand where it has them.

use ft_store::StoreFault;
use sqlite::{Alter, Connection};
use std::alloc::Global;

/// Why a database is not taken as a store, with its connection as it was.
#[derive(Drop)]
pub struct AdoptFault<S: Alter> {
    pub connection: Connection<S>,
    pub cause: StoreFault,
}

/// What is opened in memory.
pub trait OpenMemory: Sized {
    fn open_memory(alloc: Global) -> Result<Self, StoreFault>;
}

/// What is opened in a file.
pub trait OpenFile: Sized {
    fn open_file(rt: &HostRuntime, path: &str) -> Result<Self, StoreFault>;
}

/// What a database is taken as, by a connection `C`. Where it isn't, `F` says why.
pub trait Adopt<C, F>: Sized {
    fn adopt(alloc: Global, conn: C) -> Result<Self, F>;
}
