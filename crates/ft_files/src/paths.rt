//! The names of both databases of a FILE.
ghost use Rattle.std.specs.Prelude.{◌≡◌, ◌⊎◌, true, string_bytes, Err, IfOk, IfErr};
ghost use Rattle.ft_files.specs.Opening as forms;
ghost use Rattle.ft_files.specs.declared.databases.OpenFault.TheVariants as fault;

use crate::databases::{OpenFault, store_fault};
use crate::names::{file_path, is_long};
use ft_store::StoreFault;
use std::alloc::{AllocError, Global};

/// The name of the plain tables, and that of the full-text store beside them.
#[derive(Drop)]
pub struct BothNames {
    pub tables: String,
    pub texts: String,
}

// The file of the full-text store beside the file of the plain tables.
fn store_path(alloc: Global, path: &str) -> Result<String, AllocError>
    ensures { IfOk result (λ text. string_bytes text ≡ forms.store_path path.now) }
{
    format!(in alloc; "{path}-fts4")
}

/// The names of both databases of a FILE, if its own is not too long.
pub fn names_of(alloc: Global, path: &str) -> Result<BothNames, OpenFault>
    ensures tables { IfOk result (λ names. string_bytes names.tables ≡ forms.file_path path.now) }
    ensures texts { IfOk result (λ names. string_bytes names.texts
        ≡ forms.store_path (forms.file_path path.now)) }
    ensures refused { IfErr result (λ f. (f ≡ fault.Database) ⊎ (f ≡ fault.Store)) }
    ensures long { forms.has_long_name path.now ≡ true → result ≡ Err fault.Database }
{
    if is_long(path) {
        return Err(OpenFault::Database);
    }
    let Ok(tables) = file_path(alloc, path) else {
        return Err(OpenFault::Database);
    };
    let Ok(texts) = store_path(alloc, tables.as_str()) else {
        return Err(store_fault(StoreFault::Memory));
    };
    Ok(BothNames { tables, texts })
}
