//! Which plain tables can be read.
ghost use Rattle.std.specs.Result.{result_ok};
ghost use Rattle.plain_sql.specs.Listings.{Tries, Finds, StopsTrying};
ghost use Rattle.std.specs.Prelude.{map, string_bytes, IfOk, OnErr};
ghost use Rattle.ft_commands.specs.Views.{texts_of};

use crate::imports::reading_text;
use crate::queries::is_memory_error;
use sqlite::{Alter, Connection};
use std::alloc::{AllocError, Global};

/// Whether a table of this name can be read in the plain database: `sqlite` answers a reading of
/// it.
pub fn reads_table<P: Alter>(
    alloc: Global,
    conn: &mut Connection<P>,
    name: &str,
) -> Result<bool, AllocError>
    ensures { Tries P.Store name.now (result_ok result) conn.old conn.new }
{
    let text = reading_text(alloc, name)?;
    match conn.query_all(text.as_str(), &[]) {
        Ok(_) => Ok(true),
        Err(error) if is_memory_error(error) => Err(AllocError),
        Err(_) => Ok(false),
    }
}

/// Of these names those of tables that can be read, each tried in turn.
pub fn found_tables<P: Alter>(
    alloc: Global,
    plain: &mut Connection<P>,
    names: &[String],
) -> Result<Vec<String>, AllocError>
    ensures found { IfOk result (λ found. Finds P.Store (map string_bytes names.now) plain.old
        plain.new (texts_of found)) }
    ensures stops { OnErr result (StopsTrying P.Store (map string_bytes names.now) plain.old
        plain.new) }
{
    let mut found = Vec::new(alloc);
    for name in names {
        let can_read = reads_table(alloc, plain, name.as_str())?;
        if can_read {
            found.push(String::from_str(alloc, name.as_str())?)?;
        }
    }
    Ok(found)
}
