//! What is wanted of an answer.

use std::alloc::Global;
use std::test::Fail;

/// Refuses an answer that isn't the wanted one, and says at what.
pub(crate) fn expect(alloc: Global, told: &str, want: &str, at: &str) -> Result<(), Fail> {
    if told == want {
        return Ok(());
    }
    Err(format!(in alloc; "{told} in place of {want}, at {at}")?)?
}
