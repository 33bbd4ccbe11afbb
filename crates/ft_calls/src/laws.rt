//! Laws of calls one after another.
ghost use Rattle.ft_calls.specs.Kept.{DoesCall, KeptByCalls, NamesStayApart, NoneGetsUnsound};
ghost use Rattle.ft_calls.specs.Causes.{DoesForCause};

use sqlite::Alter;

/// After any calls of `execute` and `note` the contents are those of the accepted commands, the
/// index rows of each sound table are exactly those made from scratch, and each command was
/// answered by the definitions. No table becomes unsound, and no two get one name.
pub fn kept_by_calls<S: Alter>()
    ensures kept { KeptByCalls S.Store (DoesCall S.Store) }
    ensures sound { NoneGetsUnsound }
    ensures names { NamesStayApart }
{}

/// The same of calls of which it is known why each command was refused that was.
pub fn kept_with_causes<S: Alter>()
    ensures { KeptByCalls S.Store (DoesForCause S.Store) }
{}
