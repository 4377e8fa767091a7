//! Why a call does not go on.

ghost use Rattle.std.specs.Prelude.{◌≡◌};
ghost use Rattle.pg_checks.specs.declared.call_error.CallError.TheVariants as denied;
ghost use Rattle.pg_lookup.specs.declared.paths.LookupError.TheVariants as stop;

use pg_lookup::LookupError;
use pg_pieces::call::Refusal;
use std::alloc::AllocError;

/// Why a call does not go on: it is refused or came to what is not here yet, or memory ran out.
#[derive(Clone, Copy, Debug, PartialEq, Eq)]
pub enum CallError {
    /// The client is told why.
    Stopped(LookupError),
    /// Nothing is known of the call then.
    OutOfMemory,
}

impl CallError {
    /// The call is refused for this reason.
    pub fn refused(why: Refusal) -> CallError
        ensures { result ≡ denied.Stopped (stop.Refused why) }
    {
        CallError::Stopped(LookupError::Refused(why))
    }
}

impl From<AllocError> for CallError {
    ghost use Rattle.std.specs.Prelude.{◌≡◌};
    ghost use Rattle.pg_checks.specs.declared.call_error.CallError.TheVariants as denied;

    ghost from_gives = { λ _ e. e ≡ denied.OutOfMemory };

    fn from(_: AllocError) -> Self {
        CallError::OutOfMemory
    }
}

impl From<LookupError> for CallError {
    ghost use Rattle.std.specs.Prelude.{◌≡◌};
    ghost use Rattle.pg_checks.specs.declared.call_error.CallError.TheVariants as denied;

    ghost from_gives = { λ why e. e ≡ denied.Stopped why };

    fn from(why: LookupError) -> Self {
        CallError::Stopped(why)
    }
}
