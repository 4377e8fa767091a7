//! A failure of the outside, and the count of failures.

ghost use Rattle.std.specs.Prelude.{◌≡◌, ◌+◌, ◌-◌, ◌^◌, ◌≤◌, min};

use thiserror::Error;

/// A call on the outside failed.
#[derive(Clone, Copy, Debug, PartialEq, Eq, Error)]
#[error("a call on the outside failed")]
pub struct Failed;

impl Failed {
    /// A failure that is counted. The count stops at the greatest `u64`.
    pub fn counted(faults: &mut u64) -> Self
        ensures count { faults.new ≡ min (faults.old + 1) (2 ^ 64 - 1) }
        ensures later { faults.old ≤ faults.new }
    {
        *faults = faults.saturating_add(1);
        Failed
    }
}
