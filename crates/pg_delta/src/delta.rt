//! Deltas.

ghost use Rattle.std.specs.Prelude.{◌≡◌, IfOk};
ghost use Rattle.pg_delta.specs.Taking.{delta_to};

use pg_base::{Items, Stamp};
use pg_patch::Ranges;
use std::alloc::{AllocError, Global};

/// What made a version: from the heads of which stamps, in their order, it came to the version of
/// which stamp, and what the ranges change of what those heads show.
#[derive(Debug, Drop)]
pub struct KeptDelta {
    pub from: Items<Stamp>,
    pub to: Stamp,
    pub ranges: Ranges,
}

impl KeptDelta {
    /// A delta of its own. The bytes of the parts are shared.
    pub fn new(
        alloc: Global,
        from: &[Stamp],
        to: Stamp,
        ranges: &Ranges,
    ) -> Result<KeptDelta, AllocError>
        ensures { IfOk result (λ d. d ≡ delta_to from.now to ranges.now) }
    {
        Ok(KeptDelta {
            from: Items::from_vec(Vec::from_slice(alloc, from)?),
            to,
            ranges: ranges.copy()?,
        })
    }
}
