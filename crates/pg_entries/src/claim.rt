//! Which of several children with one name shows it.

ghost use Rattle.std.specs.Prelude.{◌≡◌};
ghost use Rattle.std.specs.Ordering.{is_lt};
ghost use Rattle.pg_entries.specs.Shown.{claim_cmp, claim_of};

use crate::entry::Entry;
use pg_base::{FileId, Stamp};

/// A child's claim on its name.
#[derive(Clone, Copy, Debug)]
pub(crate) struct Claim {
    pub stamp: Stamp,
    pub child: FileId,
}

impl Claim {
    /// The claim that a child makes by its place.
    pub(crate) fn of(entry: &Entry) -> Claim
        ensures { result ≡ claim_of entry.now }
    {
        Claim {
            stamp: entry.place.stamp,
            child: entry.child,
        }
    }

    /// Whether this claim goes first: by stamp, and then by id.
    pub(crate) fn goes_first(&self, other: &Claim) -> bool
        ensures { result ≡ is_lt (claim_cmp self.now other.now) }
    {
        let by_time = self.stamp.time.cmp(&other.stamp.time);
        let by_stamp = by_time.then(self.stamp.server.cmp(&other.stamp.server));
        by_stamp.then(self.child.compare(&other.child)).is_lt()
    }
}
