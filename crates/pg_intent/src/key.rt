//! What tells one intention from another.

ghost use Rattle.std.specs.Prelude.{◌≡◌};
ghost use Rattle.pg_intent.specs.Key.{is_for_peer, is_same_key, key_cmp};

use pg_base::{FileId, NodeId};
use std::cmp::Ordering;

/// What tells one intention from another: a server has at most one with each key.
#[derive(Clone, Copy, Debug, PartialEq, Eq, PartialOrd, Ord, Hash)]
pub enum IntentKey {
    /// `birth` is that of the replica that is gone.
    Bye {
        file: FileId,
        birth: u64,
        peer: NodeId,
    },
    Patch {
        dir: FileId,
        child: FileId,
    },
    Fill {
        file: FileId,
    },
    Seek {
        file: FileId,
    },
    Confirm {
        dir: FileId,
        child: FileId,
    },
    Leave {
        file: FileId,
    },
}

impl IntentKey {
    /// Whether both are the key of one intention.
    pub fn is_same(&self, other: &IntentKey) -> bool
        ensures { result ≡ is_same_key self.now other.now }
    {
        self == other
    }

    /// Whether it is for one peer alone: that of a Bye or a Leave.
    pub fn is_for_peer(&self) -> bool
        ensures { result ≡ is_for_peer self.now }
    {
        match self {
            IntentKey::Bye { .. } | IntentKey::Leave { .. } => true,
            IntentKey::Patch { .. }
            | IntentKey::Fill { .. }
            | IntentKey::Seek { .. }
            | IntentKey::Confirm { .. } => false,
        }
    }

    /// Compares two keys by which begins first, where one event begins both. Kinds stand in the
    /// order in which they are listed here; of one kind the lesser file or directory comes first,
    /// then the lesser child, or birth and peer.
    pub fn compare(&self, other: &IntentKey) -> Ordering
        ensures { result ≡ key_cmp self.now other.now }
    {
        self.cmp(other)
    }
}
