//! What comes to a replica along an edge.

use pg_base::NodeId;

/// An edge by its two ends: which birth of the replica it belongs to, and which birth of the
/// peer's.
#[derive(Clone, Copy, Debug, PartialEq, Eq)]
pub struct Link {
    pub own: u64,
    pub peer: NodeId,
    pub birth: u64,
}
