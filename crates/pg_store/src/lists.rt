//! Lists that are kept beside what is held. To lend one takes no memory, and looks at nothing else.

ghost use Rattle.std.specs.Prelude.{◌≡◌};
ghost use Rattle.pg_names.specs.Calm.{children, holders};
ghost use Rattle.pg_replica.specs.Unacked.{unacked};

use crate::store::Store;
use pg_base::{FileId, NodeId};
use pg_unacked::Due;

impl Store {
    /// The held things other than the root whose live place is in a directory, by id.
    pub fn children(&self, dir: FileId) -> &[FileId]
        ensures { result.now ≡ children self.now.names dir }
    {
        self.names.children(&dir).as_slice()
    }

    /// The held things that have a cell for a thing, by id.
    pub fn holders(&self, child: FileId) -> &[FileId]
        ensures { result.now ≡ holders self.now.names child }
    {
        self.names.holders(&child).as_slice()
    }

    /// The keys that a peer has not acknowledged, on all edges to it, by file and then by key.
    pub fn unacked(&self, peer: NodeId) -> &[Due]
        ensures { result.now ≡ unacked self.now.replicas peer }
    {
        self.replicas.unacked(peer)
    }
}
