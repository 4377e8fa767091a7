//! A server enters the next view: one server more is removed.

ghost use Rattle.std.specs.Prelude.{◌≡◌, IfOk, OnOk};
ghost use Rattle.std.specs.Map.{keys_of};
ghost use Rattle.pg_store.specs.Servers.{next_target};
ghost use Rattle.pg_store.specs.Views.{cut, cut_each, enter, listed_birth, turn};

use crate::store::Store;
use pg_base::{FileId, Items, NodeId};
use std::alloc::AllocError;

impl Store {
    /// Removes a server in the next view: no version is noted any more, no edge leads to it from
    /// then on, each Bye and Leave that is for it ends, and what else asked it asks the next
    /// server. After out of memory a part may be done.
    pub fn enter(&mut self, server: NodeId) -> Result<(), AllocError>
        ensures { OnOk result (self.new ≡ enter self.old server) }
    {
        let files = self.held_ids()?;
        self.seekers.all = true;
        self.names.remove_server(server)?;
        self.announced.clear();
        self.cut_each(server, files.as_slice());
        self.turn(server)
    }

    /// The ids of all that is held, in their order.
    fn held_ids(&self) -> Result<Items<FileId>, AllocError>
        ensures { IfOk result (λ files. files ≡ keys_of self.now.names.held) }
    {
        let held = self.names.as_map();
        Ok(Items::from_vec(held.keys().copied().collect(self.allocator())?))
    }

    /// The birth of the peer that the replica of a thing has an edge to, if it has one.
    fn listed_birth(&self, file: &FileId, peer: NodeId) -> Option<u64>
        ensures { result ≡ listed_birth self.now file.now peer }
    {
        match self.replica(file) {
            Some(replica) => match replica.edges.get(peer) {
                Some(edge) => Some(edge.birth),
                None => None,
            },
            None => None,
        }
    }

    /// The edge of a thing to the server goes, if there is one.
    fn cut(&mut self, server: NodeId, file: FileId)
        ensures { self.new ≡ cut server self.old file }
    {
        if let Some(birth) = self.listed_birth(&file, server) {
            self.unlink(file, server, birth);
        }
    }

    /// The edges of these things to the server go, one behind another.
    fn cut_each(&mut self, server: NodeId, files: &[FileId])
        ensures { self.new ≡ cut_each server self.old files.now }
    {
        for file in files {
            self.cut(server, *file);
        }
    }

    /// Turns what asked the server to the next one.
    fn turn(&mut self, server: NodeId) -> Result<(), AllocError>
        ensures { OnOk result (self.new ≡ turn server (next_target self.old server) self.old) }
    {
        let to = self.next_target(server);
        let keys = self.intents.keys_to(self.allocator(), server)?;
        self.intents.turn_each(keys.as_slice(), to);
        self.wishes.turn(server, to)
    }
}
