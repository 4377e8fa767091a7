//! The other servers.

ghost use Rattle.std.specs.Prelude.{◌≡◌};
ghost use Rattle.pg_store.specs.Seen.{view_of};
ghost use Rattle.pg_store.specs.Servers.{first_target, is_live_other, next_target};

use crate::store::Store;
use pg_base::NodeId;
use pg_intent::next_target;

impl Store {
    /// In which view the server is: the number of removals that it knows of.
    pub fn view(&self) -> u64
        ensures { result ≡ view_of self.now }
    {
        self.names.removed().len() as u64
    }

    /// Whether this is another server of the run, and not removed in this view.
    pub fn is_live_other(&self, server: NodeId) -> bool
        ensures { result ≡ is_live_other self.now server }
    {
        1 <= server
            && server <= self.servers
            && server != self.server()
            && !self.names.is_removed(server)
    }

    /// The server that is asked behind this one: the least live other server above it, else the
    /// least live other server, else 0.
    pub fn next_target(&self, target: NodeId) -> NodeId
        ensures { result ≡ next_target self.now target }
    {
        next_target(self.servers, self.server(), self.names.removed(), target)
    }

    /// The server that is asked first in an event: the sender of its message, else the next behind
    /// this server.
    pub fn first_target(&self, from: NodeId) -> NodeId
        ensures { result ≡ first_target self.now from }
    {
        if from == 0 {
            return self.next_target(self.server());
        }
        from
    }
}
