//! What a node notes.

use pg_base::NodeId;
use pg_call::Call;
use pg_msg::Packet;

/// An entry of a node's log.
#[derive(Debug, Drop)]
pub enum NodeEntry {
    /// A client called the node at a moment of its clock.
    Call { moment: u64, call: Call },
    /// The node was told to tick at a moment of its clock. The word is a random one.
    Tick { moment: u64, word: u64 },
    /// A message arrived.
    Arrival(Packet),
    /// The node started again, and has lost what it keeps in memory alone.
    Restart,
    /// The node is this server, of so many. Both may be any numbers. A log begins with this entry.
    First { server: NodeId, servers: u32 },
}
