//! What comes to a server, and what comes of it.

use pg_base::Items;
use pg_calls::call::{Call, Reply};
use pg_calls::msg::{Packet, Sent, Update};

/// What comes to a server.
#[derive(Debug, Drop)]
pub enum Input {
    /// A client calls it at a moment of its clock.
    Call { moment: u64, call: Call },
    /// Time to send again what is not acknowledged. The word is a random one.
    Tick { moment: u64, word: u64 },
    /// A packet arrives.
    Arrival(Packet),
    /// The server starts again, and has lost what it keeps in memory alone.
    Restart,
}

/// What comes of an input: the reply to a client, the updates that were made, and the messages that
/// were sent, in their order.
#[derive(Debug, Drop)]
pub struct Out {
    pub reply: Option<Reply>,
    pub made: Items<Update>,
    pub sent: Items<Sent>,
}
