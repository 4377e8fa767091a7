//! What comes of an event at a server, while it is worked on.

ghost use Rattle.std.specs.Prelude.{◌≡◌};
ghost use Rattle.pg_msg.specs.Work.{new_work};

use crate::message::Sent;
use crate::update::Update;
use pg_base::{FileId, Items, NodeId};
use pg_edges::Key;
use pg_intent::IntentKey;
use std::alloc::Global;

/// A key of a server's replica that has a new tag, and so is to be sent.
#[derive(Clone, Copy, Debug, PartialEq, Eq)]
pub struct Touched {
    pub file: FileId,
    pub key: Key,
}

/// An edge that a link made or replaced. Each key of the replica has a new tag on it.
#[derive(Clone, Copy, Debug, PartialEq, Eq)]
pub struct Linked {
    pub file: FileId,
    pub peer: NodeId,
}

/// A directory and a child, which it may have a cell for or not. Slots go by directory and then by
/// child.
#[derive(Clone, Copy, Debug, PartialEq, Eq, PartialOrd, Ord)]
pub struct Slot {
    pub dir: FileId,
    pub child: FileId,
}

/// What comes of an event at a server. Each handler adds to it, and what is touched is sent at the
/// end.
#[derive(Debug, Drop)]
pub struct Work {
    /// The moment of the server's clock: 0 where a message came.
    pub now: u64,
    /// The sender of the message that came: 0 where none did.
    pub from: NodeId,
    /// What was made.
    pub made: Items<Update>,
    /// The messages that are sent.
    pub sent: Items<Sent>,
    /// The keys that were touched on every edge of their replicas.
    pub touched: Items<Touched>,
    /// The edges that were made or replaced: of each tag that the event drew there is an item here
    /// or in `touched`.
    pub linked: Items<Linked>,
    /// Of each live place of a held thing that was replaced by a newer one: its directory, and the
    /// thing.
    pub left: Items<Slot>,
    /// The cells whose places came from a server that is not sure of them.
    pub unsure: Items<Slot>,
    /// The intentions that began, in their order.
    pub begun: Items<IntentKey>,
    /// The messages that are sent last, behind those of the intentions.
    pub tail: Items<Sent>,
}

impl Work {
    /// Nothing is done yet. It takes no memory.
    pub fn new(alloc: Global, now: u64, from: NodeId) -> Work
        ensures { result ≡ new_work now from }
    {
        Work {
            now,
            from,
            made: Items::new(alloc),
            sent: Items::new(alloc),
            touched: Items::new(alloc),
            linked: Items::new(alloc),
            left: Items::new(alloc),
            unsure: Items::new(alloc),
            begun: Items::new(alloc),
            tail: Items::new(alloc),
        }
    }
}
