//! What a picture is made of. Heights are counted in lines of text, downwards.

use crate::messages::Message;
use pg_base::{Bytes, NodeId};

/// How a piece of a message's way ends.
#[derive(Clone, Copy, Debug, PartialEq, Eq)]
pub enum LegEnd {
    /// At the receiver.
    Delivered,
    Lost,
    /// The message goes on, and so does a copy.
    Copied,
    /// The receiver is removed.
    Fallen,
    /// The message is still under way at the end of the run.
    UnderWay,
}

/// A piece of a message's way: it ends at the receiver's line where the message is delivered, and
/// else in front of it.
#[derive(Clone, Copy, Debug, PartialEq, Eq)]
pub struct Leg {
    pub message: Message,
    pub until: u32,
    pub end: LegEnd,
}

/// What kind of event a mark stands for.
#[derive(Clone, Copy, Debug, PartialEq, Eq)]
pub enum MarkKind {
    /// A client's call.
    Call,
    /// A call or a tick that was refused.
    Refused,
    Tick,
    Deliver,
    Lose,
    Repeat,
    Restart,
    Remove,
    /// The event changes nothing.
    Void,
    /// The line asks whether all is done, what is shown, and the like.
    Asked,
}

/// The mark of an event: the number of its line in the schedule, and the server at which it
/// happens, or 0.
#[derive(Clone, Copy, Debug, PartialEq, Eq)]
pub struct Mark {
    pub height: u32,
    pub line: u64,
    pub server: NodeId,
    pub kind: MarkKind,
}

/// What is written beside a row.
#[derive(Debug, Drop)]
pub struct Note {
    pub height: u32,
    /// Whether it tells that something was not done.
    pub refused: bool,
    pub text: Bytes,
}
