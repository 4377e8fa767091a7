//! What the program can be told to do.

use crate::verb::Verb;
use pg_base::{NodeId, SharedBytes};
use pg_packet_write::Request;

/// The numbers from which a schedule is made.
#[derive(Clone, Copy, Debug, PartialEq, Eq)]
pub struct Numbers {
    pub seed: u64,
    pub servers: u32,
    pub events: u64,
}

/// What help is asked for.
#[derive(Clone, Copy, Debug, PartialEq, Eq)]
pub struct Help {
    /// The command of which is asked, or else all.
    pub of: Option<Verb>,
    /// Whether it is to be told at length.
    pub long: bool,
}

/// What the program is to do.
#[derive(Debug, Drop)]
pub enum Command {
    /// Read a schedule and write the journal of its run, with the meters handed in or with none.
    Replay {
        metered: bool,
    },
    /// Write the schedule that is made of these numbers.
    Make(Numbers),
    /// Run that schedule, and write what came of it.
    Soak(Numbers),
    /// Be this server among so many, whose ports are the sums of this one and their numbers, for at
    /// most so many takes.
    Node {
        server: NodeId,
        servers: u32,
        port: u16,
        name: SharedBytes,
        turns: u64,
    },
    /// Ask this server, and write what it answers.
    Call {
        server: NodeId,
        port: u16,
        request: Request,
    },
    /// Write what the words of a command are, or which commands there are.
    Help(Help),
}
