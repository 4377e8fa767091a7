//! What happens in a run.

ghost use Rattle.std.specs.Prelude.{◌≡◌, IfOk};

use pg_base::NodeId;
use pg_call::Call;
use std::alloc::AllocError;
use std::fmt;

/// What happens in a run.
#[derive(Debug, Drop)]
pub enum Event {
    /// A client calls a server, at a moment of its clock.
    Call {
        server: NodeId,
        moment: u64,
        call: Call,
    },
    /// A server sends again what is not acknowledged. The word is a random one.
    Tick {
        server: NodeId,
        moment: u64,
        word: u64,
    },
    /// The message with this number in the bag arrives. Messages are counted from 1, in order of
    /// sending.
    Deliver(u64),
    /// The message with this number is lost.
    Lose(u64),
    /// The message with this number is copied to the bag's end.
    Repeat(u64),
    /// A server loses what it keeps in memory alone.
    Restart(NodeId),
    /// A server is gone for good.
    Remove(NodeId),
}

impl Event {
    /// Copies the event.
    pub fn copy(&self) -> Result<Event, AllocError>
        ensures { IfOk result (λ e. e ≡ self.now) }
    {
        Ok(match self {
            Event::Call {
                server,
                moment,
                call,
            } => Event::Call {
                server: *server,
                moment: *moment,
                call: call.copy()?,
            },
            Event::Tick {
                server,
                moment,
                word,
            } => Event::Tick {
                server: *server,
                moment: *moment,
                word: *word,
            },
            Event::Deliver(number) => Event::Deliver(*number),
            Event::Lose(number) => Event::Lose(*number),
            Event::Repeat(number) => Event::Repeat(*number),
            Event::Restart(server) => Event::Restart(*server),
            Event::Remove(server) => Event::Remove(*server),
        })
    }
}

impl fmt::Display for Event {
    ghost use Rattle.std.specs.Prelude.{Some};
    ghost use Rattle.pg_event.specs.Event.{event_body};

    ghost output = { λ e. Some (event_body e) };

    fn fmt<W: fmt::Write>(&self, f: &mut fmt::Formatter<W>) -> fmt::Result {
        match self {
            Event::Call {
                server,
                moment,
                call,
            } => write!(f, "call {server} {moment} {call}"),
            Event::Tick {
                server,
                moment,
                word,
            } => write!(f, "tick {server} {moment} {word}"),
            Event::Deliver(number) => write!(f, "deliver {number}"),
            Event::Lose(number) => write!(f, "lose {number}"),
            Event::Repeat(number) => write!(f, "repeat {number}"),
            Event::Restart(server) => write!(f, "restart {server}"),
            Event::Remove(server) => write!(f, "remove {server}"),
        }
    }
}
