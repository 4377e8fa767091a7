//! What is counted of an event.

ghost use Rattle.std.specs.Prelude.{◌≡◌};
ghost use Rattle.pg_replay.specs.Marks.{answered, mark_by, outcome_of, told};

use pg_call::Reply;
use pg_event::{Entry, Event};
use pg_meter::Note;

/// What came of an event.
#[derive(Clone, Copy, Debug, PartialEq, Eq)]
pub enum Outcome {
    /// A void event.
    Void,
    /// A client was told what it asked for.
    Answered,
    /// A client was refused.
    Refused,
    /// An event with no client.
    Other,
}

/// What is counted of an event: what meters see, and what came of it.
#[derive(Clone, Copy, Debug, PartialEq, Eq)]
pub struct Mark {
    pub note: Note,
    pub outcome: Outcome,
}

impl Mark {
    /// The mark of an entry, in whose event so many bodies came that were known.
    pub(crate) fn new(entry: &Entry, repeats: u64) -> Mark
        ensures { result ≡ mark_by entry.now repeats }
    {
        Mark {
            note: Note::new(entry, repeats),
            outcome: outcome_of(entry),
        }
    }
}

fn answered(reply: &Reply) -> Outcome
    ensures { result ≡ answered reply.now }
{
    match reply {
        Reply::Refused(_) => Outcome::Refused,
        _ => Outcome::Answered,
    }
}

fn told(event: &Event, reply: &Option<Reply>) -> Outcome
    ensures { result ≡ told event.now reply.now }
{
    match (event, reply) {
        (Event::Call { .. }, Some(reply)) => answered(reply),
        _ => Outcome::Other,
    }
}

fn outcome_of(entry: &Entry) -> Outcome
    ensures { result ≡ outcome_of entry.now }
{
    if entry.void.is_some() {
        return Outcome::Void;
    }
    told(&entry.event, &entry.reply)
}
