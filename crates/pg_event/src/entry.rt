//! What a run's journal says of one event.

ghost use Rattle.std.specs.Prelude.{◌≡◌, IfSome, IfNone};
ghost use Rattle.pg_event.specs.Entry.{void_word};
ghost use Rattle.pg_event.specs.declared.entry.VoidCause.{VoidCause};

use crate::event::Event;
use pg_base::Items;
use pg_call::Reply;
use pg_msg::{Sent, Update};
use std::fmt;

/// Why an event changes nothing.
#[derive(Clone, Copy, Debug, PartialEq, Eq)]
pub enum VoidCause {
    /// The bag has no message of that number.
    NoMessage,
    /// The run has no server of that number.
    NoServer,
    /// The server is removed.
    Removed,
    /// The server was not the one whose removal has that number.
    Unremoved,
    /// The server is the last live one.
    Last,
    /// The run has no such meter.
    NoMeter,
}

impl fmt::Display for VoidCause {
    ghost use Rattle.std.specs.Prelude.{Some};
    ghost use Rattle.pg_event.specs.Entry.{void_word};

    ghost output = { λ v. Some (void_word v) };

    fn fmt<W: fmt::Write>(&self, f: &mut fmt::Formatter<W>) -> fmt::Result {
        match self {
            VoidCause::NoMessage => f.write_str("no-message"),
            VoidCause::NoServer => f.write_str("no-server"),
            VoidCause::Removed => f.write_str("removed"),
            VoidCause::Unremoved => f.write_str("unremoved"),
            VoidCause::Last => f.write_str("last"),
            VoidCause::NoMeter => f.write_str("no-meter"),
        }
    }
}

/// The cause that the word names.
pub fn read_void(word: &[u8]) -> Option<VoidCause>
    ensures found { IfSome result (λ v. word.now ≡ void_word v) }
    ensures none { IfNone result ((v : VoidCause) → word.now ≡ void_word v → ⊥) }
{
    match word {
        b"no-message" => Some(VoidCause::NoMessage),
        b"no-server" => Some(VoidCause::NoServer),
        b"removed" => Some(VoidCause::Removed),
        b"unremoved" => Some(VoidCause::Unremoved),
        b"last" => Some(VoidCause::Last),
        b"no-meter" => Some(VoidCause::NoMeter),
        _ => None,
    }
}

/// No two causes are one word.
pub fn one_void_spelling()
    ensures { (a b : VoidCause) → void_word a ≡ void_word b → a ≡ b }
{}

/// One event of a run: what it was, why it was void if it was, what the client was told, what was
/// made and which messages were sent.
#[derive(Debug, Drop)]
pub struct Entry {
    pub event: Event,
    pub void: Option<VoidCause>,
    pub reply: Option<Reply>,
    pub made: Items<Update>,
    pub sent: Items<Sent>,
}
