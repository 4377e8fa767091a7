//! The lines of a journal.

ghost use Rattle.std.specs.Prelude.{◌≡◌, IfOk};

use crate::replica::ShownReplica;
use pg_base::{FileId, NodeId};
use pg_call::{CallKind, Reply};
use pg_event::{MeterKind, Quiet, VoidCause};
use pg_msg::{Summary, Update};
use pg_sched::Line;
use std::alloc::{AllocError, Global};
use std::fmt;

/// Where a journal tells whether all is done.
#[derive(Clone, Copy, Debug, PartialEq, Eq)]
pub enum AskedAt {
    /// Behind a settling.
    Settle,
    /// Where a line asks for it.
    Quiet,
    /// At the end of the run.
    End,
}

impl fmt::Display for AskedAt {
    ghost use Rattle.std.specs.Prelude.{Some};
    ghost use Rattle.pg_trace.specs.JournalLine.{asked_word};

    ghost output = { λ w. Some (asked_word w) };

    fn fmt<W: fmt::Write>(&self, f: &mut fmt::Formatter<W>) -> fmt::Result {
        match self {
            AskedAt::Settle => f.write_str("settle"),
            AskedAt::Quiet => f.write_str("quiet"),
            AskedAt::End => f.write_str("end"),
        }
    }
}

/// One line of a journal.
#[derive(Debug, Drop)]
pub enum JournalLine {
    /// The schedule's line with this number, in front of what comes of it. The header has number 1.
    Event {
        line: u64,
        what: Line,
    },
    /// What the client of a call was told.
    Call {
        kind: CallKind,
        server: NodeId,
        reply: Reply,
    },
    /// What came of a tick.
    Tick {
        server: NodeId,
        reply: Reply,
    },
    /// The event on this line changes nothing.
    Void {
        line: u64,
        cause: VoidCause,
    },
    /// A version, a place or a flag was made.
    Made(Update),
    /// A message was sent.
    Sent(Summary),
    /// Whether all is done.
    Asked {
        word: AskedAt,
        quiet: Quiet,
    },
    /// A replica that a server holds.
    Replica(ShownReplica),
    /// No server holds this.
    Nowhere(FileId),
    /// What a meter has counted.
    Meter {
        kind: MeterKind,
        value: u64,
    },
}

fn copy_line(line: &Line) -> Result<Line, AllocError>
    ensures { IfOk result (λ l. l ≡ line.now) }
{
    match line {
        Line::Happens(event) => Ok(Line::Happens(event.copy()?)),
        Line::Settle { rounds, moment } => Ok(Line::Settle {
            rounds: *rounds,
            moment: *moment,
        }),
        Line::Quiet => Ok(Line::Quiet),
        Line::Trace(form) => Ok(Line::Trace(*form)),
        Line::Show(id) => Ok(Line::Show(*id)),
        Line::MeterOff(number) => Ok(Line::MeterOff(*number)),
    }
}

impl JournalLine {
    /// Copies the line. Bodies are shared, not moved.
    pub fn copy(&self, alloc: Global) -> Result<JournalLine, AllocError>
        ensures { IfOk result (λ p. p ≡ self.now) }
    {
        match self {
            JournalLine::Event { line, what } => Ok(JournalLine::Event {
                line: *line,
                what: copy_line(what)?,
            }),
            JournalLine::Call {
                kind,
                server,
                reply,
            } => Ok(JournalLine::Call {
                kind: *kind,
                server: *server,
                reply: reply.copy(alloc)?,
            }),
            JournalLine::Tick { server, reply } => Ok(JournalLine::Tick {
                server: *server,
                reply: reply.copy(alloc)?,
            }),
            JournalLine::Void { line, cause } => Ok(JournalLine::Void {
                line: *line,
                cause: *cause,
            }),
            JournalLine::Made(update) => Ok(JournalLine::Made(update.copy()?)),
            JournalLine::Sent(summary) => Ok(JournalLine::Sent(*summary)),
            JournalLine::Asked { word, quiet } => Ok(JournalLine::Asked {
                word: *word,
                quiet: *quiet,
            }),
            JournalLine::Replica(replica) => Ok(JournalLine::Replica(replica.copy()?)),
            JournalLine::Nowhere(id) => Ok(JournalLine::Nowhere(*id)),
            JournalLine::Meter { kind, value } => Ok(JournalLine::Meter {
                kind: *kind,
                value: *value,
            }),
        }
    }
}

impl fmt::Display for JournalLine {
    ghost use Rattle.std.specs.Prelude.{Some};
    ghost use Rattle.pg_trace.specs.JournalLine.{printed_body};

    ghost output = { λ p. Some (printed_body p) };

    fn fmt<W: fmt::Write>(&self, f: &mut fmt::Formatter<W>) -> fmt::Result {
        match self {
            JournalLine::Event { line, what } => write!(f, "event {line} {what}"),
            JournalLine::Call {
                kind,
                server,
                reply,
            } => write!(f, "call {server} {kind} -> {reply}"),
            JournalLine::Tick { server, reply } => write!(f, "tick {server} -> {reply}"),
            JournalLine::Void { line, cause } => write!(f, "void {line} {cause}"),
            JournalLine::Made(update) => write!(f, "made {update}"),
            JournalLine::Sent(summary) => write!(f, "sent {summary}"),
            JournalLine::Asked { word, quiet } => write!(f, "{word} {quiet}"),
            JournalLine::Replica(replica) => write!(f, "{replica}"),
            JournalLine::Nowhere(id) => write!(f, "at - {id}"),
            JournalLine::Meter { kind, value } => write!(f, "meter {kind} {value}"),
        }
    }
}
