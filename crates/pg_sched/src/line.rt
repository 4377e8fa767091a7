//! The lines of a schedule.

use pg_base::FileId;
use pg_event::Event;
use std::fmt;

/// The most bytes that a line has, its line feed not counted.
pub(crate) const MOST_IN_LINE: usize = 70_000;

/// How much a journal says.
#[derive(Clone, Copy, Debug, PartialEq, Eq)]
pub enum Form {
    /// Each event, what it made and what it sent.
    Full,
    /// Only what clients are told, which ticks were refused, which events were void, what lines ask
    /// for, and how the run ends.
    Short,
}

impl fmt::Display for Form {
    ghost use Rattle.std.specs.Prelude.{Some};
    ghost use Rattle.pg_sched.specs.Line.{form_word};

    ghost output = { λ w. Some (form_word w) };

    fn fmt<W: fmt::Write>(&self, f: &mut fmt::Formatter<W>) -> fmt::Result {
        match self {
            Form::Full => f.write_str("full"),
            Form::Short => f.write_str("short"),
        }
    }
}

/// A line behind the first.
#[derive(Debug, Drop)]
pub enum Line {
    /// Something happens.
    Happens(Event),
    /// Messages are delivered and servers tick until all is done, for at most so many rounds, each
    /// tick at this moment.
    Settle { rounds: u32, moment: u64 },
    /// Whether all is done is to be told.
    Quiet,
    /// The journal has this form from the next line on.
    Trace(Form),
    /// Each server's replica of a file or directory is to be shown.
    Show(FileId),
    /// The meter with this number, counted from 1, is to tell what it has counted, and counts no
    /// more.
    MeterOff(u64),
}

impl fmt::Display for Line {
    ghost use Rattle.std.specs.Prelude.{Some};
    ghost use Rattle.pg_sched.specs.Line.{line_body};

    ghost output = { λ l. Some (line_body l) };

    fn fmt<W: fmt::Write>(&self, f: &mut fmt::Formatter<W>) -> fmt::Result {
        match self {
            Line::Happens(event) => write!(f, "{event}"),
            Line::Settle { rounds, moment } => write!(f, "settle {rounds} {moment}"),
            Line::Quiet => f.write_str("quiet"),
            Line::Trace(form) => write!(f, "trace {form}"),
            Line::Show(id) => write!(f, "show {id}"),
            Line::MeterOff(number) => write!(f, "meter off {number}"),
        }
    }
}
