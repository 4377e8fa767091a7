//! What is written beside a row of the picture.

ghost use Rattle.std.specs.Prelude.{◌≡◌, ◌++◌, IfOk, OnOk};
ghost use Rattle.std.specs.Option.{option_copied};
ghost use Rattle.pg_picture.specs.Note.{answer, asked_answer, event_text, is_done, is_void, line_answer, line_outcome, line_text, outcome_of, reply_outcome, shortened};

use pg_base::Bytes;
use pg_call::Reply;
use pg_event::Quiet;
use pg_sched::Line;
use pg_trace::{AskedAt, JournalLine};
use std::alloc::{AllocError, Global};

/// The most bytes that are shown of one text.
const MOST_SHOWN: usize = 64;

/// How an event went.
#[derive(Clone, Copy, Debug, PartialEq, Eq)]
pub(crate) enum Outcome {
    Done,
    Refused,
    Void,
}

impl Outcome {
    pub(crate) fn is_void(self) -> bool
        ensures { result ≡ is_void self }
    {
        matches!(self, Outcome::Void)
    }

    pub(crate) fn is_done(self) -> bool
        ensures { result ≡ is_done self }
    {
        matches!(self, Outcome::Done)
    }
}

fn reply_outcome(reply: &Reply) -> Outcome
    ensures { result ≡ reply_outcome reply.now }
{
    match reply {
        Reply::Refused(_) => Outcome::Refused,
        _ => Outcome::Done,
    }
}

/// How the event went that stands in front of the line.
fn line_outcome(line: &JournalLine) -> Outcome
    ensures { result ≡ line_outcome line.now }
{
    match line {
        JournalLine::Call { reply, .. } => reply_outcome(reply),
        JournalLine::Tick { reply, .. } => reply_outcome(reply),
        JournalLine::Void { .. } => Outcome::Void,
        _ => Outcome::Done,
    }
}

/// How the event went whose line has this one behind it.
pub(crate) fn outcome_of(next: Option<&JournalLine>) -> Outcome
    ensures { result ≡ outcome_of (option_copied next.entry) }
{
    match next {
        Some(line) => line_outcome(line),
        None => Outcome::Done,
    }
}

/// The text, or its start and three dots where it is long.
fn shortened(alloc: Global, text: &[u8]) -> Result<Bytes, AllocError>
    ensures { IfOk result (λ t. t ≡ shortened text.now) }
{
    if text.len() <= MOST_SHOWN {
        return Bytes::from_slice(alloc, text);
    }
    let mut short = Bytes::from_slice(alloc, &text[..MOST_SHOWN])?;
    short.extend(b"...")?;
    Ok(short)
}

fn write_asked(word: AskedAt, quiet: &Quiet, text: &mut Bytes) -> Result<(), AllocError>
    ensures { OnOk result (text.new ≡ text.old ++ asked_answer word quiet.now) }
{
    match word {
        AskedAt::Quiet => write!(text, " -> {quiet}"),
        _ => Ok(()),
    }
}

/// Writes what the line tells of the event in front of it.
fn write_answer(line: &JournalLine, text: &mut Bytes) -> Result<(), AllocError>
    ensures { OnOk result (text.new ≡ text.old ++ line_answer line.now) }
{
    match line {
        JournalLine::Call { reply, .. } => write!(text, " -> {reply}"),
        JournalLine::Tick { reply, .. } => write!(text, " -> {reply}"),
        JournalLine::Void { cause, .. } => write!(text, " -> void {cause}"),
        JournalLine::Asked { word, quiet } => write_asked(*word, quiet, text),
        _ => Ok(()),
    }
}

/// What is told of the event whose line has this one behind it.
fn answer(alloc: Global, next: Option<&JournalLine>) -> Result<Bytes, AllocError>
    ensures { IfOk result (λ t. t ≡ answer (option_copied next.entry)) }
{
    let mut text = Bytes::new(alloc);
    if let Some(line) = next {
        write_answer(line, &mut text)?;
    }
    Ok(text)
}

/// What is written beside the event with this line of the schedule, whose line of the journal has
/// this one behind it.
pub(crate) fn event_text(
    alloc: Global,
    what: &Line,
    next: Option<&JournalLine>,
) -> Result<Bytes, AllocError>
    ensures { IfOk result (λ t. t ≡ event_text what.now (option_copied next.entry)) }
{
    let mut text = Bytes::new(alloc);
    write!(text, "{what}")?;
    let mut both = shortened(alloc, text.as_slice())?;
    let told = answer(alloc, next)?;
    let told = shortened(alloc, told.as_slice())?;
    both.extend(told.as_slice())?;
    Ok(both)
}

/// What is written of a line that has a note of its own.
pub(crate) fn line_text(alloc: Global, line: &JournalLine) -> Result<Bytes, AllocError>
    ensures { IfOk result (λ t. t ≡ line_text line.now) }
{
    let mut text = Bytes::new(alloc);
    write!(text, "{line}")?;
    shortened(alloc, text.as_slice())
}
