//! The lines of a full journal, by what may follow what.

ghost use Rattle.std.specs.Prelude.{◌≡◌};
ghost use Rattle.pg_picture.specs.Part.{event_part, happening_part, is_ended, may_be_void, may_follow, may_make, may_send, part_of, word_part};

use pg_event::Event;
use pg_sched::Line;
use pg_trace::{AskedAt, JournalLine};

/// What a line of a journal is.
#[derive(Clone, Copy, Debug, PartialEq, Eq)]
pub enum Part {
    /// A line that no journal of a run has, and what stands before the first line.
    Outside,
    /// The line of an event, or of something else that the schedule asks for.
    Call,
    Tick,
    Deliver,
    Other,
    Settle,
    Quiet,
    Show,
    Meter,
    /// What comes of it.
    Called,
    Ticked,
    Void,
    Made,
    Sent,
    Shown,
    Metered,
    /// Whether all is done, where a line asks for it, behind a settling, and at the end.
    Asked,
    Settled,
    Ended,
}

/// What the line of an event is.
fn happening_part(event: &Event) -> Part
    ensures { result ≡ happening_part event.now }
{
    match event {
        Event::Call { .. } => Part::Call,
        Event::Tick { .. } => Part::Tick,
        Event::Deliver(_) => Part::Deliver,
        Event::Lose(_) => Part::Other,
        Event::Repeat(_) => Part::Other,
        Event::Restart(_) => Part::Other,
        Event::Remove(_) => Part::Other,
    }
}

/// What the line in front of a schedule's line is.
fn event_part(what: &Line) -> Part
    ensures { result ≡ event_part what.now }
{
    match what {
        Line::Happens(event) => happening_part(event),
        Line::Settle { .. } => Part::Settle,
        Line::Quiet => Part::Quiet,
        Line::Trace(_) => Part::Outside,
        Line::Show(_) => Part::Show,
        Line::MeterOff(_) => Part::Meter,
    }
}

fn word_part(word: AskedAt) -> Part
    ensures { result ≡ word_part word }
{
    match word {
        AskedAt::Settle => Part::Settled,
        AskedAt::Quiet => Part::Asked,
        AskedAt::End => Part::Ended,
    }
}

/// What the line is.
pub(crate) fn part_of(line: &JournalLine) -> Part
    ensures { result ≡ part_of line.now }
{
    match line {
        JournalLine::Event { what, .. } => event_part(what),
        JournalLine::Call { .. } => Part::Called,
        JournalLine::Tick { .. } => Part::Ticked,
        JournalLine::Void { .. } => Part::Void,
        JournalLine::Made(_) => Part::Made,
        JournalLine::Sent(_) => Part::Sent,
        JournalLine::Asked { word, .. } => word_part(*word),
        JournalLine::Replica(_) => Part::Shown,
        JournalLine::Nowhere(_) => Part::Shown,
        JournalLine::Meter { .. } => Part::Metered,
    }
}

/// Whether it may follow what stands in front of it.
pub(crate) fn may_follow(before: Part, part: Part) -> bool
    ensures { result ≡ may_follow before part }
{
    match part {
        Part::Outside => false,
        Part::Called => matches!(before, Part::Call),
        Part::Ticked => matches!(before, Part::Tick),
        Part::Void => may_be_void(before),
        Part::Made => may_make(before),
        Part::Sent => may_send(before),
        Part::Shown => matches!(before, Part::Show | Part::Shown),
        Part::Metered => matches!(before, Part::Meter),
        Part::Asked => matches!(before, Part::Quiet),
        _ => !is_ended(before),
    }
}

/// Whether it is the end.
pub(crate) fn is_ended(part: Part) -> bool
    ensures { result ≡ is_ended part }
{
    matches!(part, Part::Ended)
}

/// Whether a void line may follow it.
fn may_be_void(before: Part) -> bool
    ensures { result ≡ may_be_void before }
{
    matches!(
        before,
        Part::Call | Part::Tick | Part::Deliver | Part::Other | Part::Meter
    )
}

/// Whether a line that tells what was made may follow it.
fn may_make(before: Part) -> bool
    ensures { result ≡ may_make before }
{
    matches!(
        before,
        Part::Deliver | Part::Called | Part::Ticked | Part::Made
    )
}

/// Whether a line that tells what was sent may follow it.
fn may_send(before: Part) -> bool
    ensures { result ≡ may_send before }
{
    match before {
        Part::Sent => true,
        _ => may_make(before),
    }
}
