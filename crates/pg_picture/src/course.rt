//! How a full journal goes on.

ghost use Rattle.std.specs.Prelude.{◌≡◌};
ghost use Rattle.std.specs.Option.{option_copied};
ghost use Rattle.pg_picture.specs.Course.{agrees, cause_agrees, event_lack, event_server, goes_first, greatest_server, happening_has_message, happening_server, has_message, is_settle, is_settled, line_server};

use crate::lack::Lack;
use crate::messages::{Message, Messages};
use crate::note::{Outcome, outcome_of};
use crate::part::{Part, may_follow, part_of};
use pg_base::NodeId;
use pg_event::{Cause, Event, Quiet};
use pg_msg::Summary;
use pg_sched::Line;
use pg_trace::{AskedAt, JournalLine};

/// The most events that are drawn.
pub const MOST_EVENTS: u32 = 2_000;

/// The most servers of a run.
const MOST_SERVERS: NodeId = 64;

/// How far a journal has come.
#[derive(Clone, Copy, Debug, PartialEq, Eq)]
pub struct Course {
    /// The number of the schedule's line at work.
    pub line: u64,
    /// Whether it is a settling that is not over.
    pub settles: bool,
    /// What the last line of the journal was.
    pub before: Part,
    /// How many more events are drawn.
    pub left: u32,
}

/// Whether the first message under way goes as this one.
fn goes_first(bag: &[Message], summary: &Summary) -> bool
    ensures { result ≡ goes_first bag.now summary.now }
{
    let Some(message) = bag.first() else {
        return false;
    };
    message.summary.from == summary.from && message.summary.to == summary.to
}

fn cause_agrees(bag: &[Message], cause: &Cause) -> bool
    ensures { result ≡ cause_agrees bag.now cause.now }
{
    match cause {
        Cause::Message(summary) => goes_first(bag, summary),
        _ => bag.is_empty(),
    }
}

/// Whether what is told of the whole run can be so with these messages under way.
fn agrees(bag: &[Message], quiet: &Quiet) -> bool
    ensures { result ≡ agrees bag.now quiet.now }
{
    match quiet {
        Quiet::Quiet => bag.is_empty(),
        Quiet::Waits(cause) => cause_agrees(bag, cause),
    }
}

/// The server at which an event happens that is no delivery, or 0.
pub(crate) fn happening_server(event: &Event) -> NodeId
    ensures { result ≡ happening_server event.now }
{
    match event {
        Event::Call { server, .. } => *server,
        Event::Tick { server, .. } => *server,
        Event::Deliver(_) => 0,
        Event::Lose(_) => 0,
        Event::Repeat(_) => 0,
        Event::Restart(server) => *server,
        Event::Remove(server) => *server,
    }
}

fn line_server(what: &Line) -> NodeId
    ensures { result ≡ line_server what.now }
{
    match what {
        Line::Happens(event) => happening_server(event),
        _ => 0,
    }
}

/// The server of an event that went so: 0 where it was void.
pub(crate) fn event_server(what: &Line, outcome: Outcome) -> NodeId
    ensures { result ≡ event_server what.now outcome }
{
    if outcome.is_void() {
        0
    } else {
        line_server(what)
    }
}

/// The greatest server that is drawn of the line, or 0.
pub(crate) fn greatest_server(line: &JournalLine, next: Option<&JournalLine>) -> NodeId
    ensures { result ≡ greatest_server line.now (option_copied next.entry) }
{
    match line {
        JournalLine::Event { what, .. } => event_server(what, outcome_of(next)),
        JournalLine::Sent(summary) => summary.from.max(summary.to),
        JournalLine::Replica(replica) => replica.server,
        _ => 0,
    }
}

fn happening_has_message(bag: &Messages, event: &Event) -> bool
    ensures { result ≡ happening_has_message bag.now event.now }
{
    match event {
        Event::Deliver(number) => bag.get(*number).is_some(),
        Event::Lose(number) => bag.get(*number).is_some(),
        Event::Repeat(number) => bag.get(*number).is_some(),
        _ => true,
    }
}

/// Whether there is such a message, where the event is one of a message.
fn has_message(bag: &Messages, what: &Line) -> bool
    ensures { result ≡ has_message bag.now what.now }
{
    match what {
        Line::Happens(event) => happening_has_message(bag, event),
        _ => true,
    }
}

fn is_settle(what: &Line) -> bool
    ensures { result ≡ is_settle what.now }
{
    matches!(what, Line::Settle { .. })
}

/// Whether it is the word behind a settling.
fn is_settled(word: AskedAt) -> bool
    ensures { result ≡ is_settled word }
{
    matches!(word, AskedAt::Settle)
}

impl Course {
    ghost use Rattle.pg_picture.specs.Course.{after, goes_on, is_due, lack_of, left_after, line_after, other_lack, settles_after, word_is_due};

    /// Before the first line of a full journal, which is of the schedule's third line: its second
    /// asks for the form.
    pub(crate) const START: Course = Course {
        line: 2,
        settles: false,
        before: Part::Outside,
        left: MOST_EVENTS,
    };

    /// Whether the event's line of the schedule is the next one, or in a settling that of the
    /// settling.
    fn goes_on(self, line: u64) -> bool
        ensures { result ≡ goes_on self line }
    {
        if self.settles {
            line == self.line
        } else {
            line.saturating_sub(self.line) == 1
        }
    }

    fn word_is_due(self, word: AskedAt) -> bool
        ensures { result ≡ word_is_due self word }
    {
        match word {
            AskedAt::Settle => self.settles,
            AskedAt::Quiet => true,
            AskedAt::End => !self.settles,
        }
    }

    fn is_due(self, bag: &Messages, line: &JournalLine) -> bool
        ensures { result ≡ is_due self bag.now line.now }
    {
        match line {
            JournalLine::Event { line, .. } => self.goes_on(*line),
            JournalLine::Asked { word, quiet } => self.word_is_due(*word)
                && agrees(bag.as_slice(), quiet),
            _ => true,
        }
    }

    fn event_lack(self, bag: &Messages, what: &Line, outcome: Outcome) -> Option<Lack>
        ensures { result ≡ event_lack self bag.now what.now outcome }
    {
        if self.left == 0 {
            return Some(Lack::Events);
        }
        if outcome.is_void() || has_message(bag, what) {
            None
        } else {
            Some(Lack::Message)
        }
    }

    fn other_lack(
        self,
        bag: &Messages,
        line: &JournalLine,
        next: Option<&JournalLine>,
    ) -> Option<Lack>
        ensures { result ≡ other_lack self bag.now line.now (option_copied next.entry) }
    {
        match line {
            JournalLine::Event { what, .. } => self.event_lack(bag, what, outcome_of(next)),
            _ => None,
        }
    }

    /// What the line lacks that has this one behind it, if anything.
    pub(crate) fn lack_of(
        self,
        bag: &Messages,
        line: &JournalLine,
        next: Option<&JournalLine>,
    ) -> Option<Lack>
        ensures { result ≡ lack_of self bag.now line.now (option_copied next.entry) }
    {
        if !(may_follow(self.before, part_of(line)) && self.is_due(bag, line)) {
            return Some(Lack::Full);
        }
        if greatest_server(line, next) > MOST_SERVERS {
            return Some(Lack::Server);
        }
        self.other_lack(bag, line, next)
    }

    fn settles_after(self, line: &JournalLine) -> bool
        ensures { result ≡ settles_after self line.now }
    {
        match line {
            JournalLine::Event { what, .. } => self.settles || is_settle(what),
            JournalLine::Asked { word, .. } => self.settles && !is_settled(*word),
            _ => self.settles,
        }
    }

    fn line_after(self, line: &JournalLine) -> u64
        ensures { result ≡ line_after self line.now }
    {
        match line {
            JournalLine::Event { line, .. } => *line,
            _ => self.line,
        }
    }

    fn left_after(self, line: &JournalLine) -> u32
        ensures { result ≡ left_after self line.now }
    {
        match line {
            JournalLine::Event { .. } => self.left.saturating_sub(1),
            _ => self.left,
        }
    }

    /// How far the journal has come behind the line.
    pub(crate) fn after(self, line: &JournalLine) -> Course
        ensures { result ≡ after self line.now }
    {
        Course {
            line: self.line_after(line),
            settles: self.settles_after(line),
            before: part_of(line),
            left: self.left_after(line),
        }
    }
}
