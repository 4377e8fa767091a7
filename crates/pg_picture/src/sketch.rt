//! A picture that is drawn line by line.

ghost use Rattle.std.specs.Prelude.{◌≡◌};
ghost use Rattle.std.specs.Option.{option_copied};
ghost use Rattle.pg_picture.specs.Sketch.{column_of, event_note, happening_column, happening_kind, hanging, kind_of, line_column, line_kind, mark_of, receiver, rise, word_rise};
ghost use Rattle.std.specs.Prelude.{◌+◌, ◌<◌, ◌^◌, ◌++◌, IfOk, OnOk, filter, length};
ghost use Rattle.pg_picture.specs.Messages.{is_for, is_gone};
ghost use Rattle.pg_picture.specs.declared.mark.LegEnd.TheVariants.{Fallen};

use crate::course::{event_server, greatest_server};
use crate::mark::{Leg, LegEnd, Mark, MarkKind, Note};
use crate::messages::{Message, Messages, is_for};
use crate::note::{Outcome, event_text, line_text, outcome_of};
use pg_base::{Items, NodeId};
use pg_event::Event;
use pg_msg::Summary;
use pg_sched::Line;
use pg_trace::{AskedAt, JournalLine};
use std::alloc::{AllocError, Global};

/// A picture so far.
#[derive(Debug, Drop)]
pub struct Sketch {
    /// The greatest server that is drawn.
    pub servers: NodeId,
    /// The height of the last event, and of what is lowest.
    pub row: u32,
    pub height: u32,
    /// What is under way.
    pub bag: Messages,
    /// The servers that are removed.
    pub removed: Items<NodeId>,
    pub marks: Items<Mark>,
    pub legs: Items<Leg>,
    pub notes: Items<Note>,
}

fn happening_kind(event: &Event) -> MarkKind
    ensures { result ≡ happening_kind event.now }
{
    match event {
        Event::Call { .. } => MarkKind::Call,
        Event::Tick { .. } => MarkKind::Tick,
        Event::Deliver(_) => MarkKind::Deliver,
        Event::Lose(_) => MarkKind::Lose,
        Event::Repeat(_) => MarkKind::Repeat,
        Event::Restart(_) => MarkKind::Restart,
        Event::Remove(_) => MarkKind::Remove,
    }
}

fn line_kind(what: &Line) -> MarkKind
    ensures { result ≡ line_kind what.now }
{
    match what {
        Line::Happens(event) => happening_kind(event),
        _ => MarkKind::Asked,
    }
}

/// What kind of event it is, which went so.
fn kind_of(what: &Line, outcome: Outcome) -> MarkKind
    ensures { result ≡ kind_of what.now outcome }
{
    match outcome {
        Outcome::Done => line_kind(what),
        Outcome::Refused => MarkKind::Refused,
        Outcome::Void => MarkKind::Void,
    }
}

fn receiver(message: Option<Message>) -> NodeId
    ensures { result ≡ receiver message }
{
    match message {
        Some(message) => message.summary.to,
        None => 0,
    }
}

fn happening_column(bag: &Messages, event: &Event, server: NodeId) -> NodeId
    ensures { result ≡ happening_column bag.now event.now server }
{
    match event {
        Event::Deliver(number) => receiver(bag.get(*number)),
        _ => server,
    }
}

fn line_column(bag: &Messages, what: &Line, server: NodeId) -> NodeId
    ensures { result ≡ line_column bag.now what.now server }
{
    match what {
        Line::Happens(event) => happening_column(bag, event, server),
        _ => server,
    }
}

/// The server at which the event happens, which went so: for a delivery the receiver.
fn column_of(bag: &Messages, what: &Line, outcome: Outcome) -> NodeId
    ensures { result ≡ column_of bag.now what.now outcome }
{
    if outcome.is_void() {
        return 0;
    }
    line_column(bag, what, event_server(what, outcome))
}

fn word_rise(word: AskedAt) -> u32
    ensures { result ≡ word_rise word }
{
    match word {
        AskedAt::Settle => 2,
        AskedAt::Quiet => 0,
        AskedAt::End => 2,
    }
}

/// How much lower the line stands than what was drawn before it: 0 where it has no note of its own.
fn rise(line: &JournalLine) -> u32
    ensures { result ≡ rise line.now }
{
    match line {
        JournalLine::Event { .. } => 2,
        JournalLine::Made(_) => 1,
        JournalLine::Replica(_) => 1,
        JournalLine::Nowhere(_) => 1,
        JournalLine::Meter { .. } => 1,
        JournalLine::Asked { word, .. } => word_rise(*word),
        _ => 0,
    }
}

/// Whether the server is one of the removed ones.
fn is_gone(removed: &[NodeId], server: NodeId) -> bool
    ensures { result ≡ is_gone removed.now server }
{
    removed.contains(&server)
}

/// Draws the ways of what is under way to a server that is removed, each a line lower than the one
/// before, from this height on. The answer is the height of the last one.
fn fall_each(
    bag: &[Message],
    server: NodeId,
    height: u32,
    legs: &mut Items<Leg>,
) -> Result<u32, AllocError>
    requires { height + length bag.now < 2 ^ 32 }
    ensures low { IfOk result (λ n. n ≡ height + length (filter (is_for server) bag.now)) }
    ensures legs { OnOk result (legs.new
        ≡ legs.old ++ hanging Fallen height (filter (is_for server) bag.now)) }
{
    let mut until = height;
    for message in bag {
        if is_for(server, message) {
            until += 1;
            legs.push(Leg {
                message: *message,
                until,
                end: LegEnd::Fallen,
            })?;
        }
    }
    Ok(until)
}

impl Sketch {
    ghost use Rattle.pg_picture.specs.Picture.{empty};
    ghost use Rattle.pg_picture.specs.Sketch.{drawn, with_ended, with_event, with_fallen, with_fork, with_gone, with_moved, with_sent, with_told};

    /// Nothing is drawn.
    pub(crate) fn new(alloc: Global) -> Sketch
        ensures { result ≡ empty }
    {
        Sketch {
            servers: 1,
            row: 0,
            height: 0,
            bag: Messages::new(alloc),
            removed: Items::new(alloc),
            marks: Items::new(alloc),
            legs: Items::new(alloc),
            notes: Items::new(alloc),
        }
    }

    /// Draws the line that has this one behind it.
    pub(crate) fn take(
        &mut self,
        alloc: Global,
        line: &JournalLine,
        next: Option<&JournalLine>,
    ) -> Result<(), AllocError>
        requires { self.old.height + length self.old.bag + 2 < 2 ^ 32 }
        ensures { OnOk result (self.new ≡ drawn self.old line.now (option_copied next.entry)) }
    {
        self.servers = self.servers.max(greatest_server(line, next));
        match line {
            JournalLine::Event { line, what } => self.happen(alloc, *line, what, next),
            JournalLine::Sent(summary) => self.send(*summary),
            JournalLine::Call { .. } => Ok(()),
            JournalLine::Tick { .. } => Ok(()),
            JournalLine::Void { .. } => Ok(()),
            JournalLine::Made(_) => self.tell(alloc, line),
            JournalLine::Asked { .. } => self.tell(alloc, line),
            JournalLine::Replica(_) => self.tell(alloc, line),
            JournalLine::Nowhere(_) => self.tell(alloc, line),
            JournalLine::Meter { .. } => self.tell(alloc, line),
        }
    }

    /// What is sent to a server that is removed never is under way.
    fn send(&mut self, summary: Summary) -> Result<(), AllocError>
        requires { self.old.height + 2 < 2 ^ 32 }
        ensures { OnOk result (self.new ≡ with_sent self.old summary) }
    {
        let message = Message {
            summary,
            since: self.row,
            split: false,
        };
        if is_gone(self.removed.as_slice(), summary.to) {
            self.height += 1;
            self.legs.push(Leg {
                message,
                until: self.height,
                end: LegEnd::Fallen,
            })
        } else {
            self.bag.push(message)
        }
    }

    /// Writes the line beside the picture, where it has a note of its own.
    fn tell(&mut self, alloc: Global, line: &JournalLine) -> Result<(), AllocError>
        requires { self.old.height + 2 < 2 ^ 32 }
        ensures { OnOk result (self.new ≡ with_told self.old line.now) }
    {
        let rise = rise(line);
        self.height += rise;
        if rise > 0 {
            self.notes.push(Note {
                height: self.height,
                refused: false,
                text: line_text(alloc, line)?,
            })?;
        }
        Ok(())
    }

    /// The event with this line of the schedule.
    fn happen(
        &mut self,
        alloc: Global,
        number: u64,
        what: &Line,
        next: Option<&JournalLine>,
    ) -> Result<(), AllocError>
        requires { self.old.height + length self.old.bag + 2 < 2 ^ 32 }
        ensures { OnOk result (self.new
            ≡ with_event self.old number what.now (option_copied next.entry)) }
    {
        let outcome = outcome_of(next);
        self.height += 2;
        self.row = self.height;
        self.marks.push(Mark {
            height: self.row,
            line: number,
            server: column_of(&self.bag, what, outcome),
            kind: kind_of(what, outcome),
        })?;
        self.notes.push(Note {
            height: self.row,
            refused: !outcome.is_done(),
            text: event_text(alloc, what, next)?,
        })?;
        if outcome.is_void() {
            return Ok(());
        }
        self.go(what)
    }

    /// The message of an event that was done goes where it goes.
    fn go(&mut self, what: &Line) -> Result<(), AllocError>
        requires { self.old.height + length self.old.bag < 2 ^ 32 }
        ensures { OnOk result (self.new ≡ with_moved self.old what.now) }
    {
        match what {
            Line::Happens(event) => self.go_on(event),
            _ => Ok(()),
        }
    }

    fn go_on(&mut self, event: &Event) -> Result<(), AllocError>
        requires { self.old.height + length self.old.bag < 2 ^ 32 }
        ensures { OnOk result (self.new ≡ with_gone self.old event.now) }
    {
        let height = self.height;
        match event {
            Event::Deliver(number) => self.end(*number, height, LegEnd::Delivered),
            Event::Lose(number) => self.end(*number, height, LegEnd::Lost),
            Event::Repeat(number) => self.fork(*number, height),
            Event::Remove(server) => self.fall(*server),
            _ => Ok(()),
        }
    }

    /// The server is removed, and what is under way to it ends.
    fn fall(&mut self, server: NodeId) -> Result<(), AllocError>
        requires { self.old.height + length self.old.bag < 2 ^ 32 }
        ensures { OnOk result (self.new ≡ with_fallen self.old server) }
    {
        self.height = fall_each(self.bag.as_slice(), server, self.height, &mut self.legs)?;
        self.bag.drop_to(server);
        self.removed.push(server)
    }

    /// The message with this number ends so.
    fn end(&mut self, number: u64, height: u32, end: LegEnd) -> Result<(), AllocError>
        ensures { OnOk result (self.new ≡ with_ended self.old number height end) }
    {
        match self.bag.take(number) {
            Some(message) => self.legs.push(Leg {
                message,
                until: height,
                end,
            }),
            None => Ok(()),
        }
    }

    /// The message with this number goes on from here, and so does a copy.
    fn fork(&mut self, number: u64, height: u32) -> Result<(), AllocError>
        ensures { OnOk result (self.new ≡ with_fork self.old number height) }
    {
        match self.bag.copy(number, height)? {
            Some(message) => self.legs.push(Leg {
                message,
                until: height,
                end: LegEnd::Copied,
            }),
            None => Ok(()),
        }
    }
}
