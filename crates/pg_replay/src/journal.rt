//! The journal of a schedule's run.

ghost use Rattle.std.specs.Prelude.{ℕ, ◌≡◌, ◌++◌, List, ◌∷◌, [], ◌||◌, ◌⊎◌, IfErr, IfOk, IsErrAnd, OnOk, false, map, option_map};
ghost use Rattle.pg_base.specs.Id.{Fits};
ghost use Rattle.pg_call.specs.declared.fault.Fault.{Fault};
ghost use Rattle.pg_event.specs.declared.entry.VoidCause.TheVariants.{NoMeter};
ghost use Rattle.pg_event.specs.Event.{IsEvent};
ghost use Rattle.pg_meter.specs.Note.{reading};
ghost use Rattle.pg_sched.specs.Line.{IsLine};
ghost use Rattle.pg_sched.specs.declared.line.Line.{Line};
ghost use Rattle.pg_sched.specs.Schedule.{AreLines, IsCount, IsFirstBad, spelling};
ghost use Rattle.pg_sched.specs.declared.error.ReadError.TheVariants.{BadLine, OutOfMemory};
ghost use Rattle.pg_trace.specs.JournalLine.{ArePrinted, IsPrinted, journal_spelling, printed_text};
ghost use Rattle.pg_trace.specs.Text.{head_lines, head_text};
ghost use Rattle.pg_trace.specs.declared.journal_line.JournalLine.TheVariants as printed;
ghost use Rattle.pg_replay.specs.Going.{Takes};
ghost use Rattle.pg_replay.specs.Text.{IsTextOf, off_by, off_lines, others_than, reading_line, reading_lines, seen_marks};

use crate::mark::Mark;
use crate::shown::write_held;
use law_printable::entries_suit;
use pg_base::{Bytes, FileId, NodeId};
use pg_event::{Event, Quiet};
use pg_meter::{Meter, Meters, Reading, hand_in, read, see_all, take_off};
use pg_sched::{Form, Line, ReadError};
use pg_trace::{AskedAt, write_entry, write_head, write_quiet};
use pg_world::World;
use std::alloc::{AllocError, Global};

/// How many messages one round of a settling delivers at most.
const MOST_DELIVERIES: u32 = 100_000;

/// A run that is replayed: the world so far, what was written of it, the marks of the events that
/// nobody has counted yet, and of the line at work its number and the form.
#[derive(Drop)]
pub(crate) struct Replay {
    pub(crate) world: World,
    pub(crate) out: Bytes,
    pub(crate) marks: Vec<Mark>,
    number: u64,
    form: Form,
}

impl Replay {
    ghost use Rattle.std.specs.Prelude.{◌∷◌, ◌≤◌, [], false};
    ghost use Rattle.pg_trace.specs.declared.journal_line.AskedAt.{AskedAt};
    ghost use Rattle.pg_world.specs.Played.{final, held};
    ghost use Rattle.pg_run.specs.Quiet.{has_some, quiet_of};
    ghost use Rattle.pg_replay.specs.Going.{Answers, Begins, GoesOn, Reaches, Takes};
    ghost use Rattle.pg_replay.specs.Settling.{deliveries, settling, tick_of, ticks};
    ghost use Rattle.pg_replay.specs.Shown.{held_lines};
    ghost use Rattle.pg_replay.specs.Text.{event_lines, line_head, shown_at, shown_lines, shows_lines};

    /// A run in which nothing has happened.
    pub(crate) fn new(alloc: Global, servers: u32) -> Result<Replay, AllocError>
        requires { IsCount servers }
        ensures { IfOk result (Begins servers) }
    {
        Ok(Replay {
            world: World::new(alloc, servers)?,
            out: Bytes::new(alloc),
            marks: Vec::new(alloc),
            number: 1,
            form: Form::Short,
        })
    }

    /// An event happens, and what the journal says of it is written.
    fn happen(&mut self, event: Event) -> Result<(), AllocError>
        requires going { self.old.world.failed ≡ false }
        requires event { IsEvent event }
        ensures { let lines = event_lines self.old.world.servers self.old.number self.old.form
            (final self.old.world) event in
            OnOk result (Reaches self.old self.new (event ∷ []) lines) }
    {
        entries_suit();
        let repeats = self.world.repeats(&event);
        match self.world.step(event) {
            Ok(entry) => {
                self.marks.push(Mark::new(&entry, repeats))?;
                Ok(write_entry(self.number, self.form, &entry, &mut self.out)?)
            }
            Err(_) => Err(AllocError),
        }
    }

    /// Steps the world by an event of a settling, and writes its entry: in full form the event's
    /// line stands in front.
    fn happen_within(&mut self, event: Event) -> Result<(), AllocError>
        requires going { self.old.world.failed ≡ false }
        requires line { IsLine (Line.Happens event) }
        ensures { OnOk result (GoesOn self.old self.new (event ∷ [])) }
    {
        write_event(self.number, self.form, &event, &mut self.out)?;
        self.happen(event)?;
        Ok(())
    }

    /// Delivers the first message until none is under way, at most so many times.
    fn deliver_all(&mut self, most: u32) -> Result<(), AllocError>
        requires { self.old.world.failed ≡ false }
        ensures { let events = deliveries self.old.world.servers (final self.old.world) most in
            OnOk result (GoesOn self.old self.new events) }
    {
        let mut left = most;
        while left > 0 && self.world.has_message() {
            self.happen_within(Event::Deliver(1))?;
            left -= 1;
        }
        Ok(())
    }

    /// A live server ticks at this moment. Of a removed one nothing happens.
    fn tick_at(&mut self, server: NodeId, moment: u64) -> Result<(), AllocError>
        requires going { self.old.world.failed ≡ false }
        requires server { 1 ≤ server }
        ensures { let events
            = tick_of self.old.world.servers moment (final self.old.world) server in
            OnOk result (GoesOn self.old self.new events) }
    {
        if self.world.is_live(server) {
            self.happen_within(Event::Tick {
                server,
                moment,
                word: 0,
            })?;
        }
        Ok(())
    }

    /// Each live server ticks at this moment, in increasing order.
    fn tick_all(&mut self, moment: u64) -> Result<(), AllocError>
        requires { self.old.world.failed ≡ false }
        ensures { let servers = self.old.world.servers in
            OnOk result
            (GoesOn self.old self.new (ticks servers moment (final self.old.world) servers)) }
    {
        for k in 0..self.world.servers() {
            self.tick_at(k + 1, moment)?;
        }
        Ok(())
    }

    /// Rounds of deliveries and ticks, until the run is quiet or so many rounds are over. In one
    /// round at most so many messages are delivered.
    fn settle(&mut self, rounds: u32, moment: u64, most: u32) -> Result<(), AllocError>
        requires { self.old.world.failed ≡ false }
        ensures { let servers = self.old.world.servers in
            let events = settling servers most moment (final self.old.world) rounds in
            OnOk result (GoesOn self.old self.new events) }
    {
        let mut left = rounds;
        while left > 0 {
            self.deliver_all(most)?;
            match self.world.is_quiet() {
                Quiet::Quiet => return Ok(()),
                Quiet::Waits(_) => {}
            }
            self.tick_all(moment)?;
            left -= 1;
        }
        Ok(())
    }

    /// Writes what each live server shows of a file or directory, or that none holds it.
    fn show(&mut self, id: &FileId) -> Result<(), AllocError>
        requires { self.old.world.failed ≡ false }
        ensures { let lines = shown_lines (final self.old.world) id.now self.old.world.servers in
            OnOk result (Reaches self.old self.new [] lines) }
    {
        if !self.show_held(id)? {
            write_nowhere(*id, &mut self.out)?;
        }
        Ok(())
    }

    /// Writes what each live server shows of it, and says whether one holds it.
    fn show_held(&mut self, id: &FileId) -> Result<bool, AllocError>
        requires { self.old.world.failed ≡ false }
        ensures lines { let servers = self.old.world.servers in
            let lines = shows_lines servers (final self.old.world) id.now servers in
            OnOk result (Reaches self.old self.new [] lines) }
        ensures any { let servers = self.old.world.servers in
            let lines = shows_lines servers (final self.old.world) id.now servers in
            IfOk result (λ any. any ≡ has_some lines) }
    {
        let mut any = false;
        for k in 0..self.world.servers() {
            let here = self.show_at(k + 1, id)?;
            any = either(any, here);
        }
        Ok(any)
    }

    /// Writes what a live server shows of it, and says whether it holds it. A removed one shows
    /// nothing.
    fn show_at(&mut self, server: NodeId, id: &FileId) -> Result<bool, AllocError>
        requires going { self.old.world.failed ≡ false }
        requires server { (1 ≤ server) × (server ≤ self.old.world.servers) }
        ensures lines { let lines
            = shown_at self.old.world.servers (final self.old.world) id.now server in
            OnOk result (Reaches self.old self.new [] lines) }
        ensures any { let lines
            = shown_at self.old.world.servers (final self.old.world) id.now server in
            IfOk result (λ any. any ≡ has_some lines) }
    {
        if self.world.is_live(server) {
            Ok(self.show_live(server, id)?)
        } else {
            Ok(false)
        }
    }

    /// Writes what a server shows of a thing, whether it is live or not, and says whether it holds
    /// it.
    fn show_live(&mut self, server: NodeId, id: &FileId) -> Result<bool, AllocError>
        requires going { self.old.world.failed ≡ false }
        requires server { (1 ≤ server) × (server ≤ self.old.world.servers) }
        ensures lines { let lines = held_lines server (held self.old.world server) id.now in
            OnOk result (Reaches self.old self.new [] lines) }
        ensures any { let lines = held_lines server (held self.old.world server) id.now in
            IfOk result (λ any. any ≡ has_some lines) }
    {
        entries_suit();
        let Some(store) = self.world.store(server) else {
            return Ok(false);
        };
        Ok(write_held(server, *id, store, &mut self.out)?)
    }

    /// Writes whether all is done, behind this word.
    pub(crate) fn tell(&mut self, word: AskedAt) -> Result<(), AllocError>
        requires { self.old.world.failed ≡ false }
        ensures { let quiet = quiet_of self.old.world.servers (final self.old.world) in
            OnOk result (Reaches self.old self.new [] (printed.Asked word quiet ∷ [])) }
    {
        entries_suit();
        Ok(write_quiet(word, &self.world.is_quiet(), &mut self.out)?)
    }

    /// What a line asks for, behind its own line. This is what the meter that it takes off has
    /// counted.
    fn answer(&mut self, line: &Line, off: Option<Reading>) -> Result<(), AllocError>
        requires going { self.old.world.failed ≡ false }
        requires line { IsLine line.now }
        ensures { OnOk result (Answers self.old self.new off line.now) }
    {
        match line {
            Line::Happens(event) => Ok(self.happen(event.copy()?)?),
            Line::Settle { rounds, moment } => {
                self.settle(*rounds, *moment, MOST_DELIVERIES)?;
                Ok(self.tell(AskedAt::Settle)?)
            }
            Line::Show(file) => Ok(self.show(file)?),
            Line::Quiet => Ok(self.tell(AskedAt::Quiet)?),
            Line::Trace(_) => Ok(()),
            Line::MeterOff(_) => Ok(write_off(self.number, off, &mut self.out)?),
        }
    }

    /// In full form the line itself. A line that sets the form writes nothing.
    fn head(&mut self, line: &Line) -> Result<(), AllocError>
        requires going { self.old.world.failed ≡ false }
        requires line { IsLine line.now }
        ensures { let lines = line_head self.old.number self.old.form line.now in
            OnOk result (Reaches self.old self.new [] lines) }
    {
        match line {
            Line::Trace(_) => Ok(()),
            _ => Ok(write_head(self.number, self.form, line, &mut self.out)?),
        }
    }

    /// Takes the line with this number of a schedule, and writes what the journal has for it. This
    /// is what the meter that it takes off has counted.
    pub(crate) fn take(
        &mut self,
        number: u64,
        line: &Line,
        off: Option<Reading>,
    ) -> Result<(), AllocError>
        requires going { self.old.world.failed ≡ false }
        requires line { IsLine line.now }
        ensures { OnOk result (Takes self.old self.new number off line.now) }
    {
        self.number = number;
        self.head(line)?;
        self.answer(line, off)?;
        if let Line::Trace(next) = line {
            self.form = *next;
        }
        Ok(())
    }
}

/// In full form the line of an event of a settling. In short form nothing.
fn write_event(number: u64, form: Form, event: &Event, out: &mut Bytes) -> Result<(), AllocError>
    ensures text { OnOk result (out.new
        ≡ out.old ++ head_text number form (Line.Happens event.now)) }
    ensures spelled { IsLine (Line.Happens event.now)
        → ArePrinted (head_lines number form (Line.Happens event.now)) }
{
    match form {
        Form::Full => write!(out, "event {number} {event}\n"),
        Form::Short => Ok(()),
    }
}

/// Whether one of these holds.
fn either(a: bool, b: bool) -> bool
    ensures { result ≡ (a || b) }
{
    a || b
}

/// An id is in its range by its type.
fn id_fits(id: FileId)
    ensures { Fits id }
{}

/// Writes that no server holds this.
fn write_nowhere(id: FileId, out: &mut Bytes) -> Result<(), AllocError>
    ensures text { OnOk result (out.new ≡ out.old ++ printed_text (printed.Nowhere id)) }
    ensures spelled { IsPrinted (printed.Nowhere id) }
{
    id_fits(id);
    write!(out, "at - {id}\n")
}

/// Writes that the line with this number is void: there is no such meter.
fn write_no_meter(number: u64, out: &mut Bytes) -> Result<(), AllocError>
    ensures text { OnOk result (out.new ≡ out.old ++ printed_text (printed.Void number NoMeter)) }
    ensures spelled { IsPrinted (printed.Void number NoMeter) }
{
    write!(out, "void {number} no-meter\n")
}

/// Writes what a meter has counted.
fn write_reading(reading: &Reading, out: &mut Bytes) -> Result<(), AllocError>
    ensures text { OnOk result (out.new ≡ out.old ++ printed_text (reading_line reading.now)) }
    ensures spelled { IsPrinted (reading_line reading.now) }
{
    let kind = reading.kind;
    let value = reading.value;
    write!(out, "meter {kind} {value}\n")
}

/// Writes what the meter has counted that a line with this number takes off, or that there is none.
fn write_off(number: u64, off: Option<Reading>, out: &mut Bytes) -> Result<(), AllocError>
    ensures text { OnOk result (out.new ≡ out.old ++ journal_spelling (off_lines number off)) }
    ensures spelled { ArePrinted (off_lines number off) }
{
    match off {
        Some(reading) => write_reading(&reading, out),
        None => write_no_meter(number, out),
    }
}

/// Takes off the meter that a line takes off, and says what it has counted.
fn take_off_by(meters: &mut Meters, line: &Line) -> Option<Reading>
    requires { IsLine line.now }
    ensures reading { result ≡ off_by
        (map (λ o. option_map (λ m. reading (counts m) (counted m)) o) meters.old.items) line.now }
    ensures rest { map (λ o. option_map (λ m. reading (counts m) (counted m)) o) meters.new.items
        ≡ others_than
        (map (λ o. option_map (λ m. reading (counts m) (counted m)) o) meters.old.items)
        line.now }
{
    match line {
        Line::MeterOff(number) => take_off(meters, *number),
        _ => None,
    }
}

/// Takes the line with this number of a schedule, and shows its events to every meter that is still
/// in behind it.
fn take_line(
    replay: &mut Replay,
    number: u64,
    line: &Line,
    meters: &mut Meters,
) -> Result<(), AllocError>
    requires going { replay.old.world.failed ≡ false }
    requires line { IsLine line.now }
    ensures taken { let readings = map (λ o. option_map (λ m. reading (counts m) (counted m)) o)
        meters.old.items in
        OnOk result (Takes replay.old replay.new number (off_by readings line.now) line.now) }
    ensures seen { let readings = map (λ o. option_map (λ m. reading (counts m) (counted m)) o)
        meters.old.items in
        OnOk result (map (λ o. option_map (λ m. reading (counts m) (counted m)) o) meters.new.items
        ≡ seen_marks (others_than readings line.now) replay.new.marks.items) }
{
    let off = take_off_by(meters, line);
    replay.take(number, line, off)?;
    for mark in replay.marks.iter() {
        see_all(meters, &mark.note);
    }
    Ok(())
}

/// Writes what a meter has counted, if it is still in.
fn write_slot(slot: &Option<Box<dyn Meter>>, out: &mut Bytes) -> Result<(), AllocError>
    ensures text { OnOk result (out.new ≡ out.old ++ journal_spelling (reading_lines
        (option_map (λ m. reading (counts m) (counted m)) slot.now ∷ []))) }
    ensures spelled { OnOk result (ArePrinted (reading_lines
        (option_map (λ m. reading (counts m) (counted m)) slot.now ∷ []))) }
{
    match slot {
        Some(meter) => write_reading(&read(meter), out),
        None => Ok(()),
    }
}

/// Writes what the meters have counted that are still in.
fn write_readings(meters: &Meters, out: &mut Bytes) -> Result<(), AllocError>
    ensures text { OnOk result (out.new ≡ out.old ++ journal_spelling (reading_lines
        (map (λ o. option_map (λ m. reading (counts m) (counted m)) o) meters.now.items))) }
    ensures spelled { OnOk result (ArePrinted (reading_lines
        (map (λ o. option_map (λ m. reading (counts m) (counted m)) o) meters.now.items))) }
{
    for slot in meters.iter() {
        write_slot(slot, out)?;
    }
    Ok(())
}

/// Reads a schedule and writes the whole journal of its run, in which these meters see each event:
/// the text is the spelling of its lines, each of which is a line of a journal. It says the first
/// line outside the grammar.
pub fn journal_of(
    alloc: Global,
    input: &[u8],
    meters: Vec<Box<dyn Meter>>,
) -> Result<Bytes, ReadError>
    ensures written { IfOk result (λ text. IsTextOf
        (map (λ m. reading (counts m) (counted m)) meters.items) input.now (λ t. text ≡ t)) }
    ensures bad { IfErr result (λ e. (n : ℕ) (f : Fault) → e ≡ BadLine n f
        → IsFirstBad input.now n f) }
    ensures complete { (servers : ℕ) (lines : List Line) → IsCount servers → AreLines lines
        → input.now ≡ spelling servers lines
        → IfErr result (λ e. e ≡ OutOfMemory) }
    ensures first { (n : ℕ) (f : Fault) → IsFirstBad input.now n f
        → IsErrAnd result (λ e. (e ≡ BadLine n f) ⊎ (e ≡ OutOfMemory)) }
{
    let schedule = pg_sched::read(alloc, input)?;
    let mut meters = hand_in(alloc, meters)?;
    let mut replay = Replay::new(alloc, schedule.servers)?;
    let lines = schedule.lines.as_slice();
    for (i, line) in lines.iter().enumerate() {
        take_line(&mut replay, i as u64 + 2, line, &mut meters)?;
        replay.marks.clear();
    }
    replay.tell(AskedAt::End)?;
    write_readings(&meters, &mut replay.out)?;
    Ok(replay.out)
}
