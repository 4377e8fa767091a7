//! A made schedule is run, and what is said of its run.

ghost use Rattle.std.specs.Prelude.{[], ◌≡◌, ◌≤◌, ◌+◌, ◌*◌, ◌++◌, ◌∷◌, IfOk, OnOk, false, option_to_list};
ghost use Rattle.pg_make.specs.Made.{first_lines, first_words, numbered_lines, settling_after};
ghost use Rattle.pg_replay.specs.Soaked.{HasSoaked, SoaksOn};
ghost use Rattle.pg_replay.specs.Soaking.{head_line, no_tally, quiet_line, soak_text, tally_line, with_line, with_mark, with_marks, with_outcome};
ghost use Rattle.pg_sched.specs.Line.{IsLine};
ghost use Rattle.pg_sched.specs.declared.line.Line.{Line};
ghost use Rattle.pg_sched.specs.Schedule.{IsCount};
ghost use Rattle.pg_world.specs.Played.{final};

use crate::journal::Replay;
use crate::mark::{Mark, Outcome};
use pg_base::Bytes;
use pg_make::{first_words, last_settling, next_event, settling_after};
use pg_sched::Line;
use pg_trace::AskedAt;
use rand_pcg::Pcg32;
use std::alloc::{AllocError, Global};

/// What is counted of a run. Each count stops at the greatest `u64`.
#[derive(Clone, Copy, Debug, PartialEq, Eq)]
pub(crate) struct Tally {
    /// The lines of the schedule behind its header.
    lines: u64,
    /// The calls that were not refused.
    replies: u64,
    /// The calls that were refused.
    refused: u64,
    /// The events that were void.
    voids: u64,
    /// The messages that were sent.
    sent: u64,
}

impl Tally {
    fn new() -> Tally
        ensures { result ≡ no_tally }
    {
        Tally {
            lines: 0,
            replies: 0,
            refused: 0,
            voids: 0,
            sent: 0,
        }
    }

    fn add_line(&mut self)
        ensures { self.new ≡ with_line self.old }
    {
        self.lines = self.lines.saturating_add(1);
    }

    fn add_outcome(&mut self, outcome: Outcome)
        ensures { self.new ≡ with_outcome outcome self.old }
    {
        match outcome {
            Outcome::Answered => self.replies = self.replies.saturating_add(1),
            Outcome::Refused => self.refused = self.refused.saturating_add(1),
            Outcome::Void => self.voids = self.voids.saturating_add(1),
            Outcome::Other => {}
        }
    }

    fn add(&mut self, mark: &Mark)
        ensures { self.new ≡ with_mark mark.now self.old }
    {
        self.sent = self.sent.saturating_add(mark.note.packets);
        self.add_outcome(mark.outcome);
    }

    fn add_all(&mut self, marks: &[Mark])
        ensures { self.new ≡ with_marks marks.now self.old }
    {
        for mark in marks {
            self.add(mark);
        }
    }

    fn write(&self, out: &mut Bytes) -> Result<(), AllocError>
        ensures { OnOk result (out.new ≡ out.old ++ tally_line self.now) }
    {
        let Tally {
            lines,
            replies,
            refused,
            voids,
            sent,
        } = *self;
        write!(
            out,
            "lines {lines} replies {replies} refused {refused} voids {voids} sent {sent}\n"
        )
    }
}

/// A run of which is counted. What the journal would say of it is not kept.
#[derive(Drop)]
pub(crate) struct Soak {
    alloc: Global,
    replay: Replay,
    tally: Tally,
}

impl Soak {
    fn new(alloc: Global, servers: u32) -> Result<Soak, AllocError>
        requires { IsCount servers }
        ensures { IfOk result (HasSoaked servers []) }
    {
        Ok(Soak {
            alloc,
            replay: Replay::new(alloc, servers)?,
            tally: Tally::new(),
        })
    }

    /// Takes a line of a schedule, and counts what came of it.
    fn take(&mut self, line: &Line) -> Result<(), AllocError>
        requires going { self.old.replay.world.failed ≡ false }
        requires counted { self.old.replay.marks.items ≡ [] }
        requires line { IsLine line.now }
        ensures { OnOk result (SoaksOn self.old self.new (line.now ∷ [])) }
    {
        self.tally.add_line();
        self.replay.take(self.tally.lines, line, None)?;
        self.tally.add_all(&self.replay.marks);
        self.replay.marks.clear();
        self.replay.out = Bytes::new(self.alloc);
        Ok(())
    }

    /// The event with this number, counted from 1, and the settling behind it.
    fn take_numbered(&mut self, number: u64, words: &mut Pcg32) -> Result<(), AllocError>
        requires going { self.old.replay.world.failed ≡ false }
        requires counted { self.old.replay.marks.items ≡ [] }
        requires servers { IsCount self.old.replay.world.servers }
        requires number { number ≤ 1000000 }
        ensures lines { OnOk result (SoaksOn self.old self.new
            (numbered_lines self.old.replay.world.servers number words.old).0) }
        ensures words { OnOk result (words.new
            ≡ (numbered_lines self.old.replay.world.servers number words.old).1) }
    {
        let servers = self.replay.world.servers();
        let event = next_event(self.alloc, servers, 10 * number, words)?;
        self.take(&Line::Happens(event))?;
        self.take_settling(number)?;
        Ok(())
    }

    fn take_settling(&mut self, number: u64) -> Result<(), AllocError>
        requires going { self.old.replay.world.failed ≡ false }
        requires counted { self.old.replay.marks.items ≡ [] }
        requires number { number ≤ 1000000 }
        ensures { OnOk result (SoaksOn self.old self.new (settling_after number)) }
    {
        match settling_after(number) {
            Some(line) => Ok(self.take(&line)?),
            None => Ok(()),
        }
    }

    /// Takes the lines of the first so many events of the schedule of this seed.
    fn take_events(&mut self, seed: u64, servers: u32, events: u64) -> Result<(), AllocError>
        requires begun { HasSoaked servers [] self.old }
        requires servers { IsCount servers }
        requires events { events ≤ 1000000 }
        ensures { OnOk result (HasSoaked servers
            (first_lines servers events (first_words seed)).0 self.new) }
    {
        let mut words = first_words(seed);
        for event in 0..events {
            self.take_numbered(event + 1, &mut words)?;
        }
        Ok(())
    }

    /// Takes the lines behind those of so many events.
    fn take_ending(&mut self, events: u64) -> Result<(), AllocError>
        requires going { self.old.replay.world.failed ≡ false }
        requires counted { self.old.replay.marks.items ≡ [] }
        requires events { events ≤ 1000000 }
        ensures { OnOk result (SoaksOn self.old self.new
            (Line.Settle 64 (10 * (events + 1)) ∷ Line.Quiet ∷ [])) }
    {
        self.take(&last_settling(events))?;
        self.take_quiet()?;
        Ok(())
    }

    fn take_quiet(&mut self) -> Result<(), AllocError>
        requires going { self.old.replay.world.failed ≡ false }
        requires counted { self.old.replay.marks.items ≡ [] }
        ensures { OnOk result (SoaksOn self.old self.new (Line.Quiet ∷ [])) }
    {
        self.take(&Line::Quiet)?;
        Ok(())
    }

    /// Writes of which schedule it was, what was counted, and whether all is done.
    fn tell(&mut self, seed: u64, servers: u32, events: u64) -> Result<(), AllocError>
        requires { self.old.replay.world.failed ≡ false }
        ensures { let told = tally_line self.old.tally
            ++ quiet_line self.old.replay.world.servers (final self.old.replay.world) in
            OnOk result (self.new.replay.out
            ≡ self.old.replay.out ++ (head_line seed servers events ++ told)) }
    {
        write_head(seed, servers, events, &mut self.replay.out)?;
        self.tally.write(&mut self.replay.out)?;
        self.replay.tell(AskedAt::Quiet)?;
        Ok(())
    }

    /// What was written.
    fn into_text(self) -> Bytes
        ensures { result ≡ self.replay.out }
    {
        let replay = self.replay;
        replay.out
    }
}

fn write_head(seed: u64, servers: u32, events: u64, out: &mut Bytes) -> Result<(), AllocError>
    ensures { OnOk result (out.new ≡ out.old ++ head_line seed servers events) }
{
    write!(out, "soak seed {seed} servers {servers} events {events}\n")
}

/// Runs the schedule that is made of these numbers, and says what came of it. Neither the schedule
/// nor the journal is kept.
pub fn summary_of(alloc: Global, seed: u64, servers: u32, events: u64) -> Result<Bytes, AllocError>
    requires servers { IsCount servers }
    requires events { events ≤ 1000000 }
    ensures { IfOk result (λ text. text ≡ soak_text seed servers events) }
{
    let mut soak = Soak::new(alloc, servers)?;
    soak.take_events(seed, servers, events)?;
    soak.take_ending(events)?;
    soak.tell(seed, servers, events)?;
    Ok(soak.into_text())
}
