//! A whole made schedule.

ghost use Rattle.std.specs.Prelude.{◌≡◌, ◌++◌, ◌≤◌, ◌+◌, ◌*◌, OnOk, IfSome, option_to_list};
ghost use Rattle.pg_make.specs.Made.{first_words, settling_after, numbered_lines, made_lines, made_text};
ghost use Rattle.pg_sched.specs.Line.{IsLine};
ghost use Rattle.pg_sched.specs.declared.line.Line.{Line};
ghost use Rattle.pg_sched.specs.Schedule.{IsCount, AreLines, line_text, lines_text};

use crate::event::next_event;
use pg_base::Bytes;
use pg_sched::Line;
use rand_pcg::Pcg32;
use std::alloc::{AllocError, Global};

fn write_line(line: Line, out: &mut Bytes) -> Result<(), AllocError>
    ensures ok { OnOk result (out.new ≡ out.old ++ line_text line) }
{
    write!(out, "{line}\n")
}

/// The words from which the schedule of this seed is drawn.
pub fn first_words(seed: u64) -> Pcg32
    ensures { result ≡ first_words seed }
{
    Pcg32::new(seed, 1)
}

/// The settling behind the event with this number, counted from 1: one stands behind each
/// sixteenth.
pub fn settling_after(number: u64) -> Option<Line>
    requires { number ≤ 1000000 }
    ensures settling { option_to_list result ≡ settling_after number }
    ensures line { IfSome result IsLine }
{
    if number % 16 != 0 {
        return None;
    }
    let moment = 10 * number;
    Some(Line::Settle { rounds: 1, moment })
}

/// The settling behind all events.
pub fn last_settling(events: u64) -> Line
    requires { events ≤ 1000000 }
    ensures settling { result ≡ Line.Settle 64 (10 * (events + 1)) }
    ensures line { IsLine result }
{
    let moment = 10 * (events + 1);
    Line::Settle { rounds: 64, moment }
}

fn write_settling(number: u64, out: &mut Bytes) -> Result<(), AllocError>
    requires { number ≤ 1000000 }
    ensures { OnOk result (out.new ≡ out.old ++ lines_text (settling_after number)) }
{
    match settling_after(number) {
        Some(line) => write_line(line, out),
        None => Ok(()),
    }
}

/// The event with this number, counted from 1, and the settling behind it.
fn write_numbered(
    alloc: Global,
    servers: u32,
    number: u64,
    words: &mut Pcg32,
    out: &mut Bytes,
) -> Result<(), AllocError>
    requires servers { IsCount servers }
    requires number { number ≤ 1000000 }
    ensures lines { OnOk result (out.new
        ≡ out.old ++ lines_text (numbered_lines servers number words.old).0) }
    ensures words { OnOk result (words.new ≡ (numbered_lines servers number words.old).1) }
{
    let moment = 10 * number;
    let event = next_event(alloc, servers, moment, words)?;
    write_line(Line::Happens(event), out)?;
    write_settling(number, out)?;
    Ok(())
}

/// Writes a made schedule at the end: that of this seed, for so many servers, with so many events.
/// The same numbers give the same bytes. It takes time as the text is long, and but for the text
/// little memory. Where memory runs out a part of the text may stand at the end.
pub fn schedule(
    alloc: Global,
    seed: u64,
    servers: u32,
    events: u64,
    out: &mut Bytes,
) -> Result<(), AllocError>
    requires servers { IsCount servers }
    requires events { events ≤ 1000000 }
    ensures made { OnOk result (out.new ≡ out.old ++ made_text seed servers events) }
    ensures lines { AreLines (made_lines seed servers events) }
{
    let mut words = first_words(seed);
    write!(out, "pangaea 1 {servers}\n")?;
    for event in 0..events {
        write_numbered(alloc, servers, event + 1, &mut words, out)?;
    }
    write_line(last_settling(events), out)?;
    write_line(Line::Quiet, out)
}
