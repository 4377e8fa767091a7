//! What is counted of a run.

ghost use Rattle.std.specs.Prelude.{◌≡◌, IfSome, IfNone};
ghost use Rattle.pg_event.specs.Meter.{meter_word};
ghost use Rattle.pg_event.specs.declared.meter.MeterKind.{MeterKind};

use std::fmt;

/// The kinds of meters.
#[derive(Clone, Copy, Debug, PartialEq, Eq)]
pub enum MeterKind {
    /// The meter that counts the messages that are sent.
    Packets,
    /// The meter that counts the bytes of bodies in the messages that are sent.
    Bodies,
    /// The meter that counts the bodies that came where they were known.
    Repeats,
}

impl fmt::Display for MeterKind {
    ghost use Rattle.std.specs.Prelude.{Some};
    ghost use Rattle.pg_event.specs.Meter.{meter_word};

    ghost output = { λ k. Some (meter_word k) };

    fn fmt<W: fmt::Write>(&self, f: &mut fmt::Formatter<W>) -> fmt::Result {
        match self {
            MeterKind::Packets => f.write_str("packets"),
            MeterKind::Bodies => f.write_str("bodies"),
            MeterKind::Repeats => f.write_str("repeats"),
        }
    }
}

/// The kind of meter that the word names.
pub fn read_meter_kind(word: &[u8]) -> Option<MeterKind>
    ensures found { IfSome result (λ k. word.now ≡ meter_word k) }
    ensures none { IfNone result ((k : MeterKind) → word.now ≡ meter_word k → ⊥) }
{
    match word {
        b"packets" => Some(MeterKind::Packets),
        b"bodies" => Some(MeterKind::Bodies),
        b"repeats" => Some(MeterKind::Repeats),
        _ => None,
    }
}

/// No two kinds are one word.
pub fn one_meter_spelling()
    ensures { (a b : MeterKind) → meter_word a ≡ meter_word b → a ≡ b }
{}
