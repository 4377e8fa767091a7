//! Meters that are handed in.

ghost use Rattle.std.specs.Prelude.{◌≡◌, ℕ, IfOk, Some, map, option_map};
ghost use Rattle.pg_event.specs.declared.meter.MeterKind.{MeterKind};
ghost use Rattle.pg_meter.specs.Note.{added, field_of, reading, reading_at, seen_by_all, seen_if_in, slot_at, taken_off, without};

use crate::note::Note;
use pg_event::MeterKind;
use std::alloc::{AllocError, Global};

/// A meter counts one thing of the events that it is shown. Its count stops at the greatest `u64`.
pub trait Meter: Drop {
    /// The number that the meter has counted.
    ghost counted: { Self → ℕ };

    /// The kind of what the meter counts.
    ghost counts: { Self → MeterKind };

    /// Adds what an event had of the thing. It takes no memory.
    fn see(&mut self, note: &Note)
        ensures value { counted self.new
            ≡ added (counted self.old) (field_of (counts self.old) note.now) }
        ensures kind { counts self.new ≡ counts self.old };

    fn kind(&self) -> MeterKind
        ensures { result ≡ counts self.now };

    fn value(&self) -> u64
        ensures { result ≡ counted self.now };
}

/// What a meter counts, and what it has counted.
#[derive(Clone, Copy, Debug, PartialEq, Eq)]
pub struct Reading {
    pub kind: MeterKind,
    pub value: u64,
}

/// Meters in the order in which they were handed in, each until it is taken off.
pub type Meters = Vec<Option<Box<dyn Meter>>>;

/// Hands in these meters, none of which is taken off.
pub fn hand_in(alloc: Global, meters: Vec<Box<dyn Meter>>) -> Result<Meters, AllocError>
    ensures { IfOk result (λ slots.
        map (λ o. option_map (λ m. reading (counts m) (counted m)) o) slots.items
        ≡ map (λ m. Some (reading (counts m) (counted m))) meters.items) }
{
    let mut slots = Vec::new(alloc);
    for meter in meters {
        slots.push(Some(meter))?;
    }
    Ok(slots)
}

/// Shows an event to a meter that is not taken off.
fn see_one(slot: &mut Option<Box<dyn Meter>>, note: &Note)
    ensures { option_map (λ m. reading (counts m) (counted m)) slot.new
        ≡ seen_if_in note.now (option_map (λ m. reading (counts m) (counted m)) slot.old) }
{
    if let Some(meter) = slot {
        meter.see(note);
    }
}

/// Shows an event to every meter that is not taken off: each adds its own field.
pub fn see_all(meters: &mut Meters, note: &Note)
    ensures { map (λ o. option_map (λ m. reading (counts m) (counted m)) o) meters.new.items
        ≡ seen_by_all note.now
        (map (λ o. option_map (λ m. reading (counts m) (counted m)) o) meters.old.items) }
{
    for slot in meters.iter_mut() {
        see_one(slot, note);
    }
}

/// What a meter counts, and what it has counted.
pub fn read(meter: &Box<dyn Meter>) -> Reading
    ensures { result ≡ reading (counts meter.now) (counted meter.now) }
{
    Reading {
        kind: meter.kind(),
        value: meter.value(),
    }
}

/// Takes out what stands in the slot with this number, counted from 1.
fn take_at<T>(slots: &mut Vec<Option<T>>, number: u64) -> Option<T>
    ensures taken { result ≡ slot_at slots.old.items number }
    ensures rest { slots.new.items ≡ without slots.old.items number }
{
    if number == 0 {
        return None;
    }
    slots.get_mut(number as usize - 1)?.take()
}

/// Takes off the meter with this number, counted from 1, and says what it has counted. None where
/// there is none, or it is taken off already.
pub fn take_off(meters: &mut Meters, number: u64) -> Option<Reading>
    ensures reading { result ≡ reading_at
        (map (λ o. option_map (λ m. reading (counts m) (counted m)) o) meters.old.items) number }
    ensures rest { map (λ o. option_map (λ m. reading (counts m) (counted m)) o) meters.new.items
        ≡ taken_off (map (λ o. option_map (λ m. reading (counts m) (counted m)) o) meters.old.items)
        number }
{
    let meter = take_at(meters, number)?;
    Some(read(&meter))
}
