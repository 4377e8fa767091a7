//! The meters that the program hands in.

ghost use Rattle.std.specs.Prelude.{◌≡◌};
ghost use Rattle.pg_meter.specs.Note.{field_of};

use crate::meter::Meter;
use crate::note::Note;
use pg_event::MeterKind;

/// A meter of any kind.
#[derive(Debug, Drop)]
pub struct Counter {
    pub kind: MeterKind,
    pub value: u64,
}

impl Counter {
    /// A meter of this kind that has counted nothing.
    pub fn new(kind: MeterKind) -> Counter
        ensures { result ≡ record { kind = kind; value = 0 } }
    {
        Counter { kind, value: 0 }
    }
}

/// What a note has of a thing.
fn field_of(kind: MeterKind, note: &Note) -> u64
    ensures { result ≡ field_of kind note.now }
{
    match kind {
        MeterKind::Packets => note.packets,
        MeterKind::Bodies => note.body_bytes,
        MeterKind::Repeats => note.repeats,
    }
}

impl Meter for Counter {
    ghost counted = { λ c. c.value };

    ghost counts = { λ c. c.kind };

    fn see(&mut self, note: &Note) {
        let more = field_of(self.kind, note);
        self.value = self.value.saturating_add(more);
    }

    fn kind(&self) -> MeterKind {
        self.kind
    }

    fn value(&self) -> u64 {
        self.value
    }
}
