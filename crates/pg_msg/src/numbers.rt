//! Which numbers a message may have.

ghost use Rattle.std.specs.Prelude.{◌≡◌};
ghost use Rattle.pg_msg.specs.Numbers.{are_flags_in_range, has_time_in_range, have_times_in_range, is_cell_in_range, is_entry_in_range, is_head_in_range, is_in_range, is_key_in_range, is_number, is_vector_in_range};

use crate::message::Message;
use pg_base::{Head, Stamp, Vector};
use pg_edges::Key;
use pg_entries::{Cell, Entry};
use pg_register::Flag;

/// Numbers of a run stay far below. So each sum with one of a message fits its type, whatever a
/// message holds.
const LIMIT: u64 = Stamp::CLOCK_END + (1 << 40);

impl Message {
    /// Whether each time of a stamp, and each number of a flag or of a vector, is below 2^62 +
    /// 2^40. A message that has a greater one is ignored. Births, tags, offsets and lengths may be
    /// any.
    pub fn is_in_range(&self) -> bool
        ensures { result ≡ is_in_range self.now }
    {
        match self {
            Message::Cell { cell, .. } => is_cell_in_range(cell),
            Message::Ack { key, .. } => is_key_in_range(key),
            Message::Harbinger { head, .. } => is_head_in_range(head.get()),
            Message::Want { wanted, .. } => {
                let wanted = wanted.get();
                has_time_in_range(&wanted.stamp) && have_times_in_range(wanted.heads.as_slice())
            }
            Message::Delta { delta, .. } => {
                let delta = delta.get();
                is_head_in_range(&delta.head) && have_times_in_range(delta.from.as_slice())
            }
            Message::Piece { piece, .. } => is_head_in_range(&piece.get().head),
            Message::Later { stamp, .. } => has_time_in_range(stamp),
            Message::Fetch { .. } => true,
            Message::Grant { granted, .. } => {
                let granted = granted.get();
                has_time_in_range(&granted.place.stamp)
                    && are_flags_in_range(granted.flags.as_slice())
            }
            Message::NoGrant { .. } => true,
            Message::Full { .. } => true,
            Message::Seek { .. } => true,
            Message::Greet { .. } => true,
            Message::NoneHere { .. } => true,
            Message::Gone { .. } => true,
            Message::Bye { .. } => true,
            Message::ByeOk { .. } => true,
            Message::Confirm { entry, .. } => is_entry_in_range(entry.get()),
            Message::PlaceIs { entry, .. } => is_entry_in_range(entry.get()),
            Message::Tell { entry, .. } => is_entry_in_range(entry.get()),
            Message::TellOk { stamp, .. } => has_time_in_range(stamp),
            Message::Leave { stamp, .. } => has_time_in_range(stamp),
            Message::LeaveOk { stamp, .. } => has_time_in_range(stamp),
            Message::Invite { .. } => true,
            Message::Walk { .. } => true,
        }
    }
}

/// The number of a flag or of a vector.
fn is_number(number: u64) -> bool
    ensures { result ≡ is_number number }
{
    number < LIMIT
}

fn has_time_in_range(stamp: &Stamp) -> bool
    ensures { result ≡ has_time_in_range stamp.now }
{
    stamp.time < LIMIT
}

fn have_times_in_range(stamps: &[Stamp]) -> bool
    ensures { result ≡ have_times_in_range stamps.now }
{
    stamps.iter().all(|stamp| has_time_in_range(stamp))
}

fn is_vector_in_range(vector: &Vector) -> bool
    ensures { result ≡ is_vector_in_range vector.now }
{
    vector.entries().iter().all(|entry| is_number(entry.1))
}

fn is_head_in_range(head: &Head) -> bool
    ensures { result ≡ is_head_in_range head.now }
{
    has_time_in_range(&head.stamp) && is_vector_in_range(&head.vector)
}

fn are_flags_in_range(flags: &[Flag]) -> bool
    ensures { result ≡ are_flags_in_range flags.now }
{
    flags.iter().all(|flag| is_number(flag.number))
}

fn is_entry_in_range(entry: &Entry) -> bool
    ensures { result ≡ is_entry_in_range entry.now }
{
    has_time_in_range(&entry.place.stamp) && are_flags_in_range(entry.flags.as_slice())
}

fn is_key_in_range(key: &Key) -> bool
    ensures { result ≡ is_key_in_range key.now }
{
    match key {
        Key::Version(stamp) => has_time_in_range(stamp),
        Key::Place => true,
        Key::Flag(_) => true,
        Key::Entry(_) => true,
    }
}

fn is_cell_in_range(cell: &Cell) -> bool
    ensures { result ≡ is_cell_in_range cell.now }
{
    match cell {
        Cell::Place(place) => has_time_in_range(&place.get().stamp),
        Cell::Flag(flag) => is_number(flag.get().number),
        Cell::Entry(entry, _) => is_entry_in_range(entry.get()),
        Cell::Version(version) => is_head_in_range(version.head()),
    }
}
