//! A schedule is made and written.

ghost use Rattle.std.specs.Prelude.{◌≡◌, ◌≢◌, ◌≤◌};
ghost use Rattle.pg_program.specs.Ending as ending;
ghost use Rattle.pg_program.specs.Written as written;
ghost use Rattle.pg_make.specs.Made.{made_text};

use pg_base::Bytes;
use pg_event::Status;
use pg_io::{Sink, write_all};
use pg_make::schedule;
use pg_meter::Meter;
use std::alloc::Global;

/// Writes the schedule of this seed, for so many servers, with so many events. The meters see
/// nothing.
pub fn make<K: Sink>(
    alloc: Global,
    seed: u64,
    servers: u32,
    events: u64,
    sink: &mut K,
    _meters: Vec<Box<dyn Meter>>,
) -> Status
    requires servers { written.IsCount servers }
    requires events { events ≤ 1000000 }
    ensures done { result ≡ Status.Done
        → written.Appends (K.contents sink.old) (K.contents sink.new)
        (made_text seed servers events) }
    ensures prefix { result ≡ Status.WriteFault
        → written.AppendsPrefix (K.contents sink.old) (K.contents sink.new)
        (made_text seed servers events) }
    ensures untouched { result ≢ Status.Done → result ≢ Status.WriteFault → sink.new ≡ sink.old }
    ensures write { result ≡ Status.WriteFault
        → ending.Rose (K.faults sink.old) (K.faults sink.new) }
    ensures ends { ending.IsTextEnd result }
    ensures complete { ¬ (ending.Rose (K.faults sink.old) (K.faults sink.new))
        → ending.EndsOnly result Status.Done }
{
    let mut text = Bytes::new(alloc);
    let Ok(()) = schedule(alloc, seed, servers, events, &mut text) else {
        return Status::OutOfMemory;
    };
    match write_all(sink, text.as_slice()) {
        Ok(()) => Status::Done,
        Err(_) => Status::WriteFault,
    }
}
