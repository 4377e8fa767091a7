//! Help is written.

ghost use Rattle.std.specs.Prelude.{◌≡◌, ◌≢◌, List, ℕ};
ghost use Rattle.pg_program.specs.Ending as ending;
ghost use Rattle.pg_program.specs.Written as written;

use pg_command::{Help, help_of};
use pg_event::Status;
use pg_io::{Sink, write_all};
use std::alloc::Global;

/// Writes the help that is asked for. No clause says what it tells.
pub fn help<K: Sink>(alloc: Global, asked: Help, sink: &mut K) -> Status
    ensures done { result ≡ Status.Done
        → (text : List ℕ) × written.Appends (K.contents sink.old) (K.contents sink.new) text }
    ensures prefix { result ≡ Status.WriteFault → (text : List ℕ)
        × written.AppendsPrefix (K.contents sink.old) (K.contents sink.new) text }
    ensures untouched { result ≢ Status.Done → result ≢ Status.WriteFault → sink.new ≡ sink.old }
    ensures write { result ≡ Status.WriteFault
        → ending.Rose (K.faults sink.old) (K.faults sink.new) }
    ensures ends { ending.IsTextEnd result }
    ensures complete { ¬ (ending.Rose (K.faults sink.old) (K.faults sink.new))
        → ending.EndsOnly result Status.Done }
{
    let Ok(text) = help_of(alloc, asked) else {
        return Status::OutOfMemory;
    };
    match write_all(sink, text.as_bytes()) {
        Ok(()) => Status::Done,
        Err(_) => Status::WriteFault,
    }
}
