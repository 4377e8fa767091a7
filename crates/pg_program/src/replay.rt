//! A schedule is read, and the journal of its run is written.

ghost use Rattle.std.specs.Prelude.{◌≡◌, ◌≢◌, ◌≤◌, ◌^◌, ℕ, List, IfSome, Some, length, map};
ghost use Rattle.pg_program.specs.Ending as ending;
ghost use Rattle.pg_program.specs.Written as written;
ghost use Rattle.pg_replay.specs.Apart.{JournalsAreAlike};

use pg_event::Status;
use pg_io::{ReadAllError, Sink, Source, read_all, write_all};
use pg_meter::Meter;
use pg_replay::{journal_of, journals_are_alike};
use pg_sched::ReadError;
use std::alloc::Global;

/// The most bytes that an input may have.
pub const LIMIT: usize = 1 << 26;

/// Reads a schedule and writes the journal of its run, in which these meters see each event.
/// Nothing is written, and no line is found bad, before the whole input was read.
pub fn replay<S: Source, K: Sink>(
    alloc: Global,
    source: &mut S,
    sink: &mut K,
    meters: Vec<Box<dyn Meter>>,
) -> Status
    // What is written: the spelling of the lines of the run, each of them a line of a journal; so
    // it is read again.
    ensures done { result ≡ Status.Done
        → written.WritesAll (map (λ m. written.reading (counts m) (counted m)) meters.items)
        (S.remaining source.old) (K.contents sink.old) (K.contents sink.new) }
    ensures whole { result ≡ Status.Done → ending.IsAtEnd (S.remaining source.new) }
    ensures whole_first { result ≡ Status.WriteFault → ending.IsAtEnd (S.remaining source.new) }
    ensures prefix { result ≡ Status.WriteFault
        → written.WritesPrefix (map (λ m. written.reading (counts m) (counted m)) meters.items)
        (S.remaining source.old) (K.contents sink.old) (K.contents sink.new) }
    ensures untouched { result ≢ Status.Done → result ≢ Status.WriteFault → sink.new ≡ sink.old }

    // Meters change nothing of the journal but their own lines, and which lines are void for want
    // of one.
    ensures alike { (servers : ℕ) → JournalsAreAlike servers }

    // When it ends how.
    ensures read { result ≡ Status.ReadFault
        → ending.Rose (S.faults source.old) (S.faults source.new) }
    ensures write { result ≡ Status.WriteFault
        → ending.Rose (K.faults sink.old) (K.faults sink.new) }
    ensures limit { written.most_input ≡ 2 ^ 26 }
    ensures long { result ≡ Status.InputLong → IfSome (S.remaining source.old) written.IsTooLong }
    ensures short { (input : List ℕ) → S.remaining source.old ≡ Some input → written.IsTooLong input
        → ¬ (ending.Rose (S.faults source.old) (S.faults source.new))
        → ending.EndsOnly result Status.InputLong }
    ensures bad { (n : ℕ) (f : ending.Fault) → result ≡ Status.BadLine n f
        → ending.FirstBadIs (S.remaining source.old) n f }
    ensures whole_bad { (n : ℕ) (f : ending.Fault) → result ≡ Status.BadLine n f
        → ending.IsAtEnd (S.remaining source.new) }
    ensures first_bad { (input : List ℕ) (n : ℕ) (f : ending.Fault)
        → S.remaining source.old ≡ Some input
        → length input ≤ written.most_input → ending.IsFirstBad input n f
        → ¬ (ending.Rose (S.faults source.old) (S.faults source.new))
        → ending.EndsOnly result (Status.BadLine n f) }
    ensures usage { (n : ℕ) → result ≢ Status.Usage n }
    ensures ends { ending.IsFileEnd result }
    ensures complete { written.IsGoodInput (S.remaining source.old)
        → ¬ (ending.Rose (S.faults source.old) (S.faults source.new))
        → ¬ (ending.Rose (K.faults sink.old) (K.faults sink.new))
        → ending.EndsOnly result Status.Done }
{
    journals_are_alike();

    let input = match read_all(alloc, source, LIMIT) {
        Ok(input) => input,
        Err(error) => match error {
            ReadAllError::Fault => return Status::ReadFault,
            ReadAllError::Long => return Status::InputLong,
            ReadAllError::OutOfMemory => return Status::OutOfMemory,
        },
    };
    let text = match journal_of(alloc, &input, meters) {
        Ok(text) => text,
        Err(error) => match error {
            ReadError::BadLine(number, fault) => return Status::BadLine(number, fault),
            ReadError::OutOfMemory => return Status::OutOfMemory,
        },
    };
    match write_all(sink, text.as_slice()) {
        Ok(()) => Status::Done,
        Err(_) => Status::WriteFault,
    }
}
