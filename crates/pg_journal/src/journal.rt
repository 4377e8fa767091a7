//! A whole journal, from text.

ghost use Rattle.std.specs.Prelude.{◌≡◌, ◌++◌, ◌+◌, ◌<◌, ◌⊎◌, ℕ, List, length, IfOk, IfErr, IsErrAnd, MatchResult};
ghost use Rattle.std.specs.List.{AllByRecursion};
ghost use Rattle.pg_sched.specs.declared.error.ReadError.TheVariants.{BadLine, OutOfMemory};
ghost use Rattle.pg_call.specs.declared.fault.Fault.{Fault};
ghost use Rattle.pg_journal.specs.Journal.{LacksPrinted, IsOtherFault, IsFirstOther};
ghost use Rattle.pg_trace.specs.JournalLine.{IsPrinted, ArePrinted, printed_text, journal_spelling};
ghost use Rattle.pg_journal.specs.declared.journal.Stop.TheVariants as stop;
ghost use Rattle.pg_trace.specs.declared.journal_line.JournalLine.{JournalLine};

use pg_base::{Items, cut_at};
use pg_call::Fault;
use pg_journal_lines::read_printed;
use pg_sched::ReadError;
use pg_trace::JournalLine;
use std::alloc::{AllocError, Global};

/// Why the next line was not read.
#[derive(Clone, Copy, Debug, PartialEq, Eq)]
enum Stop {
    OutOfMemory,
    /// The line is none of a journal, for this fault.
    Other(Fault),
}

impl From<AllocError> for Stop {
    ghost from_gives = { λ _ e. e ≡ stop.OutOfMemory };

    fn from(_: AllocError) -> Self {
        Stop::OutOfMemory
    }
}

/// The first line of a text, and what stands behind it.
fn first_line(alloc: Global, text: &[u8]) -> Result<(JournalLine, &[u8]), Stop>
    requires { 0 < length text.now }
    ensures found { IfOk result (λ x. IsPrinted x.0 × (text.now ≡ printed_text x.0 ++ x.1.now)) }
    ensures lacks { IfErr result (λ e. (f : Fault) → e ≡ stop.Other f → LacksPrinted text.now) }
    ensures fault { IfErr result (λ e. (f : Fault) → e ≡ stop.Other f → IsOtherFault text.now f) }
{
    let Some((body, rest)) = cut_at(text, b'\n') else {
        return Err(Stop::Other(Fault::End));
    };
    match read_printed(alloc, body)? {
        Some(line) => Ok((line, rest)),
        None => Err(Stop::Other(Fault::Verb)),
    }
}

/// The lines that a text spells.
fn lines_of(alloc: Global, text: &[u8]) -> Result<Vec<JournalLine>, ReadError>
    ensures found { IfOk result (λ v. ArePrinted v.items × (text.now ≡ journal_spelling v.items)) }
    ensures bad { IfErr result (λ e. (n : ℕ) (f : Fault) → e ≡ BadLine n f
        → IsFirstOther text.now n f) }
{
    let mut lines = Vec::new(alloc);
    let mut rest = text;
    while !rest.is_empty() {
        let (line, after) = match first_line(alloc, rest) {
            Ok(found) => found,
            Err(Stop::OutOfMemory) => return Err(ReadError::OutOfMemory),
            Err(Stop::Other(fault)) => {
                return Err(ReadError::BadLine(lines.len() as u64 + 1, fault));
            }
        };
        lines.push(line)?;
        rest = after;
    }
    Ok(lines)
}

/// The journal that the text spells. The text of no byte is the journal of no line.
///
/// The error names the first line that is none of a journal: `End` where no line feed ends it, and
/// else `Verb`.
pub fn read_journal(alloc: Global, text: &[u8]) -> Result<Items<JournalLine>, ReadError>
    ensures found { IfOk result (λ j. AllByRecursion IsPrinted j
        × (text.now ≡ journal_spelling j)) }
    ensures bad { IfErr result (λ e. (n : ℕ) (f : Fault) → e ≡ BadLine n f
        → IsFirstOther text.now n f) }
    ensures complete { (j : List JournalLine) → AllByRecursion IsPrinted j
        → text.now ≡ journal_spelling j
        → MatchResult result (λ r. r ≡ j) (λ e. e ≡ OutOfMemory) }
    ensures first { (n : ℕ) (f : Fault) → IsFirstOther text.now n f
        → IsErrAnd result (λ e. (e ≡ BadLine n f) ⊎ (e ≡ OutOfMemory)) }
{
    let lines = lines_of(alloc, text)?;
    Ok(Items::from_vec(lines))
}

/// No two journals have one spelling, so what was written is read again.
pub fn one_journal()
    ensures { (x y : List JournalLine) → ArePrinted x → ArePrinted y
        → journal_spelling x ≡ journal_spelling y → x ≡ y }
{}
