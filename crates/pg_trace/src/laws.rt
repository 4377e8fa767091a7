//! What holds of all that is written.

ghost use Rattle.std.specs.Prelude.{ℕ, ◌<◌, ◌^◌};
ghost use Rattle.pg_event.specs.declared.entry.Entry.{Entry};
ghost use Rattle.pg_sched.specs.declared.line.Form.{Form};
ghost use Rattle.pg_sched.specs.declared.line.Line.{Line};
ghost use Rattle.pg_sched.specs.Line.{IsLine};
ghost use Rattle.pg_trace.specs.JournalLine.{ArePrinted};
ghost use Rattle.pg_trace.specs.Spelled.{IsEntry};
ghost use Rattle.pg_trace.specs.Text.{entry_lines, head_lines};

/// In both forms each line that is written has a spelling, wherever numbers and bodies are in their
/// ranges.
pub fn what_is_written_is_spelled()
    ensures head { (line : ℕ) (form : Form) (what : Line) → line < 2 ^ 64 → IsLine what
        → ArePrinted (head_lines line form what) }
    ensures entry { (line : ℕ) (form : Form) (entry : Entry) → line < 2 ^ 64 → IsEntry entry
        → ArePrinted (entry_lines line form entry) }
{}
