//! What holds of the journals of any schedule.

ghost use Rattle.std.specs.Prelude.{ℕ};
ghost use Rattle.pg_replay.specs.Apart.{JournalsAreAlike};
ghost use Rattle.pg_replay.specs.Lines.{LinesAreEvents};

/// Whatever meters are handed in, the lines of a journal are the same, but for those of meters and
/// those that are void for want of one.
pub fn journals_are_alike()
    ensures { (servers : ℕ) → JournalsAreAlike servers }
{}

/// Behind any lines of a schedule the world is that of the run of their events, with those of each
/// settling among them.
pub fn lines_are_events()
    ensures { (servers : ℕ) → LinesAreEvents servers }
{}
