//! What a `show` tells in all runs. The law is a clause of a function that does nothing.

ghost use Rattle.std.specs.Prelude.{ℕ};
ghost use Rattle.pg_run.specs.Laws.{HoldsWhatItTook, NamesMerge};
ghost use Rattle.law_shows.specs.Shows.{ShowsAreStates};

use law_order::servers_are_whole;

/// After any events, what the lines of a `show` tell of a file or directory is the state of what
/// its replicas took: a live server shows nothing of it exactly where it does not hold it; else one
/// line with its place, whether it is gold and full, and for a file the heads, the length and the
/// first 16 bytes of its content, for a directory how many children it lists.
pub fn shows_are_states()
    ensures { (servers : ℕ) → HoldsWhatItTook servers → NamesMerge servers
        → ShowsAreStates servers }
{
    servers_are_whole();
}
