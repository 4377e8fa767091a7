//! What nodes save. Each law is a clause of a function that does nothing.

ghost use Rattle.law_saved.specs.Saved.{SavesLastWhole, StatesAreOwn};

use pg_host::states_are_saved;

/// Whatever log and slots a node goes on with, and whatever it takes then, what it holds is of this
/// server, of so many. So what was saved last is what it held behind the greatest multiple of 1,024
/// entries that it appended, wherever this has a spelling of fewer than 2^32 bytes and slots'
/// numbers were left.
pub fn saves_are_own()
    ensures own { StatesAreOwn }
    ensures saved { SavesLastWhole }
{
    states_are_saved();
}
