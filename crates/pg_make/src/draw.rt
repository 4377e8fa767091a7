//! Numbers drawn one after the other.

ghost use Rattle.std.specs.Prelude.{◌≡◌, ◌<◌};
ghost use Rattle.pg_make.specs.Draw.{below};

use rand_core::utils::NextWord;
use rand_pcg::Pcg32;

/// A number below the bound, from the next word.
pub(crate) fn below(words: &mut Pcg32, bound: u32) -> u32
    requires { 0 < bound }
    ensures { (result, words.new) ≡ below bound words.old }
{
    words.next_word() % bound
}
