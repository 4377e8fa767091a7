//! Pairs of hexadecimal digits.

ghost use Rattle.std.specs.Prelude.{◌↔◌, All, IsTrue};
ghost use Rattle.pg_command.specs.Slots.{ArePairs, SpellsBytes};
ghost use Rattle.pg_words.specs.HexWord.{IsLowerDigit};

use pg_call::MOST_BYTES;

fn is_digit(byte: u8) -> bool
    ensures { IsTrue result ↔ IsLowerDigit byte }
{
    byte.is_ascii_digit() || (b'a' <= byte && byte <= b'f')
}

/// Whether the word has pairs of bytes, one at least and no more than one write has bytes.
fn are_pairs(word: &[u8]) -> bool
    ensures { IsTrue result ↔ ArePairs word.now }
{
    !word.is_empty() && word.len() % 2 == 0 && word.len() / 2 <= MOST_BYTES
}

fn all_digits(word: &[u8]) -> bool
    ensures { IsTrue result ↔ All IsLowerDigit word.now }
{
    word.iter().all(|byte| is_digit(*byte))
}

/// Whether the word spells bytes, one at least and no more than one write has, by pairs of digits
/// in lower case.
pub(crate) fn are_digits(word: &[u8]) -> bool
    ensures { IsTrue result ↔ SpellsBytes word.now }
{
    if are_pairs(word) {
        all_digits(word)
    } else {
        false
    }
}
