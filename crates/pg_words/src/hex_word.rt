//! Bytes as words of hexadecimal digits.

ghost use Rattle.std.specs.Prelude.{◌≡◌, ◌≤◌, ◌<◌, ℕ, List, [], ◌∷◌, length, slice_index, IfOk, IfSome, IfNone};
ghost use Rattle.hex.specs.Hex.{encode_lower, lower_digits};
ghost use Rattle.pg_words.specs.HexWord.{AreAtMost, AreBytes, AreEncoded, IsLowerDigit, hex_word};

use crate::word::is_same;
use pg_base::SharedBytes;
use std::alloc::{AllocError, Global};
use std::{fmt, str};

/// How many bytes are turned into digits at once.
const AT_ONCE: usize = 512;

/// Bytes that are shown as pairs of hexadecimal digits, or as a dash where there are none.
#[derive(Clone, Copy, Debug)]
pub struct HexWord<'a>(pub &'a [u8]);

/// The digits of some bytes.
fn digits_of<'b>(bytes: &[u8], buffer: &'b mut [u8]) -> &'b str
    requires few { length bytes.now ≤ 512 }
    requires room { length buffer.old ≡ 1024 }
    ensures { result.now ≡ encode_lower bytes.now }
{
    let digits = &mut buffer[..2 * bytes.len()];
    let Ok(()) = hex::encode_to_slice(bytes, digits) else {
        unreachable!();
    };
    let Ok(text) = str::from_utf8(digits) else {
        unreachable!();
    };
    text
}

impl fmt::Display for HexWord<'_> {
    ghost use Rattle.std.specs.Prelude.{Some};
    ghost use Rattle.pg_words.specs.HexWord.{hex_word};

    ghost output = { λ w. Some (hex_word w.0.now) };

    fn fmt<W: fmt::Write>(&self, f: &mut fmt::Formatter<W>) -> fmt::Result {
        if self.0.is_empty() {
            return f.write_str("-");
        }
        let mut buffer = [0u8; 2 * AT_ONCE];
        for chunk in self.0.chunks(AT_ONCE) {
            f.write_str(digits_of(chunk, &mut buffer))?;
        }
        Ok(())
    }
}

/// The value of a hexadecimal digit in lower case.
fn digit_of(byte: u8) -> Option<u8>
    ensures found { IfSome result (λ v. (v < 16) × (slice_index lower_digits v ≡ byte)) }
    ensures none { IfNone result (IsLowerDigit byte → ⊥) }
{
    match byte {
        b'0'..=b'9' => Some(byte - b'0'),
        b'a'..=b'f' => Some(byte - b'a' + 10),
        _ => None,
    }
}

/// The byte of two digits.
fn byte_of(high: u8, low: u8) -> Option<u8>
    ensures found { IfSome result (λ b. encode_lower (b ∷ []) ≡ high ∷ low ∷ []) }
    ensures none { IfNone result (IsLowerDigit high → IsLowerDigit low → ⊥) }
{
    let high = digit_of(high)?;
    let low = digit_of(low)?;
    Some(high * 16 + low)
}

/// The bytes that the pairs of digits spell.
fn decoded(alloc: Global, word: &[u8]) -> Result<Option<Vec<u8>>, AllocError>
    ensures found { IfOk result (λ o. IfSome o (λ b. AreEncoded b.items word.now)) }
    ensures none { IfOk result (λ o. IfNone o ((b : List ℕ) → AreEncoded b word.now → ⊥)) }
{
    let mut bytes = Vec::with_capacity(alloc, word.len() / 2)?;
    let mut rest = word;
    while let [high, low, more @ ..] = rest {
        let Some(byte) = byte_of(*high, *low) else {
            return Ok(None);
        };
        bytes.push(byte)?;
        rest = more;
    }
    if rest.is_empty() {
        Ok(Some(bytes))
    } else {
        Ok(None)
    }
}

/// The bytes, one at least and no more than `most`, that the word spells by pairs of digits in
/// lower case. A word that is too long takes no memory.
pub fn read_hex(alloc: Global, word: &[u8], most: usize) -> Result<Option<SharedBytes>, AllocError>
    ensures found { IfOk result (λ o. IfSome o (λ b. AreBytes most b
        × (word.now ≡ encode_lower b))) }
    ensures none { IfOk result (λ o. IfNone o ((b : List ℕ) → AreBytes most b
        → word.now ≡ encode_lower b → ⊥)) }
{
    if word.is_empty() || word.len() / 2 > most {
        return Ok(None);
    }
    match decoded(alloc, word)? {
        Some(items) => Ok(Some(SharedBytes::from_vec(alloc, items)?)),
        None => Ok(None),
    }
}

/// The bytes, no more than `most`, that the word spells by pairs of digits in lower case, or by a
/// dash where there are none. A word that is too long takes no memory.
pub fn read_hex_word(
    alloc: Global,
    word: &[u8],
    most: usize,
) -> Result<Option<SharedBytes>, AllocError>
    ensures found { IfOk result (λ o. IfSome o (λ b. AreAtMost most b × (word.now ≡ hex_word b))) }
    ensures none { IfOk result (λ o. IfNone o ((b : List ℕ) → AreAtMost most b
        → word.now ≡ hex_word b → ⊥)) }
{
    if is_same(word, b"-") {
        return Ok(Some(SharedBytes::from_slice(alloc, b"")?));
    }
    let found = read_hex(alloc, word, most)?;
    Ok(found)
}
