//! Words that are texts as they stand.

ghost use Rattle.std.specs.Prelude.{◌↔◌, IsTrue};
ghost use Rattle.pg_words.specs.TextWord.{IsText, IsVisible};

use std::{fmt, str};

/// A text as it stands. One that is not ASCII throughout is not written: the formatter then answers
/// an error.
#[derive(Clone, Copy, Debug)]
pub struct TextWord<'a>(pub &'a [u8]);

impl fmt::Display for TextWord<'_> {
    ghost use Rattle.std.specs.Prelude.{Some};

    ghost output = { λ w. Some w.0.now };

    fn fmt<W: fmt::Write>(&self, f: &mut fmt::Formatter<W>) -> fmt::Result {
        match str::from_utf8(self.0) {
            Ok(text) => f.write_str(text),
            Err(_) => Err(fmt::Error),
        }
    }
}

fn is_visible(byte: u8) -> bool
    ensures { IsTrue result ↔ IsVisible byte }
{
    0x21 <= byte && byte <= 0x7E
}

/// Whether the word has a byte, and each can be seen.
pub fn is_text(word: &[u8]) -> bool
    ensures { IsTrue result ↔ IsText word.now }
{
    !word.is_empty() && word.iter().all(|byte| is_visible(*byte))
}
