//! Stamps as words, alone and in lists.

ghost use Rattle.std.specs.Prelude.{◌≡◌, List, IfOk, IfSome, IfNone};
ghost use Rattle.std.specs.List.{AllByRecursion};
ghost use Rattle.pg_base.specs.StampText.{stamp_text};
ghost use Rattle.pg_base.specs.declared.stamp.Stamp.{Stamp};
ghost use Rattle.pg_words.specs.StampWord.{IsStamp, stamps_word};

use crate::list_word::items_of;
use crate::word::is_same;
use pg_base::{Items, Stamp, cut_at, number, number_u32};
use std::alloc::{AllocError, Global};
use std::fmt;

/// The stamp that the word spells.
pub fn read_stamp(word: &[u8]) -> Option<Stamp>
    ensures found { IfSome result (λ s. IsStamp s × (word.now ≡ stamp_text s)) }
    ensures none { IfNone result ((s : Stamp) → IsStamp s → word.now ≡ stamp_text s → ⊥) }
{
    let (first, second) = cut_at(word, b'@')?;
    let time = number(first)?;
    let server = number_u32(second)?;
    Some(Stamp { time, server })
}

/// Stamps with a comma between two of them, or a dash for none.
#[derive(Clone, Copy, Debug)]
pub struct StampsWord<'a>(pub &'a [Stamp]);

impl fmt::Display for StampsWord<'_> {
    ghost use Rattle.std.specs.Prelude.{Some};
    ghost use Rattle.pg_words.specs.StampWord.{stamps_word};

    ghost output = { λ w. Some (stamps_word w.0.now) };

    fn fmt<W: fmt::Write>(&self, f: &mut fmt::Formatter<W>) -> fmt::Result {
        let Some((first, rest)) = self.0.split_first() else {
            return f.write_str("-");
        };
        write!(f, "{first}")?;
        for stamp in rest {
            write!(f, ",{stamp}")?;
        }
        Ok(())
    }
}

/// The stamps that the word spells.
pub fn read_stamps(alloc: Global, word: &[u8]) -> Result<Option<Items<Stamp>>, AllocError>
    ensures found { IfOk result (λ o. IfSome o (λ s. AllByRecursion IsStamp s
        × (word.now ≡ stamps_word s))) }
    ensures none { IfOk result (λ o. IfNone o ((s : List Stamp) → AllByRecursion IsStamp s
        → word.now ≡ stamps_word s → ⊥)) }
{
    let mut stamps = Items::new(alloc);
    if is_same(word, b"-") {
        return Ok(Some(stamps));
    }
    let items = items_of(alloc, word)?;
    for item in &items {
        let Some(stamp) = read_stamp(item) else {
            return Ok(None);
        };
        stamps.push(stamp)?;
    }
    Ok(Some(stamps))
}

/// No two stamps, and no two lists of stamps, have one spelling.
pub fn one_stamp_spelling()
    ensures one { (a b : Stamp) → IsStamp a → IsStamp b → stamp_text a ≡ stamp_text b → a ≡ b }
    ensures list { (a b : List Stamp) → AllByRecursion IsStamp a → AllByRecursion IsStamp b
        → stamps_word a ≡ stamps_word b → a ≡ b }
{}
