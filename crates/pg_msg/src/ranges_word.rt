//! Ranges as words: what stays of a body, and the parts that are laid over it.

ghost use Rattle.std.specs.Prelude.{◌≡◌, ◌<◌, ◌^◌, ℕ, List, decimal, IfOk, IfSome, IfNone};
ghost use Rattle.std.specs.List.{AllByRecursion};
ghost use Rattle.pg_msg.specs.UpdateText.{ArePartBytes, IsPart, keep_word, part_word, parts_word};
ghost use Rattle.pg_patch.specs.Ranges.{RangesValue, IsRanges};
ghost use Rattle.pg_patch.specs.declared.part.Part.{Part};

use pg_base::{Items, cut_at, number_u32};
use pg_patch::{ALL, Part, Ranges, are_in_order};
use pg_words::{HexWord, is_same, items_of, read_hex};
use std::alloc::{AllocError, Global};
use std::fmt;

/// How much of a body stays.
#[derive(Clone, Copy, Debug)]
pub(crate) struct KeepWord(pub u32);

impl fmt::Display for KeepWord {
    ghost use Rattle.std.specs.Prelude.{Some};
    ghost use Rattle.pg_msg.specs.UpdateText.{keep_word};

    ghost output = { λ w. Some (keep_word w.0) };

    fn fmt<W: fmt::Write>(&self, f: &mut fmt::Formatter<W>) -> fmt::Result {
        let keep = self.0;
        if keep == ALL {
            f.write_str("all")
        } else {
            write!(f, "{keep}")
        }
    }
}

/// Where a part begins, and its bytes.
#[derive(Clone, Copy, Debug)]
pub(crate) struct PartWord<'a>(pub &'a Part);

impl fmt::Display for PartWord<'_> {
    ghost use Rattle.std.specs.Prelude.{Some};
    ghost use Rattle.pg_msg.specs.UpdateText.{part_word};

    ghost output = { λ w. Some (part_word w.0.now) };

    fn fmt<W: fmt::Write>(&self, f: &mut fmt::Formatter<W>) -> fmt::Result {
        let offset = self.0.offset;
        let bytes = HexWord(self.0.bytes.as_slice());
        write!(f, "{offset}:{bytes}")
    }
}

/// Parts with a comma between two of them, or a dash for none.
#[derive(Clone, Copy, Debug)]
pub(crate) struct PartsWord<'a>(pub &'a [Part]);

impl fmt::Display for PartsWord<'_> {
    ghost use Rattle.std.specs.Prelude.{Some};
    ghost use Rattle.pg_msg.specs.UpdateText.{parts_word};

    ghost output = { λ w. Some (parts_word w.0.now) };

    fn fmt<W: fmt::Write>(&self, f: &mut fmt::Formatter<W>) -> fmt::Result {
        let Some((first, rest)) = self.0.split_first() else {
            return f.write_str("-");
        };
        let word = PartWord(first);
        write!(f, "{word}")?;
        for part in rest {
            let word = PartWord(part);
            write!(f, ",{word}")?;
        }
        Ok(())
    }
}

/// The part that the item spells. Its bytes are as many as the item has, at most 2^32 - 1.
fn part_of(alloc: Global, item: &[u8]) -> Result<Option<Part>, AllocError>
    ensures found { IfOk result (λ o. IfSome o (λ p. IsPart p × (item.now ≡ part_word p))) }
    ensures none { IfOk result (λ o. IfNone o ((p : Part) → IsPart p
        → item.now ≡ part_word p → ⊥)) }
{
    let Some((offset, bytes)) = cut_at(item, b':') else {
        return Ok(None);
    };
    let Some(offset) = number_u32(offset) else {
        return Ok(None);
    };
    match read_hex(alloc, bytes, u32::MAX as usize)? {
        Some(bytes) => Ok(Some(Part { offset, bytes })),
        None => Ok(None),
    }
}

/// The parts that the word spells, in any order.
fn parts_of(alloc: Global, word: &[u8]) -> Result<Option<Items<Part>>, AllocError>
    ensures found { IfOk result (λ o. IfSome o (λ p. AllByRecursion IsPart p
        × (word.now ≡ parts_word p))) }
    ensures none { IfOk result (λ o. IfNone o ((p : List Part) → AllByRecursion IsPart p
        → word.now ≡ parts_word p → ⊥)) }
{
    let mut parts = Items::new(alloc);
    if is_same(word, b"-") {
        return Ok(Some(parts));
    }
    let items = items_of(alloc, word)?;
    for item in &items {
        let Some(part) = part_of(alloc, item)? else {
            return Ok(None);
        };
        parts.push(part)?;
    }
    Ok(Some(parts))
}

/// How much of a body stays, as the word says. The number that stands for all of it is no length.
fn keep_of(word: &[u8]) -> Option<u32>
    ensures found { IfSome result (λ k. word.now ≡ keep_word k) }
    ensures none { IfNone result ((k : ℕ) → k < 2 ^ 32 → word.now ≡ keep_word k → ⊥) }
{
    if is_same(word, b"all") {
        return Some(ALL);
    }
    let keep = number_u32(word)?;
    if keep == ALL { None } else { Some(keep) }
}

/// The ranges of these words for what stays, the least length and the parts.
pub(crate) fn ranges_of(
    alloc: Global,
    keep: &[u8],
    least: &[u8],
    parts: &[u8],
) -> Result<Option<Ranges>, AllocError>
    ensures found { IfOk result (λ o. IfSome o (λ r. IsRanges r × ArePartBytes r.parts
        × (keep.now ≡ keep_word r.keep) × (least.now ≡ decimal r.least)
        × (parts.now ≡ parts_word r.parts))) }
    ensures none { IfOk result (λ o. IfNone o ((r : RangesValue) → IsRanges r → ArePartBytes r.parts
        → keep.now ≡ keep_word r.keep → least.now ≡ decimal r.least
        → parts.now ≡ parts_word r.parts → ⊥)) }
{
    let Some(keep) = keep_of(keep) else {
        return Ok(None);
    };
    let Some(least) = number_u32(least) else {
        return Ok(None);
    };
    let Some(parts) = parts_of(alloc, parts)? else {
        return Ok(None);
    };
    if !are_in_order(parts.as_slice(), least) {
        return Ok(None);
    }
    Ok(Some(Ranges::from_parts(keep, least, parts)))
}
