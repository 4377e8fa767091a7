//! Two ranges in one.

ghost use Rattle.std.specs.Prelude.{◌≡◌, ℕ, List, IfOk, ◌<◌, ◌^◌, drop, max, min};
ghost use Rattle.pg_patch.specs.Laying.{laid, IsLaid, IsLaidOver, Between, Adds};
ghost use Rattle.pg_patch.specs.Parts.{end_of, AreInOrder};
ghost use Rattle.pg_patch.specs.Ranges.{all, applied, IsComposed, IsRanges};

use crate::laying::Laying;
use crate::part::Part;
use crate::ranges::Ranges;
use std::alloc::AllocError;

/// The ranges that do what `a` and then `b` do. The time is linear in the parts and the bytes of
/// both.
pub fn compose(a: &Ranges, b: &Ranges) -> Result<Ranges, AllocError>
    ensures composed { IfOk result (λ c. IsComposed a.now b.now c) }
    ensures two_applies { IfOk result
        (λ c. (body : List ℕ) → applied (applied body a.now) b.now ≡ applied body c) }
{
    let keep = a.keep().min(b.keep());
    let below = a.least().min(b.keep());
    let least = below.max(b.least());
    let parts = laid_over(a, b, below as usize)?;
    Ok(Ranges::new(keep, least, parts))
}

/// The parts of `b` over those of `a`, which are cut at the limit.
fn laid_over(a: &Ranges, b: &Ranges, limit: usize) -> Result<Vec<Part>, AllocError>
    ensures over { IfOk result (λ v. IsLaidOver a.now b.now limit v.items) }
    ensures lower { IsRanges a.now }
    ensures upper { IsRanges b.now }
{
    let lower = a.parts();
    let mut laying = Laying::new(b.allocator());
    let mut next = 0;
    let mut at = 0;
    for part in b.parts() {
        let start = part.offset as usize;
        let (more, further) = laid_between(laying, lower, next, at, limit.min(start))?;
        laying = more.put(part, start, part.end())?;
        next = further;
        at = part.end();
    }
    let (laying, _) = laid_between(laying, lower, next, at, limit)?;
    Ok(laying.into_parts()?)
}

/// Lays what the parts from the number `first` on have between two indexes, and tells from which
/// part on some have bytes behind them.
fn laid_between(
    laying: Laying,
    parts: &[Part],
    first: usize,
    from: usize,
    until: usize,
) -> Result<(Laying, usize), AllocError>
    requires laid { IsLaid laying from }
    requires parts { AreInOrder 0 (drop first parts.now) all }
    ensures laid { IfOk result (λ r. IsLaid r.0 (max from until)) }
    ensures between { IfOk result
        (λ r. Between (laid laying) (laid r.0) (drop first parts.now) (drop r.1 parts.now)
        from (max from until)) }
{
    let mut laying = laying;
    let mut next = first;
    let mut at = from;
    while next < parts.len() {
        let part = &parts[next];
        let end = part.end();
        laying = laid_within(laying, part, at, until)?;
        at = at.max(until.min(end));
        if until < end {
            break;
        }
        next += 1;
    }
    Ok((laying, next))
}

/// Lays what the part has between two indexes.
fn laid_within(laying: Laying, part: &Part, from: usize, until: usize) -> Result<Laying, AllocError>
    requires laid { IsLaid laying from }
    requires small { end_of part.now < 2 ^ 32 }
    ensures laid { IfOk result (λ l. IsLaid l (max from (min until (end_of part.now)))) }
    ensures added { IfOk result
        (λ l. Adds (laid laying) (laid l) part.now
        (max from part.now.offset) (min until (end_of part.now))) }
{
    let start = from.max(part.offset as usize);
    let end = until.min(part.end());
    if end <= start {
        return Ok(laying);
    }
    laying.put(part, start, end)
}
