//! Whether two places, flags or cells are the same.

ghost use Rattle.std.specs.Prelude.{◌≡◌};
ghost use Rattle.pg_names.specs.Same.{is_same_entry, is_same_flag, is_same_flags, is_same_own, is_same_place, is_same_stamp, is_same_truth};

use crate::attributes::Attributes;
use pg_base::Stamp;
use pg_entries::Entry;
use pg_register::{Flag, Place};

pub(crate) fn is_same_truth(a: bool, b: bool) -> bool
    ensures { result ≡ is_same_truth a b }
{
    if a { b } else { !b }
}

/// Whether two stamps are one.
pub fn is_same_stamp(a: Stamp, b: Stamp) -> bool
    ensures { result ≡ is_same_stamp a b }
{
    a.time == b.time && a.server == b.server
}

/// Whether two places are the same, all of each.
pub fn is_same_place(a: &Place, b: &Place) -> bool
    ensures { result ≡ is_same_place a.now b.now }
{
    is_same_stamp(a.stamp, b.stamp)
        && a.parent.compare(&b.parent).is_eq()
        && a.name.as_slice() == b.name.as_slice()
        && is_same_truth(a.live, b.live)
}

pub fn is_same_flag(a: &Flag, b: &Flag) -> bool
    ensures { result ≡ is_same_flag a.now b.now }
{
    a.server == b.server
        && a.birth == b.birth
        && a.number == b.number
        && is_same_truth(a.raised, b.raised)
}

/// Whether these are the same flags, in the same order.
pub fn is_same_flags(a: &[Flag], b: &[Flag]) -> bool
    ensures { result ≡ is_same_flags a.now b.now }
{
    a == b
}

/// Whether place and flags are the same.
pub fn is_same_own(a: &Attributes, b: &Attributes) -> bool
    ensures { result ≡ is_same_own a.now b.now }
{
    is_same_place(&a.place, &b.place) && is_same_flags(a.flags.as_slice(), b.flags.as_slice())
}

/// Whether two cells of directories are the same: of one child, with one place and the same flags.
pub fn is_same_entry(a: &Entry, b: &Entry) -> bool
    ensures { result ≡ is_same_entry a.now b.now }
{
    a.child.compare(&b.child).is_eq()
        && is_same_place(&a.place, &b.place)
        && is_same_flags(a.flags.as_slice(), b.flags.as_slice())
}
