//! Words that are lists: a comma parts two items, and a dash stands for none.

ghost use Rattle.std.specs.Prelude.{◌≡◌, ◌==◌, map, IfOk};
ghost use Rattle.std.specs.List.{slice_split};

use std::alloc::{AllocError, Global};

/// The items of a list that is no dash.
pub fn items_of(alloc: Global, word: &[u8]) -> Result<Vec<&[u8]>, AllocError>
    ensures { IfOk result (λ v. map (λ w. w.now) v.items ≡ slice_split (λ b. b == 44) word.now) }
{
    word.split(|b| *b == b',').collect(alloc)
}
