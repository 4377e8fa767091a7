//! What the rules look at.

ghost use Rattle.std.specs.List.Sorted.{IsStrictlySortedBy};
ghost use Rattle.std.specs.Map.{keys_of};
ghost use Rattle.pg_base.specs.Id.{file_cmp};
ghost use Rattle.pg_names.specs.Calm.{AllCome, AreCalm};

use pg_index::Ids;
use pg_names::Names;

/// The things that may not be calm, and what follows of the others: they are calm, and stand in no
/// cycle unless one of these does. Both these and all that is held are in order.
pub fn dirty_things(names: &Names) -> &Ids
    ensures calm { AreCalm names.now result.now }
    ensures come { AllCome names.now result.now }
    ensures ordered { IsStrictlySortedBy file_cmp result.now }
    ensures sorted { IsStrictlySortedBy file_cmp (keys_of names.now.held) }
{
    let _held = names.as_map();
    let dirty = names.dirty();
    let _ids = dirty.as_slice();
    dirty
}
