//! Slots in order.

ghost use Rattle.std.specs.Prelude.{◌≡◌, [], IfOk};
ghost use Rattle.pg_intentions.specs.Intending.{add_slots};

use pg_base::Items;
use pg_graph::msg::Slot;
use std::alloc::{AllocError, Global};
use std::collections::BTreeMap;

/// Slots in order, each once.
pub(crate) type Slots = BTreeMap<Slot, ()>;

/// Sorts these slots by directory and then by child, each once.
pub(crate) fn slots_of(alloc: Global, some: &Items<Slot>) -> Result<Slots, AllocError>
    ensures { IfOk result (λ slots. slots.entries ≡ add_slots [] some.now) }
{
    let mut slots = BTreeMap::new(alloc);
    for slot in some.as_slice() {
        slots.insert(*slot, ())?;
    }
    Ok(slots)
}
