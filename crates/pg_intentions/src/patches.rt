//! Directories that are not held here, and have to hear of children that moved.

ghost use Rattle.std.specs.Prelude.{◌≡◌, OnOk};
ghost use Rattle.pg_intentions.specs.Patches.{begin_patch, begin_patches};

use crate::intending::slots_of;
use pg_graph::intent::Intent;
use pg_graph::msg::{Slot, Work};
use pg_graph::pieces::begin_intent;
use pg_graph::store::Store;
use pg_repair::own_entry;
use std::alloc::AllocError;

/// Of each live place that was replaced, a Patch begins where its directory is not held. One that
/// stands joins the place and flags that the child has now, and asks whom it asked.
pub(crate) fn begin_patches(store: &mut Store, work: &mut Work) -> Result<(), AllocError>
    ensures store { OnOk result (store.new ≡ (begin_patches store.old work.old).store) }
    ensures work { OnOk result (work.new ≡ (begin_patches store.old work.old).work) }
{
    let slots = slots_of(store.allocator(), &work.left)?;
    for slot in slots.keys() {
        begin_patch(store, *slot, work)?;
    }
    Ok(())
}

/// A Patch begins of one place that was replaced, where its directory is not held.
fn begin_patch(store: &mut Store, slot: Slot, work: &mut Work) -> Result<(), AllocError>
    ensures store { OnOk result (store.new ≡ (begin_patch store.old slot work.old).store) }
    ensures work { OnOk result (work.new ≡ (begin_patch store.old slot work.old).work) }
{
    if store.names.is_held(&slot.dir) {
        return Ok(());
    }
    let patch = Intent::Patch {
        dir: slot.dir,
        entry: own_entry(store, slot.child)?,
        target: store.first_target(work.from),
    };
    begin_intent(store, patch, work)?;
    Ok(())
}
