//! Places of listed children that are to be confirmed.

ghost use Rattle.std.specs.Prelude.{◌≡◌, OnOk};
ghost use Rattle.pg_intentions.specs.Confirms.{begin_confirm, begin_confirms, holder, is_doubtful};

use crate::intending::slots_of;
use pg_base::{FileId, NodeId};
use pg_graph::intent::Intent;
use pg_graph::msg::{Slot, Work};
use pg_graph::pieces::begin_intent;
use pg_graph::store::Store;
use std::alloc::AllocError;

/// Whether the directory lists a child that is not held.
pub(crate) fn is_doubtful(store: &Store, dir: &FileId, child: &FileId) -> bool
    ensures { result ≡ is_doubtful store.now dir.now child.now }
{
    match store.names.entry(dir, child) {
        Some(entry) => entry.is_listed(*dir) && !store.names.is_held(child),
        None => false,
    }
}

/// Of each cell whose place came from a server that is not sure of it, a Confirm begins, where the
/// directory lists the child and that is not held. One that stands stays as it is.
pub(crate) fn begin_confirms(store: &mut Store, work: &mut Work) -> Result<(), AllocError>
    ensures store { OnOk result (store.new ≡ (begin_confirms store.old work.old).store) }
    ensures work { OnOk result (work.new ≡ (begin_confirms store.old work.old).work) }
{
    let slots = slots_of(store.allocator(), &work.unsure)?;
    for slot in slots.keys() {
        begin_confirm(store, *slot, work)?;
    }
    Ok(())
}

/// A Confirm begins of one cell, where the directory lists the child and that is not held.
fn begin_confirm(store: &mut Store, slot: Slot, work: &mut Work) -> Result<(), AllocError>
    ensures store { OnOk result (store.new ≡ (begin_confirm store.old slot work.old).store) }
    ensures work { OnOk result (work.new ≡ (begin_confirm store.old slot work.old).work) }
{
    if !is_doubtful(store, &slot.dir, &slot.child) {
        return Ok(());
    }
    let confirm = Intent::Confirm {
        dir: slot.dir,
        child: slot.child,
        target: holder(store, &slot.dir, &slot.child),
    };
    begin_intent(store, confirm, work)?;
    Ok(())
}

/// The server that is asked first: the least other live gold of the child, else the next behind
/// this server.
fn holder(store: &Store, dir: &FileId, child: &FileId) -> NodeId
    ensures { result ≡ holder store.now dir.now child.now }
{
    let next = store.next_target(store.server());
    match store.names.entry(dir, child) {
        Some(entry) => entry
            .flags
            .least_other_gold(store.server(), store.names.removed())
            .unwrap_or(next),
        None => next,
    }
}
