//! Answers to who asked for a replica, or spoke to one that is not there.

ghost use Rattle.std.specs.Prelude.{◌≡◌, IfOk, OnOk};
ghost use Rattle.pg_pieces.specs.pg_store.Births.{fill_at, wish_at};
ghost use Rattle.pg_repair.specs.Granting.{aim_fill, begin_granted, begun_by, fill_asks, gone, grant, granted_own, no_grant, turn_fill, turn_wish, wish_asks};

use pg_base::{FileId, NodeId};
use pg_pieces::intent::{Intent, IntentKey};
use pg_pieces::msg::{Ends, Granted, Work};
use pg_pieces::names::Attributes;
use pg_pieces::store::Store;
use pg_pieces::{EdgeUse, accept, link_peer};
use std::alloc::AllocError;

/// A replica begins, filling, where its birth is pending: it has the place and the flags that it
/// was granted, and links who granted it, of whom a Fill of it asks the rest. Where it is here
/// already it links the sender alone. After out of memory a part may be done.
pub fn grant(
    store: &mut Store,
    ends: Ends,
    granted: &Granted,
    work: &mut Work,
) -> Result<(), AllocError>
    ensures store { OnOk result (store.new ≡ (grant store.old ends granted.now work.old).store) }
    ensures work { OnOk result (work.new ≡ (grant store.old ends granted.now work.old).work) }
{
    if store.is_pending(ends.file, ends.receiver) {
        return begin_granted(store, ends, granted, work);
    }
    accept(store, &ends, EdgeUse::Makes, work)?;
    Ok(())
}

fn granted_own(granted: &Granted) -> Result<Attributes, AllocError>
    ensures { IfOk result (λ own. own ≡ granted_own granted.now) }
{
    Ok(Attributes {
        place: granted.place.copy()?,
        flags: granted.flags.copy()?,
    })
}

/// A replica begins, filling, with what it was granted.
fn begin_by(store: &mut Store, ends: Ends, granted: &Granted) -> Result<(), AllocError>
    ensures { OnOk result (store.new ≡ begun_by store.old ends granted.now) }
{
    let own = granted_own(granted)?;
    store.begin(ends.file, ends.receiver, granted.policy, own, false)?;
    Ok(())
}

/// The Fill of a thing asks this server from now on, if there is one.
fn aim_fill(store: &mut Store, file: FileId, target: NodeId)
    ensures { store.new ≡ aim_fill store.old file target }
{
    store.intents.aim(&IntentKey::Fill { file }, target);
}

/// The replica that was granted begins, links who granted it, and asks it for the rest.
fn begin_granted(
    store: &mut Store,
    ends: Ends,
    granted: &Granted,
    work: &mut Work,
) -> Result<(), AllocError>
    ensures store { OnOk result
        (store.new ≡ (begin_granted store.old ends granted.now work.old).store) }
    ensures work { OnOk result
        (work.new ≡ (begin_granted store.old ends granted.now work.old).work) }
{
    begin_by(store, ends, granted)?;
    link_peer(store, ends.file, work.from, ends.sender, work)?;
    aim_fill(store, ends.file, work.from);
    Ok(())
}

/// Another server is asked for a replica of this birth, where the sender is asked: by the wish, and
/// by the Fill.
pub fn no_grant(store: &mut Store, file: FileId, birth: u64, work: &Work)
    ensures { store.new ≡ (no_grant store.old file birth work.entry.now).store }
{
    let next = store.next_target(work.from);
    turn_wish(store, file, birth, work.from, next);
    turn_fill(store, file, birth, work.from, next);
}

/// The wish for a thing with this birth that asks a server asks the next one from now on, if there
/// is one.
fn turn_wish(store: &mut Store, file: FileId, birth: u64, from: NodeId, next: NodeId)
    ensures { store.new ≡ turn_wish store.old file birth from next }
{
    if does_wish_ask(store, &file, birth, from) {
        store.wishes.aim(&file, next);
    }
}

/// The Fill of a thing with this birth that asks a server asks the next one from now on, if there
/// is one.
fn turn_fill(store: &mut Store, file: FileId, birth: u64, from: NodeId, next: NodeId)
    ensures { store.new ≡ turn_fill store.old file birth from next }
{
    if does_fill_ask(store, file, birth, from) {
        aim_fill(store, file, next);
    }
}

/// Whether the wish for a thing has this birth, and asks this server.
fn does_wish_ask(store: &Store, file: &FileId, birth: u64, from: NodeId) -> bool
    ensures { result ≡ wish_asks (wish_at store.now file.now) birth from }
{
    match store.wishes.get(file) {
        Some(wish) => wish.birth == birth && wish.target == from,
        None => false,
    }
}

/// Whether the Fill of a thing has this birth, and asks this server.
fn does_fill_ask(store: &Store, file: FileId, asked: u64, from: NodeId) -> bool
    ensures { result ≡ fill_asks (fill_at store.now file) asked from }
{
    match store.intents.get(&IntentKey::Fill { file }) {
        Some(Intent::Fill { birth, target, .. }) => *birth == asked && *target == from,
        _ => false,
    }
}

/// The sender has no replica of this birth: where it is listed so, that edge goes.
pub fn gone(store: &mut Store, file: FileId, birth: u64, work: &Work)
    ensures { store.new ≡ (gone store.old file birth work.entry.now).store }
{
    store.unlink(file, work.from, birth);
}
