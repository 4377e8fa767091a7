//! Gold replicas, and things that see no live one.

ghost use Rattle.std.specs.Prelude.{◌≡◌, IfOk, Some};
ghost use Rattle.pg_register.specs.Flag.{flag_of};
ghost use Rattle.pg_pieces.specs.Golds.{goldless, is_gold, is_goldless, is_goldless_held, is_of_later, sees_gold};

use pg_base::{FileId, Items, NodeId};
use pg_register::{GoldFlags, is_removed};
use pg_store::{Inode, Names, Store, dirty_things};
use std::alloc::AllocError;

/// Whether the server's own replica of a thing is gold: its flag is raised, with the replica's
/// birth.
pub fn is_gold(store: &Store, file: &FileId) -> bool
    ensures { result ≡ is_gold store.now file.now }
{
    match store.names.own(file) {
        Some(own) => own.flags.is_raised(store.server(), store.birth(file)),
        None => false,
    }
}

/// Whether one of these flags is raised, and its server is live.
fn sees_gold(removed: &[NodeId], flags: &GoldFlags) -> bool
    ensures { result ≡ sees_gold removed.now flags.now }
{
    flags
        .as_slice()
        .iter()
        .any(|flag| flag.raised && !is_removed(removed, flag.server))
}

/// Whether the server's flag is of a later birth than this.
fn is_of_later(birth: u64, flags: &GoldFlags, server: NodeId) -> bool
    ensures { result ≡ is_of_later birth (flag_of flags.now server) }
{
    match flags.get(server) {
        Some(flag) => birth < flag.birth,
        None => false,
    }
}

/// Whether what is held is full and sees no live gold, and the server has no flag of it that is of
/// a later birth than this one of its replica.
fn is_goldless_held(names: &Names, birth: u64, held: &Inode) -> bool
    ensures { result ≡ is_goldless_held names.now.removed names.now.server birth (Some held.now) }
{
    let flags = &held.own().flags;
    let full = held.is_full();
    full && !sees_gold(names.removed(), flags) && !is_of_later(birth, flags, names.server())
}

/// Whether a thing is full and sees no live gold, and the server has no flag of it that is of a
/// later birth than its replica.
pub fn is_goldless(store: &Store, file: &FileId) -> bool
    ensures { result ≡ is_goldless store.now file.now }
{
    match store.names.get(file) {
        Some(held) => is_goldless_held(&store.names, store.birth(file), held),
        None => false,
    }
}

/// The full things that see no live gold, by id. It looks at what is dirty: all others see one.
pub fn goldless(store: &Store) -> Result<Items<FileId>, AllocError>
    ensures { IfOk result (λ files. files ≡ goldless store.now) }
{
    Ok(Items::from_vec(
        dirty_things(&store.names)
            .as_slice()
            .iter()
            .copied()
            .filter(|file| is_goldless(store, file))
            .collect(store.allocator())?,
    ))
}
