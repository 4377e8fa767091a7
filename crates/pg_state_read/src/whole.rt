//! States, read.

ghost use Rattle.std.specs.Prelude.{◌≡◌, ◌<◌, ◌∷◌, [], OnOk, IfOk, length};
ghost use Rattle.pg_packet_fields.specs.Faults as fields;
ghost use Rattle.pg_state_read.specs.Whole.{Gives, first_names, last_place, parts_of, state_of, store_with, with_all_held, with_entries, with_held, with_removed, with_replicas};

use crate::error::StateError;
use crate::parts::{Parts, Servers, read_marked};
use crate::time::are_in_time;
use pg_base::{FileId, Items, NodeId};
use pg_codec::Reader;
use pg_entries::Entry;
use pg_names::Names;
use pg_packet_fields::PacketError;
use pg_replica::Replicas;
use pg_state_fields::Held;
use pg_store::Store;
use std::alloc::{AllocError, Global};

/// What the bytes are the state of. Where they are no state, the place is that of the first field
/// that is not read, or where the state should have ended; and that of the greatest time of a
/// stamp, where a place or version has a later one and nothing else is wrong.
#[tactic(auto, unfolding(crate::specs::Whole::state_of))]
pub fn read(alloc: Global, bytes: &[u8]) -> Result<Store, StateError>
    ensures { Gives (λ s. s) result (state_of bytes.now) }
{
    let parts = read_whole(alloc, bytes)?;
    Ok(store_with(alloc, parts)?)
}

/// The parts of the state that the bytes are.
#[tactic(auto, unfolding(crate::specs::Whole::parts_of))]
fn read_whole(alloc: Global, bytes: &[u8]) -> Result<Parts, PacketError>
    ensures { fields.Gives (λ p. p) result (parts_of bytes.now) }
{
    let mut reader = Reader::new(bytes);
    let parts = read_marked(alloc, &mut reader)?;
    if !reader.is_at_end() {
        return Err(PacketError::Tail(reader.place()));
    }
    if are_in_time(&parts) {
        Ok(parts)
    } else {
        Err(PacketError::BadTag(last_place(&parts.servers)))
    }
}

/// Where the greatest time of a stamp stands.
fn last_place(servers: &Servers) -> usize
    requires { length servers.now.removed < 256 }
    ensures { result ≡ last_place servers.now }
{
    25 + 4 * servers.removed.len()
}

/// The servers that were removed are so again.
fn put_removed(names: &mut Names, removed: &[NodeId]) -> Result<(), AllocError>
    ensures { OnOk result (names.new ≡ with_removed names.old removed.now) }
{
    for server in removed {
        names.remove_server(*server)?;
    }
    Ok(())
}

/// What a server knows of names that holds nothing.
fn first_names(alloc: Global, servers: &Servers, last: u64) -> Result<Names, AllocError>
    ensures { IfOk result (λ names. names ≡ first_names servers.now last) }
{
    let mut names = Names::new(alloc, servers.server);
    put_removed(&mut names, servers.removed.as_slice())?;
    names.raise(last);
    Ok(names)
}

/// These are the entries of a directory.
fn put_entries(names: &mut Names, dir: FileId, entries: Items<Entry>) -> Result<(), AllocError>
    ensures { OnOk result (names.new ≡ with_entries dir names.old entries) }
{
    for entry in entries.into_vec() {
        names.set_entry(&dir, entry)?;
    }
    Ok(())
}

/// One thing more is held.
fn put_held(names: &mut Names, replicas: &mut Replicas, held: Held) -> Result<(), AllocError>
    ensures names { OnOk result (names.new ≡ with_held names.old held) }
    ensures replicas { OnOk result
        (replicas.new ≡ with_replicas replicas.old (held ∷ [])) }
{
    names.begin(held.file, held.own, held.full)?;
    put_entries(names, held.file, held.entries)?;
    replicas.put(held.file, held.replica)
}

/// All these are held.
fn put_all_held(
    names: &mut Names,
    replicas: &mut Replicas,
    all: Items<Held>,
) -> Result<(), AllocError>
    ensures names { OnOk result (names.new ≡ with_all_held names.old all) }
    ensures replicas { OnOk result (replicas.new ≡ with_replicas replicas.old all) }
{
    for held in all.into_vec() {
        put_held(names, replicas, held)?;
    }
    Ok(())
}

/// The store with these parts.
fn store_with(alloc: Global, parts: Parts) -> Result<Store, AllocError>
    ensures { IfOk result (λ store. store ≡ store_with parts) }
{
    let mut names = first_names(alloc, &parts.servers, parts.counters.last)?;
    let mut replicas = Replicas::new(alloc);
    put_all_held(&mut names, &mut replicas, parts.held)?;
    let mut store = Store::of(names, replicas);
    store.servers = parts.servers.servers;
    store.tags = parts.counters.tags;
    store.files = parts.counters.files;
    store.births = parts.counters.births;
    store.announced = parts.waiting.announced;
    store.intents = parts.waiting.intents;
    store.wishes = parts.waiting.wishes;
    Ok(store)
}
