//! What keeps a replica from going.

ghost use Rattle.std.specs.Prelude.{◌≡◌, not};
ghost use Rattle.std.specs.Option.{option_copied};
ghost use Rattle.std.specs.List.{find};
ghost use Rattle.pg_edges.specs.Edges.{is_none};
ghost use Rattle.pg_store.specs.pg_names.Names.{known};
ghost use Rattle.pg_store.specs.Store.{replica_of};
ghost use Rattle.pg_pieces.specs.Parting.{by_edge, by_intent, first_child, has_child, is_child_at, is_child_of, is_unclean, stays_for, unsettled_by};

use crate::golds::is_gold;
use pg_base::{FileId, Kind};
use pg_call::{Refusal, Unsettled};
use pg_edges::Edge;
use pg_store::{Inode, Intent, Names, Store, dirty_things};

/// Whether what is held has a live place in the directory.
fn is_child_of(dir: &FileId, file: &FileId, held: &Inode) -> bool
    ensures { result ≡ is_child_of dir.now (file.now, held.now) }
{
    let place = &held.own().place;
    place.live && place.parent.compare(dir).is_eq()
}

/// Whether a thing is held, and has a live place in the directory.
fn is_child_at(names: &Names, dir: &FileId, file: &FileId) -> bool
    ensures { result ≡ is_child_at dir.now file.now (known names.now file.now) }
{
    match names.get(file) {
        Some(held) => is_child_of(dir, file, held),
        None => false,
    }
}

/// The least such thing. The root is less than all others.
fn first_child(names: &Names, dir: &FileId) -> Option<FileId>
    ensures { result ≡ first_child names.now dir.now }
{
    let _dirty = dirty_things(names);
    let root = FileId {
        kind: Kind::Dir,
        server: 0,
        number: 0,
    };
    if is_child_at(names, dir, &root) {
        return Some(root);
    }
    for file in names.children(dir).as_slice() {
        if is_child_at(names, dir, file) {
            return Some(*file);
        }
    }
    None
}

fn has_child(store: &Store, file: &FileId) -> Option<Refusal>
    ensures { result ≡ has_child store.now file.now }
{
    match first_child(&store.names, file) {
        Some(child) => Some(Refusal::HasChild(child)),
        None => None,
    }
}

/// An intention about it, with its target.
fn by_intent(file: &FileId, intent: &Intent) -> Refusal
    ensures { result ≡ by_intent file.now intent.now }
{
    Refusal::Unsettled {
        what: Unsettled::Intent(intent.kind()),
        id: *file,
        peer: intent.target(),
    }
}

/// A peer that has not acknowledged every key.
fn by_edge(file: &FileId, edge: &Edge) -> Refusal
    ensures { result ≡ by_edge file.now edge.now }
{
    Refusal::Unsettled {
        what: Unsettled::Cell,
        id: *file,
        peer: edge.peer,
    }
}

/// The first edge to such a peer.
fn first_unclean(edges: &[Edge]) -> Option<&Edge>
    ensures { option_copied result ≡ find is_unclean edges.now }
{
    edges.iter().find(|edge| !edge.keys.is_empty())
}

/// The first intention about it, else the first peer that has not acknowledged every key.
fn unsettled_by(store: &Store, file: &FileId) -> Option<Refusal>
    ensures { result ≡ unsettled_by store.now file.now }
{
    if let Some(intent) = store.intents.first_about(*file) {
        return Some(by_intent(file, intent));
    }
    let replica = store.replica(file)?;
    match first_unclean(replica.edges.as_slice()) {
        Some(edge) => Some(by_edge(file, edge)),
        None => None,
    }
}

/// Why a replica may not go: it is gold, or a held thing has a live place in it, the least of which
/// is told, or something about it is not settled: the first intention, else the first edge with an
/// unacknowledged key.
pub fn stays_for(store: &Store, file: &FileId) -> Option<Refusal>
    ensures { result ≡ stays_for store.now file.now }
{
    if is_gold(store, file) {
        return Some(Refusal::IsGold);
    }
    if let Some(child) = has_child(store, file) {
        return Some(child);
    }
    unsettled_by(store, file)
}
