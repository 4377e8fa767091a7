//! What a server owes.

ghost use Rattle.std.specs.Prelude.{◌≡◌, ◌++◌, map, slice_get};
ghost use Rattle.pg_calls.specs.pg_store.Seen.{server_of};
ghost use Rattle.pg_calls.specs.pg_store.Store.{replica_at};
ghost use Rattle.pg_server.specs.Owing.{edge_owes, file_owes, intent_owed, owed, owed_intents, owed_keys, owed_places, replica_owes};

use pg_base::{FileId, NodeId};
use pg_calls::house::first_held_back;
use pg_calls::intent::Intent;
use pg_calls::replica::Replica;
use pg_calls::store::Store;
use pg_edges::Edge;
use pg_event::{OwedIntent, OwedKey, Owing};

/// The first unacknowledged key of an edge.
fn first_of_edge(server: NodeId, file: FileId, edge: &Edge) -> Option<OwedKey>
    ensures { result ≡ slice_get (edge_owes server file edge.now) 0 }
{
    match edge.keys.as_slice().first() {
        Some(entry) => Some(OwedKey {
            server,
            file,
            peer: edge.peer,
            key: entry.0,
        }),
        None => None,
    }
}

/// The first unacknowledged key of a replica: of its first edge that has one.
fn first_of_replica(server: NodeId, file: FileId, replica: &Replica) -> Option<OwedKey>
    ensures { result ≡ slice_get (replica_owes server (file, replica.now)) 0 }
{
    for edge in replica.edges.as_slice() {
        if let Some(owing) = first_of_edge(server, file, edge) {
            return Some(owing);
        }
    }
    None
}

/// The first unacknowledged key of a file's replica.
fn first_of_file(store: &Store, file: &FileId) -> Option<OwedKey>
    ensures { result
        ≡ slice_get (file_owes (server_of store.now) file.now (replica_at store.now file.now)) 0 }
{
    match store.replica(file) {
        Some(replica) => first_of_replica(store.server(), *file, replica),
        None => None,
    }
}

/// The first unacknowledged key of all files, by file: those with unacknowledged keys are gone
/// over.
fn first_key(store: &Store) -> Option<OwedKey>
    ensures { result ≡ slice_get (owed_keys store.now) 0 }
{
    for file in store.replicas.unacknowledged().keys() {
        if let Some(owing) = first_of_file(store, file) {
            return Some(owing);
        }
    }
    None
}

/// An intention of a server, as it is told.
fn intent_owed(server: NodeId, intent: &Intent) -> OwedIntent
    ensures { result ≡ intent_owed server intent.now }
{
    OwedIntent {
        server,
        kind: intent.kind(),
        file: intent.file(),
        child: intent.child(),
        target: intent.target(),
    }
}

/// The first intention, in the order in which they began.
fn first_intent(store: &Store) -> Option<OwedIntent>
    ensures { result ≡ slice_get (owed_intents store.now) 0 }
{
    match store.intents.at(0) {
        Some(intent) => Some(intent_owed(store.server(), intent)),
        None => None,
    }
}

/// The first key that a peer has not acknowledged, or else place that it holds back.
fn first_key_or_place(store: &Store) -> Option<Owing>
    ensures { result ≡ slice_get (map Owing.Key (owed_keys store.now) ++ owed_places store.now) 0 }
{
    match first_key(store) {
        Some(key) => Some(Owing::Key(key)),
        None => match first_held_back(&store.names) {
            Some(id) => Some(Owing::HeldBack {
                server: store.server(),
                id,
            }),
            None => None,
        },
    }
}

/// The first that a server owes: an intention, or else a key, or else a place that it holds back.
/// It takes no memory.
pub(crate) fn first_owed(store: &Store) -> Option<Owing>
    ensures { result ≡ slice_get (owed store.now) 0 }
{
    match first_intent(store) {
        Some(intent) => Some(Owing::Intent(intent)),
        None => first_key_or_place(store),
    }
}
