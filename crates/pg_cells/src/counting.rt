//! How much a server owes.

ghost use Rattle.std.specs.Prelude.{◌≡◌, ◌-◌, ◌^◌, length, min};
ghost use Rattle.pg_pieces.specs.pg_store.Store.{replica_at};
ghost use Rattle.pg_cells.specs.Counts.{edge_keys, file_keys, key_count};

use pg_base::FileId;
use pg_edges::Edge;
use pg_pieces::replica::Replica;
use pg_pieces::store::Store;

/// The unacknowledged keys of a replica, up to the greatest number.
fn replica_keys(replica: &Replica) -> u64
    ensures { result ≡ min (edge_keys replica.now.edges) (2 ^ 64 - 1) }
{
    let mut count: u64 = 0;
    for edge in replica.edges.as_slice() {
        count = count.saturating_add(edge.keys.len() as u64);
    }
    count
}

/// Of the replica of a file, if it was touched.
fn file_keys(store: &Store, file: &FileId) -> u64
    ensures { result ≡ min (file_keys (replica_at store.now file.now)) (2 ^ 64 - 1) }
{
    match store.replica(file) {
        Some(replica) => replica_keys(replica),
        None => 0,
    }
}

/// How many keys are unacknowledged, on all edges of all replicas. It stops at the greatest number.
pub fn key_count(store: &Store) -> u64
    ensures { result ≡ min (key_count store.now) (2 ^ 64 - 1) }
{
    let mut count: u64 = 0;
    for file in store.replicas.unacknowledged().keys() {
        count = count.saturating_add(file_keys(store, file));
    }
    count
}
