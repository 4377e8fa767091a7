//! Which keys of a file are due, to the peers of edges or to one peer.

ghost use Rattle.std.specs.Prelude.{ℕ, ◌≡◌, ◌&&◌, ◌||◌, ◌==◌, not, OnOk};
ghost use Rattle.pg_edges.specs.declared.key.Key.{Key};
ghost use Rattle.pg_edges.specs.Key.{is_same_key};
ghost use Rattle.pg_unacked.specs.Due.{has_due};
ghost use Rattle.pg_unacked.specs.Changes.{OthersStay, due_at};
ghost use Rattle.pg_unacked.specs.Owes.{is_key_of, is_to};

use crate::due::Due;
use crate::unacked::Unacked;
use pg_base::{FileId, NodeId};
use pg_edges::{Edge, Key};
use std::alloc::AllocError;

/// The key is due to each peer that has an edge. After out of memory it may be due to some of them.
pub(crate) fn add_key(
    unacked: &mut Unacked,
    file: FileId,
    key: Key,
    edges: &[Edge],
) -> Result<(), AllocError>
    ensures others { OthersStay unacked.old unacked.new file }
    ensures own { OnOk result ((p : ℕ) (k : Key) → has_due unacked.new p (due_at file k)
        ≡ ((is_to edges.now p && is_same_key key k) || has_due unacked.old p (due_at file k))) }
{
    for edge in edges {
        unacked.insert(edge.peer, Due { file, key })?;
    }
    Ok(())
}

/// Each of these keys is due to the peer. After out of memory some of them may be.
pub(crate) fn add_keys(
    unacked: &mut Unacked,
    file: FileId,
    peer: NodeId,
    keys: &[Key],
) -> Result<(), AllocError>
    ensures others { OthersStay unacked.old unacked.new file }
    ensures own { OnOk result ((p : ℕ) (k : Key) → has_due unacked.new p (due_at file k)
        ≡ ((peer == p && is_key_of k keys.now) || has_due unacked.old p (due_at file k))) }
{
    for key in keys {
        unacked.insert(peer, Due { file, key: *key })?;
    }
    Ok(())
}

/// The key is due to no peer that has an edge.
pub(crate) fn drop_key(unacked: &mut Unacked, file: FileId, key: Key, edges: &[Edge])
    ensures others { OthersStay unacked.old unacked.new file }
    ensures own { (p : ℕ) (k : Key) → has_due unacked.new p (due_at file k)
        ≡ (not (is_to edges.now p && is_same_key key k) && has_due unacked.old p (due_at file k)) }
{
    for edge in edges {
        unacked.remove(edge.peer, &Due { file, key });
    }
}
