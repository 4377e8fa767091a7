//! Edges come with the keys that they have, in the place of others or of none.

ghost use Rattle.std.specs.Prelude.{[], ℕ, ◌≡◌, ◌&&◌, ◌||◌, ◌==◌, not, OnErr, OnOk, false, is_some};
ghost use Rattle.std.specs.List.Sorted.{IsStrictlySortedBy};
ghost use Rattle.std.specs.Map.{keys_of};
ghost use Rattle.pg_edges.specs.declared.key.Key.{Key};
ghost use Rattle.pg_edges.specs.Key.{is_same_key, key_cmp};
ghost use Rattle.pg_edges.specs.Keys.{tag_in};
ghost use Rattle.pg_edges.specs.Edges.{edge_to};
ghost use Rattle.pg_unacked.specs.Due.{has_due};
ghost use Rattle.pg_unacked.specs.Changes.{NoneGoes, OthersStay, Redues, due_at};
ghost use Rattle.pg_unacked.specs.Owes.{AreInOrder, IsInOrder, owes_on};

use crate::due::Due;
use crate::unacked::Unacked;
use pg_base::{FileId, NodeId};
use pg_edges::{Edges, Key, Keys};
use std::alloc::AllocError;

/// These keys are due to the peer. After out of memory some of them may be.
fn add_tagged(
    unacked: &mut Unacked,
    file: FileId,
    peer: NodeId,
    keys: &Keys,
) -> Result<(), AllocError>
    ensures others { OthersStay unacked.old unacked.new file }
    ensures kept { NoneGoes unacked.old unacked.new file }
    ensures own { OnOk result ((p : ℕ) (k : Key) → has_due unacked.new p (due_at file k)
        ≡ ((peer == p && is_some (tag_in keys.now k)) || has_due unacked.old p (due_at file k))) }
    ensures only { OnErr result ((p : ℕ) (k : Key)
        → (peer == p && is_some (tag_in keys.now k)) ≡ false
        → has_due unacked.new p (due_at file k) ≡ has_due unacked.old p (due_at file k)) }
    ensures ordered { OnOk result (IsStrictlySortedBy key_cmp (keys_of keys.now)) }
{
    // A count of them says that they are in order.
    let _count = keys.len();
    for tagged in keys.as_slice() {
        let key = tagged.0;
        unacked.insert(peer, Due { file, key })?;
    }
    Ok(())
}

/// The keys of the edge to the peer are due to it. After out of memory some of them may be.
fn add_edge(
    unacked: &mut Unacked,
    file: FileId,
    peer: NodeId,
    edges: &Edges,
) -> Result<(), AllocError>
    ensures others { OthersStay unacked.old unacked.new file }
    ensures kept { NoneGoes unacked.old unacked.new file }
    ensures own { OnOk result ((p : ℕ) (k : Key) → has_due unacked.new p (due_at file k)
        ≡ ((peer == p && owes_on edges.now peer k) || has_due unacked.old p (due_at file k))) }
    ensures only { OnErr result ((p : ℕ) (k : Key)
        → (peer == p && owes_on edges.now peer k) ≡ false
        → has_due unacked.new p (due_at file k) ≡ has_due unacked.old p (due_at file k)) }
    ensures ordered { OnOk result (IsInOrder (edge_to edges.now peer)) }
{
    match edges.get(peer) {
        Some(edge) => add_tagged(unacked, file, peer, &edge.keys),
        None => Ok(()),
    }
}

/// The keys of the edges are due, each to its peer. After out of memory some of them may be.
fn add_edges(unacked: &mut Unacked, file: FileId, edges: &Edges) -> Result<(), AllocError>
    ensures others { OthersStay unacked.old unacked.new file }
    ensures kept { NoneGoes unacked.old unacked.new file }
    ensures own { OnOk result ((p : ℕ) (k : Key) → has_due unacked.new p (due_at file k)
        ≡ (owes_on edges.now p k || has_due unacked.old p (due_at file k))) }
    ensures only { OnErr result ((p : ℕ) (k : Key) → owes_on edges.now p k ≡ false
        → has_due unacked.new p (due_at file k) ≡ has_due unacked.old p (due_at file k)) }
    ensures ordered { OnOk result (AreInOrder edges.now) }
{
    for edge in edges.as_slice() {
        add_edge(unacked, file, edge.peer, edges)?;
    }
    Ok(())
}

/// The key is not due to the peer any more, unless one of these edges has it.
fn drop_unless(unacked: &mut Unacked, file: FileId, peer: NodeId, key: Key, kept: &Edges)
    ensures others { OthersStay unacked.old unacked.new file }
    ensures own { (p : ℕ) (k : Key) → has_due unacked.new p (due_at file k)
        ≡ (not (peer == p && (is_same_key key k && not (owes_on kept.now p k)))
        && has_due unacked.old p (due_at file k)) }
{
    if !has_key(kept, peer, &key) {
        unacked.remove(peer, &Due { file, key });
    }
}

/// Whether the edge to the peer has the key.
fn has_key(edges: &Edges, peer: NodeId, key: &Key) -> bool
    ensures { result ≡ owes_on edges.now peer key.now }
{
    match edges.get(peer) {
        Some(edge) => edge.keys.get(key).is_some(),
        None => false,
    }
}

/// Of these keys those are not due to the peer any more that none of these edges has.
fn drop_tagged(unacked: &mut Unacked, file: FileId, peer: NodeId, keys: &Keys, kept: &Edges)
    ensures others { OthersStay unacked.old unacked.new file }
    ensures own { (p : ℕ) (k : Key) → has_due unacked.new p (due_at file k)
        ≡ (not (peer == p && (is_some (tag_in keys.now k) && not (owes_on kept.now p k)))
        && has_due unacked.old p (due_at file k)) }
{
    for tagged in keys.as_slice() {
        drop_unless(unacked, file, peer, tagged.0, kept);
    }
}

/// Of the keys of the edge to the peer those are not due any more that the other edges have not.
fn drop_edge(unacked: &mut Unacked, file: FileId, peer: NodeId, gone: &Edges, kept: &Edges)
    ensures others { OthersStay unacked.old unacked.new file }
    ensures own { (p : ℕ) (k : Key) → has_due unacked.new p (due_at file k)
        ≡ (not (peer == p && (owes_on gone.now peer k && not (owes_on kept.now p k)))
        && has_due unacked.old p (due_at file k)) }
{
    if let Some(edge) = gone.get(peer) {
        drop_tagged(unacked, file, peer, &edge.keys, kept);
    }
}

/// Of the keys of edges that are gone those are not due any more that the other edges have not.
fn drop_edges(unacked: &mut Unacked, file: FileId, gone: &Edges, kept: &Edges)
    ensures others { OthersStay unacked.old unacked.new file }
    ensures own { (p : ℕ) (k : Key) → has_due unacked.new p (due_at file k)
        ≡ (not (owes_on gone.now p k && not (owes_on kept.now p k))
        && has_due unacked.old p (due_at file k)) }
{
    for edge in gone.as_slice() {
        drop_edge(unacked, file, edge.peer, gone, kept);
    }
}

/// The keys of the edges are due of a file of which none is. After out of memory none is.
pub fn enter_due(unacked: &mut Unacked, file: FileId, edges: &Edges) -> Result<(), AllocError>
    ensures ok { OnOk result (Redues unacked.old unacked.new file [] edges.now) }
    ensures err { OnErr result (Redues unacked.old unacked.new file [] []) }
{
    match add_edges(unacked, file, edges) {
        Ok(()) => Ok(()),
        Err(e) => {
            unacked.forget(&file);
            Err(e)
        }
    }
}

/// Edges come in the place of others, of which just the keys were due. After out of memory it is as
/// before.
pub fn exchange_due(
    unacked: &mut Unacked,
    file: FileId,
    gone: &Edges,
    come: &Edges,
) -> Result<(), AllocError>
    ensures ok { OnOk result (Redues unacked.old unacked.new file gone.now come.now) }
    ensures err { OnErr result (Redues unacked.old unacked.new file gone.now gone.now) }
{
    match add_edges(unacked, file, come) {
        Ok(()) => {
            drop_edges(unacked, file, gone, come);
            Ok(())
        }
        Err(e) => {
            drop_edges(unacked, file, come, gone);
            Err(e)
        }
    }
}
