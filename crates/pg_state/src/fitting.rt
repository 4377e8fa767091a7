//! What of a replica has a spelling in a state.

ghost use Rattle.std.specs.Prelude.{ℕ, ◌≡◌, ◌≤◌, ◌↔◌, IsTrue, length, map};
ghost use Rattle.std.specs.List.{AllByRecursion};
ghost use Rattle.std.specs.List.Sorted.{IsStrictlySortedBy};
ghost use Rattle.std.specs.Map.{keys_of};
ghost use Rattle.pg_base.specs.declared.id.FileId.{FileId};
ghost use Rattle.pg_base.specs.Id.{file_cmp};
ghost use Rattle.pg_base.specs.Version.{stamp_of};
ghost use Rattle.pg_edges.specs.declared.key.Key.{Key};
ghost use Rattle.pg_entries.specs.declared.entry.Entry.{Entry};
ghost use Rattle.pg_packet_write.specs.Fits.{FitsKey, FitsRanges, Rise, laid};
ghost use Rattle.pg_patch.specs.Ranges.{IsRanges};
ghost use Rattle.pg_state.specs.Fits.{AreCounted, FitChildren, FitEdges, FitHeads, FitKept, FitReplicas, FitsChild, FitsDirectory, FitsEdge, FitsFile, FitsHeld, FitsInside, FitsKept, FitsReplica, FitsWhole};
ghost use Rattle.pg_state.specs.Rising.{Follows};

use crate::fields::{fit_flags, fits_child, fits_head, fits_key, fits_place, is_server};
use pg_base::{FileId, Kind, Policy, Stamp, Version};
use pg_delta::{KeptDelta, KeptDeltas, MOST_BYTES, MOST_PARTS};
use pg_edges::{Edge, Edges, Key};
use pg_entries::{Entries, Entry};
use pg_names::{Inode, Names};
use pg_patch::{LIMIT, Part, Ranges};
use pg_replica::{Replica, Replicas};
use std::collections::BTreeMap;

/// The greatest number of items that are counted in four bytes.
pub(crate) const MOST_COUNTED: usize = u32::MAX as usize;

fn fit_each_child(entries: &BTreeMap<FileId, Entry>) -> bool
    ensures { IsTrue result
        ↔ AllByRecursion (λ (e : FileId × Entry). FitsChild e.1) entries.now.entries }
{
    for (_, entry) in entries {
        if !fits_child(entry) {
            return false;
        }
    }
    true
}

fn fit_children(entries: &Entries) -> bool
    ensures { IsTrue result ↔ FitChildren entries.now }
{
    entries.count() <= MOST_COUNTED && fit_each_child(entries.as_map())
}

/// Whether the body has at most 1,048,576 bytes, and the head fits.
fn fits_whole(version: &Version) -> bool
    ensures { IsTrue result ↔ FitsWhole version.now }
{
    let head = version.head();
    fits_head(head) && head.length <= LIMIT
}

/// Whether the stamp comes behind the other, if there is one.
fn follows(before: Option<Stamp>, stamp: Stamp) -> bool
    ensures { IsTrue result ↔ Follows before stamp }
{
    match before {
        None => true,
        Some(before) => before.is_before(stamp),
    }
}

/// Whether each stamp comes before the next.
fn do_rise(stamps: &[Stamp]) -> bool
    ensures { IsTrue result ↔ Rise stamps.now }
{
    let mut before = None;
    for stamp in stamps {
        if !follows(before, *stamp) {
            return false;
        }
        before = Some(*stamp);
    }
    true
}

/// Whether the stamp of each head comes before that of the next.
fn heads_rise(heads: &[Version]) -> bool
    ensures { IsTrue result ↔ Rise (map stamp_of heads.now) }
{
    let mut before = None;
    for version in heads {
        let stamp = version.head().stamp;
        if !follows(before, stamp) {
            return false;
        }
        before = Some(stamp);
    }
    true
}

fn are_whole(heads: &[Version]) -> bool
    ensures { IsTrue result ↔ AllByRecursion FitsWhole heads.now }
{
    for version in heads {
        if !fits_whole(version) {
            return false;
        }
    }
    true
}

fn fit_heads(heads: &[Version]) -> bool
    ensures { IsTrue result ↔ FitHeads heads.now }
{
    heads.len() < 1 << 16 && heads_rise(heads) && are_whole(heads)
}

/// Whether there are few enough parts.
fn are_few(parts: &[Part]) -> bool
    ensures { IsTrue result ↔ (length parts.now ≤ 200) }
{
    parts.len() <= MOST_PARTS
}

/// Whether the parts have few enough bytes together.
fn are_short(ranges: &Ranges) -> bool
    ensures { IsTrue result ↔ (laid ranges.now.parts ≤ 30000) }
{
    ranges.bytes_of_parts() <= MOST_BYTES
}

/// Whether there are few enough parts, with few enough bytes.
fn fit_parts(ranges: &Ranges) -> bool
    ensures test { IsTrue result ↔ FitsRanges ranges.now }
    ensures ranges { IsRanges ranges.now }
{
    are_few(ranges.parts()) && are_short(ranges)
}

fn fits_kept(delta: &KeptDelta) -> bool
    ensures { IsTrue result ↔ FitsKept delta.now }
{
    let fits = fit_parts(&delta.ranges);
    delta.from.len() <= 256 && do_rise(delta.from.as_slice()) && fits
}

fn fit_each_kept(deltas: &[KeptDelta]) -> bool
    ensures { IsTrue result ↔ AllByRecursion FitsKept deltas.now }
{
    for delta in deltas {
        if !fits_kept(delta) {
            return false;
        }
    }
    true
}

fn fit_kept(kept: &KeptDeltas) -> bool
    ensures { IsTrue result ↔ FitKept kept.now }
{
    let deltas = kept.as_slice();
    deltas.len() < 1 << 8 && fit_each_kept(deltas)
}

fn fit_keys(keys: &[(Key, u64)]) -> bool
    ensures { IsTrue result ↔ AllByRecursion (λ (k : Key × ℕ). FitsKey k.0) keys.now }
{
    for tagged in keys {
        if !fits_key(&tagged.0) {
            return false;
        }
    }
    true
}

fn fits_edge(edge: &Edge) -> bool
    ensures { IsTrue result ↔ FitsEdge edge.now }
{
    let count = edge.keys.len();
    is_server(edge.peer) && count <= MOST_COUNTED && fit_keys(edge.keys.as_slice())
}

fn fit_each_edge(edges: &[Edge]) -> bool
    ensures { IsTrue result ↔ AllByRecursion FitsEdge edges.now }
{
    for edge in edges {
        if !fits_edge(edge) {
            return false;
        }
    }
    true
}

fn fit_edges(edges: &Edges) -> bool
    ensures { IsTrue result ↔ FitEdges edges.now }
{
    let edges = edges.as_slice();
    edges.len() < 1 << 8 && fit_each_edge(edges)
}

fn is_last(policy: Policy) -> bool
    ensures { IsTrue result ↔ (policy ≡ Policy.Last) }
{
    match policy {
        Policy::Last => true,
        Policy::Join => false,
    }
}

/// Whether a directory has no content, and its entries fit.
fn fits_directory(held: &Inode, replica: &Replica) -> bool
    ensures { IsTrue result ↔ FitsDirectory held.now replica.now }
{
    is_last(replica.content.policy())
        && replica.content.heads().is_empty()
        && replica.kept.as_slice().is_empty()
        && fit_children(held.entries())
}

/// Whether a file has no entry, and its content fits.
fn fits_file(held: &Inode, replica: &Replica) -> bool
    ensures { IsTrue result ↔ FitsFile held.now replica.now }
{
    held.entries().count() == 0 && fit_heads(replica.content.heads()) && fit_kept(&replica.kept)
}

fn fits_inside(kind: Kind, held: &Inode, replica: &Replica) -> bool
    ensures { IsTrue result ↔ FitsInside kind held.now replica.now }
{
    match kind {
        Kind::Dir => fits_directory(held, replica),
        Kind::File => fits_file(held, replica),
    }
}

fn fits_replica(id: FileId, held: &Inode, replica: &Replica) -> bool
    ensures { IsTrue result ↔ FitsReplica id held.now replica.now }
{
    let own = held.own();
    fits_place(&own.place)
        && fit_flags(&own.flags)
        && fits_inside(id.kind, held, replica)
        && fit_edges(&replica.edges)
}

/// Whether a thing that is held has a replica, and both fit.
fn fits_held(replicas: &Replicas, id: FileId, held: &Inode) -> bool
    ensures { IsTrue result ↔ FitsHeld replicas.now (id, held.now) }
{
    match replicas.get(&id) {
        None => false,
        Some(replica) => fits_replica(id, held, replica),
    }
}

fn fit_each_held(replicas: &Replicas, held: &BTreeMap<FileId, Inode>) -> bool
    ensures { IsTrue result ↔ AllByRecursion (FitsHeld replicas.now) held.now.entries }
{
    for (id, inode) in held {
        if !fits_held(replicas, *id, inode) {
            return false;
        }
    }
    true
}

/// How many things are held.
fn count_ids(held: &BTreeMap<FileId, Inode>) -> usize
    ensures count { result ≡ length held.now.entries }
    ensures by_id { IsStrictlySortedBy file_cmp (keys_of held.now.entries) }
{
    held.len()
}

/// Whether few enough things are held, and as many have a replica.
fn are_counted(held: &BTreeMap<FileId, Inode>, replicas: &Replicas) -> bool
    ensures test { IsTrue result ↔ AreCounted held.now.entries replicas.now }
    ensures by_id { IsStrictlySortedBy file_cmp (keys_of held.now.entries) }
    ensures by_file { IsStrictlySortedBy file_cmp (keys_of replicas.now) }
{
    let things = count_ids(held);
    let others = replicas.len();
    things <= MOST_COUNTED && things == others
}

/// Whether just what is held has a replica, and all of it fits.
fn fit_beside(held: &BTreeMap<FileId, Inode>, replicas: &Replicas) -> bool
    ensures { IsTrue result ↔ FitReplicas held.now.entries replicas.now }
{
    if !are_counted(held, replicas) {
        return false;
    }
    fit_each_held(replicas, held)
}

/// Whether just what is held has a replica, and all of it fits.
pub(crate) fn fit_replicas(names: &Names, replicas: &Replicas) -> bool
    ensures { IsTrue result ↔ FitReplicas names.now.held replicas.now }
{
    fit_beside(names.as_map(), replicas)
}
