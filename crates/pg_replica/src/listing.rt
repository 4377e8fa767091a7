//! Changes of one replica that keep the lists of the files to look at.

ghost use Rattle.std.specs.Prelude.{[], ◌≡◌, ◌≢◌, ◌≤◌, ◌+◌, ◌^◌, IfErr, IfOk, None, OnErr, OnOk, Some, length, map, not, true};
ghost use Rattle.pg_base.specs.Version.{stamp_of};
ghost use Rattle.pg_edges.specs.Edges.{drawn, makes_edge};
ghost use Rattle.pg_replica.specs.Replica.{covers, has_room, own_actor, refusal_of, tags_after, with_ack_along, with_link, with_touch, with_unlink, with_version, with_write};
ghost use Rattle.pg_replica.specs.Index.{IsAllClean, KnowsNoEnd, ListsNoFewer, ListsUnless, Relists, with_end, with_keys};
ghost use Rattle.pg_unacked.specs.Changes.{Redues};

use crate::changes::{acknowledge, put_alone, put_head};
use crate::link::Link;
use crate::numbers::{has_end, knows_end};
use crate::replica::Replica;
use pg_base::{FileId, Items, NodeId, Stamp, Version};
use pg_content::WriteError;
use pg_delta::KeptDelta;
use pg_edges::Key;
use pg_patch::Ranges;
use pg_unacked::{Unacked, link_due, touch_due, unlink_due};
use std::alloc::{AllocError, Global};
use std::collections::BTreeMap;

pub(crate) type Files = BTreeMap<FileId, ()>;

/// The files to look at, of those that a server holds.
#[derive(Debug, Drop)]
pub(crate) struct Lists {
    /// The files with unacknowledged keys.
    pub unacknowledged: Files,
    /// The files with a head that knows a number of 2^62 or more, of whichever actor.
    pub ended: Files,
    /// For each peer the keys that it has not acknowledged.
    pub unacked: Unacked,
    alloc: Global,
}

impl Lists {
    /// No file. It takes no memory.
    pub fn new(alloc: Global) -> Lists
        ensures unacknowledged { result.unacknowledged.entries ≡ [] }
        ensures ended { result.ended.entries ≡ [] }
        ensures unacked { result.unacked ≡ [] }
    {
        Lists {
            unacknowledged: BTreeMap::new(alloc),
            ended: BTreeMap::new(alloc),
            unacked: Unacked::new(alloc),
            alloc,
        }
    }
}

/// Lists the file, if the version knows a number of 2^62 or more.
fn list_end(ended: &mut Files, file: FileId, version: &Version) -> Result<(), AllocError>
    ensures ok { OnOk result (ended.new.entries ≡ with_end ended.old.entries file version.now) }
    ensures err { OnErr result (ended.new.entries ≡ ended.old.entries) }
{
    if has_end(&version.head().vector) {
        ended.insert(file, ())?;
    }
    Ok(())
}

/// Lists the file, if the replica has an edge, on which a key that is touched stays until it is
/// acknowledged.
fn list_keys(unacknowledged: &mut Files, file: FileId, replica: &Replica) -> Result<(), AllocError>
    ensures ok { OnOk result (unacknowledged.new.entries
        ≡ with_keys unacknowledged.old.entries file replica.now) }
    ensures err { OnErr result (unacknowledged.new.entries ≡ unacknowledged.old.entries) }
{
    if replica.edges.len() > 0 {
        unacknowledged.insert(file, ())?;
    }
    Ok(())
}

/// Lists the file, if the replica has an unacknowledged key.
fn list_unclean(
    unacknowledged: &mut Files,
    file: FileId,
    replica: &Replica,
) -> Result<(), AllocError>
    ensures listed { OnOk result
        (ListsUnless (IsAllClean replica.now) unacknowledged.new.entries file) }
    ensures more { ListsNoFewer unacknowledged.old.entries unacknowledged.new.entries }
{
    if replica.is_clean() {
        return Ok(());
    }
    unacknowledged.insert(file, ())?;
    Ok(())
}

/// Lists the file, if a head of the replica knows a number of 2^62 or more.
fn list_ended(ended: &mut Files, file: FileId, replica: &Replica) -> Result<(), AllocError>
    ensures listed { OnOk result (ListsUnless (KnowsNoEnd replica.now) ended.new.entries file) }
    ensures more { ListsNoFewer ended.old.entries ended.new.entries }
{
    if !knows_end(replica) {
        return Ok(());
    }
    ended.insert(file, ())?;
    Ok(())
}

/// Lists the file of a replica wherever it is to be listed. After out of memory a part may be done.
pub(crate) fn list_replica(
    lists: &mut Lists,
    file: FileId,
    replica: &Replica,
) -> Result<(), AllocError>
    ensures unacknowledged { OnOk result
        (ListsUnless (IsAllClean replica.now) lists.new.unacknowledged.entries file) }
    ensures ended { OnOk result
        (ListsUnless (KnowsNoEnd replica.now) lists.new.ended.entries file) }
    ensures more { ListsNoFewer lists.old.unacknowledged.entries lists.new.unacknowledged.entries }
    ensures more_ended { ListsNoFewer lists.old.ended.entries lists.new.ended.entries }
    ensures unacked { lists.new.unacked ≡ lists.old.unacked }
{
    list_unclean(&mut lists.unacknowledged, file, replica)?;
    list_ended(&mut lists.ended, file, replica)?;
    Ok(())
}

/// Takes a version, and tells whether it is a head from then on: where it is not covered. `tags` is
/// the next tag to give.
pub(crate) fn take_listed(
    replica: &mut Replica,
    lists: &mut Lists,
    file: FileId,
    version: Version,
    tags: &mut u64,
) -> Result<bool, AllocError>
    requires { tags.old ≤ 2 ^ 63 }
    ensures news { IfOk result (λ news. news ≡ not (covers replica.old version)) }
    ensures replica { OnOk result (replica.new ≡ with_version replica.old version tags.old) }
    ensures tags { OnOk result (tags.new ≡ tags_after replica.old version tags.old) }
    ensures listed { Relists IsAllClean lists.old.unacknowledged.entries
        lists.new.unacknowledged.entries file replica.old replica.new }
    ensures ended { Relists KnowsNoEnd lists.old.ended.entries lists.new.ended.entries file
        replica.old replica.new }
    ensures due { Redues lists.old.unacked lists.new.unacked file replica.old.edges
        replica.new.edges }
{
    if replica.covers(&version) {
        return Ok(false);
    }
    // These are fewer than 2^63, so the tags stay in range.
    let _count = replica.edges.as_slice().len();
    list_keys(&mut lists.unacknowledged, file, replica)?;
    list_end(&mut lists.ended, file, &version)?;
    put_head(
        replica,
        &mut lists.unacked,
        lists.alloc,
        file,
        version,
        tags,
    )?;
    Ok(true)
}

/// Makes a version of what the ranges make of what is shown, and answers the stamps of the heads
/// that it is based on. It is the only head then. `tags` is the next tag to give.
pub(crate) fn write_listed(
    replica: &mut Replica,
    lists: &mut Lists,
    alloc: Global,
    file: FileId,
    stamp: Stamp,
    ranges: &Ranges,
    tags: &mut u64,
) -> Result<Items<Stamp>, WriteError>
    requires tags { tags.old ≤ 2 ^ 63 }
    requires room { has_room replica.old stamp.server ≡ true }
    ensures bases { IfOk result (λ ss. ss ≡ map stamp_of replica.old.content.heads) }
    ensures replica { OnOk result
        (replica.new ≡ with_write replica.old (own_actor replica.old stamp.server) stamp ranges.now
        tags.old) }
    ensures tags { OnOk result (tags.new ≡ tags.old + length replica.old.edges) }
    ensures allowed { OnOk result (refusal_of replica.old stamp.server ranges.now ≡ None) }
    ensures refused { IfErr result (λ e. e ≢ WriteError.OutOfMemory
        → refusal_of replica.old stamp.server ranges.now ≡ Some e) }
    ensures same { IfErr result (λ e. e ≢ WriteError.OutOfMemory
        → (replica.new ≡ replica.old) × (tags.new ≡ tags.old)) }
    ensures listed { Relists IsAllClean lists.old.unacknowledged.entries
        lists.new.unacknowledged.entries file replica.old replica.new }
    ensures ended { Relists KnowsNoEnd lists.old.ended.entries lists.new.ended.entries file
        replica.old replica.new }
    ensures due { Redues lists.old.unacked lists.new.unacked file replica.old.edges
        replica.new.edges }
{
    let version = replica.next_version(stamp, ranges)?;
    let bases = replica.bases(alloc)?;
    let delta = KeptDelta::new(alloc, bases.as_slice(), stamp, ranges)?;
    // These are fewer than 2^63, so the tags stay in range.
    let _count = replica.edges.as_slice().len();
    list_keys(&mut lists.unacknowledged, file, replica)?;
    list_end(&mut lists.ended, file, &version)?;
    put_alone(
        replica,
        &mut lists.unacked,
        lists.alloc,
        file,
        version,
        delta,
        tags,
    )?;
    Ok(bases)
}

/// Touches the key on every edge. `tags` is the next tag to give.
pub(crate) fn touch_listed(
    replica: &mut Replica,
    lists: &mut Lists,
    file: FileId,
    key: Key,
    tags: &mut u64,
) -> Result<(), AllocError>
    requires { tags.old ≤ 2 ^ 63 }
    ensures replica { OnOk result (replica.new ≡ with_touch replica.old key tags.old) }
    ensures tags { OnOk result (tags.new ≡ tags.old + length replica.old.edges) }
    ensures listed { Relists IsAllClean lists.old.unacknowledged.entries
        lists.new.unacknowledged.entries file replica.old replica.new }
    ensures ended { Relists KnowsNoEnd lists.old.ended.entries lists.new.ended.entries file
        replica.old replica.new }
    ensures due { Redues lists.old.unacked lists.new.unacked file replica.old.edges
        replica.new.edges }
{
    // These are fewer than 2^63, so the tags stay in range.
    let _count = replica.edges.as_slice().len();
    list_keys(&mut lists.unacknowledged, file, replica)?;
    let edges = &mut replica.edges;
    touch_due(edges, &mut lists.unacked, lists.alloc, file, key, tags)?;
    Ok(())
}

/// Links a birth of a peer, and tells whether that made an edge, on which each of these keys has a
/// fresh tag. `tags` is the next tag to give.
pub(crate) fn link_listed(
    replica: &mut Replica,
    lists: &mut Lists,
    file: FileId,
    peer: NodeId,
    birth: u64,
    keys: &[Key],
    tags: &mut u64,
) -> Result<bool, AllocError>
    requires { tags.old ≤ 2 ^ 63 }
    ensures made { IfOk result (λ made. made ≡ makes_edge replica.old.edges peer birth) }
    ensures replica { OnOk result
        (replica.new ≡ with_link replica.old peer birth keys.now tags.old) }
    ensures tags { OnOk result (tags.new ≡ tags.old + drawn replica.old.edges peer birth keys.now) }
    ensures listed { Relists IsAllClean lists.old.unacknowledged.entries
        lists.new.unacknowledged.entries file replica.old replica.new }
    ensures ended { Relists KnowsNoEnd lists.old.ended.entries lists.new.ended.entries file
        replica.old replica.new }
    ensures due { Redues lists.old.unacked lists.new.unacked file replica.old.edges
        replica.new.edges }
{
    if !replica.edges.makes_edge(peer, birth) {
        return Ok(false);
    }
    lists.unacknowledged.insert(file, ())?;
    link_due(
        &mut replica.edges,
        &mut lists.unacked,
        lists.alloc,
        file,
        (peer, birth),
        keys,
        tags,
    )
}

/// The edge to a peer goes, where it is listed with this birth.
pub(crate) fn unlink_listed(
    replica: &mut Replica,
    lists: &mut Lists,
    file: FileId,
    peer: NodeId,
    birth: u64,
)
    ensures replica { replica.new ≡ with_unlink replica.old peer birth }
    ensures listed { Relists IsAllClean lists.old.unacknowledged.entries
        lists.new.unacknowledged.entries file replica.old replica.new }
    ensures ended { Relists KnowsNoEnd lists.old.ended.entries lists.new.ended.entries file
        replica.old replica.new }
    ensures due { Redues lists.old.unacked lists.new.unacked file replica.old.edges
        replica.new.edges }
{
    unlink_due(&mut replica.edges, &mut lists.unacked, file, peer, birth);
    if replica.is_clean() {
        lists.unacknowledged.remove(&file);
    }
}

/// An answer that came along an edge takes the key off where the tag is the present one there.
pub(crate) fn acknowledge_listed(
    replica: &mut Replica,
    lists: &mut Lists,
    file: FileId,
    link: &Link,
    key: Key,
    tag: u64,
)
    ensures replica { replica.new ≡ with_ack_along replica.old link.now key tag }
    ensures listed { Relists IsAllClean lists.old.unacknowledged.entries
        lists.new.unacknowledged.entries file replica.old replica.new }
    ensures ended { Relists KnowsNoEnd lists.old.ended.entries lists.new.ended.entries file
        replica.old replica.new }
    ensures due { Redues lists.old.unacked lists.new.unacked file replica.old.edges
        replica.new.edges }
{
    if !acknowledge(replica, &mut lists.unacked, file, link, key, tag) {
        return;
    }
    if replica.is_clean() {
        lists.unacknowledged.remove(&file);
    }
}
