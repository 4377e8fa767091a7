//! Changes of the edges of a file's replica, with which keys of the file are due to peers.
//!
//! Where memory runs out in the middle of one, all edges go, and with them all that is due of the
//! file.

ghost use Rattle.std.specs.Prelude.{[], ◌≡◌, ◌≤◌, ◌<◌, ◌+◌, ◌^◌, IfOk, OnOk, false, true, length};
ghost use Rattle.pg_edges.specs.Edges.{acked, drawn, linked, makes_edge, retired, touched, unlinked};
ghost use Rattle.pg_unacked.specs.Changes.{AreDueOf, OthersStay, Redues};

use crate::due::Due;
use crate::owing::{add_key, add_keys, drop_key};
use crate::unacked::Unacked;
use pg_base::{FileId, NodeId};
use pg_edges::{Edges, Key};
use std::alloc::{AllocError, Global};

/// No edge is left, and nothing is due of the file. It takes no memory.
pub fn let_go(edges: &mut Edges, unacked: &mut Unacked, alloc: Global, file: FileId)
    ensures edges { edges.new ≡ [] }
    ensures others { OthersStay unacked.old unacked.new file }
    ensures own { AreDueOf unacked.new file edges.new }
{
    unacked.forget(&file);
    *edges = Edges::new(alloc);
}

/// Touches the key on every edge. `tags` is the next tag to give. Where there is no edge nothing is
/// done, and so nothing fails. After out of memory there is no edge.
pub fn touch_due(
    edges: &mut Edges,
    unacked: &mut Unacked,
    alloc: Global,
    file: FileId,
    key: Key,
    tags: &mut u64,
) -> Result<(), AllocError>
    requires { tags.old + length edges.old < 2 ^ 64 }
    ensures edges { OnOk result (edges.new ≡ touched edges.old key tags.old) }
    ensures tags { OnOk result (tags.new ≡ tags.old + length edges.old) }
    ensures no_edge { length edges.old ≡ 0 → length edges.new ≡ 0 }
    ensures due { Redues unacked.old unacked.new file edges.old edges.new }
{
    if edges.len() == 0 {
        return Ok(());
    }
    match try_touch(edges, unacked, file, key, tags) {
        Ok(()) => Ok(()),
        Err(e) => {
            let_go(edges, unacked, alloc, file);
            Err(e)
        }
    }
}

fn try_touch(
    edges: &mut Edges,
    unacked: &mut Unacked,
    file: FileId,
    key: Key,
    tags: &mut u64,
) -> Result<(), AllocError>
    requires { tags.old + length edges.old < 2 ^ 64 }
    ensures edges { OnOk result (edges.new ≡ touched edges.old key tags.old) }
    ensures tags { OnOk result (tags.new ≡ tags.old + length edges.old) }
    ensures others { OthersStay unacked.old unacked.new file }
    ensures due { OnOk result (Redues unacked.old unacked.new file edges.old edges.new) }
{
    add_key(unacked, file, key, edges.as_slice())?;
    edges.touch(key, tags)?;
    Ok(())
}

/// Links a birth of a peer that makes an edge, and tells that it did. Each of the keys has a fresh
/// tag there. `tags` is the next tag to give. After out of memory there is no edge.
pub fn link_due(
    edges: &mut Edges,
    unacked: &mut Unacked,
    alloc: Global,
    file: FileId,
    link: (NodeId, u64),
    keys: &[Key],
    tags: &mut u64,
) -> Result<bool, AllocError>
    requires tags { tags.old ≤ 2 ^ 63 }
    requires makes { makes_edge edges.old link.0 link.1 ≡ true }
    ensures made { IfOk result (λ made. made ≡ makes_edge edges.old link.0 link.1) }
    ensures edges { OnOk result (edges.new ≡ linked edges.old link.0 link.1 keys.now tags.old) }
    ensures tags { OnOk result (tags.new ≡ tags.old + drawn edges.old link.0 link.1 keys.now) }
    ensures due { Redues unacked.old unacked.new file edges.old edges.new }
{
    match try_link(edges, unacked, file, link, keys, tags) {
        Ok(made) => Ok(made),
        Err(e) => {
            let_go(edges, unacked, alloc, file);
            Err(e)
        }
    }
}

/// The edge to the peer is a new one, so what was due along an older one goes first.
fn try_link(
    edges: &mut Edges,
    unacked: &mut Unacked,
    file: FileId,
    link: (NodeId, u64),
    keys: &[Key],
    tags: &mut u64,
) -> Result<bool, AllocError>
    requires tags { tags.old ≤ 2 ^ 63 }
    requires makes { makes_edge edges.old link.0 link.1 ≡ true }
    ensures made { IfOk result (λ made. made ≡ makes_edge edges.old link.0 link.1) }
    ensures edges { OnOk result (edges.new ≡ linked edges.old link.0 link.1 keys.now tags.old) }
    ensures tags { OnOk result (tags.new ≡ tags.old + drawn edges.old link.0 link.1 keys.now) }
    ensures others { OthersStay unacked.old unacked.new file }
    ensures due { OnOk result (Redues unacked.old unacked.new file edges.old edges.new) }
{
    unacked.remove_file(link.0, &file);
    add_keys(unacked, file, link.0, keys)?;
    // These are fewer than 2^63, so the tags stay in range.
    let _count = keys.len();
    let made = edges.link(link.0, link.1, keys, tags)?;
    Ok(made)
}

/// The edge to a peer goes, where it is listed with this birth.
pub fn unlink_due(edges: &mut Edges, unacked: &mut Unacked, file: FileId, peer: NodeId, birth: u64)
    ensures edges { edges.new ≡ unlinked edges.old peer birth }
    ensures due { Redues unacked.old unacked.new file edges.old edges.new }
{
    if edges.is_listed(peer, birth) {
        edges.take_out(peer);
        unacked.remove_file(peer, &file);
    }
}

/// The key leaves every edge.
pub fn retire_due(edges: &mut Edges, unacked: &mut Unacked, file: FileId, key: Key)
    ensures edges { edges.new ≡ retired edges.old key }
    ensures due { Redues unacked.old unacked.new file edges.old edges.new }
{
    drop_key(unacked, file, key, edges.as_slice());
    edges.retire(key);
}

/// An answer takes the key off the edge to a peer where the peer is listed with this birth and the
/// tag is the present one there, and says whether it did.
pub fn acknowledge_due(
    edges: &mut Edges,
    unacked: &mut Unacked,
    file: FileId,
    peer: NodeId,
    birth: u64,
    key: Key,
    tag: u64,
) -> bool
    ensures edges { edges.new ≡ acked edges.old peer birth key tag }
    ensures same { result ≡ false → edges.new ≡ edges.old }
    ensures due { Redues unacked.old unacked.new file edges.old edges.new }
{
    if !edges.ack(peer, birth, key, tag) {
        return false;
    }
    unacked.remove(peer, &Due { file, key });
    true
}
