//! Edges with the keys that are not acknowledged, read.

ghost use Rattle.std.specs.Prelude.{◌≡◌, ◌<◌, true, [], None, IfOk};
ghost use Rattle.pg_edges.specs.Key.{key_cmp};
ghost use Rattle.pg_packet_fields.specs.Faults.{Gives};
ghost use Rattle.pg_packet_fields.specs.Lists.{many};
ghost use Rattle.pg_state_fields.specs.Edges.{edge_at, edges_at, keys_at, next_key_at, tagged_at, to_key, to_peer};
ghost use Rattle.pg_state_fields.specs.Orders.{is_behind};

use crate::flags::read_above;
use pg_base::NodeId;
use pg_codec::Reader;
use pg_edges::{Edge, Edges, Key, Keys};
use pg_packet_fields::{PacketError, read_key};
use std::alloc::Global;

fn is_key_behind(last: Option<Key>, key: Key) -> bool
    ensures { result ≡ is_behind key_cmp last key }
{
    match last {
        Some(last) => last.compare(&key).is_lt(),
        None => true,
    }
}

/// A key behind the last one.
#[tactic(auto, unfolding(crate::specs::Edges::next_key_at))]
fn read_next_key(last: Option<Key>, reader: &mut Reader<'_>) -> Result<Key, PacketError>
    ensures read { Gives (λ k. (k, reader.new)) result (next_key_at last reader.old) }
    ensures behind { IfOk result (λ k. is_behind key_cmp last k ≡ true) }
{
    let place = reader.place();
    let key = read_key(reader)?;
    if is_key_behind(last, key) {
        Ok(key)
    } else {
        Err(PacketError::BadTag(place))
    }
}

/// A key behind the last one, and its tag.
#[tactic(auto, unfolding(crate::specs::Edges::tagged_at))]
fn read_tagged(last: Option<Key>, reader: &mut Reader<'_>) -> Result<(Key, u64), PacketError>
    ensures read { Gives (λ e. (e, reader.new)) result (tagged_at last reader.old) }
    ensures behind { IfOk result (λ e. is_behind key_cmp last e.0 ≡ true) }
{
    let key = read_next_key(last, reader)?;
    let tag = reader.u64()?;
    Ok((key, tag))
}

/// So many keys.
fn read_each_key(alloc: Global, count: u32, reader: &mut Reader<'_>) -> Result<Keys, PacketError>
    ensures { Gives (λ ks. (ks, reader.new)) result
        (many tagged_at to_key count None [] reader.old) }
{
    let mut keys = Keys::new(alloc);
    let mut last = None;
    for _ in 0..count {
        let tagged = read_tagged(last, reader)?;
        keys.set(tagged.0, tagged.1)?;
        last = Some(tagged.0);
    }
    Ok(keys)
}

/// A count of keys, and the keys in their order, each with its tag.
#[tactic(auto, unfolding(crate::specs::Edges::keys_at))]
fn read_keys(alloc: Global, reader: &mut Reader<'_>) -> Result<Keys, PacketError>
    ensures { Gives (λ ks. (ks, reader.new)) result (keys_at reader.old) }
{
    let count = reader.u32()?;
    read_each_key(alloc, count, reader)
}

/// An edge to a peer behind the last one; behind 0 it is to any peer.
#[tactic(auto, unfolding(crate::specs::Edges::edge_at))]
fn read_edge(alloc: Global, last: NodeId, reader: &mut Reader<'_>) -> Result<Edge, PacketError>
    ensures read { Gives (λ e. (e, reader.new)) result (edge_at last reader.old) }
    ensures above { IfOk result (λ e. last < e.peer) }
{
    let peer = read_above(last, reader)?;
    let birth = reader.u64()?;
    let keys = read_keys(alloc, reader)?;
    Ok(Edge { peer, birth, keys })
}

/// So many edges.
fn read_each_edge(alloc: Global, count: u8, reader: &mut Reader<'_>) -> Result<Edges, PacketError>
    ensures { Gives (λ es. (es, reader.new)) result (many edge_at to_peer count 0 [] reader.old) }
{
    let mut edges = Edges::new(alloc);
    let mut last = 0;
    for _ in 0..count {
        let edge = read_edge(alloc, last, reader)?;
        last = edge.peer;
        edges.put(edge)?;
    }
    Ok(edges)
}

/// A count of edges, and the edges by peer.
#[tactic(auto, unfolding(crate::specs::Edges::edges_at))]
pub fn read_edges(alloc: Global, reader: &mut Reader<'_>) -> Result<Edges, PacketError>
    ensures { Gives (λ es. (es, reader.new)) result (edges_at reader.old) }
{
    let count = reader.u8()?;
    read_each_edge(alloc, count, reader)
}
