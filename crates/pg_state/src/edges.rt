//! Edges, written.

ghost use Rattle.std.specs.Prelude.{◌≡◌, ◌<◌, ◌^◌, ◌++◌, OnOk, length};
ghost use Rattle.std.specs.List.{AllByRecursion, flat_map};
ghost use Rattle.pg_packet_write.specs.Fields.{listed};
ghost use Rattle.pg_state.specs.Fits.{FitEdges, FitsEdge};
ghost use Rattle.pg_state.specs.Spelling.{edge_bytes, tagged_bytes};

use pg_base::Bytes;
use pg_codec::{write_u8, write_u32, write_u64};
use pg_edges::{Edge, Edges, Key, Keys};
use pg_packet_write::write_key;
use std::alloc::AllocError;

#[tactic(auto, unfolding(crate::specs::Spelling::tagged_bytes))]
fn write_tagged(tagged: &(Key, u64), out: &mut Bytes) -> Result<(), AllocError>
    ensures { OnOk result (out.new ≡ out.old ++ tagged_bytes tagged.now) }
{
    write_key(&tagged.0, out)?;
    write_u64(tagged.1, out)
}

fn write_each_tagged(keys: &[(Key, u64)], out: &mut Bytes) -> Result<(), AllocError>
    ensures { OnOk result (out.new ≡ out.old ++ flat_map tagged_bytes keys.now) }
{
    for tagged in keys {
        write_tagged(tagged, out)?;
    }
    Ok(())
}

/// The keys that the peer has not acknowledged, each with its tag.
#[tactic(auto, unfolding(pg_packet_write::specs::Fields::listed))]
fn write_keys(keys: &Keys, out: &mut Bytes) -> Result<(), AllocError>
    requires { length keys.now < 2 ^ 32 }
    ensures { OnOk result (out.new ≡ out.old ++ listed 4 tagged_bytes keys.now) }
{
    write_u32(keys.len() as u32, out)?;
    write_each_tagged(keys.as_slice(), out)
}

#[tactic(auto, unfolding(crate::specs::Spelling::edge_bytes))]
fn write_edge(edge: &Edge, out: &mut Bytes) -> Result<(), AllocError>
    requires { FitsEdge edge.now }
    ensures { OnOk result (out.new ≡ out.old ++ edge_bytes edge.now) }
{
    write_u32(edge.peer, out)?;
    write_u64(edge.birth, out)?;
    write_keys(&edge.keys, out)
}

fn write_each_edge(edges: &[Edge], out: &mut Bytes) -> Result<(), AllocError>
    requires { AllByRecursion FitsEdge edges.now }
    ensures { OnOk result (out.new ≡ out.old ++ flat_map edge_bytes edges.now) }
{
    for edge in edges {
        write_edge(edge, out)?;
    }
    Ok(())
}

/// The edges of a replica, by peer.
#[tactic(auto, unfolding(pg_packet_write::specs::Fields::listed))]
pub(crate) fn write_edges(edges: &Edges, out: &mut Bytes) -> Result<(), AllocError>
    requires { FitEdges edges.now }
    ensures { OnOk result (out.new ≡ out.old ++ listed 1 edge_bytes edges.now) }
{
    write_u8(edges.len() as u8, out)?;
    write_each_edge(edges.as_slice(), out)
}
