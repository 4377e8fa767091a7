//! The replica of the root that a server has from the start on.

ghost use Rattle.std.specs.Prelude.{◌≡◌, IfOk, OnOk};
ghost use Rattle.pg_replica.specs.Root.{clean_edges, first_root, with_clean};

use crate::replica::Replica;
use pg_base::{NodeId, Policy};
use pg_edges::{Edge, Edges, Keys};
use std::alloc::{AllocError, Global};

/// The birth of the root's first replica.
pub const FIRST_BIRTH: u64 = 1;

/// A clean edge more, if the peer is another server.
fn add_clean(
    alloc: Global,
    server: NodeId,
    peer: NodeId,
    edges: &mut Edges,
) -> Result<(), AllocError>
    ensures { OnOk result (edges.new ≡ with_clean server peer edges.old) }
{
    if peer == server {
        return Ok(());
    }
    edges.put(Edge {
        peer,
        birth: FIRST_BIRTH,
        keys: Keys::new(alloc),
    })?;
    Ok(())
}

/// A clean edge to the first birth of each other server.
fn clean_edges(alloc: Global, server: NodeId, servers: u32) -> Result<Edges, AllocError>
    ensures { IfOk result (λ edges. edges ≡ clean_edges server servers) }
{
    let mut edges = Edges::new(alloc);
    for k in 0..servers {
        add_clean(alloc, server, k + 1, &mut edges)?;
    }
    Ok(edges)
}

/// The first replica of the root: it has a clean edge to that of each other server.
pub fn first_root(alloc: Global, server: NodeId, servers: u32) -> Result<Replica, AllocError>
    ensures { IfOk result (λ root. root ≡ first_root server servers) }
{
    let mut root = Replica::new(alloc, FIRST_BIRTH, Policy::Last);
    root.edges = clean_edges(alloc, server, servers)?;
    Ok(root)
}
