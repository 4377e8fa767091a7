//! What is held, written.

ghost use Rattle.std.specs.Prelude.{◌≡◌, ◌++◌, OnOk};
ghost use Rattle.std.specs.List.{AllByRecursion, flat_map};
ghost use Rattle.pg_packet_write.specs.Fields.{listed};
ghost use Rattle.pg_state.specs.Fits.{FitHeads, FitKept, FitReplicas, FitsHeld, FitsInside, FitsReplica};
ghost use Rattle.pg_state.specs.Spelling.{content_bytes, held_bytes, inside_bytes, replica_bytes};

use crate::contents::{write_children, write_deltas, write_heads};
use crate::edges::write_edges;
use pg_base::{Bytes, FileId, Kind};
use pg_codec::{write_file, write_flag, write_u32, write_u64};
use pg_names::{Inode, Names};
use pg_packet_write::{write_golds, write_place, write_policy};
use pg_replica::{Replica, Replicas};
use std::alloc::AllocError;
use std::collections::BTreeMap;

/// The heads and the kept deltas of a file.
#[tactic(auto, unfolding(crate::specs::Spelling::content_bytes))]
fn write_content(replica: &Replica, out: &mut Bytes) -> Result<(), AllocError>
    requires heads { FitHeads replica.now.content.heads }
    requires kept { FitKept replica.now.kept }
    ensures { OnOk result (out.new ≡ out.old ++ content_bytes replica.now) }
{
    write_heads(replica.content.heads(), out)?;
    write_deltas(&replica.kept, out)
}

/// The entries of a directory, or the content of a file.
#[tactic(auto, unfolding(crate::specs::Spelling::inside_bytes))]
fn write_inside(
    kind: Kind,
    held: &Inode,
    replica: &Replica,
    out: &mut Bytes,
) -> Result<(), AllocError>
    requires { FitsInside kind held.now replica.now }
    ensures { OnOk result (out.new ≡ out.old ++ inside_bytes kind held.now replica.now) }
{
    match kind {
        Kind::Dir => write_children(held.entries(), out),
        Kind::File => write_content(replica, out),
    }
}

#[tactic(auto, unfolding(crate::specs::Spelling::replica_bytes))]
fn write_replica(
    id: FileId,
    held: &Inode,
    replica: &Replica,
    out: &mut Bytes,
) -> Result<(), AllocError>
    requires { FitsReplica id held.now replica.now }
    ensures { OnOk result (out.new ≡ out.old ++ replica_bytes id held.now replica.now) }
{
    let own = held.own();
    write_file(id, out)?;
    write_u64(replica.birth, out)?;
    write_policy(replica.content.policy(), out)?;
    write_flag(held.is_full(), out)?;
    write_place(&own.place, out)?;
    write_golds(&own.flags, out)?;
    write_inside(id.kind, held, replica, out)?;
    write_edges(&replica.edges, out)
}

/// A thing that is held, with its replica.
#[tactic(auto, unfolding(crate::specs::Spelling::held_bytes))]
fn write_held(
    replicas: &Replicas,
    id: FileId,
    held: &Inode,
    out: &mut Bytes,
) -> Result<(), AllocError>
    requires { FitsHeld replicas.now (id, held.now) }
    ensures { OnOk result (out.new ≡ out.old ++ held_bytes replicas.now (id, held.now)) }
{
    let Some(replica) = replicas.get(&id) else {
        unreachable!();
    };
    write_replica(id, held, replica, out)
}

fn write_each_held(
    replicas: &Replicas,
    held: &BTreeMap<FileId, Inode>,
    out: &mut Bytes,
) -> Result<(), AllocError>
    requires { AllByRecursion (FitsHeld replicas.now) held.now.entries }
    ensures { OnOk result
        (out.new ≡ out.old ++ flat_map (held_bytes replicas.now) held.now.entries) }
{
    for (id, inode) in held {
        write_held(replicas, *id, inode, out)?;
    }
    Ok(())
}

/// All that is held, by id.
#[tactic(auto, unfolding(pg_packet_write::specs::Fields::listed))]
pub(crate) fn write_replicas(
    names: &Names,
    replicas: &Replicas,
    out: &mut Bytes,
) -> Result<(), AllocError>
    requires { FitReplicas names.now.held replicas.now }
    ensures { OnOk result
        (out.new ≡ out.old ++ listed 4 (held_bytes replicas.now) names.now.held) }
{
    let held = names.as_map();
    write_u32(held.len() as u32, out)?;
    write_each_held(replicas, held, out)
}
