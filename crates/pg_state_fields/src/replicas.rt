//! Replicas with what is known of the names of what they are of, read.

ghost use Rattle.std.specs.Prelude.{◌≡◌, [], None};
ghost use Rattle.pg_packet_fields.specs.Faults.{Gives};
ghost use Rattle.pg_packet_fields.specs.Lists.{many};
ghost use Rattle.pg_state_fields.specs.Replicas.{all_held_at, back_at, front_at, held_at, held_with, inside_at, is_policy_of, policy_of_at, to_held, with_entries, with_heads};

use crate::contents::{read_deltas, read_heads};
use crate::edges::read_edges;
use crate::flags::{read_entries, read_own};
use crate::orders::read_next_file;
use pg_base::{FileId, Items, Kind, Policy};
use pg_codec::Reader;
use pg_content::Content;
use pg_delta::KeptDeltas;
use pg_edges::Edges;
use pg_entries::Entry;
use pg_names::Attributes;
use pg_packet_fields::{PacketError, read_policy};
use pg_replica::Replica;
use std::alloc::Global;

/// How a replica begins.
#[derive(Clone, Copy, Debug)]
pub struct Front {
    pub file: FileId,
    pub birth: u64,
    pub policy: Policy,
    pub full: bool,
}

/// What a replica holds: of a directory entries, of a file heads and kept deltas.
#[derive(Debug, Drop)]
pub struct Inside {
    pub entries: Items<Entry>,
    pub content: Content,
    pub kept: KeptDeltas,
}

/// A replica, with what is known of the names of what it is of.
#[derive(Debug, Drop)]
pub struct Held {
    pub file: FileId,
    pub full: bool,
    pub own: Attributes,
    pub entries: Items<Entry>,
    pub replica: Replica,
}

fn is_policy_of(kind: Kind, policy: Policy) -> bool
    ensures { result ≡ is_policy_of kind policy }
{
    match kind {
        Kind::Dir => match policy {
            Policy::Last => true,
            Policy::Join => false,
        },
        Kind::File => true,
    }
}

/// The policy of a file; of a directory it is the first one.
#[tactic(auto, unfolding(crate::specs::Replicas::policy_of_at))]
fn read_policy_of(kind: Kind, reader: &mut Reader<'_>) -> Result<Policy, PacketError>
    ensures { Gives (λ p. (p, reader.new)) result (policy_of_at kind reader.old) }
{
    let place = reader.place();
    let policy = read_policy(reader)?;
    if is_policy_of(kind, policy) {
        Ok(policy)
    } else {
        Err(PacketError::BadTag(place))
    }
}

/// How a replica begins, of a file or directory behind the last one.
#[tactic(auto, unfolding(crate::specs::Replicas::front_at))]
fn read_front(last: Option<FileId>, reader: &mut Reader<'_>) -> Result<Front, PacketError>
    ensures { Gives (λ f. (f, reader.new)) result (front_at last reader.old) }
{
    let file = read_next_file(last, reader)?;
    let birth = reader.u64()?;
    let policy = read_policy_of(file.kind, reader)?;
    let full = reader.flag()?;
    Ok(Front {
        file,
        birth,
        policy,
        full,
    })
}

/// What a directory lists.
fn with_entries(alloc: Global, policy: Policy, entries: Items<Entry>) -> Inside
    ensures { result ≡ with_entries policy entries }
{
    Inside {
        entries,
        content: Content::new(alloc, policy),
        kept: KeptDeltas::new(alloc),
    }
}

/// The heads and the kept deltas of a file.
#[tactic(auto, unfolding(crate::specs::Replicas::inside_at))]
fn read_file(alloc: Global, policy: Policy, reader: &mut Reader<'_>) -> Result<Inside, PacketError>
    ensures { Gives (λ i. (i, reader.new)) result (inside_at Kind.File policy reader.old) }
{
    let heads = read_heads(alloc, reader)?;
    let kept = read_deltas(alloc, reader)?;
    Ok(Inside {
        entries: Items::new(alloc),
        content: Content::from_parts(policy, heads.into_vec()),
        kept: KeptDeltas::from_parts(kept),
    })
}

/// What a replica holds.
#[tactic(auto, unfolding(crate::specs::Replicas::inside_at))]
fn read_inside(
    alloc: Global,
    kind: Kind,
    policy: Policy,
    reader: &mut Reader<'_>,
) -> Result<Inside, PacketError>
    ensures { Gives (λ i. (i, reader.new)) result (inside_at kind policy reader.old) }
{
    match kind {
        Kind::Dir => {
            let entries = read_entries(alloc, reader)?;
            Ok(with_entries(alloc, policy, entries))
        }
        Kind::File => read_file(alloc, policy, reader),
    }
}

/// The place, the flags and the edges of a replica, with what it holds.
#[tactic(auto, unfolding(crate::specs::Replicas::back_at))]
fn read_back(
    alloc: Global,
    kind: Kind,
    policy: Policy,
    reader: &mut Reader<'_>,
) -> Result<(Attributes, (Inside, Edges)), PacketError>
    ensures { Gives (λ b. (b, reader.new)) result (back_at kind policy reader.old) }
{
    let own = read_own(alloc, reader)?;
    let inside = read_inside(alloc, kind, policy, reader)?;
    let edges = read_edges(alloc, reader)?;
    Ok((own, (inside, edges)))
}

fn held_with(front: Front, own: Attributes, inside: Inside, edges: Edges) -> Held
    ensures { result ≡ held_with front own inside edges }
{
    Held {
        file: front.file,
        full: front.full,
        own,
        entries: inside.entries,
        replica: Replica {
            birth: front.birth,
            content: inside.content,
            kept: inside.kept,
            edges,
        },
    }
}

/// A replica of a file or directory behind the last one.
#[tactic(auto, unfolding(crate::specs::Replicas::held_at))]
fn read_held(
    alloc: Global,
    last: Option<FileId>,
    reader: &mut Reader<'_>,
) -> Result<Held, PacketError>
    ensures { Gives (λ h. (h, reader.new)) result (held_at last reader.old) }
{
    let front = read_front(last, reader)?;
    let (own, (inside, edges)) = read_back(alloc, front.file.kind, front.policy, reader)?;
    Ok(held_with(front, own, inside, edges))
}

/// So many replicas.
fn read_each_held(
    alloc: Global,
    count: u32,
    reader: &mut Reader<'_>,
) -> Result<Items<Held>, PacketError>
    ensures { Gives (λ hs. (hs, reader.new)) result
        (many held_at to_held count None [] reader.old) }
{
    let mut all = Items::new(alloc);
    let mut last = None;
    for _ in 0..count {
        let held = read_held(alloc, last, reader)?;
        last = Some(held.file);
        all.push(held)?;
    }
    Ok(all)
}

/// A count of replicas, and the replicas by id.
#[tactic(auto, unfolding(crate::specs::Replicas::all_held_at))]
pub fn read_all_held(alloc: Global, reader: &mut Reader<'_>) -> Result<Items<Held>, PacketError>
    ensures { Gives (λ hs. (hs, reader.new)) result (all_held_at reader.old) }
{
    let count = reader.u32()?;
    read_each_held(alloc, count, reader)
}
