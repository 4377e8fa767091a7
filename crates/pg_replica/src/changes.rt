//! Changes of one replica, with which keys of its file are due to peers.
//!
//! Where memory runs out in the middle of one, all edges of the replica go, and with them all that
//! is due of its file.

ghost use Rattle.std.specs.Prelude.{[], ◌∷◌, ◌≡◌, ◌<◌, ◌+◌, ◌^◌, OnErr, OnOk, false, length};
ghost use Rattle.pg_content.specs.Content.{with_heads};
ghost use Rattle.pg_delta.specs.Kept.{with_delta};
ghost use Rattle.pg_unacked.specs.Changes.{Redues};
ghost use Rattle.pg_replica.specs.Replica.{covers, with_ack_along, with_head, with_only};

use crate::link::Link;
use crate::replica::Replica;
use crate::retiring::{key_of, retire_all, retire_replaced};
use pg_base::{FileId, Version};
use pg_delta::KeptDelta;
use pg_edges::Key;
use pg_unacked::{Unacked, acknowledge_due, exchange_due, let_go, touch_due};
use std::alloc::{AllocError, Global};

/// Brings in a version that is not covered, with all that its vector covers, and touches its key on
/// every edge. `tags` is the next tag to give. After out of memory the content is as before, and
/// the replica has no edge.
pub(crate) fn put_head(
    replica: &mut Replica,
    unacked: &mut Unacked,
    alloc: Global,
    file: FileId,
    version: Version,
    tags: &mut u64,
) -> Result<(), AllocError>
    requires tags { tags.old + length replica.old.edges < 2 ^ 64 }
    requires news { covers replica.old version ≡ false }
    ensures replica { OnOk result (replica.new ≡ with_head replica.old version tags.old) }
    ensures tags { OnOk result (tags.new ≡ tags.old + length replica.old.edges) }
    ensures err { OnErr result (replica.new.content ≡ replica.old.content) }
    ensures no_edge { length replica.old.edges ≡ 0 → length replica.new.edges ≡ 0 }
    ensures due { Redues unacked.old unacked.new file replica.old.edges replica.new.edges }
{
    retire_replaced(
        &mut replica.edges,
        unacked,
        file,
        &replica.content,
        &version,
    );
    let key = key_of(&version);
    touch_due(&mut replica.edges, unacked, alloc, file, key, tags)?;
    if let Err(e) = replica.content.put_head(version) {
        let_go(&mut replica.edges, unacked, alloc, file);
        return Err(e);
    }
    Ok(())
}

/// The version is the only head, the delta that made it is kept, and its key is touched on every
/// edge. `tags` is the next tag to give. After out of memory the content is as before, and the
/// replica has no edge.
pub(crate) fn put_alone(
    replica: &mut Replica,
    unacked: &mut Unacked,
    alloc: Global,
    file: FileId,
    version: Version,
    delta: KeptDelta,
    tags: &mut u64,
) -> Result<(), AllocError>
    requires { tags.old + length replica.old.edges < 2 ^ 64 }
    ensures replica { OnOk result (replica.new ≡ with_only replica.old version delta tags.old) }
    ensures tags { OnOk result (tags.new ≡ tags.old + length replica.old.edges) }
    ensures err { OnErr result (replica.new.content ≡ replica.old.content) }
    ensures no_edge { length replica.old.edges ≡ 0 → length replica.new.edges ≡ 0 }
    ensures due { Redues unacked.old unacked.new file replica.old.edges replica.new.edges }
{
    retire_all(&mut replica.edges, unacked, file, replica.content.heads());
    let key = key_of(&version);
    touch_due(&mut replica.edges, unacked, alloc, file, key, tags)?;
    match keep_alone(replica, version, delta) {
        Ok(()) => Ok(()),
        Err(e) => {
            let_go(&mut replica.edges, unacked, alloc, file);
            Err(e)
        }
    }
}

/// The version is the only head, and the delta that made it is kept. After out of memory the
/// content is as before.
fn keep_alone(replica: &mut Replica, version: Version, delta: KeptDelta) -> Result<(), AllocError>
    ensures content { OnOk result
        (replica.new.content ≡ with_heads replica.old.content (version ∷ [])) }
    ensures kept { OnOk result (replica.new.kept ≡ with_delta replica.old.kept delta) }
    ensures err { OnErr result (replica.new.content ≡ replica.old.content) }
    ensures birth { replica.new.birth ≡ replica.old.birth }
    ensures edges { replica.new.edges ≡ replica.old.edges }
{
    replica.kept.keep(delta)?;
    replica.content.put_alone(version)?;
    Ok(())
}

/// An answer that came along an edge takes the key off where the tag is the present one there, and
/// says whether it did.
pub(crate) fn acknowledge(
    replica: &mut Replica,
    unacked: &mut Unacked,
    file: FileId,
    link: &Link,
    key: Key,
    tag: u64,
) -> bool
    ensures replica { replica.new ≡ with_ack_along replica.old link.now key tag }
    ensures same { result ≡ false → replica.new ≡ replica.old }
    ensures due { Redues unacked.old unacked.new file replica.old.edges replica.new.edges }
{
    if link.own != replica.birth {
        return false;
    }
    let edges = &mut replica.edges;
    acknowledge_due(edges, unacked, file, link.peer, link.birth, key, tag)
}

/// Another replica comes in the place of the one that is held. After out of memory all is as
/// before.
pub(crate) fn replace(
    held: &mut Replica,
    unacked: &mut Unacked,
    file: FileId,
    replica: Replica,
) -> Result<(), AllocError>
    ensures ok { OnOk result (held.new ≡ replica) }
    ensures err { OnErr result (held.new ≡ held.old) }
    ensures due { Redues unacked.old unacked.new file held.old.edges held.new.edges }
{
    exchange_due(unacked, file, &held.edges, &replica.edges)?;
    *held = replica;
    Ok(())
}
