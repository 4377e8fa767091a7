//! What a server asks for of versions that it does not cover, and whom it tells of them.

ghost use Rattle.std.specs.Prelude.{◌≡◌, ◌++◌, IfOk, OnOk, map};
ghost use Rattle.std.specs.List.{flat_map};
ghost use Rattle.pg_base.specs.Version.{stamp_of};
ghost use Rattle.pg_transfer.specs.Asking.{acknowledged, ask, heard_by, listed, offset_of, put_off, rise, told_others};

use pg_base::{FileId, Head, Items, NodeId, Shared, Stamp, Version};
use pg_edges::{Edge, Key};
use pg_pieces::msg::{Ends, Message, Sent, Wanted, Work};
use pg_pieces::store::Store;
use pg_pieces::{ends_to, post, send};
use std::alloc::{AllocError, Global};

/// The most heads that a Want names.
const MOST_HEADS: usize = 256;

/// The stamps of the versions, in their order.
fn stamps_of(alloc: Global, versions: &[Version]) -> Result<Items<Stamp>, AllocError>
    ensures { IfOk result (λ ss. ss ≡ map stamp_of versions.now) }
{
    let mut stamps = Items::new(alloc);
    for version in versions {
        stamps.push(version.head().stamp)?;
    }
    Ok(stamps)
}

/// Whether each of the stamps is before the next.
fn rise(stamps: &[Stamp]) -> bool
    ensures { result ≡ rise stamps.now }
{
    let [first, rest @ ..] = stamps else {
        return true;
    };
    let mut last = *first;
    for stamp in rest {
        if !last.is_before(*stamp) {
            return false;
        }
        last = *stamp;
    }
    true
}

/// The stamps of the heads of a file, where they are few enough to be told and no two are equal.
pub(crate) fn listed(store: &Store, file: &FileId) -> Result<Items<Stamp>, AllocError>
    ensures { IfOk result (λ ss. ss ≡ listed store.now file.now) }
{
    let alloc = store.allocator();
    match store.replica(file) {
        Some(replica) => {
            let heads = replica.content.heads();
            if heads.len() > MOST_HEADS {
                return Ok(Items::new(alloc));
            }
            let stamps = stamps_of(alloc, heads)?;
            if rise(stamps.as_slice()) {
                Ok(stamps)
            } else {
                Ok(Items::new(alloc))
            }
        }
        None => Ok(Items::new(alloc)),
    }
}

/// Asks who sent the message that came for the body of a version, from a byte on.
pub(crate) fn ask(
    store: &Store,
    ends: &Ends,
    stamp: Stamp,
    offset: u32,
    heads: Items<Stamp>,
    work: &mut Work,
) -> Result<(), AllocError>
    ensures { OnOk result (work.new ≡ ask store.now ends.now stamp offset heads work.old) }
{
    let wanted = Wanted {
        stamp,
        offset,
        heads,
    };
    let message = Message::Want {
        ends: ends.back(),
        wanted: Shared::new(store.allocator(), wanted)?,
    };
    post(store, work.from, message, work)?;
    Ok(())
}

/// The first byte of a body that is not among these.
pub(crate) fn offset_of(bytes: &[u8]) -> u32
    ensures { result ≡ offset_of bytes.now }
{
    let count = bytes.len();
    if count < 4_294_967_295 {
        count as u32
    } else {
        4_294_967_295
    }
}

/// Acknowledges a version that is here, where it was announced under a tag.
pub(crate) fn acknowledge(
    store: &Store,
    ends: &Ends,
    stamp: Stamp,
    tag: u64,
    work: &mut Work,
) -> Result<(), AllocError>
    ensures { OnOk result (work.new ≡ acknowledged store.now ends.now stamp tag work.old) }
{
    if tag == 0 {
        return Ok(());
    }
    let ack = Message::Ack {
        ends: ends.back(),
        key: Key::Version(stamp),
        tag,
    };
    post(store, work.from, ack, work)?;
    Ok(())
}

/// Tells the sender of the message that came that the body of a version is not to be had here now.
pub(crate) fn put_off(
    store: &Store,
    ends: &Ends,
    stamp: Stamp,
    work: &mut Work,
) -> Result<(), AllocError>
    ensures { OnOk result (work.new ≡ put_off store.now ends.now stamp work.old) }
{
    let later = Message::Later {
        ends: ends.back(),
        stamp,
    };
    post(store, work.from, later, work)?;
    Ok(())
}

/// A peer hears of a version, unless it told of it itself.
fn tell_peer(
    store: &Store,
    file: FileId,
    from: NodeId,
    head: &Shared<Head>,
    edge: &Edge,
    sent: &mut Items<Sent>,
) -> Result<(), AllocError>
    ensures { OnOk result (sent.new ≡ sent.old ++ heard_by store.now file from head.now edge.now) }
{
    if edge.peer == from {
        return Ok(());
    }
    let message = Message::Harbinger {
        ends: ends_to(store, file, edge.birth),
        tag: 0,
        head: head.copy()?,
    };
    send(store, edge.peer, message, sent)?;
    Ok(())
}

/// Tells each of these peers of a version, but the one that told of it itself.
fn tell_peers(
    store: &Store,
    file: FileId,
    from: NodeId,
    head: &Shared<Head>,
    edges: &[Edge],
    sent: &mut Items<Sent>,
) -> Result<(), AllocError>
    ensures { OnOk result
        (sent.new ≡ sent.old ++ flat_map (heard_by store.now file from head.now) edges.now) }
{
    for edge in edges {
        tell_peer(store, file, from, head, edge, sent)?;
    }
    Ok(())
}

/// Each peer but one hears of a version.
pub(crate) fn tell_others(
    store: &Store,
    file: FileId,
    from: NodeId,
    head: &Shared<Head>,
    work: &mut Work,
) -> Result<(), AllocError>
    ensures { OnOk result (work.new ≡ told_others store.now file from head.now work.old) }
{
    match store.replica(&file) {
        Some(replica) => {
            tell_peers(
                store,
                file,
                from,
                head,
                replica.edges.as_slice(),
                &mut work.sent,
            )?;
            Ok(())
        }
        None => Ok(()),
    }
}
