//! What a server shows of a file or directory that it holds.

ghost use Rattle.std.specs.Prelude.{◌≡◌, ◌++◌, IfOk, OnOk, map};
ghost use Rattle.pg_base.specs.Version.{stamp_of};
ghost use Rattle.pg_run.specs.Quiet.{has_some};
ghost use Rattle.pg_trace.specs.JournalLine.{ArePrinted, journal_spelling};
ghost use Rattle.pg_replay.specs.Shown.{HoldsSuited, contents_at, contents_of, file_contents, held_lines, no_content, shown_of};

use pg_base::{Bytes, FileId, Items, Kind, NodeId, SharedBytes, Stamp, Version};
use pg_content::Content;
use pg_names::Inode;
use pg_store::Store;
use pg_trace::{ShownContent, ShownReplica, write_replica};
use std::alloc::{AllocError, Global};

/// The most bytes that are shown of a file.
const SHOWN: u32 = 16;

/// Writes what a server shows of this, and says whether it holds it.
pub(crate) fn write_held(
    server: NodeId,
    id: FileId,
    store: &Store,
    out: &mut Bytes,
) -> Result<bool, AllocError>
    ensures text { OnOk result (out.new
        ≡ out.old ++ journal_spelling (held_lines server store.now id)) }
    ensures any { IfOk result (λ any. any ≡ has_some (held_lines server store.now id)) }
    ensures spelled { OnOk result (HoldsSuited store.now id
        → ArePrinted (held_lines server store.now id)) }
{
    let Some(held) = store.names.get(&id) else {
        return Ok(false);
    };
    let shown = shown_of(server, id, store, held)?;
    write_replica(&shown, out)?;
    Ok(true)
}

fn shown_of(
    server: NodeId,
    id: FileId,
    store: &Store,
    held: &Inode,
) -> Result<ShownReplica, AllocError>
    ensures { IfOk result (λ shown. shown ≡ shown_of server store.now id held.now) }
{
    let own = held.own();
    Ok(ShownReplica {
        server,
        id,
        gold: own.flags.is_raised(server, store.birth(&id)),
        full: held.is_full(),
        place: own.place.copy()?,
        contents: contents_at(id, store, held)?,
    })
}

fn contents_at(id: FileId, store: &Store, held: &Inode) -> Result<ShownContent, AllocError>
    ensures { IfOk result (λ shown. shown ≡ contents_at store.now id id.kind held.now) }
{
    match id.kind {
        Kind::Dir => Ok(ShownContent::Dir(held.entries().count_listed(id) as u64)),
        Kind::File => file_contents(store, &id),
    }
}

fn file_contents(store: &Store, id: &FileId) -> Result<ShownContent, AllocError>
    ensures { IfOk result (λ shown. shown ≡ file_contents store.now id.now) }
{
    match store.replica(id) {
        Some(replica) => contents_of(store.allocator(), &replica.content),
        None => no_contents(store.allocator()),
    }
}

/// The stamps of the heads, how many bytes are shown, and the first 16 of them.
fn contents_of(alloc: Global, content: &Content) -> Result<ShownContent, AllocError>
    ensures { IfOk result (λ shown. shown ≡ contents_of content.now) }
{
    let first = content.view(0, SHOWN)?.into_vec();
    Ok(ShownContent::File {
        heads: Items::from_vec(stamps_of(alloc, content.heads())?),
        length: content.length(),
        first: SharedBytes::from_vec(alloc, first)?,
    })
}

/// The content that has no head: no stamp, and no byte.
fn no_contents(alloc: Global) -> Result<ShownContent, AllocError>
    ensures { IfOk result (λ shown. shown ≡ no_content) }
{
    Ok(ShownContent::File {
        heads: Items::new(alloc),
        length: 0,
        first: SharedBytes::from_vec(alloc, Vec::new(alloc))?,
    })
}

/// The stamps of some versions, in their order.
fn stamps_of(alloc: Global, versions: &[Version]) -> Result<Vec<Stamp>, AllocError>
    ensures { IfOk result (λ s. s.items ≡ map stamp_of versions.now) }
{
    versions
        .iter()
        .map(|version| version.head().stamp)
        .collect(alloc)
}
