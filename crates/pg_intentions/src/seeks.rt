//! What seeks a gold replica: whose edges do not reach the golds that it sees.

ghost use Rattle.std.specs.Prelude.{◌≡◌, IfOk, OnOk};
ghost use Rattle.std.specs.List.{find, list_any};
ghost use Rattle.std.specs.Option.{option_copied};
ghost use Rattle.pg_register.specs.Flag.{is_live_other};
ghost use Rattle.pg_intentions.specs.Seeks.{aim_seek, begin_seek, begin_seeks, has_seek, is_apart, is_seeking, matches, seek_again, seek_target, seeks, to_seek, was_linked};
ghost use Rattle.pg_graph.specs.pg_store.Seen.{removed_of, server_of};

use pg_base::{FileId, Items, NodeId};
use pg_edges::{Edge, Edges};
use pg_graph::intent::{Intent, IntentKey};
use pg_graph::msg::{Linked, Work};
use pg_graph::pieces::begin_intent;
use pg_graph::store::Store;
use pg_register::{Flag, GoldFlags};
use std::alloc::AllocError;

/// Whether this is the raised flag of another live server.
fn is_live_other(store: &Store, flag: &Flag) -> bool
    ensures { result
        ≡ is_live_other (server_of store.now) (removed_of store.now) flag.now }
{
    flag.raised && !store.names.is_removed(flag.server) && flag.server != store.server()
}

/// Whether this is the flag of another live gold replica, to which none of these edges leads.
fn is_apart(store: &Store, edges: &Edges, flag: &Flag) -> bool
    ensures { result
        ≡ is_apart (server_of store.now) (removed_of store.now) edges.now flag.now }
{
    is_live_other(store, flag) && !edges.is_listed(flag.server, flag.birth)
}

/// Whether there is one.
fn has_apart(store: &Store, edges: &Edges, flags: &[Flag]) -> bool
    ensures { result
        ≡ list_any (is_apart (server_of store.now) (removed_of store.now) edges.now) flags.now }
{
    flags.iter().any(|flag| is_apart(store, edges, flag))
}

/// The one of the least server.
fn first_apart<'a>(store: &Store, edges: &Edges, flags: &'a [Flag]) -> Option<&'a Flag>
    ensures { option_copied result
        ≡ find (is_apart (server_of store.now) (removed_of store.now) edges.now) flags.now }
{
    flags.iter().find(|flag| is_apart(store, edges, flag))
}

/// Whether the flag of the edge's peer is raised with the birth that the edge names, and the peer
/// is not removed.
pub fn matches(store: &Store, flags: &GoldFlags, edge: &Edge) -> bool
    ensures { result ≡ matches (removed_of store.now) flags.now edge.now }
{
    flags.is_raised(edge.peer, edge.birth) && !store.names.is_removed(edge.peer)
}

/// Whether one of these edges is so.
fn has_match(store: &Store, flags: &GoldFlags, edges: &[Edge]) -> bool
    ensures { result ≡ list_any (matches (removed_of store.now) flags.now) edges.now }
{
    edges.iter().any(|edge| matches(store, flags, edge))
}

/// Whether a replica with these flags, this birth and these edges seeks: a gold one where it sees a
/// live gold of another server to which it has no edge, a bronze one where it has no edge to a live
/// gold that it sees.
fn seeks(store: &Store, flags: &GoldFlags, birth: u64, edges: &Edges) -> bool
    ensures { result
        ≡ seeks (server_of store.now) (removed_of store.now) flags.now birth edges.now }
{
    if flags.is_raised(store.server(), birth) {
        return has_apart(store, edges, flags.as_slice());
    }
    !has_match(store, flags, edges.as_slice())
}

/// Whether a held thing seeks. It looks for its replica once.
pub fn is_seeking(store: &Store, file: &FileId) -> bool
    ensures { result ≡ is_seeking store.now file.now }
{
    let Some(held) = store.names.get(file) else {
        return false;
    };
    let flags = &held.own().flags;
    match store.replica(file) {
        Some(replica) => seeks(store, flags, replica.birth, &replica.edges),
        None => seeks(store, flags, 0, &Edges::new(store.allocator())),
    }
}

/// All that seeks, by id. Where it is known what may, that alone is gone through.
pub fn to_seek(store: &Store) -> Result<Items<FileId>, AllocError>
    ensures { IfOk result (λ files. files ≡ to_seek store.now) }
{
    let Some(ids) = store.seekers() else {
        return all_seeking(store);
    };
    let _held = store.names.as_map();
    Ok(Items::from_vec(
        ids.as_slice()
            .iter()
            .copied()
            .filter(|file| is_seeking(store, file))
            .collect(store.allocator())?,
    ))
}

/// The same, found among all that is held.
fn all_seeking(store: &Store) -> Result<Items<FileId>, AllocError>
    ensures { IfOk result (λ files. files ≡ to_seek store.now) }
{
    Ok(Items::from_vec(
        store
            .names
            .as_map()
            .keys()
            .copied()
            .filter(|file| is_seeking(store, file))
            .collect(store.allocator())?,
    ))
}

/// The server that a Seek asks: the least live other server whose flag is raised, and to which
/// there is no edge, else the next behind this server.
fn seek_target(store: &Store, file: &FileId) -> NodeId
    ensures { result ≡ seek_target store.now file.now }
{
    let next = store.next_target(store.server());
    let Some(own) = store.names.own(file) else {
        return next;
    };
    let flags = own.flags.as_slice();
    let apart = match store.replica(file) {
        Some(replica) => first_apart(store, &replica.edges, flags),
        None => first_apart(store, &Edges::new(store.allocator()), flags),
    };
    match apart {
        Some(flag) => flag.server,
        None => next,
    }
}

/// Whether one of these edges is of the thing.
fn was_linked(edges: &[Linked], file: &FileId) -> bool
    ensures { result ≡ was_linked edges.now file.now }
{
    edges.iter().any(|linked| linked.file.compare(file).is_eq())
}

/// The Seek of a thing asks anew, where an edge of the thing was made in this event.
fn seek_again(store: &mut Store, file: FileId, work: &Work)
    ensures { store.new ≡ seek_again store.old file work.entry.now }
{
    if was_linked(work.linked.as_slice(), &file) {
        let target = seek_target(store, &file);
        store.intents.aim(&IntentKey::Seek { file }, target);
    }
}

/// Whether a Seek of it stands.
fn has_seek(store: &Store, file: FileId) -> bool
    ensures { result ≡ has_seek store.now file }
{
    store.intents.get(&IntentKey::Seek { file }).is_some()
}

/// A Seek begins of one thing of which none stands; one that stands asks anew where an edge of the
/// thing was made in this event.
fn begin_seek(store: &mut Store, file: FileId, work: &mut Work) -> Result<(), AllocError>
    ensures store { OnOk result (store.new ≡ (begin_seek store.old file work.old).store) }
    ensures work { OnOk result (work.new ≡ (begin_seek store.old file work.old).work) }
{
    if has_seek(store, file) {
        seek_again(store, file, work);
        return Ok(());
    }
    let seek = Intent::Seek {
        file,
        target: seek_target(store, &file),
    };
    begin_intent(store, seek, work)?;
    Ok(())
}

/// A Seek begins of each of these of which none stands, and one that stands asks anew where an edge
/// of its thing was made in this event.
pub fn begin_seeks(store: &mut Store, files: &[FileId], work: &mut Work) -> Result<(), AllocError>
    ensures store { OnOk result
        (store.new ≡ (begin_seeks store.old files.now work.old).store) }
    ensures work { OnOk result (work.new ≡ (begin_seeks store.old files.now work.old).work) }
{
    for file in files {
        begin_seek(store, *file, work)?;
    }
    Ok(())
}
