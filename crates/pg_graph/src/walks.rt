//! Walks: they give an edge more to replicas that have few.

ghost use Rattle.std.specs.Prelude.{◌≡◌, ◌<◌, IfOk, OnOk, Some, count_by, filter, length, slice_get};
ghost use Rattle.std.specs.Option.{option_copied};
ghost use Rattle.pg_graph.specs.Walks.{edges_of, is_onward, meet_origin, onward, walk, walk_along, walk_from, walk_of, walk_of_tick, walk_on, walked, with_few_edges};

use pg_base::{FileId, Items, NodeId};
use pg_edges::Edge;
use pg_pieces::msg::{Ends, Greeting, Message, Work};
use pg_pieces::store::Store;
use pg_pieces::{EdgeUse, accept, ends_to, is_accepted, link_peer, post, send};
use pg_walkers::sends_walks;
use std::alloc::AllocError;

/// A walk has so many steps.
const MOST_HOPS: u8 = 3;

/// A walk: the server of the replica from which it comes, and that replica's birth, how many steps
/// are left, and a random word for them.
#[derive(Clone, Copy, Debug, PartialEq, Eq)]
struct Walking {
    origin: NodeId,
    birth: u64,
    hops: u8,
    word: u64,
}

/// A walk goes last in the event, along an edge of the replica here.
fn walk_along(
    store: &Store,
    file: FileId,
    walk: Walking,
    edge: &Edge,
    work: &mut Work,
) -> Result<(), AllocError>
    ensures { OnOk result (work.new
        ≡ walk_along store.now file walk.origin walk.birth walk.hops walk.word work.old
        (Some edge.now)) }
{
    let message = Message::Walk {
        ends: ends_to(store, file, edge.birth),
        origin: walk.origin,
        birth: walk.birth,
        hops: walk.hops,
        word: walk.word,
    };
    send(store, edge.peer, message, &mut work.tail)?;
    Ok(())
}

/// All that send walks, by id. It goes over all that is held.
fn with_few_edges(store: &Store) -> Result<Items<FileId>, AllocError>
    ensures { IfOk result (λ files. files ≡ with_few_edges store.now) }
{
    Ok(Items::from_vec(
        store
            .names
            .as_map()
            .keys()
            .copied()
            .filter(|file| sends_walks(&store.names, &store.replicas, file))
            .collect(store.allocator())?,
    ))
}

/// A walk begins at a replica, by a random word: it goes to one of its peers, and has the rest of
/// the word.
fn walk_from(store: &Store, word: u64, file: FileId, work: &mut Work) -> Result<(), AllocError>
    ensures { OnOk result (work.new ≡ walk_from store.now word work.old (Some file)) }
{
    let Some(replica) = store.replica(&file) else {
        return Ok(());
    };
    let count = replica.edges.len() as u64;
    if count == 0 {
        return Ok(());
    }
    let walk = Walking {
        origin: store.server(),
        birth: store.birth(&file),
        hops: MOST_HOPS,
        word: word / count,
    };
    if let Some(edge) = replica.edges.at((word % count) as usize) {
        walk_along(store, file, walk, edge, work)?;
    }
    Ok(())
}

/// At the one of these replicas that the word chooses.
fn walk_of(store: &Store, word: u64, files: &[FileId], work: &mut Work) -> Result<(), AllocError>
    ensures { OnOk result (work.new ≡ walk_of store.now word files.now work.old) }
{
    let count = files.len() as u64;
    if count == 0 {
        return Ok(());
    }
    if let Some(file) = files.get((word % count) as usize) {
        walk_from(store, word / count, *file, work)?;
    }
    Ok(())
}

/// The walk that a tick sends by its random word, where that is not 0: from one of the full
/// replicas other than the root's that have one edge or two, to one of its peers. Where the store
/// has a list of them nothing is gone over.
pub fn walk_of_tick(store: &Store, word: u64, work: &mut Work) -> Result<(), AllocError>
    ensures { OnOk result (work.new ≡ walk_of_tick store.now word work.old) }
{
    if word == 0 {
        return Ok(());
    }
    match store.walkers() {
        Some(files) => walk_of(store, word, files, work),
        None => {
            let files = with_few_edges(store)?;
            walk_of(store, word, files.as_slice(), work)
        }
    }
}

/// Whether an edge is to another than the sender of a walk and its origin.
fn is_onward(edge: &Edge, from: NodeId, origin: NodeId) -> bool
    ensures { result ≡ is_onward from origin edge.now }
{
    !(edge.peer == from || edge.peer == origin)
}

/// How many of these are.
fn onward_count(edges: &[Edge], from: NodeId, origin: NodeId) -> usize
    ensures { result ≡ count_by (is_onward from origin) edges.now }
{
    edges
        .iter()
        .filter(|edge| is_onward(edge, from, origin))
        .count()
}

/// The one at this index among them.
fn onward_at(edges: &[Edge], from: NodeId, origin: NodeId, index: usize) -> Option<&Edge>
    ensures { option_copied result ≡ slice_get (filter (is_onward from origin) edges.now) index }
{
    let mut left = index;
    for edge in edges {
        if is_onward(edge, from, origin) {
            if left == 0 {
                return Some(edge);
            }
            left -= 1;
        }
    }
    None
}

/// A walk ends at the replica here, which links its origin and tells that.
fn meet_origin(
    store: &mut Store,
    file: FileId,
    walk: Walking,
    work: &mut Work,
) -> Result<(), AllocError>
    ensures store { OnOk result
        (store.new ≡ (meet_origin store.old file walk.origin walk.birth work.old).store) }
    ensures work { OnOk result
        (work.new ≡ (meet_origin store.old file walk.origin walk.birth work.old).work) }
{
    link_peer(store, file, walk.origin, walk.birth, work)?;
    let ends = ends_to(store, file, walk.birth);
    let greeting = Greeting::Meet;
    post(store, walk.origin, Message::Greet { ends, greeting }, work)?;
    Ok(())
}

/// How many of the edges of the replica are.
fn onward_count_of(store: &Store, file: &FileId, from: NodeId, origin: NodeId) -> usize
    ensures { result ≡ length (onward store.now file.now from origin) }
{
    match store.replica(file) {
        Some(replica) => onward_count(replica.edges.as_slice(), from, origin),
        None => 0,
    }
}

/// A walk goes on, by its word, along one of the edges to others than its sender and its origin.
fn walk_on(
    store: &Store,
    file: FileId,
    walk: Walking,
    count: u64,
    work: &mut Work,
) -> Result<(), AllocError>
    requires count { count ≡ length (onward store.now file work.old.from walk.origin) }
    requires some { 0 < count }
    requires hops { 0 < walk.hops }
    ensures { OnOk result (work.new
        ≡ walk_on store.now file walk.origin walk.birth walk.hops walk.word
        (onward store.now file work.old.from walk.origin) work.old) }
{
    let Some(replica) = store.replica(&file) else {
        return Ok(());
    };
    let index = (walk.word % count) as usize;
    let next = Walking {
        origin: walk.origin,
        birth: walk.birth,
        hops: walk.hops - 1,
        word: walk.word / count,
    };
    if let Some(edge) = onward_at(replica.edges.as_slice(), work.from, walk.origin, index) {
        walk_along(store, file, next, edge, work)?;
    }
    Ok(())
}

/// A walk goes on where steps are left and there is an edge to go on, and else ends here.
fn walked(store: &mut Store, ends: Ends, walk: Walking, work: &mut Work) -> Result<(), AllocError>
    ensures store { OnOk result (store.new
        ≡ (walked store.old ends walk.origin walk.birth walk.hops walk.word
        (onward store.old ends.file work.old.from walk.origin) work.old).store) }
    ensures work { OnOk result (work.new
        ≡ (walked store.old ends walk.origin walk.birth walk.hops walk.word
        (onward store.old ends.file work.old.from walk.origin) work.old).work) }
{
    let count = onward_count_of(store, &ends.file, work.from, walk.origin) as u64;
    if 1 < walk.hops && 0 < count {
        return walk_on(store, ends.file, walk, count, work);
    }
    meet_origin(store, ends.file, walk, work)?;
    Ok(())
}

/// A walk comes along an edge that is there. At its origin nothing comes of it. Where steps are
/// left it goes on, last in the event, by its word to one of the peers other than its sender and
/// its origin. Else, or where there is none, it ends here: the replica links its origin, and tells
/// that. After out of memory a part may be done.
pub fn walk(
    store: &mut Store,
    ends: Ends,
    origin: NodeId,
    birth: u64,
    hops: u8,
    word: u64,
    work: &mut Work,
) -> Result<(), AllocError>
    ensures store { OnOk result
        (store.new ≡ (walk store.old ends origin birth hops word work.old).store) }
    ensures work { OnOk result
        (work.new ≡ (walk store.old ends origin birth hops word work.old).work) }
{
    if !is_accepted(store, work.from, EdgeUse::Needs, &ends) {
        accept(store, &ends, EdgeUse::Needs, work)?;
        return Ok(());
    }
    if origin == store.server() {
        return Ok(());
    }
    let walk = Walking {
        origin,
        birth,
        hops,
        word,
    };
    walked(store, ends, walk, work)?;
    Ok(())
}
