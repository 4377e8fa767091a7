//! Cells as they are sent, along edges on which their keys are unacknowledged.

ghost use Rattle.std.specs.Prelude.{◌≡◌, ◌++◌, ◌∷◌, [], IfOk, OnOk, not};
ghost use Rattle.pg_pieces.specs.pg_names.Names.{is_dir, own_or_blank};
ghost use Rattle.pg_pieces.specs.pg_store.Store.{replica_at};
ghost use Rattle.pg_cells.specs.KeyFilter.{ListsChosen, chosen_cells, file_cells, passes};
ghost use Rattle.pg_cells.specs.Sending.{cell_to, cells_where, edge_cells, is_place, key_cell, replica_cells, told_as, waits};

use crate::key_filter::KeyFilter;
use pg_base::{FileId, Items, Shared, Version};
use pg_edges::{Edge, Key};
use pg_entries::Cell;
use pg_pieces::msg::{Ends, Message, Sent};
use pg_pieces::names::is_dir;
use pg_pieces::replica::Replica;
use pg_pieces::send;
use pg_pieces::store::Store;
use std::alloc::AllocError;
use std::collections::BTreeMap;

/// The most bytes of a body that goes unasked.
const MOST_UNASKED: u32 = 1_024;

/// What tells of a version under a tag: its head, where it has a long body.
fn version_as(store: &Store, ends: Ends, tag: u64, version: Version) -> Result<Message, AllocError>
    ensures { IfOk result (λ message. message ≡ told_as ends tag (Cell.Version version)) }
{
    if MOST_UNASKED < version.head().length {
        let head = Shared::new(store.allocator(), version.head().copy()?)?;
        return Ok(Message::Harbinger { ends, tag, head });
    }
    let cell = Cell::Version(version);
    Ok(Message::Cell { ends, tag, cell })
}

/// What tells of a cell under a tag: of a version that has a long body its head.
fn told_as(store: &Store, ends: Ends, tag: u64, cell: Cell) -> Result<Message, AllocError>
    ensures { IfOk result (λ message. message ≡ told_as ends tag cell) }
{
    let cell = match cell {
        Cell::Version(version) => return version_as(store, ends, tag, version),
        Cell::Place(place) => Cell::Place(place),
        Cell::Flag(flag) => Cell::Flag(flag),
        Cell::Entry(entry, sure) => Cell::Entry(entry, sure),
    };
    Ok(Message::Cell { ends, tag, cell })
}

/// Tells of a cell under a tag to the peer of an edge, from a replica of this birth.
fn tell(
    store: &Store,
    file: FileId,
    birth: u64,
    edge: &Edge,
    cell: Cell,
    tag: u64,
    sent: &mut Items<Sent>,
) -> Result<(), AllocError>
    ensures { OnOk result
        (sent.new ≡ sent.old ++ cell_to store.now file birth edge.now cell tag ∷ []) }
{
    let ends = Ends {
        file,
        sender: birth,
        receiver: edge.birth,
    };
    let message = told_as(store, ends, tag, cell)?;
    send(store, edge.peer, message, sent)?;
    Ok(())
}

fn is_place(key: &Key) -> bool
    ensures { result ≡ is_place key.now }
{
    matches!(key, Key::Place)
}

/// Whether the place of a thing is a dead one, be it the blank one.
fn has_dead_place(store: &Store, file: &FileId) -> bool
    ensures { result ≡ not (own_or_blank store.now.names file.now).place.live }
{
    match store.names.own(file) {
        Some(own) => !own.place.live,
        None => true,
    }
}

/// Whether the key is not sent yet: the dead place of a directory waits while the key of an entry
/// is on the edge.
fn waits(store: &Store, file: &FileId, edge: &Edge, key: &Key) -> bool
    ensures { result ≡ waits store.now file.now edge.now key.now }
{
    is_place(key) && is_dir(file) && has_dead_place(store, file) && edge.keys.has_entry()
}

/// The cell of a key that is on the edge under this tag, unless it waits.
fn send_key(
    store: &Store,
    file: FileId,
    birth: u64,
    edge: &Edge,
    key: &Key,
    tag: u64,
    sent: &mut Items<Sent>,
) -> Result<(), AllocError>
    ensures { OnOk result
        (sent.new ≡ sent.old ++ key_cell store.now file birth edge.now (key.now, tag)) }
{
    if waits(store, &file, edge, key) {
        return Ok(());
    }
    if let Some(cell) = store.cell(file, key)? {
        tell(store, file, birth, edge, cell, tag, sent)?;
    }
    Ok(())
}

/// The cell of a key that is on the edge under this tag, where it is chosen, unless it waits.
fn send_chosen(
    store: &Store,
    choice: &KeyFilter<'_>,
    file: FileId,
    birth: u64,
    edge: &Edge,
    key: &Key,
    tag: u64,
    sent: &mut Items<Sent>,
) -> Result<(), AllocError>
    ensures { OnOk result (sent.new
        ≡ sent.old
        ++ chosen_cells store.now choice.now file birth edge.now (key.now, tag)) }
{
    if choice.has(&file, edge.peer, key) {
        send_key(store, file, birth, edge, key, tag, sent)?;
    }
    Ok(())
}

/// Of each key of an edge, by key.
fn send_edge(
    store: &Store,
    choice: &KeyFilter<'_>,
    file: FileId,
    birth: u64,
    edge: &Edge,
    sent: &mut Items<Sent>,
) -> Result<(), AllocError>
    ensures { OnOk result (sent.new
        ≡ sent.old ++ edge_cells store.now (passes choice.now) file birth edge.now) }
{
    for entry in edge.keys.as_slice() {
        send_chosen(store, choice, file, birth, edge, &entry.0, entry.1, sent)?;
    }
    Ok(())
}

/// Of each edge of a replica, by peer.
fn send_replica(
    store: &Store,
    choice: &KeyFilter<'_>,
    file: FileId,
    replica: &Replica,
    sent: &mut Items<Sent>,
) -> Result<(), AllocError>
    ensures { OnOk result (sent.new
        ≡ sent.old ++ replica_cells store.now (passes choice.now) (file, replica.now)) }
{
    for edge in replica.edges.as_slice() {
        send_edge(store, choice, file, replica.birth, edge, sent)?;
    }
    Ok(())
}

/// Of the replica of a file, if it was touched.
fn send_file(
    store: &Store,
    choice: &KeyFilter<'_>,
    file: &FileId,
    sent: &mut Items<Sent>,
) -> Result<(), AllocError>
    ensures { OnOk result (sent.new
        ≡ sent.old
        ++ file_cells store.now (passes choice.now) file.now (replica_at store.now file.now)) }
{
    if let Some(replica) = store.replica(file) {
        send_replica(store, choice, *file, replica, sent)?;
    }
    Ok(())
}

/// All cells of keys that are chosen, by file, peer and key. These are the files that may have one.
pub(crate) fn send_cells(
    store: &Store,
    choice: &KeyFilter<'_>,
    files: &BTreeMap<FileId, ()>,
    sent: &mut Items<Sent>,
) -> Result<(), AllocError>
    requires { ListsChosen store.now choice.now files.now.entries }
    ensures { OnOk result (sent.new ≡ sent.old ++ cells_where store.now (passes choice.now)) }
{
    // It says that the replicas are in order.
    let _index = store.replicas.unacknowledged();
    for file in files.keys() {
        send_file(store, choice, file, sent)?;
    }
    Ok(())
}
