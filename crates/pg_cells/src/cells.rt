//! A cell comes.

ghost use Rattle.std.specs.Prelude.{◌≡◌, OnOk};
ghost use Rattle.pg_cells.specs.Cells.{cell, fits, taken, taken_along};
ghost use Rattle.pg_pieces.specs.Done.{idle};

use pg_base::FileId;
use pg_entries::Cell;
use pg_pieces::msg::{Ends, Message, Work, key_of};
use pg_pieces::names::is_dir;
use pg_pieces::store::Store;
use pg_pieces::{EdgeUse, accept, post, take_entry_cell, take_flag, take_place, take_version};
use std::alloc::AllocError;

/// Only directories have entries, and only files have versions.
fn fits(file: &FileId, received: &Cell) -> bool
    ensures { result ≡ fits file.now received.now }
{
    match received {
        Cell::Place(_) => true,
        Cell::Flag(_) => true,
        Cell::Entry(_, _) => is_dir(file),
        Cell::Version(_) => !is_dir(file),
    }
}

/// Takes the cell, where the thing is held. After out of memory a part may be done.
fn take(store: &mut Store, file: FileId, received: Cell, work: &mut Work) -> Result<(), AllocError>
    ensures store { OnOk result (store.new ≡ (taken store.old file received work.old).store) }
    ensures work { OnOk result (work.new ≡ (taken store.old file received work.old).work) }
{
    match received {
        Cell::Place(place) => take_place(store, file, place.get().copy()?, work),
        Cell::Flag(flag) => take_flag(store, file, *flag.get(), work),
        Cell::Entry(entry, sure) => take_entry_cell(store, file, entry.get().copy()?, sure, work),
        Cell::Version(version) => take_version(store, file, version, work),
    }
}

/// Takes the cell, and answers it.
fn take_and_answer(
    store: &mut Store,
    ends: Ends,
    tag: u64,
    received: Cell,
    work: &mut Work,
) -> Result<(), AllocError>
    ensures store { OnOk result
        (store.new ≡ (taken_along ends tag received (idle store.old work.old)).store) }
    ensures work { OnOk result
        (work.new ≡ (taken_along ends tag received (idle store.old work.old)).work) }
{
    let key = key_of(&received);
    take(store, ends.file, received, work)?;
    let ack = Message::Ack {
        ends: ends.back(),
        key,
        tag,
    };
    post(store, work.from, ack, work)?;
    Ok(())
}

/// Takes a cell that came along an edge under this tag, where the thing can have such a cell and
/// the message is accepted, and answers it. What is news goes to every peer, the sender too. After
/// out of memory a part may be done.
pub fn cell(
    store: &mut Store,
    ends: Ends,
    tag: u64,
    received: Cell,
    work: &mut Work,
) -> Result<(), AllocError>
    ensures store { OnOk result (store.new ≡ (cell store.old ends tag received work.old).store) }
    ensures work { OnOk result (work.new ≡ (cell store.old ends tag received work.old).work) }
{
    if !fits(&ends.file, &received) {
        return Ok(());
    }
    if accept(store, &ends, EdgeUse::Makes, work)? {
        take_and_answer(store, ends, tag, received, work)?;
    }
    Ok(())
}
