//! Places and versions that a server makes. It takes them as it takes what comes.

ghost use Rattle.std.specs.Prelude.{◌≡◌, ◌≢◌, ◌<◌, ◌≤◌, ◌^◌, IfErr, IfOk, None, OnOk, Some, true};
ghost use Rattle.pg_cells.specs.pg_replica.Replica.{has_room, refusal_of};
ghost use Rattle.pg_cells.specs.pg_store.Store.{has_replica, replica_of};
ghost use Rattle.pg_cells.specs.pg_pieces.Done.{idle};
ghost use Rattle.pg_calls.specs.Making.{drawn, first_ranges, make_place, make_version, with_version};

use pg_base::{FileId, Items, Stamp};
use pg_cells::msg::{MadeVersion, Touched, Update, Work};
use pg_cells::pieces::take_place;
use pg_cells::store::Store;
use pg_content::WriteError;
use pg_edges::Key;
use pg_patch::{ALL, Ranges};
use pg_register::Place;
use std::alloc::{AllocError, Global};

/// The stamp that the server draws next, at this moment. The clock does not move before what has
/// the stamp is taken.
pub(crate) fn next_stamp(store: &Store, moment: u64) -> Stamp
    requires { store.now.names.last < 2 ^ 63 }
    ensures { result ≡ drawn store.now moment }
{
    Stamp::next(moment, store.names.last(), store.server())
}

/// What the first version of a file makes of nothing: no byte.
pub(crate) fn first_ranges(alloc: Global) -> Ranges
    ensures { result ≡ first_ranges }
{
    Ranges::from_parts(ALL, 0, Items::new(alloc))
}

/// A place is made, and taken. After out of memory a part may be done.
pub(crate) fn make_place(
    store: &mut Store,
    file: FileId,
    place: Place,
    work: &mut Work,
) -> Result<(), AllocError>
    ensures store { OnOk result
        (store.new ≡ (make_place file place (idle store.old work.old)).store) }
    ensures work { OnOk result
        (work.new ≡ (make_place file place (idle store.old work.old)).work) }
{
    let made = Update::Place {
        id: file,
        place: place.copy()?,
    };
    work.made.push(made)?;
    take_place(store, file, place, work)?;
    Ok(())
}

/// A version of what the ranges make of what is shown of the file is made on all heads, and is the
/// only head from then on. Where that is refused nothing changes. After out of memory a part may be
/// done.
pub(crate) fn make_version(
    store: &mut Store,
    file: FileId,
    stamp: Stamp,
    ranges: Ranges,
    work: &mut Work,
) -> Result<(), WriteError>
    requires held { has_replica store.old file ≡ true }
    requires tags { store.old.tags ≤ 2 ^ 63 }
    requires room { has_room (replica_of store.old file) stamp.server ≡ true }
    ensures store { OnOk result
        (store.new ≡ (make_version file stamp ranges (idle store.old work.old)).store) }
    ensures work { OnOk result
        (work.new ≡ (make_version file stamp ranges (idle store.old work.old)).work) }
    ensures allowed { OnOk result
        (refusal_of (replica_of store.old file) stamp.server ranges ≡ None) }
    ensures refused { IfErr result (λ e. e ≢ WriteError.OutOfMemory
        → refusal_of (replica_of store.old file) stamp.server ranges ≡ Some e) }
    ensures same_store { IfErr result (λ e. e ≢ WriteError.OutOfMemory → store.new ≡ store.old) }
    ensures same_work { IfErr result (λ e. e ≢ WriteError.OutOfMemory → work.new ≡ work.old) }
{
    let bases = store.write(file, stamp, &ranges)?;
    let made = MadeVersion {
        file,
        stamp,
        bases,
        ranges,
    };
    note_version(made, work)?;
    Ok(())
}

/// A version was made, and its key was touched.
fn note_version(made: MadeVersion, work: &mut Work) -> Result<(), AllocError>
    ensures { OnOk result (work.new ≡ with_version work.old made) }
{
    let file = made.file;
    let key = Key::Version(made.stamp);
    work.made.push(Update::Version(made))?;
    work.touched.push(Touched { file, key })?;
    Ok(())
}
