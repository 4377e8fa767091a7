//! Calls that make names, move them and take them away.

ghost use Rattle.std.specs.Prelude.{◌≡◌, ◌<◌, ◌^◌, IfOk, OnOk};
ghost use Rattle.pg_cells.specs.pg_pieces.Done.{idle};
ghost use Rattle.pg_checks.specs.Answer.{Tells};
ghost use Rattle.pg_checks.specs.Checks.{new_name};
ghost use Rattle.pg_calls.specs.Making.{HasNoVersion};
ghost use Rattle.pg_calls.specs.Naming.{begun, create, dead_place, mkdir, moved, next_id, place_in, rename, rmdir, taken_away, unlink, with_first_version, with_id, with_thing};

use crate::making::{first_ranges, make_place, make_version, next_stamp};
use pg_base::{FileId, Kind, Policy};
use pg_cells::call::Reply;
use pg_cells::msg::Work;
use pg_cells::names::Attributes;
use pg_cells::pieces::raise_flag;
use pg_cells::store::{COUNTER_LIMIT, Store};
use pg_checks::{CallError, Move, NewName, deny, empty_dir_at, file_at, move_of, new_name};
use pg_content::WriteError;
use pg_register::Place;
use std::alloc::AllocError;

/// A new directory. Where it is refused nothing changes, but that what is not here yet is asked
/// for. After out of memory a part may be done.
#[tactic(auto, using(crate::proofs::Denials::store_is, crate::proofs::Denials::work_is, crate::proofs::Denials::reply_is))]
pub(crate) fn mkdir(store: &mut Store, text: &[u8], work: &mut Work) -> Result<Reply, AllocError>
    ensures store { OnOk result (store.new ≡ (mkdir store.old text.now work.old).store) }
    ensures work { OnOk result (work.new ≡ (mkdir store.old text.now work.old).work) }
    ensures reply { IfOk result (λ r. r ≡ (mkdir store.old text.now work.old).reply) }
{
    match name_for_new(store, Kind::Dir, text) {
        Ok(new) => {
            let id = give_id(store, Kind::Dir);
            make_thing(store, id, Policy::Last, new, work)?;
            Ok(Reply::Made(id))
        }
        Err(denied) => Ok(deny(store, denied, work)?),
    }
}

/// A new file with this policy and an empty version. Where it is refused nothing changes, but that
/// what is not here yet is asked for. After out of memory a part may be done.
#[tactic(auto, using(crate::proofs::Denials::store_is, crate::proofs::Denials::work_is, crate::proofs::Denials::reply_is))]
pub(crate) fn create(
    store: &mut Store,
    text: &[u8],
    policy: Policy,
    work: &mut Work,
) -> Result<Reply, AllocError>
    ensures store { OnOk result
        (store.new ≡ (create store.old text.now policy work.old).store) }
    ensures work { OnOk result (work.new ≡ (create store.old text.now policy work.old).work) }
    ensures reply { IfOk result (λ r. r ≡ (create store.old text.now policy work.old).reply) }
{
    match name_for_new(store, Kind::File, text) {
        Ok(new) => {
            let id = give_id(store, Kind::File);
            make_thing(store, id, policy, new, work)?;
            make_first_version(store, id, work)?;
            Ok(Reply::Made(id))
        }
        Err(denied) => Ok(deny(store, denied, work)?),
    }
}

/// A thing gets a new place. Where that is refused nothing changes, but that what is not here yet
/// is asked for. After out of memory a part may be done.
#[tactic(auto, using(crate::proofs::Denials::store_is, crate::proofs::Denials::work_is, crate::proofs::Denials::reply_is))]
pub(crate) fn rename(
    store: &mut Store,
    from: &[u8],
    to: &[u8],
    work: &mut Work,
) -> Result<Reply, AllocError>
    ensures store { OnOk result (store.new ≡ (rename store.old from.now to.now work.old).store) }
    ensures work { OnOk result (work.new ≡ (rename store.old from.now to.now work.old).work) }
    ensures reply { IfOk result (λ r. r ≡ (rename store.old from.now to.now work.old).reply) }
{
    match move_of(store, from, to) {
        Ok(found) => {
            move_thing(store, found, work)?;
            Ok(Reply::Done)
        }
        Err(denied) => Ok(deny(store, denied, work)?),
    }
}

/// A file is taken away. Where that is refused nothing changes, but that what is not here yet is
/// asked for. After out of memory a part may be done.
#[tactic(auto, using(crate::proofs::Denials::store_is, crate::proofs::Denials::work_is, crate::proofs::Denials::reply_is))]
pub(crate) fn unlink(store: &mut Store, text: &[u8], work: &mut Work) -> Result<Reply, AllocError>
    ensures store { OnOk result (store.new ≡ (unlink store.old text.now work.old).store) }
    ensures work { OnOk result (work.new ≡ (unlink store.old text.now work.old).work) }
    ensures reply { IfOk result (λ r. r ≡ (unlink store.old text.now work.old).reply) }
{
    match file_at(store, text) {
        Ok(file) => {
            take_away(store, file, work)?;
            Ok(Reply::Done)
        }
        Err(denied) => Ok(deny(store, denied, work)?),
    }
}

/// A directory that shows no name is taken away. Where it is refused nothing changes, but that what
/// is not here yet is asked for. After out of memory a part may be done.
#[tactic(auto, using(crate::proofs::Denials::store_is, crate::proofs::Denials::work_is, crate::proofs::Denials::reply_is))]
pub(crate) fn rmdir(store: &mut Store, text: &[u8], work: &mut Work) -> Result<Reply, AllocError>
    ensures store { OnOk result (store.new ≡ (rmdir store.old text.now work.old).store) }
    ensures work { OnOk result (work.new ≡ (rmdir store.old text.now work.old).work) }
    ensures reply { IfOk result (λ r. r ≡ (rmdir store.old text.now work.old).reply) }
{
    match empty_dir_at(store, text) {
        Ok(dir) => {
            take_away(store, dir, work)?;
            Ok(Reply::Done)
        }
        Err(denied) => Ok(deny(store, denied, work)?),
    }
}

/// The directory and the name of a thing that is to be made, under the id that the server gives out
/// next. Where ids are at their end the clock is too, so that the call is refused whatever the id
/// is.
fn name_for_new(store: &Store, kind: Kind, text: &[u8]) -> Result<NewName, CallError>
    ensures { Tells result (new_name store.now (next_id store.now kind) text.now) }
{
    let id = FileId {
        kind,
        server: store.server(),
        number: store.files.saturating_add(1),
    };
    new_name(store, id, text)
}

/// The server gives out its next id.
fn give_id(store: &mut Store, kind: Kind) -> FileId
    requires { store.old.files < 2 ^ 62 }
    ensures id { result ≡ next_id store.old kind }
    ensures store { store.new ≡ with_id store.old }
{
    store.files += 1;
    FileId {
        kind,
        server: store.server(),
        number: store.files,
    }
}

/// A live place with the next stamp.
fn place_in(store: &Store, moment: u64, new: NewName) -> Place
    requires { store.now.names.last < 2 ^ 63 }
    ensures { result ≡ place_in store.now moment new }
{
    Place {
        stamp: next_stamp(store, moment),
        parent: new.dir,
        name: new.name,
        live: true,
    }
}

/// A full replica of a new thing with this id begins, under a fresh birth. It has a place, and the
/// server's raised flag.
fn make_thing(
    store: &mut Store,
    id: FileId,
    policy: Policy,
    new: NewName,
    work: &mut Work,
) -> Result<(), AllocError>
    requires { store.old.names.last < 2 ^ 62 }
    ensures store { OnOk result
        (store.new ≡ (with_thing store.old work.old id policy new).store) }
    ensures work { OnOk result
        (work.new ≡ (with_thing store.old work.old id policy new).work) }
    ensures empty { OnOk result (HasNoVersion store.new id) }
{
    let place = place_in(store, work.now, new);
    begin_thing(store, id, policy)?;
    make_place(store, id, place, work)?;
    raise_flag(store, id, work)?;
    Ok(())
}

/// A full replica of a thing begins under a fresh birth. Of the thing nothing is known.
fn begin_thing(store: &mut Store, id: FileId, policy: Policy) -> Result<(), AllocError>
    ensures { OnOk result (store.new ≡ begun store.old id policy) }
{
    let birth = store.draw_birth()?;
    let blank = Attributes::blank(store.allocator(), id)?;
    store.begin(id, birth, policy, blank, true)?;
    Ok(())
}

/// The content of a file begins with an empty version, which is never refused: it has no byte, and
/// its vector one actor. Where more tags were given out than memory has room for, or a stamp that
/// late was taken, it is as if memory ran out.
fn make_first_version(store: &mut Store, id: FileId, work: &mut Work) -> Result<(), AllocError>
    requires { HasNoVersion store.old id }
    ensures store { OnOk result
        (store.new ≡ (with_first_version id (idle store.old work.old)).store) }
    ensures work { OnOk result
        (work.new ≡ (with_first_version id (idle store.old work.old)).work) }
{
    if store.tags > COUNTER_LIMIT || store.names.last() >= COUNTER_LIMIT {
        return Err(AllocError);
    }
    let stamp = next_stamp(store, work.now);
    let ranges = first_ranges(store.allocator());
    match make_version(store, id, stamp, ranges, work) {
        Ok(()) => Ok(()),
        Err(WriteError::OutOfMemory) => Err(AllocError),
        Err(WriteError::TooLong) => unreachable!(),
        Err(WriteError::ManyActors) => unreachable!(),
    }
}

/// A thing gets a new live place.
fn move_thing(store: &mut Store, found: Move, work: &mut Work) -> Result<(), AllocError>
    requires { store.old.names.last < 2 ^ 63 }
    ensures store { OnOk result (store.new ≡ (moved store.old work.old found).store) }
    ensures work { OnOk result (work.new ≡ (moved store.old work.old found).work) }
{
    let place = place_in(store, work.now, found.to);
    make_place(store, found.thing, place, work)?;
    Ok(())
}

/// A thing gets a dead place.
fn take_away(store: &mut Store, file: FileId, work: &mut Work) -> Result<(), AllocError>
    requires { store.old.names.last < 2 ^ 63 }
    ensures store { OnOk result (store.new ≡ (taken_away store.old work.old file).store) }
    ensures work { OnOk result (work.new ≡ (taken_away store.old work.old file).work) }
{
    let place = dead_place(store, work.now, &file)?;
    make_place(store, file, place, work)?;
    Ok(())
}

/// A dead place with the parent and the name that the thing has.
fn dead_place(store: &Store, moment: u64, file: &FileId) -> Result<Place, AllocError>
    requires { store.now.names.last < 2 ^ 63 }
    ensures { IfOk result (λ place. place ≡ dead_place store.now moment file.now) }
{
    let own = store.names.place_or_blank(*file)?;
    Ok(Place {
        stamp: next_stamp(store, moment),
        parent: own.parent,
        name: own.name,
        live: false,
    })
}
