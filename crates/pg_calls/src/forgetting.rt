//! What was lost is given up.

ghost use Rattle.std.specs.Prelude.{◌≡◌, ◌<◌, ◌^◌, IfOk, None, OnOk, true};
ghost use Rattle.std.specs.List.{list_any};
ghost use Rattle.pg_checks.specs.Answer.{Tells};
ghost use Rattle.pg_calls.specs.Forgetting.{begin_lost, begun_at, begun_with, dead_at, fill_lost, forget, forget_lost, has_blank_place, has_cell_for, if_live, is_patch_to, is_wanted_by, lost_at, mark, marked_each, place_in, placed_in_root, placed_lost, root_place, strike_from, strike_out, unless_full};

use crate::demoting::unless_root;
use crate::making::{make_place, next_stamp};
use pg_base::{FileId, Policy, Stamp};
use pg_cells::call::{Refusal, Reply};
use pg_cells::intent::{Intent, IntentKey, Intents};
use pg_cells::msg::{Update, Work};
use pg_cells::names::{Attributes, Names, is_dir, is_same_stamp};
use pg_cells::pieces::{raise_flag, take_entry};
use pg_cells::store::{COUNTER_LIMIT, Store};
use pg_checks::{CallError, ROOT, deny, dirs_of, in_time, last_cell, last_listing};
use pg_entries::Entry;
use pg_intentions::repair::fill;
use pg_register::{GoldFlags, Place, tilde_name};
use std::alloc::AllocError;

/// Any thing that is not held and full.
fn unless_full(store: &Store, file: FileId) -> Result<FileId, CallError>
    ensures { Tells result (unless_full store.now file) }
{
    if store.names.is_full(&file) {
        return Err(CallError::refused(Refusal::Held));
    }
    Ok(file)
}

/// What may be given up: neither the root nor what is held and full.
fn lost_at(store: &Store, id: FileId) -> Result<FileId, CallError>
    ensures { Tells result (lost_at store.now id) }
{
    in_time(store)?;
    let file = unless_root(id)?;
    unless_full(store, file)
}

/// A live place in the root, by the thing's id, with the next stamp.
fn root_place(store: &Store, moment: u64, id: FileId) -> Result<Place, AllocError>
    requires { store.now.names.last < 2 ^ 63 }
    ensures { IfOk result (λ place. place ≡ root_place store.now moment id) }
{
    Ok(Place {
        stamp: next_stamp(store, moment),
        parent: ROOT,
        name: tilde_name(store.allocator(), id)?,
        live: true,
    })
}

/// A thing gets a live place in the root. After out of memory a part may be done.
fn place_in_root(store: &mut Store, id: FileId, work: &mut Work) -> Result<(), AllocError>
    requires { store.old.names.last < 2 ^ 63 }
    ensures store { OnOk result (store.new ≡ (placed_in_root id store.old work.old).store) }
    ensures work { OnOk result (work.new ≡ (placed_in_root id store.old work.old).work) }
{
    let place = root_place(store, work.now, id)?;
    make_place(store, id, place, work)
}

/// Whether no place of a thing is known.
fn has_blank_place(store: &Store, id: &FileId) -> bool
    ensures { result ≡ has_blank_place store.now id.now }
{
    match store.names.own(id) {
        Some(own) => is_same_stamp(own.place.stamp, Stamp { time: 0, server: 0 }),
        None => true,
    }
}

/// Where no place of a thing is known it gets one in the root.
fn place_lost(store: &mut Store, id: FileId, work: &mut Work) -> Result<(), AllocError>
    requires { store.old.names.last < 2 ^ 63 }
    ensures store { OnOk result (store.new ≡ (placed_lost store.old id work.old).store) }
    ensures work { OnOk result (work.new ≡ (placed_lost store.old id work.old).work) }
{
    if has_blank_place(store, &id) {
        return place_in_root(store, id, work);
    }
    Ok(())
}

/// A filling replica is full as it is. Where no place of it is known it gets one in the root.
fn fill_lost(store: &mut Store, id: FileId, work: &mut Work) -> Result<(), AllocError>
    requires { store.old.names.last < 2 ^ 63 }
    ensures store { OnOk result (store.new ≡ (fill_lost store.old id work.old).store) }
    ensures work { OnOk result (work.new ≡ (fill_lost store.old id work.old).work) }
{
    place_lost(store, id, work)?;
    fill(store, id, work)
}

/// A directory's cell for a thing that is not held takes a place.
fn mark(
    store: &mut Store,
    id: FileId,
    place: &Place,
    dir: FileId,
    work: &mut Work,
) -> Result<(), AllocError>
    ensures store { OnOk result (store.new ≡ (mark id place.now store.old dir work.old).store) }
    ensures work { OnOk result (work.new ≡ (mark id place.now store.old dir work.old).work) }
{
    let entry = Entry {
        child: id,
        place: place.copy()?,
        flags: GoldFlags::new(store.allocator()),
    };
    take_entry(store, dir, entry, work)?;
    Ok(())
}

/// The cells of these directories for a thing that is not held take a place, one behind another.
fn mark_each(
    store: &mut Store,
    id: FileId,
    place: &Place,
    dirs: &[FileId],
    work: &mut Work,
) -> Result<(), AllocError>
    ensures store { OnOk result
        (store.new ≡ (marked_each store.old id place.now dirs.now work.old).store) }
    ensures work { OnOk result
        (work.new ≡ (marked_each store.old id place.now dirs.now work.old).work) }
{
    for dir in dirs {
        mark(store, id, place, *dir, work)?;
    }
    Ok(())
}

/// A dead place with the next stamp, where the directory's cell says that the thing stands.
fn dead_at(store: &Store, moment: u64, id: FileId, dir: FileId) -> Result<Place, AllocError>
    requires last { store.now.names.last < 2 ^ 63 }
    requires there { has_cell_for store.now.names id dir ≡ true }
    ensures { IfOk result (λ place. place ≡ dead_at store.now moment id dir) }
{
    let Some(entry) = store.names.entry(&dir, &id) else {
        unreachable!();
    };
    let known = entry.place.copy()?;
    Ok(Place {
        stamp: next_stamp(store, moment),
        parent: known.parent,
        name: known.name,
        live: false,
    })
}

/// Of a file that is not held the cells in these directories take a dead place, which is made of
/// that in one which has a cell for it. The wish for it ends.
fn strike_from(
    store: &mut Store,
    id: FileId,
    dir: FileId,
    dirs: &[FileId],
    work: &mut Work,
) -> Result<(), AllocError>
    requires last { store.old.names.last < 2 ^ 63 }
    requires there { has_cell_for store.old.names id dir ≡ true }
    ensures store { OnOk result
        (store.new ≡ (strike_from store.old id dir dirs.now work.old).store) }
    ensures work { OnOk result
        (work.new ≡ (strike_from store.old id dir dirs.now work.old).work) }
{
    let place = dead_at(store, work.now, id, dir)?;
    let made = Update::Place {
        id,
        place: place.copy()?,
    };
    work.made.push(made)?;
    store.wishes.take(&id);
    mark_each(store, id, &place, dirs, work)
}

/// A file that is not held, and that a held directory lists, has a dead place from then on,
/// wherever it is known.
#[tactic(auto, using(crate::proofs::Struck::listing_there))]
fn strike_out(store: &mut Store, id: FileId, work: &mut Work) -> Result<(), AllocError>
    requires { store.old.names.last < 2 ^ 63 }
    ensures store { OnOk result (store.new ≡ (strike_out store.old id work.old).store) }
    ensures work { OnOk result (work.new ≡ (strike_out store.old id work.old).work) }
{
    let dirs = dirs_of(&store.names, id)?;
    match last_listing(&store.names, id, dirs.as_slice()) {
        Some(dir) => strike_from(store, id, dir, dirs.as_slice(), work),
        None => Ok(()),
    }
}

/// Whether this is a Patch of the directory.
fn is_patch_to(intent: &Intent, id: FileId) -> bool
    ensures { result ≡ is_patch_to id intent.now }
{
    match intent {
        Intent::Patch { dir, .. } => dir.compare(&id).is_eq(),
        _ => false,
    }
}

/// Whether one of these is.
fn has_patch_to(intents: &Intents, id: FileId) -> bool
    ensures { result ≡ list_any (is_patch_to id) intents.now }
{
    intents.iter().any(|intent| is_patch_to(intent, id))
}

/// Whether a held cell, a Fill or a Patch names a directory. These are the held directories that
/// have a cell for it.
fn is_wanted(store: &Store, id: FileId, dirs: &[FileId]) -> bool
    ensures { result ≡ is_wanted_by store.now id dirs.now }
{
    !dirs.is_empty()
        || store.intents.get(&IntentKey::Fill { file: id }).is_some()
        || has_patch_to(&store.intents, id)
}

/// A place, where it is live.
fn if_live(place: &Place) -> Result<Option<Place>, AllocError>
    ensures { IfOk result (λ live. live ≡ if_live place.now) }
{
    if place.live {
        return Ok(Some(place.copy()?));
    }
    Ok(None)
}

/// The place of a directory's cell for a thing, where it is live.
fn live_place(names: &Names, id: FileId, dir: Option<FileId>) -> Result<Option<Place>, AllocError>
    ensures { IfOk result (λ place. place ≡ place_in names.now id dir) }
{
    match dir {
        Some(dir) => match names.entry(&dir, &id) {
            Some(entry) => if_live(&entry.place),
            None => Ok(None),
        },
        None => Ok(None),
    }
}

/// A full replica of a directory begins under a fresh birth, with this place and these flags.
fn begin_with(store: &mut Store, id: FileId, own: Attributes) -> Result<(), AllocError>
    ensures { OnOk result (store.new ≡ begun_with store.old id own) }
{
    let birth = store.draw_birth()?;
    // A Fill of the directory has another birth: it ends, as a wish does, and its birth never
    // begins.
    store.intents.end(&IntentKey::Fill { file: id });
    store.begin(id, birth, Policy::Last, own, true)
}

/// A directory begins anew in the root. Where a stamp was told that is later than any that is
/// drawn, it is as if memory ran out.
fn begin_in_root(store: &mut Store, id: FileId, work: &mut Work) -> Result<(), AllocError>
    ensures store { OnOk result (store.new ≡ (begun_at store.old id work.old None).store) }
    ensures work { OnOk result (work.new ≡ (begun_at store.old id work.old None).work) }
{
    let blank = Attributes::blank(store.allocator(), id)?;
    begin_with(store, id, blank)?;
    if store.names.last() >= COUNTER_LIMIT {
        return Err(AllocError);
    }
    place_in_root(store, id, work)
}

/// A directory begins anew where it is known to be live, and else in the root.
fn begin_at(
    store: &mut Store,
    id: FileId,
    known: Option<Place>,
    work: &mut Work,
) -> Result<(), AllocError>
    ensures store { OnOk result (store.new ≡ (begun_at store.old id work.old known).store) }
    ensures work { OnOk result (work.new ≡ (begun_at store.old id work.old known).work) }
{
    match known {
        Some(place) => {
            let flags = GoldFlags::new(store.allocator());
            begin_with(store, id, Attributes { place, flags })
        }
        None => begin_in_root(store, id, work),
    }
}

/// A directory that is not held, and that is wanted, begins anew, full and gold: where it is known
/// to be live, and else in the root.
fn begin_lost(store: &mut Store, id: FileId, work: &mut Work) -> Result<(), AllocError>
    ensures store { OnOk result (store.new ≡ (begin_lost store.old id work.old).store) }
    ensures work { OnOk result (work.new ≡ (begin_lost store.old id work.old).work) }
{
    let dirs = dirs_of(&store.names, id)?;
    if !is_wanted(store, id, dirs.as_slice()) {
        return Ok(());
    }
    let last = last_cell(&store.names, id, dirs.as_slice());
    let known = live_place(&store.names, id, last)?;
    begin_at(store, id, known, work)?;
    raise_flag(store, id, work)
}

/// What was lost is given up.
fn forget_lost(store: &mut Store, id: FileId, work: &mut Work) -> Result<(), AllocError>
    requires { store.old.names.last < 2 ^ 63 }
    ensures store { OnOk result (store.new ≡ (forget_lost store.old id work.old).store) }
    ensures work { OnOk result (work.new ≡ (forget_lost store.old id work.old).work) }
{
    if store.names.is_held(&id) {
        fill_lost(store, id, work)
    } else if is_dir(&id) {
        begin_lost(store, id, work)
    } else {
        strike_out(store, id, work)
    }
}

/// What was lost is given up: a filling replica is full as it is, a file that is not held and is
/// listed is taken away, and a directory that is not held and is wanted begins anew. Where it is
/// refused nothing changes. After out of memory a part may be done.
#[tactic(auto, using(crate::proofs::Denials::store_is, crate::proofs::Denials::work_is, crate::proofs::Denials::reply_is))]
pub(crate) fn forget(store: &mut Store, id: FileId, work: &mut Work) -> Result<Reply, AllocError>
    ensures store { OnOk result (store.new ≡ (forget store.old id work.old).store) }
    ensures work { OnOk result (work.new ≡ (forget store.old id work.old).work) }
    ensures reply { IfOk result (λ r. r ≡ (forget store.old id work.old).reply) }
{
    match lost_at(store, id) {
        Ok(id) => {
            forget_lost(store, id, work)?;
            Ok(Reply::Done)
        }
        Err(denied) => Ok(deny(store, denied, work)?),
    }
}
