//! Passing: a thing and the directories that know of it come to the same place and flags.

ghost use Rattle.std.specs.Prelude.{◌≡◌, ◌||◌, not, OnOk, IfOk};
ghost use Rattle.std.specs.Option.{option_copied};
ghost use Rattle.std.specs.List.{filter};
ghost use Rattle.pg_base.specs.declared.id.FileId.{FileId};
ghost use Rattle.pg_base.specs.Id.{is_same_file};
ghost use Rattle.pg_index.specs.Ids.{is_one_of};
ghost use Rattle.pg_names.specs.Calm.{holders};
ghost use Rattle.pg_names.specs.Names.{cell_at, directories, is_dir, own_at};
ghost use Rattle.pg_names.specs.Same.{is_same_entry};
ghost use Rattle.pg_house.specs.Work.{state_of};
ghost use Rattle.pg_house.specs.Passing.{cell_for, differs, gets, given, greatest, is_held_back, is_in, is_taker, is_update, joined, joined_with, offered, own_taken, pass, pass_all, passed_to, spread, taking, took, wants};

use crate::changes::dirty_things;
use crate::touching::{touch, touch_own};
use pg_base::{FileId, Items, Stamp};
use pg_edges::Key;
use pg_entries::Entry;
use pg_index::Ids;
use pg_msg::Work;
use pg_names::{Attributes, Names, is_dir, is_same_flags, is_same_own, is_same_place};
use pg_register::Place;
use std::alloc::AllocError;

/// Whether a place is any but the blank one.
pub(crate) fn is_update(place: &Place) -> bool
    ensures { result ≡ is_update place.now }
{
    let first = Stamp { time: 0, server: 0 };
    place.live || first.is_before(place.stamp)
}

fn is_in(dir: &FileId, place: &Place) -> bool
    ensures { result ≡ is_in dir.now place.now }
{
    place.parent.compare(dir).is_eq()
}

/// Takes the newer place, and of each server the newer flag. After out of memory a part may be
/// taken.
fn raise(top: &mut Attributes, cell: &Entry) -> Result<(), AllocError>
    ensures { OnOk result (top.new ≡ joined top.old cell.now) }
{
    top.flags.join_all(&cell.flags)?;
    if top.place.stamp.is_before(cell.place.stamp) {
        top.place = cell.place.copy()?;
    }
    Ok(())
}

/// Takes what is newer of a directory's cell for a thing, where it has one. After out of memory a
/// part may be taken.
fn raise_by(
    top: &mut Attributes,
    names: &Names,
    file: &FileId,
    dir: &FileId,
) -> Result<(), AllocError>
    ensures { OnOk result (top.new ≡ joined_with top.old (cell_at names.now dir.now file.now)) }
{
    match names.entry(dir, file) {
        Some(cell) => {
            raise(top, cell)?;
            Ok(())
        }
        None => Ok(()),
    }
}

/// The directories that have a cell for a thing, by id.
fn cell_dirs(names: &Names, file: &FileId) -> Result<Items<FileId>, AllocError>
    ensures { IfOk result (λ dirs. dirs ≡ filter is_dir (holders names.now file.now)) }
{
    Ok(Items::from_vec(
        names
            .holders(file)
            .as_slice()
            .iter()
            .copied()
            .filter(|dir| is_dir(dir))
            .collect(names.allocator())?,
    ))
}

/// The greatest of what is known of a thing, by these directories.
fn greatest(
    names: &Names,
    dirs: &[FileId],
    file: &FileId,
    own: &Attributes,
) -> Result<Attributes, AllocError>
    ensures { IfOk result (λ top. top ≡ greatest names.now file.now own.now dirs.now) }
{
    let mut top = own.copy()?;
    for dir in dirs {
        raise_by(&mut top, names, file, dir)?;
    }
    Ok(top)
}

/// Whether the thing itself does not take the greatest place.
fn is_held_back(names: &Names, file: &FileId, own: &Attributes, top: &Attributes) -> bool
    ensures { result ≡ is_held_back names.now.removed file.now own.now top.now }
{
    is_dir(file)
        && !top.place.live
        && own.place.stamp.is_before(top.place.stamp)
        && !names.is_removed(top.place.stamp.server)
}

/// Whether the directory is to have a cell for the thing.
fn wants(
    names: &Names,
    file: &FileId,
    own: &Attributes,
    top: &Attributes,
    back: bool,
    dir: &FileId,
) -> bool
    ensures { result ≡ wants names.now file.now own.now top.now back dir.now }
{
    names.entry(dir, file).is_some()
        || (is_update(&top.place) && is_in(dir, &top.place))
        || (back && own.place.live && is_in(dir, &own.place))
}

/// The place and flags as a cell for the thing.
fn cell_for(file: &FileId, own: &Attributes) -> Result<Entry, AllocError>
    ensures { IfOk result (λ cell. cell ≡ cell_for file.now own.now) }
{
    Ok(Entry {
        child: *file,
        place: own.place.copy()?,
        flags: own.flags.copy()?,
    })
}

/// Whether a cell is another than the greatest.
pub(crate) fn is_other_cell(held: &Entry, file: &FileId, top: &Attributes) -> bool
    ensures { result ≡ not (is_same_entry held.now (cell_for file.now top.now)) }
{
    !(held.child.compare(file).is_eq()
        && is_same_place(&held.place, &top.place)
        && is_same_flags(held.flags.as_slice(), top.flags.as_slice()))
}

/// Whether the directory has another cell for the thing than the greatest, or none.
fn differs(names: &Names, file: &FileId, top: &Attributes, dir: &FileId) -> bool
    ensures { result ≡ differs (cell_at names.now dir.now file.now) (cell_for file.now top.now) }
{
    match names.entry(dir, file) {
        Some(held) => is_other_cell(held, file, top),
        None => true,
    }
}

/// Whether the directory is to get the greatest: it is to have it, and has it not.
fn gets(
    names: &Names,
    file: &FileId,
    own: &Attributes,
    top: &Attributes,
    back: bool,
    dir: &FileId,
) -> bool
    ensures { result ≡ gets names.now file.now own.now top.now back dir.now }
{
    wants(names, file, own, top, back, dir) && differs(names, file, top, dir)
}

/// The directory takes the greatest, whole.
fn give(
    names: &mut Names,
    work: &mut Work,
    file: &FileId,
    top: &Attributes,
    dir: &FileId,
) -> Result<(), AllocError>
    ensures { OnOk result (state_of names.new work.new
        ≡ given (state_of names.old work.old) file.now top.now dir.now) }
{
    names.set_entry(dir, cell_for(file, top)?)?;
    touch(work, *dir, Key::Entry(*file))?;
    Ok(())
}

/// Where it is to have it, and has it not.
fn offer(
    names: &mut Names,
    work: &mut Work,
    file: &FileId,
    own: &Attributes,
    top: &Attributes,
    back: bool,
    dir: &FileId,
) -> Result<(), AllocError>
    ensures { OnOk result (state_of names.new work.new
        ≡ offered (state_of names.old work.old) file.now own.now top.now back dir.now) }
{
    if gets(names, file, own, top, back, dir) {
        give(names, work, file, top, dir)?;
        return Ok(());
    }
    Ok(())
}

/// Gives the cell to each of these directories that is to have it and has it not.
fn spread(
    names: &mut Names,
    work: &mut Work,
    dirs: &[FileId],
    file: &FileId,
    own: &Attributes,
    top: &Attributes,
    back: bool,
) -> Result<(), AllocError>
    ensures { OnOk result (state_of names.new work.new
        ≡ spread (state_of names.old work.old) file.now own.now top.now back dirs.now) }
{
    for dir in dirs {
        offer(names, work, file, own, top, back, dir)?;
    }
    Ok(())
}

/// What the thing itself takes.
fn own_taken(own: &Attributes, top: &Attributes, back: bool) -> Result<Attributes, AllocError>
    ensures { IfOk result (λ taken. taken ≡ own_taken own.now top.now back) }
{
    if back {
        Ok(Attributes {
            place: own.place.copy()?,
            flags: top.flags.copy()?,
        })
    } else {
        Ok(top.copy()?)
    }
}

fn take_other(
    names: &mut Names,
    work: &mut Work,
    file: &FileId,
    own: &Attributes,
    taken: Attributes,
) -> Result<(), AllocError>
    ensures { OnOk result (state_of names.new work.new
        ≡ took (state_of names.old work.old) file.now own.now taken) }
{
    touch_own(work, *file, own, &taken)?;
    names.set_own(file, taken)?;
    Ok(())
}

/// Where it is another.
fn take(
    names: &mut Names,
    work: &mut Work,
    file: &FileId,
    own: &Attributes,
    taken: Attributes,
) -> Result<(), AllocError>
    ensures { OnOk result (state_of names.new work.new
        ≡ taking (state_of names.old work.old) file.now own.now taken) }
{
    if is_same_own(own, &taken) {
        return Ok(());
    }
    take_other(names, work, file, own, taken)?;
    Ok(())
}

/// What has a cell for a thing, as a set of its own.
fn copied_holders(names: &Names, file: &FileId) -> Result<Ids, AllocError>
    ensures { IfOk result (λ ids. (q : FileId)
        → is_one_of q ids ≡ is_one_of q (holders names.now file.now)) }
{
    let mut ids = Ids::new(names.allocator());
    for dir in names.holders(file).as_slice() {
        ids.insert(*dir)?;
    }
    Ok(ids)
}

/// All ids among which are the directories that have a cell for the thing, and its parents.
fn candidates(
    names: &Names,
    file: &FileId,
    own: &Attributes,
    top: &Attributes,
) -> Result<Ids, AllocError>
    ensures { IfOk result (λ ids. (q : FileId) → is_one_of q ids
        ≡ (is_same_file q own.now.place.parent || (is_same_file q top.now.place.parent
        || is_one_of q (holders names.now file.now)))) }
{
    let mut ids = copied_holders(names, file)?;
    ids.insert(top.place.parent)?;
    ids.insert(own.place.parent)?;
    Ok(ids)
}

/// Whether this is a held directory that is to have a cell for the thing.
fn is_taker(
    names: &Names,
    file: &FileId,
    own: &Attributes,
    top: &Attributes,
    back: bool,
    dir: &FileId,
) -> bool
    ensures { result ≡ is_taker names.now file.now own.now top.now back dir.now }
{
    is_dir(dir) && names.is_held(dir) && wants(names, file, own, top, back, dir)
}

/// The held directories that are to have a cell for the thing, by id. It looks at no others than
/// those that have one, and at its parents.
fn takers(
    names: &Names,
    file: &FileId,
    own: &Attributes,
    top: &Attributes,
    back: bool,
) -> Result<Items<FileId>, AllocError>
    ensures { IfOk result (λ dirs. dirs
        ≡ filter (wants names.now file.now own.now top.now back) (directories names.now)) }
{
    let _dirty = dirty_things(names);
    let ids = candidates(names, file, own, top)?;
    let held = ids.as_slice();
    Ok(Items::from_vec(
        held.iter()
            .copied()
            .filter(|dir| is_taker(names, file, own, top, back, dir))
            .collect(names.allocator())?,
    ))
}

fn pass_to(
    names: &mut Names,
    work: &mut Work,
    file: &FileId,
    own: &Attributes,
    top: &Attributes,
) -> Result<(), AllocError>
    ensures { OnOk result (state_of names.new work.new
        ≡ passed_to (state_of names.old work.old) (directories names.old)
        file.now own.now top.now) }
{
    let back = is_held_back(names, file, own, top);
    let dirs = takers(names, file, own, top, back)?;
    spread(names, work, dirs.as_slice(), file, own, top, back)?;
    take(names, work, file, own, own_taken(own, top, back)?)?;
    Ok(())
}

/// Passing for one thing. It looks at the directories that have a cell for it, and at its parents.
pub(crate) fn pass(names: &mut Names, work: &mut Work, file: &FileId) -> Result<(), AllocError>
    ensures { OnOk result (state_of names.new work.new
        ≡ pass (state_of names.old work.old) (directories names.old) file.now) }
{
    let own = match names.own(file) {
        Some(own) => own.copy()?,
        None => return Ok(()),
    };
    let dirs = cell_dirs(names, file)?;
    let top = greatest(names, dirs.as_slice(), file, &own)?;
    pass_to(names, work, file, &own, &top)?;
    Ok(())
}

/// Passing for each of these things.
pub(crate) fn pass_all(
    names: &mut Names,
    work: &mut Work,
    files: &[FileId],
) -> Result<(), AllocError>
    ensures { OnOk result (state_of names.new work.new
        ≡ pass_all (state_of names.old work.old) (directories names.old) files.now) }
{
    for file in files {
        pass(names, work, file)?;
    }
    Ok(())
}
