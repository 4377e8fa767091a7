//! Whether a held thing is calm.

ghost use Rattle.std.specs.Prelude.{◌≡◌, Some};
ghost use Rattle.std.specs.List.{list_any};
ghost use Rattle.pg_index.specs.Ids.{ids_at};
ghost use Rattle.pg_register.specs.Flag.{IsByServer, is_live};
ghost use Rattle.pg_names.specs.Calm.{above, is_inner, is_live_own, is_returning, is_update, lacks_cell, lacks_parent, place_of};
ghost use Rattle.pg_names.specs.Names.{InodeValue, cell_at, known, own_at};
ghost use Rattle.pg_names.specs.Tests.{comes, is_apart_at, is_found_calm, is_settled, is_sound, passes};

use crate::attributes::Attributes;
use crate::held::Held;
use crate::inode::Inode;
use crate::root::{is_dir, is_root, root};
use crate::same::{is_same_flags, is_same_place};
use pg_base::{FileId, Stamp};
use pg_index::Ids;
use pg_register::{Place, is_removed};

/// Whether the place is any but the blank one.
fn is_update(place: &Place) -> bool
    ensures { result ≡ is_update place.now }
{
    place.live || Stamp { time: 0, server: 0 }.is_before(place.stamp)
}

/// Whether the held parent in the place lacks a cell for the thing.
fn lacks_cell(held: &Held, file: &FileId, place: &Place) -> bool
    ensures { result ≡ lacks_cell held.now file.now place.now }
{
    is_update(place)
        && is_dir(&place.parent)
        && held.get(&place.parent).is_some()
        && held.entry(&place.parent, file).is_none()
}

/// Whether the parent in the live place is not held.
fn lacks_parent(held: &Held, place: &Place) -> bool
    ensures { result ≡ lacks_parent held.now place.now }
{
    place.live && held.get(&place.parent).is_none()
}

/// Whether it is dead, and lists a child.
fn is_returning(dir: &FileId, x: &Inode) -> bool
    ensures { result ≡ is_returning dir.now x.now }
{
    let place = &x.own().place;
    let first = Stamp { time: 0, server: 0 };
    !place.live && first.is_before(place.stamp) && x.entries().lists_any(*dir)
}

fn is_settled(held: &Held, file: &FileId, x: &Inode) -> bool
    ensures { result ≡ is_settled held.now file.now x.now }
{
    let place = &x.own().place;
    is_root(file)
        || (!lacks_cell(held, file, place) && !lacks_parent(held, place) && !is_returning(file, x))
}

fn sees_gold(held: &Held, own: &Attributes) -> bool
    ensures { result ≡ list_any (is_live held.now.removed) own.now.flags }
{
    let removed = held.removed();
    own.flags
        .as_slice()
        .iter()
        .any(|flag| flag.raised && !is_removed(removed, flag.server))
}

fn is_sound(held: &Held, x: &Inode) -> bool
    ensures { result ≡ is_sound held.now x.now }
{
    x.is_full()
        && sees_gold(held, x.own())
        && !(Stamp::CLOCK_END <= x.own().flags.number(held.server()))
}

/// Whether the cell for the thing there is not as the thing itself.
fn is_apart_at(held: &Held, file: &FileId, own: &Attributes, dir: &FileId) -> bool
    ensures { result ≡ is_apart_at held.now file.now own.now dir.now }
{
    match held.entry(dir, file) {
        Some(cell) => {
            !(cell.child.compare(file).is_eq()
                && is_same_place(&cell.place, &own.place)
                && is_same_flags(cell.flags.as_slice(), own.flags.as_slice()))
        }
        None => false,
    }
}

/// Whether one of these cells for the thing is not as the thing itself.
fn is_apart(held: &Held, file: &FileId, own: &Attributes, dirs: &Ids) -> bool
    ensures { result ≡ list_any (is_apart_at held.now file.now own.now) dirs.now }
{
    dirs.as_slice()
        .iter()
        .any(|dir| is_apart_at(held, file, own, dir))
}

/// Whether this is a live directory other than the root.
fn is_inner(held: &Held, dir: &FileId) -> bool
    ensures { result ≡ is_inner held.now dir.now }
{
    match held.own(dir) {
        Some(own) => is_dir(dir) && !is_root(dir) && own.place.live,
        None => false,
    }
}

/// The directory in which it stands. Above any other there is the root.
fn above(held: &Held, dir: &FileId) -> FileId
    ensures { result ≡ above held.now dir.now }
{
    match held.own(dir) {
        Some(own) if is_inner(held, dir) => own.place.parent,
        _ => root(),
    }
}

/// Whether one comes out of the live directories in fewer than so many steps up.
fn comes(held: &Held, count: usize, dir: &FileId) -> bool
    ensures { result ≡ comes held.now count dir.now }
{
    let mut at = *dir;
    for i in 0..count {
        if !is_inner(held, &at) {
            return true;
        }
        at = above(held, &at);
    }
    false
}

fn passes(held: &Held, dirs: &Ids, file: &FileId) -> bool
    ensures passes { result ≡ passes held.now dirs.now file.now (known held.now file.now) }
    ensures by_server { (x : InodeValue) → known held.now file.now ≡ Some x
        → IsByServer x.own.flags }
{
    match held.get(file) {
        Some(x) => {
            let _flags = x.own().flags.as_slice();
            is_sound(held, x) && is_settled(held, file, x) && !is_apart(held, file, x.own(), dirs)
        }
        None => true,
    }
}

/// Whether the thing is calm, where these are the directories with a cell for it, and comes out of
/// the live directories, of which there are so many.
pub(crate) fn is_calm(held: &Held, dirs: &Ids, count: usize, file: &FileId) -> bool
    ensures calm { result ≡ is_found_calm held.now dirs.now count file.now }
    ensures by_server { (x : InodeValue) → known held.now file.now ≡ Some x
        → IsByServer x.own.flags }
{
    passes(held, dirs, file) && comes(held, count, file)
}
