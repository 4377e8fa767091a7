//! Places that are held back.

ghost use Rattle.std.specs.Prelude.{◌≡◌, length};
ghost use Rattle.std.specs.List.{slice_get};
ghost use Rattle.pg_names.specs.Names.{cell_at, directories};
ghost use Rattle.pg_house.specs.Holding.{held_back, is_dir_back, later, latest, waits};

use crate::changes::dirty_things;
use pg_base::FileId;
use pg_names::{Names, is_dir, is_root};
use pg_register::Place;

/// The later of a place and the one in the directory's cell for the thing, if it has one.
fn later<'a>(top: &'a Place, names: &'a Names, file: &FileId, dir: &FileId) -> &'a Place
    ensures { result.now ≡ later top.now (cell_at names.now dir.now file.now) }
{
    match names.entry(dir, file) {
        Some(cell) if top.stamp.is_before(cell.place.stamp) => &cell.place,
        _ => top,
    }
}

/// The latest of the place and those for the thing in the directories that are held. It looks at
/// those that have a cell for it.
fn latest<'a>(names: &'a Names, file: &FileId, own: &'a Place) -> &'a Place
    ensures { result.now ≡ latest names.now file.now own.now (directories names.now) }
{
    let mut top = own;
    for dir in names.holders(file).as_slice() {
        if is_dir(dir) {
            top = later(top, names, file, dir);
        }
    }
    top
}

/// Whether a directory with the first place does not take the other.
fn waits(names: &Names, dir: &FileId, own: &Place, top: &Place) -> bool
    ensures { result ≡ waits names.now.removed dir.now own.now top.now }
{
    is_dir(dir)
        && !top.live
        && own.stamp.is_before(top.stamp)
        && !names.is_removed(top.stamp.server)
}

/// Whether the greatest place of a directory is held back.
fn is_dir_back(names: &Names, dir: &FileId) -> bool
    ensures { result ≡ is_dir_back names.now dir.now }
{
    match names.own(dir) {
        Some(own) => !is_root(dir) && waits(names, dir, &own.place, latest(names, dir, &own.place)),
        None => false,
    }
}

/// The first directory whose place is held back, by id. It takes no memory, and looks at what is
/// dirty: of no other thing a place is held back.
pub fn first_held_back(names: &Names) -> Option<FileId>
    ensures { result ≡ slice_get (held_back names.now) 0 }
{
    for file in dirty_things(names).as_slice() {
        if is_dir(file) && is_dir_back(names, file) {
            return Some(*file);
        }
    }
    None
}

/// How many directories there are whose places are held back. It takes no memory.
pub fn count_held_back(names: &Names) -> usize
    ensures { result ≡ length (held_back names.now) }
{
    dirty_things(names)
        .as_slice()
        .iter()
        .filter(|file| is_dir(file) && is_dir_back(names, file))
        .count()
}
