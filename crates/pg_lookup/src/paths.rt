//! What a path leads to.

ghost use Rattle.std.specs.Prelude.{◌≡◌, ◌≤◌, ◌<◌, ◌+◌, ◌||◌, drop, length, nat_lt, take};
ghost use Rattle.pg_lookup.specs.Walk.{and_then, is_dir_full, look_in, look_up, reach, reach_parent, reached, shown_by, walk, walk_from};

use pg_base::{FileId, Kind};
use pg_call::Refusal;
use pg_names::{Names, is_dir};
use pg_path::Path;

/// The directory above all others.
pub const ROOT: FileId = FileId {
    kind: Kind::Dir,
    server: 0,
    number: 0,
};

/// The most cells of a directory to which a call adds one.
const MOST_CELLS: usize = 4096;

/// How a call came to a thing.
#[derive(Clone, Copy, Debug, PartialEq, Eq)]
pub enum Way {
    /// The call begins at the root, as every walk does.
    Start,
    /// By the entry for it in this directory.
    Entry(FileId),
    /// The call names its id.
    Id,
}

/// A thing to which a call came. It may be held here or not.
#[derive(Clone, Copy, Debug, PartialEq, Eq)]
pub struct Found {
    pub file: FileId,
    pub way: Way,
}

/// Where every walk begins.
const START: Found = Found {
    file: ROOT,
    way: Way::Start,
};

/// Why a walk does not go on.
#[derive(Clone, Copy, Debug, PartialEq, Eq)]
pub enum LookupError {
    Refused(Refusal),
    /// The walk came to this thing, which is not held here, or is filling.
    NotYet(Found),
}

/// What the first `count` components of a path lead to from the root on, or all where it has fewer.
/// Each but the last has to be a directory, and the last where `needs_dir` asks for it.
///
/// It stops at the first component at which one of these holds, tried in this order: `NotYet`, the
/// directory in which it is looked up is not held and full; `NoName`, that does not show it;
/// `NotDir`, a directory is needed, and it is a file.
pub fn walk(names: &Names, path: &Path, count: usize, needs_dir: bool) -> Result<Found, LookupError>
    ensures { result ≡ walk names.now needs_dir (take count path.now) }
{
    let count = count.min(path.len());
    let mut found = START;
    for index in 0..count {
        found = follow(names, path, found, index, count, needs_dir)?;
    }
    Ok(found)
}

/// The step of a walk over the first `count` components at the one with this index, counted from 0.
fn follow(
    names: &Names,
    path: &Path,
    found: Found,
    index: usize,
    count: usize,
    needs_dir: bool,
) -> Result<Found, LookupError>
    requires inside { index < count }
    requires some { count ≤ length path.now }
    requires few { length path.now ≤ 64 }
    ensures { walk_from names.now found (index + 1) needs_dir (drop index (take count path.now))
        ≡ and_then result (λ next. walk_from names.now next (index + 1 + 1) needs_dir
        (drop (index + 1) (take count path.now))) }
{
    let needs_dir = is_dir_needed(index, count, needs_dir);
    look_up(names, found, index as u8 + 1, needs_dir, path.part(index))
}

/// Whether the component at this index of `count` has to be a directory.
fn is_dir_needed(index: usize, count: usize, needs_dir: bool) -> bool
    requires { index < count }
    ensures { result ≡ (nat_lt (index + 1) count || needs_dir) }
{
    index + 1 < count || needs_dir
}

/// What the name of a component leads to in what the walk came to, which has to be held and full.
fn look_up(
    names: &Names,
    found: Found,
    number: u8,
    needs_dir: bool,
    name: &[u8],
) -> Result<Found, LookupError>
    ensures { result ≡ look_up names.now found number needs_dir name.now }
{
    let dir = reached(names, found)?;
    look_in(names, dir, number, needs_dir, name)
}

/// What the name leads to in a directory.
fn look_in(
    names: &Names,
    dir: FileId,
    number: u8,
    needs_dir: bool,
    name: &[u8],
) -> Result<Found, LookupError>
    ensures { result ≡ look_in names.now number needs_dir name.now dir }
{
    let Some(child) = shown_by(names, dir, name) else {
        return Err(LookupError::Refused(Refusal::NoName(number)));
    };
    if needs_dir && !is_dir(&child) {
        return Err(LookupError::Refused(Refusal::NotDir(number)));
    }
    Ok(Found {
        file: child,
        way: Way::Entry(dir),
    })
}

/// What a call is about, which has to be held and full.
pub fn reached(names: &Names, found: Found) -> Result<FileId, LookupError>
    ensures { result ≡ reached names.now found }
{
    if names.is_full(&found.file) {
        Ok(found.file)
    } else {
        Err(LookupError::NotYet(found))
    }
}

/// What a path leads to, which has to be held and full: that is asked behind all that a walk stops
/// for.
pub fn reach(names: &Names, path: &Path, needs_dir: bool) -> Result<FileId, LookupError>
    ensures { result ≡ reach names.now needs_dir path.now }
{
    let found = walk(names, path, path.len(), needs_dir)?;
    reached(names, found)
}

/// The directory in which the last component of a path is to be a new name: what the others lead
/// to. The path of the root has no last component: for it this is the root.
pub fn reach_parent(names: &Names, path: &Path) -> Result<FileId, LookupError>
    ensures { result ≡ reach_parent names.now path.now }
{
    let count = path.len().saturating_sub(1);
    let found = walk(names, path, count, true)?;
    reached(names, found)
}

/// What shows the name in a directory, where that is held.
pub fn shown_by(names: &Names, dir: FileId, name: &[u8]) -> Option<FileId>
    ensures { result ≡ shown_by names.now dir name.now }
{
    match names.get(&dir) {
        Some(held) => held.entries().find(dir, name),
        None => None,
    }
}

/// Whether no call may add a cell for this child to the directory: it has 4,096 or more, and none
/// for the child.
pub fn is_dir_full(names: &Names, dir: FileId, child: FileId) -> bool
    ensures { result ≡ is_dir_full names.now dir child }
{
    match names.get(&dir) {
        Some(held) => {
            held.entries().count() >= MOST_CELLS && held.entries().get(child).is_none()
        }
        None => false,
    }
}
