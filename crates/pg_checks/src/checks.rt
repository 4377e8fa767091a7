//! What a call is about, and why it is refused before anything is done.

ghost use Rattle.std.specs.Prelude.{◌≡◌, IfOk};
ghost use Rattle.pg_lookup.specs.Walk.{reach, reach_parent};
ghost use Rattle.pg_pieces.specs.pg_names.Names.{known};
ghost use Rattle.pg_checks.specs.Answer.{Tells};
ghost use Rattle.pg_checks.specs.Checks.{dir_at, empty_dir_at, file_at, first_child, first_row, id_at, in_time, move_along, move_of, move_to, new_name, new_name_in, target_at, thing_at, when_free};

use crate::call_error::CallError;
use crate::paths::{Paths, last_of, new_path_of, path_of, paths_of};
use pg_base::{FileId, SharedBytes};
use pg_lookup::{
    Found, LookupError, ROOT, Way, is_above, is_dir_full, reach, reach_parent, reached, shown_by,
};
use pg_path::{Path, Row};
use pg_pieces::call::{Refusal, Target};
use pg_pieces::house::is_root;
use pg_pieces::names::{Names, is_dir};
use pg_pieces::store::Store;
use std::alloc::AllocError;

/// The directory in which a new name is to be, and the name.
#[derive(Debug, Drop)]
pub struct NewName {
    /// The directory, which is held here, and full.
    pub dir: FileId,
    /// A name that a client may give.
    pub name: SharedBytes,
}

/// A thing, and where it is to go.
#[derive(Debug, Drop)]
pub struct Move {
    /// What goes: no root.
    pub thing: FileId,
    /// Where it goes: nothing shows that name there.
    pub to: NewName,
}

/// The clock is looked at behind the texts of paths: `ClockEnd` at its end.
pub fn in_time(store: &Store) -> Result<(), CallError>
    ensures { Tells result (in_time store.now tt) }
{
    if !store.is_before_clock_end() {
        return Err(CallError::refused(Refusal::ClockEnd));
    }
    Ok(())
}

/// What a path leads to here.
fn reach_at(store: &Store, path: &Path, needs_dir: bool) -> Result<FileId, LookupError>
    ensures { result ≡ reach store.now.names needs_dir path.now }
{
    reach(&store.names, path, needs_dir)
}

/// The directory here in which the last component of a path is to be a new name.
fn reach_parent_at(store: &Store, path: &Path) -> Result<FileId, LookupError>
    ensures { result ≡ reach_parent store.now.names path.now }
{
    reach_parent(&store.names, path)
}

/// What the text of a path leads to, held and full.
fn thing_at(store: &Store, needs_dir: bool, text: &[u8]) -> Result<FileId, CallError>
    ensures { Tells result (thing_at store.now needs_dir text.now) }
{
    let path = path_of(store.allocator(), text)?;
    in_time(store)?;
    Ok(reach_at(store, &path, needs_dir)?)
}

/// What the text of a path leads to, held and full, which has to be a file: else `IsDir`.
pub fn file_at(store: &Store, text: &[u8]) -> Result<FileId, CallError>
    ensures { Tells result (file_at store.now text.now) }
{
    let file = thing_at(store, false, text)?;
    if is_dir(&file) {
        return Err(CallError::refused(Refusal::IsDir));
    }
    Ok(file)
}

/// What the text of a path leads to, held and full, which has to be a directory.
pub fn dir_at(store: &Store, text: &[u8]) -> Result<FileId, CallError>
    ensures { Tells result (dir_at store.now text.now) }
{
    thing_at(store, true, text)
}

/// What a target names, held and full.
pub fn target_at(store: &Store, target: &Target) -> Result<FileId, CallError>
    ensures { Tells result (target_at store.now target.now) }
{
    match target {
        Target::Path(text) => thing_at(store, false, text.as_slice()),
        Target::Id(id) => id_at(store, *id),
    }
}

/// What an id names, held and full.
fn id_at(store: &Store, id: FileId) -> Result<FileId, CallError>
    ensures { Tells result (id_at store.now id) }
{
    in_time(store)?;
    let found = Found {
        file: id,
        way: Way::Id,
    };
    Ok(reached(&store.names, found)?)
}

/// Where the last component of the path is to be a new name, for this child. `Exists` where its
/// directory shows it already, as the root does its own path; `DirFull` where there is no room for
/// a cell of the child.
pub fn new_name(store: &Store, child: FileId, text: &[u8]) -> Result<NewName, CallError>
    ensures { Tells result (new_name store.now child text.now) }
{
    let path = new_path_of(store.allocator(), text)?;
    in_time(store)?;
    let dir = reach_parent_at(store, &path)?;
    new_name_here(store, child, &path, dir)
}

/// The last component as a new name in this directory here.
fn new_name_here(
    store: &Store,
    child: FileId,
    path: &Path,
    dir: FileId,
) -> Result<NewName, CallError>
    ensures { Tells result (new_name_in store.now.names child path.now dir) }
{
    new_name_in(&store.names, child, path, dir)
}

/// The last component as a new name in this directory. The root shows its own path.
fn new_name_in(names: &Names, child: FileId, path: &Path, dir: FileId) -> Result<NewName, CallError>
    ensures { Tells result (new_name_in names.now child path.now dir) }
{
    if path.is_empty() {
        return Err(CallError::refused(Refusal::Exists(ROOT)));
    }
    when_free(names, child, dir, last_of(path))
}

/// The name, if nothing shows it in the directory, which has room for a cell of the child.
fn when_free(names: &Names, child: FileId, dir: FileId, name: &[u8]) -> Result<NewName, CallError>
    ensures { Tells result
        (when_free names.now child (record { dir = dir; name = name.now })) }
{
    if let Some(other) = shown_by(names, dir, name) {
        return Err(CallError::refused(Refusal::Exists(other)));
    }
    if is_dir_full(names, dir, child) {
        return Err(CallError::refused(Refusal::DirFull));
    }
    let name = SharedBytes::from_slice(names.allocator(), name)?;
    Ok(NewName { dir, name })
}

/// What the first path leads to, and the last component of the second as its new name. Both texts
/// are looked at before either is walked. `Root` and `Loop` where it cannot go there.
pub fn move_of(store: &Store, from: &[u8], to: &[u8]) -> Result<Move, CallError>
    ensures { Tells result (move_of store.now from.now to.now) }
{
    let paths = paths_of(store.allocator(), from, to)?;
    in_time(store)?;
    move_along(store, &paths)
}

/// What the first of these paths leads to, and the last component of the second as its new name.
/// `Root` and `Loop` where it cannot go there.
fn move_along(store: &Store, paths: &Paths) -> Result<Move, CallError>
    ensures { Tells result (move_along store.now paths.now) }
{
    let thing = reach(&store.names, &paths.from, false)?;
    let dir = reach_parent(&store.names, &paths.to)?;
    move_to(&store.names, thing, &paths.to, dir)
}

/// The thing as it is to go into this directory: the root does not move, and a directory not below
/// itself.
fn move_to(names: &Names, thing: FileId, path: &Path, dir: FileId) -> Result<Move, CallError>
    ensures { Tells result (move_to names.now thing path.now dir) }
{
    if is_root(&thing) {
        return Err(CallError::refused(Refusal::Root));
    }
    let to = new_name_in(names, thing, path, dir)?;
    if is_dir(&thing) && is_above(names, thing, to.dir) {
        return Err(CallError::refused(Refusal::Loop));
    }
    Ok(Move { thing, to })
}

/// A directory other than the root, which shows no name: else `NotEmpty` with the first child that
/// it shows.
pub fn empty_dir_at(store: &Store, text: &[u8]) -> Result<FileId, CallError>
    ensures { Tells result (empty_dir_at store.now text.now) }
{
    let dir = dir_at(store, text)?;
    if is_root(&dir) {
        return Err(CallError::refused(Refusal::Root));
    }
    match first_child(&store.names, dir)? {
        Some(child) => Err(CallError::refused(Refusal::NotEmpty(child))),
        None => Ok(dir),
    }
}

/// The first child that a directory shows.
fn first_child(names: &Names, dir: FileId) -> Result<Option<FileId>, AllocError>
    ensures { IfOk result (λ child. child ≡ first_child dir (known names.now dir)) }
{
    match names.get(&dir) {
        Some(held) => Ok(first_row(held.entries().page(dir, 0, 1)?.as_slice())),
        None => Ok(None),
    }
}

fn first_row(rows: &[Row]) -> Option<FileId>
    ensures { result ≡ first_row rows.now }
{
    match rows {
        [row, ..] => Some(row.child),
        [] => None,
    }
}
