//! Where a thing is listed: the directories that have a cell for it.

ghost use Rattle.std.specs.Prelude.{◌≡◌, IfOk, None};
ghost use Rattle.pg_checks.specs.Asking.{later, latest};
ghost use Rattle.pg_checks.specs.Listing.{dirs_of, last_listing, later_listing, lists_in};

use crate::asking::is_later;
use pg_base::{FileId, Items};
use pg_pieces::names::Names;
use std::alloc::AllocError;

/// Whether the directory lists the thing.
fn lists_in(names: &Names, id: FileId, dir: &FileId) -> bool
    ensures { result ≡ lists_in names.now id dir.now }
{
    match names.entry(dir, &id) {
        Some(entry) => entry.is_listed(*dir),
        None => false,
    }
}

/// The held directories that have a cell for a thing, by id.
pub fn dirs_of(names: &Names, id: FileId) -> Result<Items<FileId>, AllocError>
    ensures { IfOk result (λ dirs. dirs ≡ dirs_of names.now id) }
{
    Ok(names.holders(&id).copy(names.allocator())?)
}

/// Of a directory so far and this one the one whose cell for a thing has the later place.
fn later(names: &Names, id: FileId, first: Option<FileId>, dir: &FileId) -> Option<FileId>
    ensures { result ≡ later names.now id first dir.now }
{
    if is_later(names, id, first, dir) {
        return Some(*dir);
    }
    first
}

/// Picks of a directory so far and this one the one whose cell for a thing has the later place,
/// where this one lists the thing.
fn later_listing(names: &Names, id: FileId, first: Option<FileId>, dir: &FileId) -> Option<FileId>
    ensures { result ≡ later_listing names.now id first dir.now }
{
    if lists_in(names, id, dir) {
        return later(names, id, first, dir);
    }
    first
}

/// The directory among these whose cell for the thing has the latest place, of those that list it.
pub fn last_listing(names: &Names, id: FileId, dirs: &[FileId]) -> Option<FileId>
    ensures { result ≡ last_listing names.now id dirs.now }
{
    let mut latest = None;
    for dir in dirs {
        latest = later_listing(names, id, latest, dir);
    }
    latest
}

/// The directory among these whose cell for the thing has the latest place.
pub fn last_cell(names: &Names, id: FileId, dirs: &[FileId]) -> Option<FileId>
    ensures { result ≡ latest names.now id None dirs.now }
{
    let mut latest = None;
    for dir in dirs {
        latest = later(names, id, latest, dir);
    }
    latest
}
