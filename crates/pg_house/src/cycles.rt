//! Cycles: of live directories that stand in each other, one moves to the root.

ghost use Rattle.std.specs.Prelude.{◌≡◌, ◌<◌, ◌≤◌, ◌+◌, ◌^◌, false, None, Some, OnOk, IfOk, length, max};
ghost use Rattle.std.specs.Option.{option_copied};
ghost use Rattle.std.specs.List.{list_any};
ghost use Rattle.pg_names.specs.Names.{directories, own_at};
ghost use Rattle.pg_house.specs.Work.{state_of};
ghost use Rattle.pg_house.specs.Placing.{place_at, place_of, repeated};
ghost use Rattle.pg_house.specs.Cycles.{above, break_first, climb, first_moving, is_inner, is_live_own, is_lost, later, latest, latest_member, least, least_moving, moved};
ghost use Rattle.pg_register.specs.Place.{root};

use crate::changes::dirty_things;
use crate::placing::place;
use pg_base::{FileId, Kind, Stamp};
use pg_index::Ids;
use pg_msg::Work;
use pg_names::{Names, is_dir, is_root};
use pg_register::tilde_name;
use std::alloc::AllocError;

fn root() -> FileId
    ensures { result ≡ root }
{
    FileId {
        kind: Kind::Dir,
        server: 0,
        number: 0,
    }
}

fn is_live(names: &Names, file: &FileId) -> bool
    ensures { result ≡ is_live_own (own_at names.now file.now) }
{
    match names.own(file) {
        Some(own) => own.place.live,
        None => false,
    }
}

/// Whether this is a live held directory other than the root.
fn is_inner(names: &Names, dir: &FileId) -> bool
    ensures { result ≡ is_inner names.now dir.now }
{
    is_dir(dir) && !is_root(dir) && is_live(names, dir)
}

fn parent(names: &Names, file: &FileId) -> FileId
    ensures { result ≡ (place_at names.now file.now).parent }
{
    match names.own(file) {
        Some(own) => own.place.parent,
        None => root(),
    }
}

/// The stamp of a held file's own place.
fn stamp(names: &Names, file: &FileId) -> Stamp
    ensures { result ≡ (place_at names.now file.now).stamp }
{
    match names.own(file) {
        Some(own) => own.place.stamp,
        None => Stamp { time: 0, server: 0 },
    }
}

/// The directory in which it stands. Above any other there is the root.
fn above(names: &Names, dir: &FileId) -> FileId
    ensures { result ≡ above names.now dir.now }
{
    if is_inner(names, dir) {
        parent(names, dir)
    } else {
        root()
    }
}

/// The directory that stands so many steps above this one.
fn climb(names: &Names, steps: usize, dir: &FileId) -> FileId
    ensures { result ≡ climb names.now steps dir.now }
{
    let mut at = *dir;
    for i in 0..steps {
        if !is_inner(names, &at) {
            return root();
        }
        at = above(names, &at);
    }
    at
}

/// Whether a directory never comes to the root, where so many directories are held.
fn is_lost(names: &Names, count: usize, dir: &FileId) -> bool
    requires { count < 2 ^ 62 }
    ensures { result ≡ is_lost names.now count dir.now }
{
    is_inner(names, &climb(names, count + count, dir))
}

fn later(names: &Names, a: &FileId, b: &FileId) -> FileId
    ensures { result ≡ later names.now a.now b.now }
{
    if stamp(names, a).is_before(stamp(names, b)) {
        *b
    } else {
        *a
    }
}

/// The latest member of the cycle to which a directory leads, where so many directories are held.
fn latest_member(names: &Names, count: usize, dir: &FileId) -> FileId
    ensures { result ≡ latest_member names.now count dir.now }
{
    let mut at = climb(names, count, dir);
    let mut best = at;
    for i in 0..count {
        best = later(names, &best, &at);
        at = above(names, &at);
    }
    best
}

/// The lesser id.
fn least(first: Option<FileId>, file: FileId) -> Option<FileId>
    ensures { result ≡ least first file }
{
    match first {
        Some(held) => {
            if file.compare(&held).is_lt() {
                Some(file)
            } else {
                Some(held)
            }
        }
        None => Some(file),
    }
}

/// The lesser of this and the latest member of the cycle to which a directory leads, if it does.
fn least_moving(names: &Names, count: usize, first: Option<FileId>, dir: &FileId) -> Option<FileId>
    requires { count < 2 ^ 62 }
    ensures { result ≡ least_moving names.now count first dir.now }
{
    if is_lost(names, count, dir) {
        least(first, latest_member(names, count, dir))
    } else {
        first
    }
}

/// The latest member of each cycle to which these directories lead, and of more than one the least.
fn first_of(names: &Names, dirs: &[FileId]) -> Option<FileId>
    requires { length dirs.now < 2 ^ 62 }
    ensures { result ≡ first_moving names.now (length dirs.now) None dirs.now }
{
    let mut first = None;
    for dir in dirs {
        first = least_moving(names, dirs.len(), first, dir);
    }
    first
}

/// Whether one of these never comes to the root, where so many directories are held.
fn is_any_lost(names: &Names, count: usize, ids: &Ids) -> bool
    requires { count < 2 ^ 62 }
    ensures { result ≡ list_any (is_lost names.now count) ids.now }
{
    ids.as_slice().iter().any(|dir| is_lost(names, count, dir))
}

/// The latest member of each cycle, and of more than one the least. Where nothing that is dirty
/// stands in a cycle or leads to one there is none, and no other is looked at.
fn first_moving(names: &Names) -> Result<Option<FileId>, AllocError>
    requires { length (directories names.now) < 2 ^ 62 }
    ensures { IfOk result (λ first. first ≡ first_moving names.now
        (length (directories names.now)) None (directories names.now)) }
{
    if !is_any_lost(names, names.directory_count(), dirty_things(names)) {
        return Ok(None);
    }
    let dirs = names.directories()?;
    Ok(first_of(names, dirs.as_slice()))
}

/// The directory moves to the root.
fn move_up(names: &mut Names, work: &mut Work, moment: u64, dir: &FileId) -> Result<(), AllocError>
    requires { names.old.last < 2 ^ 63 }
    ensures { OnOk result (state_of names.new work.new
        ≡ moved moment (directories names.old) (state_of names.old work.old) (Some dir.now)) }
{
    let name = tilde_name(names.allocator(), *dir)?;
    place(names, work, moment, dir, root(), name)?;
    Ok(())
}

/// One cycle is broken. Tells whether there was one.
fn break_first(names: &mut Names, work: &mut Work, moment: u64) -> Result<bool, AllocError>
    requires few { length (directories names.old) < 2 ^ 62 }
    requires last { names.old.last < 2 ^ 63 }
    ensures broken { OnOk result (state_of names.new work.new
        ≡ break_first moment (directories names.old) (state_of names.old work.old)) }
    ensures none { IfOk result (λ more. more ≡ false
        → first_moving names.new (length (directories names.new)) None
        (directories names.new) ≡ None) }
{
    match first_moving(names)? {
        Some(dir) => {
            move_up(names, work, moment, &dir)?;
            Ok(true)
        }
        None => Ok(false),
    }
}

/// All cycles are broken, one after another.
pub(crate) fn break_all(names: &mut Names, work: &mut Work, moment: u64) -> Result<(), AllocError>
    requires few { length (directories names.old) < 2 ^ 62 }
    requires last { max (2 ^ 62) names.old.last + length (directories names.old) < 2 ^ 63 }
    ensures { OnOk result (state_of names.new work.new
        ≡ repeated (length (directories names.old)) (break_first moment (directories names.old))
        (state_of names.old work.old)) }
{
    let count = names.directory_count();
    for i in 0..count {
        if !break_first(names, work, moment)? {
            return Ok(());
        }
    }
    Ok(())
}
