//! Return: a dead directory that lists a child comes back.

ghost use Rattle.std.specs.Prelude.{◌≡◌, ◌<◌, ◌≤◌, ◌+◌, ◌^◌, false, None, Some, OnOk, IfOk, length, max};
ghost use Rattle.pg_names.specs.Names.{directories};
ghost use Rattle.pg_house.specs.Work.{state_of};
ghost use Rattle.pg_house.specs.Placing.{place_at, repeated};
ghost use Rattle.pg_house.specs.Returning.{first_returning, is_dead, is_returning, return_first, returned};

use crate::changes::dirty_things;
use crate::placing::{place, place_at};
use pg_base::{FileId, Stamp};
use pg_msg::Work;
use pg_names::{Names, is_dir, is_root};
use pg_register::Place;
use std::alloc::AllocError;

/// Whether this is a dead place of a directory, other than the blank one.
fn is_dead(dir: &FileId, place: &Place) -> bool
    ensures { result ≡ is_dead dir.now place.now }
{
    let first = Stamp { time: 0, server: 0 };
    !is_root(dir) && !place.live && first.is_before(place.stamp)
}

fn is_returning(names: &Names, dir: &FileId) -> bool
    ensures { result ≡ is_returning names.now dir.now }
{
    match names.get(dir) {
        Some(held) => is_dead(dir, &held.own().place) && held.entries().lists_any(*dir),
        None => false,
    }
}

/// The first directory that is to come back, by id. Only what is dirty can be such a one.
fn first_returning(names: &Names) -> Option<FileId>
    ensures { result ≡ first_returning names.now (directories names.now) }
{
    for dir in dirty_things(names).as_slice() {
        if is_dir(dir) && is_returning(names, dir) {
            return Some(*dir);
        }
    }
    None
}

/// The directory comes back, where it was.
fn come_back(
    names: &mut Names,
    work: &mut Work,
    moment: u64,
    dir: &FileId,
) -> Result<(), AllocError>
    requires { names.old.last < 2 ^ 63 }
    ensures { OnOk result (state_of names.new work.new
        ≡ returned moment (directories names.old) (state_of names.old work.old)
        (Some dir.now)) }
{
    let old = place_at(names, dir)?;
    place(names, work, moment, dir, old.parent, old.name)?;
    Ok(())
}

/// The first directory that is to come back does. Tells whether there was one.
fn return_first(names: &mut Names, work: &mut Work, moment: u64) -> Result<bool, AllocError>
    requires { names.old.last < 2 ^ 63 }
    ensures back { OnOk result (state_of names.new work.new
        ≡ return_first moment (directories names.old) (state_of names.old work.old)) }
    ensures none { IfOk result (λ more. more ≡ false
        → first_returning names.new (directories names.new) ≡ None) }
{
    match first_returning(names) {
        Some(dir) => {
            come_back(names, work, moment, &dir)?;
            Ok(true)
        }
        None => Ok(false),
    }
}

/// Each directory that is to come back does, one after another.
pub(crate) fn return_all(names: &mut Names, work: &mut Work, moment: u64) -> Result<(), AllocError>
    requires { max (2 ^ 62) names.old.last + length (directories names.old) < 2 ^ 63 }
    ensures back { OnOk result (state_of names.new work.new
        ≡ repeated (length (directories names.old)) (return_first moment (directories names.old))
        (state_of names.old work.old)) }
    ensures last { OnOk result (names.new.last
        ≤ max (2 ^ 62) names.old.last + length (directories names.old)) }
{
    let count = names.directory_count();
    for i in 0..count {
        if !return_first(names, work, moment)? {
            return Ok(());
        }
    }
    Ok(())
}
