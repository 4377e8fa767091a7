//! New places that a rule makes.

ghost use Rattle.std.specs.Prelude.{◌≡◌, ◌<◌, ◌^◌, OnOk, IfOk};
ghost use Rattle.pg_msg.specs.Work.{with_made};
ghost use Rattle.pg_msg.specs.declared.update.Update.TheVariants as update;
ghost use Rattle.pg_names.specs.Names.{directories, own_at, with_last};
ghost use Rattle.pg_house.specs.Work.{state_of};
ghost use Rattle.pg_house.specs.Placing.{drawn, flags_of, live_place, made_at, own_with, place_at, placed};

use crate::passing::pass;
use crate::touching::{note_left, touch};
use pg_base::{FileId, SharedBytes};
use pg_edges::Key;
use pg_msg::{Update, Work};
use pg_names::{Attributes, Names};
use pg_register::{GoldFlags, Place};
use std::alloc::AllocError;

/// The flags of a held thing.
fn flags_at(names: &Names, file: &FileId) -> Result<GoldFlags, AllocError>
    ensures { IfOk result (λ flags. flags ≡ flags_of (own_at names.now file.now)) }
{
    match names.own(file) {
        Some(own) => Ok(own.flags.copy()?),
        None => Ok(GoldFlags::new(names.allocator())),
    }
}

/// The own place of a held thing.
pub(crate) fn place_at(names: &Names, file: &FileId) -> Result<Place, AllocError>
    ensures { IfOk result (λ place. place ≡ place_at names.now file.now) }
{
    match names.own(file) {
        Some(own) => Ok(own.place.copy()?),
        None => Ok(Place::root(names.allocator())?),
    }
}

/// Notes a place that was made.
fn note(work: &mut Work, file: FileId, place: &Place) -> Result<(), AllocError>
    ensures { OnOk result (work.new ≡ with_made work.old (update.Place file place.now)) }
{
    let place = place.copy()?;
    work.made.push(Update::Place { id: file, place })?;
    Ok(())
}

/// The thing has this place from now on. Its stamp was drawn.
fn make(names: &mut Names, work: &mut Work, file: &FileId, place: Place) -> Result<(), AllocError>
    requires { names.old.last ≡ place.stamp.time }
    ensures { OnOk result (state_of names.new work.new
        ≡ made_at (state_of names.old work.old) file.now place) }
{
    note(work, *file, &place)?;
    touch(work, *file, Key::Place)?;
    note_left(work, *file, &place_at(names, file)?)?;
    let flags = flags_at(names, file)?;
    names.set_own(file, Attributes { place, flags })?;
    Ok(())
}

/// The thing gets a new live place in this directory, with this name, which passes at once.
pub(crate) fn place(
    names: &mut Names,
    work: &mut Work,
    moment: u64,
    file: &FileId,
    parent: FileId,
    name: SharedBytes,
) -> Result<(), AllocError>
    requires { names.old.last < 2 ^ 63 }
    ensures { OnOk result (state_of names.new work.new
        ≡ placed moment (directories names.old) (state_of names.old work.old)
        file.now parent name) }
{
    let stamp = names.draw_stamp(moment);
    let place = Place {
        stamp,
        parent,
        name,
        live: true,
    };
    make(names, work, file, place)?;
    pass(names, work, file)?;
    Ok(())
}
