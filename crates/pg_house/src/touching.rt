//! Which keys changed.

ghost use Rattle.std.specs.Prelude.{◌≡◌, not, OnOk};
ghost use Rattle.pg_edges.specs.declared.key.Key.TheVariants as key;
ghost use Rattle.pg_msg.specs.Work.{with_touched};
ghost use Rattle.pg_register.specs.Flag.{flag_of};
ghost use Rattle.pg_house.specs.Work.{note_left, place_touched, touched};
ghost use Rattle.pg_house.specs.Passing.{flags_touched, is_other_flag, own_touched};
ghost use Rattle.pg_names.specs.Same.{is_same_place};

use pg_base::FileId;
use pg_edges::Key;
use pg_msg::{Slot, Touched, Work};
use pg_names::{Attributes, is_root, is_same_flag, is_same_place};
use pg_register::{Flag, GoldFlags, Place};
use std::alloc::AllocError;

/// Notes a key that changed.
pub(crate) fn touch(work: &mut Work, file: FileId, key: Key) -> Result<(), AllocError>
    ensures { OnOk result (work.new ≡ with_touched work.old file key) }
{
    work.touched.push(Touched { file, key })?;
    Ok(())
}

/// Notes that a thing other than the root gets a newer place than this, if it is a live one: the
/// directory may not be held here, and has to hear of it.
pub fn note_left(work: &mut Work, file: FileId, place: &Place) -> Result<(), AllocError>
    ensures { OnOk result (work.new ≡ note_left work.old file place.now) }
{
    if place.live && !is_root(&file) {
        work.left.push(Slot {
            dir: place.parent,
            child: file,
        })?;
    }
    Ok(())
}

/// Notes a key, if it changed.
fn touch_if(work: &mut Work, file: FileId, key: Key, changed: bool) -> Result<(), AllocError>
    ensures { OnOk result (work.new ≡ touched work.old file key changed) }
{
    if changed {
        touch(work, file, key)?;
    }
    Ok(())
}

/// Whether the flag of its server is not this one.
fn is_other_flag(held: &GoldFlags, flag: &Flag) -> bool
    ensures { result ≡ is_other_flag (flag_of held.now flag.now.server) flag.now }
{
    match held.get(flag.server) {
        Some(one) => !is_same_flag(one, flag),
        None => true,
    }
}

/// Notes a flag that is not held so.
fn touch_flag(
    work: &mut Work,
    file: FileId,
    held: &GoldFlags,
    flag: &Flag,
) -> Result<(), AllocError>
    ensures { OnOk result (work.new ≡ touched work.old file (key.Flag flag.now.server)
        (is_other_flag (flag_of held.now flag.now.server) flag.now)) }
{
    let changed = is_other_flag(held, flag);
    touch_if(work, file, Key::Flag(flag.server), changed)?;
    Ok(())
}

/// Notes each of these flags that is not held so.
fn touch_flags(
    work: &mut Work,
    file: FileId,
    held: &GoldFlags,
    flags: &[Flag],
) -> Result<(), AllocError>
    ensures { OnOk result (work.new ≡ flags_touched work.old file held.now flags.now) }
{
    for flag in flags {
        touch_flag(work, file, held, flag)?;
    }
    Ok(())
}

/// Notes the place, and that the old one was replaced, if it changed.
fn touch_place(work: &mut Work, file: FileId, own: &Place, taken: &Place) -> Result<(), AllocError>
    ensures { OnOk result (work.new ≡ place_touched work.old file own.now
        (not (is_same_place own.now taken.now))) }
{
    if !is_same_place(own, taken) {
        touch(work, file, Key::Place)?;
        note_left(work, file, own)?;
    }
    Ok(())
}

/// Notes what changes where a thing takes another place and other flags.
pub(crate) fn touch_own(
    work: &mut Work,
    file: FileId,
    own: &Attributes,
    taken: &Attributes,
) -> Result<(), AllocError>
    ensures { OnOk result (work.new ≡ own_touched work.old file own.now taken.now) }
{
    touch_place(work, file, &own.place, &taken.place)?;
    touch_flags(work, file, &own.flags, taken.flags.as_slice())?;
    Ok(())
}
