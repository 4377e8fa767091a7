//! How indexes change with what is held.

ghost use Rattle.std.specs.Prelude.{◌≡◌, ◌||◌, ◌&&◌, Bool, true, false, not, OnErr, OnOk, is_some};
ghost use Rattle.pg_base.specs.declared.id.FileId.{FileId};
ghost use Rattle.pg_base.specs.Id.{is_same_file};
ghost use Rattle.pg_entries.specs.Entry.{entry_of};
ghost use Rattle.pg_index.specs.Ids.{has, is_one_of};
ghost use Rattle.pg_names.specs.Calm.{is_cell, is_holder, is_in, is_spot, spot_of};
ghost use Rattle.pg_names.specs.Indexed.{has_spot};
ghost use Rattle.pg_names.specs.Names.{begin, is_dir, is_held, own_at, set_entry};

use crate::attributes::Attributes;
use crate::held::Held;
use crate::root::is_dir;
use crate::spots::{Spot, Spots};
use pg_base::FileId;
use pg_entries::{Entries, Entry};
use pg_index::{Ids, Lists};
use std::alloc::AllocError;

/// All that is held is marked.
pub(crate) fn mark_all(marks: &mut Ids, held: &Held) -> Result<(), AllocError>
    ensures stays { (q : FileId) → is_one_of q marks.old ≡ true → is_one_of q marks.new ≡ true }
    ensures all { OnOk result ((q : FileId)
        → is_held held.now q ≡ true → is_one_of q marks.new ≡ true) }
{
    for file in held.as_map().keys() {
        marks.insert(*file)?;
    }
    Ok(())
}

/// These are marked.
pub(crate) fn mark_each(marks: &mut Ids, files: &Ids) -> Result<(), AllocError>
    ensures stays { (q : FileId) → is_one_of q marks.old ≡ true → is_one_of q marks.new ≡ true }
    ensures all { OnOk result ((q : FileId)
        → is_one_of q files.now ≡ true → is_one_of q marks.new ≡ true) }
{
    for file in files.as_slice() {
        marks.insert(*file)?;
    }
    Ok(())
}

/// What has these cells is a holder of their children no longer.
fn drop_holder(holders: &mut Lists, entries: &Entries, dir: &FileId)
    ensures { (child q : FileId) → has holders.new child q
        ≡ (not (is_same_file dir.now q && is_cell (entry_of entries.now child))
        && has holders.old child q) }
{
    for child in entries.as_map().keys() {
        holders.remove(child, dir);
    }
}

/// A thing that goes stands nowhere and is a holder of nothing.
pub(crate) fn leave(held: &Held, spots: &mut Spots, holders: &mut Lists, file: &FileId)
    ensures spots { (live : Bool) (dir q : FileId) → has_spot spots.new live dir q
        ≡ (not (is_same_file file.now q && is_in live dir file.now (own_at held.now file.now))
        && has_spot spots.old live dir q) }
    ensures holders { (child q : FileId) → has holders.new child q
        ≡ (not (is_same_file file.now q && is_holder held.now child file.now)
        && has holders.old child q) }
{
    let Some(x) = held.get(file) else {
        return;
    };
    spots.cut(*file, Spot::of(&x.own().place));
    drop_holder(holders, x.entries(), file);
}

/// One thing more is held, and stands among the directories where it is one. Where it stood there
/// before, it is not held, and a refusal comes, it may stand there no longer.
fn add(
    held: &mut Held,
    dirs: &mut Ids,
    file: FileId,
    own: Attributes,
    full: bool,
) -> Result<(), AllocError>
    ensures held { OnOk result (held.new ≡ begin held.old file own full) }
    ensures dirs { OnOk result ((q : FileId) → is_one_of q dirs.new
        ≡ ((is_dir file && is_same_file file q) || is_one_of q dirs.old)) }
    ensures err { OnErr result (held.new ≡ held.old) }
    ensures dirs_err { OnErr result ((q : FileId) → is_one_of file dirs.old ≡ false
        → is_one_of q dirs.new ≡ is_one_of q dirs.old) }
{
    if !is_dir(&file) {
        held.begin(file, own, full)?;
        return Ok(());
    }
    dirs.insert(file)?;
    match held.begin(file, own, full) {
        Ok(()) => Ok(()),
        Err(error) => {
            dirs.remove(&file);
            Err(error)
        }
    }
}

/// One thing more is held, and stands where its place says.
pub(crate) fn enter(
    held: &mut Held,
    dirs: &mut Ids,
    spots: &mut Spots,
    file: FileId,
    own: Attributes,
    full: bool,
) -> Result<(), AllocError>
    ensures held { OnOk result (held.new ≡ begin held.old file own full) }
    ensures dirs { OnOk result ((q : FileId) → is_one_of q dirs.new
        ≡ ((is_dir file && is_same_file file q) || is_one_of q dirs.old)) }
    ensures spots { OnOk result ((live : Bool) (dir q : FileId) → has_spot spots.new live dir q
        ≡ ((is_same_file file q && is_spot live dir file (spot_of own.place))
        || has_spot spots.old live dir q)) }
    ensures err { OnErr result (held.new ≡ held.old) }
    ensures dirs_err { OnErr result ((q : FileId) → is_one_of file dirs.old ≡ false
        → is_one_of q dirs.new ≡ is_one_of q dirs.old) }
    ensures spots_err { OnErr result ((live : Bool) (dir q : FileId)
        → has_spot spots.old live dir file ≡ false
        → has_spot spots.new live dir q ≡ has_spot spots.old live dir q) }
{
    let spot = Spot::of(&own.place);
    spots.put(file, spot)?;
    match add(held, dirs, file, own, full) {
        Ok(()) => Ok(()),
        Err(error) => {
            spots.cut(file, spot);
            Err(error)
        }
    }
}

/// A held directory's cell for a child is this one from now on, and it is a holder of the child.
pub(crate) fn put_cell(
    held: &mut Held,
    holders: &mut Lists,
    dir: &FileId,
    entry: Entry,
) -> Result<(), AllocError>
    ensures held { OnOk result (held.new ≡ set_entry held.old dir.now entry) }
    ensures holders { OnOk result ((child q : FileId) → has holders.new child q
        ≡ ((is_same_file entry.child child && is_same_file dir.now q)
        || has holders.old child q)) }
    ensures err { OnErr result (held.new ≡ held.old) }
    ensures holders_err { OnErr result ((child q : FileId)
        → has holders.old entry.child dir.now ≡ is_holder held.old entry.child dir.now
        → has holders.new child q ≡ has holders.old child q) }
{
    let child = entry.child;
    let had = held.entry(dir, &child).is_some();
    holders.insert(child, *dir)?;
    match held.set_entry(dir, entry) {
        Ok(()) => Ok(()),
        Err(error) => {
            if !had {
                holders.remove(&child, dir);
            }
            Err(error)
        }
    }
}
