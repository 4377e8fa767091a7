//! What a held thing takes, with what is noted of it.

ghost use Rattle.std.specs.Prelude.{◌≡◌, IfOk, OnOk};
ghost use Rattle.pg_store.specs.Store.{entry_news};
ghost use Rattle.pg_pieces.specs.Taking.{is_any_news, is_place_news, take_entry_cell, take_entry_noted, take_flag_noted, take_flags_noted, take_place_noted, take_version_noted, with_doubt, with_left_if, with_news};

use pg_base::{FileId, Version};
use pg_edges::Key;
use pg_entries::Entry;
use pg_register::{Flag, GoldFlags, Place};
use pg_store::msg::{Slot, Touched, Work};
use pg_store::{EntryNews, Store, note_left};
use std::alloc::AllocError;

/// The key is touched, where what was taken there was news.
fn touch_news(news: bool, work: &mut Work, file: FileId, key: Key) -> Result<(), AllocError>
    ensures { OnOk result (work.new ≡ with_news news work.old file key) }
{
    if news {
        work.touched.push(Touched { file, key })?;
    }
    Ok(())
}

/// The directory of this place is noted, if it is live, where the thing has a newer one now.
fn note_left_if(news: bool, work: &mut Work, file: FileId, old: &Place) -> Result<(), AllocError>
    ensures { OnOk result (work.new ≡ with_left_if news work.old file old.now) }
{
    if news {
        note_left(work, file, old)?;
    }
    Ok(())
}

/// A held thing takes a place where it is newer. Where that replaces a live place the directory of
/// the latter is noted. After out of memory a part may be done.
pub fn take_place(
    store: &mut Store,
    file: FileId,
    place: Place,
    work: &mut Work,
) -> Result<(), AllocError>
    ensures store { OnOk result
        (store.new ≡ (take_place_noted store.old file place work.old).store) }
    ensures work { OnOk result
        (work.new ≡ (take_place_noted store.old file place work.old).work) }
{
    let old = store.names.place_or_blank(file)?;
    let news = store.take_place(file, place)?;
    note_left_if(news, work, file, &old)?;
    touch_news(news, work, file, Key::Place)?;
    Ok(())
}

/// A held thing takes a flag where it is newer. After out of memory a part may be done.
pub fn take_flag(
    store: &mut Store,
    file: FileId,
    flag: Flag,
    work: &mut Work,
) -> Result<(), AllocError>
    ensures store { OnOk result (store.new ≡ (take_flag_noted store.old file flag work.old).store) }
    ensures work { OnOk result (work.new ≡ (take_flag_noted store.old file flag work.old).work) }
{
    let news = store.take_flag(file, flag)?;
    touch_news(news, work, file, Key::Flag(flag.server))?;
    Ok(())
}

/// A held thing takes each of these flags that is newer. After out of memory a part may be done.
pub fn take_flags(
    store: &mut Store,
    file: FileId,
    flags: &GoldFlags,
    work: &mut Work,
) -> Result<(), AllocError>
    ensures store { OnOk result
        (store.new ≡ (take_flags_noted store.old file flags.now work.old).store) }
    ensures work { OnOk result
        (work.new ≡ (take_flags_noted store.old file flags.now work.old).work) }
{
    for flag in flags.as_slice() {
        take_flag(store, file, *flag, work)?;
    }
    Ok(())
}

fn is_any_news(news: EntryNews) -> bool
    ensures { result ≡ is_any_news news }
{
    match news {
        EntryNews::Nothing => false,
        EntryNews::Flags => true,
        EntryNews::Place => true,
    }
}

fn is_place_news(news: EntryNews) -> bool
    ensures { result ≡ is_place_news news }
{
    match news {
        EntryNews::Nothing => false,
        EntryNews::Flags => false,
        EntryNews::Place => true,
    }
}

/// A held directory takes what is newer in an entry. Tells what is. After out of memory a part may
/// be done.
pub fn take_entry(
    store: &mut Store,
    dir: FileId,
    entry: Entry,
    work: &mut Work,
) -> Result<EntryNews, AllocError>
    ensures store { OnOk result
        (store.new ≡ (take_entry_noted store.old dir entry work.old).store) }
    ensures work { OnOk result
        (work.new ≡ (take_entry_noted store.old dir entry work.old).work) }
    ensures news { IfOk result (λ news. news ≡ entry_news store.old dir entry) }
{
    let child = entry.child;
    let news = store.take_entry(dir, entry)?;
    touch_news(is_any_news(news), work, dir, Key::Entry(child))?;
    Ok(news)
}

/// The child's place is to be confirmed.
fn note_doubt(doubt: bool, work: &mut Work, dir: FileId, child: FileId) -> Result<(), AllocError>
    ensures { OnOk result (work.new ≡ with_doubt doubt work.old dir child) }
{
    if doubt {
        work.unsure.push(Slot { dir, child })?;
    }
    Ok(())
}

/// A held directory takes what is newer in the entry of a cell. Where its sender is not sure of it,
/// and the place is news, it is noted as one to be confirmed. After out of memory a part may be
/// done.
pub fn take_entry_cell(
    store: &mut Store,
    dir: FileId,
    entry: Entry,
    sure: bool,
    work: &mut Work,
) -> Result<(), AllocError>
    ensures store { OnOk result
        (store.new ≡ (take_entry_cell store.old dir entry sure work.old).store) }
    ensures work { OnOk result
        (work.new ≡ (take_entry_cell store.old dir entry sure work.old).work) }
{
    let child = entry.child;
    let news = take_entry(store, dir, entry, work)?;
    note_doubt(is_place_news(news) && !sure, work, dir, child)?;
    Ok(())
}

/// A held file takes a version, where it is not covered. After out of memory a part may be done.
pub fn take_version(
    store: &mut Store,
    file: FileId,
    version: Version,
    work: &mut Work,
) -> Result<(), AllocError>
    ensures store { OnOk result
        (store.new ≡ (take_version_noted store.old file version work.old).store) }
    ensures work { OnOk result
        (work.new ≡ (take_version_noted store.old file version work.old).work) }
{
    let key = Key::Version(version.head().stamp);
    let news = store.take_version(file, version)?;
    touch_news(news, work, file, key)?;
    Ok(())
}
