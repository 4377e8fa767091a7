//! What is to be filled.

ghost use Rattle.std.specs.Prelude.{◌≡◌, IfOk, OnOk, is_some};
ghost use Rattle.std.specs.Map.{keys_of};
ghost use Rattle.pg_graph.specs.pg_names.Names.{known};
ghost use Rattle.pg_graph.specs.pg_store.Births.{fill_at};
ghost use Rattle.pg_intentions.specs.Fills.{begin_fill, begin_fills, files_to_fill, fill_birth, lacks_parent, with_fill_birth, with_filling, with_held, with_known, with_parent};

use pg_base::FileId;
use pg_graph::house::{dirty_things, is_root};
use pg_graph::intent::{Intent, IntentKey};
use pg_graph::msg::Work;
use pg_graph::names::{Inode, Names};
use pg_graph::pieces::begin_intent;
use pg_graph::store::Store;
use std::alloc::AllocError;
use std::collections::BTreeMap;

/// Files and directories, in order.
pub(crate) type Files = BTreeMap<FileId, ()>;

/// A held thing, where it is filling.
fn add_filling(files: &mut Files, file: &FileId, held: &Inode) -> Result<(), AllocError>
    ensures { OnOk result
        (files.new.entries ≡ with_filling files.old.entries file.now held.now) }
{
    if held.is_full() {
        return Ok(());
    }
    files.insert(*file, ())?;
    Ok(())
}

/// Whether the parent in the live place of a held thing is not held.
fn lacks_parent(names: &Names, file: &FileId, held: &Inode) -> bool
    ensures { result ≡ lacks_parent names.now file.now held.now }
{
    let place = &held.own().place;
    !is_root(file) && place.live && !names.is_held(&place.parent)
}

/// Adds the parent in the live place of a held thing, where that is not held.
fn add_parent(
    names: &Names,
    files: &mut Files,
    file: &FileId,
    held: &Inode,
) -> Result<(), AllocError>
    ensures { OnOk result
        (files.new.entries ≡ with_parent names.now files.old.entries file.now held.now) }
{
    if lacks_parent(names, file, held) {
        files.insert(held.own().place.parent, ())?;
    }
    Ok(())
}

/// Of a held thing itself and its parent, where they are to be filled.
fn add_held(names: &Names, files: &mut Files, file: &FileId, held: &Inode) -> Result<(), AllocError>
    ensures { OnOk result
        (files.new.entries ≡ with_held names.now files.old.entries file.now held.now) }
{
    add_filling(files, file, held)?;
    add_parent(names, files, file, held)?;
    Ok(())
}

/// Of a thing itself and its parent, where it is held and they are to be filled.
fn add_known(names: &Names, files: &mut Files, file: &FileId) -> Result<(), AllocError>
    ensures { OnOk result (files.new.entries
        ≡ with_known names.now files.old.entries file.now (known names.now file.now)) }
{
    match names.get(file) {
        Some(held) => add_held(names, files, file, held),
        None => Ok(()),
    }
}

/// All that is to be filled: what is held and filling, and what is not held and is the parent in
/// the live place of something that is. It looks at what is dirty: all else is full, and its parent
/// is held.
pub(crate) fn to_fill(names: &Names) -> Result<Files, AllocError>
    ensures { IfOk result (λ files. files.entries ≡ files_to_fill names.now) }
{
    let mut files = BTreeMap::new(names.allocator());
    for file in dirty_things(names).as_slice() {
        add_known(names, &mut files, file)?;
    }
    Ok(files)
}

/// A Fill begins of each of these of which none stands.
pub(crate) fn begin_fills(
    store: &mut Store,
    files: &Files,
    work: &mut Work,
) -> Result<(), AllocError>
    ensures store { OnOk result
        (store.new ≡ (begin_fills store.old (keys_of files.now.entries) work.old).store) }
    ensures work { OnOk result
        (work.new ≡ (begin_fills store.old (keys_of files.now.entries) work.old).work) }
{
    for file in files.keys() {
        begin_fill(store, *file, work)?;
    }
    Ok(())
}

/// Whether a Fill of it stands.
fn has_fill(store: &Store, file: FileId) -> bool
    ensures { result ≡ is_some (fill_at store.now file) }
{
    store.intents.get(&IntentKey::Fill { file }).is_some()
}

/// A Fill begins of one thing. It asks the sender of the event's message first.
fn begin_fill(store: &mut Store, file: FileId, work: &mut Work) -> Result<(), AllocError>
    ensures store { OnOk result (store.new ≡ (begin_fill store.old file work.old).store) }
    ensures work { OnOk result (work.new ≡ (begin_fill store.old file work.old).work) }
{
    if has_fill(store, file) {
        return Ok(());
    }
    let birth = birth_to_fill(store, &file)?;
    let target = store.first_target(work.from);
    let fill = Intent::Fill {
        file,
        birth,
        target,
    };
    begin_intent(store, fill, work)?;
    Ok(())
}

/// The birth of a replica that is to be filled: its own, or that of the wish for it, which ends, or
/// a fresh one.
fn birth_to_fill(store: &mut Store, file: &FileId) -> Result<u64, AllocError>
    ensures birth { IfOk result (λ birth. birth ≡ fill_birth store.old file.now) }
    ensures store { OnOk result (store.new ≡ with_fill_birth store.old file.now) }
{
    if store.names.is_held(file) {
        return Ok(store.birth(file));
    }
    match store.wishes.get(file).copied() {
        Some(wish) => {
            store.wishes.take(file);
            Ok(wish.birth)
        }
        None => store.draw_birth(),
    }
}
