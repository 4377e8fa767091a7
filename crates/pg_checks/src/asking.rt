//! What a client asked for that is not here yet is fetched.

ghost use Rattle.std.specs.Prelude.{◌≡◌, IfOk, OnOk};
ghost use Rattle.std.specs.Option.{option_copied};
ghost use Rattle.pg_pieces.specs.pg_names.Names.{cell_at};
ghost use Rattle.pg_checks.specs.Answer.{Leaves, deny};
ghost use Rattle.pg_pieces.specs.pg_store.Births.{fill_at};
ghost use Rattle.pg_checks.specs.Asking.{ask_first, ask_for, cell_in, dir_by, fetch, gold_of, holder, is_later, latest, standing, wish_by};

use crate::call_error::CallError;
use crate::listing::last_cell;
use pg_base::{FileId, NodeId};
use pg_entries::Entry;
use pg_lookup::{Found, LookupError, Way};
use pg_pieces::call::{Refusal, Reply};
use pg_pieces::intent::{Intent, IntentKey};
use pg_pieces::msg::{Message, Work};
use pg_pieces::names::Names;
use pg_pieces::post;
use pg_pieces::store::{Store, Wish};
use std::alloc::AllocError;

/// What the client is told whose call does not go on. What is not here yet is fetched.
#[tactic(auto, using(crate::proofs::Parts::whole))]
pub fn deny(store: &mut Store, why: CallError, work: &mut Work) -> Result<Reply, AllocError>
    ensures { IfOk result (λ r. Leaves why store.old work.old
        (record { store = store.new; work = work.new; reply = r })) }
{
    match why {
        CallError::Stopped(why) => Ok(refuse(store, why, work)?),
        CallError::OutOfMemory => Err(AllocError),
    }
}

/// What the client is told whose call stops for another reason than want of memory.
fn refuse(store: &mut Store, why: LookupError, work: &mut Work) -> Result<Reply, AllocError>
    ensures store { OnOk result (store.new ≡ (deny store.old why work.old).store) }
    ensures work { OnOk result (work.new ≡ (deny store.old why work.old).work) }
    ensures reply { IfOk result (λ r. r ≡ (deny store.old why work.old).reply) }
{
    match why {
        LookupError::Refused(why) => Ok(Reply::Refused(why)),
        LookupError::NotYet(found) => {
            ask_for(store, found, work)?;
            Ok(Reply::Refused(Refusal::NotYet(found.file)))
        }
    }
}

/// Asks for a replica of what a call came to: as its Fill asks, else as the wish for it, else by a
/// new wish. After out of memory a part may be done.
fn ask_for(store: &mut Store, found: Found, work: &mut Work) -> Result<(), AllocError>
    ensures store { OnOk result (store.new ≡ (ask_for store.old found work.old).store) }
    ensures work { OnOk result (work.new ≡ (ask_for store.old found work.old).work) }
{
    match standing(store, found.file) {
        Some(wish) => {
            send_fetch(store, found.file, wish, work)?;
            Ok(())
        }
        None => {
            let target = holder(store, &found);
            ask_first(store, found.file, target, work)?;
            Ok(())
        }
    }
}

/// Keeps a wish with a fresh birth, if there is a server to be asked, and asks it.
fn ask_first(
    store: &mut Store,
    file: FileId,
    target: NodeId,
    work: &mut Work,
) -> Result<(), AllocError>
    ensures store { OnOk result
        (store.new ≡ (ask_first store.old file target work.old).store) }
    ensures work { OnOk result (work.new ≡ (ask_first store.old file target work.old).work) }
{
    if target == 0 {
        return Ok(());
    }
    let birth = store.draw_birth()?;
    let wish = Wish { birth, target };
    store.wishes.put(file, wish)?;
    send_fetch(store, file, wish, work)?;
    Ok(())
}

/// Asks the target of a wish, if it has one.
fn send_fetch(store: &Store, file: FileId, wish: Wish, work: &mut Work) -> Result<(), AllocError>
    ensures { OnOk result (work.new ≡ fetch store.now file wish work.old) }
{
    if wish.target == 0 {
        return Ok(());
    }
    let birth = wish.birth;
    post(store, wish.target, Message::Fetch { file, birth }, work)?;
    Ok(())
}

/// What the Fill of a thing asks for, or the wish for it.
fn standing(store: &Store, file: FileId) -> Option<Wish>
    ensures { result ≡ standing store.now file }
{
    match fill_of(store, file) {
        Some(wish) => Some(wish),
        None => store.wishes.get(&file).copied(),
    }
}

/// What the Fill of a thing asks for.
fn fill_of(store: &Store, file: FileId) -> Option<Wish>
    ensures { result ≡ wish_by (fill_at store.now file) }
{
    match store.intents.get(&IntentKey::Fill { file }) {
        Some(Intent::Fill { birth, target, .. }) => Some(Wish {
            birth: *birth,
            target: *target,
        }),
        _ => None,
    }
}

/// The server that is asked first for a thing: the least other live gold that the entry tells of by
/// which the call came to it; where there is none the next behind this server.
fn holder(store: &Store, found: &Found) -> NodeId
    ensures { result ≡ holder store.now found.now }
{
    let dir = dir_by(&store.names, found.file, found.way);
    match gold_in(&store.names, found.file, dir) {
        Some(gold) => gold,
        None => store.next_target(store.server()),
    }
}

/// The least other live gold that the entry for a thing in a directory tells of.
fn gold_in(names: &Names, file: FileId, dir: Option<FileId>) -> Option<NodeId>
    ensures { result ≡ gold_of names.now (cell_in names.now file dir) }
{
    match entry_in(names, file, dir) {
        Some(entry) => entry
            .flags
            .least_other_gold(names.server(), names.removed()),
        None => None,
    }
}

/// The directory by whose entry a call came to a thing: for an id it is the one with the latest
/// place.
fn dir_by(names: &Names, file: FileId, way: Way) -> Option<FileId>
    ensures { result ≡ dir_by names.now file way }
{
    match way {
        Way::Start => None,
        Way::Entry(dir) => Some(dir),
        Way::Id => latest_dir(names, file),
    }
}

/// The directory whose entry for a thing has the latest place, of all that is held; of equal ones
/// the least. It looks at those that have an entry for it.
fn latest_dir(names: &Names, file: FileId) -> Option<FileId>
    ensures { result ≡ dir_by names.now file Way.Id }
{
    last_cell(names, file, names.holders(&file).as_slice())
}

/// Whether a directory has an entry for a thing, and a later place in it than the first directory's
/// entry for it has, or that has none.
pub(crate) fn is_later(names: &Names, file: FileId, first: Option<FileId>, dir: &FileId) -> bool
    ensures { result
        ≡ is_later (cell_in names.now file first) (cell_at names.now dir.now file) }
{
    let Some(entry) = names.entry(dir, &file) else {
        return false;
    };
    match entry_in(names, file, first) {
        Some(known) => known.place.stamp.is_before(entry.place.stamp),
        None => true,
    }
}

/// The entry for a thing in a directory, if there is a directory.
fn entry_in(names: &Names, file: FileId, dir: Option<FileId>) -> Option<&Entry>
    ensures { option_copied result ≡ cell_in names.now file dir }
{
    match dir {
        Some(dir) => names.entry(&dir, &file),
        None => None,
    }
}
