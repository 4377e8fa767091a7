//! The server gives another one up.

ghost use Rattle.std.specs.Prelude.{◌≡◌, ◌++◌, IfOk, OnOk};
ghost use Rattle.std.specs.List.{flat_map};
ghost use Rattle.std.specs.Map.{keys_of};
ghost use Rattle.pg_checks.specs.Answer.{Tells};
ghost use Rattle.pg_calls.specs.GivingUp.{cells_of, doubt_all, enter_view, giveup, is_next_view, may_give_up, removal_at, slots_to};

use pg_base::{FileId, Items, NodeId};
use pg_cells::call::{Refusal, Reply};
use pg_cells::msg::{Slot, Work};
use pg_cells::names::{Inode, Names};
use pg_cells::store::Store;
use pg_checks::{CallError, deny, in_time};
use pg_intentions::invite_all;
use std::alloc::AllocError;

/// Whether this is the view behind the server's.
#[tactic(auto, using(crate::proofs::Lost::no_view, crate::proofs::Lost::next_view))]
fn is_next_view(store: &Store, view: u64) -> bool
    ensures { result ≡ is_next_view store.now view }
{
    if view == 0 {
        return false;
    }
    view - 1 == store.view()
}

/// Whether this is the next view, and the server is another live one.
fn may_give_up(store: &Store, view: u64, server: NodeId) -> bool
    ensures { result ≡ may_give_up store.now view server }
{
    is_next_view(store, view) && store.is_live_other(server)
}

/// The next removal is of this server.
fn removal_at(store: &Store, view: u64, server: NodeId) -> Result<(), CallError>
    ensures { Tells result (removal_at store.now view server) }
{
    in_time(store)?;
    if !may_give_up(store, view, server) {
        return Err(CallError::refused(Refusal::WrongView(store.view())));
    }
    Ok(())
}

/// The cells of a directory, by child.
fn add_cells(names: &Names, dir: FileId, slots: &mut Items<Slot>) -> Result<(), AllocError>
    ensures { OnOk result (slots.new ≡ slots.old ++ cells_of names.now dir) }
{
    let Some(held) = names.get(&dir) else {
        return Ok(());
    };
    push_slots(held, dir, slots)
}

/// Adds the cells of a directory that is held, by child.
fn push_slots(held: &Inode, dir: FileId, slots: &mut Items<Slot>) -> Result<(), AllocError>
    ensures { OnOk result
        (slots.new ≡ slots.old ++ slots_to dir (keys_of held.now.entries)) }
{
    for child in held.entries().as_map().keys() {
        slots.push(Slot { dir, child: *child })?;
    }
    Ok(())
}

/// Adds the cells of these directories, one behind another.
fn push_cells(names: &Names, dirs: &[FileId], slots: &mut Items<Slot>) -> Result<(), AllocError>
    ensures { OnOk result (slots.new ≡ slots.old ++ flat_map (cells_of names.now) dirs.now) }
{
    for dir in dirs {
        add_cells(names, *dir, slots)?;
    }
    Ok(())
}

/// No cell is sure any more: of each that lists what is not held a Confirm is to begin.
fn doubt_all(store: &Store, work: &mut Work) -> Result<(), AllocError>
    ensures { OnOk result (work.new ≡ doubt_all store.now work.old) }
{
    let dirs = store.names.directories()?;
    push_cells(&store.names, dirs.as_slice(), &mut work.unsure)
}

/// The server enters the next view, in which this one is removed. After out of memory a part may be
/// done.
fn enter_view(store: &mut Store, server: NodeId, work: &mut Work) -> Result<(), AllocError>
    ensures store { OnOk result (store.new ≡ (enter_view store.old server work.old).store) }
    ensures work { OnOk result (work.new ≡ (enter_view store.old server work.old).work) }
{
    store.enter(server)?;
    doubt_all(store, work)?;
    invite_all(store, work)
}

/// The server gives another one up: it enters the next view. After out of memory a part may be
/// done.
#[tactic(auto, using(crate::proofs::Denials::store_is, crate::proofs::Denials::work_is, crate::proofs::Denials::reply_is))]
pub(crate) fn giveup(
    store: &mut Store,
    view: u64,
    server: NodeId,
    work: &mut Work,
) -> Result<Reply, AllocError>
    ensures store { OnOk result (store.new ≡ (giveup store.old view server work.old).store) }
    ensures work { OnOk result (work.new ≡ (giveup store.old view server work.old).work) }
    ensures reply { IfOk result (λ r. r ≡ (giveup store.old view server work.old).reply) }
{
    match removal_at(store, view, server) {
        Ok(()) => {
            enter_view(store, server, work)?;
            Ok(Reply::Done)
        }
        Err(denied) => Ok(deny(store, denied, work)?),
    }
}
