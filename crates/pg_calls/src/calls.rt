//! What a server does where a client calls it.

ghost use Rattle.std.specs.Prelude.{◌≡◌, IfOk, OnOk};
ghost use Rattle.pg_calls.specs.Calls.{do_call};

use crate::bodies::{cut, read, write};
use crate::demoting::demote;
use crate::dropping::drop;
use crate::forgetting::forget;
use crate::giving_up::giveup;
use crate::looks::{fresh, ls, stat, status, stop};
use crate::naming::{create, mkdir, rename, rmdir, unlink};
use pg_cells::call::{Call, Reply};
use pg_cells::msg::Work;
use pg_cells::store::Store;
use std::alloc::AllocError;

/// A client calls the server. A call that is refused changes nothing, but that what is not here yet
/// is asked for. Where memory ran out a part may be done.
pub fn do_call(store: &mut Store, call: &Call, work: &mut Work) -> Result<Reply, AllocError>
    ensures store { OnOk result (store.new ≡ (do_call store.old call.now work.old).store) }
    ensures work { OnOk result (work.new ≡ (do_call store.old call.now work.old).work) }
    ensures reply { IfOk result (λ r. r ≡ (do_call store.old call.now work.old).reply) }
{
    Ok(match call {
        Call::Mkdir { path } => mkdir(store, path.as_slice(), work)?,
        Call::Create { path, policy } => create(store, path.as_slice(), *policy, work)?,
        Call::Write {
            path,
            offset,
            bytes,
        } => write(store, path.as_slice(), *offset, bytes, work)?,
        Call::Cut { path, length } => cut(store, path.as_slice(), *length, work)?,
        Call::Read {
            path,
            offset,
            count,
        } => read(store, path.as_slice(), *offset, *count, work)?,
        Call::Fresh { path } => fresh(store, path.as_slice(), work)?,
        Call::Ls { path, from } => ls(store, path.as_slice(), *from, work)?,
        Call::Stat { target } => stat(store, target, work)?,
        Call::Rename { from, to } => rename(store, from.as_slice(), to.as_slice(), work)?,
        Call::Unlink { path } => unlink(store, path.as_slice(), work)?,
        Call::Rmdir { path } => rmdir(store, path.as_slice(), work)?,
        Call::Demote { target } => demote(store, target, work)?,
        Call::Drop { target } => drop(store, target, work)?,
        Call::Status => status(store, work)?,
        Call::Forget { id } => forget(store, *id, work)?,
        Call::Giveup { view, server } => giveup(store, *view, *server, work)?,
        Call::Stop => stop(store, work)?,
    })
}
