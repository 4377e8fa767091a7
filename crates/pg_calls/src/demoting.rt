//! A gold replica that is to be so no more.

ghost use Rattle.std.specs.Prelude.{◌≡◌, IfOk, OnOk};
ghost use Rattle.pg_checks.specs.Answer.{Tells};
ghost use Rattle.pg_calls.specs.Demoting.{demote, demoted_at, has_clean_gold, is_clean_gold, lowered, unless_last, unless_root};

use pg_base::FileId;
use pg_cells::call::{Refusal, Reply, Target};
use pg_cells::house::is_root;
use pg_cells::msg::Work;
use pg_cells::pieces::{is_gold, lower_flag};
use pg_cells::store::Store;
use pg_checks::{CallError, deny, target_at};
use pg_register::Flag;
use std::alloc::AllocError;

/// Whether this is the flag of a live gold replica to which there is an edge with nothing
/// unacknowledged.
pub(crate) fn is_clean_gold(store: &Store, file: &FileId, flag: &Flag) -> bool
    ensures { result ≡ is_clean_gold store.now file.now flag.now }
{
    flag.raised
        && !store.names.is_removed(flag.server)
        && store.is_clean(file, flag.server, flag.birth)
}

/// Whether a clean edge matches a raised flag of a live server.
fn has_clean_gold(store: &Store, file: &FileId) -> bool
    ensures { result ≡ has_clean_gold store.now file.now }
{
    match store.names.own(file) {
        Some(own) => own
            .flags
            .as_slice()
            .iter()
            .any(|flag| is_clean_gold(store, file, flag)),
        None => false,
    }
}

pub(crate) fn unless_root(file: FileId) -> Result<FileId, CallError>
    ensures { Tells result (unless_root file) }
{
    if is_root(&file) {
        return Err(CallError::refused(Refusal::Root));
    }
    Ok(file)
}

/// Any replica but the last that is known to have all that this one has.
fn unless_last(store: &Store, file: FileId) -> Result<FileId, CallError>
    ensures { Tells result (unless_last store.now file) }
{
    if !has_clean_gold(store, &file) {
        return Err(CallError::refused(Refusal::LastGold));
    }
    Ok(file)
}

/// What is to be bronze, also where it is not gold: no root, and not without a clean edge to a live
/// gold replica.
fn demoted_at(store: &Store, target: &Target) -> Result<FileId, CallError>
    ensures { Tells result (demoted_at store.now target.now) }
{
    let file = unless_root(target_at(store, target)?)?;
    unless_last(store, file)
}

/// The server lowers its flag of a held thing, where it is raised. After out of memory a part may
/// be done.
fn lower(store: &mut Store, file: FileId, work: &mut Work) -> Result<(), AllocError>
    ensures store { OnOk result (store.new ≡ (lowered store.old file work.old).store) }
    ensures work { OnOk result (work.new ≡ (lowered store.old file work.old).work) }
{
    if is_gold(store, &file) {
        lower_flag(store, file, work)?;
    }
    Ok(())
}

/// A replica is to be bronze. Where that is refused nothing changes, but that what is not here yet
/// is asked for. After out of memory a part may be done.
#[tactic(auto, using(crate::proofs::Denials::store_is, crate::proofs::Denials::work_is, crate::proofs::Denials::reply_is))]
pub(crate) fn demote(
    store: &mut Store,
    target: &Target,
    work: &mut Work,
) -> Result<Reply, AllocError>
    ensures store { OnOk result (store.new ≡ (demote store.old target.now work.old).store) }
    ensures work { OnOk result (work.new ≡ (demote store.old target.now work.old).work) }
    ensures reply { IfOk result (λ r. r ≡ (demote store.old target.now work.old).reply) }
{
    match demoted_at(store, target) {
        Ok(file) => {
            lower(store, file, work)?;
            Ok(Reply::Done)
        }
        Err(denied) => Ok(deny(store, denied, work)?),
    }
}
