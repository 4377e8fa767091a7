//! A replica that is to go.

ghost use Rattle.std.specs.Prelude.{◌≡◌, IfOk, OnOk};
ghost use Rattle.std.specs.Option.{option_copied};
ghost use Rattle.std.specs.List.{find};
ghost use Rattle.pg_calls.specs.Demoting.{is_clean_gold};
ghost use Rattle.pg_checks.specs.Answer.{Tells};
ghost use Rattle.pg_calls.specs.Dropping.{clean_gold, drop, dropped_at, leaving, unless_kept};

use crate::demoting::{is_clean_gold, unless_root};
use pg_base::FileId;
use pg_cells::call::{Reply, Target};
use pg_cells::intent::Intent;
use pg_cells::msg::Work;
use pg_cells::pieces::{begin_intent, stays_for};
use pg_cells::store::Store;
use pg_checks::{CallError, deny, target_at};
use pg_register::Flag;
use std::alloc::AllocError;

/// Any replica that nothing keeps here.
fn unless_kept(store: &Store, file: FileId) -> Result<FileId, CallError>
    ensures { Tells result (unless_kept store.now file) }
{
    match stays_for(store, &file) {
        Some(why) => Err(CallError::refused(why)),
        None => Ok(file),
    }
}

/// What is to go: no root, and nothing that is kept here.
fn dropped_at(store: &Store, target: &Target) -> Result<FileId, CallError>
    ensures { Tells result (dropped_at store.now target.now) }
{
    let file = unless_root(target_at(store, target)?)?;
    unless_kept(store, file)
}

/// The first of these flags that is of a live gold to which a clean edge leads.
fn first_clean_gold<'a>(store: &Store, file: &FileId, flags: &'a [Flag]) -> Option<&'a Flag>
    ensures { option_copied result ≡ find (is_clean_gold store.now file.now) flags.now }
{
    flags.iter().find(|flag| is_clean_gold(store, file, flag))
}

/// The flag of the least live gold to which a clean edge leads.
fn clean_gold(store: &Store, file: &FileId) -> Option<Flag>
    ensures { result ≡ clean_gold store.now file.now }
{
    match store.names.own(file) {
        Some(own) => first_clean_gold(store, file, own.flags.as_slice()).copied(),
        None => None,
    }
}

/// Asks the least live gold to which a clean edge leads for leave.
fn leave(store: &mut Store, file: FileId, work: &mut Work) -> Result<Reply, AllocError>
    ensures store { OnOk result (store.new
        ≡ (leaving store.old file work.old (clean_gold store.old file)).store) }
    ensures work { OnOk result (work.new
        ≡ (leaving store.old file work.old (clean_gold store.old file)).work) }
    ensures reply { IfOk result (λ r. r
        ≡ (leaving store.old file work.old (clean_gold store.old file)).reply) }
{
    let Some(flag) = clean_gold(store, &file) else {
        return Ok(Reply::Leaving(0));
    };
    let leave = Intent::Leave {
        file,
        peer: flag.server,
        peer_birth: flag.birth,
    };
    begin_intent(store, leave, work)?;
    Ok(Reply::Leaving(flag.server))
}

/// A replica is to go: the least live gold to which a clean edge leads is asked for leave. Where
/// that is refused nothing changes, but that what is not here yet is asked for. After out of memory
/// a part may be done.
#[tactic(auto, using(crate::proofs::Denials::store_is, crate::proofs::Denials::work_is, crate::proofs::Denials::reply_is))]
pub(crate) fn drop(store: &mut Store, target: &Target, work: &mut Work) -> Result<Reply, AllocError>
    ensures store { OnOk result (store.new ≡ (drop store.old target.now work.old).store) }
    ensures work { OnOk result (work.new ≡ (drop store.old target.now work.old).work) }
    ensures reply { IfOk result (λ r. r ≡ (drop store.old target.now work.old).reply) }
{
    match dropped_at(store, target) {
        Ok(file) => leave(store, file, work),
        Err(denied) => Ok(deny(store, denied, work)?),
    }
}
