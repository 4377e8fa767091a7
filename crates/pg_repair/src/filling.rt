//! A filling replica becomes full.

ghost use Rattle.std.specs.Prelude.{◌≡◌, OnOk};
ghost use Rattle.pg_repair.specs.Filling.{fill, full, invite, is_bronze, live_golds, raise_if_few};

use pg_base::FileId;
use pg_pieces::msg::{Ends, Work};
use pg_pieces::store::Store;
use pg_pieces::{EdgeUse, accept, is_accepted, is_gold, raise_flag};
use std::alloc::AllocError;

/// A replica that sees fewer live golds than this becomes one when it is full.
pub const FEW_GOLDS: u64 = 3;

/// The sender has nothing that the replica here does not have: it is full from then on, where the
/// message is accepted. After out of memory a part may be done.
pub fn full(store: &mut Store, ends: Ends, work: &mut Work) -> Result<(), AllocError>
    ensures store { OnOk result (store.new ≡ (full store.old ends work.old).store) }
    ensures work { OnOk result (work.new ≡ (full store.old ends work.old).work) }
{
    if is_accepted(store, work.from, EdgeUse::Answers, &ends) && !store.names.is_full(&ends.file) {
        fill(store, ends.file, work)?;
    }
    Ok(())
}

/// Few golds are seen: a bronze replica that is full, and sees few of them too, raises its flag,
/// where the message is accepted. After out of memory a part may be done.
pub fn invite(store: &mut Store, ends: Ends, work: &mut Work) -> Result<(), AllocError>
    ensures store { OnOk result (store.new ≡ (invite store.old ends work.old).store) }
    ensures work { OnOk result (work.new ≡ (invite store.old ends work.old).work) }
{
    let accepted = accept(store, &ends, EdgeUse::Needs, work)?;
    if accepted && is_bronze(store, &ends.file) {
        raise_if_few(store, ends.file, work)?;
    }
    Ok(())
}

/// Whether the replica of a thing is full, and not gold.
fn is_bronze(store: &Store, file: &FileId) -> bool
    ensures { result ≡ is_bronze store.now file.now }
{
    store.names.is_full(file) && !is_gold(store, file)
}

/// A filling replica is full from now on, and raises its flag where it sees fewer than three live
/// golds. After out of memory a part may be done.
pub fn fill(store: &mut Store, file: FileId, work: &mut Work) -> Result<(), AllocError>
    ensures store { OnOk result (store.new ≡ (fill store.old file work.old).store) }
    ensures work { OnOk result (work.new ≡ (fill store.old file work.old).work) }
{
    store.fill(&file);
    raise_if_few(store, file, work)?;
    Ok(())
}

/// The server raises its flag of a thing that sees few live golds.
fn raise_if_few(store: &mut Store, file: FileId, work: &mut Work) -> Result<(), AllocError>
    ensures store { OnOk result (store.new ≡ (raise_if_few store.old file work.old).store) }
    ensures work { OnOk result (work.new ≡ (raise_if_few store.old file work.old).work) }
{
    if live_golds(store, &file) < FEW_GOLDS {
        raise_flag(store, file, work)?;
    }
    Ok(())
}

/// How many live golds a thing sees.
pub fn live_golds(store: &Store, file: &FileId) -> u64
    ensures { result ≡ live_golds store.now file.now }
{
    match store.names.own(file) {
        Some(own) => own.flags.live_golds(store.names.removed()),
        None => 0,
    }
}
