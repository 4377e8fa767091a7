//! The house rules, behind the first effect of an event.

ghost use Rattle.std.specs.Prelude.{◌≡◌, ◌≤◌, ◌+◌, ◌^◌, OnOk};
ghost use Rattle.pg_pieces.specs.Done.{idle};
ghost use Rattle.pg_cells.specs.Settling.{raise_gold, raise_golds, rules, settle, touch_all};

use pg_base::FileId;
use pg_pieces::msg::{Touched, Work};
use pg_pieces::store::{LATEST_TIME, Store};
use pg_pieces::{goldless, is_goldless, raise_flag};
use std::alloc::AllocError;

/// Touches each of these keys, in their order.
fn touch_all(store: &mut Store, touched: &[Touched]) -> Result<(), AllocError>
    ensures { OnOk result (store.new ≡ touch_all store.old touched.now) }
{
    for t in touched {
        store.touch(t.file, t.key)?;
    }
    Ok(())
}

/// Runs the house rules until none applies, and touches what they change. After out of memory a
/// part may be done.
fn rules(store: &mut Store, work: &mut Work) -> Result<(), AllocError>
    requires { store.old.names.last ≤ 2 ^ 62 + 2 ^ 40 }
    ensures store { OnOk result (store.new ≡ (rules store.old work.old).store) }
    ensures work { OnOk result (work.new ≡ (rules store.old work.old).work) }
{
    let told = work.touched.len();
    let moment = work.now;
    store.house(work, moment)?;
    if let Some(changed) = work.touched.as_slice().get(told..) {
        touch_all(store, changed)?;
    }
    Ok(())
}

/// Runs them again.
fn rules_again(store: &mut Store, work: &mut Work) -> Result<(), AllocError>
    ensures store { OnOk result (store.new ≡ (rules store.old work.old).store) }
    ensures work { OnOk result (work.new ≡ (rules store.old work.old).work) }
{
    if store.names.last() > LATEST_TIME {
        return Err(AllocError);
    }
    rules(store, work)?;
    Ok(())
}

/// Where a thing sees no live gold the server raises its flag of it, and the rules run again, by
/// which the flag passes to the cells for the thing.
fn raise_gold(store: &mut Store, file: FileId, work: &mut Work) -> Result<(), AllocError>
    ensures store { OnOk result (store.new ≡ (raise_gold store.old file work.old).store) }
    ensures work { OnOk result (work.new ≡ (raise_gold store.old file work.old).work) }
{
    if !is_goldless(store, &file) {
        return Ok(());
    }
    raise_flag(store, file, work)?;
    rules_again(store, work)?;
    Ok(())
}

/// Raises the server's flag of each of these things that sees no live gold, in their order.
fn raise_golds(store: &mut Store, files: &[FileId], work: &mut Work) -> Result<(), AllocError>
    ensures store { OnOk result
        (store.new ≡ (raise_golds files.now (idle store.old work.old)).store) }
    ensures work { OnOk result
        (work.new ≡ (raise_golds files.now (idle store.old work.old)).work) }
{
    for file in files {
        raise_gold(store, *file, work)?;
    }
    Ok(())
}

/// Runs the house rules until none applies. Then each thing that sees no live gold becomes one, by
/// id. After out of memory a part may be done.
pub fn settle(store: &mut Store, work: &mut Work) -> Result<(), AllocError>
    requires { store.old.names.last ≤ 2 ^ 62 + 2 ^ 40 }
    ensures store { OnOk result (store.new ≡ (settle store.old work.old).store) }
    ensures work { OnOk result (work.new ≡ (settle store.old work.old).work) }
{
    rules(store, work)?;
    let files = goldless(store)?;
    raise_golds(store, files.as_slice(), work)?;
    Ok(())
}
