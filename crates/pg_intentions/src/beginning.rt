//! Intentions begin and end, behind the house rules of an event.

ghost use Rattle.std.specs.Prelude.{◌≡◌, ◌++◌, IfOk, OnOk, slice_get};
ghost use Rattle.std.specs.List.{flat_map};
ghost use Rattle.pg_graph.specs.pg_intent.Intents.{HaveOwnKeys, ended_each};
ghost use Rattle.pg_intentions.specs.Beginning.{begin_end, end_others, ended_key, ended_key_of, still_stands};
ghost use Rattle.pg_intentions.specs.Intending.{pieces};

use crate::confirms::{begin_confirms, is_doubtful};
use crate::fills::{Files, begin_fills, to_fill};
use crate::patches::begin_patches;
use crate::seeks::{begin_seeks, is_seeking, to_seek};
use pg_base::Items;
use pg_graph::intent::{Intent, IntentKey, Intents};
use pg_graph::may_still_leave;
use pg_graph::msg::Work;
use pg_graph::store::Store;
use std::alloc::AllocError;

/// Each intention ends whose condition does not hold any more, and those begin for which there is a
/// cause: Patches by directory and child, then Fills by file, then Seeks by file, then Confirms by
/// directory and child. After out of memory a part may be done.
pub fn begin_end(store: &mut Store, work: &mut Work) -> Result<(), AllocError>
    ensures store { OnOk result (store.new ≡ (begin_end store.old work.old).store) }
    ensures work { OnOk result (work.new ≡ (begin_end store.old work.old).work) }
{
    let files = to_fill(&store.names)?;
    let seekers = to_seek(store)?;
    store.settle(seekers.as_slice());
    end_others(store, &files)?;
    begin_patches(store, work)?;
    begin_fills(store, &files, work)?;
    begin_seeks(store, seekers.as_slice(), work)?;
    begin_confirms(store, work)?;
    Ok(())
}

/// Whether the condition of an intention holds, if it has one: a Seek is of what seeks, a Fill of
/// what is to be filled, a Confirm of a child that is listed and not held, a Leave to a peer that
/// is listed with the birth, and whose flag of that birth is raised.
fn still_stands(store: &Store, files: &Files, intent: &Intent) -> bool
    ensures { result ≡ still_stands store.now files.now.entries intent.now }
{
    match intent {
        Intent::Bye { .. } => true,
        Intent::Seek { file, .. } => is_seeking(store, file),
        Intent::Fill { file, .. } => files.contains_key(file),
        Intent::Patch { .. } => true,
        Intent::Confirm { dir, child, .. } => is_doubtful(store, dir, child),
        Intent::Leave {
            file,
            peer,
            peer_birth,
        } => may_still_leave(store, file, *peer, *peer_birth),
    }
}

/// The key of the intention at this index comes to these, where its condition does not hold.
fn add_ended(
    store: &Store,
    files: &Files,
    k: usize,
    keys: &mut Items<IntentKey>,
) -> Result<(), AllocError>
    ensures { OnOk result (keys.new
        ≡ keys.old
        ++ pieces (ended_key_of store.now files.now.entries) (slice_get store.now.intents k)) }
{
    if let Some(intent) = store.intents.at(k) {
        add_key(still_stands(store, files, intent), intent, keys)?;
    }
    Ok(())
}

/// Puts an intention's key behind these, unless it stays.
fn add_key(stays: bool, intent: &Intent, keys: &mut Items<IntentKey>) -> Result<(), AllocError>
    ensures { OnOk result (keys.new ≡ keys.old ++ ended_key stays intent.now) }
{
    if stays {
        return Ok(());
    }
    keys.push(intent.key())?;
    Ok(())
}

/// The keys of the intentions whose conditions do not hold, in their order.
fn ended_keys(store: &Store, files: &Files) -> Result<Items<IntentKey>, AllocError>
    ensures keys { IfOk result (λ keys. keys
        ≡ flat_map (ended_key_of store.now files.now.entries) store.now.intents) }
    ensures own { HaveOwnKeys store.now.intents }
{
    let mut keys = Items::new(store.allocator());
    let count = store.intents.len();
    for k in 0..count {
        add_ended(store, files, k, &mut keys)?;
    }
    Ok(keys)
}

/// The intentions with these keys end.
fn end_each(intents: &mut Intents, keys: &[IntentKey])
    ensures { intents.new ≡ ended_each intents.old keys.now }
{
    for key in keys {
        intents.end(key);
    }
}

/// The intentions end whose condition does not hold.
#[tactic(auto, using(crate::proofs::Ending::others_end))]
fn end_others(store: &mut Store, files: &Files) -> Result<(), AllocError>
    ensures { OnOk result (store.new ≡ end_others store.old files.now.entries) }
{
    let keys = ended_keys(store, files)?;
    end_each(&mut store.intents, keys.as_slice());
    Ok(())
}
