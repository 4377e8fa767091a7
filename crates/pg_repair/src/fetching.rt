//! A replica is to be filled.

ghost use Rattle.std.specs.Prelude.{◌≡◌, IfOk, OnOk};
ghost use Rattle.pg_repair.specs.Fetching.{answer_fetch, fetch, give, granted_from, place_to_grant};

use pg_base::{FileId, Shared};
use pg_pieces::msg::{Ends, Granted, Message, Work};
use pg_pieces::names::{Attributes, is_dir};
use pg_pieces::replica::Replica;
use pg_pieces::store::Store;
use pg_pieces::{ends_to, link_peer, post};
use pg_register::Place;
use std::alloc::{AllocError, Global};

/// A replica of this birth is to be filled from the one here. Where there is a full one here it
/// links the asker, and is granted, or told full where that edge is clean; from a birth that is not
/// the asker's latest nothing comes. Else the asker is told that it is not granted. After out of
/// memory a part may be done.
pub fn fetch(store: &mut Store, file: FileId, birth: u64, work: &mut Work) -> Result<(), AllocError>
    ensures store { OnOk result (store.new ≡ (fetch store.old file birth work.old).store) }
    ensures work { OnOk result (work.new ≡ (fetch store.old file birth work.old).work) }
{
    if !store.names.is_full(&file) {
        return post(store, work.from, Message::NoGrant { file, birth }, work);
    }
    if store.knows_later_birth(&file, work.from, birth) {
        return Ok(());
    }
    link_peer(store, file, work.from, birth, work)?;
    answer_fetch(store, file, birth, work)?;
    Ok(())
}

/// Where the asker has acknowledged all it is full; else it is granted.
fn answer_fetch(store: &Store, file: FileId, birth: u64, work: &mut Work) -> Result<(), AllocError>
    ensures { OnOk result (work.new ≡ answer_fetch store.now file birth work.old) }
{
    let ends = ends_to(store, file, birth);
    if store.is_clean(&file, work.from, birth) {
        return post(store, work.from, Message::Full { ends }, work);
    }
    give(store, ends, work)?;
    Ok(())
}

/// Grants a replica with what the one here has.
fn give(store: &Store, ends: Ends, work: &mut Work) -> Result<(), AllocError>
    ensures { OnOk result (work.new ≡ give store.now ends work.old) }
{
    let Some(replica) = store.replica(&ends.file) else {
        return Ok(());
    };
    let own = store.names.own_or_blank(ends.file)?;
    let granted = granted_from(store.allocator(), ends.file, own, replica)?;
    let granted = Shared::new(store.allocator(), granted)?;
    post(store, work.from, Message::Grant { ends, granted }, work)?;
    Ok(())
}

/// What a new replica begins with: the policy, the place and the flags of the one from which it is
/// filled.
fn granted_from(
    alloc: Global,
    file: FileId,
    own: Attributes,
    replica: &Replica,
) -> Result<Granted, AllocError>
    ensures { IfOk result (λ granted. granted ≡ granted_from file own replica.now) }
{
    let Attributes { place, flags } = own;
    Ok(Granted {
        policy: replica.content.policy(),
        place: place_to_grant(alloc, file, place)?,
        flags,
    })
}

/// The place that a new replica begins with. Of a dead directory it is the blank one: its death
/// comes behind its entries.
fn place_to_grant(alloc: Global, file: FileId, place: Place) -> Result<Place, AllocError>
    ensures { IfOk result (λ granted. granted ≡ place_to_grant file place) }
{
    if is_dir(&file) && !place.live {
        return Place::blank(alloc, file);
    }
    Ok(place)
}
