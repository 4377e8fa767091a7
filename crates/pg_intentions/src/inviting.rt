//! Who sees few gold replicas asks one more to be gold, where a server was removed.

ghost use Rattle.std.specs.Prelude.{◌≡◌, OnOk, not};
ghost use Rattle.std.specs.List.{find};
ghost use Rattle.std.specs.Option.{option_copied};
ghost use Rattle.pg_intentions.specs.Inviting.{invite_all, invite_each, invite_of, invites, is_least_gold, loose_edge};
ghost use Rattle.pg_intentions.specs.Seeks.{matches};
ghost use Rattle.pg_graph.specs.pg_store.Seen.{removed_of};

use crate::seeks::matches;
use pg_base::{FileId, Items};
use pg_edges::Edge;
use pg_graph::msg::{Message, Work};
use pg_graph::pieces::{ends_to, is_gold, send};
use pg_graph::store::Store;
use pg_register::GoldFlags;
use pg_repair::{FEW_GOLDS, live_golds};
use std::alloc::AllocError;

/// Whether this server's is the least live gold that a thing sees.
fn is_least_gold(store: &Store, file: &FileId) -> bool
    ensures { result ≡ is_least_gold store.now file.now }
{
    match store.names.own(file) {
        Some(own) => match own.flags.least_gold(store.names.removed()) {
            Some(least) => least == store.server(),
            None => false,
        },
        None => false,
    }
}

/// Whether a thing is full and gold, and sees few live golds, of which this server's is the least.
fn invites(store: &Store, file: &FileId) -> bool
    ensures { result ≡ invites store.now file.now }
{
    store.names.is_full(file)
        && is_gold(store, file)
        && live_golds(store, file) < FEW_GOLDS
        && is_least_gold(store, file)
}

/// The first of these edges that matches no raised flag of a live server.
fn first_loose<'a>(store: &Store, flags: &GoldFlags, edges: &'a [Edge]) -> Option<&'a Edge>
    ensures { option_copied result
        ≡ find (λ e. not (matches (removed_of store.now) flags.now e)) edges.now }
{
    edges.iter().find(|edge| !matches(store, flags, edge))
}

/// The first such edge of a thing.
fn loose_edge<'a>(store: &'a Store, file: &FileId) -> Option<&'a Edge>
    ensures { option_copied result ≡ loose_edge store.now file.now }
{
    let own = store.names.own(file)?;
    let replica = store.replica(file)?;
    first_loose(store, &own.flags, replica.edges.as_slice())
}

/// An Invite goes along such an edge of a thing that sees few live golds. It goes last.
fn invite(store: &Store, file: FileId, work: &mut Work) -> Result<(), AllocError>
    ensures { OnOk result (work.new ≡ invite_of store.now file work.old) }
{
    if !invites(store, &file) {
        return Ok(());
    }
    if let Some(edge) = loose_edge(store, &file) {
        let message = Message::Invite {
            ends: ends_to(store, file, edge.birth),
        };
        send(store, edge.peer, message, &mut work.tail)?;
    }
    Ok(())
}

/// Sends the invitations of these things, one behind another.
fn invite_each(store: &Store, files: &[FileId], work: &mut Work) -> Result<(), AllocError>
    ensures { OnOk result (work.new ≡ invite_each store.now files.now work.old) }
{
    for file in files {
        invite(store, *file, work)?;
    }
    Ok(())
}

/// Sends the invitations of all that is held, by id.
pub fn invite_all(store: &Store, work: &mut Work) -> Result<(), AllocError>
    ensures { OnOk result (work.new ≡ invite_all store.now work.old) }
{
    let held = store.names.as_map();
    let files = Items::from_vec(held.keys().copied().collect(store.allocator())?);
    invite_each(store, files.as_slice(), work)
}
