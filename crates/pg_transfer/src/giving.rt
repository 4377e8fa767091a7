//! A Want comes.

ghost use Rattle.std.specs.Prelude.{◌≡◌, IfOk, OnOk, Some, drop, take};
ghost use Rattle.pg_content.specs.Content.{head_at};
ghost use Rattle.pg_delta.specs.Whole.{delta_of};
ghost use Rattle.pg_pieces.specs.pg_store.Store.{replica_of};
ghost use Rattle.pg_transfer.specs.Want.{answered, given, given_as, most_in_piece, want};

use crate::asking::put_off;
use pg_base::{Items, Shared, SharedBytes, Stamp, Version};
use pg_patch::Ranges;
use pg_pieces::msg::{Delta, Ends, Message, Piece, Wanted, Work};
use pg_pieces::names::is_dir;
use pg_pieces::replica::Replica;
use pg_pieces::store::Store;
use pg_pieces::{EdgeUse, accept, post};
use std::alloc::{AllocError, Global};

/// The most bytes of a piece.
const MOST_IN_PIECE: usize = 32_768;

/// As many bytes as go into a piece, from an offset on.
fn bytes_at(alloc: Global, body: &[u8], offset: u32) -> Result<SharedBytes, AllocError>
    ensures { IfOk result (λ b. b ≡ take most_in_piece (drop offset body.now)) }
{
    let start = (offset as usize).min(body.len());
    let rest = &body[start..];
    let end = MOST_IN_PIECE.min(rest.len());
    SharedBytes::from_slice(alloc, &rest[..end])
}

/// Gives bytes of the body of a version.
fn give(
    store: &Store,
    ends: &Ends,
    version: &Version,
    offset: u32,
    work: &mut Work,
) -> Result<(), AllocError>
    ensures { OnOk result (work.new ≡ given store.now ends.now version.now offset work.old) }
{
    let alloc = store.allocator();
    let piece = Piece {
        head: version.head().copy()?,
        offset,
        bytes: bytes_at(alloc, version.body().as_slice(), offset)?,
    };
    let message = Message::Piece {
        ends: ends.back(),
        piece: Shared::new(alloc, piece)?,
    };
    post(store, work.from, message, work)?;
    Ok(())
}

/// Gives the body of a version as a change of what these heads show, or its first bytes.
fn give_as(
    ranges: Option<Ranges>,
    store: &Store,
    ends: &Ends,
    version: &Version,
    heads: &Items<Stamp>,
    work: &mut Work,
) -> Result<(), AllocError>
    ensures { OnOk result
        (work.new ≡ given_as ranges store.now ends.now version.now heads.now work.old) }
{
    let Some(ranges) = ranges else {
        give(store, ends, version, 0, work)?;
        return Ok(());
    };
    let delta = Delta {
        head: version.head().copy()?,
        from: heads.copy()?,
        ranges,
    };
    let message = Message::Delta {
        ends: ends.back(),
        delta: Shared::new(store.allocator(), delta)?,
    };
    post(store, work.from, message, work)?;
    Ok(())
}

/// Gives the body of a version that is here.
fn give_wanted(
    store: &Store,
    replica: &Replica,
    ends: &Ends,
    version: &Version,
    wanted: &Wanted,
    work: &mut Work,
) -> Result<(), AllocError>
    ensures { OnOk result (work.new
        ≡ answered (Some version.now) replica.now store.now ends.now wanted.now work.old) }
{
    if wanted.offset == 0 {
        let ranges = replica.kept.delta(wanted.heads.as_slice(), version.head())?;
        give_as(ranges, store, ends, version, &wanted.heads, work)?;
    } else {
        give(store, ends, version, wanted.offset, work)?;
    }
    Ok(())
}

/// Answers a Want that is accepted, from the replica of the file.
fn answer_from(
    store: &Store,
    replica: &Replica,
    ends: &Ends,
    wanted: &Wanted,
    work: &mut Work,
) -> Result<(), AllocError>
    ensures { OnOk result (work.new
        ≡ answered (head_at replica.now.content.heads wanted.now.stamp) replica.now store.now
        ends.now wanted.now work.old) }
{
    match replica.content.at(wanted.stamp) {
        Some(version) => {
            give_wanted(store, replica, ends, version, wanted, work)?;
            Ok(())
        }
        None => {
            put_off(store, ends, wanted.stamp, work)?;
            Ok(())
        }
    }
}

/// Answers a Want that is accepted.
fn answer(store: &Store, ends: &Ends, wanted: &Wanted, work: &mut Work) -> Result<(), AllocError>
    ensures { OnOk result (work.new
        ≡ answered (head_at (replica_of store.now ends.now.file).content.heads wanted.now.stamp)
        (replica_of store.now ends.now.file) store.now ends.now wanted.now work.old) }
{
    match store.replica(&ends.file) {
        Some(replica) => {
            answer_from(store, replica, ends, wanted, work)?;
            Ok(())
        }
        None => {
            put_off(store, ends, wanted.stamp, work)?;
            Ok(())
        }
    }
}

/// A Want comes along an edge that is there: the body of a version that is a head is given, as a
/// delta where the deltas that the replica keeps lead there from the heads that are named, and else
/// as a piece. After out of memory a part may be done.
pub fn want(
    store: &mut Store,
    ends: Ends,
    wanted: &Wanted,
    work: &mut Work,
) -> Result<(), AllocError>
    ensures store { OnOk result (store.new ≡ (want store.old ends wanted.now work.old).store) }
    ensures work { OnOk result (work.new ≡ (want store.old ends wanted.now work.old).work) }
{
    if is_dir(&ends.file) {
        return Ok(());
    }
    if accept(store, &ends, EdgeUse::Needs, work)? {
        answer(store, &ends, wanted, work)?;
    }
    Ok(())
}
