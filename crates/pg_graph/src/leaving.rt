//! A replica asks a gold one for leave to go, and goes; and its peers hear of it.

ghost use Rattle.std.specs.Prelude.{◌≡◌, IfOk, OnOk};
ghost use Rattle.pg_pieces.specs.pg_intent.Intents.{intent_at};
ghost use Rattle.pg_pieces.specs.pg_intent.declared.key.IntentKey.TheVariants as intent_key;
ghost use Rattle.pg_pieces.specs.pg_names.Same.{is_same_stamp};
ghost use Rattle.pg_pieces.specs.Done.{idle};
ghost use Rattle.pg_pieces.specs.Golds.{flags_of};
ghost use Rattle.pg_register.specs.Flag.{is_raised};
ghost use Rattle.pg_pieces.specs.pg_store.Links.{is_linked};
ghost use Rattle.pg_graph.specs.Leaving.{begin_byes, bye, bye_ok, gives_leave, goes, goes_or_stays, is_leave_to, is_leave_with, leave, leave_given, leave_ok, may_leave, may_still_leave, place_stamp, without_leave};

use pg_base::{FileId, NodeId, Stamp};
use pg_edges::Edge;
use pg_pieces::intent::{Intent, IntentKey};
use pg_pieces::msg::{Ends, Message, Work};
use pg_pieces::names::is_same_stamp;
use pg_pieces::store::Store;
use pg_pieces::{EdgeUse, accept, begin_intent, ends_to, is_accepted, is_gold, post, stays_for};
use std::alloc::AllocError;

/// Whether the own place of a thing has this stamp.
fn has_place_stamp(store: &Store, file: &FileId, stamp: Stamp) -> bool
    ensures { result ≡ is_same_stamp (place_stamp store.now file.now) stamp }
{
    match store.names.own(file) {
        Some(own) => is_same_stamp(own.place.stamp, stamp),
        None => is_same_stamp(Stamp { time: 0, server: 0 }, stamp),
    }
}

/// Whether leave is given: the replica here is full and gold, and its place has this stamp.
fn gives_leave(store: &Store, file: &FileId, stamp: Stamp) -> bool
    ensures { result ≡ gives_leave store.now file.now stamp }
{
    store.names.is_full(file) && is_gold(store, file) && has_place_stamp(store, file, stamp)
}

/// A replica asks for leave to go. It is linked, and gets leave where the replica here is full and
/// gold, and has the place of this stamp. After out of memory a part may be done.
pub fn leave(store: &mut Store, ends: Ends, stamp: Stamp, work: &mut Work) -> Result<(), AllocError>
    ensures store { OnOk result (store.new ≡ (leave store.old ends stamp work.old).store) }
    ensures work { OnOk result (work.new ≡ (leave store.old ends stamp work.old).work) }
{
    let accepted = accept(store, &ends, EdgeUse::Makes, work)?;
    if accepted && gives_leave(store, &ends.file, stamp) {
        let ends = ends_to(store, ends.file, ends.sender);
        post(store, work.from, Message::LeaveOk { ends, stamp }, work)?;
    }
    Ok(())
}

/// Whether there is an edge of the thing to this birth of the peer.
fn is_linked(store: &Store, file: &FileId, peer: NodeId, birth: u64) -> bool
    ensures { result ≡ is_linked store.now file.now peer birth }
{
    match store.replica(file) {
        Some(replica) => replica.edges.is_listed(peer, birth),
        None => false,
    }
}

/// Whether the peer's flag of this birth is raised in those of the thing.
fn is_seen_raised(store: &Store, file: &FileId, peer: NodeId, birth: u64) -> bool
    ensures { result ≡ is_raised (flags_of store.now file.now) peer birth }
{
    match store.names.own(file) {
        Some(own) => own.flags.is_raised(peer, birth),
        None => false,
    }
}

/// Whether the peer is listed with this birth, and its flag of that birth is raised.
pub fn may_still_leave(store: &Store, file: &FileId, peer: NodeId, birth: u64) -> bool
    ensures { result ≡ may_still_leave store.now file.now peer birth }
{
    is_linked(store, file, peer, birth) && is_seen_raised(store, file, peer, birth)
}

/// Whether it is a Leave to this birth of the server's replica.
fn is_leave_with(intent: &Intent, from: NodeId, sender: u64) -> bool
    ensures { result ≡ is_leave_with intent.now from sender }
{
    match intent {
        Intent::Leave {
            peer,
            peer_birth,
            ..
        } => *peer == from && *peer_birth == sender,
        _ => false,
    }
}

/// Whether a Leave of the thing stands to the sender of a message, with this birth.
fn is_leave_to(store: &Store, ends: &Ends, work: &Work) -> bool
    ensures { result
        ≡ is_leave_to (intent_at store.now.intents (intent_key.Leave ends.now.file))
        work.entry.now.from ends.now.sender }
{
    match store.intents.get(&IntentKey::Leave { file: ends.file }) {
        Some(intent) => is_leave_with(intent, work.from, ends.sender),
        None => false,
    }
}

/// Whether the answer is to what was asked, and the place is still the one that was told.
fn may_leave(store: &Store, ends: &Ends, stamp: Stamp, work: &Work) -> bool
    ensures { result ≡ may_leave store.now ends.now stamp work.entry.now }
{
    is_accepted(store, work.from, EdgeUse::Answers, ends)
        && is_leave_to(store, ends, work)
        && has_place_stamp(store, &ends.file, stamp)
}

/// The peers of a replica that went are to be told.
fn begin_byes(
    store: &mut Store,
    file: FileId,
    birth: u64,
    edges: &[Edge],
    work: &mut Work,
) -> Result<(), AllocError>
    ensures store { OnOk result (store.new
        ≡ (begin_byes file birth edges.now (idle store.old work.old)).store) }
    ensures work { OnOk result (work.new
        ≡ (begin_byes file birth edges.now (idle store.old work.old)).work) }
{
    for edge in edges {
        let bye = Intent::Bye {
            file,
            birth,
            peer: edge.peer,
            peer_birth: edge.birth,
        };
        begin_intent(store, bye, work)?;
    }
    Ok(())
}

/// The replica goes, and its peers are to be told.
fn go(store: &mut Store, file: FileId, work: &mut Work) -> Result<(), AllocError>
    ensures store { OnOk result (store.new ≡ (goes store.old file work.old).store) }
    ensures work { OnOk result (work.new ≡ (goes store.old file work.old).work) }
{
    let birth = store.birth(&file);
    let Some(replica) = store.let_go(&file)? else {
        return Ok(());
    };
    begin_byes(store, file, birth, replica.edges.as_slice(), work)
}

/// The replica goes, where nothing keeps it here.
fn go_or_stay(store: &mut Store, file: FileId, work: &mut Work) -> Result<(), AllocError>
    ensures store { OnOk result (store.new ≡ (goes_or_stays store.old file work.old).store) }
    ensures work { OnOk result (work.new ≡ (goes_or_stays store.old file work.old).work) }
{
    match stays_for(store, &file) {
        Some(_why) => Ok(()),
        None => go(store, file, work),
    }
}

/// Leave was given. Where it is to what was asked, and nothing keeps the replica here, it goes;
/// where something does, it stays. After out of memory a part may be done.
pub fn leave_ok(
    store: &mut Store,
    ends: Ends,
    stamp: Stamp,
    work: &mut Work,
) -> Result<(), AllocError>
    ensures store { OnOk result (store.new ≡ (leave_ok store.old ends stamp work.old).store) }
    ensures work { OnOk result (work.new ≡ (leave_ok store.old ends stamp work.old).work) }
{
    if !may_leave(store, &ends, stamp, work) {
        return Ok(());
    }
    store.intents.end(&IntentKey::Leave { file: ends.file });
    go_or_stay(store, ends.file, work)
}

/// A peer's replica has gone: the edge to it goes. It is answered, whatever is here.
pub fn bye(store: &mut Store, ends: Ends, work: &mut Work) -> Result<(), AllocError>
    ensures store { OnOk result (store.new ≡ (bye store.old ends work.old).store) }
    ensures work { OnOk result (work.new ≡ (bye store.old ends work.old).work) }
{
    let answer = Message::ByeOk {
        file: ends.file,
        birth: ends.sender,
    };
    post(store, work.from, answer, work)?;
    store.unlink(ends.file, work.from, ends.sender);
    Ok(())
}

/// A peer has heard that a replica of this birth is gone.
pub fn bye_ok(store: &mut Store, file: FileId, birth: u64, work: &Work)
    ensures { store.new ≡ (bye_ok store.old file birth work.entry.now).store }
{
    store.intents.end(&IntentKey::Bye {
        file,
        birth,
        peer: work.from,
    });
}
