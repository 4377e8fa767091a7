//! Messages along edges: which are accepted, and what the others come to.

ghost use Rattle.std.specs.Prelude.{◌≡◌, IfOk, OnOk};
ghost use Rattle.pg_pieces.specs.Accepting.{accept, ends_to, is_accepted, is_answer, is_current, link_peer, meets, met, with_gone, with_link};
ghost use Rattle.pg_pieces.specs.Done.{link_of};

use crate::posting::post;
use pg_base::{FileId, NodeId};
use pg_store::msg::{Ends, Linked, Message, Work};
use pg_store::{Link, Store};
use std::alloc::AllocError;

/// How a message along an edge is met.
#[derive(Clone, Copy, Debug, PartialEq, Eq)]
pub enum EdgeUse {
    /// The message links its sender. Where its replica is not here the sender is told: so cells,
    /// harbingers, grants, greetings and leaves.
    Makes,
    /// The message has to come along an edge that is there. Where its replica is not here the
    /// sender is told: so wants, invitations and walks.
    Needs,
    /// The message has to come along an edge that is there, and else nothing comes of it: so all
    /// answers.
    Answers,
}

/// The edge of a message from a server, as its receiver has it.
pub fn link_of(from: NodeId, ends: &Ends) -> Link
    ensures { result ≡ link_of from ends.now }
{
    Link {
        own: ends.receiver,
        peer: from,
        birth: ends.sender,
    }
}

/// The edge from the replica here to one of this birth.
pub fn ends_to(store: &Store, file: FileId, birth: u64) -> Ends
    ensures { result ≡ ends_to store.now file birth }
{
    Ends {
        file,
        sender: store.birth(&file),
        receiver: birth,
    }
}

/// An edge is noted, where it was made.
fn note_link(news: bool, work: &mut Work, file: FileId, peer: NodeId) -> Result<(), AllocError>
    ensures { OnOk result (work.new ≡ with_link news work.old file peer) }
{
    if news {
        work.linked.push(Linked { file, peer })?;
    }
    Ok(())
}

/// Links a birth of a peer to the replica of a thing. Where that made an edge it is noted. After
/// out of memory a part may be done.
pub fn link_peer(
    store: &mut Store,
    file: FileId,
    peer: NodeId,
    birth: u64,
    work: &mut Work,
) -> Result<(), AllocError>
    ensures store { OnOk result
        (store.new ≡ (link_peer store.old file peer birth work.old).store) }
    ensures work { OnOk result
        (work.new ≡ (link_peer store.old file peer birth work.old).work) }
{
    let news = store.link(file, peer, birth)?;
    note_link(news, work, file, peer)?;
    Ok(())
}

fn is_answer(manner: EdgeUse) -> bool
    ensures { result ≡ is_answer manner }
{
    match manner {
        EdgeUse::Makes => false,
        EdgeUse::Needs => false,
        EdgeUse::Answers => true,
    }
}

/// Whether the replica of a message is here, and its sender is not listed with a later birth.
fn is_current(store: &Store, from: NodeId, ends: &Ends) -> bool
    ensures { result ≡ is_current store.now from ends.now }
{
    store.has_birth(&ends.file, ends.receiver)
        && !store.knows_later_birth(&ends.file, from, ends.sender)
}

/// Whether it links its sender, or comes along an edge that is there.
fn meets(store: &Store, from: NodeId, manner: EdgeUse, ends: &Ends) -> bool
    ensures { result ≡ meets store.now from manner ends.now }
{
    match manner {
        EdgeUse::Makes => true,
        EdgeUse::Needs => store.has_edge(&ends.file, &link_of(from, ends)),
        EdgeUse::Answers => store.has_edge(&ends.file, &link_of(from, ends)),
    }
}

/// Whether a message along an edge is accepted. It is not where its replica is not here, nor where
/// its sender is listed with a later birth, nor, but for those that link, where its sender is not
/// listed.
pub fn is_accepted(store: &Store, from: NodeId, manner: EdgeUse, ends: &Ends) -> bool
    ensures { result ≡ is_accepted store.now from manner ends.now }
{
    is_current(store, from, ends) && meets(store, from, manner, ends)
}

/// Links the sender of a message that does.
fn meet(store: &mut Store, ends: &Ends, manner: EdgeUse, work: &mut Work) -> Result<(), AllocError>
    ensures store { OnOk result (store.new ≡ (met store.old ends.now manner work.old).store) }
    ensures work { OnOk result (work.new ≡ (met store.old ends.now manner work.old).work) }
{
    match manner {
        EdgeUse::Makes => {
            link_peer(store, ends.file, work.from, ends.sender, work)?;
            Ok(())
        }
        EdgeUse::Needs => Ok(()),
        EdgeUse::Answers => Ok(()),
    }
}

/// Whether a message along an edge is accepted. Whoever is to be linked, or told that the replica
/// is not here, is. After out of memory a part may be done.
pub fn accept(
    store: &mut Store,
    ends: &Ends,
    manner: EdgeUse,
    work: &mut Work,
) -> Result<bool, AllocError>
    ensures store { OnOk result (store.new ≡ (accept store.old ends.now manner work.old).store) }
    ensures work { OnOk result (work.new ≡ (accept store.old ends.now manner work.old).work) }
    ensures accepted { IfOk result
        (λ accepted. accepted ≡ is_accepted store.old work.old.from manner ends.now) }
{
    let accepted = is_accepted(store, work.from, manner, ends);
    if !store.has_birth(&ends.file, ends.receiver) {
        tell_gone(store, ends, manner, work)?;
        return Ok(accepted);
    }
    if store.knows_later_birth(&ends.file, work.from, ends.sender) {
        return Ok(accepted);
    }
    meet(store, ends, manner, work)?;
    Ok(accepted)
}

/// Tells the sender of a message, which is no answer, that its replica is not here, unless that is
/// still to come.
fn tell_gone(store: &Store, ends: &Ends, manner: EdgeUse, work: &mut Work) -> Result<(), AllocError>
    ensures { OnOk result (work.new ≡ with_gone store.now ends.now manner work.old) }
{
    if is_answer(manner) || store.is_pending(ends.file, ends.receiver) {
        return Ok(());
    }
    let gone = Message::Gone {
        file: ends.file,
        birth: ends.receiver,
    };
    post(store, work.from, gone, work)?;
    Ok(())
}
