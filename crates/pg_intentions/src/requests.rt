//! The messages of intentions.

ghost use Rattle.std.specs.Prelude.{◌≡◌, ◌++◌, IfOk, OnOk, slice_get};
ghost use Rattle.std.specs.List.{flat_map};
ghost use Rattle.pg_graph.specs.pg_names.Names.{cell_at, own_at};
ghost use Rattle.pg_intentions.specs.Intending.{pieces};
ghost use Rattle.pg_intentions.specs.Requests.{ask_all, ask_begun, asks, asks_by, bye_message, confirm_message, leave_message, request};

use pg_base::{FileId, Items, Shared};
use pg_entries::Entry;
use pg_graph::intent::{Intent, IntentKey};
use pg_graph::msg::{Ends, Message, Sent, Work};
use pg_graph::pieces::send;
use pg_graph::store::Store;
use std::alloc::AllocError;

/// What the server asks for by an intention. None where what it is about is not held: then it does
/// not stand.
fn request(store: &Store, intent: &Intent) -> Result<Option<Message>, AllocError>
    ensures { IfOk result (λ message. message ≡ request store.now intent.now) }
{
    match intent {
        Intent::Bye {
            file,
            birth,
            peer_birth,
            ..
        } => Ok(Some(bye_message(*file, *birth, *peer_birth))),
        Intent::Seek { file, .. } => Ok(Some(Message::Seek {
            file: *file,
            birth: store.birth(file),
        })),
        Intent::Fill { file, birth, .. } => Ok(Some(Message::Fetch {
            file: *file,
            birth: *birth,
        })),
        Intent::Patch { dir, entry, .. } => Ok(Some(tell_message(store, *dir, entry)?)),
        Intent::Confirm { dir, child, .. } => confirm_message(store, *dir, child),
        Intent::Leave {
            file,
            peer_birth,
            ..
        } => Ok(leave_message(store, *file, *peer_birth)),
    }
}

/// A peer is told that a replica is gone.
fn bye_message(file: FileId, birth: u64, peer_birth: u64) -> Message
    ensures { result ≡ bye_message file birth peer_birth }
{
    Message::Bye {
        ends: Ends {
            file,
            sender: birth,
            receiver: peer_birth,
        },
    }
}

/// What a directory is told of a child.
fn tell_message(store: &Store, dir: FileId, entry: &Entry) -> Result<Message, AllocError>
    ensures { IfOk result (λ message. message ≡ Message.Tell dir entry.now) }
{
    let entry = Shared::new(store.allocator(), entry.copy()?)?;
    Ok(Message::Tell { dir, entry })
}

/// The cell that is to be confirmed.
fn confirm_message(
    store: &Store,
    dir: FileId,
    child: &FileId,
) -> Result<Option<Message>, AllocError>
    ensures { IfOk result (λ message. message
        ≡ confirm_message dir (cell_at store.now.names dir child.now)) }
{
    let Some(entry) = store.names.entry(&dir, child) else {
        return Ok(None);
    };
    let entry = Shared::new(store.allocator(), entry.copy()?)?;
    Ok(Some(Message::Confirm { dir, entry }))
}

/// The replica asks a gold one, of this birth, for leave to go.
fn leave_message(store: &Store, file: FileId, peer_birth: u64) -> Option<Message>
    ensures { result ≡ leave_message store.now file peer_birth (own_at store.now.names file) }
{
    match store.names.own(&file) {
        Some(own) => Some(Message::Leave {
            ends: Ends {
                file,
                sender: store.birth(&file),
                receiver: peer_birth,
            },
            stamp: own.place.stamp,
        }),
        None => None,
    }
}

/// Sends the message of an intention, if it has a target.
fn ask(store: &Store, intent: &Intent, sent: &mut Items<Sent>) -> Result<(), AllocError>
    ensures { OnOk result (sent.new ≡ sent.old ++ asks store.now intent.now) }
{
    let target = intent.target();
    if target == 0 {
        return Ok(());
    }
    if let Some(message) = request(store, intent)? {
        send(store, target, message, sent)?;
    }
    Ok(())
}

/// Of the intention with this key, if it stands.
fn ask_by(store: &Store, key: &IntentKey, sent: &mut Items<Sent>) -> Result<(), AllocError>
    ensures { OnOk result (sent.new ≡ sent.old ++ asks_by store.now key.now) }
{
    if let Some(intent) = store.intents.get(key) {
        ask(store, intent, sent)?;
    }
    Ok(())
}

/// Of each of these.
fn ask_each(store: &Store, keys: &[IntentKey], sent: &mut Items<Sent>) -> Result<(), AllocError>
    ensures { OnOk result (sent.new ≡ sent.old ++ flat_map (asks_by store.now) keys.now) }
{
    for key in keys {
        ask_by(store, key, sent)?;
    }
    Ok(())
}

/// Sends the messages of the intentions that began in this event, in their order.
pub fn ask_begun(store: &Store, work: &mut Work) -> Result<(), AllocError>
    ensures { OnOk result (work.new ≡ ask_begun store.now work.old) }
{
    ask_each(store, work.begun.as_slice(), &mut work.sent)?;
    Ok(())
}

/// Sends the messages of all intentions, in their order.
pub fn ask_all(store: &Store, work: &mut Work) -> Result<(), AllocError>
    ensures { OnOk result (work.new ≡ ask_all store.now work.old) }
{
    ask_every(store, &mut work.sent)?;
    Ok(())
}

/// Of the intention at this index, if there is one.
fn ask_at(store: &Store, k: usize, sent: &mut Items<Sent>) -> Result<(), AllocError>
    ensures { OnOk result
        (sent.new ≡ sent.old ++ pieces (asks store.now) (slice_get store.now.intents k)) }
{
    if let Some(intent) = store.intents.at(k) {
        ask(store, intent, sent)?;
    }
    Ok(())
}

fn ask_every(store: &Store, sent: &mut Items<Sent>) -> Result<(), AllocError>
    ensures { OnOk result (sent.new ≡ sent.old ++ flat_map (asks store.now) store.now.intents) }
{
    let count = store.intents.len();
    for k in 0..count {
        ask_at(store, k, sent)?;
    }
    Ok(())
}
