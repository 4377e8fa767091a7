//! A server that was asked does not hold what it was asked about.

ghost use Rattle.std.specs.Prelude.{◌≡◌};
ghost use Rattle.pg_pieces.specs.pg_intent.Intents.{intent_at};
ghost use Rattle.pg_repair.specs.NoneHere.{asking_key, does_ask, none_here, turn};

use pg_base::{FileId, NodeId};
use pg_pieces::intent::IntentKey;
use pg_pieces::msg::{Ask, Work};
use pg_pieces::store::Store;

/// What is told by such an answer: which intention asked.
fn asking_key(ask: Ask, file: FileId, child: FileId) -> IntentKey
    ensures { result ≡ asking_key ask file child }
{
    match ask {
        Ask::Seek => IntentKey::Seek { file },
        Ask::Confirm => IntentKey::Confirm { dir: file, child },
        Ask::Patch => IntentKey::Patch { dir: file, child },
    }
}

/// Whether the intention with this key asks this server.
fn does_ask(store: &Store, key: &IntentKey, server: NodeId) -> bool
    ensures { result ≡ does_ask (intent_at store.now.intents key.now) server }
{
    match store.intents.get(key) {
        Some(intent) => intent.target() == server,
        None => false,
    }
}

/// The next server is asked where this one was.
fn turn(store: &mut Store, key: &IntentKey, from: NodeId)
    ensures { store.new ≡ turn store.old key.now from }
{
    if does_ask(store, key, from) {
        let next = store.next_target(from);
        store.intents.aim(key, next);
    }
}

/// Another server is asked, where the intention asks the sender.
pub fn none_here(store: &mut Store, ask: Ask, file: FileId, child: FileId, work: &Work)
    ensures { store.new ≡ (none_here store.old ask file child work.entry.now).store }
{
    turn(store, &asking_key(ask, file, child), work.from);
}
