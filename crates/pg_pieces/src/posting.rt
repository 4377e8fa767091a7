//! Messages to other servers.

ghost use Rattle.std.specs.Prelude.{◌≡◌, ◌++◌, ◌∷◌, [], OnOk};
ghost use Rattle.pg_pieces.specs.Posting.{post, sent_to};

use pg_base::{Items, NodeId};
use pg_store::Store;
use pg_store::msg::{Message, Packet, Sent, Work};
use std::alloc::AllocError;

/// Sends a message to a server, behind these.
pub fn send(
    store: &Store,
    to: NodeId,
    message: Message,
    sent: &mut Items<Sent>,
) -> Result<(), AllocError>
    ensures { OnOk result (sent.new ≡ sent.old ++ sent_to store.now to message ∷ []) }
{
    sent.push(Sent {
        to,
        packet: Packet {
            from: store.server(),
            view: store.view(),
            message,
        },
    })?;
    Ok(())
}

/// Sends a message to a server, behind those that are sent already.
pub fn post(store: &Store, to: NodeId, message: Message, work: &mut Work) -> Result<(), AllocError>
    ensures { OnOk result (work.new ≡ post store.now to message work.old) }
{
    send(store, to, message, &mut work.sent)?;
    Ok(())
}
