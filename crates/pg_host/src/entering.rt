//! One input.

ghost use Rattle.std.specs.Prelude.{◌≡◌, ◌≤◌, ◌⊎◌, ◌∷◌, ◌++◌, [], ℕ, List, false, IfOk, IfErr, IfSome, IsSome, OnOk, IsErrOf, Contains};
ghost use Rattle.pg_node_input.specs.law_lengths.Packets.{IsAskedFew, IsSentWell, IsToldWell};
ghost use Rattle.pg_node_input.specs.law_lengths.law_spelled.Messages.{FitsInput};
ghost use Rattle.pg_node_input.specs.law_lengths.law_spelled.Stores.{FitsStore};
ghost use Rattle.pg_disk.specs.Moments.{LeavesSince};
ghost use Rattle.pg_disk.specs.Synced.{KeepsOthers};
ghost use Rattle.pg_log.specs.Log.{OpensWithOrWithout, Stands};
ghost use Rattle.pg_msg.specs.declared.message.Sent.{Sent};
ghost use Rattle.pg_server.specs.Local.{effect_of};
ghost use Rattle.pg_host.specs.Causes.{IsFault};
ghost use Rattle.pg_host.specs.Entries.{IsShort, entry_for, noted_of};
ghost use Rattle.pg_host.specs.Sends.{SentFirst, packets, with_all};

use crate::asking::Back;
use crate::keeping::keep;
use crate::sending::{send_messages, send_reply};
use pg_base::Bytes;
use pg_disk::Disk;
use pg_event::Status;
use pg_log::Log;
use pg_net::Net;
use pg_node_input::sends_packets;
use pg_node_input::server::{Input, Out, Server};
use std::alloc::Global;

/// Lets the server take an input. What comes of it can be sent.
pub fn take(server: &mut Server, input: Input) -> Result<Out, Status>
    requires going { server.old.failed ≡ false }
    requires fits { FitsStore server.old.store }
    requires input { FitsInput input }
    requires few { IsAskedFew input }
    ensures store { OnOk result (server.new.store ≡ (effect_of server.old.store input).store) }
    ensures out { IfOk result (λ out. out ≡ (effect_of server.old.store input).out) }
    ensures going { OnOk result (server.new.failed ≡ false) }
    ensures fits { OnOk result (FitsStore server.new.store) }
    ensures told { IfOk result (λ out. IfSome out.reply (λ r. IsToldWell r)) }
    ensures to { IfOk result (λ out. (m : Sent) → Contains out.sent m → m.to ≤ 64) }
    ensures well { IfOk result (λ out. (m : Sent) → Contains out.sent m → IsSentWell m) }
    ensures memory { IfErr result (λ e. e ≡ Status.OutOfMemory) }
{
    sends_packets();
    match server.step(input) {
        Ok(out) => Ok(out),
        Err(_) => Err(Status::OutOfMemory),
    }
}

/// Appends an input to the log, lets the server take it, and sends first the reply to the client,
/// and then the messages.
pub fn enter<N: Net, D: Disk>(
    alloc: Global,
    net: &mut N,
    disk: &mut D,
    log: &mut Log,
    server: &mut Server,
    buffer: &mut Bytes,
    port: u16,
    input: Input,
    back: Back,
) -> Result<(), Status>
    requires port { port ≤ 65471 }
    requires open { IsSome log.old }
    requires going { server.old.failed ≡ false }
    requires fits { FitsStore server.old.store }
    requires input { FitsInput input }
    requires few { IsAskedFew input }
    requires short { IsShort (noted_of input) }

    ensures store { OnOk result (server.new.store ≡ (effect_of server.old.store input).store) }
    ensures going { OnOk result (server.new.failed ≡ false) }
    ensures fits { OnOk result (FitsStore server.new.store) }
    ensures ready { OnOk result (IsSome log.new) }

    // What goes out: all, or the first of it. Nothing else happens to the net.
    ensures sent { OnOk result (N.tells → N.told net.new
        ≡ with_all (N.told net.old) (packets port back (effect_of server.old.store input))) }
    ensures first { N.tells → SentFirst (N.told net.old) (N.told net.new)
        (packets port back (effect_of server.old.store input)) }
    ensures takes { N.takes net.new ≡ N.takes net.old }

    // From an Ok on, and where a packet was sent, a crash leaves the input.
    ensures kept { D.tells → (entries : List (List ℕ))
        → Stands log.old (D.told disk.old) entries
        → OnOk result (Stands log.new (D.told disk.new) (entries ++ entry_for input ∷ [])) }
    ensures before { D.tells → N.tells → (entries : List (List ℕ))
        → Stands log.old (D.told disk.old) entries
        → (N.told net.new ≡ N.told net.old)
        ⊎ Stands log.new (D.told disk.new) (entries ++ entry_for input ∷ []) }
    ensures nothing { IsErrOf result Status.DiskFault → N.tells
        → N.told net.new ≡ N.told net.old }

    // At each moment since the call began a crash leaves the entries, with the input or without.
    ensures any_moment { D.tells → (entries : List (List ℕ))
        → Stands log.old (D.told disk.old) entries
        → LeavesSince 0 (D.told disk.old) (D.told disk.new)
        (OpensWithOrWithout entries (entry_for input)) }
    ensures others { D.tells → KeepsOthers 0 (D.told disk.old) (D.told disk.new) }

    ensures net_later { N.faults net.old ≤ N.faults net.new }
    ensures disk_later { D.faults disk.old ≤ D.faults disk.new }
    ensures err { IfErr result (λ e. IsFault (N.faults net.old) (N.faults net.new)
        (D.faults disk.old) (D.faults disk.new) e) }
{
    let input = match keep(alloc, disk, log, buffer, input) {
        Ok(input) => input,
        Err(status) => return Err(status),
    };
    let out = match take(server, input) {
        Ok(out) => out,
        Err(status) => return Err(status),
    };
    let Out { reply, sent, .. } = out;
    match send_reply(alloc, net, buffer, server.store(), back, reply) {
        Ok(()) => {}
        Err(status) => return Err(status),
    }
    match send_messages(alloc, net, buffer, port, sent) {
        Ok(()) => Ok(()),
        Err(status) => Err(status),
    }
}
