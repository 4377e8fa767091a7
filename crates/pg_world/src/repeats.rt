//! Messages that bring what their receiver has already.

ghost use Rattle.std.specs.Prelude.{◌≡◌, length};
ghost use Rattle.pg_pieces.specs.declared.accepting.EdgeUse.{EdgeUse};
ghost use Rattle.std.specs.Option.{option_copied};
ghost use Rattle.pg_run.specs.Journal.{bag, message_at};
ghost use Rattle.pg_run.specs.Run.{World};
ghost use Rattle.pg_server.specs.Local.{is_heard};
ghost use Rattle.pg_world.specs.Repeats.{cell_repeats, has_version, is_known, is_last, message_repeats, one_if, packet_repeats, repeats, sent_repeats, taken_repeats};
ghost use Rattle.pg_world.specs.Stands.{Stands};

use crate::machine::Machine;
use pg_base::{FileId, Head, NodeId};
use pg_entries::Cell;
use pg_event::Event;
use pg_msg::{Ends, Message, Packet, Piece, Sent};
use pg_pieces::{EdgeUse, is_accepted};
use pg_store::Store;

/// Whether what is held of a file covers the version with this head.
fn has_version(store: &Store, file: &FileId, head: &Head) -> bool
    ensures { result ≡ has_version store.now file.now head.now }
{
    match store.replica(file) {
        Some(replica) => replica.content.covers(head.actor(), head.number),
        None => false,
    }
}

/// Whether a message about a version is accepted, and the version is covered.
fn is_known(store: &Store, from: NodeId, manner: EdgeUse, ends: &Ends, head: &Head) -> bool
    ensures { result ≡ is_known store.now from manner ends.now head.now }
{
    is_accepted(store, from, manner, ends) && has_version(store, &ends.file, head)
}

/// Whether the body ends with this piece.
fn is_last(piece: &Piece) -> bool
    ensures { result ≡ is_last piece.now }
{
    u128::from(piece.offset) + piece.bytes.len() as u128 == u128::from(piece.head.length)
}

fn cell_repeats(store: &Store, from: NodeId, ends: &Ends, cell: &Cell) -> bool
    ensures { result ≡ cell_repeats store.now from ends.now cell.now }
{
    match cell {
        Cell::Version(version) => is_known(store, from, EdgeUse::Makes, ends, version.head()),
        Cell::Place(_) | Cell::Flag(_) | Cell::Entry(_, _) => false,
    }
}

/// Whether a message is accepted and brings a version, as a cell, a delta or a last piece, that is
/// covered.
fn message_repeats(store: &Store, from: NodeId, message: &Message) -> bool
    ensures { result ≡ message_repeats store.now from message.now }
{
    match message {
        Message::Cell { ends, cell, .. } => cell_repeats(store, from, ends, cell),
        Message::Delta { ends, delta } => {
            is_known(store, from, EdgeUse::Needs, ends, &delta.get().head)
        }
        Message::Piece { ends, piece } => {
            is_last(piece.get()) && is_known(store, from, EdgeUse::Needs, ends, &piece.get().head)
        }
        _ => false,
    }
}

/// Whether a message is heard.
fn is_heard(store: &Store, packet: &Packet) -> bool
    ensures { result ≡ is_heard store.now packet.now }
{
    store.is_before_clock_end()
        && packet.view == store.view()
        && store.is_live_other(packet.from)
        && packet.message.is_in_range()
}

fn packet_repeats(store: &Store, packet: &Packet) -> bool
    ensures { result ≡ packet_repeats store.now packet.now }
{
    is_heard(store, packet) && message_repeats(store, packet.from, &packet.message)
}

fn one_if(test: bool) -> u64
    ensures { result ≡ one_if test }
{
    if test { 1 } else { 0 }
}

impl Machine {
    /// Whether a message to a live server would bring what it has.
    fn sent_repeats(&self, message: &Sent) -> bool
        ensures { (w : World) → Stands self.now w
            → result ≡ sent_repeats (length self.now.servers.items) w message.now }
    {
        if !self.is_live(message.to) {
            return false;
        }
        packet_repeats(self.server_at(message.to).store(), &message.packet)
    }

    /// The message with this number.
    fn message(&self, number: u64) -> Option<&Sent>
        ensures { option_copied result ≡ message_at self.now.bag number }
    {
        if number == 0 {
            return None;
        }
        self.bag.get(number as usize - 1)
    }

    fn delivery_repeats(&self, number: u64) -> bool
        ensures { (w : World) → Stands self.now w
            → result ≡ taken_repeats (length self.now.servers.items) w
            (message_at (bag w.journal) number) }
    {
        match self.message(number) {
            Some(message) => self.sent_repeats(message),
            None => false,
        }
    }

    /// How many versions an event would bring that their receiver covers: one, or none.
    pub fn repeats(&self, event: &Event) -> u64
        ensures { (w : World) → Stands self.now w
            → result ≡ repeats (length self.now.servers.items) w event.now }
    {
        match event {
            Event::Deliver(number) => one_if(self.delivery_repeats(*number)),
            _ => 0,
        }
    }
}
