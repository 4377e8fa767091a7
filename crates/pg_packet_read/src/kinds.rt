//! The kinds of packets.

use pg_msg::{Greeting, MessageKind};

/// What a packet is for, without what it says.
#[derive(Clone, Copy, Debug, PartialEq, Eq)]
pub enum PacketKind {
    Message(MessageKind),
    Call,
    Reply,
}

/// The kinds of packets, by number.
pub const PACKET_KINDS: [PacketKind; 28] = [
    PacketKind::Message(MessageKind::Cell),
    PacketKind::Message(MessageKind::Ack),
    PacketKind::Message(MessageKind::Harbinger),
    PacketKind::Message(MessageKind::Want),
    PacketKind::Message(MessageKind::Delta),
    PacketKind::Message(MessageKind::Piece),
    PacketKind::Message(MessageKind::Later),
    PacketKind::Message(MessageKind::Fetch),
    PacketKind::Message(MessageKind::Grant),
    PacketKind::Message(MessageKind::NoGrant),
    PacketKind::Message(MessageKind::Full),
    PacketKind::Message(MessageKind::Seek),
    PacketKind::Message(MessageKind::Greet(Greeting::Here)),
    PacketKind::Message(MessageKind::NoneHere),
    PacketKind::Message(MessageKind::Gone),
    PacketKind::Message(MessageKind::Bye),
    PacketKind::Message(MessageKind::ByeOk),
    PacketKind::Message(MessageKind::Confirm),
    PacketKind::Message(MessageKind::PlaceIs),
    PacketKind::Message(MessageKind::Tell),
    PacketKind::Message(MessageKind::TellOk),
    PacketKind::Message(MessageKind::Leave),
    PacketKind::Message(MessageKind::LeaveOk),
    PacketKind::Message(MessageKind::Invite),
    PacketKind::Message(MessageKind::Walk),
    PacketKind::Message(MessageKind::Greet(Greeting::Meet)),
    PacketKind::Call,
    PacketKind::Reply,
];
