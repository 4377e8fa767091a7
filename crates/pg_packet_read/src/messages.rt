//! Messages of each kind, read.

ghost use Rattle.pg_packet_fields.specs.Faults.{Gives};
ghost use Rattle.pg_packet_read.specs.Messages.{message_at};

use crate::message_fields::{
    read_about, read_delta, read_granted, read_hops, read_listed, read_piece, read_replica,
    read_wanted,
};
use pg_base::Shared;
use pg_codec::Reader;
use pg_msg::{Message, MessageKind};
use pg_packet_fields::{
    PacketError, read_ask, read_cell, read_dir, read_ends, read_head, read_key, read_server,
};
use std::alloc::Global;

/// What a message of the kind says.
#[tactic(auto, unfolding(crate::specs::Messages::message_at))]
pub fn read_message(
    alloc: Global,
    kind: MessageKind,
    reader: &mut Reader<'_>,
) -> Result<Message, PacketError>
    ensures { Gives (λ m. (m, reader.new)) result (message_at kind reader.old) }
{
    match kind {
        MessageKind::Cell => {
            let ends = read_ends(reader)?;
            let tag = reader.u64()?;
            let cell = read_cell(alloc, reader)?;
            Ok(Message::Cell { ends, tag, cell })
        }
        MessageKind::Ack => {
            let ends = read_ends(reader)?;
            let key = read_key(reader)?;
            let tag = reader.u64()?;
            Ok(Message::Ack { ends, key, tag })
        }
        MessageKind::Harbinger => {
            let ends = read_ends(reader)?;
            let tag = reader.u64()?;
            let head = read_head(alloc, reader)?;
            let head = Shared::new(alloc, head)?;
            Ok(Message::Harbinger { ends, tag, head })
        }
        MessageKind::Want => {
            let ends = read_ends(reader)?;
            let wanted = read_wanted(alloc, reader)?;
            Ok(Message::Want { ends, wanted })
        }
        MessageKind::Delta => {
            let ends = read_ends(reader)?;
            let delta = read_delta(alloc, reader)?;
            Ok(Message::Delta { ends, delta })
        }
        MessageKind::Piece => {
            let ends = read_ends(reader)?;
            let piece = read_piece(alloc, reader)?;
            Ok(Message::Piece { ends, piece })
        }
        MessageKind::Later => {
            let (ends, stamp) = read_about(reader)?;
            Ok(Message::Later { ends, stamp })
        }
        MessageKind::Fetch => {
            let (file, birth) = read_replica(reader)?;
            Ok(Message::Fetch { file, birth })
        }
        MessageKind::Grant => {
            let ends = read_ends(reader)?;
            let granted = read_granted(alloc, reader)?;
            Ok(Message::Grant { ends, granted })
        }
        MessageKind::NoGrant => {
            let (file, birth) = read_replica(reader)?;
            Ok(Message::NoGrant { file, birth })
        }
        MessageKind::Full => {
            let ends = read_ends(reader)?;
            Ok(Message::Full { ends })
        }
        MessageKind::Seek => {
            let (file, birth) = read_replica(reader)?;
            Ok(Message::Seek { file, birth })
        }
        MessageKind::Greet(greeting) => {
            let ends = read_ends(reader)?;
            Ok(Message::Greet { ends, greeting })
        }
        MessageKind::NoneHere => {
            let ask = read_ask(reader)?;
            let file = reader.file()?;
            let child = reader.file()?;
            Ok(Message::NoneHere { ask, file, child })
        }
        MessageKind::Gone => {
            let (file, birth) = read_replica(reader)?;
            Ok(Message::Gone { file, birth })
        }
        MessageKind::Bye => {
            let ends = read_ends(reader)?;
            Ok(Message::Bye { ends })
        }
        MessageKind::ByeOk => {
            let (file, birth) = read_replica(reader)?;
            Ok(Message::ByeOk { file, birth })
        }
        MessageKind::Confirm => {
            let (dir, entry) = read_listed(alloc, reader)?;
            Ok(Message::Confirm { dir, entry })
        }
        MessageKind::PlaceIs => {
            let (dir, entry) = read_listed(alloc, reader)?;
            Ok(Message::PlaceIs { dir, entry })
        }
        MessageKind::Tell => {
            let (dir, entry) = read_listed(alloc, reader)?;
            Ok(Message::Tell { dir, entry })
        }
        MessageKind::TellOk => {
            let dir = read_dir(reader)?;
            let child = reader.file()?;
            let stamp = reader.stamp()?;
            Ok(Message::TellOk { dir, child, stamp })
        }
        MessageKind::Leave => {
            let (ends, stamp) = read_about(reader)?;
            Ok(Message::Leave { ends, stamp })
        }
        MessageKind::LeaveOk => {
            let (ends, stamp) = read_about(reader)?;
            Ok(Message::LeaveOk { ends, stamp })
        }
        MessageKind::Invite => {
            let ends = read_ends(reader)?;
            Ok(Message::Invite { ends })
        }
        MessageKind::Walk => {
            let ends = read_ends(reader)?;
            let origin = read_server(reader)?;
            let birth = reader.u64()?;
            let hops = read_hops(reader)?;
            let word = reader.u64()?;
            Ok(Message::Walk {
                ends,
                origin,
                birth,
                hops,
                word,
            })
        }
    }
}
