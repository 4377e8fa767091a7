//! Calls, read.

ghost use Rattle.pg_packet_fields.specs.Faults.{Gives};
ghost use Rattle.pg_packet_fields.specs.Patches.{block_at};
ghost use Rattle.pg_packet_read.specs.Calls.{asked_at, call_at, request_at, size_at};

use crate::numbered::read_item;
use crate::texts::{read_path, read_target};
use pg_call::{Call, CallKind, Payload, ReadCount};
use pg_codec::Reader;
use pg_packet_fields::{PacketError, read_block, read_policy};
use pg_packet_write::Request;
use std::alloc::Global;

/// What may be asked, without its words.
#[derive(Clone, Copy, Debug, PartialEq, Eq)]
pub enum RequestKind {
    Call(CallKind),
    Tick,
}

/// What may be asked, by number.
const REQUEST_KINDS: [RequestKind; 18] = [
    RequestKind::Call(CallKind::Mkdir),
    RequestKind::Call(CallKind::Create),
    RequestKind::Call(CallKind::Write),
    RequestKind::Call(CallKind::Cut),
    RequestKind::Call(CallKind::Read),
    RequestKind::Call(CallKind::Fresh),
    RequestKind::Call(CallKind::Ls),
    RequestKind::Call(CallKind::Stat),
    RequestKind::Call(CallKind::Rename),
    RequestKind::Call(CallKind::Unlink),
    RequestKind::Call(CallKind::Rmdir),
    RequestKind::Call(CallKind::Forget),
    RequestKind::Call(CallKind::Demote),
    RequestKind::Call(CallKind::Drop),
    RequestKind::Call(CallKind::Giveup),
    RequestKind::Tick,
    RequestKind::Call(CallKind::Status),
    RequestKind::Call(CallKind::Stop),
];

/// The bytes of a write.
fn read_payload(alloc: Global, reader: &mut Reader<'_>) -> Result<Payload, PacketError>
    ensures { Gives (λ b. (b, reader.new)) result (block_at reader.old) }
{
    let place = reader.place();
    let bytes = read_block(alloc, reader)?;
    match Payload::new(bytes) {
        Some(payload) => Ok(payload),
        None => Err(PacketError::TooLong(place)),
    }
}

/// How many bytes are to be read.
#[tactic(auto, unfolding(crate::specs::Calls::size_at))]
fn read_size(reader: &mut Reader<'_>) -> Result<ReadCount, PacketError>
    ensures { Gives (λ n. (n, reader.new)) result (size_at reader.old) }
{
    let place = reader.place();
    let count = reader.u32()?;
    match ReadCount::new(count) {
        Some(count) => Ok(count),
        None => Err(PacketError::TooLong(place)),
    }
}

/// The words of a call of the kind.
#[tactic(auto, unfolding(crate::specs::Calls::call_at))]
fn read_call(alloc: Global, kind: CallKind, reader: &mut Reader<'_>) -> Result<Call, PacketError>
    ensures { Gives (λ c. (c, reader.new)) result (call_at kind reader.old) }
{
    match kind {
        CallKind::Mkdir => {
            let path = read_path(alloc, reader)?;
            Ok(Call::Mkdir { path })
        }
        CallKind::Create => {
            let path = read_path(alloc, reader)?;
            let policy = read_policy(reader)?;
            Ok(Call::Create { path, policy })
        }
        CallKind::Write => {
            let path = read_path(alloc, reader)?;
            let offset = reader.u32()?;
            let bytes = read_payload(alloc, reader)?;
            Ok(Call::Write {
                path,
                offset,
                bytes,
            })
        }
        CallKind::Cut => {
            let path = read_path(alloc, reader)?;
            let length = reader.u32()?;
            Ok(Call::Cut { path, length })
        }
        CallKind::Read => {
            let path = read_path(alloc, reader)?;
            let offset = reader.u32()?;
            let count = read_size(reader)?;
            Ok(Call::Read {
                path,
                offset,
                count,
            })
        }
        CallKind::Fresh => {
            let path = read_path(alloc, reader)?;
            Ok(Call::Fresh { path })
        }
        CallKind::Ls => {
            let path = read_path(alloc, reader)?;
            let from = reader.u32()?;
            Ok(Call::Ls { path, from })
        }
        CallKind::Stat => {
            let target = read_target(alloc, reader)?;
            Ok(Call::Stat { target })
        }
        CallKind::Rename => {
            let from = read_path(alloc, reader)?;
            let to = read_path(alloc, reader)?;
            Ok(Call::Rename { from, to })
        }
        CallKind::Unlink => {
            let path = read_path(alloc, reader)?;
            Ok(Call::Unlink { path })
        }
        CallKind::Rmdir => {
            let path = read_path(alloc, reader)?;
            Ok(Call::Rmdir { path })
        }
        CallKind::Forget => {
            let id = reader.file()?;
            Ok(Call::Forget { id })
        }
        CallKind::Demote => {
            let target = read_target(alloc, reader)?;
            Ok(Call::Demote { target })
        }
        CallKind::Drop => {
            let target = read_target(alloc, reader)?;
            Ok(Call::Drop { target })
        }
        CallKind::Giveup => {
            let view = reader.u64()?;
            let server = reader.u32()?;
            Ok(Call::Giveup { view, server })
        }
        CallKind::Status => Ok(Call::Status),
        CallKind::Stop => Ok(Call::Stop),
    }
}

/// The words of what is asked.
fn read_asked(
    alloc: Global,
    kind: RequestKind,
    reader: &mut Reader<'_>,
) -> Result<Request, PacketError>
    ensures { Gives (λ r. (r, reader.new)) result (asked_at kind reader.old) }
{
    match kind {
        RequestKind::Call(kind) => {
            let call = read_call(alloc, kind, reader)?;
            Ok(Request::Call(call))
        }
        RequestKind::Tick => Ok(Request::Tick),
    }
}

/// What a client asks: its number, and its words.
#[tactic(auto, unfolding(crate::specs::Calls::request_at))]
pub fn read_request(alloc: Global, reader: &mut Reader<'_>) -> Result<Request, PacketError>
    ensures { Gives (λ r. (r, reader.new)) result (request_at reader.old) }
{
    let kind = read_item(&REQUEST_KINDS, reader)?;
    read_asked(alloc, kind, reader)
}
