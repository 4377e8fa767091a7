//! Replies, read.

ghost use Rattle.std.specs.Prelude.{[]};
ghost use Rattle.pg_codec.specs.Reading.{checked, number_at};
ghost use Rattle.pg_packet_fields.specs.Faults.{Gives, of_packet};
ghost use Rattle.pg_packet_fields.specs.Lists.{count_of, many};
ghost use Rattle.pg_packet_read.specs.Replies.{any_row, counts_at, reply_at, row_at, rows_at, stat_at, reply_fields_at, unchanged};

use crate::numbered::read_item;
use crate::refusals::read_refusal;
use crate::texts::read_path;
use pg_base::{Items, Shared, SharedBytes};
use pg_call::{Counts, Reply, ReplyKind, Stat};
use pg_codec::Reader;
use pg_packet_fields::{PacketError, read_block, read_dir, read_name};
use pg_path::Row;
use pg_register::Place;
use std::alloc::Global;

/// The kinds of replies, by number.
const REPLY_KINDS: [ReplyKind; 9] = [
    ReplyKind::Done,
    ReplyKind::Made,
    ReplyKind::Wrote,
    ReplyKind::Bytes,
    ReplyKind::Names,
    ReplyKind::Stat,
    ReplyKind::Leaving,
    ReplyKind::Status,
    ReplyKind::Refused,
];

/// A shown name, and the child that it is of.
#[tactic(auto, unfolding(crate::specs::Replies::row_at))]
fn read_row(alloc: Global, reader: &mut Reader<'_>) -> Result<Row, PacketError>
    ensures { Gives (λ r. (r, reader.new)) result (row_at reader.old) }
{
    let name = read_path(alloc, reader)?;
    let child = reader.file()?;
    Ok(Row { name, child })
}

/// So many rows.
fn read_each_row(
    alloc: Global,
    count: u8,
    reader: &mut Reader<'_>,
) -> Result<Items<Row>, PacketError>
    ensures { Gives (λ r. (r, reader.new)) result (many any_row unchanged count tt [] reader.old) }
{
    let mut rows = Items::new(alloc);
    for _ in 0..count {
        let row = read_row(alloc, reader)?;
        rows.push(row)?;
    }
    Ok(rows)
}

/// A count of rows.
fn read_row_count(reader: &mut Reader<'_>) -> Result<u8, PacketError>
    ensures { Gives (λ n. (n, reader.new)) result
        (checked (count_of 100) (of_packet (number_at 1)) reader.old) }
{
    let place = reader.place();
    let count = reader.u8()?;
    if count <= 100 {
        Ok(count)
    } else {
        Err(PacketError::TooLong(place))
    }
}

/// A count of rows, and the rows.
#[tactic(auto, unfolding(crate::specs::Replies::rows_at))]
fn read_rows(alloc: Global, reader: &mut Reader<'_>) -> Result<Items<Row>, PacketError>
    ensures { Gives (λ r. (r, reader.new)) result (rows_at reader.old) }
{
    let count = read_row_count(reader)?;
    read_each_row(alloc, count, reader)
}

/// What is told of a replica.
#[tactic(auto, unfolding(crate::specs::Replies::stat_at))]
fn read_stat(alloc: Global, reader: &mut Reader<'_>) -> Result<Shared<Stat>, PacketError>
    ensures { Gives (λ s. (s, reader.new)) result (stat_at reader.old) }
{
    let id = reader.file()?;
    let stamp = reader.stamp()?;
    let parent = read_dir(reader)?;
    let name = read_name(reader)?;
    let live = reader.flag()?;
    let gold = reader.flag()?;
    let golds = reader.u64()?;
    let heads = reader.u64()?;
    let length = reader.u64()?;
    let edges = reader.u64()?;
    let place = Place {
        stamp,
        parent,
        name: SharedBytes::from_slice(alloc, name)?,
        live,
    };
    let stat = Stat {
        id,
        place,
        gold,
        golds,
        heads,
        length,
        edges,
    };
    Ok(Shared::new(alloc, stat)?)
}

/// What is told of a server.
#[tactic(auto, unfolding(crate::specs::Replies::counts_at))]
fn read_counts(alloc: Global, reader: &mut Reader<'_>) -> Result<Shared<Counts>, PacketError>
    ensures { Gives (λ c. (c, reader.new)) result (counts_at reader.old) }
{
    let view = reader.u64()?;
    let last = reader.u64()?;
    let replicas = reader.u64()?;
    let intents = reader.u64()?;
    let cells = reader.u64()?;
    let held = reader.u64()?;
    let counts = Counts {
        view,
        last,
        replicas,
        intents,
        cells,
        held,
    };
    Ok(Shared::new(alloc, counts)?)
}

/// The fields of a reply of the kind.
#[tactic(auto, unfolding(crate::specs::Replies::reply_fields_at))]
fn read_reply_fields(
    alloc: Global,
    kind: ReplyKind,
    reader: &mut Reader<'_>,
) -> Result<Reply, PacketError>
    ensures { Gives (λ r. (r, reader.new)) result (reply_fields_at kind reader.old) }
{
    match kind {
        ReplyKind::Done => Ok(Reply::Done),
        ReplyKind::Made => {
            let id = reader.file()?;
            Ok(Reply::Made(id))
        }
        ReplyKind::Wrote => {
            let stamp = reader.stamp()?;
            Ok(Reply::Wrote(stamp))
        }
        ReplyKind::Bytes => {
            let bytes = read_block(alloc, reader)?;
            Ok(Reply::Bytes(bytes))
        }
        ReplyKind::Names => {
            let total = reader.u32()?;
            let rows = read_rows(alloc, reader)?;
            Ok(Reply::Names { total, rows })
        }
        ReplyKind::Stat => {
            let stat = read_stat(alloc, reader)?;
            Ok(Reply::Stat(stat))
        }
        ReplyKind::Leaving => {
            let server = reader.u32()?;
            Ok(Reply::Leaving(server))
        }
        ReplyKind::Status => {
            let counts = read_counts(alloc, reader)?;
            Ok(Reply::Status(counts))
        }
        ReplyKind::Refused => {
            let why = read_refusal(reader)?;
            Ok(Reply::Refused(why))
        }
    }
}

/// What a server answers: its number, and its fields.
#[tactic(auto, unfolding(crate::specs::Replies::reply_at))]
pub fn read_reply(alloc: Global, reader: &mut Reader<'_>) -> Result<Reply, PacketError>
    ensures { Gives (λ r. (r, reader.new)) result (reply_at reader.old) }
{
    let kind = read_item(&REPLY_KINDS, reader)?;
    read_reply_fields(alloc, kind, reader)
}
