//! Replies, written.

ghost use Rattle.std.specs.Prelude.{◌≡◌, ◌++◌, OnOk};
ghost use Rattle.std.specs.List.{AllByRecursion, flat_map};
ghost use Rattle.pg_packet_write.specs.Calls.{FitRows, FitsReply, FitsText, counts_bytes, refusal_bytes, reply_bytes, row_bytes, stat_bytes, unsettled_number};
ghost use Rattle.pg_packet_write.specs.Fields.{listed};
ghost use Rattle.pg_path.specs.declared.row.Row.{Row};
ghost use Rattle.pg_words.specs.PlaceWords.{IsPlace};

use crate::calls::write_path;
use crate::fields::{write_block, write_name};
use pg_base::Bytes;
use pg_call::{Counts, IntentKind, Refusal, Reply, Stat, Unsettled};
use pg_codec::{write_file, write_flag, write_stamp, write_u8, write_u32, write_u64};
use pg_path::Row;
use std::alloc::AllocError;

#[tactic(auto, unfolding(crate::specs::Calls::row_bytes))]
fn write_row(row: &Row, out: &mut Bytes) -> Result<(), AllocError>
    requires { FitsText row.now.name }
    ensures { OnOk result (out.new ≡ out.old ++ row_bytes row.now) }
{
    write_path(&row.name, out)?;
    write_file(row.child, out)
}

fn write_each_row(rows: &[Row], out: &mut Bytes) -> Result<(), AllocError>
    requires { AllByRecursion (λ (row : Row). FitsText row.name) rows.now }
    ensures { OnOk result (out.new ≡ out.old ++ flat_map row_bytes rows.now) }
{
    for row in rows {
        write_row(row, out)?;
    }
    Ok(())
}

#[tactic(auto, unfolding(crate::specs::Fields::listed))]
fn write_rows(rows: &[Row], out: &mut Bytes) -> Result<(), AllocError>
    requires { FitRows rows.now }
    ensures { OnOk result (out.new ≡ out.old ++ listed 1 row_bytes rows.now) }
{
    write_u8(rows.len() as u8, out)?;
    write_each_row(rows, out)
}

#[tactic(auto, unfolding(crate::specs::Calls::stat_bytes))]
fn write_stat(stat: &Stat, out: &mut Bytes) -> Result<(), AllocError>
    requires { IsPlace stat.now.place }
    ensures { OnOk result (out.new ≡ out.old ++ stat_bytes stat.now) }
{
    write_file(stat.id, out)?;
    write_stamp(stat.place.stamp, out)?;
    write_file(stat.place.parent, out)?;
    write_name(stat.place.name.as_slice(), out)?;
    write_flag(stat.place.live, out)?;
    write_flag(stat.gold, out)?;
    write_u64(stat.golds, out)?;
    write_u64(stat.heads, out)?;
    write_u64(stat.length, out)?;
    write_u64(stat.edges, out)
}

#[tactic(auto, unfolding(crate::specs::Calls::counts_bytes))]
fn write_counts(counts: &Counts, out: &mut Bytes) -> Result<(), AllocError>
    ensures { OnOk result (out.new ≡ out.old ++ counts_bytes counts.now) }
{
    write_u64(counts.view, out)?;
    write_u64(counts.last, out)?;
    write_u64(counts.replicas, out)?;
    write_u64(counts.intents, out)?;
    write_u64(counts.cells, out)?;
    write_u64(counts.held, out)
}

/// The number of what is not settled.
fn number_of(what: Unsettled) -> u8
    ensures { result ≡ unsettled_number what }
{
    match what {
        Unsettled::Intent(IntentKind::Bye) => 1,
        Unsettled::Intent(IntentKind::Seek) => 2,
        Unsettled::Intent(IntentKind::Fill) => 3,
        Unsettled::Intent(IntentKind::Patch) => 4,
        Unsettled::Intent(IntentKind::Confirm) => 5,
        Unsettled::Intent(IntentKind::Leave) => 6,
        Unsettled::Cell => 7,
    }
}

/// The number of the refusal, and its values.
#[tactic(auto, unfolding(crate::specs::Calls::refusal_bytes))]
fn write_refusal(why: &Refusal, out: &mut Bytes) -> Result<(), AllocError>
    ensures { OnOk result (out.new ≡ out.old ++ refusal_bytes why.now) }
{
    match why {
        Refusal::BadPath(component) => {
            write_u8(1, out)?;
            write_u8(*component, out)
        }
        Refusal::ClockEnd => write_u8(2, out),
        Refusal::NotYet(id) => {
            write_u8(3, out)?;
            write_file(*id, out)
        }
        Refusal::NoName(component) => {
            write_u8(4, out)?;
            write_u8(*component, out)
        }
        Refusal::NotDir(component) => {
            write_u8(5, out)?;
            write_u8(*component, out)
        }
        Refusal::IsDir => write_u8(6, out),
        Refusal::Root => write_u8(7, out),
        Refusal::Exists(id) => {
            write_u8(8, out)?;
            write_file(*id, out)
        }
        Refusal::DirFull => write_u8(9, out),
        Refusal::NotEmpty(id) => {
            write_u8(10, out)?;
            write_file(*id, out)
        }
        Refusal::Loop => write_u8(11, out),
        Refusal::TooLong => write_u8(12, out),
        Refusal::Behind(stamp) => {
            write_u8(13, out)?;
            write_stamp(*stamp, out)
        }
        Refusal::IsGold => write_u8(14, out),
        Refusal::LastGold => write_u8(15, out),
        Refusal::HasChild(id) => {
            write_u8(16, out)?;
            write_file(*id, out)
        }
        Refusal::Unsettled { what, id, peer } => {
            write_u8(17, out)?;
            write_u8(number_of(*what), out)?;
            write_file(*id, out)?;
            write_u32(*peer, out)
        }
        Refusal::Held => write_u8(18, out),
        Refusal::WrongView(view) => {
            write_u8(19, out)?;
            write_u64(*view, out)
        }
        Refusal::ManyActors => write_u8(20, out),
    }
}

/// The number of the reply, and its fields.
#[tactic(auto, unfolding(crate::specs::Calls::reply_bytes))]
pub fn write_reply(reply: &Reply, out: &mut Bytes) -> Result<(), AllocError>
    requires { FitsReply reply.now }
    ensures { OnOk result (out.new ≡ out.old ++ reply_bytes reply.now) }
{
    match reply {
        Reply::Done => write_u8(1, out),
        Reply::Made(id) => {
            write_u8(2, out)?;
            write_file(*id, out)
        }
        Reply::Wrote(stamp) => {
            write_u8(3, out)?;
            write_stamp(*stamp, out)
        }
        Reply::Bytes(bytes) => {
            write_u8(4, out)?;
            write_block(bytes.as_slice(), out)
        }
        Reply::Names { total, rows } => {
            write_u8(5, out)?;
            write_u32(*total, out)?;
            write_rows(rows.as_slice(), out)
        }
        Reply::Stat(stat) => {
            write_u8(6, out)?;
            write_stat(stat.get(), out)
        }
        Reply::Leaving(server) => {
            write_u8(7, out)?;
            write_u32(*server, out)
        }
        Reply::Status(counts) => {
            write_u8(8, out)?;
            write_counts(counts.get(), out)
        }
        Reply::Refused(why) => {
            write_u8(9, out)?;
            write_refusal(why, out)
        }
    }
}
