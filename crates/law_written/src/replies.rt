//! Replies that can be read.

ghost use Rattle.std.specs.List.{AllByRecursion};
ghost use Rattle.pg_codec.specs.Laws.{HasWidth};
ghost use Rattle.pg_packet_read.specs.Refusals.{IsWholeRefusal};
ghost use Rattle.pg_packet_read.specs.Replies.{AreCounts, AreRows, IsWholeReply, IsWholeRow, IsWholeStat};
ghost use Rattle.pg_packet_write.specs.Calls.{FitRows, FitsReply, FitsText};
ghost use Rattle.pg_path.specs.declared.row.Row.{Row};
ghost use Rattle.pg_words.specs.PlaceWords.{IsPlace};

use crate::calls::text_is_whole;
use crate::fields::{bytes_are, file_is, narrow_is, place_is_whole, stamp_is, wide_is};
use pg_call::{Counts, Refusal, Reply, Stat};
use pg_path::Row;

fn row_is_whole(row: &Row)
    requires { FitsText row.now.name }
    ensures { IsWholeRow row.now }
{
    text_is_whole(&row.name);
    file_is(row.child)
}

fn each_row_is_whole(rows: &[Row])
    requires { AllByRecursion (λ (row : Row). FitsText row.name) rows.now }
    ensures { AllByRecursion IsWholeRow rows.now }
{
    for row in rows {
        row_is_whole(row);
    }
}

fn rows_are_whole(rows: &[Row])
    requires { FitRows rows.now }
    ensures { AreRows rows.now }
{
    each_row_is_whole(rows)
}

fn stat_is_whole(stat: &Stat)
    requires { IsPlace stat.now.place }
    ensures { IsWholeStat stat.now }
{
    file_is(stat.id);
    place_is_whole(&stat.place);
    wide_is(stat.golds);
    wide_is(stat.heads);
    wide_is(stat.length);
    wide_is(stat.edges)
}

fn counts_are_whole(counts: Counts)
    ensures { AreCounts counts }
{}

fn byte_is(number: u8)
    ensures { HasWidth 1 number }
{}

fn refusal_is_whole(why: &Refusal)
    ensures { IsWholeRefusal why.now }
{
    match why {
        Refusal::BadPath(component) => byte_is(*component),
        Refusal::ClockEnd => (),
        Refusal::NotYet(id) => file_is(*id),
        Refusal::NoName(component) => byte_is(*component),
        Refusal::NotDir(component) => byte_is(*component),
        Refusal::IsDir => (),
        Refusal::Root => (),
        Refusal::Exists(id) => file_is(*id),
        Refusal::DirFull => (),
        Refusal::NotEmpty(id) => file_is(*id),
        Refusal::Loop => (),
        Refusal::TooLong => (),
        Refusal::Behind(stamp) => stamp_is(*stamp),
        Refusal::IsGold => (),
        Refusal::LastGold => (),
        Refusal::HasChild(id) => file_is(*id),
        Refusal::Unsettled { id, peer, .. } => {
            file_is(*id);
            narrow_is(*peer)
        }
        Refusal::Held => (),
        Refusal::WrongView(view) => wide_is(*view),
        Refusal::ManyActors => (),
    }
}

pub fn reply_is_whole(reply: &Reply)
    requires { FitsReply reply.now }
    ensures { IsWholeReply reply.now }
{
    match reply {
        Reply::Done => (),
        Reply::Made(id) => file_is(*id),
        Reply::Wrote(stamp) => stamp_is(*stamp),
        Reply::Bytes(bytes) => bytes_are(bytes.as_slice()),
        Reply::Names { total, rows } => {
            narrow_is(*total);
            rows_are_whole(rows.as_slice())
        }
        Reply::Stat(stat) => stat_is_whole(stat.get()),
        Reply::Leaving(server) => narrow_is(*server),
        Reply::Status(counts) => counts_are_whole(*counts.get()),
        Reply::Refused(why) => refusal_is_whole(why),
    }
}
