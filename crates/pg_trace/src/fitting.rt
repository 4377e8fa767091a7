//! That values of these types have a spelling, where they suit each other. Numbers, stamps, ids and
//! bytes are in their ranges by their types. Nothing is done here: what is read is read so that its
//! range is known.

ghost use Rattle.std.specs.Prelude.{◌≡◌, ◌<◌, ◌^◌, Some};
ghost use Rattle.std.specs.List.{AllByRecursion};
ghost use Rattle.pg_base.specs.Id.{Fits};
ghost use Rattle.pg_base.specs.declared.id.Kind.{Kind};
ghost use Rattle.pg_base.specs.declared.id.Kind.TheVariants.{File};
ghost use Rattle.pg_call.specs.Refusal.{IsRefusal};
ghost use Rattle.pg_call.specs.Reply.{IsCounts, IsReply, IsRow, IsStat};
ghost use Rattle.pg_event.specs.Quiet.{IsAnswer, IsCause, IsOwing};
ghost use Rattle.pg_msg.specs.Text.{IsKey, IsSummary};
ghost use Rattle.pg_msg.specs.UpdateText.{ArePartBytes, IsFlag, IsMadeVersion, IsUpdate};
ghost use Rattle.pg_trace.specs.JournalLine.{IsContents, IsReplica};
ghost use Rattle.pg_trace.specs.Spelled.{IsTold};
ghost use Rattle.pg_trace.specs.Suited.{Answers, DetailFits, IsCallAnswer, SuitsCause, SuitsContents, SuitsKind, SuitsPlace, SuitsQuiet, SuitsReplica, SuitsRow, SuitsUpdate};
ghost use Rattle.pg_words.specs.PlaceWords.{IsPlace};
ghost use Rattle.pg_words.specs.StampWord.{IsStamp};

use crate::replica::{ShownContent, ShownReplica};
use pg_base::{FileId, Stamp};
use pg_call::{Counts, Refusal, Reply, Stat};
use pg_edges::Key;
use pg_event::{Cause, Event, OwedIntent, OwedKey, Owing, Quiet};
use pg_msg::{Detail, MadeVersion, Summary, Update};
use pg_patch::Part;
use pg_path::Row;
use pg_register::{Flag, Place};

fn id_fits(id: FileId)
    ensures { Fits id }
{}

fn stamp_fits(stamp: Stamp)
    ensures { IsStamp stamp }
{}

fn stamps_fit(stamps: &[Stamp])
    ensures { AllByRecursion IsStamp stamps.now }
{
    for stamp in stamps {
        stamp_fits(*stamp);
    }
}

fn bytes_fit(bytes: &[u8])
    ensures { AllByRecursion (λ b. b < 256) bytes.now }
{}

fn key_fits(key: Key)
    ensures { IsKey key }
{
    match key {
        Key::Place => {}
        Key::Flag(_) => {}
        Key::Entry(child) => id_fits(child),
        Key::Version(stamp) => stamp_fits(stamp),
    }
}

fn detail_fits(detail: Detail)
    ensures { DetailFits detail }
{
    match detail {
        Detail::Key(key) => key_fits(key),
        Detail::Stamp(stamp) => stamp_fits(stamp),
        Detail::Child(child) => id_fits(child),
        Detail::Nothing => {}
    }
}

pub fn summary_fits(summary: Summary)
    ensures { SuitsKind summary → IsSummary summary }
{
    id_fits(summary.file);
    detail_fits(summary.detail);
}

fn flag_fits(flag: Flag)
    ensures { IsFlag flag }
{}

fn parts_fit(parts: &[Part])
    ensures { ArePartBytes parts.now }
{
    for part in parts {
        bytes_fit(part.bytes.as_slice());
    }
}

fn version_fits(made: &MadeVersion)
    ensures { made.now.file.kind ≡ File → IsMadeVersion made.now }
{
    id_fits(made.file);
    stamp_fits(made.stamp);
    stamps_fit(made.bases.as_slice());
    parts_fit(made.ranges.parts());
}

fn place_fits(id: FileId, place: &Place)
    ensures id { Fits id }
    ensures place { SuitsPlace id place.now → IsPlace place.now }
{
    id_fits(id);
    id_fits(place.parent);
    stamp_fits(place.stamp);
}

pub fn update_fits(update: &Update)
    ensures { SuitsUpdate update.now → IsUpdate update.now }
{
    match update {
        Update::Version(made) => version_fits(made),
        Update::Place { id, place } => place_fits(*id, place),
        Update::Flag { id, flag } => {
            id_fits(*id);
            flag_fits(*flag);
        }
    }
}

fn row_fits(row: &Row)
    ensures { SuitsRow row.now → IsRow row.now }
{
    id_fits(row.child);
}

fn rows_fit(rows: &[Row])
    ensures { AllByRecursion (λ r. SuitsRow r → IsRow r) rows.now }
{
    for row in rows {
        row_fits(row);
    }
}

fn number_fits(number: u64)
    ensures { number < 2 ^ 64 }
{}

fn stat_fits(stat: &Stat)
    ensures { SuitsPlace stat.now.id stat.now.place → IsStat stat.now }
{
    place_fits(stat.id, &stat.place);
    number_fits(stat.golds);
    number_fits(stat.heads);
    number_fits(stat.length);
    number_fits(stat.edges);
}

fn counts_fit(counts: Counts)
    ensures { IsCounts counts }
{}

fn refusal_fits(refusal: Refusal)
    ensures { IsRefusal refusal }
{
    match refusal {
        Refusal::NotYet(id) => id_fits(id),
        Refusal::Exists(id) => id_fits(id),
        Refusal::NotEmpty(id) => id_fits(id),
        Refusal::HasChild(id) => id_fits(id),
        Refusal::Unsettled { id, .. } => id_fits(id),
        Refusal::Behind(stamp) => stamp_fits(stamp),
        _ => {}
    }
}

fn call_reply_fits(reply: &Reply)
    ensures { IsCallAnswer reply.now → IsReply reply.now }
{
    match reply {
        Reply::Done => {}
        Reply::Made(id) => id_fits(*id),
        Reply::Wrote(stamp) => stamp_fits(*stamp),
        Reply::Bytes(bytes) => bytes_fit(bytes.as_slice()),
        Reply::Names { total, rows } => {
            let _total = *total;
            rows_fit(rows.as_slice());
        }
        Reply::Stat(stat) => stat_fits(stat.get()),
        Reply::Leaving(server) => {
            let _server = *server;
        }
        Reply::Status(counts) => counts_fit(*counts.get()),
        Reply::Refused(refusal) => refusal_fits(*refusal),
    }
}

pub fn reply_fits(event: &Event, reply: &Option<Reply>)
    ensures { Answers event.now reply.now → IsTold event.now reply.now }
{
    match (event, reply) {
        (Event::Call { server, .. }, Some(reply)) => {
            let _server = *server;
            call_reply_fits(reply);
        }
        (Event::Tick { server, .. }, Some(_)) => {
            let _server = *server;
        }
        _ => {}
    }
}

fn intent_fits(intent: OwedIntent)
    ensures { IsOwing (Owing.Intent intent) }
{
    id_fits(intent.file);
    if let Some(child) = intent.child {
        id_fits(child);
    }
}

fn owed_key_fits(owed: OwedKey)
    ensures { IsOwing (Owing.Key owed) }
{
    id_fits(owed.file);
    key_fits(owed.key);
}

fn owing_fits(owing: Owing)
    ensures { IsOwing owing }
{
    match owing {
        Owing::Intent(intent) => intent_fits(intent),
        Owing::Key(owed) => owed_key_fits(owed),
        Owing::HeldBack { id, .. } => id_fits(id),
    }
}

fn cause_fits(cause: Cause)
    ensures { SuitsCause cause → IsCause cause }
{
    match cause {
        Cause::Message(summary) => summary_fits(summary),
        Cause::View { .. } => {}
        Cause::Owed(owing) => owing_fits(owing),
    }
}

fn contents_fit(contents: &ShownContent)
    ensures { (kind : Kind) → SuitsContents kind contents.now → IsContents kind contents.now }
{
    match contents {
        ShownContent::File {
            heads,
            length,
            first,
        } => {
            stamps_fit(heads.as_slice());
            number_fits(*length);
            bytes_fit(first.as_slice());
        }
        ShownContent::Dir(count) => number_fits(*count),
    }
}

pub fn replica_fits(replica: &ShownReplica)
    ensures { SuitsReplica replica.now → IsReplica replica.now }
{
    let _server = replica.server;
    place_fits(replica.id, &replica.place);
    contents_fit(&replica.contents);
}

pub fn quiet_fits(quiet: Quiet)
    ensures { SuitsQuiet quiet → IsAnswer quiet }
{
    match quiet {
        Quiet::Quiet => {}
        Quiet::Waits(cause) => cause_fits(cause),
    }
}
