//! What a client tells of a reply: its text, and a status.

ghost use Rattle.std.specs.Prelude.{◌≡◌, ◌⊎◌, IfOk};
ghost use Rattle.pg_io.specs.Causes.{Rose};
ghost use Rattle.pg_client.specs.Asks.{Wrote};
ghost use Rattle.pg_client.specs.Replies.{refusal_number, reply_text, status_of};

use pg_base::Bytes;
use pg_call::{Refusal, Reply};
use pg_event::Status;
use pg_io::{Sink, write_all};
use std::alloc::{AllocError, Global};

/// The number of a refusal.
fn refusal_number(why: &Refusal) -> u8
    ensures { result ≡ refusal_number why.now }
{
    match why {
        Refusal::BadPath(_) => 1,
        Refusal::ClockEnd => 2,
        Refusal::NotYet(_) => 3,
        Refusal::NoName(_) => 4,
        Refusal::NotDir(_) => 5,
        Refusal::IsDir => 6,
        Refusal::Root => 7,
        Refusal::Exists(_) => 8,
        Refusal::DirFull => 9,
        Refusal::NotEmpty(_) => 10,
        Refusal::Loop => 11,
        Refusal::TooLong => 12,
        Refusal::Behind(_) => 13,
        Refusal::IsGold => 14,
        Refusal::LastGold => 15,
        Refusal::HasChild(_) => 16,
        Refusal::Unsettled { .. } => 17,
        Refusal::Held => 18,
        Refusal::WrongView(_) => 19,
        Refusal::ManyActors => 20,
    }
}

/// How a call ends whose reply was written.
fn status_of(reply: &Reply) -> Status
    ensures { result ≡ status_of reply.now }
{
    match reply {
        Reply::Refused(why) => Status::Refused(refusal_number(why)),
        _ => Status::Done,
    }
}

/// The text of a reply, and a line feed.
fn reply_text(alloc: Global, reply: &Reply) -> Result<Bytes, AllocError>
    ensures { IfOk result (λ text. text ≡ reply_text reply.now) }
{
    let mut text = Bytes::new(alloc);
    write!(text, "{reply}\n")?;
    Ok(text)
}

/// Writes the text of a reply, and a line feed.
pub fn tell<K: Sink>(alloc: Global, sink: &mut K, reply: &Reply) -> Status
    ensures wrote { Wrote (K.contents sink.old) (K.contents sink.new) (reply_text reply.now)
        result }
    ensures status { ((result ≡ Status.WriteFault) ⊎ (result ≡ Status.OutOfMemory))
        ⊎ (result ≡ status_of reply.now) }
    ensures fault { result ≡ Status.WriteFault → Rose (K.faults sink.old) (K.faults sink.new) }
{
    let text = match reply_text(alloc, reply) {
        Ok(text) => text,
        Err(_) => return Status::OutOfMemory,
    };
    match write_all(sink, text.as_slice()) {
        Ok(()) => status_of(reply),
        Err(_) => Status::WriteFault,
    }
}
