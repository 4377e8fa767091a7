//! Calls over a net in memory.

ghost use Rattle.std.specs.Prelude.{IfOk};
ghost use Rattle.pg_packet_write.specs.Calls.{FitsReply};
ghost use Rattle.pg_packet_write.specs.Datagrams.{FitsRequest};

use pg_base::{Bytes, FileId, Kind, SharedBytes};
use pg_call::{Call, Refusal, Reply};
use pg_client::ask;
use pg_event::Status;
use pg_io::MemorySink;
use pg_net::{Datagram, MemoryNet};
use pg_packet_write::{Datagram as Packet, Request, write_packet};
use std::alloc::{AllocError, Global};
use std::test::Fail;

/// What the call `mkdir /a` asks.
fn mkdir(alloc: Global) -> Result<Request, AllocError>
    ensures { IfOk result (λ asked. FitsRequest asked) }
{
    let path = SharedBytes::from_slice(alloc, b"/a")?;
    Ok(Request::Call(Call::Mkdir { path }))
}

/// The first directory that server 1 makes.
fn made() -> Reply
    ensures { FitsReply result }
{
    Reply::Made(FileId {
        kind: Kind::Dir,
        server: 1,
        number: 1,
    })
}

/// A server's reply under this number, as it comes.
fn reply(alloc: Global, number: u64, reply: Reply) -> Result<Datagram, AllocError>
    requires { FitsReply reply }
{
    let mut bytes = Bytes::new(alloc);
    write_packet(&Packet::reply(1, 0, number, reply), &mut bytes)?;
    Ok(Datagram::new(9001, bytes.into_vec()))
}

/// These bytes, as they come.
fn other(alloc: Global, bytes: &[u8]) -> Result<Datagram, AllocError> {
    Ok(Datagram::new(9001, Vec::from_slice(alloc, bytes)?))
}

/// What came of a call: its net and its sink, and how it ended.
#[derive(Drop)]
struct Outcome {
    net: MemoryNet,
    sink: MemorySink,
    ended: Status,
}

impl Outcome {
    /// Whether it ended so and wrote just this, with so many packets sent and so many takes.
    fn is(&self, ended: Status, written: &[u8], sent: usize, takes: u64) -> bool {
        self.ended == ended
            && self.sink.bytes() == written
            && self.net.sent().len() == sent
            && self.net.takes() == takes
    }

    /// Whether all that was sent went to this port.
    fn went_to(&self, port: u16) -> bool {
        self.net.sent().iter().all(|packet| packet.port() == port)
    }
}

/// Server 1 behind port 9000 is asked for `/a`, over a net that gives these packets; these calls of
/// the net and of the sink fail.
fn asked(
    alloc: Global,
    packets: Vec<Datagram>,
    net_fails: &[u64],
    sink_fails: &[u64],
) -> Result<Outcome, AllocError> {
    let mut net = MemoryNet::new(alloc, packets, net_fails.to_vec(alloc)?);
    let mut sink = MemorySink::new(alloc, sink_fails.to_vec(alloc)?);
    let ended = ask(alloc, &mut net, 1, 9000, mkdir(alloc)?, &mut sink);
    Ok(Outcome { net, sink, ended })
}

/// One packet: server 1's reply under this number.
fn one(alloc: Global, number: u64, words: Reply) -> Result<Vec<Datagram>, AllocError>
    requires { FitsReply words }
{
    let mut packets = Vec::new(alloc);
    packets.push(reply(alloc, number, words)?)?;
    Ok(packets)
}

/// So many packets of these bytes, and behind them the reply to the call.
fn behind(alloc: Global, count: u8, bytes: &[u8]) -> Result<Vec<Datagram>, AllocError> {
    let mut packets = Vec::new(alloc);
    for _ in 0..count {
        packets.push(other(alloc, bytes)?)?;
    }
    packets.push(reply(alloc, 1, made())?)?;
    Ok(packets)
}

#[test]
fn the_reply_is_written(rt: HostRuntime) -> Result<(), Fail> {
    let alloc: Global = rt.alloc();
    let call = asked(alloc, one(alloc, 1, made())?, &[], &[])?;
    assert!(rt; call.is(Status::Done, b"made d1.1\n", 1, 1));
    assert!(rt; call.went_to(9001) && call.net.bound() == Some(0));
    let wanted = b"PG\x01\x1b\0\0\0\0\0\0\0\0\0\0\0\0\0\0\0\0\0\0\0\x01\x01\0\x02/a";
    for packet in call.net.sent() {
        assert_eq!(rt; packet.bytes(), wanted.as_slice());
    }
    Ok(())
}

#[test]
fn a_reply_under_another_number_is_none(rt: HostRuntime) -> Result<(), Fail> {
    let alloc: Global = rt.alloc();
    let call = asked(alloc, one(alloc, 2, made())?, &[], &[])?;
    assert!(rt; call.is(Status::TurnsSpent, b"", 1, 10));
    Ok(())
}

#[test]
fn a_refusal_has_a_number(rt: HostRuntime) -> Result<(), Fail> {
    let alloc: Global = rt.alloc();
    let refused = one(alloc, 1, Reply::Refused(Refusal::BadPath(1)))?;
    let call = asked(alloc, refused, &[], &[])?;
    assert!(rt; call.is(Status::Refused(1), b"refused 1 BadPath 1\n", 1, 1));
    Ok(())
}

/// Bytes that are no packet, a packet that is no reply, and two replies.
fn two_and_two(alloc: Global) -> Result<Vec<Datagram>, AllocError> {
    let status = b"PG\x01\x1b\0\0\0\0\0\0\0\0\0\0\0\0\0\0\0\0\0\0\0\x01\x11";
    let mut packets = Vec::new(alloc);
    packets.push(other(alloc, b"PG")?)?;
    packets.push(other(alloc, status)?)?;
    packets.push(reply(alloc, 1, Reply::Done)?)?;
    packets.push(reply(alloc, 1, made())?)?;
    Ok(packets)
}

#[test]
fn what_is_no_reply_is_passed_over(rt: HostRuntime) -> Result<(), Fail> {
    let alloc: Global = rt.alloc();
    let mut net = MemoryNet::new(alloc, two_and_two(alloc)?, Vec::new(alloc));
    let mut sink = MemorySink::new(alloc, Vec::new(alloc));
    let ended = ask(alloc, &mut net, 64, 65_471, Request::Tick, &mut sink);
    let call = Outcome { net, sink, ended };
    assert!(rt; call.is(Status::Done, b"done\n", 1, 3) && call.went_to(65_535));
    Ok(())
}

#[test]
fn an_eleventh_packet_comes_too_late(rt: HostRuntime) -> Result<(), Fail> {
    let alloc: Global = rt.alloc();
    let call = asked(alloc, behind(alloc, 10, b"")?, &[], &[])?;
    assert!(rt; call.is(Status::TurnsSpent, b"", 1, 10));
    Ok(())
}

#[test]
fn each_call_of_the_net_may_fail(rt: HostRuntime) -> Result<(), Fail> {
    let alloc: Global = rt.alloc();
    for failing in 0..3u64 {
        let call = asked(alloc, one(alloc, 1, made())?, &[failing], &[])?;
        let sent = if failing == 2 { 1 } else { 0 };
        assert!(rt; call.is(Status::NetFault, b"", sent, 0) && call.net.faults() == 1);
    }
    Ok(())
}

#[test]
fn a_write_may_fail(rt: HostRuntime) -> Result<(), Fail> {
    let alloc: Global = rt.alloc();
    let call = asked(alloc, one(alloc, 1, made())?, &[], &[0])?;
    assert!(rt; call.is(Status::WriteFault, b"", 1, 1));
    Ok(())
}
