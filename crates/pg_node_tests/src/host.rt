ghost use Rattle.std.specs.Prelude.{◌≤◌};

use crate::nodes::{CLIENT, LS, MKDIR, STOP, TICK, call, ended_by, is_answered, packet};
use pg_disk::MemoryDisk;
use pg_event::Status;
use pg_log::Log;
use pg_net::{Datagram, MemoryNet};
use std::alloc::{AllocError, Global};
use std::test::Fail;

/// The words of the replies `made d1.1`, `names 1` with `a d1.1`, `names 0`, and `done`.
const MADE: &[u8] = b"\x02d\0\0\0\x01\0\0\0\0\0\0\0\x01";

const NAMES: &[u8] = b"\x05\0\0\0\x01\x01\0\x01ad\0\0\0\x01\0\0\0\0\0\0\0\x01";

const NO_NAMES: &[u8] = b"\x05\0\0\0\0\0";

const DONE: &[u8] = b"\x01";

/// A net with these packets, and these calls that fail.
fn net(alloc: Global, packets: Vec<Datagram>, fails: &[u64]) -> Result<MemoryNet, AllocError> {
    Ok(MemoryNet::new(alloc, packets, fails.to_vec(alloc)?))
}

/// A disk on which nothing was done, with these calls that fail.
fn disk(alloc: Global, fails: &[u64]) -> Result<MemoryDisk, AllocError> {
    Ok(MemoryDisk::new(alloc, fails.to_vec(alloc)?))
}

/// A net with packets that ask this of a server.
fn asks(alloc: Global, calls: &[&[u8]]) -> Result<MemoryNet, AllocError> {
    let mut packets = Vec::new(alloc);
    for words in calls {
        packets.push(call(alloc, words)?)?;
    }
    net(alloc, packets, &[])
}

/// Server 1 of so many serves over the disk, for five takes at most.
fn ended_on(
    alloc: Global,
    own: &mut MemoryNet,
    disk: &mut MemoryDisk,
    servers: u32,
) -> Result<Status, AllocError>
    requires some { 1 ≤ servers }
    requires most { servers ≤ 64 }
{
    ended_by(alloc, own, disk, 1, servers, 5)
}

/// The same over a disk on which nothing was done.
fn ended(alloc: Global, own: &mut MemoryNet, servers: u32) -> Result<Status, AllocError>
    requires some { 1 ≤ servers }
    requires most { servers ≤ 64 }
{
    let mut new = disk(alloc, &[])?;
    ended_on(alloc, own, &mut new, servers)
}

/// The first byte of each entry of the log.
fn kinds(alloc: Global, disk: &mut MemoryDisk) -> Result<Vec<u8>, AllocError> {
    let mut kinds = Vec::new(alloc);
    match Log::open(alloc, disk) {
        Ok((_log, records)) => {
            for record in records.as_slice() {
                kinds.push(*record.as_slice().first().unwrap_or(&0))?;
            }
        }
        Err(_) => {}
    }
    Ok(kinds)
}

/// Whether some were sent behind the first, all to this port.
fn others_go_to(own: &MemoryNet, port: u16) -> bool {
    match own.sent().split_first() {
        Some((_, others)) => { !others.is_empty() && others.iter().all(|sent| sent.port() == port) }
        None => false,
    }
}

#[test]
fn a_call_is_answered(rt: HostRuntime) -> Result<(), Fail> {
    let alloc: Global = rt.alloc();
    let mut own = asks(alloc, &[MKDIR])?;
    assert!(rt; ended(alloc, &mut own, 1)? == Status::TurnsSpent);
    assert!(rt; own.bound() == Some(9001) && own.takes() == 5 && own.sent().len() == 1);
    assert!(rt; is_answered(alloc, own.sent(), MADE)?);
    Ok(())
}

#[test]
fn messages_go_behind_the_reply(rt: HostRuntime) -> Result<(), Fail> {
    let alloc: Global = rt.alloc();
    let mut own = asks(alloc, &[MKDIR])?;
    assert!(rt; ended(alloc, &mut own, 2)? == Status::TurnsSpent);
    assert!(rt; is_answered(alloc, own.sent(), MADE)? && others_go_to(&own, 9002));
    Ok(())
}

/// Adds what comes from the client.
fn push_bytes(packets: &mut Vec<Datagram>, bytes: Vec<u8>) -> Result<(), AllocError> {
    packets.push(Datagram::new(CLIENT, bytes))?;
    Ok(())
}

/// As many bytes of 255 as a packet may have.
fn longest(alloc: Global) -> Result<Vec<u8>, AllocError> {
    let mut longest = Vec::new(alloc);
    longest.resize(40_000, 255u8)?;
    Ok(longest)
}

/// Bytes that are no packet, the longest of these, a call that a byte follows, a reply, and `stop`.
fn four_and_stop(alloc: Global) -> Result<Vec<Datagram>, AllocError> {
    let mut packets = Vec::new(alloc);
    push_bytes(&mut packets, b"PG\x01".to_vec(alloc)?)?;
    push_bytes(&mut packets, longest(alloc)?)?;
    push_bytes(&mut packets, packet(alloc, 27, 0, b"\x12\0")?)?;
    push_bytes(&mut packets, packet(alloc, 28, 2, DONE)?)?;
    push_bytes(&mut packets, packet(alloc, 27, 0, STOP)?)?;
    Ok(packets)
}

#[test]
fn what_asks_nothing_is_passed_over(rt: HostRuntime) -> Result<(), Fail> {
    let alloc: Global = rt.alloc();
    let mut own = net(alloc, four_and_stop(alloc)?, &[])?;
    assert!(rt; ended(alloc, &mut own, 1)? == Status::Done);
    assert!(rt; own.takes() == 5 && own.sent().len() == 1);
    assert!(rt; is_answered(alloc, own.sent(), DONE)?);
    Ok(())
}

/// A fetch of the root by server 2, of this view.
fn fetch(alloc: Global, view: u8) -> Result<Datagram, AllocError> {
    let mut fetch = b"PG\x01\x08\0\0\0\x02\0\0\0\0\0\0\0".to_vec(alloc)?;
    fetch.push(view)?;
    fetch.extend_from_slice(b"d\0\0\0\0\0\0\0\0\0\0\0\0\0\0\0\0\0\0\0\x03")?;
    Ok(Datagram::new(9002, fetch))
}

/// Whether such a fetch is answered, and whether it is kept in the log.
fn fetched(alloc: Global, view: u8) -> Result<(bool, bool), AllocError> {
    let mut packets = Vec::new(alloc);
    packets.push(fetch(alloc, view)?)?;
    let mut own = net(alloc, packets, &[])?;
    let mut new = disk(alloc, &[])?;
    let _ = ended_on(alloc, &mut own, &mut new, 2)?;
    let is_kept = kinds(alloc, &mut new)?.as_slice() == b"\x05\x03".as_slice();
    Ok((!own.sent().is_empty(), is_kept))
}

/// A message of another view is an input like any other, behind which nothing is sent.
#[test]
fn a_message_of_another_view_is_not_answered(rt: HostRuntime) -> Result<(), Fail> {
    let alloc: Global = rt.alloc();
    assert!(rt; fetched(alloc, 0)? == (true, true));
    assert!(rt; fetched(alloc, 7)? == (false, true));
    Ok(())
}

/// A net whose packets ask this of a server, and of whose calls this one fails.
fn asks_and_fails(alloc: Global, calls: &[&[u8]], failing: u64) -> Result<MemoryNet, AllocError> {
    let mut packets = Vec::new(alloc);
    for words in calls {
        packets.push(call(alloc, words)?)?;
    }
    net(alloc, packets, &[failing])
}

#[test]
fn each_call_on_the_net_fails_in_turn(rt: HostRuntime) -> Result<(), Fail> {
    let alloc: Global = rt.alloc();
    for failing in 0..4u64 {
        let mut own = asks_and_fails(alloc, &[TICK, STOP], failing)?;
        let status = ended(alloc, &mut own, 1)?;
        // the port is bound, a tick is taken and answered, and `stop` is taken
        let count = if failing < 3 { 0 } else { 1 };
        assert!(rt; status == Status::NetFault && own.sent().len() == count);
    }
    Ok(())
}

/// Whether the log has entries of these kinds.
fn has_kinds(alloc: Global, disk: &mut MemoryDisk, wanted: &[u8]) -> Result<bool, AllocError> {
    Ok(kinds(alloc, disk)?.as_slice() == wanted)
}

/// Whether server 1 of one, asked this and then to stop, goes on over the disk, sends just two
/// packets and answers the first call so.
fn goes_on(
    alloc: Global,
    disk: &mut MemoryDisk,
    words: &[u8],
    reply: &[u8],
) -> Result<bool, AllocError> {
    let mut own = asks(alloc, &[words, STOP])?;
    let status = ended_on(alloc, &mut own, disk, 1)?;
    Ok(status == Status::Done && own.sent().len() == 2 && is_answered(alloc, own.sent(), reply)?)
}

/// Whether server 1 of one ends, asked for `/a` by a net of whose calls this one fails, with nothing
/// sent.
fn is_cut_off(alloc: Global, disk: &mut MemoryDisk, failing: u64) -> Result<bool, AllocError> {
    let mut own = asks_and_fails(alloc, &[MKDIR], failing)?;
    let status = ended_on(alloc, &mut own, disk, 1)?;
    Ok(status == Status::NetFault && own.sent().is_empty())
}

/// Where the first take fails, nothing is in the log but its begin; where the first send fails, the
/// call is, and who goes on with the log has what it made.
#[test]
fn a_call_is_kept_though_its_reply_is_not_sent(rt: HostRuntime) -> Result<(), Fail> {
    let alloc: Global = rt.alloc();
    let rows: [(u64, &[u8], &[u8]); 2] = [(1, b"\x05", NO_NAMES), (2, b"\x05\x01", NAMES)];
    for (failing, kept, names) in rows {
        let mut own = disk(alloc, &[])?;
        assert!(rt; is_cut_off(alloc, &mut own, failing)?);
        assert!(rt; has_kinds(alloc, &mut own, kept)?);
        assert!(rt; goes_on(alloc, &mut own, LS, names)?);
    }
    Ok(())
}

#[test]
fn a_log_is_gone_on_with(rt: HostRuntime) -> Result<(), Fail> {
    let alloc: Global = rt.alloc();
    let mut own = disk(alloc, &[])?;
    assert!(rt; goes_on(alloc, &mut own, MKDIR, MADE)?);
    assert!(rt; has_kinds(alloc, &mut own, b"\x05\x01\x01")?);
    assert!(rt; goes_on(alloc, &mut own, LS, NAMES)?);
    assert!(rt; has_kinds(alloc, &mut own, b"\x05\x01\x01\x04\x01\x01")?);
    Ok(())
}

/// The log's entries, as server 1 finds them.
fn found(alloc: Global, entries: &[&[u8]], servers: u32) -> Result<Status, Fail>
    requires some { 1 ≤ servers }
    requires most { servers ≤ 64 }
{
    let mut own = disk(alloc, &[])?;
    let (mut log, _records) = Log::open(alloc, &mut own)?;
    for entry in entries {
        if entry.len() <= 65_536 {
            log.append(&mut own, entry)?;
        }
    }
    let mut none = asks(alloc, &[])?;
    Ok(ended_on(alloc, &mut none, &mut own, servers)?)
}

#[test]
fn another_log_is_not_gone_on_with(rt: HostRuntime) -> Result<(), Fail> {
    let alloc: Global = rt.alloc();
    let one_of_two = b"\x05\0\0\0\x01\0\0\0\x02".as_slice();
    let restart = b"\x04".as_slice();
    let none = b"\x01\x02".as_slice();
    let unknown = b"\x09".as_slice();
    let entries = [one_of_two, restart];
    assert!(rt; found(alloc, &entries, 2)? == Status::TurnsSpent);
    assert!(rt; found(alloc, &entries, 3)? == Status::OtherLog(1, 2));
    assert!(rt; found(alloc, &[restart], 2)? == Status::BadLog(21));
    assert!(rt; found(alloc, &[unknown], 2)? == Status::BadLog(21));
    // the second entry breaks off at its end
    assert!(rt; found(alloc, &[one_of_two, none], 2)? == Status::BadLog(37));
    // and it is bad whoever finds it
    assert!(rt; found(alloc, &[one_of_two, none], 3)? == Status::BadLog(37));
    assert!(rt; found(alloc, &[one_of_two, one_of_two], 2)? == Status::BadLog(35));
    Ok(())
}

#[test]
fn each_call_on_the_disk_fails_in_turn(rt: HostRuntime) -> Result<(), Fail> {
    let alloc: Global = rt.alloc();
    for failing in 0..16u64 {
        let mut own = disk(alloc, &[failing])?;
        // the log is opened, both slots are looked at, and the log is begun, and has the call
        assert!(rt; is_answered_on(alloc, &mut own, MKDIR, MADE)? == (failing == 15));
    }
    Ok(())
}

/// Whether server 1 answered this one call over the disk. Where a call on the disk failed it did
/// not, and it ended by that; else it did, and made all its takes.
fn is_answered_on(
    alloc: Global,
    disk: &mut MemoryDisk,
    words: &[u8],
    reply: &[u8],
) -> Result<bool, Fail> {
    let before = disk.faults();
    let mut own = asks(alloc, &[words])?;
    let status = ended_on(alloc, &mut own, disk, 1)?;
    if disk.faults() == before && status == Status::TurnsSpent {
        return Ok(own.sent().len() == 1 && is_answered(alloc, own.sent(), reply)?);
    }
    if status == Status::DiskFault && own.sent().is_empty() {
        return Ok(false);
    }
    Err(Fail::from("another end"))
}

/// Whether, where this call on the disk fails, a node that makes `/a` and goes on answers just where
/// none failed, and lists `/a` where it had answered.
fn keeps_what_it_answered(alloc: Global, failing: u64) -> Result<bool, Fail> {
    let mut own = disk(alloc, &[failing])?;
    if !is_answered_on(alloc, &mut own, MKDIR, MADE)? {
        return Ok(own.faults() != 0);
    }
    if own.faults() != 0 {
        return Ok(false);
    }
    if is_answered_on(alloc, &mut own, LS, NAMES)? {
        return Ok(own.faults() == 0);
    }
    Ok(own.faults() != 0 && is_answered_on(alloc, &mut own, LS, NAMES)?)
}

/// Each call on the disk fails in turn, while a node begins a log, and while it goes on with one:
/// what was answered is there in the end.
#[test]
fn what_was_answered_is_there_whatever_fails(rt: HostRuntime) -> Result<(), Fail> {
    for failing in 0..48u64 {
        assert!(rt; keeps_what_it_answered(rt.alloc(), failing)?);
    }
    Ok(())
}
