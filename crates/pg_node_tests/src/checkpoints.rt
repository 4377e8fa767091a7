//! Nodes that go on from checkpoints.

ghost use Rattle.std.specs.Prelude.{◌≤◌};

use crate::nodes::{LS, MKDIR, STOP, TICK, call, ended_by, is_answered};
use pg_disk::{MemoryDisk, write_synced};
use pg_event::Status;
use pg_net::{Datagram, MemoryNet};
use std::alloc::{AllocError, Global};
use std::test::Fail;

/// The words of `mkdir /b`, `status`, `read /f 0 1` and `stat /f` in a packet.
const MKDIR_B: &[u8] = b"\x01\0\x02/b";

const STATUS: &[u8] = b"\x11";

const READ: &[u8] = b"\x05\0\x02/f\0\0\0\0\0\0\0\x01";

const STAT: &[u8] = b"\x08\0\x02/f";

/// The words of `create /f last`.
const CREATE: &[u8] = b"\x02\0\x02/f\x01";

/// The words of the reply `names 1` with `b d1.1`.
const NAMES_B: &[u8] = b"\x05\0\0\0\x01\x01\0\x01bd\0\0\0\x01\0\0\0\0\0\0\0\x01";

/// The last words of a reply to `stat`: 50,000 bytes, and one edge.
const STAT_END: &[u8] = b"\0\0\0\0\0\0\xc3\x50\0\0\0\0\0\0\0\x01";

/// How many bytes each of two writes has: together too many for one piece, or for one delta.
const PART: u32 = 25_000;

/// The number of the kind of message that has a piece of a body.
const PIECE: u8 = 6;

/// The call that writes a part of `/f` at the offset.
fn write_part(alloc: Global, offset: u32) -> Result<Datagram, AllocError> {
    let mut words = b"\x03\0\x02/f".to_vec(alloc)?;
    words.extend_from_slice(&offset.to_be_bytes())?;
    words.extend_from_slice(&PART.to_be_bytes())?;
    for _ in 0..PART {
        words.push(97u8)?;
    }
    call(alloc, &words)
}

/// These calls, and behind them so many calls `status`.
fn calls(alloc: Global, words: &[&[u8]], statuses: u64) -> Result<Vec<Datagram>, AllocError> {
    let mut packets = Vec::new(alloc);
    for words in words {
        packets.push(call(alloc, words)?)?;
    }
    for _ in 0..statuses {
        packets.push(call(alloc, STATUS)?)?;
    }
    Ok(packets)
}

fn copies(alloc: Global, packets: &[Datagram]) -> Result<Vec<Datagram>, AllocError> {
    let mut copies = Vec::new(alloc);
    for packet in packets {
        copies.push(Datagram::new(packet.port(), packet.bytes().to_vec(alloc)?))?;
    }
    Ok(copies)
}

/// What a server sends that serves over the disk and takes these packets, and how it ends.
fn served(
    alloc: Global,
    disk: &mut MemoryDisk,
    server: u32,
    servers: u32,
    packets: &[Datagram],
) -> Result<(Vec<Datagram>, Status), AllocError>
    requires first { 1 ≤ server }
    requires last { server ≤ servers }
    requires most { servers ≤ 64 }
{
    let turns = packets.len() as u64;
    let mut own = MemoryNet::new(alloc, copies(alloc, packets)?, Vec::new(alloc));
    let status = ended_by(alloc, &mut own, disk, server, servers, turns)?;
    Ok((copies(alloc, own.sent())?, status))
}

fn new_disk(alloc: Global) -> MemoryDisk {
    MemoryDisk::new(alloc, Vec::new(alloc))
}

/// A disk with this file of another, at its beginning.
fn put(own: &mut MemoryDisk, disk: &MemoryDisk, file: u8) -> Result<(), Fail>
    requires { file ≤ 2 }
{
    let bytes = disk.bytes(file)?;
    write_synced(own, file, 0, &bytes)?;
    Ok(())
}

fn are_equal(one: &[Datagram], other: &[Datagram]) -> bool {
    if one.len() != other.len() {
        return false;
    }
    for (a, b) in one.iter().zip(other) {
        if a.port() != b.port() || a.bytes() != b.bytes() {
            return false;
        }
    }
    true
}

/// The disk of a node that served alone, took these packets and then stopped or took no more.
fn left_by(alloc: Global, packets: &[Datagram], wanted: Status) -> Result<MemoryDisk, Fail> {
    let mut own = new_disk(alloc);
    let (_sent, status) = served(alloc, &mut own, 1, 1, packets)?;
    if status != wanted {
        return Err(Fail::from("another end"));
    }
    Ok(own)
}

/// A new disk with these files of another.
fn disk_with(alloc: Global, disk: &MemoryDisk, files: &[u8]) -> Result<MemoryDisk, Fail> {
    let mut own = new_disk(alloc);
    for file in files {
        if *file <= 2 {
            put(&mut own, disk, *file)?;
        }
    }
    Ok(own)
}

/// What a node that serves alone over this disk sends until it stops, asked for this.
fn sent_until_stopped(
    alloc: Global,
    disk: &mut MemoryDisk,
    asked: &[&[u8]],
) -> Result<Vec<Datagram>, Fail> {
    let packets = calls(alloc, asked, 0)?;
    let (sent, status) = served(alloc, disk, 1, 1, &packets)?;
    if status != Status::Done {
        return Err(Fail::from("another end"));
    }
    Ok(sent)
}

/// The disk of a node that took 1,100 calls and then `stop`.
fn left_by_many_calls(alloc: Global) -> Result<MemoryDisk, Fail> {
    let mut packets = calls(alloc, &[], 1_100)?;
    packets.push(call(alloc, STOP)?)?;
    left_by(alloc, &packets, Status::Done)
}

#[test]
fn with_and_without_slots_the_packets_are_equal(rt: HostRuntime) -> Result<(), Fail> {
    let alloc: Global = rt.alloc();
    let first = left_by_many_calls(alloc)?;
    // the first saving was in the first slot
    assert!(rt; !first.bytes(1)?.is_empty() && first.bytes(2)?.is_empty());
    let asked = [MKDIR, LS, STATUS, STOP];
    let one = sent_until_stopped(alloc, &mut disk_with(alloc, &first, &[0, 1, 2])?, &asked)?;
    let other = sent_until_stopped(alloc, &mut disk_with(alloc, &first, &[0])?, &asked)?;
    assert!(rt; one.len() == 4 && are_equal(&one, &other));
    Ok(())
}

/// A disk with the log of a node that made `/a`, and in its slot what a node holds that made `/b` in
/// the place of `/a`, told as folded from three entries.
fn disk_of_two(alloc: Global) -> Result<MemoryDisk, Fail> {
    let mut own = left_by(alloc, &calls(alloc, &[MKDIR, STOP], 0)?, Status::Done)?;
    let other = left_by(alloc, &calls(alloc, &[MKDIR_B], 1_022)?, Status::TurnsSpent)?;
    put(&mut own, &other, 1)?;
    write_synced(&mut own, 1, 9, &3u64.to_be_bytes())?;
    Ok(own)
}

#[test]
fn a_checkpoint_is_gone_on_from_whatever_it_says(rt: HostRuntime) -> Result<(), Fail> {
    let alloc: Global = rt.alloc();
    let sent = sent_until_stopped(alloc, &mut disk_of_two(alloc)?, &[LS, STOP])?;
    assert!(rt; is_answered(alloc, &sent, NAMES_B)?);
    Ok(())
}

/// Adds those that went to this port, but for the first, so many, as they come from that one, and
/// answers how many went there.
fn pass(
    alloc: Global,
    sent: &[Datagram],
    to: u16,
    from: u16,
    passed: u64,
    taken: &mut Vec<Datagram>,
) -> Result<u64, AllocError> {
    let mut count = 0u64;
    for packet in sent {
        if packet.port() == to {
            if passed <= count {
                taken.push(Datagram::new(from, packet.bytes().to_vec(alloc)?))?;
            }
            count = count.saturating_add(1);
        }
    }
    Ok(count)
}

/// A server of two, by the port that its packets go to: what it took so far, and how many packets
/// of the other it was passed.
#[derive(Drop)]
struct Taker {
    taken: Vec<Datagram>,
    passed: u64,
}

impl Taker {
    fn new(alloc: Global) -> Taker {
        Taker {
            taken: Vec::new(alloc),
            passed: 0,
        }
    }

    /// It takes this call as well.
    fn asks(&mut self, alloc: Global, words: &[u8]) -> Result<(), AllocError> {
        self.taken.push(call(alloc, words)?)?;
        Ok(())
    }

    /// What the server sends that takes all this from the start.
    fn sent(&self, alloc: Global, server: u32) -> Result<Vec<Datagram>, AllocError>
        requires first { 1 ≤ server }
        requires last { server ≤ 2 }
    {
        let mut disk = new_disk(alloc);
        let (sent, _status) = served(alloc, &mut disk, server, 2, &self.taken)?;
        Ok(sent)
    }

    /// It takes what was sent to its port, `to`, but for what it was passed before, as it comes
    /// from the other port.
    fn is_passed(
        &mut self,
        alloc: Global,
        sent: &[Datagram],
        to: u16,
        from: u16,
    ) -> Result<(), AllocError> {
        self.passed = pass(alloc, sent, to, from, self.passed, &mut self.taken)?;
        Ok(())
    }
}

/// What server 2 of 2 takes until it has what server 1 has of a file. A client of server 1 makes
/// the file, one of server 2 asks for it, a tick there fills it, and then the first writes it
/// twice. In each round each server takes again all that it took, and what is new.
fn taken_by_two(alloc: Global) -> Result<Vec<Datagram>, AllocError> {
    let mut one = Taker::new(alloc);
    let mut two = Taker::new(alloc);
    one.asks(alloc, CREATE)?;
    for round in 0..7u8 {
        if round == 4 {
            one.taken.push(write_part(alloc, 0)?)?;
            one.taken.push(write_part(alloc, PART)?)?;
        }
        two.is_passed(alloc, &one.sent(alloc, 1)?, 9002, 9001)?;
        if round == 0 {
            two.asks(alloc, READ)?;
        }
        if round == 2 {
            two.asks(alloc, TICK)?;
        }
        one.is_passed(alloc, &two.sent(alloc, 2)?, 9001, 9002)?;
    }
    let Taker { taken, passed: _ } = two;
    Ok(taken)
}

/// Whether the first packet ends in these bytes.
fn ends_in(sent: &[Datagram], bytes: &[u8]) -> bool {
    match sent.first() {
        Some(packet) => packet.bytes().ends_with(bytes),
        None => false,
    }
}

fn is_piece(packet: &Datagram) -> bool {
    match packet.bytes() {
        [_, _, _, kind, ..] => *kind == PIECE,
        _ => false,
    }
}

/// The places of the last two pieces among these.
fn last_pieces(all: &[Datagram]) -> Option<(usize, usize)> {
    let mut found = None;
    let mut last = None;
    for (k, packet) in all.iter().enumerate() {
        if is_piece(packet) {
            found = match last {
                Some(before) => Some((before, k)),
                None => None,
            };
            last = Some(k);
        }
    }
    found
}

/// What server 2 takes so that its log has 1,024 entries behind the packet at this place: calls,
/// and then these, as far as the last.
fn taken_until(
    alloc: Global,
    all: &[Datagram],
    place: usize,
    last: usize,
) -> Result<Vec<Datagram>, AllocError> {
    let mut packets = calls(alloc, &[], 1_022u64.saturating_sub(place as u64))?;
    for packet in all.iter().take(last.saturating_add(1)) {
        packets.push(Datagram::new(packet.port(), packet.bytes().to_vec(alloc)?))?;
    }
    Ok(packets)
}

/// What server 2 of 2 sends over the disk that takes these packets, and all of which it takes.
fn sent_by_two(
    alloc: Global,
    disk: &mut MemoryDisk,
    packets: &[Datagram],
) -> Result<Vec<Datagram>, Fail> {
    let (sent, status) = served(alloc, disk, 2, 2, packets)?;
    if status != Status::TurnsSpent {
        return Err(Fail::from("another end"));
    }
    Ok(sent)
}

/// The disk of server 2 with a checkpoint that was saved between the last two pieces, which are
/// those of one version. None where there are no such pieces.
fn disk_between_pieces(alloc: Global) -> Result<Option<MemoryDisk>, Fail> {
    let all = taken_by_two(alloc)?;
    let Some((before, last)) = last_pieces(&all) else {
        return Ok(None);
    };
    if before >= 1_000 {
        return Ok(None);
    }
    let packets = taken_until(alloc, &all, before, last)?;
    let mut own = new_disk(alloc);
    let _sent = sent_by_two(alloc, &mut own, &packets)?;
    Ok(Some(own))
}

#[test]
fn what_was_announced_is_in_the_checkpoint(rt: HostRuntime) -> Result<(), Fail> {
    let alloc: Global = rt.alloc();
    let Some(own) = disk_between_pieces(alloc)? else {
        return Err(Fail::from("no pieces"));
    };
    assert!(rt; !own.bytes(1)?.is_empty());
    let mut again = disk_with(alloc, &own, &[0, 1])?;
    let sent = sent_by_two(alloc, &mut again, &calls(alloc, &[STAT], 0)?)?;
    assert!(rt; ends_in(&sent, STAT_END));
    Ok(())
}
