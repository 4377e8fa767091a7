//! The commands of the program: meters that are handed in, sinks that fail in mid-stream, help, and
//! nodes and calls over nets and disks in memory.

use pg_call::Fault;
use pg_disk::{Disk, MemoryDisk};
use pg_event::{MeterKind, Status};
use pg_io::{Failed, MemorySink, MemorySource};
use pg_meter::{Counter, Meter, Note};
use pg_net::{Datagram, MemoryClock, MemoryNet};
use pg_program::heed;
use std::alloc::{AllocError, Global};
use std::cell::Cell;
use std::process::Abort;
use std::rc::Rc;
use std::test::Fail;

/// All that a command meets outside, in memory.
#[derive(Drop)]
struct Outside {
    source: MemorySource,
    sink: MemorySink,
    net: MemoryNet,
    disk: MemoryDisk,
    clock: MemoryClock,
}

fn add_word(alloc: Global, words: &mut Vec<String>, word: &str) -> Result<(), AllocError> {
    words.push(String::from_str(alloc, word)?)?;
    Ok(())
}

/// The program's name, and these words behind it.
fn command(alloc: Global, words: &[&str]) -> Result<Vec<String>, AllocError> {
    let mut all = Vec::new(alloc);
    add_word(alloc, &mut all, "pangaea")?;
    for word in words {
        add_word(alloc, &mut all, word)?;
    }
    Ok(all)
}

/// These bytes, of whose reads these fail.
fn source(alloc: Global, bytes: &[u8], failing: &[u64]) -> Result<MemorySource, AllocError> {
    let bytes = bytes.to_vec(alloc)?;
    Ok(MemorySource::new(bytes, failing.to_vec(alloc)?))
}

impl Outside {
    /// Nothing comes, nothing was done, and nothing fails.
    fn new(alloc: Global) -> Outside {
        Outside {
            source: MemorySource::new(Vec::new(alloc), Vec::new(alloc)),
            sink: MemorySink::new(alloc, Vec::new(alloc)),
            net: MemoryNet::new(alloc, Vec::new(alloc), Vec::new(alloc)),
            disk: MemoryDisk::new(alloc, Vec::new(alloc)),
            clock: MemoryClock::new(Vec::new(alloc), Vec::new(alloc)),
        }
    }

    /// All is as at first.
    fn clear(&mut self, alloc: Global) {
        *self = Outside::new(alloc);
    }

    /// This comes in.
    fn comes_in(&mut self, alloc: Global, input: &[u8]) -> Result<(), AllocError> {
        self.source = source(alloc, input, &[])?;
        Ok(())
    }

    /// This comes in, seven bytes by a read, of which these fail.
    fn comes_in_sevens(
        &mut self,
        alloc: Global,
        input: &[u8],
        failing: &[u64],
    ) -> Result<(), AllocError> {
        self.source = source(alloc, input, failing)?.with_chunk(7);
        Ok(())
    }

    /// Nothing is written yet, and seven bytes go by a write, of which these fail.
    fn goes_in_sevens(&mut self, alloc: Global, failing: &[u64]) -> Result<(), AllocError> {
        self.sink = MemorySink::new(alloc, failing.to_vec(alloc)?).with_chunk(7);
        Ok(())
    }

    /// What came of the words, with these meters.
    fn heeds(&mut self, alloc: Global, words: &Vec<String>, meters: Vec<Box<dyn Meter>>) -> Status {
        heed(
            alloc,
            words,
            &mut self.source,
            &mut self.sink,
            &mut self.net,
            &mut self.disk,
            &mut self.clock,
            meters,
        )
    }

    /// How these words end, with no meter.
    fn ends(&mut self, alloc: Global, words: &[&str]) -> Result<Status, AllocError> {
        let words = command(alloc, words)?;
        Ok(self.heeds(alloc, &words, Vec::new(alloc)))
    }
}

const METERED: &[u8] = b"pangaea 1 2\n\
              call 1 10 mkdir /a\n\
              meter off 0\n\
              meter off 2\n\
              meter off 2\n\
              settle 9 20\n\
              meter off 4\n";

/// Plain use of one server, and a meter that is taken off.
const PLAIN: &[u8] = b"pangaea 1 1\n\
              call 1 10 mkdir /a\n\
              call 1 11 create /a/x last\n\
              call 1 12 write /a/x 0 68656c6c6f\n\
              call 1 13 read /a/x 0 100\n\
              call 1 14 ls /a 0\n\
              meter off 2\n";

/// What is written of it up to the meter's line.
const PLAIN_WRITTEN: &[u8] = b"call 1 mkdir -> made d1.1\n\
              call 1 create -> made f1.2\n\
              call 1 write -> wrote 13@1\n\
              call 1 read -> bytes 68656c6c6f\n\
              call 1 ls -> names 1 x=f1.2\n\
              meter bodies 0\n";

/// A meter that counts how often it is dropped.
struct Counted {
    drops: Rc<Cell<u64>>,
    counter: Counter,
}

impl Drop for Counted {
    fn drop(self) {
        self.drops.set(self.drops.get().saturating_add(1));
        let Counted { drops, counter } = self;
    }
}

impl Meter for Counted {
    ghost counted = { λ m. m.counter.value };

    ghost counts = { λ m. m.counter.kind };

    fn see(&mut self, note: &Note) {
        self.counter.see(note);
    }

    fn kind(&self) -> MeterKind {
        self.counter.kind()
    }

    fn value(&self) -> u64 {
        self.counter.value()
    }
}

/// One meter more, of this kind.
fn add_meter(
    alloc: Global,
    meters: &mut Vec<Box<dyn Meter>>,
    drops: &Rc<Cell<u64>>,
    kind: MeterKind,
) -> Result<(), Fail> {
    let meter = Counted {
        drops: drops.clone()?,
        counter: Counter::new(kind),
    };
    meters.push(Box::new(alloc, meter)?)?;
    Ok(())
}

/// One meter of each kind, which count their drops together.
fn counted_meters(alloc: Global, drops: &Rc<Cell<u64>>) -> Result<Vec<Box<dyn Meter>>, Fail> {
    let mut meters: Vec<Box<dyn Meter>> = Vec::new(alloc);
    for kind in [MeterKind::Packets, MeterKind::Bodies, MeterKind::Repeats] {
        add_meter(alloc, &mut meters, drops, kind)?;
    }
    Ok(meters)
}

/// How the words end, with meters that count their drops so.
fn ends_counted(
    alloc: Global,
    outside: &mut Outside,
    words: &[&str],
    drops: &Rc<Cell<u64>>,
) -> Result<Status, Fail> {
    let words = command(alloc, words)?;
    let meters = counted_meters(alloc, drops)?;
    Ok(outside.heeds(alloc, &words, meters))
}

/// How the words end, with a meter of each kind, and how many of these were dropped.
fn ends_metered(
    alloc: Global,
    outside: &mut Outside,
    words: &[&str],
) -> Result<(Status, u64), Fail> {
    let drops = Rc::new(alloc, Cell::new(0u64))?;
    let ended = ends_counted(alloc, outside, words, &drops)?;
    Ok((ended, drops.get()))
}

/// Words, what comes in, the writes that fail, and how that ends.
const METERED_ENDS: [(&[&str], &[u8], &[u64], Status); 14] = [
    (&[], METERED, &[], Status::Usage(1)),
    (&["node", "--help"], b"", &[], Status::Done),
    (&["--help"], b"", &[3], Status::WriteFault),
    (&["replay"], METERED, &[], Status::Done),
    (&["replay", "--meters"], METERED, &[], Status::Done),
    (&["replay", "--meters"], METERED, &[3], Status::WriteFault),
    (&["replay", "--meters"], METERED, &[18], Status::WriteFault),
    (&["replay", "--meters"], PLAIN, &[23], Status::WriteFault),
    (
        &["replay", "--meters"],
        b"pangaea 1 1\nlose 01\n",
        &[],
        Status::BadLine(2, Fault::Number),
    ),
    (&["make", "7", "2", "0"], b"", &[], Status::Done),
    (&["soak", "7", "2", "0"], b"", &[], Status::Done),
    (&["soak", "7", "2", "0"], b"", &[0], Status::WriteFault),
    (
        &["node", "1", "1", "9000", "one", "0"],
        b"",
        &[],
        Status::TurnsSpent,
    ),
    (
        &["call", "1", "9000", "status"],
        b"",
        &[],
        Status::TurnsSpent,
    ),
];

/// Whether the words end so over this input, with a sink of whose writes these fail, each of three
/// meters is dropped once, and what is written of `PLAIN` begins it.
fn drops_three(
    alloc: Global,
    outside: &mut Outside,
    words: &[&str],
    input: &[u8],
    failing: &[u64],
    status: Status,
) -> Result<bool, Fail> {
    outside.clear(alloc);
    outside.comes_in(alloc, input)?;
    outside.goes_in_sevens(alloc, failing)?;
    let ends = ends_metered(alloc, outside, words)? == (status, 3);
    // the twenty-fourth write comes behind the line of the meter that is taken off
    Ok(ends && (input != PLAIN || outside.sink.bytes().starts_with(PLAIN_WRITTEN)))
}

fn drop_three(rt: &impl Abort, alloc: Global, outside: &mut Outside) -> Result<(), Fail> {
    for (words, input, failing, status) in &METERED_ENDS {
        assert!(rt; drops_three(alloc, outside, words, input, failing, *status)?);
    }
    Ok(())
}

/// Each meter is dropped once, however a command ends.
#[test]
fn drops_each_meter_once(rt: HostRuntime) -> Result<(), Fail> {
    let mut outside = Outside::new(rt.alloc());
    drop_three(&rt, rt.alloc(), &mut outside)
}

/// Whether a replay of this is ended by its third read, behind fourteen bytes.
fn ends_by_a_read(alloc: Global, outside: &mut Outside, input: &[u8]) -> Result<bool, AllocError> {
    outside.comes_in_sevens(alloc, input, &[2])?;
    let status = outside.ends(alloc, &["replay"])?;
    let is_stopped = outside.source.bytes().len() + 14 == input.len();
    Ok(status == Status::ReadFault && outside.sink.bytes().is_empty() && is_stopped)
}

/// A read that fails in mid-stream ends a replay, which has written nothing by then.
#[test]
fn a_third_read_fails(rt: HostRuntime) -> Result<(), Fail> {
    let mut outside = Outside::new(rt.alloc());
    assert!(rt; ends_by_a_read(rt.alloc(), &mut outside, PLAIN)?);
    Ok(())
}

/// How every packet of a client begins: the mark, the code, no server, no view, and number 1.
const CALL: &[u8] = b"PG\x01\x1b\0\0\0\0\0\0\0\0\0\0\0\0\0\0\0\0\0\0\0\x01";

/// How a reply of server 1 in view 0 begins: the mark, the code, the server, the view.
const REPLY: &[u8] = b"PG\x01\x1c\0\0\0\x01\0\0\0\0\0\0\0\0";

const MKDIR: &[u8] = b"\x01\0\x02/a";

/// Numbers 1 and 2 of replies, that d1.1 was made, and that a path is bad in its first name.
const FIRST: &[u8] = b"\0\0\0\0\0\0\0\x01";

const SECOND: &[u8] = b"\0\0\0\0\0\0\0\x02";

const MADE: &[u8] = b"\x02d\0\0\0\x01\0\0\0\0\0\0\0\x01";

const BAD_PATH: &[u8] = b"\x09\x01\x01";

/// How a client's packet with number 2 begins.
const CALL_TWO: &[u8] = b"PG\x01\x1b\0\0\0\0\0\0\0\0\0\0\0\0\0\0\0\0\0\0\0\x02";

const STOP: &[u8] = b"\x12";

/// The root's first names.
const LS: &[u8] = b"\x07\0\x01/\0\0\0\0";

const DONE: &[u8] = b"\x01";

/// One name of one, `a`, which is d1.1.
const NAMES: &[u8] = b"\x05\0\0\0\x01\x01\0\x01ad\0\0\0\x01\0\0\0\0\0\0\0\x01";

/// The packet that asks for `/a`, and the reply to it.
const ONE_CALL: &[&[&[u8]]] = &[&[CALL, MKDIR]];

const ONE_REPLY: &[&[&[u8]]] = &[&[REPLY, FIRST, MADE]];

fn joined(alloc: Global, parts: &[&[u8]]) -> Result<Vec<u8>, AllocError> {
    let mut bytes = Vec::new(alloc);
    for part in parts {
        bytes.extend_from_slice(part)?;
    }
    Ok(bytes)
}

/// Adds a packet of these parts, from port 700.
fn add_packet(
    alloc: Global,
    packets: &mut Vec<Datagram>,
    parts: &[&[u8]],
) -> Result<(), AllocError> {
    packets.push(Datagram::new(700, joined(alloc, parts)?))?;
    Ok(())
}

/// A net that gives these packets, each of these parts, and whose calls with these numbers fail.
fn net(alloc: Global, packets: &[&[&[u8]]], failing: &[u64]) -> Result<MemoryNet, AllocError> {
    let mut all = Vec::new(alloc);
    for parts in packets {
        add_packet(alloc, &mut all, parts)?;
    }
    Ok(MemoryNet::new(alloc, all, failing.to_vec(alloc)?))
}

/// Whether the bytes are these parts.
fn are_of(bytes: &[u8], parts: &[&[u8]]) -> bool {
    let mut rest = bytes;
    for part in parts {
        match rest.strip_prefix(*part) {
            Some(more) => rest = more,
            None => return false,
        }
    }
    rest.is_empty()
}

impl Outside {
    /// It is moment 10, these packets come, these calls of the net fail, and nothing was sent or
    /// written.
    fn gets(
        &mut self,
        alloc: Global,
        packets: &[&[&[u8]]],
        failing: &[u64],
    ) -> Result<(), AllocError> {
        self.sink = MemorySink::new(alloc, Vec::new(alloc));
        self.net = net(alloc, packets, failing)?;
        self.clock = MemoryClock::new([10u64].to_vec(alloc)?, Vec::new(alloc));
        Ok(())
    }

    /// Whether just these packets were sent, to this port, each of these parts.
    fn has_sent(&self, port: u16, packets: &[&[&[u8]]]) -> bool {
        let sent = self.net.sent();
        if sent.len() != packets.len() {
            return false;
        }
        for (packet, parts) in sent.iter().zip(packets) {
            if packet.port() != port || !are_of(packet.bytes(), parts) {
                return false;
            }
        }
        true
    }

    /// Whether just this was written and just these packets were sent, to this port.
    fn has_told(&self, written: &[u8], port: u16, packets: &[&[&[u8]]]) -> bool {
        self.sink.bytes() == written && self.has_sent(port, packets)
    }
}

const NODE: &[&str] = &["node", "1", "1", "9000", "n", "2"];

/// Whether a node answers the one call that comes, and ends behind two takes.
fn answers_one(alloc: Global, outside: &mut Outside) -> Result<bool, AllocError> {
    outside.gets(alloc, ONE_CALL, &[])?;
    let status = outside.ends(alloc, NODE)?;
    Ok(
        status == Status::TurnsSpent
            && outside.has_told(b"", 700, ONE_REPLY)
            && outside.net.bound() == Some(9001)
            && outside.net.takes() == 2,
    )
}

/// Whether a new node is ended by this call of the net, and sends nothing.
fn is_cut_off(alloc: Global, outside: &mut Outside, failing: u64) -> Result<bool, AllocError> {
    outside.clear(alloc);
    outside.gets(alloc, ONE_CALL, &[failing])?;
    let status = outside.ends(alloc, NODE)?;
    Ok(status == Status::NetFault && outside.has_told(b"", 700, &[]))
}

fn answers(rt: &impl Abort, alloc: Global, outside: &mut Outside) -> Result<(), Fail> {
    assert!(rt; answers_one(alloc, outside)?);
    for failing in 0..3u64 {
        assert!(rt; is_cut_off(alloc, outside, failing)?);
    }
    Ok(())
}

/// A node answers the one call that comes, and ends behind two takes; the calls of the net that
/// fail end it.
#[test]
fn a_node_answers(rt: HostRuntime) -> Result<(), Fail> {
    let mut outside = Outside::new(rt.alloc());
    answers(&rt, rt.alloc(), &mut outside)
}

/// Whether a call that this packet comes to writes this, ends so, and has sent what it asks.
fn asks(
    alloc: Global,
    outside: &mut Outside,
    reply: &[&[&[u8]]],
    written: &[u8],
    wanted: Status,
) -> Result<bool, AllocError> {
    outside.gets(alloc, reply, &[])?;
    let status = outside.ends(alloc, &["call", "1", "9000", "mkdir", "/a"])?;
    Ok(status == wanted && outside.has_told(written, 9001, ONE_CALL))
}

/// What comes, what is written, and how that ends.
const REPLIES: [(&[&[&[u8]]], &[u8], Status); 3] = [
    (&[&[REPLY, FIRST, MADE]], b"made d1.1\n", Status::Done),
    (&[&[REPLY, SECOND, MADE]], b"", Status::TurnsSpent),
    (
        &[&[REPLY, FIRST, BAD_PATH]],
        b"refused 1 BadPath 1\n",
        Status::Refused(1),
    ),
];

fn are_asked(rt: &impl Abort, alloc: Global, outside: &mut Outside) -> Result<(), Fail> {
    for (reply, written, status) in &REPLIES {
        assert!(rt; asks(alloc, outside, reply, written, *status)?);
    }
    Ok(())
}

/// A call writes the reply of its number, and ends by it.
#[test]
fn a_call_is_answered(rt: HostRuntime) -> Result<(), Fail> {
    let mut outside = Outside::new(rt.alloc());
    are_asked(&rt, rt.alloc(), &mut outside)
}

/// Words, and which of them is at fault.
const FAULTS: [(&[&str], u64); 7] = [
    (&["replay", "x"], 2),
    (&["make", "7", "2"], 4),
    (&["make", "7", "0", "5"], 3),
    (&[], 1),
    (&["node", "2", "1", "9000", "one", "1"], 2),
    (&["node", "1", "1", "9000", "One", "1"], 5),
    (&["call", "1", "9000", "mkdir"], 5),
];

/// Whether the word at this place is at fault, and no call of the net was made.
fn is_at_fault(
    alloc: Global,
    outside: &mut Outside,
    words: &[&str],
    place: u64,
) -> Result<bool, AllocError> {
    outside.gets(alloc, ONE_CALL, &[])?;
    let status = outside.ends(alloc, words)?;
    Ok(
        status == Status::Usage(place)
            && outside.sink.bytes().is_empty()
            && outside.net.bound() == None
            && outside.net.takes() == 0,
    )
}

fn are_at_fault(rt: &impl Abort, alloc: Global, outside: &mut Outside) -> Result<(), Fail> {
    for (words, place) in &FAULTS {
        assert!(rt; is_at_fault(alloc, outside, words, *place)?);
    }
    Ok(())
}

/// Words at fault touch no net and write nothing.
#[test]
fn words_at_fault(rt: HostRuntime) -> Result<(), Fail> {
    let mut outside = Outside::new(rt.alloc());
    are_at_fault(&rt, rt.alloc(), &mut outside)
}

/// The packets of a call and of a stop behind it, and those of the replies.
const MKDIR_AND_STOP: &[&[&[u8]]] = &[&[CALL, MKDIR], &[CALL_TWO, STOP]];

const MADE_AND_DONE: &[&[&[u8]]] = &[&[REPLY, FIRST, MADE], &[REPLY, SECOND, DONE]];

const LS_AND_STOP: &[&[&[u8]]] = &[&[CALL, LS], &[CALL_TWO, STOP]];

const NAMES_AND_DONE: &[&[&[u8]]] = &[&[REPLY, FIRST, NAMES], &[REPLY, SECOND, DONE]];

/// Whether a node to which these packets come sends just those, and is done.
fn answers_and_stops(
    alloc: Global,
    outside: &mut Outside,
    asked: &[&[&[u8]]],
    told: &[&[&[u8]]],
) -> Result<bool, AllocError> {
    outside.gets(alloc, asked, &[])?;
    let status = outside.ends(alloc, &["node", "1", "1", "9000", "n", "9"])?;
    Ok(status == Status::Done && outside.has_told(b"", 700, told))
}

fn starts_again(alloc: Global, outside: &mut Outside) -> Result<bool, AllocError> {
    Ok(
        answers_and_stops(alloc, outside, MKDIR_AND_STOP, MADE_AND_DONE)?
            && answers_and_stops(alloc, outside, LS_AND_STOP, NAMES_AND_DONE)?,
    )
}

/// A node that starts again on its disk has what its log keeps, and sends nothing of it again.
#[test]
fn a_node_starts_again(rt: HostRuntime) -> Result<(), Fail> {
    let mut outside = Outside::new(rt.alloc());
    assert!(rt; starts_again(rt.alloc(), &mut outside)?);
    Ok(())
}

/// Whether a node of these words, with `mkdir /a` on its net, ends so over the disk and sends
/// nothing.
fn ends_alone(
    alloc: Global,
    outside: &mut Outside,
    words: &[&str],
    wanted: Status,
) -> Result<bool, AllocError> {
    outside.gets(alloc, ONE_CALL, &[])?;
    let status = outside.ends(alloc, words)?;
    Ok(status == wanted && outside.net.sent().is_empty())
}

/// Nodes that do not go on with the log of `n`, server 1 of two, and how they end.
const OTHERS: [(&[&str], Status); 3] = [
    (
        &["node", "2", "2", "9000", "n", "5"],
        Status::OtherLog(1, 2),
    ),
    (
        &["node", "1", "3", "9000", "n", "5"],
        Status::OtherLog(1, 2),
    ),
    (&["node", "2", "2", "9000", "m", "0"], Status::TurnsSpent),
];

/// Whether the log of `n` is this.
fn has_log(disk: &mut MemoryDisk, log: &[u8]) -> Result<bool, Fail> {
    disk.choose("n")?;
    Ok(disk.bytes(0)?.as_slice() == log)
}

/// Other nodes leave this log of `n` as it is.
fn leave_the_log(
    rt: &impl Abort,
    alloc: Global,
    outside: &mut Outside,
    log: &[u8],
) -> Result<(), Fail> {
    for (words, status) in &OTHERS {
        assert!(rt; ends_alone(alloc, outside, words, *status)?);
    }
    assert!(rt; has_log(&mut outside.disk, log)?);
    Ok(())
}

/// The log of `n` begins with another byte.
fn spoil(disk: &mut MemoryDisk) -> Result<(), Failed> {
    disk.choose("n")?;
    disk.write_at(0, 0, b"q")
}

const FIRST_OF_TWO: &[&str] = &["node", "1", "2", "9000", "n", "0"];

const AGAIN_OF_TWO: &[&str] = &["node", "1", "2", "9000", "n", "5"];

fn are_not_taken(rt: &impl Abort, alloc: Global, outside: &mut Outside) -> Result<(), Fail> {
    assert!(rt; ends_alone(alloc, outside, FIRST_OF_TWO, Status::TurnsSpent)?);
    let log = outside.disk.bytes(0)?;
    leave_the_log(rt, alloc, outside, &log)?;
    spoil(&mut outside.disk)?;
    assert!(rt; ends_alone(alloc, outside, AGAIN_OF_TWO, Status::BadLog(0))?);
    Ok(())
}

/// A log that is another's, or none at all, is told and left as it is; under another name the node
/// begins anew.
#[test]
fn logs_that_are_not_taken(rt: HostRuntime) -> Result<(), Fail> {
    let mut outside = Outside::new(rt.alloc());
    are_not_taken(&rt, rt.alloc(), &mut outside)
}
