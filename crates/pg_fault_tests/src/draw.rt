//! Worked pictures, and each way in which the program that draws them ends. Further pictures stand
//! in docs/pictures, and `examples/pictures` compares them.

use pg_call::Fault;
use pg_draw::{Ending, run};
use pg_io::{MemorySink, MemorySource};
use pg_picture::Lack;
use std::alloc::{AllocError, Global};
use std::process::Abort;
use std::test::Fail;

/// What the program reads from and writes to.
#[derive(Drop)]
struct Streams {
    source: MemorySource,
    sink: MemorySink,
}

/// As many words, of which the first is the program's name.
fn words(alloc: Global, count: u32) -> Result<Vec<String>, Fail> {
    let mut words = Vec::new(alloc);
    for _ in 0..count {
        words.push(String::from_str(alloc, "pangaea_draw")?)?;
    }
    Ok(words)
}

/// The journal, of whose reads these fail.
fn source(alloc: Global, journal: &[u8], failing: &[u64]) -> Result<MemorySource, AllocError> {
    let journal = journal.to_vec(alloc)?;
    Ok(MemorySource::new(journal, failing.to_vec(alloc)?))
}

impl Streams {
    /// Nothing comes in, nothing was written, and nothing fails.
    fn new(alloc: Global) -> Streams {
        Streams {
            source: MemorySource::new(Vec::new(alloc), Vec::new(alloc)),
            sink: MemorySink::new(alloc, Vec::new(alloc)),
        }
    }

    /// This journal comes in, and nothing was written; these reads and writes fail.
    fn get(
        &mut self,
        alloc: Global,
        journal: &[u8],
        reads: &[u64],
        writes: &[u64],
    ) -> Result<(), AllocError> {
        self.source = source(alloc, journal, reads)?;
        self.sink = MemorySink::new(alloc, writes.to_vec(alloc)?);
        Ok(())
    }

    /// How the program ends that is given as many words.
    fn ending(&mut self, alloc: Global, word_count: u32) -> Result<Ending, Fail> {
        let words = words(alloc, word_count)?;
        Ok(run(alloc, &words, &mut self.source, &mut self.sink))
    }
}

/// A write whose message is lost, one that is repeated, and one that is still under way.
const RUN: &[u8] = b"event 3 call 1 10 write /x 0 61\n\
              call 1 write -> wrote 10@1\n\
              sent 1 2 cell f1.1 version:10@1\n\
              event 4 repeat 1\n\
              event 5 lose 1\n\
              event 6 deliver 1\n\
              sent 2 1 ack f1.1 version:10@1\n\
              event 7 call 9 5 mkdir /a<b&c\n\
              void 7 no-server\n\
              end waits message 2 1 ack f1.1 version:10@1\n";

/// What has to stand in the picture of it.
const PIECES: [&[u8]; 7] = [
    b"<path class=\"copied\" d=\"M220 156L300 182\"/>\n",
    b"<path class=\"lost\" d=\"M300 182L300 208\"/>\n",
    b"<path class=\"delivered\" d=\"M300 182L380 234\"/>\n",
    b"<path class=\"under-way\" d=\"M380 234L300 312\"/>\n",
    b"<use href=\"#deliver\" x=\"380\" y=\"234\"/>\n",
    b">call 1 10 write /x 0 61 -&gt; wrote 10@1</text>\n",
    b">call 9 5 mkdir /a&lt;b&amp;c -&gt; void no-server</text>\n",
];

/// A message is under way to a server when it is removed, one from it stays, and one is sent to it
/// later.
const REMOVAL: &[u8] = b"event 3 call 1 10 write /x 0 61\n\
              call 1 write -> wrote 10@1\n\
              sent 1 2 cell f1.1 version:10@1\n\
              sent 1 3 cell f1.1 version:10@1\n\
              sent 2 1 ack f1.1 version:10@1\n\
              event 4 remove 2\n\
              event 5 deliver 1\n\
              sent 3 2 ack f1.1 version:10@1\n\
              event 6 deliver 1\n\
              end quiet\n";

/// What has to stand in the picture of it.
const REMOVAL_PIECES: [&[u8]; 5] = [
    b"<path class=\"lost\" d=\"M220 156L300 195\"/>\n",
    b"<use href=\"#remove\" x=\"380\" y=\"182\"/>\n",
    b"<path class=\"delivered\" d=\"M220 156L540 221\"/>\n",
    b"<path class=\"lost\" d=\"M540 221L460 234\"/>\n",
    b"<path class=\"delivered\" d=\"M380 156L220 260\"/>\n",
];

/// Whether the piece stands somewhere in the text.
fn has(text: &[u8], piece: &[u8]) -> bool {
    for start in 0..text.len() {
        if text[start..].starts_with(piece) {
            return true;
        }
    }
    false
}

fn has_all(text: &[u8], pieces: &[&[u8]]) -> bool {
    for piece in pieces {
        if !has(text, piece) {
            return false;
        }
    }
    true
}

/// Whether the picture of this journal is drawn, with these pieces.
fn draws(
    alloc: Global,
    streams: &mut Streams,
    journal: &[u8],
    pieces: &[&[u8]],
) -> Result<bool, Fail> {
    streams.get(alloc, journal, &[], &[])?;
    let ending = streams.ending(alloc, 1)?;
    Ok(ending == Ending::Done && has_all(streams.sink.bytes(), pieces))
}

fn draws_both(alloc: Global, streams: &mut Streams) -> Result<bool, Fail> {
    Ok(draws(alloc, streams, RUN, &PIECES)? && draws(alloc, streams, REMOVAL, &REMOVAL_PIECES)?)
}

#[test]
fn draws_runs(rt: HostRuntime) -> Result<(), Fail> {
    let mut streams = Streams::new(rt.alloc());
    assert!(rt; draws_both(rt.alloc(), &mut streams)?);
    Ok(())
}

/// Journals of which there is no picture, and why.
const UNDRAWN: [(&[u8], Ending); 10] = [
    (b"end quiet", Ending::BadLine(1, Fault::End)),
    (b"begin quiet\n", Ending::BadLine(1, Fault::Verb)),
    (b"", Ending::Lacks(1, Lack::End)),
    (b"event 3 quiet\nquiet quiet\n", Ending::Lacks(3, Lack::End)),
    // Short form from the start, from the second event on, and where only what is under way
    // tells it.
    (
        b"call 1 write -> wrote 10@1\nend quiet\n",
        Ending::Lacks(1, Lack::Full),
    ),
    (
        b"event 4 quiet\nquiet quiet\nend quiet\n",
        Ending::Lacks(1, Lack::Full),
    ),
    (
        b"event 3 quiet\nquiet quiet\nquiet quiet\nend quiet\n",
        Ending::Lacks(3, Lack::Full),
    ),
    (
        b"event 3 tick 1 5 0\ntick 1 -> done\nsent 1 2 cell f1.1 place\nend quiet\n",
        Ending::Lacks(4, Lack::Full),
    ),
    (
        b"event 3 deliver 1\nend quiet\n",
        Ending::Lacks(1, Lack::Message),
    ),
    (
        b"event 3 tick 65 5 0\nend quiet\n",
        Ending::Lacks(1, Lack::Server),
    ),
];

/// Whether the program ends so on this journal, and writes nothing.
fn draws_nothing(
    alloc: Global,
    streams: &mut Streams,
    journal: &[u8],
    ending: Ending,
) -> Result<bool, Fail> {
    streams.get(alloc, journal, &[], &[])?;
    Ok(streams.ending(alloc, 1)? == ending && streams.sink.bytes().is_empty())
}

fn are_undrawn(rt: &impl Abort, alloc: Global, streams: &mut Streams) -> Result<(), Fail> {
    for (journal, ending) in &UNDRAWN {
        assert!(rt; draws_nothing(alloc, streams, journal, *ending)?);
    }
    Ok(())
}

#[test]
fn tells_why_there_is_no_picture(rt: HostRuntime) -> Result<(), Fail> {
    let mut streams = Streams::new(rt.alloc());
    are_undrawn(&rt, rt.alloc(), &mut streams)
}

/// Whether the program ends so that is given as many words and the shortest journal, where these
/// reads and writes fail.
fn ends(
    alloc: Global,
    streams: &mut Streams,
    word_count: u32,
    reads: &[u64],
    writes: &[u64],
    ending: Ending,
) -> Result<bool, Fail> {
    streams.get(alloc, b"end quiet\n", reads, writes)?;
    Ok(streams.ending(alloc, word_count)? == ending)
}

fn ends_by_each(alloc: Global, streams: &mut Streams) -> Result<bool, Fail> {
    Ok(
        ends(alloc, streams, 2, &[], &[], Ending::Usage(1))?
            && ends(alloc, streams, 1, &[1], &[], Ending::ReadFault)?
            && ends(alloc, streams, 1, &[], &[0], Ending::WriteFault)?,
    )
}

#[test]
fn ends_by_words_and_faults(rt: HostRuntime) -> Result<(), Fail> {
    let mut streams = Streams::new(rt.alloc());
    assert!(rt; ends_by_each(rt.alloc(), &mut streams)?);
    Ok(())
}
