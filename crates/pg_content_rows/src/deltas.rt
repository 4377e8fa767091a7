//! Deltas that are kept, sent and taken.

ghost use Rattle.std.specs.Prelude.{◌≡◌, IfOk};

use crate::patch::{change, show as show_ranges};
use pg_base::{Actor, Head, Items, Policy, Stamp, Vector};
use pg_content::Content;
use pg_delta::{KeptDelta, KeptDeltas, makes_length};
use pg_patch::Ranges;
use pg_rows::{Answer, Stage, narrow, play, stamp, word, words_from};
use pg_words::read_stamps;
use std::alloc::{AllocError, Global};

/// The stamps at this index, or none.
fn stamps(alloc: Global, words: &[&[u8]], index: usize) -> Result<Items<Stamp>, AllocError> {
    match read_stamps(alloc, word(words, index))? {
        Some(stamps) => Ok(stamps),
        None => Ok(Items::new(alloc)),
    }
}

/// A server's replica with birth 1.
fn actor(server: u32) -> Actor
    ensures { result ≡ record { server = server; birth = 1 } }
{
    Actor { server, birth: 1 }
}

#[derive(Drop)]
struct Kept {
    alloc: Global,
    kept: KeptDeltas,
    content: Content,
}

impl Kept {
    fn keep_one(&mut self, from: &[Stamp], to: Stamp, ranges: &Ranges) -> Result<(), AllocError> {
        let delta = KeptDelta::new(self.alloc, from, to, ranges)?;
        self.kept.keep(delta)
    }

    /// `keep STAMPS STAMP CHANGE`
    fn keep(&mut self, words: &[&[u8]], out: &mut Answer) -> Result<(), AllocError> {
        let from = stamps(self.alloc, words, 1)?;
        match change(self.alloc, words_from(words, 3)) {
            Ok(ranges) => self.keep_one(from.as_slice(), stamp(words, 2), &ranges)?,
            Err(_) => out.unread(),
        }
        Ok(())
    }

    /// `each COUNT CHANGE`: keeps so many, with the times from 1 on.
    fn each(&mut self, words: &[&[u8]], out: &mut Answer) -> Result<(), AllocError> {
        let Ok(ranges) = change(self.alloc, words_from(words, 2)) else {
            out.unread();
            return Ok(());
        };
        for number in 0..narrow(words, 1) {
            let to = Stamp {
                time: u64::from(number) + 1,
                server: 1,
            };
            self.keep_one(&[], to, &ranges)?;
        }
        Ok(())
    }

    /// `ask STAMPS STAMP LENGTH`: what is sent to who has these heads, in place of the version with
    /// so many bytes.
    fn ask(&self, words: &[&[u8]], out: &mut Answer) -> Result<(), AllocError> {
        let head = Head {
            stamp: stamp(words, 2),
            birth: 1,
            number: 1,
            vector: Vector::new(self.alloc),
            length: narrow(words, 3),
        };
        let from = stamps(self.alloc, words, 1)?;
        match self.kept.delta(from.as_slice(), &head)? {
            Some(ranges) => {
                show_ranges(&ranges, out)?;
                write!(out, " parts {}", ranges.parts().len());
            }
            None => out.put(b"none"),
        }
        Ok(())
    }

    /// `write STAMP CHANGE`
    fn write(&mut self, words: &[&[u8]], out: &mut Answer) {
        let stamp = stamp(words, 1);
        let actor = actor(stamp.server);
        let Ok(ranges) = change(self.alloc, words_from(words, 2)) else {
            out.unread();
            return;
        };
        if !self.content.can_write(actor, stamp) {
            out.unread();
            return;
        }
        out.tell(self.content.write(actor, stamp, &ranges).is_ok());
    }

    /// The head of the first version of server 2, which knows one of server 1.
    fn head(&self, stamp: Stamp, length: u32) -> Result<Head, AllocError>
        ensures { IfOk result (λ head. (head.length ≡ length) × (head.number ≡ 1)) }
    {
        let mut vector = Vector::new(self.alloc);
        vector.raise(actor(1), 1)?;
        vector.raise(actor(2), 1)?;
        Ok(Head {
            stamp,
            birth: 1,
            number: 1,
            vector,
            length,
        })
    }

    /// `take STAMPS STAMP LENGTH CHANGE`: takes the change as the delta to that version, and tells
    /// whether it did.
    fn take(&mut self, words: &[&[u8]], out: &mut Answer) -> Result<(), AllocError> {
        let Ok(ranges) = change(self.alloc, words_from(words, 4)) else {
            out.unread();
            return Ok(());
        };
        let length = narrow(words, 3);
        if !makes_length(&self.content, &ranges, length) {
            out.put(b"another length");
            return Ok(());
        }
        let head = self.head(stamp(words, 2), length)?;
        let from = stamps(self.alloc, words, 1)?;
        let content = &mut self.content;
        let is_taken = self
            .kept
            .take_delta(content, head, from.as_slice(), &ranges)?;
        out.tell(is_taken);
        Ok(())
    }

    /// How many are kept, and to which version the first leads; how many heads there are, and what
    /// is shown.
    fn show(&self, out: &mut Answer) -> Result<(), AllocError> {
        write!(out, "{} kept", self.kept.as_slice().len());
        if let Some(first) = self.kept.as_slice().first() {
            write!(out, " from {} on", first.to);
        }
        write!(out, ", {} heads ", self.content.heads().len());
        out.show(self.content.view(0, 64)?.as_slice());
        Ok(())
    }
}

impl Stage for Kept {
    fn step(&mut self, words: &[&[u8]], out: &mut Answer) -> Result<(), AllocError> {
        match word(words, 0) {
            b"keep" => self.keep(words, out)?,
            b"each" => self.each(words, out)?,
            b"ask" => self.ask(words, out)?,
            b"write" => self.write(words, out),
            b"take" => self.take(words, out)?,
            b"show" => self.show(out)?,
            _ => out.unread(),
        }
        Ok(())
    }
}

/// `deltas keep STAMPS STAMP CHANGE|..`: deltas that are kept of a file whose last version is
/// shown.
pub fn deltas(alloc: Global, row: &[u8], out: &mut Answer) -> Result<(), AllocError> {
    let mut kept = Kept {
        alloc,
        kept: KeptDeltas::new(alloc),
        content: Content::new(alloc, Policy::Last),
    };
    play(alloc, &mut kept, row, out)
}
