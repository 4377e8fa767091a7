//! Edges of a replica, and the keys that are not acknowledged on them.

use pg_base::{cut_at, number};
use pg_edges::{Edge, Edges, Key, Keys};
use pg_msg::{KeyWord, read_key};
use pg_rows::{Answer, Stage, narrow, play, wide, word, words_from};
use std::alloc::{AllocError, Global};
use std::mem::swap;

/// The key that the word spells, or the place.
fn key_of(word: &[u8]) -> Key {
    read_key(word).unwrap_or(Key::Place)
}

/// The key at this index.
fn key(words: &[&[u8]], index: usize) -> Key {
    key_of(word(words, index))
}

/// The keys and their tags.
fn show(keys: &Keys, out: &mut Answer) {
    write!(out, "{}", keys.len());
    out.put(if keys.is_empty() { b" (empty)" } else { b"" });
    for (key, tag) in keys.as_slice() {
        write!(out, " {}={}", KeyWord(*key), tag);
    }
}

#[derive(Drop)]
struct Marks {
    keys: Keys,
    other: Keys,
}

impl Stage for Marks {
    fn step(&mut self, words: &[&[u8]], out: &mut Answer) -> Result<(), AllocError> {
        match word(words, 0) {
            b"set" => self.keys.set(key(words, 1), wide(words, 2))?,
            b"remove" => self.keys.remove(&key(words, 1)),
            b"get" => out.tell_number(self.keys.get(&key(words, 1))),
            b"entry" => out.tell(self.keys.has_entry()),
            b"show" => show(&self.keys, out),
            b"copy" => self.other = self.keys.copy()?,
            b"swap" => swap(&mut self.keys, &mut self.other),
            _ => out.unread(),
        }
        Ok(())
    }
}

/// `keys set KEY TAG|..`: keys with their tags. `copy` keeps a copy, and `swap` goes on with that.
pub fn keys(alloc: Global, row: &[u8], out: &mut Answer) -> Result<(), AllocError> {
    let mut marks = Marks {
        keys: Keys::new(alloc),
        other: Keys::new(alloc),
    };
    play(alloc, &mut marks, row, out)
}

/// `order KEY..`: of each but the first whether it stands behind the one before.
pub fn order(words: &[&[u8]], out: &mut Answer) {
    for index in 1..words.len() {
        let (before, now) = (key(words, index - 1), key(words, index));
        out.tell(before < now && before.compare(&now).is_lt());
        out.push(b' ');
    }
}

/// The key and the tag of `KEY=TAG`.
fn tagged_key(word: &[u8]) -> (Key, u64) {
    match cut_at(word, b'=') {
        Some((key, tag)) => (key_of(key), number(tag).unwrap_or(0)),
        None => (key_of(word), 0),
    }
}

/// The keys `KEY=TAG` from this index on.
fn tagged(alloc: Global, words: &[&[u8]], index: usize) -> Result<Keys, AllocError> {
    let mut keys = Keys::new(alloc);
    for word in words_from(words, index) {
        let (key, tag) = tagged_key(word);
        keys.set(key, tag)?;
    }
    Ok(keys)
}

#[derive(Drop)]
struct Linked {
    alloc: Global,
    edges: Edges,
    other: Edges,
    /// The next tag to give.
    tags: u64,
}

impl Linked {
    /// `link PEER BIRTH KEY..`: whether that made an edge.
    fn link(&mut self, words: &[&[u8]], out: &mut Answer) -> Result<(), AllocError> {
        let mut keys = Vec::new(self.alloc);
        for word in words_from(words, 3) {
            keys.push(key_of(word))?;
        }
        if self.tags >= 1 << 62 || keys.len() >= 1 << 62 {
            out.unread();
            return Ok(());
        }
        let (peer, birth) = (narrow(words, 1), wide(words, 2));
        out.tell(self.edges.link(peer, birth, &keys, &mut self.tags)?);
        Ok(())
    }

    /// `touch KEY`
    fn touch(&mut self, words: &[&[u8]], out: &mut Answer) -> Result<(), AllocError> {
        if self.tags >= 1 << 62 || self.edges.len() >= 1 << 62 {
            out.unread();
            return Ok(());
        }
        self.edges.touch(key(words, 1), &mut self.tags)
    }

    /// `put PEER BIRTH KEY=TAG..`
    fn put(&mut self, words: &[&[u8]]) -> Result<(), AllocError> {
        let edge = Edge {
            peer: narrow(words, 1),
            birth: wide(words, 2),
            keys: tagged(self.alloc, words, 3)?,
        };
        self.edges.put(edge.copy()?)
    }

    /// The peers and their births, by index, and the next tag.
    fn show(&self, out: &mut Answer) {
        write!(out, "{}:", self.edges.len());
        for index in 0..self.edges.len() {
            if let Some(edge) = self.edges.at(index) {
                write!(out, " {}.{}", edge.peer, edge.birth);
            }
        }
        write!(out, ", tag {}", self.tags);
    }

    fn ask(&mut self, words: &[&[u8]], out: &mut Answer) {
        let (peer, birth) = (narrow(words, 1), wide(words, 2));
        match word(words, 0) {
            b"ack" => {
                let tag = wide(words, 4);
                out.tell(self.edges.ack(peer, birth, key(words, 3), tag));
            }
            b"clean" => out.tell(self.edges.is_clean(peer, birth)),
            b"makes" => out.tell(self.edges.makes_edge(peer, birth)),
            b"tag" => out.tell_number(self.edges.tag(peer, birth, key(words, 3))),
            b"show" => self.show(out),
            _ => out.unread(),
        }
    }
}

impl Stage for Linked {
    fn step(&mut self, words: &[&[u8]], out: &mut Answer) -> Result<(), AllocError> {
        match word(words, 0) {
            b"link" => self.link(words, out)?,
            b"touch" => self.touch(words, out)?,
            b"put" => self.put(words)?,
            b"retire" => self.edges.retire(key(words, 1)),
            b"unlink" => self.edges.unlink(narrow(words, 1), wide(words, 2)),
            b"take" => self.edges.take_out(narrow(words, 1)),
            b"copy" => self.other = self.edges.copy()?,
            b"swap" => swap(&mut self.edges, &mut self.other),
            _ => self.ask(words, out),
        }
        Ok(())
    }
}

/// `edges link PEER BIRTH KEY..|..`: edges, of which the first key gets tag 1. `copy` keeps a copy,
/// and `swap` goes on with that.
pub fn edges(alloc: Global, row: &[u8], out: &mut Answer) -> Result<(), AllocError> {
    let mut linked = Linked {
        alloc,
        edges: Edges::with_capacity(alloc, 2)?,
        other: Edges::new(alloc),
        tags: 1,
    };
    play(alloc, &mut linked, row, out)
}
