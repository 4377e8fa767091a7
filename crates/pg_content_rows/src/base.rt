//! Ids, stamps, vectors, versions and bytes.

use pg_base::{Bytes, FileId, Head, Items, SharedBytes, Stamp, Vector, Version};
use pg_rows::{Answer, actor, numbered, stamp as read_stamp, wide, word};
use std::alloc::{AllocError, Global};

/// `id TEXT`: the id, or the index at which the text goes wrong.
pub fn id(word: &[u8], out: &mut Answer) {
    match FileId::read(word) {
        Ok(id) => write!(out, "{}", id),
        Err(bad) => write!(out, "bad at {}", bad.0),
    }
}

/// `stamp MOMENT LAST`: the next stamp of server 2, where the last is one that a server can have.
pub fn stamp(words: &[&[u8]], out: &mut Answer) {
    let last = wide(words, 1);
    if last >= 1 << 63 {
        out.unread();
    } else {
        write!(out, "{}", Stamp::next(wide(words, 0), last, 2));
    }
}

/// What is known of each actor, and of the second of them again.
fn show_vector(vector: &Vector, out: &mut Answer) {
    write!(out, "{}:", vector.len());
    for (actor, known) in vector.entries() {
        write!(out, " {}.{}={}", actor.server, actor.birth, known);
    }
    if let Some((actor, known)) = vector.at(1) {
        write!(out, ", second {}={}", actor.server, known);
    }
}

/// What the vector has of the server that the word names, and whether it covers the number.
fn ask_vector(vector: &Vector, word: &[u8], out: &mut Answer) {
    let (actor, known) = numbered(word);
    write!(out, "; {} has {} ", actor.server, vector.get(actor));
    out.tell(vector.covers(actor, known));
}

/// A vector that is written word by word, and those before it, joined.
#[derive(Drop)]
struct Vectors {
    alloc: Global,
    joined: Vector,
    vector: Vector,
    is_asked: bool,
}

impl Vectors {
    /// `+` ends a vector, and `?` the last of them; other words are a number, or ask for one.
    fn step(&mut self, word: &[u8], out: &mut Answer) -> Result<(), AllocError> {
        match word {
            b"+" => {
                self.joined.join(&self.vector)?;
                self.vector = Vector::new(self.alloc);
            }
            b"?" => {
                self.joined.join(&self.vector)?;
                self.is_asked = true;
                show_vector(&self.joined.copy()?, out);
            }
            _ if self.is_asked => ask_vector(&self.joined, word, out),
            _ => {
                let (actor, known) = numbered(word);
                self.vector.raise(actor, known)?;
            }
        }
        Ok(())
    }
}

/// `vector 1=3 2=4 + 1=5 4=1 ? 2=4`: the join of the vectors, each a list of servers and numbers,
/// and whether it covers the numbers that are asked for, and what it has.
pub fn vector(alloc: Global, words: &[&[u8]], out: &mut Answer) -> Result<(), AllocError> {
    let mut vectors = Vectors {
        alloc,
        joined: Vector::new(alloc),
        vector: Vector::new(alloc),
        is_asked: false,
    };
    for word in words {
        vectors.step(word, out)?;
    }
    Ok(())
}

/// A version of which only these numbers are known: none of a text that is too long, or of number
/// 0.
pub fn version_of(
    alloc: Global,
    stamp: Stamp,
    number: u64,
    vector: Vector,
    body: &[u8],
) -> Result<Option<Version>, AllocError> {
    let body = SharedBytes::from_slice(alloc, body)?;
    let Ok(length) = u32::try_from(body.len()) else {
        return Ok(None);
    };
    if number == 0 {
        return Ok(None);
    }
    let head = Head {
        stamp,
        birth: 2,
        number,
        vector,
        length,
    };
    Ok(Some(Version::new(alloc, head, body)?))
}

/// A version of which only its own actor's number is known.
pub fn lone_version(
    alloc: Global,
    stamp: Stamp,
    number: u64,
    body: &[u8],
) -> Result<Option<Version>, AllocError> {
    let mut vector = Vector::new(alloc);
    vector.raise(actor(stamp.server), number)?;
    version_of(alloc, stamp, number, vector, body)
}

/// What the version tells.
fn show_version(version: &Version, out: &mut Answer) {
    let head = version.head();
    let actor = head.actor();
    write!(out, "{} by {}.{}, ", head.stamp, actor.server, actor.birth);
    show_vector(&head.vector, out);
    write!(out, ", {} bytes ", version.body().len());
    out.put(version.body().as_slice());
}

/// `version STAMP TEXT`: what a copy of the version tells.
pub fn version(alloc: Global, words: &[&[u8]], out: &mut Answer) -> Result<(), AllocError> {
    match lone_version(alloc, read_stamp(words, 0), 1, word(words, 1))? {
        Some(version) => show_version(&version.copy()?, out),
        None => out.unread(),
    }
    Ok(())
}

/// The bytes at the end, one by one.
fn push_each(word: &[u8], bytes: &mut Bytes) -> Result<(), AllocError> {
    for byte in word {
        bytes.push(*byte)?;
    }
    Ok(())
}

/// A copy of the bytes, as items.
fn items_of(alloc: Global, word: &[u8]) -> Result<Items<u8>, AllocError> {
    let mut items = Items::new(alloc);
    for byte in word {
        items.push(*byte)?;
    }
    items.copy()
}

/// The words `TEXT TEXT NUMBER` from index 1 on, behind the bytes.
fn add_words(alloc: Global, words: &[&[u8]], bytes: &mut Bytes) -> Result<(), AllocError> {
    push_each(word(words, 1), bytes)?;
    bytes.extend(items_of(alloc, word(words, 2))?.as_slice())?;
    write!(bytes, "{}", wide(words, 3))
}

/// A copy of the bytes, shared.
fn shared_copy(alloc: Global, bytes: &Bytes) -> Result<SharedBytes, AllocError> {
    SharedBytes::from_vec(alloc, bytes.copy()?.into_vec())
}

/// `bytes TEXT TEXT TEXT NUMBER`: one behind another, the second byte by byte; and how many bytes
/// they are.
pub fn bytes(alloc: Global, words: &[&[u8]], out: &mut Answer) -> Result<(), AllocError> {
    let mut bytes = Bytes::from_slice(alloc, word(words, 0))?;
    add_words(alloc, words, &mut bytes)?;
    let shared = shared_copy(alloc, &bytes)?;
    out.put(shared.as_slice());
    write!(out, " {}", shared.len());
    Ok(())
}
