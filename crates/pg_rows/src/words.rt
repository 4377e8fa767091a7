//! The words of a row.

ghost use Rattle.std.specs.Prelude.{◌≡◌};

use pg_base::{Actor, Bytes, FileId, Kind, Stamp, cut_at, number, number_u32};
use pg_words::read_stamp;
use std::alloc::{AllocError, Global};

/// The directory above all others.
pub const ROOT: FileId = FileId {
    kind: Kind::Dir,
    server: 0,
    number: 0,
};

/// The words, with a space between two of them.
pub fn words_of(alloc: Global, piece: &[u8]) -> Result<Vec<&[u8]>, AllocError> {
    piece.split(|byte| *byte == b' ').collect(alloc)
}

/// The word with this index, counted from 0, or an empty one.
pub fn word<'a>(words: &[&'a [u8]], index: usize) -> &'a [u8] {
    match words.get(index) {
        Some(word) => *word,
        None => b"",
    }
}

/// The words from this index on.
pub fn words_from<'a, 'b>(words: &'b [&'a [u8]], index: usize) -> &'b [&'a [u8]] {
    &words[index.min(words.len())..]
}

/// The number at this index, or 0.
pub fn wide(words: &[&[u8]], index: usize) -> u64 {
    number(word(words, index)).unwrap_or(0)
}

/// The number at this index, or 0.
pub fn narrow(words: &[&[u8]], index: usize) -> u32 {
    number_u32(word(words, index)).unwrap_or(0)
}

/// The id at this index, or the root.
pub fn id(words: &[&[u8]], index: usize) -> FileId {
    FileId::read(word(words, index)).unwrap_or(ROOT)
}

/// The stamp at this index, or that of the root's place.
pub fn stamp(words: &[&[u8]], index: usize) -> Stamp {
    read_stamp(word(words, index)).unwrap_or(Stamp { time: 0, server: 0 })
}

/// The servers from this index on.
pub fn servers(alloc: Global, words: &[&[u8]], index: usize) -> Result<Vec<u32>, AllocError> {
    let mut servers = Vec::new(alloc);
    for word in words_from(words, index) {
        servers.push(number_u32(word).unwrap_or(0))?;
    }
    Ok(servers)
}

/// A server's replica with birth 2.
pub fn actor(server: u32) -> Actor
    ensures { result ≡ record { server = server; birth = 2 } }
{
    Actor { server, birth: 2 }
}

/// `SERVER=NUMBER`, of the server's replica with birth 2.
pub fn numbered(word: &[u8]) -> (Actor, u64) {
    let (server, known) = cut_at(word, b'=').unwrap_or((word, b""));
    let server = number_u32(server).unwrap_or(0);
    (actor(server), number(known).unwrap_or(0))
}

/// The text as often at the end as the word for a number says, or not at all.
pub fn repeat(count: &[u8], text: &[u8], out: &mut Bytes) -> Result<(), AllocError> {
    for _ in 0..number_u32(count).unwrap_or(0) {
        out.extend(text)?;
    }
    Ok(())
}

/// A text, or `TEXT*COUNT`: the text so many times.
pub fn text(alloc: Global, word: &[u8]) -> Result<Bytes, AllocError> {
    let (piece, count) = cut_at(word, b'*').unwrap_or((word, b"1"));
    let mut text = Bytes::new(alloc);
    repeat(count, piece, &mut text)?;
    Ok(text)
}
