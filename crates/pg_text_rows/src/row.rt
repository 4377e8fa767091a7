//! The words of a row.

use pg_base::{Bytes, cut_at};
use pg_rows::{Answer, repeat};
use pg_words::{HexWord, read_hex};
use std::alloc::{AllocError, Global};

/// The most bytes that are shown though they are those of the row.
const LONG: usize = 400;

/// What a row is that nothing reads.
const UNREAD: &[u8] = b"a row that nothing reads";

/// Says that nothing reads the row.
pub fn unread(out: &mut Answer) {
    out.put(UNREAD);
}

/// The row with each `{COUNT PIECE}` written out, at the end.
fn add_written_out(row: &[u8], out: &mut Bytes) -> Result<(), AllocError> {
    for piece in row.split(|byte| *byte == b'{') {
        let (inside, rest) = cut_at(piece, b'}').unwrap_or((b"1 ", piece));
        let (count, piece) = cut_at(inside, b' ').unwrap_or((inside, b""));
        repeat(count, piece, out)?;
        out.extend(rest)?;
    }
    Ok(())
}

/// Two digits, and the text behind them.
fn add_digits(alloc: Global, piece: &[u8], out: &mut Bytes) -> Result<(), AllocError> {
    let [high, low, rest @ ..] = piece else {
        return out.extend(UNREAD);
    };
    match read_hex(alloc, &[*high, *low], 1)? {
        Some(byte) => out.extend(byte.as_slice())?,
        None => out.extend(UNREAD)?,
    }
    out.extend(rest)
}

/// What stands behind a backslash.
fn add_escaped(alloc: Global, piece: &[u8], out: &mut Bytes) -> Result<(), AllocError> {
    let (byte, rest) = match piece {
        [b'x', rest @ ..] => return add_digits(alloc, rest, out),
        [b'n', rest @ ..] => (b'\n', rest),
        [b'0', rest @ ..] => (0, rest),
        [b'b', rest @ ..] => (b'\\', rest),
        _ => return out.extend(UNREAD),
    };
    out.push(byte)?;
    out.extend(rest)
}

/// The row with each escaped byte, at the end.
fn add_bytes(alloc: Global, row: &[u8], out: &mut Bytes) -> Result<(), AllocError> {
    let mut is_first = true;
    for piece in row.split(|byte| *byte == b'\\') {
        if is_first {
            out.extend(piece)?;
        } else {
            add_escaped(alloc, piece, out)?;
        }
        is_first = false;
    }
    Ok(())
}

/// The bytes of a text: `\n` ends a line, `\0` is no byte but 0, `\b` a backslash, `\x7f` any byte
/// by two digits, and `{COUNT PIECE}` a piece so many times.
pub fn text(alloc: Global, row: &[u8]) -> Result<Bytes, AllocError> {
    let mut written = Bytes::new(alloc);
    add_written_out(row, &mut written)?;
    let mut out = Bytes::new(alloc);
    add_bytes(alloc, written.as_slice(), &mut out)?;
    Ok(out)
}

/// The bytes at the end, in the spelling of `text`.
pub fn put(bytes: &[u8], out: &mut Answer) {
    for byte in bytes {
        match *byte {
            b'\n' => out.put(b"\\n"),
            0 => out.put(b"\\0"),
            b'\\' => out.put(b"\\b"),
            32..=126 => out.push(*byte),
            other => write!(out, "\\x{}", HexWord(&[other])),
        }
    }
}

/// What was printed of what was read of the text: of a long text only that it is the same, where it
/// is.
pub fn put_again(text: &[u8], printed: &[u8], out: &mut Answer) {
    if printed.len() > LONG && printed == text {
        write!(out, "the same {} bytes", printed.len());
    } else {
        put(printed, out);
    }
}

/// What a text may spell.
pub trait Spelled: Drop {
    /// What the text spells, or nothing: then it says why.
    fn read(alloc: Global, text: &[u8], out: &mut Answer) -> Result<Option<Self>, AllocError>;

    /// A copy of it, printed.
    fn print(&self, alloc: Global, out: &mut Bytes) -> Result<(), AllocError>;
}

/// What the text of the row spells, printed again.
pub fn again<S: Spelled>(alloc: Global, row: &[u8], out: &mut Answer) -> Result<(), AllocError> {
    let text = text(alloc, row)?;
    let Some(value) = S::read(alloc, text.as_slice(), out)? else {
        return Ok(());
    };
    let mut printed = Bytes::new(alloc);
    value.print(alloc, &mut printed)?;
    put_again(text.as_slice(), printed.as_slice(), out);
    Ok(())
}
