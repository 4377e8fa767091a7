//! Changes of a body.

use pg_base::{Bytes, cut_at};
use pg_patch::{ALL, RangeError, Ranges, apply, compose, cut, make};
use pg_rows::{Answer, narrow, text, word, words_of};
use std::alloc::{AllocError, Global};

/// The words `write OFFSET TEXT` or `cut LENGTH`.
pub fn change(alloc: Global, words: &[&[u8]]) -> Result<Ranges, RangeError> {
    match word(words, 0) {
        b"write" => make(
            alloc,
            narrow(words, 1),
            text(alloc, word(words, 2))?.as_slice(),
        ),
        _ => cut(alloc, narrow(words, 1)),
    }
}

/// What stays, the least length, how many bytes the parts have, and the parts.
pub fn show(ranges: &Ranges, out: &mut Answer) -> Result<(), AllocError> {
    if ranges.keep() < ALL {
        write!(out, "keep {} ", ranges.keep());
    }
    write!(
        out,
        "least {} bytes {}",
        ranges.least(),
        ranges.bytes_of_parts()
    );
    for part in ranges.parts() {
        let part = part.copy()?;
        write!(out, " at {} ", part.offset);
        out.show(part.bytes.as_slice());
    }
    Ok(())
}

/// Changes in one, and a body behind each of them.
#[derive(Drop)]
struct Changed {
    alloc: Global,
    all: Option<Ranges>,
    after: Bytes,
}

impl Changed {
    /// The change, behind those before it.
    fn change(&mut self, next: Ranges) -> Result<(), AllocError> {
        self.after = apply(self.after.as_slice(), &next)?;
        self.all = match &self.all {
            Some(before) => Some(compose(before, &next)?.copy()?),
            None => Some(next),
        };
        Ok(())
    }

    /// The piece's change, if it is one; else why it is none.
    fn step(&mut self, piece: &[u8], out: &mut Answer) -> Result<bool, AllocError> {
        match change(self.alloc, &words_of(self.alloc, piece)?) {
            Ok(next) => {
                self.change(next)?;
                Ok(true)
            }
            Err(error) => {
                write!(out, "{}", error);
                Ok(false)
            }
        }
    }

    /// The changes in one, the body after each of them, and after all at once.
    fn show(&self, body: &[u8], out: &mut Answer) -> Result<(), AllocError> {
        let Some(all) = &self.all else {
            out.unread();
            return Ok(());
        };
        show(all, out)?;
        out.put(b"; ");
        out.show(self.after.as_slice());
        out.put(b"; ");
        out.show(apply(body, all)?.as_slice());
        Ok(())
    }
}

/// `range BODY|CHANGE|CHANGE`: the changes in one, then the body after one and after the other, and
/// after both at once.
pub fn range(alloc: Global, row: &[u8], out: &mut Answer) -> Result<(), AllocError> {
    let (body, changes) = cut_at(row, b'|').unwrap_or((row, b""));
    let mut changed = Changed {
        alloc,
        all: None,
        after: Bytes::from_slice(alloc, body)?,
    };
    for piece in changes.split(|byte| *byte == b'|') {
        if !changed.step(piece, out)? {
            return Ok(());
        }
    }
    changed.show(body, out)
}
