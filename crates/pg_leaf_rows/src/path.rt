//! Names, paths and places.

use pg_base::{Bytes, Stamp};
use pg_path::{Name, Path, is_client_name};
use pg_register::{Place, is_place_name};
use pg_rows::{Answer, id, stamp, text};
use std::alloc::{AllocError, Global};

/// The text of a copy of the name.
fn show_copy(name: &Name, out: &mut Answer) -> Result<(), AllocError> {
    let copy = name.copy()?;
    out.put(copy.text().as_slice());
    Ok(())
}

/// The name of this text, or why it is none.
fn show_name(alloc: Global, text: &[u8], out: &mut Answer) -> Result<(), AllocError> {
    match Name::read(alloc, text) {
        Ok(name) => show_copy(&name, out),
        Err(bad) => {
            write!(out, "{}", bad);
            Ok(())
        }
    }
}

/// `name TEXT`: the name, or why it is none; and whether a client may give it.
pub fn name(alloc: Global, word: &[u8], out: &mut Answer) -> Result<(), AllocError> {
    let text = text(alloc, word)?;
    out.tell(is_client_name(text.as_slice()));
    out.put(b", ");
    show_name(alloc, text.as_slice(), out)
}

/// The text of the path.
fn path_text(alloc: Global, path: &Path) -> Result<Bytes, AllocError> {
    let mut text = Bytes::new(alloc);
    path.write(&mut text)?;
    Ok(text)
}

/// How many parts the path has, whether it has none, and its text.
fn show_path(alloc: Global, path: &Path, out: &mut Answer) -> Result<(), AllocError> {
    write!(out, "{} ", path.len());
    out.put(if path.is_empty() { b"(empty) " } else { b"" });
    out.put(path_text(alloc, path)?.as_slice());
    Ok(())
}

/// `path TEXT`: how many parts it has, whether it has none, and its text, or why it is none.
pub fn path(alloc: Global, word: &[u8], out: &mut Answer) -> Result<(), AllocError> {
    let text = text(alloc, word)?;
    match Path::read(alloc, text.as_slice()) {
        Ok(path) => show_path(alloc, &path, out)?,
        Err(bad) => write!(out, "{}", bad),
    }
    Ok(())
}

/// `place TEXT`: whether the text is the name of a place.
pub fn place(word: &[u8], out: &mut Answer) {
    out.tell(is_place_name(word));
}

/// A copy of the root's place, with this stamp.
fn root_at(alloc: Global, stamp: Stamp) -> Result<Place, AllocError> {
    let mut place = Place::root(alloc)?.copy()?;
    place.stamp = stamp;
    Ok(place)
}

/// Whether the root's place with each of the stamps from index 1 on is newer.
fn join_roots(
    alloc: Global,
    place: &mut Place,
    words: &[&[u8]],
    out: &mut Answer,
) -> Result<(), AllocError> {
    for index in 1..words.len() {
        let other = root_at(alloc, stamp(words, index))?;
        out.push(b' ');
        out.tell(place.join(other));
    }
    Ok(())
}

/// `blank ID STAMP..`: the name of a place of a thing of which nothing is known, whether the root's
/// place with each of the stamps is newer, and whether the place is live in the end.
pub fn blank(alloc: Global, words: &[&[u8]], out: &mut Answer) -> Result<(), AllocError> {
    let mut place = Place::blank(alloc, id(words, 0))?;
    out.put(place.name.as_slice());
    join_roots(alloc, &mut place, words, out)?;
    out.put(if place.live { b" live" } else { b" gone" });
    Ok(())
}
