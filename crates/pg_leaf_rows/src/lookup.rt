//! Walks over a small tree: directories `a`, which is d1.1, and `a/b`, which is d1.3, files `f`,
//! which is f1.2, and `a/x`, which is f1.4. What stands in the root is held and full; `a/x` is not
//! held.

use pg_base::{FileId, Kind, SharedBytes, Stamp};
use pg_entries::Entry;
use pg_lookup::{
    Found, LookupError, Way, is_above, is_dir_full, reach, reach_parent, shown_by, walk,
};
use pg_names::{Attributes, Names};
use pg_path::Path;
use pg_register::{GoldFlags, Place};
use pg_rows::{Answer, ROOT, id, narrow, word};
use std::alloc::{AllocError, Global};

fn place(alloc: Global, time: u64, parent: FileId, name: &[u8]) -> Result<Place, AllocError> {
    Ok(Place {
        stamp: Stamp { time, server: 1 },
        parent,
        name: SharedBytes::from_slice(alloc, name)?,
        live: true,
    })
}

/// The directory lists the child by this name.
fn list(
    names: &mut Names,
    alloc: Global,
    parent: FileId,
    child: FileId,
    name: &[u8],
) -> Result<(), AllocError> {
    let entry = Entry {
        child,
        place: place(alloc, child.number, parent, name)?,
        flags: GoldFlags::new(alloc),
    };
    names.set_entry(&parent, entry)
}

/// `a`, which stands in the root.
const A: FileId = FileId {
    kind: Kind::Dir,
    server: 1,
    number: 1,
};

/// `a/b`
const B: FileId = FileId {
    kind: Kind::Dir,
    server: 1,
    number: 3,
};

/// `f`
const F: FileId = FileId {
    kind: Kind::File,
    server: 1,
    number: 2,
};

/// `a/x`
const X: FileId = FileId {
    kind: Kind::File,
    server: 1,
    number: 4,
};

/// Holds the thing, of which nothing is known yet.
fn hold(names: &mut Names, alloc: Global, file: FileId, is_full: bool) -> Result<(), AllocError> {
    names.begin(file, Attributes::blank(alloc, file)?, is_full)
}

/// Holds the root and what stands in it.
fn hold_all(names: &mut Names, alloc: Global) -> Result<(), AllocError> {
    hold(names, alloc, ROOT, true)?;
    hold(names, alloc, A, true)?;
    hold(names, alloc, F, true)
}

/// The root and `a` list what stands in them.
fn list_all(names: &mut Names, alloc: Global) -> Result<(), AllocError> {
    list(names, alloc, ROOT, A, b"a")?;
    list(names, alloc, ROOT, F, b"f")?;
    list(names, alloc, A, B, b"b")?;
    list(names, alloc, A, X, b"x")
}

/// `a` knows its own place.
fn place_a(names: &mut Names, alloc: Global) -> Result<(), AllocError> {
    let own = Attributes {
        place: place(alloc, 1, ROOT, b"a")?,
        flags: GoldFlags::new(alloc),
    };
    names.set_own(&A, own)
}

/// Holds `a/b`, unless it is `absent`: `filling` or `full`.
fn hold_b(names: &mut Names, alloc: Global, held: &[u8]) -> Result<(), AllocError> {
    if held == b"absent".as_slice() {
        return Ok(());
    }
    hold(names, alloc, B, false)?;
    if held == b"full".as_slice() {
        names.fill(&B);
    }
    Ok(())
}

/// Makes the tree.
fn begin(names: &mut Names, alloc: Global, held: &[u8]) -> Result<(), AllocError> {
    hold_all(names, alloc)?;
    list_all(names, alloc)?;
    place_a(names, alloc)?;
    hold_b(names, alloc, held)
}

/// The tree, where `a/b` is `absent`, `filling` or `full`.
fn small_tree(alloc: Global, held: &[u8]) -> Result<Names, AllocError> {
    let mut names = Names::new(alloc, 1);
    begin(&mut names, alloc, held)?;
    Ok(names)
}

/// The thing, and how a call came to it.
fn show(found: Found, out: &mut Answer) {
    match found.way {
        Way::Start => write!(out, "{} at the start", found.file),
        Way::Entry(dir) => write!(out, "{} in {}", found.file, dir),
        Way::Id => write!(out, "{} by its id", found.file),
    }
}

fn show_stop(stop: LookupError, out: &mut Answer) {
    match stop {
        LookupError::Refused(refusal) => write!(out, "{}", refusal),
        LookupError::NotYet(found) => {
            out.put(b"not yet ");
            show(found, out);
        }
    }
}

fn show_reached(reached: Result<FileId, LookupError>, out: &mut Answer) {
    match reached {
        Ok(file) => write!(out, "{}", file),
        Err(stop) => show_stop(stop, out),
    }
}

/// What is asked with a path: `reach PATH`, `reach PATH dir`, `parent PATH` or `walk PATH COUNT`.
fn ask_path(names: &Names, path: &Path, words: &[&[u8]], out: &mut Answer) {
    let needs_dir = word(words, 3) == b"dir".as_slice();
    match word(words, 1) {
        b"reach" => show_reached(reach(names, path, needs_dir), out),
        b"parent" => show_reached(reach_parent(names, path), out),
        _ => match walk(names, path, narrow(words, 3) as usize, true) {
            Ok(found) => show(found, out),
            Err(stop) => show_stop(stop, out),
        },
    }
}

/// What is asked with the path at index 2.
fn ask_walk(alloc: Global, names: &Names, words: &[&[u8]], out: &mut Answer) {
    match Path::read(alloc, word(words, 2)) {
        Ok(path) => ask_path(names, &path, words, out),
        Err(_) => out.unread(),
    }
}

/// What is asked with ids, or with a path.
fn ask(alloc: Global, names: &Names, words: &[&[u8]], out: &mut Answer) {
    match word(words, 1) {
        b"shown" => out.tell_id(shown_by(names, id(words, 2), word(words, 3))),
        b"room" => out.tell(!is_dir_full(names, id(words, 2), id(words, 3))),
        b"above" => out.tell(is_above(names, id(words, 2), id(words, 3))),
        _ => ask_walk(alloc, names, words, out),
    }
}

/// `tree HELD ASKED ..`: what is asked of the tree. `shown DIR NAME`: the child that the directory
/// shows by the name; `room DIR CHILD`: whether there is none for the child; `above THING DIR`:
/// whether it stands above the directory.
pub fn tree(alloc: Global, words: &[&[u8]], out: &mut Answer) -> Result<(), AllocError> {
    let names = small_tree(alloc, word(words, 0))?;
    ask(alloc, &names, words, out);
    Ok(())
}
