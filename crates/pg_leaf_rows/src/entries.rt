//! Entries of a directory, and what it lists.

use pg_base::{Shared, SharedBytes, Stamp};
use pg_entries::{Cell, Entries, Entry};
use pg_path::Row;
use pg_register::{GoldFlags, Place};
use pg_rows::{Answer, ROOT, Stage, id, narrow, play, stamp, word};
use std::alloc::{AllocError, Global};

/// The place in the root by this name, since this stamp.
fn place(alloc: Global, stamp: Stamp, name: &[u8]) -> Result<Place, AllocError> {
    Ok(Place {
        stamp,
        parent: ROOT,
        name: SharedBytes::from_slice(alloc, name)?,
        live: true,
    })
}

/// The words `CHILD STAMP NAME` from this index on: the child is in the root by that name.
pub fn entry(alloc: Global, words: &[&[u8]], index: usize) -> Result<Entry, AllocError> {
    let index = index.min(9);
    let place = place(alloc, stamp(words, index + 1), word(words, index + 2))?;
    Ok(Entry {
        child: id(words, index),
        place,
        flags: GoldFlags::new(alloc),
    })
}

/// The names of the rows.
fn show(rows: &[Row], out: &mut Answer) {
    for row in rows {
        out.put(row.name.as_slice());
        out.push(b' ');
    }
}

/// Whether a copy of the cell has its sender's word that it is so.
fn copied(entry: Entry, is_sure: bool, alloc: Global) -> Result<Option<bool>, AllocError> {
    let cell = Cell::Entry(Shared::new(alloc, entry)?, is_sure);
    match cell.copy()? {
        Cell::Entry(_, sure) => Ok(Some(sure)),
        _ => Ok(None),
    }
}

#[derive(Drop)]
struct Listed {
    alloc: Global,
    entries: Entries,
}

impl Listed {
    /// `count DIR`: how many entries there are, how many are listed, and whether any is.
    fn count(&self, words: &[&[u8]], out: &mut Answer) {
        let dir = id(words, 1);
        write!(
            out,
            "{} of {} listed, {} in all, ",
            self.entries.count_listed(dir),
            self.entries.count(),
            self.entries.as_map().len()
        );
        out.tell(self.entries.lists_any(dir));
    }

    /// `list DIR`: what a copy of the entries lists.
    fn list(&self, words: &[&[u8]], out: &mut Answer) -> Result<(), AllocError> {
        let listing = self.entries.copy()?.listing(id(words, 1))?;
        show(listing.as_slice(), out);
        Ok(())
    }

    /// `page DIR FROM MOST`
    fn page(&self, words: &[&[u8]], out: &mut Answer) -> Result<(), AllocError> {
        let from = narrow(words, 2) as usize;
        let most = narrow(words, 3) as usize;
        let page = self.entries.page(id(words, 1), from, most)?;
        show(page.as_slice(), out);
        Ok(())
    }

    /// `sure CHILD STAMP NAME` or `unsure CHILD STAMP NAME`
    fn cell(&self, words: &[&[u8]], out: &mut Answer) -> Result<(), AllocError> {
        let entry = entry(self.alloc, words, 1)?;
        let is_sure = word(words, 0) == b"sure".as_slice();
        match copied(entry, is_sure, self.alloc)? {
            Some(is_sure) => out.tell(is_sure),
            None => out.unread(),
        }
        Ok(())
    }
}

impl Stage for Listed {
    fn step(&mut self, words: &[&[u8]], out: &mut Answer) -> Result<(), AllocError> {
        match word(words, 0) {
            b"join" => out.tell(self.entries.join_cell(entry(self.alloc, words, 1)?)?),
            b"put" => self.entries.put(entry(self.alloc, words, 1)?)?,
            b"covers" => out.tell(self.entries.covers(&entry(self.alloc, words, 1)?)),
            b"find" => out.tell_id(self.entries.find(id(words, 1), word(words, 2))),
            b"list" => self.list(words, out)?,
            b"page" => self.page(words, out)?,
            b"count" => self.count(words, out),
            b"sure" | b"unsure" => self.cell(words, out)?,
            _ => out.unread(),
        }
        Ok(())
    }
}

/// `entries join CHILD STAMP NAME|..`: entries that are joined, and what is listed of them.
pub fn entries(alloc: Global, row: &[u8], out: &mut Answer) -> Result<(), AllocError> {
    let mut listed = Listed {
        alloc,
        entries: Entries::new(alloc),
    };
    play(alloc, &mut listed, row, out)
}
