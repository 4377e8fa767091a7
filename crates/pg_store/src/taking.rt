//! Places, flags and entries that come to a server, or that it makes.

ghost use Rattle.std.specs.Prelude.{◌≡◌, IfOk, OnOk};
ghost use Rattle.std.specs.Option.{option_copied};
ghost use Rattle.pg_store.specs.Store.{entry_news, is_any_news, is_newer_flag, is_newer_place, news_beside, put_entry, take_entry, take_flag, take_place};

use crate::store::Store;
use pg_base::FileId;
use pg_edges::Key;
use pg_entries::Entry;
use pg_register::{Flag, Place};
use std::alloc::AllocError;

/// What is news in an entry that came to a directory.
#[derive(Clone, Copy, Debug, PartialEq, Eq)]
pub enum EntryNews {
    Nothing,
    /// Flags alone.
    Flags,
    /// The place, be it the first that is known of the child.
    Place,
}

impl EntryNews {
    /// Whether something is.
    pub fn is_any(&self) -> bool
        ensures { result ≡ is_any_news self.now }
    {
        match self {
            EntryNews::Nothing => false,
            EntryNews::Flags => true,
            EntryNews::Place => true,
        }
    }
}

impl Store {
    /// A held thing takes the place where it is newer than its own: then its key is touched. Tells
    /// whether it is. After out of memory a part may be done.
    pub fn take_place(&mut self, file: FileId, place: Place) -> Result<bool, AllocError>
        ensures store { OnOk result (self.new ≡ take_place self.old file place) }
        ensures news { IfOk result (λ news. news ≡ is_newer_place self.old file place) }
    {
        let time = place.stamp.time;
        self.seekers.mark(file);
        if !self.names.join_place(&file, place)? {
            return Ok(false);
        }
        self.names.raise(time);
        self.touch(file, Key::Place)?;
        Ok(true)
    }

    /// A held thing takes the flag where it is newer than its own: then its key is touched. Tells
    /// whether it is. After out of memory a part may be done.
    pub fn take_flag(&mut self, file: FileId, flag: Flag) -> Result<bool, AllocError>
        ensures store { OnOk result (self.new ≡ take_flag self.old file flag) }
        ensures news { IfOk result (λ news. news ≡ is_newer_flag self.old file flag) }
    {
        self.seekers.mark(file);
        if !self.names.join_flag(&file, flag)? {
            return Ok(false);
        }
        self.touch(file, Key::Flag(flag.server))?;
        Ok(true)
    }

    /// A held directory takes what is newer in an entry: then its key is touched. Tells what is
    /// news in it.
    pub fn take_entry(&mut self, dir: FileId, entry: Entry) -> Result<EntryNews, AllocError>
        ensures store { OnOk result (self.new ≡ take_entry self.old dir entry) }
        ensures news { IfOk result (λ news. news ≡ entry_news self.old dir entry) }
    {
        let news = self.entry_news(&dir, &entry);
        if !news.is_any() {
            return Ok(news);
        }
        self.put_entry(dir, entry)?;
        Ok(news)
    }

    /// A held directory joins an entry, whose key is touched.
    fn put_entry(&mut self, dir: FileId, entry: Entry) -> Result<(), AllocError>
        ensures { OnOk result (self.new ≡ put_entry self.old dir entry) }
    {
        let child = entry.child;
        let time = entry.place.stamp.time;
        self.seekers.mark(dir);
        self.names.join_entry(&dir, entry)?;
        self.names.raise(time);
        self.touch(dir, Key::Entry(child))
    }

    /// What the entry brings a directory. Where that is not held it is nothing.
    fn entry_news(&self, dir: &FileId, entry: &Entry) -> EntryNews
        ensures { result ≡ entry_news self.now dir.now entry.now }
    {
        match self.names.get(dir) {
            Some(held) => news_of(held.entries().get(entry.child), entry),
            None => EntryNews::Nothing,
        }
    }
}

/// What an entry brings beside the one that was there.
fn news_of(known: Option<&Entry>, entry: &Entry) -> EntryNews
    ensures { result ≡ news_beside (option_copied known.entry) entry.now }
{
    let Some(known) = known else {
        return EntryNews::Place;
    };
    if known.place.stamp.is_before(entry.place.stamp) {
        return EntryNews::Place;
    }
    if known.covers(entry) {
        return EntryNews::Nothing;
    }
    EntryNews::Flags
}
