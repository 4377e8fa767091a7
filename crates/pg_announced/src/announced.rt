//! Versions that a server heard of and does not cover.

ghost use Rattle.std.specs.Prelude.{◌≡◌, [], IfOk, OnErr, OnOk, option_copied};
ghost use Rattle.pg_announced.specs.Announced.{AreSorted, aimed, change_note, covers_for_other, emptied, first_of, is_asked_of, is_awaited, is_over, longer, lose_note, new_note, note_at, put_note, released, unasked, without_covered, without_file, without_note};

use pg_base::{Bytes, FileId, Head, NodeId, Shared, Stamp};
use pg_content::Content;
use std::alloc::{AllocError, Global};
use std::collections::BTreeMap;
use std::marker::Model;

/// A version of a file, as notes are found by it: by file, and then by stamp.
#[derive(Clone, Copy, Debug, PartialEq, Eq, PartialOrd, Ord)]
pub struct NoteKey {
    pub file: FileId,
    pub stamp: Stamp,
}

/// What a server notes of a version that it does not cover.
#[derive(Debug, Drop)]
pub struct Announced {
    pub head: Shared<Head>,
    /// The server that is asked for the version: 0 where nobody is.
    pub source: NodeId,
    /// The tag under which the source announced the version: 0 where the source only heard of it.
    pub tag: u64,
    /// The first bytes of the version's body.
    pub bytes: Bytes,
}

impl Announced {
    /// The first note of a version: no byte of its body is here yet. It takes no memory.
    pub fn new(alloc: Global, head: Shared<Head>, source: NodeId, tag: u64) -> Announced
        ensures { result ≡ new_note head source tag }
    {
        Announced {
            head,
            source,
            tag,
            bytes: Bytes::new(alloc),
        }
    }

    fn aim(&mut self, source: NodeId, tag: u64)
        ensures { self.new ≡ aimed source tag self.old }
    {
        self.source = source;
        self.tag = tag;
    }

    fn lengthen(&mut self, more: &[u8]) -> Result<(), AllocError>
        ensures ok { OnOk result (self.new ≡ longer more.now self.old) }
        ensures err { OnErr result (self.new ≡ self.old) }
    {
        self.bytes.extend(more)
    }

    fn empty(&mut self, alloc: Global)
        ensures { self.new ≡ emptied self.old }
    {
        self.bytes = Bytes::new(alloc);
    }

    fn lose_source(&mut self)
        ensures { self.new ≡ unasked self.old }
    {
        self.source = 0;
    }
}

/// What a server notes of versions that it does not cover, by file and stamp.
#[derive(Debug, Drop)]
pub struct Announcements {
    alloc: Global,
    by_version: BTreeMap<NoteKey, Announced>,
}

impl Model for Announcements {
    ghost use Rattle.pg_announced.specs.Announced.{AreSorted, NotesValue};

    ghost Value = { NotesValue };

    ghost view = { λ a. a.by_version.entries };

    ghost invariant = { λ a. AreSorted a.by_version.entries };
}

impl Announcements {
    /// No notes. It takes no memory.
    pub fn new(alloc: Global) -> Announcements
        ensures { result ≡ [] }
    {
        Announcements {
            alloc,
            by_version: BTreeMap::new(alloc),
        }
    }

    /// The notes, to go through them by file and then by stamp.
    pub fn as_map(&self) -> &BTreeMap<NoteKey, Announced>
        ensures notes { result.now.entries ≡ self.now }
        ensures sorted { AreSorted self.now }
    {
        &self.by_version
    }

    /// What is noted of a version.
    pub fn get(&self, key: &NoteKey) -> Option<&Announced>
        ensures { option_copied result ≡ note_at self.now key.now }
    {
        self.by_version.get(key)
    }

    /// Whether the server `from` is asked for the version.
    pub fn is_asked_of(&self, key: &NoteKey, from: NodeId) -> bool
        ensures { result ≡ is_asked_of from (note_at self.now key.now) }
    {
        match self.get(key) {
            Some(note) => note.source == from,
            None => false,
        }
    }

    /// Whether a version of the file is noted that covers the head, and somebody else than `from`
    /// is asked for it.
    pub fn is_awaited(&self, file: &FileId, from: NodeId, head: &Head) -> bool
        ensures { result ≡ is_awaited self.now file.now from head.now }
    {
        for (key, note) in self.by_version.iter() {
            if covers_for_other(file, from, head, key, note) {
                return true;
            }
        }
        false
    }

    /// The least stamp of a version of the file that is noted, if one is.
    pub fn first_of(&self, file: &FileId) -> Option<Stamp>
        ensures { result ≡ first_of self.now file.now }
    {
        for (key, _) in self.by_version.iter() {
            if key.file == *file {
                return Some(key.stamp);
            }
        }
        None
    }

    /// The note of the version is `note` from now on.
    pub fn put(&mut self, key: NoteKey, note: Announced) -> Result<(), AllocError>
        ensures ok { OnOk result (self.new ≡ put_note self.old key note) }
        ensures err { OnErr result (self.new ≡ self.old) }
    {
        self.by_version.insert(key, note)?;
        Ok(())
    }

    /// The note of the version ends, if there is one.
    pub fn take(&mut self, key: &NoteKey) -> Option<Announced>
        ensures taken { result ≡ note_at self.old key.now }
        ensures notes { self.new ≡ without_note self.old key.now }
    {
        self.by_version.remove(key)
    }

    /// A further harbinger of the version came: if the version is noted, its sender is asked from
    /// now on.
    pub fn aim(&mut self, key: &NoteKey, source: NodeId, tag: u64)
        ensures { self.new ≡ change_note (aimed source tag) self.old key.now }
    {
        let Some(note) = self.by_version.get_mut(key) else {
            return;
        };
        note.aim(source, tag);
    }

    /// More bytes of the version's body are here, if the version is noted.
    pub fn lengthen(&mut self, key: &NoteKey, more: &[u8]) -> Result<(), AllocError>
        ensures ok { OnOk result (self.new ≡ change_note (longer more.now) self.old key.now) }
    {
        let Some(note) = self.by_version.get_mut(key) else {
            return Ok(());
        };
        note.lengthen(more)
    }

    /// The bytes that are here of the version's body are forgotten, if the version is noted.
    pub fn empty(&mut self, key: &NoteKey)
        ensures { self.new ≡ change_note emptied self.old key.now }
    {
        let alloc = self.alloc;
        let Some(note) = self.by_version.get_mut(key) else {
            return;
        };
        note.empty(alloc);
    }

    /// The server `from` is not asked for the version any more.
    pub fn lose(&mut self, key: &NoteKey, from: NodeId)
        ensures { self.new ≡ lose_note self.old key.now from }
    {
        if self.is_asked_of(key, from) {
            self.forget_source(key);
        }
    }

    fn forget_source(&mut self, key: &NoteKey)
        ensures { self.new ≡ change_note unasked self.old key.now }
    {
        let Some(note) = self.by_version.get_mut(key) else {
            return;
        };
        note.lose_source();
    }

    /// No server is asked for any version any more. It takes no memory.
    pub fn release(&mut self)
        ensures { self.new ≡ released self.old }
    {
        self.by_version.retain(|_, note| {
            note.lose_source();
            true
        });
    }

    /// The versions of the file that the content covers are not noted any more.
    pub fn end_covered(&mut self, file: &FileId, content: &Content)
        ensures { self.new ≡ without_covered self.old file.now content.now.heads }
    {
        self.by_version
            .retain(|key, note| !is_over(file, content, key, note));
    }

    /// No version of the file is noted any more.
    pub fn end_file(&mut self, file: &FileId)
        ensures { self.new ≡ without_file self.old file.now }
    {
        self.by_version.retain(|key, _| key.file != *file);
    }

    /// No version is noted any more.
    pub fn clear(&mut self)
        ensures { self.new ≡ [] }
    {
        self.by_version.clear();
    }
}

/// Whether the note is of a version of the file whose vector covers the head, and for which
/// somebody else than `from` is asked.
fn covers_for_other(
    file: &FileId,
    from: NodeId,
    head: &Head,
    key: &NoteKey,
    note: &Announced,
) -> bool
    ensures { result ≡ covers_for_other file.now from head.now key.now note.now }
{
    key.file == *file
        && note.source != 0
        && note.source != from
        && note.head.get().vector.covers(head.actor(), head.number)
}

/// Whether the note is of a version of the file that the content covers.
fn is_over(file: &FileId, content: &Content, key: &NoteKey, note: &Announced) -> bool
    ensures { result ≡ is_over file.now content.now.heads (key.now, note.now) }
{
    let head = note.head.get();
    key.file == *file && content.covers(head.actor(), head.number)
}
