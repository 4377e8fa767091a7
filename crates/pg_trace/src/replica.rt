//! A replica that a server holds, as it is shown.

ghost use Rattle.std.specs.Prelude.{◌≡◌, IfOk};

use pg_base::{FileId, Items, NodeId, SharedBytes, Stamp};
use pg_register::Place;
use pg_words::{FullWord, GoldWord, HexWord, PlaceWords, StampsWord};
use std::alloc::AllocError;
use std::fmt;

/// What a replica shows.
#[derive(Debug, Drop)]
pub enum ShownContent {
    /// Of a file: the stamps of its heads in their order, how many bytes are shown, or the greatest
    /// `u64` where they are more, and the first of them, at most 16.
    File {
        heads: Items<Stamp>,
        length: u64,
        first: SharedBytes,
    },
    /// Of a directory: how many names are shown.
    Dir(u64),
}

/// A replica that a server holds.
#[derive(Debug, Drop)]
pub struct ShownReplica {
    pub server: NodeId,
    pub id: FileId,
    /// Whether its own flag is raised.
    pub gold: bool,
    /// Whether it has all that it asked for.
    pub full: bool,
    pub place: Place,
    pub contents: ShownContent,
}

impl ShownContent {
    /// Copies the content that is shown. Bytes are shared.
    pub fn copy(&self) -> Result<ShownContent, AllocError>
        ensures { IfOk result (λ c. c ≡ self.now) }
    {
        Ok(match self {
            ShownContent::File {
                heads,
                length,
                first,
            } => ShownContent::File {
                heads: heads.copy()?,
                length: *length,
                first: first.copy()?,
            },
            ShownContent::Dir(count) => ShownContent::Dir(*count),
        })
    }
}

impl ShownReplica {
    /// Copies the replica that is shown. Bytes are shared.
    pub fn copy(&self) -> Result<ShownReplica, AllocError>
        ensures { IfOk result (λ h. h ≡ self.now) }
    {
        Ok(ShownReplica {
            server: self.server,
            id: self.id,
            gold: self.gold,
            full: self.full,
            place: self.place.copy()?,
            contents: self.contents.copy()?,
        })
    }
}

impl fmt::Display for ShownContent {
    ghost use Rattle.std.specs.Prelude.{Some};
    ghost use Rattle.std.specs.List.{join_with_byte};
    ghost use Rattle.pg_trace.specs.JournalLine.{contents_words};

    ghost output = { λ c. Some (join_with_byte 32 (contents_words c)) };

    fn fmt<W: fmt::Write>(&self, f: &mut fmt::Formatter<W>) -> fmt::Result {
        match self {
            ShownContent::File {
                heads,
                length,
                first,
            } => {
                let heads = StampsWord(heads.as_slice());
                let first = HexWord(first.as_slice());
                write!(f, "heads {heads} shown {length} {first}")
            }
            ShownContent::Dir(count) => write!(f, "lists {count}"),
        }
    }
}

impl fmt::Display for ShownReplica {
    ghost use Rattle.std.specs.Prelude.{Some};
    ghost use Rattle.std.specs.List.{join_with_byte};
    ghost use Rattle.pg_trace.specs.JournalLine.{replica_words};

    ghost output = { λ h. Some (join_with_byte 32 (replica_words h)) };

    fn fmt<W: fmt::Write>(&self, f: &mut fmt::Formatter<W>) -> fmt::Result {
        let server = self.server;
        let id = self.id;
        let gold = GoldWord(self.gold);
        let full = FullWord(self.full);
        let place = PlaceWords(&self.place);
        let contents = &self.contents;
        write!(f, "at {server} {id} {gold} {full} place {place} {contents}")
    }
}
