//! What a client is told.

ghost use Rattle.std.specs.Prelude.{◌≡◌, IfOk, map};
ghost use Rattle.pg_call.specs.declared.reply.Reply.{Reply};

use crate::refusal::Refusal;
use pg_base::{FileId, Items, NodeId, Shared, SharedBytes, Stamp};
use pg_path::Row;
use pg_register::Place;
use pg_words::{GoldWord, HexWord, PlaceWords, TextWord};
use std::alloc::{AllocError, Global};
use std::fmt;

/// What a server tells of a replica that it holds.
#[derive(Debug, Drop)]
pub struct Stat {
    pub id: FileId,
    pub place: Place,
    /// Whether the server's own flag is raised.
    pub gold: bool,
    /// How many live gold replicas it sees.
    pub golds: u64,
    /// How many heads the file has: 0 for a directory.
    pub heads: u64,
    /// How many bytes are shown, or the greatest `u64` where they are more: 0 for a directory.
    pub length: u64,
    pub edges: u64,
}

/// What a server holds and waits for, in numbers.
#[derive(Clone, Copy, Debug, PartialEq, Eq)]
pub struct Counts {
    /// How many removals it has entered.
    pub view: u64,
    /// The greatest time that it has seen.
    pub last: u64,
    pub replicas: u64,
    pub intents: u64,
    /// How many keys are not acknowledged.
    pub cells: u64,
    /// How many places are held back.
    pub held: u64,
}

/// What a client is told. What is large is shared, since each event moves a reply, or the room for
/// one.
#[derive(Debug, Drop)]
pub enum Reply {
    /// The call was done.
    Done,
    /// The thing with this id was made.
    Made(FileId),
    /// The version with this stamp was made.
    Wrote(Stamp),
    /// The bytes that are shown.
    Bytes(SharedBytes),
    /// The number of all names that are shown, and some of them, at most 100.
    Names { total: u32, rows: Items<Row> },
    Stat(Shared<Stat>),
    /// The replica goes once this server has given leave.
    Leaving(NodeId),
    Status(Shared<Counts>),
    /// The call was not done, and this is why.
    Refused(Refusal),
}

/// The kinds of replies, without what they tell.
#[derive(Clone, Copy, Debug, PartialEq, Eq)]
pub enum ReplyKind {
    Done,
    Made,
    Wrote,
    Bytes,
    Names,
    Stat,
    Leaving,
    Status,
    Refused,
}

impl Reply {
    /// Copies the reply. What is large is shared.
    pub fn copy(&self, alloc: Global) -> Result<Reply, AllocError>
        ensures { IfOk result (λ r. r ≡ self.now) }
    {
        Ok(match self {
            Reply::Done => Reply::Done,
            Reply::Made(id) => Reply::Made(*id),
            Reply::Wrote(stamp) => Reply::Wrote(*stamp),
            Reply::Bytes(bytes) => Reply::Bytes(bytes.copy()?),
            Reply::Names { total, rows } => Reply::Names {
                total: *total,
                rows: copy_rows(alloc, rows)?,
            },
            Reply::Stat(stat) => Reply::Stat(stat.copy()?),
            Reply::Leaving(server) => Reply::Leaving(*server),
            Reply::Status(counts) => Reply::Status(counts.copy()?),
            Reply::Refused(refusal) => Reply::Refused(*refusal),
        })
    }
}

/// Copies the rows.
fn copy_rows(alloc: Global, rows: &Items<Row>) -> Result<Items<Row>, AllocError>
    ensures { IfOk result (λ v. v ≡ rows.now) }
{
    let mut copies = Items::new(alloc);
    for row in rows.as_slice() {
        copies.push(row.copy()?)?;
    }
    Ok(copies)
}

/// Rows, each with a space in front.
#[derive(Clone, Copy, Debug)]
struct RowWords<'a>(&'a [Row]);

impl fmt::Display for RowWords<'_> {
    ghost use Rattle.std.specs.Prelude.{Some};
    ghost use Rattle.pg_call.specs.Reply.{rows_text};

    ghost output = { λ w. Some (rows_text w.0.now) };

    fn fmt<W: fmt::Write>(&self, f: &mut fmt::Formatter<W>) -> fmt::Result {
        for row in self.0 {
            let name = TextWord(row.name.as_slice());
            let child = row.child;
            write!(f, " {name}={child}")?;
        }
        Ok(())
    }
}

impl fmt::Display for Stat {
    ghost use Rattle.std.specs.Prelude.{Some};
    ghost use Rattle.std.specs.List.{join_with_byte};
    ghost use Rattle.pg_call.specs.Reply.{stat_words};

    ghost output = { λ s. Some (join_with_byte 32 (stat_words s)) };

    fn fmt<W: fmt::Write>(&self, f: &mut fmt::Formatter<W>) -> fmt::Result {
        let id = self.id;
        let place = PlaceWords(&self.place);
        let gold = GoldWord(self.gold);
        let golds = self.golds;
        let heads = self.heads;
        let length = self.length;
        let edges = self.edges;
        write!(
            f,
            "stat {id} {place} {gold} golds {golds} heads {heads} length {length} edges {edges}"
        )
    }
}

impl fmt::Display for Counts {
    ghost use Rattle.std.specs.Prelude.{Some};
    ghost use Rattle.std.specs.List.{join_with_byte};
    ghost use Rattle.pg_call.specs.Reply.{counts_words};

    ghost output = { λ s. Some (join_with_byte 32 (counts_words s)) };

    fn fmt<W: fmt::Write>(&self, f: &mut fmt::Formatter<W>) -> fmt::Result {
        let view = self.view;
        let last = self.last;
        let replicas = self.replicas;
        let intents = self.intents;
        let cells = self.cells;
        let held = self.held;
        write!(
            f,
            "status view {view} last {last} replicas {replicas} intents {intents} cells {cells} held {held}"
        )
    }
}

impl fmt::Display for Reply {
    ghost use Rattle.std.specs.Prelude.{Some};
    ghost use Rattle.pg_call.specs.Reply.{reply_body};

    ghost output = { λ r. Some (reply_body r) };

    fn fmt<W: fmt::Write>(&self, f: &mut fmt::Formatter<W>) -> fmt::Result {
        match self {
            Reply::Done => f.write_str("done"),
            Reply::Made(id) => write!(f, "made {id}"),
            Reply::Wrote(stamp) => write!(f, "wrote {stamp}"),
            Reply::Bytes(bytes) => {
                let word = HexWord(bytes.as_slice());
                write!(f, "bytes {word}")
            }
            Reply::Names { total, rows } => {
                let rows = RowWords(rows.as_slice());
                write!(f, "names {total}{rows}")
            }
            Reply::Stat(stat) => {
                let stat = stat.get();
                write!(f, "{stat}")
            }
            Reply::Leaving(server) => write!(f, "leaving {server}"),
            Reply::Status(counts) => {
                let counts = counts.get();
                write!(f, "{counts}")
            }
            Reply::Refused(refusal) => write!(f, "{refusal}"),
        }
    }
}
