//! Why a server refuses what a client asks for.

use pg_base::{FileId, NodeId, Stamp};
use pg_intent::IntentKind;
use std::fmt;

/// What keeps a replica from being dropped: an intention, or a cell that is not acknowledged.
#[derive(Clone, Copy, Debug, PartialEq, Eq)]
pub enum Unsettled {
    Intent(IntentKind),
    Cell,
}

/// Why a server refuses what a client asks for, in the order in which the reasons are tried.
#[derive(Clone, Copy, Debug, PartialEq, Eq)]
pub enum Refusal {
    /// The component with this number breaks the grammar of paths, or is to be a new name and is no
    /// client name. 0: no slash in front, and where an id may stand no id; 65: over 64 components;
    /// 66: over 4,096 bytes.
    BadPath(u8),
    /// The server's clock is at its end: its greatest time, a counter, or a number of its own in
    /// the file, is 2^62 or more.
    ClockEnd,
    /// The thing with this id is not held here, or is held and not full.
    NotYet(FileId),
    /// The directory does not show the component with this number.
    NoName(u8),
    /// The component with this number is a file where a directory is needed.
    NotDir(u8),
    /// The call's thing is a directory where a file is needed.
    IsDir,
    /// The call's thing is the root.
    Root,
    /// The new name is shown by this.
    Exists(FileId),
    /// The directory has 4,096 cells or more, and none for this child.
    DirFull,
    /// The directory lists this first.
    NotEmpty(FileId),
    /// The directory would stand in itself.
    Loop,
    /// The new body would have more than 1,048,576 bytes.
    TooLong,
    /// The version with this stamp was announced, and is not here.
    Behind(Stamp),
    /// The replica is gold.
    IsGold,
    /// No other gold replica is known to have all that this one has.
    LastGold,
    /// The thing with this id has a live place in the directory.
    HasChild(FileId),
    /// Something about this is not settled with the peer: an intention with its target, or a cell.
    Unsettled {
        what: Unsettled,
        id: FileId,
        peer: NodeId,
    },
    /// The call's thing is held here, and full.
    Held,
    /// The server is in this view, and the one asked for is not the next, or not of another live
    /// server.
    WrongView(u64),
    /// The new version's vector would have more than 256 actors.
    ManyActors,
}

/// The kinds of refusals, without their values, in the same order.
#[derive(Clone, Copy, Debug, PartialEq, Eq)]
pub enum RefusalKind {
    BadPath,
    ClockEnd,
    NotYet,
    NoName,
    NotDir,
    IsDir,
    Root,
    Exists,
    DirFull,
    NotEmpty,
    Loop,
    TooLong,
    Behind,
    IsGold,
    LastGold,
    HasChild,
    Unsettled,
    Held,
    WrongView,
    ManyActors,
}

impl fmt::Display for Unsettled {
    ghost use Rattle.std.specs.Prelude.{Some};
    ghost use Rattle.pg_call.specs.Refusal.{unsettled_word};

    ghost output = { λ u. Some (unsettled_word u) };

    fn fmt<W: fmt::Write>(&self, f: &mut fmt::Formatter<W>) -> fmt::Result {
        match self {
            Unsettled::Intent(kind) => write!(f, "{kind}"),
            Unsettled::Cell => f.write_str("Cell"),
        }
    }
}

impl fmt::Display for Refusal {
    ghost use Rattle.std.specs.Prelude.{Some};
    ghost use Rattle.std.specs.List.{join_with_byte};
    ghost use Rattle.pg_call.specs.Refusal.{refusal_words};

    ghost output = { λ r. Some (join_with_byte 32 (refusal_words r)) };

    fn fmt<W: fmt::Write>(&self, f: &mut fmt::Formatter<W>) -> fmt::Result {
        match self {
            Refusal::BadPath(component) => write!(f, "refused 1 BadPath {component}"),
            Refusal::ClockEnd => f.write_str("refused 2 ClockEnd"),
            Refusal::NotYet(id) => write!(f, "refused 3 NotYet {id}"),
            Refusal::NoName(component) => write!(f, "refused 4 NoName {component}"),
            Refusal::NotDir(component) => write!(f, "refused 5 NotDir {component}"),
            Refusal::IsDir => f.write_str("refused 6 IsDir"),
            Refusal::Root => f.write_str("refused 7 Root"),
            Refusal::Exists(id) => write!(f, "refused 8 Exists {id}"),
            Refusal::DirFull => f.write_str("refused 9 DirFull"),
            Refusal::NotEmpty(id) => write!(f, "refused 10 NotEmpty {id}"),
            Refusal::Loop => f.write_str("refused 11 Loop"),
            Refusal::TooLong => f.write_str("refused 12 TooLong"),
            Refusal::Behind(stamp) => write!(f, "refused 13 Behind {stamp}"),
            Refusal::IsGold => f.write_str("refused 14 IsGold"),
            Refusal::LastGold => f.write_str("refused 15 LastGold"),
            Refusal::HasChild(id) => write!(f, "refused 16 HasChild {id}"),
            Refusal::Unsettled { what, id, peer } => {
                write!(f, "refused 17 Unsettled {what} {id} {peer}")
            }
            Refusal::Held => f.write_str("refused 18 Held"),
            Refusal::WrongView(view) => write!(f, "refused 19 WrongView {view}"),
            Refusal::ManyActors => f.write_str("refused 20 ManyActors"),
        }
    }
}
