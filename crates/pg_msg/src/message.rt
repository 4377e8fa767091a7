//! Messages between servers.

ghost use Rattle.std.specs.Prelude.{◌≡◌, IfOk};
ghost use Rattle.pg_msg.specs.Ends.{back};
ghost use Rattle.pg_msg.specs.Sent.{cell_key, detail_of, file_of, kind_of, summary_of, summary};

use crate::summary::{Detail, Greeting, MessageKind, Summary};
use pg_base::{FileId, Head, Items, NodeId, Policy, Shared, SharedBytes, Stamp};
use pg_edges::Key;
use pg_entries::{Cell, Entry};
use pg_patch::Ranges;
use pg_register::{GoldFlags, Place};
use std::alloc::AllocError;

/// The edge that a message goes along: between which replicas of a file, each named by its birth.
#[derive(Clone, Copy, Debug, PartialEq, Eq)]
pub struct Ends {
    pub file: FileId,
    /// The birth of the sender's replica.
    pub sender: u64,
    /// The birth of the receiver's replica.
    pub receiver: u64,
}

impl Ends {
    /// The same edge the other way, for an answer.
    pub fn back(&self) -> Ends
        ensures { result ≡ back self.now }
    {
        Ends {
            file: self.file,
            sender: self.receiver,
            receiver: self.sender,
        }
    }
}

/// The version that a server asks for, the byte from which on, and the heads that it has.
#[derive(Debug, Drop)]
pub struct Wanted {
    pub stamp: Stamp,
    pub offset: u32,
    /// The stamps of the heads, in their order; none where only the body's bytes will do.
    pub heads: Items<Stamp>,
}

/// A version, as what is to be changed of the body that these heads show.
#[derive(Debug, Drop)]
pub struct Delta {
    pub head: Head,
    /// The stamps of these heads, in their order.
    pub from: Items<Stamp>,
    pub ranges: Ranges,
}

/// Bytes of a version's body.
#[derive(Debug, Drop)]
pub struct Piece {
    pub head: Head,
    pub offset: u32,
    pub bytes: SharedBytes,
}

/// What a new replica begins with.
#[derive(Debug, Drop)]
pub struct Granted {
    pub policy: Policy,
    pub place: Place,
    pub flags: GoldFlags,
}

/// What was asked that nobody here could answer.
#[derive(Clone, Copy, Debug, PartialEq, Eq)]
pub enum Ask {
    Seek,
    Confirm,
    Patch,
}

/// What one server tells another. A copy shares what is large.
#[derive(Debug, Drop)]
pub enum Message {
    /// A cell of the sender's replica, under the tag that its key has on the edge.
    Cell {
        ends: Ends,
        tag: u64,
        cell: Cell,
    },
    /// The sender has taken the cell of this key that came under this tag, or had it already.
    Ack {
        ends: Ends,
        key: Key,
        tag: u64,
    },
    /// A version whose body is sent to who asks for it, under the tag that its key has on the edge;
    /// under the tag 0 by one that heard of it.
    Harbinger {
        ends: Ends,
        tag: u64,
        head: Shared<Head>,
    },
    /// The body of a version is asked for.
    Want {
        ends: Ends,
        wanted: Shared<Wanted>,
    },
    /// A body, as a change of the one that the receiver has.
    Delta {
        ends: Ends,
        delta: Shared<Delta>,
    },
    /// Bytes of a body.
    Piece {
        ends: Ends,
        piece: Shared<Piece>,
    },
    /// The sender has no body of this version now.
    Later {
        ends: Ends,
        stamp: Stamp,
    },
    /// A replica of this birth is to be filled.
    Fetch {
        file: FileId,
        birth: u64,
    },
    /// What a replica that is to be filled begins with.
    Grant {
        ends: Ends,
        granted: Shared<Granted>,
    },
    /// The sender cannot fill a replica of this birth.
    NoGrant {
        file: FileId,
        birth: u64,
    },
    /// The receiver's replica has all that the sender's has.
    Full {
        ends: Ends,
    },
    /// A replica of this birth looks for a live gold one.
    Seek {
        file: FileId,
        birth: u64,
    },
    /// The sender's replica is here: the receiver's links it. The greeting tells why it is sent.
    Greet {
        ends: Ends,
        greeting: Greeting,
    },
    /// The sender does not hold what it was asked about.
    NoneHere {
        ask: Ask,
        file: FileId,
        child: FileId,
    },
    /// The sender has no replica of this birth.
    Gone {
        file: FileId,
        birth: u64,
    },
    /// The sender's replica goes.
    Bye {
        ends: Ends,
    },
    /// The answer to that: the replica of this birth has no edge any more.
    ByeOk {
        file: FileId,
        birth: u64,
    },
    /// The place and flags of a child are asked for, which the sender lists as told here.
    Confirm {
        dir: FileId,
        entry: Shared<Entry>,
    },
    /// The answer to that.
    PlaceIs {
        dir: FileId,
        entry: Shared<Entry>,
    },
    /// A directory's child has this newer place.
    Tell {
        dir: FileId,
        entry: Shared<Entry>,
    },
    /// The answer to that: the stamp of the place that was told.
    TellOk {
        dir: FileId,
        child: FileId,
        stamp: Stamp,
    },
    /// The sender's replica, whose place has this stamp, asks for leave to go.
    Leave {
        ends: Ends,
        stamp: Stamp,
    },
    /// The receiver's replica may go while its place has this stamp.
    LeaveOk {
        ends: Ends,
        stamp: Stamp,
    },
    /// The receiver's replica is asked to be gold.
    Invite {
        ends: Ends,
    },
    /// A replica with few edges looks for one more: its server, its birth, how many hops are left,
    /// and a random word.
    Walk {
        ends: Ends,
        origin: NodeId,
        birth: u64,
        hops: u8,
        word: u64,
    },
}

impl Message {
    /// The kind of message that it is.
    pub fn kind(&self) -> MessageKind
        ensures { result ≡ kind_of self.now }
    {
        match self {
            Message::Cell { .. } => MessageKind::Cell,
            Message::Ack { .. } => MessageKind::Ack,
            Message::Harbinger { .. } => MessageKind::Harbinger,
            Message::Want { .. } => MessageKind::Want,
            Message::Delta { .. } => MessageKind::Delta,
            Message::Piece { .. } => MessageKind::Piece,
            Message::Later { .. } => MessageKind::Later,
            Message::Fetch { .. } => MessageKind::Fetch,
            Message::Grant { .. } => MessageKind::Grant,
            Message::NoGrant { .. } => MessageKind::NoGrant,
            Message::Full { .. } => MessageKind::Full,
            Message::Seek { .. } => MessageKind::Seek,
            Message::Greet { greeting, .. } => MessageKind::Greet(*greeting),
            Message::NoneHere { .. } => MessageKind::NoneHere,
            Message::Gone { .. } => MessageKind::Gone,
            Message::Bye { .. } => MessageKind::Bye,
            Message::ByeOk { .. } => MessageKind::ByeOk,
            Message::Confirm { .. } => MessageKind::Confirm,
            Message::PlaceIs { .. } => MessageKind::PlaceIs,
            Message::Tell { .. } => MessageKind::Tell,
            Message::TellOk { .. } => MessageKind::TellOk,
            Message::Leave { .. } => MessageKind::Leave,
            Message::LeaveOk { .. } => MessageKind::LeaveOk,
            Message::Invite { .. } => MessageKind::Invite,
            Message::Walk { .. } => MessageKind::Walk,
        }
    }

    /// The file that it is about: the directory, where it is about a child of one.
    fn file(&self) -> FileId
        ensures { result ≡ file_of self.now }
    {
        match self {
            Message::Cell { ends, .. } => ends.file,
            Message::Ack { ends, .. } => ends.file,
            Message::Harbinger { ends, .. } => ends.file,
            Message::Want { ends, .. } => ends.file,
            Message::Delta { ends, .. } => ends.file,
            Message::Piece { ends, .. } => ends.file,
            Message::Later { ends, .. } => ends.file,
            Message::Fetch { file, .. } => *file,
            Message::Grant { ends, .. } => ends.file,
            Message::NoGrant { file, .. } => *file,
            Message::Full { ends } => ends.file,
            Message::Seek { file, .. } => *file,
            Message::Greet { ends, .. } => ends.file,
            Message::NoneHere { file, .. } => *file,
            Message::Gone { file, .. } => *file,
            Message::Bye { ends } => ends.file,
            Message::ByeOk { file, .. } => *file,
            Message::Confirm { dir, .. } => *dir,
            Message::PlaceIs { dir, .. } => *dir,
            Message::Tell { dir, .. } => *dir,
            Message::TellOk { dir, .. } => *dir,
            Message::Leave { ends, .. } => ends.file,
            Message::LeaveOk { ends, .. } => ends.file,
            Message::Invite { ends } => ends.file,
            Message::Walk { ends, .. } => ends.file,
        }
    }

    /// What a journal tells of it besides.
    fn detail(&self) -> Detail
        ensures { result ≡ detail_of self.now }
    {
        match self {
            Message::Cell { cell, .. } => Detail::Key(key_of(cell)),
            Message::Ack { key, .. } => Detail::Key(*key),
            Message::Harbinger { head, .. } => Detail::Stamp(head.get().stamp),
            Message::Want { wanted, .. } => Detail::Stamp(wanted.get().stamp),
            Message::Delta { delta, .. } => Detail::Stamp(delta.get().head.stamp),
            Message::Piece { piece, .. } => Detail::Stamp(piece.get().head.stamp),
            Message::Later { stamp, .. } => Detail::Stamp(*stamp),
            Message::Fetch { .. } => Detail::Nothing,
            Message::Grant { .. } => Detail::Nothing,
            Message::NoGrant { .. } => Detail::Nothing,
            Message::Full { .. } => Detail::Nothing,
            Message::Seek { .. } => Detail::Nothing,
            Message::Greet { .. } => Detail::Nothing,
            Message::NoneHere { child, .. } => Detail::Child(*child),
            Message::Gone { .. } => Detail::Nothing,
            Message::Bye { .. } => Detail::Nothing,
            Message::ByeOk { .. } => Detail::Nothing,
            Message::Confirm { entry, .. } => Detail::Child(entry.get().child),
            Message::PlaceIs { entry, .. } => Detail::Child(entry.get().child),
            Message::Tell { entry, .. } => Detail::Child(entry.get().child),
            Message::TellOk { child, .. } => Detail::Child(*child),
            Message::Leave { .. } => Detail::Nothing,
            Message::LeaveOk { .. } => Detail::Nothing,
            Message::Invite { .. } => Detail::Nothing,
            Message::Walk { .. } => Detail::Nothing,
        }
    }

    /// Copies the message. What is large is shared.
    pub fn copy(&self) -> Result<Message, AllocError>
        ensures { IfOk result (λ m. m ≡ self.now) }
    {
        Ok(match self {
            Message::Cell { ends, tag, cell } => Message::Cell {
                ends: *ends,
                tag: *tag,
                cell: cell.copy()?,
            },
            &Message::Ack { ends, key, tag } => Message::Ack { ends, key, tag },
            Message::Harbinger { ends, tag, head } => Message::Harbinger {
                ends: *ends,
                tag: *tag,
                head: head.copy()?,
            },
            Message::Want { ends, wanted } => Message::Want {
                ends: *ends,
                wanted: wanted.copy()?,
            },
            Message::Delta { ends, delta } => Message::Delta {
                ends: *ends,
                delta: delta.copy()?,
            },
            Message::Piece { ends, piece } => Message::Piece {
                ends: *ends,
                piece: piece.copy()?,
            },
            &Message::Later { ends, stamp } => Message::Later { ends, stamp },
            &Message::Fetch { file, birth } => Message::Fetch { file, birth },
            Message::Grant { ends, granted } => Message::Grant {
                ends: *ends,
                granted: granted.copy()?,
            },
            &Message::NoGrant { file, birth } => Message::NoGrant { file, birth },
            &Message::Full { ends } => Message::Full { ends },
            &Message::Seek { file, birth } => Message::Seek { file, birth },
            &Message::Greet { ends, greeting } => Message::Greet { ends, greeting },
            &Message::NoneHere { ask, file, child } => Message::NoneHere { ask, file, child },
            &Message::Gone { file, birth } => Message::Gone { file, birth },
            &Message::Bye { ends } => Message::Bye { ends },
            &Message::ByeOk { file, birth } => Message::ByeOk { file, birth },
            Message::Confirm { dir, entry } => Message::Confirm {
                dir: *dir,
                entry: entry.copy()?,
            },
            Message::PlaceIs { dir, entry } => Message::PlaceIs {
                dir: *dir,
                entry: entry.copy()?,
            },
            Message::Tell { dir, entry } => Message::Tell {
                dir: *dir,
                entry: entry.copy()?,
            },
            &Message::TellOk { dir, child, stamp } => Message::TellOk { dir, child, stamp },
            &Message::Leave { ends, stamp } => Message::Leave { ends, stamp },
            &Message::LeaveOk { ends, stamp } => Message::LeaveOk { ends, stamp },
            &Message::Invite { ends } => Message::Invite { ends },
            Message::Walk {
                ends,
                origin,
                birth,
                hops,
                word,
            } => Message::Walk {
                ends: *ends,
                origin: *origin,
                birth: *birth,
                hops: *hops,
                word: *word,
            },
        })
    }

    fn summary_of(&self, from: NodeId, to: NodeId) -> Summary
        ensures { result ≡ summary_of from to self.now }
    {
        Summary {
            from,
            to,
            kind: self.kind(),
            file: self.file(),
            detail: self.detail(),
        }
    }
}

/// The key of a cell.
pub fn key_of(cell: &Cell) -> Key
    ensures { result ≡ cell_key cell.now }
{
    match cell {
        Cell::Place(_) => Key::Place,
        Cell::Flag(flag) => Key::Flag(flag.get().server),
        Cell::Entry(entry, _) => Key::Entry(entry.get().child),
        Cell::Version(version) => Key::Version(version.head().stamp),
    }
}

/// A message, who sends it, and in which view.
#[derive(Debug, Drop)]
pub struct Packet {
    pub from: NodeId,
    /// How many removals the sender had entered.
    pub view: u64,
    pub message: Message,
}

impl Packet {
    /// Copies the packet.
    pub fn copy(&self) -> Result<Packet, AllocError>
        ensures { IfOk result (λ p. p ≡ self.now) }
    {
        Ok(Packet {
            from: self.from,
            view: self.view,
            message: self.message.copy()?,
        })
    }
}

/// A packet on its way to a server.
#[derive(Debug, Drop)]
pub struct Sent {
    pub to: NodeId,
    pub packet: Packet,
}

impl Sent {
    /// Copies the packet on its way.
    pub fn copy(&self) -> Result<Sent, AllocError>
        ensures { IfOk result (λ s. s ≡ self.now) }
    {
        Ok(Sent {
            to: self.to,
            packet: self.packet.copy()?,
        })
    }

    /// What a journal says of it.
    pub fn summary(&self) -> Summary
        ensures { result ≡ summary self.now }
    {
        self.packet.message.summary_of(self.packet.from, self.to)
    }
}
