//! What a journal says of a message.

ghost use Rattle.std.specs.Prelude.{◌≡◌, ◌<◌, ◌^◌, ℕ, map, decimal, IfSome, IfNone};
ghost use Rattle.pg_base.specs.Id.{spelling};
ghost use Rattle.pg_base.specs.declared.id.FileId.{FileId};
ghost use Rattle.pg_msg.specs.Text.{detail_text, kind_text, sort_of, summary_words, IsAbout, IsDetail, IsSummary};
ghost use Rattle.pg_msg.specs.declared.summary.Detail.{Detail};
ghost use Rattle.pg_msg.specs.declared.summary.MessageKind as kind;
ghost use Rattle.pg_msg.specs.declared.summary.Summary.{Summary};

use crate::key_word::{KeyWord, read_key};
use pg_base::{FileId, NodeId, Stamp, number_u32};
use pg_edges::Key;
use pg_words::{is_same, read_directory, read_id, read_stamp};
use std::fmt;

/// Why the receiver is to link the sender's replica: the messages that do no more differ in it.
#[derive(Clone, Copy, Debug, PartialEq, Eq)]
pub enum Greeting {
    /// The receiver's replica looked for a live gold one.
    Here,
    /// The walk of the receiver's replica ended at the sender's.
    Meet,
}

/// The kinds of messages.
#[derive(Clone, Copy, Debug, PartialEq, Eq)]
pub enum MessageKind {
    Cell,
    Ack,
    Harbinger,
    Want,
    Delta,
    Piece,
    Later,
    Fetch,
    Grant,
    NoGrant,
    Full,
    Seek,
    Greet(Greeting),
    NoneHere,
    Gone,
    Bye,
    ByeOk,
    Confirm,
    PlaceIs,
    Tell,
    TellOk,
    Leave,
    LeaveOk,
    Invite,
    Walk,
}

/// What a journal tells of a message besides its kind and its file.
#[derive(Clone, Copy, Debug, PartialEq, Eq)]
pub enum Detail {
    /// The key of a cell, or of one that is acknowledged.
    Key(Key),
    /// The stamp of a version.
    Stamp(Stamp),
    /// A child of the directory, or the file itself.
    Child(FileId),
    Nothing,
}

/// What a journal says of a message: from whom it comes, to whom it goes, its kind, the file that
/// it is about, and a detail.
#[derive(Clone, Copy, Debug, PartialEq, Eq)]
pub struct Summary {
    pub from: NodeId,
    pub to: NodeId,
    pub kind: MessageKind,
    pub file: FileId,
    pub detail: Detail,
}

/// All kinds of messages.
const KINDS: [MessageKind; 26] = [
    MessageKind::Cell,
    MessageKind::Ack,
    MessageKind::Harbinger,
    MessageKind::Want,
    MessageKind::Delta,
    MessageKind::Piece,
    MessageKind::Later,
    MessageKind::Fetch,
    MessageKind::Grant,
    MessageKind::NoGrant,
    MessageKind::Full,
    MessageKind::Seek,
    MessageKind::Greet(Greeting::Here),
    MessageKind::NoneHere,
    MessageKind::Gone,
    MessageKind::Bye,
    MessageKind::ByeOk,
    MessageKind::Confirm,
    MessageKind::PlaceIs,
    MessageKind::Tell,
    MessageKind::TellOk,
    MessageKind::Leave,
    MessageKind::LeaveOk,
    MessageKind::Invite,
    MessageKind::Walk,
    MessageKind::Greet(Greeting::Meet),
];

impl MessageKind {
    /// The word by which a journal names the kind.
    fn word(self) -> &'static str
        ensures { result.now ≡ kind_text self }
    {
        match self {
            MessageKind::Cell => "cell",
            MessageKind::Ack => "ack",
            MessageKind::Harbinger => "harb",
            MessageKind::Want => "want",
            MessageKind::Delta => "delta",
            MessageKind::Piece => "piece",
            MessageKind::Later => "later",
            MessageKind::Fetch => "fetch",
            MessageKind::Grant => "grant",
            MessageKind::NoGrant => "nogrant",
            MessageKind::Full => "full",
            MessageKind::Seek => "seek",
            MessageKind::Greet(Greeting::Here) => "here",
            MessageKind::Greet(Greeting::Meet) => "meet",
            MessageKind::NoneHere => "nonehere",
            MessageKind::Gone => "gone",
            MessageKind::Bye => "bye",
            MessageKind::ByeOk => "byeok",
            MessageKind::Confirm => "confirm",
            MessageKind::PlaceIs => "placeis",
            MessageKind::Tell => "tell",
            MessageKind::TellOk => "tellok",
            MessageKind::Leave => "leave",
            MessageKind::LeaveOk => "leaveok",
            MessageKind::Invite => "invite",
            MessageKind::Walk => "walk",
        }
    }
}

impl fmt::Display for MessageKind {
    ghost use Rattle.std.specs.Prelude.{Some};

    ghost output = { λ k. Some (kind_text k) };

    fn fmt<W: fmt::Write>(&self, f: &mut fmt::Formatter<W>) -> fmt::Result {
        f.write_str(self.word())
    }
}

impl fmt::Display for Detail {
    ghost use Rattle.std.specs.Prelude.{Some};
    ghost use Rattle.pg_msg.specs.Text.{detail_text};

    ghost output = { λ d. Some (detail_text d) };

    fn fmt<W: fmt::Write>(&self, f: &mut fmt::Formatter<W>) -> fmt::Result {
        match self {
            Detail::Key(key) => {
                let word = KeyWord(*key);
                write!(f, "{word}")
            }
            Detail::Stamp(stamp) => write!(f, "{stamp}"),
            Detail::Child(child) => write!(f, "{child}"),
            Detail::Nothing => f.write_str("-"),
        }
    }
}

impl fmt::Display for Summary {
    ghost use Rattle.std.specs.Prelude.{Some};
    ghost use Rattle.pg_msg.specs.Text.{summary_text};

    ghost output = { λ s. Some (summary_text s) };

    fn fmt<W: fmt::Write>(&self, f: &mut fmt::Formatter<W>) -> fmt::Result {
        let from = self.from;
        let to = self.to;
        let kind = self.kind;
        let file = self.file;
        let detail = self.detail;
        write!(f, "{from} {to} {kind} {file} {detail}")
    }
}

/// The kind of message that the word names.
fn kind_of(word: &[u8]) -> Option<MessageKind>
    ensures found { IfSome result (λ k. word.now ≡ kind_text k) }
    ensures none { IfNone result ((k : kind.MessageKind) → word.now ≡ kind_text k → ⊥) }
{
    KINDS
        .iter()
        .copied()
        .find(|kind| kind.word().as_bytes() == word)
}

/// From whom and to whom.
fn ends_of(from: &[u8], to: &[u8]) -> Option<(NodeId, NodeId)>
    ensures found { IfSome result (λ x. (from.now ≡ decimal x.0) × (to.now ≡ decimal x.1)) }
    ensures none { IfNone result ((a b : ℕ) → a < 2 ^ 32 → b < 2 ^ 32 → from.now ≡ decimal a
        → to.now ≡ decimal b → ⊥) }
{
    let from = number_u32(from)?;
    let to = number_u32(to)?;
    Some((from, to))
}

/// The file or the directory that is told of with a message of this kind.
fn about_of(kind: MessageKind, word: &[u8]) -> Option<FileId>
    ensures found { IfSome result (λ f. IsAbout kind f × (word.now ≡ spelling f)) }
    ensures none { IfNone result ((f : FileId) → IsAbout kind f → word.now ≡ spelling f → ⊥) }
{
    match kind {
        MessageKind::Confirm | MessageKind::PlaceIs | MessageKind::Tell | MessageKind::TellOk =>
            read_directory(word),
        _ => read_id(word),
    }
}

/// The detail that is told with a message of this kind.
fn detail_of(kind: MessageKind, word: &[u8]) -> Option<Detail>
    ensures found { IfSome result (λ d. IsDetail (sort_of kind) d × (word.now ≡ detail_text d)) }
    ensures none { IfNone result ((d : Detail) → IsDetail (sort_of kind) d
        → word.now ≡ detail_text d → ⊥) }
{
    match kind {
        MessageKind::Cell | MessageKind::Ack => Some(Detail::Key(read_key(word)?)),
        MessageKind::Harbinger
        | MessageKind::Want
        | MessageKind::Delta
        | MessageKind::Piece
        | MessageKind::Later => Some(Detail::Stamp(read_stamp(word)?)),
        MessageKind::NoneHere
        | MessageKind::Confirm
        | MessageKind::PlaceIs
        | MessageKind::Tell
        | MessageKind::TellOk => Some(Detail::Child(read_id(word)?)),
        _ if is_same(word, b"-") => Some(Detail::Nothing),
        _ => None,
    }
}

/// The message that the words tell of.
pub fn read_summary(words: &[&[u8]]) -> Option<Summary>
    ensures found { IfSome result (λ s. IsSummary s
        × (map (λ w. w.now) words.now ≡ summary_words s)) }
    ensures none { IfNone result ((s : Summary) → IsSummary s
        → map (λ w. w.now) words.now ≡ summary_words s → ⊥) }
{
    let [from, to, kind, file, detail] = words else {
        return None;
    };
    let (from, to) = ends_of(from, to)?;
    let kind = kind_of(kind)?;
    let file = about_of(kind, file)?;
    let detail = detail_of(kind, detail)?;
    Some(Summary {
        from,
        to,
        kind,
        file,
        detail,
    })
}

/// No two summaries have the same words.
pub fn one_summary_spelling()
    ensures { (a b : Summary) → IsSummary a → IsSummary b
        → summary_words a ≡ summary_words b → a ≡ b }
{}
