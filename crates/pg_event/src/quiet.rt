//! What is not done yet.

ghost use Rattle.std.specs.Prelude.{◌≡◌, ◌∷◌, Option, map, codes, IfSome, IfNone};
ghost use Rattle.pg_base.specs.declared.id.FileId.{FileId};
ghost use Rattle.pg_event.specs.Quiet.{cause_words, child_word, intent_words, key_words, quiet_words, IsAnswer, IsCause, IsChild, IsOwedIntent, IsOwedKey};
ghost use Rattle.pg_event.specs.declared.quiet.Cause.{Cause};
ghost use Rattle.pg_event.specs.declared.quiet.OwedIntent.{OwedIntent};
ghost use Rattle.pg_event.specs.declared.quiet.OwedKey.{OwedKey};
ghost use Rattle.pg_event.specs.declared.quiet.Quiet.{Quiet};

use pg_base::{FileId, NodeId, number, number_u32};
use pg_call::{IntentKind, read_intent_kind};
use pg_edges::Key;
use pg_msg::{KeyWord, Summary, read_key, read_summary};
use pg_words::{first_word, is_same, read_id};
use std::fmt;

/// What a server intends until another has answered.
#[derive(Clone, Copy, Debug, PartialEq, Eq)]
pub struct OwedIntent {
    pub server: NodeId,
    pub kind: IntentKind,
    /// The file that the intention is about, or the directory, where it is about a child of one.
    pub file: FileId,
    pub child: Option<FileId>,
    /// The server that is asked: 0 for none.
    pub target: NodeId,
}

/// A key of a replica at a server that a peer has not acknowledged.
#[derive(Clone, Copy, Debug, PartialEq, Eq)]
pub struct OwedKey {
    pub server: NodeId,
    pub file: FileId,
    pub peer: NodeId,
    pub key: Key,
}

/// What a server owes.
#[derive(Clone, Copy, Debug, PartialEq, Eq)]
pub enum Owing {
    Intent(OwedIntent),
    Key(OwedKey),
    /// A place that it holds back.
    HeldBack { server: NodeId, id: FileId },
}

/// The child that an intention is about, or a dash.
#[derive(Clone, Copy, Debug)]
struct ChildWord(Option<FileId>);

impl fmt::Display for ChildWord {
    ghost use Rattle.std.specs.Prelude.{Some};
    ghost use Rattle.pg_event.specs.Quiet.{child_word};

    ghost output = { λ w. Some (child_word w.0) };

    fn fmt<W: fmt::Write>(&self, f: &mut fmt::Formatter<W>) -> fmt::Result {
        match self.0 {
            Some(child) => write!(f, "{child}"),
            None => f.write_str("-"),
        }
    }
}

impl fmt::Display for OwedIntent {
    ghost use Rattle.std.specs.Prelude.{Some};
    ghost use Rattle.std.specs.List.{join_with_byte};
    ghost use Rattle.pg_event.specs.Quiet.{intent_words};

    ghost output = { λ o. Some (join_with_byte 32 (intent_words o)) };

    fn fmt<W: fmt::Write>(&self, f: &mut fmt::Formatter<W>) -> fmt::Result {
        let server = self.server;
        let kind = self.kind;
        let file = self.file;
        let child = ChildWord(self.child);
        let target = self.target;
        write!(f, "intent {server} {kind} {file} {child} {target}")
    }
}

impl fmt::Display for OwedKey {
    ghost use Rattle.std.specs.Prelude.{Some};
    ghost use Rattle.std.specs.List.{join_with_byte};
    ghost use Rattle.pg_event.specs.Quiet.{key_words};

    ghost output = { λ o. Some (join_with_byte 32 (key_words o)) };

    fn fmt<W: fmt::Write>(&self, f: &mut fmt::Formatter<W>) -> fmt::Result {
        let server = self.server;
        let file = self.file;
        let peer = self.peer;
        let key = KeyWord(self.key);
        write!(f, "cell {server} {file} {peer} {key}")
    }
}

impl fmt::Display for Owing {
    ghost use Rattle.std.specs.Prelude.{Some};
    ghost use Rattle.pg_event.specs.Quiet.{owing_body};

    ghost output = { λ o. Some (owing_body o) };

    fn fmt<W: fmt::Write>(&self, f: &mut fmt::Formatter<W>) -> fmt::Result {
        match self {
            Owing::Intent(intent) => write!(f, "{intent}"),
            Owing::Key(key) => write!(f, "{key}"),
            Owing::HeldBack { server, id } => write!(f, "place {server} {id}"),
        }
    }
}

/// What a run waits for.
#[derive(Clone, Copy, Debug, PartialEq, Eq)]
pub enum Cause {
    /// A message is under way.
    Message(Summary),
    /// A server is in this view, and more servers are removed.
    View { server: NodeId, view: u64 },
    /// A server owes this.
    Owed(Owing),
}

impl fmt::Display for Cause {
    ghost use Rattle.std.specs.Prelude.{Some};
    ghost use Rattle.pg_event.specs.Quiet.{cause_body};

    ghost output = { λ c. Some (cause_body c) };

    fn fmt<W: fmt::Write>(&self, f: &mut fmt::Formatter<W>) -> fmt::Result {
        match self {
            Cause::Message(summary) => write!(f, "message {summary}"),
            Cause::View { server, view } => write!(f, "view {server} {view}"),
            Cause::Owed(owing) => write!(f, "{owing}"),
        }
    }
}

/// Whether a run is quiet: no message is under way, and no server owes anything.
#[derive(Clone, Copy, Debug, PartialEq, Eq)]
pub enum Quiet {
    Quiet,
    /// The run is not quiet, and this is the first thing that it waits for.
    Waits(Cause),
}

impl fmt::Display for Quiet {
    ghost use Rattle.std.specs.Prelude.{Some};
    ghost use Rattle.pg_event.specs.Quiet.{quiet_body};

    ghost output = { λ q. Some (quiet_body q) };

    fn fmt<W: fmt::Write>(&self, f: &mut fmt::Formatter<W>) -> fmt::Result {
        match self {
            Quiet::Quiet => f.write_str("quiet"),
            Quiet::Waits(cause) => write!(f, "waits {cause}"),
        }
    }
}

/// The intention of these words.
fn intent_of(words: &[&[u8]]) -> Option<OwedIntent>
    ensures found { IfSome result (λ o. IsOwedIntent o
        × (codes "intent" ∷ map (λ w. w.now) words.now ≡ intent_words o)) }
    ensures none { IfNone result ((o : OwedIntent) → IsOwedIntent o
        → codes "intent" ∷ map (λ w. w.now) words.now ≡ intent_words o → ⊥) }
{
    let [server, kind, file, child, target] = words else {
        return None;
    };
    let server = number_u32(server)?;
    let kind = read_intent_kind(kind)?;
    let file = read_id(file)?;
    let child = child_of(child)?;
    let target = number_u32(target)?;
    Some(OwedIntent {
        server,
        kind,
        file,
        child,
        target,
    })
}

/// The child that the word names, or none for a dash.
fn child_of(word: &[u8]) -> Option<Option<FileId>>
    ensures found { IfSome result (λ o. IsChild o × (word.now ≡ child_word o)) }
    ensures none { IfNone result ((o : Option FileId) → IsChild o → word.now ≡ child_word o → ⊥) }
{
    if is_same(word, b"-") {
        return Some(None);
    }
    let child = read_id(word)?;
    Some(Some(child))
}

/// The key that is not acknowledged.
fn key_of(words: &[&[u8]]) -> Option<OwedKey>
    ensures found { IfSome result (λ o. IsOwedKey o
        × (codes "cell" ∷ map (λ w. w.now) words.now ≡ key_words o)) }
    ensures none { IfNone result ((o : OwedKey) → IsOwedKey o
        → codes "cell" ∷ map (λ w. w.now) words.now ≡ key_words o → ⊥) }
{
    let [server, file, peer, key] = words else {
        return None;
    };
    let server = number_u32(server)?;
    let file = read_id(file)?;
    let peer = number_u32(peer)?;
    let key = read_key(key)?;
    Some(OwedKey {
        server,
        file,
        peer,
        key,
    })
}

/// A lagging view, of these words.
fn view_of(words: &[&[u8]]) -> Option<Cause>
    ensures found { IfSome result (λ k. IsCause k
        × (codes "view" ∷ map (λ w. w.now) words.now ≡ cause_words k)) }
    ensures none { IfNone result ((k : Cause) → IsCause k
        → codes "view" ∷ map (λ w. w.now) words.now ≡ cause_words k → ⊥) }
{
    let [server, view] = words else {
        return None;
    };
    let server = number_u32(server)?;
    let view = number(view)?;
    Some(Cause::View { server, view })
}

/// A place that is held back, of these words.
fn held_back_of(words: &[&[u8]]) -> Option<Cause>
    ensures found { IfSome result (λ k. IsCause k
        × (codes "place" ∷ map (λ w. w.now) words.now ≡ cause_words k)) }
    ensures none { IfNone result ((k : Cause) → IsCause k
        → codes "place" ∷ map (λ w. w.now) words.now ≡ cause_words k → ⊥) }
{
    let [server, id] = words else {
        return None;
    };
    let server = number_u32(server)?;
    let id = read_id(id)?;
    Some(Cause::Owed(Owing::HeldBack { server, id }))
}

/// What a run waits for.
fn cause_of(words: &[&[u8]]) -> Option<Cause>
    ensures found { IfSome result (λ k. IsCause k × (map (λ w. w.now) words.now ≡ cause_words k)) }
    ensures none { IfNone result ((k : Cause) → IsCause k
        → map (λ w. w.now) words.now ≡ cause_words k → ⊥) }
{
    let (word, rest) = first_word(words)?;
    if is_same(word, b"message") {
        let summary = read_summary(rest)?;
        return Some(Cause::Message(summary));
    }
    if is_same(word, b"view") {
        return view_of(rest);
    }
    if is_same(word, b"intent") {
        let intent = intent_of(rest)?;
        return Some(Cause::Owed(Owing::Intent(intent)));
    }
    if is_same(word, b"cell") {
        let key = key_of(rest)?;
        return Some(Cause::Owed(Owing::Key(key)));
    }
    if is_same(word, b"place") {
        return held_back_of(rest);
    }
    None
}

/// Whether all is done, or what the run waits for.
pub fn read_quiet(words: &[&[u8]]) -> Option<Quiet>
    ensures found { IfSome result (λ q. IsAnswer q × (map (λ w. w.now) words.now ≡ quiet_words q)) }
    ensures none { IfNone result ((q : Quiet) → IsAnswer q
        → map (λ w. w.now) words.now ≡ quiet_words q → ⊥) }
{
    let (word, rest) = first_word(words)?;
    if is_same(word, b"waits") {
        let cause = cause_of(rest)?;
        return Some(Quiet::Waits(cause));
    }
    if is_same(word, b"quiet") && rest.is_empty() {
        return Some(Quiet::Quiet);
    }
    None
}

/// No two answers have the same words.
pub fn one_quiet_spelling()
    ensures { (a b : Quiet) → IsAnswer a → IsAnswer b → quiet_words a ≡ quiet_words b → a ≡ b }
{}
