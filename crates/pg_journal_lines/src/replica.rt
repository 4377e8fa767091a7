//! What servers show, in a journal's lines.

ghost use Rattle.std.specs.Prelude.{◌≡◌, ◌≢◌, ◌++◌, ◌∷◌, List, ℕ, codes, decimal, map, IfOk, IfSome, IfNone};
ghost use Rattle.pg_base.specs.Id.{Fits, spelling};
ghost use Rattle.pg_base.specs.declared.id.Kind.TheVariants as kind;
ghost use Rattle.pg_journal_lines.specs.Reading.{Reads};
ghost use Rattle.pg_journal_lines.specs.declared.verb.Verb.TheVariants as verb;
ghost use Rattle.pg_register.specs.declared.place.Place.{Place};
ghost use Rattle.pg_trace.specs.JournalLine.{IsContents, contents_words};
ghost use Rattle.pg_trace.specs.declared.journal_line.JournalLine.{JournalLine};
ghost use Rattle.pg_trace.specs.declared.replica.ShownContent.{ShownContent};
ghost use Rattle.pg_words.specs.ChoiceWord.{gold_word};
ghost use Rattle.pg_words.specs.PlaceWords.{IsPlace, place_words};

use crate::only::only_id;
use pg_base::{FileId, Kind, NodeId, number, number_u32};
use pg_register::Place;
use pg_trace::{JournalLine, ShownContent, ShownReplica};
use pg_words::{
    first_word, is_same, read_full, read_gold, read_hex_word, read_id, read_place, read_stamps,
};
use std::alloc::{AllocError, Global};

/// The most bytes that are shown of a file.
const MOST_SHOWN: usize = 16;

/// What a file shows.
fn file_contents_of(alloc: Global, words: &[&[u8]]) -> Result<Option<ShownContent>, AllocError>
    ensures found { IfOk result (λ o. IfSome o (λ c. IsContents kind.File c
        × (map (λ w. w.now) words.now ≡ contents_words c))) }
    ensures none { IfOk result (λ o. IfNone o ((c : ShownContent) → IsContents kind.File c
        → map (λ w. w.now) words.now ≡ contents_words c → ⊥)) }
{
    let [named, heads, shown, length, first] = words else {
        return Ok(None);
    };
    if !is_same(named, b"heads") {
        return Ok(None);
    }
    if !is_same(shown, b"shown") {
        return Ok(None);
    }
    let Some(heads) = read_stamps(alloc, heads)? else {
        return Ok(None);
    };
    let Some(length) = number(length) else {
        return Ok(None);
    };
    let Some(first) = read_hex_word(alloc, first, MOST_SHOWN)? else {
        return Ok(None);
    };
    Ok(Some(ShownContent::File {
        heads,
        length,
        first,
    }))
}

/// How many names a directory shows.
fn dir_contents_of(words: &[&[u8]]) -> Option<ShownContent>
    ensures found { IfSome result (λ c. IsContents kind.Dir c
        × (map (λ w. w.now) words.now ≡ contents_words c)) }
    ensures none { IfNone result ((c : ShownContent) → IsContents kind.Dir c
        → map (λ w. w.now) words.now ≡ contents_words c → ⊥) }
{
    let [named, count] = words else {
        return None;
    };
    if !is_same(named, b"lists") {
        return None;
    }
    Some(ShownContent::Dir(number(count)?))
}

/// What a file or a directory shows.
fn contents_of(
    alloc: Global,
    kind: Kind,
    words: &[&[u8]],
) -> Result<Option<ShownContent>, AllocError>
    ensures found { IfOk result (λ o. IfSome o (λ c. IsContents kind c
        × (map (λ w. w.now) words.now ≡ contents_words c))) }
    ensures none { IfOk result (λ o. IfNone o ((c : ShownContent) → IsContents kind c
        → map (λ w. w.now) words.now ≡ contents_words c → ⊥)) }
{
    match kind {
        Kind::File => file_contents_of(alloc, words),
        Kind::Dir => Ok(dir_contents_of(words)),
    }
}

/// A place, and the words behind it.
fn place_of<'a, 'b>(
    alloc: Global,
    words: &'b [&'a [u8]],
) -> Result<Option<(Place, &'b [&'a [u8]])>, AllocError>
    ensures found { IfOk result (λ o. IfSome o (λ x. IsPlace x.0 × (map (λ w. w.now) words.now
        ≡ codes "place" ∷ (place_words x.0 ++ map (λ w. w.now) x.1.now)))) }
    ensures none { IfOk result (λ o. IfNone o ((p : Place) (rest : List (List ℕ)) → IsPlace p
        → map (λ w. w.now) words.now ≡ codes "place" ∷ (place_words p ++ rest) → ⊥)) }
{
    let Some((named, words)) = first_word(words) else {
        return Ok(None);
    };
    if !is_same(named, b"place") {
        return Ok(None);
    }
    let Some((stamp, words)) = first_word(words) else {
        return Ok(None);
    };
    let Some((parent, words)) = first_word(words) else {
        return Ok(None);
    };
    let Some((name, words)) = first_word(words) else {
        return Ok(None);
    };
    let Some((life, rest)) = first_word(words) else {
        return Ok(None);
    };
    match read_place(alloc, stamp, parent, name, life)? {
        Some(place) => Ok(Some((place, rest))),
        None => Ok(None),
    }
}

/// The replica that the server holds, from the words behind the one for its gold flag.
fn replica_of(
    alloc: Global,
    server: NodeId,
    id: FileId,
    gold: bool,
    words: &[&[u8]],
) -> Result<Option<JournalLine>, AllocError>
    requires { Fits id }
    ensures found { IfOk result (λ o. IfSome o (Reads verb.At
        (decimal server ∷ spelling id ∷ gold_word gold ∷ map (λ w. w.now) words.now))) }
    ensures none { IfOk result (λ o. IfNone o ((p : JournalLine) → Reads verb.At
        (decimal server ∷ spelling id ∷ gold_word gold ∷ map (λ w. w.now) words.now) p → ⊥)) }
{
    let Some((full, words)) = first_word(words) else {
        return Ok(None);
    };
    let Some(full) = read_full(full) else {
        return Ok(None);
    };
    let Some((place, words)) = place_of(alloc, words)? else {
        return Ok(None);
    };
    let Some(contents) = contents_of(alloc, id.kind, words)? else {
        return Ok(None);
    };
    Ok(Some(JournalLine::Replica(ShownReplica {
        server,
        id,
        gold,
        full,
        place,
        contents,
    })))
}

/// What the server shows of the file or directory, from the words behind its id.
fn shown_of(
    alloc: Global,
    server: NodeId,
    id: FileId,
    words: &[&[u8]],
) -> Result<Option<JournalLine>, AllocError>
    requires { Fits id }
    ensures found { IfOk result (λ o. IfSome o (Reads verb.At
        (decimal server ∷ spelling id ∷ map (λ w. w.now) words.now))) }
    ensures none { IfOk result (λ o. IfNone o ((p : JournalLine) → Reads verb.At
        (decimal server ∷ spelling id ∷ map (λ w. w.now) words.now) p → ⊥)) }
{
    let Some((word, rest)) = first_word(words) else {
        return Ok(None);
    };
    let Some(gold) = read_gold(word) else {
        return Ok(None);
    };
    replica_of(alloc, server, id, gold, rest)
}

/// What no server holds, from the words behind the dash.
fn nowhere_of(words: &[&[u8]]) -> Option<JournalLine>
    ensures found { IfSome result (Reads verb.At (codes "-" ∷ map (λ w. w.now) words.now)) }
    ensures none { IfNone result ((p : JournalLine)
        → Reads verb.At (codes "-" ∷ map (λ w. w.now) words.now) p → ⊥) }
{
    let Some(id) = only_id(words) else {
        return None;
    };
    Some(JournalLine::Nowhere(id))
}

/// What a server shows, from the words behind the one for the server, which is no dash.
fn held_of(alloc: Global, server: &[u8], words: &[&[u8]]) -> Result<Option<JournalLine>, AllocError>
    requires { server.now ≢ codes "-" }
    ensures found { IfOk result (λ o. IfSome o (Reads verb.At
        (server.now ∷ map (λ w. w.now) words.now))) }
    ensures none { IfOk result (λ o. IfNone o ((p : JournalLine) → Reads verb.At
        (server.now ∷ map (λ w. w.now) words.now) p → ⊥)) }
{
    let Some(server) = number_u32(server) else {
        return Ok(None);
    };
    let Some((word, rest)) = first_word(words) else {
        return Ok(None);
    };
    match read_id(word) {
        Some(id) => shown_of(alloc, server, id, rest),
        None => Ok(None),
    }
}

/// What a server shows or no server holds, from the words behind `at`.
pub(crate) fn at_of(alloc: Global, words: &[&[u8]]) -> Result<Option<JournalLine>, AllocError>
    ensures found { IfOk result (λ o. IfSome o (Reads verb.At (map (λ w. w.now) words.now))) }
    ensures none { IfOk result (λ o. IfNone o ((p : JournalLine)
        → Reads verb.At (map (λ w. w.now) words.now) p → ⊥)) }
{
    let Some((word, rest)) = first_word(words) else {
        return Ok(None);
    };
    if is_same(word, b"-") {
        Ok(nowhere_of(rest))
    } else {
        held_of(alloc, word, rest)
    }
}
