//! Refusals, from words.

ghost use Rattle.std.specs.Prelude.{◌≡◌, ◌↔◌, ◌∷◌, [], codes, decimal, map, IfSome, IfNone, IsTrue};
ghost use Rattle.pg_call.specs.Refusal.{IsRefusal, refusal_words, unsettled_word};
ghost use Rattle.pg_call.specs.pg_intent.Kind.{intent_word};
ghost use Rattle.pg_call.specs.pg_intent.declared.kind.IntentKind.{IntentKind};
ghost use Rattle.pg_call.specs.declared.refusal.Refusal.{Refusal};
ghost use Rattle.pg_call.specs.declared.refusal.Unsettled.{Unsettled};
ghost use Rattle.pg_journal_lines.specs.Reason.{AreValues, IsComponentNumber, reason_name, reason_number, reason_of, value_words};
ghost use Rattle.pg_call.specs.declared.refusal.RefusalKind.{RefusalKind};
ghost use Rattle.pg_call.specs.declared.refusal.RefusalKind.TheVariants as reason;

use crate::only::{only_id, only_number, only_stamp, only_word};
use pg_base::number_u32;
use pg_call::{Refusal, RefusalKind, Unsettled, read_intent_kind};
use pg_words::{first_word, is_same, read_id};

/// All kinds of refusals.
const REASONS: [RefusalKind; 20] = [
    RefusalKind::BadPath,
    RefusalKind::ClockEnd,
    RefusalKind::NotYet,
    RefusalKind::NoName,
    RefusalKind::NotDir,
    RefusalKind::IsDir,
    RefusalKind::Root,
    RefusalKind::Exists,
    RefusalKind::DirFull,
    RefusalKind::NotEmpty,
    RefusalKind::Loop,
    RefusalKind::TooLong,
    RefusalKind::Behind,
    RefusalKind::IsGold,
    RefusalKind::LastGold,
    RefusalKind::HasChild,
    RefusalKind::Unsettled,
    RefusalKind::Held,
    RefusalKind::WrongView,
    RefusalKind::ManyActors,
];

/// The number of the kind.
fn number_of(kind: RefusalKind) -> &'static str
    ensures { result.now ≡ reason_number kind }
{
    match kind {
        RefusalKind::BadPath => "1",
        RefusalKind::ClockEnd => "2",
        RefusalKind::NotYet => "3",
        RefusalKind::NoName => "4",
        RefusalKind::NotDir => "5",
        RefusalKind::IsDir => "6",
        RefusalKind::Root => "7",
        RefusalKind::Exists => "8",
        RefusalKind::DirFull => "9",
        RefusalKind::NotEmpty => "10",
        RefusalKind::Loop => "11",
        RefusalKind::TooLong => "12",
        RefusalKind::Behind => "13",
        RefusalKind::IsGold => "14",
        RefusalKind::LastGold => "15",
        RefusalKind::HasChild => "16",
        RefusalKind::Unsettled => "17",
        RefusalKind::Held => "18",
        RefusalKind::WrongView => "19",
        RefusalKind::ManyActors => "20",
    }
}

/// The name of the kind.
fn name_of(kind: RefusalKind) -> &'static str
    ensures { result.now ≡ reason_name kind }
{
    match kind {
        RefusalKind::BadPath => "BadPath",
        RefusalKind::ClockEnd => "ClockEnd",
        RefusalKind::NotYet => "NotYet",
        RefusalKind::NoName => "NoName",
        RefusalKind::NotDir => "NotDir",
        RefusalKind::IsDir => "IsDir",
        RefusalKind::Root => "Root",
        RefusalKind::Exists => "Exists",
        RefusalKind::DirFull => "DirFull",
        RefusalKind::NotEmpty => "NotEmpty",
        RefusalKind::Loop => "Loop",
        RefusalKind::TooLong => "TooLong",
        RefusalKind::Behind => "Behind",
        RefusalKind::IsGold => "IsGold",
        RefusalKind::LastGold => "LastGold",
        RefusalKind::HasChild => "HasChild",
        RefusalKind::Unsettled => "Unsettled",
        RefusalKind::Held => "Held",
        RefusalKind::WrongView => "WrongView",
        RefusalKind::ManyActors => "ManyActors",
    }
}

/// Whether the kind has this number and this name.
fn is_reason(kind: RefusalKind, number: &[u8], name: &[u8]) -> bool
    ensures { IsTrue result ↔ ((number.now ≡ reason_number kind) × (name.now ≡ reason_name kind)) }
{
    number_of(kind).as_bytes() == number && name_of(kind).as_bytes() == name
}

/// The kind of refusals that has this number and this name.
fn read_reason(number: &[u8], name: &[u8]) -> Option<RefusalKind>
    ensures found { IfSome result (λ k. (number.now ≡ reason_number k)
        × (name.now ≡ reason_name k)) }
    ensures none { IfNone result ((k : RefusalKind) → number.now ≡ reason_number k
        → name.now ≡ reason_name k → ⊥) }
{
    REASONS
        .iter()
        .copied()
        .find(|kind| is_reason(*kind, number, name))
}

/// What the word names that is not settled.
fn read_unsettled(word: &[u8]) -> Option<Unsettled>
    ensures found { IfSome result (λ u. word.now ≡ unsettled_word u) }
    ensures none { IfNone result ((u : Unsettled) → word.now ≡ unsettled_word u → ⊥) }
{
    if is_same(word, b"Cell") {
        return Some(Unsettled::Cell);
    }
    Some(Unsettled::Intent(read_intent_kind(word)?))
}

/// The number of a component that the words spell.
fn component_of(words: &[&[u8]]) -> Option<u8>
    ensures found { IfSome result (λ n. map (λ w. w.now) words.now ≡ decimal n ∷ []) }
    ensures none { IfNone result (IsComponentNumber (map (λ w. w.now) words.now) → ⊥) }
{
    let n = number_u32(only_word(words)?)?;
    if n > 255 {
        return None;
    }
    Some(n as u8)
}

/// What is not settled, of the words behind its name.
fn unsettled_of(words: &[&[u8]]) -> Option<Refusal>
    ensures found { IfSome result (λ r. IsRefusal r × (reason_of r ≡ reason.Unsettled)
        × (map (λ w. w.now) words.now ≡ value_words r)) }
    ensures none { IfNone result (AreValues reason.Unsettled (map (λ w. w.now) words.now) → ⊥) }
{
    let [what, id, peer] = words else {
        return None;
    };
    Some(Refusal::Unsettled {
        what: read_unsettled(what)?,
        id: read_id(id)?,
        peer: number_u32(peer)?,
    })
}

/// The refusal, where no word stands behind its name.
fn alone(words: &[&[u8]], refusal: Refusal) -> Option<Refusal>
    ensures found { IfSome result (λ r. (r ≡ refusal) × (map (λ w. w.now) words.now ≡ [])) }
    ensures none { IfNone result (map (λ w. w.now) words.now ≡ [] → ⊥) }
{
    if words.is_empty() {
        Some(refusal)
    } else {
        None
    }
}

/// The refusal for this reason with these words for its values.
fn refusal_of(reason: RefusalKind, words: &[&[u8]]) -> Option<Refusal>
    ensures found { IfSome result (λ r. IsRefusal r × (reason_of r ≡ reason)
        × (map (λ w. w.now) words.now ≡ value_words r)) }
    ensures none { IfNone result (AreValues reason (map (λ w. w.now) words.now) → ⊥) }
{
    let refusal = match reason {
        RefusalKind::BadPath => Refusal::BadPath(component_of(words)?),
        RefusalKind::ClockEnd => alone(words, Refusal::ClockEnd)?,
        RefusalKind::NotYet => Refusal::NotYet(only_id(words)?),
        RefusalKind::NoName => Refusal::NoName(component_of(words)?),
        RefusalKind::NotDir => Refusal::NotDir(component_of(words)?),
        RefusalKind::IsDir => alone(words, Refusal::IsDir)?,
        RefusalKind::Root => alone(words, Refusal::Root)?,
        RefusalKind::Exists => Refusal::Exists(only_id(words)?),
        RefusalKind::DirFull => alone(words, Refusal::DirFull)?,
        RefusalKind::NotEmpty => Refusal::NotEmpty(only_id(words)?),
        RefusalKind::Loop => alone(words, Refusal::Loop)?,
        RefusalKind::TooLong => alone(words, Refusal::TooLong)?,
        RefusalKind::Behind => Refusal::Behind(only_stamp(words)?),
        RefusalKind::IsGold => alone(words, Refusal::IsGold)?,
        RefusalKind::LastGold => alone(words, Refusal::LastGold)?,
        RefusalKind::HasChild => Refusal::HasChild(only_id(words)?),
        RefusalKind::Unsettled => unsettled_of(words)?,
        RefusalKind::Held => alone(words, Refusal::Held)?,
        RefusalKind::WrongView => Refusal::WrongView(only_number(words)?),
        RefusalKind::ManyActors => alone(words, Refusal::ManyActors)?,
    };
    Some(refusal)
}

/// The refusal, of the words behind `refused`.
pub(crate) fn refused_of(words: &[&[u8]]) -> Option<Refusal>
    ensures found { IfSome result (λ r. IsRefusal r
        × (codes "refused" ∷ map (λ w. w.now) words.now ≡ refusal_words r)) }
    ensures none { IfNone result ((r : Refusal) → IsRefusal r
        → codes "refused" ∷ map (λ w. w.now) words.now ≡ refusal_words r → ⊥) }
{
    let [number, name, rest @ ..] = words else {
        return None;
    };
    let Some(reason) = read_reason(number, name) else {
        return None;
    };
    refusal_of(reason, rest)
}

/// The refusal that the words spell.
pub fn read_refusal(words: &[&[u8]]) -> Option<Refusal>
    ensures found { IfSome result (λ r. IsRefusal r
        × (map (λ w. w.now) words.now ≡ refusal_words r)) }
    ensures none { IfNone result ((r : Refusal) → IsRefusal r
        → map (λ w. w.now) words.now ≡ refusal_words r → ⊥) }
{
    let (head, rest) = first_word(words)?;
    if !is_same(head, b"refused") {
        return None;
    }
    refused_of(rest)
}

/// No two kinds of intentions have one word.
pub fn one_intent_spelling()
    ensures { (a b : IntentKind) → intent_word a ≡ intent_word b → a ≡ b }
{}

/// No two refusals have the same words.
pub fn one_refusal_spelling()
    ensures { (a b : Refusal) → IsRefusal a → IsRefusal b
        → refusal_words a ≡ refusal_words b → a ≡ b }
{}
