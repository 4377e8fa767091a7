//! Replies, from words.

ghost use Rattle.std.specs.Prelude.{◌≡◌, ◌≢◌, ◌≤◌, ◌<◌, ◌^◌, ◌∷◌, ◌++◌, [], ℕ, List, All, IfOk, IfSome, IfNone, codes, decimal, length, map};
ghost use Rattle.std.specs.List.{AllByRecursion};
ghost use Rattle.pg_call.specs.Call.{IsPayload};
ghost use Rattle.pg_call.specs.Reply.{IsCounts, IsReply, IsRow, IsStat, counts_words, reply_words, row_word, stat_words};
ghost use Rattle.pg_journal_lines.specs.Told.{IsTold, head_word, tally_words};
ghost use Rattle.pg_call.specs.declared.reply.Counts.{Counts};
ghost use Rattle.pg_call.specs.declared.reply.Reply.{Reply};
ghost use Rattle.pg_call.specs.declared.reply.ReplyKind.{ReplyKind};
ghost use Rattle.pg_call.specs.declared.reply.ReplyKind.TheVariants as kind;
ghost use Rattle.pg_path.specs.declared.row.Row.{Row};
ghost use Rattle.pg_words.specs.HexWord.{hex_word};

use crate::only::{only_id, only_server, only_stamp, only_word};
use crate::refusal::refused_of;
use pg_base::{Items, Shared, SharedBytes, number, number_u32};
use pg_call::{Counts, MOST_BYTES, Reply, ReplyKind, Stat};
use pg_path::{Row, is_component};
use pg_words::{first_word, is_same, read_gold, read_hex_word, read_id, read_place};
use std::alloc::{AllocError, Global};

/// The most names that one reply has.
const MOST_NAMES: usize = 100;

/// All kinds of replies.
const KINDS: [ReplyKind; 9] = [
    ReplyKind::Done,
    ReplyKind::Made,
    ReplyKind::Wrote,
    ReplyKind::Bytes,
    ReplyKind::Names,
    ReplyKind::Stat,
    ReplyKind::Leaving,
    ReplyKind::Status,
    ReplyKind::Refused,
];

/// The word that replies of the kind begin with.
fn first_word_of(kind: ReplyKind) -> &'static str
    ensures { result.now ≡ head_word kind }
{
    match kind {
        ReplyKind::Done => "done",
        ReplyKind::Made => "made",
        ReplyKind::Wrote => "wrote",
        ReplyKind::Bytes => "bytes",
        ReplyKind::Names => "names",
        ReplyKind::Stat => "stat",
        ReplyKind::Leaving => "leaving",
        ReplyKind::Status => "status",
        ReplyKind::Refused => "refused",
    }
}

/// The kind of the replies that begin with the word.
fn read_kind(word: &[u8]) -> Option<ReplyKind>
    ensures found { IfSome result (λ k. word.now ≡ head_word k) }
    ensures none { IfNone result ((k : ReplyKind) → word.now ≢ head_word k) }
{
    KINDS
        .iter()
        .copied()
        .find(|kind| first_word_of(*kind).as_bytes() == word)
}

/// What stands before and after the last such byte.
fn cut_at_last(text: &[u8], byte: u8) -> Option<(&[u8], &[u8])>
    ensures whole { IfSome result (λ x. text.now ≡ x.0.now ++ byte ∷ x.1.now) }
    ensures last { IfSome result (λ x. All (λ b. b ≢ byte) x.1.now) }
    ensures none { IfNone result (All (λ b. b ≢ byte) text.now) }
{
    let at = text.iter().rposition(|b| *b == byte)?;
    Some((&text[..at], &text[at + 1..]))
}

/// The row that the word spells.
fn row_of(alloc: Global, word: &[u8]) -> Result<Option<Row>, AllocError>
    ensures found { IfOk result (λ o. IfSome o (λ r. IsRow r × (word.now ≡ row_word r))) }
    ensures none { IfOk result (λ o. IfNone o ((r : Row) → IsRow r → word.now ≡ row_word r → ⊥)) }
{
    let Some((name, child)) = cut_at_last(word, b'=') else {
        return Ok(None);
    };
    let Some(child) = read_id(child) else {
        return Ok(None);
    };
    if !is_component(name) {
        return Ok(None);
    }
    Ok(Some(Row {
        name: SharedBytes::from_slice(alloc, name)?,
        child,
    }))
}

/// The rows that the words spell, at most 100.
fn rows_of(alloc: Global, words: &[&[u8]]) -> Result<Option<Items<Row>>, AllocError>
    ensures found { IfOk result (λ o. IfSome o (λ v. AllByRecursion IsRow v × (length v ≤ 100)
        × (map (λ w. w.now) words.now ≡ map row_word v))) }
    ensures none { IfOk result (λ o. IfNone o ((v : List Row) → AllByRecursion IsRow v
        → length v ≤ 100 → map (λ w. w.now) words.now ≡ map row_word v → ⊥)) }
{
    if words.len() > MOST_NAMES {
        return Ok(None);
    }
    let mut rows = Items::new(alloc);
    for word in words {
        let Some(row) = row_of(alloc, word)? else {
            return Ok(None);
        };
        rows.push(row)?;
    }
    Ok(Some(rows))
}

/// The names, of the words behind `names`.
fn names_of(alloc: Global, words: &[&[u8]]) -> Result<Option<Reply>, AllocError>
    ensures found { IfOk result (λ o. IfSome o (λ r. IsReply r
        × (codes "names" ∷ map (λ w. w.now) words.now ≡ reply_words r))) }
    ensures none { IfOk result (λ o. IfNone o (IsTold kind.Names (map (λ w. w.now) words.now)
        → ⊥)) }
{
    let Some((total, rest)) = first_word(words) else {
        return Ok(None);
    };
    let Some(total) = number_u32(total) else {
        return Ok(None);
    };
    let Some(rows) = rows_of(alloc, rest)? else {
        return Ok(None);
    };
    Ok(Some(Reply::Names { total, rows }))
}

/// The bytes, of the words behind `bytes`.
fn bytes_of(alloc: Global, words: &[&[u8]]) -> Result<Option<SharedBytes>, AllocError>
    ensures found { IfOk result (λ o. IfSome o (λ b. IsPayload b
        × (map (λ w. w.now) words.now ≡ hex_word b ∷ []))) }
    ensures none { IfOk result (λ o. IfNone o (IsTold kind.Bytes (map (λ w. w.now) words.now)
        → ⊥)) }
{
    let Some(word) = only_word(words) else {
        return Ok(None);
    };
    let found = read_hex_word(alloc, word, MOST_BYTES)?;
    Ok(found)
}

/// The number behind this name in front of the words, and the words behind it.
fn named_number<'a, 'b>(words: &'b [&'a [u8]], name: &[u8]) -> Option<(u64, &'b [&'a [u8]])>
    ensures found { IfSome result (λ x. map (λ w. w.now) words.now
        ≡ name.now ∷ decimal x.0 ∷ map (λ w. w.now) x.1.now) }
    ensures none { IfNone result ((n : ℕ) (rest : List (List ℕ)) → n < 2 ^ 64
        → map (λ w. w.now) words.now ≡ name.now ∷ decimal n ∷ rest → ⊥) }
{
    let (first, more) = first_word(words)?;
    if !is_same(first, name) {
        return None;
    }
    let (second, rest) = first_word(more)?;
    Some((number(second)?, rest))
}

/// What a server holds, of the words behind `status`.
fn counts_of(words: &[&[u8]]) -> Option<Counts>
    ensures found { IfSome result (λ c. IsCounts c
        × (codes "status" ∷ map (λ w. w.now) words.now ≡ counts_words c)) }
    ensures none { IfNone result (IsTold kind.Status (map (λ w. w.now) words.now) → ⊥) }
{
    let (view, words) = named_number(words, b"view")?;
    let (last, words) = named_number(words, b"last")?;
    let (replicas, words) = named_number(words, b"replicas")?;
    let (intents, words) = named_number(words, b"intents")?;
    let (cells, words) = named_number(words, b"cells")?;
    let (held, words) = named_number(words, b"held")?;
    if !words.is_empty() {
        return None;
    }
    Some(Counts {
        view,
        last,
        replicas,
        intents,
        cells,
        held,
    })
}

/// The numbers of golds, heads, bytes and edges.
fn tallies_of(words: &[&[u8]]) -> Option<(u64, u64, u64, u64)>
    ensures found { IfSome result (λ x. map (λ w. w.now) words.now
        ≡ tally_words x.0 x.1 x.2 x.3) }
    ensures none { IfNone result ((g h l e : ℕ) → g < 2 ^ 64 → h < 2 ^ 64 → l < 2 ^ 64
        → e < 2 ^ 64 → map (λ w. w.now) words.now ≡ tally_words g h l e → ⊥) }
{
    let (golds, words) = named_number(words, b"golds")?;
    let (heads, words) = named_number(words, b"heads")?;
    let (length, words) = named_number(words, b"length")?;
    let (edges, words) = named_number(words, b"edges")?;
    if !words.is_empty() {
        return None;
    }
    Some((golds, heads, length, edges))
}

/// What a server tells of a replica, of the words behind `stat`.
fn stat_of(alloc: Global, words: &[&[u8]]) -> Result<Option<Stat>, AllocError>
    ensures found { IfOk result (λ o. IfSome o (λ s. IsStat s
        × (codes "stat" ∷ map (λ w. w.now) words.now ≡ stat_words s))) }
    ensures none { IfOk result (λ o. IfNone o (IsTold kind.Stat (map (λ w. w.now) words.now)
        → ⊥)) }
{
    let [id, stamp, parent, name, life, gold, rest @ ..] = words else {
        return Ok(None);
    };
    let Some(id) = read_id(id) else {
        return Ok(None);
    };
    let Some(place) = read_place(alloc, stamp, parent, name, life)? else {
        return Ok(None);
    };
    let Some(gold) = read_gold(gold) else {
        return Ok(None);
    };
    let Some((golds, heads, length, edges)) = tallies_of(rest) else {
        return Ok(None);
    };
    Ok(Some(Stat {
        id,
        place,
        gold,
        golds,
        heads,
        length,
        edges,
    }))
}

/// The reply of a stat, from its words.
fn told_stat(alloc: Global, words: &[&[u8]]) -> Result<Option<Reply>, AllocError>
    ensures found { IfOk result (λ o. IfSome o (λ r. IsReply r
        × (codes "stat" ∷ map (λ w. w.now) words.now ≡ reply_words r))) }
    ensures none { IfOk result (λ o. IfNone o (IsTold kind.Stat (map (λ w. w.now) words.now)
        → ⊥)) }
{
    let Some(stat) = stat_of(alloc, words)? else {
        return Ok(None);
    };
    Ok(Some(Reply::Stat(Shared::new(alloc, stat)?)))
}

/// What a server holds, of the words behind `status`, as a reply.
fn told_counts(alloc: Global, words: &[&[u8]]) -> Result<Option<Reply>, AllocError>
    ensures found { IfOk result (λ o. IfSome o (λ r. IsReply r
        × (codes "status" ∷ map (λ w. w.now) words.now ≡ reply_words r))) }
    ensures none { IfOk result (λ o. IfNone o (IsTold kind.Status (map (λ w. w.now) words.now)
        → ⊥)) }
{
    let Some(counts) = counts_of(words) else {
        return Ok(None);
    };
    Ok(Some(Reply::Status(Shared::new(alloc, counts)?)))
}

/// The reply of this kind with these words behind its first.
fn reply_of(alloc: Global, kind: ReplyKind, words: &[&[u8]]) -> Result<Option<Reply>, AllocError>
    ensures found { IfOk result (λ o. IfSome o (λ r. IsReply r
        × (head_word kind ∷ map (λ w. w.now) words.now ≡ reply_words r))) }
    ensures none { IfOk result (λ o. IfNone o (IsTold kind (map (λ w. w.now) words.now) → ⊥)) }
{
    match kind {
        ReplyKind::Done if words.is_empty() => Ok(Some(Reply::Done)),
        ReplyKind::Done => Ok(None),
        ReplyKind::Made => Ok(only_id(words).map(Reply::Made)),
        ReplyKind::Wrote => Ok(only_stamp(words).map(Reply::Wrote)),
        ReplyKind::Bytes => Ok(bytes_of(alloc, words)?.map(Reply::Bytes)),
        ReplyKind::Names => names_of(alloc, words),
        ReplyKind::Stat => told_stat(alloc, words),
        ReplyKind::Leaving => Ok(only_server(words).map(Reply::Leaving)),
        ReplyKind::Status => told_counts(alloc, words),
        ReplyKind::Refused => Ok(refused_of(words).map(Reply::Refused)),
    }
}

/// The reply that the words spell.
pub fn read_reply(alloc: Global, words: &[&[u8]]) -> Result<Option<Reply>, AllocError>
    ensures found { IfOk result (λ o. IfSome o (λ r. IsReply r
        × (map (λ w. w.now) words.now ≡ reply_words r))) }
    ensures none { IfOk result (λ o. IfNone o ((r : Reply) → IsReply r
        → map (λ w. w.now) words.now ≡ reply_words r → ⊥)) }
{
    let Some((word, rest)) = first_word(words) else {
        return Ok(None);
    };
    let Some(kind) = read_kind(word) else {
        return Ok(None);
    };
    reply_of(alloc, kind, rest)
}

/// No two replies have the same words.
pub fn one_reply_spelling()
    ensures { (a b : Reply) → IsReply a → IsReply b → reply_words a ≡ reply_words b → a ≡ b }
{}
