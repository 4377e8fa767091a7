//! Calls, from words.

ghost use Rattle.std.specs.Prelude.{◌≡◌, ◌∷◌, [], List, ℕ, IfOk, IfErr, IfSome, IfNone, IsTrue, ◌↔◌, codes, length, map};
ghost use Rattle.pg_call.specs.Call.{IsCall, call_words, kind_word};
ghost use Rattle.pg_call.specs.Fields.{AreCounted, IsBadWord, call_fields};
ghost use Rattle.pg_call.specs.declared.call.Call.{Call};
ghost use Rattle.pg_call.specs.declared.call.CallKind.TheVariants as kind;
ghost use Rattle.pg_call.specs.declared.error.WordsError.TheVariants.{Bad};
ghost use Rattle.pg_call.specs.declared.fault.Fault.{Fault};

use crate::call::{Call, CallKind};
use crate::error::WordsError;
use crate::field::{
    count_of, have_bytes, id_of, parse_u32, parse_u64, path_of, payload_of, policy_of, target_of,
};
use pg_words::first_word;
use std::alloc::{AllocError, Global};

/// Whether the words behind a call's own are as many as it wants, and none is empty.
fn are_counted(kind: CallKind, words: &[&[u8]]) -> bool
    ensures { IsTrue result ↔ AreCounted (call_fields kind) (map (λ w. w.now) words.now) }
{
    words.len() == kind.count() && have_bytes(words)
}

/// A new file, of the words behind `create`.
fn create_of(alloc: Global, path: &[u8], policy: &[u8]) -> Result<Call, WordsError>
    ensures found { IfOk result (λ c. IsCall c
        × (codes "create" ∷ path.now ∷ policy.now ∷ [] ≡ call_words c)) }
    ensures bad { IfErr result (λ e. (f : Fault) → e ≡ Bad f
        → IsBadWord (call_fields kind.Create) (path.now ∷ policy.now ∷ []) f) }
{
    let path = path_of(alloc, path)?;
    let policy = policy_of(policy)?;
    Ok(Call::Create { path, policy })
}

/// A write, of the words behind `write`.
fn write_of(alloc: Global, path: &[u8], offset: &[u8], bytes: &[u8]) -> Result<Call, WordsError>
    ensures found { IfOk result (λ c. IsCall c
        × (codes "write" ∷ path.now ∷ offset.now ∷ bytes.now ∷ [] ≡ call_words c)) }
    ensures bad { IfErr result (λ e. (f : Fault) → e ≡ Bad f
        → IsBadWord (call_fields kind.Write) (path.now ∷ offset.now ∷ bytes.now ∷ []) f) }
{
    let path = path_of(alloc, path)?;
    let offset = parse_u32(offset)?;
    let bytes = payload_of(alloc, bytes)?;
    Ok(Call::Write {
        path,
        offset,
        bytes,
    })
}

/// A cut, of the words behind `cut`.
fn cut_of(alloc: Global, path: &[u8], length: &[u8]) -> Result<Call, WordsError>
    ensures found { IfOk result (λ c. IsCall c
        × (codes "cut" ∷ path.now ∷ length.now ∷ [] ≡ call_words c)) }
    ensures bad { IfErr result (λ e. (f : Fault) → e ≡ Bad f
        → IsBadWord (call_fields kind.Cut) (path.now ∷ length.now ∷ []) f) }
{
    let path = path_of(alloc, path)?;
    let length = parse_u32(length)?;
    Ok(Call::Cut { path, length })
}

/// A read, of the words behind `read`.
fn read_of(alloc: Global, path: &[u8], offset: &[u8], count: &[u8]) -> Result<Call, WordsError>
    ensures found { IfOk result (λ c. IsCall c
        × (codes "read" ∷ path.now ∷ offset.now ∷ count.now ∷ [] ≡ call_words c)) }
    ensures bad { IfErr result (λ e. (f : Fault) → e ≡ Bad f
        → IsBadWord (call_fields kind.Read) (path.now ∷ offset.now ∷ count.now ∷ []) f) }
{
    let path = path_of(alloc, path)?;
    let offset = parse_u32(offset)?;
    let count = count_of(count)?;
    Ok(Call::Read {
        path,
        offset,
        count,
    })
}

/// The names in a directory, of the words behind `ls`.
fn ls_of(alloc: Global, path: &[u8], from: &[u8]) -> Result<Call, WordsError>
    ensures found { IfOk result (λ c. IsCall c
        × (codes "ls" ∷ path.now ∷ from.now ∷ [] ≡ call_words c)) }
    ensures bad { IfErr result (λ e. (f : Fault) → e ≡ Bad f
        → IsBadWord (call_fields kind.Ls) (path.now ∷ from.now ∷ []) f) }
{
    let path = path_of(alloc, path)?;
    let from = parse_u32(from)?;
    Ok(Call::Ls { path, from })
}

/// A new place, of the words behind `rename`.
fn rename_of(alloc: Global, from: &[u8], to: &[u8]) -> Result<Call, WordsError>
    ensures found { IfOk result (λ c. IsCall c
        × (codes "rename" ∷ from.now ∷ to.now ∷ [] ≡ call_words c)) }
    ensures bad { IfErr result (λ e. (f : Fault) → e ≡ Bad f
        → IsBadWord (call_fields kind.Rename) (from.now ∷ to.now ∷ []) f) }
{
    let from = path_of(alloc, from)?;
    let to = path_of(alloc, to)?;
    Ok(Call::Rename { from, to })
}

/// A removal, of the words behind `giveup`.
fn giveup_of(view: &[u8], server: &[u8]) -> Result<Call, WordsError>
    ensures found { IfOk result (λ c. IsCall c
        × (codes "giveup" ∷ view.now ∷ server.now ∷ [] ≡ call_words c)) }
    ensures bad { IfErr result (λ e. (f : Fault) → e ≡ Bad f
        → IsBadWord (call_fields kind.Giveup) (view.now ∷ server.now ∷ []) f) }
{
    let view = parse_u64(view)?;
    let server = parse_u32(server)?;
    Ok(Call::Giveup { view, server })
}

/// A call with one word behind its own.
fn parse_one_word(alloc: Global, kind: CallKind, word: &[u8]) -> Result<Call, WordsError>
    requires { length (call_fields kind) ≡ 1 }
    ensures found { IfOk result (λ c. IsCall c × (kind_word kind ∷ word.now ∷ [] ≡ call_words c)) }
    ensures bad { IfErr result (λ e. (f : Fault) → e ≡ Bad f
        → IsBadWord (call_fields kind) (word.now ∷ []) f) }
{
    Ok(match kind {
        CallKind::Mkdir => Call::Mkdir {
            path: path_of(alloc, word)?,
        },
        CallKind::Fresh => Call::Fresh {
            path: path_of(alloc, word)?,
        },
        CallKind::Unlink => Call::Unlink {
            path: path_of(alloc, word)?,
        },
        CallKind::Rmdir => Call::Rmdir {
            path: path_of(alloc, word)?,
        },
        CallKind::Stat => Call::Stat {
            target: target_of(alloc, word)?,
        },
        CallKind::Demote => Call::Demote {
            target: target_of(alloc, word)?,
        },
        CallKind::Drop => Call::Drop {
            target: target_of(alloc, word)?,
        },
        CallKind::Forget => Call::Forget { id: id_of(word)? },
        _ => unreachable!(),
    })
}

/// A call with two words behind its own.
fn two_of(alloc: Global, kind: CallKind, first: &[u8], second: &[u8]) -> Result<Call, WordsError>
    requires { length (call_fields kind) ≡ 2 }
    ensures found { IfOk result (λ c. IsCall c
        × (kind_word kind ∷ first.now ∷ second.now ∷ [] ≡ call_words c)) }
    ensures bad { IfErr result (λ e. (f : Fault) → e ≡ Bad f
        → IsBadWord (call_fields kind) (first.now ∷ second.now ∷ []) f) }
{
    match kind {
        CallKind::Create => create_of(alloc, first, second),
        CallKind::Cut => cut_of(alloc, first, second),
        CallKind::Ls => ls_of(alloc, first, second),
        CallKind::Rename => rename_of(alloc, first, second),
        CallKind::Giveup => giveup_of(first, second),
        _ => unreachable!(),
    }
}

/// The call of this kind with these words behind its own.
pub fn arguments_of(alloc: Global, kind: CallKind, words: &[&[u8]]) -> Result<Call, WordsError>
    requires { length words.now ≡ length (call_fields kind) }
    ensures found { IfOk result (λ c. IsCall c
        × (kind_word kind ∷ map (λ w. w.now) words.now ≡ call_words c)) }
    ensures bad { IfErr result (λ e. (f : Fault) → e ≡ Bad f
        → IsBadWord (call_fields kind) (map (λ w. w.now) words.now) f) }
{
    match (kind, words) {
        (CallKind::Status, []) => Ok(Call::Status),
        (CallKind::Stop, []) => Ok(Call::Stop),
        (kind, [word]) => parse_one_word(alloc, kind, word),
        (kind, [first, second]) => two_of(alloc, kind, first, second),
        (CallKind::Write, [path, offset, bytes]) => write_of(alloc, path, offset, bytes),
        (CallKind::Read, [path, offset, count]) => read_of(alloc, path, offset, count),
        _ => unreachable!(),
    }
}

/// The call that the words spell: none where they spell no call.
pub fn read_call(alloc: Global, words: &[&[u8]]) -> Result<Option<Call>, AllocError>
    ensures found { IfOk result (λ o. IfSome o (λ c. IsCall c
        × (map (λ w. w.now) words.now ≡ call_words c))) }
    ensures none { IfOk result (λ o. IfNone o ((c : Call) → IsCall c
        → map (λ w. w.now) words.now ≡ call_words c → ⊥)) }
{
    let Some((word, rest)) = first_word(words) else {
        return Ok(None);
    };
    let Some(kind) = CallKind::read(word) else {
        return Ok(None);
    };
    if !are_counted(kind, rest) {
        return Ok(None);
    }
    match arguments_of(alloc, kind, rest) {
        Ok(call) => Ok(Some(call)),
        Err(e) => match e {
            WordsError::OutOfMemory => Err(AllocError),
            WordsError::Bad(_) => Ok(None),
        },
    }
}

/// No two calls have the same words.
pub fn one_call_spelling()
    ensures { (a b : Call) → IsCall a → IsCall b → call_words a ≡ call_words b → a ≡ b }
{}
