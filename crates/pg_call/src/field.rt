//! The words that calls and lines are made of.

ghost use Rattle.std.specs.Prelude.{◌≡◌, IfOk, IfErr, IsTrue, ◌↔◌, All, ◌<◌, decimal, length, map};
ghost use Rattle.pg_base.specs.Id.{Fits, spelling};
ghost use Rattle.pg_call.specs.Call.{HasSlash, IsPayload, IsTarget, policy_word, target_word};
ghost use Rattle.pg_call.specs.Fields.{AreCounted, IsWordOf, call_fields};
ghost use Rattle.pg_call.specs.Fields.Field.{Narrow, Wide, Count, Bytes, AnyId, Path, PathOrId, PolicyName};
ghost use Rattle.pg_call.specs.declared.error.WordsError.TheVariants.{Bad};
ghost use Rattle.pg_call.specs.declared.fault.Fault.{Fault};
ghost use Rattle.pg_call.specs.declared.fault.Fault.TheVariants as fault;
ghost use Rattle.pg_words.specs.HexWord.{hex_word};
ghost use Rattle.pg_words.specs.TextWord.{IsText};

use crate::call::{CallKind, Target};
use crate::error::WordsError;
use crate::fault::Fault;
use crate::limits::{MOST_BYTES, Payload, ReadCount};
use pg_base::{FileId, Policy, SharedBytes, number, number_u32};
use pg_words::{is_text, read_hex_word, read_id};
use std::alloc::Global;

/// The number below 2^32 that the word spells.
pub fn parse_u32(word: &[u8]) -> Result<u32, WordsError>
    ensures found { IfOk result (λ n. word.now ≡ decimal n) }
    ensures bad { IfErr result (λ e. e ≡ Bad fault.Number) }
    ensures none { IfErr result (λ e. IsWordOf Narrow word.now → ⊥) }
{
    match number_u32(word) {
        Some(n) => Ok(n),
        None => Err(WordsError::Bad(Fault::Number)),
    }
}

/// The number below 2^64 that the word spells.
pub fn parse_u64(word: &[u8]) -> Result<u64, WordsError>
    ensures found { IfOk result (λ n. word.now ≡ decimal n) }
    ensures bad { IfErr result (λ e. e ≡ Bad fault.Number) }
    ensures none { IfErr result (λ e. IsWordOf Wide word.now → ⊥) }
{
    match number(word) {
        Some(n) => Ok(n),
        None => Err(WordsError::Bad(Fault::Number)),
    }
}

/// The number of bytes to be read that the word spells.
pub fn count_of(word: &[u8]) -> Result<ReadCount, WordsError>
    ensures found { IfOk result (λ n. word.now ≡ decimal n) }
    ensures bad { IfErr result (λ e. e ≡ Bad fault.Number) }
    ensures none { IfErr result (λ e. IsWordOf Count word.now → ⊥) }
{
    let count = parse_u32(word)?;
    match ReadCount::new(count) {
        Some(count) => Ok(count),
        None => Err(WordsError::Bad(Fault::Number)),
    }
}

/// The file or directory that the word names.
pub fn id_of(word: &[u8]) -> Result<FileId, WordsError>
    ensures found { IfOk result (λ f. Fits f × (word.now ≡ spelling f)) }
    ensures bad { IfErr result (λ e. e ≡ Bad fault.Id) }
    ensures none { IfErr result (λ e. IsWordOf AnyId word.now → ⊥) }
{
    match read_id(word) {
        Some(id) => Ok(id),
        None => Err(WordsError::Bad(Fault::Id)),
    }
}

/// The bytes that the word spells, no more than one write has.
pub fn bytes_of(alloc: Global, word: &[u8]) -> Result<SharedBytes, WordsError>
    ensures found { IfOk result (λ b. IsPayload b × (word.now ≡ hex_word b)) }
    ensures bad { IfErr result (λ e. (f : Fault) → e ≡ Bad f → f ≡ fault.Hex) }
    ensures none { IfErr result (λ e. (f : Fault) → e ≡ Bad f → IsWordOf Bytes word.now → ⊥) }
{
    match read_hex_word(alloc, word, MOST_BYTES)? {
        Some(bytes) => Ok(bytes),
        None => Err(WordsError::Bad(Fault::Hex)),
    }
}

/// The payload of one write that the word spells.
pub fn payload_of(alloc: Global, word: &[u8]) -> Result<Payload, WordsError>
    ensures found { IfOk result (λ b. IsPayload b × (word.now ≡ hex_word b)) }
    ensures bad { IfErr result (λ e. (f : Fault) → e ≡ Bad f → f ≡ fault.Hex) }
    ensures none { IfErr result (λ e. (f : Fault) → e ≡ Bad f → IsWordOf Bytes word.now → ⊥) }
{
    let bytes = bytes_of(alloc, word)?;
    match Payload::new(bytes) {
        Some(payload) => Ok(payload),
        None => Err(WordsError::Bad(Fault::Hex)),
    }
}

/// The text of a path: whatever the word is.
pub fn path_of(alloc: Global, word: &[u8]) -> Result<SharedBytes, WordsError>
    ensures found { IfOk result (λ p. IsText p × (word.now ≡ p)) }
    ensures bad { IfErr result (λ e. (f : Fault) → e ≡ Bad f → f ≡ fault.Byte) }
    ensures none { IfErr result (λ e. (f : Fault) → e ≡ Bad f → IsWordOf Path word.now → ⊥) }
{
    if !is_text(word) {
        return Err(WordsError::Bad(Fault::Byte));
    }
    Ok(SharedBytes::from_slice(alloc, word)?)
}

/// Whether the word begins as a path does.
fn has_slash(word: &[u8]) -> bool
    ensures { IsTrue result ↔ HasSlash word.now }
{
    match word.first() {
        Some(byte) => *byte == b'/',
        None => false,
    }
}

/// A target that begins with a slash.
fn path_target(alloc: Global, word: &[u8]) -> Result<Target, WordsError>
    requires { HasSlash word.now }
    ensures found { IfOk result (λ t. IsTarget t × (word.now ≡ target_word t)) }
    ensures bad { IfErr result (λ e. (f : Fault) → e ≡ Bad f → f ≡ fault.Id) }
    ensures none { IfErr result (λ e. (f : Fault) → e ≡ Bad f
        → IsWordOf PathOrId word.now → ⊥) }
{
    if !is_text(word) {
        return Err(WordsError::Bad(Fault::Id));
    }
    Ok(Target::Path(SharedBytes::from_slice(alloc, word)?))
}

/// The path that the word is where it begins with a slash, and else the id that it spells.
pub fn target_of(alloc: Global, word: &[u8]) -> Result<Target, WordsError>
    ensures found { IfOk result (λ t. IsTarget t × (word.now ≡ target_word t)) }
    ensures bad { IfErr result (λ e. (f : Fault) → e ≡ Bad f → f ≡ fault.Id) }
    ensures none { IfErr result (λ e. (f : Fault) → e ≡ Bad f
        → IsWordOf PathOrId word.now → ⊥) }
{
    if has_slash(word) {
        return path_target(alloc, word);
    }
    let id = id_of(word)?;
    Ok(Target::Id(id))
}

/// The policy that the word names.
pub fn policy_of(word: &[u8]) -> Result<Policy, WordsError>
    ensures found { IfOk result (λ p. word.now ≡ policy_word p) }
    ensures bad { IfErr result (λ e. e ≡ Bad fault.Policy) }
    ensures none { IfErr result (λ e. IsWordOf PolicyName word.now → ⊥) }
{
    match word {
        b"last" => Ok(Policy::Last),
        b"join" => Ok(Policy::Join),
        _ => Err(WordsError::Bad(Fault::Policy)),
    }
}

fn has_bytes(word: &[u8]) -> bool
    ensures { IsTrue result ↔ (0 < length word.now) }
{
    !word.is_empty()
}

/// Whether no word is empty.
pub fn have_bytes(words: &[&[u8]]) -> bool
    ensures { IsTrue result ↔ All (λ w. 0 < length w.now) words.now }
{
    words.iter().all(|word| has_bytes(word))
}
