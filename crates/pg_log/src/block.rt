//! Entries in a log's bytes.

ghost use Rattle.std.specs.Prelude.{◌≡◌, ◌≤◌, ◌<◌, ◌+◌, ◌⊎◌, [], ◌∷◌, ◌++◌, ℕ, length, take, IfOk, IfErr, IfSome, OnOk, MatchOption};
ghost use Rattle.std.specs.Int.{to_be_bytes, w32};
ghost use Rattle.pg_log.specs.Bytes.{start, front, AllFit, BeginsWith, IsAtEnd, IsBadTail, IsBadAt};

use crate::error::LogError;
use pg_base::{Bytes, Items};
use std::alloc::{AllocError, Global};

/// How a log begins.
pub const START: [u8; 16] = *b"pangaea-log-0001";

/// The most bytes of an entry.
pub const MOST: u32 = 65_536;

/// So many bytes stand beside an entry's own: its length, and the next gate.
const BESIDE: usize = 5;

/// The entry as it stands behind a gate: its length, its bytes, and the next gate, which is closed.
pub fn written_block(alloc: Global, entry: &[u8]) -> Result<Vec<u8>, AllocError>
    requires { length entry.now ≤ 65536 }
    ensures { IfOk result (λ bytes.
        bytes.items ≡ to_be_bytes w32 (length entry.now) ++ entry.now ++ 0 ∷ []) }
{
    let mut bytes = Vec::with_capacity(alloc, entry.len() + BESIDE)?;
    bytes.extend_from_slice(&(entry.len() as u32).to_be_bytes())?;
    bytes.extend_from_slice(entry)?;
    bytes.push(0)?;
    Ok(bytes)
}

/// The entries of a log, and the place of the closed gate behind them.
pub fn read_entries(alloc: Global, file: &[u8]) -> Result<(Items<Bytes>, usize), LogError>
    requires { 17 < length file.now }
    ensures ok { IfOk result (λ log. AllFit log.0 × (log.1 ≡ length (front log.0))
        × ((tail : _) × (file.now ≡ front log.0 ++ tail) × IsAtEnd tail)) }
    ensures err { IfErr result (λ e. (e ≡ LogError.OutOfMemory)
        ⊎ ((place : ℕ) × (e ≡ LogError.BadLog place) × IsBadAt file.now place)) }
{
    if let Some(place) = bad_start(file) {
        return Err(LogError::BadLog(place as u64));
    }
    let mut entries = Items::new(alloc);
    let mut rest = &file[START.len()..];
    loop {
        match next_entry(rest) {
            Ok(Some(entry)) => {
                entries.push(Bytes::from_slice(alloc, entry)?)?;
                rest = &rest[5 + entry.len()..];
            }
            Ok(None) => return Ok((entries, file.len() - rest.len())),
            Err(place) => {
                return Err(LogError::BadLog((file.len() - rest.len() + place) as u64));
            }
        }
    }
}

/// The place of the first byte with which no log begins.
fn bad_start(file: &[u8]) -> Option<usize>
    requires { 17 < length file.now }
    ensures { MatchOption result (take 16 file.now ≡ start) (λ place. IsBadAt file.now place) }
{
    for i in 0..START.len() {
        if file[i] != START[i] {
            return Some(i);
        }
    }
    None
}

/// The entry at a gate, or none where the gate is closed. Else the place of the first byte that no
/// log continues, counted from the gate.
fn next_entry(bytes: &[u8]) -> Result<Option<&[u8]>, usize>
    ensures ok { IfOk result (λ found.
        MatchOption found (IsAtEnd bytes.now) (λ entry. BeginsWith bytes.now entry.now)) }
    ensures err { IfErr result (λ place. IsBadTail bytes.now place) }
{
    match bytes {
        [] => Err(0),
        [1, block @ ..] => match entry_in(block) {
            Ok(entry) => Ok(Some(entry)),
            Err(place) => Err(1 + place),
        },
        _ => Ok(None),
    }
}

/// The entry behind an open gate, or the place of the first byte that no log continues.
fn entry_in(block: &[u8]) -> Result<&[u8], usize>
    ensures ok { IfOk result (λ entry. BeginsWith (1 ∷ block.now) entry.now) }
    ensures err { IfErr result (λ place. IsBadTail (1 ∷ block.now) (1 + place)) }
{
    let length = length_in(block)? as usize;
    let bytes = &block[4..];
    if bytes.len() < length {
        return Err(block.len());
    }
    Ok(&bytes[..length])
}

/// The length in the first four bytes, or the place of the first byte that no log continues.
fn length_in(block: &[u8]) -> Result<u32, usize>
    ensures ok { IfOk result (λ n. (n ≤ 65536) × (4 ≤ length block.now)
        × (to_be_bytes w32 n ≡ take 4 block.now)) }
    ensures err { IfErr result (λ place. IsBadTail (1 ∷ block.now) (1 + place)) }
{
    let mut field = [0u8; 4];
    for i in 0..4 {
        if block.len() <= i {
            return Err(i);
        }
        field[i] = block[i];
        if u32::from_be_bytes(field) > MOST {
            return Err(i);
        }
    }
    Ok(u32::from_be_bytes(field))
}
