//! What stands in a slot before its state, and where the next slot goes.

ghost use Rattle.std.specs.Prelude.{◌≡◌, ◌≤◌, ◌<◌, ◌+◌, ◌-◌, ◌^◌, ◌⊎◌, List, ℕ, length, take, drop, None, Some, IfOk, IfErr, MatchOption, ◌==◌, if◌then◌else◌};
ghost use Rattle.std.specs.Int.{to_be_bytes, w32, w64};
ghost use Rattle.pg_io.specs.Causes.{Rose};
ghost use Rattle.pg_disk.specs.Told.{given};
ghost use Rattle.pg_checkpoint.specs.Slots.{IsSlot, IsEmpty};
ghost use Rattle.pg_checkpoint.specs.Heads.{IsHead, Goes, slot_of, counted};

use crate::error::SnapError;
use crate::reading::read_bytes;
use pg_disk::Disk;
use std::alloc::Global;

/// How many bytes a slot has before its state.
pub const HEAD: usize = 21;

/// The numbers of a slot: its own, that of the entries folded in its state, and its state's length.
#[derive(Clone, Copy, Debug)]
pub struct Entry {
    pub number: u64,
    pub folded: u64,
    pub length: u32,
}

/// A slot's gate, if the file has a byte, and its numbers, if the slot is not empty.
#[derive(Clone, Copy, Debug)]
pub struct Head {
    pub gate: Option<u8>,
    pub entry: Option<Entry>,
}

impl Head {
    /// The number, where an empty slot counts as 0.
    pub fn number(&self) -> u64
        ensures { result ≡ counted self.now.entry }
    {
        match self.entry {
            Some(entry) => entry.number,
            None => 0,
        }
    }
}

/// Where the next slot goes, the gate that stands there, and its number.
#[derive(Clone, Copy, Debug)]
pub struct Turn {
    pub file: u8,
    pub gate: Option<u8>,
    pub number: u64,
}

/// The slot with the smaller number comes next, of two equal ones the first. `Full` where no number
/// is left.
pub fn next_turn(first: &Head, second: &Head) -> Result<Turn, SnapError>
    ensures ok { IfOk result (λ turn.
        Goes (counted first.now.entry) (counted second.now.entry) turn.file turn.number
        × (turn.gate ≡ (if turn.file == 2 then second.now.gate else first.now.gate))) }
    ensures err { IfErr result (λ e. (e ≡ SnapError.Full)
        × ((counted first.now.entry ≡ 2 ^ 64 - 1) ⊎ (counted second.now.entry ≡ 2 ^ 64 - 1))) }
{
    if second.number() < first.number() {
        turn_of(2, second, first)
    } else {
        turn_of(1, first, second)
    }
}

fn turn_of(file: u8, older: &Head, newer: &Head) -> Result<Turn, SnapError>
    ensures ok { IfOk result (λ turn. (turn.file ≡ file) × (turn.gate ≡ older.now.gate)
        × (turn.number ≡ counted newer.now.entry + 1)) }
    ensures err { IfErr result (λ e. (e ≡ SnapError.Full)
        × (counted newer.now.entry ≡ 2 ^ 64 - 1)) }
{
    match newer.number().checked_add(1) {
        Some(number) => Ok(Turn {
            file,
            gate: older.gate,
            number,
        }),
        None => Err(SnapError::Full),
    }
}

/// The slot that is loaded and its file: the one with the greater number, of two equal ones the
/// second.
pub fn newer(first: &Head, second: &Head) -> Option<(u8, Entry)>
    ensures { MatchOption result
        ((first.now.entry ≡ None) × (second.now.entry ≡ None))
        (λ found. ((found.0 ≡ 2) × (second.now.entry ≡ Some found.1)
        × (counted first.now.entry ≤ counted second.now.entry))
        ⊎ ((found.0 ≡ 1) × (first.now.entry ≡ Some found.1)
        × ((second.now.entry ≡ None)
        ⊎ (counted second.now.entry < counted first.now.entry)))) }
{
    if let Some(entry) = second.entry {
        if first.number() <= entry.number {
            return Some((2, entry));
        }
    }
    match first.entry {
        Some(entry) => Some((1, entry)),
        None => None,
    }
}

/// Reads what stands before the state.
pub fn read_head<D: Disk>(alloc: Global, disk: &mut D, file: u8) -> Result<Head, SnapError>
    requires { file ≤ 2 }
    ensures head { IfOk result (λ head. D.tells → IsHead (given (D.told disk.old) file) head) }
    ensures same { D.tells → D.told disk.new ≡ D.told disk.old }
    ensures later { D.faults disk.old ≤ D.faults disk.new }
    ensures err { IfErr result (λ e. (e ≡ SnapError.OutOfMemory)
        ⊎ ((e ≡ SnapError.DiskFault) × Rose (D.faults disk.old) (D.faults disk.new))) }
{
    let size = disk.length(file)?;
    let bytes = read_bytes(alloc, disk, file, 0, HEAD)?;
    Ok(head_in(&bytes, size))
}

/// What the first bytes of a file of this size say.
fn head_in(bytes: &[u8], size: u64) -> Head
    ensures { (file : List ℕ) → bytes.now ≡ take 21 file → size ≡ length file
        → IsHead file result }
{
    match bytes {
        [] => Head {
            gate: None,
            entry: None,
        },
        [gate, ..] => Head {
            gate: Some(*gate),
            entry: entry_in(bytes, size),
        },
    }
}

/// The numbers in the first bytes of a file of this size, if the slot is not empty.
fn entry_in(bytes: &[u8], size: u64) -> Option<Entry>
    ensures { (file : List ℕ) → bytes.now ≡ take 21 file → size ≡ length file
        → MatchOption result (IsEmpty file) (λ entry. IsSlot file (slot_of entry file)) }
{
    if bytes.len() < HEAD || bytes[0] != 1 {
        return None;
    }
    let entry = Entry {
        number: number_at(bytes, 1),
        folded: number_at(bytes, 9),
        length: length_at(bytes, 17),
    };
    if size < HEAD as u64 + entry.length as u64 {
        return None;
    }
    Some(entry)
}

/// The number in eight bytes.
fn number_at(bytes: &[u8], at: usize) -> u64
    requires { at + 8 ≤ length bytes.now }
    ensures { to_be_bytes w64 result ≡ take 8 (drop at bytes.now) }
{
    let mut field = [0u8; 8];
    field.copy_from_slice(&bytes[at..at + 8]);
    u64::from_be_bytes(field)
}

/// The number in four bytes.
fn length_at(bytes: &[u8], at: usize) -> u32
    requires { at + 4 ≤ length bytes.now }
    ensures { to_be_bytes w32 result ≡ take 4 (drop at bytes.now) }
{
    let mut field = [0u8; 4];
    field.copy_from_slice(&bytes[at..at + 4]);
    u32::from_be_bytes(field)
}
