//! Calls, written.

ghost use Rattle.std.specs.Prelude.{◌≡◌, ◌≤◌, ◌↔◌, ◌++◌, IsTrue, OnOk, decimal, length};
ghost use Rattle.pg_base.specs.Id.{spelling};
ghost use Rattle.pg_call.specs.Call.{target_word};
ghost use Rattle.pg_packet_write.specs.Calls.{FitsCall, FitsTarget, FitsText, SpellsNone, call_bytes, text_bytes};

use crate::fields::{write_block, write_policy, write_text};
use pg_base::{Bytes, FileId, SharedBytes};
use pg_call::{Call, Target};
use pg_codec::{write_file, write_u8, write_u16, write_u32, write_u64};
use std::alloc::AllocError;

/// The text of a path.
#[tactic(auto, unfolding(crate::specs::Calls::text_bytes))]
pub fn write_path(path: &SharedBytes, out: &mut Bytes) -> Result<(), AllocError>
    requires { FitsText path.now }
    ensures { OnOk result (out.new ≡ out.old ++ text_bytes path.now) }
{
    write_text(path.as_slice(), out)
}

/// How many digits a number has.
fn digits(number: u64) -> usize
    ensures count { result ≡ length (decimal number) }
    ensures few { result ≤ 20 }
{
    let mut count = 1;
    let mut left = number;
    while left >= 10 {
        left /= 10;
        count += 1;
    }
    count
}

/// How many bytes the text of an id has.
fn id_length(id: FileId) -> usize
    ensures count { result ≡ length (spelling id) }
    ensures few { result ≤ 42 }
{
    2 + digits(u64::from(id.server)) + digits(id.number)
}

/// The text of a path or an id.
#[tactic(auto, unfolding(crate::specs::Calls::text_bytes, crate::specs::Fields::counted))]
fn write_target(target: &Target, out: &mut Bytes) -> Result<(), AllocError>
    requires { FitsTarget target.now }
    ensures { OnOk result (out.new ≡ out.old ++ text_bytes (target_word target.now)) }
{
    match target {
        Target::Path(path) => write_text(path.as_slice(), out),
        Target::Id(id) => {
            write_u16(id_length(*id) as u16, out)?;
            id.write(out)
        }
    }
}

/// Whether the text's length takes two bytes.
fn fits_text(text: &SharedBytes) -> bool
    ensures { IsTrue result ↔ FitsText text.now }
{
    text.len() <= usize::from(u16::MAX)
}

/// Whether the text spells no id.
fn spells_none(text: &SharedBytes) -> bool
    ensures { IsTrue result ↔ SpellsNone text.now }
{
    FileId::read(text.as_slice()).is_err()
}

/// Whether what a call is about has a spelling.
fn fits_target(target: &Target) -> bool
    ensures { IsTrue result ↔ FitsTarget target.now }
{
    match target {
        Target::Path(path) => fits_text(path) && spells_none(path),
        Target::Id(_) => true,
    }
}

/// Whether the call has a spelling.
pub fn fits_call(call: &Call) -> bool
    ensures { IsTrue result ↔ FitsCall call.now }
{
    match call {
        Call::Mkdir { path } => fits_text(path),
        Call::Create { path, .. } => fits_text(path),
        Call::Write { path, .. } => fits_text(path),
        Call::Cut { path, .. } => fits_text(path),
        Call::Read { path, .. } => fits_text(path),
        Call::Fresh { path } => fits_text(path),
        Call::Ls { path, .. } => fits_text(path),
        Call::Stat { target } => fits_target(target),
        Call::Rename { from, to } => fits_text(from) && fits_text(to),
        Call::Unlink { path } => fits_text(path),
        Call::Rmdir { path } => fits_text(path),
        Call::Forget { .. } => true,
        Call::Demote { target } => fits_target(target),
        Call::Drop { target } => fits_target(target),
        Call::Giveup { .. } => true,
        Call::Status => true,
        Call::Stop => true,
    }
}

/// The number of the call, and its words.
#[tactic(auto, unfolding(crate::specs::Calls::call_bytes))]
pub fn write_call(call: &Call, out: &mut Bytes) -> Result<(), AllocError>
    requires { FitsCall call.now }
    ensures { OnOk result (out.new ≡ out.old ++ call_bytes call.now) }
{
    match call {
        Call::Mkdir { path } => {
            write_u8(1, out)?;
            write_path(path, out)
        }
        Call::Create { path, policy } => {
            write_u8(2, out)?;
            write_path(path, out)?;
            write_policy(*policy, out)
        }
        Call::Write {
            path,
            offset,
            bytes,
        } => {
            write_u8(3, out)?;
            write_path(path, out)?;
            write_u32(*offset, out)?;
            write_block(bytes.bytes().as_slice(), out)
        }
        Call::Cut { path, length } => {
            write_u8(4, out)?;
            write_path(path, out)?;
            write_u32(*length, out)
        }
        Call::Read {
            path,
            offset,
            count,
        } => {
            write_u8(5, out)?;
            write_path(path, out)?;
            write_u32(*offset, out)?;
            write_u32(count.get(), out)
        }
        Call::Fresh { path } => {
            write_u8(6, out)?;
            write_path(path, out)
        }
        Call::Ls { path, from } => {
            write_u8(7, out)?;
            write_path(path, out)?;
            write_u32(*from, out)
        }
        Call::Stat { target } => {
            write_u8(8, out)?;
            write_target(target, out)
        }
        Call::Rename { from, to } => {
            write_u8(9, out)?;
            write_path(from, out)?;
            write_path(to, out)
        }
        Call::Unlink { path } => {
            write_u8(10, out)?;
            write_path(path, out)
        }
        Call::Rmdir { path } => {
            write_u8(11, out)?;
            write_path(path, out)
        }
        Call::Forget { id } => {
            write_u8(12, out)?;
            write_file(*id, out)
        }
        Call::Demote { target } => {
            write_u8(13, out)?;
            write_target(target, out)
        }
        Call::Drop { target } => {
            write_u8(14, out)?;
            write_target(target, out)
        }
        Call::Giveup { view, server } => {
            write_u8(15, out)?;
            write_u64(*view, out)?;
            write_u32(*server, out)
        }
        Call::Status => write_u8(17, out),
        Call::Stop => write_u8(18, out),
    }
}
