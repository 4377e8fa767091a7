//! The contents of files and directories, written.

ghost use Rattle.std.specs.Prelude.{◌≡◌, ◌++◌, OnOk};
ghost use Rattle.std.specs.List.{AllByRecursion, flat_map};
ghost use Rattle.pg_packet_write.specs.Fields.{entry_bytes, listed, version_bytes};
ghost use Rattle.pg_state.specs.Fits.{FitChildren, FitHeads, FitKept, FitsChild, FitsKept, FitsWhole};
ghost use Rattle.pg_state.specs.Spelling.{child_bytes, kept_bytes};

use pg_base::{Bytes, FileId, Version};
use pg_codec::{write_bytes, write_stamp, write_u8, write_u16, write_u32};
use pg_delta::{KeptDelta, KeptDeltas};
use pg_entries::{Entries, Entry};
use pg_packet_write::{write_entry, write_head, write_ranges, write_stamps};
use std::alloc::AllocError;
use std::collections::BTreeMap;

/// A head with its whole body.
#[tactic(auto, unfolding(pg_packet_write::specs::Fields::version_bytes))]
fn write_whole(version: &Version, out: &mut Bytes) -> Result<(), AllocError>
    requires { FitsWhole version.now }
    ensures { OnOk result (out.new ≡ out.old ++ version_bytes version.now) }
{
    write_head(version.head(), out)?;
    write_bytes(version.body().as_slice(), out)
}

fn write_each_whole(heads: &[Version], out: &mut Bytes) -> Result<(), AllocError>
    requires { AllByRecursion FitsWhole heads.now }
    ensures { OnOk result (out.new ≡ out.old ++ flat_map version_bytes heads.now) }
{
    for version in heads {
        write_whole(version, out)?;
    }
    Ok(())
}

/// The heads of a file, by stamp.
#[tactic(auto, unfolding(pg_packet_write::specs::Fields::listed))]
pub(crate) fn write_heads(heads: &[Version], out: &mut Bytes) -> Result<(), AllocError>
    requires { FitHeads heads.now }
    ensures { OnOk result (out.new ≡ out.old ++ listed 2 version_bytes heads.now) }
{
    write_u16(heads.len() as u16, out)?;
    write_each_whole(heads, out)
}

#[tactic(auto, unfolding(crate::specs::Spelling::kept_bytes))]
fn write_kept(delta: &KeptDelta, out: &mut Bytes) -> Result<(), AllocError>
    requires { FitsKept delta.now }
    ensures { OnOk result (out.new ≡ out.old ++ kept_bytes delta.now) }
{
    write_stamps(delta.from.as_slice(), out)?;
    write_stamp(delta.to, out)?;
    write_ranges(&delta.ranges, out)
}

fn write_each_kept(deltas: &[KeptDelta], out: &mut Bytes) -> Result<(), AllocError>
    requires { AllByRecursion FitsKept deltas.now }
    ensures { OnOk result (out.new ≡ out.old ++ flat_map kept_bytes deltas.now) }
{
    for delta in deltas {
        write_kept(delta, out)?;
    }
    Ok(())
}

/// The kept deltas of a file, the oldest first.
#[tactic(auto, unfolding(pg_packet_write::specs::Fields::listed))]
pub(crate) fn write_deltas(kept: &KeptDeltas, out: &mut Bytes) -> Result<(), AllocError>
    requires { FitKept kept.now }
    ensures { OnOk result (out.new ≡ out.old ++ listed 1 kept_bytes kept.now) }
{
    let deltas = kept.as_slice();
    write_u8(deltas.len() as u8, out)?;
    write_each_kept(deltas, out)
}

fn write_child(entry: &Entry, out: &mut Bytes) -> Result<(), AllocError>
    requires { FitsChild entry.now }
    ensures { OnOk result (out.new ≡ out.old ++ entry_bytes entry.now) }
{
    write_entry(entry, out)
}

#[tactic(auto, unfolding(crate::specs::Spelling::child_bytes))]
fn write_each_child(entries: &BTreeMap<FileId, Entry>, out: &mut Bytes) -> Result<(), AllocError>
    requires { AllByRecursion (λ e. FitsChild e.1) entries.now.entries }
    ensures { OnOk result (out.new ≡ out.old ++ flat_map child_bytes entries.now.entries) }
{
    for (_, entry) in entries {
        write_child(entry, out)?;
    }
    Ok(())
}

/// The entries of a directory, by child.
#[tactic(auto, unfolding(pg_packet_write::specs::Fields::listed))]
pub(crate) fn write_children(entries: &Entries, out: &mut Bytes) -> Result<(), AllocError>
    requires { FitChildren entries.now }
    ensures { OnOk result (out.new ≡ out.old ++ listed 4 child_bytes entries.now) }
{
    write_u32(entries.count() as u32, out)?;
    write_each_child(entries.as_map(), out)
}
