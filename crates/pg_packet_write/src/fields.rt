//! The fields of packets, written.

ghost use Rattle.std.specs.Prelude.{◌≡◌, ◌≤◌, ◌<◌, ◌^◌, ◌++◌, OnOk, length};
ghost use Rattle.std.specs.List.{flat_map};
ghost use Rattle.pg_codec.specs.Spelling.{number_bytes, stamp_bytes};
ghost use Rattle.pg_packet_write.specs.Fields.{ask_bytes, cell_bytes, counted, ends_bytes, entry_bytes, gold_bytes, golds_bytes, head_bytes, key_bytes, known_bytes, part_bytes, place_bytes, policy_bytes, ranges_bytes, stamps_bytes, vector_bytes, version_bytes};
ghost use Rattle.pg_packet_write.specs.Fits.{FitGolds, FitStamps, FitsCell, FitsEntry, FitsHead, FitsRanges, FitsVector, FitsVersion, laid};
ghost use Rattle.pg_words.specs.PlaceWords.{IsPlace};

use pg_base::{Actor, Bytes, Head, Policy, Stamp, Vector, Version};
use pg_codec::{
    write_bytes, write_file, write_flag, write_stamp, write_u8, write_u16, write_u32, write_u64,
};
use pg_edges::Key;
use pg_entries::{Cell, Entry};
use pg_msg::{Ask, Ends};
use pg_patch::{Part, Ranges};
use pg_register::{Flag, GoldFlags, Place};
use std::alloc::AllocError;

/// A name behind its length.
#[tactic(auto, unfolding(crate::specs::Fields::counted))]
pub fn write_name(name: &[u8], out: &mut Bytes) -> Result<(), AllocError>
    requires { length name.now < 2 ^ 8 }
    ensures { OnOk result (out.new ≡ out.old ++ counted 1 name.now) }
{
    write_u8(name.len() as u8, out)?;
    write_bytes(name, out)
}

/// A text behind its length.
#[tactic(auto, unfolding(crate::specs::Fields::counted))]
pub fn write_text(text: &[u8], out: &mut Bytes) -> Result<(), AllocError>
    requires { length text.now < 2 ^ 16 }
    ensures { OnOk result (out.new ≡ out.old ++ counted 2 text.now) }
{
    write_u16(text.len() as u16, out)?;
    write_bytes(text, out)
}

/// Writes bytes behind their length.
#[tactic(auto, unfolding(crate::specs::Fields::counted))]
pub fn write_block(block: &[u8], out: &mut Bytes) -> Result<(), AllocError>
    requires { length block.now < 2 ^ 32 }
    ensures { OnOk result (out.new ≡ out.old ++ counted 4 block.now) }
{
    write_u32(block.len() as u32, out)?;
    write_bytes(block, out)
}

/// Writes a place: its stamp, its parent, whether it is live, and its name behind its length.
#[tactic(auto, unfolding(crate::specs::Fields::place_bytes))]
pub fn write_place(place: &Place, out: &mut Bytes) -> Result<(), AllocError>
    requires { IsPlace place.now }
    ensures { OnOk result (out.new ≡ out.old ++ place_bytes place.now) }
{
    write_stamp(place.stamp, out)?;
    write_file(place.parent, out)?;
    write_flag(place.live, out)?;
    write_name(place.name.as_slice(), out)
}

#[tactic(auto, unfolding(crate::specs::Fields::gold_bytes))]
pub fn write_gold(flag: &Flag, out: &mut Bytes) -> Result<(), AllocError>
    ensures { OnOk result (out.new ≡ out.old ++ gold_bytes flag.now) }
{
    write_u32(flag.server, out)?;
    write_u64(flag.birth, out)?;
    write_u64(flag.number, out)?;
    write_flag(flag.raised, out)
}

fn write_each_gold(flags: &[Flag], out: &mut Bytes) -> Result<(), AllocError>
    ensures { OnOk result (out.new ≡ out.old ++ flat_map gold_bytes flags.now) }
{
    for flag in flags {
        write_gold(flag, out)?;
    }
    Ok(())
}

/// Writes flags behind their number, by server.
#[tactic(auto, unfolding(crate::specs::Fields::golds_bytes, crate::specs::Fields::listed))]
pub fn write_golds(flags: &GoldFlags, out: &mut Bytes) -> Result<(), AllocError>
    requires { FitGolds flags.now }
    ensures { OnOk result (out.new ≡ out.old ++ golds_bytes flags.now) }
{
    write_u8(flags.len() as u8, out)?;
    write_each_gold(flags.as_slice(), out)
}

/// Writes an entry of a directory: the child, its place and its flags.
#[tactic(auto, unfolding(crate::specs::Fields::entry_bytes))]
pub fn write_entry(entry: &Entry, out: &mut Bytes) -> Result<(), AllocError>
    requires { FitsEntry entry.now }
    ensures { OnOk result (out.new ≡ out.old ++ entry_bytes entry.now) }
{
    write_file(entry.child, out)?;
    write_place(&entry.place, out)?;
    write_golds(&entry.flags, out)
}

#[tactic(auto, unfolding(crate::specs::Fields::known_bytes))]
fn write_known(known: &(Actor, u64), out: &mut Bytes) -> Result<(), AllocError>
    ensures { OnOk result (out.new ≡ out.old ++ known_bytes known.now) }
{
    write_u32(known.0.server, out)?;
    write_u64(known.0.birth, out)?;
    write_u64(known.1, out)
}

fn write_each_known(vector: &[(Actor, u64)], out: &mut Bytes) -> Result<(), AllocError>
    ensures { OnOk result (out.new ≡ out.old ++ flat_map known_bytes vector.now) }
{
    for known in vector {
        write_known(known, out)?;
    }
    Ok(())
}

#[tactic(auto, unfolding(crate::specs::Fields::vector_bytes, crate::specs::Fields::listed))]
pub fn write_vector(vector: &Vector, out: &mut Bytes) -> Result<(), AllocError>
    requires { FitsVector vector.now }
    ensures { OnOk result (out.new ≡ out.old ++ vector_bytes vector.now) }
{
    write_u16(vector.len() as u16, out)?;
    write_each_known(vector.entries(), out)
}

/// Writes a head of a version: its stamp, birth, number, vector and length.
#[tactic(auto, unfolding(crate::specs::Fields::head_bytes))]
pub fn write_head(head: &Head, out: &mut Bytes) -> Result<(), AllocError>
    requires { FitsHead head.now }
    ensures { OnOk result (out.new ≡ out.old ++ head_bytes head.now) }
{
    write_stamp(head.stamp, out)?;
    write_u64(head.birth, out)?;
    write_u64(head.number, out)?;
    write_vector(&head.vector, out)?;
    write_u32(head.length, out)
}

/// Writes a version: its head, and its body, as long as the head says.
#[tactic(auto, unfolding(crate::specs::Fields::version_bytes))]
pub fn write_version(version: &Version, out: &mut Bytes) -> Result<(), AllocError>
    requires { FitsVersion version.now }
    ensures { OnOk result (out.new ≡ out.old ++ version_bytes version.now) }
{
    write_head(version.head(), out)?;
    write_bytes(version.body().as_slice(), out)
}

#[tactic(auto, unfolding(crate::specs::Fields::part_bytes))]
fn write_part(part: &Part, out: &mut Bytes) -> Result<(), AllocError>
    requires { length part.now.bytes < 2 ^ 32 }
    ensures { OnOk result (out.new ≡ out.old ++ part_bytes part.now) }
{
    write_u32(part.offset, out)?;
    write_block(part.bytes.as_slice(), out)
}

fn write_each_part(parts: &[Part], out: &mut Bytes) -> Result<(), AllocError>
    requires { laid parts.now ≤ 30000 }
    ensures { OnOk result (out.new ≡ out.old ++ flat_map part_bytes parts.now) }
{
    for part in parts {
        write_part(part, out)?;
    }
    Ok(())
}

/// Writes ranges: how much is kept, the least length, and the parts behind their number.
#[tactic(auto, unfolding(crate::specs::Fields::ranges_bytes, crate::specs::Fields::listed))]
pub fn write_ranges(ranges: &Ranges, out: &mut Bytes) -> Result<(), AllocError>
    requires { FitsRanges ranges.now }
    ensures { OnOk result (out.new ≡ out.old ++ ranges_bytes ranges.now) }
{
    write_u32(ranges.keep(), out)?;
    write_u32(ranges.least(), out)?;
    write_u32(ranges.parts().len() as u32, out)?;
    write_each_part(ranges.parts(), out)
}

fn write_each_stamp(stamps: &[Stamp], out: &mut Bytes) -> Result<(), AllocError>
    ensures { OnOk result (out.new ≡ out.old ++ flat_map stamp_bytes stamps.now) }
{
    for stamp in stamps {
        write_stamp(*stamp, out)?;
    }
    Ok(())
}

/// Writes a list of stamps behind their number.
#[tactic(auto, unfolding(crate::specs::Fields::stamps_bytes, crate::specs::Fields::listed))]
pub fn write_stamps(stamps: &[Stamp], out: &mut Bytes) -> Result<(), AllocError>
    requires { FitStamps stamps.now }
    ensures { OnOk result (out.new ≡ out.old ++ stamps_bytes stamps.now) }
{
    write_u16(stamps.len() as u16, out)?;
    write_each_stamp(stamps, out)
}

/// Writes a key of a cell: its kind, and what it names.
#[tactic(auto, unfolding(crate::specs::Fields::key_bytes))]
pub fn write_key(key: &Key, out: &mut Bytes) -> Result<(), AllocError>
    ensures { OnOk result (out.new ≡ out.old ++ key_bytes key.now) }
{
    match key {
        Key::Place => write_u8(1, out),
        Key::Flag(server) => {
            write_u8(2, out)?;
            write_u32(*server, out)
        }
        Key::Entry(child) => {
            write_u8(3, out)?;
            write_file(*child, out)
        }
        Key::Version(stamp) => {
            write_u8(4, out)?;
            write_stamp(*stamp, out)
        }
    }
}

#[tactic(auto, unfolding(crate::specs::Fields::cell_bytes))]
pub fn write_cell(cell: &Cell, out: &mut Bytes) -> Result<(), AllocError>
    requires { FitsCell cell.now }
    ensures { OnOk result (out.new ≡ out.old ++ cell_bytes cell.now) }
{
    match cell {
        Cell::Place(place) => {
            write_u8(1, out)?;
            write_place(place.get(), out)
        }
        Cell::Flag(flag) => {
            write_u8(2, out)?;
            write_gold(flag.get(), out)
        }
        Cell::Entry(entry, sure) => {
            write_u8(3, out)?;
            write_entry(entry.get(), out)?;
            write_flag(*sure, out)
        }
        Cell::Version(version) => {
            write_u8(4, out)?;
            write_version(version, out)
        }
    }
}

/// Writes the policy of a file: 1 for the last version, 2 for all that stand side by side.
#[tactic(auto, unfolding(crate::specs::Fields::policy_bytes))]
pub fn write_policy(policy: Policy, out: &mut Bytes) -> Result<(), AllocError>
    ensures { OnOk result (out.new ≡ out.old ++ policy_bytes policy) }
{
    match policy {
        Policy::Last => write_u8(1, out),
        Policy::Join => write_u8(2, out),
    }
}

#[tactic(auto, unfolding(crate::specs::Fields::ask_bytes))]
pub fn write_ask(ask: Ask, out: &mut Bytes) -> Result<(), AllocError>
    ensures { OnOk result (out.new ≡ out.old ++ ask_bytes ask) }
{
    match ask {
        Ask::Seek => write_u8(1, out),
        Ask::Confirm => write_u8(2, out),
        Ask::Patch => write_u8(3, out),
    }
}

#[tactic(auto, unfolding(crate::specs::Fields::ends_bytes))]
pub fn write_ends(ends: &Ends, out: &mut Bytes) -> Result<(), AllocError>
    ensures { OnOk result (out.new ≡ out.old ++ ends_bytes ends.now) }
{
    write_file(ends.file, out)?;
    write_u64(ends.sender, out)?;
    write_u64(ends.receiver, out)
}
