//! Fields that can be read.

ghost use Rattle.std.specs.List.{AllByRecursion};
ghost use Rattle.pg_base.specs.Id.{Fits};
ghost use Rattle.pg_codec.specs.Laws.{AreBytes, HasStampWidth, HasWidth};
ghost use Rattle.pg_packet_fields.specs.Cells.{IsWholeCell};
ghost use Rattle.pg_packet_fields.specs.Heads.{AreKnown, IsHead, IsWholeVersion};
ghost use Rattle.pg_packet_fields.specs.Lists.{AreStamps};
ghost use Rattle.pg_packet_fields.specs.Patches.{IsWholeRanges};
ghost use Rattle.pg_packet_fields.specs.Places.{AreGolds, IsGold, IsWholeEntry, IsWholePlace};
ghost use Rattle.pg_packet_fields.specs.Values.{AreEnds, IsKey};
ghost use Rattle.pg_packet_write.specs.Fits.{FitGolds, FitStamps, FitsCell, FitsEntry, FitsHead, FitsKey, FitsRanges, FitsVector, FitsVersion, IsServer};
ghost use Rattle.pg_words.specs.PlaceWords.{IsPlace};
ghost use Rattle.law_written.specs.Widths.{HasFlagWidth, HasPartBytes};

use pg_base::{FileId, Head, Stamp, Vector, Version};
use pg_edges::Key;
use pg_entries::{Cell, Entry};
use pg_msg::Ends;
use pg_patch::{Part, Ranges};
use pg_register::{Flag, GoldFlags, Place};

/// Each is below 256.
pub fn bytes_are(bytes: &[u8])
    ensures { AreBytes bytes.now }
{}

pub fn wide_is(number: u64)
    ensures { HasWidth 8 number }
{}

pub fn narrow_is(number: u32)
    ensures { HasWidth 4 number }
{}

pub fn file_is(id: FileId)
    ensures { Fits id }
{}

pub fn stamp_is(stamp: Stamp)
    ensures { HasStampWidth stamp }
{}

pub fn ends_are_whole(ends: &Ends)
    ensures { AreEnds ends.now }
{
    file_is(ends.file);
    wide_is(ends.sender);
    wide_is(ends.receiver)
}

pub fn place_is_whole(place: &Place)
    requires { IsPlace place.now }
    ensures { IsWholePlace place.now }
{
    stamp_is(place.stamp);
    bytes_are(place.name.as_slice())
}

fn flag_has_widths(flag: Flag)
    ensures { HasFlagWidth flag }
{}

fn gold_is_whole(flag: Flag)
    requires { IsServer flag.server }
    ensures { IsGold 0 flag }
{
    flag_has_widths(flag)
}

/// The numbers of flags have 64 bits.
fn flags_have_widths(flags: &[Flag])
    ensures { AllByRecursion HasFlagWidth flags.now }
{
    for flag in flags {
        flag_has_widths(*flag);
    }
}

pub fn golds_are_whole(flags: &GoldFlags)
    requires { FitGolds flags.now }
    ensures { AreGolds flags.now }
{
    flags_have_widths(flags.as_slice())
}

pub fn entry_is_whole(entry: &Entry)
    requires { FitsEntry entry.now }
    ensures { IsWholeEntry entry.now }
{
    file_is(entry.child);
    place_is_whole(&entry.place);
    golds_are_whole(&entry.flags)
}

fn vector_is_whole(vector: &Vector)
    requires { FitsVector vector.now }
    ensures { AreKnown vector.now }
{
    let _count = vector.len();
}

pub fn head_is_whole(head: &Head)
    requires { FitsHead head.now }
    ensures { IsHead head.now }
{
    stamp_is(head.stamp);
    wide_is(head.birth);
    wide_is(head.number);
    vector_is_whole(&head.vector);
    narrow_is(head.length)
}

pub fn version_is_whole(version: &Version)
    requires { FitsVersion version.now }
    ensures { IsWholeVersion version.now }
{
    head_is_whole(version.head());
    bytes_are(version.body().as_slice())
}

/// What the parts hold are bytes.
fn parts_have_bytes(parts: &[Part])
    ensures { AllByRecursion HasPartBytes parts.now }
{
    for part in parts {
        bytes_are(part.bytes.as_slice());
    }
}

pub fn ranges_are_whole(ranges: &Ranges)
    requires { FitsRanges ranges.now }
    ensures { IsWholeRanges ranges.now }
{
    parts_have_bytes(ranges.parts())
}

/// The numbers of stamps have their widths.
fn stamps_have_widths(stamps: &[Stamp])
    ensures { AllByRecursion HasStampWidth stamps.now }
{
    for stamp in stamps {
        stamp_is(*stamp);
    }
}

pub fn stamps_are_whole(stamps: &[Stamp])
    requires { FitStamps stamps.now }
    ensures { AreStamps stamps.now }
{
    stamps_have_widths(stamps)
}

pub fn key_is_whole(key: &Key)
    requires { FitsKey key.now }
    ensures { IsKey key.now }
{
    match key {
        Key::Place => (),
        Key::Flag(_) => (),
        Key::Entry(child) => file_is(*child),
        Key::Version(stamp) => stamp_is(*stamp),
    }
}

pub fn cell_is_whole(cell: &Cell)
    requires { FitsCell cell.now }
    ensures { IsWholeCell cell.now }
{
    match cell {
        Cell::Place(place) => place_is_whole(place.get()),
        Cell::Flag(flag) => gold_is_whole(*flag.get()),
        Cell::Entry(entry, _) => entry_is_whole(entry.get()),
        Cell::Version(version) => version_is_whole(version),
    }
}
