//! What the types of fields keep.

ghost use Rattle.std.specs.Prelude.{ℕ};
ghost use Rattle.std.specs.List.{AllByRecursion};
ghost use Rattle.pg_base.specs.declared.id.FileId.{FileId};
ghost use Rattle.pg_base.specs.Id.{Fits};
ghost use Rattle.pg_codec.specs.Laws.{AreBytes, HasStampWidth, HasWidth};
ghost use Rattle.pg_entries.specs.declared.entry.Entry.{Entry};
ghost use Rattle.law_written.specs.Widths.{HasFlagWidth, HasPartBytes};
ghost use Rattle.law_states.specs.Widths.{HasDeltaWidth, HasEdgeWidth, HasEntryWidth, HasHeadWidth, HasKeyWidth, HasOwnWidth, HasTaggedWidth, HasVersionWidth};

use pg_base::{FileId, Head, Stamp, Version};
use pg_delta::KeptDelta;
use pg_edges::{Edge, Key};
use pg_entries::Entry;
use pg_names::Attributes;
use pg_patch::Part;
use pg_register::Flag;
use std::collections::BTreeMap;

/// Each is below 256.
pub(crate) fn bytes_are(bytes: &[u8])
    ensures { AreBytes bytes.now }
{}

pub(crate) fn wide_is(number: u64)
    ensures { HasWidth 8 number }
{}

pub(crate) fn narrow_is(number: u32)
    ensures { HasWidth 4 number }
{}

pub(crate) fn file_is(id: FileId)
    ensures { Fits id }
{}

pub(crate) fn stamp_is(stamp: Stamp)
    ensures { HasStampWidth stamp }
{}

fn flag_has_width(flag: Flag)
    ensures { HasFlagWidth flag }
{}

fn flags_have_widths(flags: &[Flag])
    ensures { AllByRecursion HasFlagWidth flags.now }
{
    for flag in flags {
        flag_has_width(*flag);
    }
}

pub(crate) fn own_has_widths(own: &Attributes)
    ensures { HasOwnWidth own.now }
{
    bytes_are(own.place.name.as_slice());
    flags_have_widths(own.flags.as_slice())
}

pub(crate) fn entry_has_widths(entry: &Entry)
    ensures { HasEntryWidth entry.now }
{
    file_is(entry.child);
    bytes_are(entry.place.name.as_slice());
    flags_have_widths(entry.flags.as_slice())
}

pub(crate) fn entries_have_widths(entries: &BTreeMap<FileId, Entry>)
    ensures { AllByRecursion (λ (e : FileId × Entry). HasEntryWidth e.1) entries.now.entries }
{
    for (_, entry) in entries {
        entry_has_widths(entry);
    }
}

pub(crate) fn head_has_widths(head: &Head)
    ensures { HasHeadWidth head.now }
{
    stamp_is(head.stamp);
    wide_is(head.birth);
    wide_is(head.number);
    narrow_is(head.length)
}

fn version_has_widths(version: &Version)
    ensures { HasVersionWidth version.now }
{
    head_has_widths(version.head());
    bytes_are(version.body().as_slice())
}

pub(crate) fn versions_have_widths(versions: &[Version])
    ensures { AllByRecursion HasVersionWidth versions.now }
{
    for version in versions {
        version_has_widths(version);
    }
}

/// What the parts hold are bytes.
fn parts_have_bytes(parts: &[Part])
    ensures { AllByRecursion HasPartBytes parts.now }
{
    for part in parts {
        bytes_are(part.bytes.as_slice());
    }
}

fn stamps_have_widths(stamps: &[Stamp])
    ensures { AllByRecursion HasStampWidth stamps.now }
{
    for stamp in stamps {
        stamp_is(*stamp);
    }
}

fn delta_has_widths(delta: &KeptDelta)
    ensures { HasDeltaWidth delta.now }
{
    stamps_have_widths(delta.from.as_slice());
    stamp_is(delta.to);
    parts_have_bytes(delta.ranges.parts())
}

pub(crate) fn deltas_have_widths(deltas: &[KeptDelta])
    ensures { AllByRecursion HasDeltaWidth deltas.now }
{
    for delta in deltas {
        delta_has_widths(delta);
    }
}

fn key_has_widths(key: &Key)
    ensures { HasKeyWidth key.now }
{
    match key {
        Key::Place => (),
        Key::Flag(_) => (),
        Key::Entry(child) => file_is(*child),
        Key::Version(stamp) => stamp_is(*stamp),
    }
}

fn tagged_has_widths(tagged: &(Key, u64))
    ensures { HasTaggedWidth tagged.now }
{
    key_has_widths(&tagged.0);
    wide_is(tagged.1)
}

fn keys_have_widths(keys: &[(Key, u64)])
    ensures { AllByRecursion HasTaggedWidth keys.now }
{
    for tagged in keys {
        tagged_has_widths(tagged);
    }
}

fn edge_has_widths(edge: &Edge)
    ensures { HasEdgeWidth edge.now }
{
    wide_is(edge.birth);
    keys_have_widths(edge.keys.as_slice())
}

pub(crate) fn edges_have_widths(edges: &[Edge])
    ensures { AllByRecursion HasEdgeWidth edges.now }
{
    for edge in edges {
        edge_has_widths(edge);
    }
}
