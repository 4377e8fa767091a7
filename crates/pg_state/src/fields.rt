//! Which fields have a spelling in a state.

ghost use Rattle.std.specs.Prelude.{ℕ, ◌<◌, ◌^◌, ◌↔◌, IsTrue};
ghost use Rattle.std.specs.List.{AllByRecursion};
ghost use Rattle.pg_base.specs.declared.vector.Actor.{Actor};
ghost use Rattle.pg_register.specs.declared.flag.Flag.{Flag};
ghost use Rattle.pg_base.specs.Vector.{IsVector};
ghost use Rattle.pg_words.specs.FileWord.{IsDirectory};
ghost use Rattle.pg_words.specs.PlaceWords.{IsPlace};
ghost use Rattle.pg_packet_write.specs.Fits.{FitsHead, FitsKey, FitsVector, IsServer};
ghost use Rattle.pg_state.specs.Fits.{FitFlags, FitsChild, IsTarget};

use pg_base::{Actor, FileId, Head, Kind, NodeId, Vector};
use pg_edges::Key;
use pg_entries::Entry;
use pg_register::{Flag, GoldFlags, Place, is_place_name};

/// Whether it is the number of a server.
pub(crate) fn is_server(server: NodeId) -> bool
    ensures { IsTrue result ↔ IsServer server }
{
    1 <= server && server <= 64
}

/// Whether it is the number of a server, or 0.
pub(crate) fn is_target(server: NodeId) -> bool
    ensures { IsTrue result ↔ IsTarget server }
{
    server <= 64
}

/// Whether the id is that of a directory.
pub(crate) fn is_directory(id: FileId) -> bool
    ensures { IsTrue result ↔ IsDirectory id }
{
    match id.kind {
        Kind::Dir => true,
        Kind::File => false,
    }
}

/// Whether the place stands in a directory, under a name that a place may have.
pub(crate) fn fits_place(place: &Place) -> bool
    ensures { IsTrue result ↔ IsPlace place.now }
{
    // These have their widths.
    let _time = place.stamp.time;
    let _server = place.stamp.server;
    is_directory(place.parent) && is_place_name(place.name.as_slice())
}

fn are_of_servers(flags: &[Flag]) -> bool
    ensures { IsTrue result ↔ AllByRecursion (λ (flag : Flag). IsServer flag.server) flags.now }
{
    for flag in flags {
        if !is_server(flag.server) {
            return false;
        }
    }
    true
}

fn is_low(flag: &Flag) -> bool
    ensures { IsTrue result ↔ (flag.now.number < 2 ^ 63) }
{
    flag.number < 1 << 63
}

fn are_low(flags: &[Flag]) -> bool
    ensures { IsTrue result ↔ AllByRecursion (λ (flag : Flag). flag.number < 2 ^ 63) flags.now }
{
    for flag in flags {
        if !is_low(flag) {
            return false;
        }
    }
    true
}

/// Whether there are at most 64 flags, each of a server and with a number below 2^63.
pub(crate) fn fit_flags(flags: &GoldFlags) -> bool
    ensures { IsTrue result ↔ FitFlags flags.now }
{
    let flags = flags.as_slice();
    flags.len() <= 64 && are_of_servers(flags) && are_low(flags)
}

/// Whether place and flags fit.
pub(crate) fn fits_child(entry: &Entry) -> bool
    ensures { IsTrue result ↔ FitsChild entry.now }
{
    fits_place(&entry.place) && fit_flags(&entry.flags)
}

fn are_actors(vector: &[(Actor, u64)]) -> bool
    ensures { IsTrue result
        ↔ AllByRecursion (λ (known : Actor × ℕ). IsServer known.0.server) vector.now }
{
    for known in vector {
        if !is_server(known.0.server) {
            return false;
        }
    }
    true
}

/// Whether there are at most 256 actors, each of a server.
fn fits_vector(vector: &Vector) -> bool
    ensures test { IsTrue result ↔ FitsVector vector.now }
    ensures vector { IsVector vector.now }
{
    vector.len() <= 256 && are_actors(vector.entries())
}

/// Whether the head's number is at least 1, and its vector fits.
pub(crate) fn fits_head(head: &Head) -> bool
    ensures test { IsTrue result ↔ FitsHead head.now }
    ensures vector { IsVector head.now.vector }
{
    let fits = fits_vector(&head.vector);
    1 <= head.number && fits
}

/// Whether the server of the key is one, where it is the key of a flag.
pub(crate) fn fits_key(key: &Key) -> bool
    ensures { IsTrue result ↔ FitsKey key.now }
{
    match key {
        Key::Flag(server) => is_server(*server),
        _ => true,
    }
}
