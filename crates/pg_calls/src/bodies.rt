//! Calls that write and read the bodies of files.

ghost use Rattle.std.specs.Prelude.{◌≡◌, IfOk, OnOk, true};
ghost use Rattle.pg_patch.specs.Ranges.{RangesValue, cut_to, written};
ghost use Rattle.pg_cells.specs.pg_store.Store.{has_replica, is_before_clock_end};
ghost use Rattle.pg_calls.specs.Bodies.{Makes, change, change_file, cut, read, shown_part, write};

use crate::making::{make_version, next_stamp};
use pg_base::{FileId, SharedBytes};
use pg_cells::call::{Payload, ReadCount, Refusal, Reply};
use pg_cells::msg::Work;
use pg_cells::store::Store;
use pg_checks::{deny, file_at};
use pg_content::WriteError;
use pg_patch::{RangeError, Ranges, cut as cut_to, make};
use std::alloc::{AllocError, Global};

/// The bytes stand at the offset from then on, over what stood there. Where that is refused nothing
/// changes. After out of memory a part may be done.
pub(crate) fn write(
    store: &mut Store,
    text: &[u8],
    offset: u32,
    bytes: &Payload,
    work: &mut Work,
) -> Result<Reply, AllocError>
    ensures store { OnOk result
        (store.new ≡ (write store.old text.now offset bytes.now work.old).store) }
    ensures work { OnOk result
        (work.new ≡ (write store.old text.now offset bytes.now work.old).work) }
    ensures reply { IfOk result
        (λ r. r ≡ (write store.old text.now offset bytes.now work.old).reply) }
{
    let ranges = write_ranges(store.allocator(), offset, bytes);
    let reply = change(store, text, ranges, work)?;
    Ok(reply)
}

/// The body has this length from then on: it is cut, or has zeros behind it. Where that is refused
/// nothing changes. After out of memory a part may be done.
pub(crate) fn cut(
    store: &mut Store,
    text: &[u8],
    length: u32,
    work: &mut Work,
) -> Result<Reply, AllocError>
    ensures store { OnOk result (store.new ≡ (cut store.old text.now length work.old).store) }
    ensures work { OnOk result (work.new ≡ (cut store.old text.now length work.old).work) }
    ensures reply { IfOk result (λ r. r ≡ (cut store.old text.now length work.old).reply) }
{
    let ranges = cut_ranges(store.allocator(), length);
    let reply = change(store, text, ranges, work)?;
    Ok(reply)
}

/// What is shown from the offset on, at most so many bytes. Where it is told nothing changes.
#[tactic(auto, using(crate::proofs::Denials::store_is, crate::proofs::Denials::work_is, crate::proofs::Denials::reply_is))]
pub(crate) fn read(
    store: &mut Store,
    text: &[u8],
    offset: u32,
    count: ReadCount,
    work: &mut Work,
) -> Result<Reply, AllocError>
    ensures store { OnOk result
        (store.new ≡ (read store.old text.now offset count work.old).store) }
    ensures work { OnOk result
        (work.new ≡ (read store.old text.now offset count work.old).work) }
    ensures reply { IfOk result
        (λ r. r ≡ (read store.old text.now offset count work.old).reply) }
{
    match file_at(store, text) {
        Ok(file) => Ok(Reply::Bytes(shown_part(store, &file, offset, count)?)),
        Err(denied) => Ok(deny(store, denied, work)?),
    }
}

fn shown_part(
    store: &Store,
    file: &FileId,
    offset: u32,
    count: ReadCount,
) -> Result<SharedBytes, AllocError>
    ensures { IfOk result (λ bytes. bytes ≡ shown_part store.now file.now offset count) }
{
    match store.replica(file) {
        Some(replica) => {
            let bytes = replica.content.view(u64::from(offset), count.get())?;
            SharedBytes::from_vec(store.allocator(), bytes.into_vec())
        }
        None => SharedBytes::from_slice(store.allocator(), &[]),
    }
}

/// The ranges of these bytes at the offset. They are too long where they would make every body too
/// long.
fn write_ranges(alloc: Global, offset: u32, bytes: &Payload) -> Result<Ranges, RangeError>
    ensures { Makes result (written offset bytes.now) }
{
    make(alloc, offset, bytes.bytes().as_slice())
}

/// The ranges of this length. They are too long where they would make every body too long.
fn cut_ranges(alloc: Global, length: u32) -> Result<Ranges, RangeError>
    ensures { Makes result (cut_to length) }
{
    cut_to(alloc, length)
}

/// A version of the file that the path leads to is made with these ranges. What refuses the path
/// comes before what refuses the ranges.
#[tactic(auto, using(crate::proofs::Denials::store_is, crate::proofs::Denials::work_is, crate::proofs::Denials::reply_is))]
fn change(
    store: &mut Store,
    text: &[u8],
    ranges: Result<Ranges, RangeError>,
    work: &mut Work,
) -> Result<Reply, AllocError>
    ensures store { (r : RangesValue) → Makes ranges r → OnOk result
        (store.new ≡ (change store.old text.now r work.old).store) }
    ensures work { (r : RangesValue) → Makes ranges r → OnOk result
        (work.new ≡ (change store.old text.now r work.old).work) }
    ensures reply { (r : RangesValue) → Makes ranges r → IfOk result
        (λ reply. reply ≡ (change store.old text.now r work.old).reply) }
{
    match file_at(store, text) {
        Ok(file) => Ok(change_file(store, file, ranges, work)?),
        Err(denied) => Ok(deny(store, denied, work)?),
    }
}

/// A version of a file that is there is made with these ranges.
fn change_file(
    store: &mut Store,
    file: FileId,
    ranges: Result<Ranges, RangeError>,
    work: &mut Work,
) -> Result<Reply, AllocError>
    requires { is_before_clock_end store.old ≡ true }
    ensures store { (r : RangesValue) → Makes ranges r → OnOk result
        (store.new ≡ (change_file store.old r work.old file).store) }
    ensures work { (r : RangesValue) → Makes ranges r → OnOk result
        (work.new ≡ (change_file store.old r work.old file).work) }
    ensures reply { (r : RangesValue) → Makes ranges r → IfOk result
        (λ reply. reply ≡ (change_file store.old r work.old file).reply) }
{
    match ranges {
        Ok(ranges) => Ok(change_where_fit(store, file, ranges, work)?),
        Err(RangeError::TooLong) => Ok(Reply::Refused(Refusal::TooLong)),
        Err(RangeError::OutOfMemory) => Err(AllocError),
    }
}

/// A version is made with ranges that are made: the new body is not too long, and then the new
/// vector has not too many actors. What is held has a replica: where it had none it is as if memory
/// ran out.
fn change_where_fit(
    store: &mut Store,
    file: FileId,
    ranges: Ranges,
    work: &mut Work,
) -> Result<Reply, AllocError>
    requires { is_before_clock_end store.old ≡ true }
    ensures store { OnOk result
        (store.new ≡ (change_file store.old ranges work.old file).store) }
    ensures work { OnOk result
        (work.new ≡ (change_file store.old ranges work.old file).work) }
    ensures reply { IfOk result
        (λ reply. reply ≡ (change_file store.old ranges work.old file).reply) }
{
    if !has_replica(store, &file) {
        return Err(AllocError);
    }
    let stamp = next_stamp(store, work.now);
    match make_version(store, file, stamp, ranges, work) {
        Ok(()) => Ok(Reply::Wrote(stamp)),
        Err(WriteError::TooLong) => Ok(Reply::Refused(Refusal::TooLong)),
        Err(WriteError::ManyActors) => Ok(Reply::Refused(Refusal::ManyActors)),
        Err(WriteError::OutOfMemory) => Err(AllocError),
    }
}

fn has_replica(store: &Store, file: &FileId) -> bool
    ensures { result ≡ has_replica store.now file.now }
{
    store.replica(file).is_some()
}
