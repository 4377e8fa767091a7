//! Wishes and announced versions, read.

ghost use Rattle.std.specs.Prelude.{◌≡◌, ◌<◌, [], None, true, IfOk};
ghost use Rattle.pg_announced.specs.Announced.{key_at, key_cmp};
ghost use Rattle.pg_base.specs.Id.{file_cmp};
ghost use Rattle.pg_packet_fields.specs.Faults.{Gives};
ghost use Rattle.pg_packet_fields.specs.Lists.{many};
ghost use Rattle.pg_packet_fields.specs.Names.{counted_at};
ghost use Rattle.pg_state_read.specs.Later.{is_from, note_at, note_file_at, note_head_at, note_stamp_at, note_with, notes_at, source_at, to_noted, to_wished, wish_at, wishes_at};
ghost use Rattle.pg_state_fields.specs.Orders.{is_behind};

use pg_announced::{Announced, Announcements, NoteKey};
use pg_base::{Bytes, FileId, Head, NodeId, Shared, Stamp};
use pg_codec::Reader;
use pg_packet_fields::{PacketError, read_vector};
use pg_state_fields::{read_next_file, read_ordinal, read_target};
use pg_store::{Wish, Wishes};
use std::alloc::Global;

/// The wish for a thing behind the last one.
#[tactic(auto, unfolding(crate::specs::Later::wish_at))]
fn read_wish(last: Option<FileId>, reader: &mut Reader<'_>) -> Result<(FileId, Wish), PacketError>
    ensures read { Gives (λ w. (w, reader.new)) result (wish_at last reader.old) }
    ensures behind { IfOk result (λ w. is_behind file_cmp last w.0 ≡ true) }
{
    let file = read_next_file(last, reader)?;
    let birth = reader.u64()?;
    let target = read_target(reader)?;
    Ok((file, Wish { birth, target }))
}

/// So many wishes.
fn read_each_wish(alloc: Global, count: u32, reader: &mut Reader<'_>) -> Result<Wishes, PacketError>
    ensures { Gives (λ ws. (ws, reader.new)) result
        (many wish_at to_wished count None [] reader.old) }
{
    let mut wishes = Wishes::new(alloc);
    let mut last = None;
    for _ in 0..count {
        let wished = read_wish(last, reader)?;
        wishes.put(wished.0, wished.1)?;
        last = Some(wished.0);
    }
    Ok(wishes)
}

/// A count of wishes, and the wishes by id.
#[tactic(auto, unfolding(crate::specs::Later::wishes_at))]
pub fn read_wishes(alloc: Global, reader: &mut Reader<'_>) -> Result<Wishes, PacketError>
    ensures { Gives (λ ws. (ws, reader.new)) result (wishes_at reader.old) }
{
    let count = reader.u32()?;
    read_each_wish(alloc, count, reader)
}

fn is_from(last: Option<NoteKey>, file: FileId) -> bool
    ensures { result ≡ is_from last file }
{
    match last {
        Some(last) => last.file.compare(&file).is_le(),
        None => true,
    }
}

/// A file that is not before that of the last version.
#[tactic(auto, unfolding(crate::specs::Later::note_file_at))]
fn read_note_file(last: Option<NoteKey>, reader: &mut Reader<'_>) -> Result<FileId, PacketError>
    ensures { Gives (λ f. (f, reader.new)) result (note_file_at last reader.old) }
{
    let place = reader.place();
    let file = reader.file()?;
    if is_from(last, file) {
        Ok(file)
    } else {
        Err(PacketError::BadTag(place))
    }
}

fn is_key_behind(last: Option<NoteKey>, key: NoteKey) -> bool
    ensures { result ≡ is_behind key_cmp last key }
{
    match last {
        Some(last) => {
            let files = last.file.compare(&key.file);
            files.then(last.stamp.cmp(&key.stamp)).is_lt()
        }
        None => true,
    }
}

/// A stamp with which the version of the file is behind the last one.
#[tactic(auto, unfolding(crate::specs::Later::note_stamp_at))]
fn read_note_stamp(
    last: Option<NoteKey>,
    file: FileId,
    reader: &mut Reader<'_>,
) -> Result<Stamp, PacketError>
    ensures read { Gives (λ s. (s, reader.new)) result (note_stamp_at last file reader.old) }
    ensures behind { IfOk result (λ s. is_behind key_cmp last (key_at file s) ≡ true) }
{
    let place = reader.place();
    let stamp = reader.stamp()?;
    if is_key_behind(last, NoteKey { file, stamp }) {
        Ok(stamp)
    } else {
        Err(PacketError::BadTag(place))
    }
}

/// The head of a version of the file that is behind the last one.
#[tactic(auto, unfolding(crate::specs::Later::note_head_at))]
fn read_note_head(
    alloc: Global,
    last: Option<NoteKey>,
    file: FileId,
    reader: &mut Reader<'_>,
) -> Result<Head, PacketError>
    ensures read { Gives (λ h. (h, reader.new)) result (note_head_at last file reader.old) }
    ensures behind { IfOk result (λ h. is_behind key_cmp last (key_at file h.stamp) ≡ true) }
{
    let stamp = read_note_stamp(last, file, reader)?;
    let birth = reader.u64()?;
    let number = read_ordinal(reader)?;
    let vector = read_vector(alloc, reader)?;
    let length = reader.u32()?;
    Ok(Head {
        stamp,
        birth,
        number,
        vector,
        length,
    })
}

/// Bytes behind their number.
fn read_counted(alloc: Global, reader: &mut Reader<'_>) -> Result<Bytes, PacketError>
    ensures { Gives (λ b. (b, reader.new)) result (counted_at 4 reader.old) }
{
    let count = reader.u32()?;
    let bytes = reader.take(count as usize)?;
    Ok(Bytes::from_slice(alloc, bytes)?)
}

/// The server that is asked for a version, the tag, and the bytes that are here.
#[tactic(auto, unfolding(crate::specs::Later::source_at))]
fn read_source(
    alloc: Global,
    reader: &mut Reader<'_>,
) -> Result<(NodeId, (u64, Bytes)), PacketError>
    ensures { Gives (λ s. (s, reader.new)) result (source_at reader.old) }
{
    let source = read_target(reader)?;
    let tag = reader.u64()?;
    let bytes = read_counted(alloc, reader)?;
    Ok((source, (tag, bytes)))
}

/// A version behind the last one, with what is noted of it.
#[tactic(auto, unfolding(crate::specs::Later::note_at))]
fn read_note(
    alloc: Global,
    last: Option<NoteKey>,
    reader: &mut Reader<'_>,
) -> Result<(NoteKey, Announced), PacketError>
    ensures read { Gives (λ n. (n, reader.new)) result (note_at last reader.old) }
    ensures behind { IfOk result (λ n. is_behind key_cmp last n.0 ≡ true) }
{
    let file = read_note_file(last, reader)?;
    let head = read_note_head(alloc, last, file, reader)?;
    let (source, (tag, bytes)) = read_source(alloc, reader)?;
    let stamp = head.stamp;
    let head = Shared::new(alloc, head)?;
    Ok((
        NoteKey { file, stamp },
        Announced {
            head,
            source,
            tag,
            bytes,
        },
    ))
}

/// So many announced versions.
fn read_each_note(
    alloc: Global,
    count: u32,
    reader: &mut Reader<'_>,
) -> Result<Announcements, PacketError>
    ensures { Gives (λ ns. (ns, reader.new)) result
        (many note_at to_noted count None [] reader.old) }
{
    let mut notes = Announcements::new(alloc);
    let mut last = None;
    for _ in 0..count {
        let noted = read_note(alloc, last, reader)?;
        last = Some(noted.0);
        notes.put(noted.0, noted.1)?;
    }
    Ok(notes)
}

/// A count of announced versions, and these by file and stamp.
#[tactic(auto, unfolding(crate::specs::Later::notes_at))]
pub fn read_notes(alloc: Global, reader: &mut Reader<'_>) -> Result<Announcements, PacketError>
    ensures { Gives (λ ns. (ns, reader.new)) result (notes_at reader.old) }
{
    let count = reader.u32()?;
    read_each_note(alloc, count, reader)
}
