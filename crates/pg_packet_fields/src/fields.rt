//! Fields, read.

ghost use Rattle.pg_packet_fields.specs.Faults.{Gives, of_packet};
ghost use Rattle.pg_codec.specs.Reading.{checked, number_at};
ghost use Rattle.pg_packet_fields.specs.Reading.{ask_at, dir_at, dir_of, ends_at, key_at, policy_at, server_at, text_at};

use crate::error::PacketError;
use pg_base::{FileId, Kind, NodeId, Policy};
use pg_codec::Reader;
use pg_edges::Key;
use pg_msg::{Ask, Ends};

/// The number of a server.
#[tactic(auto, unfolding(crate::specs::Reading::server_at))]
pub fn read_server(reader: &mut Reader<'_>) -> Result<NodeId, PacketError>
    ensures { Gives (λ n. (n, reader.new)) result (server_at reader.old) }
{
    let place = reader.place();
    let server = reader.u32()?;
    if 1 <= server && server <= 64 {
        Ok(server)
    } else {
        Err(PacketError::BadTag(place))
    }
}

/// The byte that says that a directory follows.
fn read_letter(reader: &mut Reader<'_>) -> Result<u8, PacketError>
    ensures { Gives (λ n. (n, reader.new)) result
        (checked dir_of (of_packet (number_at 1)) reader.old) }
{
    let place = reader.place();
    let letter = reader.u8()?;
    if letter == b'd' {
        Ok(letter)
    } else {
        Err(PacketError::BadTag(place))
    }
}

/// A directory.
#[tactic(auto, unfolding(crate::specs::Reading::dir_at))]
pub fn read_dir(reader: &mut Reader<'_>) -> Result<FileId, PacketError>
    ensures { Gives (λ id. (id, reader.new)) result (dir_at reader.old) }
{
    read_letter(reader)?;
    let server = reader.u32()?;
    let number = reader.u64()?;
    Ok(FileId {
        kind: Kind::Dir,
        server,
        number,
    })
}

#[tactic(auto, unfolding(crate::specs::Reading::policy_at))]
pub fn read_policy(reader: &mut Reader<'_>) -> Result<Policy, PacketError>
    ensures { Gives (λ p. (p, reader.new)) result (policy_at reader.old) }
{
    let place = reader.place();
    match reader.u8()? {
        1 => Ok(Policy::Last),
        2 => Ok(Policy::Join),
        _ => Err(PacketError::BadTag(place)),
    }
}

#[tactic(auto, unfolding(crate::specs::Reading::ask_at))]
pub fn read_ask(reader: &mut Reader<'_>) -> Result<Ask, PacketError>
    ensures { Gives (λ a. (a, reader.new)) result (ask_at reader.old) }
{
    let place = reader.place();
    match reader.u8()? {
        1 => Ok(Ask::Seek),
        2 => Ok(Ask::Confirm),
        3 => Ok(Ask::Patch),
        _ => Err(PacketError::BadTag(place)),
    }
}

/// An edge.
#[tactic(auto, unfolding(crate::specs::Reading::ends_at))]
pub fn read_ends(reader: &mut Reader<'_>) -> Result<Ends, PacketError>
    ensures { Gives (λ e. (e, reader.new)) result (ends_at reader.old) }
{
    let file = reader.file()?;
    let sender = reader.u64()?;
    let receiver = reader.u64()?;
    Ok(Ends {
        file,
        sender,
        receiver,
    })
}

#[tactic(auto, unfolding(crate::specs::Reading::key_at))]
pub fn read_key(reader: &mut Reader<'_>) -> Result<Key, PacketError>
    ensures { Gives (λ k. (k, reader.new)) result (key_at reader.old) }
{
    let place = reader.place();
    match reader.u8()? {
        1 => Ok(Key::Place),
        2 => {
            let server = read_server(reader)?;
            Ok(Key::Flag(server))
        }
        3 => {
            let child = reader.file()?;
            Ok(Key::Entry(child))
        }
        4 => {
            let stamp = reader.stamp()?;
            Ok(Key::Version(stamp))
        }
        _ => Err(PacketError::BadTag(place)),
    }
}

/// A text.
#[tactic(auto, unfolding(crate::specs::Reading::text_at))]
pub fn read_text<'a>(reader: &mut Reader<'a>) -> Result<&'a [u8], PacketError>
    ensures { Gives (λ t. (t.now, reader.new)) result (text_at reader.old) }
{
    let count = reader.u16()?;
    Ok(reader.take(usize::from(count))?)
}
