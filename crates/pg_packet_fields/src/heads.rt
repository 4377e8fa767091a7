//! Vectors, heads and versions, read.

ghost use Rattle.std.specs.Prelude.{◌≡◌, ◌<◌, ◌≤◌, ◌⊎◌, [], IfOk};
ghost use Rattle.pg_codec.specs.Reading.{checked, number_at};
ghost use Rattle.pg_packet_fields.specs.Faults.{Gives, of_packet};
ghost use Rattle.pg_packet_fields.specs.Heads.{birth_of, from_of, front_at, head_at, known_at, nobody, some_at, to_actor, vector_at, version_at};
ghost use Rattle.pg_packet_fields.specs.Lists.{count_of, many};

use crate::error::PacketError;
use crate::lists::read_count;
use crate::patches::read_bytes;
use pg_base::{Actor, Head, NodeId, Vector, Version};
use pg_codec::Reader;
use std::alloc::Global;

/// A server that is not before the last one.
fn read_from(last: NodeId, reader: &mut Reader<'_>) -> Result<NodeId, PacketError>
    ensures read { Gives (λ n. (n, reader.new)) result
        (checked (from_of last) (of_packet (number_at 4)) reader.old) }
    ensures least { IfOk result (λ n. last ≤ n) }
{
    let place = reader.place();
    let server = reader.u32()?;
    if last <= server && (1 <= server && server <= 64) {
        Ok(server)
    } else {
        Err(PacketError::BadTag(place))
    }
}

/// A birth at the server, which makes an actor behind the last one.
fn read_birth(last: Actor, server: NodeId, reader: &mut Reader<'_>) -> Result<u64, PacketError>
    ensures read { Gives (λ n. (n, reader.new)) result
        (checked (birth_of last server) (of_packet (number_at 8)) reader.old) }
    ensures behind { IfOk result (λ n. (last.server < server) ⊎ (last.birth < n)) }
{
    let place = reader.place();
    let birth = reader.u64()?;
    if last.server < server || last.birth < birth {
        Ok(birth)
    } else {
        Err(PacketError::BadTag(place))
    }
}

/// A number that is not 0.
#[tactic(auto, unfolding(crate::specs::Heads::some_at))]
fn read_some(reader: &mut Reader<'_>) -> Result<u64, PacketError>
    ensures read { Gives (λ n. (n, reader.new)) result (some_at reader.old) }
    ensures least { IfOk result (λ n. 1 ≤ n) }
{
    let place = reader.place();
    let number = reader.u64()?;
    if 1 <= number {
        Ok(number)
    } else {
        Err(PacketError::BadTag(place))
    }
}

/// An actor behind the last one, and its number.
#[tactic(auto, unfolding(crate::specs::Heads::known_at))]
fn read_known(last: Actor, reader: &mut Reader<'_>) -> Result<(Actor, u64), PacketError>
    ensures read { Gives (λ k. (k, reader.new)) result (known_at last reader.old) }
    ensures server { IfOk result (λ k. last.server ≤ k.0.server) }
    ensures behind { IfOk result (λ k. (last.server < k.0.server) ⊎ (last.birth < k.0.birth)) }
    ensures least { IfOk result (λ k. 1 ≤ k.1) }
{
    let server = read_from(last.server, reader)?;
    let birth = read_birth(last, server, reader)?;
    let number = read_some(reader)?;
    Ok((Actor { server, birth }, number))
}

/// So many actors.
fn read_each_known(
    alloc: Global,
    count: u16,
    reader: &mut Reader<'_>,
) -> Result<Vector, PacketError>
    ensures { Gives (λ v. (v, reader.new)) result
        (many known_at to_actor count nobody [] reader.old) }
{
    let mut vector = Vector::new(alloc);
    let mut last = Actor {
        server: 0,
        birth: 0,
    };
    for _ in 0..count {
        let known = read_known(last, reader)?;
        vector.raise(known.0, known.1)?;
        last = known.0;
    }
    Ok(vector)
}

/// A count of actors, and the actors in their order, each with its number.
#[tactic(auto, unfolding(crate::specs::Heads::vector_at))]
pub fn read_vector(alloc: Global, reader: &mut Reader<'_>) -> Result<Vector, PacketError>
    ensures { Gives (λ v. (v, reader.new)) result (vector_at reader.old) }
{
    let count = read_count(reader)?;
    read_each_known(alloc, count, reader)
}

/// The head of a version that is told without its body. Its number is not 0: a number is counted
/// from 1.
#[tactic(auto, unfolding(crate::specs::Heads::head_at))]
pub fn read_head(alloc: Global, reader: &mut Reader<'_>) -> Result<Head, PacketError>
    ensures { Gives (λ h. (h, reader.new)) result (head_at reader.old) }
{
    let stamp = reader.stamp()?;
    let birth = reader.u64()?;
    let number = read_some(reader)?;
    let vector = read_vector(alloc, reader)?;
    let length = reader.u32()?;
    Ok(Head {
        stamp,
        birth,
        number,
        vector,
        length,
    })
}

/// The length of a body that follows.
fn read_length(reader: &mut Reader<'_>) -> Result<u32, PacketError>
    ensures { Gives (λ n. (n, reader.new)) result
        (checked (count_of 1024) (of_packet (number_at 4)) reader.old) }
{
    let place = reader.place();
    let length = reader.u32()?;
    if length <= 1024 {
        Ok(length)
    } else {
        Err(PacketError::TooLong(place))
    }
}

/// The head of a version whose body follows.
#[tactic(auto, unfolding(crate::specs::Heads::front_at))]
fn read_front(alloc: Global, reader: &mut Reader<'_>) -> Result<Head, PacketError>
    ensures read { Gives (λ h. (h, reader.new)) result (front_at reader.old) }
    ensures some { IfOk result (λ h. 0 < h.number) }
{
    let stamp = reader.stamp()?;
    let birth = reader.u64()?;
    let number = read_some(reader)?;
    let vector = read_vector(alloc, reader)?;
    let length = read_length(reader)?;
    Ok(Head {
        stamp,
        birth,
        number,
        vector,
        length,
    })
}

/// A version: its head and its body.
#[tactic(auto, unfolding(crate::specs::Heads::version_at))]
pub fn read_version(alloc: Global, reader: &mut Reader<'_>) -> Result<Version, PacketError>
    ensures { Gives (λ v. (v, reader.new)) result (version_at reader.old) }
{
    let head = read_front(alloc, reader)?;
    let body = read_bytes(alloc, head.length, reader)?;
    Ok(Version::new(alloc, head, body)?)
}
