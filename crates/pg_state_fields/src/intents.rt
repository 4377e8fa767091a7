//! Intentions, read.

ghost use Rattle.std.specs.Prelude.{◌≡◌, [], true, IfOk};
ghost use Rattle.pg_intent.specs.Intent.{key_of};
ghost use Rattle.pg_packet_fields.specs.Faults.{Gives};
ghost use Rattle.pg_packet_fields.specs.Lists.{many};
ghost use Rattle.pg_state_fields.specs.Intents.{all_intents_at, bye_at, confirm_at, fill_at, fresh_file_at, fresh_peer_at, intent_at, is_fresh, key_with, leave_at, patch_at, peer_birth_at, same_at, seek_at, with_intent};

use crate::flags::{entry_with, read_own};
use crate::orders::read_target;
use pg_base::{FileId, NodeId};
use pg_codec::Reader;
use pg_intent::{Intent, IntentKey, Intents};
use pg_packet_fields::{PacketError, read_dir, read_server};
use std::alloc::Global;

/// What stands in the key of an intention before a file, which is its last part.
#[derive(Clone, Copy, Debug)]
pub enum FileKey {
    Seek,
    Fill,
    Leave,
    Patch(FileId),
    Confirm(FileId),
}

impl FileKey {
    fn with(self, file: FileId) -> IntentKey
        ensures { result ≡ key_with self file }
    {
        match self {
            FileKey::Seek => IntentKey::Seek { file },
            FileKey::Fill => IntentKey::Fill { file },
            FileKey::Leave => IntentKey::Leave { file },
            FileKey::Patch(dir) => IntentKey::Patch { dir, child: file },
            FileKey::Confirm(dir) => IntentKey::Confirm { dir, child: file },
        }
    }
}

/// Whether no intention of these has the key.
fn is_fresh(done: &Intents, key: &IntentKey) -> bool
    ensures { result ≡ is_fresh done.now key.now }
{
    done.get(key).is_none()
}

/// A file that makes a key which none of these has.
#[tactic(auto, unfolding(crate::specs::Intents::fresh_file_at))]
fn read_fresh_file(
    done: &Intents,
    of: FileKey,
    reader: &mut Reader<'_>,
) -> Result<FileId, PacketError>
    ensures read { Gives (λ f. (f, reader.new)) result (fresh_file_at done.now of reader.old) }
    ensures fresh { IfOk result (λ f. is_fresh done.now (key_with of f) ≡ true) }
{
    let place = reader.place();
    let file = reader.file()?;
    let key = of.with(file);
    if is_fresh(done, &key) {
        Ok(file)
    } else {
        Err(PacketError::BadTag(place))
    }
}

/// A peer that makes the key of a Bye which none of these has.
#[tactic(auto, unfolding(crate::specs::Intents::fresh_peer_at))]
fn read_fresh_peer(
    done: &Intents,
    file: FileId,
    birth: u64,
    reader: &mut Reader<'_>,
) -> Result<NodeId, PacketError>
    ensures read { Gives (λ p. (p, reader.new)) result
        (fresh_peer_at done.now file birth reader.old) }
    ensures fresh { IfOk result (λ peer.
        is_fresh done.now (IntentKey.Bye file birth peer) ≡ true) }
{
    let place = reader.place();
    let peer = read_server(reader)?;
    let key = IntentKey::Bye { file, birth, peer };
    if is_fresh(done, &key) {
        Ok(peer)
    } else {
        Err(PacketError::BadTag(place))
    }
}

/// The target of an intention that is for its peer alone.
#[tactic(auto, unfolding(crate::specs::Intents::same_at))]
fn read_same(peer: NodeId, reader: &mut Reader<'_>) -> Result<NodeId, PacketError>
    ensures { Gives (λ n. (n, reader.new)) result (same_at peer reader.old) }
{
    let place = reader.place();
    let target = reader.u32()?;
    if target == peer {
        Ok(target)
    } else {
        Err(PacketError::BadTag(place))
    }
}

/// The birth of the peer's replica, and the peer again as target.
#[tactic(auto, unfolding(crate::specs::Intents::peer_birth_at))]
fn read_peer_birth(peer: NodeId, reader: &mut Reader<'_>) -> Result<u64, PacketError>
    ensures { Gives (λ n. (n, reader.new)) result (peer_birth_at peer reader.old) }
{
    let birth = reader.u64()?;
    read_same(peer, reader)?;
    Ok(birth)
}

#[tactic(auto, unfolding(crate::specs::Intents::bye_at))]
fn read_bye(done: &Intents, reader: &mut Reader<'_>) -> Result<Intent, PacketError>
    ensures read { Gives (λ i. (i, reader.new)) result (bye_at done.now reader.old) }
    ensures fresh { IfOk result (λ i. is_fresh done.now (key_of i) ≡ true) }
{
    let file = reader.file()?;
    let birth = reader.u64()?;
    let peer = read_fresh_peer(done, file, birth, reader)?;
    let peer_birth = read_peer_birth(peer, reader)?;
    Ok(Intent::Bye {
        file,
        birth,
        peer,
        peer_birth,
    })
}

#[tactic(auto, unfolding(crate::specs::Intents::seek_at))]
fn read_seek(done: &Intents, reader: &mut Reader<'_>) -> Result<Intent, PacketError>
    ensures read { Gives (λ i. (i, reader.new)) result (seek_at done.now reader.old) }
    ensures fresh { IfOk result (λ i. is_fresh done.now (key_of i) ≡ true) }
{
    let file = read_fresh_file(done, FileKey::Seek, reader)?;
    let target = read_target(reader)?;
    Ok(Intent::Seek { file, target })
}

#[tactic(auto, unfolding(crate::specs::Intents::fill_at))]
fn read_fill(done: &Intents, reader: &mut Reader<'_>) -> Result<Intent, PacketError>
    ensures read { Gives (λ i. (i, reader.new)) result (fill_at done.now reader.old) }
    ensures fresh { IfOk result (λ i. is_fresh done.now (key_of i) ≡ true) }
{
    let file = read_fresh_file(done, FileKey::Fill, reader)?;
    let birth = reader.u64()?;
    let target = read_target(reader)?;
    Ok(Intent::Fill {
        file,
        birth,
        target,
    })
}

#[tactic(auto, unfolding(crate::specs::Intents::patch_at))]
fn read_patch(alloc: Global, done: &Intents, reader: &mut Reader<'_>) -> Result<Intent, PacketError>
    ensures read { Gives (λ i. (i, reader.new)) result (patch_at done.now reader.old) }
    ensures fresh { IfOk result (λ i. is_fresh done.now (key_of i) ≡ true) }
{
    let dir = read_dir(reader)?;
    let child = read_fresh_file(done, FileKey::Patch(dir), reader)?;
    let own = read_own(alloc, reader)?;
    let target = read_target(reader)?;
    Ok(Intent::Patch {
        dir,
        entry: entry_with(child, own),
        target,
    })
}

#[tactic(auto, unfolding(crate::specs::Intents::confirm_at))]
fn read_confirm(done: &Intents, reader: &mut Reader<'_>) -> Result<Intent, PacketError>
    ensures read { Gives (λ i. (i, reader.new)) result (confirm_at done.now reader.old) }
    ensures fresh { IfOk result (λ i. is_fresh done.now (key_of i) ≡ true) }
{
    let dir = read_dir(reader)?;
    let child = read_fresh_file(done, FileKey::Confirm(dir), reader)?;
    let target = read_target(reader)?;
    Ok(Intent::Confirm { dir, child, target })
}

#[tactic(auto, unfolding(crate::specs::Intents::leave_at))]
fn read_leave(done: &Intents, reader: &mut Reader<'_>) -> Result<Intent, PacketError>
    ensures read { Gives (λ i. (i, reader.new)) result (leave_at done.now reader.old) }
    ensures fresh { IfOk result (λ i. is_fresh done.now (key_of i) ≡ true) }
{
    let file = read_fresh_file(done, FileKey::Leave, reader)?;
    let peer = read_server(reader)?;
    let peer_birth = read_peer_birth(peer, reader)?;
    Ok(Intent::Leave {
        file,
        peer,
        peer_birth,
    })
}

/// An intention behind these. Its kind stands in front.
#[tactic(auto, unfolding(crate::specs::Intents::intent_at))]
fn read_intent(
    alloc: Global,
    done: &Intents,
    reader: &mut Reader<'_>,
) -> Result<Intent, PacketError>
    ensures read { Gives (λ i. (i, reader.new)) result (intent_at done.now reader.old) }
    ensures fresh { IfOk result (λ i. is_fresh done.now (key_of i) ≡ true) }
{
    let place = reader.place();
    match reader.u8()? {
        1 => read_bye(done, reader),
        2 => read_seek(done, reader),
        3 => read_fill(done, reader),
        4 => read_patch(alloc, done, reader),
        5 => read_confirm(done, reader),
        6 => read_leave(done, reader),
        _ => Err(PacketError::BadTag(place)),
    }
}

/// So many intentions.
fn read_each_intent(
    alloc: Global,
    count: u32,
    reader: &mut Reader<'_>,
) -> Result<Intents, PacketError>
    ensures { Gives (λ is. (is, reader.new)) result
        (many intent_at with_intent count [] [] reader.old) }
{
    let mut intents = Intents::new(alloc);
    for _ in 0..count {
        let intent = read_intent(alloc, &intents, reader)?;
        intents.begin(intent)?;
    }
    Ok(intents)
}

/// A count of intentions, and the intentions in the order in which they began.
#[tactic(auto, unfolding(crate::specs::Intents::all_intents_at))]
pub fn read_intents(alloc: Global, reader: &mut Reader<'_>) -> Result<Intents, PacketError>
    ensures { Gives (λ is. (is, reader.new)) result (all_intents_at reader.old) }
{
    let count = reader.u32()?;
    read_each_intent(alloc, count, reader)
}
