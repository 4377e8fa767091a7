//! What is intended, wished and announced, written.

ghost use Rattle.std.specs.Prelude.{◌≡◌, ◌++◌, OnOk};
ghost use Rattle.std.specs.List.{AllByRecursion, flat_map};
ghost use Rattle.pg_packet_write.specs.Fields.{listed};
ghost use Rattle.pg_state.specs.Fits.{FitIntents, FitNotes, FitWishes, FitsIntent, FitsNote};
ghost use Rattle.pg_state.specs.Spelling.{intent_bytes, note_bytes, target_bytes, wish_bytes};

use pg_announced::{Announced, Announcements, NoteKey};
use pg_base::{Bytes, FileId, NodeId};
use pg_codec::{write_file, write_u8, write_u32, write_u64};
use pg_intent::{Intent, Intents};
use pg_packet_write::{write_block, write_entry, write_head};
use pg_store::{Wish, Wishes};
use std::alloc::AllocError;
use std::collections::BTreeMap;

/// A server that is asked, or 0.
#[tactic(auto, unfolding(crate::specs::Spelling::target_bytes))]
fn write_target(server: NodeId, out: &mut Bytes) -> Result<(), AllocError>
    ensures { OnOk result (out.new ≡ out.old ++ target_bytes server) }
{
    write_u32(server, out)
}

/// The number of its kind, its fields, and its target.
#[tactic(auto, unfolding(crate::specs::Spelling::intent_bytes))]
fn write_intent(intent: &Intent, out: &mut Bytes) -> Result<(), AllocError>
    requires { FitsIntent intent.now }
    ensures { OnOk result (out.new ≡ out.old ++ intent_bytes intent.now) }
{
    match intent {
        Intent::Bye {
            file,
            birth,
            peer,
            peer_birth,
        } => {
            write_u8(1, out)?;
            write_file(*file, out)?;
            write_u64(*birth, out)?;
            write_u32(*peer, out)?;
            write_u64(*peer_birth, out)?;
            write_target(*peer, out)
        }
        Intent::Seek { file, target } => {
            write_u8(2, out)?;
            write_file(*file, out)?;
            write_target(*target, out)
        }
        Intent::Fill {
            file,
            birth,
            target,
        } => {
            write_u8(3, out)?;
            write_file(*file, out)?;
            write_u64(*birth, out)?;
            write_target(*target, out)
        }
        Intent::Patch { dir, entry, target } => {
            write_u8(4, out)?;
            write_file(*dir, out)?;
            write_entry(entry, out)?;
            write_target(*target, out)
        }
        Intent::Confirm { dir, child, target } => {
            write_u8(5, out)?;
            write_file(*dir, out)?;
            write_file(*child, out)?;
            write_target(*target, out)
        }
        Intent::Leave {
            file,
            peer,
            peer_birth,
        } => {
            write_u8(6, out)?;
            write_file(*file, out)?;
            write_u32(*peer, out)?;
            write_u64(*peer_birth, out)?;
            write_target(*peer, out)
        }
    }
}

fn write_each_intent(intents: &Intents, out: &mut Bytes) -> Result<(), AllocError>
    requires { AllByRecursion FitsIntent intents.now }
    ensures { OnOk result (out.new ≡ out.old ++ flat_map intent_bytes intents.now) }
{
    for intent in intents.iter() {
        write_intent(intent, out)?;
    }
    Ok(())
}

/// The intentions, in the order in which they began.
#[tactic(auto, unfolding(pg_packet_write::specs::Fields::listed))]
pub(crate) fn write_intents(intents: &Intents, out: &mut Bytes) -> Result<(), AllocError>
    requires { FitIntents intents.now }
    ensures { OnOk result (out.new ≡ out.old ++ listed 4 intent_bytes intents.now) }
{
    write_u32(intents.len() as u32, out)?;
    write_each_intent(intents, out)
}

#[tactic(auto, unfolding(crate::specs::Spelling::wish_bytes))]
fn write_wish(id: FileId, wish: &Wish, out: &mut Bytes) -> Result<(), AllocError>
    ensures { OnOk result (out.new ≡ out.old ++ wish_bytes (id, wish.now)) }
{
    write_file(id, out)?;
    write_u64(wish.birth, out)?;
    write_target(wish.target, out)
}

fn write_each_wish(wishes: &BTreeMap<FileId, Wish>, out: &mut Bytes) -> Result<(), AllocError>
    ensures { OnOk result (out.new ≡ out.old ++ flat_map wish_bytes wishes.now.entries) }
{
    for (id, wish) in wishes {
        write_wish(*id, wish, out)?;
    }
    Ok(())
}

/// The wishes, by id.
#[tactic(auto, unfolding(pg_packet_write::specs::Fields::listed))]
pub(crate) fn write_wishes(wishes: &Wishes, out: &mut Bytes) -> Result<(), AllocError>
    requires { FitWishes wishes.now }
    ensures { OnOk result (out.new ≡ out.old ++ listed 4 wish_bytes wishes.now) }
{
    let by_id = wishes.as_map();
    write_u32(by_id.len() as u32, out)?;
    write_each_wish(by_id, out)
}

#[tactic(auto, unfolding(crate::specs::Spelling::note_bytes))]
fn write_note(key: &NoteKey, note: &Announced, out: &mut Bytes) -> Result<(), AllocError>
    requires { FitsNote (key.now, note.now) }
    ensures { OnOk result (out.new ≡ out.old ++ note_bytes (key.now, note.now)) }
{
    write_file(key.file, out)?;
    write_head(note.head.get(), out)?;
    write_target(note.source, out)?;
    write_u64(note.tag, out)?;
    write_block(note.bytes.as_slice(), out)
}

fn write_each_note(notes: &BTreeMap<NoteKey, Announced>, out: &mut Bytes) -> Result<(), AllocError>
    requires { AllByRecursion FitsNote notes.now.entries }
    ensures { OnOk result (out.new ≡ out.old ++ flat_map note_bytes notes.now.entries) }
{
    for (key, note) in notes {
        write_note(key, note, out)?;
    }
    Ok(())
}

/// The announced versions, by id and stamp.
#[tactic(auto, unfolding(pg_packet_write::specs::Fields::listed))]
pub(crate) fn write_notes(notes: &Announcements, out: &mut Bytes) -> Result<(), AllocError>
    requires { FitNotes notes.now }
    ensures { OnOk result (out.new ≡ out.old ++ listed 4 note_bytes notes.now) }
{
    let by_version = notes.as_map();
    write_u32(by_version.len() as u32, out)?;
    write_each_note(by_version, out)
}
