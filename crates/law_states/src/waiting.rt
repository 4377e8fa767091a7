//! What the types of intentions, wishes and announced versions keep.

ghost use Rattle.std.specs.List.{AllByRecursion};
ghost use Rattle.law_states.specs.Widths.{HasIntentWidth, HasNoteWidth, HasWishWidth};

use crate::widths::{bytes_are, entry_has_widths, file_is, head_has_widths, wide_is};
use pg_announced::{Announced, NoteKey};
use pg_base::FileId;
use pg_intent::{Intent, Intents};
use pg_store::Wish;
use std::collections::BTreeMap;

fn intent_has_widths(intent: &Intent)
    ensures { HasIntentWidth intent.now }
{
    match intent {
        Intent::Bye {
            file,
            birth,
            peer_birth,
            ..
        } => {
            file_is(*file);
            wide_is(*birth);
            wide_is(*peer_birth)
        }
        Intent::Seek { file, .. } => file_is(*file),
        Intent::Fill { file, birth, .. } => {
            file_is(*file);
            wide_is(*birth)
        }
        Intent::Patch { entry, .. } => entry_has_widths(entry),
        Intent::Confirm { child, .. } => file_is(*child),
        Intent::Leave {
            file,
            peer_birth,
            ..
        } => {
            file_is(*file);
            wide_is(*peer_birth)
        }
    }
}

pub(crate) fn intents_have_widths(intents: &Intents)
    ensures { AllByRecursion HasIntentWidth intents.now }
{
    for intent in intents.iter() {
        intent_has_widths(intent);
    }
}

fn wish_has_widths(id: FileId, wish: &Wish)
    ensures { HasWishWidth (id, wish.now) }
{
    file_is(id);
    wide_is(wish.birth)
}

pub(crate) fn wishes_have_widths(wishes: &BTreeMap<FileId, Wish>)
    ensures { AllByRecursion HasWishWidth wishes.now.entries }
{
    for (id, wish) in wishes {
        wish_has_widths(*id, wish);
    }
}

fn note_has_widths(key: &NoteKey, note: &Announced)
    ensures { HasNoteWidth (key.now, note.now) }
{
    file_is(key.file);
    head_has_widths(note.head.get());
    wide_is(note.tag);
    bytes_are(note.bytes.as_slice())
}

pub(crate) fn notes_have_widths(notes: &BTreeMap<NoteKey, Announced>)
    ensures { AllByRecursion HasNoteWidth notes.now.entries }
{
    for (key, note) in notes {
        note_has_widths(key, note);
    }
}
