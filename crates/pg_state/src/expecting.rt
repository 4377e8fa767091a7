//! Which intentions, wishes and announced versions have a spelling in a state.

ghost use Rattle.std.specs.Prelude.{◌≡◌, ◌↔◌, IsTrue};
ghost use Rattle.std.specs.List.{AllByRecursion};
ghost use Rattle.pg_base.specs.declared.id.FileId.{FileId};
ghost use Rattle.pg_store.specs.declared.wishes.Wish.{Wish};
ghost use Rattle.pg_state.specs.Fits.{FitIntents, FitNotes, FitWishes, FitsIntent, FitsNote, IsTarget};

use crate::fields::{fits_child, fits_head, is_directory, is_server, is_target};
use crate::fitting::MOST_COUNTED;
use pg_announced::{Announced, Announcements, NoteKey};
use pg_base::{FileId, Stamp};
use pg_intent::{Intent, Intents};
use pg_store::{Wish, Wishes};
use std::collections::BTreeMap;

fn fits_intent(intent: &Intent) -> bool
    ensures { IsTrue result ↔ FitsIntent intent.now }
{
    match intent {
        Intent::Bye { peer, .. } => is_server(*peer),
        Intent::Seek { target, .. } => is_target(*target),
        Intent::Fill { target, .. } => is_target(*target),
        Intent::Patch { dir, entry, target } => {
            is_directory(*dir) && fits_child(entry) && is_target(*target)
        }
        Intent::Confirm { dir, target, .. } => is_directory(*dir) && is_target(*target),
        Intent::Leave { peer, .. } => is_server(*peer),
    }
}

fn fit_each_intent(intents: &Intents) -> bool
    ensures { IsTrue result ↔ AllByRecursion FitsIntent intents.now }
{
    for intent in intents.iter() {
        if !fits_intent(intent) {
            return false;
        }
    }
    true
}

pub(crate) fn fit_intents(intents: &Intents) -> bool
    ensures { IsTrue result ↔ FitIntents intents.now }
{
    intents.len() <= MOST_COUNTED && fit_each_intent(intents)
}

fn fit_each_wish(wishes: &BTreeMap<FileId, Wish>) -> bool
    ensures { IsTrue result
        ↔ AllByRecursion (λ (w : FileId × Wish). IsTarget w.1.target) wishes.now.entries }
{
    for (_, wish) in wishes {
        if !is_target(wish.target) {
            return false;
        }
    }
    true
}

pub(crate) fn fit_wishes(wishes: &Wishes) -> bool
    ensures { IsTrue result ↔ FitWishes wishes.now }
{
    let by_id = wishes.as_map();
    by_id.len() <= MOST_COUNTED && fit_each_wish(by_id)
}

fn is_same_stamp(a: Stamp, b: Stamp) -> bool
    ensures { IsTrue result ↔ (a ≡ b) }
{
    a == b
}

fn fits_note(key: &NoteKey, note: &Announced) -> bool
    ensures { IsTrue result ↔ FitsNote (key.now, note.now) }
{
    let head = note.head.get();
    fits_head(head)
        && is_same_stamp(key.stamp, head.stamp)
        && is_target(note.source)
        && note.bytes.len() <= MOST_COUNTED
}

fn fit_each_note(notes: &BTreeMap<NoteKey, Announced>) -> bool
    ensures { IsTrue result ↔ AllByRecursion FitsNote notes.now.entries }
{
    for (key, note) in notes {
        if !fits_note(key, note) {
            return false;
        }
    }
    true
}

pub(crate) fn fit_notes(notes: &Announcements) -> bool
    ensures { IsTrue result ↔ FitNotes notes.now }
{
    let by_version = notes.as_map();
    by_version.len() <= MOST_COUNTED && fit_each_note(by_version)
}
