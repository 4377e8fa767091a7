//! Whether the greatest time is below none that was read.

ghost use Rattle.std.specs.Prelude.{◌≡◌};
ghost use Rattle.std.specs.List.{list_all};
ghost use Rattle.pg_state_read.specs.Whole.{are_in_time, is_entry_in_time, is_head_in_time, is_held_in_time, is_intent_in_time};

use crate::parts::Parts;
use pg_base::Version;
use pg_entries::Entry;
use pg_intent::{Intent, Intents};
use pg_state_fields::Held;

fn is_entry_in_time(last: u64, entry: &Entry) -> bool
    ensures { result ≡ is_entry_in_time last entry.now }
{
    entry.place.stamp.time <= last
}

fn are_entries_in_time(last: u64, entries: &[Entry]) -> bool
    ensures { result ≡ list_all (is_entry_in_time last) entries.now }
{
    for entry in entries {
        if !is_entry_in_time(last, entry) {
            return false;
        }
    }
    true
}

fn is_head_in_time(last: u64, version: &Version) -> bool
    ensures { result ≡ is_head_in_time last version.now }
{
    version.head().stamp.time <= last
}

fn are_heads_in_time(last: u64, heads: &[Version]) -> bool
    ensures { result ≡ list_all (is_head_in_time last) heads.now }
{
    for version in heads {
        if !is_head_in_time(last, version) {
            return false;
        }
    }
    true
}

/// Whether the place, the entries and the heads have no later time.
fn is_held_in_time(last: u64, held: &Held) -> bool
    ensures { result ≡ is_held_in_time last held.now }
{
    held.own.place.stamp.time <= last
        && are_entries_in_time(last, held.entries.as_slice())
        && are_heads_in_time(last, held.replica.content.heads())
}

fn are_held_in_time(last: u64, all: &[Held]) -> bool
    ensures { result ≡ list_all (is_held_in_time last) all.now }
{
    for held in all {
        if !is_held_in_time(last, held) {
            return false;
        }
    }
    true
}

fn is_intent_in_time(last: u64, intent: &Intent) -> bool
    ensures { result ≡ is_intent_in_time last intent.now }
{
    match intent {
        Intent::Patch { entry, .. } => is_entry_in_time(last, entry),
        _ => true,
    }
}

fn are_intents_in_time(last: u64, intents: &Intents) -> bool
    ensures { result ≡ list_all (is_intent_in_time last) intents.now }
{
    for intent in intents.iter() {
        if !is_intent_in_time(last, intent) {
            return false;
        }
    }
    true
}

/// Whether no place and no version has a later time than the greatest.
pub(crate) fn are_in_time(parts: &Parts) -> bool
    ensures { result ≡ are_in_time parts.now }
{
    let last = parts.counters.last;
    are_held_in_time(last, parts.held.as_slice())
        && are_intents_in_time(last, &parts.waiting.intents)
}
