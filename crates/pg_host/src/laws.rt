//! What holds of files that are logs of servers.

ghost use Rattle.std.specs.Prelude.{◌≡◌, ◌≤◌, ◌<◌, ◌+◌, ◌-◌, ◌*◌, ◌^◌, ◌∷◌, ◌++◌, List, ℕ, None, Some, length, map, take};
ghost use Rattle.std.specs.declared.option.Option.{Option};
ghost use Rattle.pg_server.specs.Local.{effect_of};
ghost use Rattle.pg_server.specs.declared.input.Input.TheVariants.{Restart};
ghost use Rattle.pg_checkpoint.specs.Loads.{number_of};
ghost use Rattle.pg_checkpoint.specs.Slots.{Slot};
ghost use Rattle.pg_saving.specs.Saves.{IsSavable};
ghost use Rattle.pg_state.specs.Spelling.{state_bytes};
ghost use Rattle.pg_store.specs.declared.store.Store.{Store};
ghost use Rattle.pg_host.specs.declared.asking.Asked.{Asked};
ghost use Rattle.pg_host.specs.Entries.{entries_for};
ghost use Rattle.pg_host.specs.Host.{AreRead};
ghost use Rattle.pg_host.specs.Logs.{IsBadLog, IsOldLog, IsOtherLog, IsOwnLog, Old, begin_entry, begun, goes_on, is_empty};
ghost use Rattle.pg_host.specs.Sends.{after_all};
ghost use Rattle.pg_host.specs.Slots.{IsSavedLast, SlotsBehind, between};

use pg_log::files_open_once;
use pg_node_entry::entries_read_back;

/// A file is a bad log, from one place on, or the log of another server, and of one, or a log to go
/// on with, and never two of these.
pub fn logs_are_of_one_kind()
    ensures place { (file : List ℕ) (a b : ℕ) → IsBadLog file a → IsBadLog file b → a ≡ b }
    ensures bad_own { (server servers place : ℕ) (file : List ℕ)
        → IsBadLog file place → IsOwnLog server servers file → ⊥ }
    ensures bad_other { (server servers place a b : ℕ) (file : List ℕ)
        → IsBadLog file place → IsOtherLog server servers a b file → ⊥ }
    ensures own_other { (server servers a b : ℕ) (file : List ℕ)
        → IsOwnLog server servers file → IsOtherLog server servers a b file → ⊥ }
    ensures other { (server servers a b c d : ℕ) (file : List ℕ)
        → IsOtherLog server servers a b file → IsOtherLog server servers c d file
        → (a ≡ c) × (b ≡ d) }
{
    files_open_once();
}

/// What a server appended is a log that it goes on with: it then begins as it was behind the first
/// of its inputs that the log has, and behind a restart, where it has no checkpoint, or one that
/// agrees with the log.
pub fn logs_go_on()
    ensures log { (server servers k : ℕ) (old : Old) (entries : List (List ℕ)) (own : List Asked)
        → server ≤ 64 → servers ≤ 64 → IsOldLog server servers old entries → AreRead own
        → IsOldLog server servers (goes_on old (take k own))
        (entries ++ begin_entry server servers (is_empty entries) ∷ entries_for (take k own)) }
    ensures begun { (server servers : ℕ) (old : Old) (own : List Asked)
        → begun server servers None (goes_on old own)
        ≡ (effect_of (after_all (begun server servers None old) own) Restart).store }
{
    entries_read_back();
}

/// What was saved last. Where at least 1,024 entries were appended since a server began, `k` times
/// 1,024 and less than 1,024 more, the slots load to what it held behind the first of its inputs,
/// with the entries folded that the log then had: those that it found, and `k` times 1,024. This
/// was to be saved: it has a spelling of fewer than 2^32 bytes, and slots' numbers were left.
/// `count` is how many entries the log had once the entry of the begin was appended.
pub fn states_are_saved()
    ensures { (server servers k count : ℕ) (s : Store) (was now : Option Slot)
        (own : List Asked) → 1 ≤ k → between * k ≤ length own + 1
        → length own + 1 < between * k + between
        → SlotsBehind server servers 1 count s was own now
        → IsSavable server servers (after_all s (take (between * k - 1) own))
        → length (state_bytes (after_all s (take (between * k - 1) own))) < 2 ^ 32
        → number_of was + k < 2 ^ 64
        → IsSavedLast (count + (between * k - 1)) (after_all s (take (between * k - 1) own)) now }
{}
