//! What is written of a store is read as this store, and where other bytes stop being a state.

ghost use Rattle.std.specs.Prelude.{◌≡◌, ◌<◌, ◌++◌, ◌⊎◌, ℕ, List, Ok, Err, length};
ghost use Rattle.pg_codec.specs.Laws.{AreBytes};
ghost use Rattle.pg_packet_fields.specs.declared.error.PacketError.TheVariants.{OutOfMemory, Short, BadTag, TooLong, Tail};
ghost use Rattle.pg_state.specs.Fits.{FitsState};
ghost use Rattle.pg_state.specs.Spelling.{state_bytes};
ghost use Rattle.pg_state_read.specs.Built.{IsWholeState};
ghost use Rattle.pg_state_read.specs.Whole.{state_of};
ghost use Rattle.pg_store.specs.declared.store.Store.{Store};
ghost use Rattle.law_states.specs.Faults.{EndsAt, IsBadAt, IsLateAt, IsShortAt};
ghost use Rattle.law_states.specs.Widths.{HasStoreWidth};

use crate::held::things_have_widths;
use crate::waiting::{intents_have_widths, notes_have_widths, wishes_have_widths};
use crate::widths::wide_is;
use pg_state_read::states_read_back;
use pg_store::Store;

fn store_has_widths(store: &Store)
    ensures { HasStoreWidth store.now }
{
    wide_is(store.names.last());
    wide_is(store.files);
    wide_is(store.births);
    wide_is(store.tags);
    things_have_widths(&store.replicas, store.names.as_map());
    intents_have_widths(&store.intents);
    wishes_have_widths(store.wishes.as_map());
    notes_have_widths(store.announced.as_map())
}

/// A store that has a spelling is one that can be read, and is read from its spelling. Whatever
/// stands behind that is a fault at its end.
pub fn states_are_read(store: &Store)
    requires { FitsState store.now }
    ensures whole { IsWholeState store.now }
    ensures read { state_of (state_bytes store.now) ≡ Ok store.now }
    ensures behind { (rest : List ℕ) → 0 < length rest → state_of (state_bytes store.now ++ rest)
        ≡ Err (Tail (length (state_bytes store.now))) }
{
    states_read_back();
    store_has_widths(store)
}

/// What is read of bytes is a store that has a spelling, and the bytes are that spelling.
pub fn states_are_spelled()
    ensures { (bytes : List ℕ) (store : Store) → AreBytes bytes → state_of bytes ≡ Ok store
        → FitsState store × (bytes ≡ state_bytes store) }
{
    states_read_back()
}

/// Each fault of bytes that are no state, and its place, tell of the states that there are.
/// `BadTag`, and `TooLong` of a count or a length: with the field at the place no state begins so;
/// or all is a state but for its greatest time, which is at the place and below another. `Short`:
/// the place is the end, and no state that begins as the whole fields do has so few bytes. `Tail`:
/// the parts of a state end at the place.
pub fn faults_are_of_states()
    ensures bad { (bytes : List ℕ) (place : ℕ) → AreBytes bytes
        → state_of bytes ≡ Err (BadTag place) → IsBadAt bytes place ⊎ IsLateAt bytes place }
    ensures long { (bytes : List ℕ) (place : ℕ) → AreBytes bytes
        → state_of bytes ≡ Err (TooLong place) → IsBadAt bytes place }
    ensures short { (bytes : List ℕ) (place : ℕ) → AreBytes bytes
        → state_of bytes ≡ Err (Short place) → IsShortAt bytes place }
    ensures tail { (bytes : List ℕ) (place : ℕ) → AreBytes bytes
        → state_of bytes ≡ Err (Tail place) → EndsAt bytes place }
    ensures memory { (bytes : List ℕ) → AreBytes bytes → state_of bytes ≡ Err OutOfMemory → ⊥ }
{}
