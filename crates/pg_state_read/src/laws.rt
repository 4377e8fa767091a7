//! What was written is read again, and nothing else is read.

ghost use Rattle.std.specs.Prelude.{◌≡◌, ◌<◌, ◌++◌, ℕ, List, Ok, Err, length, true};
ghost use Rattle.pg_codec.specs.Laws.{AreBytes, IsField};
ghost use Rattle.pg_packet_fields.specs.declared.error.PacketError.TheVariants.{Tail};
ghost use Rattle.pg_state.specs.Spelling.{state_bytes};
ghost use Rattle.pg_state_read.specs.Built.{IsWholeState, plain_store};
ghost use Rattle.pg_state_read.specs.Spelling.{marked_spelling};
ghost use Rattle.pg_state_read.specs.Whole.{AreParts, are_in_time, marked_at, parts_of, state_of, store_with};
ghost use Rattle.pg_state_read.specs.declared.parts.Parts.{Parts};
ghost use Rattle.pg_store.specs.declared.store.Store.{Store};

/// Bytes are read exactly where they are the spelling of parts of a state, and then to these parts.
/// The mark and the parts are read from their spelling, whatever follows them.
pub fn parts_read_back()
    ensures field { IsField AreParts marked_spelling marked_at }
    ensures written { (p : Parts) → AreParts p → are_in_time p ≡ true
        → parts_of (marked_spelling p) ≡ Ok p }
    ensures spelled { (bytes : List ℕ) (p : Parts) → AreBytes bytes → parts_of bytes ≡ Ok p
        → (AreParts p × (are_in_time p ≡ true)) × (bytes ≡ marked_spelling p) }
{}

/// The store that is made of the parts of a state has these parts.
pub fn parts_make_stores()
    ensures { (p : Parts) → AreParts p → store_with p ≡ plain_store p }
{}

/// Bytes are read exactly where they are the spelling of a store that can be read, and then to this
/// store. Whatever stands behind that spelling is a fault at its end.
pub fn states_read_back()
    ensures written { (store : Store) → IsWholeState store
        → state_of (state_bytes store) ≡ Ok store }
    ensures spelled { (bytes : List ℕ) (store : Store) → AreBytes bytes
        → state_of bytes ≡ Ok store → IsWholeState store × (bytes ≡ state_bytes store) }
    ensures behind { (store : Store) (rest : List ℕ) → IsWholeState store → 0 < length rest
        → state_of (state_bytes store ++ rest) ≡ Err (Tail (length (state_bytes store))) }
{}
