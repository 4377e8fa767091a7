//! Each fault of bytes that are no packet, and its place, are those of the grammar.

ghost use Rattle.std.specs.Prelude.{◌≡◌, ◌⊎◌, ℕ, List, Err};
ghost use Rattle.pg_codec.specs.Laws.{AreBytes};
ghost use Rattle.pg_packet_fields.specs.declared.error.PacketError.TheVariants.{OutOfMemory, Short, BadTag, TooLong, Tail};
ghost use Rattle.pg_packet_read.specs.Whole.{packet_of};
ghost use Rattle.law_packets.specs.Faults.{EndsAt, IsBadAt, IsOver, IsShortAt};

/// Each fault tells of the packets that there are. `BadTag`, and `TooLong` of a count or a length:
/// the bytes before the place begin some packet, and with the field at the place none begins so.
/// `Short`: the place is the end, and no packet that begins as the whole fields do has so few
/// bytes. `Tail`: a packet ends at the place. `TooLong` at 40,000: there are more bytes, and no
/// other fault is in the first 40,000.
pub fn faults_are_of_the_grammar()
    ensures bad { (bytes : List ℕ) (place : ℕ) → AreBytes bytes
        → packet_of bytes ≡ Err (BadTag place) → IsBadAt bytes place }
    ensures long { (bytes : List ℕ) (place : ℕ) → AreBytes bytes
        → packet_of bytes ≡ Err (TooLong place) → IsBadAt bytes place ⊎ IsOver 40000 bytes place }
    ensures short { (bytes : List ℕ) (place : ℕ) → AreBytes bytes
        → packet_of bytes ≡ Err (Short place) → IsShortAt bytes place }
    ensures tail { (bytes : List ℕ) (place : ℕ) → AreBytes bytes
        → packet_of bytes ≡ Err (Tail place) → EndsAt bytes place }
    ensures memory { (bytes : List ℕ) → AreBytes bytes → packet_of bytes ≡ Err OutOfMemory → ⊥ }
{}
