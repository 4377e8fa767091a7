//! What was written is read again, and nothing else is read.

ghost use Rattle.std.specs.Prelude.{◌≡◌, ◌≤◌, ℕ, List, length, Ok, Err};
ghost use Rattle.pg_call.specs.declared.call.Call.{Call};
ghost use Rattle.pg_codec.specs.Laws.{AreBytes};
ghost use Rattle.pg_msg.specs.declared.message.Packet.{Packet};
ghost use Rattle.pg_node_entry.specs.Entries.{FitsEntry, IsWholeEntry, carrier, entry_bytes};
ghost use Rattle.pg_node_entry.specs.Reading.{entry_of};
ghost use Rattle.pg_node_entry.specs.declared.entry.NodeEntry.{NodeEntry};
ghost use Rattle.pg_node_entry.specs.declared.entry.NodeEntry.TheVariants as entry;
ghost use Rattle.pg_node_entry.specs.declared.error.EntryError.TheVariants as fault;
ghost use Rattle.pg_packet_read.specs.Whole.{packet_of};
ghost use Rattle.pg_packet_write.specs.DatagramValue.{DatagramValue};
ghost use Rattle.pg_packet_write.specs.Datagrams.{packet_bytes};
ghost use Rattle.pg_packet_write.specs.declared.datagram.Content.TheVariants as content;
ghost use Rattle.pg_packet_write.specs.declared.datagram.Request.TheVariants as request;

/// Bytes are read exactly where they are an entry's spelling, and then to this entry. No two
/// entries have one spelling.
pub fn entries_read_back()
    ensures written { (e : NodeEntry) → IsWholeEntry e → entry_of (entry_bytes e) ≡ Ok e }
    ensures spelled { (bytes : List ℕ) (e : NodeEntry) → AreBytes bytes → entry_of bytes ≡ Ok e
        → IsWholeEntry e × (bytes ≡ entry_bytes e) }
    ensures apart { (a b : NodeEntry) → IsWholeEntry a → IsWholeEntry b
        → entry_bytes a ≡ entry_bytes b → a ≡ b }
    ensures fits { (e : NodeEntry) → IsWholeEntry e → FitsEntry e }
{}

/// A fault is in the bytes or where they end.
pub fn faults_are_within()
    ensures { (bytes : List ℕ) (place : ℕ) → AreBytes bytes
        → entry_of bytes ≡ Err (fault.Bad place) → place ≤ length bytes }
{}

/// An entry has at most 65,536 bytes, where what it carries came in a packet of at most 40,000
/// bytes or it carries nothing. A packet that was read has so few.
pub fn entries_are_short()
    ensures call { (d : DatagramValue) (number moment : ℕ) (c : Call)
        → d.content ≡ content.Call number (request.Call c) → length (packet_bytes d) ≤ 40000
        → length (entry_bytes (entry.Call moment c)) ≤ 65536 }
    ensures arrival { (p : Packet) → length (packet_bytes (carrier p)) ≤ 40000
        → length (entry_bytes (entry.Arrival p)) ≤ 65536 }
    ensures tick { (moment word : ℕ) → length (entry_bytes (entry.Tick moment word)) ≤ 65536 }
    ensures restart { length (entry_bytes entry.Restart) ≤ 65536 }
    ensures first { (server servers : ℕ)
        → length (entry_bytes (entry.First server servers)) ≤ 65536 }
    ensures packet { (bytes : List ℕ) (d : DatagramValue) → AreBytes bytes → packet_of bytes ≡ Ok d
        → length (packet_bytes d) ≤ 40000 }
{}
