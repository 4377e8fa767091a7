//! What was written is read again, whatever follows it, and nothing else is read.

ghost use Rattle.std.specs.Prelude.{◌≡◌, ◌≤◌, ℕ, List, [], ◌++◌, length, Ok};
ghost use Rattle.pg_codec.specs.Laws.{AreBytes, IsField};
ghost use Rattle.pg_packet_read.specs.Whole.{IsWholeDatagram, packet_of};
ghost use Rattle.pg_msg.specs.Sent.{kind_of};
ghost use Rattle.pg_msg.specs.declared.message.Message.{Message};
ghost use Rattle.pg_msg.specs.declared.summary.MessageKind.{MessageKind};
ghost use Rattle.pg_packet_write.specs.Calls.{reply_bytes};
ghost use Rattle.pg_packet_write.specs.Datagrams.{packet_bytes, request_bytes};
ghost use Rattle.pg_packet_write.specs.Messages.{message_bytes};
ghost use Rattle.pg_packet_write.specs.DatagramValue.{DatagramValue};
ghost use Rattle.pg_packet_read.specs.Calls.{IsWholeRequest, request_at};
ghost use Rattle.pg_packet_read.specs.Replies.{IsWholeReply, reply_at};
ghost use Rattle.pg_packet_read.specs.Messages.{IsWholeMessage, message_at};

/// Of each kind, a message is read exactly where its spelling stands, and has one spelling.
pub fn messages_read_back()
    ensures { (k : MessageKind)
        → IsField (λ (m : Message). IsWholeMessage m × (kind_of m ≡ k))
        message_bytes (message_at k) }
{}

/// What is asked and what is answered is read exactly where its spelling stands, and has one
/// spelling.
pub fn calls_read_back()
    ensures request { IsField IsWholeRequest request_bytes request_at }
    ensures reply { IsField IsWholeReply reply_bytes reply_at }
{}

/// Bytes are read exactly where they are a packet's spelling of at most 40,000 bytes, and then to
/// this packet. No packet's spelling begins another's.
pub fn packets_read_back()
    ensures written { (d : DatagramValue) → IsWholeDatagram d → length (packet_bytes d) ≤ 40000
        → packet_of (packet_bytes d) ≡ Ok d }
    ensures spelled { (bytes : List ℕ) (d : DatagramValue) → AreBytes bytes → packet_of bytes ≡ Ok d
        → IsWholeDatagram d × (bytes ≡ packet_bytes d) }
    ensures short { (bytes : List ℕ) (d : DatagramValue) → packet_of bytes ≡ Ok d
        → length bytes ≤ 40000 }
    ensures apart { (a b : DatagramValue) (rest : List ℕ) → IsWholeDatagram a → IsWholeDatagram b
        → packet_bytes a ++ rest ≡ packet_bytes b → (a ≡ b) × (rest ≡ []) }
{}
