//! What holds of the packets of any run. Each law is a clause of a function that does nothing.

ghost use Rattle.pg_server.specs.pg_pieces.pg_msg.declared.message.Message.{Message};
ghost use Rattle.pg_packet_write.specs.Messages.{FitsMessage};
ghost use Rattle.pg_packet_write.specs.declared.datagram.Content.TheVariants as content;
ghost use Rattle.law_lengths.specs.Laws.{RunSendsPackets, StepSendsPackets};
ghost use Rattle.law_lengths.specs.Packets.{IsShort};

use law_spelled::spelled;

/// Any message that has a spelling has a packet of at most 40,000 bytes.
pub fn messages_are_short()
    ensures { (m : Message) → FitsMessage m → IsShort (content.Message m) }
{}

/// Whatever comes to a server of 1 to 64, be it from strangers: each message and reply that it
/// sends has a spelling, and a packet of at most 40,000 bytes. `step` says it of one input, and of
/// what the server holds then; `run` of any inputs from the server's beginning on.
pub fn sends_packets()
    ensures step { StepSendsPackets }
    ensures run { RunSendsPackets }
{
    spelled();
}
