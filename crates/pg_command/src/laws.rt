//! What holds of what words ask for.

ghost use Rattle.pg_command.specs.Words.{IsRequest};
ghost use Rattle.pg_packet_write.specs.Datagrams.{FitsRequest};
ghost use Rattle.pg_packet_write.specs.declared.datagram.Request.{Request};

/// What words ask of a server has a spelling as a packet: its paths and targets are short enough.
pub fn requests_have_packets()
    ensures { (request : Request) → IsRequest request → FitsRequest request }
{}
