//! A server is asked.

ghost use Rattle.std.specs.Prelude.{◌≡◌, ◌+◌};
ghost use Rattle.pg_program.specs.Ending as ending;
ghost use Rattle.pg_client.specs.Asks as client;
ghost use Rattle.pg_command.specs.Words.{IsCalling};

use pg_base::NodeId;
use pg_client::ask;
use pg_command::requests_have_packets;
use pg_event::Status;
use pg_io::Sink;
use pg_net::Net;
use pg_packet_write::Request;
use std::alloc::Global;

/// Asks the server at `port + server`, and writes what it answers.
pub fn call<N: Net, K: Sink>(
    alloc: Global,
    net: &mut N,
    server: NodeId,
    port: u16,
    request: Request,
    sink: &mut K,
) -> Status
    requires { IsCalling server port request }
    ensures asks { client.Asks N.tells (port + server) request result
        (N.told net.old) (N.told net.new) (N.takes net.old) (N.takes net.new)
        (K.contents sink.old) (K.contents sink.new) }
    ensures net { result ≡ Status.NetFault → ending.Rose (N.faults net.old) (N.faults net.new) }
    ensures write { result ≡ Status.WriteFault
        → ending.Rose (K.faults sink.old) (K.faults sink.new) }
    ensures ends { ending.IsCallEnd result }
{
    requests_have_packets();
    ask(alloc, net, server, port, request, sink)
}
