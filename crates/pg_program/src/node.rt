//! A server runs.

ghost use Rattle.std.specs.Prelude.{◌≡◌, ◌≤◌, ◌⊎◌};
ghost use Rattle.pg_program.specs.Outside as outside;
ghost use Rattle.pg_command.specs.Slots.{IsNodeName};
ghost use Rattle.pg_disk.specs.Told.{given_of};
ghost use Rattle.pg_host.specs.Causes.{IsEnd};
ghost use Rattle.pg_host.specs.Host.{IsAnswered};

use pg_base::NodeId;
use pg_disk::Disk;
use pg_event::Status;
use pg_host::serve;
use pg_net::{Clock, Net};
use std::alloc::Global;
use std::str;

/// Serves on `port + server`, as this one of so many servers, for at most so many takes. Its log
/// stands in the first file of this name, and is opened, or begun.
pub fn node<N: Net, D: Disk, C: Clock>(
    alloc: Global,
    net: &mut N,
    disk: &mut D,
    clock: &mut C,
    server: NodeId,
    servers: u32,
    port: u16,
    name: &[u8],
    turns: u64,
) -> Status
    requires first { 1 ≤ server }
    requires last { server ≤ servers }
    requires most { servers ≤ 64 }
    requires port { port ≤ 65471 }
    requires named { IsNodeName name.now }
    ensures does { outside.IsIdle D.tells result (N.told net.old) (N.told net.new)
        (N.takes net.old) (N.takes net.new) (C.told clock.old) (C.told clock.new)
        (D.told disk.old) (D.told disk.new)
        ⊎ outside.ServesNamed N.tells C.tells D.tells server servers port turns result
        (N.told net.old) (N.told net.new) (N.takes net.old) (N.takes net.new)
        (C.told clock.old) (C.told clock.new) name.now (D.told disk.old) (D.told disk.new) }
    ensures safe { outside.Survives N.tells D.tells server servers port name.now
        (N.told net.old) (N.told net.new) (D.told disk.old) (D.told disk.new) }
    ensures answers { D.tells → IsAnswered server servers (N.faults net.old) (N.faults net.new)
        (D.faults disk.old) (D.faults disk.new)
        (given_of name.now 0 (D.told disk.old).history) result }
    ensures end { IsEnd (N.faults net.old) (N.faults net.new)
        (D.faults disk.old) (D.faults disk.new) result }
{
    let text = match str::from_utf8(name) {
        Ok(text) => text,
        Err(_) => unreachable!(),
    };
    match disk.choose(text) {
        Ok(()) => serve(alloc, net, disk, clock, server, servers, port, turns),
        Err(_) => Status::DiskFault,
    }
}
