//! The commands: each does what its words ask for.

ghost use Rattle.std.specs.Prelude.{◌≡◌, map};
ghost use Rattle.pg_command.specs.Words as wording;
ghost use Rattle.pg_program.specs.Acts as acts;
ghost use Rattle.pg_program.specs.Seen.{seen};
ghost use Rattle.pg_program.specs.Written as written;

use crate::call::call;
use crate::help::help;
use crate::make::make;
use crate::node::node;
use crate::replay::replay;
use crate::soak::soak;
use pg_command::{Command, CommandError, command_of};
use pg_disk::Disk;
use pg_event::Status;
use pg_io::{Sink, Source};
use pg_meter::Meter;
use pg_net::{Clock, Net};
use std::alloc::Global;

/// The meters that are handed in, where a replay has some; else none.
fn handed(alloc: Global, metered: bool, meters: Vec<Box<dyn Meter>>) -> Vec<Box<dyn Meter>>
    ensures { map (λ m. written.reading (counts m) (counted m)) result.items
        ≡ written.handed metered (map (λ m. written.reading (counts m) (counted m)) meters.items) }
{
    if metered { meters } else { Vec::new(alloc) }
}

/// Does what a command says.
fn obey<S: Source, K: Sink, N: Net, D: Disk, C: Clock>(
    alloc: Global,
    command: Command,
    source: &mut S,
    sink: &mut K,
    net: &mut N,
    disk: &mut D,
    clock: &mut C,
    meters: Vec<Box<dyn Meter>>,
) -> Status
    requires { wording.IsCommand command }
    ensures { acts.Obeys N.tells C.tells D.tells command
        (map (λ m. written.reading (counts m) (counted m)) meters.items) result
        (seen (S.remaining source.old) (S.faults source.old) (K.contents sink.old)
        (K.faults sink.old) (N.told net.old) (N.takes net.old) (N.faults net.old)
        (D.told disk.old) (D.faults disk.old) (C.told clock.old))
        (seen (S.remaining source.new) (S.faults source.new) (K.contents sink.new)
        (K.faults sink.new) (N.told net.new) (N.takes net.new) (N.faults net.new)
        (D.told disk.new) (D.faults disk.new) (C.told clock.new))
        source.old source.new sink.old sink.new net.old net.new disk.old disk.new
        clock.old clock.new }
{
    match command {
        Command::Replay { metered } => {
            let meters = handed(alloc, metered, meters);
            replay(alloc, source, sink, meters)
        }
        Command::Make(n) => make(alloc, n.seed, n.servers, n.events, sink, meters),
        Command::Soak(n) => soak(alloc, n.seed, n.servers, n.events, sink, meters),
        Command::Node {
            server,
            servers,
            port,
            name,
            turns,
        } => node(
            alloc,
            net,
            disk,
            clock,
            server,
            servers,
            port,
            name.as_slice(),
            turns,
        ),
        Command::Call {
            server,
            port,
            request,
        } => call(alloc, net, server, port, request, sink),
        Command::Help(asked) => help(alloc, asked, sink),
    }
}

/// Does what the words ask for, or says which of them is at fault. Word 0 is the program's name.
/// `Heeds` has all that comes of it, but the laws of runs: they stand above.
pub fn heed<S: Source, K: Sink, N: Net, D: Disk, C: Clock>(
    alloc: Global,
    words: &Vec<String>,
    source: &mut S,
    sink: &mut K,
    net: &mut N,
    disk: &mut D,
    clock: &mut C,
    meters: Vec<Box<dyn Meter>>,
) -> Status
    ensures { acts.Heeds N.tells C.tells D.tells words.now
        (map (λ m. written.reading (counts m) (counted m)) meters.items) result
        (seen (S.remaining source.old) (S.faults source.old) (K.contents sink.old)
        (K.faults sink.old) (N.told net.old) (N.takes net.old) (N.faults net.old)
        (D.told disk.old) (D.faults disk.old) (C.told clock.old))
        (seen (S.remaining source.new) (S.faults source.new) (K.contents sink.new)
        (K.faults sink.new) (N.told net.new) (N.takes net.new) (N.faults net.new)
        (D.told disk.new) (D.faults disk.new) (C.told clock.new))
        source.old source.new sink.old sink.new net.old net.new disk.old disk.new
        clock.old clock.new }
{
    match command_of(alloc, words) {
        Ok(command) => obey(alloc, command, source, sink, net, disk, clock, meters),
        Err(error) => match error {
            CommandError::OutOfMemory => Status::OutOfMemory,
            CommandError::Usage(word) => Status::Usage(word),
        },
    }
}
