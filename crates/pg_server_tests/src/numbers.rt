//! Messages with numbers as great as a message may have.

use crate::servers::{OWN, create, says, takes};
use pg_base::{FileId, Kind, Shared};
use pg_entries::Cell;
use pg_msg::{Ends, Message};
use pg_register::Flag;
use pg_server::{Input, Server};
use std::alloc::{AllocError, Global};
use std::test::Fail;

/// The first file that the server makes.
const FILE: FileId = FileId {
    kind: Kind::File,
    server: OWN,
    number: 1,
};

/// The other server says that the replica of this birth is bronze, under this number.
fn lowers(alloc: Global, birth: u64, number: u64) -> Result<Input, AllocError> {
    let flag = Flag {
        server: OWN,
        birth,
        number,
        raised: false,
    };
    let cell = Cell::Flag(Shared::new(alloc, flag)?);
    Ok(says(Message::Cell {
        ends: Ends {
            file: FILE,
            sender: 1,
            receiver: birth,
        },
        tag: 1,
        cell,
    }))
}

fn birth(server: &Server) -> u64 {
    server.store().birth(&FILE)
}

/// The number of the server's own flag, where it is raised.
fn raised(server: &Server) -> Option<u64> {
    let own = server.store().names.own(&FILE)?;
    if own.flags.is_raised(OWN, birth(server)) {
        return Some(own.flags.number(OWN));
    }
    None
}

/// The number of its flag when the server has made the file, and was told that its flag is lowered,
/// under this number.
fn raised_again(
    alloc: Global,
    server: &mut Server,
    number: u64,
) -> Result<Option<u64>, AllocError> {
    let made = takes(server, create(alloc, 5, b"/a")?);
    let lowered = takes(server, lowers(alloc, birth(server), number)?);
    if made && lowered {
        return Ok(raised(server));
    }
    Ok(None)
}

/// The same of a server of its own, one of two.
fn raised_behind(alloc: Global, number: u64) -> Result<Option<u64>, AllocError> {
    let mut server = Server::new(alloc, OWN, 2)?;
    raised_again(alloc, &mut server, number)
}

/// Whether the server raises its flag under this number behind that one.
fn raises(alloc: Global, number: u64, expected: u64) -> Result<bool, AllocError> {
    Ok(raised_behind(alloc, number)? == Some(expected))
}

// Where no gold replica is known the server raises its flag, under the next number. A greater
// number than 2^62 + 2^40 - 1 is one that no run has: the message is ignored.
#[test]
fn a_flag_goes_on_behind_any_number_of_a_message(rt: HostRuntime) -> Result<(), Fail> {
    let alloc = rt.alloc();
    let great: u64 = 1 << 62;
    let least: u64 = (1 << 62) + (1 << 40);
    assert!(rt;
        raises(alloc, 7, 8)?
            && raises(alloc, great, great + 1)?
            && raises(alloc, least - 1, least)?
            && raises(alloc, least, 1)?
    );
    Ok(())
}
