//! The lists that a store lends, behind a few calls.

use crate::servers::{OTHER, OWN, create, mkdir, says, takes};
use pg_base::{FileId, Kind};
use pg_edges::Key;
use pg_msg::{Ends, Message};
use pg_server::{Input, Server};
use pg_store::Store;
use std::alloc::{AllocError, Global};
use std::test::Fail;

const ROOT: FileId = FileId {
    kind: Kind::Dir,
    server: 0,
    number: 0,
};

/// The first directory that the server makes.
const DIR: FileId = FileId {
    kind: Kind::Dir,
    server: OWN,
    number: 1,
};

/// The file that it makes in there.
const FILE: FileId = FileId {
    kind: Kind::File,
    server: OWN,
    number: 2,
};

/// Whether just these stand in the thing, and just these list it.
fn has(store: &Store, thing: FileId, children: &[FileId], holders: &[FileId]) -> bool {
    store.children(thing) == children && store.holders(thing) == holders
}

fn lends(store: &Store) -> bool {
    has(store, ROOT, &[DIR], &[])
        && has(store, DIR, &[FILE], &[ROOT])
        && has(store, FILE, &[], &[DIR])
        && store.unacked(OTHER).is_empty()
}

/// Whether the server makes the directory and the file in it, and lends both.
fn makes_and_lends(alloc: Global, server: &mut Server) -> Result<bool, AllocError> {
    let made_dir = takes(server, mkdir(alloc, 10, b"/a")?);
    let made_file = takes(server, create(alloc, 11, b"/a/x")?);
    Ok(made_dir && made_file && lends(server.store()))
}

/// The same of a server of its own.
fn are_lent(alloc: Global) -> Result<bool, AllocError> {
    let mut server = Server::new(alloc, OWN, 1)?;
    makes_and_lends(alloc, &mut server)
}

// What stands in a directory, and what lists a thing.
#[test]
fn children_and_holders_are_lent(rt: HostRuntime) -> Result<(), Fail> {
    assert!(rt; are_lent(rt.alloc())?);
    Ok(())
}

fn acknowledged(tag: u64) -> Input {
    says(Message::Ack {
        ends: Ends {
            file: ROOT,
            sender: 1,
            receiver: 1,
        },
        key: Key::Entry(DIR),
        tag,
    })
}

fn owes_the_entry(server: &Server) -> bool {
    match server.store().unacked(OTHER) {
        [due] => due.file == ROOT && due.key == Key::Entry(DIR),
        _ => false,
    }
}

/// Whether the server takes the input, and owes the directory's entry behind it.
fn owes_behind(server: &mut Server, input: Input) -> bool {
    takes(server, input) && owes_the_entry(server)
}

/// The tag of the directory's entry on the root's edge to the other server.
fn tag(server: &Server) -> Option<u64> {
    let root = server.store().replica(&ROOT)?;
    root.edges.tag(OTHER, 1, Key::Entry(DIR))
}

/// Whether the server owes nothing more behind the tag of the entry's cell.
fn owes_nothing_behind_the_tag(server: &mut Server) -> bool {
    match tag(server) {
        Some(tag) => {
            takes(server, acknowledged(tag)) && server.store().unacked(OTHER).is_empty()
        }
        None => false,
    }
}

/// Whether the server makes the directory, owes its entry, by tag 0 as well, and then no more.
fn owes_until_it_is_told(alloc: Global, server: &mut Server) -> Result<bool, AllocError> {
    let made = owes_behind(server, mkdir(alloc, 10, b"/a")?);
    Ok(made && owes_behind(server, acknowledged(0)) && owes_nothing_behind_the_tag(server))
}

/// The same of a server of its own, one of two.
fn is_owed(alloc: Global) -> Result<bool, AllocError> {
    let mut server = Server::new(alloc, OWN, 2)?;
    owes_until_it_is_told(alloc, &mut server)
}

// The other server has not heard of the directory until it says so, by the tag of the entry's cell.
#[test]
fn what_is_owed_is_lent(rt: HostRuntime) -> Result<(), Fail> {
    assert!(rt; is_owed(rt.alloc())?);
    Ok(())
}
