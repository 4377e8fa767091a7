//! Calls that are refused where a directory is full, and where a client names another removal.

use pg_base::{FileId, Kind, Policy, SharedBytes, Stamp};
use pg_call::{Call, Reply, read_call};
use pg_calls::do_call;
use pg_entries::Entry;
use pg_lookup::ROOT;
use pg_msg::Work;
use pg_names::Attributes;
use pg_register::{GoldFlags, Place};
use pg_store::Store;
use pg_words::first_words;
use std::alloc::{AllocError, Global};
use std::process::Abort;
use std::test::Fail;

/// The directory with this number of server 2.
fn dir(number: u64) -> FileId {
    FileId {
        kind: Kind::Dir,
        server: 2,
        number,
    }
}

/// The live place that server 2 gave a thing in this directory.
fn place(alloc: Global, parent: FileId, name: &[u8]) -> Result<Place, AllocError> {
    let name = SharedBytes::from_slice(alloc, name)?;
    Ok(Place {
        stamp: Stamp { time: 9, server: 2 },
        parent,
        name,
        live: true,
    })
}

/// The server holds the thing, whose place is in the parent.
fn hold(store: &mut Store, thing: FileId, parent: FileId, name: &[u8]) -> Result<(), AllocError> {
    let birth = store.draw_birth()?;
    let place = place(store.allocator(), parent, name)?;
    let flags = GoldFlags::new(store.allocator());
    let own = Attributes { place, flags };
    store.begin(thing, birth, Policy::Last, own, true)
}

/// The directory has an entry of the thing, whose place is in the parent.
fn list(
    store: &mut Store,
    dir: FileId,
    child: FileId,
    parent: FileId,
    name: &[u8],
) -> Result<(), AllocError> {
    let place = place(store.allocator(), parent, name)?;
    let flags = GoldFlags::new(store.allocator());
    let entry = Entry {
        child,
        place,
        flags,
    };
    store.take_entry(dir, entry)?;
    Ok(())
}

/// A directory gets a directory, and as many other children as it takes.
fn fill(store: &mut Store) -> Result<(), AllocError> {
    hold(store, dir(1), ROOT, b"a")?;
    list(store, ROOT, dir(1), ROOT, b"a")?;
    hold(store, dir(2), dir(1), b"b")?;
    list(store, dir(1), dir(2), dir(1), b"b")?;
    for number in 0..4095 {
        list(store, dir(1), dir(10 + number), ROOT, b"x")?;
    }
    Ok(())
}

/// The call of these words, if they are one.
fn call(alloc: Global, line: &[u8]) -> Result<Option<Call>, AllocError> {
    let mut room = [b"".as_slice(); 7];
    let count = first_words(line, &mut room);
    read_call(alloc, &room[..count])
}

/// What the server answers a client that calls it at time 50.
fn answer(store: &mut Store, call: &Call) -> Result<Reply, AllocError> {
    let mut work = Work::new(store.allocator(), 50, 0);
    do_call(store, call, &mut work)
}

/// The same to these words.
fn reply(store: &mut Store, line: &[u8]) -> Result<Reply, Fail> {
    let call = call(store.allocator(), line)?.ok_or("call")?;
    Ok(answer(store, &call)?)
}

/// The reply as it is written.
fn written(alloc: Global, reply: &Reply) -> Result<String, Fail> {
    Ok(format!(in alloc; "{reply}")?)
}

/// What the server tells a client that calls it at time 50 with these words.
fn told(store: &mut Store, line: &[u8]) -> Result<String, Fail> {
    let reply = reply(store, line)?;
    written(store.allocator(), &reply)
}

fn tells(rt: &impl Abort, store: &mut Store, line: &[u8], wanted: &str) -> Result<(), Fail> {
    let told = told(store, line)?;
    assert!(rt; told.as_str() == wanted);
    Ok(())
}

fn takes_no_other(rt: &impl Abort, store: &mut Store) -> Result<(), Fail> {
    fill(store)?;
    tells(rt, store, b"mkdir /a/b", "refused 8 Exists d2.2")?;
    tells(rt, store, b"mkdir /a/c", "refused 9 DirFull")?;
    tells(rt, store, b"rename /a/b /a/c", "done")
}

// A child that has an entry there may be renamed in it.
#[test]
fn a_full_directory_takes_no_other_child(rt: HostRuntime) -> Result<(), Fail> {
    let mut store = Store::new(rt.alloc(), 1, 1)?;
    takes_no_other(&rt, &mut store)
}

fn enters_none(rt: &impl Abort, store: &mut Store) -> Result<(), Fail> {
    let refused = "refused 19 WrongView 0";
    tells(rt, store, b"giveup 0 3", refused)?;
    tells(rt, store, b"giveup 2 3", refused)?;
    tells(rt, store, b"giveup 1 1", refused)?;
    tells(rt, store, b"giveup 1 4", refused)
}

// In a run these calls are void, since nobody was removed so.
#[test]
fn only_the_next_removal_of_another_server_is_entered(rt: HostRuntime) -> Result<(), Fail> {
    let mut store = Store::new(rt.alloc(), 1, 3)?;
    enters_none(&rt, &mut store)
}
