//! Entries of a log, read and written again.

use pg_base::Bytes;
use pg_node_entry::{EntryError, NodeEntry, read_entry, write_entry};
use std::alloc::{AllocError, Global};
use std::test::Fail;

/// `create /a last` at the moment 7.
const CALL: &[u8] = b"\x01\0\0\0\0\0\0\0\x07\x02\0\x02/a\x01";

/// A tick at the moment 5 with the word 6.
const TICK: &[u8] = b"\x02\0\0\0\0\0\0\0\x05\0\0\0\0\0\0\0\x06";

/// That server 2 in view 1 has taken leave of the replica of f1.3 that was born as 4.
const ARRIVAL: &[u8] =
    b"\x03PG\x01\x11\0\0\0\x02\0\0\0\0\0\0\0\x01f\0\0\0\x01\0\0\0\0\0\0\0\x03\0\0\0\0\0\0\0\x04";

/// The node is server 0 of 65.
const FIRST: &[u8] = b"\x05\0\0\0\0\0\0\0A";

/// The place at which bytes stop being an entry.
fn bad_place(alloc: Global, bytes: &[u8]) -> Result<Option<usize>, AllocError> {
    match read_entry(alloc, bytes) {
        Ok(_) => Ok(None),
        Err(EntryError::Bad(place)) => Ok(Some(place)),
        Err(EntryError::OutOfMemory) => Err(AllocError),
    }
}

/// Whether the bytes are an entry that is written as they are.
fn is_written_again(alloc: Global, bytes: &[u8]) -> Result<bool, AllocError> {
    match read_entry(alloc, bytes) {
        Ok(entry) => {
            let mut written = Bytes::new(alloc);
            write_entry(alloc, entry, &mut written)?;
            Ok(written.as_slice() == bytes)
        }
        Err(_) => Ok(false),
    }
}

/// Whether each beginning of the bytes ends too early, and they go on where a byte is behind them.
fn stands_alone(alloc: Global, bytes: &[u8]) -> Result<bool, AllocError> {
    let mut longer = bytes.to_vec(alloc)?;
    longer.push(0)?;
    for count in 0..longer.len() {
        let place = bad_place(alloc, &longer[..count])?;
        if count != bytes.len() && place != Some(count) {
            return Ok(false);
        }
    }
    Ok(bad_place(alloc, longer.as_slice())? == Some(bytes.len()))
}

#[test]
fn each_kind_is_read_and_written(rt: HostRuntime) -> Result<(), Fail> {
    let alloc: Global = rt.alloc();
    for bytes in [CALL, TICK, ARRIVAL, b"\x04", FIRST] {
        assert!(rt; is_written_again(alloc, bytes)?);
        assert!(rt; stands_alone(alloc, bytes)?);
    }
    Ok(())
}

#[test]
fn fields_have_their_places(rt: HostRuntime) -> Result<(), Fail> {
    let alloc: Global = rt.alloc();
    assert!(rt;
        matches!(
            read_entry(alloc, TICK),
            Ok(NodeEntry::Tick { moment: 5, word: 6 })
        )
    );
    assert!(rt;
        matches!(
            read_entry(alloc, FIRST),
            Ok(NodeEntry::First {
                server: 0,
                servers: 65
            })
        )
    );
    assert!(rt; matches!(read_entry(alloc, b"\x04"), Ok(NodeEntry::Restart)));
    Ok(())
}

#[test]
fn a_fault_is_at_its_field(rt: HostRuntime) -> Result<(), Fail> {
    let alloc: Global = rt.alloc();
    // No kind has the numbers 0 and 6.
    assert!(rt; bad_place(alloc, b"\0")? == Some(0));
    assert!(rt; bad_place(alloc, b"\x06\x01")? == Some(0));
    // A tick is no call.
    assert!(rt; bad_place(alloc, b"\x01\0\0\0\0\0\0\0\x07\x10")? == Some(9));
    assert!(rt; bad_place(alloc, b"\x01\0\0\0\0\0\0\0\x07\x13")? == Some(9));
    // The policy of a create is 1 or 2.
    assert!(rt; bad_place(alloc, b"\x01\0\0\0\0\0\0\0\x07\x02\0\x02/a\x03")? == Some(14));
    // Of packets, only messages are noted.
    assert!(rt; bad_place(alloc, b"\x03PG\x02")? == Some(3));
    assert!(rt; bad_place(alloc, b"\x03PG\x01\x1b")? == Some(4));
    assert!(rt; bad_place(alloc, b"\x03PG\x01\x1c\0")? == Some(4));
    assert!(rt; bad_place(alloc, b"\x03PG\x01\x1d")? == Some(4));
    // An edge is of a file or a directory.
    assert!(rt; bad_place(alloc, b"\x03PG\x01\x0b\0\0\0\x02\0\0\0\0\0\0\0\x01g")? == Some(17));
    Ok(())
}
