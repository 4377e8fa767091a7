//! Words and the number of the one at fault, by hand.

use pg_command::{Command, CommandError, Help, Verb, command_of, help_of};
use std::alloc::{AllocError, Global};
use std::test::Fail;

/// The number of the word at fault, or 0 where there is none.
fn fault_of(alloc: Global, words: &[&str]) -> Result<u64, AllocError> {
    let mut all = Vec::new(alloc);
    all.push(String::from_str(alloc, "pangaea")?)?;
    for word in words {
        all.push(String::from_str(alloc, word)?)?;
    }
    match command_of(alloc, &all) {
        Ok(_) => Ok(0),
        Err(error) => match error {
            CommandError::OutOfMemory => Err(AllocError),
            CommandError::Usage(place) => Ok(place),
        },
    }
}

#[test]
fn words_of_files(rt: HostRuntime) -> Result<(), Fail> {
    let rows: [(&[&str], u64); 12] = [
        (&[], 1),
        (&[""], 1),
        (&["play"], 1),
        (&["replay"], 0),
        (&["replay", "--meters"], 0),
        (&["replay", "x"], 2),
        (&["replay", "--meters", "x"], 3),
        (&["make", "7", "2"], 4),
        (&["make", "7", "0", "5"], 3),
        (&["make", "7", "64", "1000000"], 0),
        (&["soak", "7", "2", "1000001"], 4),
        (&["soak", "7", "2", "5", ""], 5),
    ];
    for (words, place) in rows {
        assert!(rt; fault_of(rt.alloc(), words)? == place);
    }
    Ok(())
}

#[test]
fn words_of_nodes(rt: HostRuntime) -> Result<(), Fail> {
    let rows: [(&[&str], u64); 20] = [
        (&["node"], 2),
        (&["node", "1"], 3),
        (&["node", "65"], 2),
        (&["node", "0", "3", "9000", "one", "10"], 2),
        (&["node", "2", "1", "9000", "one", "10"], 2),
        (&["node", "2", "x", "9000", "one", "10"], 3),
        (&["node", "2", "65", "9000", "one", "10"], 3),
        (&["node", "1", "0", "9000", "one", "10"], 3),
        (&["node", "3", "3", "0", "one", "10"], 4),
        (&["node", "3", "3", "65472", "one", "10"], 4),
        (&["node", "3", "3", "09", "one", "10"], 4),
        (&["node", "3", "3", "65471", "", "10"], 5),
        (&["node", "3", "3", "65471", "One", "10"], 5),
        (&["node", "3", "3", "65471", "a-b", "10"], 5),
        (
            &[
                "node",
                "3",
                "3",
                "65471",
                "0123456789abcdef0123456789abcdef0123456789abcdef0123456789abcdef0",
                "10",
            ],
            5,
        ),
        (&["node", "3", "3", "65471", "one"], 6),
        (
            &["node", "3", "3", "65471", "one", "18446744073709551616"],
            6,
        ),
        (&["node", "3", "3", "65471", "one", "10", "x"], 7),
        (
            &["node", "3", "3", "65471", "one", "18446744073709551615"],
            0,
        ),
        (
            &[
                "node",
                "64",
                "64",
                "1",
                "0123456789abcdef0123456789abcdef0123456789abcdef0123456789abcdef",
                "0",
            ],
            0,
        ),
    ];
    for (words, place) in rows {
        assert!(rt; fault_of(rt.alloc(), words)? == place);
    }
    Ok(())
}

#[test]
fn words_of_calls(rt: HostRuntime) -> Result<(), Fail> {
    let rows: [(&[&str], u64); 30] = [
        (&["call"], 2),
        (&["call", "65", "9000", "status"], 2),
        (&["call", "1"], 3),
        (&["call", "1", "65472", "status"], 3),
        (&["call", "1", "9000"], 4),
        (&["call", "1", "9000", "wander"], 4),
        (&["call", "1", "9000", ""], 4),
        (&["call", "1", "9000", "status"], 0),
        (&["call", "64", "65471", "stop"], 0),
        (&["call", "1", "9000", "tick"], 0),
        (&["call", "1", "9000", "tick", "7"], 5),
        (&["call", "1", "9000", "mkdir"], 5),
        (&["call", "1", "9000", "mkdir", ""], 5),
        (&["call", "1", "9000", "mkdir", "/a b"], 5),
        (&["call", "1", "9000", "mkdir", "a"], 0),
        (&["call", "1", "9000", "create", "/a", "first"], 6),
        (&["call", "1", "9000", "create", "/a", "join"], 0),
        (&["call", "1", "9000", "write", "/a", "0"], 7),
        (&["call", "1", "9000", "write", "/a", "0", "6A"], 7),
        (&["call", "1", "9000", "write", "/a", "0", "616"], 7),
        (&["call", "1", "9000", "write", "/a", "0", "-"], 0),
        (&["call", "1", "9000", "write", "/a", "0", "61f9"], 0),
        (&["call", "1", "9000", "write", "/a", "4294967296", "61"], 6),
        (&["call", "1", "9000", "read", "/a", "0", "32769"], 7),
        (&["call", "1", "9000", "stat", "d1.1"], 0),
        (&["call", "1", "9000", "stat", "d1"], 5),
        (&["call", "1", "9000", "rename", "/a", ""], 6),
        (&["call", "1", "9000", "forget", "/a"], 5),
        (
            &["call", "1", "9000", "giveup", "18446744073709551615", "2"],
            0,
        ),
        (&["call", "1", "9000", "giveup", "1", "2", "3"], 7),
    ];
    for (words, place) in rows {
        assert!(rt; fault_of(rt.alloc(), words)? == place);
    }
    Ok(())
}

/// A path of so many bytes.
fn path_of(alloc: Global, length: usize) -> Result<String, AllocError> {
    let mut path = String::from_str(alloc, "/")?;
    for _ in 1..length {
        path.push('a')?;
    }
    Ok(path)
}

#[test]
fn long_paths(rt: HostRuntime) -> Result<(), Fail> {
    let alloc = rt.alloc();
    let long = path_of(alloc, 5_000)?;
    let too_long = path_of(alloc, 5_001)?;
    let (long, too_long) = (long.as_str(), too_long.as_str());
    assert!(rt; fault_of(alloc, &["call", "1", "9000", "stat", long])? == 0);
    assert!(rt; fault_of(alloc, &["call", "1", "9000", "stat", too_long])? == 5);
    assert!(rt; fault_of(alloc, &["call", "1", "9000", "rename", long, too_long])? == 6);
    Ok(())
}

/// The help of each command names it, and that of all names each; the long one has more lines.
#[test]
fn helps(rt: HostRuntime) -> Result<(), Fail> {
    let alloc = rt.alloc();
    let rows = [
        (None, "Usage: pangaea <COMMAND>\n"),
        (Some(Verb::Replay), "Usage: pangaea replay [OPTIONS]\n"),
        (
            Some(Verb::Make),
            "Usage: pangaea make <SEED> <SERVERS> <EVENTS>\n",
        ),
        (
            Some(Verb::Soak),
            "Usage: pangaea soak <SEED> <SERVERS> <EVENTS>\n",
        ),
        (
            Some(Verb::Node),
            "Usage: pangaea node <SERVER> <SERVERS> <PORT> <NAME> <TURNS>\n",
        ),
        (
            Some(Verb::Call),
            "Usage: pangaea call <SERVER> <PORT> <ASKED>..\n",
        ),
    ];
    for (of, usage) in rows {
        let short = help_of(alloc, Help { of, long: false })?;
        let long = help_of(alloc, Help { of, long: true })?;
        assert!(rt; short.as_str().contains(usage) && long.as_str().contains(usage));
        assert!(rt; short.len() < long.len());
    }
    Ok(())
}

/// Help is asked for by its word alone, or behind a command's; else the word is at fault.
#[test]
fn words_of_help(rt: HostRuntime) -> Result<(), Fail> {
    let rows: [(&[&str], u64); 11] = [
        (&["-h"], 0),
        (&["--help"], 0),
        (&["replay", "-h"], 0),
        (&["node", "--help"], 0),
        (&["call", "-h"], 0),
        (&["-h", "-h"], 1),
        (&["--help", "replay"], 1),
        (&["replay", "-h", "x"], 2),
        (&["make", "-h", "2", "5"], 2),
        (&["call", "1", "-h"], 3),
        (&["help"], 1),
    ];
    for (words, place) in rows {
        assert!(rt; fault_of(rt.alloc(), words)? == place);
    }
    Ok(())
}
