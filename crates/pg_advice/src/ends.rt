//! What to do where a command did not end well: sentences for standard error.

ghost use Rattle.std.specs.Prelude.{◌≡◌, None};

use pg_base::number;
use pg_event::Status;

const PORT: &str = "PORT is a number from 1 to 65471: each server is at PORT and its number";

const SERVERS: &str = "SERVERS is a number from 1 to 64";

const NOTHING: &str = "no word stands behind these";

/// What the word of a replay with this number has to be.
fn of_replay(place: u64) -> Option<&'static str> {
    match place {
        2 => Some("behind replay stands nothing, or --meters"),
        _ => Some(NOTHING),
    }
}

/// What the word of a made schedule with this number has to be.
fn of_numbers(place: u64) -> Option<&'static str> {
    match place {
        2 => Some("SEED is a number from 0 to 18446744073709551615"),
        3 => Some(SERVERS),
        4 => Some("EVENTS is a number from 0 to 1000000"),
        _ => Some(NOTHING),
    }
}

/// What the word of a node with this number has to be.
fn of_node(place: u64) -> Option<&'static str> {
    match place {
        2 => Some("SERVER is a number from 1 to SERVERS"),
        3 => Some(SERVERS),
        4 => Some(PORT),
        5 => Some("NAME has 1 to 64 bytes, each a lower case letter or a digit"),
        6 => Some("TURNS is a number: of packets, and of seconds without one, until the node ends"),
        _ => Some(NOTHING),
    }
}

/// What the word of a call with this number has to be.
fn of_call(place: u64) -> Option<&'static str> {
    match place {
        2 => Some("SERVER is a number from 1 to 64"),
        3 => Some(PORT),
        4 => Some(
            "ASKED is mkdir, create, write, cut, read, fresh, ls, stat, rename, unlink, rmdir, \
             forget, demote, drop, giveup, status, tick or stop",
        ),
        _ => Some(
            "behind it stand the words of a schedule's call: a path has at most 5000 bytes, and \
             bytes are pairs of lower case hexadecimal digits, or - for none",
        ),
    }
}

/// What to do about a word at fault.
fn of_word(verb: &[u8], place: u64) -> Option<&'static str> {
    match verb {
        b"replay" => of_replay(place),
        b"make" => of_numbers(place),
        b"soak" => of_numbers(place),
        b"node" => of_node(place),
        b"call" => of_call(place),
        _ => Some("the first word is replay, make, soak, node or call, or alone -h or --help"),
    }
}

/// What to do about the end of a node that does not go on.
fn of_node_end(status: Status) -> Option<&'static str>
    ensures { status ≡ Status.Done → result ≡ None }
{
    match status {
        Status::NetFault => Some(
            "where another program has the port, choose another PORT; else start the node again: \
             it takes up what its log keeps",
        ),
        Status::DiskFault => Some(
            "see that the folder can be written and has room, and start the node again: it takes \
             up what its log keeps",
        ),
        Status::BadLog(_) => Some(
            "from this byte on it is no log of a node: put a good copy in its place; a server \
             whose log is lost does not start anew, the others give it up",
        ),
        Status::OtherLog(_, _) => {
            Some("start the server that this log names, or choose the NAME of this server's own")
        }
        Status::TurnsSpent => Some("all its takes are made: start it again, with more TURNS"),
        Status::OutOfMemory => {
            Some("start it again with more memory: it takes up what its log keeps")
        }
        _ => None,
    }
}

/// What to do about the end of a call that was not done, or may not have been.
fn of_call_end(status: Status) -> Option<&'static str>
    ensures { status ≡ Status.Done → result ≡ None }
{
    match status {
        Status::NetFault => {
            Some("the system refused a packet: see whether the call was done, and call again")
        }
        Status::WriteFault => Some(
            "mend what standard output goes to, and see whether the call was done before you call \
             again",
        ),
        Status::TurnsSpent => {
            Some("no reply came: see that the node runs, and that SERVER and PORT are its own")
        }
        Status::Refused(_) => {
            Some("the call changed nothing, and standard output says why it was refused")
        }
        Status::OutOfMemory => {
            Some("see whether the call was done, and call again with more memory")
        }
        _ => None,
    }
}

/// What to do about the end of any other command.
fn of_text_end(status: Status) -> Option<&'static str>
    ensures { status ≡ Status.Done → result ≡ None }
{
    match status {
        Status::ReadFault => {
            Some("mend what standard input comes from, and say it again: nothing was written")
        }
        Status::WriteFault => Some(
            "mend what standard output goes to, and say it again: what was written is the \
             beginning of it",
        ),
        Status::InputLong => Some("a schedule has at most 67108864 bytes: nothing was written"),
        Status::BadLine(_, _) => Some("mend this line: nothing was written"),
        Status::OutOfMemory => Some("say it again with more memory: nothing was written"),
        _ => None,
    }
}

/// What to do about this end of the command that the words ask for, where there is something to be
/// said: nothing of one that is done.
pub fn advice(words: &Vec<String>, status: Status) -> Option<&'static str>
    ensures { status ≡ Status.Done → result ≡ None }
{
    let verb = match words.get(1) {
        Some(word) => word.as_bytes(),
        None => b"".as_slice(),
    };
    match status {
        Status::Usage(place) => of_word(verb, place),
        _ => match verb {
            b"node" => of_node_end(status),
            b"call" => of_call_end(status),
            _ => of_text_end(status),
        },
    }
}

/// The name of a node's files, by the words that it was started with; nothing of other commands.
pub fn name(words: &Vec<String>) -> Option<&str> {
    if words.get(1)?.as_bytes() != b"node".as_slice() {
        return None;
    }
    Some(words.get(5)?.as_str())
}

/// The port at which the server of a node or a call stands, by the words' own numbers; nothing of
/// other commands, nor where no number stands there.
pub fn port(words: &Vec<String>) -> Option<u64> {
    let place = match words.get(1)?.as_bytes() {
        b"node" => 4,
        b"call" => 3,
        _ => return None,
    };
    let server = number(words.get(2)?.as_bytes())?;
    let port = number(words.get(place)?.as_bytes())?;
    Some(port.saturating_add(server))
}
