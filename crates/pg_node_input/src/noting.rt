//! Inputs as entries of a log, and back.

ghost use Rattle.std.specs.Prelude.{◌≡◌, ◌+◌, ◌<◌, ◌≤◌, ◌^◌, length, Ok, IfOk, IfErr};
ghost use Rattle.law_lengths.specs.Packets.{IsAskedFew};
ghost use Rattle.law_lengths.specs.law_spelled.Messages.{FitsInput};
ghost use Rattle.pg_node_entry.specs.Entries.{FitsEntry};
ghost use Rattle.pg_node_input.specs.Noted.{IsStart, IsUnread, begins_log, entry_for, input_noted, input_of, noted_of, start_noted, start_of};

use law_lengths::call_fits;
use law_lengths::server::Input;
use law_lengths::spelled::message_fits;
use pg_base::NodeId;
use pg_event::Status;
use pg_node_entry::{EntryError, NodeEntry, entries_read_back, faults_are_within, read_entry};
use std::alloc::Global;

/// The bytes before an entry behind the closed gate: the gate, and the entry's length.
pub const HEAD: u64 = 5;

/// What a log notes of an input.
pub fn noted(input: Input) -> NodeEntry
    ensures { result ≡ noted_of input }
{
    match input {
        Input::Call { moment, call } => NodeEntry::Call { moment, call },
        Input::Tick { moment, word } => NodeEntry::Tick { moment, word },
        Input::Arrival(packet) => NodeEntry::Arrival(packet),
        Input::Restart => NodeEntry::Restart,
    }
}

/// The input that an entry notes, or the place in the entry where it notes none.
pub fn input(entry: NodeEntry) -> Result<Input, u64>
    requires { FitsEntry entry }
    ensures input { result ≡ input_noted entry }
    ensures fits { IfOk result (λ i. FitsInput i) }
    ensures few { IfOk result (λ i. IsAskedFew i) }
{
    match entry {
        NodeEntry::Call { moment, call } => {
            call_fits(&call);
            Ok(Input::Call { moment, call })
        }
        NodeEntry::Tick { moment, word } => Ok(Input::Tick { moment, word }),
        NodeEntry::Arrival(packet) => {
            message_fits(&packet.message);
            Ok(Input::Arrival(packet))
        }
        NodeEntry::Restart => Ok(Input::Restart),
        NodeEntry::First { .. } => Err(0),
    }
}

/// The server that an entry notes, and of how many, or the place in the entry where it notes none.
fn start(entry: NodeEntry) -> Result<(NodeId, u32), u64>
    ensures { result ≡ start_noted entry }
{
    match entry {
        NodeEntry::First { server, servers } => Ok((server, servers)),
        _ => Err(0),
    }
}

/// Whether an entry begins as the first of a log does.
fn begins_log(bytes: &[u8]) -> bool
    ensures { result ≡ begins_log bytes.now }
{
    match bytes {
        [number, ..] => *number == 5,
        [] => false,
    }
}

/// Why a log is not gone on with: at this place in the entry behind the gate.
fn bad_at(gate: u64, at: u64) -> Status
    requires { gate + (5 + at) < 2 ^ 64 }
    ensures { result ≡ Status.BadLog (gate + (5 + at)) }
{
    Status::BadLog(gate + (HEAD + at))
}

/// The input of an entry behind the gate. Where it is none, the log is bad there.
pub fn read_input(alloc: Global, bytes: &[u8], gate: u64) -> Result<Input, Status>
    requires room { gate + (5 + length bytes.now) < 2 ^ 64 }
    ensures read { IfOk result (λ i. input_of bytes.now ≡ Ok i) }
    ensures spelled { IfOk result (λ i. bytes.now ≡ entry_for i) }
    ensures fits { IfOk result (λ i. FitsInput i) }
    ensures few { IfOk result (λ i. IsAskedFew i) }
    ensures err { IfErr result (λ e. IsUnread gate (input_of bytes.now) e) }
{
    entries_read_back();
    faults_are_within();
    if begins_log(bytes) {
        return Err(bad_at(gate, 0));
    }
    match read_entry(alloc, bytes) {
        Ok(entry) => match input(entry) {
            Ok(input) => Ok(input),
            Err(_) => Err(bad_at(gate, 0)),
        },
        Err(error) => match error {
            EntryError::OutOfMemory => Err(Status::OutOfMemory),
            EntryError::Bad(at) => Err(bad_at(gate, at as u64)),
        },
    }
}

/// The server whose log begins with this entry behind the gate, and of how many it is. Where none
/// does, the log is bad there.
pub fn read_start(alloc: Global, bytes: &[u8], gate: u64) -> Result<(NodeId, u32), Status>
    requires room { gate + (5 + length bytes.now) < 2 ^ 64 }
    ensures read { IfOk result (λ named. IsStart named.0 named.1 bytes.now) }
    ensures err { IfErr result (λ e. IsUnread gate (start_of bytes.now) e) }
{
    entries_read_back();
    faults_are_within();
    if !begins_log(bytes) {
        return Err(bad_at(gate, 0));
    }
    match read_entry(alloc, bytes) {
        Ok(entry) => match start(entry) {
            Ok(named) => Ok(named),
            Err(_) => Err(bad_at(gate, 0)),
        },
        Err(error) => match error {
            EntryError::OutOfMemory => Err(Status::OutOfMemory),
            EntryError::Bad(at) => Err(bad_at(gate, at as u64)),
        },
    }
}
