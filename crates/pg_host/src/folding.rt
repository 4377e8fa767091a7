//! A server that takes the inputs of its log again.

ghost use Rattle.std.specs.Prelude.{◌≡◌, ◌≤◌, ◌<◌, ◌+◌, ◌^◌, ◌∷◌, List, length, false, IfErr, IfOk, IfSome, OnOk};
ghost use Rattle.pg_node_input.specs.law_lengths.Packets.{IsAskedFew};
ghost use Rattle.pg_node_input.specs.law_lengths.law_spelled.Messages.{FitsInput};
ghost use Rattle.pg_node_input.specs.law_lengths.law_spelled.Stores.{FitsStore};
ghost use Rattle.pg_server.specs.Local.{effect_of};
ghost use Rattle.pg_server.specs.declared.input.Input.{Input};
ghost use Rattle.pg_log.specs.Bytes.{blocks, front};
ghost use Rattle.pg_saving.specs.Usable.{IsUsable};
ghost use Rattle.pg_state.specs.Fits.{FitsState};
ghost use Rattle.pg_store.specs.Store.{new_store};
ghost use Rattle.pg_host.specs.Entries.{input_of};
ghost use Rattle.pg_host.specs.Logs.{AreInputs};
ghost use Rattle.pg_host.specs.Starts.{IsFold, IsFolded, IsInput, IsLogFold, IsNoFold, IsOn, IsTakenBehind, IsUnfolded, IsUnread};

use crate::entering::take;
use pg_base::{Bytes, NodeId};
use pg_event::Status;
use pg_node_input::server::{Input, Server};
use pg_node_input::spelled::spelled;
use pg_node_input::{HEAD, read_input, read_start};
use pg_saving::Checkpoint;
use std::alloc::{AllocError, Global};

/// The place of the first gate of a log.
const FIRST_GATE: u64 = 16;

/// A server to which nothing has come.
fn begin(alloc: Global, server: NodeId, servers: u32) -> Result<Server, AllocError>
    requires first { 1 ≤ server }
    requires last { server ≤ servers }
    requires most { servers ≤ 64 }
    ensures store { IfOk result (λ s. s.store ≡ new_store servers server) }
    ensures going { IfOk result (λ s. s.failed ≡ false) }
    ensures fits { IfOk result (λ s. FitsStore s.store) }
{
    spelled();
    Server::new(alloc, server, servers)
}

/// Lets the server take an input of its log. What comes of it is sent to nobody.
fn take_again(server: &mut Server, input: Input) -> Result<(), Status>
    requires going { server.old.failed ≡ false }
    requires fits { FitsStore server.old.store }
    requires input { FitsInput input }
    requires few { IsAskedFew input }
    ensures store { OnOk result (server.new.store ≡ (effect_of server.old.store input).store) }
    ensures going { OnOk result (server.new.failed ≡ false) }
    ensures fits { OnOk result (FitsStore server.new.store) }
    ensures memory { IfErr result (λ e. e ≡ Status.OutOfMemory) }
{
    match take(server, input) {
        Ok(_) => Ok(()),
        Err(status) => Err(status),
    }
}

/// An input that was only looked at.
fn let_go(_input: Input) {}

/// Lets the server take this input of its log, the k-th, but for the first, so many.
fn take_behind(server: &mut Server, k: u64, skip: u64, input: Input) -> Result<(), Status>
    requires going { server.old.failed ≡ false }
    requires fits { FitsStore server.old.store }
    requires input { FitsInput input }
    requires few { IsAskedFew input }
    ensures taken { OnOk result (IsTakenBehind k skip server.old.store input server.new.store) }
    ensures going { OnOk result (server.new.failed ≡ false) }
    ensures fits { OnOk result (FitsStore server.new.store) }
    ensures memory { IfErr result (λ e. e ≡ Status.OutOfMemory) }
{
    if k < skip {
        let_go(input);
        return Ok(());
    }
    match take_again(server, input) {
        Ok(()) => Ok(()),
        Err(status) => Err(status),
    }
}

/// Reads an entry behind the gate, which is to be an input.
fn check_input(alloc: Global, bytes: &[u8], gate: u64) -> Result<(), Status>
    requires room { gate + (5 + length bytes.now) < 2 ^ 64 }
    ensures read { OnOk result (IsInput bytes.now) }
    ensures err { IfErr result (λ e. IsUnread gate (input_of bytes.now) e) }
{
    match read_input(alloc, bytes, gate) {
        Ok(input) => {
            let_go(input);
            Ok(())
        }
        Err(status) => Err(status),
    }
}

/// Reads the entries behind the gate, which are to be inputs.
fn check(alloc: Global, entries: &[Bytes], from: u64) -> Result<(), Status>
    requires room { from + length (blocks entries.now) < 2 ^ 64 }
    ensures read { OnOk result ((inputs : List Input) × AreInputs entries.now inputs) }
    ensures err { IfErr result (λ e. IsUnfolded from entries.now e) }
{
    let mut gate = from;
    for entry in entries {
        match check_input(alloc, entry.as_slice(), gate) {
            Ok(()) => {}
            Err(status) => return Err(status),
        }
        gate = gate + HEAD + entry.len() as u64;
    }
    Ok(())
}

/// Reads the inputs of the entries behind the gate, and lets the server take them but for the
/// first, so many. What comes of them is sent to nobody.
fn fold(
    alloc: Global,
    server: &mut Server,
    entries: &[Bytes],
    skip: u64,
    from: u64,
) -> Result<(), Status>
    requires going { server.old.failed ≡ false }
    requires fits { FitsStore server.old.store }
    requires room { from + length (blocks entries.now) < 2 ^ 64 }
    ensures fold { OnOk result (IsFold entries.now skip server.old.store server.new.store) }
    ensures going { OnOk result (server.new.failed ≡ false) }
    ensures fits { OnOk result (FitsStore server.new.store) }
    ensures err { IfErr result (λ e. IsUnfolded from entries.now e) }
{
    let mut gate = from;
    for (k, entry) in entries.iter().enumerate() {
        let input = match read_input(alloc, entry.as_slice(), gate) {
            Ok(input) => input,
            Err(status) => return Err(status),
        };
        match take_behind(server, k as u64, skip, input) {
            Ok(()) => {}
            Err(status) => return Err(status),
        }
        gate = gate + HEAD + entry.len() as u64;
    }
    Ok(())
}

/// A server that goes on from a checkpoint, and how many inputs of its log are folded in that; or a
/// new one, with none.
fn begin_on(
    alloc: Global,
    server: NodeId,
    servers: u32,
    checkpoint: Option<Checkpoint>,
) -> Result<(Server, u64), Status>
    requires first { 1 ≤ server }
    requires last { server ≤ servers }
    requires most { servers ≤ 64 }
    requires usable { IfSome checkpoint (λ c. FitsState c.store × (1 ≤ c.folded)) }
    ensures on { IfOk result (λ s. IsOn server servers checkpoint s.0.store s.1) }
    ensures going { IfOk result (λ s. s.0.failed ≡ false) }
    ensures fits { IfOk result (λ s. FitsStore s.0.store) }
    ensures memory { IfErr result (λ e. e ≡ Status.OutOfMemory) }
{
    match checkpoint {
        None => match begin(alloc, server, servers) {
            Ok(node) => Ok((node, 0)),
            Err(_) => Err(Status::OutOfMemory),
        },
        Some(checkpoint) => {
            let Checkpoint { folded, store } = checkpoint;
            Ok((Server::from_store(store), folded - 1))
        }
    }
}

/// Lets a server take the inputs of its log again, which has this first entry and these later ones,
/// but for the first, so many, and then a restart.
fn fold_log(
    alloc: Global,
    node: &mut Server,
    server: NodeId,
    servers: u32,
    first: &Bytes,
    later: &[Bytes],
    skip: u64,
) -> Result<(), Status>
    requires going { node.old.failed ≡ false }
    requires fits { FitsStore node.old.store }
    requires room { 21 + length first.now + length (blocks later.now) < 2 ^ 64 }
    ensures folded { OnOk result (IsLogFold server servers first.now later.now skip
        node.old.store node.new.store) }
    ensures going { OnOk result (node.new.failed ≡ false) }
    ensures fits { OnOk result (FitsStore node.new.store) }
    ensures err { IfErr result (λ e. IsNoFold server servers (first.now ∷ later.now) e) }
{
    let named = match read_start(alloc, first.as_slice(), FIRST_GATE) {
        Ok(named) => named,
        Err(status) => return Err(status),
    };
    let gate = FIRST_GATE + HEAD + first.len() as u64;
    if named.0 != server || named.1 != servers {
        match check(alloc, later, gate) {
            Ok(()) => return Err(Status::OtherLog(named.0, named.1)),
            Err(status) => return Err(status),
        }
    }
    match fold(alloc, node, later, skip, gate) {
        Ok(()) => {}
        Err(status) => return Err(status),
    }
    match take_again(node, Input::Restart) {
        Ok(()) => Ok(()),
        Err(status) => Err(status),
    }
}

/// The server with which a log of these entries is gone on: a new one, or the one that took their
/// inputs and then a restart. From a checkpoint it takes those that are not folded in it.
pub fn folded(
    alloc: Global,
    server: NodeId,
    servers: u32,
    checkpoint: Option<Checkpoint>,
    entries: &[Bytes],
) -> Result<Server, Status>
    requires first { 1 ≤ server }
    requires last { server ≤ servers }
    requires most { servers ≤ 64 }
    requires room { length (front entries.now) < 2 ^ 64 }
    requires usable { IfSome checkpoint (λ c.
        IsUsable server servers (length entries.now) c) }
    ensures folded { IfOk result (λ s. IsFolded server servers checkpoint entries.now s.store) }
    ensures going { IfOk result (λ s. s.failed ≡ false) }
    ensures fits { IfOk result (λ s. FitsStore s.store) }
    ensures err { IfErr result (λ e. IsNoFold server servers entries.now e) }
{
    let (mut node, skip) = match begin_on(alloc, server, servers, checkpoint) {
        Ok(begun) => begun,
        Err(status) => return Err(status),
    };
    let Some((first, later)) = entries.split_first() else {
        return Ok(node);
    };
    match fold_log(alloc, &mut node, server, servers, first, later, skip) {
        Ok(()) => Ok(node),
        Err(status) => Err(status),
    }
}
