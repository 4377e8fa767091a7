//! The words of a node.

ghost use Rattle.std.specs.Prelude.{◌≡◌, ◌∷◌, ◌↔◌, ◌-◌, ◌^◌, [], ℕ, IfOk, IfErr, IsTrue, codes, decimal, map};
ghost use Rattle.std.specs.String.{string_bytes};
ghost use Rattle.pg_command.specs.Slots.{IsFirstWrong, IsNodeName};
ghost use Rattle.pg_command.specs.Slots.Slot.{Name, Number};
ghost use Rattle.pg_command.specs.Words.{IsAmong, IsCommand, IsFaultOfNode, IsNode, IsOneOf, IsPort, command_words, node_slots, node_words};
ghost use Rattle.pg_command.specs.declared.error.CommandError.TheVariants as wrong;
ghost use Rattle.pg_sched.specs.Schedule.{IsCount};

use crate::command::Command;
use crate::error::CommandError;
use crate::reading::node_read;
use crate::slots::{name_before, number_before};
use pg_base::{NodeId, SharedBytes, number_u32};
use std::alloc::Global;

/// The highest port behind which 64 servers have their own.
pub(crate) const MOST_PORT: u64 = 65_471;

/// What the words behind `node` say.
#[derive(Clone, Copy, Debug)]
pub(crate) struct NodeWords<'a> {
    pub(crate) server: NodeId,
    pub(crate) servers: u32,
    pub(crate) port: u16,
    pub(crate) name: &'a [u8],
    pub(crate) turns: u64,
}

/// Whether this is a count of servers that the server is one of, or no count.
fn is_one_of(server: NodeId, servers: u32) -> bool
    ensures { IsTrue result ↔ IsOneOf server servers }
{
    servers == 0 || servers > 64 || server <= servers
}

/// Whether there are as many servers, where the next word counts them.
fn is_among(server: NodeId, words: &[String]) -> bool
    ensures { IsTrue result ↔ IsAmong server (map (λ w. string_bytes w) words.now) }
{
    let [word, ..] = words else {
        return true;
    };
    match number_u32(word.as_bytes()) {
        Some(servers) => is_one_of(server, servers),
        None => true,
    }
}

/// The name and the turns, which are all that is left.
fn name_and_turns(words: &[String]) -> Result<(&[u8], u64), u64>
    ensures name { IfOk result (λ r. IsNodeName r.0.now) }
    ensures found { IfOk result (λ r. r.0.now ∷ decimal r.1 ∷ []
        ≡ map (λ w. string_bytes w) words.now) }
    ensures wrong { IfErr result (λ k. IsFirstWrong 5 (Name ∷ Number 0 (2 ^ 64 - 1) ∷ [])
        (map (λ w. string_bytes w) words.now) k) }
{
    let (name, words) = name_before(words, 5)?;
    let (turns, words) = number_before(words, 6, 0, u64::MAX)?;
    if !words.is_empty() {
        return Err(7);
    }
    Ok((name, turns))
}

/// What stands behind the server of a node.
fn behind_server(words: &[String]) -> Result<(u32, u16, &[u8], u64), u64>
    ensures servers { IfOk result (λ r. IsCount r.0) }
    ensures port { IfOk result (λ r. IsPort r.1) }
    ensures name { IfOk result (λ r. IsNodeName r.2.now) }
    ensures found { IfOk result (λ r. decimal r.0 ∷ decimal r.1 ∷ r.2.now ∷ decimal r.3 ∷ []
        ≡ map (λ w. string_bytes w) words.now) }
    ensures wrong { IfErr result
        (λ k. IsFirstWrong 3 node_slots (map (λ w. string_bytes w) words.now) k) }
{
    let (servers, words) = number_before(words, 3, 1, 64)?;
    let (port, words) = number_before(words, 4, 1, MOST_PORT)?;
    let (name, turns) = name_and_turns(words)?;
    Ok((servers as u32, port as u16, name, turns))
}

/// What the words say, or the number of the first that is at fault.
fn node_in(words: &[String]) -> Result<NodeWords<'_>, u64>
    ensures fits { IfOk result (λ n. IsNode n.server n.servers n.port n.name.now n.turns) }
    ensures found { IfOk result (λ n. node_words n.server n.servers n.port n.name.now n.turns
        ≡ map (λ w. string_bytes w) words.now) }
    ensures wrong { IfErr result (λ k. IsFaultOfNode (map (λ w. string_bytes w) words.now) k) }
{
    let (server, words) = number_before(words, 2, 1, 64)?;
    let server = server as u32;
    if !is_among(server, words) {
        return Err(2);
    }
    let (servers, port, name, turns) = behind_server(words)?;
    Ok(NodeWords {
        server,
        servers,
        port,
        name,
        turns,
    })
}

/// The node that the words behind `node` ask for. `all` are these and that word, which clap reads
/// where none is at fault.
pub(crate) fn node_of(
    alloc: Global,
    all: &[String],
    words: &[String],
) -> Result<Command, CommandError>
    requires { map (λ w. string_bytes w) all.now
        ≡ codes "node" ∷ map (λ w. string_bytes w) words.now }
    ensures fits { IfOk result (λ c. IsCommand c) }
    ensures found { IfOk result (λ c. command_words c
        ≡ codes "node" ∷ map (λ w. string_bytes w) words.now) }
    ensures wrong { IfErr result (λ e. (k : ℕ) → e ≡ wrong.Usage k
        → IsFaultOfNode (map (λ w. string_bytes w) words.now) k) }
    ensures memory { IfErr result (λ e. e ≡ wrong.OutOfMemory → (k : ℕ)
        → IsFaultOfNode (map (λ w. string_bytes w) words.now) k → ⊥) }
{
    let checked = match node_in(words) {
        Ok(node) => node,
        Err(place) => return Err(CommandError::Usage(place)),
    };
    let node = node_read(alloc, all, checked)?;
    let name = SharedBytes::from_slice(alloc, node.name)?;
    Ok(Command::Node {
        server: node.server,
        servers: node.servers,
        port: node.port,
        name,
        turns: node.turns,
    })
}
