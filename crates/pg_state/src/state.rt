//! The whole state, written.

ghost use Rattle.std.specs.Prelude.{◌≡◌, ◌≤◌, ◌++◌, ◌↔◌, IsTrue, OnOk};
ghost use Rattle.std.specs.List.{AllByRecursion, flat_map};
ghost use Rattle.pg_codec.specs.Spelling.{number_bytes};
ghost use Rattle.pg_packet_write.specs.Fields.{listed};
ghost use Rattle.pg_packet_write.specs.Fits.{IsServer};
ghost use Rattle.pg_state.specs.Fits.{FitIntents, FitNotes, FitServers, FitWishes, FitsState};
ghost use Rattle.pg_state.specs.Spelling.{counters_bytes, servers_bytes, state_bytes, waiting_bytes};

use crate::expecting::{fit_intents, fit_notes, fit_wishes};
use crate::fields::is_server;
use crate::fitting::fit_replicas;
use crate::replicas::write_replicas;
use crate::time::is_in_time;
use crate::waiting::{write_intents, write_notes, write_wishes};
use pg_base::{Bytes, NodeId};
use pg_codec::{write_bytes, write_u8, write_u32, write_u64};
use pg_store::Store;
use std::alloc::AllocError;

/// How every state begins.
const MARK: &[u8] = b"pangaea-state-01";

fn write_each_server(servers: &[NodeId], out: &mut Bytes) -> Result<(), AllocError>
    ensures { OnOk result (out.new ≡ out.old ++ flat_map (number_bytes 4) servers.now) }
{
    for server in servers {
        write_u32(*server, out)?;
    }
    Ok(())
}

/// The servers that were removed, in the order of their removals.
#[tactic(auto, unfolding(pg_packet_write::specs::Fields::listed))]
fn write_removed(removed: &[NodeId], out: &mut Bytes) -> Result<(), AllocError>
    requires { FitServers removed.now }
    ensures { OnOk result (out.new ≡ out.old ++ listed 1 (number_bytes 4) removed.now) }
{
    write_u8(removed.len() as u8, out)?;
    write_each_server(removed, out)
}

/// The server, how many there are, and those that were removed.
#[tactic(auto, unfolding(crate::specs::Spelling::servers_bytes))]
fn write_servers(store: &Store, out: &mut Bytes) -> Result<(), AllocError>
    requires { FitServers store.now.names.removed }
    ensures { OnOk result (out.new ≡ out.old ++ servers_bytes store.now) }
{
    write_u32(store.server(), out)?;
    write_u32(store.servers, out)?;
    write_removed(store.names.removed(), out)
}

/// The greatest time, the latest id, the latest birth, and the latest tag.
#[tactic(auto, unfolding(crate::specs::Spelling::counters_bytes))]
fn write_counters(store: &Store, out: &mut Bytes) -> Result<(), AllocError>
    requires { 1 ≤ store.now.tags }
    ensures { OnOk result (out.new ≡ out.old ++ counters_bytes store.now) }
{
    write_u64(store.names.last(), out)?;
    write_u64(store.files, out)?;
    write_u64(store.births, out)?;
    write_u64(store.tags - 1, out)
}

/// The intentions, the wishes and the announced versions.
#[tactic(auto, unfolding(crate::specs::Spelling::waiting_bytes))]
fn write_waiting(store: &Store, out: &mut Bytes) -> Result<(), AllocError>
    requires intents { FitIntents store.now.intents }
    requires wishes { FitWishes store.now.wishes }
    requires announced { FitNotes store.now.announced }
    ensures { OnOk result (out.new ≡ out.old ++ waiting_bytes store.now) }
{
    write_intents(&store.intents, out)?;
    write_wishes(&store.wishes, out)?;
    write_notes(&store.announced, out)
}

fn are_servers(servers: &[NodeId]) -> bool
    ensures { IsTrue result ↔ AllByRecursion IsServer servers.now }
{
    for server in servers {
        if !is_server(*server) {
            return false;
        }
    }
    true
}

fn fit_removed(removed: &[NodeId]) -> bool
    ensures { IsTrue result ↔ FitServers removed.now }
{
    removed.len() < 1 << 8 && are_servers(removed)
}

/// Whether all that the server holds has a spelling. It takes no memory.
pub fn fits(store: &Store) -> bool
    ensures { IsTrue result ↔ FitsState store.now }
{
    is_server(store.server())
        && is_server(store.servers)
        && fit_removed(store.names.removed())
        && 1 <= store.tags
        && fit_replicas(&store.names, &store.replicas)
        && fit_intents(&store.intents)
        && fit_wishes(&store.wishes)
        && fit_notes(&store.announced)
        && is_in_time(store)
}

/// Writes what the server holds at the end. `fits` is the test of what it asks for.
#[tactic(auto, unfolding(crate::specs::Spelling::state_bytes))]
pub fn write(store: &Store, out: &mut Bytes) -> Result<(), AllocError>
    requires { FitsState store.now }
    ensures { OnOk result (out.new ≡ out.old ++ state_bytes store.now) }
{
    write_bytes(MARK, out)?;
    write_servers(store, out)?;
    write_counters(store, out)?;
    write_replicas(&store.names, &store.replicas, out)?;
    write_waiting(store, out)
}
