//! Numbers at their end: those of 2^62 or more.

ghost use Rattle.std.specs.Prelude.{◌≡◌, ◌==◌, ◌&&◌, nat_le};
ghost use Rattle.pg_base.specs.Stamp.{clock_end};
ghost use Rattle.pg_replica.specs.Index.{knows_end};
ghost use Rattle.pg_replica.specs.Replica.{has_end, has_own_end, knows_own_end};

use crate::replica::Replica;
use pg_base::{Actor, NodeId, Stamp, Vector, Version};

/// Whether a vector has a number at its end, of whichever actor.
pub(crate) fn has_end(vector: &Vector) -> bool
    ensures { result ≡ has_end vector.now }
{
    vector.entries().iter().any(|entry| is_end(entry))
}

fn is_end(entry: &(Actor, u64)) -> bool
    ensures { result ≡ nat_le clock_end entry.now.1 }
{
    Stamp::CLOCK_END <= entry.1
}

fn is_own_end(server: NodeId, entry: &(Actor, u64)) -> bool
    ensures { result ≡ (entry.now.0.server == server && nat_le clock_end entry.now.1) }
{
    entry.0.server == server && Stamp::CLOCK_END <= entry.1
}

/// Whether a version knows a number at its end of this server, of whichever birth.
fn has_own_end(server: NodeId, version: &Version) -> bool
    ensures { result ≡ has_own_end server version.now.head.vector }
{
    let vector = &version.head().vector;
    vector
        .entries()
        .iter()
        .any(|entry| is_own_end(server, entry))
}

/// Whether some head of a replica knows a number of 2^62 or more, of whichever actor.
pub(crate) fn knows_end(replica: &Replica) -> bool
    ensures { result ≡ knows_end replica.now }
{
    replica
        .content
        .heads()
        .iter()
        .any(|version| has_end(&version.head().vector))
}

/// Whether some head of a replica does.
pub(crate) fn knows_own_end(server: NodeId, replica: &Replica) -> bool
    ensures { result ≡ knows_own_end server replica.now }
{
    replica
        .content
        .heads()
        .iter()
        .any(|version| has_own_end(server, version))
}
