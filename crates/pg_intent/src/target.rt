//! Which server is asked next.

ghost use Rattle.std.specs.Prelude.{◌≡◌, ◌-◌};
ghost use Rattle.pg_intent.specs.Target.{IsNextTarget, first_above, is_live_other, next_target};

use pg_base::NodeId;
use pg_register::is_removed;

/// The least live other server above the target, else the least live other server, else 0. The
/// servers are numbered from 1 to `servers`; `server` is the one that asks.
pub fn next_target(servers: u32, server: NodeId, removed: &[NodeId], target: NodeId) -> NodeId
    ensures next { result ≡ next_target servers server removed.now target }
    ensures least { IsNextTarget servers server removed.now target result }
{
    if let Some(above) = first_above(servers, server, removed, target) {
        return above;
    }
    match first_above(servers, server, removed, 0) {
        Some(least) => least,
        None => 0,
    }
}

/// The least live other server above this number.
#[tactic(auto, using(crate::proofs::Above::goes_on, crate::proofs::Above::stops, crate::proofs::Above::ends))]
fn first_above(servers: u32, server: NodeId, removed: &[NodeId], number: u32) -> Option<NodeId>
    ensures { result ≡ first_above (is_live_other server removed.now) number (servers - number) }
{
    for below in number..servers {
        let next = below + 1;
        if is_live_other(server, removed, next) {
            return Some(next);
        }
    }
    None
}

/// Whether this is another server, and not one of the removed ones.
fn is_live_other(server: NodeId, removed: &[NodeId], other: NodeId) -> bool
    ensures { result ≡ is_live_other server removed.now other }
{
    other != server && !is_removed(removed, other)
}
