//! The root, of which every server has a full gold replica from the start on.

ghost use Rattle.std.specs.Prelude.{◌≡◌, IfOk};
ghost use Rattle.pg_store.specs.Start.{first_flag, first_flags, first_names, first_replicas, root_own};

use pg_base::{FileId, Kind, NodeId};
use pg_names::{Attributes, Names};
use pg_register::{Flag, GoldFlags, Place};
use pg_replica::{FIRST_BIRTH, Replicas, first_root};
use std::alloc::{AllocError, Global};

/// The directory above all others.
const ROOT: FileId = FileId {
    kind: Kind::Dir,
    server: 0,
    number: 0,
};

/// The raised flag of a server's first replica of the root.
fn first_flag(server: NodeId) -> Flag
    ensures { result ≡ first_flag server }
{
    Flag {
        server,
        birth: FIRST_BIRTH,
        number: 1,
        raised: true,
    }
}

/// A raised flag of each of the first servers.
fn first_flags(alloc: Global, servers: u32) -> Result<GoldFlags, AllocError>
    ensures { IfOk result (λ flags. flags ≡ first_flags servers) }
{
    let mut flags = GoldFlags::new(alloc);
    for k in 0..servers {
        flags.join(first_flag(k + 1))?;
    }
    Ok(flags)
}

fn root_own(alloc: Global, servers: u32) -> Result<Attributes, AllocError>
    ensures { IfOk result (λ own. own ≡ root_own servers) }
{
    Ok(Attributes {
        place: Place::root(alloc)?,
        flags: first_flags(alloc, servers)?,
    })
}

/// What a server knows of names at the start of a run with so many servers: the root, and it is
/// full.
pub(crate) fn first_names(alloc: Global, server: NodeId, servers: u32) -> Result<Names, AllocError>
    ensures { IfOk result (λ names. names ≡ first_names servers server) }
{
    let mut names = Names::new(alloc, server);
    names.begin(ROOT, root_own(alloc, servers)?, true)?;
    Ok(names)
}

/// The replicas of a server at the start of a run: that of the root, with a clean edge to each
/// other server.
pub(crate) fn first_replicas(
    alloc: Global,
    server: NodeId,
    servers: u32,
) -> Result<Replicas, AllocError>
    ensures { IfOk result (λ replicas. replicas ≡ first_replicas servers server) }
{
    let mut replicas = Replicas::new(alloc);
    replicas.add(ROOT, first_root(alloc, server, servers)?)?;
    Ok(replicas)
}
