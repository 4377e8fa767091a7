//! What sends walks: the full replicas other than the root's that have one edge or two.

ghost use Rattle.std.specs.Prelude.{[], ◌≡◌, IfOk, OnOk, if◌then◌else◌, length};
ghost use Rattle.pg_base.specs.declared.id.FileId.{FileId};
ghost use Rattle.pg_base.specs.Id.{is_same_file};
ghost use Rattle.pg_index.specs.Ids.{is_one_of};
ghost use Rattle.pg_replica.specs.Replicas.{or_nothing, replica_in};
ghost use Rattle.pg_walkers.specs.Walkers.{AreListed, sends_walks};

use pg_base::{FileId, Items};
use pg_index::Ids;
use pg_names::{Names, is_root};
use pg_replica::Replicas;
use std::alloc::AllocError;

/// A replica with fewer edges than this, and some, sends walks.
const FEW_EDGES: usize = 3;

/// How many edges the replica of a thing has.
fn edge_count(replicas: &Replicas, file: &FileId) -> usize
    ensures { result ≡ length (or_nothing (replica_in replicas.now file.now)).edges }
{
    match replicas.get(file) {
        Some(replica) => replica.edges.len(),
        None => 0,
    }
}

/// Whether the thing sends walks: it is full here, is not the root, and its replica has one edge or
/// two.
pub fn sends_walks(names: &Names, replicas: &Replicas, file: &FileId) -> bool
    ensures { result ≡ sends_walks names.now replicas.now file.now }
{
    if is_root(file) || !names.is_full(file) {
        return false;
    }
    let count = edge_count(replicas, file);
    0 < count && count < FEW_EDGES
}

/// The thing is listed just where it sends walks.
fn relist(
    names: &Names,
    replicas: &Replicas,
    file: FileId,
    walkers: &mut Ids,
) -> Result<(), AllocError>
    ensures { OnOk result ((q : FileId) → is_one_of q walkers.new
        ≡ (if is_same_file file q then sends_walks names.now replicas.now file
        else is_one_of q walkers.old)) }
{
    if sends_walks(names, replicas, &file) {
        walkers.insert(file)?;
    } else {
        walkers.remove(&file);
    }
    Ok(())
}

/// Each of these things is listed just where it sends walks, as each other one was before. After
/// out of memory some of them may be.
pub fn relist_each(
    names: &Names,
    replicas: &Replicas,
    files: &[FileId],
    walkers: &mut Ids,
) -> Result<(), AllocError>
    requires { AreListed names.now replicas.now walkers.old files.now }
    ensures { OnOk result (AreListed names.now replicas.now walkers.new []) }
{
    for file in files {
        relist(names, replicas, *file, walkers)?;
    }
    Ok(())
}

/// What sends walks, of all that is held. It goes over all of it.
pub fn all_walkers(names: &Names, replicas: &Replicas) -> Result<Ids, AllocError>
    ensures { IfOk result (λ ids. AreListed names.now replicas.now ids []) }
{
    let alloc = replicas.allocator();
    let held = Items::from_vec(names.as_map().keys().copied().collect(alloc)?);
    let mut ids = Ids::new(alloc);
    relist_each(names, replicas, held.as_slice(), &mut ids)?;
    Ok(ids)
}
