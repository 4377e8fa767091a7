//! What the types of replicas and of what is known of names keep.

ghost use Rattle.std.specs.List.{AllByRecursion};
ghost use Rattle.pg_replica.specs.Replicas.{replica_in};
ghost use Rattle.law_states.specs.Widths.{HasInodeWidth, HasReplicaWidth, HasThingWidth, MayHaveWidth};

use crate::widths::{
    deltas_have_widths, edges_have_widths, entries_have_widths, file_is, own_has_widths,
    versions_have_widths, wide_is,
};
use pg_base::FileId;
use pg_names::Inode;
use pg_replica::{Replica, Replicas};
use std::collections::BTreeMap;

fn replica_has_widths(replica: &Replica)
    ensures { HasReplicaWidth replica.now }
{
    wide_is(replica.birth);
    versions_have_widths(replica.content.heads());
    deltas_have_widths(replica.kept.as_slice());
    edges_have_widths(replica.edges.as_slice())
}

fn inode_has_widths(inode: &Inode)
    ensures { HasInodeWidth inode.now }
{
    own_has_widths(inode.own());
    entries_have_widths(inode.entries().as_map())
}

fn replica_may_have_widths(replicas: &Replicas, id: FileId)
    ensures { MayHaveWidth (replica_in replicas.now id) }
{
    match replicas.get(&id) {
        None => (),
        Some(replica) => replica_has_widths(replica),
    }
}

fn thing_has_widths(replicas: &Replicas, id: FileId, inode: &Inode)
    ensures { HasThingWidth replicas.now (id, inode.now) }
{
    file_is(id);
    inode_has_widths(inode);
    replica_may_have_widths(replicas, id)
}

pub(crate) fn things_have_widths(replicas: &Replicas, held: &BTreeMap<FileId, Inode>)
    ensures { AllByRecursion (HasThingWidth replicas.now) held.now.entries }
{
    for (id, inode) in held {
        thing_has_widths(replicas, *id, inode);
    }
}
