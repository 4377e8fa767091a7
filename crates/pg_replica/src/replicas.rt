//! The replicas of a server, by file.

ghost use Rattle.std.specs.Prelude.{◌≡◌, ◌≢◌, ◌≤◌, ◌+◌, ◌^◌, [], true, if◌then◌else◌, is_some, length, map, IfErr, IfOk, None, OnErr, OnOk, Some, option_copied};
ghost use Rattle.std.specs.List.Sorted.{IsStrictlySortedBy};
ghost use Rattle.std.specs.Map.{keys_of};
ghost use Rattle.pg_base.specs.Id.{file_cmp};
ghost use Rattle.pg_base.specs.Version.{stamp_of};
ghost use Rattle.pg_edges.specs.Edges.{are_clean};
ghost use Rattle.pg_replica.specs.Replica.{has_room, refusal_of};
ghost use Rattle.pg_replica.specs.Replicas.{edge_count, have_own_end, is_own_end_in, lists_peer, or_nothing, put_replica, replica_in, replicas_acked, replicas_keeping, replicas_linked, replicas_taking, replicas_touched, replicas_unlinked, replicas_writing, takes_link, takes_version, without_replica};
ghost use Rattle.pg_replica.specs.Index.{IsIndex};
ghost use Rattle.pg_unacked.specs.Changes.{Redues};
ghost use Rattle.pg_replica.specs.Unacked.{unacked};
ghost use Rattle.pg_replica.specs.InOrder.{in_order};

use crate::changes::replace;
use crate::link::Link;
use crate::listing::{
    Lists, acknowledge_listed, link_listed, list_replica, take_listed, touch_listed, unlink_listed,
    write_listed,
};
use crate::numbers::knows_own_end;
use crate::replica::Replica;
use pg_base::{FileId, Items, NodeId, Stamp, Version};
use pg_content::WriteError;
use pg_delta::KeptDelta;
use pg_edges::Key;
use pg_patch::Ranges;
use pg_unacked::{Due, Unacked, enter_due};
use std::alloc::{AllocError, Global};
use std::collections::{BTreeMap, HashMap};
use std::marker::Model;

/// Replicas by file. The lists have every file that they are to have, and no other but where memory
/// ran out or where a number at its end went. What is due to peers is just what the edges have.
#[derive(Debug, Drop)]
pub struct Replicas {
    alloc: Global,
    by_file: HashMap<FileId, Replica>,
    lists: Lists,
}

impl Model for Replicas {
    ghost use Rattle.pg_replica.specs.Replicas.{ByFile};

    ghost Value = { ByFile };

    ghost use Rattle.pg_replica.specs.InOrder.{in_order};

    ghost view = { λ r. in_order r.by_file.entries };

    ghost use Rattle.pg_replica.specs.IndexInside.{AreIndexed};

    ghost invariant = { AreIndexed };
}

/// The replica of a file that has none is this one from now on. After out of memory all is as
/// before.
fn put_first(
    by_file: &mut HashMap<FileId, Replica>,
    unacked: &mut Unacked,
    file: FileId,
    replica: Replica,
) -> Result<(), AllocError>
    ensures ok { OnOk result (in_order by_file.new.entries
        ≡ put_replica (in_order by_file.old.entries) file replica) }
    ensures err { OnErr result (in_order by_file.new.entries ≡ in_order by_file.old.entries) }
    ensures due { OnOk result (Redues unacked.old unacked.new file [] replica.edges) }
    ensures none { OnErr result (Redues unacked.old unacked.new file [] []) }
{
    enter_due(unacked, file, &replica.edges)?;
    if let Err(e) = by_file.insert(file, replica) {
        unacked.forget(&file);
        return Err(e.into());
    }
    Ok(())
}

impl Replicas {
    /// No replica. It takes no memory.
    pub fn new(alloc: Global) -> Replicas
        ensures { result ≡ [] }
    {
        Replicas {
            alloc,
            by_file: HashMap::new(alloc),
            lists: Lists::new(alloc),
        }
    }

    pub fn allocator(&self) -> Global {
        self.alloc
    }

    /// How many replicas there are.
    pub fn len(&self) -> usize
        ensures len { result ≡ length self.now }
        ensures by_file { IsStrictlySortedBy file_cmp (keys_of self.now) }
    {
        self.by_file.len()
    }

    /// The replica of a file, if there is one.
    pub fn get(&self, file: &FileId) -> Option<&Replica>
        ensures replica { option_copied result ≡ replica_in self.now file.now }
        ensures by_file { IsStrictlySortedBy file_cmp (keys_of self.now) }
    {
        self.by_file.get(file)
    }

    /// The files with unacknowledged keys, to go through them by file: no replica of another file
    /// has one.
    pub fn unacknowledged(&self) -> &BTreeMap<FileId, ()>
        ensures { IsIndex result.now.entries self.now }
    {
        &self.lists.unacknowledged
    }

    /// The keys that a peer has not acknowledged, on the edges of all replicas to it, by file and
    /// then by key. It takes no memory.
    pub fn unacked(&self, peer: NodeId) -> &[Due]
        ensures { result.now ≡ unacked self.now peer }
    {
        self.lists.unacked.get(peer)
    }

    /// Whether some replica knows a number of 2^62 or more of one of the server's actors. The files
    /// that may are listed, so that nothing is gone over where there is no such number.
    pub fn have_own_end(&self, server: NodeId) -> bool
        ensures { result ≡ have_own_end self.now server }
    {
        for file in self.lists.ended.keys() {
            if self.is_own_end(server, file) {
                return true;
            }
        }
        false
    }

    fn is_own_end(&self, server: NodeId, file: &FileId) -> bool
        ensures { result ≡ is_own_end_in server (replica_in self.now file.now) }
    {
        match self.get(file) {
            Some(replica) => knows_own_end(server, replica),
            None => false,
        }
    }

    /// A replica begins, which has no version and no unacknowledged key. Where there is one of the
    /// file it goes.
    pub fn add(&mut self, file: FileId, replica: Replica) -> Result<(), AllocError>
        requires clean { are_clean replica.edges ≡ true }
        requires no_head { replica.content.heads ≡ [] }
        ensures ok { OnOk result (self.new ≡ put_replica self.old file replica) }
        ensures err { OnErr result (self.new ≡ self.old) }
    {
        self.by_file.insert(file, replica)?;
        self.lists.unacked.forget(&file);
        Ok(())
    }

    /// The replica of a file is this one from now on, with the versions and the unacknowledged keys
    /// that it has. After out of memory all is as before.
    pub fn put(&mut self, file: FileId, replica: Replica) -> Result<(), AllocError>
        ensures ok { OnOk result (self.new ≡ put_replica self.old file replica) }
        ensures err { OnErr result (self.new ≡ self.old) }
    {
        list_replica(&mut self.lists, file, &replica)?;
        let Some(held) = self.by_file.get_mut(&file) else {
            return put_first(&mut self.by_file, &mut self.lists.unacked, file, replica);
        };
        replace(held, &mut self.lists.unacked, file, replica)
    }

    /// The replica of a file goes, if there is one, and is handed out.
    pub fn remove(&mut self, file: &FileId) -> Option<Replica>
        ensures replica { result ≡ replica_in self.old file.now }
        ensures replicas { self.new ≡ without_replica self.old file.now }
    {
        self.lists.unacknowledged.remove(file);
        self.lists.ended.remove(file);
        self.lists.unacked.forget(file);
        self.by_file.remove(file)
    }

    /// Links a birth of a peer to the replica of a file, and tells whether that made an edge, on
    /// which each of these keys has a fresh tag. `tags` is the next tag to give. After out of
    /// memory a part may be done, or the replica may have lost its edges.
    pub fn link(
        &mut self,
        file: FileId,
        peer: NodeId,
        birth: u64,
        keys: &[Key],
        tags: &mut u64,
    ) -> Result<bool, AllocError>
        requires { tags.old ≤ 2 ^ 63 }
        ensures made { IfOk result
            (λ made. made ≡ takes_link (replica_in self.old file) peer birth) }
        ensures replicas { OnOk result (self.new
            ≡ (if takes_link (replica_in self.old file) peer birth
            then replicas_linked self.old file peer birth keys.now tags.old (replica_in self.old file)
            else self.old)) }
        ensures tags { OnOk result (tags.new
            ≡ (if takes_link (replica_in self.old file) peer birth then tags.old + length keys.now
            else tags.old)) }
    {
        let Some(replica) = self.by_file.get_mut(&file) else {
            return Ok(false);
        };
        link_listed(replica, &mut self.lists, file, peer, birth, keys, tags)
    }

    /// The edge of the replica of a file to a peer goes, where it is listed with this birth.
    pub fn unlink(&mut self, file: FileId, peer: NodeId, birth: u64)
        ensures { self.new
            ≡ (if lists_peer (replica_in self.old file) peer birth
            then replicas_unlinked self.old file peer birth (replica_in self.old file)
            else self.old) }
    {
        let Some(replica) = self.by_file.get_mut(&file) else {
            return;
        };
        unlink_listed(replica, &mut self.lists, file, peer, birth);
    }

    /// Touches a key of the replica of a file on every edge. `tags` is the next tag to give. After
    /// out of memory a part may be done, or the replica may have lost its edges.
    pub fn touch(&mut self, file: FileId, key: Key, tags: &mut u64) -> Result<(), AllocError>
        requires { tags.old ≤ 2 ^ 63 }
        ensures replicas { OnOk result (self.new
            ≡ replicas_touched self.old file key tags.old (replica_in self.old file)) }
        ensures tags { OnOk result
            (tags.new ≡ tags.old + edge_count (replica_in self.old file)) }
    {
        let Some(replica) = self.by_file.get_mut(&file) else {
            return Ok(());
        };
        touch_listed(replica, &mut self.lists, file, key, tags)
    }

    /// Takes a version, and tells whether it is a head from then on: where there is a replica of
    /// the file, and the version is not covered. `tags` is the next tag to give. After out of
    /// memory a part may be done, or the replica may have lost its edges.
    pub fn take_version(
        &mut self,
        file: FileId,
        version: Version,
        tags: &mut u64,
    ) -> Result<bool, AllocError>
        requires { tags.old ≤ 2 ^ 63 }
        ensures news { IfOk result
            (λ news. news ≡ takes_version (replica_in self.old file) version) }
        ensures replicas { OnOk result (self.new
            ≡ (if takes_version (replica_in self.old file) version
            then replicas_taking self.old file version tags.old (replica_in self.old file)
            else self.old)) }
        ensures tags { OnOk result (tags.new
            ≡ (if takes_version (replica_in self.old file) version
            then tags.old + edge_count (replica_in self.old file)
            else tags.old)) }
    {
        let Some(replica) = self.by_file.get_mut(&file) else {
            return Ok(false);
        };
        take_listed(replica, &mut self.lists, file, version, tags)
    }

    /// Makes a version of what the ranges make of what is shown of a file that has a replica, and
    /// answers the stamps of the heads that it is based on. It is the only head then. Where that is
    /// refused nothing changes. Where memory ran out a part may be done, or the replica may have
    /// lost its edges. `tags` is the next tag to give.
    pub fn write(
        &mut self,
        file: FileId,
        stamp: Stamp,
        ranges: &Ranges,
        tags: &mut u64,
    ) -> Result<Items<Stamp>, WriteError>
        requires tags { tags.old ≤ 2 ^ 63 }
        requires held { is_some (replica_in self.old file) ≡ true }
        requires room { has_room (or_nothing (replica_in self.old file)) stamp.server ≡ true }
        ensures bases { IfOk result (λ ss. ss
            ≡ map stamp_of (or_nothing (replica_in self.old file)).content.heads) }
        ensures replicas { OnOk result (self.new
            ≡ replicas_writing self.old file stamp ranges.now tags.old (replica_in self.old file)) }
        ensures tags { OnOk result
            (tags.new ≡ tags.old + edge_count (replica_in self.old file)) }
        ensures allowed { OnOk result (refusal_of (or_nothing (replica_in self.old file))
            stamp.server ranges.now ≡ None) }
        ensures refused { IfErr result (λ e. e ≢ WriteError.OutOfMemory
            → refusal_of (or_nothing (replica_in self.old file)) stamp.server ranges.now
            ≡ Some e) }
        ensures same { IfErr result (λ e. e ≢ WriteError.OutOfMemory
            → (self.new ≡ self.old) × (tags.new ≡ tags.old)) }
    {
        let Some(replica) = self.by_file.get_mut(&file) else {
            unreachable!();
        };
        write_listed(
            replica,
            &mut self.lists,
            self.alloc,
            file,
            stamp,
            ranges,
            tags,
        )
    }

    /// The replica of a file keeps one more delta, if there is one. After out of memory all is as
    /// before.
    pub fn keep_delta(&mut self, file: FileId, delta: KeptDelta) -> Result<(), AllocError>
        ensures { OnOk result (self.new
            ≡ replicas_keeping self.old file delta (replica_in self.old file)) }
    {
        let Some(replica) = self.by_file.get_mut(&file) else {
            return Ok(());
        };
        replica.keep(delta)
    }

    /// An answer that came along an edge takes the key off where the tag is the present one there.
    /// The file is listed no longer where its last key went.
    pub fn acknowledge(&mut self, file: FileId, link: &Link, key: Key, tag: u64)
        ensures { self.new
            ≡ replicas_acked self.old file link.now key tag (replica_in self.old file) }
    {
        let Some(replica) = self.by_file.get_mut(&file) else {
            return;
        };
        acknowledge_listed(replica, &mut self.lists, file, link, key, tag);
    }
}
