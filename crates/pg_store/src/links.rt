//! Edges that are made and go.

ghost use Rattle.std.specs.Prelude.{◌≡◌, ◌++◌, IfOk, OnOk, true};
ghost use Rattle.pg_replica.specs.Replica.{keys as head_keys};
ghost use Rattle.std.specs.Map.{keys_of};
ghost use Rattle.pg_names.specs.Names.{known};
ghost use Rattle.pg_store.specs.Links.{entry_keys, flag_keys, is_clean, is_new_link, keys, knows_later, link, name_keys, put_link, unlink};
ghost use Rattle.pg_store.specs.Store.{content_of};

use crate::store::{COUNTER_LIMIT, Store};
use pg_base::{FileId, Items, NodeId, Version};
use pg_edges::Key;
use pg_names::Inode;
use pg_register::Flag;
use std::alloc::AllocError;

impl Store {
    /// Links a birth of a peer to the replica of a thing, and tells whether that made an edge:
    /// where the peer is listed with this birth or a greater one nothing changes. On a new edge
    /// each key of the replica has a fresh tag. After out of memory a part may be done.
    pub fn link(&mut self, file: FileId, peer: NodeId, birth: u64) -> Result<bool, AllocError>
        ensures store { OnOk result (self.new ≡ link self.old file peer birth) }
        ensures news { IfOk result (λ news. news ≡ is_new_link self.old file peer birth) }
    {
        if !self.is_new_link(&file, peer, birth) {
            return Ok(false);
        }
        self.put_link(file, peer, birth)?;
        Ok(true)
    }

    /// Whether a link to this birth of a peer makes an edge: the thing is held, and the peer is not
    /// listed, or with a lesser birth.
    fn is_new_link(&self, file: &FileId, peer: NodeId, birth: u64) -> bool
        ensures { result ≡ is_new_link self.now file.now peer birth }
    {
        match self.replica(file) {
            Some(replica) => replica.edges.makes_edge(peer, birth),
            None => false,
        }
    }

    /// The edge to a birth of a peer is made, on which each key of the replica has a fresh tag.
    /// After out of memory a part may be done.
    fn put_link(&mut self, file: FileId, peer: NodeId, birth: u64) -> Result<(), AllocError>
        requires { is_new_link self.old file peer birth ≡ true }
        ensures { OnOk result (self.new ≡ put_link self.old file peer birth) }
    {
        if self.tags > COUNTER_LIMIT {
            return Err(AllocError);
        }
        let keys = self.keys(&file)?;
        self.seekers.mark(file);
        let all = self.seekers.all;
        self.seekers.all = true;
        self.replicas
            .link(file, peer, birth, keys.as_slice(), &mut self.tags)?;
        self.seekers.all = all;
        Ok(())
    }

    /// The edge to a peer goes, where it is listed with this birth.
    pub fn unlink(&mut self, file: FileId, peer: NodeId, birth: u64)
        ensures { self.new ≡ unlink self.old file peer birth }
    {
        self.seekers.mark(file);
        self.replicas.unlink(file, peer, birth);
    }

    /// Whether the peer is listed with a greater birth.
    pub fn knows_later_birth(&self, file: &FileId, peer: NodeId, birth: u64) -> bool
        ensures { result ≡ knows_later self.now file.now peer birth }
    {
        match self.replica(file) {
            Some(replica) => replica.knows_later(peer, birth),
            None => false,
        }
    }

    /// Whether the peer is listed with this birth, and has acknowledged every key.
    pub fn is_clean(&self, file: &FileId, peer: NodeId, birth: u64) -> bool
        ensures { result ≡ is_clean self.now file.now peer birth }
    {
        match self.replica(file) {
            Some(replica) => replica.is_clean_to(peer, birth),
            None => false,
        }
    }

    /// The keys of the cells of a replica: its place, its flags by server, its entries by child,
    /// its heads by stamp.
    fn keys(&self, file: &FileId) -> Result<Items<Key>, AllocError>
        ensures { IfOk result (λ ks. ks ≡ keys self.now file.now) }
    {
        let mut keys = Items::new(self.allocator());
        self.push_name_keys(file, &mut keys)?;
        self.push_head_keys(file, &mut keys)?;
        Ok(keys)
    }

    /// Puts the keys of the place, the flags and the entries behind these.
    fn push_name_keys(&self, file: &FileId, keys: &mut Items<Key>) -> Result<(), AllocError>
        ensures { OnOk result (keys.new ≡ keys.old ++ name_keys (known self.now.names file.now)) }
    {
        let Some(held) = self.names.get(file) else {
            return Ok(());
        };
        keys.push(Key::Place)?;
        push_flag_keys(held.own().flags.as_slice(), keys)?;
        push_entry_keys(held, keys)
    }

    /// Puts the keys of the heads behind these.
    fn push_head_keys(&self, file: &FileId, keys: &mut Items<Key>) -> Result<(), AllocError>
        ensures { OnOk result
            (keys.new ≡ keys.old ++ head_keys (content_of self.now file.now).heads) }
    {
        let Some(replica) = self.replica(file) else {
            return Ok(());
        };
        push_version_keys(replica.content.heads(), keys)
    }
}

/// The keys of flags.
fn push_flag_keys(flags: &[Flag], keys: &mut Items<Key>) -> Result<(), AllocError>
    ensures { OnOk result (keys.new ≡ keys.old ++ flag_keys flags.now) }
{
    for flag in flags {
        keys.push(Key::Flag(flag.server))?;
    }
    Ok(())
}

/// The keys of the entries of a directory.
fn push_entry_keys(held: &Inode, keys: &mut Items<Key>) -> Result<(), AllocError>
    ensures { OnOk result (keys.new ≡ keys.old ++ entry_keys (keys_of held.now.entries)) }
{
    for child in held.entries().as_map().keys() {
        keys.push(Key::Entry(*child))?;
    }
    Ok(())
}

/// The keys of versions.
fn push_version_keys(heads: &[Version], keys: &mut Items<Key>) -> Result<(), AllocError>
    ensures { OnOk result (keys.new ≡ keys.old ++ head_keys heads.now) }
{
    for version in heads {
        keys.push(Key::Version(version.head().stamp))?;
    }
    Ok(())
}
