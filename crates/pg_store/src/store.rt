//! What a server holds.

ghost use Rattle.std.specs.Prelude.{◌≡◌, ◌≤◌, ◌^◌, IfOk, OnOk, length};
ghost use Rattle.std.specs.List.{list_any};
ghost use Rattle.std.specs.Option.{option_copied};
ghost use Rattle.pg_replica.specs.Replica.{has_edge};
ghost use Rattle.pg_store.specs.Births.{birth_of, has_birth};
ghost use Rattle.pg_store.specs.Seen.{server_of};
ghost use Rattle.pg_store.specs.Store.{acknowledge, has_time, have_own_flag_at_end, is_before_clock_end, is_end_at, is_own_flag_at_end, new_store, replica_at, replica_of, store_of, touch};

use crate::seekers::Seekers;
use crate::start::{first_names, first_replicas};
use crate::wishes::Wishes;
use pg_announced::Announcements;
use pg_base::{FileId, NodeId, Stamp};
use pg_edges::Key;
use pg_index::Ids;
use pg_intent::Intents;
use pg_names::{Inode, Names};
use pg_replica::{FIRST_BIRTH, Link, Replica, Replicas};
use std::alloc::{AllocError, Global};
use std::marker::Model;

/// What a server holds. Beside it the things that may seek a gold replica are kept: what is not
/// among them does not. So are those that send walks.
#[derive(Debug, Drop)]
pub struct Store {
    /// How many servers the run has.
    pub servers: u32,
    /// The next tag that it gives out.
    pub tags: u64,
    /// The number of the latest id that it gave out: 0 before the first.
    pub files: u64,
    /// The latest birth that it gave out. The first is that of the root's replica.
    pub births: u64,
    /// The names that the server knows: by id, all that it holds.
    pub names: Names,
    /// The replicas of all that it holds, with their edges and contents.
    pub replicas: Replicas,
    /// The versions that it heard of and does not cover. A restart loses them.
    pub announced: Announcements,
    /// The intentions of the server, until others have answered.
    pub intents: Intents,
    /// What its clients asked for that it does not hold. A restart loses them.
    pub wishes: Wishes,
    pub(crate) seekers: Seekers,
}

impl Model for Store {
    ghost use Rattle.pg_store.specs.Value.{StoreValue};

    ghost Value = { StoreValue };

    ghost use Rattle.pg_store.specs.Seekers.{AreMarked};

    ghost view = { λ s. record {
      servers = s.servers;
      tags = s.tags;
      files = s.files;
      births = s.births;
      names = s.names;
      replicas = s.replicas;
      announced = s.announced;
      intents = s.intents;
      wishes = s.wishes;
    } };

    ghost invariant = { λ s. AreMarked s.names s.replicas s.seekers };
}

/// From more tags than this on no version is made and no key is touched: memory ends before.
pub const COUNTER_LIMIT: u64 = 1 << 63;

/// From a greatest time behind this no house rule draws a stamp: memory ends before. A call draws
/// two stamps at most from a clock that is not at its end, and no message with a later time is
/// heard.
pub const LATEST_TIME: u64 = (1 << 62) + (1 << 40);

impl Store {
    /// A server at the start of a run with so many servers.
    pub fn new(alloc: Global, server: NodeId, servers: u32) -> Result<Store, AllocError>
        ensures { IfOk result (λ store. store ≡ new_store servers server) }
    {
        Ok(Store {
            servers,
            tags: 1,
            files: 0,
            births: FIRST_BIRTH,
            names: first_names(alloc, server, servers)?,
            replicas: first_replicas(alloc, server, servers)?,
            announced: Announcements::new(alloc),
            intents: Intents::new(alloc),
            wishes: Wishes::new(alloc),
            seekers: Seekers::new(alloc),
        })
    }

    /// A store of these names and replicas: nothing was given out, and nothing else is held.
    pub fn of(names: Names, replicas: Replicas) -> Store
        ensures { result ≡ store_of names replicas }
    {
        let alloc = replicas.allocator();
        Store {
            servers: 0,
            tags: 0,
            files: 0,
            births: 0,
            names,
            replicas,
            announced: Announcements::new(alloc),
            intents: Intents::new(alloc),
            wishes: Wishes::new(alloc),
            seekers: Seekers::new(alloc),
        }
    }

    pub fn allocator(&self) -> Global {
        self.replicas.allocator()
    }

    /// The number of this server.
    pub fn server(&self) -> NodeId
        ensures { result ≡ server_of self.now }
    {
        self.names.server()
    }

    /// Whether the clock is not at its end: no stamp that was taken, no tag, no id and no birth
    /// that was given out, and no number of one of the server's own actors or flags that is known
    /// here, has come to 2^62.
    pub fn is_before_clock_end(&self) -> bool
        ensures { result ≡ is_before_clock_end self.now }
    {
        self.has_time()
            && !self.replicas.have_own_end(self.server())
            && !self.have_own_flag_at_end()
    }

    fn has_time(&self) -> bool
        ensures { result
            ≡ has_time self.now.names.last self.now.tags self.now.files self.now.births }
    {
        self.names.last() < Stamp::CLOCK_END
            && self.tags <= Stamp::CLOCK_END
            && self.files < Stamp::CLOCK_END
            && self.births < Stamp::CLOCK_END
    }

    fn have_own_flag_at_end(&self) -> bool
        ensures { result ≡ have_own_flag_at_end self.now.names }
    {
        let _held = self.names.as_map();
        is_any_at_end(&self.names, self.names.dirty())
    }

    /// The replica of a file or directory, if it is held.
    pub fn replica(&self, file: &FileId) -> Option<&Replica>
        ensures { option_copied result ≡ replica_at self.now file.now }
    {
        self.replicas.get(file)
    }

    /// Whether the thing is held, and its replica has this birth.
    pub fn has_birth(&self, file: &FileId, birth: u64) -> bool
        ensures { result ≡ has_birth self.now file.now birth }
    {
        match self.replica(file) {
            Some(replica) => replica.birth == birth,
            None => false,
        }
    }

    /// The birth of the replica. 0 where the thing is not held.
    pub fn birth(&self, file: &FileId) -> u64
        ensures { result ≡ birth_of self.now file.now }
    {
        match self.replica(file) {
            Some(replica) => replica.birth,
            None => 0,
        }
    }

    /// Whether the replica has an edge between these births.
    pub fn has_edge(&self, file: &FileId, link: &Link) -> bool
        ensures { result ≡ has_edge (replica_of self.now file.now) link.now }
    {
        match self.replica(file) {
            Some(replica) => replica.has_edge(link),
            None => false,
        }
    }

    /// How many edges the replica has.
    pub fn edge_count(&self, file: &FileId) -> usize
        ensures { result ≡ length (replica_of self.now file.now).edges }
    {
        match self.replica(file) {
            Some(replica) => replica.edges.len(),
            None => 0,
        }
    }

    /// Puts a fresh tag at the key on each edge, by peers. After out of memory a part may be done.
    pub fn touch(&mut self, file: FileId, key: Key) -> Result<(), AllocError>
        ensures { OnOk result (self.new ≡ touch self.old file key) }
    {
        if self.tags > COUNTER_LIMIT {
            return Err(AllocError);
        }
        self.seekers.mark(file);
        let all = self.seekers.all;
        self.seekers.all = true;
        self.replicas.touch(file, key, &mut self.tags)?;
        self.seekers.all = all;
        Ok(())
    }

    /// An answer that came along an edge takes the key off where its tag is the present one there.
    pub fn acknowledge(&mut self, file: FileId, link: &Link, key: Key, tag: u64)
        ensures { self.new ≡ acknowledge self.old file link.now key tag }
    {
        self.seekers.mark(file);
        self.replicas.acknowledge(file, link, key, tag);
    }
}

/// Whether the server's own flag of a thing has a number of 2^62 or more.
fn is_own_flag_at_end(server: NodeId, held: &Inode) -> bool
    ensures { result ≡ is_own_flag_at_end server held.now }
{
    Stamp::CLOCK_END <= held.own().flags.number(server)
}

/// Whether it has, of a thing that is held.
fn is_at_end(names: &Names, file: &FileId) -> bool
    ensures { result ≡ is_end_at names.now file.now }
{
    match names.get(file) {
        Some(held) => is_own_flag_at_end(names.server(), held),
        None => false,
    }
}

/// Whether one of these has.
fn is_any_at_end(names: &Names, ids: &Ids) -> bool
    ensures { result ≡ list_any (is_end_at names.now) ids.now }
{
    ids.as_slice().iter().any(|file| is_at_end(names, file))
}
