//! One server's replica of a file whose versions may stand side by side.

ghost use Rattle.std.specs.Prelude.{◌≡◌, ◌≢◌, ◌+◌, ◌<◌, ◌≤◌, ◌^◌, ◌↔◌, All, IfErr, IfOk, IsErrOf, IsTrue, OnErr, OnOk, None, Some, false, length, map, not, option_copied, true};
ghost use Rattle.pg_base.specs.Vector.{number_at};
ghost use Rattle.pg_base.specs.Version.{stamp_of};
ghost use Rattle.pg_patch.specs.Ranges.{applied};
ghost use Rattle.pg_content.specs.Content.{actor_limit, body_limit, next_vector, next_version, shown_bytes};
ghost use Rattle.pg_edges.specs.Edges.{are_clean, drawn, makes_edge, taken_off, touched};
ghost use Rattle.pg_replica.specs.Replica.{cell_at, covers, has_edge, has_room, is_clean_to, is_too_long, keys, knows_later, new_replica, own_actor, refusal_of, with_ack_along, with_head, with_kept, with_link, with_only, with_touch};

use crate::link::Link;
use crate::retiring::{key_of, retire_all, retire_replaced};
use pg_base::{Actor, Items, NodeId, Policy, Stamp, Version};
use pg_content::{Content, WriteError};
use pg_delta::{KeptDelta, KeptDeltas};
use pg_edges::{Edges, Key};
use pg_patch::Ranges;
use std::alloc::{AllocError, Global};

/// A replica of a file.
#[derive(Debug, Drop)]
pub struct Replica {
    /// The birth of the replica: which of the server's replicas of this file it is.
    pub birth: u64,
    /// The versions that stand side by side. Each is a cell, and its key is its stamp.
    pub content: Content,
    /// The latest of the deltas that it made or took.
    pub kept: KeptDeltas,
    /// The peers' replicas that it floods to, and the keys that they have not acknowledged.
    pub edges: Edges,
}

impl Replica {
    /// A replica of this birth, with no version and no edge. It takes no memory.
    pub fn new(alloc: Global, birth: u64, policy: Policy) -> Replica
        ensures { result ≡ new_replica birth policy }
    {
        Replica {
            birth,
            content: Content::new(alloc, policy),
            kept: KeptDeltas::new(alloc),
            edges: Edges::new(alloc),
        }
    }

    /// Whether the version, or one that was made after it and knew it, was brought in.
    pub fn covers(&self, version: &Version) -> bool
        ensures { result ≡ covers self.now version.now }
    {
        let head = version.head();
        self.content.covers(head.actor(), head.number)
    }

    /// The keys of the heads, by stamp.
    pub fn keys(&self, alloc: Global) -> Result<Items<Key>, AllocError>
        ensures { IfOk result (λ ks. ks ≡ keys self.now.content.heads) }
    {
        let mut keys = Items::new(alloc);
        for version in self.content.heads() {
            keys.push(key_of(version))?;
        }
        Ok(keys)
    }

    /// The head that the key names.
    pub fn cell_at(&self, key: &Key) -> Option<&Version>
        ensures { option_copied result ≡ cell_at self.now.content.heads key.now }
    {
        match key {
            Key::Version(stamp) => self.content.at(*stamp),
            _ => None,
        }
    }

    /// Whether there is an edge between these births of the replica and of the peer's.
    pub fn has_edge(&self, link: &Link) -> bool
        ensures { result ≡ has_edge self.now link.now }
    {
        link.own == self.birth && self.edges.is_listed(link.peer, link.birth)
    }

    /// Whether the peer is listed with a greater birth.
    pub fn knows_later(&self, peer: NodeId, birth: u64) -> bool
        ensures { result ≡ knows_later self.now peer birth }
    {
        match self.edges.get(peer) {
            Some(edge) => birth < edge.birth,
            None => false,
        }
    }

    /// Whether the peer is listed with this birth, and has acknowledged every key.
    pub fn is_clean_to(&self, peer: NodeId, birth: u64) -> bool
        ensures { result ≡ is_clean_to self.now peer birth }
    {
        match self.edges.keys(peer, birth) {
            Some(keys) => keys.is_empty(),
            None => false,
        }
    }

    /// Whether every peer has acknowledged every key.
    pub fn is_clean(&self) -> bool
        ensures { result ≡ are_clean self.now.edges }
    {
        self.edges.are_clean()
    }

    /// One more delta is kept, unless it has too many bytes. After a refusal all is as before.
    pub(crate) fn keep(&mut self, delta: KeptDelta) -> Result<(), AllocError>
        ensures replica { OnOk result (self.new ≡ with_kept self.old delta) }
        ensures content { self.new.content ≡ self.old.content }
        ensures edges { self.new.edges ≡ self.old.edges }
    {
        self.kept.keep(delta)
    }

    /// The version that the server makes of what the ranges make of what is shown, with all heads
    /// as its bases. Nothing changes.
    pub(crate) fn next_version(&self, stamp: Stamp, ranges: &Ranges) -> Result<Version, WriteError>
        requires { has_room self.now stamp.server ≡ true }
        ensures next { IfOk result (λ v.
            v ≡ next_version self.now.content (own_actor self.now stamp.server) stamp ranges.now) }
        ensures allowed { OnOk result (refusal_of self.now stamp.server ranges.now ≡ None) }
        ensures refused { IfErr result (λ e. e ≢ WriteError.OutOfMemory
            → refusal_of self.now stamp.server ranges.now ≡ Some e) }
        ensures too_long { IsErrOf result WriteError.TooLong
            ↔ (is_too_long self.now ranges.now ≡ true) }
    {
        let actor = self.own_actor(stamp.server);
        self.content.next_version(actor, stamp, ranges)
    }

    /// The stamps of the heads, in their order.
    pub(crate) fn bases(&self, alloc: Global) -> Result<Items<Stamp>, AllocError>
        ensures { IfOk result (λ ss. ss ≡ map stamp_of self.now.content.heads) }
    {
        let mut stamps = Items::new(alloc);
        for version in self.content.heads() {
            stamps.push(version.head().stamp)?;
        }
        Ok(stamps)
    }

    fn own_actor(&self, server: NodeId) -> Actor
        ensures { result ≡ own_actor self.now server }
    {
        Actor {
            server,
            birth: self.birth,
        }
    }
}
