//! Versions that come to a server, or that it makes.

ghost use Rattle.std.specs.Prelude.{◌≡◌, ◌≢◌, ◌≤◌, ◌^◌, IfErr, IfOk, None, OnOk, Some, map, true};
ghost use Rattle.pg_base.specs.Version.{stamp_of};
ghost use Rattle.pg_replica.specs.Replica.{has_room, refusal_of};
ghost use Rattle.pg_store.specs.Store.{content_of, end_covered, has_replica, is_new_version, keep_delta, replica_of, take_version, write};

use crate::store::{COUNTER_LIMIT, Store};
use pg_base::{FileId, Items, Stamp, Version};
use pg_content::WriteError;
use pg_delta::KeptDelta;
use pg_patch::Ranges;
use std::alloc::AllocError;

impl Store {
    /// A held file takes a version: it is a head from then on, if it is not covered, and of what is
    /// covered then nothing is noted any more. Tells whether it is. After out of memory a part may
    /// be done.
    pub fn take_version(&mut self, file: FileId, version: Version) -> Result<bool, AllocError>
        ensures store { OnOk result (self.new ≡ take_version self.old file version) }
        ensures news { IfOk result (λ news. news ≡ is_new_version self.old file version) }
    {
        if self.tags > COUNTER_LIMIT {
            return Err(AllocError);
        }
        let time = version.head().stamp.time;
        self.seekers.mark(file);
        let all = self.seekers.all;
        self.seekers.all = true;
        let news = self.replicas.take_version(file, version, &mut self.tags)?;
        self.seekers.all = all;
        if news {
            self.names.raise(time);
            self.end_covered(&file);
        }
        Ok(news)
    }

    /// Makes a version of what the ranges make of what is shown of a held file, and answers the
    /// stamps of the heads that it is based on. It is the only head then, and of what it covers
    /// nothing is noted any more. Where that is refused nothing changes. Where memory ran out a
    /// part may be done.
    pub fn write(
        &mut self,
        file: FileId,
        stamp: Stamp,
        ranges: &Ranges,
    ) -> Result<Items<Stamp>, WriteError>
        requires tags { self.old.tags ≤ 2 ^ 63 }
        requires held { has_replica self.old file ≡ true }
        requires room { has_room (replica_of self.old file) stamp.server ≡ true }
        ensures bases { IfOk result (λ ss. ss ≡ map stamp_of (content_of self.old file).heads) }
        ensures store { OnOk result (self.new ≡ write self.old file stamp ranges.now) }
        ensures allowed { OnOk result
            (refusal_of (replica_of self.old file) stamp.server ranges.now ≡ None) }
        ensures refused { IfErr result (λ e. e ≢ WriteError.OutOfMemory
            → refusal_of (replica_of self.old file) stamp.server ranges.now ≡ Some e) }
        ensures same { IfErr result (λ e. e ≢ WriteError.OutOfMemory → self.new ≡ self.old) }
    {
        self.seekers.mark(file);
        let all = self.seekers.all;
        self.seekers.all = true;
        let bases = self.replicas.write(file, stamp, ranges, &mut self.tags)?;
        self.seekers.all = all;
        self.names.raise(stamp.time);
        self.end_covered(&file);
        Ok(bases)
    }

    /// The replica of a held file keeps one more delta. After out of memory all is as before.
    pub fn keep_delta(&mut self, file: FileId, delta: KeptDelta) -> Result<(), AllocError>
        ensures { OnOk result (self.new ≡ keep_delta self.old file delta) }
    {
        self.seekers.mark(file);
        let all = self.seekers.all;
        self.seekers.all = true;
        self.replicas.keep_delta(file, delta)?;
        self.seekers.all = all;
        Ok(())
    }

    /// What the replica of the file covers is not noted any more.
    fn end_covered(&mut self, file: &FileId)
        ensures { self.new ≡ end_covered self.old file.now }
    {
        if let Some(replica) = self.replicas.get(file) {
            self.announced.end_covered(file, &replica.content);
        }
    }
}
