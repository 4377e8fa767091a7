//! The end of an event: the house rules, what may seek a gold replica, and what sends walks.

ghost use Rattle.std.specs.Prelude.{◌≡◌, ◌≤◌, ◌+◌, ◌^◌, IfOk, IfSome, OnOk, false};
ghost use Rattle.pg_base.specs.declared.id.FileId.{FileId};
ghost use Rattle.pg_index.specs.Ids.{is_one_of};
ghost use Rattle.pg_house.specs.House.{house};
ghost use Rattle.pg_house.specs.Work.{state_of};
ghost use Rattle.pg_store.specs.Seekers.{may_seek};
ghost use Rattle.pg_store.specs.Store.{with_names};
ghost use Rattle.pg_walkers.specs.Walkers.{walkers_of};

use crate::store::Store;
use pg_base::FileId;
use pg_house::house;
use pg_house::msg::Work;
use pg_index::Ids;
use std::alloc::{AllocError, Global};

impl Store {
    /// Runs the house rules until none applies, at a moment. After out of memory part may be done.
    pub fn house(&mut self, work: &mut Work, moment: u64) -> Result<(), AllocError>
        requires { self.old.names.last ≤ 2 ^ 62 + 2 ^ 40 }
        ensures store { OnOk result (self.new
            ≡ with_names self.old (house moment (state_of self.old.names work.old)).names) }
        ensures work { OnOk result
            (work.new ≡ (house moment (state_of self.old.names work.old)).work) }
    {
        let all = self.seekers.all;
        self.seekers.all = true;
        house(&mut self.names, work, moment)?;
        self.seekers.all = all;
        self.seekers.mark_each(work.touched.as_slice());
        Ok(())
    }

    /// The things that may seek a gold replica, where it is known that no others do.
    pub fn seekers(&self) -> Option<&Ids>
        ensures { IfSome result (λ ids. (q : FileId) → is_one_of q ids.now ≡ false
            → may_seek self.now.names self.now.replicas q ≡ false) }
    {
        if self.seekers.all {
            return None;
        }
        Some(&self.seekers.ids)
    }

    /// No others than these may seek a gold replica, and what sends walks is listed. Where memory
    /// runs out it is taken that more may, and it is not said that the list is whole.
    pub fn settle(&mut self, files: &[FileId])
        requires { (q : FileId) → is_one_of q files.now ≡ false
            → may_seek self.old.names self.old.replicas q ≡ false }
        ensures { self.new ≡ self.old }
    {
        let Ok(ids) = set_of(self.allocator(), files) else {
            return;
        };
        if self.seekers.relist(&self.names, &self.replicas).is_err() {
            return;
        }
        self.seekers.all = false;
        self.seekers.ids = ids;
        self.seekers.whole = true;
    }

    /// The full replicas other than the root's that have one edge or two, by id, where nothing
    /// changed since they were listed. It takes no memory.
    pub fn walkers(&self) -> Option<&[FileId]>
        ensures { IfSome result (λ files.
            files.now ≡ walkers_of self.now.names self.now.replicas) }
    {
        if self.seekers.all || !self.seekers.whole {
            return None;
        }
        // It says that what is held is in order.
        let _held = self.names.as_map();
        Some(self.seekers.walkers.as_slice())
    }
}

/// These ids as a set.
fn set_of(alloc: Global, files: &[FileId]) -> Result<Ids, AllocError>
    ensures { IfOk result (λ ids. (q : FileId) → is_one_of q ids ≡ false
        → is_one_of q files.now ≡ false) }
{
    let mut ids = Ids::new(alloc);
    for file in files {
        ids.insert(*file)?;
    }
    Ok(ids)
}
