//! What may seek a gold replica, and what sends walks.

ghost use Rattle.std.specs.Prelude.{[], ◌≡◌, OnErr, OnOk, false, true};
ghost use Rattle.pg_base.specs.declared.id.FileId.{FileId};
ghost use Rattle.pg_base.specs.Id.{is_same_file};
ghost use Rattle.pg_index.specs.Ids.{is_one_of};
ghost use Rattle.pg_store.specs.Seekers.{Marks, is_stale, is_touched};
ghost use Rattle.pg_walkers.specs.Walkers.{AreListed, sends_walks};

use pg_base::FileId;
use pg_house::msg::Touched;
use pg_index::Ids;
use pg_names::Names;
use pg_replica::Replicas;
use pg_walkers::{all_walkers, relist_each};
use std::alloc::{AllocError, Global};

/// The things that may seek a gold replica, and those that send walks. What changes is marked: it
/// may seek from then on, and may be listed wrong among those that send.
#[derive(Debug, Drop)]
pub(crate) struct Seekers {
    /// Anything may, be it that memory ran out.
    pub(crate) all: bool,
    pub(crate) ids: Ids,
    /// What sends walks. Where it is whole nothing was marked since it was made.
    pub(crate) walkers: Ids,
    pub(crate) whole: bool,
}

impl Seekers {
    /// Anything may seek. It takes no memory.
    pub(crate) fn new(alloc: Global) -> Seekers
        ensures { result.all ≡ true }
    {
        Seekers {
            all: true,
            ids: Ids::new(alloc),
            walkers: Ids::new(alloc),
            whole: false,
        }
    }

    /// The thing may seek from now on.
    pub(crate) fn mark(&mut self, file: FileId)
        ensures { Marks (is_same_file file) self.old self.new }
    {
        self.whole = false;
        if self.ids.insert(file).is_err() {
            self.all = true;
        }
    }

    /// The things of which a key was touched may seek from now on.
    pub(crate) fn mark_each(&mut self, touched: &[Touched])
        ensures { Marks (λ q. is_touched q touched.now) self.old self.new }
    {
        self.whole = false;
        for it in touched {
            self.mark(it.file);
        }
    }

    /// Of what is marked, just what sends walks is listed from now on. Where memory runs out it is
    /// taken that anything may seek, and be listed wrong.
    pub(crate) fn relist(&mut self, names: &Names, replicas: &Replicas) -> Result<(), AllocError>
        requires { (q : FileId) → is_stale self.old q ≡ false
            → is_one_of q self.old.walkers ≡ sends_walks names.now replicas.now q }
        ensures ok { OnOk result (AreListed names.now replicas.now self.new.walkers []) }
        ensures err { OnErr result (self.new.all ≡ true) }
    {
        if self.all {
            self.walkers = all_walkers(names, replicas)?;
            return Ok(());
        }
        self.all = true;
        relist_each(names, replicas, self.ids.as_slice(), &mut self.walkers)
    }
}
