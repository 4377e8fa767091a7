//! Which things stand in a directory, live or dead.

ghost use Rattle.std.specs.Prelude.{◌≡◌, Bool, ◌||◌, ◌&&◌, not, [], if◌then◌else◌, OnErr, OnOk};
ghost use Rattle.pg_base.specs.declared.id.FileId.{FileId};
ghost use Rattle.pg_base.specs.Id.{is_same_file};
ghost use Rattle.pg_index.specs.Ids.{ids_at};
ghost use Rattle.pg_register.specs.Place.{newer_place};
ghost use Rattle.pg_names.specs.Calm.{is_spot, spot_of};
ghost use Rattle.pg_names.specs.Indexed.{has_spot, is_same_spot};

use crate::root::is_root;
use crate::same::is_same_truth;
use pg_base::FileId;
use pg_index::{Ids, Lists};
use pg_register::Place;
use std::alloc::{AllocError, Global};

/// What a place says of where its thing stands: in which directory, and whether live or dead.
#[derive(Clone, Copy, Debug)]
pub struct Spot {
    pub live: bool,
    pub dir: FileId,
}

impl Spot {
    pub(crate) fn of(place: &Place) -> Spot
        ensures { result ≡ spot_of place.now }
    {
        Spot {
            live: place.live,
            dir: place.parent,
        }
    }

    fn is_same(&self, other: &Spot) -> bool
        ensures { result ≡ is_same_spot self.now other.now }
    {
        is_same_truth(self.live, other.live) && self.dir.compare(&other.dir).is_eq()
    }
}

/// The spot of the newer of two places.
pub(crate) fn newer_spot(held: &Place, place: &Place) -> Spot
    ensures { result ≡ spot_of (newer_place held.now place.now) }
{
    if held.stamp.is_before(place.stamp) {
        Spot::of(place)
    } else {
        Spot::of(held)
    }
}

/// The held things other than the root, by where they stand.
#[derive(Debug, Drop)]
pub struct Spots {
    pub(crate) live: Lists,
    pub(crate) dead: Lists,
}

impl Spots {
    /// Nothing stands anywhere. It takes no memory.
    pub(crate) fn new(alloc: Global) -> Spots
        ensures live { result.live ≡ [] }
        ensures dead { result.dead ≡ [] }
    {
        Spots {
            live: Lists::new(alloc),
            dead: Lists::new(alloc),
        }
    }

    /// What stands in a directory, live or dead.
    pub(crate) fn at(&self, live: bool, dir: &FileId) -> &Ids
        ensures { result.now
            ≡ ids_at (if live then self.now.live else self.now.dead) dir.now }
    {
        if live {
            self.live.get(dir)
        } else {
            self.dead.get(dir)
        }
    }

    /// A thing stands here from now on, if it is not the root. After a refusal all is as before.
    pub(crate) fn put(&mut self, file: FileId, spot: Spot) -> Result<(), AllocError>
        ensures ok { OnOk result ((live : Bool) (dir q : FileId) → has_spot self.new live dir q
            ≡ ((is_same_file file q && is_spot live dir file spot)
            || has_spot self.old live dir q)) }
        ensures err { OnErr result ((live : Bool) (dir q : FileId)
            → has_spot self.new live dir q ≡ has_spot self.old live dir q) }
    {
        if is_root(&file) {
            return Ok(());
        }
        if spot.live {
            self.live.insert(spot.dir, file)?;
            return Ok(());
        }
        self.dead.insert(spot.dir, file)?;
        Ok(())
    }

    /// A thing stands here no longer.
    pub(crate) fn cut(&mut self, file: FileId, spot: Spot)
        ensures { (live : Bool) (dir q : FileId) → has_spot self.new live dir q
            ≡ (not (is_same_file file q && is_spot live dir file spot)
            && has_spot self.old live dir q) }
    {
        if is_root(&file) {
            return;
        }
        if spot.live {
            self.live.remove(&spot.dir, &file);
        } else {
            self.dead.remove(&spot.dir, &file);
        }
    }

    /// A thing that stood at one spot stands at the other from now on. After a refusal all is as
    /// before.
    pub(crate) fn shift(&mut self, file: FileId, from: Spot, to: Spot) -> Result<(), AllocError>
        ensures ok { OnOk result ((live : Bool) (dir q : FileId) → has_spot self.new live dir q
            ≡ ((is_same_file file q && is_spot live dir file to)
            || (not (is_same_file file q && is_spot live dir file from)
            && has_spot self.old live dir q))) }
        ensures err { OnErr result ((live : Bool) (dir q : FileId)
            → has_spot self.new live dir q ≡ has_spot self.old live dir q) }
    {
        self.put(file, to)?;
        if from.is_same(&to) {
            return Ok(());
        }
        self.cut(file, from);
        Ok(())
    }
}
