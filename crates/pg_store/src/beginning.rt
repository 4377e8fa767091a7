//! Replicas that begin and go.

ghost use Rattle.std.specs.Prelude.{◌≡◌, ◌++◌, IfOk, OnErr, OnOk};
ghost use Rattle.pg_names.specs.Names.{fill};
ghost use Rattle.pg_store.specs.Store.{replica_at, with_names};
ghost use Rattle.pg_store.specs.Births.{draw_birth, fill_at, is_fill_at, is_fill_with, is_pending, wish_at, with_birth};
ghost use Rattle.pg_store.specs.Wishes.{is_with_birth};
ghost use Rattle.pg_store.specs.Beginning.{begin, let_go, patch_key, patch_key_if, patches_of, take_patch, take_patches, take_told};

use crate::store::{COUNTER_LIMIT, Store};
use pg_base::{FileId, Items, Policy};
use pg_intent::{Intent, IntentKey};
use pg_names::Attributes;
use pg_replica::Replica;
use std::alloc::AllocError;

impl Store {
    /// The server gives out its next birth. Where it gave out more than 2^63 memory ends before,
    /// and nothing changes.
    pub fn draw_birth(&mut self) -> Result<u64, AllocError>
        ensures birth { IfOk result (λ birth. birth ≡ draw_birth self.old) }
        ensures store { OnOk result (self.new ≡ with_birth self.old) }
        ensures err { OnErr result (self.new ≡ self.old) }
    {
        if self.births > COUNTER_LIMIT {
            return Err(AllocError);
        }
        self.births += 1;
        Ok(self.births)
    }

    /// Whether the birth was given out for a replica that is not here yet: it is that of the wish
    /// for the thing, or of a Fill of it where it is not held.
    pub fn is_pending(&self, file: FileId, birth: u64) -> bool
        ensures { result ≡ is_pending self.now file birth }
    {
        self.is_wished(file, birth) || (!self.names.is_held(&file) && self.is_to_fill(file, birth))
    }

    /// Whether the wish for the thing has this birth.
    fn is_wished(&self, file: FileId, birth: u64) -> bool
        ensures { result ≡ is_with_birth (wish_at self.now file) birth }
    {
        match self.wishes.get(&file) {
            Some(wish) => wish.birth == birth,
            None => false,
        }
    }

    /// Whether the Fill of the thing has this birth.
    fn is_to_fill(&self, file: FileId, birth: u64) -> bool
        ensures { result ≡ is_fill_at (fill_at self.now file) birth }
    {
        match self.intents.get(&IntentKey::Fill { file }) {
            Some(intent) => is_fill_with(intent, birth),
            None => false,
        }
    }

    /// A replica of this birth begins, full or filling, with this place and these flags, no version
    /// and no edge. The wish for the thing ends. Of a directory, the entries of its Patches are
    /// taken, and these end.
    pub fn begin(
        &mut self,
        file: FileId,
        birth: u64,
        policy: Policy,
        own: Attributes,
        full: bool,
    ) -> Result<(), AllocError>
        ensures { OnOk result (self.new ≡ begin self.old file birth policy own full) }
    {
        let time = own.place.stamp.time;
        let replica = Replica::new(self.allocator(), birth, policy);
        self.seekers.mark(file);
        let all = self.seekers.all;
        self.seekers.all = true;
        self.names.begin(file, own, full)?;
        self.names.raise(time);
        self.replicas.add(file, replica)?;
        self.seekers.all = all;
        self.wishes.take(&file);
        self.take_patches(file)?;
        Ok(())
    }

    /// A held thing is full from now on.
    pub fn fill(&mut self, file: &FileId)
        ensures { self.new ≡ with_names self.old (fill self.old.names file.now) }
    {
        self.seekers.mark(*file);
        self.names.fill(file);
    }

    /// A replica goes, with all that it has and what is noted of its file, and is handed out. After
    /// out of memory all is as it was.
    pub fn let_go(&mut self, file: &FileId) -> Result<Option<Replica>, AllocError>
        ensures replica { IfOk result (λ replica. replica ≡ replica_at self.old file.now) }
        ensures store { OnOk result (self.new ≡ let_go self.old file.now) }
        ensures err { OnErr result (self.new ≡ self.old) }
    {
        self.seekers.mark(*file);
        self.names.let_go(file)?;
        self.announced.end_file(file);
        Ok(self.replicas.remove(file))
    }

    /// The entries of a directory's Patches are taken, and these end.
    fn take_patches(&mut self, dir: FileId) -> Result<(), AllocError>
        ensures { OnOk result
            (self.new ≡ take_patches self.old dir (patches_of dir self.old.intents)) }
    {
        let patches = self.patches_of(dir)?;
        for key in patches.as_slice() {
            self.take_patch(dir, key)?;
        }
        Ok(())
    }

    /// The keys of a directory's Patches, in the order in which these began.
    fn patches_of(&self, dir: FileId) -> Result<Items<IntentKey>, AllocError>
        ensures { IfOk result (λ keys. keys ≡ patches_of dir self.now.intents) }
    {
        let mut keys = Items::new(self.allocator());
        for intent in self.intents.iter() {
            push_patch(dir, intent, &mut keys)?;
        }
        Ok(keys)
    }

    /// The entry of a Patch is taken, and this ends.
    fn take_patch(&mut self, dir: FileId, key: &IntentKey) -> Result<(), AllocError>
        ensures { OnOk result (self.new ≡ take_patch self.old dir key.now) }
    {
        let Some(patch) = self.intents.take(key) else {
            return Ok(());
        };
        self.take_told(dir, patch)
    }

    /// The entry of a Patch is taken.
    fn take_told(&mut self, dir: FileId, patch: Intent) -> Result<(), AllocError>
        ensures { OnOk result (self.new ≡ take_told self.old dir patch) }
    {
        match patch {
            Intent::Patch { entry, .. } => {
                self.take_entry(dir, entry)?;
                Ok(())
            }
            _ => Ok(()),
        }
    }
}

/// Whether it is a Fill with this birth.
fn is_fill_with(intent: &Intent, birth: u64) -> bool
    ensures { result ≡ is_fill_with intent.now birth }
{
    match intent {
        Intent::Fill { birth: to_fill, .. } => *to_fill == birth,
        _ => false,
    }
}

/// The key of an intention, where it is a Patch of this directory.
fn push_patch(dir: FileId, intent: &Intent, keys: &mut Items<IntentKey>) -> Result<(), AllocError>
    ensures { OnOk result (keys.new ≡ keys.old ++ patch_key dir intent.now) }
{
    match intent {
        Intent::Patch { dir: to, entry, .. } => push_if_of(dir, to, entry.child, keys),
        _ => Ok(()),
    }
}

/// The key of a Patch of the second directory, where it is the first.
fn push_if_of(
    dir: FileId,
    to: &FileId,
    child: FileId,
    keys: &mut Items<IntentKey>,
) -> Result<(), AllocError>
    ensures { OnOk result (keys.new ≡ keys.old ++ patch_key_if dir to.now child) }
{
    if to.compare(&dir).is_eq() {
        keys.push(IntentKey::Patch { dir, child })?;
    }
    Ok(())
}
