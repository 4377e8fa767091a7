//! Sets of ids.

ghost use Rattle.std.specs.Prelude.{◌≡◌, ◌==◌, ◌||◌, ◌&&◌, true, not, [], IfOk, IfErr, OnErr, OnOk, length};
ghost use Rattle.std.specs.List.Sorted.{IsStrictlySortedBy};
ghost use Rattle.pg_base.specs.declared.id.FileId.{FileId};
ghost use Rattle.pg_base.specs.Id.{file_cmp, is_same_file};
ghost use Rattle.pg_index.specs.Ids.{is_one_of, IsAt, IsGap};

use pg_base::{FileId, Items};
use std::alloc::{AllocError, Global};
use std::marker::Model;

/// Some ids, each once, in their order.
#[derive(Debug, Drop)]
pub struct Ids {
    ids: Vec<FileId>,
}

impl Model for Ids {
    ghost use Rattle.std.specs.Prelude.{List};
    ghost use Rattle.pg_base.specs.declared.id.FileId.{FileId};

    ghost Value = { List FileId };

    ghost use Rattle.std.specs.List.Sorted.{IsStrictlySortedBy};
    ghost use Rattle.pg_base.specs.Id.{file_cmp};

    ghost view = { λ s. s.ids.items };

    ghost invariant = { λ s. IsStrictlySortedBy file_cmp s.ids.items };
}

impl Ids {
    /// No id. It takes no memory.
    pub fn new(alloc: Global) -> Ids
        ensures { result ≡ [] }
    {
        Ids {
            ids: Vec::new(alloc),
        }
    }

    pub fn len(&self) -> usize
        ensures { result ≡ length self.now }
    {
        self.ids.len()
    }

    pub fn is_empty(&self) -> bool
        ensures { result ≡ (length self.now == 0) }
    {
        self.ids.is_empty()
    }

    /// Whether the id is among them.
    pub fn contains(&self, file: &FileId) -> bool
        ensures { result ≡ is_one_of file.now self.now }
    {
        self.search(file).is_ok()
    }

    /// The ids, in order.
    pub fn as_slice(&self) -> &[FileId]
        ensures ids { result.now ≡ self.now }
        ensures sorted { IsStrictlySortedBy file_cmp self.now }
    {
        self.ids.as_slice()
    }

    /// The ids as a list of its own.
    pub fn copy(&self, alloc: Global) -> Result<Items<FileId>, AllocError>
        ensures { IfOk result (λ ids. ids ≡ self.now) }
    {
        Ok(Items::from_vec(self.ids.iter().copied().collect(alloc)?))
    }

    /// The id is among them from now on. After a refusal the ids are as before. One that goes
    /// behind all others moves none of them.
    pub fn insert(&mut self, file: FileId) -> Result<(), AllocError>
        ensures ok { OnOk result ((q : FileId)
            → is_one_of q self.new ≡ (is_same_file file q || is_one_of q self.old)) }
        ensures err { OnErr result (self.new ≡ self.old) }
    {
        match self.search(&file) {
            Ok(_) => Ok(()),
            Err(at) => {
                self.ids.insert(at, file)?;
                Ok(())
            }
        }
    }

    /// The id is not among them from now on.
    pub fn remove(&mut self, file: &FileId)
        ensures { (q : FileId)
            → is_one_of q self.new ≡ (not (is_same_file file.now q) && is_one_of q self.old) }
    {
        match self.search(file) {
            Ok(at) => {
                self.ids.remove(at);
            }
            Err(_) => {}
        }
    }

    /// Where the id stands, or where it would go.
    fn search(&self, file: &FileId) -> Result<usize, usize>
        ensures found { IfOk result (IsAt self.now file.now) }
        ensures missing { IfErr result (IsGap self.now file.now) }
    {
        let ids = self.as_slice();
        if is_past(ids, file) {
            return Err(ids.len());
        }
        ids.binary_search(file)
    }
}

/// Whether the id would go behind all these: so ids are put that come in their order.
fn is_past(ids: &[FileId], file: &FileId) -> bool
    requires { IsStrictlySortedBy file_cmp ids.now }
    ensures { result ≡ true → IsGap ids.now file.now (length ids.now) }
{
    let count = ids.len();
    if count == 0 {
        return true;
    }
    ids[count - 1].compare(file).is_lt()
}
