//! The dues of one peer.

ghost use Rattle.std.specs.Prelude.{◌≡◌, ◌≤◌, ◌||◌, not, [], true, false, IsTrue, ◌↔◌, IfOk, IfErr, OnErr, OnOk, length};
ghost use Rattle.std.specs.Ordering.{is_lt, is_le};
ghost use Rattle.std.specs.List.{filter};
ghost use Rattle.std.specs.List.Sorted.{IsStrictlySortedBy, IsPartitionPoint};
ghost use Rattle.pg_base.specs.Id.{file_cmp, is_same_file};
ghost use Rattle.pg_unacked.specs.declared.due.Due.{Due};
ghost use Rattle.pg_unacked.specs.Due.{due_cmp, is_due, is_same_due};
ghost use Rattle.pg_unacked.specs.Place.{IsAt, IsGap};

use crate::due::Due;
use pg_base::FileId;
use std::alloc::{AllocError, Global};
use std::marker::Model;

/// Dues, each once, in their order.
#[derive(Debug, Drop)]
pub(crate) struct DueList {
    dues: Vec<Due>,
}

impl Model for DueList {
    ghost use Rattle.std.specs.Prelude.{List};
    ghost use Rattle.std.specs.List.Sorted.{IsStrictlySortedBy};
    ghost use Rattle.pg_unacked.specs.declared.due.Due.{Due};
    ghost use Rattle.pg_unacked.specs.Due.{due_cmp};

    ghost Value = { List Due };

    ghost view = { λ s. s.dues.items };

    ghost invariant = { λ s. IsStrictlySortedBy due_cmp s.dues.items };
}

impl DueList {
    /// No due. It takes no memory.
    pub(crate) fn new(alloc: Global) -> DueList
        ensures { result ≡ [] }
    {
        DueList {
            dues: Vec::new(alloc),
        }
    }

    pub(crate) fn is_empty(&self) -> bool
        ensures { IsTrue result ↔ (self.now ≡ []) }
    {
        self.dues.is_empty()
    }

    /// The dues, in order.
    pub(crate) fn as_slice(&self) -> &[Due]
        ensures dues { result.now ≡ self.now }
        ensures sorted { IsStrictlySortedBy due_cmp self.now }
    {
        self.dues.as_slice()
    }

    /// Whether the due is among them.
    pub(crate) fn contains(&self, due: &Due) -> bool
        ensures { result ≡ is_due due.now self.now }
    {
        match self.search(due) {
            Ok(_) => true,
            Err(_) => false,
        }
    }

    /// The due is among them from now on. After a refusal they are as before. One that goes behind
    /// all others moves none of them.
    pub(crate) fn insert(&mut self, due: Due) -> Result<(), AllocError>
        ensures ok { OnOk result ((d : Due)
            → is_due d self.new ≡ (is_same_due due d || is_due d self.old)) }
        ensures err { OnErr result (self.new ≡ self.old) }
    {
        match self.search(&due) {
            Ok(_) => Ok(()),
            Err(at) => {
                self.dues.insert(at, due)?;
                Ok(())
            }
        }
    }

    /// The due is not among them from now on.
    pub(crate) fn remove(&mut self, due: &Due)
        ensures { self.new ≡ filter (λ d. not (is_same_due due.now d)) self.old }
    {
        match self.search(due) {
            Ok(at) => {
                self.dues.remove(at);
            }
            Err(_) => {}
        }
    }

    /// No due of the file is among them from now on.
    pub(crate) fn remove_file(&mut self, file: &FileId)
        ensures { self.new ≡ filter (λ d. not (is_same_file file.now d.file)) self.old }
    {
        let start = self.start_of(file);
        let end = self.end_of(file);
        if start < end {
            self.dues.drain(start..end);
        }
    }

    /// Where the due stands, or where it would go.
    fn search(&self, due: &Due) -> Result<usize, usize>
        ensures found { IfOk result (IsAt self.now due.now) }
        ensures missing { IfErr result (IsGap self.now due.now) }
    {
        let dues = self.as_slice();
        if is_past(dues, due) {
            return Err(dues.len());
        }
        dues.binary_search(due)
    }

    /// How many dues are of lesser files.
    fn start_of(&self, file: &FileId) -> usize
        ensures range { result ≤ length self.now }
        ensures parted { IsPartitionPoint (λ d. is_lt (file_cmp d.file file.now) ≡ true)
            (λ d. is_lt (file_cmp d.file file.now) ≡ false) self.now result }
    {
        self.dues.partition_point(|d| d.file.compare(file).is_lt())
    }

    /// How many dues are of the file or of lesser ones.
    fn end_of(&self, file: &FileId) -> usize
        ensures range { result ≤ length self.now }
        ensures parted { IsPartitionPoint (λ d. is_le (file_cmp d.file file.now) ≡ true)
            (λ d. is_le (file_cmp d.file file.now) ≡ false) self.now result }
    {
        self.dues.partition_point(|d| d.file.compare(file).is_le())
    }
}

/// Whether the due would go behind all these: so dues are put that come in their order.
fn is_past(dues: &[Due], due: &Due) -> bool
    requires { IsStrictlySortedBy due_cmp dues.now }
    ensures { result ≡ true → IsGap dues.now due.now (length dues.now) }
{
    let count = dues.len();
    if count == 0 {
        return true;
    }
    is_below(&dues[count - 1], due)
}

fn is_below(a: &Due, b: &Due) -> bool
    ensures { result ≡ is_lt (due_cmp a.now b.now) }
{
    a.cmp(b).is_lt()
}
