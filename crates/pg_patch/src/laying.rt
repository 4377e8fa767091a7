//! Parts that are laid down one behind another. Where one touches the one before, the two become
//! one part.

ghost use Rattle.std.specs.Prelude.{◌≡◌, ◌≢◌, ◌<◌, ◌≤◌, ◌^◌, ◌-◌, ◌++◌, ◌∷◌, [], IsTrue, IsFalse, IfOk, OnOk, length, slice_range};
ghost use Rattle.pg_patch.specs.Laying.{opened, laid, IsLaid, Adds};
ghost use Rattle.pg_patch.specs.Parts.{end_of};
ghost use Rattle.pg_patch.specs.declared.part.Part.{Part};

use crate::part::Part;
use pg_base::SharedBytes;
use std::alloc::{AllocError, Global};

/// The part that the next bytes may still touch.
#[derive(Debug, Drop)]
pub(crate) enum Open {
    Nothing,
    /// A part whose bytes are shared, as it stood before.
    Whole(Part),
    /// An offset, and bytes that were brought together.
    Joined(u32, Vec<u8>),
}

impl Open {
    /// The part's bytes from `start` to `end`. A whole part is shared.
    fn new(alloc: Global, part: &Part, start: usize, end: usize) -> Result<Open, AllocError>
        requires from { part.now.offset ≤ start }
        requires some { start < end }
        requires to { end ≤ end_of part.now }
        requires small { end_of part.now < 2 ^ 32 }
        ensures { IfOk result (λ o. opened o
            ≡ record {
              offset = start;
              bytes = slice_range part.now.bytes (start - part.now.offset)
                  (end - part.now.offset);
            } ∷ []) }
    {
        let offset = part.offset as usize;
        if start == offset && end == part.end() {
            return Ok(Open::Whole(part.copy()?));
        }
        let bytes = &part.bytes.as_slice()[start - offset..end - offset];
        Ok(Open::Joined(start as u32, Vec::from_slice(alloc, bytes)?))
    }

    /// Whether the part ends at the index.
    fn ends_at(&self, index: usize) -> bool
        requires { (p : Part) → opened self.now ≡ p ∷ [] → end_of p < 2 ^ 32 }
        ensures touches { IsTrue result
            → (p : Part) × (opened self.now ≡ p ∷ []) × (end_of p ≡ index) }
        ensures apart { IsFalse result → (p : Part) → opened self.now ≡ p ∷ [] → end_of p ≢ index }
    {
        match self {
            Open::Nothing => false,
            Open::Whole(part) => part.end() == index,
            Open::Joined(offset, bytes) => *offset as usize + bytes.len() == index,
        }
    }

    /// The part with more bytes behind it.
    fn extended(self, alloc: Global, more: &[u8]) -> Result<Open, AllocError>
        ensures { IfOk result
            (λ o. (p : Part) → opened self ≡ p ∷ []
            → opened o ≡ record { offset = p.offset; bytes = p.bytes ++ more.now } ∷ []) }
    {
        match self {
            Open::Nothing => Ok(Open::Nothing),
            Open::Whole(part) => {
                let mut bytes = Vec::with_capacity(alloc, part.bytes.len() + more.len())?;
                bytes.extend_from_slice(part.bytes.as_slice())?;
                bytes.extend_from_slice(more)?;
                Ok(Open::Joined(part.offset, bytes))
            }
            Open::Joined(offset, mut bytes) => {
                bytes.extend_from_slice(more)?;
                Ok(Open::Joined(offset, bytes))
            }
        }
    }

    /// Puts the part behind those that are done.
    fn close(self, alloc: Global, done: &mut Vec<Part>) -> Result<(), AllocError>
        ensures { OnOk result (done.new.items ≡ done.old.items ++ opened self) }
    {
        match self {
            Open::Nothing => {}
            Open::Whole(part) => done.push(part)?,
            Open::Joined(offset, bytes) => {
                let bytes = SharedBytes::from_vec(alloc, bytes)?;
                done.push(Part { offset, bytes })?;
            }
        }
        Ok(())
    }
}

/// What was laid so far.
#[derive(Debug, Drop)]
pub(crate) struct Laying {
    pub(crate) done: Vec<Part>,
    pub(crate) open: Open,
}

impl Laying {
    pub(crate) fn new(alloc: Global) -> Laying
        ensures empty { laid result ≡ [] }
        ensures laid { IsLaid result 0 }
    {
        Laying {
            done: Vec::new(alloc),
            open: Open::Nothing,
        }
    }

    /// Lays the part's bytes from `start` to `end` behind all that was laid.
    pub(crate) fn put(self, part: &Part, start: usize, end: usize) -> Result<Laying, AllocError>
        requires laid { IsLaid self start }
        requires from { part.now.offset ≤ start }
        requires some { start < end }
        requires to { end ≤ end_of part.now }
        requires small { end_of part.now < 2 ^ 32 }
        ensures laid { IfOk result (λ l. IsLaid l end) }
        ensures added { IfOk result (λ l. Adds (laid self) (laid l) part.now start end) }
    {
        let Laying { mut done, open } = self;
        let alloc = *done.allocator();
        if open.ends_at(start) {
            let offset = part.offset as usize;
            let bytes = &part.bytes.as_slice()[start - offset..end - offset];
            let open = open.extended(alloc, bytes)?;
            return Ok(Laying { done, open });
        }
        open.close(alloc, &mut done)?;
        let open = Open::new(alloc, part, start, end)?;
        Ok(Laying { done, open })
    }

    /// All the parts.
    pub(crate) fn into_parts(self) -> Result<Vec<Part>, AllocError>
        ensures { IfOk result (λ v. v.items ≡ laid self) }
    {
        let Laying { mut done, open } = self;
        let alloc = *done.allocator();
        open.close(alloc, &mut done)?;
        Ok(done)
    }
}
