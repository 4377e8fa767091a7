//! Some items in order, in one piece of memory.

ghost use Rattle.std.specs.Prelude.{[], ◌≡◌, ◌++◌, ◌∷◌, ◌<◌, IfOk, OnOk, OnErr, Some, length, slice_get, remove};
ghost use Rattle.std.specs.Option.{option_copied};

use std::alloc::{AllocError, Global};
use std::collections::VecDeque;
use std::marker::Model;

/// A few items in order.
#[derive(Debug, Drop)]
pub(crate) struct Block<T> {
    items: VecDeque<T>,
}

impl<T> Model for Block<T> {
    ghost use Rattle.std.specs.Prelude.{List};

    ghost Value = { List T };

    ghost view = { λ b. b.items.items };
}

impl<T> Block<T> {
    /// No item yet, with memory for so many.
    pub fn with_capacity(alloc: Global, count: usize) -> Result<Self, AllocError>
        ensures { IfOk result (λ block. block ≡ []) }
    {
        Ok(Block {
            items: VecDeque::with_capacity(alloc, count)?,
        })
    }

    pub fn len(&self) -> usize
        ensures { result ≡ length self.now }
    {
        self.items.len()
    }

    pub fn get(&self, index: usize) -> Option<&T>
        ensures { option_copied result ≡ slice_get self.now index }
    {
        self.items.get(index)
    }
}

impl<T: Drop> Block<T> {
    /// Adds an item at the end. After a refusal the items are as before.
    pub fn push(&mut self, item: T) -> Result<(), AllocError>
        ensures ok { OnOk result (self.new ≡ self.old ++ item ∷ []) }
        ensures err { OnErr result (self.new ≡ self.old) }
    {
        self.items.push_back(item)?;
        Ok(())
    }

    /// The item with this index, which leaves.
    pub fn take(&mut self, index: usize) -> Option<T>
        ensures item { result ≡ slice_get self.old index }
        ensures rest { index < length self.old → self.new ≡ remove self.old index }
    {
        if index == 0 {
            return self.items.pop_front();
        }
        self.items.remove(index)
    }
}
