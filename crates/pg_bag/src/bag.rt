//! Items in order, in blocks.

ghost use Rattle.std.specs.Prelude.{[], ◌≡◌, ◌==◌, ◌++◌, ◌∷◌, ◌≤◌, ◌<◌, ◌+◌, OnOk, OnErr, IfOk, IfSome, IfNone, length, take, slice_get, slice_index_or, remove};
ghost use Rattle.std.specs.Option.{option_copied};
ghost use Rattle.pg_bag.specs.Blocks.{joined, without, IsAt};

use crate::block::Block;
use std::alloc::{AllocError, Global};
use std::marker::Model;

/// A block is given no further item when it has so many.
const FULL: usize = 512;

/// Items in order. They lie in blocks of at most 512, in order too, so that taking one from the
/// middle moves at most 256 others, and adding one moves none: a block has memory for as many from
/// the first on. To find an item the lengths of the blocks before it are read: two for each
/// thousand items, where none were taken from the middle. A block that becomes empty goes. One that
/// has items left stays as it is, so there are never more blocks than one for each 512 items that
/// were added since the bag was empty.
#[derive(Debug, Drop)]
pub struct Bag<T> {
    alloc: Global,
    blocks: Vec<Block<T>>,
}

impl<T> Model for Bag<T> {
    ghost use Rattle.std.specs.Prelude.{List};
    ghost use Rattle.pg_bag.specs.Blocks.{joined};

    ghost Value = { List T };

    ghost view = { λ b. joined b.blocks.items };
}

/// In which block the item with this index stands, and how far from its front.
fn find<T>(blocks: &[Block<T>], index: usize) -> Option<(usize, usize)>
    ensures none { IfNone result (length (joined blocks.now) ≤ index) }
    ensures found { IfSome result (λ p. IsAt blocks.now index p.0 p.1) }
{
    let mut offset = index;
    for (k, block) in blocks.iter().enumerate() {
        let count = block.len();
        if offset < count {
            return Some((k, offset));
        }
        offset -= count;
    }
    None
}

/// The number of the last block, where it has room, else that of a new one behind it.
fn open_block<T: Drop>(alloc: Global, blocks: &mut Vec<Block<T>>) -> Result<usize, AllocError>
    ensures last { IfOk result (λ k. k + 1 ≡ length blocks.new.items) }
    ensures same { joined blocks.new.items ≡ joined blocks.old.items }
{
    let count = blocks.len();
    if count > 0 && blocks[count - 1].len() < FULL {
        return Ok(count - 1);
    }
    blocks.push(Block::with_capacity(alloc, FULL)?)?;
    Ok(count)
}

/// Adds an item behind all others.
fn push_item<T: Drop>(alloc: Global, blocks: &mut Vec<Block<T>>, item: T) -> Result<(), AllocError>
    ensures ok { OnOk result (joined blocks.new.items ≡ joined blocks.old.items ++ item ∷ []) }
    ensures err { OnErr result (joined blocks.new.items ≡ joined blocks.old.items) }
{
    let last = open_block(alloc, blocks)?;
    let block = &mut blocks[last];
    block.push(item)?;
    Ok(())
}

/// Takes the item so far from the front of a block. The block goes with it where it has no other.
fn take_item<T: Drop>(blocks: &mut Vec<Block<T>>, block: usize, offset: usize) -> Option<T>
    requires there { block < length blocks.old.items }
    requires within { offset < length (slice_index_or blocks.old.items block []) }
    ensures item { result ≡ slice_get (slice_index_or blocks.old.items block []) offset }
    ensures rest { joined blocks.new.items ≡ without blocks.old.items block offset }
{
    let from = &mut blocks[block];
    let item = from.take(offset);
    let left = from.len();
    if left == 0 {
        blocks.remove(block);
    }
    item
}

impl<T> Bag<T> {
    /// No item. It takes no memory.
    pub fn new(alloc: Global) -> Self
        ensures { result ≡ [] }
    {
        Bag {
            alloc,
            blocks: Vec::new(alloc),
        }
    }

    pub fn is_empty(&self) -> bool
        ensures { result ≡ (length self.now == 0) }
    {
        self.front().is_none()
    }

    /// The item with this index, if there is one.
    pub fn get(&self, index: usize) -> Option<&T>
        ensures { option_copied result ≡ slice_get self.now index }
    {
        let (block, offset) = find(self.blocks.as_slice(), index)?;
        self.blocks[block].get(offset)
    }

    /// The first item, if there is one.
    pub fn front(&self) -> Option<&T>
        ensures { option_copied result ≡ slice_get self.now 0 }
    {
        self.get(0)
    }
}

impl<T: Drop> Bag<T> {
    /// Adds an item at the end. After a refusal the items are as before.
    pub fn push_back(&mut self, item: T) -> Result<(), AllocError>
        ensures ok { OnOk result (self.new ≡ self.old ++ item ∷ []) }
        ensures err { OnErr result (self.new ≡ self.old) }
    {
        push_item(self.alloc, &mut self.blocks, item)?;
        Ok(())
    }

    /// Takes the item with this index, if there is one. The others stay as they are, in order.
    pub fn take(&mut self, index: usize) -> Option<T>
        ensures item { result ≡ slice_get self.old index }
        ensures rest { self.new ≡ remove self.old index }
        ensures none { IfNone result (self.new ≡ self.old) }
    {
        let (block, offset) = find(self.blocks.as_slice(), index)?;
        take_item(&mut self.blocks, block, offset)
    }
}
