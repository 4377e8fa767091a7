//! A list that grows at its end and gives away its items from anywhere.
//!
//! It holds the messages under way in a run: they are put at the end, and taken by their number,
//! mostly from the front. It stands for a plain list, and callers see it as one.
//!
//! The items stand in blocks of a bounded length, so that taking one moves those of its block
//! alone, and finding it goes over the blocks: `block` has a block, `bag` the list of them. No item
//! is copied. A block that comes to have none goes.
//!
//! It knows nothing of messages: the items are of any type that can be dropped.
//!
//! What holds: the blocks joined are the list, whatever their lengths. Where memory runs out while
//! an item is put, the list is as it was. No number of items is kept, so none comes to its end.
//!
//! The definitions: `specs/Blocks` (what a search by number finds). The rules: docs/RULES.md, "The
//! bag".
#![tactic(auto)]

mod bag;
mod block;

pub use bag::Bag;
