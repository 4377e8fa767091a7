//! What a server knows of names: where files and directories stand, the flags of their gold
//! replicas, and the entries of directories; and indexes of it, so that an event costs what it
//! touches.
//!
//! `attributes` and `inode` are what is held of one thing, `held` all of it by id. `names` holds
//! that and the indexes: the held directories, what stands in a directory, live or dead (`spots`),
//! what has a cell for a thing, and what may not be calm. `marks` changes the indexes with what is
//! held, `calm` looks whether a thing is calm, `same` compares, `root` knows the root.
//!
//! It touches no content, no edge and no message: those stand beside it in the store.
//!
//! Kept by the type `Names` (`specs/Indexed`): each index is just what a scan of all that is held
//! would find; what is held and not marked is calm, and going up from any directory one comes to a
//! marked one or out of the live directories. A change marks what it may make uncalm before it
//! changes anything; `settle` takes off what it finds calm. Out of memory leaves all as it was.
//!
//! Definitions: `specs/Names`, `Same`; `Calm` for what callers read of the indexes, `Tests` for how
//! calm is found. A further fact of calm things is a field of `IsCalm`, with its test in `calm` and
//! its line in `proofs/Frames`, which says what a change leaves calm.
#![tactic(auto)]

mod attributes;
mod calm;
mod held;
mod inode;
mod marks;
mod names;
mod root;
mod same;
mod spots;

pub use attributes::Attributes;
pub use inode::Inode;
pub use names::Names;
pub use root::{is_dir, is_root};
pub use same::{
    is_same_entry, is_same_flag, is_same_flags, is_same_own, is_same_place, is_same_stamp,
};
pub use spots::{Spot, Spots};
