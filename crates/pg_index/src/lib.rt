//! Indexes: sets of ids, and such sets by id.
//!
//! `Ids` is a set of ids of files and directories, gone through in their order. `Lists` has such a
//! set for each id: which things stand in a directory, which directories have a cell for a thing.
//! What is asked for is lent, and takes no memory: for an id with no set an empty one.
//!
//! Both know nothing of what stands behind the ids, and touch nothing else: whoever holds an index
//! says in the invariant of its own type what the index has to agree with.
//!
//! Kept by the types: the ids of a set rise. They stand in one list, searched by halves and lent as
//! a slice. Where an insertion runs out of memory all is as it was; to take out takes no memory, and
//! a set of `Lists` from which the last id goes takes none from then on.
//!
//! Definitions: `specs/Ids`. A set is seen as the list of its ids, and a change of it by which ids
//! are in it behind the change: so the proof that an index agrees with what it is made of goes id
//! by id. A further index is one more `Ids` or `Lists` beside the data, with its fact in the
//! invariant of the type that holds both.
#![tactic(auto)]

mod ids;
mod lists;

pub use ids::Ids;
pub use lists::Lists;
