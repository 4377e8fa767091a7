//! Deltas that a replica keeps beside its content: what made a version of the heads before it.
//!
//! `delta` is one delta, `kept` the list of those that are kept, the latest last; `walking` finds
//! what leads from given heads to a head, `taking` applies a delta that came, `laws` says that a
//! chain of deltas is one.
//!
//! It stands beside a content and not in it. What a content is follows from the set of versions
//! that it stands for; which deltas are kept depends on the way there. So every law on contents
//! stays as it is.
//!
//! `delta` takes the head of the version that is asked for, so it has no condition and looks up
//! nothing. `take_delta` has two: that the number is above 0, and that the ranges make a body of
//! the head's length (`makes_length`) where the heads are those that it starts from (`has_heads`).
//! Taking joins: a version that is covered already changes no head, though the answer is true and
//! the delta is kept. Memory comes first: a refusal leaves content and deltas as they were. The
//! walk back composes nothing before it has found its first step, and its recursion is no deeper
//! than the list. The bytes of a body that is the only head are not copied before the ranges are
//! applied.
//!
//! Definitions: what is to be sent is a relation in the words of the rule (`IsDelta`) and a
//! function that computes (`delta_of`); `specs/Kept`, `Chain`, `Leading`, `Taking`, `Whole`.
//! docs/RULES.md: "Kept deltas". Another way to choose which deltas stay is another `keep`; the
//! laws speak of any list.
#![tactic(auto)]

mod delta;
mod kept;
mod laws;
mod taking;
mod walking;

pub use delta::KeptDelta;
pub use kept::{KeptDeltas, MOST_BYTES, MOST_PARTS};
pub use laws::{
    a_chain_is_one_delta, deltas_lead_to_bodies, kept_is_the_longest_end, taking_stands,
};
pub use taking::{has_heads, makes_length, patched};
