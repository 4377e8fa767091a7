//! In which order intentions begin behind an event, and who is asked first, in all runs.
//!
//! What stood before an event keeps its order, but for what ends. Behind that, and behind the Byes
//! of a replica that goes and the Leave of one that asks to, stands what began behind the house
//! rules: Patches, Fills, Seeks and Confirms, each kind by file, or by directory and child, by the
//! order `key_cmp` of `pg_intent`; and each asks its first target: the clause `in_turn` of `run`.
//! The statement stands in `specs/Turns`. `specs/Targets` says who is asked first by members of
//! what is held and by `≤`, in no word that computes it: a definition that finds another one is
//! refused.
//!
//! - `Parts`, `More` (`proofs/Shapes`) of a list: what is older, and behind it what began. One that
//!   begins again stays in its place. `proofs/EachKind`: one step of each kind, and many; `Whole`:
//! all
//!   kinds, one behind the other, over lists that are in order (`Sorting`).
//! - `proofs/Firsts`: the first effect begins nothing but Byes and a Leave, by what `law_begins`
//!   says of keys at rest, and who sent the message stays known (`IsClosed` of `law_full`).
//! - `proofs/Aims`: the first targets as the definitions compute them; `proofs/Targets`: they are
//!   the ones that are named, since flags are by server and a replica has one edge to a peer.
//! - Premise: things are by id (`law_order`).
//! - Not said: in which order the Byes of one event stand.
//! - A new kind of intention gets a line in `EachKind` and one in `Whole`, in the place of its
//! rank.
#![tactic(auto)]

mod laws;

pub use laws::intentions_begin_in_turn;

// What the floors above name through this one.
pub use law_begins as begins;
