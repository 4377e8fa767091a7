//! Who asks for a replica is linked, in all runs.
//!
//! A message along an edge links its sender where it is accepted (`law_births`, the clause `linked`
//! of `run`). Three more link a peer though they come along no edge to it: a Fetch and a Seek link
//! their sender, and a walk that ends links its origin, the clause `asked_linked`. The statement
//! stands in `specs/Links`, which says by members of lists which edges are there, and names no test
//! of the definitions: one that is wrong is refused in `proofs/Words`.
//!
//! - `link_lists` (`proofs/Linked`): where the thing is held, and no later birth of the peer is
//!   listed, a link lists this one. It is what `law_births` has of a Leave, read of the link alone.
//! - `proofs/Asked` has the three handlers, and that a walk goes no further where it ends.
//! - `proofs/Events` has the event: house rules and intentions change no edge (`settle_stays`,
//!   `intended_shapes` of `law_births`).
//! - Premise: `IntentionsAreInOrder`, for births that are alone.
//! - A further message that links a peer: a case of `IsLinkedBy`, and one in `received_lists`.
#![tactic(auto)]

mod laws;

pub use laws::asks_link_the_asker;
