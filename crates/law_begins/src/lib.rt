//! What makes intentions begin, in all runs: no other event does.
//!
//! `law_confirms` says when a Confirm begins and how long it stands; here is that nothing else
//! begins one: a further view that is entered, and a cell that brings a directory a later place of
//! a child of which its sender is not sure (the clause `confirms_only` of `run`). With `intends`,
//! that one stands only of a listed child that is not held, the three say exactly when one stands.
//! The statement stands in `specs/Confirms`.
//!
//! - `Rests` (`proofs/Pieces`) in the midst of an event, of a key that is neither a Bye's nor a
//!   Leave's: none stands there, and nothing is noted to be confirmed. Each message keeps it but a
//!   doubted cell (`proofs/Messages`), and each call but a removal (`proofs/Calls`). So only the
//!   end of an event begins a Confirm, a Fill, a Seek or a Patch.
//! - `Doubted` (`proofs/Doubted`): a doubted cell notes its own slot, where the place is news.
//! - `proofs/Ended`: the house rules note nothing, and Confirms begin of what is noted alone.
//! - Premises: none; of other laws it cites lemmas of `law_order` and `theory_listing_house`.
//! - What each piece of a message and of a call keeps is said in `proofs/Messages` and `Calls`; the
//!   walk over them is that of `law_frame`.
#![tactic(auto)]

mod laws;

pub use laws::confirms_begin_only;
