//! Full replicas: each has a place, and who is told that its replica is full holds it, with a
//! place.
//!
//! No clause of `run` comes of it alone: `FullPlaced` is for `law_quiet`, by which survivors stand
//! somewhere, and `FullSays` for `law_repair`. Both stand in `specs/Filled`.
//!
//! - `AreFilled` (`proofs/Filling`) is what is kept of a world, over `Stands`, which has what other
//!   laws say of it. A place is told by its stamp: later than the first one (`proofs/Placed`),
//!   which a later place keeps.
//! - The passes over an event take any property: `receive_kept`, `call_kept` and `effect_kept`
//!   (`proofs/Coming`, `Calling`, `Effects`) what each input keeps of names, where new places, and
//!   things that begin or are filled, may come (`MayCome`, `CallsKeep`, `MayLose`); `receive_sends`
//!   (`proofs/Replies`) and `proofs/Called` what comes of the work (`MayAnswer`, `MayMake`);
//!   `proofs/Sends` what is sent (`MaySend`). `law_returns` cites them too: a law on names that
//!   come, or on messages, is one instance, with no further pass.
//! - `proofs/Clean` reads off an edge that it was there before the event, and all was acknowledged.
//! - Premises: peers have what they acknowledged, servers hold on, births move one way, places have
//!   stamps of their own. It cites no other crate of laws.
//! - `receive_kept` and `receive_sends` go by the walk of `law_frame`; a Fetch alone, which may be
//!   answered by a Grant or a Full, has a lemma of its own. A new kind of message gets its case in
//!   `MayCome` or `MayAnswer` if it may bring a place, begin or fill a thing, or answer with one.
#![tactic(auto)]

mod laws;

pub use laws::full_replicas_have_places;
