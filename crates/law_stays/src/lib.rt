//! A server stays the server that it is: whatever comes to it, its own number and how many servers
//! there are stay as they were.
//!
//! There are lemmas here, and no code runs. What comes may be any input, a stranger's message too,
//! and the server may hold anything: nothing is supposed of either.
//!
//! - `specs/Stays`: what stays.
//! - `proofs/Stays`: each change of a store keeps it. `proofs/Events`: so does each part of an
//!   event, by the walks of `law_frame` over messages, calls and intentions, and so an event does.
//! - Whoever saves what a server holds needs it (`law_saved`): that a state is of another server is
//!   no cause for which a save may be left out.
//!
//! docs/RULES.md: "What a server does". A new part of an event, as a further kind of
//! input, is one field more in `proofs/Events`.
#![tactic(auto)]

mod laws;

pub use laws::servers_stay;
