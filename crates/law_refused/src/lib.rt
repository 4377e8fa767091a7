//! A call that is refused changes nothing, in all runs.
//!
//! Behind a refused call the server goes on as behind any event: house rules run, intentions end
//! and begin, and what was touched is sent. Here none of these does anything. So nothing is made,
//! and, but for `NotYet`, nothing is sent and all stores are as before: the clause `refused` of
//! `run`. With `NotYet` the thing is asked for: as its Fill or the wish for it asks already, else
//! by a new wish with a fresh birth, if there is a server to be asked; and the one message is the
//! Fetch of that. The statement stands in `specs/Refusals`. `specs/Asked` says what stands already
//! and who is asked first by members of what is held, and by what is later or less, in no word that
//! finds it: a definition that finds another Fill, wish, cell or server is refused.
//!
//! - `refusal_left` (`proofs/Left`): what each call leaves where it is refused, before the house
//!   rules: all as it was, or what `ask_for` leaves. It goes over all calls, by what their checks
//!   stop at (`Missing` of `pg_calls`).
//! - A wish and a birth that is given out are nothing to house rules and intentions, so a server is
//!   at rest with them as it was before (`proofs/Ended`, over `law_ticks` and `Idle` of
//!   `pg_intentions`).
//! - `proofs/Asked`: what the definitions find to stand, and whom they ask first, is what is named;
//!   the cell by which a call came is the latest (`Latest`, over `Orders`), since things are by id,
//!   and its flags are by server (`law_turns`).
//! - `proofs/Runs` has the event in a run: a void one tells no client anything.
//! - Premise: `TidinessIsGiven` of `law_ticks`.
//! - A further call costs a line in `proofs/Left`, a new kind of message nothing.
#![tactic(auto)]

mod laws;

pub use laws::refusals_change_nothing;

// What the crates above name through this one.
pub use law_turns::begins::confirms_begin_only;
pub use law_turns::intentions_begin_in_turn;
