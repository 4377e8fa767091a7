//! What is told of any run suits: it can be written, so that it is read again.
//!
//! It is no field of `LawsOfRuns`: the program cites it by itself, so that the text of each entry,
//! of what a run waits for, and of the places that are shown is one that `pg_trace` can write and a
//! reader takes. `EntriesSuit`, `AnswersSuit` and `PlacesSuit` stand in `specs/Laws`.
//!
//! - `StoreSuits` and `DoneSuits` (`proofs/Stores`) are the invariants of one server, at rest and
//!   in the midst of an event: each place stands in a directory, by a name that its thing may have
//!   (`IsThingPlace`, `proofs/Places`), and intentions name directories where there are to be some.
//! - `Suits` (`proofs/Messages`) is of one message: what is told of it goes by its kind, and the
//!   places that it carries suit. `RunSuits` and `StepSuits` (`proofs/Entries`) are of worlds and
//!   of events.
//! - `proofs/Received` says what each piece of a message keeps, by lemmas of `Handlers`; the walk
//!   over them is that of `law_frame`. `Lost` and `Calls` have calls, `House`, `Intents` and
//!   `Behind` what stands behind it, `Sending` what is sent; `Rows` the names that are shown.
//! - It has no premises, and cites no other law: names and places suit by what the checks of calls
//!   let in.
//! - A new kind of message gets its case of `SuitsMessage`, of which its sender has to show what it
//!   carries.
#![tactic(auto)]

mod laws;

pub use laws::entries_suit;
