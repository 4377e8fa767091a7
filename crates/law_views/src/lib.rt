//! What holds of the views of servers in all runs.
//!
//! A server's view is how many removals it has entered: it knows the first so many of a run, in
//! their order. Of the laws come the clauses `views` and `messages_of_views` of `run`; other laws
//! cite `ViewsGrow` and `MessagesAreSentInView` too. The statements stand in `pg_run/specs/Views`.
//!
//! - Invariants: `IsSeen` (`proofs/Seen`) of one server: whom its edges lead to and its wishes ask
//!   is not removed. `Fine` (`proofs/Fine`) is that in the midst of an event, with all that was
//!   sent; `IsIn` and `IsOf` (`proofs/Worlds`) tie servers and messages to the run's removals, and
//!   `Holds` is both, of a world. `proofs/Told` reads the laws off it.
//! - Premises: `StandOn` (`specs/Premises`), that servers are whole and flags in cells are of the
//!   run's servers; `law_order` gives both, and `pangaea` joins them. No other law is cited here,
//!   and nearly all others may cite this one.
//! - What each piece of a message and of a call keeps is said in `proofs/Handled` and `Called`; the
//!   walk over them is that of `law_frame`. So a new kind of message, or a new call, costs nothing
//!   here but where it has a piece of its own: edges that are made lead to servers that are not
//!   removed, and who is named in it is live in the view. Who is asked next: `proofs/Targets`.
#![tactic(auto)]

mod laws;

pub use laws::{messages_are_of_views, views_are_prefixes};
