//! Changes of a body: what stays of it, how long it is at least, and bytes that are laid over it.
//!
//! `ranges` has the type `Ranges`: so many bytes are kept, the body is at least so long, and parts
//! (`part`) are laid over it. `applying` makes the changed body, `composing` one change of two,
//! `laying` the lists of parts that both need, and `laws` says what composition means.
//!
//! It touches bytes alone, and knows neither files nor versions.
//!
//! Kept by the type: parts are in order, none is empty, no two touch, and none ends behind
//! `least`. `Ranges::from_parts` has that order as its condition and `are_in_order` is the test: a
//! reader tests each part as it comes, and owes no second test. A `keep` of the greatest u32 is a
//! case of its own (`kept`), all of the body: so composition holds for bodies of any length.
//!
//! Definitions: `specs/Parts`, `Ranges` (what a change does to each byte), `Filling`, `Laying`.
//! Composition is a relation (`IsComposed`), with a law that only one change meets it
//! (`one_composition`): as a function on lists it would be the loop again. The limit of a body is
//! a definition too (`body_limit`), and no clause cites the program's constant. That the time is
//! linear is measured and not proved: two changes of 160,000 parts each take ten times as long
//! as two of 20,000.
//!
//! docs/RULES.md: "Ranges", "Composition of ranges". A further kind of change would be a
//! constructor beside `make` and `cut`, with its bytes told by `specs/Ranges`.
#![tactic(auto)]

mod applying;
mod composing;
mod error;
mod laws;
mod laying;
mod part;
mod ranges;

pub use applying::apply;
pub use composing::compose;
pub use error::RangeError;
pub use laws::{compose_is_two_applies, one_composition};
pub use part::Part;
pub use ranges::{ALL, LIMIT, Ranges, are_in_order, cut, length_after, make};
