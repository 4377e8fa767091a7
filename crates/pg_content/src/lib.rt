//! What a file holds: the versions that stand side by side, and what is shown of them.
//!
//! `content` has the policy and the heads, `joining` takes a version that comes, `writing` makes
//! the next one, `index` keeps at hand what all of many heads know, `error` says why no version
//! can be made, and `laws` ties contents to histories.
//!
//! It touches no replica, and holds heads and no other version: a version comes with its
//! ancestors, so the heads, each with its vector and its body, are enough.
//!
//! The type keeps its index true to its heads. That no stamp stands after a later one is what joins
//! and writes keep; that the order is strict is a fact of contents that stand for a set, since a
//! head with the stamp of a version that is not covered stays beside it, the newcomer in front.
//! `can_write` is offered beside `write`: whether the stamp is no head's, and no number is at its
//! end. `ManyActors` is answered exactly where the vector would have too many actors: these are
//! counted first, with no memory taken. Number 0 counts as covered only where there is a head.
//!
//! More than eight heads have an index: what all of them know, and of each actor the least number
//! of a head that it made. So 256 versions side by side join in about n log n (`bench/leaves`).
//! Where memory runs out it may be lost, and heads are gone over until the next join makes it anew.
//!
//! Definitions: `specs/History` (made versions), `StandsFor` (the set that a content stands for),
//! `Covering`, `Content`, `Shown`; `Index` and `Indexed` for the index. docs/RULES.md: "Versions
//! and contents", "Histories", "What contents stand for, and covering". A further policy is a case
//! of `Policy` and of `specs/Shown`.
#![tactic(auto)]

mod content;
mod error;
mod index;
mod joining;
mod laws;
mod writing;

pub use content::Content;
pub use error::WriteError;
pub use laws::{
    ancestry_by_vectors, content_is_its_heads, covering_goes_on, covering_heads_are_the_same,
    covering_is_pointwise,
};
