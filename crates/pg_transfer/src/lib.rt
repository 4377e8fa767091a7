//! Bodies of versions, sent to who asks for them: what a server does with harbingers, wants,
//! deltas, pieces and laters.
//!
//! A harbinger tells of a version without its body. Who does not cover the version notes it
//! (`pg_announced`), asks the sender for the body, and passes the harbinger on under the tag 0: it
//! has no key of the version on an edge, and so no tag. A body comes as a delta of what the asker's
//! heads show, where the deltas that the giver's replica keeps lead there, or in pieces, one for
//! each want. One peer is asked at a time: others are put off, and told so again when they repeat
//! themselves.
//!
//! It stands on the pieces of `pg_pieces`, and touches what they touch: the server's `Store` and
//! the event's `Work`. What holds here:
//! - of a directory there is no version, so such a message does nothing at all;
//! - a harbinger links its sender, and the others have to come along an edge that is there; where
//!   its replica is not here a harbinger or a want is answered, and the others are not;
//! - a want names the heads where they are at most 256; that no two of their stamps are alike needs
//!   no test, since no two versions of a run have one stamp;
//! - bytes are joined to the head that is noted, never to the message's;
//! - the bytes that are here are not copied where the last ones come;
//! - a version that is taken ends the notes of all that it covers (`Store::take_version`);
//! - after out of memory a part may be done.
//!
//! The definitions: `specs/Harbinger`, `Want`, `Delta`, `Piece`, `Later`, each beside the module of
//! its handler, over `specs/Asking` and `Taking`. The rules: docs/RULES.md, "Bodies on demand". One
//! way more for a body to come: a kind of message in `pg_msg`, a case in `specs/Want`, and a
//! handler that ends in `take_for`.
#![tactic(auto)]

mod asking;
mod giving;
mod hearing;
mod losing;
mod patching;
mod piecing;
mod taking;

pub use giving::want;
pub use hearing::harbinger;
pub use losing::later;
pub use patching::delta;
pub use piecing::{Progress, piece};
