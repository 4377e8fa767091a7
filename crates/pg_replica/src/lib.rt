//! The replicas of a server, each of a file whose versions may stand side by side, or of a
//! directory, with the edges along which it floods its cells.
//!
//! `replica` has `Replica` (birth, content, kept deltas, edges) and what it tells; `retiring` takes
//! the keys of replaced heads off the edges; `root` makes the replica of the root that each server
//! begins with. `replicas` has `Replicas`, by file; `listing` and `numbers` keep, for each change,
//! two lists beside it: the files with unacknowledged keys, and those that know a number at its
//! end.
//!
//! Beside them stands an exact index of what peers have not acknowledged (`pg_unacked`): the keys
//! that are due to each peer, by file and then by key. A change of edges alone comes from there
//! with the dues that it makes and takes; `changes` has those of a whole replica: how a version
//! comes, is written and touches its key, an answer, a replica in the place of another one.
//!
//! It stands on contents, deltas and edges. Places, flags and entries stand beside it (`pg_names`),
//! and who is told what stands above.
//!
//! What holds (the invariant of `Replicas`): every replica with an unacknowledged key, or with a
//! number at its end, is listed, also after memory ran out; and just the keys on the edges of the
//! replicas are due, each to the peer of its edge. Where memory runs out in the middle of a change
//! the replica loses its edges, and so its dues. The laws (`laws`): of versions no key stands on an
//! edge but a head's.
//!
//! The definitions: `specs/Replica`, `Replicas`, `Root`, `Index` (what lists promise), `Unacked`
//! (what is due to peers), `InOrder` (a hash map seen in order), `Laws`. The rules: docs/RULES.md,
//! "Replicas, edges, keys and tags".
//!
//! A change more: of edges in `pg_unacked`, or of more than edges in `changes`, with a clause that
//! says which keys are due then; then in `listing`, which says how both lists went; then on
//! `Replicas`.
#![tactic(auto)]

mod changes;
mod laws;
mod link;
mod listing;
mod numbers;
mod replica;
mod replicas;
mod retiring;
mod root;

pub use laws::keys_are_heads;
pub use link::Link;
pub use replica::Replica;
pub use replicas::Replicas;
pub use root::{FIRST_BIRTH, first_root};
