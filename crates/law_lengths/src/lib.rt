//! What a server sends and answers are packets, of at most 40,000 bytes, whatever comes to it.
//!
//! The promise is `sends_packets` (`laws`), of one server alone: packets may come from strangers,
//! so of what comes nothing is assumed but that it has a spelling, and that a call asks for at most
//! 32,768 bytes, as its type says. Each message and each reply then has a spelling, and its packet
//! at most 40,000 bytes, whatever its sender, its view and the number of the call. `law_spelled`
//! says what a server holds (`FitsStore`) and that messages have a spelling; here stand their
//! lengths, and replies.
//!
//! - `IsPacket`, `SendsPackets` (`specs/Packets`) and the two statements (`specs/Laws`): of one
//! input,
//!   for whoever serves, and of any inputs from a server's beginning on.
//! - `proofs/Fields`, `Messages` and `Replies` add up bounds, field by field. The longest packet is
//! a
//!   Delta: 39,885 bytes. `proofs/Rows` has the names that a directory shows (at most 298 bytes),
//!   `Calls` what calls are answered, `Steps` inputs.
//! - What types say is a premise (`HasReplyWidths`, `AsksFew`), which `reply_fits` and `call_fits`
//!   tell of any value (`types`), as `message_fits` of `law_spelled` does of messages.
//! - A new field makes its packet longer: its bound in `proofs/Fields`, and the sums above it. A
//! new
//!   message or reply gets a line in `message_length` or `reply_length`.
#![tactic(auto)]

mod laws;
mod types;

pub use laws::{messages_are_short, sends_packets};
pub use types::{call_fits, reply_fits};

// What the crates above name through this one.
pub mod server {
    pub use pg_server::{Input, Out, Server};
}

pub mod spelled {
    pub use law_spelled::{message_fits, spelled};
}
