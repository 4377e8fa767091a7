//! What one server sends has a spelling as a packet, whatever comes to it.
//!
//! It speaks of one server alone, and of no run: packets may come from strangers, so of what comes
//! nothing is assumed but that it has a spelling. `FitsStore` (`specs/Stores`) is what a server
//! holds and notes, `FitsInput` and `FitsSent` (`specs/Messages`) what comes and what is sent. A
//! place stands in a directory by a name that it may have, flags are by server, of the servers 1 to
//! 64, vectors have at most 256 actors, and whoever is asked or told is a server.
//!
//! What the types of a message say is not proved again of what is sent: numbers are in their
//! ranges, a version has its body, flags are by server. `message_fits` tells it of any message, and
//! so ties `FitsSent` to `FitsMessage`.
//!
//! - `proofs/Places`, `Flags`, `Replicas`, `Notes` and `Intents` have what is held, `Messages` what
//!   ties it to spellings, `Stores` what a server takes, links and begins; `Handlers`,
//!   `Children`, `Bodies`, `Leaving`, `Received`, `Lost`, `Entered` and `Calls` what comes, `House`
//!   and `Behind` what stands behind it, `Sending` what is sent, `Steps` all of it.
//! - Neither the sizes of packets nor replies are its concern.
//! - A new kind of message gets its line in `received_fits` (`proofs/Received`); what it carries is
//!   what `FitsMessage` says, and where the types say a part of it, `HasWidths` does.
#![tactic(auto)]

mod laws;
mod types;

pub use laws::spelled;
pub use types::message_fits;
