//! A server of a test's own, and what comes to it.

use pg_base::{NodeId, Policy, SharedBytes};
use pg_call::Call;
use pg_msg::{Message, Packet};
use pg_server::{Input, Server};
use std::alloc::{AllocError, Global};

/// The server itself, and one that only speaks to it.
pub const OWN: NodeId = 1;

pub const OTHER: NodeId = 2;

/// Whether the server takes the input. What it then holds is looked at by the tests alone.
pub fn takes(server: &mut Server, input: Input) -> bool {
    server.step(input).is_ok()
}

/// A client makes a directory.
pub fn mkdir(alloc: Global, moment: u64, path: &[u8]) -> Result<Input, AllocError> {
    let path = SharedBytes::from_slice(alloc, path)?;
    let call = Call::Mkdir { path };
    Ok(Input::Call { moment, call })
}

/// A client makes a file.
pub fn create(alloc: Global, moment: u64, path: &[u8]) -> Result<Input, AllocError> {
    let path = SharedBytes::from_slice(alloc, path)?;
    let policy = Policy::Last;
    let call = Call::Create { path, policy };
    Ok(Input::Call { moment, call })
}

/// The other server says this.
pub fn says(message: Message) -> Input {
    Input::Arrival(Packet {
        from: OTHER,
        view: 0,
        message,
    })
}
