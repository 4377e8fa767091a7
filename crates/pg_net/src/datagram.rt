//! Packets with ports.

ghost use Rattle.std.specs.Prelude.{◌≡◌, ◌∷◌, ◌++◌, [], OnOk, OnErr};

use std::alloc::{AllocError, Global};
use std::marker::Model;

/// A packet's bytes, with the port that it came from or goes to.
#[derive(Debug, Drop)]
pub struct Datagram {
    port: u16,
    bytes: Vec<u8>,
}

impl Model for Datagram {
    ghost use Rattle.pg_net.specs.Net.{Datagram as Told};

    ghost Value = { Told };

    ghost view = { λ d. record { port = d.port; bytes = d.bytes.items } };
}

impl Datagram {
    pub fn new(port: u16, bytes: Vec<u8>) -> Self
        ensures { result ≡ record { port = port; bytes = bytes.items } }
    {
        Datagram { port, bytes }
    }

    pub fn port(&self) -> u16
        ensures { result ≡ self.now.port }
    {
        self.port
    }

    pub fn bytes(&self) -> &[u8]
        ensures { result.now ≡ self.now.bytes }
    {
        self.bytes.as_slice()
    }
}

/// Adds a packet with a copy of the bytes behind the others.
pub fn add(
    alloc: Global,
    packets: &mut Vec<Datagram>,
    port: u16,
    bytes: &[u8],
) -> Result<(), AllocError>
    ensures ok { OnOk result (packets.new.items
        ≡ packets.old.items ++ record { port = port; bytes = bytes.now } ∷ []) }
    ensures err { OnErr result (packets.new.items ≡ packets.old.items) }
{
    packets.push(Datagram::new(port, bytes.to_vec(alloc)?))?;
    Ok(())
}
