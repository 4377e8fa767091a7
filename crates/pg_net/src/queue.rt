//! Packets in memory that are taken in order.

ghost use Rattle.std.specs.Prelude.{◌≡◌, ◌≤◌, [], min, length, take, IfSome, IfNone};
ghost use Rattle.pg_net.specs.Net.{IsWithin};
ghost use Rattle.pg_net.specs.MemoryNet.{IsNext};

use crate::datagram::Datagram;
use crate::net::Taken;
use std::marker::Model;

/// The most bytes of a packet that a take gives.
pub const LONGEST: usize = 40_001;

/// Packets, of which the first `at` were taken, and how many takes behind the last found none.
#[derive(Debug, Drop)]
pub struct Queue {
    packets: Vec<Datagram>,
    at: usize,
    idles: u64,
}

impl Model for Queue {
    ghost use Rattle.std.specs.Prelude.{◌≤◌, ◌<◌, length, drop};
    ghost use Rattle.pg_net.specs.MemoryNet.{Queue as Seen, given_first};

    ghost Value = { Seen };

    ghost view = { λ q. record {
      left = drop q.at q.packets.items;
      given = given_first 40_001 q.packets.items q.at q.idles;
    } };

    ghost invariant = { λ q. (q.at ≤ length q.packets.items)
        × (0 < q.idles → length q.packets.items ≤ q.at) };
}

impl Queue {
    pub fn new(packets: Vec<Datagram>) -> Self
        ensures { result ≡ record { left = packets.items; given = [] } }
    {
        Queue {
            packets,
            at: 0,
            idles: 0,
        }
    }

    /// Nothing where no packet is left and no further take that finds none can be counted.
    pub fn take(&mut self, buf: &mut [u8]) -> Option<Taken>
        requires { 40_001 ≤ length buf.old }
        ensures within { IfSome result (λ answer. IsWithin 40_001 answer) }
        ensures next { IfSome result (λ answer. IsNext 40_001 answer buf.new self.old self.new) }
        ensures none { IfNone result (self.new ≡ self.old) }
        ensures left { IfNone result (self.old.left ≡ []) }
    {
        match self.packets.get(self.at) {
            Some(packet) => {
                let port = packet.port();
                let length = copied(packet.bytes(), buf);
                self.at += 1;
                Some(Taken::Packet { port, length })
            }
            None => {
                self.idles = self.idles.checked_add(1)?;
                Some(Taken::Idle)
            }
        }
    }
}

/// Copies the first bytes to the start of the buffer, and says how many.
fn copied(bytes: &[u8], buf: &mut [u8]) -> usize
    requires { 40_001 ≤ length buf.old }
    ensures count { result ≡ min (length bytes.now) 40_001 }
    ensures copied { take result buf.new ≡ take result bytes.now }
{
    let count = bytes.len().min(LONGEST);
    buf[..count].copy_from_slice(&bytes[..count]);
    count
}
