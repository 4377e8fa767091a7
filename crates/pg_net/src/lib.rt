//! The rest of the outside: nets, clocks, and programs that are started, each as a trait with a
//! form in memory and an adapter over std.
//!
//! `net` has packets with ports (`datagram`), `memory_net` (over `queue`) and `udp`; `clock` the
//! time and random numbers, `memory_clock` and `system_clock`; `spawner` programs that are started,
//! `memory_spawner` (over `started`) and `programs`. `count` counts the calls of a form in memory.
//!
//! Proofs trust `udp`, `system_clock` and `programs` alone: what they give is known to no clause.
//!
//! A net that tells also tells what is left to take and the port that was bound. A packet is cut to
//! 40,001 bytes, whatever room the buffer has. A take in memory takes no memory: what takes gave
//! is the first packets and then Idle, so two counts say it, and a take fails where the count of
//! Idles is at its end. A clock notes the first 2^64 - 1 numbers of each kind; one in memory takes
//! no memory, and a real one that cannot be read gives 0. A child's number is how many were started
//! before it, since numbers of the system's processes come again; one that a signal ended has the
//! status -1; none reads input, so that none takes what this program is to read.
//!
//! Definitions: `specs/Net`, `Clock`, `Spawner`, `MemoryNet`, `Counts`. docs/RULES.md: "Nets,
//! clocks and programs that are started". A further form is an impl of its trait, with what it
//! tells.
#![tactic(auto)]

mod clock;
mod count;
mod datagram;
mod memory_clock;
mod memory_net;
mod memory_spawner;
mod net;
mod programs;
mod queue;
mod spawner;
mod started;
mod system_clock;
mod udp;

pub use clock::Clock;
pub use datagram::Datagram;
pub use memory_clock::MemoryClock;
pub use memory_net::MemoryNet;
pub use memory_spawner::MemorySpawner;
pub use net::{Net, Taken};
pub use programs::Programs;
pub use spawner::Spawner;
pub use started::{Started, Waited};
pub use system_clock::SystemClock;
pub use udp::UdpNet;
