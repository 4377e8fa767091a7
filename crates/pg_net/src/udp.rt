//! The system's packets, on this machine alone. Their content and their order are known to no
//! clause.

ghost use Rattle.std.specs.Prelude.{◌≡◌, ◌≤◌, ◌+◌, ◌-◌, ◌^◌, ℕ, min, length, IfOk, OnOk, OnErr};
ghost use Rattle.pg_net.specs.Net.{IsWithin, untold};

use crate::net::{Net, Taken};
use crate::queue::LONGEST;
use pg_io::Failed;
use std::io;
use std::io::ErrorKind;
use std::net::{Ipv4Addr, UdpSocket};
use std::time::Duration;

/// How long a take waits for a packet.
const PATIENCE_SECONDS: u64 = 1;

/// So often a take that comes behind a packet looks for the next one before it waits. It takes some
/// 25 microseconds, about as long as a client needs for an answer and its next question.
const LOOKS: u32 = 100;

/// UDP on 127.0.0.1. A take is Idle after one second without a packet. Each error of the system is
/// a failure, an interrupted call too, and so is a take or a send before a port was bound.
///
/// To wait and to be woken takes longer than most packets do. So behind a packet a take looks for
/// the next one some times before it waits, and then takes a packet that comes soon at once.
#[derive(Drop)]
pub struct UdpNet<R> {
    system: R,
    socket: Option<UdpSocket>,
    /// Whether the socket waits for a packet, and does not answer at once that there is none.
    waits: bool,
    takes: u64,
    faults: u64,
}

impl<R> UdpNet<R> {
    pub fn new(system: R) -> Self
        ensures takes { result.takes ≡ 0 }
        ensures faults { result.faults ≡ 0 }
    {
        UdpNet {
            system,
            socket: None,
            waits: true,
            takes: 0,
            faults: 0,
        }
    }

    /// How many takes answered Ok.
    pub fn takes(&self) -> u64
        ensures { result ≡ self.now.takes }
    {
        self.takes
    }

    /// How many calls failed.
    pub fn faults(&self) -> u64
        ensures { result ≡ self.now.faults }
    {
        self.faults
    }
}

/// Takes a packet. Where the socket waits and none comes in time, or where it does not wait and
/// there is none, it is Idle.
fn look(socket: &UdpSocket, buf: &mut [u8]) -> io::Result<Taken>
    ensures { IfOk result (λ answer. IsWithin 40_001 answer) }
{
    match socket.recv_from(buf) {
        Ok((length, from)) => Ok(Taken::Packet {
            port: from.port(),
            length: length.min(LONGEST),
        }),
        Err(e) if e.kind() == ErrorKind::WouldBlock => Ok(Taken::Idle),
        Err(e) => Err(e),
    }
}

/// Looks for a packet some times. The socket does not wait.
fn look_often(socket: &UdpSocket, buf: &mut [u8]) -> io::Result<Taken>
    ensures { IfOk result (λ answer. IsWithin 40_001 answer) }
{
    for _look in 0..LOOKS {
        let found = look(socket, buf)?;
        if found != Taken::Idle {
            return Ok(found);
        }
    }
    Ok(Taken::Idle)
}

/// Waits for a packet. Behind one the socket does not wait any more.
fn wait(socket: &UdpSocket, waits: &mut bool, buf: &mut [u8]) -> io::Result<Taken>
    ensures { IfOk result (λ answer. IsWithin 40_001 answer) }
{
    if !*waits {
        socket.set_nonblocking(false)?;
        *waits = true;
    }
    let found = look(socket, buf)?;
    if found != Taken::Idle {
        *waits = socket.set_nonblocking(true).is_err();
    }
    Ok(found)
}

/// Takes a packet: it looks for one where the socket does not wait, and then waits for one.
fn receive(socket: &UdpSocket, waits: &mut bool, buf: &mut [u8]) -> io::Result<Taken>
    ensures { IfOk result (λ answer. IsWithin 40_001 answer) }
{
    if !*waits {
        let found = look_often(socket, buf)?;
        if found != Taken::Idle {
            return Ok(found);
        }
    }
    wait(socket, waits, buf)
}

/// Sends a packet. Where the socket does not wait and the system has no room for it, it waits from
/// then on, and the packet is sent again.
fn post(socket: &UdpSocket, waits: &mut bool, port: u16, bytes: &[u8]) -> io::Result<()> {
    let to = (Ipv4Addr::LOCALHOST, port);
    match socket.send_to(bytes, to) {
        Err(e) if e.kind() == ErrorKind::WouldBlock => {
            socket.set_nonblocking(false)?;
            *waits = true;
            socket.send_to(bytes, to)?;
        }
        sent => {
            sent?;
        }
    }
    Ok(())
}

impl<R: std::net::Net> UdpNet<R> {
    fn open(&self, port: u16) -> io::Result<UdpSocket> {
        let socket = UdpSocket::bind(&self.system, (Ipv4Addr::LOCALHOST, port))?;
        socket.set_read_timeout(Some(Duration::from_secs(PATIENCE_SECONDS)))?;
        Ok(socket)
    }
}

impl<R: std::net::Net> Net for UdpNet<R> {
    ghost tells = { ⊥ };

    ghost told = { λ _. untold };

    ghost takes = { λ n. n.takes };

    ghost faults = { λ n. n.faults };

    fn bind(&mut self, port: u16) -> Result<(), Failed> {
        match self.open(port) {
            Ok(socket) => {
                self.socket = Some(socket);
                self.waits = true;
                Ok(())
            }
            Err(_) => Err(Failed::counted(&mut self.faults)),
        }
    }

    fn take(&mut self, buf: &mut [u8]) -> Result<Taken, Failed> {
        let answer = match &self.socket {
            Some(socket) => receive(socket, &mut self.waits, buf),
            None => Err(io::Error::from(ErrorKind::NotConnected)),
        };
        match answer {
            Ok(answer) => {
                self.takes = self.takes.saturating_add(1);
                Ok(answer)
            }
            Err(_) => Err(Failed::counted(&mut self.faults)),
        }
    }

    fn send(&mut self, port: u16, bytes: &[u8]) -> Result<(), Failed> {
        let sent = match &self.socket {
            Some(socket) => post(socket, &mut self.waits, port, bytes).is_ok(),
            None => false,
        };
        if sent {
            Ok(())
        } else {
            Err(Failed::counted(&mut self.faults))
        }
    }
}
