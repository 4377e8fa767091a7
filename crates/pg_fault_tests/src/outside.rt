//! Sockets, the clock and programs of the system.

use pg_io::Failed;
use pg_net::{Clock, Net, Programs, Spawner, SystemClock, Taken, UdpNet};
use std::alloc::{AllocError, Global};
use std::io;
use std::net::{Ipv4Addr, SocketAddr, UdpSocket};
use std::test::Fail;

fn words(alloc: Global, texts: &[&str]) -> Result<Vec<String>, AllocError> {
    let mut words = Vec::new(alloc);
    for text in texts {
        words.push(String::from_str(alloc, text)?)?;
    }
    Ok(words)
}

/// As many bytes as a take may give.
type Buffer = [u8; 40_001];

/// Whether nothing goes and nothing comes where no port is bound.
fn fails_unbound<N: Net>(net: &mut N, buf: &mut Buffer) -> bool {
    net.send(9, b"a") == Err(Failed) && net.take(buf) == Err(Failed)
}

/// Where a packet came from that the peer takes, if it is just `abc`.
fn source_of_abc(peer: &UdpSocket, buf: &mut Buffer) -> io::Result<Option<SocketAddr>> {
    let (length, from) = peer.recv_from(buf)?;
    if buf.get(..length) == Some(b"abc".as_slice()) {
        return Ok(Some(from));
    }
    Ok(None)
}

/// The peer sends 50,000 bytes of 7 there.
fn send_long(alloc: Global, peer: &UdpSocket, to: SocketAddr) -> io::Result<()> {
    let long = vec![in alloc; 7; 50_000]?;
    peer.send_to(&long, to)?;
    Ok(())
}

/// Whether what came from that port is cut, with a 7 at its end, and nothing comes behind it.
fn takes_cut<N: Net>(net: &mut N, buf: &mut Buffer, port: u16) -> bool {
    let length = 40_001;
    net.take(buf) == Ok(Taken::Packet { port, length })
        && buf[40_000] == 7
        && net.take(buf) == Ok(Taken::Idle)
}

/// Whether a net that is bound sends to the peer, and takes what comes from there.
fn goes_and_comes<N: Net>(
    alloc: Global,
    net: &mut N,
    peer: &UdpSocket,
    buf: &mut Buffer,
) -> Result<bool, Fail> {
    let port = peer.local_addr()?.port();
    net.send(port, b"abc")?;
    let from = source_of_abc(peer, buf)?.ok_or("abc")?;
    send_long(alloc, peer, from)?;
    Ok(takes_cut(net, buf, port))
}

#[test]
fn packets_of_the_system(rt: HostRuntime) -> Result<(), Fail> {
    let mut buf = [0u8; 40_001];
    let mut net = UdpNet::new(&rt);
    let unbound = fails_unbound(&mut net, &mut buf);
    net.bind(0)?;
    let peer = UdpSocket::bind(&rt, (Ipv4Addr::LOCALHOST, 0))?;
    let bound = goes_and_comes(rt.alloc(), &mut net, &peer, &mut buf)?;
    assert!(rt; unbound && bound && net.takes() == 2 && net.faults() == 2);
    Ok(())
}

#[test]
fn the_clock_of_the_system(rt: HostRuntime) -> Result<(), Fail> {
    let mut clock = SystemClock::new(&rt);
    assert!(rt; clock.now() > 1_600_000_000_000 && clock.word() != clock.word());
    Ok(())
}

/// Whether these words are started as children 0 and 1, which both end with 7, no word is no
/// program, and there is no child 2.
fn starts_two<S: Spawner>(spawner: &mut S, words: &[String]) -> bool {
    spawner.start(words) == Ok(0)
        && spawner.start(words) == Ok(1)
        && spawner.wait(1) == Ok(7)
        && spawner.wait(0) == Ok(7)
        && spawner.start(&[]) == Err(Failed)
        && spawner.wait(2) == Err(Failed)
}

#[test]
fn programs_of_the_system(rt: HostRuntime) -> Result<(), Fail> {
    let list = words(rt.alloc(), &["sh", "-c", "exit 7"])?;
    let mut spawner = Programs::new(rt.alloc(), &rt);
    assert!(rt; starts_two(&mut spawner, &list) && spawner.faults() == 2);
    Ok(())
}
