//! A link over a UDP socket.

ghost use Rattle.std.specs.Prelude.{◌≡◌, ◌≤◌, IfOk, IfSome, None};

use crate::watch::Descriptor;
use port_traits::{Arrived, Link};
use std::io;
use std::io::ErrorKind;
use std::net::{Ipv4Addr, Net, SocketAddr, SocketAddrV4, UdpSocket};
use std::os::fd::AsRawFd;
use stream_ports::Faults;
use wire_base::Failed;

/// How many datagrams from another port are passed over in one call.
const PASSED_OVER: u32 = 64;

/// The system's error number of a datagram that is too long for a link (EMSGSIZE).
const TOO_LONG: i32 = 90;

/// The system's error number where it has no buffer for a datagram (ENOBUFS).
const NO_BUFFER: i32 = 105;

/// A UDP socket of an IPv4 address and a port, bound at its first call; each other end has the same port. An address that
/// can't be bound, and a socket that fails in `recv`, are faults. A datagram that can't be sent to its peer is lost on
/// the way, which is no fault.
#[derive(Drop)]
pub struct UdpLink<R: Net> {
    system: R,
    listen: u32,
    port: u16,
    socket: Option<UdpSocket>,
    faults: Faults,
}

impl<R: Net> UdpLink<R> {
    /// A link that isn't bound yet.
    pub fn new(system: R, listen: u32, port: u16) -> UdpLink<R>
        ensures { result ≡ record { system = system; listen = listen; port = port; socket = None; faults = 0 } }
    {
        UdpLink {
            system,
            listen,
            port,
            socket: None,
            faults: Faults::new(),
        }
    }
}

/// The socket address of an IPv4 address, as a number, and a port.
fn socket_address(address: u32, port: u16) -> SocketAddr {
    SocketAddr::V4(SocketAddrV4::new(Ipv4Addr::from_bits(address), port))
}

/// A socket whose calls don't wait.
fn bind<R: Net>(system: &R, listen: u32, port: u16) -> io::Result<UdpSocket> {
    let socket = UdpSocket::bind(system, socket_address(listen, port))?;
    socket.set_nonblocking(true)?;
    Ok(socket)
}

/// The first datagram from the port that waits.
fn receive(socket: &UdpSocket, port: u16, buf: &mut [u8; 2048]) -> io::Result<Option<Arrived>>
    ensures { IfOk result (λ got. IfSome got (λ a. a.len ≤ 2048)) }
{
    for _ in 0..PASSED_OVER {
        match socket.recv_from(buf) {
            Ok((len, SocketAddr::V4(from))) if from.port() == port => {
                let peer = from.ip().to_bits();
                return Ok(Some(Arrived { peer, len }));
            }
            Ok(_) => (),
            Err(e) if e.kind() == ErrorKind::WouldBlock => return Ok(None),
            Err(e) => return Err(e),
        }
    }
    Ok(None)
}

/// Whether an error speaks of one datagram or its peer, and not of the socket.
fn is_of_the_peer(error: &io::Error) -> bool {
    match error.raw_os_error() {
        Some(TOO_LONG | NO_BUFFER) => true,
        _ => match error.kind() {
            ErrorKind::WouldBlock
            | ErrorKind::HostUnreachable
            | ErrorKind::NetworkUnreachable
            | ErrorKind::ConnectionRefused
            | ErrorKind::PermissionDenied => true,
            _ => false,
        },
    }
}

/// Sends a datagram, or loses it.
fn transmit(socket: &UdpSocket, to: SocketAddr, bytes: &[u8]) -> io::Result<()> {
    match socket.send_to(bytes, to) {
        Ok(_) => Ok(()),
        Err(e) if is_of_the_peer(&e) => Ok(()),
        Err(e) => Err(e),
    }
}

impl<R: Net> UdpLink<R> {
    /// Binds the socket where it wasn't yet.
    fn open(&mut self) -> io::Result<()>
        ensures { self.new.faults ≡ self.old.faults }
    {
        if self.socket.is_none() {
            self.socket = Some(bind(&self.system, self.listen, self.port)?);
        }
        Ok(())
    }

    /// Takes a datagram in.
    fn take_in(&mut self, buf: &mut [u8; 2048]) -> io::Result<Option<Arrived>>
        ensures bound { IfOk result (λ got. IfSome got (λ a. a.len ≤ 2048)) }
        ensures faults { self.new.faults ≡ self.old.faults }
    {
        self.open()?;
        match &self.socket {
            Some(socket) => receive(socket, self.port, buf),
            None => Ok(None),
        }
    }

    /// Gives a datagram out.
    fn give_out(&mut self, peer: u32, bytes: &[u8]) -> io::Result<()>
        ensures faults { self.new.faults ≡ self.old.faults }
    {
        self.open()?;
        match &self.socket {
            Some(socket) => transmit(socket, socket_address(peer, self.port), bytes),
            None => Ok(()),
        }
    }

    /// The system's error of the last fault, where there was one.
    pub fn last_error(&self) -> Option<io::Error> {
        self.faults.last_error()
    }
}

impl<R: Net> Link for UdpLink<R> {
    ghost faults = { λ s. s.faults };

    fn recv(&mut self, buf: &mut [u8; 2048]) -> Result<Option<Arrived>, Failed> {
        let answer = self.take_in(buf);
        self.faults.counted(answer)
    }

    fn send(&mut self, peer: u32, bytes: &[u8]) -> Result<(), Failed> {
        let answer = self.give_out(peer, bytes);
        self.faults.counted(answer)
    }
}

impl<R: Net> Descriptor for UdpLink<R> {
    fn descriptor(&self) -> i32 {
        match &self.socket {
            Some(socket) => socket.as_raw_fd(),
            None => -1,
        }
    }
}
