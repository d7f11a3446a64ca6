//! The Ethernet port and the uplink, over Unix stream sockets.

ghost use Rattle.std.specs.Prelude.{◌≡◌, ◌≤◌, IfOk, IfSome};

use crate::faults::Faults;
use crate::messages::Messages;
use port_traits::{Ether, Lowered, Uplink, copy_front};
use std::alloc::Global;
use std::io;
use std::net::Net;
use wire_base::{Failed, NoMemory, take_u16};

/// An Ethernet port over a Unix stream socket: the body of a message is a frame from its destination address on. A path
/// where nobody listens, and a stream that ends, are faults; the next call tries again to connect where it wasn't.
#[derive(Drop)]
pub struct UnixEther<R: Net + Drop> {
    messages: Messages<R>,
    faults: Faults,
}

impl<R: Net + Drop> UnixEther<R> {
    /// A port over the socket of a path, which isn't connected yet.
    pub fn new(alloc: Global, system: R, path: String) -> Result<UnixEther<R>, NoMemory>
        ensures { IfOk result (λ port. port.faults ≡ 0) }
    {
        Ok(UnixEther {
            messages: Messages::new(alloc, system, path)?,
            faults: Faults::new(),
        })
    }
}

impl<R: Net + Drop> Ether for UnixEther<R> {
    ghost faults = { λ s. s.faults };

    fn recv(&mut self, buf: &mut [u8; 2048]) -> Result<Option<usize>, Failed> {
        let answer = self.messages.next();
        let Some(len) = self.faults.counted(answer)? else {
            return Ok(None);
        };
        Ok(Some(copy_front(buf, self.messages.body(len))))
    }

    fn send(&mut self, frame: &[u8]) -> Result<(), Failed> {
        let answer = self.messages.give(&[], frame);
        self.faults.counted(answer)
    }
}

/// An uplink over a Unix stream socket: the body of a message is a session in 2 bytes, big-endian, and a PPP frame from its
/// protocol field on. Faults are those of `UnixEther`.
#[derive(Drop)]
pub struct UnixUplink<R: Net + Drop> {
    messages: Messages<R>,
    faults: Faults,
}

impl<R: Net + Drop> UnixUplink<R> {
    /// A port over the socket of a path, which isn't connected yet.
    pub fn new(alloc: Global, system: R, path: String) -> Result<UnixUplink<R>, NoMemory>
        ensures { IfOk result (λ port. port.faults ≡ 0) }
    {
        Ok(UnixUplink {
            messages: Messages::new(alloc, system, path)?,
            faults: Faults::new(),
        })
    }
}

/// The session and the frame of a message; one that is too short to name a session is passed over.
fn session_of(body: &[u8], buf: &mut [u8; 2048]) -> Option<Lowered>
    ensures { IfSome result (λ l. l.len ≤ 2048) }
{
    let session = take_u16(body, 0).ok()?;
    let len = copy_front(buf, &body[2..]);
    Some(Lowered { session, len })
}

impl<R: Net + Drop> Uplink for UnixUplink<R> {
    ghost faults = { λ s. s.faults };

    fn recv(&mut self, buf: &mut [u8; 2048]) -> Result<Option<Lowered>, Failed> {
        let answer = self.messages.next();
        let Some(len) = self.faults.counted(answer)? else {
            return Ok(None);
        };
        Ok(session_of(self.messages.body(len), buf))
    }

    fn send(&mut self, session: u16, frame: &[u8]) -> Result<(), Failed> {
        let answer = self.messages.give(&session.to_be_bytes(), frame);
        self.faults.counted(answer)
    }
}

impl<R: Net + Drop> UnixEther<R> {
    /// The system's descriptor, or -1 where the stream isn't connected yet.
    pub fn descriptor(&self) -> i32 {
        self.messages.descriptor()
    }

    /// The system's error of the last fault, where there was one.
    pub fn last_error(&self) -> Option<io::Error> {
        self.faults.last_error()
    }
}

impl<R: Net + Drop> UnixUplink<R> {
    /// The system's descriptor, or -1 where the stream isn't connected yet.
    pub fn descriptor(&self) -> i32 {
        self.messages.descriptor()
    }

    /// The system's error of the last fault, where there was one.
    pub fn last_error(&self) -> Option<io::Error> {
        self.faults.last_error()
    }
}
