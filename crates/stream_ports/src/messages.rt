//! Messages over a Unix stream socket.

use crate::boxes::{Inbox, Outbox};
use std::alloc::Global;
use std::io;
use std::net::Net;
use std::os::fd::AsRawFd;
use std::os::unix::net::UnixStream;
use wire_base::NoMemory;

/// A stream of messages, connected at its first call.
#[derive(Drop)]
pub(crate) struct Messages<R: Net + Drop> {
    system: R,
    path: String,
    stream: Option<UnixStream>,
    inbox: Inbox,
    outbox: Outbox,
}

/// A stream that doesn't wait.
fn connect<R: Net + Drop>(system: &R, path: &str) -> io::Result<UnixStream> {
    let stream = UnixStream::connect(system, path)?;
    stream.set_nonblocking(true)?;
    Ok(stream)
}

impl<R: Net + Drop> Messages<R> {
    /// A stream that isn't connected yet.
    pub(crate) fn new(alloc: Global, system: R, path: String) -> Result<Messages<R>, NoMemory> {
        Ok(Messages {
            system,
            path,
            stream: None,
            inbox: Inbox::new(alloc)?,
            outbox: Outbox::new(alloc)?,
        })
    }

    /// Connects the stream where it wasn't yet.
    fn open(&mut self) -> io::Result<()> {
        if self.stream.is_none() {
            self.stream = Some(connect(&self.system, self.path.as_str())?);
        }
        Ok(())
    }

    /// Takes the first message that is there whole, and tells how long its body is. A rest of what had to go out is written
    /// first.
    pub(crate) fn next(&mut self) -> io::Result<Option<usize>> {
        self.open()?;
        let Some(stream) = &mut self.stream else {
            return Ok(None);
        };
        self.outbox.flush(stream)?;
        self.inbox.next(stream)
    }

    /// The body of the message that was taken last, whose length this is.
    pub(crate) fn body(&self, len: usize) -> &[u8] {
        self.inbox.body(len)
    }

    /// Gives a message out, whose body is in two parts.
    pub(crate) fn give(&mut self, front: &[u8], frame: &[u8]) -> io::Result<()> {
        self.open()?;
        let Some(stream) = &mut self.stream else {
            return Ok(());
        };
        self.outbox.give(stream, front, frame)
    }

    /// The system's descriptor, or -1 where the stream isn't connected yet.
    pub(crate) fn descriptor(&self) -> i32 {
        match &self.stream {
            Some(stream) => stream.as_raw_fd(),
            None => -1,
        }
    }
}
