//! What came in over a stream and wasn't taken yet, and what still has to go out. A message is a big-endian length in 2
//! bytes, which counts what follows, and the body. The longest one, 65,537 bytes, fits into either box, so that no call
//! takes memory.

ghost use Rattle.std.specs.Prelude.{◌≡◌, ◌≤◌, ◌+◌, length, IfOk, IfSome};

use std::alloc::Global;
use std::io;
use std::io::{ErrorKind, Read, Write};
use std::marker::Model;
use std::os::unix::net::UnixStream;
use wire_base::{NoMemory, take_u16};

/// What is there to be read, as much as fits. The end of the stream is an error.
fn read_some(stream: &mut UnixStream, buf: &mut [u8]) -> io::Result<usize>
    ensures { IfOk result (λ n. n ≤ length buf.old) }
{
    match stream.read(buf) {
        Ok(0) => Err(ErrorKind::UnexpectedEof.into()),
        Ok(n) => Ok(n),
        Err(e) if e.kind() == ErrorKind::WouldBlock => Ok(0),
        Err(e) => Err(e),
    }
}

/// Writes as much as the stream takes without waiting.
fn write_some(stream: &mut UnixStream, bytes: &[u8]) -> io::Result<usize>
    ensures { IfOk result (λ n. n ≤ length bytes.now) }
{
    match stream.write(bytes) {
        Ok(n) => Ok(n),
        Err(e) if e.kind() == ErrorKind::WouldBlock => Ok(0),
        Err(e) => Err(e),
    }
}

/// How long the body of the message at the front is, where the message is there whole.
fn whole(bytes: &[u8]) -> Option<usize>
    ensures { IfSome result (λ n. n + 2 ≤ length bytes.now) }
{
    let Ok(len) = take_u16(bytes, 0) else {
        return None;
    };
    let len = len as usize;
    if bytes.len() - 2 < len {
        return None;
    }
    Some(len)
}

/// What came in: the cells from `from` up to `to`.
#[derive(Drop)]
pub(crate) struct Inbox {
    cells: Vec<u8>,
    from: usize,
    to: usize,
}

impl Model for Inbox {
    ghost use Rattle.std.specs.Prelude.{◌≡◌, ◌≤◌, length};

    ghost Value = { Unit {0} };

    ghost view = { λ _. tt };

    ghost invariant = { λ s. record {
      all : length s.cells.items ≡ 65537;
      begun : s.from ≤ s.to;
      within : s.to ≤ 65537;
    } };
}

impl Inbox {
    /// Nothing came yet.
    pub(crate) fn new(alloc: Global) -> Result<Inbox, NoMemory> {
        Ok(Inbox {
            cells: vec![in alloc; 0u8; 65_537]?,
            from: 0,
            to: 0,
        })
    }

    /// Takes the first message that is there whole, and tells how long its body is.
    fn take(&mut self) -> Option<usize> {
        let len = whole(&self.cells[self.from..self.to])?;
        self.from += 2 + len;
        Some(len)
    }

    /// The body of the message that was taken last, whose length this is.
    pub(crate) fn body(&self, len: usize) -> &[u8] {
        &self.cells[self.from - len.min(self.from)..self.from]
    }

    /// Moves what is there to the front.
    fn settle(&mut self) {
        let (from, to) = (self.from, self.to);
        self.cells.copy_within(from..to, 0);
        self.from = 0;
        self.to = to - from;
    }

    /// Reads behind what is there.
    fn fill(&mut self, stream: &mut UnixStream) -> io::Result<()> {
        let to = self.to;
        self.to += read_some(stream, &mut self.cells[to..])?;
        Ok(())
    }

    /// Takes the first message, and reads once where none is there whole.
    pub(crate) fn next(&mut self, stream: &mut UnixStream) -> io::Result<Option<usize>> {
        if let Some(len) = self.take() {
            return Ok(Some(len));
        }
        self.settle();
        self.fill(stream)?;
        Ok(self.take())
    }
}

/// What has to go out: the cells from `sent` up to `due`.
#[derive(Drop)]
pub(crate) struct Outbox {
    cells: Vec<u8>,
    sent: usize,
    due: usize,
}

impl Model for Outbox {
    ghost use Rattle.std.specs.Prelude.{◌≡◌, ◌≤◌, length};

    ghost Value = { Unit {0} };

    ghost view = { λ _. tt };

    ghost invariant = { λ s. record {
      all : length s.cells.items ≡ 65537;
      part : s.sent ≤ s.due;
      within : s.due ≤ 65537;
    } };
}

/// Puts a message into a buffer, its length first, and gives how long it is.
fn put(buf: &mut [u8], front: &[u8], frame: &[u8]) -> Option<usize>
    requires { length buf.old ≡ 65537 }
    ensures most { IfSome result (λ n. n ≤ 65537) }
    ensures same { length buf.new ≡ length buf.old }
{
    let len = u16::try_from(front.len().checked_add(frame.len())?).ok()?;
    let all = 2 + len as usize;
    let begin = 2 + front.len();
    buf[..2].copy_from_slice(&len.to_be_bytes());
    buf[2..begin].copy_from_slice(front);
    buf[begin..all].copy_from_slice(frame);
    Some(all)
}

impl Outbox {
    /// Nothing has to go out.
    pub(crate) fn new(alloc: Global) -> Result<Outbox, NoMemory> {
        Ok(Outbox {
            cells: vec![in alloc; 0u8; 65_537]?,
            sent: 0,
            due: 0,
        })
    }

    /// Whether all of the last message is on the stream.
    fn is_empty(&self) -> bool {
        self.sent == self.due
    }

    /// Puts a message in, whose body is in two parts, in place of what is there. One that is too long is an error.
    fn put(&mut self, front: &[u8], frame: &[u8]) -> io::Result<()> {
        let Some(due) = put(&mut self.cells, front, frame) else {
            return Err(ErrorKind::InvalidInput.into());
        };
        self.sent = 0;
        self.due = due;
        Ok(())
    }

    /// Writes what is still due, as much as the stream takes.
    pub(crate) fn flush(&mut self, stream: &mut UnixStream) -> io::Result<()> {
        let (sent, due) = (self.sent, self.due);
        if sent < due {
            self.sent += write_some(stream, &self.cells[sent..due])?;
        }
        Ok(())
    }

    /// Gives a message out. Where one before it isn't whole on the stream yet, this one is lost: a network may lose frames,
    /// and nobody is kept waiting.
    pub(crate) fn give(
        &mut self,
        stream: &mut UnixStream,
        front: &[u8],
        frame: &[u8],
    ) -> io::Result<()> {
        self.flush(stream)?;
        if !self.is_empty() {
            return Ok(());
        }
        self.put(front, frame)?;
        self.flush(stream)
    }
}
