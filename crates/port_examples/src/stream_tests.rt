use crate::judging::string_of;
use port_traits::{Ether, Lowered, Uplink};
use std::alloc::Global;
use std::io::{Read, Write};
use std::net::Net;
use std::os::unix::net::{UnixListener, UnixStream};
use std::rt::Files;
use std::time::Duration;
use std::{fs, io};
use stream_ports::{UnixEther, UnixUplink};
use wire_base::Failed;

/// A path where somebody listens, and nobody else did.
fn listen<R: Files + Net>(system: &R, path: &str) -> io::Result<UnixListener> {
    let _ = fs::remove_file(system, path);
    UnixListener::bind(system, path)
}

fn ether_at<'a, R: Net>(alloc: Global, system: &'a R, path: &str) -> Option<UnixEther<&'a R>> {
    UnixEther::new(alloc, system, string_of(alloc, path)).ok()
}

fn gives<E: Ether>(ether: &mut E, expected: Result<Option<usize>, Failed>) -> bool {
    let mut buf = [0u8; 2048];
    ether.recv(&mut buf) == expected
}

fn gives_bytes<E: Ether>(ether: &mut E, bytes: &[u8]) -> bool {
    let mut buf = [0u8; 2048];
    ether.recv(&mut buf) == Ok(Some(bytes.len())) && buf.get(..bytes.len()) == Some(bytes)
}

fn sends<E: Ether>(ether: &mut E, bytes: &[u8], expected: Result<(), Failed>) -> bool {
    ether.send(bytes) == expected
}

/// How many frames of 1,000 bytes a peer reads, none of them in part, while the port is called; None where another byte
/// comes.
fn read_whole<E: Ether>(ether: &mut E, peer: &mut UnixStream) -> Option<u32> {
    let mut buf = [0u8; 2048];
    let mut head = [0u8; 2];
    let mut frame = [0u8; 1000];
    let mut whole = 0u32;
    for _ in 0..2000 {
        if peer.read_exact(&mut head).is_err() {
            break;
        }
        // the port writes what was left over at its next call
        let _ = ether.recv(&mut buf);
        if head != [3, 232] || peer.read_exact(&mut frame).is_err() || frame != [9u8; 1000] {
            return None;
        }
        whole = whole.saturating_add(1);
    }
    Some(whole)
}

// What owns a port or a listener borrows the other, and has few ways out.

/// Somebody listens, and the port's next call tries again.
fn is_found<R: Files + Net, E: Ether>(system: &R, path: &str, ether: &mut E) -> bool {
    match listen(system, path) {
        Ok(_listener) => gives(ether, Ok(None)),
        Err(_) => false,
    }
}

fn nobody_listens<R: Files + Net>(alloc: Global, system: &R, path: &str) -> bool {
    let _ = fs::remove_file(system, path);
    match ether_at(alloc, system, path) {
        Some(mut ether) => {
            gives(&mut ether, Err(Failed))
                && sends(&mut ether, b"x", Err(Failed))
                && is_found(system, path, &mut ether)
        }
        None => false,
    }
}

#[test]
fn nobody_listens_is_a_fault(rt: HostRuntime) {
    assert!(rt; nobody_listens(rt.alloc(), &rt, "nobody.sock"));
}

/// Two frames come in two pieces, and the beginning of a third.
fn joins_pieces<E: Ether>(ether: &mut E, peer: &mut UnixStream) -> io::Result<bool> {
    peer.write_all(&[0, 3, b'a'])?;
    let is_in_part = gives(ether, Ok(None));
    peer.write_all(&[b'b', b'c', 0, 1, b'd', 0])?;
    let is_whole = gives_bytes(ether, b"abc") && gives(ether, Ok(Some(1)));
    Ok(is_in_part && is_whole && gives(ether, Ok(None)))
}

/// Frames come in pieces of a peer, whose end is a fault.
fn joins_until_the_end<E: Ether>(ether: &mut E, listener: &UnixListener) -> io::Result<bool> {
    let (mut peer, _) = listener.accept()?;
    let are_joined = matches!(joins_pieces(ether, &mut peer), Ok(true));
    drop(peer);
    Ok(are_joined && gives(ether, Err(Failed)))
}

fn joins_from<R: Net>(alloc: Global, system: &R, path: &str, listener: &UnixListener) -> bool {
    match ether_at(alloc, system, path) {
        Some(mut ether) => {
            gives(&mut ether, Ok(None))
                && matches!(joins_until_the_end(&mut ether, listener), Ok(true))
        }
        None => false,
    }
}

fn pieces_are_joined<R: Files + Net>(alloc: Global, system: &R, path: &str) -> bool {
    match listen(system, path) {
        Ok(listener) => joins_from(alloc, system, path, &listener),
        Err(_) => false,
    }
}

#[test]
fn frames_come_in_pieces(rt: HostRuntime) {
    assert!(rt; pieces_are_joined(rt.alloc(), &rt, "pieces.sock"));
}

/// 2,000 frames of 1,000 bytes are taken.
fn sends_all<E: Ether>(ether: &mut E) -> bool {
    for _ in 0..2000 {
        if ether.send(&[9u8; 1000]).is_err() {
            return false;
        }
    }
    true
}

/// A peer reads some of the frames, but not all, and then the next one.
fn is_read_whole<E: Ether>(ether: &mut E, peer: &mut UnixStream) -> io::Result<bool> {
    peer.set_read_timeout(Some(Duration::from_millis(50)))?;
    let whole = read_whole(ether, peer);
    let mut head = [0u8; 7];
    let is_sent = sends(ether, b"after", Ok(()));
    peer.read_exact(&mut head)?;
    match whole {
        Some(whole) => Ok(whole > 10 && whole < 2000 && is_sent && &head == b"\x00\x05after"),
        None => Ok(false),
    }
}

fn is_read_late<E: Ether>(ether: &mut E, listener: &UnixListener) -> io::Result<bool> {
    let (mut peer, _) = listener.accept()?;
    is_read_whole(ether, &mut peer)
}

fn fills_and_is_read<R: Net>(
    alloc: Global,
    system: &R,
    path: &str,
    listener: &UnixListener,
) -> bool {
    match ether_at(alloc, system, path) {
        Some(mut ether) => {
            sends_all(&mut ether) && matches!(is_read_late(&mut ether, listener), Ok(true))
        }
        None => false,
    }
}

fn frames_are_whole<R: Files + Net>(alloc: Global, system: &R, path: &str) -> bool {
    match listen(system, path) {
        Ok(listener) => fills_and_is_read(alloc, system, path, &listener),
        Err(_) => false,
    }
}

#[test]
fn a_peer_that_does_not_read_gets_whole_frames(rt: HostRuntime) {
    assert!(rt; frames_are_whole(rt.alloc(), &rt, "full.sock"));
}

/// A frame of the session 258 as it is on the stream.
const MESSAGE: [u8; 7] = [0, 5, 1, 2, 0, 33, 170];

/// The uplink gives nothing, and then the frame.
fn gives_the_frame<U: Uplink>(up: &mut U) -> bool {
    let mut buf = [0u8; 2048];
    let is_empty = up.recv(&mut buf) == Ok(None);
    let came = Lowered {
        session: 258,
        len: 3,
    };
    is_empty && up.recv(&mut buf) == Ok(Some(came)) && &buf[..3] == [0u8, 33, 170].as_slice()
}

/// A peer reads the frame, and sends it back behind one that is too short for a session and passed over.
fn is_sent_back<U: Uplink>(up: &mut U, peer: &mut UnixStream) -> io::Result<bool> {
    let mut message = [0u8; 7];
    peer.read_exact(&mut message)?;
    peer.write_all(&[0, 1, 9])?;
    peer.write_all(&message)?;
    Ok(message == MESSAGE && gives_the_frame(up))
}

fn crosses<U: Uplink>(up: &mut U, listener: &UnixListener) -> io::Result<bool> {
    let is_sent = up.send(258, &[0, 33, 170]) == Ok(());
    let (mut peer, _) = listener.accept()?;
    Ok(is_sent && is_sent_back(up, &mut peer)?)
}

fn crosses_from<R: Net>(alloc: Global, system: &R, path: &str, listener: &UnixListener) -> bool {
    match UnixUplink::new(alloc, system, string_of(alloc, path)) {
        Ok(mut up) => matches!(crosses(&mut up, listener), Ok(true)),
        Err(_) => false,
    }
}

fn network_frames_cross<R: Files + Net>(alloc: Global, system: &R, path: &str) -> bool {
    match listen(system, path) {
        Ok(listener) => crosses_from(alloc, system, path, &listener),
        Err(_) => false,
    }
}

#[test]
fn network_frames_have_a_session(rt: HostRuntime) {
    assert!(rt; network_frames_cross(rt.alloc(), &rt, "uplink.sock"));
}
