//! Events as they come, and as an end reads them.

ghost use Rattle.std.specs.Prelude.{◌≡◌, unwrap_or, IfOk};
ghost use Rattle.end_model.specs.Secrets.{uncovered_event};

use end_model::{Config, Event};
use l2tp_datagram::Datagram;
use message_reading::uncover_datagram;
use std::alloc::Global;
use wire_base::{Bytes, NoMemory};

/// A copy of an event.
pub fn copy_event(alloc: Global, event: &Event) -> Result<Event, NoMemory>
    ensures { IfOk result (λ copy. copy ≡ event.now) }
{
    let copy = |bytes: &[u8]| Bytes::from_slice(alloc, bytes);
    Ok(match event {
        Event::Datagram { peer, datagram } => Event::Datagram {
            peer: *peer,
            datagram: Datagram::read(alloc, copy(datagram.as_slice())?),
        },
        Event::Ring { port } => Event::Ring { port: *port },
        Event::Frame { bytes } => Event::Frame {
            bytes: copy(bytes.as_slice())?,
        },
        Event::Admitted { mac } => Event::Admitted { mac: *mac },
        Event::Payload { session, frame } => Event::Payload {
            session: *session,
            frame: copy(frame.as_slice())?,
        },
        Event::Lower { session, frame } => Event::Lower {
            session: *session,
            frame: copy(frame.as_slice())?,
        },
        Event::Lcp { session, packet } => Event::Lcp {
            session: *session,
            packet: copy(packet.as_slice())?,
        },
        Event::Hang { session } => Event::Hang { session: *session },
        Event::OpenTunnel => Event::OpenTunnel,
        Event::DropCall { session } => Event::DropCall { session: *session },
        Event::CloseTunnel { tunnel } => Event::CloseTunnel { tunnel: *tunnel },
        Event::Tick => Event::Tick,
    })
}

/// An event as an end with this secret reads it: a datagram whose hidden values the secret uncovers is one with those values in plain
/// (RFC 2661 section 4.3). None where it is as it came.
pub fn plain_event(alloc: Global, config: &Config, event: &Event) -> Result<Option<Event>, NoMemory>
    ensures { IfOk result (λ plain. unwrap_or plain event.now ≡ uncovered_event config.now.secret event.now) }
{
    let Event::Datagram { peer, datagram } = event else {
        return Ok(None);
    };
    match uncover_datagram(alloc, &config.secret, datagram)? {
        None => Ok(None),
        Some(bytes) => Ok(Some(Event::Datagram {
            peer: *peer,
            datagram: Datagram::read(alloc, bytes),
        })),
    }
}
