//! What waits on a node's ports is an event of its end.

ghost use Rattle.std.specs.Prelude.{◌≡◌};
ghost use Rattle.node_run.specs.Events.{event_of};

use end_model::Event;
use l2tp_datagram::Datagram;
use std::alloc::Global;

/// The event of an end.
pub(crate) fn event_of(alloc: Global, event: port_events::Event) -> Event
    ensures { result ≡ event_of event }
{
    match event {
        port_events::Event::Datagram { peer, bytes } => Event::Datagram {
            peer,
            datagram: Datagram::read(alloc, bytes),
        },
        port_events::Event::Frame { bytes } => Event::Frame { bytes },
        port_events::Event::Lower { session, frame } => Event::Lower { session, frame },
        port_events::Event::Open => Event::OpenTunnel,
        port_events::Event::Tick => Event::Tick,
    }
}
