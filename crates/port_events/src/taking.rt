//! What waits on a port, as an event.

ghost use Rattle.std.specs.Prelude.{◌≡◌, ◌≤◌, drop, option_map, OnOk, IfOk, IfErr, None};
ghost use Rattle.port_traits.specs.Packets.{Asks};
ghost use Rattle.port_events.specs.Giving.{IsAround, BlamesOne};
ghost use Rattle.port_events.specs.declared.giving.TurnFault.TheVariants.{LinkFault, EtherFault, UplinkFault};
ghost use Rattle.port_events.specs.Taking.{datagram_event, frame_event, lower_event, TellsEvent, MayTell};

use crate::end::Event;
use crate::giving::TurnFault;
use port_traits::{Arrived, Ether, Link, Lowered, Uplink};
use std::alloc::Global;
use wire_base::Bytes;

/// The datagram that waits, as an event.
pub fn next_datagram<Stop, L: Link>(
    alloc: Global,
    link: &mut L,
) -> Result<Option<Event>, TurnFault<Stop>>
    ensures first { IfOk result (λ got. TellsEvent datagram_event (L.waiting link.old) got) }
    ensures left { OnOk result (L.waiting link.new ≡ option_map (drop 1) (L.waiting link.old)) }
    ensures err { IfErr result (λ fault. MayTell fault datagram_event (L.waiting link.old) (L.waiting link.new) None) }
    ensures kept { L.given link.new ≡ L.given link.old }
    ensures asked { Asks (L.asked link.old) (L.asked link.new) }
    ensures later { L.faults link.old ≤ L.faults link.new }
    ensures around { IfErr result IsAround }
    ensures cause { BlamesOne (L.faults link.old) (L.faults link.new) LinkFault result }
{
    let mut cells = [0u8; 2048];
    match link.recv(&mut cells) {
        Err(_) => Err(TurnFault::LinkFault),
        Ok(None) => Ok(None),
        Ok(Some(Arrived { peer, len })) => match Bytes::from_slice(alloc, &cells[..len]) {
            Err(_) => Err(TurnFault::NoMemory),
            Ok(bytes) => Ok(Some(Event::Datagram { peer, bytes })),
        },
    }
}

/// The Ethernet frame that waits, as an event.
pub fn next_frame<Stop, E: Ether>(
    alloc: Global,
    ether: &mut E,
) -> Result<Option<Event>, TurnFault<Stop>>
    ensures first { IfOk result (λ got. TellsEvent frame_event (E.waiting ether.old) got) }
    ensures left { OnOk result (E.waiting ether.new ≡ option_map (drop 1) (E.waiting ether.old)) }
    ensures err { IfErr result (λ fault. MayTell fault frame_event (E.waiting ether.old) (E.waiting ether.new) None) }
    ensures kept { E.given ether.new ≡ E.given ether.old }
    ensures asked { Asks (E.asked ether.old) (E.asked ether.new) }
    ensures later { E.faults ether.old ≤ E.faults ether.new }
    ensures around { IfErr result IsAround }
    ensures cause { BlamesOne (E.faults ether.old) (E.faults ether.new) EtherFault result }
{
    let mut cells = [0u8; 2048];
    match ether.recv(&mut cells) {
        Err(_) => Err(TurnFault::EtherFault),
        Ok(None) => Ok(None),
        Ok(Some(len)) => match Bytes::from_slice(alloc, &cells[..len]) {
            Err(_) => Err(TurnFault::NoMemory),
            Ok(bytes) => Ok(Some(Event::Frame { bytes })),
        },
    }
}

/// The network frame that waits, as an event.
pub fn next_lower<Stop, U: Uplink>(
    alloc: Global,
    up: &mut U,
) -> Result<Option<Event>, TurnFault<Stop>>
    ensures first { IfOk result (λ got. TellsEvent lower_event (U.waiting up.old) got) }
    ensures left { OnOk result (U.waiting up.new ≡ option_map (drop 1) (U.waiting up.old)) }
    ensures err { IfErr result (λ fault. MayTell fault lower_event (U.waiting up.old) (U.waiting up.new) None) }
    ensures kept { U.given up.new ≡ U.given up.old }
    ensures asked { Asks (U.asked up.old) (U.asked up.new) }
    ensures later { U.faults up.old ≤ U.faults up.new }
    ensures around { IfErr result IsAround }
    ensures cause { BlamesOne (U.faults up.old) (U.faults up.new) UplinkFault result }
{
    let mut cells = [0u8; 2048];
    match up.recv(&mut cells) {
        Err(_) => Err(TurnFault::UplinkFault),
        Ok(None) => Ok(None),
        Ok(Some(Lowered { session, len })) => match Bytes::from_slice(alloc, &cells[..len]) {
            Err(_) => Err(TurnFault::NoMemory),
            Ok(frame) => Ok(Some(Event::Lower { session, frame })),
        },
    }
}
