//! The turn.

ghost use Rattle.std.specs.Prelude.{◌≡◌, ◌⊎◌, drop, option_map, OnOk, IfOk, IfErr, IfSome};
ghost use Rattle.port_events.specs.Giving.{Blames};
ghost use Rattle.port_events.specs.Feeding.{some_of, given, Fed};
ghost use Rattle.port_events.specs.Taking.{frame_event, lower_event, TellsEvent};
ghost use Rattle.port_turn.specs.Turns.{Turn, waits, asked, Turned, Broke, GivingStopped, AskingFailed};
ghost use Rattle.port_traits.specs.Packets.{moment, passed, Asks};

use port_events::{
    EndStep, Event, TurnFault, events_follow, feed, feed_some, next_datagram, next_frame,
    next_lower,
};
use port_traits::{Clock, Ether, Link, Uplink};
use rand_core::Rng;
use std::alloc::Global;

/// What comes of the datagram that was taken, if one was, goes out, and then the Ethernet port is asked for the first frame that waits.
fn then_frame<S: EndStep, L: Link, E: Ether, U: Uplink, R: Rng>(
    alloc: Global,
    end: &mut S,
    link: &mut L,
    ether: &mut E,
    up: &mut U,
    rng: &mut R,
    now: u64,
    datagram: Option<Event>,
) -> Result<Option<Event>, TurnFault<S::Stop>>
    requires ready { S.ready end.old }
    ensures ready { S.ready end.new }
    ensures first { IfOk result (λ got. TellsEvent frame_event (E.waiting ether.old) got) }
    ensures fed { OnOk result (Fed S.steps now (R.stream rng.old) (R.stream rng.new) end.old end.new (given (L.given link.old) (E.given ether.old) (U.given up.old)) (given (L.given link.new) (E.given ether.new) (U.given up.new)) (some_of datagram)) }
    ensures left { OnOk result (E.waiting ether.new ≡ option_map (drop 1) (E.waiting ether.old)) }
    ensures asks { OnOk result (Asks (E.asked ether.old) (E.asked ether.new)) }
    ensures err { IfErr result (λ fault. GivingStopped S.steps S.stops fault now (R.stream rng.old) end.old end.new (given (L.given link.old) (E.given ether.old) (U.given up.old)) (given (L.given link.new) (E.given ether.new) (U.given up.new)) (some_of datagram) (E.waiting ether.old) (E.waiting ether.new) (E.asked ether.old) (E.asked ether.new) ⊎ AskingFailed S.steps fault frame_event now (R.stream rng.old) (R.stream rng.new) end.old end.new (given (L.given link.old) (E.given ether.old) (U.given up.old)) (given (L.given link.new) (E.given ether.new) (U.given up.new)) (some_of datagram) (E.waiting ether.old) (E.waiting ether.new) (E.asked ether.old) (E.asked ether.new)) }
    ensures link_waits { L.waiting link.new ≡ L.waiting link.old }
    ensures up_waits { U.waiting up.new ≡ U.waiting up.old }
    ensures link_asked { L.asked link.new ≡ L.asked link.old }
    ensures up_asked { U.asked up.new ≡ U.asked up.old }
    ensures cause { Blames (L.faults link.old) (L.faults link.new) (E.faults ether.old) (E.faults ether.new) (U.faults up.old) (U.faults up.new) result }
{
    feed_some(end, link, ether, up, rng, now, datagram)?;
    let frame = next_frame(alloc, ether)?;
    Ok(frame)
}

/// What comes of the Ethernet frame that was taken, if one was, goes out, and then the uplink is asked for the first network frame that waits.
fn then_lower<S: EndStep, L: Link, E: Ether, U: Uplink, R: Rng>(
    alloc: Global,
    end: &mut S,
    link: &mut L,
    ether: &mut E,
    up: &mut U,
    rng: &mut R,
    now: u64,
    frame: Option<Event>,
) -> Result<Option<Event>, TurnFault<S::Stop>>
    requires ready { S.ready end.old }
    ensures ready { S.ready end.new }
    ensures first { IfOk result (λ got. TellsEvent lower_event (U.waiting up.old) got) }
    ensures fed { OnOk result (Fed S.steps now (R.stream rng.old) (R.stream rng.new) end.old end.new (given (L.given link.old) (E.given ether.old) (U.given up.old)) (given (L.given link.new) (E.given ether.new) (U.given up.new)) (some_of frame)) }
    ensures left { OnOk result (U.waiting up.new ≡ option_map (drop 1) (U.waiting up.old)) }
    ensures asks { OnOk result (Asks (U.asked up.old) (U.asked up.new)) }
    ensures err { IfErr result (λ fault. GivingStopped S.steps S.stops fault now (R.stream rng.old) end.old end.new (given (L.given link.old) (E.given ether.old) (U.given up.old)) (given (L.given link.new) (E.given ether.new) (U.given up.new)) (some_of frame) (U.waiting up.old) (U.waiting up.new) (U.asked up.old) (U.asked up.new) ⊎ AskingFailed S.steps fault lower_event now (R.stream rng.old) (R.stream rng.new) end.old end.new (given (L.given link.old) (E.given ether.old) (U.given up.old)) (given (L.given link.new) (E.given ether.new) (U.given up.new)) (some_of frame) (U.waiting up.old) (U.waiting up.new) (U.asked up.old) (U.asked up.new)) }
    ensures link_waits { L.waiting link.new ≡ L.waiting link.old }
    ensures ether_waits { E.waiting ether.new ≡ E.waiting ether.old }
    ensures link_asked { L.asked link.new ≡ L.asked link.old }
    ensures ether_asked { E.asked ether.new ≡ E.asked ether.old }
    ensures cause { Blames (L.faults link.old) (L.faults link.new) (E.faults ether.old) (E.faults ether.new) (U.faults up.old) (U.faults up.new) result }
{
    feed_some(end, link, ether, up, rng, now, frame)?;
    let lower = next_lower(alloc, up)?;
    Ok(lower)
}

/// A turn: reads the clock, takes a datagram, an Ethernet frame and a network frame, each where one waits, and gives a tick.
/// What comes of each goes out before the next port is asked, also where that port fails.
pub fn turn<S: EndStep, L: Link, E: Ether, U: Uplink, C: Clock, R: Rng>(
    alloc: Global,
    end: &mut S,
    link: &mut L,
    ether: &mut E,
    up: &mut U,
    clock: &mut C,
    rng: &mut R,
) -> Result<(), TurnFault<S::Stop>>
    requires ready { S.ready end.old }
    ensures ready { S.ready end.new }
    ensures whole { OnOk result ((t : Turn) × Turned S.steps (R.stream rng.old) (R.stream rng.new) end.old end.new (given (L.given link.old) (E.given ether.old) (U.given up.old)) (given (L.given link.new) (E.given ether.new) (U.given up.new)) (waits (L.waiting link.old) (E.waiting ether.old) (U.waiting up.old)) (waits (L.waiting link.new) (E.waiting ether.new) (U.waiting up.new)) (asked (L.asked link.old) (E.asked ether.old) (U.asked up.old)) (asked (L.asked link.new) (E.asked ether.new) (U.asked up.new)) t × IfSome (C.gives clock.old) (λ moments. t.now ≡ moment moments)) }
    ensures clock { C.gives clock.new ≡ option_map passed (C.gives clock.old) }
    ensures broke { IfErr result (λ fault. Broke S.steps S.stops fault (C.gives clock.old) (R.stream rng.old) end.old end.new (given (L.given link.old) (E.given ether.old) (U.given up.old)) (given (L.given link.new) (E.given ether.new) (U.given up.new)) (waits (L.waiting link.old) (E.waiting ether.old) (U.waiting up.old)) (waits (L.waiting link.new) (E.waiting ether.new) (U.waiting up.new)) (asked (L.asked link.old) (E.asked ether.old) (U.asked up.old)) (asked (L.asked link.new) (E.asked ether.new) (U.asked up.new))) }
    ensures cause { Blames (L.faults link.old) (L.faults link.new) (E.faults ether.old) (E.faults ether.new) (U.faults up.old) (U.faults up.new) result }
{
    events_follow::<S>();
    let now = clock.now();
    let datagram = next_datagram(alloc, link)?;
    let frame = then_frame(alloc, end, link, ether, up, rng, now, datagram)?;
    let lower = then_lower(alloc, end, link, ether, up, rng, now, frame)?;
    feed_some(end, link, ether, up, rng, now, lower)?;
    feed(end, link, ether, up, rng, now, Event::Tick)?;
    Ok(())
}
