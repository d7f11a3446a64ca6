//! Events go to an end, and what comes of them goes out.

ghost use Rattle.std.specs.Prelude.{◌≡◌, [], ◌∷◌, OnOk, IfErr};
ghost use Rattle.port_events.specs.Giving.{Blames};
ghost use Rattle.port_events.specs.Feeding.{some_of, given, Fed, Stopped};

use crate::end::{EndStep, Event};
use crate::giving::{TurnFault, give_all};
use block_source::next_block;
use port_traits::{Ether, Link, Uplink};
use rand_core::Rng;

/// An event is given to the end, and what comes of it goes out.
pub fn feed<S: EndStep, L: Link, E: Ether, U: Uplink, R: Rng>(
    end: &mut S,
    link: &mut L,
    ether: &mut E,
    up: &mut U,
    rng: &mut R,
    now: u64,
    event: Event,
) -> Result<(), TurnFault<S::Stop>>
    requires ready { S.ready end.old }
    ensures ready { S.ready end.new }
    ensures ok { OnOk result (Fed S.steps now (R.stream rng.old) (R.stream rng.new) end.old end.new (given (L.given link.old) (E.given ether.old) (U.given up.old)) (given (L.given link.new) (E.given ether.new) (U.given up.new)) (event ∷ [])) }
    ensures err { IfErr result (λ fault. Stopped S.steps S.stops now fault (R.stream rng.old) end.old end.new (given (L.given link.old) (E.given ether.old) (U.given up.old)) (given (L.given link.new) (E.given ether.new) (U.given up.new)) (event ∷ [])) }
    ensures link_waits { L.waiting link.new ≡ L.waiting link.old }
    ensures ether_waits { E.waiting ether.new ≡ E.waiting ether.old }
    ensures up_waits { U.waiting up.new ≡ U.waiting up.old }
    ensures link_asked { L.asked link.new ≡ L.asked link.old }
    ensures ether_asked { E.asked ether.new ≡ E.asked ether.old }
    ensures up_asked { U.asked up.new ≡ U.asked up.old }
    ensures cause { Blames (L.faults link.old) (L.faults link.new) (E.faults ether.old) (E.faults ether.new) (U.faults up.old) (U.faults up.new) result }
{
    let block = next_block(rng);
    match end.step(now, block, event) {
        Ok(outs) => {
            give_all(&outs, link, ether, up)?;
            Ok(())
        }
        Err(stop) => Err(TurnFault::Stopped { stop }),
    }
}

/// An event, where there is one, is given to the end, and what comes of it goes out.
pub fn feed_some<S: EndStep, L: Link, E: Ether, U: Uplink, R: Rng>(
    end: &mut S,
    link: &mut L,
    ether: &mut E,
    up: &mut U,
    rng: &mut R,
    now: u64,
    event: Option<Event>,
) -> Result<(), TurnFault<S::Stop>>
    requires ready { S.ready end.old }
    ensures ready { S.ready end.new }
    ensures ok { OnOk result (Fed S.steps now (R.stream rng.old) (R.stream rng.new) end.old end.new (given (L.given link.old) (E.given ether.old) (U.given up.old)) (given (L.given link.new) (E.given ether.new) (U.given up.new)) (some_of event)) }
    ensures err { IfErr result (λ fault. Stopped S.steps S.stops now fault (R.stream rng.old) end.old end.new (given (L.given link.old) (E.given ether.old) (U.given up.old)) (given (L.given link.new) (E.given ether.new) (U.given up.new)) (some_of event)) }
    ensures link_waits { L.waiting link.new ≡ L.waiting link.old }
    ensures ether_waits { E.waiting ether.new ≡ E.waiting ether.old }
    ensures up_waits { U.waiting up.new ≡ U.waiting up.old }
    ensures link_asked { L.asked link.new ≡ L.asked link.old }
    ensures ether_asked { E.asked ether.new ≡ E.asked ether.old }
    ensures up_asked { U.asked up.new ≡ U.asked up.old }
    ensures cause { Blames (L.faults link.old) (L.faults link.new) (E.faults ether.old) (E.faults ether.new) (U.faults up.old) (U.faults up.new) result }
{
    match event {
        None => Ok(()),
        Some(event) => feed(end, link, ether, up, rng, now, event),
    }
}
