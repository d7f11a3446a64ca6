//! Turn after turn.

ghost use Rattle.std.specs.Prelude.{List, ◌≡◌, length, OnOk, IfErr};
ghost use Rattle.port_events.specs.Giving.{Blames};
ghost use Rattle.port_events.specs.Feeding.{given};
ghost use Rattle.port_turn.specs.Turns.{Turn, waits, asked};
ghost use Rattle.port_turn.specs.Runs.{node, Runs, BreaksOff};

use crate::turns::turn;
use port_events::{EndStep, TurnFault};
use port_traits::{Clock, Ether, Link, Uplink};
use rand_core::Rng;
use std::alloc::Global;

/// Makes so many turns.
pub fn serve<S: EndStep, L: Link, E: Ether, U: Uplink, C: Clock, R: Rng>(
    alloc: Global,
    end: &mut S,
    link: &mut L,
    ether: &mut E,
    up: &mut U,
    clock: &mut C,
    rng: &mut R,
    turns: u64,
) -> Result<(), TurnFault<S::Stop>>
    requires ready { S.ready end.old }
    ensures ready { S.ready end.new }
    ensures ok { OnOk result ((ts : List Turn) × (length ts ≡ turns) × Runs S.steps ts (node (R.stream rng.old) (C.gives clock.old) end.old (given (L.given link.old) (E.given ether.old) (U.given up.old)) (waits (L.waiting link.old) (E.waiting ether.old) (U.waiting up.old)) (asked (L.asked link.old) (E.asked ether.old) (U.asked up.old))) (node (R.stream rng.new) (C.gives clock.new) end.new (given (L.given link.new) (E.given ether.new) (U.given up.new)) (waits (L.waiting link.new) (E.waiting ether.new) (U.waiting up.new)) (asked (L.asked link.new) (E.asked ether.new) (U.asked up.new)))) }
    ensures err { IfErr result (λ fault. BreaksOff S.steps S.stops fault (node (R.stream rng.old) (C.gives clock.old) end.old (given (L.given link.old) (E.given ether.old) (U.given up.old)) (waits (L.waiting link.old) (E.waiting ether.old) (U.waiting up.old)) (asked (L.asked link.old) (E.asked ether.old) (U.asked up.old))) end.new (given (L.given link.new) (E.given ether.new) (U.given up.new)) (waits (L.waiting link.new) (E.waiting ether.new) (U.waiting up.new)) (asked (L.asked link.new) (E.asked ether.new) (U.asked up.new))) }
    ensures cause { Blames (L.faults link.old) (L.faults link.new) (E.faults ether.old) (E.faults ether.new) (U.faults up.old) (U.faults up.new) result }
{
    for _ in 0..turns {
        turn(alloc, end, link, ether, up, clock, rng)?;
    }
    Ok(())
}
