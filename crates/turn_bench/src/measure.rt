//! What is measured.

ghost use Rattle.std.specs.Prelude.{List, ◌≡◌, ◌^◌, ◌-◌, length, IfSome, OnOk, Some};
ghost use Rattle.rand_core.specs.Stream.{Stream};
ghost use Rattle.option_values.specs.Values.{address_of, number_of};
ghost use Rattle.port_events.specs.declared.echo.Echo.{Echo};
ghost use Rattle.port_events.specs.Echoes.{EchoesBack};
ghost use Rattle.port_events.specs.Feeding.{given};
ghost use Rattle.port_events.specs.Giving.{Blames};
ghost use Rattle.port_turn.specs.Turns.{Turn, waits, asked};
ghost use Rattle.port_turn.specs.Runs.{node, Runs};

use block_source::seeded;
use option_values::{read_address, read_number};
use port_events::{Echo, TurnFault};
use port_traits::{Clock, Ether, Link, Uplink};
use port_turn::serve;
use std::alloc::Global;
use wire_base::NoMemory;

/// The address and the port of the UDP socket, how many turns are made, and for how many milliseconds each may rest.
#[derive(Clone, Copy, PartialEq, Eq)]
pub struct Measure {
    pub listen: u32,
    pub port: u16,
    pub turns: u64,
    pub rest: u16,
}

/// The measure that words spell.
pub fn read_measure(listen: &str, port: &str, turns: &str, rest: &str) -> Option<Measure>
    ensures listen { IfSome result (λ m. address_of listen.now ≡ Some m.listen) }
    ensures port { IfSome result (λ m. number_of 1 65535 port.now ≡ Some m.port) }
    ensures turns { IfSome result (λ m. number_of 0 (2 ^ 64 - 1) turns.now ≡ Some m.turns) }
    ensures rest { IfSome result (λ m. number_of 0 1000 rest.now ≡ Some m.rest) }
{
    let listen = read_address(listen)?;
    let port = read_number(port, 1, 65_535)?;
    let turns = read_number(turns, 0, u64::MAX)?;
    let rest = read_number(rest, 0, 1_000)?;
    Some(Measure {
        listen,
        port: port as u16,
        turns,
        rest: rest as u16,
    })
}

/// So many turns of an end that sends each datagram back.
pub fn echo_turns<L: Link, E: Ether, U: Uplink, C: Clock>(
    alloc: Global,
    link: &mut L,
    ether: &mut E,
    up: &mut U,
    clock: &mut C,
    turns: u64,
) -> Result<(), TurnFault<NoMemory>>
    ensures turns { OnOk result ((ts : List Turn) × (length ts ≡ turns) × (s : Stream) × (t : Stream) × (x : Echo) × (y : Echo) × Runs EchoesBack ts (node s (C.gives clock.old) x (given (L.given link.old) (E.given ether.old) (U.given up.old)) (waits (L.waiting link.old) (E.waiting ether.old) (U.waiting up.old)) (asked (L.asked link.old) (E.asked ether.old) (U.asked up.old))) (node t (C.gives clock.new) y (given (L.given link.new) (E.given ether.new) (U.given up.new)) (waits (L.waiting link.new) (E.waiting ether.new) (U.waiting up.new)) (asked (L.asked link.new) (E.asked ether.new) (U.asked up.new)))) }
    ensures cause { Blames (L.faults link.old) (L.faults link.new) (E.faults ether.old) (E.faults ether.new) (U.faults up.old) (U.faults up.new) result }
{
    let mut end = Echo::new(alloc);
    let mut rng = seeded([0u8; 32]);
    serve(alloc, &mut end, link, ether, up, clock, &mut rng, turns)?;
    Ok(())
}
