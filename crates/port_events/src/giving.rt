//! What an end gives goes out by the ports.

ghost use Rattle.std.specs.Prelude.{List, ◌≡◌, [], ◌∷◌, OnOk, OnErr, IfErr};
ghost use Rattle.port_events.specs.declared.end.Out.{Out};
ghost use Rattle.port_events.specs.Giving.{Gave, FailsAt, IsCut, Blames};

use crate::end::{Out, Outputs};
use port_traits::{Ether, Link, Uplink};

/// Why a turn ends early.
#[derive(Clone, Copy, PartialEq, Eq)]
pub enum TurnFault<S> {
    /// The link failed.
    LinkFault,
    /// The Ethernet port failed.
    EtherFault,
    /// The uplink failed.
    UplinkFault,
    /// Memory was wanting for what a port gave.
    NoMemory,
    /// The end made no step, and this is what it says.
    Stopped { stop: S },
}

/// An output goes out by its port.
fn give<Stop, L: Link, E: Ether, U: Uplink>(
    out: &Out,
    link: &mut L,
    ether: &mut E,
    up: &mut U,
) -> Result<(), TurnFault<Stop>>
    ensures ok { OnOk result (Gave (L.given link.old) (L.given link.new) (E.given ether.old) (E.given ether.new) (U.given up.old) (U.given up.new) (out.now ∷ [])) }
    ensures err { OnErr result (Gave (L.given link.old) (L.given link.new) (E.given ether.old) (E.given ether.new) (U.given up.old) (U.given up.new) []) }
    ensures fails { IfErr result (λ fault. FailsAt fault out.now) }
    ensures link_waits { L.waiting link.new ≡ L.waiting link.old }
    ensures ether_waits { E.waiting ether.new ≡ E.waiting ether.old }
    ensures up_waits { U.waiting up.new ≡ U.waiting up.old }
    ensures link_asked { L.asked link.new ≡ L.asked link.old }
    ensures ether_asked { E.asked ether.new ≡ E.asked ether.old }
    ensures up_asked { U.asked up.new ≡ U.asked up.old }
    ensures cause { Blames (L.faults link.old) (L.faults link.new) (E.faults ether.old) (E.faults ether.new) (U.faults up.old) (U.faults up.new) result }
{
    match out {
        Out::Send { peer, bytes } => match link.send(*peer, bytes.as_slice()) {
            Ok(()) => Ok(()),
            Err(_) => Err(TurnFault::LinkFault),
        },
        Out::Ether { bytes } => match ether.send(bytes.as_slice()) {
            Ok(()) => Ok(()),
            Err(_) => Err(TurnFault::EtherFault),
        },
        Out::Up { session, frame } => match up.send(*session, frame.as_slice()) {
            Ok(()) => Ok(()),
            Err(_) => Err(TurnFault::UplinkFault),
        },
        Out::Drop => Ok(()),
    }
}

/// Outputs go out in order, all of them, or those before the first one at which its port fails.
pub fn give_all<Stop, L: Link, E: Ether, U: Uplink>(
    outs: &Outputs,
    link: &mut L,
    ether: &mut E,
    up: &mut U,
) -> Result<(), TurnFault<Stop>>
    ensures ok { OnOk result (Gave (L.given link.old) (L.given link.new) (E.given ether.old) (E.given ether.new) (U.given up.old) (U.given up.new) outs.now) }
    ensures err { IfErr result (λ fault. (part : List Out) × IsCut fault outs.now part × Gave (L.given link.old) (L.given link.new) (E.given ether.old) (E.given ether.new) (U.given up.old) (U.given up.new) part) }
    ensures link_waits { L.waiting link.new ≡ L.waiting link.old }
    ensures ether_waits { E.waiting ether.new ≡ E.waiting ether.old }
    ensures up_waits { U.waiting up.new ≡ U.waiting up.old }
    ensures link_asked { L.asked link.new ≡ L.asked link.old }
    ensures ether_asked { E.asked ether.new ≡ E.asked ether.old }
    ensures up_asked { U.asked up.new ≡ U.asked up.old }
    ensures cause { Blames (L.faults link.old) (L.faults link.new) (E.faults ether.old) (E.faults ether.new) (U.faults up.old) (U.faults up.new) result }
{
    for out in outs.as_slice() {
        give(out, link, ether, up)?;
    }
    Ok(())
}
