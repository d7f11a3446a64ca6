//! What the calling thread holds beside its ports.

ghost use Rattle.std.specs.Prelude.{◌≡◌, [], true, false};

use end_model::Role;
use pool_giving::{FrameRoom, Hosts};
use port_events::TurnFault;
use session_workers::Gate;
use std::alloc::Global;
use step_hub::StepError;

/// Why a pool takes and puts nothing more: a port failed, a turn was refused, or memory was wanting.
pub type PoolFault = TurnFault<StepError>;

/// A gate that is lent, as which the calling thread's desk holds that of the workers.
#[derive(Drop)]
pub struct LentGate<'a, G: Gate> {
    pub gate: &'a G,
}

impl<'a, G: Gate> Gate for LentGate<'a, G> {
    fn before(&self, number: u64) {
        self.gate.before(number)
    }

    fn after(&self, number: u64) {
        self.gate.after(number)
    }
}

/// What the calling thread of a pool holds beside its ports.
#[derive(Drop)]
pub struct Desk<G: Gate> {
    pub(crate) alloc: Global,
    /// Whether the end is an LNS, otherwise a LAC.
    pub(crate) lns: bool,
    pub(crate) hosts: Hosts,
    pub(crate) room: FrameRoom,
    pub(crate) gate: G,
    /// How many items it was given.
    pub(crate) given: u64,
    /// How many items it put.
    pub(crate) puts: u64,
}

impl<G: Gate> Desk<G> {
    /// The desk of an end of this kind with these hosts, which was given and put nothing. It takes no memory.
    pub fn new(alloc: Global, role: Role, hosts: Hosts, gate: G) -> Desk<G>
        ensures none { (result.given ≡ 0) × (result.puts ≡ 0) }
        ensures hosts { result.hosts ≡ hosts }
    {
        Desk {
            alloc,
            lns: matches!(role, Role::Lns),
            hosts,
            room: FrameRoom::new(alloc),
            gate,
            given: 0,
            puts: 0,
        }
    }
}
