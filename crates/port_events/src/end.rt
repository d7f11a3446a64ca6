//! What a node's end is to a turn.

ghost use Rattle.std.specs.Prelude.{ℕ, List, IfOk, IfErr};

use wire_base::{Bytes, Sequence};

/// What is given to an end.
#[derive(Drop)]
pub enum Event {
    /// A datagram from a peer.
    Datagram { peer: u32, bytes: Bytes },
    /// An Ethernet frame.
    Frame { bytes: Bytes },
    /// A network frame of a session.
    Lower { session: u16, frame: Bytes },
    /// A tunnel is to be opened.
    Open,
    /// Time has passed.
    Tick,
}

/// What an end gives.
#[derive(Drop)]
pub enum Out {
    /// A datagram for a peer.
    Send { peer: u32, bytes: Bytes },
    /// An Ethernet frame.
    Ether { bytes: Bytes },
    /// A network frame of a session.
    Up { session: u16, frame: Bytes },
    /// What goes to no port.
    Drop,
}

pub type Outputs = Sequence<Out>;

/// An end, which makes a step on each event, or stops. What a step comes to is a relation, since it may hang on more than the end
/// before it: on a disk that the end is kept on, say.
pub trait EndStep {
    ghost use Rattle.port_events.specs.declared.end.Event.{Event};
    ghost use Rattle.port_events.specs.declared.end.Out.{Out};

    /// Why a step wasn't made.
    type Stop;

    /// What must hold of the end before a step, as that its disk still has the room that was made for the step.
    ghost ready: { Self → Type 0 };

    /// A step that was made: the end before it, the moment, the random block, the event, what the step gives, and the end after it.
    ghost steps: { Self → ℕ → List ℕ → Event → List Out → Self → Type 0 };

    /// A step that wasn't made: the end before it, the moment, the random block, the event, why, and the end after it.
    ghost stops: { Self → ℕ → List ℕ → Event → Self.Stop → Self → Type 0 };

    /// Makes a step, or says why it wasn't made. Whatever it says, the end is ready for another one.
    fn step(&mut self, now: u64, block: [u8; 16], event: Event) -> Result<Outputs, Self::Stop>
        requires ready { ready self.old }
        ensures ready { ready self.new }
        ensures made { IfOk result (λ outs. steps self.old now block event outs self.new) }
        ensures stopped { IfErr result (λ stop. stops self.old now block event stop self.new) };
}
