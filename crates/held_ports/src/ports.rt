//! What is around a node's end.

use port_events::{Event, TurnFault};

/// All ports of a node, its clock and its generator. Each call touches one of them.
///
/// A fault of a port is told only where the count of that port rose, and the other counts stay.
pub trait Ports {
    ghost use Rattle.std.specs.Prelude.{◌≡◌, [], ◌∷◌, IfOk, OnOk, OnErr, IfErr};
    ghost use Rattle.port_events.specs.declared.end.Out.TheVariants as outs;
    ghost use Rattle.port_events.specs.declared.giving.TurnFault.TheVariants as faults;
    ghost use Rattle.port_events.specs.Giving.{Blames, IsAround};
    ghost use Rattle.held_ports.specs.Around.{Around, PortCounts, ReadsClock, DrawsBlock, AsksLink, AsksEther, AsksUplink, LinkFails, EtherFails, UplinkFails, Gives};

    /// What they tell.
    ghost around: { Self → Around };

    /// How often each port failed.
    ghost counts: { Self → PortCounts };

    /// The next moment of the clock, in milliseconds.
    fn moment(&mut self) -> u64
        ensures read { ReadsClock result (around self.old) (around self.new) }
        ensures counts { counts self.new ≡ counts self.old };

    /// The next 16 bytes of the generator.
    fn block(&mut self) -> [u8; 16]
        ensures drawn { DrawsBlock result (around self.old) (around self.new) }
        ensures counts { counts self.new ≡ counts self.old };

    /// The datagram that waits, cut to 2,048 bytes, as an event.
    fn next_datagram<Stop>(&mut self) -> Result<Option<Event>, TurnFault<Stop>>
        ensures taken { IfOk result (λ got. AsksLink got (around self.old) (around self.new)) }
        ensures failed { IfErr result (λ fault. LinkFails fault (around self.old) (around self.new)) }
        ensures fault { IfErr result IsAround }
        ensures cause { Blames (counts self.old).link (counts self.new).link (counts self.old).ether (counts self.new).ether (counts self.old).up (counts self.new).up result };

    /// The Ethernet frame that waits, cut to 2,048 bytes, as an event.
    fn next_frame<Stop>(&mut self) -> Result<Option<Event>, TurnFault<Stop>>
        ensures taken { IfOk result (λ got. AsksEther got (around self.old) (around self.new)) }
        ensures failed { IfErr result (λ fault. EtherFails fault (around self.old) (around self.new)) }
        ensures fault { IfErr result IsAround }
        ensures cause { Blames (counts self.old).link (counts self.new).link (counts self.old).ether (counts self.new).ether (counts self.old).up (counts self.new).up result };

    /// The network frame that waits, cut to 2,048 bytes, as an event.
    fn next_lower<Stop>(&mut self) -> Result<Option<Event>, TurnFault<Stop>>
        ensures taken { IfOk result (λ got. AsksUplink got (around self.old) (around self.new)) }
        ensures failed { IfErr result (λ fault. UplinkFails fault (around self.old) (around self.new)) }
        ensures fault { IfErr result IsAround }
        ensures cause { Blames (counts self.old).link (counts self.new).link (counts self.old).ether (counts self.new).ether (counts self.old).up (counts self.new).up result };

    /// Sends a datagram to the end of an IPv4 address.
    fn send<Stop>(&mut self, peer: u32, bytes: &[u8]) -> Result<(), TurnFault<Stop>>
        ensures ok { OnOk result (Gives (outs.Send peer bytes.now ∷ []) (around self.old) (around self.new)) }
        ensures err { OnErr result (Gives [] (around self.old) (around self.new)) }
        ensures fault { IfErr result (λ fault. fault ≡ faults.LinkFault) }
        ensures cause { Blames (counts self.old).link (counts self.new).link (counts self.old).ether (counts self.new).ether (counts self.old).up (counts self.new).up result };

    /// Sends an Ethernet frame, from the destination address on.
    fn send_frame<Stop>(&mut self, bytes: &[u8]) -> Result<(), TurnFault<Stop>>
        ensures ok { OnOk result (Gives (outs.Ether bytes.now ∷ []) (around self.old) (around self.new)) }
        ensures err { OnErr result (Gives [] (around self.old) (around self.new)) }
        ensures fault { IfErr result (λ fault. fault ≡ faults.EtherFault) }
        ensures cause { Blames (counts self.old).link (counts self.new).link (counts self.old).ether (counts self.new).ether (counts self.old).up (counts self.new).up result };

    /// Sends a PPP frame of a session, from its protocol field on, to the network.
    fn send_up<Stop>(&mut self, session: u16, frame: &[u8]) -> Result<(), TurnFault<Stop>>
        ensures ok { OnOk result (Gives (outs.Up session frame.now ∷ []) (around self.old) (around self.new)) }
        ensures err { OnErr result (Gives [] (around self.old) (around self.new)) }
        ensures fault { IfErr result (λ fault. fault ≡ faults.UplinkFault) }
        ensures cause { Blames (counts self.old).link (counts self.new).link (counts self.old).ether (counts self.new).ether (counts self.old).up (counts self.new).up result };
}
