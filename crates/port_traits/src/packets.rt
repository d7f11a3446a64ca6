//! The ports of a node: datagrams, Ethernet frames, network frames, and the moments of a clock. Each port has, as
//! meanings, a count of faults that never falls and, where the object tells them, what waits, what it was given, and how
//! often it was asked for what waits. A call takes no memory but what the object itself keeps.

ghost use Rattle.std.specs.Prelude.{ℕ, List, ◌≡◌, ◌≤◌, [], ◌∷◌, drop, option_map, IfOk, OnOk, OnErr, IfSome};
ghost use Rattle.std.specs.declared.option.Option.{Option};
ghost use Rattle.wire_base.specs.Causes.{HasCause};
ghost use Rattle.port_traits.specs.Packets.{Gains, Asks, TellsFirst, arrived, cut_datagram, came, cut_frame, lowered, cut_lower, Moments, moment, passed};

use wire_base::{Bytes, Failed, Sequence};

/// A UDP payload and the IPv4 address of its other end, as a number: 127.0.0.1 is 0x7f000001.
#[derive(Drop)]
pub struct Datagram {
    pub peer: u32,
    pub bytes: Bytes,
}

/// A PPP frame of a session, from its protocol field on.
#[derive(Drop)]
pub struct LowerFrame {
    pub session: u16,
    pub frame: Bytes,
}

/// Datagrams in the order in which they come or go.
pub type Datagrams = Sequence<Datagram>;

/// Ethernet frames in the order in which they come or go.
pub type Frames = Sequence<Bytes>;

/// PPP frames of sessions in the order in which they come or go.
pub type LowerFrames = Sequence<LowerFrame>;

/// A datagram that came: its sender's IPv4 address, and how many bytes of it stand at the front of the buffer.
#[derive(Clone, Copy, PartialEq, Eq)]
pub struct Arrived {
    pub peer: u32,
    pub len: usize,
}

/// A PPP frame that came: its session, and how many bytes of it stand at the front of the buffer.
#[derive(Clone, Copy, PartialEq, Eq)]
pub struct Lowered {
    pub session: u16,
    pub len: usize,
}

/// UDP datagrams to and from other ends, which all have this end's port.
pub trait Link {
    ghost use Rattle.port_traits.specs.declared.packets.Datagram.{Datagram};

    /// The datagrams that wait, where the link tells them.
    ghost waiting: { Self → Option (List Datagram) } = { λ _. Option.None };

    /// The datagrams that it was given, where it tells them.
    ghost given: { Self → Option (List Datagram) } = { λ _. Option.None };

    /// How often `recv` was called, whatever it answered, where the port tells it.
    ghost asked: { Self → Option ℕ } = { λ _. Option.None };

    /// How often it failed.
    ghost faults: { Self → ℕ };

    /// Takes the first datagram that waits, cut to 2,048 bytes. It answers `None` exactly where nothing waits, on a link
    /// that tells what waits.
    fn recv(&mut self, buf: &mut [u8; 2048]) -> Result<Option<Arrived>, Failed>
        ensures bound { IfOk result (λ got. IfSome got (λ a. a.len ≤ 2048)) }
        ensures first { IfOk result (λ got. TellsFirst cut_datagram (waiting self.old) (arrived got buf.new)) }
        ensures left { OnOk result (waiting self.new ≡ option_map (drop 1) (waiting self.old)) }
        ensures failed { OnErr result (waiting self.new ≡ waiting self.old) }
        ensures kept { given self.new ≡ given self.old }
        ensures asked { Asks (asked self.old) (asked self.new) }
        ensures cause { HasCause (faults self.old) (faults self.new) result };

    /// Sends a datagram to the end of an address.
    fn send(&mut self, peer: u32, bytes: &[u8]) -> Result<(), Failed>
        ensures sent { OnOk result (Gains (given self.old) (given self.new) (record { peer = peer; bytes = bytes.now } ∷ [])) }
        ensures failed { OnErr result (Gains (given self.old) (given self.new) []) }
        ensures kept { waiting self.new ≡ waiting self.old }
        ensures asked { asked self.new ≡ asked self.old }
        ensures cause { HasCause (faults self.old) (faults self.new) result };
}

/// Ethernet frames, from the destination address on.
pub trait Ether {
    /// The frames that wait, where the port tells them.
    ghost waiting: { Self → Option (List (List ℕ)) } = { λ _. Option.None };

    /// The frames that it was given, where it tells them.
    ghost given: { Self → Option (List (List ℕ)) } = { λ _. Option.None };

    /// How often `recv` was called, whatever it answered, where the port tells it.
    ghost asked: { Self → Option ℕ } = { λ _. Option.None };

    /// How often it failed.
    ghost faults: { Self → ℕ };

    /// Takes the first frame that waits, cut to 2,048 bytes. It answers `None` exactly where nothing waits, on a port that
    /// tells what waits.
    fn recv(&mut self, buf: &mut [u8; 2048]) -> Result<Option<usize>, Failed>
        ensures bound { IfOk result (λ got. IfSome got (λ len. len ≤ 2048)) }
        ensures first { IfOk result (λ got. TellsFirst cut_frame (waiting self.old) (came got buf.new)) }
        ensures left { OnOk result (waiting self.new ≡ option_map (drop 1) (waiting self.old)) }
        ensures failed { OnErr result (waiting self.new ≡ waiting self.old) }
        ensures kept { given self.new ≡ given self.old }
        ensures asked { Asks (asked self.old) (asked self.new) }
        ensures cause { HasCause (faults self.old) (faults self.new) result };

    /// Sends a frame.
    fn send(&mut self, frame: &[u8]) -> Result<(), Failed>
        ensures sent { OnOk result (Gains (given self.old) (given self.new) (frame.now ∷ [])) }
        ensures failed { OnErr result (Gains (given self.old) (given self.new) []) }
        ensures kept { waiting self.new ≡ waiting self.old }
        ensures asked { asked self.new ≡ asked self.old }
        ensures cause { HasCause (faults self.old) (faults self.new) result };
}

/// PPP frames of sessions, on the side of the network.
pub trait Uplink {
    ghost use Rattle.port_traits.specs.declared.packets.LowerFrame.{LowerFrame};

    /// The frames that wait, where the port tells them.
    ghost waiting: { Self → Option (List LowerFrame) } = { λ _. Option.None };

    /// The frames that it was given, where it tells them.
    ghost given: { Self → Option (List LowerFrame) } = { λ _. Option.None };

    /// How often `recv` was called, whatever it answered, where the port tells it.
    ghost asked: { Self → Option ℕ } = { λ _. Option.None };

    /// How often it failed.
    ghost faults: { Self → ℕ };

    /// Takes the first frame that waits, cut to 2,048 bytes. It answers `None` exactly where nothing waits, on a port that
    /// tells what waits.
    fn recv(&mut self, buf: &mut [u8; 2048]) -> Result<Option<Lowered>, Failed>
        ensures bound { IfOk result (λ got. IfSome got (λ l. l.len ≤ 2048)) }
        ensures first { IfOk result (λ got. TellsFirst cut_lower (waiting self.old) (lowered got buf.new)) }
        ensures left { OnOk result (waiting self.new ≡ option_map (drop 1) (waiting self.old)) }
        ensures failed { OnErr result (waiting self.new ≡ waiting self.old) }
        ensures kept { given self.new ≡ given self.old }
        ensures asked { Asks (asked self.old) (asked self.new) }
        ensures cause { HasCause (faults self.old) (faults self.new) result };

    /// Sends a frame of a session.
    fn send(&mut self, session: u16, frame: &[u8]) -> Result<(), Failed>
        ensures sent { OnOk result (Gains (given self.old) (given self.new) (record { session = session; frame = frame.now } ∷ [])) }
        ensures failed { OnErr result (Gains (given self.old) (given self.new) []) }
        ensures kept { waiting self.new ≡ waiting self.old }
        ensures asked { asked self.new ≡ asked self.old }
        ensures cause { HasCause (faults self.old) (faults self.new) result };
}

/// Moments in milliseconds, which never fall.
pub trait Clock {
    /// The moments that it will give, where it tells them.
    ghost gives: { Self → Option Moments } = { λ _. Option.None };

    /// The moment that it gave last, or 0.
    ghost last: { Self → ℕ };

    /// The next moment.
    fn now(&mut self) -> u64
        ensures told { IfSome (gives self.old) (λ moments. result ≡ moment moments) }
        ensures next { gives self.new ≡ option_map passed (gives self.old) }
        ensures rises { last self.old ≤ result }
        ensures last { last self.new ≡ result };
}
