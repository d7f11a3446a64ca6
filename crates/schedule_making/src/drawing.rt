//! Lines that are drawn: of the LAC, node 1, and the LNS, node 2.

ghost use Rattle.std.specs.Prelude.{◌≡◌, IfOk, Some};
ghost use Rattle.schedule_making.specs.Drawing.{next_state, deliver_of, drawn_deliver, drawn_ring, drawn_session, drawn_frame, drawn_data, drawn_down, drawn_hang, drawn_node, drawn_tick, drawn_crash, drawn_start, drawn_kind, drawn_line};

use crate::draws::Draws;
use schedule_text::Line;
use std::alloc::Global;
use wire_base::{Bytes, NoMemory};

/// The delivery of a packet, where that is the number of one.
fn delivery(packet: u64) -> Option<Line>
    ensures { result ≡ deliver_of packet }
{
    if packet < 1 || u64::from(u32::MAX) < packet {
        return None;
    }
    Some(Line::Deliver {
        packet: packet as u32,
    })
}

impl Draws {
    /// The delivery of one of the last twelve packets, of so many.
    #[tactic(auto, unfolding(crate::specs::Drawing::drawn_deliver))]
    fn deliver(&mut self, packets: u64) -> Option<Line>
        ensures { drawn_deliver packets self.old ≡ record { line = result; state = self.new } }
    {
        let back = self.below(packets.min(12).max(1));
        delivery(packets - back)
    }

    /// One of the first 200 sessions.
    fn session(&mut self) -> u16
        ensures drawn { result ≡ drawn_session self.old }
        ensures state { self.new ≡ next_state self.old }
    {
        1 + self.below(200) as u16
    }

    /// One of both nodes.
    fn node(&mut self) -> u8
        ensures drawn { result ≡ drawn_node self.old }
        ensures state { self.new ≡ next_state self.old }
    {
        1 + self.below(2) as u8
    }

    /// A PPP frame of IPv4 with two bytes.
    fn frame(&mut self, alloc: Global) -> Result<Bytes, NoMemory>
        ensures drawn { IfOk result (λ frame. frame ≡ drawn_frame self.old) }
        ensures state { self.new ≡ next_state self.old }
    {
        let number = self.below(65536);
        Bytes::from_slice(
            alloc,
            &[0x00, 0x21, (number / 256) as u8, (number % 256) as u8],
        )
    }

    /// A subscriber calls at one of 50 ports.
    #[tactic(auto, unfolding(crate::specs::Drawing::drawn_ring))]
    fn ring(&mut self) -> Line
        ensures { drawn_ring self.old ≡ record { line = Some result; state = self.new } }
    {
        let port = 1 + self.below(50) as u16;
        Line::Ring { node: 1, port }
    }

    /// A subscriber sends a frame.
    #[tactic(auto, unfolding(crate::specs::Drawing::drawn_data))]
    fn send_up(&mut self, alloc: Global) -> Result<Line, NoMemory>
        ensures { IfOk result (λ line. drawn_data self.old ≡ record { line = Some line; state = self.new }) }
    {
        let session = self.session();
        let frame = self.frame(alloc)?;
        Ok(Line::FromSub {
            node: 1,
            session,
            frame,
        })
    }

    /// The network sends a frame.
    #[tactic(auto, unfolding(crate::specs::Drawing::drawn_down))]
    fn send_down(&mut self, alloc: Global) -> Result<Line, NoMemory>
        ensures { IfOk result (λ line. drawn_down self.old ≡ record { line = Some line; state = self.new }) }
    {
        let session = self.session();
        let frame = self.frame(alloc)?;
        Ok(Line::Down {
            node: 2,
            session,
            frame,
        })
    }

    /// A subscriber leaves.
    #[tactic(auto, unfolding(crate::specs::Drawing::drawn_hang))]
    fn hang(&mut self) -> Line
        ensures { drawn_hang self.old ≡ record { line = Some result; state = self.new } }
    {
        let session = self.session();
        Line::Hang { node: 1, session }
    }

    /// A clock goes on by up to 3 seconds.
    #[tactic(auto, unfolding(crate::specs::Drawing::drawn_tick))]
    fn tick(&mut self) -> Line
        ensures { drawn_tick self.old ≡ record { line = Some result; state = self.new } }
    {
        let node = self.node();
        let milliseconds = 1 + self.below(3000) as u32;
        Line::Tick { node, milliseconds }
    }

    /// A node crashes.
    #[tactic(auto, unfolding(crate::specs::Drawing::drawn_crash))]
    fn crash(&mut self) -> Line
        ensures { drawn_crash self.old ≡ record { line = Some result; state = self.new } }
    {
        let node = self.node();
        Line::Crash { node }
    }

    /// A node starts again.
    #[tactic(auto, unfolding(crate::specs::Drawing::drawn_start))]
    fn start(&mut self) -> Line
        ensures { drawn_start self.old ≡ record { line = Some result; state = self.new } }
    {
        let node = self.node();
        Line::Start { node }
    }

    /// A line of the kind that was drawn, of a hundred, where it is one.
    #[tactic(auto, unfolding(crate::specs::Drawing::drawn_kind))]
    fn line_of(&mut self, alloc: Global, packets: u64, kind: u64) -> Result<Option<Line>, NoMemory>
        ensures { IfOk result (λ line. drawn_kind packets kind self.old ≡ record { line = line; state = self.new }) }
    {
        if kind < 60 {
            Ok(self.deliver(packets))
        } else if kind < 68 {
            Ok(Some(self.ring()))
        } else if kind < 76 {
            Ok(Some(self.send_up(alloc)?))
        } else if kind < 84 {
            Ok(Some(self.send_down(alloc)?))
        } else if kind < 88 {
            Ok(Some(self.hang()))
        } else if kind < 96 {
            Ok(Some(self.tick()))
        } else if kind < 98 {
            Ok(Some(self.crash()))
        } else {
            Ok(Some(self.start()))
        }
    }

    /// The next line, where what is drawn is one, as so many packets were sent.
    pub(crate) fn line(&mut self, alloc: Global, packets: u64) -> Result<Option<Line>, NoMemory>
        ensures { IfOk result (λ line. drawn_line packets self.old ≡ record { line = line; state = self.new }) }
    {
        let kind = self.below(100);
        self.line_of(alloc, packets, kind)
    }
}
