//! Frames that come in calls: they are handed up, and an LNS's LCP end hears those of LCP.

ghost use Rattle.std.specs.Prelude.{◌≡◌, ◌∷◌, [], IfOk};
ghost use Rattle.wire_base.specs.declared.letter.Side.TheVariants as side;
ghost use Rattle.end_model.specs.declared.out.Out.TheVariants as outs;
ghost use Rattle.end_model.specs.declared.moves.Move.TheVariants as move;
ghost use Rattle.session_looks.specs.Frames.{Upward};
ghost use Rattle.end_model.specs.End.{env_of, then_heard, handed, hands_up};
ghost use Rattle.end_core.specs.Gives.{GivesStep, CommitsStep, behind_given};

use crate::end::{End, Given};
use call_places::look_at;
use end_model::{Event, FrameUp, Move, Out};
use l2tp_header::Header;
use session_looks::{Way, carry_look, frame_of};
use std::alloc::Global;
use step_ledger::{Ledger, StepFault};
use tunnel_table::{Moves, Outputs};
use wire_base::{Bytes, NoMemory, Side};

/// A frame is handed up, which is told.
fn frame_up(alloc: Global, session: u16, way: &Way, frame: &[u8]) -> Result<Given, NoMemory>
    ensures { IfOk result (λ g. g ≡ record { outputs = outs.Up session way.now.side frame.now ∷ []; moves = move.FrameUp (record { tunnel = way.now.tunnel; peer = way.now.peer; session = session; side = way.now.side; frame = frame.now }) ∷ [] }) }
{
    let mut outputs = Outputs::new(alloc);
    outputs.push(Out::Up {
        session,
        side: way.side,
        frame: Bytes::from_slice(alloc, frame)?,
    })?;
    let mut moves = Moves::new(alloc);
    moves.push(Move::FrameUp(FrameUp {
        tunnel: way.tunnel,
        peer: way.peer,
        session,
        side: way.side,
        frame: Bytes::from_slice(alloc, frame)?,
    }))?;
    Ok(Given { outputs, moves })
}

impl End {
    /// The LCP end of a call hears a packet, in a frame from its protocol field on, behind what was given before.
    #[tactic(auto, unfolding(end_model::specs::End::then_heard))]
    fn hear_lcp<L: Ledger>(
        &mut self,
        ledger: &mut L,
        moment: u64,
        block: [u8; 16],
        session: u16,
        tunnel: u16,
        frame: &[u8],
        first: Given,
    ) -> Result<Given, StepFault<L::Stop>>
        requires ledger { L.can_commit ledger.old }
        ensures given { GivesStep result (behind_given first (then_heard self.old (env_of self.old moment block) tunnel session frame.now side.Lcp)) self.old self.new }
        ensures committed { CommitsStep L.commits_to result (behind_given first (then_heard self.old (env_of self.old moment block) tunnel session frame.now side.Lcp)) self.old ledger.old ledger.new }
        ensures role { self.new.role ≡ self.old.role }
    {
        let packet = Bytes::from_slice(self.alloc, frame)?;
        let event = Event::Lcp { session, packet };
        self.run_behind(ledger, moment, block, &event, u32::from(tunnel), first)
    }

    /// Hands up a frame of a call that goes this way. One of LCP is heard by the call's LCP end in the same step.
    #[tactic(auto, unfolding(end_model::specs::End::handed, end_model::specs::End::then_heard))]
    fn hand<L: Ledger>(
        &mut self,
        ledger: &mut L,
        moment: u64,
        block: [u8; 16],
        session: u16,
        way: &Way,
        frame: &[u8],
    ) -> Result<Given, StepFault<L::Stop>>
        requires ledger { L.can_commit ledger.old }
        ensures given { GivesStep result (handed self.old (env_of self.old moment block) session (Upward way.now.tunnel way.now.peer way.now.side frame.now)) self.old self.new }
        ensures committed { CommitsStep L.commits_to result (handed self.old (env_of self.old moment block) session (Upward way.now.tunnel way.now.peer way.now.side frame.now)) self.old ledger.old ledger.new }
        ensures role { self.new.role ≡ self.old.role }
    {
        let first = frame_up(self.alloc, session, way, frame)?;
        match way.side {
            Side::Sub | Side::Net => self.give(ledger, first),
            Side::Lcp => self.hear_lcp(ledger, moment, block, session, way.tunnel, frame, first),
        }
    }

    /// A data message: its frame is handed up, or dropped, by what is seen of its session.
    #[tactic(auto, unfolding(end_model::specs::End::hands_up, end_model::specs::End::handed))]
    pub(crate) fn hand_up<L: Ledger>(
        &mut self,
        ledger: &mut L,
        moment: u64,
        block: [u8; 16],
        peer: u32,
        header: &Header,
        body: &[u8],
    ) -> Result<Given, StepFault<L::Stop>>
        requires ledger { L.can_commit ledger.old }
        ensures given { GivesStep result (hands_up self.old (env_of self.old moment block) peer header.now body.now) self.old self.new }
        ensures committed { CommitsStep L.commits_to result (hands_up self.old (env_of self.old moment block) peer header.now body.now) self.old ledger.old ledger.new }
        ensures role { self.new.role ≡ self.old.role }
    {
        let session = header.session;
        let frame = frame_of(body);
        let look = look_at(&self.calls, session);
        match carry_look(self.role, look, peer, header, frame) {
            Err(why) => self.drop_with(ledger, why),
            Ok(way) => self.hand(ledger, moment, block, session, &way, frame),
        }
    }
}
