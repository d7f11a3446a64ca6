//! Openings that are declined (RFC 2661 section 7.2.1), by a StopCCN of no tunnel of this end's.

ghost use Rattle.std.specs.Prelude.{◌≡◌, IfOk};
ghost use Rattle.end_model.specs.End.{against_opening, against_said, declined};
ghost use Rattle.end_core.specs.Gives.{GivesStep, CommitsStep};

use crate::end::{End, Given};
use control_message::{Message, Opening};
use end_model::{ControlOrigin, Declined, Move, Origin, Out};
use message_reading::{
    Reason, Said, decline_bytes, fault_reason, is_of_version, lacks_secret, no_id, no_secret,
    no_tunnel, other_version,
};
use std::alloc::Global;
use step_ledger::{Ledger, StepFault};
use tunnel_table::{Moves, Outputs};
use wire_base::NoMemory;

impl End {
    /// What stands against an SCCRQ that would open a tunnel, the first that counts.
    #[tactic(auto, unfolding(end_model::specs::End::against_opening))]
    fn against_opening(&self, opening: &Opening) -> Option<Reason>
        ensures { result ≡ against_opening self.now opening.now }
    {
        if !is_of_version(opening) {
            return Some(other_version());
        }
        if self.has_all_tunnels() {
            return Some(no_tunnel());
        }
        if lacks_secret(&self.config.secret, &opening.challenge) {
            return Some(no_secret());
        }
        let mut ids = self.tunnel_ids;
        match ids.take() {
            Ok(_) => None,
            Err(_) => Some(no_id()),
        }
    }

    /// What stands against what a message says that would open a tunnel, the first that counts.
    pub(crate) fn against_said(&self, said: &Said) -> Option<Reason>
        ensures { result ≡ against_said self.now said.now.closing said.now.message }
    {
        match &said.message {
            Ok(Message::Sccrq(opening)) => self.against_opening(opening),
            Ok(_) => None,
            Err(_) => match &said.closing {
                None => None,
                Some(fault) => Some(fault_reason(fault.cause)),
            },
        }
    }

    /// What the step gives that answers an opening by a StopCCN of no tunnel of this end's, to the tunnel id that it told.
    #[tactic(auto, unfolding(end_model::specs::End::declined))]
    fn declined(&self, peer: u32, remote: u16, nr: u16, reason: &Reason) -> Result<Given, NoMemory>
        ensures { IfOk result (λ g. declined self.now peer remote nr reason.now ≡ record { end = self.now; outputs = g.outputs; moves = g.moves }) }
    {
        let bytes = decline_bytes(self.alloc, remote, nr, reason)?;
        let mut outputs = Outputs::new(self.alloc);
        outputs.push(Out::Cause {
            cause: reason.cause,
        })?;
        outputs.push(Out::Send {
            peer,
            bytes,
            origin: Origin::Control(ControlOrigin {
                tunnel: 0,
                ns: 0,
                nr: u64::from(nr),
                empty: false,
            }),
        })?;
        let mut moves = Moves::new(self.alloc);
        moves.push(Move::Declined(Declined {
            peer,
            remote,
            nr,
            result: reason.code,
            error: reason.error,
        }))?;
        Ok(Given { outputs, moves })
    }

    /// Answers an opening by a StopCCN of no tunnel of this end's, to the tunnel id that it told: nothing changes.
    pub(crate) fn decline<L: Ledger>(
        &mut self,
        ledger: &mut L,
        peer: u32,
        remote: u16,
        nr: u16,
        reason: &Reason,
    ) -> Result<Given, StepFault<L::Stop>>
        requires ledger { L.can_commit ledger.old }
        ensures given { GivesStep result (declined self.old peer remote nr reason.now) self.old self.new }
        ensures committed { CommitsStep L.commits_to result (declined self.old peer remote nr reason.now) self.old ledger.old ledger.new }
        ensures role { self.new.role ≡ self.old.role }
    {
        let given = self.declined(peer, remote, nr, reason)?;
        self.give(ledger, given)
    }
}
