//! Control messages of recovery tunnels, and attempts of peers at the recovery of a tunnel (RFC 4951 section 4.3).

ghost use Rattle.std.specs.Prelude.{◌≡◌, IsSome, IfSome};
ghost use Rattle.id_table.specs.Ids.{at};
ghost use Rattle.id_source.specs.Spaces.{takes_id};
ghost use Rattle.control_message.specs.declared.message.Message.{Message as Says};
ghost use Rattle.end_model.specs.Reading.{message_in};
ghost use Rattle.end_model.specs.End.{env_of, in_recovery, recovers, recovers_by, recovers_tunnel};
ghost use Rattle.tunnel_table.specs.Cores.{tunnel_of};
ghost use Rattle.end_core.specs.Gives.{GivesStep, CommitsStep};
ghost use Rattle.end_core.specs.Recovering.{found_at, recovers_found, freezes_at};

use crate::end::{End, Given};
use control_message::{Message, Opening, Recovery};
use end_model::{Mode, Role};
use l2tp_datagram::Body;
use l2tp_header::Header;
use message_reading::{
    is_of_version, lacks_secret, no_id, no_recovery, no_secret, other_version, read_body,
};
use recovery_tunnel::{Judged, judge};
use std::alloc::Global;
use step_ledger::{Ledger, StepFault};
use tunnel_fsm::TunnelState;
use tunnel_table::{Task, TunnelCore};
use wire_base::Why;

/// What counts of a tunnel whose recovery a peer asks for.
#[derive(Clone, Copy)]
pub struct Found {
    /// Whether it is established, goes to that peer and has the remote id that the peer names.
    pub recoverable: bool,
    /// Whether this end is a LAC and attempts the same.
    pub tied: bool,
    /// The greatest draw number that its recoveries had.
    pub mark: u32,
}

/// What counts of this tunnel for a peer that names its own end by this id.
fn found_of(role: Role, core: &TunnelCore, peer: u32, sender: u32) -> Found
    ensures { result ≡ found_at role peer sender (tunnel_of core.now) }
{
    let control = core.control();
    let open = matches!(control.state, TunnelState::Established);
    Found {
        recoverable: open && control.peer == peer && u32::from(control.remote) == sender,
        tied: matches!(role, Role::Lac) && matches!(core.mode(), Mode::Restored),
        mark: control.mark,
    }
}

impl End {
    /// A control message for the recovery tunnel of the tunnel with this id, if there is one.
    #[tactic(auto, unfolding(end_model::specs::End::in_recovery))]
    pub(crate) fn run_recovery<L: Ledger>(
        &mut self,
        ledger: &mut L,
        moment: u64,
        block: [u8; 16],
        header: &Header,
        body: &Body<'_>,
        id: u32,
    ) -> Result<Given, StepFault<L::Stop>>
        requires ledger { L.can_commit ledger.old }
        ensures given { GivesStep result (in_recovery self.old (env_of self.old moment block) header.now body.now id (at self.old.tunnels id)) self.old self.new }
        ensures committed { CommitsStep L.commits_to result (in_recovery self.old (env_of self.old moment block) header.now body.now id (at self.old.tunnels id)) self.old ledger.old ledger.new }
        ensures role { self.new.role ≡ self.old.role }
    {
        let first = Given::nothing(self.alloc);
        let task = Task::Recovery { header, body };
        self.run_task(ledger, moment, block, &task, id, first)
    }

    /// An attempt at the recovery of the tunnel with this id is answered, where a tunnel id and a draw number are left.
    #[tactic(auto, unfolding(end_model::specs::End::freezes))]
    fn freeze<L: Ledger>(
        &mut self,
        ledger: &mut L,
        moment: u64,
        block: [u8; 16],
        peer: u32,
        nr: u16,
        opening: &Opening,
        id: u32,
    ) -> Result<Given, StepFault<L::Stop>>
        requires ledger { L.can_commit ledger.old }
        requires there { IsSome (at self.old.tunnels id) }
        ensures given { GivesStep result (freezes_at self.old (env_of self.old moment block) peer nr opening.now id (at self.old.tunnels id)) self.old self.new }
        ensures committed { CommitsStep L.commits_to result (freezes_at self.old (env_of self.old moment block) peer nr opening.now id (at self.old.tunnels id)) self.old ledger.old ledger.new }
        ensures role { self.new.role ≡ self.old.role }
    {
        let (mut tunnels, mut recoveries) = (self.tunnel_ids, self.recovery_ids);
        let (Ok(local), Ok(draw)) = (tunnels.take(), recoveries.take()) else {
            return self.decline(ledger, peer, opening.tunnel, nr, &no_id());
        };
        let first = Given::nothing(self.alloc);
        let task = Task::Freeze {
            opening,
            local: local as u16,
            draw,
        };
        self.run_task(ledger, moment, block, &task, id, first)
    }

    /// An attempt of a peer at the recovery of the tunnel with this id, of which this counts.
    fn recover_found<L: Ledger>(
        &mut self,
        ledger: &mut L,
        moment: u64,
        block: [u8; 16],
        peer: u32,
        nr: u16,
        opening: &Opening,
        id: u32,
        found: Found,
    ) -> Result<Given, StepFault<L::Stop>>
        requires ledger { L.can_commit ledger.old }
        requires there { IsSome (at self.old.tunnels id) }
        ensures given { GivesStep result (recovers_found self.old (env_of self.old moment block) peer nr opening.now id (at self.old.tunnels id) found) self.old self.new }
        ensures committed { CommitsStep L.commits_to result (recovers_found self.old (env_of self.old moment block) peer nr opening.now id (at self.old.tunnels id) found) self.old ledger.old ledger.new }
        ensures role { self.new.role ≡ self.old.role }
    {
        if !found.recoverable {
            return self.decline(ledger, peer, opening.tunnel, nr, &no_recovery());
        }
        if found.tied {
            return self.drop_with(ledger, Why::Tie);
        }
        let draw = opening.attempt.unwrap_or(0);
        if matches!(judge(found.mark, draw, false), Judged::Older) {
            return self.drop_with(ledger, Why::Mark);
        }
        if lacks_secret(&self.config.secret, &opening.challenge) {
            return self.decline(ledger, peer, opening.tunnel, nr, &no_secret());
        }
        self.freeze(ledger, moment, block, peer, nr, opening, id)
    }

    /// An attempt of a peer at the recovery of the tunnel with these ids of both ends.
    #[tactic(auto, using(tunnel_table::specs::Tunnels::at_tunnels), unfolding(end_model::specs::End::recovers_tunnel))]
    fn recover_tunnel<L: Ledger>(
        &mut self,
        ledger: &mut L,
        moment: u64,
        block: [u8; 16],
        peer: u32,
        nr: u16,
        opening: &Opening,
        named: Recovery,
    ) -> Result<Given, StepFault<L::Stop>>
        requires ledger { L.can_commit ledger.old }
        ensures given { GivesStep result (recovers_tunnel self.old (env_of self.old moment block) peer nr opening.now named.receiver (at self.old.tunnels named.receiver) named.sender) self.old self.new }
        ensures committed { CommitsStep L.commits_to result (recovers_tunnel self.old (env_of self.old moment block) peer nr opening.now named.receiver (at self.old.tunnels named.receiver) named.sender) self.old ledger.old ledger.new }
        ensures role { self.new.role ≡ self.old.role }
    {
        let id = named.receiver;
        let Some(core) = self.tunnel(id) else {
            return self.decline(ledger, peer, opening.tunnel, nr, &no_recovery());
        };
        let found = found_of(self.role, core, peer, named.sender);
        self.recover_found(ledger, moment, block, peer, nr, opening, id, found)
    }

    /// An SCCRQ that asks for a recovery.
    #[tactic(auto, unfolding(end_model::specs::End::recovers_by))]
    fn recover_by<L: Ledger>(
        &mut self,
        ledger: &mut L,
        moment: u64,
        block: [u8; 16],
        peer: u32,
        nr: u16,
        opening: &Opening,
    ) -> Result<Given, StepFault<L::Stop>>
        requires ledger { L.can_commit ledger.old }
        ensures given { GivesStep result (recovers_by self.old (env_of self.old moment block) peer nr opening.now opening.now.recovery) self.old self.new }
        ensures committed { CommitsStep L.commits_to result (recovers_by self.old (env_of self.old moment block) peer nr opening.now opening.now.recovery) self.old ledger.old ledger.new }
        ensures role { self.new.role ≡ self.old.role }
    {
        let Some(named) = opening.recovery else {
            return self.decline(ledger, peer, opening.tunnel, nr, &no_recovery());
        };
        if !is_of_version(opening) {
            return self.decline(ledger, peer, opening.tunnel, nr, &other_version());
        }
        self.recover_tunnel(ledger, moment, block, peer, nr, opening, named)
    }

    /// An SCCRQ that asks for a recovery which isn't answered yet.
    #[tactic(auto, unfolding(end_model::specs::End::recovers))]
    pub(crate) fn recover<L: Ledger>(
        &mut self,
        ledger: &mut L,
        moment: u64,
        block: [u8; 16],
        peer: u32,
        nr: u16,
        body: &Body<'_>,
    ) -> Result<Given, StepFault<L::Stop>>
        requires ledger { L.can_commit ledger.old }
        ensures given { GivesStep result (recovers self.old (env_of self.old moment block) peer nr (message_in body.now)) self.old self.new }
        ensures committed { CommitsStep L.commits_to result (recovers self.old (env_of self.old moment block) peer nr (message_in body.now)) self.old ledger.old ledger.new }
        ensures role { self.new.role ≡ self.old.role }
    {
        let said = read_body(self.alloc, body)?;
        match &said.message {
            Ok(Message::Sccrq(opening)) => {
                self.recover_by(ledger, moment, block, peer, nr, opening)
            }
            _ => self.drop_with(ledger, Why::Tunnel),
        }
    }
}
