//! An end with its tunnels: what becomes of an event, and what is seen of the calls.

ghost use Rattle.std.specs.Prelude.{◌≡◌, ◌≤◌, [], ◌∷◌, option_map, is_some, IsSome, IfOk, OnOk, OnErr};
ghost use Rattle.std.specs.Option.{option_copied};
ghost use Rattle.id_table.specs.Ids.{at, ids_of};
ghost use Rattle.l2tp_header.specs.Reading.{header_of};
ghost use Rattle.end_model.specs.End.{env_of, gives_only, after_new, in_new, has_all_tunnels, in_one_more, in_main, addressed, for_addressee, opens_or_declines, against_body, least_in, are_recovering, for_call, look_in, receives, new_end, is_not_closed};
ghost use Rattle.end_core.specs.Fits.{fits};
ghost use Rattle.end_core.specs.Saying.{IsSaidBy, IsControlEvent};
ghost use Rattle.end_core.specs.Sessions.{next_session, subscriber_at};
ghost use Rattle.tunnel_table.specs.Cores.{tunnel_of, HasId};
ghost use Rattle.end_model.specs.End.{drawing_of};
ghost use Rattle.step_ledger.specs.Committing.{Commits};
ghost use Rattle.step_records.specs.Leaving.{leaves};
ghost use Rattle.end_model.specs.Contents.{contents_of};
ghost use Rattle.end_core.specs.Gives.{GivesStep, CommitsStep, behind_given, given_in, in_task};

use crate::planning::{make_first, make_main, plan_first, plan_main};
use call_places::look_at;
use control_message::Message;
use end_model::{Addressee, CallPlace, Config, Event, Move, Out, Role};
use id_source::Ids;
use id_table::Table;
use l2tp_datagram::{Body, Datagram};
use l2tp_header::Header;
use message_reading::{next_of_peer, out_of_order, read_body};
use session_looks::{CellChanges, Look, header_why};
use std::alloc::Global;
use std::marker::Model;
use step_ledger::{Ledger, StepFault};
use step_records::commit_step;
use tunnel_fsm::TunnelState;
use tunnel_table::{Env, Moves, Outputs, Task, TunnelCore, TunnelTable};
use wire_base::{NoMemory, Sequence, Why};

/// The last tunnel id, the last session id, and the last number of a recovery.
pub(crate) const LAST_TUNNEL: u32 = 65_535;

pub(crate) const LAST_SESSION: u32 = 65_534;

pub(crate) const LAST_RECOVERY: u32 = 4_294_967_295;

/// How many live tunnels an end may have.
const MOST_TUNNELS: usize = 1024;

/// What a step gave.
#[derive(Drop)]
pub struct Given {
    /// What goes to the outside, in order.
    pub outputs: Outputs,
    /// What the step did, in order.
    pub moves: Moves,
}

/// An end of L2TP tunnels: a LAC or an LNS.
#[derive(Drop)]
pub struct End {
    pub(crate) alloc: Global,
    pub(crate) role: Role,
    pub(crate) config: Config,
    pub(crate) tunnel_ids: Ids,
    pub(crate) session_ids: Ids,
    pub(crate) recovery_ids: Ids,
    pub(crate) tunnels: TunnelTable,
    pub(crate) calls: Table<CallPlace>,
}

impl Model for End {
    ghost use Rattle.std.specs.Prelude.{◌≤◌};
    ghost use Rattle.end_model.specs.End.{End as Known};
    ghost use Rattle.tunnel_table.specs.Tunnels.{tunnels_of};

    ghost Value = { Known };

    ghost view = { λ e. record { role = e.role; config = e.config; tunnel_ids = e.tunnel_ids; session_ids = e.session_ids; recovery_ids = e.recovery_ids; tunnels = tunnels_of e.tunnels.entries; calls = e.calls.entries } };

    ghost invariant = { λ e. (e.tunnel_ids.last ≤ 65535) × (e.session_ids.last ≤ 65535) };
}

fn give_only(alloc: Global, out: Out) -> Result<Given, NoMemory>
    ensures { IfOk result (λ g. (g.outputs ≡ out ∷ []) × (g.moves ≡ [])) }
{
    let mut outputs = Outputs::new(alloc);
    outputs.push(out)?;
    Ok(Given {
        outputs,
        moves: Moves::new(alloc),
    })
}

impl End {
    /// An end without a tunnel. It takes no memory.
    pub fn new(alloc: Global, role: Role, config: Config) -> End
        ensures { result ≡ new_end role config }
    {
        End {
            alloc,
            role,
            config,
            tunnel_ids: Ids::new(LAST_TUNNEL),
            session_ids: Ids::new(LAST_SESSION),
            recovery_ids: Ids::new(LAST_RECOVERY),
            tunnels: TunnelTable::new(alloc),
            calls: Table::new(alloc),
        }
    }

    /// Which end it is.
    pub fn role(&self) -> Role
        ensures { result ≡ self.now.role }
    {
        self.role
    }

    /// The node's number, which its host name and its Ethernet address end with.
    pub fn number(&self) -> u8
        ensures { result ≡ self.now.config.number }
    {
        self.config.number
    }

    /// The address of the LNS to which a LAC opens its tunnels, an IPv4 address as a number.
    pub fn lns(&self) -> u32
        ensures { result ≡ self.now.config.lns }
    {
        self.config.lns
    }

    /// The tunnel with a local id.
    #[tactic(auto, using(tunnel_table::specs::Tunnels::at_tunnels))]
    pub fn tunnel(&self, id: u32) -> Option<&TunnelCore>
        ensures { option_map tunnel_of (option_copied result) ≡ at self.now.tunnels id }
    {
        self.tunnels.get(id)
    }

    /// The local ids of the tunnels, in order.
    #[tactic(auto, using(tunnel_table::specs::Tunnels::ids_tunnels))]
    pub fn tunnel_ids(&self, alloc: Global) -> Result<Sequence<u32>, NoMemory>
        ensures { IfOk result (λ ids. ids ≡ ids_of self.now.tunnels) }
    {
        self.tunnels.ids(alloc)
    }

    /// Whether the end has as many tunnels as it may.
    #[tactic(auto, using(tunnel_table::specs::Tunnels::length_tunnels))]
    pub(crate) fn has_all_tunnels(&self) -> bool
        ensures { result ≡ has_all_tunnels self.now.tunnels }
    {
        self.tunnels.len() >= MOST_TUNNELS
    }

    /// Whether a call with this session id is live.
    pub fn has_call(&self, session: u16) -> bool
        ensures { result ≡ is_some (at self.now.calls session) }
    {
        self.calls.contains(u32::from(session))
    }

    /// Whether a tunnel with this local id is live and isn't closed.
    #[tactic(auto, using(tunnel_table::specs::Tunnels::at_tunnels))]
    pub fn has_tunnel(&self, tunnel: u16) -> bool
        ensures { result ≡ is_not_closed (at self.now.tunnels tunnel) }
    {
        match self.tunnel(u32::from(tunnel)) {
            None => false,
            Some(core) => core.control().state != TunnelState::Closed,
        }
    }

    /// Why an event doesn't fit, where it names a call that isn't live, or a tunnel that isn't, or is closed.
    #[tactic(auto, unfolding(crate::specs::Fits::fits))]
    pub fn fits(&self, event: &Event) -> Option<Why>
        ensures { result ≡ fits self.now event.now }
    {
        match event {
            Event::Payload { session, .. }
            | Event::Lower { session, .. }
            | Event::Lcp { session, .. }
            | Event::Hang { session }
            | Event::DropCall { session } => {
                if self.has_call(*session) {
                    None
                } else {
                    Some(Why::Call)
                }
            }
            Event::CloseTunnel { tunnel } => {
                if self.has_tunnel(*tunnel) {
                    None
                } else {
                    Some(Why::Tunnel)
                }
            }
            Event::Datagram { .. }
            | Event::Ring { .. }
            | Event::Frame { .. }
            | Event::Admitted { .. }
            | Event::OpenTunnel
            | Event::Tick => None,
        }
    }

    /// The session id that is drawn next, None where none can be. It takes no memory.
    #[tactic(auto, unfolding(crate::specs::Sessions::next_session))]
    pub fn next_session(&self) -> Option<u16>
        ensures { result ≡ next_session self.now.session_ids }
    {
        let mut ids = self.session_ids;
        match ids.take() {
            Ok(session) => Some(session as u16),
            Err(_) => None,
        }
    }

    /// The six bytes of the subscriber of a session, None where no call is live under its id. It takes no memory.
    #[tactic(auto, using(tunnel_table::specs::Tunnels::at_tunnels), unfolding(crate::specs::Sessions::subscriber_at))]
    pub fn subscriber(&self, session: u16) -> Option<[u8; 6]>
        ensures { result ≡ subscriber_at self.now session }
    {
        let id = u32::from(session);
        let Some(place) = self.calls.get(id) else {
            return None;
        };
        let Some(core) = self.tunnel(u32::from(place.tunnel)) else {
            return None;
        };
        match core.calls().get(id) {
            Some(call) => Some(call.subscriber),
            None => None,
        }
    }

    /// What the data plane sees of a session: nothing, where no call is live under its id.
    pub fn look(&self, session: u16) -> Look
        ensures { result ≡ look_in (at self.now.calls session) }
    {
        look_at(&self.calls, session)
    }

    /// Commits what a step leaves that made these moves, if any, and drew no number.
    pub fn commit_moves<L: Ledger>(
        &self,
        ledger: &mut L,
        moves: &[Move],
    ) -> Result<(), StepFault<L::Stop>>
        requires { L.can_commit ledger.old }
        ensures { Commits L.commits_to result (leaves (drawing_of self.now) (drawing_of self.now) moves.now) ledger.old ledger.new }
    {
        let spaces = self.spaces();
        commit_step(self.alloc, ledger, &spaces, &spaces, moves)
    }

    /// The step gives this and changes nothing: what it leaves is committed first.
    pub(crate) fn give<L: Ledger>(
        &mut self,
        ledger: &mut L,
        given: Given,
    ) -> Result<Given, StepFault<L::Stop>>
        requires ledger { L.can_commit ledger.old }
        ensures given { GivesStep result (record { end = self.old; outputs = given.outputs; moves = given.moves }) self.old self.new }
        ensures committed { CommitsStep L.commits_to result (record { end = self.old; outputs = given.outputs; moves = given.moves }) self.old ledger.old ledger.new }
        ensures role { self.new.role ≡ self.old.role }
    {
        self.commit_moves(ledger, given.moves.as_slice())?;
        Ok(given)
    }

    /// The step gives one output and changes nothing.
    #[tactic(auto, unfolding(end_model::specs::End::gives_only))]
    pub fn only<L: Ledger>(&mut self, ledger: &mut L, out: Out) -> Result<Given, StepFault<L::Stop>>
        requires ledger { L.can_commit ledger.old }
        ensures given { GivesStep result (gives_only self.old out) self.old self.new }
        ensures committed { CommitsStep L.commits_to result (gives_only self.old out) self.old ledger.old ledger.new }
        ensures role { self.new.role ≡ self.old.role }
    {
        let given = give_only(self.alloc, out)?;
        self.give(ledger, given)
    }

    /// What comes is dropped, and nothing changes.
    pub fn drop_with<L: Ledger>(
        &mut self,
        ledger: &mut L,
        why: Why,
    ) -> Result<Given, StepFault<L::Stop>>
        requires ledger { L.can_commit ledger.old }
        ensures given { GivesStep result (gives_only self.old (Out.Drop why)) self.old self.new }
        ensures committed { CommitsStep L.commits_to result (gives_only self.old (Out.Drop why)) self.old ledger.old ledger.new }
        ensures role { self.new.role ≡ self.old.role }
    {
        self.only(ledger, Out::Drop { why })
    }

    /// What a step works in. It takes no memory.
    pub(crate) fn env(&self, moment: u64, block: [u8; 16]) -> Env
        ensures { result ≡ env_of self.now moment block }
    {
        Env {
            moment,
            block,
            tunnels: self.tunnel_ids,
            sessions: self.session_ids,
            recoveries: self.recovery_ids,
            outputs: Outputs::new(self.alloc),
            changes: CellChanges::new(self.alloc),
            moves: Moves::new(self.alloc),
        }
    }
}

impl Given {
    /// Nothing yet. It takes no memory.
    pub(crate) fn nothing(alloc: Global) -> Given
        ensures { result ≡ record { outputs = []; moves = [] } }
    {
        Given {
            outputs: Outputs::new(alloc),
            moves: Moves::new(alloc),
        }
    }

    /// What the steps gave that worked in this environment.
    pub(crate) fn of(env: Env) -> Given
        ensures { result ≡ given_in env }
    {
        Given {
            outputs: env.outputs,
            moves: env.moves,
        }
    }
}

impl End {
    /// What a step works in that follows on what was given. It takes no memory.
    fn env_behind(&self, moment: u64, block: [u8; 16], first: Given) -> Env
        ensures { result ≡ record (env_of self.now moment block) { outputs = first.outputs; moves = first.moves } }
    {
        let mut env = self.env(moment, block);
        env.outputs = first.outputs;
        env.moves = first.moves;
        env
    }

    /// What comes is dropped, behind what was given before.
    #[tactic(auto, unfolding(end_model::specs::End::gives_only))]
    fn drop_behind<L: Ledger>(
        &mut self,
        ledger: &mut L,
        first: Given,
        why: Why,
    ) -> Result<Given, StepFault<L::Stop>>
        requires ledger { L.can_commit ledger.old }
        ensures given { GivesStep result (behind_given first (gives_only self.old (Out.Drop why))) self.old self.new }
        ensures committed { CommitsStep L.commits_to result (behind_given first (gives_only self.old (Out.Drop why))) self.old ledger.old ledger.new }
        ensures role { self.new.role ≡ self.old.role }
    {
        let mut given = first;
        given.outputs.push(Out::Drop { why })?;
        self.give(ledger, given)
    }

    /// Makes a step of the tunnel with this id, if there is one.
    pub fn run_main<L: Ledger>(
        &mut self,
        ledger: &mut L,
        moment: u64,
        block: [u8; 16],
        event: &Event,
        id: u32,
    ) -> Result<Given, StepFault<L::Stop>>
        requires ledger { L.can_commit ledger.old }
        ensures given { GivesStep result (in_main self.old (env_of self.old moment block) event.now id (at self.old.tunnels id)) self.old self.new }
        ensures committed { CommitsStep L.commits_to result (in_main self.old (env_of self.old moment block) event.now id (at self.old.tunnels id)) self.old ledger.old ledger.new }
        ensures role { self.new.role ≡ self.old.role }
    {
        let first = Given::nothing(self.alloc);
        self.run_behind(ledger, moment, block, event, id, first)
    }

    /// Makes a step of the tunnel with this id in this environment.
    #[tactic(auto, using(tunnel_table::specs::Tunnels::at_tunnels))]
    fn take_step<L: Ledger>(
        &mut self,
        ledger: &mut L,
        env: &mut Env,
        task: &Task<'_>,
        id: u32,
    ) -> Result<(), StepFault<L::Stop>>
        requires ledger { L.can_commit ledger.old }
        requires there { IsSome (at self.old.tunnels id) }
        requires id { HasId task.now }
        requires drawing { env.old.ids ≡ drawing_of self.old }
        requires begun { env.old.changes ≡ [] }
        ensures made { OnOk result (behind_given (given_in env.old) (in_task self.old env.old task.now id (at self.old.tunnels id)) ≡ record { end = self.new; outputs = env.new.outputs; moves = env.new.moves }) }
        ensures same { OnErr result (self.new ≡ self.old) }
        ensures committed { Commits L.commits_to result (contents_of self.old (behind_given (given_in env.old) (in_task self.old env.old task.now id (at self.old.tunnels id)))) ledger.old ledger.new }
        ensures role { self.new.role ≡ self.old.role }
    {
        let planned = plan_main(
            ledger,
            self.alloc,
            self.role,
            &self.config,
            &mut self.tunnels,
            &mut self.calls,
            env,
            id,
            task,
        )?;
        make_main(
            &mut self.tunnels,
            &mut self.calls,
            id,
            planned,
            env.changes.as_slice(),
        );
        self.tunnel_ids = env.tunnels;
        self.session_ids = env.sessions;
        self.recovery_ids = env.recoveries;
        Ok(())
    }

    /// Makes a step of the tunnel with this id about this, if there is one, behind what was given before. Where memory is wanting,
    /// nothing is given at all.
    #[tactic(auto, using(tunnel_table::specs::Tunnels::at_tunnels))]
    pub(crate) fn run_task<L: Ledger>(
        &mut self,
        ledger: &mut L,
        moment: u64,
        block: [u8; 16],
        task: &Task<'_>,
        id: u32,
        first: Given,
    ) -> Result<Given, StepFault<L::Stop>>
        requires ledger { L.can_commit ledger.old }
        requires id { HasId task.now }
        ensures given { GivesStep result (behind_given first (in_task self.old (env_of self.old moment block) task.now id (at self.old.tunnels id))) self.old self.new }
        ensures committed { CommitsStep L.commits_to result (behind_given first (in_task self.old (env_of self.old moment block) task.now id (at self.old.tunnels id))) self.old ledger.old ledger.new }
        ensures role { self.new.role ≡ self.old.role }
    {
        if !self.tunnels.contains(id) {
            return self.drop_behind(ledger, first, Why::Tunnel);
        }
        let mut env = self.env_behind(moment, block, first);
        self.take_step(ledger, &mut env, task, id)?;
        Ok(Given::of(env))
    }

    /// Makes a step of the tunnel with this id, if there is one, behind what was given before.
    #[tactic(auto, unfolding(end_model::specs::End::in_main))]
    pub(crate) fn run_behind<L: Ledger>(
        &mut self,
        ledger: &mut L,
        moment: u64,
        block: [u8; 16],
        event: &Event,
        id: u32,
        first: Given,
    ) -> Result<Given, StepFault<L::Stop>>
        requires ledger { L.can_commit ledger.old }
        ensures given { GivesStep result (behind_given first (in_main self.old (env_of self.old moment block) event.now id (at self.old.tunnels id))) self.old self.new }
        ensures committed { CommitsStep L.commits_to result (behind_given first (in_main self.old (env_of self.old moment block) event.now id (at self.old.tunnels id))) self.old ledger.old ledger.new }
        ensures role { self.new.role ≡ self.old.role }
    {
        self.run_task(ledger, moment, block, &Task::Event(event), id, first)
    }
}

impl End {
    /// Makes the first step of a tunnel to a peer that is new, in this environment. Where it draws no id, it isn't kept.
    #[tactic(auto, unfolding(end_model::specs::End::in_new, end_model::specs::End::after_new))]
    fn take_first_step<L: Ledger>(
        &mut self,
        ledger: &mut L,
        env: &mut Env,
        event: &Event,
        said: Option<&Result<Message, Why>>,
        peer: u32,
    ) -> Result<(), StepFault<L::Stop>>
        requires ledger { L.can_commit ledger.old }
        requires said { IsSaidBy (option_copied said) event.now }
        requires begun { env.old ≡ env_of self.old env.old.on.moment env.old.on.block }
        ensures made { OnOk result (in_new self.old env.old event.now peer ≡ record { end = self.new; outputs = env.new.outputs; moves = env.new.moves }) }
        ensures same { OnErr result (self.new ≡ self.old) }
        ensures committed { Commits L.commits_to result (contents_of self.old (in_new self.old env.old event.now peer)) ledger.old ledger.new }
        ensures role { self.new.role ≡ self.old.role }
    {
        let mut core = TunnelCore::idle(self.alloc, peer, env.moment);
        let planned = plan_first(
            ledger,
            self.alloc,
            self.role,
            &self.config,
            &mut self.tunnels,
            &mut self.calls,
            &mut core,
            env,
            event,
            said,
        )?;
        let local = planned.local();
        make_first(
            &mut self.tunnels,
            &mut self.calls,
            core,
            planned,
            env.changes.as_slice(),
        );
        if local == 0 {
            return Ok(());
        }
        self.tunnel_ids = env.tunnels;
        self.session_ids = env.sessions;
        self.recovery_ids = env.recoveries;
        Ok(())
    }

    /// Makes the first step of a tunnel to a peer that is new, by what the event says, where that is known. Where it draws no id, it
    /// isn't kept.
    fn run_new<L: Ledger>(
        &mut self,
        ledger: &mut L,
        moment: u64,
        block: [u8; 16],
        event: &Event,
        said: Option<&Result<Message, Why>>,
        peer: u32,
    ) -> Result<Given, StepFault<L::Stop>>
        requires ledger { L.can_commit ledger.old }
        requires said { IsSaidBy (option_copied said) event.now }
        ensures given { GivesStep result (in_new self.old (env_of self.old moment block) event.now peer) self.old self.new }
        ensures committed { CommitsStep L.commits_to result (in_new self.old (env_of self.old moment block) event.now peer) self.old ledger.old ledger.new }
        ensures role { self.new.role ≡ self.old.role }
    {
        let mut env = self.env(moment, block);
        self.take_first_step(ledger, &mut env, event, said, peer)?;
        Ok(Given::of(env))
    }

    /// Makes the first step of a tunnel that is new, where the end may have one more; else it gives the refusal alone.
    #[tactic(auto, unfolding(end_model::specs::End::in_one_more))]
    pub fn run_one_more<L: Ledger>(
        &mut self,
        ledger: &mut L,
        moment: u64,
        block: [u8; 16],
        event: &Event,
        peer: u32,
        refusal: Out,
    ) -> Result<Given, StepFault<L::Stop>>
        requires ledger { L.can_commit ledger.old }
        ensures given { GivesStep result (in_one_more self.old (env_of self.old moment block) event.now peer refusal) self.old self.new }
        ensures committed { CommitsStep L.commits_to result (in_one_more self.old (env_of self.old moment block) event.now peer refusal) self.old ledger.old ledger.new }
        ensures role { self.new.role ≡ self.old.role }
    {
        if self.has_all_tunnels() {
            return self.only(ledger, refusal);
        }
        self.run_new(ledger, moment, block, event, None, peer)
    }

    /// An SCCRQ opens a tunnel, or is declined where something stands against it. What it says is worked out once.
    #[tactic(auto, unfolding(end_model::specs::End::opens_or_declines, end_model::specs::End::against_body))]
    fn open_or_decline<L: Ledger>(
        &mut self,
        ledger: &mut L,
        moment: u64,
        block: [u8; 16],
        event: &Event,
        peer: u32,
        remote: u16,
        nr: u16,
        body: &Body<'_>,
    ) -> Result<Given, StepFault<L::Stop>>
        requires ledger { L.can_commit ledger.old }
        requires event { IsControlEvent body.now event.now }
        ensures given { GivesStep result (opens_or_declines self.old (env_of self.old moment block) event.now peer remote nr (against_body self.old body.now)) self.old self.new }
        ensures committed { CommitsStep L.commits_to result (opens_or_declines self.old (env_of self.old moment block) event.now peer remote nr (against_body self.old body.now)) self.old ledger.old ledger.new }
        ensures role { self.new.role ≡ self.old.role }
    {
        let said = read_body(self.alloc, body)?;
        match self.against_said(&said) {
            None => self.run_new(ledger, moment, block, event, Some(&said.message), peer),
            Some(reason) => self.decline(ledger, peer, remote, nr, &reason),
        }
    }

    /// A control message for whom it is for.
    #[tactic(auto, unfolding(end_model::specs::End::for_addressee, end_model::specs::End::opens_or_declines))]
    fn run_addressed<L: Ledger>(
        &mut self,
        ledger: &mut L,
        moment: u64,
        block: [u8; 16],
        event: &Event,
        peer: u32,
        header: &Header,
        body: &Body<'_>,
        to: Addressee,
    ) -> Result<Given, StepFault<L::Stop>>
        requires ledger { L.can_commit ledger.old }
        requires event { IsControlEvent body.now event.now }
        ensures given { GivesStep result (for_addressee self.old (env_of self.old moment block) event.now peer header.now body.now to) self.old self.new }
        ensures committed { CommitsStep L.commits_to result (for_addressee self.old (env_of self.old moment block) event.now peer header.now body.now to) self.old ledger.old ledger.new }
        ensures role { self.new.role ≡ self.old.role }
    {
        let nr = next_of_peer(header);
        match to {
            Addressee::Opens { remote } => {
                self.open_or_decline(ledger, moment, block, event, peer, remote, nr, body)
            }
            Addressee::Answers { remote } => self.decline(
                ledger,
                peer,
                remote,
                nr,
                &out_of_order(),
            ),
            Addressee::Stops { .. } => self.drop_with(ledger, Why::Tunnel),
            Addressee::Main { tunnel } => self.run_main(ledger, moment, block, event, tunnel),
            Addressee::Recovery { tunnel } => {
                self.run_recovery(ledger, moment, block, header, body, tunnel)
            }
            Addressee::Recovers { .. } => self.recover(ledger, moment, block, peer, nr, body),
            Addressee::Nobody { why } => self.drop_with(ledger, why),
        }
    }

    /// The least tunnel to a peer that is in a state.
    pub fn least_in(&self, state: TunnelState, peer: u32) -> Result<Option<u32>, NoMemory>
        ensures { IfOk result (λ found. found ≡ least_in state peer self.now.tunnels) }
    {
        self.tunnels.least_in(self.alloc, state, peer)
    }

    /// Whether a tunnel to a peer is frozen or restored.
    pub fn are_recovering(&self, peer: u32) -> Result<bool, NoMemory>
        ensures { IfOk result (λ found. found ≡ are_recovering peer self.now.tunnels) }
    {
        self.tunnels.are_recovering(self.alloc, peer)
    }

    /// An event of a call goes to the call's tunnel.
    #[tactic(auto, unfolding(end_model::specs::End::for_call))]
    pub fn run_for_call<L: Ledger>(
        &mut self,
        ledger: &mut L,
        moment: u64,
        block: [u8; 16],
        event: &Event,
        session: u16,
    ) -> Result<Given, StepFault<L::Stop>>
        requires ledger { L.can_commit ledger.old }
        ensures given { GivesStep result (for_call self.old (env_of self.old moment block) event.now (at self.old.calls session)) self.old self.new }
        ensures committed { CommitsStep L.commits_to result (for_call self.old (env_of self.old moment block) event.now (at self.old.calls session)) self.old ledger.old ledger.new }
        ensures role { self.new.role ≡ self.old.role }
    {
        match self.calls.get(u32::from(session)) {
            None => self.drop_with(ledger, Why::Call),
            Some(place) => {
                let tunnel = place.tunnel;
                self.run_main(ledger, moment, block, event, u32::from(tunnel))
            }
        }
    }

    /// A datagram from a peer.
    #[tactic(auto, unfolding(end_model::specs::End::receives))]
    pub fn receive<L: Ledger>(
        &mut self,
        ledger: &mut L,
        moment: u64,
        block: [u8; 16],
        event: &Event,
        peer: u32,
        datagram: &Datagram,
    ) -> Result<Given, StepFault<L::Stop>>
        requires ledger { L.can_commit ledger.old }
        requires event { event.now ≡ Event.Datagram peer datagram.now }
        ensures given { GivesStep result (receives self.old (env_of self.old moment block) peer datagram.now (header_of datagram.now)) self.old self.new }
        ensures committed { CommitsStep L.commits_to result (receives self.old (env_of self.old moment block) peer datagram.now (header_of datagram.now)) self.old ledger.old ledger.new }
        ensures role { self.new.role ≡ self.old.role }
    {
        match datagram.header() {
            Err(error) => self.drop_with(ledger, header_why(error)),
            Ok(header) => {
                if !header.control {
                    let body = &datagram.as_slice()[header.start..header.end];
                    return self.hand_up(ledger, moment, block, peer, &header, body);
                }
                let body = datagram.body(&header);
                let to = self.addressed(peer, &header, &body)?;
                self.run_addressed(ledger, moment, block, event, peer, &header, &body, to)
            }
        }
    }
}
