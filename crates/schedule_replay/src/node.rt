//! A node of the world.

ghost use Rattle.std.specs.Prelude.{◌≡◌, ◌+◌, ◌-◌, ◌^◌, min, [], unwrap_or, option_map, OnOk, OnErr, IfOk, Ok, Some, true};
ghost use Rattle.std.specs.Option.{option_copied};
ghost use Rattle.std.specs.List.{AllByRecursion};
ghost use Rattle.id_table.specs.Ids.{at, put, ids_of};
ghost use Rattle.id_table.specs.Tables.{HasRoom};
ghost use Rattle.lac_core.specs.Cores.{tunnel_of};
ghost use Rattle.end_model.specs.Calls.{is_lac};
ghost use Rattle.end_model.specs.Access.{access_with};
ghost use Rattle.end_model.specs.End.{new_end};
ghost use Rattle.world_model.specs.World.{config_of, count_at, new_checkpoint, with_stop, fallen, no_standing, standing_in, answer_in, lost_with, loses_counts};
ghost use Rattle.schedule_replay.specs.Kinds.{site_in};
ghost use Rattle.schedule_replay.specs.Serving.{kind_of, site_step, site_start, site_commits, IsLeft, IsAsBefore, MakesStep, OpensAt};

use crate::kinds::{Moved, NodeEnd};
use end_model::{Config, Event, Role, address_of};
use id_table::Table;
use lac_core::{End, TunnelCore};
use std::alloc::Global;
use std::marker::Model;
use step_ledger::{BookedLedger, StepFault};
use wire_base::{Bytes, NoMemory as OutOfMemory};
use world_checkpoint::{Checkpoint, CommitStop};
use world_model::{Counts, Standing, StopAt};

/// Why a step of a node wasn't made.
#[derive(Clone, Copy)]
pub(crate) enum Unmade {
    /// A stop cut it off, and the node is down.
    Cut,
    /// The checkpoint has so many records, and no room for those of the step. The node is as before.
    Full { records: u32 },
    /// Memory was wanting, or the node's disk had another number of records behind a stop than was due. The node is as before, but for its
    /// checkpoint where a stop cut the step off and memory was wanting for the fall.
    NoMemory,
}

/// An end, and whether it is up, with its clock, in milliseconds, the births of its calls by local session id, its checkpoint, and what is
/// counted of its tunnels over crashes.
#[derive(Drop)]
pub(crate) struct Node {
    alloc: Global,
    pub(crate) end: NodeEnd,
    pub(crate) up: bool,
    pub(crate) clock: u64,
    pub(crate) births: Table<u64>,
    checkpoint: Checkpoint,
    /// What is counted of its tunnels, by their local ids.
    standings: Table<Standing>,
    /// The epoch that each of its answers to an attempt makes, by the answer's local id.
    answers: Table<u64>,
}

impl Model for Node {
    ghost use Rattle.world_model.specs.World.{Node as Known};
    ghost use Rattle.schedule_replay.specs.Serving.{IsFileOf};

    ghost Value = { Known };

    ghost view = { λ n. record { end = n.end.end; up = n.up; clock = n.clock; births = n.births.entries; access = n.end.access; checkpoint = n.checkpoint.known; standings = n.standings.entries; answers = n.answers.entries } };

    ghost invariant = { λ n. IsFileOf n.end.end n.checkpoint };
}

/// A copy of a tunnel secret.
pub(crate) fn copy_secret(
    alloc: Global,
    secret: &Option<Bytes>,
) -> Result<Option<Bytes>, OutOfMemory>
    ensures { IfOk result (λ s. s ≡ secret.now) }
{
    match secret {
        None => Ok(None),
        Some(secret) => Ok(Some(Bytes::from_slice(alloc, secret.as_slice())?)),
    }
}

/// The configuration of a node with this tunnel secret, which hides its calling numbers by it where `hide` is set.
pub(crate) fn config_of(number: u8, lns: u32, secret: Option<Bytes>, hide: bool) -> Config
    ensures { result ≡ config_of number lns secret hide }
{
    Config::new(number, address_of(number), lns, secret, hide)
}

/// How often something was counted, or which number something has, for an id; 0 where there is none.
pub(crate) fn count_at(counts: &Table<u64>, id: u32) -> u64
    ensures { result ≡ count_at counts.now.entries id }
{
    counts.get(id).copied().unwrap_or(0)
}

/// Of a tunnel of which nothing was counted yet.
const NO_STANDING: Standing = Standing {
    epoch: 0,
    made: 0,
    lost: None,
};

/// What is counted of a tunnel with this local id.
fn standing_at(standings: &Table<Standing>, tunnel: u32) -> Standing
    ensures { result ≡ unwrap_or (at standings.now.entries tunnel) no_standing }
{
    standings.get(tunnel).copied().unwrap_or(NO_STANDING)
}

/// Makes room for what is counted of each of these tunnels.
fn make_standings(standings: &mut Table<Standing>, tunnels: &[u32]) -> Result<(), OutOfMemory>
    ensures same { standings.new.entries ≡ standings.old.entries }
    ensures room { OnOk result (AllByRecursion (λ i. HasRoom standings.new i) tunnels.now) }
{
    for tunnel in tunnels {
        standings.make_room(*tunnel)?;
    }
    Ok(())
}

/// What is counted of a tunnel whose channel is lost.
fn lost_with(tunnel: Option<&TunnelCore>, standing: Standing) -> Standing
    ensures { result ≡ lost_with (option_map tunnel_of (option_copied tunnel.entry)) standing }
{
    let Some(tunnel) = tunnel else {
        return standing;
    };
    if standing.lost.is_some() {
        return standing;
    }
    let channel = &tunnel.control().channel;
    Standing {
        epoch: standing.epoch,
        made: standing.made,
        lost: Some(Counts {
            taken: channel.taken_count(),
            acked: channel.acked_count(),
        }),
    }
}

/// The channels of these tunnels of an end are lost. It takes no memory.
#[tactic(auto, unfolding(world_model::specs::World::loses_counts))]
fn lose_all(standings: &mut Table<Standing>, end: &End, tunnels: &[u32])
    requires { AllByRecursion (λ i. HasRoom standings.old i) tunnels.now }
    ensures { standings.new.entries ≡ loses_counts end.now tunnels.now standings.old.entries }
{
    for tunnel in tunnels {
        let after = lost_with(end.tunnel(*tunnel), standing_at(standings, *tunnel));
        standings.fill(*tunnel, after);
    }
}

/// The kind that the journal of an end tells.
fn kind_of(role: Role) -> u8
    ensures { result ≡ kind_of role }
{
    match role {
        Role::Lac => 1,
        Role::Lns => 2,
    }
}

impl Node {
    /// A new node, whose LAC makes its cookies with this key, with a disk of its own.
    pub(crate) fn new(
        alloc: Global,
        role: Role,
        config: Config,
        key: [u8; 16],
    ) -> Result<Node, OutOfMemory>
        ensures { IfOk result (λ n. n ≡ record { end = new_end role config; up = true; clock = 0; births = []; access = access_with role key; checkpoint = new_checkpoint; standings = []; answers = [] }) }
    {
        let checkpoint = Checkpoint::new(alloc, kind_of(role), config.number)?;
        Ok(Node {
            alloc,
            end: NodeEnd::new(alloc, role, config, key),
            up: true,
            clock: 0,
            births: Table::new(alloc),
            checkpoint,
            standings: Table::new(alloc),
            answers: Table::new(alloc),
        })
    }

    pub(crate) fn is_lac(&self) -> bool
        ensures { result ≡ is_lac self.now.end.role }
    {
        self.end.end().role() == Role::Lac
    }

    /// The node's clock goes on by so many milliseconds.
    pub(crate) fn pass(&mut self, milliseconds: u32)
        ensures { self.new ≡ record self.old { clock = min (self.old.clock + milliseconds) (2 ^ 64 - 1) } }
    {
        self.clock = self.clock.saturating_add(u64::from(milliseconds));
    }

    /// A step of the node's end on an event, at the moment of its clock, with a block of random bytes. All that it leaves is committed before
    /// it is made.
    #[tactic(auto, using(crate::proofs::Nodes::step_made, crate::proofs::Nodes::step_left, crate::proofs::Nodes::left_as_before))]
    pub(crate) fn step(&mut self, block: [u8; 16], event: &Event) -> Result<Moved, Unmade>
        ensures made { MakesStep result block (site_step (site_in self.old) self.old.clock block event.now) self.old self.new }
        ensures as_before { IsAsBefore result (site_commits self.old (site_step (site_in self.old) self.old.clock block event.now)) self.old self.new }
    {
        match self
            .end
            .step(&mut self.checkpoint, self.clock, block, event)
        {
            Ok(moved) => Ok(moved),
            Err(fault) => Err(self.leave(block, fault)),
        }
    }

    /// What is left where a step wasn't made, and why: where a stop cut it off, the node falls, and it is as before otherwise.
    fn leave(&mut self, block: [u8; 16], fault: StepFault<CommitStop>) -> Unmade
        ensures { IsLeft result fault block self.old self.new }
    {
        match fault {
            StepFault::Uncommitted {
                stop: CommitStop::Full { records },
            } => Unmade::Full { records },
            StepFault::Uncommitted {
                stop: CommitStop::Cut,
            } => match self.fall(block) {
                Ok(()) => Unmade::Cut,
                Err(_) => Unmade::NoMemory,
            },
            StepFault::NoMemory
            | StepFault::Uncommitted {
                stop: CommitStop::NoMemory | CommitStop::Differs,
            } => Unmade::NoMemory,
        }
    }

    /// All but the checkpoint is lost, and a stop is armed no more. What the channels of its tunnels had counted stays known. Where memory
    /// is wanting for that, the node is as before.
    #[tactic(auto, unfolding(world_model::specs::World::fallen))]
    pub(crate) fn fall(&mut self, block: [u8; 16]) -> Result<(), OutOfMemory>
        ensures ok { OnOk result (self.new ≡ fallen block self.old.end self.old self.old.checkpoint) }
        ensures err { OnErr result (self.new ≡ self.old) }
    {
        self.lose_counts()?;
        self.end.fall(block, self.checkpoint.book());
        self.up = false;
        self.checkpoint.disarm();
        Ok(())
    }

    /// What the channels of its tunnels have counted is kept where they are lost. Where memory is wanting, the node is as before.
    fn lose_counts(&mut self) -> Result<(), OutOfMemory>
        ensures ok { OnOk result (self.new ≡ record self.old { standings = loses_counts self.old.end (ids_of self.old.end.tunnels) self.old.standings }) }
        ensures err { OnErr result (self.new ≡ self.old) }
    {
        let end = self.end.end();
        let ids = end.tunnel_ids(self.alloc)?;
        make_standings(&mut self.standings, ids.as_slice())?;
        lose_all(&mut self.standings, end, ids.as_slice());
        Ok(())
    }

    /// What is counted of a tunnel with this local id.
    pub(crate) fn standing(&self, tunnel: u32) -> Standing
        ensures { result ≡ standing_in (Some self.now) tunnel }
    {
        standing_at(&self.standings, tunnel)
    }

    /// Of a tunnel this is counted.
    pub(crate) fn set_standing(
        &mut self,
        tunnel: u32,
        standing: Standing,
    ) -> Result<(), OutOfMemory>
        ensures { OnOk result (self.new ≡ record self.old { standings = put self.old.standings tunnel standing }) }
    {
        self.standings.insert(tunnel, standing)
    }

    /// The epoch that an answer with this local id makes, 0 where there is none.
    pub(crate) fn answer(&self, answer: u16) -> u64
        ensures { result ≡ answer_in (Some self.now) answer }
    {
        count_at(&self.answers, u32::from(answer))
    }

    /// An answer makes this epoch.
    pub(crate) fn set_answer(&mut self, answer: u16, epoch: u64) -> Result<(), OutOfMemory>
        ensures { OnOk result (self.new ≡ record self.old { answers = put self.old.answers answer epoch }) }
    {
        self.answers.insert(u32::from(answer), epoch)
    }

    /// The node starts over its checkpoint.
    #[tactic(auto, using(crate::proofs::Nodes::step_made, crate::proofs::Nodes::step_left, crate::proofs::Nodes::left_as_before))]
    pub(crate) fn start(&mut self, block: [u8; 16]) -> Result<Moved, Unmade>
        ensures made { MakesStep result block (site_start self.old.end.role self.old.end.config self.old.clock block self.old.checkpoint.book) (record self.old { up = true }) self.new }
        ensures as_before { IsAsBefore result (site_commits self.old (site_start self.old.end.role self.old.end.config self.old.clock block self.old.checkpoint.book)) self.old self.new }
    {
        match self.end.start(&mut self.checkpoint, self.clock, block) {
            Ok(moved) => {
                self.up = true;
                Ok(moved)
            }
            Err(fault) => Err(self.leave(block, fault)),
        }
    }

    /// What the node's disk holds.
    pub(crate) fn file(&self) -> &[u8]
        ensures { OpensAt self.now result.now }
    {
        self.checkpoint.file()
    }

    /// Arms a stop, in place of the one before, which is reached at this call of its commit.
    pub(crate) fn arm(&mut self, stop: StopAt, call: u8)
        ensures { self.new ≡ record self.old { checkpoint = with_stop (Some stop) self.old.checkpoint } }
    {
        self.checkpoint.arm(stop, call);
    }

    /// The call with this local session is of this birth.
    pub(crate) fn bear(&mut self, session: u16, birth: u64) -> Result<(), OutOfMemory>
        ensures { OnOk result (self.new ≡ record self.old { births = put self.old.births session birth }) }
    {
        self.births.insert(u32::from(session), birth)
    }
}
