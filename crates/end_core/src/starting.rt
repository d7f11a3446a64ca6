//! An end that falls, and one that starts again over what its checkpoint kept.

ghost use Rattle.std.specs.Prelude.{◌≡◌, ◌≤◌, ◌<◌, ◌++◌, ◌∷◌, [], map, true, IfOk, OnOk, OnErr};
ghost use Rattle.std.specs.List.{AllByRecursion};
ghost use Rattle.id_source.specs.Spaces.{space_from, takes_id};
ghost use Rattle.session_book.specs.Books.{Kept};
ghost use Rattle.end_model.specs.declared.moves.Move.TheVariants as moved;
ghost use Rattle.end_model.specs.End.{new_end, drawing_of, env_of, Stepped};
ghost use Rattle.end_model.specs.Starting.{bare_end, gone_with, can_recover, forgets, restored, restored_by, restored_all, behind_all, starts};
ghost use Rattle.end_core.specs.Gives.{GivesStep, CommitsStep};
ghost use Rattle.end_core.specs.Keeping.{calls_in, AreByTunnel};
ghost use Rattle.end_core.specs.Starting.{restored_with};

use crate::end::{End, Given, LAST_RECOVERY, LAST_SESSION, LAST_TUNNEL};
use crate::keeping::{ByTunnel, calls_by_tunnel, calls_of_tunnel};
use crate::planning::make_kept;
use call_places::make_places;
use end_model::{Config, Forgot, Move, Out};
use id_source::Ids;
use id_table::Table;
use session_book::{Book, BookCall, BookTunnel};
use std::alloc::Global;
use step_ledger::{BookedLedger, StepFault};
use step_records::{Spaces, commit_step};
use tunnel_table::{Env, Task, TunnelCore, TunnelTable};
use wire_base::{Bytes, NoMemory};

/// Tells that these calls are gone, behind other outputs.
fn push_gone(given: &mut Given, calls: &[BookCall]) -> Result<(), NoMemory>
    ensures outputs { OnOk result (given.new.outputs ≡ given.old.outputs ++ gone_with calls.now) }
    ensures moves { given.new.moves ≡ given.old.moves }
{
    for call in calls {
        given.outputs.push(Out::Gone {
            session: u32::from(call.local),
        })?;
    }
    Ok(())
}

/// Tells that a tunnel is given up with its calls, behind what was given before.
fn push_forgotten(
    given: &mut Given,
    tunnel: &BookTunnel,
    calls: &[BookCall],
) -> Result<(), NoMemory>
    ensures { OnOk result (given.new ≡ record { outputs = given.old.outputs ++ gone_with calls.now; moves = given.old.moves ++ moved.Forgot (record { tunnel = tunnel.now.local }) ∷ [] }) }
{
    push_gone(given, calls)?;
    given.moves.push(Move::Forgot(Forgot {
        tunnel: tunnel.local,
    }))
}

/// A copy of what an end is told when it is made.
fn copy_config(alloc: Global, config: &Config) -> Result<Config, NoMemory>
    ensures { IfOk result (λ copy. copy ≡ config.now) }
{
    let secret = match &config.secret {
        None => None,
        Some(secret) => Some(Bytes::from_slice(alloc, secret.as_slice())?),
    };
    Ok(Config::new(
        config.number,
        config.address,
        config.lns,
        secret,
        config.hide,
    ))
}

/// Where an end draws its numbers from that starts over a book: above the ceilings that it has.
fn spaces_above(book: &Book) -> Spaces
    ensures { result ≡ record { tunnels = space_from 65535 book.now.kept.tunnel_ceiling; sessions = space_from 65534 book.now.kept.session_ceiling; recoveries = space_from 4294967295 book.now.kept.draw_ceiling } }
{
    Spaces {
        tunnels: Ids::from_ceiling(LAST_TUNNEL, book.ceiling(1)),
        sessions: Ids::from_ceiling(LAST_SESSION, book.ceiling(2)),
        recoveries: Ids::from_ceiling(LAST_RECOVERY, book.ceiling(3)),
    }
}

/// Whether the peer of a tunnel that was kept can recover its control channel.
fn can_recover(tunnel: &BookTunnel) -> bool
    ensures { result ≡ can_recover tunnel.now }
{
    tunnel.flags % 2 == 1
}

impl Given {
    /// What was given, with what a step gave behind it.
    fn append(&mut self, env: &mut Env) -> Result<(), NoMemory>
        ensures given { OnOk result (self.new ≡ record { outputs = self.old.outputs ++ env.old.outputs; moves = self.old.moves ++ env.old.moves }) }
        ensures changes { OnOk result (env.new.changes ≡ env.old.changes) }
        ensures ids { OnOk result (env.new.ids ≡ env.old.ids) }
    {
        self.outputs.append(&mut env.outputs)?;
        self.moves.append(&mut env.moves)
    }
}

impl End {
    /// Where the end draws its numbers from. It takes no memory.
    pub fn spaces(&self) -> Spaces
        ensures { result ≡ drawing_of self.now }
    {
        Spaces {
            tunnels: self.tunnel_ids,
            sessions: self.session_ids,
            recoveries: self.recovery_ids,
        }
    }

    /// The end falls: of all that it had only its role, its configuration and the book stay. It draws above the ceilings that the
    /// book has, so that it draws no number a second time. It takes no memory.
    pub fn fall(&mut self, book: &Book)
        ensures { self.new ≡ bare_end self.old.role self.old.config book.now.kept }
    {
        self.fall_to(spaces_above(book));
    }

    /// The same, where it draws from these spaces from then on.
    fn fall_to(&mut self, spaces: Spaces)
        requires { (spaces.tunnels.last ≤ 65535) × (spaces.sessions.last ≤ 65535) }
        ensures { self.new ≡ record (new_end self.old.role self.old.config) { tunnel_ids = spaces.tunnels; session_ids = spaces.sessions; recovery_ids = spaces.recoveries } }
    {
        self.tunnel_ids = spaces.tunnels;
        self.session_ids = spaces.sessions;
        self.recovery_ids = spaces.recoveries;
        self.tunnels = TunnelTable::new(self.alloc);
        self.calls = Table::new(self.alloc);
    }

    /// An end as this one is after it fell, without a tunnel.
    fn bare(&self, book: &Book) -> Result<Box<End>, NoMemory>
        ensures { IfOk result (λ bare. bare.value ≡ bare_end self.now.role self.now.config book.now.kept) }
    {
        let config = copy_config(self.alloc, &self.config)?;
        let mut bare = End::new(self.alloc, self.role, config);
        bare.fall(book);
        Ok(Box::new(self.alloc, bare)?)
    }

    /// A tunnel that was kept comes back with its calls, and an attempt at its recovery, by these ids, behind what was given before.
    fn bring_back(
        &mut self,
        moment: u64,
        block: [u8; 16],
        tunnel: &BookTunnel,
        calls: &[BookCall],
        local: u16,
        draw: u32,
        given: &mut Given,
    ) -> Result<(), NoMemory>
        requires window { 0 < tunnel.now.window }
        requires local { 0 < local }
        ensures role { self.new.role ≡ self.old.role }
        ensures restored { OnOk result (behind_all (record { end = self.old; outputs = given.old.outputs; moves = given.old.moves }) (restored_by self.old (env_of self.old moment block) calls.now tunnel.now (Ok local) (Ok draw)) ≡ record { end = self.new; outputs = given.new.outputs; moves = given.new.moves }) }
    {
        let mut env = self.env(moment, block);
        let mut core = TunnelCore::kept(self.alloc, tunnel, moment);
        let task = Task::Restore {
            tunnel,
            calls,
            local,
            draw,
        };
        let planned = core.plan(self.role, &self.config, &mut env, &task)?;
        let id = u32::from(tunnel.local);
        make_places(&mut self.calls, planned.added())?;
        self.tunnels.make_room(id, &core, &planned)?;
        make_kept(
            &mut self.tunnels,
            &mut self.calls,
            id,
            core,
            planned,
            env.changes.as_slice(),
        );
        self.tunnel_ids = env.tunnels;
        self.session_ids = env.sessions;
        self.recovery_ids = env.recoveries;
        given.append(&mut env)
    }

    /// A tunnel that was kept comes back, or is given up with its calls, behind what was given before. Where memory is wanting, the
    /// end is to be thrown away.
    #[tactic(auto, unfolding(end_model::specs::Starting::restored, end_model::specs::Starting::restored_by, end_model::specs::Starting::forgets))]
    fn restore(
        &mut self,
        moment: u64,
        block: [u8; 16],
        tunnel: &BookTunnel,
        calls: &[BookCall],
        given: &mut Given,
    ) -> Result<(), NoMemory>
        requires { 0 < tunnel.now.window }
        ensures role { self.new.role ≡ self.old.role }
        ensures restored { OnOk result (behind_all (record { end = self.old; outputs = given.old.outputs; moves = given.old.moves }) (restored_with calls.now self.old (env_of self.old moment block) tunnel.now) ≡ record { end = self.new; outputs = given.new.outputs; moves = given.new.moves }) }
    {
        let (mut tunnels, mut recoveries) = (self.tunnel_ids, self.recovery_ids);
        if can_recover(tunnel) {
            if let (Ok(local), Ok(draw)) = (tunnels.take(), recoveries.take()) {
                let local = local as u16;
                return self.bring_back(moment, block, tunnel, calls, local, draw, given);
            }
        }
        push_forgotten(given, tunnel, calls)
    }

    /// Each of these tunnels comes back, or is given up.
    #[tactic(auto, unfolding(end_model::specs::Starting::restored_all))]
    fn restore_all(
        &mut self,
        moment: u64,
        block: [u8; 16],
        tunnels: &[BookTunnel],
        by_tunnel: &ByTunnel,
        given: &mut Given,
    ) -> Result<(), NoMemory>
        requires { AllByRecursion (λ t. 0 < t.window) tunnels.now }
        ensures role { self.new.role ≡ self.old.role }
        ensures restored { OnOk result ((k : Kept) → AreByTunnel by_tunnel.now.entries k.calls → restored_all k moment block tunnels.now (record { end = self.old; outputs = given.old.outputs; moves = given.old.moves }) ≡ record { end = self.new; outputs = given.new.outputs; moves = given.new.moves }) }
    {
        for tunnel in tunnels {
            let calls = calls_of_tunnel(by_tunnel, tunnel.local);
            self.restore(moment, block, tunnel, calls, given)?;
        }
        Ok(())
    }

    /// The end starts again over the book of its ledger: each tunnel that was kept comes back with its calls, by local ids, and asks its
    /// peer for its recovery, where that can recover it; else it goes with its calls, and its peer isn't told, as the numbers of its
    /// control channel are lost. What the start leaves is committed first; where it isn't, or memory is wanting, the end is as before.
    #[tactic(auto, unfolding(end_model::specs::Starting::starts))]
    pub fn start<L: BookedLedger>(
        &mut self,
        ledger: &mut L,
        moment: u64,
        block: [u8; 16],
    ) -> Result<Given, StepFault<L::Stop>>
        requires ledger { L.Ledger.can_commit ledger.old }
        requires lends { L.can_lend ledger.old }
        ensures given { GivesStep result (starts self.old.role self.old.config (L.kept ledger.old) moment block) self.old self.new }
        ensures committed { CommitsStep L.Ledger.commits_to result (starts self.old.role self.old.config (L.kept ledger.old) moment block) self.old ledger.old ledger.new }
        ensures role { self.new.role ≡ self.old.role }
    {
        let book = ledger.book();
        book.is_whole();
        let by_tunnel = calls_by_tunnel(self.alloc, book.calls().as_slice())?;
        let mut started = self.bare(book)?;
        let mut given = Given::nothing(self.alloc);
        started.restore_all(
            moment,
            block,
            book.tunnels().as_slice(),
            &by_tunnel,
            &mut given,
        )?;
        let (before, after) = (self.spaces(), started.spaces());
        commit_step(self.alloc, ledger, &before, &after, given.moves.as_slice())?;
        *self = Box::into_inner(started);
        Ok(given)
    }
}
