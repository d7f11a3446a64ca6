//! Turns under the locks, which are taken in the order table of tunnels, tunnel, hub. No lock of a tunnel is waited for under the
//! table's, and never are two tunnels locked at once.

ghost use Rattle.std.specs.Prelude.{◌≡◌, false, IfOk, IfSome};
ghost use Rattle.session_cells.specs.Tokens.{IsOf, count_of, Later};
ghost use Rattle.end_model.specs.declared.event.Event.TheVariants.{Tick};
ghost use Rattle.locked_tunnels.specs.Turns.{IsTurnOf, AreTicks};

use crate::kept::KeptTunnel;
use crate::kind::TurnKind;
use crate::listing::listed_of;
use crate::locked::Locked;
use crate::quiet::quiet_turn;
use crate::table::Tunnels;
use crate::turned::{Turned, kind_turn, shared_turn};
use end_model::{Config, Event};
use event_routing::{Route, route_event};
use session_cells::{CellSeen, Cells};
use session_looks::Look;
use std::sync::{Mutex, MutexGuard, Wait};
use step_hub::{Hub, StepError};
use tunnel_listing::Directory;
use wire_base::{NoMemory, Sequence};

/// The call that an event is about.
fn session_of(event: &Event) -> Option<u16> {
    match event {
        Event::Payload { session, .. }
        | Event::Lower { session, .. }
        | Event::Lcp { session, .. }
        | Event::Hang { session }
        | Event::DropCall { session } => Some(*session),
        Event::Datagram { .. }
        | Event::Ring { .. }
        | Event::Frame { .. }
        | Event::Admitted { .. }
        | Event::OpenTunnel
        | Event::CloseTunnel { .. }
        | Event::Tick => None,
    }
}

/// The tunnel of the call that an event is about: by its cell, or where the other end doesn't know the call yet by which tunnel made it.
#[tactic(auto, using(session_cells::proofs::Prefixes::prefix_self))]
fn of_call(cells: &Cells, directory: &Directory, seen: &mut CellSeen, event: &Event) -> Option<u32>
    requires full { count_of cells.now ≡ 65536 }
    requires of { IsOf cells.now seen.old }
    ensures { Later cells.now seen.old seen.new }
{
    let session = session_of(event)?;
    match cells.lookup(seen, session) {
        Look::Bound { tunnel, .. } | Look::Established { tunnel, .. } => Some(u32::from(tunnel)),
        Look::Dead => None,
        Look::Unborn => Some(directory.home(session)),
    }
}

/// The tunnel that takes an event, 0 where none does, and as what it takes it.
fn of_event(
    directory: &Directory,
    config: &Config,
    event: &Event,
    call: Option<u32>,
) -> Result<(u32, TurnKind), NoMemory> {
    match route_event(directory, config, event, call)? {
        Route::Main { tunnel } => Ok((tunnel, TurnKind::Main)),
        Route::Recovery { tunnel } => Ok((tunnel, TurnKind::Recovery)),
        Route::Attempt { tunnel } => Ok((tunnel, TurnKind::Attempt)),
        Route::Nobody => Ok((0, TurnKind::Main)),
    }
}

/// After a turn the table lists the tunnel with this id as it is now, or no more, and notes the calls that the turn made. The tunnel's
/// lock is let go before.
fn list_again<W: Wait, H: Hub>(
    rt: &W,
    locked: &Locked<H>,
    id: u32,
    kept: MutexGuard<'_, KeptTunnel>,
) {
    let mut kept = kept;
    let is_gone = kept.is_gone();
    let local = kept.core().control().local;
    let listed = listed_of(kept.core());
    let turns = kept.turns();
    let added = kept.take_added();
    MutexGuard::unlock(kept);
    let mut table = locked.tunnels.lock(rt);
    if is_gone {
        table.remove(id);
        return;
    }
    table.list(id, listed, turns, local, added.as_slice());
}

/// A turn was refused: where the hub stopped at it or before it, that is told to who makes turns without the hub.
fn refused<H: Hub>(locked: &Locked<H>, error: StepError) -> StepError
    ensures { result ≡ error }
{
    match error {
        StepError::NoMemory => (),
        StepError::Halted | StepError::StoreFault | StepError::StoreFull { .. } => {
            locked.unlocked.stop();
        }
    }
    error
}

/// A turn of a tunnel whose lock the caller holds, under the hub's.
#[tactic(auto, using(session_cells::proofs::Prefixes::prefix_self))]
fn turn_with_hub<W: Wait, H: Hub>(
    rt: &W,
    locked: &Locked<H>,
    seen: &mut CellSeen,
    kept: &mut KeptTunnel,
    kind: TurnKind,
    moment: u64,
    block: [u8; 16],
    event: &Event,
) -> Result<Turned, StepError>
    requires of { IsOf locked.now.cells seen.old }
    requires there { kept.old.gone ≡ false }
    ensures later { Later locked.now.cells seen.old seen.new }
    ensures turned { IfOk result (λ t. IsTurnOf event.now moment block t) }
{
    let mut hub = locked.hub.lock(rt);
    match kind_turn(
        kept,
        kind,
        &locked.cells,
        seen,
        &mut *hub,
        moment,
        block,
        event,
    ) {
        Ok(turned) => Ok(turned),
        Err(error) => Err(refused(locked, error)),
    }
}

/// A turn of a tunnel whose lock the caller holds: without the hub's lock where it needs nothing of the hub, and else under that.
#[tactic(auto, using(session_cells::proofs::Prefixes::prefix_self))]
fn turn_of<W: Wait, H: Hub>(
    rt: &W,
    locked: &Locked<H>,
    seen: &mut CellSeen,
    kept: &mut KeptTunnel,
    kind: TurnKind,
    moment: u64,
    block: [u8; 16],
    event: &Event,
) -> Result<Turned, StepError>
    requires of { IsOf locked.now.cells seen.old }
    requires there { kept.old.gone ≡ false }
    ensures later { Later locked.now.cells seen.old seen.new }
    ensures turned { IfOk result (λ t. IsTurnOf event.now moment block t) }
{
    if locked.unlocked.has_stopped() {
        return turn_with_hub(rt, locked, seen, kept, kind, moment, block, event);
    }
    match quiet_turn(
        kept,
        kind,
        &locked.cells,
        seen,
        &locked.config,
        moment,
        block,
        event,
    ) {
        Ok(turned) => Ok(turned),
        Err(_) => turn_with_hub(rt, locked, seen, kept, kind, moment, block, event),
    }
}

/// A turn of a tunnel under its lock, after which the table lists it anew. None where the tunnel is gone: the table then has it no more.
#[tactic(auto, using(session_cells::proofs::Prefixes::prefix_self))]
fn turn_at<W: Wait, H: Hub>(
    rt: &W,
    locked: &Locked<H>,
    seen: &mut CellSeen,
    id: u32,
    tunnel: &Mutex<KeptTunnel>,
    kind: TurnKind,
    moment: u64,
    block: [u8; 16],
    event: &Event,
) -> Result<Option<Turned>, StepError>
    requires { IsOf locked.now.cells seen.old }
    ensures later { Later locked.now.cells seen.old seen.new }
    ensures turned { IfOk result (λ o. IfSome o (λ t. IsTurnOf event.now moment block t)) }
{
    let mut kept = tunnel.lock(rt);
    if kept.is_gone() {
        MutexGuard::unlock(kept);
        locked.tunnels.lock(rt).remove(id);
        return Ok(None);
    }
    let turned = turn_of(rt, locked, seen, &mut *kept, kind, moment, block, event)?;
    locked.unlocked.lower(kept.due());
    list_again(rt, locked, id, kept);
    Ok(Some(turned))
}

/// The turn of an event that no tunnel of the table takes. The caller holds the table's lock.
#[tactic(auto, using(session_cells::proofs::Prefixes::prefix_self))]
fn turn_of_none<W: Wait, H: Hub>(
    rt: &W,
    locked: &Locked<H>,
    table: &mut Tunnels,
    seen: &mut CellSeen,
    moment: u64,
    block: [u8; 16],
    event: &Event,
) -> Result<Turned, StepError>
    requires { IsOf locked.now.cells seen.old }
    ensures later { Later locked.now.cells seen.old seen.new }
    ensures turned { IfOk result (λ t. IsTurnOf event.now moment block t) }
{
    let mut hub = locked.hub.lock(rt);
    match shared_turn(table, &locked.cells, seen, &mut *hub, moment, block, event) {
        Ok(turned) => {
            locked.unlocked.lower(table.take_due());
            Ok(turned)
        }
        Err(error) => Err(refused(locked, error)),
    }
}

/// The turn of an event, None where the tunnel that it was for is gone meanwhile.
#[tactic(auto, using(session_cells::proofs::Prefixes::prefix_self, session_cells::proofs::Prefixes::prefix_trans))]
fn try_turn<W: Wait, H: Hub>(
    rt: &W,
    locked: &Locked<H>,
    seen: &mut CellSeen,
    moment: u64,
    block: [u8; 16],
    event: &Event,
) -> Result<Option<Turned>, StepError>
    requires { IsOf locked.now.cells seen.old }
    ensures later { Later locked.now.cells seen.old seen.new }
    ensures turned { IfOk result (λ o. IfSome o (λ t. IsTurnOf event.now moment block t)) }
{
    let mut table = locked.tunnels.lock(rt);
    let call = of_call(&locked.cells, table.directory(), seen, event);
    let (id, kind) = of_event(table.directory(), &locked.config, event, call)?;
    match table.find(id)? {
        None => {
            let turned = turn_of_none(rt, locked, &mut *table, seen, moment, block, event)?;
            Ok(Some(turned))
        }
        Some(tunnel) => {
            MutexGuard::unlock(table);
            turn_at(rt, locked, seen, id, &*tunnel, kind, moment, block, event)
        }
    }
}

/// The turn of an event but a tick, at a moment in milliseconds and with 16 random bytes: of the tunnel that it is for, under that
/// tunnel's lock, or of none, under the table's. Where the tunnel is gone meanwhile, it is the turn of an event for an unknown one. A turn
/// of a tunnel that draws no id and leaves no record doesn't wait for the hub.
#[tactic(auto, using(session_cells::proofs::Prefixes::prefix_self, session_cells::proofs::Prefixes::prefix_trans))]
pub fn turn_one<W: Wait, H: Hub>(
    rt: &W,
    locked: &Locked<H>,
    seen: &mut CellSeen,
    moment: u64,
    block: [u8; 16],
    event: &Event,
) -> Result<Turned, StepError>
    requires { IsOf locked.now.cells seen.old }
    ensures later { Later locked.now.cells seen.old seen.new }
    ensures turned { IfOk result (λ t. IsTurnOf event.now moment block t) }
{
    if let Some(turned) = try_turn(rt, locked, seen, moment, block, event)? {
        return Ok(turned);
    }
    if let Some(turned) = try_turn(rt, locked, seen, moment, block, event)? {
        return Ok(turned);
    }
    let mut table = locked.tunnels.lock(rt);
    turn_of_none(rt, locked, &mut *table, seen, moment, block, event)
}

/// Time passes for a tunnel, in which something is due, whose lock the caller holds: the calls for which something was due are looked at
/// again behind the turn.
#[tactic(auto, using(session_cells::proofs::Prefixes::prefix_self))]
fn tick_of<W: Wait, H: Hub>(
    rt: &W,
    locked: &Locked<H>,
    seen: &mut CellSeen,
    kept: &mut KeptTunnel,
    moment: u64,
    block: [u8; 16],
) -> Result<Turned, StepError>
    requires of { IsOf locked.now.cells seen.old }
    requires there { kept.old.gone ≡ false }
    ensures later { Later locked.now.cells seen.old seen.new }
    ensures turned { IfOk result (λ t. IsTurnOf Tick moment block t) }
{
    let turned = turn_of(
        rt,
        locked,
        seen,
        kept,
        TurnKind::Main,
        moment,
        block,
        &Event::Tick,
    )?;
    kept.look_again(moment);
    Ok(turned)
}

/// Time passes for the tunnel with this id, if it is still there and something is due for it; its turn goes behind others.
#[tactic(auto, using(session_cells::proofs::Prefixes::prefix_self))]
fn tick_at<W: Wait, H: Hub>(
    rt: &W,
    locked: &Locked<H>,
    seen: &mut CellSeen,
    id: u32,
    moment: u64,
    block: [u8; 16],
    turns: &mut Sequence<Turned>,
) -> Result<(), StepError>
    requires { IsOf locked.now.cells seen.old }
    ensures later { Later locked.now.cells seen.old seen.new }
    ensures turns { AreTicks moment block turns.old → AreTicks moment block turns.new }
{
    let Some(tunnel) = locked.tunnels.lock(rt).find(id)? else {
        return Ok(());
    };
    let mut kept = tunnel.lock(rt);
    if kept.is_gone() {
        MutexGuard::unlock(kept);
        locked.tunnels.lock(rt).remove(id);
        return Ok(());
    }
    if kept.is_early(moment) {
        locked.unlocked.lower(kept.due());
        return Ok(());
    }
    let turned = tick_of(rt, locked, seen, &mut *kept, moment, block)?;
    locked.unlocked.lower(kept.due());
    list_again(rt, locked, id, kept);
    turns.push(turned)?;
    Ok(())
}

/// Time passes for each tunnel, by id.
#[tactic(auto, using(session_cells::proofs::Prefixes::prefix_self, session_cells::proofs::Prefixes::prefix_trans))]
fn tick_each<W: Wait, H: Hub>(
    rt: &W,
    locked: &Locked<H>,
    seen: &mut CellSeen,
    moment: u64,
    block: [u8; 16],
    turns: &mut Sequence<Turned>,
) -> Result<(), StepError>
    requires { IsOf locked.now.cells seen.old }
    ensures later { Later locked.now.cells seen.old seen.new }
    ensures turns { AreTicks moment block turns.old → AreTicks moment block turns.new }
{
    let ids = locked.tunnels.lock(rt).directory().ids()?;
    for id in ids.as_slice() {
        tick_at(rt, locked, seen, *id, moment, block, turns)?;
    }
    Ok(())
}

/// Time passes, at a moment in milliseconds and with 16 random bytes: a turn of each tunnel for which something is due, by id, behind
/// others. The tick of another would leave it as it is and give nothing. Before something is due for any of them no lock is taken. After a
/// refusal the turns before it stay made, and the next tick looks at each tunnel. Where memory is wanting for a turn that was made, that one
/// alone is left out.
#[tactic(auto, using(session_cells::proofs::Prefixes::prefix_self))]
pub fn tick_all<W: Wait, H: Hub>(
    rt: &W,
    locked: &Locked<H>,
    seen: &mut CellSeen,
    moment: u64,
    block: [u8; 16],
    turns: &mut Sequence<Turned>,
) -> Result<(), StepError>
    requires { IsOf locked.now.cells seen.old }
    ensures later { Later locked.now.cells seen.old seen.new }
    ensures turns { AreTicks moment block turns.old → AreTicks moment block turns.new }
{
    if locked.unlocked.is_early(moment) {
        return Ok(());
    }
    locked.unlocked.begin();
    match tick_each(rt, locked, seen, moment, block, turns) {
        Ok(()) => Ok(()),
        Err(error) => {
            locked.unlocked.lower(moment);
            Err(error)
        }
    }
}
