//! The queues are opened; passes are split and joined.

ghost use Rattle.std.specs.Prelude.{◌≡◌, ◌+◌, ◌<◌, ◌++◌, [], IfOk, OnOk};
ghost use Rattle.crossbeam_queue.specs.Passes.{view, IsPassOf};
ghost use Rattle.session_cells.specs.Tokens.{log_of, IsOf};
ghost use Rattle.session_workers.specs.Items.{name_of, named_view, first_view, all_parts};
ghost use Rattle.session_workers.specs.Opening.{AreEntered};
ghost use Rattle.session_workers.specs.Passes.{items_of, finished_of, known_of, took_of, taken_of, made_of, gave_of, got_of, IsPassIn, IsOpener, EachOnce, IsAsBefore, IsNew};

use crate::finishing::{FinishedQueue, OnePart};
use crate::item::Numbered;
use crate::items::{ItemQueue, Named, Naming, Worker};
use crate::shared::{Pass, Shared};
use crate::views::ItemView;
use end_model::Role;
use locked_tunnels::{KeptTunnel, Locked};
use session_cells::CellSeen;
use std::alloc::Global;
use std::marker::Brand;
use step_hub::Hub;
use wire_base::NoMemory;

/// How many items may wait in either queue.
pub(crate) const PLACES: usize = 1_024;

/// The opener learns of which row of cells the items are to be.
fn name_row<J: Naming>(
    items: &ItemQueue,
    pass: &mut crossbeam_queue::Pass<Numbered, ItemView>,
    seen: &CellSeen,
)
    requires row { name_of seen.now ≡ J.name }
    requires queue { IsPassOf items.now pass.old }
    requires first { view pass.old ≡ first_view }
    ensures queue { IsPassOf items.now pass.new }
    ensures named { view pass.new ≡ named_view first_view (name_of seen.now) }
{
    let _ = items.another::<Named<J>>(pass);
}

/// Takes in the tunnels that were kept over a start, and makes their changes on the cells.
fn keep_all<H: Hub>(
    locked: &mut Locked<H>,
    seen: &mut CellSeen,
    kept: Vec<KeptTunnel>,
) -> Result<(), NoMemory>
    requires { IsOf locked.old.cells seen.old }
    ensures cells { locked.new.cells ≡ locked.old.cells }
    ensures of { IsOf locked.new.cells seen.new }
    ensures entered { OnOk result (AreEntered kept.items (log_of seen.new)) }
{
    for tunnel in kept {
        locked.keep(seen, tunnel)?;
    }
    Ok(())
}

/// What workers share of an end of this kind over its hub, with the tunnels that were kept over a start, whose changes are made on the
/// cells; two empty queues; and the opener's pass, which alone puts. `lns` is the address of a LAC's LNS, an IPv4 address as a number; 0
/// at an LNS. Where memory is wanting, the hub is given back, and nothing is known of it but what its type keeps.
pub fn open_shared<H: Hub>(
    alloc: Global,
    role: Role,
    lns: u32,
    kept: Vec<KeptTunnel>,
    hub: H,
) -> Result<(Shared<H>, Pass), H>
    ensures of { IfOk result (λ r. IsPassIn r.0 r.1) }
    ensures opener { IfOk result (λ r. IsOpener r.1) }
    ensures none { IfOk result (λ r. (known_of r.1 ≡ []) × (took_of r.1 ≡ []) × (gave_of r.1 ≡ []) × (got_of r.1 ≡ []) × (made_of r.1 ≡ [])) }
    // The log that the pass has seen has the changes of each tunnel, or what overtook them.
    ensures entered { IfOk result (λ r. AreEntered kept.items (log_of r.1.seen)) }
    // It is the only pass of either queue.
    ensures all { IfOk result (λ r. ((items_of r.1).parts ≡ all_parts) × ((finished_of r.1).parts ≡ all_parts)) }
{
    let (mut locked, mut seen) = Locked::open(alloc, role, lns, hub)?;
    if keep_all(&mut locked, &mut seen, kept).is_err() {
        return Err(locked.into_hub());
    }
    let Ok((items, mut pass)) = ItemQueue::ruled(alloc, PLACES) else {
        return Err(locked.into_hub());
    };
    let Ok((finished, other)) = FinishedQueue::ruled(alloc, PLACES) else {
        return Err(locked.into_hub());
    };
    name_row::<Brand>(&items, &mut pass, &seen);
    Ok((
        Shared {
            locked,
            items,
            finished,
        },
        Pass {
            seen,
            items: pass,
            finished: other,
            puts: 0,
        },
    ))
}

/// A pass for another worker, which has seen as much of the cells, and took nothing. It takes no memory.
pub fn split_pass<H: Hub>(shared: &Shared<H>, pass: &mut Pass) -> Pass
    requires of { IsPassIn shared.now pass.old }
    requires parts { (1 < (items_of pass.old).parts) × (1 < (finished_of pass.old).parts) }
    ensures of { IsPassIn shared.now pass.new × IsPassIn shared.now result }
    ensures seen { (pass.new.seen ≡ pass.old.seen) × (result.seen ≡ pass.old.seen) }
    ensures same { IsAsBefore pass.old pass.new }
    ensures new { IsNew pass.old result }
    // One of its parts is the new one's.
    ensures parts { ((items_of pass.new).parts + 1 ≡ (items_of pass.old).parts) × ((finished_of pass.new).parts + 1 ≡ (finished_of pass.old).parts) }
    ensures one { ((items_of result).parts ≡ 1) × ((finished_of result).parts ≡ 1) }
{
    let items = shared.items.another::<Worker>(&mut pass.items);
    let finished = shared.finished.another::<OnePart>(&mut pass.finished);
    Pass {
        seen: shared.locked.cells.seen_again(&pass.seen),
        items,
        finished,
        puts: 0,
    }
}

/// Another worker's pass comes back. What both took has no number twice.
pub fn join_pass<H: Hub>(shared: &Shared<H>, pass: &mut Pass, other: Pass)
    requires of { IsPassIn shared.now pass.old × IsPassIn shared.now other }
    ensures of { IsPassIn shared.now pass.new }
    ensures same { (known_of pass.new ≡ known_of pass.old) × (pass.new.seen ≡ pass.old.seen) × (pass.new.puts ≡ pass.old.puts) × ((items_of pass.new).opener ≡ (items_of pass.old).opener) }
    ensures parts { ((items_of pass.new).parts ≡ (items_of pass.old).parts + (items_of other).parts) × ((finished_of pass.new).parts ≡ (finished_of pass.old).parts + (finished_of other).parts) }
    ensures took { took_of pass.new ≡ took_of pass.old ++ took_of other }
    ensures made { made_of pass.new ≡ made_of pass.old ++ made_of other }
    ensures once { EachOnce (taken_of pass.new) }
    ensures gave { gave_of pass.new ≡ gave_of pass.old ++ gave_of other }
    ensures got { got_of pass.new ≡ got_of pass.old ++ got_of other }
{
    let Pass {
        items,
        finished,
        ..
    } = other;
    shared.items.absorb::<Worker>(&mut pass.items, items);
    shared.items.learn_as::<Worker>(&mut pass.items);
    shared
        .finished
        .absorb::<OnePart>(&mut pass.finished, finished);
}
