//! Items are put, worked, handed over and collected.

ghost use Rattle.std.specs.Prelude.{◌≡◌, ◌+◌, ◌++◌, ◌∷◌, [], true, length, Some, IfOk, OnOk, IfErr};
ghost use mathlib.Core.List.{IsPrefix};
ghost use Rattle.crossbeam_queue.specs.Fifo.{Held};
ghost use Rattle.crossbeam_queue.specs.Passes.{view, IsPassOf};
ghost use Rattle.session_cells.specs.Tokens.{log_of, IsOf, Later};
ghost use Rattle.end_model.specs.declared.event.Event.TheVariants as events;
ghost use Rattle.locked_tunnels.specs.Turns.{IsTurnOf};
ghost use Rattle.session_workers.specs.Done.{carried_of, told_of, due_of};
ghost use Rattle.data_plane.specs.Carries.{role_of, look_at, load_of, IsData};
ghost use Rattle.session_workers.specs.Finishing.{Evens, making_finished};
ghost use Rattle.session_workers.specs.Passes.{items_of, finished_of, known_of, took_of, made_of, gave_of, got_of, IsPassIn, IsOpener, numbered, WasFull, WorkedOne, CollectedOne};

use crate::finished::{Done, Finished, Worked};
use crate::finishing::{FinishedQueue, Gets, Gives, Made, Making};
use crate::item::{Item, Numbered};
use crate::items::{Puts, Takes};
use crate::passes::PLACES;
use crate::shared::{Full, Pass, Shared};
use crate::views::FinishedView;
use data_plane::{Carry, carry_in};
use end_model::Event;
use l2tp_datagram::Datagram;
use l2tp_header::read_header;
use locked_tunnels::{Turned, turn_one};
use session_cells::CellSeen;
use std::marker::Brand;
use std::sync::Wait;
use step_hub::{Hub, StepError};
use wire_base::Bytes;

/// What is done before a worker makes something of an item, and after it.
pub trait Gate {
    fn before(&self, number: u64);

    fn after(&self, number: u64);
}

/// Puts an item behind all others, and gives it the next number, from 1 on. `Full` comes only where the queue was full at some
/// moment of the call, or every number of 64 bits was given. Conditions: the pass is the opener's, and the item's token tells of
/// these cells what the pass has seen.
pub fn put<W: Wait, H: Hub>(
    rt: &W,
    shared: &Shared<H>,
    pass: &mut Pass,
    item: Item,
) -> Result<(), Full>
    requires of { IsPassIn shared.now pass.old }
    requires opener { IsOpener pass.old }
    requires seen { IsOf shared.now.locked.cells item.seen × (log_of item.seen ≡ log_of pass.old.seen) }
    ensures of { IsPassIn shared.now pass.new × IsOpener pass.new }
    ensures same { (pass.new.seen ≡ pass.old.seen) × (took_of pass.new ≡ took_of pass.old) × (finished_of pass.new ≡ finished_of pass.old) × ((items_of pass.new).parts ≡ (items_of pass.old).parts) }
    ensures ok { OnOk result (known_of pass.new ≡ known_of pass.old ++ numbered (length (known_of pass.old) + 1) item ∷ []) }
    ensures full { IfErr result (λ f. (f.capacity ≡ 1024) × (f.item ≡ item) × (items_of pass.new ≡ items_of pass.old) × WasFull pass.old) }
{
    if pass.puts == u64::MAX {
        return Err(Full {
            capacity: PLACES,
            item,
        });
    }
    let number = pass.puts + 1;
    match shared
        .items
        .push_as::<Puts, W>(rt, &mut pass.items, Numbered { number, item })
    {
        Ok(()) => {
            pass.puts = number;
            Ok(())
        }
        Err(back) => Err(Full {
            capacity: PLACES,
            item: back.item,
        }),
    }
}

/// The turn that a control message brings about.
fn turn_for<W: Wait, H: Hub>(
    rt: &W,
    shared: &Shared<H>,
    seen: &mut CellSeen,
    item: &Item,
) -> Result<Turned, StepError>
    requires of { IsOf shared.now.locked.cells seen.old }
    ensures later { Later shared.now.locked.cells seen.old seen.new }
    ensures told { IfOk result (λ t. IsTurnOf (events.Datagram item.entry.now.peer item.entry.now.bytes) item.entry.now.now item.entry.now.block t) }
{
    let alloc = item.bytes.allocator();
    let bytes = Bytes::from_slice(alloc, item.bytes.as_slice())?;
    let event = Event::Datagram {
        peer: item.peer,
        datagram: Datagram::read(alloc, bytes),
    };
    turn_one(rt, &shared.locked, seen, item.now, item.block, &event)
}

/// What becomes of a data message by the cell of the session that its header names.
fn judge<H: Hub>(shared: &Shared<H>, seen: &mut CellSeen, item: &Item) -> Carry
    requires of { IsOf shared.now.locked.cells seen.old }
    requires data { IsData item.now.bytes }
    ensures later { Later shared.now.locked.cells seen.old seen.new }
    ensures exact { load_of (role_of item.entry.now.lns) (look_at 65536 (log_of seen.new)) item.entry.now.peer item.entry.now.bytes ≡ Some result }
{
    let datagram = item.bytes.as_slice();
    carry_in(&shared.locked.cells, seen, item.lns, item.peer, datagram)
}

/// What becomes of an item: a control message brings about a turn, and all else is judged by the cell of the session that its header
/// names.
#[tactic(auto, unfolding(data_plane::specs::Carries::load_by))]
fn finish<W: Wait, H: Hub>(rt: &W, shared: &Shared<H>, seen: &mut CellSeen, item: &Item) -> Done
    requires of { IsOf shared.now.locked.cells seen.old }
    ensures later { Later shared.now.locked.cells seen.old seen.new }
    ensures load { carried_of result ≡ load_of (role_of item.entry.now.lns) (look_at 65536 (log_of seen.new)) item.entry.now.peer item.entry.now.bytes }
    ensures turn { told_of result ≡ due_of result item.entry.now }
{
    match read_header(item.bytes.as_slice()) {
        Ok(header) if header.control => match turn_for(rt, shared, seen, item) {
            Ok(turned) => Done::Turned { turned },
            Err(error) => Done::Failed { error },
        },
        _ => Done::Carried {
            carry: judge(shared, seen, item),
        },
    }
}

/// What was made of an item is noted, for proofs alone.
fn note<J: Making>(
    queue: &FinishedQueue,
    pass: &mut crossbeam_queue::Pass<Finished, FinishedView>,
    finished: &Finished,
)
    requires made { finished.now ∷ [] ≡ J.made }
    requires queue { IsPassOf queue.now pass.old }
    ensures queue { IsPassOf queue.now pass.new }
    ensures noted { view pass.new ≡ making_finished (view pass.old) (finished.now ∷ []) }
{
    let _ = queue.another::<Made<J>>(pass);
}

/// Takes the item that waits longest: a data message is judged by the cells as its caller had seen them, or later, and a control message
/// brings about its turn. `Empty` comes only where no item waited at some moment of the call.
pub fn work_one<W: Wait, H: Hub, G: Gate>(
    rt: &W,
    shared: &Shared<H>,
    pass: &mut Pass,
    gate: &G,
) -> Worked
    requires of { IsPassIn shared.now pass.old }
    ensures of { IsPassIn shared.now pass.new }
    ensures same { (pass.new.seen ≡ pass.old.seen) × ((items_of pass.new).parts ≡ (items_of pass.old).parts) × ((items_of pass.new).opener ≡ (items_of pass.old).opener) × (gave_of pass.new ≡ gave_of pass.old) × (pass.new.puts ≡ pass.old.puts) × (got_of pass.new ≡ got_of pass.old) × ((finished_of pass.new).parts ≡ (finished_of pass.old).parts) }
    ensures known { IsPrefix (known_of pass.old) (known_of pass.new) }
    ensures opener { (items_of pass.old).opener ≡ true → known_of pass.new ≡ known_of pass.old }
    ensures worked { WorkedOne shared.now pass.old pass.new result }
{
    let Some(taken) = shared.items.pop_as::<Takes, W>(rt, &mut pass.items) else {
        return Worked::Empty;
    };
    let Numbered { number, item } = taken;
    gate.before(number);
    let mut seen = shared.locked.cells.seen_again(&item.seen);
    let done = finish(rt, shared, &mut seen, &item);
    gate.after(number);
    let finished = Finished {
        number,
        item,
        seen,
        done,
        worked: (),
    };
    note::<Brand>(&shared.finished, &mut pass.finished, &finished);
    Worked::Done(finished)
}

/// Hands over what is finished. It comes back only where the second queue was full at some moment of the call.
pub fn hand_over<W: Wait, H: Hub>(
    rt: &W,
    shared: &Shared<H>,
    pass: &mut Pass,
    finished: Finished,
) -> Result<(), Finished>
    requires of { IsPassIn shared.now pass.old }
    ensures of { IsPassIn shared.now pass.new }
    ensures same { (pass.new.seen ≡ pass.old.seen) × (items_of pass.new ≡ items_of pass.old) × (got_of pass.new ≡ got_of pass.old) × ((finished_of pass.new).parts ≡ (finished_of pass.old).parts) × (pass.new.puts ≡ pass.old.puts) × (made_of pass.new ≡ made_of pass.old) }
    ensures ok { OnOk result (gave_of pass.new ≡ gave_of pass.old ++ finished ∷ []) }
    ensures full { IfErr result (λ f. (f ≡ finished) × (finished_of pass.new ≡ finished_of pass.old) × Held 1024 (Evens (finished_of pass.old))) }
{
    let queue = &shared.finished;
    queue.push_as::<Gives, W>(rt, &mut pass.finished, finished)
}

/// Takes what was handed over first. Nothing comes only where nothing waited there at some moment of the call.
pub fn collect<W: Wait, H: Hub>(rt: &W, shared: &Shared<H>, pass: &mut Pass) -> Option<Finished>
    requires of { IsPassIn shared.now pass.old }
    ensures of { IsPassIn shared.now pass.new }
    ensures same { (pass.new.seen ≡ pass.old.seen) × (items_of pass.new ≡ items_of pass.old) × (gave_of pass.new ≡ gave_of pass.old) × ((finished_of pass.new).parts ≡ (finished_of pass.old).parts) × (pass.new.puts ≡ pass.old.puts) × (made_of pass.new ≡ made_of pass.old) }
    ensures collected { CollectedOne pass.old pass.new result }
{
    shared.finished.pop_as::<Gets, W>(rt, &mut pass.finished)
}
