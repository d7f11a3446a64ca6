//! What the tests do with the queues of an LNS.

ghost use Rattle.std.specs.Prelude.{◌≡◌, IfOk};
ghost use Rattle.session_workers.specs.Items.{all_parts};
ghost use Rattle.session_workers.specs.Passes.{items_of, finished_of, IsPassIn, IsOpener};

use data_plane::Carry;
use end_model::{Config, Role};
use locked_examples::MemoryHub;
use locked_tunnels::KeptTunnel;
use session_cells::CellSeen;
use session_workers::*;
use std::alloc::Global;
use std::sync::Wait;
use step_hub::Hub;
use wire_base::{Bytes, NoMemory};

/// The LAC 1 at 10.0.0.1.
pub const PEER: u32 = 0x0a00_0001;

/// Random bytes for a turn; an LNS takes the magic number of a call from the last four.
pub const BLOCK: [u8; 16] = [0, 0, 0, 0, 0, 0, 0, 2, 0, 0, 0, 0, 0, 0, 0, 9];

/// A data message of session 7 in tunnel 3, with an IP packet.
pub const IP: &str = "0002000300070021450001";

/// A control message of tunnel 3: Ns 1, Nr 2, and no pair.
pub const CONTROL: &str = "c802000c0003000000010002";

/// An SCCRQ of the LAC, which assigns the tunnel id 1.
pub const SCCRQ: &str =
    "c802004c000000000000000080080000000000018008000000020100800a0000000300000003800a000000076c616331800800000009000180080000000a0008000c0000004c000300007530";

/// A hub in memory of the LNS 2 at 10.0.0.2. Where `fails` is set, its store fails at the first turn.
pub fn memory_hub(alloc: Global, fails: bool) -> MemoryHub {
    MemoryHub::new(alloc, Config::new(2, 0x0a00_0002, 0, None, false), fails)
}

/// What workers share of an LNS over a hub, with a tunnel that was kept where there is one, and the opener's pass.
pub fn open_lns<H: Hub + Drop>(
    alloc: Global,
    kept: Option<KeptTunnel>,
    hub: H,
) -> Result<(Shared<H>, Pass), NoMemory>
    ensures of { IfOk result (λ r. IsPassIn r.0 r.1 × IsOpener r.1) }
    ensures parts { IfOk result (λ r. ((items_of r.1).parts ≡ all_parts) × ((finished_of r.1).parts ≡ all_parts)) }
{
    let mut tunnels = Vec::new(alloc);
    if let Some(tunnel) = kept {
        tunnels.push(tunnel)?;
    }
    match open_shared(alloc, Role::Lns, 0, tunnels, hub) {
        Ok(opened) => Ok(opened),
        Err(_hub) => Err(NoMemory),
    }
}

fn item(seen: CellSeen, bytes: Bytes) -> Item
    ensures { result.seen ≡ seen }
{
    Item {
        seen,
        lns: true,
        peer: PEER,
        bytes,
        now: 10,
        block: BLOCK,
    }
}

/// Puts a datagram with these hex digits, with what the opener has seen: 0 where it was taken in, the capacity of the queue where that
/// was full, and 1 where memory was wanting.
pub fn put_one<W: Wait, H: Hub>(
    rt: &W,
    alloc: Global,
    shared: &Shared<H>,
    pass: &mut Pass,
    digits: &str,
) -> usize
    requires { IsPassIn shared.now pass.old × IsOpener pass.old }
    ensures of { IsPassIn shared.now pass.new × IsOpener pass.new }
    ensures parts { ((items_of pass.new).parts ≡ (items_of pass.old).parts) × ((finished_of pass.new).parts ≡ (finished_of pass.old).parts) }
{
    let Ok(decoded) = hex::decode(alloc, digits) else {
        return 1;
    };
    let Ok(bytes) = Bytes::from_slice(alloc, decoded.as_slice()) else {
        return 1;
    };
    let item = item(shared.locked.cells.seen_again(&pass.seen), bytes);
    match put(rt, shared, pass, item) {
        Ok(()) => 0,
        Err(full) => full.capacity,
    }
}

/// Its number, and 1 where its frame goes up, 2 where it is dropped, 3 where it brought about a turn, 4 where that was refused.
pub fn told(finished: &Finished) -> (u64, u8) {
    let way = match &finished.done {
        Done::Carried {
            carry: Carry::Up { .. },
        } => 1,
        Done::Carried {
            carry: Carry::Dropped { .. },
        } => 2,
        Done::Turned { .. } => 3,
        Done::Failed { .. } => 4,
    };
    (finished.number, way)
}

/// Works an item and hands it over: its number and way, and zeros where none waits.
pub fn work<W: Wait, H: Hub, G: Gate>(
    rt: &W,
    shared: &Shared<H>,
    pass: &mut Pass,
    gate: &G,
) -> (u64, u8)
    requires { IsPassIn shared.now pass.old }
    ensures of { IsPassIn shared.now pass.new }
    ensures opener { IsOpener pass.old → IsOpener pass.new }
{
    match work_one(rt, shared, pass, gate) {
        Worked::Empty => (0, 0),
        Worked::Done(finished) => {
            let way = told(&finished);
            let _ = hand_over(rt, shared, pass, finished);
            way
        }
    }
}

/// Collects an item: its number and way, and zeros where none was handed over.
pub fn take<W: Wait, H: Hub>(rt: &W, shared: &Shared<H>, pass: &mut Pass) -> (u64, u8)
    requires { IsPassIn shared.now pass.old }
    ensures { IsPassIn shared.now pass.new }
{
    match collect(rt, shared, pass) {
        None => (0, 0),
        Some(finished) => told(&finished),
    }
}

/// Establishes session 7 in tunnel 3.
pub fn establish<H: Hub>(shared: &Shared<H>, pass: &mut Pass) -> bool
    requires { IsPassIn shared.now pass.old }
    ensures of { IsPassIn shared.now pass.new }
    ensures same { (items_of pass.new ≡ items_of pass.old) × (finished_of pass.new ≡ finished_of pass.old) × (pass.new.puts ≡ pass.old.puts) }
{
    let cells = &shared.locked.cells;
    cells.bind(&mut pass.seen, 7, 3, PEER).is_ok() && cells.establish(&mut pass.seen, 7).is_ok()
}

/// Holds nothing.
pub struct Open;

impl Gate for Open {
    fn before(&self, _number: u64) {}

    fn after(&self, _number: u64) {}
}
