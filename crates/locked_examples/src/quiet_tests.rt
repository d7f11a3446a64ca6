ghost use Rattle.session_cells.specs.Tokens.{IsOf};

use crate::messages::{HELLO, ICRQ, SCCCN, SCCRQ, count_sent, for_call, from_peer, lns};
use crate::steps::{ONE, TWO, connects, hears, opened_over, takes, ticks};
use crate::{MemoryHub, Signals};
use end_model::{Event, Role};
use locked_tunnels::Locked;
use session_cells::CellSeen;
use std::sync::{Arc, Wait};
use std::test::Fail;
use std::thread::{Threads, join};

/// A third LAC.
const THREE: u32 = 0x0a00_000b;

/// Once the hub is held, HELLOs come in two tunnels, and then the hub may go on: how many datagrams were sent, 100 where it wasn't held.
fn greets<W: Wait>(
    rt: &W,
    locked: &Locked<MemoryHub>,
    seen: &mut CellSeen,
    signals: &Signals,
    first: &Event,
    second: &Event,
) -> usize
    requires { IsOf locked.now.cells seen.old }
    ensures { IsOf locked.now.cells seen.new }
{
    if !signals.is_held() {
        return 100;
    }
    let mut sent = 0usize;
    if let Some(given) = takes(rt, locked, seen, first) {
        sent = sent.saturating_add(count_sent(&given));
    }
    if let Some(given) = takes(rt, locked, seen, second) {
        sent = sent.saturating_add(count_sent(&given));
    }
    signals.let_go();
    sent
}

/// How many datagrams an event leads to, 100 where its turn is refused.
fn sends<W: Wait>(rt: &W, locked: &Locked<MemoryHub>, seen: &mut CellSeen, event: &Event) -> usize
    requires { IsOf locked.now.cells seen.old }
    ensures { IsOf locked.now.cells seen.new }
{
    match takes(rt, locked, seen, event) {
        Some(given) => count_sent(&given),
        None => 100,
    }
}

/// A call is asked for in one thread, and HELLOs come in two other tunnels in another: how many datagrams are sent.
fn ask_and_greet<R: Threads + Wait + Sync>(
    rt: &R,
    locked: &Locked<MemoryHub>,
    mut one: CellSeen,
    mut two: CellSeen,
    signals: &Signals,
    asks: &Event,
    first: &Event,
    second: &Event,
) -> (usize, usize)
    requires { IsOf locked.now.cells one × IsOf locked.now.cells two }
{
    join(
        rt,
        move ||
            requires { IsOf locked.now.cells one }
        { sends(rt, locked, &mut one, asks) },
        move ||
            requires { IsOf locked.now.cells two }
        { greets(rt, locked, &mut two, signals, first, second) },
    )
}

#[test]
fn turns_that_need_nothing_of_the_hub_do_not_wait_for_it(rt: HostRuntime) -> Result<(), Fail> {
    let alloc = rt.alloc();
    let signals = Arc::new(alloc, Signals::new())?;
    let hub = MemoryHub::waiting(alloc, lns(), Arc::try_clone(&signals)?);
    let (locked, mut seen) = opened_over(alloc, Role::Lns, 0, hub)?;
    assert_eq!(rt; hears(&rt, alloc, &locked, &mut seen, ONE, SCCRQ)?, Some(1));
    assert_eq!(rt; hears(&rt, alloc, &locked, &mut seen, TWO, SCCRQ)?, Some(1));
    assert_eq!(rt;
        hears(&rt, alloc, &locked, &mut seen, THREE, SCCRQ)?,
        Some(1)
    );
    assert!(rt; connects(&rt, alloc, &locked, &mut seen, ONE, 1)?);
    assert!(rt; connects(&rt, alloc, &locked, &mut seen, TWO, 2)?);
    assert!(rt; connects(&rt, alloc, &locked, &mut seen, THREE, 3)?);
    signals.ask();
    let asks = for_call(alloc, ONE, ICRQ, 1, 0)?;
    let first = for_call(alloc, TWO, HELLO, 2, 0)?;
    let second = for_call(alloc, THREE, HELLO, 3, 0)?;
    let other = locked.cells.seen_again(&seen);
    let (asked, greeted) = ask_and_greet(
        &rt, &locked, seen, other, &signals, &asks, &first, &second,
    );
    // the ICRP, and two acknowledgements
    assert_eq!(rt; asked, 1);
    assert_eq!(rt; greeted, 2);
    assert_eq!(rt; signals.met(), 1);
    // two ceilings, and three tunnels
    assert_eq!(rt; locked.into_hub().records(), 5);
    Ok(())
}

#[test]
fn no_turn_is_made_behind_a_refused_commit(rt: HostRuntime) -> Result<(), Fail> {
    let alloc = rt.alloc();
    // the ceiling and the first tunnel are committed, the second isn't
    let hub = MemoryHub::failing(alloc, lns(), 2);
    let (locked, mut seen) = opened_over(alloc, Role::Lns, 0, hub)?;
    assert_eq!(rt; hears(&rt, alloc, &locked, &mut seen, ONE, SCCRQ)?, Some(1));
    assert_eq!(rt; hears(&rt, alloc, &locked, &mut seen, TWO, SCCRQ)?, Some(1));
    assert_eq!(rt; hears(&rt, alloc, &locked, &mut seen, ONE, SCCCN)?, Some(1));
    let hello = from_peer(alloc, ONE, HELLO)?;
    assert_eq!(rt; sends(&rt, &locked, &mut seen, &hello), 1);
    let up = for_call(alloc, TWO, SCCCN, 2, 0)?;
    assert!(rt; takes(&rt, &locked, &mut seen, &up).is_none());
    // not even one that needs nothing of the hub
    assert!(rt; takes(&rt, &locked, &mut seen, &hello).is_none());
    assert_eq!(rt; ticks(&rt, alloc, &locked, &mut seen, 1_010), None);
    assert_eq!(rt; locked.into_hub().records(), 2);
    Ok(())
}
