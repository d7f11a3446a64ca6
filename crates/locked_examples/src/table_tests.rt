ghost use Rattle.session_cells.specs.Tokens.{IsOf};

use crate::MemoryHub;
use crate::messages::{
    HELLO, ICCN, ICRQ, SCCCN, SCCRP, SCCRQ, STOP_CCN, count_sent, from_peer, lac, lns,
};
use crate::steps::{LNS, ONE, TWO, brings_up, hears, opened, takes, ticks};
use end_model::{Event, Out, Role};
use locked_tunnels::Locked;
use session_cells::CellSeen;
use session_looks::Look;
use std::alloc::Global;
use std::sync::Wait;
use std::test::Fail;
use std::thread::{Threads, join};
use wire_base::{NoMemory, Why};

#[test]
fn a_table_takes_a_tunnel_and_its_call(rt: HostRuntime) -> Result<(), Fail> {
    let alloc = rt.alloc();
    let (locked, mut seen) = opened(alloc, Role::Lns, 0, lns())?;
    assert_eq!(rt; hears(&rt, alloc, &locked, &mut seen, ONE, SCCRQ)?, Some(1));
    assert_eq!(rt; hears(&rt, alloc, &locked, &mut seen, ONE, SCCCN)?, Some(1));
    assert_eq!(rt; hears(&rt, alloc, &locked, &mut seen, ONE, ICRQ)?, Some(1));
    // an acknowledgement, and the first request of the call's LCP
    assert_eq!(rt; hears(&rt, alloc, &locked, &mut seen, ONE, ICCN)?, Some(2));
    let look = locked.cells.lookup(&mut seen, 1);
    assert!(rt;
        matches!(
            look,
            Look::Bound {
                tunnel: 1,
                peer: ONE
            }
        )
    );
    // two ceilings, the tunnel and the call
    assert_eq!(rt; locked.into_hub().records(), 4);
    Ok(())
}

#[test]
fn an_sccrq_that_comes_again_makes_no_second_tunnel(rt: HostRuntime) -> Result<(), Fail> {
    let alloc = rt.alloc();
    let (locked, mut seen) = opened(alloc, Role::Lns, 0, lns())?;
    assert_eq!(rt; hears(&rt, alloc, &locked, &mut seen, ONE, SCCRQ)?, Some(1));
    assert!(rt; hears(&rt, alloc, &locked, &mut seen, ONE, SCCRQ)?.is_some());
    // a second later the one SCCRP goes again
    assert_eq!(rt; ticks(&rt, alloc, &locked, &mut seen, 1_010), Some((1, 1)));
    // that of another peer does; three seconds after the first both go again
    assert_eq!(rt; hears(&rt, alloc, &locked, &mut seen, TWO, SCCRQ)?, Some(1));
    assert_eq!(rt; ticks(&rt, alloc, &locked, &mut seen, 3_010), Some((2, 2)));
    Ok(())
}

#[test]
fn a_tick_goes_to_each_tunnel(rt: HostRuntime) -> Result<(), Fail> {
    let alloc = rt.alloc();
    let (locked, mut seen) = opened(alloc, Role::Lns, 0, lns())?;
    assert_eq!(rt; hears(&rt, alloc, &locked, &mut seen, ONE, SCCRQ)?, Some(1));
    assert_eq!(rt; hears(&rt, alloc, &locked, &mut seen, TWO, SCCRQ)?, Some(1));
    // a second later each SCCRP goes again
    assert_eq!(rt; ticks(&rt, alloc, &locked, &mut seen, 1_010), Some((2, 2)));
    Ok(())
}

#[test]
fn a_tunnel_that_is_gone_is_an_unknown_one(rt: HostRuntime) -> Result<(), Fail> {
    let alloc = rt.alloc();
    let (locked, mut seen) = opened(alloc, Role::Lns, 0, lns())?;
    assert_eq!(rt; hears(&rt, alloc, &locked, &mut seen, ONE, SCCRQ)?, Some(1));
    assert_eq!(rt; hears(&rt, alloc, &locked, &mut seen, ONE, SCCCN)?, Some(1));
    assert_eq!(rt;
        hears(&rt, alloc, &locked, &mut seen, ONE, STOP_CCN)?,
        Some(1)
    );
    // it stays for 31 seconds, to acknowledge the StopCCN again
    assert_eq!(rt; ticks(&rt, alloc, &locked, &mut seen, 40_000), Some((1, 0)));
    assert_eq!(rt; ticks(&rt, alloc, &locked, &mut seen, 40_000), Some((0, 0)));
    let hello = from_peer(alloc, ONE, HELLO)?;
    let given = takes(&rt, &locked, &mut seen, &hello);
    assert!(rt;
        given.is_some_and(|given| matches!(given.as_slice(), [Out::Drop { why: Why::Tunnel }]))
    );
    Ok(())
}

#[test]
fn a_call_that_the_lns_does_not_know_yet_is_found(rt: HostRuntime) -> Result<(), Fail> {
    let alloc = rt.alloc();
    let (locked, mut seen) = opened(alloc, Role::Lac, LNS, lac())?;
    let sent = takes(&rt, &locked, &mut seen, &Event::Ring { port: 1 });
    assert_eq!(rt; sent.map(|given| count_sent(&given)), Some(1));
    let sent = takes(&rt, &locked, &mut seen, &Event::Ring { port: 2 });
    assert_eq!(rt; sent.map(|given| count_sent(&given)), Some(0));
    // the first call ends while the tunnel is opened: only the second is asked for then, behind the SCCCN
    let sent = takes(&rt, &locked, &mut seen, &Event::Hang { session: 1 });
    assert_eq!(rt; sent.map(|given| count_sent(&given)), Some(0));
    assert_eq!(rt; hears(&rt, alloc, &locked, &mut seen, LNS, SCCRP)?, Some(2));
    Ok(())
}

/// Two threads bring up a tunnel each.
fn bring_up_both<R: Threads + Wait + Sync>(
    rt: &R,
    alloc: Global,
    locked: &Locked<MemoryHub>,
    mut one: CellSeen,
    mut two: CellSeen,
) -> (Result<bool, NoMemory>, Result<bool, NoMemory>)
    requires { IsOf locked.now.cells one × IsOf locked.now.cells two }
{
    join(
        rt,
        move ||
            requires { IsOf locked.now.cells one }
        { brings_up(rt, alloc, locked, &mut one, ONE, 1) },
        move ||
            requires { IsOf locked.now.cells two }
        { brings_up(rt, alloc, locked, &mut two, TWO, 2) },
    )
}

#[test]
fn two_threads_bring_up_a_tunnel_each(rt: HostRuntime) -> Result<(), Fail> {
    let alloc = rt.alloc();
    let (locked, mut seen) = opened(alloc, Role::Lns, 0, lns())?;
    assert_eq!(rt; hears(&rt, alloc, &locked, &mut seen, ONE, SCCRQ)?, Some(1));
    assert_eq!(rt; hears(&rt, alloc, &locked, &mut seen, TWO, SCCRQ)?, Some(1));
    let other = locked.cells.seen_again(&seen);
    let (first, second) = bring_up_both(&rt, alloc, &locked, seen, other);
    assert!(rt; first? && second?);
    // two ceilings, two tunnels and two calls
    assert_eq!(rt; locked.into_hub().records(), 6);
    Ok(())
}
