use crate::messages::{SCCCN, SCCRQ, from_peer, lns};
use crate::steps::{ONE, TWO, hears, opened, takes_at, ticks};
use end_model::Role;
use std::test::Fail;

#[test]
fn a_tick_is_for_those_that_are_due(rt: HostRuntime) -> Result<(), Fail> {
    let alloc = rt.alloc();
    let (locked, mut seen) = opened(alloc, Role::Lns, 0, lns())?;
    assert_eq!(rt; hears(&rt, alloc, &locked, &mut seen, ONE, SCCRQ)?, Some(1));
    let later = from_peer(alloc, TWO, SCCRQ)?;
    assert!(rt; takes_at(&rt, &locked, &mut seen, 500, &later).is_some());
    // each SCCRP goes again a second after it went, and two seconds after that
    assert_eq!(rt; ticks(&rt, alloc, &locked, &mut seen, 1_009), Some((0, 0)));
    assert_eq!(rt; ticks(&rt, alloc, &locked, &mut seen, 1_010), Some((1, 1)));
    assert_eq!(rt; ticks(&rt, alloc, &locked, &mut seen, 1_499), Some((0, 0)));
    assert_eq!(rt; ticks(&rt, alloc, &locked, &mut seen, 1_500), Some((1, 1)));
    assert_eq!(rt; ticks(&rt, alloc, &locked, &mut seen, 3_500), Some((2, 2)));
    Ok(())
}

#[test]
fn a_turn_moves_what_is_due(rt: HostRuntime) -> Result<(), Fail> {
    let alloc = rt.alloc();
    let (locked, mut seen) = opened(alloc, Role::Lns, 0, lns())?;
    assert_eq!(rt; hears(&rt, alloc, &locked, &mut seen, ONE, SCCRQ)?, Some(1));
    assert_eq!(rt; hears(&rt, alloc, &locked, &mut seen, TWO, SCCRQ)?, Some(1));
    assert_eq!(rt; hears(&rt, alloc, &locked, &mut seen, ONE, SCCCN)?, Some(1));
    // the acknowledged SCCRP doesn't go again, the other does
    assert_eq!(rt; ticks(&rt, alloc, &locked, &mut seen, 1_010), Some((1, 1)));
    // an open tunnel is greeted after a minute of silence; the other isn't set up by then, and is gone
    assert_eq!(rt; ticks(&rt, alloc, &locked, &mut seen, 60_010), Some((2, 1)));
    // the HELLO goes again a second later
    assert_eq!(rt; ticks(&rt, alloc, &locked, &mut seen, 61_009), Some((0, 0)));
    assert_eq!(rt; ticks(&rt, alloc, &locked, &mut seen, 61_010), Some((1, 1)));
    Ok(())
}
