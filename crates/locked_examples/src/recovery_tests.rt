use crate::messages::{ATTEMPT, HELLO, SCCCN, SCCRQ, for_call, lns};
use crate::steps::{ONE, TWO, connects, hears, opened, takes, ticks};
use end_model::{Out, Role};
use std::test::Fail;
use wire_base::{Cause, Why};

#[test]
fn a_tunnel_is_recovered(rt: HostRuntime) -> Result<(), Fail> {
    let alloc = rt.alloc();
    let (locked, mut seen) = opened(alloc, Role::Lns, 0, lns())?;
    assert_eq!(rt; hears(&rt, alloc, &locked, &mut seen, ONE, SCCRQ)?, Some(1));
    assert_eq!(rt; hears(&rt, alloc, &locked, &mut seen, TWO, SCCRQ)?, Some(1));
    assert!(rt; connects(&rt, alloc, &locked, &mut seen, ONE, 1)?);
    assert!(rt; connects(&rt, alloc, &locked, &mut seen, TWO, 2)?);
    // another peer doesn't recover the tunnel
    let attempt = for_call(alloc, TWO, ATTEMPT, 0, 0)?;
    let given = takes(&rt, &locked, &mut seen, &attempt);
    assert!(rt;
        given.is_some_and(|given| {
            matches!(
                given.as_slice(),
                [
                    Out::Cause {
                        cause: Cause::Recover
                    },
                    Out::Send { peer: TWO, .. }
                ]
            )
        })
    );
    // its own peer is answered, by the recovery tunnel 3; the tunnel is frozen
    assert_eq!(rt;
        hears(&rt, alloc, &locked, &mut seen, ONE, ATTEMPT)?,
        Some(1)
    );
    let hello = for_call(alloc, ONE, HELLO, 1, 0)?;
    let given = takes(&rt, &locked, &mut seen, &hello);
    assert!(rt;
        given.is_some_and(|given| matches!(given.as_slice(), [Out::Drop { why: Why::Frozen }]))
    );
    // the SCCRP goes again a second later
    assert_eq!(rt; ticks(&rt, alloc, &locked, &mut seen, 1_010), Some((1, 1)));
    // its SCCCN is for the recovery tunnel, if it comes from that peer: the tunnel goes on
    let up = for_call(alloc, TWO, SCCCN, 3, 0)?;
    let given = takes(&rt, &locked, &mut seen, &up);
    assert!(rt;
        given.is_some_and(|given| matches!(given.as_slice(), [Out::Drop { why: Why::Peer }]))
    );
    let up = for_call(alloc, ONE, SCCCN, 3, 0)?;
    let given = takes(&rt, &locked, &mut seen, &up);
    assert!(rt;
        given.is_some_and(|given| matches!(given.as_slice(), [Out::Send { peer: ONE, .. }]))
    );
    let given = takes(&rt, &locked, &mut seen, &hello);
    assert!(rt;
        given.is_some_and(|given| matches!(given.as_slice(), [Out::Send { peer: ONE, .. }]))
    );
    // two ceilings, two tunnels, and the mark
    assert_eq!(rt; locked.into_hub().records(), 5);
    Ok(())
}
