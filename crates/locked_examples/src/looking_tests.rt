use crate::messages::{SCCRQ, lac, lns};
use crate::steps::{LNS, ONE, TWO, brings_up, hears, opened, takes};
use end_model::{Event, Role};
use locked_tunnels::{has_call, next_session, subscriber_of};
use std::test::Fail;

/// Two stations.
const STATION: [u8; 6] = [2, 0, 0, 0, 0, 0x11];

const OTHER: [u8; 6] = [2, 0, 0, 0, 0, 0x22];

#[test]
fn calls_that_wait_for_their_tunnel_are_told(rt: HostRuntime) -> Result<(), Fail> {
    let alloc = rt.alloc();
    let (locked, mut seen) = opened(alloc, Role::Lac, LNS, lac())?;
    assert_eq!(rt; next_session(&rt, &locked), Some(1));
    assert!(rt; !has_call(&rt, &locked, &mut seen, 1)?);
    assert_eq!(rt; subscriber_of(&rt, &locked, 1, 1)?, None);
    let event = Event::Admitted { mac: STATION };
    assert!(rt; takes(&rt, &locked, &mut seen, &event).is_some());
    assert_eq!(rt; next_session(&rt, &locked), Some(2));
    let event = Event::Admitted { mac: OTHER };
    assert!(rt; takes(&rt, &locked, &mut seen, &event).is_some());
    assert_eq!(rt; next_session(&rt, &locked), Some(3));
    assert!(rt; has_call(&rt, &locked, &mut seen, 1)?);
    assert!(rt; has_call(&rt, &locked, &mut seen, 2)?);
    assert!(rt; !has_call(&rt, &locked, &mut seen, 3)?);
    assert_eq!(rt; subscriber_of(&rt, &locked, 1, 1)?, Some(STATION));
    assert_eq!(rt; subscriber_of(&rt, &locked, 1, 2)?, Some(OTHER));
    // neither in another tunnel, nor once it hung up
    assert_eq!(rt; subscriber_of(&rt, &locked, 2, 2)?, None);
    let event = Event::Hang { session: 1 };
    assert!(rt; takes(&rt, &locked, &mut seen, &event).is_some());
    assert!(rt; !has_call(&rt, &locked, &mut seen, 1)?);
    assert_eq!(rt; subscriber_of(&rt, &locked, 1, 1)?, None);
    assert_eq!(rt; subscriber_of(&rt, &locked, 1, 2)?, Some(OTHER));
    Ok(())
}

#[test]
fn calls_of_two_tunnels_are_told(rt: HostRuntime) -> Result<(), Fail> {
    let alloc = rt.alloc();
    let (locked, mut seen) = opened(alloc, Role::Lns, 0, lns())?;
    assert_eq!(rt; hears(&rt, alloc, &locked, &mut seen, ONE, SCCRQ)?, Some(1));
    assert_eq!(rt; hears(&rt, alloc, &locked, &mut seen, TWO, SCCRQ)?, Some(1));
    assert!(rt; brings_up(&rt, alloc, &locked, &mut seen, TWO, 2)?);
    assert!(rt; brings_up(&rt, alloc, &locked, &mut seen, ONE, 1)?);
    assert_eq!(rt; next_session(&rt, &locked), Some(3));
    assert!(rt; has_call(&rt, &locked, &mut seen, 1)?);
    assert!(rt; has_call(&rt, &locked, &mut seen, 2)?);
    assert!(rt; subscriber_of(&rt, &locked, 2, 1)?.is_some());
    assert!(rt; subscriber_of(&rt, &locked, 1, 2)?.is_some());
    assert_eq!(rt; subscriber_of(&rt, &locked, 1, 1)?, None);
    // one that an operator ends is dead, also in its cell
    let event = Event::DropCall { session: 1 };
    assert!(rt; takes(&rt, &locked, &mut seen, &event).is_some());
    assert!(rt; !has_call(&rt, &locked, &mut seen, 1)?);
    assert!(rt; has_call(&rt, &locked, &mut seen, 2)?);
    assert_eq!(rt; subscriber_of(&rt, &locked, 2, 1)?, None);
    Ok(())
}
