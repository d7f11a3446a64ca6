use recv_window::*;
use std::alloc::{AllocError, Global};
use std::test::Fail;

/// Numbers that come and their classes: where 65,535 is next, behind it, and where 7 is next.
const BEFORE: [(u16, Class); 1] = [(65_535, Class::Next)];

const BEHIND: [(u16, Class); 5] = [
    (65_535, Class::Duplicate),
    (0, Class::Next),
    (1, Class::Ahead { by: 1 }),
    (32_767, Class::Ahead { by: 32_767 }),
    (32_768, Class::Duplicate),
];

const RESET: [(u16, Class); 2] = [(7, Class::Next), (6, Class::Duplicate)];

/// Whether these numbers are of these classes.
fn are(inbox: &Inbox, rows: &[(u16, Class)]) -> bool {
    for (number, class) in rows {
        if inbox.classify(*number) != *class {
            return false;
        }
    }
    true
}

fn wraps(inbox: &mut Inbox) -> [bool; 4] {
    let before = are(inbox, &BEFORE);
    inbox.take();
    let counts = inbox.taken_count() == 65_536 && inbox.expected() == 0;
    let behind = are(inbox, &BEHIND);
    inbox.reset(7);
    [before, counts, behind, are(inbox, &RESET)]
}

#[test]
fn numbers_wrap(rt: HostRuntime) {
    let mut inbox = Inbox::new(65_535);
    assert!(rt; wraps(&mut inbox) == [true; 4]);
}

/// Takes a message that comes, and then what is kept and has become next: what is taken, in order.
fn receive(
    alloc: Global,
    inbox: &mut Inbox,
    kept: &mut KeptAhead<u32>,
    ns: u16,
    message: u32,
) -> Result<Vec<u32>, AllocError> {
    let mut taken = Vec::new(alloc);
    match inbox.classify(ns) {
        Class::Next => {
            inbox.take();
            kept.shift();
            taken.push(message)?;
            while let Some(message) = kept.take_next() {
                inbox.take();
                taken.push(message)?;
            }
        }
        Class::Ahead { by } if by < PLACES => {
            kept.keep(by, message);
        }
        _ => {}
    }
    Ok(taken)
}

/// The second of two messages comes first: it is kept, its copy isn't, and both are taken in order.
#[test]
fn the_second_comes_first(rt: HostRuntime) -> Result<(), Fail> {
    let alloc = rt.alloc();
    let mut inbox = Inbox::new(2);
    let mut kept = KeptAhead::new();
    for (ns, message) in [(3, 30), (3, 31), (10, 100)] {
        assert!(rt; receive(alloc, &mut inbox, &mut kept, ns, message)?.is_empty());
    }
    assert_eq!(rt;
        receive(alloc, &mut inbox, &mut kept, 2, 20)?.as_slice(),
        [20, 30].as_slice()
    );
    assert_eq!(rt; inbox.expected(), 4);
    Ok(())
}

/// What has become next is lent, and nothing is kept once it is forgotten.
#[test]
fn what_is_kept_is_forgotten(rt: HostRuntime) {
    let mut kept = KeptAhead::new();
    let keeps = kept.keep(1, 'a') && !kept.keep(1, 'b') && kept.keep(7, 'c');
    kept.shift();
    let lends = kept.next() == Some(&'a');
    kept.forget();
    assert!(rt; keeps && lends && kept.next().is_none() && kept.keep(6, 'd'));
}
