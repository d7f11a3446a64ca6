use session_query::*;
use std::alloc::Global;
use wire_base::{Pair, Pairs};

/// So many sessions: 101 with the other end's 1001, and so on. They are fewer where memory is wanting.
fn sessions(alloc: Global, count: u16) -> Pairs {
    let mut pairs = Pairs::new(alloc);
    for at in 0..count {
        let at = u32::from(at) + 1;
        let _pushed = pairs.push(Pair {
            sender: 100 + at,
            receiver: 1000 + at,
        });
    }
    pairs
}

/// The answer to so many sessions from the first one on, of which one may be gone.
fn answer(alloc: Global, first: u16, count: u16, gone: u32) -> Pairs {
    let mut pairs = Pairs::new(alloc);
    for at in 0..count {
        let at = u32::from(first) + u32::from(at);
        let _pushed = pairs.push(Pair {
            sender: if at == gone { 0 } else { 1000 + at },
            receiver: 100 + at,
        });
    }
    pairs
}

/// What is asked next: the first id and how many, or nothing. None where memory is wanting.
fn asks(query: &mut Query, alloc: Global) -> Option<Option<(u32, usize)>> {
    match query.next_fsq(alloc) {
        Ok(Some(batch)) => match batch.as_slice() {
            [first, ..] => Some(Some((first.sender, batch.len()))),
            [] => Some(Some((0, 0))),
        },
        Ok(None) => Some(None),
        Err(_) => None,
    }
}

/// What an answer tells: how many are gone, or the place where it differs. None where memory is wanting.
fn hears(query: &mut Query, alloc: Global, answers: &Pairs) -> Option<Result<usize, usize>> {
    match query.on_fsr(alloc, answers.as_slice()) {
        Ok(gone) => Some(Ok(gone.len())),
        Err(FsrError::NotAsked { at }) => Some(Err(at)),
        Err(FsrError::NoMemory) => None,
    }
}

/// What is done with a query, and what comes of it.
enum Step {
    /// This is asked, or nothing.
    Asks(Option<(u32, usize)>),
    /// The answer to so many sessions from the first one on, of which one may be gone, tells this.
    Hears {
        first: u16,
        count: u16,
        gone: u32,
        told: Result<usize, usize>,
    },
    /// Whether all is known.
    IsComplete(bool),
}

fn is_taken(alloc: Global, query: &mut Query, step: &Step) -> bool {
    match step {
        Step::Asks(batch) => asks(query, alloc) == Some(*batch),
        Step::Hears {
            first,
            count,
            gone,
            told,
        } => hears(query, alloc, &answer(alloc, *first, *count, *gone)) == Some(*told),
        Step::IsComplete(complete) => query.complete() == *complete,
    }
}

/// The steps are taken by a query of so many sessions.
fn are_taken(alloc: Global, count: u16, steps: &[Step]) -> bool {
    let Ok(mut query) = Query::start(sessions(alloc, count)) else {
        return false;
    };
    for step in steps {
        if !is_taken(alloc, &mut query, step) {
            return false;
        }
    }
    true
}

const BATCHES: [Step; 12] = [
    Step::Hears {
        first: 1,
        count: 64,
        gone: 0,
        told: Err(0),
    },
    Step::Asks(Some((101, 64))),
    Step::Asks(None),
    Step::Hears {
        first: 1,
        count: 63,
        gone: 0,
        told: Err(63),
    },
    Step::Hears {
        first: 1,
        count: 65,
        gone: 0,
        told: Err(64),
    },
    Step::Hears {
        first: 2,
        count: 64,
        gone: 0,
        told: Err(0),
    },
    Step::Hears {
        first: 1,
        count: 64,
        gone: 7,
        told: Ok(1),
    },
    Step::IsComplete(false),
    Step::Asks(Some((165, 1))),
    Step::Hears {
        first: 65,
        count: 1,
        gone: 0,
        told: Ok(0),
    },
    Step::IsComplete(true),
    Step::Asks(None),
];

const AT_ONCE: [Step; 1] = [Step::IsComplete(true)];

#[test]
fn batches_of_64(rt: HostRuntime) {
    assert!(rt; are_taken(rt.alloc(), 65, &BATCHES));
    // no sessions are complete at once
    assert!(rt; are_taken(rt.alloc(), 0, &AT_ONCE));
}

/// The other end asks for its 1001, 1002 and 1003.
const ASKED: [Pair; 3] = [
    Pair {
        sender: 1001,
        receiver: 101,
    },
    Pair {
        sender: 1002,
        receiver: 102,
    },
    Pair {
        sender: 1003,
        receiver: 103,
    },
];

/// Of these 101 and 103 are here, 103 with another session of it.
const HERE: [Pair; 2] = [
    Pair {
        sender: 103,
        receiver: 1004,
    },
    Pair {
        sender: 101,
        receiver: 1001,
    },
];

fn ids(pairs: &Pairs, at: usize) -> Option<(u32, u32)> {
    let pair = pairs.lend(at)?;
    Some((pair.sender, pair.receiver))
}

fn answers_to_what_is_asked(alloc: Global) -> Option<[Option<(u32, u32)>; 4]> {
    match answer_fsq(alloc, &ASKED, &HERE) {
        Ok(answers) => Some([
            ids(&answers, 0),
            ids(&answers, 1),
            ids(&answers, 2),
            ids(&answers, 3),
        ]),
        Err(_) => None,
    }
}

#[test]
fn what_is_answered(rt: HostRuntime) {
    let expected = [Some((101, 1001)), Some((0, 1002)), Some((0, 1003)), None];
    assert!(rt; answers_to_what_is_asked(rt.alloc()) == Some(expected));
}
