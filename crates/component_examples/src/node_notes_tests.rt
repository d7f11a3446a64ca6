use crate::judging::{bytes_of, none_is_wrong};
use end_model::{
    Accepted, Closed, ClosedBy, Confirmed, Connected, Declined, EndHeard, EndSilent, EndTold,
    FirstUp, Forgot, Froze, Move, NrRead, Out, Place, Refused, Rejected, ResetAnswering,
    ResetAttempting, Restored, SecondUp, TookAnswer,
};
use node_notes::push_notes;
use session_book::{BookCall, BookTunnel};
use std::alloc::Global;
use wire_base::{Cause, NoMemory, Pairs, Sequence, Why};

// The lines were written by hand, by the table of forms in docs/notes.md.

const TAKEN: Place = Place { number: 71 };

const GIVEN: Place = Place { number: 72 };

/// Whether a step has these lines, behind what was there before.
fn writes(alloc: Global, moves: &[Move], outputs: &[Out], lines: &[u8]) -> bool {
    let mut out = bytes_of(alloc, b"> ");
    let is_whole = push_notes(&mut out, moves, outputs).is_ok();
    match out.as_slice() {
        [b'>', b' ', told @ ..] => is_whole && told == lines,
        _ => false,
    }
}

/// Whether a move has these lines, where the step tells no cause.
fn row(alloc: Global, step: Move, lines: &[u8]) -> bool {
    writes(alloc, &[step], &[], lines)
}

fn connected(tunnel: u16, peer: u32, remote: u16) -> Move {
    Move::Connected(Connected {
        tunnel,
        peer,
        remote,
        window: 73,
        flags: 3,
        response: None,
        taken: TAKEN,
        given: GIVEN,
    })
}

fn confirmed(tunnel: u16, peer: u32, remote: u16) -> Move {
    Move::Confirmed(Confirmed {
        tunnel,
        peer,
        remote,
        window: 73,
        flags: 3,
        taken: TAKEN,
    })
}

fn closed(tunnel: u16, booked: bool, code: u16, error: Option<u16>) -> Move {
    Move::Closed(Closed {
        tunnel,
        remote: 74,
        booked,
        result: code,
        error,
        given: GIVEN,
    })
}

fn rejected(tunnel: u16, code: u16, error: Option<u16>) -> Move {
    Move::Rejected(Rejected {
        tunnel,
        remote: 74,
        result: code,
        error,
        taken: TAKEN,
        given: GIVEN,
    })
}

fn closed_by(tunnel: u16, booked: bool) -> Move {
    Move::ClosedBy(ClosedBy {
        tunnel,
        booked,
        taken: TAKEN,
    })
}

fn cleared(tunnel: u16, booked: bool) -> Move {
    Move::Cleared { tunnel, booked }
}

fn first_up(tunnel: u16, session: u16, remote: u16, subscriber: [u8; 6]) -> Move {
    Move::FirstUp(FirstUp {
        tunnel,
        session,
        remote,
        subscriber,
        taken: TAKEN,
        given: GIVEN,
    })
}

fn second_up(tunnel: u16, session: u16, remote: u16) -> Move {
    Move::SecondUp(SecondUp {
        tunnel,
        session,
        remote,
        sequenced: true,
        taken: TAKEN,
    })
}

fn told(tunnel: u16, session: u16, code: u16, error: Option<u16>) -> Move {
    Move::EndTold(EndTold {
        tunnel,
        session,
        remote: 74,
        booked: true,
        result: code,
        error,
        given: GIVEN,
    })
}

fn heard(tunnel: u16, session: u32) -> Move {
    Move::EndHeard(EndHeard {
        tunnel,
        session,
        booked: false,
        taken: TAKEN,
    })
}

fn silent(tunnel: u16, session: u16) -> Move {
    Move::EndSilent(EndSilent {
        tunnel,
        session,
        booked: false,
    })
}

fn accepted(tunnel: u16) -> Move {
    Move::Accepted(Accepted {
        tunnel,
        peer: 75,
        remote: 76,
        window: 73,
        challenge: None,
        response: None,
        taken: TAKEN,
        given: GIVEN,
    })
}

fn declined() -> Move {
    Move::Declined(Declined {
        peer: 75,
        remote: 76,
        nr: 1,
        result: 2,
        error: Some(4),
    })
}

fn refused(tunnel: u16) -> Move {
    Move::Refused(Refused {
        tunnel,
        remote: 76,
        result: 2,
        error: Some(5),
        taken: TAKEN,
        given: GIVEN,
    })
}

fn read(tunnel: u16) -> Move {
    Move::NrRead(NrRead { tunnel, nr: 77 })
}

/// The call of a tunnel that was kept.
const KEPT: BookCall = BookCall {
    local: 91,
    tunnel: 15,
    remote: 92,
    subscriber: [2, 0, 0, 0, 0x0b, 0xc5],
    sequenced: false,
};

/// A tunnel that is there again, with a call.
fn restored(alloc: Global, tunnel: u16, peer: u32, remote: u16) -> Result<Move, NoMemory> {
    let mut calls = Sequence::new(alloc);
    calls.push(KEPT)?;
    Ok(Move::Restored(Restored {
        tunnel: BookTunnel {
            local: tunnel,
            remote,
            peer,
            window: 73,
            flags: 3,
            mark: 78,
        },
        calls,
        attempt: 79,
        draw: 80,
        challenge: None,
    }))
}

/// Whether it has these lines, and its call none.
fn restored_row(alloc: Global, tunnel: u16, peer: u32, remote: u16, lines: &[u8]) -> bool {
    match restored(alloc, tunnel, peer, remote) {
        Ok(step) => row(alloc, step, lines),
        Err(_) => false,
    }
}

fn forgot(tunnel: u16) -> Move {
    Move::Forgot(Forgot { tunnel })
}

fn froze(tunnel: u16) -> Move {
    Move::Froze(Froze {
        tunnel,
        peer: 75,
        remote: 76,
        attempt: 79,
        answer: 81,
        asked: 80,
        draw: 82,
        expect: 83,
        send_from: 84,
        marked: true,
    })
}

fn reset_attempting(tunnel: u16) -> Move {
    Move::ResetAttempting(ResetAttempting {
        tunnel,
        peer: 75,
        remote: 76,
        attempt: 79,
        answer: 81,
        draw: 82,
        send_from: 83,
        expect: 84,
        marked: true,
    })
}

fn reset_answering(tunnel: u16) -> Move {
    Move::ResetAnswering(ResetAnswering {
        tunnel,
        peer: 75,
        remote: 76,
        answer: 81,
        attempt: 79,
        send_from: 84,
        expect: 83,
    })
}

fn took_answer(alloc: Global, tunnel: u16, ended: &[u32]) -> Result<Move, NoMemory> {
    Ok(Move::TookAnswer(TookAnswer {
        tunnel,
        pairs: Pairs::new(alloc),
        answers: Pairs::new(alloc),
        ended: Sequence::from_slice(alloc, ended)?,
        taken: TAKEN,
    }))
}

/// Whether an answer by which these calls end has these lines.
fn answer_row(alloc: Global, tunnel: u16, ended: &[u32], lines: &[u8]) -> bool {
    match took_answer(alloc, tunnel, ended) {
        Ok(step) => row(alloc, step, lines),
        Err(_) => false,
    }
}

fn because(cause: Cause) -> Out {
    Out::Cause { cause }
}

/// Whether the row of this number is right.
fn row_at(alloc: Global, at: u8) -> bool {
    match at {
        0 => row(
            alloc,
            connected(3, 0xc000_0207, 12),
            b"tunnel 3 up peer 192.0.2.7 remote 12\n",
        ),
        1 => row(
            alloc,
            confirmed(65535, 0x0aff_0109, 1),
            b"tunnel 65535 up peer 10.255.1.9 remote 1\n",
        ),
        2 => row(
            alloc,
            closed(4, true, 2, Some(3)),
            b"tunnel 4 closed result 2 error 3\n",
        ),
        3 => row(
            alloc,
            closed(5, false, 1, None),
            b"tunnel 5 closed result 1\n",
        ),
        4 => row(alloc, rejected(6, 4, None), b"tunnel 6 closed result 4\n"),
        5 => row(alloc, closed_by(7, true), b"tunnel 7 closed by peer\n"),
        6 => row(alloc, closed_by(8, false), b"tunnel 8 closed by peer\n"),
        7 => row(alloc, cleared(9, true), b"tunnel 9 lost\n"),
        8 => row(alloc, cleared(10, false), b"tunnel 10 removed\n"),
        9 => row(
            alloc,
            first_up(3, 17, 40, [2, 0, 0, 0, 0x0b, 0xc5]),
            b"call 17 up tunnel 3 remote 40 subscriber 02:00:00:00:0b:c5\n",
        ),
        10 => row(
            alloc,
            first_up(3, 18, 41, [0xff, 0xff, 0, 0, 0, 0x46]),
            b"call 18 up tunnel 3 remote 41 subscriber ff:ff:00:00:00:46\n",
        ),
        11 => row(
            alloc,
            second_up(3, 19, 42),
            b"call 19 up tunnel 3 remote 42\n",
        ),
        12 => row(
            alloc,
            told(3, 20, 3, None),
            b"call 20 gone tunnel 3 result 3\n",
        ),
        13 => row(
            alloc,
            told(4, 21, 2, Some(5)),
            b"call 21 gone tunnel 4 result 2 error 5\n",
        ),
        14 => row(
            alloc,
            heard(5, 65536),
            b"call 65536 gone tunnel 5 by peer\n",
        ),
        15 => row(alloc, silent(6, 22), b"call 22 gone tunnel 6\n"),
        16 => row(alloc, accepted(11), b""),
        17 => row(alloc, declined(), b""),
        18 => row(alloc, refused(12), b""),
        19 => row(alloc, read(13), b""),
        20 => restored_row(
            alloc,
            15,
            0xc633_6411,
            16,
            b"tunnel 15 restored peer 198.51.100.17 remote 16\n",
        ),
        21 => row(alloc, forgot(17), b"tunnel 17 lost\n"),
        22 => row(alloc, froze(18), b"tunnel 18 frozen\n"),
        23 => row(alloc, reset_attempting(19), b"tunnel 19 recovered\n"),
        24 => row(alloc, reset_answering(20), b"tunnel 20 recovered\n"),
        25 => row(alloc, Move::RecoveryWentOn { tunnel: 21 }, b""),
        26 => row(alloc, Move::RecoveryEnded { tunnel: 22 }, b""),
        27 => row(alloc, Move::Ignored { tunnel: 23 }, b""),
        28 => answer_row(alloc, 26, &[], b""),
        29 => answer_row(
            alloc,
            27,
            &[28, 65536],
            b"call 28 gone tunnel 27 not at peer\n\
            call 65536 gone tunnel 27 not at peer\n",
        ),
        _ => false,
    }
}

/// The first of the rows whose move has other lines.
fn first_wrong(alloc: Global) -> Option<u64> {
    for at in 0..30u8 {
        if !row_at(alloc, at) {
            return Some(u64::from(at));
        }
    }
    None
}

/// A tick: what it tells of two tunnels and of calls of a third, each with its own cause. What is refused or declined has its cause too.
fn tick_is_told(alloc: Global) -> bool {
    let moves = [
        cleared(1, true),
        told(3, 23, 10, None),
        read(3),
        silent(3, 24),
        refused(3),
        told(3, 25, 3, None),
        closed(4, true, 1, None),
    ];
    let outputs = [
        because(Cause::Setup),
        Out::Gone { session: 23 },
        because(Cause::Session),
        Out::Drop { why: Why::Ahead },
        because(Cause::Lcp),
        because(Cause::Operator),
    ];
    writes(
        alloc,
        &moves,
        &outputs,
        b"tunnel 1 lost\n\
        call 23 gone tunnel 3 result 10 cause setup\n\
        call 24 gone tunnel 3\n\
        call 25 gone tunnel 3 result 3 cause lcp\n\
        tunnel 4 closed result 1 cause operator\n",
    )
}

/// A tunnel that was restored is recovered, and frozen again for its peer's own attempt, and what goes on beside that makes no line. A call
/// ends in it meanwhile, without a cause; a cause that stands among the outputs is that of the tunnel that is closed behind it.
fn recovery_is_told(alloc: Global) -> bool {
    let moves = [
        Move::RecoveryWentOn { tunnel: 19 },
        reset_attempting(19),
        Move::RecoveryEnded { tunnel: 19 },
        froze(19),
        silent(19, 26),
        Move::Ignored { tunnel: 19 },
        reset_answering(19),
        forgot(24),
        closed(25, true, 1, None),
    ];
    let outputs = [Out::Gone { session: 26 }, because(Cause::Operator)];
    writes(
        alloc,
        &moves,
        &outputs,
        b"tunnel 19 recovered\n\
        tunnel 19 frozen\n\
        call 26 gone tunnel 19\n\
        tunnel 19 recovered\n\
        tunnel 24 lost\n\
        tunnel 25 closed result 1 cause operator\n",
    )
}

/// Datagrams of strangers: no line.
fn strangers_are_passed_over(alloc: Global) -> bool {
    let moves = [declined(), declined(), accepted(14), read(14), refused(14)];
    let outputs = [because(Cause::Secret), because(Cause::Tunnels)];
    writes(alloc, &moves, &outputs, b"")
}

/// A cause without a move: no line.
fn a_cause_is_passed_over(alloc: Global) -> bool {
    writes(alloc, &[], &[because(Cause::Ids)], b"")
}

#[test]
fn lines_of_steps(rt: HostRuntime) {
    let alloc = rt.alloc();
    none_is_wrong(&rt, first_wrong(alloc));
    assert!(rt; tick_is_told(alloc));
    assert!(rt; recovery_is_told(alloc));
    assert!(rt; strangers_are_passed_over(alloc));
    assert!(rt; a_cause_is_passed_over(alloc));
}
