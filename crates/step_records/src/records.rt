//! The records that a step leaves.

ghost use Rattle.std.specs.Prelude.{◌≡◌, ◌+◌, ◌*◌, ◌-◌, ◌/◌, ◌++◌, false, min, replicate, map, OnOk, IfOk, option_to_list};
ghost use Rattle.std.specs.List.{flat_map};
ghost use Rattle.session_book.specs.declared.record.Record.TheVariants as records;
ghost use Rattle.end_model.specs.Contents.{ceilings_of, tunnel_down, call_down, mark_by, records_of};
ghost use Rattle.step_records.specs.Leaving.{leaves};

use crate::spaces::Spaces;
use end_model::{FirstUp, Move, SecondUp};
use id_source::Ids;
use session_book::{BookCall, BookTunnel, Record};
use std::alloc::Global;
use wire_base::{NoMemory, Sequence};

/// By how much a ceiling rises.
const STRIDE: u32 = 64;

/// What is committed to a checkpoint, in order.
pub type Records = Sequence<Record>;

/// What a step leaves in the checkpoint of its end: each ceiling that a space of ids passed, the tunnel ids' first, then the session
/// ids' and the draw numbers'; then what its moves leave, in their order. A step that leaves nothing takes no memory. An established
/// call whose id is above 65,535, which no end draws, fits no record: where one ends, the answer is as if memory were wanting.
pub fn step_records(
    alloc: Global,
    before: &Spaces,
    after: &Spaces,
    moves: &[Move],
) -> Result<Records, NoMemory>
    ensures { IfOk result (λ rs. rs ≡ leaves before.now after.now moves.now) }
{
    let mut records = Records::new(alloc);
    push_ceilings(&mut records, 1, &before.tunnels, &after.tunnels)?;
    push_ceilings(&mut records, 2, &before.sessions, &after.sessions)?;
    push_ceilings(&mut records, 3, &before.recoveries, &after.recoveries)?;
    push_moves(&mut records, moves)?;
    Ok(records)
}

// The ceilings that a space passed, behind other records: each is 64 above the one before, and none is above the last number.
fn push_ceilings(kept: &mut Records, space: u8, before: &Ids, after: &Ids) -> Result<(), NoMemory>
    ensures { OnOk result (kept.new ≡ kept.old ++ ceilings_of space before.now after.now) }
{
    let rise = after.ceiling().saturating_sub(before.ceiling());
    for rises in 0..rise.div_ceil(STRIDE) {
        kept.push(Record::Ceiling {
            space,
            number: raised(before, rises),
        })?;
    }
    Ok(())
}

// The ceiling of a space after it rose so many times and once more.
fn raised(before: &Ids, rises: u32) -> u32
    ensures { result ≡ min before.now.last (before.now.ceiling + 64 * (rises + 1)) }
{
    let rise = rises.saturating_add(1).saturating_mul(STRIDE);
    before.last().min(before.ceiling().saturating_add(rise))
}

// What the moves leave, in their order, behind other records.
fn push_moves(kept: &mut Records, moves: &[Move]) -> Result<(), NoMemory>
    ensures { OnOk result (kept.new ≡ kept.old ++ flat_map (λ m. records_of m) moves.now) }
{
    for step in moves {
        push_left(kept, step)?;
    }
    Ok(())
}

// A record, if there is one, behind others.
fn push(kept: &mut Records, left: Option<Record>) -> Result<(), NoMemory>
    ensures { OnOk result (kept.new ≡ kept.old ++ option_to_list left) }
{
    match left {
        Some(left) => kept.push(left),
        None => Ok(()),
    }
}

// What a move leaves, behind other records.
#[tactic(auto, unfolding(end_model::specs::Contents::records_of))]
fn push_left(kept: &mut Records, step: &Move) -> Result<(), NoMemory>
    ensures { OnOk result (kept.new ≡ kept.old ++ records_of step.now) }
{
    match step {
        Move::Connected(up) => kept.push(tunnel_up(
            up.tunnel, up.remote, up.peer, up.window, up.flags,
        )),
        Move::Confirmed(up) => kept.push(tunnel_up(
            up.tunnel, up.remote, up.peer, up.window, up.flags,
        )),
        Move::FirstUp(up) => kept.push(first_up(up)),
        Move::SecondUp(up) => kept.push(second_up(up)),
        Move::EndTold(end) => push(kept, call_down(end.booked, end.session)),
        Move::EndHeard(end) => push(kept, call_down_at(end.booked, end.session)?),
        Move::EndSilent(end) => push(kept, call_down(end.booked, end.session)),
        Move::TookAnswer(took) => push_ends(kept, took.ended.as_slice()),
        Move::Closed(end) => push(kept, tunnel_down(end.booked, end.tunnel)),
        Move::ClosedBy(end) => push(kept, tunnel_down(end.booked, end.tunnel)),
        Move::Cleared { tunnel, booked } => push(kept, tunnel_down(*booked, *tunnel)),
        Move::Forgot(gone) => push(kept, tunnel_down(true, gone.tunnel)),
        Move::Froze(frozen) => push(kept, mark_by(frozen.marked, frozen.tunnel, frozen.asked)),
        Move::ResetAttempting(reset) => push(kept, mark_by(reset.marked, reset.tunnel, reset.draw)),
        _ => Ok(()),
    }
}

// The calls of these ids are gone, behind other records. An id of a table fits a record only where it has 16 bits.
fn push_ends(kept: &mut Records, ended: &[u32]) -> Result<(), NoMemory>
    ensures { OnOk result (kept.new ≡ kept.old ++ map (λ s. records.CallDown s) ended.now) }
{
    for id in ended {
        let Ok(local) = u16::try_from(*id) else {
            return Err(NoMemory);
        };
        kept.push(Record::CallDown { local })?;
    }
    Ok(())
}

// A tunnel that is connected: the ids of both its ends (RFC 2661 section 3.1), the address, the receive window in messages (section
// 4.4.3) and the failover flags of its peer. Nothing was recovered in it.
fn tunnel_up(local: u16, remote: u16, peer: u32, window: u16, flags: u16) -> Record
    ensures { result ≡ records.TunnelUp (record { local = local; remote = remote; peer = peer; window = window; flags = flags; mark = 0 }) }
{
    Record::TunnelUp(BookTunnel {
        local,
        remote,
        peer,
        window,
        flags,
        mark: 0,
    })
}

// A call that this end asked for and that is connected. Its data messages have no numbers.
fn first_up(up: &FirstUp) -> Record
    ensures { result ≡ records.CallUp (record { local = up.now.session; tunnel = up.now.tunnel; remote = up.now.remote; subscriber = up.now.subscriber; sequenced = false }) }
{
    Record::CallUp(BookCall {
        local: up.session,
        tunnel: up.tunnel,
        remote: up.remote,
        subscriber: up.subscriber,
        sequenced: false,
    })
}

// A call that this end was asked for and that is connected. Its subscriber isn't known here.
fn second_up(up: &SecondUp) -> Record
    ensures { result ≡ records.CallUp (record { local = up.now.session; tunnel = up.now.tunnel; remote = up.now.remote; subscriber = replicate 6 0; sequenced = up.now.sequenced }) }
{
    Record::CallUp(BookCall {
        local: up.session,
        tunnel: up.tunnel,
        remote: up.remote,
        subscriber: [0; 6],
        sequenced: up.sequenced,
    })
}

// A call is gone, where the checkpoint has it.
fn call_down(booked: bool, local: u16) -> Option<Record>
    ensures { option_to_list result ≡ call_down booked local }
{
    if !booked {
        return None;
    }
    Some(Record::CallDown { local })
}

// The same for an id of a table, which fits a record only where it has 16 bits.
fn call_down_at(booked: bool, id: u32) -> Result<Option<Record>, NoMemory>
    ensures { IfOk result (λ left. option_to_list left ≡ call_down booked id) }
{
    match u16::try_from(id) {
        Ok(local) => Ok(call_down(booked, local)),
        Err(_) if booked => Err(NoMemory),
        Err(_) => Ok(None),
    }
}

// A tunnel is gone, where the checkpoint has it.
fn tunnel_down(booked: bool, local: u16) -> Option<Record>
    ensures { option_to_list result ≡ tunnel_down booked local }
{
    if !booked {
        return None;
    }
    Some(Record::TunnelDown { local })
}

// A tunnel's mark rises to a number that its peer drew for a recovery, where this says so.
fn mark_by(marked: bool, tunnel: u16, mark: u32) -> Option<Record>
    ensures { option_to_list result ≡ mark_by marked tunnel mark }
{
    if !marked {
        return None;
    }
    Some(Record::Mark { tunnel, mark })
}
