//! The links of calls (RFC 1661): an LNS's call has one from its connection on. Its frames go to the tunnel's peer, and the call ends
//! where the link says so.

ghost use Rattle.std.specs.Prelude.{◌≡◌, OnOk, IfOk, true, IfSome};
ghost use Rattle.std.specs.Option.{option_copied};
ghost use Rattle.call_link.specs.Turns.{Opens, Ticks, linked};
ghost use Rattle.end_model.specs.Calls.{counted_all};
ghost use Rattle.end_model.specs.Links.{link_env, with_link, looks_of};
ghost use Rattle.end_model.specs.Turn.{with_looks_of};
ghost use Rattle.end_model.specs.Linking.{sends_frames, negotiated, ends_linked, links, hears_link, hears_lcp, ticks_link};
ghost use Rattle.end_model.specs.Connecting.{connects_call, linked_up, second_up};
ghost use Rattle.tunnel_calls.specs.Replays.{replays};

use crate::closing::{ADMINISTRATIVE, end_by};
use crate::frames::send_frame;
use crate::turn::Turn;
use call_fsm::CallEvent;
use call_link::{Link, LinkEnv, LinkTurn};
use end_model::{Call, Move, Negotiated, Role, SecondUp};
use send_window::Letters;
use session_looks::CellChange;
use std::alloc::Global;
use tunnel_rules::{advanced, call_row, copy_call, first_number, number_after};
use tunnel_timers::is_up;
use wire_base::{Bytes, Cause, NoMemory, Why};

/// What a link is called with in this step.
fn link_env(turn: &Turn) -> LinkEnv
    ensures { result ≡ link_env turn.now.on }
{
    LinkEnv {
        moment: turn.moment,
        block: turn.block,
    }
}

/// A copy of a call, with this link.
#[tactic(auto, unfolding(tunnel_calls::specs::Replays::replays))]
fn with_link(alloc: Global, link: Link, call: &Call) -> Result<Call, NoMemory>
    requires replays { replays call.now ≡ true }
    ensures value { IfOk result (λ c. c ≡ with_link link call.now) }
    ensures replays { IfOk result (λ c. replays c ≡ true) }
{
    let mut linked = copy_call(alloc, call)?;
    linked.link = Some(link);
    Ok(linked)
}

/// Sends these frames of a call to the tunnel's peer, in order. The call has the numbers behind theirs where its data messages have
/// one.
#[tactic(auto, unfolding(tunnel_calls::specs::Replays::replays, end_model::specs::Linking::sends_frames))]
fn send_frames(
    turn: &mut Turn,
    session: u16,
    frames: &[Bytes],
    call: &mut Call,
) -> Result<(), NoMemory>
    requires replays { replays call.old ≡ true }
    ensures value { OnOk result ((turn.new ≡ sends_frames session frames.now call.old turn.old) × (call.new ≡ counted_all frames.now call.old)) }
    ensures replays { OnOk result (replays call.new ≡ true) }
{
    for frame in frames {
        send_frame(turn, session, frame.as_slice(), call)?;
        call.sequence = number_after(call.sequence);
    }
    Ok(())
}

/// Where frames of the network begin to pass in a call, all frames pass from now on.
#[tactic(auto, unfolding(end_model::specs::Turn::with_looks_of))]
fn look_by(turn: &mut Turn, session: u16, opens: bool) -> Result<(), NoMemory>
    ensures { OnOk result (turn.new ≡ with_looks_of (looks_of opens session) turn.old) }
{
    if opens {
        turn.changes.push(CellChange::Establish { session })?;
    }
    Ok(())
}

/// The call goes on with its link as a call of it leaves it, and what that gave is sent.
#[tactic(auto, unfolding(tunnel_calls::specs::Replays::replays, end_model::specs::Linking::negotiated))]
fn negotiate(turn: &mut Turn, session: u16, call: &Call, given: &LinkTurn) -> Result<(), NoMemory>
    requires replays { replays call.now ≡ true }
    ensures { OnOk result (turn.new ≡ negotiated session call.now given.now turn.old) }
{
    let tunnel = turn.control.local;
    let mut after = copy_call(turn.alloc, call)?;
    send_frames(turn, session, given.frames.as_slice(), &mut after)?;
    after.link = Some(given.link);
    turn.change(session, after)?;
    turn.did(Move::Negotiated(Negotiated { tunnel, session }))?;
    look_by(turn, session, given.opens)
}

/// The link of a call ends it, behind its frames.
#[tactic(auto, unfolding(tunnel_calls::specs::Replays::replays, end_model::specs::Linking::ends_linked))]
fn end_linked(
    turn: &mut Turn,
    role: Role,
    letters: &Letters,
    session: u16,
    call: &Call,
    given: &LinkTurn,
    cause: Cause,
) -> Result<(), NoMemory>
    requires replays { replays call.now ≡ true }
    ensures { OnOk result (turn.new ≡ ends_linked role letters.now.letters session call.now given.now cause turn.old) }
{
    let mut after = copy_call(turn.alloc, call)?;
    send_frames(turn, session, given.frames.as_slice(), &mut after)?;
    let (_, action) = call_row(role, call.state, CallEvent::Close);
    end_by(turn, cause, ADMINISTRATIVE, None, session, &after, action)?;
    turn.settle(false, letters)
}

/// The link of a call was called: the call goes on, or ends.
#[tactic(auto, unfolding(end_model::specs::Linking::links_by))]
fn follow_link(
    turn: &mut Turn,
    role: Role,
    letters: &Letters,
    session: u16,
    call: &Call,
    given: &LinkTurn,
) -> Result<(), NoMemory>
    requires replays { replays call.now ≡ true }
    ensures { OnOk result (turn.new ≡ links role letters.now.letters session call.now given.now turn.old) }
{
    match given.ends {
        None => negotiate(turn, session, call, given),
        Some(cause) => end_linked(turn, role, letters, session, call, given, cause),
    }
}

/// A frame for its link came up a call.
#[tactic(auto, unfolding(end_model::specs::Linking::hears_link))]
fn hear_link(
    turn: &mut Turn,
    role: Role,
    letters: &Letters,
    session: u16,
    frame: &[u8],
    call: &Call,
) -> Result<(), NoMemory>
    requires replays { replays call.now ≡ true }
    ensures { OnOk result (turn.new ≡ hears_link role letters.now.letters session frame.now call.now call.now.link turn.old) }
{
    let Some(link) = &call.link else {
        return turn.drop_with(Why::Closed);
    };
    let env = link_env(turn);
    let given = link.hear(turn.alloc, &env, frame)?;
    follow_link(turn, role, letters, session, call, &given)
}

/// A frame for its link came up a call, from its protocol field on.
#[tactic(auto, unfolding(end_model::specs::Linking::hears_lcp))]
pub fn hear_lcp(
    turn: &mut Turn,
    role: Role,
    letters: &Letters,
    session: u16,
    frame: &[u8],
    call: Option<&Call>,
) -> Result<(), NoMemory>
    requires replays { IfSome (option_copied call) (λ c. replays c ≡ true) }
    ensures { OnOk result (turn.new ≡ hears_lcp role letters.now.letters session frame.now (option_copied call.entry) turn.old) }
{
    let Some(call) = call else {
        return turn.drop_with(Why::Call);
    };
    if !is_up(call.state) {
        return turn.drop_with(Why::Closed);
    }
    hear_link(turn, role, letters, session, frame, call)
}

/// The timer of a call's link runs out.
fn run_out(
    turn: &mut Turn,
    role: Role,
    letters: &Letters,
    session: u16,
    call: &Call,
    link: &Link,
) -> Result<(), NoMemory>
    requires replays { replays call.now ≡ true }
    ensures { OnOk result (turn.new ≡ links role letters.now.letters session call.now (linked (link_env turn.old.on) Ticks link.now) turn.old) }
{
    let env = link_env(turn);
    let given = link.tick(turn.alloc, &env)?;
    follow_link(turn, role, letters, session, call, &given)
}

/// Time passes for the link of a call, where it has one. One that isn't due takes no memory.
#[tactic(auto, unfolding(end_model::specs::Linking::ticks_link))]
pub fn tick_link(
    turn: &mut Turn,
    role: Role,
    letters: &Letters,
    session: u16,
    call: &Call,
) -> Result<(), NoMemory>
    requires replays { replays call.now ≡ true }
    ensures { OnOk result (turn.new ≡ ticks_link role letters.now.letters session call.now call.now.link turn.old) }
{
    let Some(link) = &call.link else {
        return Ok(());
    };
    if !is_up(call.state) || !link.is_due(turn.moment) {
        return Ok(());
    }
    run_out(turn, role, letters, session, call, link)
}

/// The link of a call that its end kept over a crash is opened.
pub fn open_kept_link(
    turn: &mut Turn,
    role: Role,
    letters: &Letters,
    session: u16,
    call: &Call,
    link: &Link,
) -> Result<(), NoMemory>
    requires replays { replays call.now ≡ true }
    ensures { OnOk result (turn.new ≡ links role letters.now.letters session call.now (linked (link_env turn.old.on) Opens link.now) turn.old) }
{
    let env = link_env(turn);
    let given = link.open(turn.alloc, &env)?;
    follow_link(turn, role, letters, session, call, &given)
}

/// The call is connected, and has its link.
#[tactic(auto, unfolding(end_model::specs::Connecting::second_up))]
fn second_up(turn: &mut Turn, sequenced: bool, session: u16, call: Call) -> Result<(), NoMemory>
    requires replays { replays call ≡ true }
    ensures { OnOk result (turn.new ≡ second_up sequenced session call turn.old) }
{
    let taken = turn.taken_place();
    let tunnel = turn.control.local;
    let peer = turn.control.peer;
    let remote = call.remote;
    turn.take();
    turn.change(session, call)?;
    turn.did(Move::SecondUp(SecondUp {
        tunnel,
        session,
        remote,
        sequenced,
        taken,
    }))?;
    turn.look(CellChange::Bind {
        session,
        tunnel,
        peer,
    })
}

/// The call is connected, and its link is opened.
#[tactic(auto, unfolding(end_model::specs::Connecting::connects_call))]
fn open_link(
    turn: &mut Turn,
    sequenced: bool,
    session: u16,
    call: &Call,
    link: Link,
) -> Result<(), NoMemory>
    requires replays { replays call.now ≡ true }
    ensures { OnOk result (turn.new ≡ connects_call sequenced session (with_link link call.now) link turn.old) }
{
    let linked = with_link(turn.alloc, link, call)?;
    let env = link_env(turn);
    let given = link.open(turn.alloc, &env)?;
    second_up(turn, sequenced, session, with_link(turn.alloc, link, call)?)?;
    negotiate(turn, session, &linked, &given)
}

/// The call is connected: it has a link from now on, which is opened, and its data messages have numbers where its ICCN had
/// Sequencing Required.
#[tactic(auto, unfolding(tunnel_calls::specs::Replays::replays, end_model::specs::Connecting::linked_up))]
pub fn link_up(
    turn: &mut Turn,
    role: Role,
    sequenced: bool,
    session: u16,
    call: &Call,
) -> Result<(), NoMemory>
    requires replays { replays call.now ≡ true }
    ensures { OnOk result (turn.new ≡ linked_up role sequenced session call.now turn.old) }
{
    let event = CallEvent::IccnAcc;
    let mut up = advanced(turn.alloc, role, event, turn.moment, call, call.remote)?;
    up.sequence = first_number(sequenced);
    let link = Link::new(&link_env(turn));
    open_link(turn, sequenced, session, &up, link)
}
