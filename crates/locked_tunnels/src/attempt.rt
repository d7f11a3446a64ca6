//! What becomes of an attempt of a peer at the recovery of a tunnel that is there (RFC 4951 section 4.3).

ghost use Rattle.std.specs.Prelude.{◌≡◌, IfOk};
ghost use Rattle.l2tp_header.specs.Reading.{header_of};
ghost use Rattle.end_model.specs.End.{is_recoverable, is_tied};
ghost use Rattle.end_model.specs.Reading.{message_in};
ghost use Rattle.tunnel_core.specs.Cores.{tunnel_of};
ghost use Rattle.event_routing.specs.Answers.{gives, declines};
ghost use Rattle.locked_tunnels.specs.Attempts.{judged_by, named_by, said_by, read_by, judged_in};

use control_message::{Message, Opening, Recovery};
use end_model::{Config, Event, Mode, Out, Role};
use event_routing::{Given, declines, only};
use l2tp_datagram::{Body, Datagram};
use message_reading::{
    Reason, is_of_version, lacks_secret, next_of_peer, no_recovery, no_secret, other_version,
    read_body,
};
use recovery_tunnel::{Judged, judge};
use std::alloc::Global;
use tunnel_core::TunnelCore;
use tunnel_fsm::TunnelState;
use wire_base::{NoMemory, Why};

/// What becomes of an attempt.
#[derive(Drop)]
pub(crate) enum Attempted {
    /// It is answered, where a tunnel id and a draw number are left: the opening of this peer, which is to send this number next.
    Answers {
        peer: u32,
        nr: u16,
        opening: Opening,
    },
    /// This is given.
    Gives {
        given: Given,
    },
}

/// It is ignored.
fn ignores(alloc: Global, why: Why) -> Result<Attempted, NoMemory>
    ensures { IfOk result (λ a. a ≡ Attempted.Gives (gives (Out.Drop why))) }
{
    let given = only(alloc, Out::Drop { why })?;
    Ok(Attempted::Gives { given })
}

/// It is declined.
fn declined(
    alloc: Global,
    peer: u32,
    nr: u16,
    opening: &Opening,
    reason: &Reason,
) -> Result<Attempted, NoMemory>
    ensures { IfOk result (λ a. a ≡ Attempted.Gives (declines peer opening.now.tunnel nr reason.now)) }
{
    let given = declines(alloc, peer, opening.tunnel, nr, reason)?;
    Ok(Attempted::Gives { given })
}

/// Whether it is an established tunnel to this peer, which names its own end of it so.
fn is_recoverable(core: &TunnelCore, peer: u32, sender: u32) -> bool
    ensures { result ≡ is_recoverable peer sender (tunnel_of core.now) }
{
    let control = core.control();
    let open = matches!(control.state, TunnelState::Established);
    open && control.peer == peer && u32::from(control.remote) == sender
}

/// Whether its end is a LAC that attempts the same.
fn is_tied(role: Role, core: &TunnelCore) -> bool
    ensures { result ≡ is_tied role (tunnel_of core.now) }
{
    matches!(role, Role::Lac) && matches!(core.mode(), Mode::Restored)
}

/// An attempt that names a tunnel by its ids of both ends.
fn judged(
    alloc: Global,
    role: Role,
    config: &Config,
    core: &TunnelCore,
    peer: u32,
    nr: u16,
    opening: Opening,
    named: Recovery,
) -> Result<Attempted, NoMemory>
    ensures { IfOk result (λ a. a ≡ judged_by role config.now (tunnel_of core.now) peer nr opening named) }
{
    if !is_of_version(&opening) {
        return declined(alloc, peer, nr, &opening, &other_version());
    }
    if !is_recoverable(core, peer, named.sender) {
        return declined(alloc, peer, nr, &opening, &no_recovery());
    }
    if is_tied(role, core) {
        return ignores(alloc, Why::Tie);
    }
    let draw = opening.attempt.unwrap_or(0);
    if matches!(judge(core.control().mark, draw, false), Judged::Older) {
        return ignores(alloc, Why::Mark);
    }
    if lacks_secret(&config.secret, &opening.challenge) {
        return declined(alloc, peer, nr, &opening, &no_secret());
    }
    Ok(Attempted::Answers { peer, nr, opening })
}

/// An SCCRQ.
fn named(
    alloc: Global,
    role: Role,
    config: &Config,
    core: &TunnelCore,
    peer: u32,
    nr: u16,
    opening: Opening,
) -> Result<Attempted, NoMemory>
    ensures { IfOk result (λ a. a ≡ named_by role config.now (tunnel_of core.now) peer nr opening opening.recovery) }
{
    match opening.recovery {
        None => declined(alloc, peer, nr, &opening, &no_recovery()),
        Some(named) => judged(alloc, role, config, core, peer, nr, opening, named),
    }
}

/// A control message with this body.
fn said(
    alloc: Global,
    role: Role,
    config: &Config,
    core: &TunnelCore,
    peer: u32,
    nr: u16,
    body: &Body<'_>,
) -> Result<Attempted, NoMemory>
    ensures { IfOk result (λ a. a ≡ said_by role config.now (tunnel_of core.now) peer nr (message_in body.now)) }
{
    let said = read_body(alloc, body)?;
    match said.message {
        Ok(Message::Sccrq(opening)) => named(alloc, role, config, core, peer, nr, opening),
        _ => ignores(alloc, Why::Tunnel),
    }
}

/// A datagram.
fn read(
    alloc: Global,
    role: Role,
    config: &Config,
    core: &TunnelCore,
    peer: u32,
    datagram: &Datagram,
) -> Result<Attempted, NoMemory>
    ensures { IfOk result (λ a. a ≡ read_by role config.now (tunnel_of core.now) peer datagram.now (header_of datagram.now)) }
{
    match datagram.header() {
        Ok(header) if header.control => {
            let nr = next_of_peer(&header);
            let body = datagram.body(&header);
            said(alloc, role, config, core, peer, nr, &body)
        }
        Ok(_) | Err(_) => ignores(alloc, Why::Tunnel),
    }
}

/// What becomes of an event that is an attempt at the recovery of this tunnel. What is none is ignored.
pub(crate) fn judge_attempt(
    alloc: Global,
    role: Role,
    config: &Config,
    core: &TunnelCore,
    event: &Event,
) -> Result<Attempted, NoMemory>
    ensures { IfOk result (λ a. a ≡ judged_in role config.now (tunnel_of core.now) event.now) }
{
    match event {
        Event::Datagram { peer, datagram } => read(alloc, role, config, core, *peer, datagram),
        _ => ignores(alloc, Why::Tunnel),
    }
}
