//! Tunnels that are opened, accepted, connected and confirmed (RFC 2661 section 7.2).

ghost use Rattle.std.specs.Prelude.{◌≡◌, ◌<◌, OnOk, IsTrue};
ghost use Rattle.end_model.specs.Channels.{has_room};
ghost use Rattle.end_model.specs.Openings.{opened, opens, accepted, accepts, connected, confirms};

use crate::told::Told;
use crate::turn::Turn;
use control_message::Message;
use end_model::{Accepted, Config, Confirmed, Connected, Move, Opened, Out, Role};
use message_reading::{connection_by, reply_by};
use tunnel_fsm::{TunnelEvent, TunnelState, advance};
use tunnel_rules::{challenge_by, opening_of};
use wire_base::{Cause, NoMemory, Why};

/// Opens a new tunnel, with this id, by an SCCRQ.
#[tactic(auto, unfolding(end_model::specs::Openings::opened))]
pub fn open_as(turn: &mut Turn, role: Role, config: &Config, local: u16) -> Result<(), NoMemory>
    requires some { 0 < local }
    requires room { IsTrue (has_room turn.old.control) }
    ensures { OnOk result (turn.new ≡ opened role config.now local turn.old) }
{
    let challenge = challenge_by(config, &turn.block);
    let opening = opening_of(turn.alloc, role, config, challenge, None, local)?;
    let given = turn.next_place();
    let peer = turn.control.peer;
    let (next, _) = advance(turn.control.state, TunnelEvent::LocalOpen);
    turn.control.state = next;
    turn.control.challenge = challenge;
    turn.draw_tunnel(local);
    turn.did(Move::Opened(Opened {
        tunnel: local,
        peer,
        challenge,
        given,
    }))?;
    turn.give(0, &Message::Sccrq(opening))
}

/// Opens a new tunnel.
#[tactic(auto, unfolding(end_model::specs::Openings::opens, end_model::specs::Openings::opens_by))]
pub fn open_tunnel(turn: &mut Turn, role: Role, config: &Config) -> Result<(), NoMemory>
    ensures { OnOk result (turn.new ≡ opens role config.now turn.old) }
{
    match turn.next_tunnel() {
        Err(_) => turn.output(Out::Cause { cause: Cause::Ids }),
        Ok(_) if !turn.has_room() => turn.output(Out::Cause {
            cause: Cause::Queue,
        }),
        Ok(local) => open_as(turn, role, config, local as u16),
    }
}

/// Makes a new tunnel, with this id, by an SCCRQ that tells this of its peer, and answers by an SCCRP.
#[tactic(auto, unfolding(end_model::specs::Openings::accepted))]
fn accept_as(
    turn: &mut Turn,
    role: Role,
    config: &Config,
    told: &Told,
    local: u16,
) -> Result<(), NoMemory>
    requires some { 0 < local }
    requires room { IsTrue (has_room turn.old.control) }
    ensures { OnOk result (turn.new ≡ accepted role config.now told.now local turn.old) }
{
    let challenge = challenge_by(config, &turn.block);
    let response = reply_by(&config.secret, told.asks);
    let opening = opening_of(turn.alloc, role, config, challenge, response, local)?;
    let given = turn.next_place();
    let taken = turn.taken_place();
    let peer = turn.control.peer;
    let (next, _) = advance(turn.control.state, TunnelEvent::SccrqAcc);
    turn.control.remote = told.remote;
    turn.control.flags = told.flags;
    turn.control.state = next;
    turn.control.challenge = challenge;
    turn.learn_window(told.window);
    turn.draw_tunnel(local);
    turn.take();
    turn.did(Move::Accepted(Accepted {
        tunnel: local,
        peer,
        remote: told.remote,
        window: told.window,
        challenge,
        response,
        taken,
        given,
    }))?;
    turn.give(0, &Message::Sccrp(opening))
}

/// Makes a new tunnel by an SCCRQ that tells this of its peer.
#[tactic(auto, unfolding(end_model::specs::Openings::accepts, end_model::specs::Openings::accepts_by))]
pub fn accept(turn: &mut Turn, role: Role, config: &Config, told: &Told) -> Result<(), NoMemory>
    ensures { OnOk result (turn.new ≡ accepts role config.now told.now turn.old) }
{
    match turn.next_tunnel() {
        Err(_) => turn.drop_with(Why::Tunnel),
        Ok(local) => {
            if !turn.has_room() {
                return turn.drop_with(Why::Queue);
            }
            accept_as(turn, role, config, told, local as u16)
        }
    }
}

/// Takes the SCCRP of the peer, learns what it tells of itself, and connects the tunnel by an SCCCN, which answers what the
/// peer asks.
#[tactic(auto, unfolding(end_model::specs::Openings::connected))]
pub fn connect(
    turn: &mut Turn,
    config: &Config,
    told: &Told,
    next: TunnelState,
) -> Result<(), NoMemory>
    requires room { IsTrue (has_room turn.old.control) }
    ensures { OnOk result (turn.new ≡ connected config.now told.now next turn.old) }
{
    let response = connection_by(&config.secret, told.asks);
    let given = turn.next_place();
    let taken = turn.taken_place();
    let tunnel = turn.control.local;
    let peer = turn.control.peer;
    turn.control.remote = told.remote;
    turn.control.flags = told.flags;
    turn.control.state = next;
    turn.learn_window(told.window);
    turn.take();
    turn.did(Move::Connected(Connected {
        tunnel,
        peer,
        remote: told.remote,
        window: told.window,
        flags: told.flags,
        response,
        taken,
        given,
    }))?;
    turn.give(0, &Message::Scccn { response })
}

/// Takes the SCCCN of the peer.
#[tactic(auto, unfolding(end_model::specs::Openings::confirms))]
pub fn confirm(turn: &mut Turn, next: TunnelState) -> Result<(), NoMemory>
    ensures { OnOk result (turn.new ≡ confirms next turn.old) }
{
    let taken = turn.taken_place();
    let control = turn.control;
    turn.control.state = next;
    turn.take();
    turn.did(Move::Confirmed(Confirmed {
        tunnel: control.local,
        peer: control.peer,
        remote: control.remote,
        window: control.channel.peer_window(),
        flags: control.flags,
        taken,
    }))
}
