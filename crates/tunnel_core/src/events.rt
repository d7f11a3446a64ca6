//! Events of a tunnel.

ghost use Rattle.std.specs.Prelude.{◌≡◌, OnOk};
ghost use Rattle.id_table.specs.Ids.{at};
ghost use Rattle.end_model.specs.Linking.{hears_lcp};
ghost use Rattle.end_model.specs.Events.{turns};

use crate::hearing::hear_datagram;
use end_model::{Config, Event, Role, subscriber};
use send_window::Letters;
use tunnel_calls::TunnelCalls;
use tunnel_turn::closing::{drop_call, hang};
use tunnel_turn::frames::carry;
use tunnel_turn::links::hear_lcp;
use tunnel_turn::openings::open_tunnel;
use tunnel_turn::ringing::ring;
use tunnel_turn::stopping::close_now;
use tunnel_turn::ticking::tick;
use tunnel_turn::turn::Turn;
use wire_base::{NoMemory, Why};

/// An LCP packet came up the call of this session, in a frame from its protocol field on.
fn hear_lcp_in(
    turn: &mut Turn,
    role: Role,
    letters: &Letters,
    calls: &TunnelCalls,
    session: u16,
    frame: &[u8],
) -> Result<(), NoMemory>
    ensures { OnOk result (turn.new ≡ hears_lcp role letters.now.letters session frame.now (at calls.now.entries session) turn.old) }
{
    let call = calls.get(u32::from(session));
    hear_lcp(turn, role, letters, session, frame, call)
}

/// An event of the tunnel, which has these letters and calls.
#[tactic(auto, unfolding(end_model::specs::Events::turns))]
pub(crate) fn run(
    turn: &mut Turn,
    role: Role,
    config: &Config,
    letters: &Letters,
    calls: &TunnelCalls,
    event: &Event,
) -> Result<(), NoMemory>
    ensures { OnOk result (turn.new ≡ turns role config.now letters.now.letters calls.now.entries event.now turn.old) }
{
    match event {
        Event::Datagram { datagram, .. } => {
            hear_datagram(turn, role, config, letters, calls, datagram)
        }
        Event::Ring { port } => {
            ring(turn, role, config, calls, subscriber(*port))?;
            turn.settle(false, letters)
        }
        Event::Admitted { mac } => {
            ring(turn, role, config, calls, *mac)?;
            turn.settle(false, letters)
        }
        Event::Frame { .. } => turn.drop_with(Why::Node),
        Event::Payload { session, frame } | Event::Lower { session, frame } => {
            carry(
                turn,
                *session,
                frame.as_slice(),
                calls.get(u32::from(*session)),
            )
        }
        Event::Lcp { session, packet } => {
            hear_lcp_in(turn, role, letters, calls, *session, packet.as_slice())
        }
        Event::Hang { session } => hang(turn, role, letters, calls, *session),
        Event::OpenTunnel => {
            open_tunnel(turn, role, config)?;
            turn.settle(false, letters)
        }
        Event::DropCall { session } => drop_call(turn, role, letters, calls, *session),
        Event::CloseTunnel { .. } => close_now(turn, letters, calls),
        Event::Tick => tick(turn, role, letters, calls),
    }
}
