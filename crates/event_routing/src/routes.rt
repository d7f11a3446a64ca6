//! Which tunnel takes an event.

ghost use Rattle.std.specs.Prelude.{◌≡◌, IfOk};
ghost use Rattle.l2tp_header.specs.Reading.{header_of};
ghost use Rattle.end_model.specs.Reading.{message_in};
ghost use Rattle.end_model.specs.Secrets.{uncovered_event};
ghost use Rattle.event_routing.specs.Routes.{at_id, attempt_at, attempt_by, route_message, route_datagram, ring_route, call_route, only_route, route_in};

use crate::addressing::addressed;
use crate::events::plain_event;
use control_message::{Message, Recovery};
use end_model::{Addressee, Config, Event, Role};
use l2tp_datagram::{Body, Datagram};
use message_reading::read_body;
use tunnel_fsm::TunnelState;
use tunnel_listing::{Directory, Wanted};
use wire_base::NoMemory;

/// Which tunnel takes an event.
#[derive(Clone, Copy)]
pub enum Route {
    /// None.
    Nobody,
    /// The tunnel with this local id.
    Main { tunnel: u32 },
    /// The recovery tunnel of the tunnel with this local id.
    Recovery { tunnel: u32 },
    /// The tunnel with this local id, whose recovery is asked for.
    Attempt { tunnel: u32 },
}

fn at_id(directory: &Directory, tunnel: u32) -> Route
    ensures { result ≡ at_id directory.now tunnel }
{
    if directory.contains(tunnel) {
        Route::Main { tunnel }
    } else {
        Route::Nobody
    }
}

fn attempt_at(directory: &Directory, named: Option<Recovery>) -> Route
    ensures { result ≡ attempt_at directory.now named }
{
    match named {
        Some(named) if directory.contains(named.receiver) => Route::Attempt {
            tunnel: named.receiver,
        },
        Some(_) | None => Route::Nobody,
    }
}

/// An SCCRQ that asks for a recovery which isn't answered yet.
fn attempt_by(directory: &Directory, body: &Body<'_>) -> Result<Route, NoMemory>
    ensures { IfOk result (λ r. r ≡ attempt_by directory.now (message_in body.now)) }
{
    let said = read_body(directory.alloc(), body)?;
    match &said.message {
        Ok(Message::Sccrq(opening)) => Ok(attempt_at(directory, opening.recovery)),
        _ => Ok(Route::Nobody),
    }
}

/// A control message that is for this addressee.
fn route_message(directory: &Directory, body: &Body<'_>, to: Addressee) -> Result<Route, NoMemory>
    ensures { IfOk result (λ r. r ≡ route_message directory.now body.now to) }
{
    match to {
        Addressee::Main { tunnel } => Ok(Route::Main { tunnel }),
        Addressee::Recovery { tunnel } => Ok(Route::Recovery { tunnel }),
        Addressee::Recovers { .. } => attempt_by(directory, body),
        Addressee::Opens { .. }
        | Addressee::Stops { .. }
        | Addressee::Answers { .. }
        | Addressee::Nobody { .. } => Ok(Route::Nobody),
    }
}

/// A datagram. A data message goes to no tunnel.
#[tactic(auto, unfolding(crate::specs::Routes::route_datagram))]
fn route_datagram(directory: &Directory, peer: u32, datagram: &Datagram) -> Result<Route, NoMemory>
    ensures { IfOk result (λ r. r ≡ route_datagram directory.now peer datagram.now (header_of datagram.now)) }
{
    let Ok(header) = datagram.header() else {
        return Ok(Route::Nobody);
    };
    if !header.control {
        return Ok(Route::Nobody);
    }
    let body = datagram.body(&header);
    let to = addressed(directory, peer, &header, &body)?;
    route_message(directory, &body, to)
}

/// A ring goes over the least tunnel to the LNS that is open, else over the least that is to open.
#[tactic(auto, unfolding(crate::specs::Routes::ring_route))]
fn ring_route(directory: &Directory) -> Route
    ensures { result ≡ ring_route directory.now }
{
    let peer = directory.lns();
    let open = directory.least(Wanted::In {
        state: TunnelState::Established,
        peer,
    });
    if let Some(tunnel) = open {
        return Route::Main { tunnel };
    }
    let opening = directory.least(Wanted::In {
        state: TunnelState::WaitCtlReply,
        peer,
    });
    match opening {
        Some(tunnel) => Route::Main { tunnel },
        None => Route::Nobody,
    }
}

fn call_route(directory: &Directory, call: Option<u32>) -> Route
    ensures { result ≡ call_route directory.now call }
{
    match call {
        None => Route::Nobody,
        Some(tunnel) => at_id(directory, tunnel),
    }
}

/// An event that only one kind of end takes.
fn only_route(directory: &Directory, role: Role, route: Route) -> Route
    ensures { result ≡ only_route role directory.now.role route }
{
    match (directory.role(), role) {
        (Role::Lac, Role::Lac) | (Role::Lns, Role::Lns) => route,
        (Role::Lac, Role::Lns) | (Role::Lns, Role::Lac) => Route::Nobody,
    }
}

/// The tunnel that takes an event, as the end reads it.
#[tactic(auto, unfolding(crate::specs::Routes::route_in))]
fn route_plain(directory: &Directory, event: &Event, call: Option<u32>) -> Result<Route, NoMemory>
    ensures { IfOk result (λ r. r ≡ route_in directory.now call event.now) }
{
    match event {
        Event::Datagram { peer, datagram } => route_datagram(directory, *peer, datagram),
        Event::Ring { .. } | Event::Admitted { .. } => {
            Ok(only_route(directory, Role::Lac, ring_route(directory)))
        }
        Event::Payload { .. } | Event::Hang { .. } => {
            Ok(only_route(directory, Role::Lac, call_route(directory, call)))
        }
        Event::Lower { .. } | Event::Lcp { .. } => {
            Ok(only_route(directory, Role::Lns, call_route(directory, call)))
        }
        Event::DropCall { .. } => Ok(call_route(directory, call)),
        Event::CloseTunnel { tunnel } => Ok(at_id(directory, u32::from(*tunnel))),
        Event::OpenTunnel | Event::Frame { .. } | Event::Tick => Ok(Route::Nobody),
    }
}

/// The tunnel that takes an event, as the end of this secret reads it and its tunnels are listed. `call` is the tunnel of the call that
/// the event is about, where it is about one and that is known.
pub fn route_event(
    directory: &Directory,
    config: &Config,
    event: &Event,
    call: Option<u32>,
) -> Result<Route, NoMemory>
    ensures { IfOk result (λ r. r ≡ route_in directory.now call (uncovered_event config.now.secret event.now)) }
{
    match plain_event(directory.alloc(), config, event)? {
        None => route_plain(directory, event, call),
        Some(plain) => route_plain(directory, &plain, call),
    }
}
