//! Which tunnel a control message is for.

ghost use Rattle.std.specs.Prelude.{◌≡◌, is_some, option_map, IfOk, IfSome};
ghost use Rattle.id_table.specs.Ids.{at};
ghost use Rattle.end_model.specs.Reading.{at_tunnel};
ghost use Rattle.tunnel_listing.specs.declared.listed.Wanted.TheVariants as wanted;
ghost use Rattle.end_model.specs.End.{stopped_at};
ghost use Rattle.tunnel_listing.specs.Directory.{listed_at, found_in};
ghost use Rattle.event_routing.specs.Addressing.{opens_once_in, line_in, at_recovery_in, addressed_in};

use end_model::Addressee;
use l2tp_datagram::Body;
use l2tp_header::Header;
use message_reading::at_zero;
use tunnel_listing::{Directory, Wanted};
use wire_base::{NoMemory, Why};

/// A StopCCN that names no tunnel is for the one whose peer assigned the id that it tells, or for the answer to the attempt with that
/// id.
fn stopped_at(directory: &Directory, peer: u32, remote: u16) -> Addressee
    ensures { result ≡ stopped_at (found_in directory.now (wanted.Known peer remote)) (found_in directory.now (wanted.Answered peer remote)) }
{
    if let Some(tunnel) = directory.least(Wanted::Known { peer, remote }) {
        return Addressee::Main { tunnel };
    }
    match directory.least(Wanted::Answered { peer, remote }) {
        Some(tunnel) => Addressee::Recovery { tunnel },
        None => Addressee::Nobody { why: Why::Tunnel },
    }
}

/// An SCCRQ that comes again is for the tunnel that it opened, or for the answer to the recovery that it asked for.
#[tactic(auto, unfolding(crate::specs::Addressing::opens_once_in))]
fn open_once(directory: &Directory, peer: u32, to: Addressee) -> Addressee
    ensures { result ≡ opens_once_in directory.now peer to }
{
    match to {
        Addressee::Opens { remote } => match directory.least(Wanted::Known { peer, remote }) {
            Some(tunnel) => Addressee::Main { tunnel },
            None => to,
        },
        Addressee::Recovers { remote } => match directory.least(Wanted::Answered { peer, remote }) {
            Some(tunnel) => Addressee::Recovery { tunnel },
            None => to,
        },
        Addressee::Stops { remote } => stopped_at(directory, peer, remote),
        Addressee::Answers { .. }
        | Addressee::Main { .. }
        | Addressee::Recovery { .. }
        | Addressee::Nobody { .. } => to,
    }
}

/// What a control message is for that names this tunnel, if there is one.
#[tactic(auto, unfolding(end_model::specs::Reading::at_tunnel))]
fn at_tunnel(directory: &Directory, peer: u32, tunnel: u16) -> Option<Addressee>
    ensures to { IfSome result (λ to. to ≡ at_tunnel peer tunnel (option_map (λ l. l.peer) (listed_at directory.now.places.entries tunnel))) }
    ensures there { is_some result ≡ is_some (at directory.now.places.entries tunnel) }
{
    let tunnel = u32::from(tunnel);
    match directory.listed(tunnel) {
        None => None,
        Some(listed) if listed.peer == peer => Some(Addressee::Main { tunnel }),
        Some(_) => Some(Addressee::Nobody { why: Why::Peer }),
    }
}

/// The recovery tunnel of a tunnel, if it goes to the peer.
fn at_line(directory: &Directory, peer: u32, tunnel: u32) -> Addressee
    ensures { result ≡ line_in peer tunnel (listed_at directory.now.places.entries tunnel) }
{
    match directory.listed(tunnel) {
        None => Addressee::Nobody { why: Why::Tunnel },
        Some(listed) if listed.peer == peer => Addressee::Recovery { tunnel },
        Some(_) => Addressee::Nobody { why: Why::Peer },
    }
}

/// What a control message is for that names a recovery tunnel, if there is one.
fn at_recovery(directory: &Directory, peer: u32, line: u16) -> Addressee
    ensures { result ≡ at_recovery_in directory.now peer (found_in directory.now (wanted.Recovered line)) }
{
    match directory.least(Wanted::Recovered { line }) {
        None => Addressee::Nobody { why: Why::Tunnel },
        Some(tunnel) => at_line(directory, peer, tunnel),
    }
}

/// What a control message is for, as the tunnels are listed.
#[tactic(auto, unfolding(crate::specs::Addressing::addressed_in))]
pub fn addressed(
    directory: &Directory,
    peer: u32,
    header: &Header,
    body: &Body<'_>,
) -> Result<Addressee, NoMemory>
    ensures { IfOk result (λ to. to ≡ addressed_in directory.now peer header.now body.now) }
{
    if header.tunnel == 0 {
        let to = at_zero(directory.alloc(), body)?;
        return Ok(open_once(directory, peer, to));
    }
    match at_tunnel(directory, peer, header.tunnel) {
        Some(to) => Ok(to),
        None => Ok(at_recovery(directory, peer, header.tunnel)),
    }
}
