//! Which tunnel a control message is for, and what a datagram says once its hidden values are uncovered.

ghost use Rattle.std.specs.Prelude.{◌≡◌, option_map, is_some, unwrap_or, IfOk, IfSome};
ghost use Rattle.id_table.specs.Ids.{at};
ghost use Rattle.end_model.specs.End.{known_as, recovered_by, answered_to, stopped_at, at_line, at_recovery, opens_once, addressed, reached_plain, reached};
ghost use Rattle.end_model.specs.Reading.{at_tunnel};
ghost use Rattle.end_model.specs.Secrets.{uncovered_datagram, uncovered_event};

use crate::end::End;
use end_model::{Addressee, Control, Event};
use l2tp_datagram::{Body, Datagram};
use l2tp_header::Header;
use message_reading::{at_zero, uncover_datagram};
use wire_base::{NoMemory, Why};

impl End {
    /// The least tunnel to a peer that has assigned this id.
    fn known_as(&self, peer: u32, remote: u16) -> Result<Option<u32>, NoMemory>
        ensures { IfOk result (λ found. found ≡ known_as peer remote self.now.tunnels) }
    {
        self.tunnels.known_as(self.alloc, peer, remote)
    }

    /// An SCCRQ that comes again is for the tunnel that it opened, or for the answer to the recovery that it asked for.
    #[tactic(auto, unfolding(end_model::specs::End::opens_once))]
    fn open_once(&self, peer: u32, to: Addressee) -> Result<Addressee, NoMemory>
        ensures { IfOk result (λ a. a ≡ opens_once self.now peer to) }
    {
        match to {
            Addressee::Opens { remote } => match self.known_as(peer, remote)? {
                Some(tunnel) => Ok(Addressee::Main { tunnel }),
                None => Ok(to),
            },
            Addressee::Recovers { remote } => match self.answered_to(peer, remote)? {
                Some(tunnel) => Ok(Addressee::Recovery { tunnel }),
                None => Ok(to),
            },
            Addressee::Stops { remote } => self.stopped_at(peer, remote),
            Addressee::Answers { .. }
            | Addressee::Main { .. }
            | Addressee::Recovery { .. }
            | Addressee::Nobody { .. } => Ok(to),
        }
    }

    /// A StopCCN that names no tunnel is for the one whose peer assigned the id that it tells, or for the answer to the attempt with
    /// that id.
    fn stopped_at(&self, peer: u32, remote: u16) -> Result<Addressee, NoMemory>
        ensures { IfOk result (λ a. a ≡ stopped_at (known_as peer remote self.now.tunnels) (answered_to peer remote self.now.tunnels)) }
    {
        if let Some(tunnel) = self.known_as(peer, remote)? {
            return Ok(Addressee::Main { tunnel });
        }
        match self.answered_to(peer, remote)? {
            Some(tunnel) => Ok(Addressee::Recovery { tunnel }),
            None => Ok(Addressee::Nobody { why: Why::Tunnel }),
        }
    }

    /// The tunnel whose end answers the attempt of a peer with this id.
    fn answered_to(&self, peer: u32, remote: u16) -> Result<Option<u32>, NoMemory>
        ensures { IfOk result (λ found. found ≡ answered_to peer remote self.now.tunnels) }
    {
        self.tunnels.answered_to(self.alloc, peer, remote)
    }

    /// What a control message is for that names this tunnel, if there is one.
    #[tactic(auto, using(tunnel_table::specs::Tunnels::at_tunnels), unfolding(end_model::specs::Reading::at_tunnel))]
    fn at_tunnel(&self, peer: u32, tunnel: u16) -> Option<Addressee>
        ensures to { IfSome result (λ to. to ≡ at_tunnel peer tunnel (option_map (λ t. t.control.peer) (at self.now.tunnels tunnel))) }
        ensures there { is_some result ≡ is_some (at self.now.tunnels tunnel) }
    {
        let tunnel = u32::from(tunnel);
        let core = self.tunnel(tunnel)?;
        if core.control().peer == peer {
            Some(Addressee::Main { tunnel })
        } else {
            Some(Addressee::Nobody { why: Why::Peer })
        }
    }

    /// The recovery tunnel of a tunnel, if it goes to the peer.
    #[tactic(auto, using(tunnel_table::specs::Tunnels::at_tunnels))]
    fn at_line(&self, peer: u32, tunnel: u32) -> Addressee
        ensures { result ≡ at_line peer tunnel (at self.now.tunnels tunnel) }
    {
        match self.tunnel(tunnel) {
            None => Addressee::Nobody { why: Why::Tunnel },
            Some(core) if core.control().peer == peer => Addressee::Recovery { tunnel },
            Some(_) => Addressee::Nobody { why: Why::Peer },
        }
    }

    /// What a control message is for that names a recovery tunnel, if there is one.
    fn at_recovery(&self, peer: u32, line: u16) -> Result<Addressee, NoMemory>
        ensures { IfOk result (λ to. to ≡ at_recovery self.now peer (recovered_by line self.now.tunnels)) }
    {
        match self.tunnels.recovered_by(self.alloc, line)? {
            None => Ok(Addressee::Nobody { why: Why::Tunnel }),
            Some(tunnel) => Ok(self.at_line(peer, tunnel)),
        }
    }

    /// What a control message is for.
    #[tactic(auto, unfolding(end_model::specs::End::addressed))]
    pub(crate) fn addressed(
        &self,
        peer: u32,
        header: &Header,
        body: &Body<'_>,
    ) -> Result<Addressee, NoMemory>
        ensures { IfOk result (λ to. to ≡ addressed self.now peer header.now body.now) }
    {
        if header.tunnel == 0 {
            let to = at_zero(self.alloc, body)?;
            return self.open_once(peer, to);
        }
        match self.at_tunnel(peer, header.tunnel) {
            Some(to) => Ok(to),
            None => self.at_recovery(peer, header.tunnel),
        }
    }

    /// The tunnel that a datagram of which nothing is hidden is for, where it is a control message and there is one.
    #[tactic(auto, using(tunnel_table::specs::Tunnels::at_tunnels), unfolding(end_model::specs::End::reached_plain, end_model::specs::End::reached_by, end_model::specs::End::main_of))]
    fn reached_plain(&self, peer: u32, datagram: &Datagram) -> Result<Option<Control>, NoMemory>
        ensures { IfOk result (λ found. found ≡ reached_plain self.now peer datagram.now) }
    {
        let Ok(header) = datagram.header() else {
            return Ok(None);
        };
        if !header.control {
            return Ok(None);
        }
        let body = datagram.body(&header);
        match self.addressed(peer, &header, &body)? {
            Addressee::Main { tunnel } => Ok(self.tunnel(tunnel).map(|core| *core.control())),
            Addressee::Opens { .. }
            | Addressee::Stops { .. }
            | Addressee::Answers { .. }
            | Addressee::Recovery { .. }
            | Addressee::Recovers { .. }
            | Addressee::Nobody { .. } => Ok(None),
        }
    }

    /// A datagram as the end reads it by its secret, None where it is as it came.
    fn plain_datagram(&self, datagram: &Datagram) -> Result<Option<Datagram>, NoMemory>
        ensures { IfOk result (λ r. unwrap_or r datagram.now ≡ uncovered_datagram self.now.config.secret datagram.now) }
    {
        match uncover_datagram(self.alloc, &self.config.secret, datagram)? {
            None => Ok(None),
            Some(bytes) => Ok(Some(Datagram::read(self.alloc, bytes))),
        }
    }

    /// The tunnel that a datagram from a peer is for, as the end reads it by its secret, where it is a control message and
    /// there is one.
    pub fn reached(&self, peer: u32, datagram: &Datagram) -> Result<Option<Control>, NoMemory>
        ensures { IfOk result (λ found. found ≡ reached self.now peer datagram.now) }
    {
        match self.plain_datagram(datagram)? {
            None => self.reached_plain(peer, datagram),
            Some(plain) => self.reached_plain(peer, &plain),
        }
    }

    /// An event as the end reads it: a datagram whose hidden values its secret uncovers is one with those values in plain
    /// (RFC 2661 section 4.3). None where it is as it came. Where memory is wanting, nothing changes.
    pub fn plain_event(&self, event: &Event) -> Result<Option<Event>, NoMemory>
        ensures { IfOk result (λ r. unwrap_or r event.now ≡ uncovered_event self.now.config.secret event.now) }
    {
        let Event::Datagram { peer, datagram } = event else {
            return Ok(None);
        };
        match self.plain_datagram(datagram)? {
            None => Ok(None),
            Some(datagram) => Ok(Some(Event::Datagram {
                peer: *peer,
                datagram,
            })),
        }
    }
}
