//! A LAC: an end whose ports ring and which PPPoE hosts come to, and which opens tunnels to its LNS (RFC 2661 sections 5
//! and 6, RFC 2516 section 5).
//!
//! A frame is read, answered or handed to the end as an event. All that takes memory comes before the end's step, or is taken
//! back without memory, so that a LAC is as before where memory is wanting.
#![tactic(auto)]

ghost use Rattle.std.specs.Prelude.{◌≡◌, ◌∷◌, [], Some, None, IfOk};
ghost use Rattle.id_table.specs.Ids.{at};
ghost use Rattle.end_model.specs.declared.out.Out.TheVariants as outs;
ghost use Rattle.end_names.specs.declared.role.Role.TheVariants as roles;
ghost use Rattle.end_model.specs.Access.{new_access, as_it_was, told_because, of_step, serves, holder, farewell};
ghost use Rattle.end_model.specs.End.{new_end, step, look_in};
ghost use Rattle.end_model.specs.Starting.{bare_end};
ghost use Rattle.end_core.specs.Fits.{fits};
ghost use Rattle.end_core.specs.Rows.{tunnel_rows};
ghost use Rattle.end_core.specs.Sessions.{subscriber_at};
ghost use Rattle.lac_core.specs.Gives.{GivesServed, GivesStart, CommitsServed, starts_with};
ghost use Rattle.lac_core.specs.Strangers.{KeepsFromStrangers};

mod answers;
mod apart;
mod ends;
mod hosts;
mod kept;

pub use crate::apart::LacAccess;
use crate::kept::keep_hosts;
use end_core::EndRows;
pub use end_core::{Cores, End, EndParts, Given, Moves, Outputs, TunnelCore};
use end_model::{Config, Event, Out, Role, mac_of};
use pppoe_discovery::padt_frame;
use pppoe_session::Table;
use session_book::Book;
use session_looks::Look;
use std::alloc::Global;
use std::marker::Model;
use step_ledger::{BookedLedger, Ledger, StepFault};
use wire_base::{Bytes, Cause, NoMemory, Why};

/// What a step of a LAC gave.
#[derive(Drop)]
pub struct LacGiven {
    /// What goes to the outside, in order.
    pub outputs: Outputs,
    /// What the step did, in order.
    pub moves: Moves,
    /// The Ethernet frame that answers a host, from its destination address on and without padding. It is sent behind all
    /// outputs.
    pub reply: Option<Bytes>,
}

/// A LAC.
#[derive(Drop)]
pub struct Lac {
    alloc: Global,
    end: End,
    /// The key of the cookies.
    key: [u8; 16],
    /// The hosts that were admitted, by the sessions of their calls.
    hosts: Table,
    /// The hosts of the calls that were kept over a start, by their sessions: they get a PADT as the others do.
    kept: Table,
}

impl Model for Lac {
    ghost use Rattle.std.specs.Prelude.{◌≡◌};
    ghost use Rattle.end_model.specs.Access.{Concentrator};
    ghost use Rattle.end_names.specs.declared.role.Role.TheVariants as roles;

    ghost Value = { Concentrator };

    ghost view = { λ l. record { end = l.end; access = record { key = l.key; held = l.hosts; kept = l.kept } } };

    ghost invariant = { λ l. l.end.role ≡ roles.Lac };
}

impl Lac {
    /// A LAC without a tunnel and without a host, whose cookies are made with this key of 16 bytes (RFC 2516 section 5.2). It
    /// takes no memory.
    pub fn new(alloc: Global, config: Config, key: [u8; 16]) -> Lac
        ensures { result ≡ record { end = new_end roles.Lac config; access = new_access key } }
    {
        Lac {
            alloc,
            end: End::new(alloc, Role::Lac, config),
            key,
            hosts: Table::new(alloc),
            kept: Table::new(alloc),
        }
    }

    /// The LAC as an end, with its tunnels.
    pub fn end(&self) -> &End
        ensures { result.now ≡ self.now.end }
    {
        &self.end
    }

    /// Why an event doesn't fit, where it names a call that isn't live, or a tunnel that isn't, or is closed.
    pub fn fits(&self, event: &Event) -> Option<Why>
        ensures { result ≡ fits self.now.end event.now }
    {
        self.end.fits(event)
    }

    /// What the data plane sees of a session: nothing, where no call is live under its id.
    pub fn look(&self, session: u16) -> Look
        ensures { result ≡ look_in (at self.now.end.calls session) }
    {
        self.end.look(session)
    }

    /// The tunnels with their calls, by local ids, for printing.
    pub fn tunnel_rows(&self, alloc: Global) -> Result<EndRows, NoMemory>
        ensures { IfOk result (λ rows. rows ≡ tunnel_rows self.now.end) }
    {
        self.end.tunnel_rows(alloc)
    }

    /// The six bytes of the subscriber of a session: the Ethernet address of a host, in the order of the wire, or what stands in
    /// its place for a port. None where no call is live under the id.
    pub fn subscriber(&self, session: u16) -> Option<[u8; 6]>
        ensures { result ≡ subscriber_at self.now.end session }
    {
        self.end.subscriber(session)
    }

    /// The Ethernet address of the host of a call, or of that of one that was kept over a start.
    #[tactic(auto, unfolding(end_model::specs::Access::holder))]
    fn holder(&self, session: u16) -> Option<[u8; 6]>
        ensures { result ≡ holder self.now.access session }
    {
        match self.hosts.holder(session) {
            Some(mac) => Some(mac),
            None => self.kept.holder(session),
        }
    }

    /// The PADT that tells a host that its call ended (RFC 2516 section 5.5), a whole Ethernet frame. None where no host had the
    /// call. A session id has 16 bits, and of a larger number the lower ones count. It takes no memory, so that a host is told
    /// of each end that a step made.
    #[tactic(auto, unfolding(end_model::specs::Access::farewell))]
    pub fn padt(&self, session: u32) -> Option<[u8; 20]>
        ensures { result ≡ farewell self.now.end.config.number self.now.access session }
    {
        let session = (session % 65_536) as u16;
        let host = self.holder(session)?;
        Some(padt_frame(&mac_of(self.end.number()), &host, session))
    }

    /// The LAC falls: of all that it had only its configuration and the book of its checkpoint stay, and its cookies are made with a
    /// new key. It takes no memory.
    pub fn fall(&mut self, key: [u8; 16], book: &Book)
        ensures fallen { self.new ≡ record { end = bare_end self.old.end.role self.old.end.config book.now.kept; access = new_access key } }
        ensures role { self.old.end.role ≡ roles.Lac }
    {
        self.end.fall(book);
        self.key = key;
        self.hosts = Table::new(self.alloc);
        self.kept = Table::new(self.alloc);
    }

    /// The LAC starts again over the book of its ledger, at a moment in milliseconds, with a block of random bytes, and with a new key
    /// for its cookies: each tunnel that was kept comes back with its calls and asks its peer for its recovery (RFC 4951 section 4.3), or
    /// goes with its calls where the peer can't recover it, by local ids. The hosts of those calls are known, so that each can be told by
    /// a PADT. What the start leaves is committed first. Where it isn't, or memory is wanting, the LAC is as before.
    pub fn start<L: BookedLedger>(
        &mut self,
        ledger: &mut L,
        moment: u64,
        block: [u8; 16],
        key: [u8; 16],
    ) -> Result<Given, StepFault<L::Stop>>
        requires ledger { L.Ledger.can_commit ledger.old }
        requires lends { L.can_lend ledger.old }
        ensures given { GivesStart result (starts_with self.old key (L.kept ledger.old) moment block) self.old self.new }
        ensures committed { CommitsServed L.Ledger.commits_to result (starts_with self.old key (L.kept ledger.old) moment block) self.old ledger.old ledger.new }
        ensures role { self.old.end.role ≡ roles.Lac }
    {
        let kept = keep_hosts(self.alloc, ledger.book().calls().as_slice())?;
        let given = self.end.start(ledger, moment, block)?;
        self.key = key;
        self.hosts = Table::new(self.alloc);
        self.kept = kept;
        Ok(given)
    }

    /// Gives this, and changes nothing: the ledger is asked all the same.
    fn tell<L: Ledger>(
        &self,
        ledger: &mut L,
        outputs: Outputs,
        reply: Option<Bytes>,
    ) -> Result<LacGiven, StepFault<L::Stop>>
        requires { L.can_commit ledger.old }
        ensures given { GivesServed result (as_it_was self.now outputs reply) self.now self.now }
        ensures committed { CommitsServed L.commits_to result (as_it_was self.now outputs reply) self.now ledger.old ledger.new }
    {
        self.end.commit_moves(ledger, &[])?;
        Ok(LacGiven {
            outputs,
            moves: Moves::new(self.alloc),
            reply,
        })
    }

    /// What comes is ignored.
    fn ignore<L: Ledger>(&self, ledger: &mut L, why: Why) -> Result<LacGiven, StepFault<L::Stop>>
        requires { L.can_commit ledger.old }
        ensures given { GivesServed result (as_it_was self.now (outs.Drop why ∷ []) None) self.now self.now }
        ensures committed { CommitsServed L.commits_to result (as_it_was self.now (outs.Drop why ∷ []) None) self.now ledger.old ledger.new }
    {
        let mut outputs = Outputs::new(self.alloc);
        outputs.push(Out::Drop { why })?;
        self.tell(ledger, outputs, None)
    }

    /// A host is answered, and the cause told where there is one.
    fn answer<L: Ledger>(
        &self,
        ledger: &mut L,
        because: Option<Cause>,
        frame: Bytes,
    ) -> Result<LacGiven, StepFault<L::Stop>>
        requires { L.can_commit ledger.old }
        ensures given { GivesServed result (as_it_was self.now (told_because because) (Some frame)) self.now self.now }
        ensures committed { CommitsServed L.commits_to result (as_it_was self.now (told_because because) (Some frame)) self.now ledger.old ledger.new }
    {
        let mut outputs = Outputs::new(self.alloc);
        if let Some(cause) = because {
            outputs.push(Out::Cause { cause })?;
        }
        self.tell(ledger, outputs, Some(frame))
    }

    /// A step of the end, which answers no host.
    fn run<L: Ledger>(
        &mut self,
        ledger: &mut L,
        moment: u64,
        block: [u8; 16],
        event: &Event,
    ) -> Result<LacGiven, StepFault<L::Stop>>
        requires { L.can_commit ledger.old }
        ensures given { GivesServed result (of_step self.old.access None (step self.old.end moment block event.now)) self.old self.new }
        ensures committed { CommitsServed L.commits_to result (of_step self.old.access None (step self.old.end moment block event.now)) self.old ledger.old ledger.new }
    {
        let given = ends::step(&mut self.end, ledger, moment, block, event)?;
        Ok(LacGiven {
            outputs: given.outputs,
            moves: given.moves,
            reply: None,
        })
    }

    /// A step on an event: a frame is read first, and what else comes is for the end.
    #[tactic(auto, unfolding(end_model::specs::Access::serves))]
    fn serve<L: Ledger>(
        &mut self,
        ledger: &mut L,
        moment: u64,
        block: [u8; 16],
        event: &Event,
    ) -> Result<LacGiven, StepFault<L::Stop>>
        requires { L.can_commit ledger.old }
        ensures given { GivesServed result (serves self.old moment block event.now) self.old self.new }
        ensures committed { CommitsServed L.commits_to result (serves self.old moment block event.now) self.old ledger.old ledger.new }
    {
        match event {
            Event::Frame { bytes } => self.take_frame(ledger, moment, block, bytes.as_slice()),
            Event::Admitted { .. } => self.ignore(ledger, Why::Node),
            _ => self.run(ledger, moment, block, event),
        }
    }

    /// A step of the LAC on an event, at a moment in milliseconds, with a block of random bytes.
    ///
    /// A frame has an Ethernet header and no check sequence, and at most 2,048 bytes. A PADI is answered by a PADO, and a PADR by
    /// a PADS (RFC 2516 sections 5.1 to 5.4): one with a cookie of the LAC's rings as a port does, and one that repeats the PADR
    /// of a live call gets the session of that call again. A frame of a session is for its call, and a PADT ends it, where the
    /// source is the host that got it; else it is dropped with `call` or `address`.
    ///
    /// What a datagram hides by the LAC's secret is uncovered first (RFC 2661 section 4.3). An event of an LNS is dropped with
    /// `node`, as is that a host was admitted, and one of a call or a tunnel that isn't live with `call` or `tunnel`. Where
    /// memory is wanting, the LAC is as before.
    ///
    /// A datagram of a stranger, whose address is that of no live tunnel's peer, leaves each tunnel and each call as it is, here and in
    /// what is committed, and so the hosts. It adds one tunnel at most, which waits for an SCCCN, and has one packet at most sent, to
    /// that address.
    pub fn step<L: Ledger>(
        &mut self,
        ledger: &mut L,
        moment: u64,
        block: [u8; 16],
        event: &Event,
    ) -> Result<LacGiven, StepFault<L::Stop>>
        requires { L.can_commit ledger.old }
        ensures given { GivesServed result (serves self.old moment block event.now) self.old self.new }
        ensures committed { CommitsServed L.commits_to result (serves self.old moment block event.now) self.old ledger.old ledger.new }
        ensures strangers { KeepsFromStrangers result event.now self.old self.new }
    {
        self.serve(ledger, moment, block, event)
    }
}
