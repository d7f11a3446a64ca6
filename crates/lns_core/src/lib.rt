//! An LNS: an end to which LACs open tunnels, which ends LCP in their calls, and down whose calls a network sends frames (RFC
//! 2661 sections 5 and 6, RFC 1661).
#![tactic(auto)]

ghost use Rattle.std.specs.Prelude.{◌≡◌, IfOk};
ghost use Rattle.id_table.specs.Ids.{at};
ghost use Rattle.end_names.specs.declared.role.Role.TheVariants as roles;
ghost use Rattle.end_model.specs.End.{new_end, plain_step, step, look_in};
ghost use Rattle.end_model.specs.Starting.{bare_end, starts};
ghost use Rattle.end_core.specs.Fits.{fits};
ghost use Rattle.end_core.specs.Gives.{GivesStep, CommitsStep};
ghost use Rattle.end_core.specs.Rows.{tunnel_rows};
ghost use Rattle.lns_core.specs.Strangers.{KeepsFromStrangers};

mod apart;

pub use end_core::EndParts;
use end_core::{End, EndRows, Given};
use end_model::{Config, Event, Role};
use session_book::Book;
use session_looks::Look;
use std::alloc::Global;
use std::marker::Model;
use step_ledger::{BookedLedger, Ledger, StepFault};
use wire_base::{NoMemory, Why};

/// An LNS.
#[derive(Drop)]
pub struct Lns {
    end: End,
}

impl Model for Lns {
    ghost use Rattle.std.specs.Prelude.{◌≡◌};
    ghost use Rattle.end_model.specs.End.{End as Known};
    ghost use Rattle.end_names.specs.declared.role.Role.TheVariants as roles;

    ghost Value = { Known };

    ghost view = { λ l. l.end };

    ghost invariant = { λ l. l.end.role ≡ roles.Lns };
}

impl Lns {
    /// An LNS without a tunnel. It takes no memory.
    pub fn new(alloc: Global, config: Config) -> Lns
        ensures { result ≡ new_end roles.Lns config }
    {
        Lns {
            end: End::new(alloc, Role::Lns, config),
        }
    }

    /// The LNS as an end, with its tunnels.
    pub fn end(&self) -> &End
        ensures { result.now ≡ self.now }
    {
        &self.end
    }

    /// Why an event doesn't fit, where it names a call that isn't live, or a tunnel that isn't, or is closed.
    pub fn fits(&self, event: &Event) -> Option<Why>
        ensures { result ≡ fits self.now event.now }
    {
        self.end.fits(event)
    }

    /// What the data plane sees of a session: nothing, where no call is live under its id.
    pub fn look(&self, session: u16) -> Look
        ensures { result ≡ look_in (at self.now.calls session) }
    {
        self.end.look(session)
    }

    /// The tunnels with their calls, by local ids, for printing.
    pub fn tunnel_rows(&self, alloc: Global) -> Result<EndRows, NoMemory>
        ensures { IfOk result (λ rows. rows ≡ tunnel_rows self.now) }
    {
        self.end.tunnel_rows(alloc)
    }

    /// The LNS falls: of all that it had only its configuration and the book of its checkpoint stay. It takes no memory.
    pub fn fall(&mut self, book: &Book)
        ensures fallen { self.new ≡ bare_end self.old.role self.old.config book.now.kept }
        ensures role { self.old.role ≡ roles.Lns }
    {
        self.end.fall(book);
    }

    /// The LNS starts again over the book of its ledger, at a moment in milliseconds, with a block of random bytes: each tunnel that was
    /// kept comes back with its calls and asks its peer for its recovery (RFC 4951 section 4.3), or goes with its calls where the peer
    /// can't recover it, by local ids. What the start leaves is committed first. Where it isn't, or memory is wanting, the LNS is as
    /// before.
    pub fn start<L: BookedLedger>(
        &mut self,
        ledger: &mut L,
        moment: u64,
        block: [u8; 16],
    ) -> Result<Given, StepFault<L::Stop>>
        requires ledger { L.Ledger.can_commit ledger.old }
        requires lends { L.can_lend ledger.old }
        ensures given { GivesStep result (starts self.old.role self.old.config (L.kept ledger.old) moment block) self.old self.new }
        ensures committed { CommitsStep L.Ledger.commits_to result (starts self.old.role self.old.config (L.kept ledger.old) moment block) self.old ledger.old ledger.new }
        ensures role { self.old.role ≡ roles.Lns }
    {
        self.end.start(ledger, moment, block)
    }

    /// A step on an event of which nothing is hidden.
    #[tactic(auto, unfolding(end_model::specs::End::plain_step, end_model::specs::End::step_in, end_model::specs::End::only_by))]
    fn plain_step<L: Ledger>(
        &mut self,
        ledger: &mut L,
        moment: u64,
        block: [u8; 16],
        event: &Event,
    ) -> Result<Given, StepFault<L::Stop>>
        requires { L.can_commit ledger.old }
        ensures given { GivesStep result (plain_step self.old moment block event.now) self.old self.new }
        ensures committed { CommitsStep L.commits_to result (plain_step self.old moment block event.now) self.old ledger.old ledger.new }
    {
        match event {
            Event::Datagram { peer, datagram } => {
                self.end
                    .receive(ledger, moment, block, event, *peer, datagram)
            }
            Event::Lower { session, .. }
            | Event::Lcp { session, .. }
            | Event::DropCall { session } => {
                self.end
                    .run_for_call(ledger, moment, block, event, *session)
            }
            Event::CloseTunnel { tunnel } => {
                self.end
                    .run_main(ledger, moment, block, event, u32::from(*tunnel))
            }
            Event::Tick => self.end.tick_all(ledger, moment, block),
            Event::Ring { .. }
            | Event::Frame { .. }
            | Event::Admitted { .. }
            | Event::Payload { .. }
            | Event::Hang { .. }
            | Event::OpenTunnel => self.end.drop_with(ledger, Why::Node),
        }
    }

    /// A step on an event: what a datagram hides by the LNS's secret is uncovered first.
    fn run<L: Ledger>(
        &mut self,
        ledger: &mut L,
        moment: u64,
        block: [u8; 16],
        event: &Event,
    ) -> Result<Given, StepFault<L::Stop>>
        requires { L.can_commit ledger.old }
        ensures given { GivesStep result (step self.old moment block event.now) self.old self.new }
        ensures committed { CommitsStep L.commits_to result (step self.old moment block event.now) self.old ledger.old ledger.new }
    {
        match self.end.plain_event(event)? {
            None => self.plain_step(ledger, moment, block, event),
            Some(plain) => self.plain_step(ledger, moment, block, &plain),
        }
    }

    /// A step of the LNS on an event, at a moment in milliseconds, with a block of random bytes. What a datagram hides by the
    /// LNS's secret is uncovered first (RFC 2661 section 4.3). An event of a LAC is dropped with `node`, and one of a call or a
    /// tunnel that isn't live with `call` or `tunnel`. What the step leaves is committed to the ledger before it is made. Where it
    /// isn't, or memory is wanting, the LNS is as before.
    ///
    /// A datagram of a stranger, whose address is that of no live tunnel's peer, leaves each tunnel and each call as it is, here and in
    /// what is committed. It adds one tunnel at most, which waits for an SCCCN, and has one packet at most sent, to that address.
    pub fn step<L: Ledger>(
        &mut self,
        ledger: &mut L,
        moment: u64,
        block: [u8; 16],
        event: &Event,
    ) -> Result<Given, StepFault<L::Stop>>
        requires { L.can_commit ledger.old }
        ensures given { GivesStep result (step self.old moment block event.now) self.old self.new }
        ensures committed { CommitsStep L.commits_to result (step self.old moment block event.now) self.old ledger.old ledger.new }
        ensures strangers { KeepsFromStrangers result event.now self.old self.new }
    {
        self.run(ledger, moment, block, event)
    }
}
