//! The frames that come to a LAC.

ghost use Rattle.std.specs.Prelude.{ℕ, ◌≡◌, List, [], Some, None};
ghost use Rattle.pppoe_session.specs.Subscribers.{repeat_in};
ghost use Rattle.pppoe_discovery.specs.Told.{IsAdmission, MayBeTold, IsWithin, pads_to};
ghost use Rattle.end_model.specs.declared.event.Event.TheVariants as events;
ghost use Rattle.end_model.specs.Access.{about_call, admits, coming, does, is_host, led_to, of_step, wants_call, with_host};
ghost use Rattle.end_model.specs.End.{step};
ghost use Rattle.end_names.specs.Names.{mac_of};
ghost use Rattle.end_core.specs.Sessions.{next_session};
ghost use Rattle.lac_core.specs.Entering.{AreRefusals, answer_by, live_at};
ghost use Rattle.lac_core.specs.Gives.{GivesServed, CommitsServed};

use crate::answers::{Refusals, forget, hold, take_back, write_refusals};
use crate::{Lac, LacGiven, ends};
use end_model::{Event, host_name, mac_of};
use pppoe_discovery::{Discovered, on_frame, write_pads};
use step_ledger::{Ledger, StepFault};
use wire_base::{Bytes, Why};

/// How many bytes a frame has at most.
const LONGEST: usize = 2048;

impl Lac {
    /// Whether a session's host has this address, also that of a call that was kept over a start.
    fn is_host(&self, session: u16, src: &[u8; 6]) -> bool
        ensures { result ≡ is_host self.now.access src.now session }
    {
        match self.holder(session) {
            Some(mac) => mac == *src,
            None => false,
        }
    }

    /// A step that the host of a live call causes.
    #[tactic(auto, unfolding(end_model::specs::Access::does))]
    fn run_for_host<L: Ledger>(
        &mut self,
        ledger: &mut L,
        moment: u64,
        block: [u8; 16],
        src: &[u8; 6],
        session: u16,
        event: &Event,
    ) -> Result<LacGiven, StepFault<L::Stop>>
        requires { L.can_commit ledger.old }
        ensures given { GivesServed result (does self.old moment block (about_call self.old.access self.old.end src.now session event.now)) self.old self.new }
        ensures committed { CommitsServed L.commits_to result (does self.old moment block (about_call self.old.access self.old.end src.now session event.now)) self.old ledger.old ledger.new }
    {
        if !self.end.has_call(session) {
            return self.ignore(ledger, Why::Call);
        }
        if !self.is_host(session, src) {
            return self.ignore(ledger, Why::Address);
        }
        self.run(ledger, moment, block, event)
    }

    /// A host rings where no session can be drawn.
    fn ring_without<L: Ledger>(
        &mut self,
        ledger: &mut L,
        moment: u64,
        block: [u8; 16],
        src: [u8; 6],
        refusals: Refusals,
    ) -> Result<LacGiven, StepFault<L::Stop>>
        requires { L.can_commit ledger.old }
        ensures given { let s = step self.old.end moment block (events.Admitted src) in
            GivesServed result (of_step self.old.access (Some (answer_by [] refusals s.outputs None)) s) self.old self.new }
        ensures committed { let s = step self.old.end moment block (events.Admitted src) in
            CommitsServed L.commits_to result (of_step self.old.access (Some (answer_by [] refusals s.outputs None)) s) self.old ledger.old ledger.new }
    {
        let event = Event::Admitted { mac: src };
        let given = ends::step(&mut self.end, ledger, moment, block, &event)?;
        let reply = refusals.choose(given.outputs.as_slice());
        Ok(LacGiven {
            outputs: given.outputs,
            moves: given.moves,
            reply: Some(reply),
        })
    }

    /// A host rings where this session is drawn next. It gets the session where that makes a call, and isn't the holder of the
    /// one that it had before any more.
    fn ring_with<L: Ledger>(
        &mut self,
        ledger: &mut L,
        moment: u64,
        block: [u8; 16],
        src: [u8; 6],
        uniq: &Option<Bytes>,
        before: Option<u16>,
        session: u16,
        pads: Bytes,
        refusals: Refusals,
    ) -> Result<LacGiven, StepFault<L::Stop>>
        requires ledger { L.can_commit ledger.old }
        requires before { before ≡ repeat_in self.old.access.held src uniq.now }
        ensures given { let s = step self.old.end moment block (events.Admitted src) in
            let got = live_at s.end (Some session) in
            GivesServed result (of_step (with_host self.old.access src uniq.now got) (Some (answer_by pads refusals s.outputs got)) s) self.old self.new }
        ensures committed { let s = step self.old.end moment block (events.Admitted src) in
            let got = live_at s.end (Some session) in
            CommitsServed L.commits_to result (of_step (with_host self.old.access src uniq.now got) (Some (answer_by pads refusals s.outputs got)) s) self.old ledger.old ledger.new }
    {
        let held = hold(&mut self.hosts, self.alloc, session, src, uniq)?;
        let event = Event::Admitted { mac: src };
        let given = match ends::step(&mut self.end, ledger, moment, block, &event) {
            Ok(given) => given,
            Err(e) => {
                take_back(&mut self.hosts, session, held);
                return Err(e);
            }
        };
        let reply = if self.end.has_call(session) {
            forget(&mut self.hosts, before);
            pads
        } else {
            take_back(&mut self.hosts, session, held);
            refusals.choose(given.outputs.as_slice())
        };
        Ok(LacGiven {
            outputs: given.outputs,
            moves: given.moves,
            reply: Some(reply),
        })
    }

    /// A host that was admitted wants a call.
    fn enter<L: Ledger>(
        &mut self,
        ledger: &mut L,
        moment: u64,
        block: [u8; 16],
        src: [u8; 6],
        uniq: &Option<Bytes>,
        asked: &Discovered,
        before: Option<u16>,
    ) -> Result<LacGiven, StepFault<L::Stop>>
        requires ledger { L.can_commit ledger.old }
        requires admission { IsAdmission asked.now }
        requires before { before ≡ repeat_in self.old.access.held src uniq.now }
        ensures given { GivesServed result (admits self.old src uniq.now asked.now (step self.old.end moment block (events.Admitted src))) self.old self.new }
        ensures committed { CommitsServed L.commits_to result (admits self.old src uniq.now asked.now (step self.old.end moment block (events.Admitted src))) self.old ledger.old ledger.new }
    {
        let mac = mac_of(self.end.number());
        let refusals = write_refusals(self.alloc, &mac, asked)?;
        let Some(session) = self.end.next_session() else {
            return self.ring_without(ledger, moment, block, src, refusals);
        };
        let pads = write_pads(self.alloc, &mac, asked, session, None)?;
        self.ring_with(
            ledger, moment, block, src, uniq, before, session, pads, refusals,
        )
    }

    /// A PADR with this Host-Uniq is good: one that repeats that of a live call gets its session again.
    #[tactic(auto, unfolding(end_model::specs::Access::does))]
    fn want_call<L: Ledger>(
        &mut self,
        ledger: &mut L,
        moment: u64,
        block: [u8; 16],
        src: [u8; 6],
        uniq: &Option<Bytes>,
        asked: &Discovered,
    ) -> Result<LacGiven, StepFault<L::Stop>>
        requires ledger { L.can_commit ledger.old }
        requires admission { IsAdmission asked.now }
        ensures given { GivesServed result (does self.old moment block (wants_call self.old.access self.old.end src uniq.now asked.now (repeat_in self.old.access.held src uniq.now))) self.old self.new }
        ensures committed { CommitsServed L.commits_to result (does self.old moment block (wants_call self.old.access self.old.end src uniq.now asked.now (repeat_in self.old.access.held src uniq.now))) self.old ledger.old ledger.new }
    {
        let before = self.hosts.repeat_of(src, uniq);
        if let Some(session) = before {
            if self.end.has_call(session) {
                let mac = mac_of(self.end.number());
                let pads = write_pads(self.alloc, &mac, asked, session, None)?;
                return self.answer(ledger, None, pads);
            }
        }
        self.enter(ledger, moment, block, src, uniq, asked, before)
    }

    /// A host was admitted.
    #[tactic(auto, unfolding(end_model::specs::Access::led_to))]
    fn admit<L: Ledger>(
        &mut self,
        ledger: &mut L,
        moment: u64,
        block: [u8; 16],
        asked: &Discovered,
    ) -> Result<LacGiven, StepFault<L::Stop>>
        requires ledger { L.can_commit ledger.old }
        requires admission { IsAdmission asked.now }
        ensures given { (bytes : List ℕ) → GivesServed result (does self.old moment block (led_to self.old.access self.old.end bytes asked.now)) self.old self.new }
        ensures committed { (bytes : List ℕ) → CommitsServed L.commits_to result (does self.old moment block (led_to self.old.access self.old.end bytes asked.now)) self.old ledger.old ledger.new }
    {
        let Discovered::Admit { src, uniq, .. } = asked else {
            unreachable!()
        };
        self.want_call(ledger, moment, block, *src, uniq, asked)
    }

    /// What was found in a frame.
    #[tactic(auto, unfolding(end_model::specs::Access::does, end_model::specs::Access::led_to))]
    fn take_found<L: Ledger>(
        &mut self,
        ledger: &mut L,
        moment: u64,
        block: [u8; 16],
        bytes: &[u8],
        found: Discovered,
    ) -> Result<LacGiven, StepFault<L::Stop>>
        requires ledger { L.can_commit ledger.old }
        requires told { MayBeTold found }
        requires within { IsWithin bytes.now found }
        ensures given { GivesServed result (does self.old moment block (led_to self.old.access self.old.end bytes.now found)) self.old self.new }
        ensures committed { CommitsServed L.commits_to result (does self.old moment block (led_to self.old.access self.old.end bytes.now found)) self.old ledger.old ledger.new }
    {
        match found {
            asked @ Discovered::Admit { .. } => self.admit(ledger, moment, block, &asked),
            Discovered::Ignored { why } => self.ignore(ledger, why),
            Discovered::Reply { cause, frame } => self.answer(ledger, cause, frame),
            Discovered::Left { src, session } => {
                let event = Event::Hang { session };
                self.run_for_host(ledger, moment, block, &src, session, &event)
            }
            Discovered::Carried {
                src,
                session,
                start,
                end,
            } => {
                let frame = Bytes::from_slice(self.alloc, &bytes[start..end])?;
                let event = Event::Payload { session, frame };
                self.run_for_host(ledger, moment, block, &src, session, &event)
            }
        }
    }

    /// An Ethernet frame comes, from its destination address on.
    #[tactic(auto, unfolding(end_model::specs::Access::does, end_model::specs::Access::coming))]
    pub(crate) fn take_frame<L: Ledger>(
        &mut self,
        ledger: &mut L,
        moment: u64,
        block: [u8; 16],
        bytes: &[u8],
    ) -> Result<LacGiven, StepFault<L::Stop>>
        requires { L.can_commit ledger.old }
        ensures given { GivesServed result (does self.old moment block (coming self.old.access self.old.end bytes.now)) self.old self.new }
        ensures committed { CommitsServed L.commits_to result (does self.old moment block (coming self.old.access self.old.end bytes.now)) self.old ledger.old ledger.new }
    {
        if bytes.len() > LONGEST {
            return self.ignore(ledger, Why::Long);
        }
        let number = self.end.number();
        let mac = mac_of(number);
        let name = host_name(self.alloc, self.end.role(), number)?;
        let found = on_frame(self.alloc, &self.key, &mac, name.as_slice(), bytes)?;
        self.take_found(ledger, moment, block, bytes, found)
    }
}
