//! An end in a step, with what it gives so far. What the end stands for is changed only afterwards.

ghost use Rattle.std.specs.Prelude.{◌≡◌, ◌≤◌, length, OnOk, IfOk};
ghost use Rattle.lcp_end.specs.Table.{entry};
ghost use Rattle.lcp_end.specs.Steps.{begun, sent, next_id, requesting, requested, counted, zeroed, configured, terminated, signalled, acted, stepped, acked, naks_after, refused, confirmed, code_rejected, echoed, answered};

use crate::codes::{
    CODE_REJECT, CONFIGURE_NAK, CONFIGURE_REQUEST, TERMINATE_ACK, TERMINATE_REQUEST,
};
use crate::options::{MAX_FAILURE, asked};
use crate::out::LcpOut;
use crate::state::EndState;
use crate::table::{LcpActions, LcpEvent, advance};
use lcp_wire::{Lcp, reads_what_was_written, write_lcp};
use std::alloc::Global;
use std::marker::Model;
use wire_base::{Bytes, NoMemory};

/// How many Configure-Requests are sent before the peer is given up: Max-Configure.
const MAX_CONFIGURE: u8 = 10;

/// How many Terminate-Requests are sent before the peer is given up: Max-Terminate.
const MAX_TERMINATE: u8 = 2;

/// An end in a step, with what it gives so far.
#[derive(Drop)]
pub(crate) struct Turn {
    alloc: Global,
    pub(crate) kept: EndState,
    pub(crate) out: LcpOut,
}

impl Model for Turn {
    ghost use Rattle.lcp_end.specs.Steps.{Turn as Known};
    ghost use Rattle.lcp_end.specs.Packets.{ArePackets};

    ghost Value = { Known };

    ghost view = { λ t. record { kept = t.kept; out = t.out } };

    ghost invariant = { λ t. ArePackets t.out.packets };
}

impl Turn {
    pub(crate) fn new(alloc: Global, kept: EndState) -> Turn
        ensures { result ≡ begun kept }
    {
        Turn {
            alloc,
            kept,
            out: LcpOut::new(alloc),
        }
    }

    #[tactic(auto, unfolding(crate::specs::Steps::sent))]
    fn send(&mut self, code: u8, id: u8, body: &[u8]) -> Result<(), NoMemory>
        requires { length body.now ≤ 65531 }
        ensures { OnOk result (self.new ≡ sent code id body.now self.old) }
    {
        let packet = Lcp {
            code,
            id,
            body: Bytes::from_slice(self.alloc, body)?,
        };
        let mut bytes = Bytes::new(self.alloc);
        write_lcp(&mut bytes, &packet)?;
        reads_what_was_written();
        self.out.packets.push(bytes)
    }

    #[tactic(auto, unfolding(crate::specs::Steps::requesting))]
    fn begin_request(&mut self, now: u64) -> u8
        ensures id { result ≡ next_id self.old.kept }
        ensures value { self.new ≡ record self.old { kept = requesting now self.old.kept } }
    {
        let id = self.kept.last_id.wrapping_add(1);
        self.kept.last_id = id;
        self.kept.request = id;
        self.kept.restarts = self.kept.restarts.saturating_sub(1);
        self.kept.since = now;
        id
    }

    /// Sends a request that the peer is to answer.
    #[tactic(auto, unfolding(crate::specs::Steps::requested))]
    fn request(&mut self, code: u8, body: &[u8], now: u64) -> Result<(), NoMemory>
        requires { length body.now ≤ 65531 }
        ensures { OnOk result (self.new ≡ requested code body.now now self.old) }
    {
        let id = self.begin_request(now);
        self.send(code, id, body)
    }

    #[tactic(auto, unfolding(crate::specs::Steps::counted))]
    fn count(&mut self, actions: LcpActions)
        ensures { self.new ≡ counted actions self.old }
    {
        if actions.irc {
            self.kept.restarts = if actions.stq {
                MAX_TERMINATE
            } else {
                MAX_CONFIGURE
            };
        }
    }

    #[tactic(auto, unfolding(crate::specs::Steps::zeroed))]
    fn zero(&mut self, actions: LcpActions, now: u64)
        ensures { self.new ≡ zeroed actions now self.old }
    {
        if actions.zrc {
            self.kept.restarts = 0;
            self.kept.since = now;
        }
    }

    #[tactic(auto, unfolding(crate::specs::Steps::configured))]
    fn configure(&mut self, actions: LcpActions, now: u64) -> Result<(), NoMemory>
        ensures { OnOk result (self.new ≡ configured actions now self.old) }
    {
        if !actions.scr {
            return Ok(());
        }
        let options = asked(self.alloc, self.kept.asks_mru, self.kept.magic)?;
        self.request(CONFIGURE_REQUEST, options.as_slice(), now)
    }

    #[tactic(auto, unfolding(crate::specs::Steps::terminated))]
    fn terminate(&mut self, actions: LcpActions, now: u64) -> Result<(), NoMemory>
        ensures { OnOk result (self.new ≡ terminated actions now self.old) }
    {
        if actions.stq {
            self.request(TERMINATE_REQUEST, &[], now)
        } else {
            Ok(())
        }
    }

    #[tactic(auto, unfolding(crate::specs::Steps::signalled))]
    fn signal(&mut self, actions: LcpActions)
        ensures { self.new ≡ signalled actions self.old }
    {
        self.out.up = self.out.up || actions.tlu;
        self.out.down = self.out.down || actions.tld;
        self.out.finished = self.out.finished || actions.tlf;
    }

    /// The actions of an entry that need no packet.
    #[tactic(auto, unfolding(crate::specs::Steps::acted))]
    fn act(&mut self, actions: LcpActions, now: u64) -> Result<(), NoMemory>
        ensures { OnOk result (self.new ≡ acted actions now self.old) }
    {
        self.count(actions);
        self.zero(actions, now);
        self.configure(actions, now)?;
        self.terminate(actions, now)?;
        self.signal(actions);
        Ok(())
    }

    /// The entry of the table for an event; the actions that answer a packet are left.
    #[tactic(auto, unfolding(crate::specs::Steps::stepped))]
    pub(crate) fn step(&mut self, event: LcpEvent, now: u64) -> Result<LcpActions, NoMemory>
        ensures value { OnOk result (self.new ≡ stepped event now self.old) }
        ensures actions { IfOk result (λ a. a ≡ (entry self.old.kept.state event).1) }
    {
        let (next, actions) = advance(self.kept.state, event);
        self.kept.state = next;
        self.act(actions, now)?;
        Ok(actions)
    }

    #[tactic(auto, unfolding(crate::specs::Steps::acked))]
    fn ack(&mut self, actions: LcpActions, answer: &Lcp) -> Result<(), NoMemory>
        requires { length answer.now.body ≤ 65531 }
        ensures { OnOk result (self.new ≡ acked actions answer.now self.old) }
    {
        if actions.sca {
            self.kept.naks = 0;
            self.send(answer.code, answer.id, answer.body.as_slice())
        } else {
            Ok(())
        }
    }

    #[tactic(auto, unfolding(crate::specs::Steps::refused))]
    fn refuse(&mut self, actions: LcpActions, answer: &Lcp) -> Result<(), NoMemory>
        requires { length answer.now.body ≤ 65531 }
        ensures { OnOk result (self.new ≡ refused actions answer.now self.old) }
    {
        if !actions.scn {
            return Ok(());
        }
        self.kept.naks = naks_after(answer.code, self.kept.naks);
        self.send(answer.code, answer.id, answer.body.as_slice())
    }

    #[tactic(auto, unfolding(crate::specs::Steps::confirmed))]
    fn confirm(&mut self, actions: LcpActions, answer: &Lcp) -> Result<(), NoMemory>
        ensures { OnOk result (self.new ≡ confirmed actions answer.now self.old) }
    {
        if actions.sta {
            self.send(TERMINATE_ACK, answer.id, &[])
        } else {
            Ok(())
        }
    }

    #[tactic(auto, unfolding(crate::specs::Steps::code_rejected))]
    fn reject_code(&mut self, actions: LcpActions, answer: &Lcp) -> Result<(), NoMemory>
        requires { length answer.now.body ≤ 65531 }
        ensures { OnOk result (self.new ≡ code_rejected actions answer.now self.old) }
    {
        if !actions.scj {
            return Ok(());
        }
        let id = self.kept.last_id.wrapping_add(1);
        self.kept.last_id = id;
        self.send(CODE_REJECT, id, answer.body.as_slice())
    }

    #[tactic(auto, unfolding(crate::specs::Steps::echoed))]
    fn echo(&mut self, actions: LcpActions, answer: &Lcp) -> Result<(), NoMemory>
        requires { length answer.now.body ≤ 65531 }
        ensures { OnOk result (self.new ≡ echoed actions answer.now self.old) }
    {
        if actions.ser {
            self.send(answer.code, answer.id, answer.body.as_slice())
        } else {
            Ok(())
        }
    }

    /// The actions of an entry that answer a packet.
    #[tactic(auto, unfolding(crate::specs::Steps::answered))]
    pub(crate) fn answer(&mut self, actions: LcpActions, answer: &Lcp) -> Result<(), NoMemory>
        requires { length answer.now.body ≤ 65531 }
        ensures { OnOk result (self.new ≡ answered actions answer.now self.old) }
    {
        self.ack(actions, answer)?;
        self.refuse(actions, answer)?;
        self.confirm(actions, answer)?;
        self.reject_code(actions, answer)?;
        self.echo(actions, answer)
    }
}

/// The count of Naks after a Nak or a Reject; a Reject isn't counted.
#[tactic(auto, unfolding(crate::specs::Steps::naks_after))]
fn naks_after(code: u8, naks: u8) -> u8
    ensures { result ≡ naks_after code naks }
{
    if code == CONFIGURE_NAK && naks < MAX_FAILURE {
        naks + 1
    } else {
        naks
    }
}
