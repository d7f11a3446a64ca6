//! The end that attempts a recovery.

ghost use Rattle.std.specs.Prelude.{◌≡◌, Some, IfOk, IfSome, OnOk, OnErr, IsTrue, option_copied};
ghost use Rattle.send_window.specs.Window.{next_unsent, Holds, HoldsRepeated};
ghost use Rattle.send_window.specs.Outbox.{letter_at};
ghost use Rattle.recv_window.specs.Window.{on_wire};
ghost use Rattle.control_channel.specs.Channel.{received, class_told, taken_by, next_to_go, let_go_at, answer_to_tick, ticked_at, nr_of};
ghost use Rattle.control_message.specs.Pairs.{IsWritten};
ghost use Rattle.control_message.specs.declared.message.Message.TheVariants as message;
ghost use Rattle.recovery_tunnel.specs.Connections.{is_waiting, refuses, told_by_refusal, told_by_time};
ghost use Rattle.recovery_tunnel.specs.Attempts.{request_of, new_attempt, against, suggested_in, told_by_reply, after_reply, told_to_attempt, attempt_after, is_attempt_over};

use crate::connection::{ControlConnection, copy_challenge, give, write_letter};
use crate::progress::Progress;
use crate::secrets::{is_wrong, lacks_secret, response_by};
use control_channel::{Channel, Class, Tick};
use control_message::{Message, Opening, Recovery, Suggested};
use std::alloc::Global;
use std::marker::Model;
use wire_base::{Bytes, Cause, Letter, NoMemory};

/// The types of the messages that carry a response, which are digested with it (RFC 2661 section 4.4.3).
const SCCRP: u8 = 2;

const SCCCN: u8 = 3;

/// The one Protocol Version that there is: version 1, revision 0 (RFC 2661 section 4.4.3).
const VERSION: u16 = 0x0100;

/// The window of the other end, in letters, as long as it isn't told (RFC 2661 section 4.4.3).
const WINDOW: u16 = 4;

/// An attempt at the recovery of a tunnel, over a control connection of its own. Moments are in milliseconds; where a given one is
/// below a kept one, no time has passed.
#[derive(Drop)]
pub struct Attempt {
    connection: ControlConnection,
}

impl Model for Attempt {
    ghost use Rattle.recovery_tunnel.specs.Connections.{ControlConnection as Known};

    ghost Value = { Known };

    ghost view = { λ a. a.connection };
}

/// What stands against the SCCRP that an attempt waits for, of an end that asked this; the first that counts.
fn against(secret: Option<&[u8]>, asked: &Option<Bytes>, reply: &Opening) -> Option<Cause>
    ensures { result ≡ against (option_copied secret.entry) asked.now reply.now }
{
    if reply.version != VERSION {
        Some(Cause::Version)
    } else if lacks_secret(secret, &reply.challenge)
        || is_wrong(SCCRP, secret, asked, &reply.response)
    {
        Some(Cause::Secret)
    } else {
        None
    }
}

/// The numbers that a reply suggests.
fn suggested_in(reply: &Opening) -> Suggested
    ensures { result ≡ suggested_in reply.now }
{
    reply.suggested.unwrap_or(Suggested { ns: 0, nr: 0 })
}

impl Attempt {
    pub(crate) fn connection(&self) -> &ControlConnection
        ensures { result.now ≡ self.now }
    {
        &self.connection
    }

    /// An attempt at the recovery of a tunnel that has these two ids: `opening` is what this end says of itself, and what it asks
    /// the other one to answer by the secret. The tunnel id `local` and the number `draw` are drawn for this attempt. Its first
    /// letter, the SCCRQ, stands in its channel.
    #[tactic(auto, unfolding(crate::specs::Attempts::new_attempt))]
    pub fn start(
        alloc: Global,
        local: u16,
        main: Recovery,
        draw: u32,
        opening: Opening,
        now: u64,
    ) -> Result<Attempt, NoMemory>
        requires { IsWritten (message.Sccrq (request_of local main draw opening)) }
        ensures { IfOk result (λ attempt. attempt ≡ new_attempt local main draw opening now) }
    {
        let challenge = copy_challenge(alloc, &opening.challenge)?;
        let mut request = opening;
        request.tunnel = local;
        request.recovery = Some(main);
        request.attempt = Some(draw);
        let letter = write_letter(alloc, &Message::Sccrq(request))?;
        let mut channel = Channel::new(alloc, 0, 0, WINDOW);
        give(&mut channel, letter)?;
        Ok(Attempt {
            connection: ControlConnection {
                local,
                remote: 0,
                draw,
                challenge,
                channel,
                since: now,
                reset: None,
                closed: false,
            },
        })
    }

    /// The SCCRP that it waits for.
    fn on_reply(
        &mut self,
        alloc: Global,
        reply: &Opening,
        secret: Option<&[u8]>,
        now: u64,
    ) -> Result<Progress, NoMemory>
        requires { IsTrue (is_waiting self.old) }
        ensures told { IfOk result (λ progress. progress ≡ told_by_reply (against (option_copied secret.entry) self.old.challenge reply.now) reply.now) }
        ensures ok { OnOk result (self.new ≡ after_reply (against (option_copied secret.entry) self.old.challenge reply.now) (option_copied secret.entry) now reply.now self.old) }
        ensures err { OnErr result (self.new ≡ self.old) }
    {
        if let Some(cause) = against(secret, &self.connection.challenge, reply) {
            self.connection.refuse(alloc, cause)?;
            self.connection.remote = reply.tunnel;
            return Ok(Progress::Given { cause });
        }
        self.connection.confirm(
            alloc,
            reply,
            response_by(SCCCN, secret, &reply.challenge),
            now,
        )?;
        Ok(Progress::Reset {
            suggested: suggested_in(reply),
            peer_draw: reply.attempt,
        })
    }

    /// Hears the next message, with the secret of this end, where it has one. Where memory is wanting, the attempt is as before, and
    /// the message isn't heard.
    #[tactic(auto, unfolding(crate::specs::Attempts::told_to_attempt, crate::specs::Attempts::attempt_after))]
    pub fn on_message(
        &mut self,
        alloc: Global,
        message: &Message,
        secret: Option<&[u8]>,
        now: u64,
    ) -> Result<Progress, NoMemory>
        ensures told { IfOk result (λ progress. progress ≡ told_to_attempt (option_copied secret.entry) message.now self.old) }
        ensures ok { OnOk result (self.new ≡ attempt_after (option_copied secret.entry) now message.now self.old) }
        ensures err { OnErr result (self.new ≡ self.old) }
    {
        match message {
            Message::Sccrp(reply) if self.connection.is_waiting() => {
                self.on_reply(alloc, reply, secret, now)
            }
            Message::Sccrp(_) | Message::Sccrq(_) | Message::Scccn { .. } => {
                self.connection.refuse(alloc, Cause::State)
            }
            Message::StopCcn { .. } => Ok(Progress::Cleared),
            _ => Ok(Progress::Waiting),
        }
    }

    /// Refuses the next message, which has a fault: it can't be read (`Avp`), a value of it is missing or can't be had (`Value`), or
    /// something mandatory in it is unknown (`Mandatory`). Where memory is wanting, the attempt is as before.
    pub fn on_fault(&mut self, alloc: Global, cause: Cause) -> Result<Progress, NoMemory>
        ensures told { IfOk result (λ progress. progress ≡ told_by_refusal cause self.old) }
        ensures ok { OnOk result (self.new ≡ refuses cause self.old) }
        ensures err { OnErr result (self.new ≡ self.old) }
    {
        self.connection.refuse(alloc, cause)
    }

    /// What the time tells, after `tick` of the same moment: the tunnel is to be cleared where the channel has failed, or where 60
    /// seconds have passed and it wasn't told to be reset.
    pub fn on_tick(&self, now: u64) -> Progress
        ensures { result ≡ told_by_time now self.now }
    {
        self.connection.on_tick(now)
    }

    /// Whether it has ended by itself: its SCCCN is acknowledged.
    pub fn over(&self, _now: u64) -> bool
        ensures { result ≡ is_attempt_over self.now }
    {
        self.connection.reset.is_some() && self.connection.channel.acked_count() > 1
    }

    /// The tunnel id that this end assigned.
    pub fn local(&self) -> u16
        ensures { result ≡ self.now.local }
    {
        self.connection.local
    }

    /// The tunnel id that the other end assigned, 0 while it isn't known.
    pub fn remote(&self) -> u16
        ensures { result ≡ self.now.remote }
    {
        self.connection.remote
    }

    /// The number that this end drew.
    pub fn draw(&self) -> u32
        ensures { result ≡ self.now.draw }
    {
        self.connection.draw
    }

    /// A message of the other end, as `Channel::receive`. Where it is the next one, `on_message` or `on_fault` hears it, and `take`
    /// counts it as taken.
    pub fn receive(&mut self, ns: u16, nr: u16, empty: bool, now: u64) -> Option<Class>
        ensures class { result ≡ class_told self.old.channel ns empty }
        ensures value { self.new ≡ record self.old { channel = received self.old.channel nr now } }
    {
        self.connection.receive(ns, nr, empty, now)
    }

    /// Counts the message that was expected as taken.
    pub fn take(&mut self)
        ensures { self.new ≡ record self.old { channel = taken_by self.old.channel } }
    {
        self.connection.take();
    }

    /// The number of the next letter that the window lets go, which is outstanding from then on, as `Channel::pump`.
    pub fn pump(&mut self, now: u64) -> Option<u64>
        ensures number { result ≡ next_to_go self.old.channel }
        ensures value { self.new ≡ record self.old { channel = let_go_at self.old.channel now } }
        ensures there { IfSome result (λ n. Holds self.new.channel.outbox.window n) }
    {
        self.connection.pump(now)
    }

    /// What is due at a moment on the channel, as `Channel::tick`.
    pub fn tick(&mut self, now: u64) -> Tick
        ensures answer { result ≡ answer_to_tick self.old.channel now }
        ensures value { self.new ≡ record self.old { channel = ticked_at self.old.channel now } }
        ensures there { HoldsRepeated self.new.channel.outbox.window result }
    {
        self.connection.tick(now)
    }

    /// The letter with a number that is unacknowledged or unsent.
    pub fn letter(&self, number: u64) -> &Letter
        requires { Holds self.now.channel.outbox.window number }
        ensures { letter_at self.now.channel.outbox number ≡ Some result.now }
    {
        self.connection.channel.letter(number)
    }

    /// Ns and Nr of a message with a number, as they stand on the wire.
    pub fn wire(&self, number: u64) -> (u16, u16)
        ensures ns { result.0 ≡ on_wire number }
        ensures nr { result.1 ≡ nr_of self.now.channel }
    {
        self.connection.channel.wire(number)
    }

    /// The number of an acknowledgement without a message.
    pub fn next_unsent(&self) -> u64
        ensures { result ≡ next_unsent self.now.channel.outbox.window }
    {
        self.connection.channel.next_unsent()
    }

    /// A copy, with as much room in its channel: a step is planned on it, and where memory is wanting, nothing has changed.
    pub fn copy(&self, alloc: Global) -> Result<Attempt, NoMemory>
        ensures { IfOk result (λ copy. copy ≡ self.now) }
    {
        let connection = self.connection.copy(alloc)?;
        Ok(Attempt { connection })
    }
}
