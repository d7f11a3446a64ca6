//! The end that answers an attempt.

ghost use Rattle.std.specs.Prelude.{◌≡◌, ◌<◌, Some, IfOk, IfSome, OnOk, OnErr, IsTrue, option_copied};
ghost use Rattle.send_window.specs.Window.{next_unsent, Holds, HoldsRepeated};
ghost use Rattle.send_window.specs.Outbox.{letter_at};
ghost use Rattle.recv_window.specs.Window.{on_wire};
ghost use Rattle.control_channel.specs.Channel.{received, class_told, taken_by, next_to_go, let_go_at, answer_to_tick, ticked_at, nr_of};
ghost use Rattle.control_message.specs.Pairs.{IsWritten};
ghost use Rattle.control_message.specs.declared.message.Message.TheVariants as message;
ghost use Rattle.recovery_tunnel.specs.Secrets.{is_wrong};
ghost use Rattle.recovery_tunnel.specs.Connections.{is_waiting, refuses, told_by_refusal, told_by_time};
ghost use Rattle.recovery_tunnel.specs.Answers.{reply_of, new_answer, told_by_confirmation, after_confirmation, told_to_answer, answer_after, is_answer_over};

use crate::connection::{ControlConnection, copy_challenge, give, is_over, write_letter};
use crate::progress::Progress;
use crate::secrets::is_wrong;
use control_channel::{Channel, Class, Tick};
use control_message::{Message, Opening, Suggested};
use std::alloc::Global;
use std::marker::Model;
use wire_base::{Cause, Letter, NoMemory};

/// The type of an SCCCN, which is digested with the response that it carries (RFC 2661 section 4.4.3).
const SCCCN: u8 = 3;

/// How long an answer is kept after its reset, in milliseconds, so that it acknowledges what comes again.
const KEPT_AFTER_RESET: u64 = 31_000;

/// An answer to an attempt at the recovery of a tunnel, over a control connection of its own. Moments are in milliseconds; where a
/// given one is below a kept one, no time has passed.
#[derive(Drop)]
pub struct Answer {
    connection: ControlConnection,
    suggested: Suggested,
}

impl Model for Answer {
    ghost use Rattle.recovery_tunnel.specs.Answers.{Answering};

    ghost Value = { Answering };

    ghost view = { λ a. record { connection = a.connection; suggested = a.suggested } };
}

impl Answer {
    pub(crate) fn connection(&self) -> &ControlConnection
        ensures { result.now ≡ self.now.connection }
    {
        &self.connection
    }

    /// An answer to the attempt with the tunnel id `remote`, whose SCCRQ, its first letter, is taken, and whose receive window has
    /// `window` letters: `opening` is what this end says of itself, what it asks the other one to answer by the secret, and its
    /// response. The tunnel id `local` and the number `draw` are drawn for this answer. Its first letter, the SCCRP, stands in its
    /// channel.
    #[tactic(auto, unfolding(crate::specs::Answers::new_answer))]
    pub fn start(
        alloc: Global,
        local: u16,
        remote: u16,
        suggested: Suggested,
        opening: Opening,
        window: u16,
        draw: u32,
        now: u64,
    ) -> Result<Answer, NoMemory>
        requires written { IsWritten (message.Sccrp (reply_of local suggested draw opening)) }
        requires window { 0 < window }
        ensures { IfOk result (λ answer. answer ≡ new_answer local remote suggested opening window draw now) }
    {
        let challenge = copy_challenge(alloc, &opening.challenge)?;
        let mut reply = opening;
        reply.tunnel = local;
        reply.suggested = Some(suggested);
        reply.attempt = Some(draw);
        let letter = write_letter(alloc, &Message::Sccrp(reply))?;
        let mut channel = Channel::new(alloc, 0, 1, window);
        give(&mut channel, letter)?;
        Ok(Answer {
            connection: ControlConnection {
                local,
                remote,
                draw,
                challenge,
                channel,
                since: now,
                reset: None,
                closed: false,
            },
            suggested,
        })
    }

    /// Hears the next message, with the secret of this end, where it has one. Where memory is wanting, the answer is as before, and
    /// the message isn't heard.
    #[tactic(auto, unfolding(crate::specs::Answers::told_to_answer, crate::specs::Answers::answer_after))]
    pub fn on_message(
        &mut self,
        alloc: Global,
        message: &Message,
        secret: Option<&[u8]>,
        now: u64,
    ) -> Result<Progress, NoMemory>
        ensures told { IfOk result (λ progress. progress ≡ told_to_answer (option_copied secret.entry) message.now self.old) }
        ensures ok { OnOk result (self.new ≡ answer_after (option_copied secret.entry) now message.now self.old) }
        ensures err { OnErr result (self.new ≡ self.old) }
    {
        match message {
            Message::Scccn { response } if self.connection.is_waiting() => {
                self.on_confirmation(alloc, response, secret, now)
            }
            Message::Sccrp(_) | Message::Sccrq(_) | Message::Scccn { .. } => {
                self.connection.refuse(alloc, Cause::State)
            }
            Message::StopCcn { .. } => Ok(Progress::Cleared),
            _ => Ok(Progress::Waiting),
        }
    }

    /// The SCCCN that it waits for.
    fn on_confirmation(
        &mut self,
        alloc: Global,
        response: &Option<[u8; 16]>,
        secret: Option<&[u8]>,
        now: u64,
    ) -> Result<Progress, NoMemory>
        requires { IsTrue (is_waiting self.old.connection) }
        ensures told { IfOk result (λ progress. progress ≡ told_by_confirmation (is_wrong 3 (option_copied secret.entry) self.old.connection.challenge response.now) self.old.suggested) }
        ensures ok { OnOk result (self.new ≡ record self.old { connection = after_confirmation (is_wrong 3 (option_copied secret.entry) self.old.connection.challenge response.now) now self.old.connection }) }
        ensures err { OnErr result (self.new ≡ self.old) }
    {
        if is_wrong(SCCCN, secret, &self.connection.challenge, response) {
            return self.connection.refuse(alloc, Cause::Secret);
        }
        self.connection.reset = Some(now);
        Ok(Progress::Reset {
            suggested: self.suggested,
            peer_draw: None,
        })
    }

    /// Refuses the next message, which has a fault: it can't be read (`Avp`), a value of it is missing or can't be had (`Value`), or
    /// something mandatory in it is unknown (`Mandatory`). Where memory is wanting, the answer is as before.
    pub fn on_fault(&mut self, alloc: Global, cause: Cause) -> Result<Progress, NoMemory>
        ensures told { IfOk result (λ progress. progress ≡ told_by_refusal cause self.old.connection) }
        ensures ok { OnOk result (self.new ≡ record self.old { connection = refuses cause self.old.connection }) }
        ensures err { OnErr result (self.new ≡ self.old) }
    {
        self.connection.refuse(alloc, cause)
    }

    /// What the time tells, after `tick` of the same moment: the tunnel is to be cleared where the channel has failed, or where 60
    /// seconds have passed and it wasn't told to be reset.
    pub fn on_tick(&self, now: u64) -> Progress
        ensures { result ≡ told_by_time now self.now.connection }
    {
        self.connection.on_tick(now)
    }

    /// Whether it has ended by itself: 31 seconds have passed since it told to reset the tunnel.
    pub fn over(&self, now: u64) -> bool
        ensures { result ≡ is_answer_over now self.now }
    {
        match self.connection.reset {
            None => false,
            Some(at) => is_over(KEPT_AFTER_RESET, now, at),
        }
    }

    /// The numbers that its SCCRP suggests.
    pub fn suggested(&self) -> Suggested
        ensures { result ≡ self.now.suggested }
    {
        self.suggested
    }

    /// The tunnel id that this end assigned.
    pub fn local(&self) -> u16
        ensures { result ≡ self.now.connection.local }
    {
        self.connection.local
    }

    /// The tunnel id that the other end assigned.
    pub fn remote(&self) -> u16
        ensures { result ≡ self.now.connection.remote }
    {
        self.connection.remote
    }

    /// The number that this end drew.
    pub fn draw(&self) -> u32
        ensures { result ≡ self.now.connection.draw }
    {
        self.connection.draw
    }

    /// A message of the other end, as `Channel::receive`. Where it is the next one, `on_message` or `on_fault` hears it, and `take`
    /// counts it as taken.
    pub fn receive(&mut self, ns: u16, nr: u16, empty: bool, now: u64) -> Option<Class>
        ensures class { result ≡ class_told self.old.connection.channel ns empty }
        ensures value { self.new ≡ record self.old { connection = record self.old.connection { channel = received self.old.connection.channel nr now } } }
    {
        self.connection.receive(ns, nr, empty, now)
    }

    /// Counts the message that was expected as taken.
    pub fn take(&mut self)
        ensures { self.new ≡ record self.old { connection = record self.old.connection { channel = taken_by self.old.connection.channel } } }
    {
        self.connection.take();
    }

    /// The number of the next letter that the window lets go, which is outstanding from then on, as `Channel::pump`.
    pub fn pump(&mut self, now: u64) -> Option<u64>
        ensures number { result ≡ next_to_go self.old.connection.channel }
        ensures value { self.new ≡ record self.old { connection = record self.old.connection { channel = let_go_at self.old.connection.channel now } } }
        ensures there { IfSome result (λ n. Holds self.new.connection.channel.outbox.window n) }
    {
        self.connection.pump(now)
    }

    /// What is due at a moment on the channel, as `Channel::tick`.
    pub fn tick(&mut self, now: u64) -> Tick
        ensures answer { result ≡ answer_to_tick self.old.connection.channel now }
        ensures value { self.new ≡ record self.old { connection = record self.old.connection { channel = ticked_at self.old.connection.channel now } } }
        ensures there { HoldsRepeated self.new.connection.channel.outbox.window result }
    {
        self.connection.tick(now)
    }

    /// The letter with a number that is unacknowledged or unsent.
    pub fn letter(&self, number: u64) -> &Letter
        requires { Holds self.now.connection.channel.outbox.window number }
        ensures { letter_at self.now.connection.channel.outbox number ≡ Some result.now }
    {
        self.connection.channel.letter(number)
    }

    /// Ns and Nr of a message with a number, as they stand on the wire.
    pub fn wire(&self, number: u64) -> (u16, u16)
        ensures ns { result.0 ≡ on_wire number }
        ensures nr { result.1 ≡ nr_of self.now.connection.channel }
    {
        self.connection.channel.wire(number)
    }

    /// The number of an acknowledgement without a message.
    pub fn next_unsent(&self) -> u64
        ensures { result ≡ next_unsent self.now.connection.channel.outbox.window }
    {
        self.connection.channel.next_unsent()
    }

    /// A copy, with as much room in its channel: a step is planned on it, and where memory is wanting, nothing has changed.
    pub fn copy(&self, alloc: Global) -> Result<Answer, NoMemory>
        ensures { IfOk result (λ copy. copy ≡ self.now) }
    {
        let connection = self.connection.copy(alloc)?;
        Ok(Answer {
            connection,
            suggested: self.suggested,
        })
    }
}
