//! A tunnel's control channel in a step (RFC 2661 section 5.8): letters that are given, acknowledged and sent.

ghost use Rattle.std.specs.Prelude.{◌≡◌, ◌≤◌, length, OnOk, IfOk, IsTrue, option_copied};
ghost use Rattle.control_message.specs.Pairs.{IsWritten};
ghost use Rattle.control_channel.specs.Numbers.{next_to_go, ticked_at};
ghost use Rattle.end_model.specs.Channels.{has_room as room_in, next_place, taken_place, learns_window, origin_of, datagram};
ghost use Rattle.end_model.specs.Sending.{gives, gives_as, takes_one, reads_nr, letter_in, sends_now, repeats, lets_all_go, acknowledges, settles, takes_plain, ignores};
ghost use Rattle.tunnel_turn.specs.Gives.{WentBy};

use crate::turn::Turn;
use control_channel::ChannelNumbers;
use control_message::{Message, hides_nothing_without_a_vector, write_message};
use end_model::{ControlOrigin, LetGo, Move, NrRead, Origin, Out, Place, Repeated, TookPlain};
use l2tp_header::write_control;
use send_window::{LIMIT, Letters};
use wire_base::{Bytes, Letter, NoMemory, Why};

/// How many bytes of pairs a message has room for.
const ROOM: usize = 65_523;

/// The place of a letter.
fn place(number: u64) -> Place
    ensures { result ≡ record { number = number } }
{
    Place { number }
}

impl Turn {
    /// Whether there is room for one more letter.
    pub fn has_room(&self) -> bool
        ensures { result ≡ room_in self.now.control }
    {
        self.control.channel.queued() < LIMIT
    }

    /// The place of the next letter to be given.
    pub fn next_place(&self) -> Place
        ensures { result ≡ next_place self.now.control }
    {
        place(self.control.channel.sent_count())
    }

    /// The place of the next letter of the peer.
    pub fn taken_place(&self) -> Place
        ensures { result ≡ taken_place self.now.control }
    {
        place(self.control.channel.taken_count())
    }

    /// Gives a letter to the channel.
    #[tactic(auto, unfolding(end_model::specs::Sending::gives))]
    pub fn give(&mut self, session: u16, message: &Message) -> Result<(), NoMemory>
        requires written { IsWritten message.now }
        requires room { IsTrue (room_in self.old.control) }
        ensures { OnOk result (self.new ≡ gives session message.now self.old) }
    {
        hides_nothing_without_a_vector();
        let mut avps = Bytes::new(self.alloc);
        write_message(&mut avps, message, None, None)?;
        self.given.push(Letter { session, avps })?;
        self.control.channel.put();
        Ok(())
    }

    /// Gives a letter to the channel, with these pairs where they hide a value.
    #[tactic(auto, unfolding(end_model::specs::Sending::gives, end_model::specs::Sending::gives_as))]
    pub fn give_as(
        &mut self,
        session: u16,
        message: &Message,
        hidden: Option<Bytes>,
    ) -> Result<(), NoMemory>
        requires written { IsWritten message.now }
        requires room { IsTrue (room_in self.old.control) }
        ensures { OnOk result (self.new ≡ gives_as session message.now hidden self.old) }
    {
        let Some(avps) = hidden else {
            return self.give(session, message);
        };
        self.given.push(Letter { session, avps })?;
        self.control.channel.put();
        Ok(())
    }

    /// Takes the next letter of the peer.
    #[tactic(auto, unfolding(end_model::specs::Sending::takes_one))]
    pub fn take(&mut self)
        ensures value { self.new ≡ takes_one self.old }
        ensures room { self.new.control.channel.window ≡ self.old.control.channel.window }
    {
        self.control.channel.take();
        self.took = true;
    }

    /// Takes a letter that changes nothing else.
    #[tactic(auto, unfolding(end_model::specs::Sending::takes_plain))]
    pub fn take_plain(&mut self) -> Result<(), NoMemory>
        ensures { OnOk result (self.new ≡ takes_plain self.old) }
    {
        let taken = self.taken_place();
        let tunnel = self.control.local;
        self.take();
        self.did(Move::TookPlain(TookPlain { tunnel, taken }))
    }

    /// Takes a letter that is ignored.
    #[tactic(auto, unfolding(end_model::specs::Sending::ignores))]
    pub fn ignore(&mut self, why: Why) -> Result<(), NoMemory>
        ensures { OnOk result (self.new ≡ ignores why self.old) }
    {
        self.take_plain()?;
        self.drop_with(why)
    }

    /// The peer's receive window becomes known, in letters; one of 0 letters is none.
    pub fn learn_window(&mut self, window: u16)
        ensures value { self.new ≡ record self.old { control = learns_window window self.old.control } }
        ensures room { self.new.control.channel.window.queued ≡ self.old.control.channel.window.queued }
    {
        if window != 0 {
            self.control.channel.learn_window(window);
        }
    }

    /// Reads what the peer expects next, and that it was heard: letters are acknowledged.
    #[tactic(auto, unfolding(end_model::specs::Sending::reads_nr, end_model::specs::Turn::with_move))]
    pub fn read_nr(&mut self, nr: u16) -> Result<(), NoMemory>
        ensures { OnOk result (self.new ≡ reads_nr nr self.old) }
    {
        self.acked = self.control.channel.ack(nr, self.moment);
        self.control.heard = self.moment;
        self.moves.push(Move::NrRead(NrRead {
            tunnel: self.control.local,
            nr,
        }))
    }

    fn origin(&self, number: u64, empty: bool) -> Origin
        ensures { result ≡ origin_of self.now.control number empty }
    {
        Origin::Control(ControlOrigin {
            tunnel: self.control.local,
            ns: number,
            nr: self.control.channel.taken_count(),
            empty,
        })
    }

    /// The datagram of pairs with a number.
    fn datagram(&self, session: u16, number: u64, pairs: &[u8]) -> Result<Bytes, NoMemory>
        requires { length pairs.now ≤ 65523 }
        ensures { IfOk result (λ bytes. bytes ≡ datagram self.now.control session number pairs.now) }
    {
        let (ns, nr) = self.control.channel.wire(number);
        let mut bytes = Bytes::new(self.alloc);
        write_control(&mut bytes, self.control.remote, session, ns, nr, pairs)?;
        Ok(bytes)
    }

    /// The letter with a number, of those that the tunnel had and the step gave.
    fn letter<'a>(&'a self, letters: &'a Letters, number: u64) -> Option<&'a Letter>
        ensures { option_copied result ≡ letter_in letters.now.letters self.now number }
    {
        let place = self.control.channel.place(number);
        let kept = letters.len().saturating_sub(self.acked);
        if place < kept {
            letters.get(self.acked + place)
        } else {
            self.given.as_slice().get(place - kept)
        }
    }

    /// Sends the letter with a number, of those that the tunnel had and the step gave.
    #[tactic(auto, unfolding(end_model::specs::Sending::sends_now, end_model::specs::Sending::sends_letter))]
    fn send_now(&mut self, letters: &Letters, number: u64) -> Result<(), NoMemory>
        ensures { OnOk result (self.new ≡ sends_now letters.now.letters number self.old) }
    {
        let Some(letter) = self.letter(letters, number) else {
            return Ok(());
        };
        if letter.avps.len() > ROOM {
            return Ok(());
        }
        let bytes = self.datagram(letter.session, number, letter.avps.as_slice())?;
        let origin = self.origin(number, false);
        self.output(Out::Send {
            peer: self.control.peer,
            bytes,
            origin,
        })
    }

    /// Sends as many letters that were never on the wire as the windows allow.
    #[tactic(auto, unfolding(end_model::specs::Sending::lets_all_go, end_model::specs::Sending::goes_by))]
    fn let_all_go(&mut self, letters: &Letters) -> Result<(), NoMemory>
        ensures { OnOk result (self.new ≡ lets_all_go self.old.control.channel.window.queued letters.now.letters self.old) }
    {
        let mut most = self.control.channel.queued();
        while most > 0 {
            if !self.let_one_go(letters)? {
                return Ok(());
            }
            most -= 1;
        }
        Ok(())
    }

    /// Sends the next letter that was never on the wire, where the windows allow one.
    #[tactic(auto, unfolding(end_model::specs::Sending::lets_go, end_model::specs::Turn::with_move))]
    fn let_one_go(&mut self, letters: &Letters) -> Result<bool, NoMemory>
        ensures { IfOk result (λ went. WentBy went letters.now.letters (next_to_go self.old.control.channel) self.old self.new) }
    {
        let Some(number) = self.control.channel.pump(self.moment) else {
            return Ok(false);
        };
        self.moves.push(Move::LetGo(LetGo {
            tunnel: self.control.local,
            sent: place(number),
        }))?;
        self.send_now(letters, number)?;
        Ok(true)
    }

    /// Sends the letter with this number once more, after which the channel has these numbers.
    #[tactic(auto, unfolding(end_model::specs::Sending::repeats, end_model::specs::Turn::with_move))]
    pub fn repeat(
        &mut self,
        letters: &Letters,
        channel: ChannelNumbers,
        number: u64,
    ) -> Result<(), NoMemory>
        requires { channel ≡ ticked_at self.old.control.channel self.old.on.moment }
        ensures { OnOk result (self.new ≡ repeats letters.now.letters number self.old) }
    {
        self.control.channel = channel;
        self.moves.push(Move::Repeated(Repeated {
            tunnel: self.control.local,
            sent: place(number),
        }))?;
        self.send_now(letters, number)
    }

    /// Acknowledges what was taken, by a message without a body.
    #[tactic(auto, unfolding(end_model::specs::Sending::acknowledges, end_model::specs::Turn::with_output, end_model::specs::Turn::with_move))]
    fn acknowledge(&mut self) -> Result<(), NoMemory>
        ensures { OnOk result (self.new ≡ acknowledges self.old) }
    {
        let number = self.control.channel.next_unsent();
        let bytes = self.datagram(0, number, &[])?;
        let origin = self.origin(number, true);
        self.moves.push(Move::Quiet {
            tunnel: self.control.local,
        })?;
        self.outputs.push(Out::Send {
            peer: self.control.peer,
            bytes,
            origin,
        })
    }

    /// The end of a step of the channel: what the windows allow goes out, and then an acknowledgement alone, where the
    /// message came `again`, or where one was taken and nothing went out that says so.
    #[tactic(auto, unfolding(end_model::specs::Sending::settles, end_model::specs::Sending::acknowledged_after))]
    pub fn settle(&mut self, again: bool, letters: &Letters) -> Result<(), NoMemory>
        ensures { OnOk result (self.new ≡ settles again letters.now.letters self.old) }
    {
        let before = self.control.channel.outstanding();
        self.let_all_go(letters)?;
        if again || (self.took && self.control.channel.outstanding() == before) {
            return self.acknowledge();
        }
        Ok(())
    }
}
