//! An end with a peer that is another program: the lines of what the end gives for an event.

use crate::event::{Fault, bytes_of, event_of, node_number, number_of};
use end_core::EndRows;
use end_model::{Config, Event, Out, address_of, node_of};
use lac_core::Lac;
use lns_core::Lns;
use session_looks::Look;
use std::alloc::Global;
use step_ledger::{StepFault, Unkept};
use tunnel_core::{Outputs, TunnelCore};
use wire_base::{Bytes, NoMemory, Why};

/// What an end of this number is told. A secret of no bytes is none.
fn config(number: u8, lns: u32, secret: Bytes) -> Config {
    let secret = if secret.len() == 0 {
        None
    } else {
        Some(secret)
    };
    Config::new(number, address_of(number), lns, secret, false)
}

/// What an end gives for an event: its outputs, and the Ethernet frame that answers a host behind them.
#[derive(Drop)]
struct Answered {
    outputs: Outputs,
    reply: Option<Bytes>,
}

/// What is wanting where a step wasn't made: the ledger never stops.
fn wanting(_fault: StepFault<NoMemory>) -> NoMemory {
    NoMemory
}

/// An end of either kind, in a box, since it is large: a function that owns it inline, with ways out, is dear to prove.
#[derive(Drop)]
enum Side {
    Lac(Box<Lac>),
    Lns(Box<Lns>),
}

impl Side {
    fn step(&mut self, moment: u64, event: &Event) -> Result<Answered, NoMemory> {
        match self {
            Side::Lac(lac) => {
                let given = lac
                    .step(&mut Unkept, moment, [7; 16], event)
                    .map_err(wanting)?;
                Ok(Answered {
                    outputs: given.outputs,
                    reply: given.reply,
                })
            }
            Side::Lns(lns) => {
                let given = lns
                    .step(&mut Unkept, moment, [7; 16], event)
                    .map_err(wanting)?;
                Ok(Answered {
                    outputs: given.outputs,
                    reply: None,
                })
            }
        }
    }
}

pub fn push_number(alloc: Global, text: &mut Bytes, number: u32) -> Result<(), NoMemory> {
    let digits = number.to_string(alloc)?;
    text.push_slice(digits.as_bytes())
}

/// Appends the line of an output.
fn push_output(alloc: Global, text: &mut Bytes, output: &Out) -> Result<(), NoMemory> {
    match output {
        Out::Send { peer, bytes, .. } => {
            let digits = hex::encode(alloc, bytes.as_slice())?;
            text.push_slice(b"send ")?;
            push_number(alloc, text, u32::from(node_of(*peer)))?;
            text.push_slice(b" ")?;
            text.push_slice(digits.as_bytes())?;
        }
        Out::Up { .. } => text.push_slice(b"up")?,
        Out::Gone { session } => {
            text.push_slice(b"gone ")?;
            push_number(alloc, text, *session)?;
        }
        Out::Drop { why } => {
            text.push_slice(b"drop ")?;
            text.push_slice(why.word())?;
        }
        Out::Cause { cause } => {
            text.push_slice(b"cause ")?;
            text.push_slice(cause.word())?;
        }
    }
    text.push_slice(b"\n")
}

/// Appends the line of a frame that answers a host.
fn push_reply(alloc: Global, text: &mut Bytes, frame: &Bytes) -> Result<(), NoMemory> {
    let digits = hex::encode(alloc, frame.as_slice())?;
    text.push_slice(b"frame ")?;
    text.push_slice(digits.as_bytes())?;
    text.push_slice(b"\n")
}

/// An end, where its messages come from, and the moment.
#[derive(Drop)]
pub struct Bench {
    end: Side,
    peer: u32,
    moment: u64,
}

impl Bench {
    /// The LNS of this number, to which the LAC of the other number speaks.
    fn lns_of(alloc: Global, number: u8, lac: u8, secret: Bytes) -> Result<Bench, NoMemory> {
        let end = Box::new(alloc, Lns::new(alloc, config(number, 0, secret)))?;
        Ok(Bench {
            end: Side::Lns(end),
            peer: address_of(lac),
            moment: 1000,
        })
    }

    /// The LAC of this number, to which the LNS of the other number speaks.
    fn lac_of(alloc: Global, number: u8, lns: u8, secret: Bytes) -> Result<Bench, NoMemory> {
        let lns = address_of(lns);
        let end = Box::new(alloc, Lac::new(alloc, config(number, lns, secret), [0; 16]))?;
        Ok(Bench {
            end: Side::Lac(end),
            peer: lns,
            moment: 1000,
        })
    }

    /// The LNS 7, to which the LAC 9 speaks, without a secret.
    pub fn lns(alloc: Global) -> Result<Bench, NoMemory> {
        Bench::lns_of(alloc, 7, 9, Bytes::new(alloc))
    }

    /// The LAC 9, to which the LNS 7 speaks, without a secret.
    pub fn lac(alloc: Global) -> Result<Bench, NoMemory> {
        Bench::lac_of(alloc, 9, 7, Bytes::new(alloc))
    }

    /// An end of this kind, of words that are its number, its peer's number, and the hex digits of its secret, or `-`.
    fn numbered(alloc: Global, kind: &str, words: &str) -> Result<Bench, Fault> {
        let (number, words) = words.split_once(' ').ok_or(Fault::NotARow)?;
        let (peer, digits) = words.split_once(' ').ok_or(Fault::NotARow)?;
        let number = node_number(number)?;
        let peer = node_number(peer)?;
        let secret = bytes_of(alloc, digits)?;
        match kind {
            "lns" => Ok(Bench::lns_of(alloc, number, peer, secret)?),
            "lac" => Ok(Bench::lac_of(alloc, number, peer, secret)?),
            _ => Err(Fault::NotARow),
        }
    }

    /// The new end that words tell.
    fn told(alloc: Global, words: &str) -> Result<Bench, Fault> {
        match (words, words.split_once(' ')) {
            ("lns", _) => Ok(Bench::lns(alloc)?),
            ("lac", _) => Ok(Bench::lac(alloc)?),
            (_, Some((kind, about))) => Bench::numbered(alloc, kind, about),
            (_, None) => Err(Fault::NotARow),
        }
    }

    /// Why the event of these words doesn't fit the end.
    pub fn fits(&self, alloc: Global, words: &str) -> Result<Option<Why>, Fault> {
        let event = event_of(alloc, self.peer, words)?;
        Ok(match &self.end {
            Side::Lac(lac) => lac.fits(&event),
            Side::Lns(lns) => lns.fits(&event),
        })
    }

    /// What the data plane sees of a session.
    pub fn look(&self, session: u16) -> Look {
        match &self.end {
            Side::Lac(lac) => lac.look(session),
            Side::Lns(lns) => lns.look(session),
        }
    }

    /// The end's tables.
    pub fn rows(&self, alloc: Global) -> Result<EndRows, NoMemory> {
        match &self.end {
            Side::Lac(lac) => lac.tunnel_rows(alloc),
            Side::Lns(lns) => lns.tunnel_rows(alloc),
        }
    }

    /// The tunnel with this local id.
    pub fn tunnel(&self, id: u16) -> Option<&TunnelCore> {
        match &self.end {
            Side::Lac(lac) => lac.end().tunnel(u32::from(id)),
            Side::Lns(lns) => lns.end().tunnel(u32::from(id)),
        }
    }

    /// The lines of what the end gives for an event.
    pub fn give(&mut self, alloc: Global, event: &Event) -> Result<Bytes, NoMemory> {
        let given = self.end.step(self.moment, event)?;
        let mut text = Bytes::new(alloc);
        for output in given.outputs.as_slice() {
            push_output(alloc, &mut text, output)?;
        }
        if let Some(frame) = &given.reply {
            push_reply(alloc, &mut text, frame)?;
        }
        Ok(text)
    }

    /// The event of words, or a tick after so many milliseconds.
    fn next(&mut self, alloc: Global, words: &str) -> Result<Event, Fault> {
        match words.strip_prefix("tick ") {
            Some(digits) => {
                let later = u64::from(number_of(digits)?);
                self.moment = self.moment.saturating_add(later);
                Ok(Event::Tick)
            }
            None => event_of(alloc, self.peer, words),
        }
    }

    /// What the words of a row lead to: an end that is new, or the lines of what the end gives.
    pub fn run(&mut self, alloc: Global, words: &str) -> Result<Bytes, Fault> {
        match words.strip_prefix("new ") {
            Some(end) => {
                *self = Bench::told(alloc, end)?;
                Ok(Bytes::new(alloc))
            }
            None => {
                let event = self.next(alloc, words)?;
                Ok(self.give(alloc, &event)?)
            }
        }
    }
}
