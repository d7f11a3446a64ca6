//! A node's end, its disk, its counts and its log, lent to a turn.

ghost use Rattle.std.specs.Prelude.{◌≡◌, count_by};
ghost use Rattle.node_run.specs.Steps.{counts_after, is_datagram, with_sent};

use crate::end::{NodeEnd, NodeStop};
use disk_core::Disk;
use port_events::{EndStep, Event, Out, Outputs};
use port_traits::Sink;
use std::alloc::Global;

/// What a node counts.
#[derive(Clone, Copy, PartialEq, Eq)]
pub struct Counts {
    /// The turns, by their ticks.
    pub turns: u64,
    /// The datagrams, Ethernet frames and network frames that were taken.
    pub taken: u64,
    /// The datagrams that were to be sent.
    pub sent: u64,
}

/// Whether an output is a datagram.
fn is_datagram(out: &Out) -> bool
    ensures { result ≡ is_datagram out.now }
{
    match out {
        Out::Send { .. } => true,
        Out::Ether { .. } | Out::Up { .. } | Out::Drop => false,
    }
}

/// How many outputs are datagrams.
fn datagrams(outs: &[Out]) -> usize
    ensures { result ≡ count_by is_datagram outs.now }
{
    outs.iter().filter(|out| is_datagram(out)).count()
}

impl Counts {
    /// The counts after an event was taken.
    fn after(self, event: &Event) -> Counts
        ensures { result ≡ counts_after self event.now }
    {
        match event {
            Event::Datagram { .. } | Event::Frame { .. } | Event::Lower { .. } => Counts {
                taken: self.taken.saturating_add(1),
                ..self
            },
            Event::Open => self,
            Event::Tick => Counts {
                turns: self.turns.saturating_add(1),
                ..self
            },
        }
    }

    /// The counts with the datagrams among these outputs. They are counted before they go out.
    pub fn with_sent(self, outs: &[Out]) -> Counts
        ensures { result ≡ with_sent self outs.now }
    {
        Counts {
            sent: self.sent.saturating_add(datagrams(outs) as u64),
            ..self
        }
    }
}

/// An end, its disk, its counts and its log. All four are lent: whoever lent them has them back afterwards, as the last step left them.
#[derive(Drop)]
pub(crate) struct Lent<'a, D: Disk, K: Sink> {
    pub alloc: Global,
    pub end: &'a mut NodeEnd,
    pub disk: &'a mut D,
    pub counts: &'a mut Counts,
    pub log: &'a mut K,
}

impl<'a, D: Disk, K: Sink> EndStep for Lent<'a, D, K> {
    ghost use Rattle.node_run.specs.Steps.{IsReady};
    ghost use Rattle.node_run.specs.Lending.{LentSteps, LentStops};

    type Stop = NodeStop;

    ghost ready = { λ l. IsReady D.reach D.calls_left l.end.now l.disk.now };

    ghost steps = { LentSteps K.faults K.taken D.holds D.reach D.calls_left D.faults };

    ghost stops = { LentStops K.faults K.taken D.holds D.reach D.calls_left D.faults };

    fn step(&mut self, now: u64, block: [u8; 16], event: Event) -> Result<Outputs, NodeStop> {
        let counts = self.counts.after(&event);
        let outs = self
            .end
            .step(self.alloc, self.disk, self.log, now, block, event)?;
        *self.counts = counts.with_sent(outs.as_slice());
        Ok(outs)
    }
}
