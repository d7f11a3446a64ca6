//! The end of a node, which is a LAC or an LNS.

ghost use Rattle.std.specs.Prelude.{◌≡◌, is_some};
ghost use Rattle.end_model.specs.Access.{access_with};
ghost use Rattle.end_model.specs.End.{new_end};
ghost use Rattle.end_model.specs.Starting.{bare_end};
ghost use Rattle.world_model.specs.World.{farewell_by};
ghost use Rattle.end_core.specs.Fits.{fits};
ghost use Rattle.step_ledger.specs.Committing.{Commits};
ghost use Rattle.schedule_replay.specs.Serving.{site_step, site_start, site_contents, GivesSite};

use end_model::{Config, Event, Role};
use lac_core::{End, Lac, Moves, Outputs};
use lns_core::Lns;
use session_book::Book;
use std::alloc::Global;
use std::marker::Model;
use step_ledger::{BookedLedger, Ledger, StepFault};
use wire_base::{Bytes, Why};

/// What a step of a node's end gave.
#[derive(Drop)]
pub(crate) struct Moved {
    /// What goes to the outside, in order.
    pub(crate) outputs: Outputs,
    /// What the step did, in order.
    pub(crate) moves: Moves,
    /// The Ethernet frame that answers a host, behind all outputs.
    pub(crate) reply: Option<Bytes>,
}

/// A LAC or an LNS.
#[derive(Drop)]
enum Kind {
    Lac(Lac),
    Lns(Lns),
}

/// The end of a node.
#[derive(Drop)]
pub(crate) struct NodeEnd {
    kind: Kind,
}

impl Model for NodeEnd {
    ghost use Rattle.schedule_replay.specs.Kinds.{Site, site_of};

    ghost Value = { Site };

    ghost view = { λ n. site_of n.kind };
}

impl NodeEnd {
    /// An end without a tunnel, and where it is a LAC without a host; it makes its cookies with this key. It takes no memory.
    pub(crate) fn new(alloc: Global, role: Role, config: Config, key: [u8; 16]) -> NodeEnd
        ensures { result ≡ record { end = new_end role config; access = access_with role key } }
    {
        let kind = match role {
            Role::Lac => Kind::Lac(Lac::new(alloc, config, key)),
            Role::Lns => Kind::Lns(Lns::new(alloc, config)),
        };
        NodeEnd { kind }
    }

    /// The end, with its tunnels.
    pub(crate) fn end(&self) -> &End
        ensures { result.now ≡ self.now.end }
    {
        match &self.kind {
            Kind::Lac(lac) => lac.end(),
            Kind::Lns(lns) => lns.end(),
        }
    }

    /// Why an event doesn't fit, where it names a call that isn't live, or a tunnel that isn't, or is closed.
    pub(crate) fn fits(&self, event: &Event) -> Option<Why>
        ensures { result ≡ fits self.now.end event.now }
    {
        match &self.kind {
            Kind::Lac(lac) => lac.fits(event),
            Kind::Lns(lns) => lns.fits(event),
        }
    }

    /// A step of the end on an event, at a moment in milliseconds, with a block of random bytes. What it leaves is committed to a ledger
    /// before it is made.
    #[tactic(auto, unfolding(crate::specs::Serving::site_step))]
    pub(crate) fn step<L: Ledger>(
        &mut self,
        ledger: &mut L,
        moment: u64,
        block: [u8; 16],
        event: &Event,
    ) -> Result<Moved, StepFault<L::Stop>>
        requires { L.can_commit ledger.old }
        ensures given { GivesSite result (site_step self.old moment block event.now) self.old self.new }
        ensures committed { Commits L.commits_to result (site_contents self.old (site_step self.old moment block event.now)) ledger.old ledger.new }
    {
        match &mut self.kind {
            Kind::Lac(lac) => {
                let given = lac.step(ledger, moment, block, event)?;
                Ok(Moved {
                    outputs: given.outputs,
                    moves: given.moves,
                    reply: given.reply,
                })
            }
            Kind::Lns(lns) => {
                let given = lns.step(ledger, moment, block, event)?;
                Ok(Moved {
                    outputs: given.outputs,
                    moves: given.moves,
                    reply: None,
                })
            }
        }
    }

    /// All but the book is lost: no tunnel is left and no host, ids are drawn above the book's ceilings, and a LAC makes its cookies with
    /// this key. It takes no memory.
    pub(crate) fn fall(&mut self, key: [u8; 16], book: &Book)
        ensures { self.new ≡ record { end = bare_end self.old.end.role self.old.end.config book.now.kept; access = access_with self.old.end.role key } }
    {
        match &mut self.kind {
            Kind::Lac(lac) => lac.fall(key, book),
            Kind::Lns(lns) => lns.fall(book),
        }
    }

    /// The end starts over the book of its ledger, at a moment in milliseconds, with a block of random bytes, which a LAC makes its
    /// cookies with.
    #[tactic(auto, unfolding(crate::specs::Serving::site_start))]
    pub(crate) fn start<L: BookedLedger>(
        &mut self,
        ledger: &mut L,
        moment: u64,
        block: [u8; 16],
    ) -> Result<Moved, StepFault<L::Stop>>
        requires ready { L.Ledger.can_commit ledger.old }
        requires lends { L.can_lend ledger.old }
        ensures given { GivesSite result (site_start self.old.end.role self.old.end.config moment block (L.kept ledger.old)) self.old self.new }
        ensures committed { Commits L.Ledger.commits_to result (site_contents self.old (site_start self.old.end.role self.old.end.config moment block (L.kept ledger.old))) ledger.old ledger.new }
    {
        let given = match &mut self.kind {
            Kind::Lac(lac) => lac.start(ledger, moment, block, block)?,
            Kind::Lns(lns) => lns.start(ledger, moment, block)?,
        };
        Ok(Moved {
            outputs: given.outputs,
            moves: given.moves,
            reply: None,
        })
    }

    /// Whether it is a LAC, which hosts come to.
    pub(crate) fn has_hosts(&self) -> bool
        ensures { result ≡ is_some self.now.access }
    {
        matches!(&self.kind, Kind::Lac(_))
    }

    /// The PADT to the host of a call that ended, where a host had it.
    pub(crate) fn farewell(&self, session: u32) -> Option<[u8; 20]>
        ensures { result ≡ farewell_by self.now.end.config.number session self.now.access }
    {
        match &self.kind {
            Kind::Lac(lac) => lac.padt(session),
            Kind::Lns(_) => None,
        }
    }
}
