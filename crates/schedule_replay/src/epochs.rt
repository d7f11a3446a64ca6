//! What the world counts of tunnels: the epoch that each is in, and how many were made of it.

ghost use Rattle.std.specs.Prelude.{◌≡◌, OnOk};
ghost use Rattle.id_table.specs.Ids.{at};
ghost use Rattle.end_names.specs.Names.{node_of};
ghost use Rattle.world_model.specs.World.{standing_of, epoch_sent, with_standing, has_made, with_answer_at, makes_epoch, answer_in, enters_epoch};

use crate::state::State;
use end_model::{Froze, Origin, node_of};
use wire_base::NoMemory;
use world_model::Standing;

impl State {
    /// What is counted of a node's tunnel.
    #[tactic(auto, unfolding(world_model::specs::World::standing_of))]
    fn standing_of(&self, node: u8, tunnel: u16) -> Standing
        ensures { result ≡ standing_of self.now.world node tunnel }
    {
        match self.nodes.get(u32::from(node)) {
            Some(node) => node.standing(u32::from(tunnel)),
            None => Standing {
                epoch: 0,
                made: 0,
                lost: None,
            },
        }
    }

    /// The epoch of the tunnel that sends a control message.
    pub(crate) fn epoch_sent(&self, node: u8, origin: &Origin) -> u64
        ensures { result ≡ epoch_sent self.now.world node origin.now }
    {
        match origin {
            Origin::Control(origin) => self.standing_of(node, origin.tunnel).epoch,
            Origin::Recovery { .. } | Origin::Data { .. } => 0,
        }
    }

    /// Of a node's tunnel this is counted.
    #[tactic(auto, unfolding(world_model::specs::World::with_standing))]
    fn set_standing(&mut self, node: u8, tunnel: u16, standing: Standing) -> Result<(), NoMemory>
        ensures world { OnOk result (self.new.world ≡ with_standing self.old.world node tunnel standing) }
        ensures report { self.new.report ≡ self.old.report }
        ensures ups { self.new.ups ≡ self.old.ups }
    {
        let Some(node) = self.nodes.get_mut(u32::from(node)) else {
            return Ok(());
        };
        node.set_standing(u32::from(tunnel), standing)
    }

    /// As many epochs were made of a node's tunnel.
    fn count_epoch(&mut self, node: u8, tunnel: u16, epoch: u64) -> Result<(), NoMemory>
        ensures world { OnOk result (self.new.world ≡ has_made self.old.world node tunnel epoch) }
        ensures report { self.new.report ≡ self.old.report }
        ensures ups { self.new.ups ≡ self.old.ups }
    {
        let mut standing = self.standing_of(node, tunnel);
        standing.made = epoch;
        self.set_standing(node, tunnel, standing)
    }

    /// A node's answer makes this epoch.
    fn set_answer(&mut self, node: u8, answer: u16, epoch: u64) -> Result<(), NoMemory>
        ensures world { OnOk result (self.new.world ≡ with_answer_at self.old.world node answer epoch (at self.old.world.nodes node)) }
        ensures report { self.new.report ≡ self.old.report }
        ensures ups { self.new.ups ≡ self.old.ups }
    {
        let Some(node) = self.nodes.get_mut(u32::from(node)) else {
            return Ok(());
        };
        node.set_answer(answer, epoch)
    }

    /// An answer at a node makes the next epoch of its tunnel and of the peer's.
    #[tactic(auto, unfolding(world_model::specs::World::makes_epoch))]
    pub(crate) fn make_epoch(&mut self, node: u8, froze: &Froze) -> Result<(), NoMemory>
        ensures world { OnOk result (self.new.world ≡ makes_epoch self.old.world node froze.now.tunnel (node_of froze.now.peer) froze.now.remote froze.now.answer) }
        ensures report { self.new.report ≡ self.old.report }
        ensures ups { self.new.ups ≡ self.old.ups }
    {
        let epoch = self.standing_of(node, froze.tunnel).made.saturating_add(1);
        self.count_epoch(node, froze.tunnel, epoch)?;
        self.count_epoch(node_of(froze.peer), froze.remote, epoch)?;
        self.set_answer(node, froze.answer, epoch)
    }

    /// The epoch that a node's answer makes.
    pub(crate) fn answer(&self, node: u8, answer: u16) -> u64
        ensures { result ≡ answer_in (at self.now.world.nodes node) answer }
    {
        match self.nodes.get(u32::from(node)) {
            Some(node) => node.answer(answer),
            None => 0,
        }
    }

    /// A node's tunnel enters an epoch.
    #[tactic(auto, unfolding(world_model::specs::World::enters_epoch))]
    pub(crate) fn enter_epoch(&mut self, node: u8, tunnel: u16, epoch: u64) -> Result<(), NoMemory>
        ensures world { OnOk result (self.new.world ≡ enters_epoch self.old.world node tunnel epoch) }
        ensures report { self.new.report ≡ self.old.report }
        ensures ups { self.new.ups ≡ self.old.ups }
    {
        let mut standing = self.standing_of(node, tunnel);
        standing.epoch = epoch;
        standing.lost = None;
        self.set_standing(node, tunnel, standing)
    }
}
