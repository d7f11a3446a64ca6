//! The frames that a node holds until they are handed up.

ghost use Rattle.std.specs.Prelude.{◌≡◌, [], OnOk, OnErr, is_some};
ghost use Rattle.id_table.specs.Ids.{at, put, without};

use id_table::Table;
use std::alloc::Global;
use std::marker::Model;
use wire_base::{NoMemory, Why};
use world_model::Held;

/// What comes of a load.
#[derive(Drop)]
pub(crate) enum Loaded {
    /// The frame passes.
    Passes { frame: Held },
    /// The packet is dropped.
    Dropped { why: Why },
    /// The packet is a control message, which isn't loaded.
    Control,
}

/// The frames that one node holds, by their numbers.
#[derive(Drop)]
pub(crate) struct HeldFrames {
    frames: Table<Held>,
}

impl Model for HeldFrames {
    ghost use Rattle.std.specs.Prelude.{ℕ, List};
    ghost use Rattle.world_model.specs.declared.held.Held.{Held as Frame};

    ghost Value = { List (ℕ × Frame) };

    ghost view = { λ a. a.frames.entries };
}

impl HeldFrames {
    /// None yet. It takes no memory.
    pub(crate) fn new(alloc: Global) -> HeldFrames
        ensures { result ≡ [] }
    {
        HeldFrames {
            frames: Table::new(alloc),
        }
    }

    /// Whether there is a frame with this number.
    pub(crate) fn contains(&self, number: u32) -> bool
        ensures { result ≡ is_some (at self.now number) }
    {
        self.frames.contains(number)
    }

    /// One more frame, or another one with this number.
    pub(crate) fn insert(&mut self, number: u32, frame: Held) -> Result<(), NoMemory>
        ensures ok { OnOk result (self.new ≡ put self.old number frame) }
        ensures err { OnErr result (self.new ≡ self.old) }
    {
        self.frames.insert(number, frame)
    }

    /// Takes out the frame with this number, if there is one.
    pub(crate) fn remove(&mut self, number: u32) -> Option<Held>
        ensures frame { result ≡ at self.old number }
        ensures removed { self.new ≡ without self.old number }
    {
        self.frames.remove(number)
    }
}
