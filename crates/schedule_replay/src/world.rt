//! The world.

ghost use Rattle.std.specs.Prelude.{◌≡◌, length, is_some, IfOk, IfSome};
ghost use Rattle.id_table.specs.Ids.{at};
ghost use Rattle.world_model.specs.World.{line as line_of};
ghost use Rattle.schedule_replay.specs.Serving.{OpensAt};
ghost use Rattle.schedule_replay.specs.Counting.{agreements_of};
ghost use Rattle.schedule_replay.specs.Fault.{new_known, WorldSays, Finishes};

use crate::fault::LineFault;
use crate::state::State;
use schedule_text::Line;
use std::alloc::Global;
use std::marker::Model;
use wire_base::{Bytes, NoMemory};
use world_model::Refusal;

/// The world of a schedule: its nodes, each packet that was ever sent, and the report so far.
#[derive(Drop)]
pub struct World {
    state: State,
    spent: bool,
}

impl Model for World {
    ghost use Rattle.schedule_replay.specs.Fault.{Known};

    ghost Value = { Known };

    ghost view = { λ w. record { told = w.state; spent = w.spent } };
}

impl World {
    /// A world without nodes. It takes no memory.
    pub fn new(alloc: Global) -> World
        ensures { result ≡ new_known }
    {
        World {
            state: State::new(alloc),
            spent: false,
        }
    }

    /// Runs a line with its number, counted from 1, which the report tells.
    pub fn line(&mut self, number: u64, line: &Line) -> Result<(), LineFault>
        ensures { WorldSays result (line_of self.old.told.world number line.now) self.old self.new }
    {
        if self.spent {
            return Err(LineFault::NoMemory);
        }
        let ran = self.state.line(number, line);
        self.spent = match ran {
            Ok(()) => false,
            Err(LineFault::Refused { refusal }) => matches!(refusal, Refusal::StoreFull { .. }),
            Err(LineFault::NoMemory) => true,
        };
        ran
    }

    /// Appends the tables at the end to the report.
    pub fn finish(&mut self) -> Result<(), NoMemory>
        ensures { Finishes result self.old self.new }
    {
        if self.spent {
            return Err(NoMemory);
        }
        let finished = self.state.finish();
        self.spent = finished.is_err();
        finished
    }

    /// The report so far, in ASCII.
    pub fn report(&self) -> &[u8]
        ensures { result.now ≡ self.now.told.report }
    {
        self.state.report()
    }

    /// How many packets were sent so far.
    pub fn packets(&self) -> u64
        ensures { result ≡ length self.now.told.world.packets }
    {
        self.state.packets()
    }

    /// How many calls were born so far: those that LACs drew a session id for.
    pub fn births(&self) -> u64
        ensures { result ≡ self.now.told.world.born }
    {
        self.state.births()
    }

    /// How many PPP frames ends have handed up so far, as the report tells.
    pub fn ups(&self) -> u64
        ensures { result ≡ self.now.told.ups }
    {
        self.state.ups()
    }

    /// What the disk of a node holds, None where it isn't declared. Opened as the journal of that node it has the book of the node's
    /// checkpoint.
    pub fn file(&self, node: u8) -> Option<&[u8]>
        ensures declared { is_some result ≡ is_some (at self.now.told.world.nodes node) }
        ensures opens { IfSome result (λ file. IfSome (at self.now.told.world.nodes node) (λ x. OpensAt x file.now)) }
    {
        self.state.file(node)
    }

    /// How many `agree` lines the report would have if it ended here.
    pub fn agreements(&self) -> Result<u64, NoMemory>
        ensures { IfOk result (λ count. count ≡ agreements_of self.now.told.world) }
    {
        self.state.agreements()
    }

    /// The report so far, in ASCII, which the world gives away as it ends.
    pub fn into_report(self) -> Bytes
        ensures { result ≡ self.told.report }
    {
        self.state.into_report()
    }
}
