//! Lines are drawn one after the other, in the world to which those before lead.

ghost use Rattle.std.specs.Prelude.{◌≡◌, ◌+◌, [], ◌∷◌, ◌++◌, length, OnOk, IfOk, Some, None};
ghost use Rattle.schedule_text.specs.Grammar.{AreLines};
ghost use Rattle.world_model.specs.Run.{run};
ghost use Rattle.schedule_making.specs.Making.{passed_over, settled, with_line, opening, drawn_on, lines_of_seed, GoesOn, IsOfRun};

use crate::draws::Draws;
use schedule_replay::{LineFault, World};
use schedule_text::{Line, Lines};
use std::alloc::Global;
use wire_base::{Bytes, NoMemory};
use world_model::Refusal;

/// The remark that stands for a line that isn't one, or that the world refuses.
fn passed_over(alloc: Global) -> Result<Line, NoMemory>
    ensures { IfOk result (λ line. line ≡ passed_over) }
{
    let text = Bytes::from_slice(alloc, b" -")?;
    Ok(Line::Remark { text })
}

/// The remark in the place of a line that the world refuses. A world that found no room for records doesn't go on.
fn pass_over(alloc: Global, refusal: Refusal) -> Result<Line, NoMemory>
    ensures { IfOk result (λ line. (line ≡ passed_over) × GoesOn refusal) }
{
    match refusal {
        Refusal::StoreFull { .. } => Err(NoMemory),
        Refusal::Unfit { .. } | Refusal::HalfSpace { .. } | Refusal::Stale { .. } => {
            passed_over(alloc)
        }
    }
}

/// The lines that are made so far, and the world to which they lead.
#[derive(Drop)]
pub(crate) struct Maker {
    alloc: Global,
    pub(crate) lines: Lines,
    pub(crate) world: World,
}

impl Maker {
    fn new(alloc: Global) -> Maker
        ensures lines { result.lines ≡ [] }
        ensures run { IsOfRun result.lines result.world }
    {
        Maker {
            alloc,
            lines: Lines::new(alloc),
            world: World::new(alloc),
        }
    }

    /// The number of the line to come.
    fn next_number(&self) -> u64
        ensures { result ≡ length self.now.lines + 1 }
    {
        self.lines.as_slice().len() as u64 + 1
    }

    /// The line, where the world takes it, else a remark.
    fn take(&mut self, line: Line) -> Result<Line, NoMemory>
        requires { IsOfRun self.old.lines self.old.world }
        ensures lines { self.new.lines ≡ self.old.lines }
        ensures line { IfOk result (λ l. l ≡ settled self.old.lines (Some line)) }
        ensures run { IfOk result (λ l. IsOfRun (self.old.lines ++ l ∷ []) self.new.world) }
    {
        let number = self.next_number();
        match self.world.line(number, &line) {
            Ok(()) => Ok(line),
            Err(LineFault::Refused { refusal }) => pass_over(self.alloc, refusal),
            Err(LineFault::NoMemory) => Err(NoMemory),
        }
    }

    /// The line to come: the one that was drawn, where it is one and the world takes it, else a remark.
    fn settle(&mut self, drawn: Option<Line>) -> Result<Line, NoMemory>
        requires { IsOfRun self.old.lines self.old.world }
        ensures lines { self.new.lines ≡ self.old.lines }
        ensures line { IfOk result (λ l. l ≡ settled self.old.lines drawn) }
        ensures run { IfOk result (λ l. IsOfRun (self.old.lines ++ l ∷ []) self.new.world) }
    {
        match drawn {
            Some(line) => self.take(line),
            None => passed_over(self.alloc),
        }
    }

    /// One line more.
    fn add(&mut self, drawn: Option<Line>) -> Result<(), NoMemory>
        requires { IsOfRun self.old.lines self.old.world }
        ensures lines { OnOk result (self.new.lines ≡ with_line self.old.lines drawn) }
        ensures run { OnOk result (IsOfRun self.new.lines self.new.world) }
    {
        let line = self.settle(drawn)?;
        self.lines.push(line)
    }

    /// The first lines.
    #[tactic(auto, using(crate::proofs::Opening::opening_is))]
    fn begin(&mut self) -> Result<(), NoMemory>
        requires run { IsOfRun self.old.lines self.old.world }
        requires empty { self.old.lines ≡ [] }
        ensures lines { OnOk result (self.new.lines ≡ opening) }
        ensures run { OnOk result (IsOfRun self.new.lines self.new.world) }
    {
        self.add(Some(Line::Lns {
            node: 2,
            secret: None,
        }))?;
        self.add(Some(Line::Lac {
            node: 1,
            lns: 2,
            secret: None,
            hide: false,
        }))?;
        self.add(Some(Line::OpenUp { node: 1 }))
    }

    /// One line more, which is drawn.
    #[tactic(auto, unfolding(crate::specs::Making::drawn_on))]
    fn add_drawn(&mut self, draws: &mut Draws) -> Result<(), NoMemory>
        requires { IsOfRun self.old.lines self.old.world }
        ensures drawn { OnOk result (drawn_on (record { lines = self.old.lines; state = draws.old }) ≡ record { lines = self.new.lines; state = draws.new }) }
        ensures run { OnOk result (IsOfRun self.new.lines self.new.world) }
    {
        let drawn = draws.line(self.alloc, self.world.packets())?;
        self.add(drawn)
    }
}

/// The lines of a seed, of which so many are drawn, and the world to which they lead.
#[tactic(auto, using(crate::proofs::Makings::making_none, crate::proofs::Makings::making_next))]
pub(crate) fn make(alloc: Global, seed: u64, count: u32) -> Result<Maker, NoMemory>
    ensures lines { IfOk result (λ made. made.lines ≡ lines_of_seed seed count) }
    ensures run { IfOk result (λ made. IsOfRun made.lines made.world) }
{
    let mut maker = Maker::new(alloc);
    maker.begin()?;
    let mut draws = Draws::new(seed);
    for done in 0..count {
        maker.add_drawn(&mut draws)?;
    }
    Ok(maker)
}

/// The lines of a seed: an LNS, a LAC that opens a tunnel, and as many lines behind them as are asked for. These are drawn by a generator
/// of numbers, in the world to which the lines before lead. What is no line, or a line that the world refuses, is a remark.
#[tactic(auto, using(crate::proofs::Fits::making_fits, crate::proofs::Fits::making_many))]
pub fn make_lines(alloc: Global, seed: u64, count: u32) -> Result<Lines, NoMemory>
    ensures exact { IfOk result (λ lines. lines ≡ lines_of_seed seed count) }
    // Each is in the grammar.
    ensures fits { IfOk result AreLines }
    ensures many { IfOk result (λ lines. length lines ≡ count + 3) }
    // None is refused in their run.
    ensures runs { IfOk result (λ lines. (run lines).fault ≡ None) }
{
    let made = make(alloc, seed, count)?;
    Ok(made.lines)
}
