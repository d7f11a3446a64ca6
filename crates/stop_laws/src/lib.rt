//! The records that each step writes, and what holds where a node goes down in the midst of it.
#![tactic(auto)]

ghost use Rattle.stop_laws.specs.Stops.{StopsAmidSteps};
ghost use Rattle.stop_laws.specs.Steps.{StopsAmidLists};

/// Each step's records make of the book what the step makes of it. A node that goes down after any prefix of them is a
/// stop, so that all goes on to hold.
pub fn stops_amid_steps()
    ensures { StopsAmidSteps }
{}

/// The same of a step that is several moves of one node: its records are those of its moves, in order, each on the world
/// that the moves before it lead to, and its node may go down after any prefix of them all. Such a cut is one stop in the
/// world before the step.
pub fn stops_amid_lists()
    ensures { StopsAmidLists }
{}
