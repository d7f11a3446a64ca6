//! What is outstanding where one end holds a pair and the other doesn't, in every run of the machine.
#![tactic(auto)]

ghost use Rattle.coverage_laws.specs.Coverage.{CoverageOfRuns, StopsKeepAll};

/// After every list of moves: where both tunnels of a link are open, a pair that one holds established and the other
/// doesn't is covered by something outstanding; and two open, complete tunnels with nothing outstanding hold the same
/// pairs, with the same births.
pub fn pairs_are_covered()
    ensures { CoverageOfRuns }
{}

/// A node that goes down in the midst of a step, after any of the records that the step writes, keeps all of it.
pub fn stops_keep_all()
    ensures { StopsKeepAll }
{}
