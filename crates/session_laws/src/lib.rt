//! Sessions in every run of a schedule's lines in which no node crashes, is to stop, or starts: each move of the ends is one of
//! the abstract machine, or none, and ends that agree hold the same established sessions.
#![tactic(auto)]

ghost use Rattle.birth_laws.specs.Births as births;
ghost use Rattle.connection_laws.specs.Steps.{ClosingsAreKnown, DeclinesAreOfOpenings, LettersAreHeard, LinesGoOn, MovesKeep, NextIsHeard, FaultsAreOfRequests, OpeningsAreAcceptable, PlainIsHeard, RunsBegin, StopIsHeard};
ghost use Rattle.coverage_laws.specs.Coverage as coverage;
ghost use Rattle.session_laws.specs.Sessions.{JoinedInRuns, SessionsOfRuns};

/// The laws that are used.
fn laws_below()
    ensures moves { MovesKeep }
    ensures heard { NextIsHeard }
    ensures plain { PlainIsHeard }
    ensures letters { LettersAreHeard }
    ensures stop { StopIsHeard }
    ensures known { ClosingsAreKnown }
    ensures openings { DeclinesAreOfOpenings }
    ensures acceptable { OpeningsAreAcceptable }
    ensures faulty { FaultsAreOfRequests }
    ensures lines { LinesGoOn }
    ensures begins { RunsBegin }
    ensures births { births.BirthsOfRuns }
    ensures coverage { coverage.CoverageOfRuns }
{
    connection_laws::steps_keep();
    birth_laws::each_birth_has_one_mate();
    coverage_laws::pairs_are_covered();
}

/// After every list of fewer than 2^47 lines of the grammar in which no node crashes, is to stop, or starts, the ends of the
/// nodes are joined with a run of the abstract machine: each tunnel and each call has its name there, with its phase or state,
/// the other end that it has learned, the letters given, how many were taken before it was closed, and whether its SCCRQ was
/// declined; and a tunnel says only what the role of its end allows. Each session has its birth there, and the mate that its node
/// knows, whether its call lives or not, and as many births are counted.
pub fn runs_are_joined()
    ensures { JoinedInRuns }
{
    laws_below();
}

/// After every list of fewer than 2^47 lines of the grammar in which no node crashes, is to stop, or starts, a tunnel of a LAC
/// and its partner at an LNS that agree hold the same established sessions, under the ids that both know and with the same births.
pub fn ends_that_agree_hold_the_same()
    ensures { SessionsOfRuns }
{
    laws_below();
}
