//! Calls in every run of a schedule's lines: each is asked for once, each request is taken once, and so no two calls of LNSs
//! have one birth.
#![tactic(auto)]

ghost use Rattle.connection_laws.specs.Channels.{HoldsInRuns};
ghost use Rattle.frame_laws.specs.Births.{BirthsOfRuns};
ghost use Rattle.frame_laws.specs.Facts.{FactsOfRuns};
ghost use Rattle.frame_laws.specs.Unrecovered.{MovesOfRuns};
ghost use Rattle.request_laws.specs.Requests.{AskedInRuns, BornInRuns, DrawnAtLacsInRuns, DrawnForRequestsInRuns, MadeInRuns};
ghost use Rattle.step_laws.specs.Steps.{StepsAreChains};

/// The laws that are used.
fn laws_below()
    ensures chains { StepsAreChains }
    ensures facts { FactsOfRuns }
    ensures moves { MovesOfRuns }
    ensures births { BirthsOfRuns }
    ensures connections { HoldsInRuns }
{
    step_laws::steps_are_chains();
    frame_laws::facts_hold();
    frame_laws::moves_are_main();
    frame_laws::births_are_apart();
    connection_laws::facts_hold();
}

/// Over every list of lines of the grammar in which no node crashes, is to stop, or starts, a node asks for each of its
/// calls once: in one tunnel, by one letter.
pub fn calls_are_asked_for_once()
    ensures { AskedInRuns }
{
    laws_below();
}

/// Over every list of lines of the grammar in which no node crashes, is to stop, or starts, a request names a session id
/// that its node, a LAC, has drawn.
pub fn requests_name_drawn_sessions()
    ensures { DrawnAtLacsInRuns }
{
    laws_below();
}

/// Over every list of lines of the grammar in which no node crashes, is to stop, or starts, each session id that an LNS has
/// drawn was drawn for a request that it took.
pub fn sessions_of_an_lns_are_asked_for()
    ensures { DrawnForRequestsInRuns }
{
    laws_below();
}

/// After every list of fewer than 2^47 lines in which no node crashes, is to stop, or starts, for each request of a node one
/// call is made: by one tunnel of one node, which took the request once.
pub fn requests_are_taken_once()
    ensures { MadeInRuns }
{
    laws_below();
}

/// After every list of fewer than 2^47 lines in which no node crashes, is to stop, or starts, two sessions of LNSs with one
/// birth are one session: a subscriber's call is one call at one LNS.
pub fn births_are_taken_once()
    ensures { BornInRuns }
{
    laws_below();
}
