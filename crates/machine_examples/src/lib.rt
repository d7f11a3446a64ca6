//! Runs of the machine, computed: one through an opening, calls, crashes, a recovery and queries, one in which both ends ask for
//! calls, one in which a request is ignored, and one without each rule.
#![tactic(auto)]

ghost use Rattle.machine_examples.specs.Examples.{WholeRun, BothAsk, IgnoredRequest, RulesCarryWeight, CutStep, PremisesCarryWeight};

/// What both ends hold after an opening and a call, after a crash of each, after a recovery by the tie of two attempts, and
/// after a query that ends a call: at its end both ends are complete, each took all that the other gave, and each holds its
/// call of one pair and no other.
pub fn a_whole_run()
    ensures { WholeRun }
{}

/// Each end of one tunnel asks for a call, the accepting one too: both ends hold both calls, each of its own birth.
pub fn both_ends_ask()
    ensures { BothAsk }
{}

/// A request is taken and ignored: with nothing outstanding the call waits for a reply, until its own end ends it. Then both
/// ends hold the same calls.
pub fn a_request_is_ignored()
    ensures { IgnoredRequest }
{}

/// Without one of the rules a law fails: a delivery looks at the epoch; a query is answered by what stands; a reset is
/// followed by a query; a call of an open tunnel ends with a CDN; a freeze ends the calls that aren't established.
pub fn rules_carry_weight()
    ensures { RulesCarryWeight }
{}

/// Two calls of one tunnel end in one step of their node, and the node goes down after the first of the two records: the
/// first call is out of its book, and the second stands. After a recovery and the queries both ends hold the second pair, and
/// no other.
pub fn a_step_is_cut()
    ensures { CutStep }
{}

/// A step writes a record that may not be kept in the world before it where it takes an SCCRP that it put itself, restores a
/// call and ends it, or brings its node up and clears a tunnel of the book.
pub fn premises_carry_weight()
    ensures { PremisesCarryWeight }
{}
