//! A step that a stop cuts off amid its records is joined with the abstract machine.
#![tactic(auto)]

ghost use Rattle.birth_laws.specs.Births.{BirthsOfRuns};
ghost use Rattle.book_laws.specs.Books.{StepsAreBooked};
ghost use Rattle.channel_laws.specs.Whole.{PartsLead};
ghost use Rattle.cut_join_laws.specs.CutSteps.{CutStepsKeepRoles};
ghost use Rattle.epoch_laws.specs.Answers.{AnswersOfRuns};
ghost use Rattle.join_laws.specs.Roles.{RequestsStay};
ghost use Rattle.join_laws.specs.Steps.{ChannelsClose};
ghost use Rattle.line_join_laws.specs.Cuts.{HeardMovesStand};
ghost use Rattle.line_join_laws.specs.Chains.{MovesJoin};
ghost use Rattle.line_join_laws.specs.Falls.{FallenNodesJoin};
ghost use Rattle.line_join_laws.specs.Lines.{CutStepsJoin};
ghost use Rattle.recovery_laws.specs.Answered.{AnswersAreToQuestions};
ghost use Rattle.stop_laws.specs.Steps.{StopsAmidLists};

/// The laws that are used.
fn laws_below()
    ensures once { AnswersOfRuns }
    ensures births { BirthsOfRuns }
    ensures answers { AnswersAreToQuestions }
    ensures closes { ChannelsClose }
    ensures requests { RequestsStay }
    ensures moves { MovesJoin }
    ensures stand { HeardMovesStand }
    ensures stops { StopsAmidLists }
    ensures parts { PartsLead }
    ensures booked { StepsAreBooked }
    ensures fallen { FallenNodesJoin }
{
    epoch_laws::each_epoch_has_one_answer();
    birth_laws::each_birth_has_one_mate();
    recovery_laws::answers_are_to_questions();
    join_laws::channels_close();
    join_laws::requests_stay();
    line_join_laws::moves_join();
    line_join_laws::heard_moves_stand();
    stop_laws::stops_amid_lists();
    channel_laws::parts_of_steps_lead();
    book_laws::steps_are_booked();
    line_join_laws::fallen_nodes_join();
}

/// Where a stop cuts off a step, from a world that is joined, the world is joined again: in the machine the node stops. It keeps records there that are allowed in the world before the step, and they make its
/// book the one that the first records of the step left: those of its first moves, or amid the answer to a query those of the first calls
/// that end by it.
pub fn cut_steps_join()
    ensures { CutStepsJoin }
{
    laws_below();
}

/// A node that falls keeps its role: so where requests are of LACs alone, they are so too where a stop cut off a step or a start.
pub fn cut_steps_keep_roles()
    ensures { CutStepsKeepRoles }
{
    laws_below();
}
