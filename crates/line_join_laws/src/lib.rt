//! Each move of a step is joined, and so is each line.
#![tactic(auto)]

ghost use Rattle.step_laws.specs.Left.{CallsStaySound};
ghost use Rattle.step_laws.specs.Looks.{LooksBeginTrue, LooksStayTrue};
ghost use Rattle.step_laws.specs.Starts.{StartsAreAllowed, StartsAreOfBooks};
ghost use Rattle.step_laws.specs.Steps.{StepsAreChains};
ghost use Rattle.book_laws.specs.Books.{NewEndsAreBooked, StepsAreBooked};
ghost use Rattle.book_laws.specs.Starts.{StartsAreBooked};
ghost use Rattle.epoch_laws.specs.Answers.{AnswersOfRuns};
ghost use Rattle.channel_laws.specs.Lines.{LinesDo};
ghost use Rattle.channel_laws.specs.Whole.{LinesKeep, StartsKeep, WholeStepsKeep};
ghost use Rattle.recovery_laws.specs.Answered.{AnswersAreToQuestions};
ghost use Rattle.recovery_laws.specs.Standing.{RestingLinesKeep, StandsFirst};
ghost use Rattle.join_laws.specs.Moves.{CallMovesJoin, EndingMovesJoin, GivingMovesJoin};
ghost use Rattle.join_laws.specs.Moves.{OpeningMovesJoin, RecoveryMovesJoin, StillMovesJoin, TakingMovesJoin};
ghost use Rattle.join_laws.specs.Roles.{RefusingMovesJoin, RequestsStay};
ghost use Rattle.join_laws.specs.Steps.{ChannelsClose};
ghost use Rattle.recovery_join_laws.specs.Moves.{QueriesJoin, ResetsJoin};
ghost use Rattle.closing_join_laws.specs.Moves.{DeclinesJoin, StopsJoin};
ghost use Rattle.line_join_laws.specs.Chains.{JoinedLinesKnow, MovesJoin};
ghost use Rattle.line_join_laws.specs.Cuts.{HeardMovesStand, JoinedStepsStop};
ghost use Rattle.line_join_laws.specs.Falls.{FallenNodesJoin};
ghost use Rattle.line_join_laws.specs.Lines.{JoinedLinesKeep, JoinedStepsKeep, StartsJoin};
ghost use Rattle.line_join_laws.specs.Runs.{JoinedRunsStand, JoinedRunsStayBelow};

/// The laws that are used.
fn laws_below()
    ensures once { AnswersOfRuns }
    ensures answers { AnswersAreToQuestions }
    ensures closes { ChannelsClose }
    ensures requests { RequestsStay }
    ensures steps { WholeStepsKeep }
    ensures lines { LinesKeep }
    ensures first { StandsFirst }
    ensures resting { RestingLinesKeep }
{
    epoch_laws::each_epoch_has_one_answer();
    recovery_laws::answers_are_to_questions();
    join_laws::channels_close();
    join_laws::requests_stay();
    channel_laws::whole_steps_keep();
    channel_laws::lines_keep();
    recovery_laws::resting_lines_keep();
}

/// Those that are used of runs.
fn laws_of_runs()
    ensures chains { StepsAreChains }
    ensures looks { LooksStayTrue }
    ensures begin { LooksBeginTrue }
    ensures booked { StepsAreBooked }
    ensures new { NewEndsAreBooked }
    ensures starting { StartsAreBooked }
    ensures sound { CallsStaySound }
    ensures allowed { StartsAreAllowed }
    ensures of_books { StartsAreOfBooks }
    ensures starts { StartsKeep }
    ensures lines { LinesDo }
{
    step_laws::steps_are_chains();
    step_laws::looks_are_true();
    book_laws::steps_are_booked();
    book_laws::starts_are_booked();
    step_laws::calls_are_not_left();
    step_laws::starts_are_allowed();
    step_laws::starts_are_of_books();
    channel_laws::starts_keep();
    channel_laws::lines_do();
}

/// Those of the groups of moves.
fn laws_of_moves()
    ensures still { StillMovesJoin }
    ensures giving { GivingMovesJoin }
    ensures opening { OpeningMovesJoin }
    ensures ending { EndingMovesJoin }
    ensures call { CallMovesJoin }
    ensures taking { TakingMovesJoin }
    ensures recovery { RecoveryMovesJoin }
    ensures refusing { RefusingMovesJoin }
    ensures resets { ResetsJoin }
    ensures queries { QueriesJoin }
    ensures declines { DeclinesJoin }
    ensures stops { StopsJoin }
{
    join_laws::still_moves_join();
    join_laws::giving_moves_join();
    join_laws::opening_moves_join();
    join_laws::ending_moves_join();
    join_laws::call_moves_join();
    join_laws::taking_moves_join();
    join_laws::recovery_moves_join();
    join_laws::refusing_moves_join();
    recovery_join_laws::resets_join();
    recovery_join_laws::queries_join();
    closing_join_laws::declines_join();
    closing_join_laws::stops_join();
}

/// Each move of a step, whichever it is, is a list of moves of the machine by which the world that it leads to is joined again, as long as
/// requests are of LACs, as they always are.
pub fn moves_join()
    ensures { MovesJoin }
{
    laws_of_moves();
}

/// Where a world is joined with the machine, the epochs of linked ends are known wherever the moves of a step lead from there: each of them
/// leads to a world that is joined again.
pub fn joined_lines_know()
    ensures { JoinedLinesKnow }
{
    laws_below();
    moves_join();
}

/// And what a step leaves that was committed whole is joined again: with its packets, the births that it told, and the book behind it.
pub fn joined_steps_keep()
    ensures { JoinedStepsKeep }
{
    laws_below();
    moves_join();
}

/// What a start leaves that was committed whole is joined again, whatever its moves are: in the machine the node comes up, the tunnels that
/// don't come back leave its book with their calls, and each that does attempts its recovery, by a name that is new.
pub fn starts_join()
    ensures { StartsJoin }
{
    laws_below();
    laws_of_runs();
}

/// So each line keeps all of this, and that so few letters were given in a channel; as long as what a stop cuts off is joined too.
pub fn joined_lines_keep()
    ensures { JoinedLinesKeep }
{
    laws_below();
    moves_join();
    starts_join();
}

/// So the world of every run of fewer than 2^47 lines is joined with one of the machine's, and all holds of its channels: whatever comes,
/// crashes and starts again; as long as what a stop cuts off is joined.
pub fn joined_runs_stand()
    ensures { JoinedRunsStand }
{
    laws_below();
    laws_of_runs();
    joined_lines_keep();
}

/// And no channel was given more than 81,919 letters for each line of it, so that no number of a letter comes to the end of 64 bits.
pub fn joined_runs_stay_below()
    ensures { JoinedRunsStayBelow }
{
    laws_below();
    laws_of_runs();
    joined_lines_keep();
}

/// The machine's moves that a node makes on what a step hears are those of one step, which may be cut off after each of its records: each
/// letter by which a tunnel or a call comes up stood before the step, as what gives such a letter hears another one.
pub fn heard_moves_stand()
    ensures { HeardMovesStand }
{}

/// So the machine's node may stop wherever the moves of a step lead: with records that it keeps in the world before the step, by which its
/// book is that of the end that the moves leave.
pub fn joined_steps_stop()
    ensures { JoinedStepsStop }
{
    laws_below();
    heard_moves_stand();
    moves_join();
    stop_laws::stops_amid_lists();
}

/// A node that falls is joined with the machine's, whose stop keeps some records: as long as the machine allows them, and they make the
/// book there that the node has when it is down.
pub fn fallen_nodes_join()
    ensures { FallenNodesJoin }
{}
