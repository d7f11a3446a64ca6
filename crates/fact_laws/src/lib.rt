//! Facts of every list of lines, whatever crashes: that epochs only rise, which draw numbers the marks of tunnels cover, which sessions
//! are in checkpoints, and that no number is drawn twice.
#![tactic(auto)]

ghost use Rattle.step_laws.specs.Left.{CallsStaySound};
ghost use Rattle.step_laws.specs.Looks.{LooksBeginTrue, LooksStayTrue};
ghost use Rattle.step_laws.specs.Starts.{StartsAreAllowed, StartsAreChains, StartsAreOfBooks};
ghost use Rattle.step_laws.specs.Steps.{StepsAreChains, StepsAreNoStarts};
ghost use Rattle.book_laws.specs.Books.{MovesAreBooked, NewEndsAreBooked, StepsAreBooked};
ghost use Rattle.book_laws.specs.Starts.{StartsAreBooked};
ghost use Rattle.node_laws.specs.Nodes.{NodesOfRuns};
ghost use Rattle.frame_laws.specs.Codecs.{Codecs};
ghost use Rattle.channel_laws.specs.Lines.{LinesDo};
ghost use Rattle.channel_laws.specs.Recoveries.{WrittenHasRoom, WrittenIsRead};
ghost use Rattle.channel_laws.specs.Whole.{StartsKeep, WholeStepsKeep};
ghost use Rattle.line_join_laws.specs.Chains.{JoinedLinesKnow};
ghost use Rattle.line_join_laws.specs.Runs.{JoinedRunsStand, JoinedRunsStayBelow};
ghost use Rattle.fact_laws.specs.Cells.{CellsAreBooked};
ghost use Rattle.fact_laws.specs.Draws.{AnswersAreCovered, DeedsAreCovered, NoneIsOlder};
ghost use Rattle.fact_laws.specs.Epochs.{EpochsEnterAnew, EpochsRise, LinesRaiseEpochs};
ghost use Rattle.fact_laws.specs.Ids.{IdsAreDrawnAnew, IdsRise};

/// The laws of ends that are used.
fn laws_of_ends()
    ensures chains { StepsAreChains }
    ensures looks { LooksStayTrue }
    ensures begin { LooksBeginTrue }
    ensures booked { StepsAreBooked }
    ensures new { NewEndsAreBooked }
    ensures starting { StartsAreBooked }
    ensures sound { CallsStaySound }
    ensures allowed { StartsAreAllowed }
    ensures nodes { NodesOfRuns }
{
    step_laws::steps_are_chains();
    step_laws::looks_are_true();
    book_laws::steps_are_booked();
    book_laws::starts_are_booked();
    step_laws::calls_are_not_left();
    step_laws::starts_are_allowed();
    node_laws::books_are_of_ends();
}

/// The laws of moves, of starts and of lines that are used.
fn laws_of_lines()
    ensures no_starts { StepsAreNoStarts }
    ensures moves { MovesAreBooked }
    ensures starting { StartsAreChains }
    ensures of_books { StartsAreOfBooks }
    ensures lines { LinesDo }
{
    step_laws::steps_are_no_starts();
    book_laws::moves_are_booked();
    step_laws::starts_are_chains();
    step_laws::starts_are_of_books();
    channel_laws::lines_do();
}

/// The laws of channels that are used.
fn laws_of_channels()
    ensures codecs { Codecs }
    ensures again { WrittenIsRead }
    ensures room { WrittenHasRoom }
    ensures steps { WholeStepsKeep }
    ensures starts { StartsKeep }
{
    frame_laws::written_is_read_again();
    control_message::reads_what_was_written();
    control_message::has_room();
    channel_laws::whole_steps_keep();
    channel_laws::starts_keep();
}

/// Where all holds of channels, and the epochs of linked ends are known wherever the moves of a step lead, no line makes the epoch less
/// that a tunnel entered last, nor the number of epochs that were made of its link: of any tunnel of any node, also where that is down,
/// makes a step that a stop cuts off, falls or starts in the line.
pub fn lines_raise_epochs()
    ensures { LinesRaiseEpochs }
{
    laws_of_channels();
}

/// The laws of runs that are used.
fn laws_of_runs()
    ensures know { JoinedLinesKnow }
    ensures stand { JoinedRunsStand }
    ensures below { JoinedRunsStayBelow }
{
    line_join_laws::joined_lines_know();
    line_join_laws::joined_runs_stand();
    line_join_laws::joined_runs_stay_below();
}

/// So, whichever line comes next after a list of fewer than 2^47 lines of the grammar, whatever crashed in it, as long as it fits: no
/// tunnel of any node is in an earlier epoch behind it than before it, and of no link were fewer epochs made. So what was sent before a
/// recovery is old for ever.
pub fn epochs_rise()
    ensures { EpochsRise }
{
    cut_join_laws::cut_steps_join();
    lines_raise_epochs();
    laws_of_lines();
    laws_of_runs();
}

/// And a tunnel that is reset in that line enters an epoch above the one in which it was before. So from line to line the epochs that it
/// enters rise strictly, whatever crashed and started in between, and none is entered again that was left.
pub fn epochs_enter_anew()
    ensures { EpochsEnterAnew }
{
    cut_join_laws::cut_steps_join();
    laws_of_channels();
    laws_of_lines();
    laws_of_runs();
}

/// After every list of lines of the grammar, whatever crashed in it, the mark of each established tunnel, in the end of its node or in
/// the node's checkpoint, whether the node is up or down, is no less than each draw number of its peer's that the tunnel heeded in the
/// run: of an attempt at its recovery, which it answered, or of an answer, by which it reset. So it is of each answer that the history
/// has. A step that a stop cut off heeded none, though a record of it that was kept may have raised the mark. So, in the order of the
/// run, no attempt at a tunnel's recovery is answered that is older than one which the tunnel answered before, or than an answer by which
/// it reset, whatever crashed and started between the two.
pub fn marks_cover_draws()
    ensures deeds { DeedsAreCovered }
    ensures answers { AnswersAreCovered }
    ensures order { NoneIsOlder }
{
    laws_of_ends();
    laws_of_lines();
}

/// After every list of lines of the grammar, whatever crashed in it, of a node that is up: a session of which the data plane sees that all
/// frames pass, and at an LNS also one in which only those of LCP do, is that of a call in the book of the node's checkpoint, in the
/// tunnel that is seen, which goes to the peer that is seen. And each call of the book is so seen. So a data message, which is judged by
/// what is seen of the session that its header names, carries a frame up only in a call that a crash wouldn't lose.
pub fn cells_are_booked()
    ensures { CellsAreBooked }
{
    laws_of_ends();
}

/// A number of a node is drawn once, over crashes too: the id of a tunnel, which the recovery tunnels of attempts and of answers have too,
/// the id of a session, and the draw number of a recovery. Whichever line comes next after a list of lines of the grammar, whatever crashed
/// in it, as long as it fits, the next number of each of these of each node is no less behind the line than before it, also where the node
/// falls or starts in it, and neither is any ceiling of its checkpoint; and what a deed of the line draws is no less than the next number
/// before the line, and less than the one behind it. So in the order of a run the numbers that a node draws rise, whatever crashed and
/// started in between, and none is drawn twice.
pub fn ids_are_drawn_once()
    ensures anew { IdsAreDrawnAnew }
    ensures order { IdsRise }
{
    laws_of_ends();
    laws_of_lines();
}
