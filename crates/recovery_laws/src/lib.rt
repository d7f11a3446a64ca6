//! Recoveries over every schedule, whatever crashes.
#![tactic(auto)]

ghost use Rattle.step_laws.specs.Gone.{CallsGoOnce};
ghost use Rattle.book_laws.specs.Starts.{StartsAreBooked};
ghost use Rattle.book_laws.specs.Books.{StepsAreBooked};
ghost use Rattle.node_laws.specs.Nodes.{NodesOfRuns, RecordsOfRuns};
ghost use Rattle.step_laws.specs.Steps.{StepsAreChains};
ghost use Rattle.channel_laws.specs.Lines.{LinesDo};
ghost use Rattle.epoch_laws.specs.Answers.{AnswersOfRuns};
ghost use Rattle.channel_laws.specs.Heard.{NoneIsOfAnother};
ghost use Rattle.recovery_laws.specs.Epochs.{ClosedOfRuns, JoinedWorldsKnow, LettersOfJoined};
ghost use Rattle.birth_laws.specs.Births.{BirthsOfRuns};
ghost use Rattle.coverage_laws.specs.Coverage.{CoverageOfRuns};
ghost use Rattle.recovery_laws.specs.Gone.{SessionsGoOnce};
ghost use Rattle.recovery_laws.specs.Growing.{ChannelsGrow};
ghost use Rattle.recovery_laws.specs.Hearing.{JoinedWorldsHear};
ghost use Rattle.recovery_laws.specs.Left.{QueriesGoOn};
ghost use Rattle.recovery_laws.specs.Marks.{MarksNeverFall};
ghost use Rattle.recovery_laws.specs.Answered.{AnswersAreToQuestions};
ghost use Rattle.recovery_laws.specs.Answers.{JoinedWorldsAnswer};
ghost use Rattle.recovery_laws.specs.Asking.{QueriesAreMoves};
ghost use Rattle.recovery_laws.specs.Covered.{JoinedWorldsCover};
ghost use Rattle.recovery_laws.specs.Same.{JoinedWorldsAgree};
ghost use Rattle.recovery_laws.specs.Standing.{RestingLinesKeep, StandsFirst};

/// The laws that are used.
fn laws_below()
    ensures once { CallsGoOnce }
    ensures starting { StartsAreBooked }
    ensures nodes { NodesOfRuns }
    ensures lines { LinesDo }
    ensures chains { StepsAreChains }
    ensures booked { StepsAreBooked }
    ensures records { RecordsOfRuns }
{
    step_laws::calls_go_once();
    book_laws::starts_are_booked();
    node_laws::books_are_of_ends();
    channel_laws::lines_do();
    step_laws::steps_are_chains();
    book_laws::steps_are_booked();
    node_laws::records_are_in_place();
}

/// After every list of lines of the grammar, whatever crashed, what the next line tells as gone are sessions of one node. None is told twice, and
/// each had its place in the node's end before the line, or was kept in its checkpoint over a crash.
pub fn sessions_go_once()
    ensures { SessionsGoOnce }
{
    laws_below();
}

/// After every list of lines of the grammar, whatever crashed, the next line makes no mark less of a tunnel that is established before and after it,
/// in the end of its node, or in the node's checkpoint while that is down.
pub fn marks_never_fall()
    ensures { MarksNeverFall }
{
    laws_below();
}

/// After every list of the machine's moves, whichever rules are kept, a closed end has entered each epoch that it made, and isn't below its other
/// end.
pub fn closed_ends_are_not_below()
    ensures { ClosedOfRuns }
{}

/// Where a world is joined with the machine, of two linked ends whose epochs differ the lower one isn't there, or it is frozen or restored; and so is
/// all that the channels need to know of epochs.
pub fn joined_worlds_know()
    ensures { JoinedWorldsKnow }
{
    letters_below();
}

/// And a control letter that a tunnel may take there was sent in the taker's own epoch, and is the next one of its sender's list of that epoch; or it
/// is a StopCCN of no tunnel.
pub fn letters_are_of_their_epoch()
    ensures { LettersOfJoined }
{
    letters_below();
}

fn letters_below()
    ensures letters { NoneIsOfAnother }
    ensures answers { AnswersOfRuns }
{
    epoch_laws::each_epoch_has_one_answer();
    channel_laws::letters_are_of_their_epoch();
}

/// Where a world is joined with the machine, what its tunnels ask for too, two tunnels that the report says to agree hold the same
/// established sessions, under both ids of each and with one birth, whatever crashed: they know of all that they asked for since their
/// last resets, and each took all letters of the other's.
pub fn joined_worlds_agree()
    ensures { JoinedWorldsAgree }
{
    sessions_below();
}

/// And two tunnels that have learned each other, both established and neither frozen or restored, are in one epoch there; a session that
/// the one holds and the other doesn't is covered: the ICCN for it waits to be taken, or the CDN by which the other ended it, neither
/// with anything hidden, or the holder asks for it, or is to.
pub fn joined_worlds_cover()
    ensures { JoinedWorldsCover }
{
    sessions_below();
}

/// Whatever was done, each channel gave as many answers as it took questions: an FSR is to the FSQ in its place.
pub fn answers_are_to_questions()
    ensures { AnswersAreToQuestions }
{}

/// And of each session that a live tunnel is asked for there, it answers what the machine answers.
pub fn joined_worlds_answer()
    ensures { JoinedWorldsAnswer }
{
    sessions_below();
}

/// And of what a live tunnel is answered there those calls end that end in the machine, and no others.
pub fn joined_worlds_hear()
    ensures { JoinedWorldsHear }
{
    sessions_below();
}

/// An FSQ, its answer, and what is heard of that, are moves of the machine, one for each session: what is asked for is put, what stands is
/// answered, and what the other end doesn't have is ended.
pub fn queries_are_moves()
    ensures { QueriesAreMoves }
{}

/// As a channel goes on, the machine's list of its letters does: a letter is put behind the others, an answer by the question to which it
/// is one, and each letter that is taken counts as many as it is there.
pub fn channels_grow()
    ensures { ChannelsGrow }
{}

/// What a tunnel asks for next is what the machine's is to ask for, and what is left once it heard an answer is what is left there.
pub fn queries_go_on()
    ensures { QueriesGoOn }
{}

fn sessions_below()
    ensures births { BirthsOfRuns }
    ensures coverage { CoverageOfRuns }
{
    birth_laws::each_birth_has_one_mate();
    coverage_laws::pairs_are_covered();
}

/// All that holds of a world, with the join, holds of the world without nodes; and each line keeps it in which no node makes a step or starts: of which
/// nothing comes, or a node is declared, a stop is armed, or a node crashes. A crash is a stop of the machine of which no record is kept.
pub fn resting_lines_keep()
    ensures first { StandsFirst }
    ensures keep { RestingLinesKeep }
{}
