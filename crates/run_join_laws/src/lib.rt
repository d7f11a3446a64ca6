//! What holds after every list of lines of the grammar, whatever crashed in it.
#![tactic(auto)]

ghost use Rattle.step_laws.specs.Left.{CallsStaySound};
ghost use Rattle.step_laws.specs.Looks.{LooksBeginTrue, LooksStayTrue};
ghost use Rattle.step_laws.specs.Starts.{StartsAreAllowed, StartsAreOfBooks};
ghost use Rattle.step_laws.specs.Steps.{StepsAreChains};
ghost use Rattle.book_laws.specs.Books.{NewEndsAreBooked, StepsAreBooked};
ghost use Rattle.book_laws.specs.Starts.{StartsAreBooked};
ghost use Rattle.birth_laws.specs.Births.{BirthsOfRuns};
ghost use Rattle.epoch_laws.specs.Answers.{AnswersOfRuns};
ghost use Rattle.channel_laws.specs.Lines.{LinesDo};
ghost use Rattle.channel_laws.specs.Whole.{StartsKeep, WholeStepsKeep};
ghost use Rattle.recovery_laws.specs.Answered.{AnswersAreToQuestions};
ghost use Rattle.recovery_laws.specs.Standing.{StandsFirst};
ghost use Rattle.join_laws.specs.Roles.{RequestsStay};
ghost use Rattle.join_laws.specs.Steps.{ChannelsClose};
ghost use Rattle.line_join_laws.specs.Chains.{MovesJoin};
ghost use Rattle.line_join_laws.specs.Lines.{JoinedLinesKeep};
ghost use Rattle.run_join_laws.specs.Births.{BirthsAreDrawn, BirthsAreOfOneCall, CallsKnowTheirMates};
ghost use Rattle.run_join_laws.specs.Runs.{AgreementsAreReports, RunsAgree, WorldsAreJoined, RunsCover, RunsHear, RunsKnow};

/// After every list of fewer than 2^47 lines, whatever crashed, the world is joined with one of the abstract machine, and all holds of its
/// channels.
pub fn worlds_are_joined()
    ensures { WorldsAreJoined }
{
    cut_join_laws::cut_steps_join();
    line_join_laws::joined_runs_stand();
}

/// So two tunnels that name each other, both established and resynchronised, of which each took all that was given to the other, hold the
/// same established sessions there, under both ids of each and with one birth. They are in one epoch, as `runs_cover` says.
pub fn runs_agree()
    ensures { RunsAgree }
{
    cut_join_laws::cut_steps_join();
    worlds_are_joined();
    line_join_laws::joined_runs_stay_below();
    recovery_laws::joined_worlds_cover();
    recovery_laws::joined_worlds_agree();
}

/// And two tunnels that have learned each other, both established and neither frozen or restored, are in one epoch; a session that the
/// one holds and the other doesn't is covered: the ICCN for it waits to be taken, or the CDN by which the other ended it, or the holder
/// asks for it, or is to.
pub fn runs_cover()
    ensures { RunsCover }
{
    worlds_are_joined();
    recovery_laws::joined_worlds_cover();
}

/// And of two linked ends whose epochs differ the lower one isn't there, or it is frozen or restored; and so is all that the channels need
/// to know of epochs.
pub fn runs_know()
    ensures { RunsKnow }
{
    worlds_are_joined();
    recovery_laws::joined_worlds_know();
}

/// And each control packet that may be delivered to a live tunnel which is neither frozen nor restored is of that tunnel's own epoch; and
/// where its number is the next one, it is the next letter of those that its sender gave in that epoch. Or it is a StopCCN of no tunnel.
pub fn runs_hear()
    ensures { RunsHear }
{
    worlds_are_joined();
    recovery_laws::letters_are_of_their_epoch();
}

/// In whatever world, two tunnels that the report says to agree are among those of `runs_agree`: its lines `agree` ask for one epoch, too.
pub fn agreements_are_reports()
    ensures { AgreementsAreReports }
{}

/// After every list of the machine's moves a name with a birth was drawn.
pub fn births_are_drawn()
    ensures { BirthsAreDrawn }
{}

/// The laws of runs that are used.
fn laws_of_runs()
    ensures chains { StepsAreChains }
    ensures looks { LooksStayTrue }
    ensures begin { LooksBeginTrue }
    ensures booked { StepsAreBooked }
    ensures new { NewEndsAreBooked }
    ensures sound { CallsStaySound }
    ensures allowed { StartsAreAllowed }
    ensures lines { LinesDo }
    ensures first { StandsFirst }
    ensures keep { JoinedLinesKeep }
{
    step_laws::steps_are_chains();
    step_laws::looks_are_true();
    step_laws::calls_are_not_left();
    step_laws::starts_are_allowed();
    book_laws::steps_are_booked();
    channel_laws::lines_do();
    recovery_laws::resting_lines_keep();
    line_join_laws::joined_lines_keep();
}

/// Those of lines.
fn laws_of_lines()
    ensures births { BirthsOfRuns }
    ensures once { AnswersOfRuns }
    ensures answers { AnswersAreToQuestions }
    ensures closes { ChannelsClose }
    ensures requests { RequestsStay }
    ensures steps { WholeStepsKeep }
    ensures join { MovesJoin }
    ensures starting { StartsAreBooked }
    ensures of_books { StartsAreOfBooks }
    ensures starts { StartsKeep }
{
    birth_laws::each_birth_has_one_mate();
    epoch_laws::each_epoch_has_one_answer();
    recovery_laws::answers_are_to_questions();
    join_laws::channels_close();
    join_laws::requests_stay();
    channel_laws::whole_steps_keep();
    line_join_laws::moves_join();
    book_laws::starts_are_booked();
    step_laws::starts_are_of_books();
    channel_laws::starts_keep();
}

/// After every list of fewer than 2^47 lines, whatever crashed, two sessions of LACs with one birth are one session, and so are two
/// sessions of LNSs: no call is asked for twice, and for no request two calls are made.
pub fn births_are_of_one_call()
    ensures { BirthsAreOfOneCall }
{
    cut_join_laws::cut_steps_join();
    laws_of_runs();
    laws_of_lines();
    births_are_drawn();
}

/// And the session by which a live call knows the other end is at a node of the other kind, and has the birth of the call: so it is that of
/// the one call to which this one replies, or which replies to it.
pub fn calls_know_their_mates()
    ensures { CallsKnowTheirMates }
{
    birth_laws::each_birth_has_one_mate();
    births_are_drawn();
    worlds_are_joined();
    births_are_of_one_call();
}
