//! Each move of a step is a list of moves of the abstract machine, each of which takes what the step hears.
#![tactic(auto)]

ghost use Rattle.join_laws.specs.Moves.{CallMovesJoin, EndingMovesJoin, GivingMovesJoin};
ghost use Rattle.join_laws.specs.Moves.{OpeningMovesJoin, RecoveryMovesJoin, StillMovesJoin, TakingMovesJoin};
ghost use Rattle.join_laws.specs.Roles.{RefusingMovesJoin, RequestsStay};
ghost use Rattle.join_laws.specs.Steps.{ChannelsClose};
ghost use Rattle.birth_laws.specs.Births.{BirthsOfRuns};
ghost use Rattle.channel_laws.specs.Recoveries.{WrittenHasRoom, WrittenIsRead};
ghost use Rattle.connection_laws.specs.Steps.{MovesKeep, PlainIsHeard};
ghost use Rattle.frame_laws.specs.Codecs.{Codecs};
ghost use Rattle.letter_laws.specs.Letters.{LettersOfRuns};
ghost use Rattle.recv_window.specs.Window.{ClassIsTrue};
ghost use Rattle.coverage_laws.specs.Coverage.{CoverageOfRuns};
ghost use Rattle.epoch_laws.specs.Epochs.{EpochsOfRuns};
ghost use Rattle.recovery_laws.specs.Growing.{ChannelsGrow};

/// Whatever was done, a channel that is closed was closed with no more letters taken than it has taken.
pub fn channels_close()
    ensures { ChannelsClose }
{}

/// A move of a step that tells of what is acknowledged, of letters on the wire, of links and frames, or of a recovery tunnel that goes
/// on or ends is none of the machine's: the world that it leads to is joined with the same world of the machine.
pub fn still_moves_join()
    ensures { StillMovesJoin }
{}

/// The laws that are used.
fn laws_below()
    ensures grow { ChannelsGrow }
    ensures births { BirthsOfRuns }
    ensures epochs { EpochsOfRuns }
    ensures coverage { CoverageOfRuns }
    ensures letters { LettersOfRuns }
    ensures keep { MovesKeep }
    ensures plain { PlainIsHeard }
    ensures codecs { Codecs }
    ensures again { WrittenIsRead }
    ensures room { WrittenHasRoom }
    ensures classes { ClassIsTrue }
{
    recovery_laws::channels_grow();
    birth_laws::each_birth_has_one_mate();
    epoch_laws::epochs_rise();
    coverage_laws::pairs_are_covered();
    letter_laws::letters_are_next();
    connection_laws::steps_keep();
    frame_laws::written_is_read_again();
    control_message::reads_what_was_written();
    control_message::has_room();
    recv_window::the_class_is_true();
}

/// A move of a step by which an established tunnel gives a letter, and takes none, is one by which the machine's tunnel gives it: it
/// says that it is there, asks for a call, or tells that a call ended.
pub fn giving_moves_join()
    ensures { GivingMovesJoin }
{
    laws_below();
}

/// A move of a step by which a tunnel is opened opens the machine's, and one by which an SCCRQ is accepted accepts that of the
/// machine's opener. One by which the SCCRP or the SCCCN is taken brings the machine's open.
pub fn opening_moves_join()
    ensures { OpeningMovesJoin }
{
    laws_below();
}

/// A move of a step by which a tunnel is removed with its calls clears the machine's, and one by which it is closed, of which the other
/// end is told, closes it.
pub fn ending_moves_join()
    ensures { EndingMovesJoin }
{
    laws_below();
}

/// A move of a step by which a call is added adds one to the machine's tunnel, with the next birth, and one by which a call ends of
/// which nobody is told ends the machine's so: it waits for its tunnel, or that is frozen or restored. One by which an established tunnel
/// takes a letter about a call is the delivery of that letter to the machine's tunnel: it is the next one of the other end's list
/// there, in the same epoch.
pub fn call_moves_join()
    ensures { CallMovesJoin }
{
    laws_below();
}

/// A move of a step by which a letter is taken on which nothing is done is the delivery of that letter to the machine's tunnel, where
/// it is established; and nothing is done on it there. What a closed tunnel takes isn't delivered in the machine, and a tunnel that waits
/// to be set up takes no such letter.
pub fn taking_moves_join()
    ensures { TakingMovesJoin }
{
    laws_below();
}

/// At first no channel of an LNS gave a request, and so it stays in each move, whatever is done: who asks for a call is a LAC, and no move
/// changes a role. So it stays too where nodes change otherwise and keep their roles, and where new ones come.
pub fn requests_stay()
    ensures { RequestsStay }
{}

/// Where no channel of an LNS gave a request, a move of a step by which a request is refused is the delivery of that request to the
/// machine's tunnel, which refuses it. What is refused is no reply: that would reply to a request of this tunnel.
pub fn refusing_moves_join()
    ensures { RefusingMovesJoin }
{
    laws_below();
}

/// A move of a step by which an attempt of the other end is answered freezes the machine's tunnel, with the next epoch of its link.
pub fn recovery_moves_join()
    ensures { RecoveryMovesJoin }
{
    laws_below();
}
