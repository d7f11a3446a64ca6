//! Control channels of every schedule, epoch by epoch, whatever crashes: what both ends gave and took in each epoch.
#![tactic(auto)]

ghost use Rattle.channel_laws.specs.Heard.{NoneIsOfAnother};
ghost use Rattle.channel_laws.specs.Lines.{LinesDo};
ghost use Rattle.channel_laws.specs.Recoveries.{WrittenHasRoom, WrittenIsRead};
ghost use Rattle.channel_laws.specs.Steps.{BeginningMovesKeep, GivingMovesKeep, OpeningMovesKeep, RecoveriesKeep, StartingMovesKeep, StillMovesKeep, TakingMovesKeep};
ghost use Rattle.connection_laws.specs.Steps.{MovesKeep};
ghost use Rattle.frame_laws.specs.Codecs.{Codecs};
ghost use Rattle.recv_window.specs.Window.{ClassIsTrue};
ghost use Rattle.book_laws.specs.Books.{StepsAreBooked};
ghost use Rattle.book_laws.specs.Starts.{StartsAreBooked};
ghost use Rattle.step_laws.specs.Starts.{StartsAreChains, StartsAreOfBooks};
ghost use Rattle.step_laws.specs.Steps.{StepsAreChains, StepsAreNoStarts};
ghost use Rattle.step_laws.specs.Ups.{ReadsAreFew};
ghost use Rattle.channel_laws.specs.Whole.{CutStepsKeep, LinesKeep, PartsLead, StartsKeep, WholeStepsKeep};

/// The laws that are used.
fn laws_below()
    ensures codecs { Codecs }
    ensures classes { ClassIsTrue }
    ensures again { WrittenIsRead }
    ensures room { WrittenHasRoom }
    ensures calm { MovesKeep }
{
    frame_laws::written_is_read_again();
    recv_window::the_class_is_true();
    control_message::reads_what_was_written();
    control_message::has_room();
    connection_laws::steps_keep();
}

/// The laws of single steps that are used.
fn laws_of_steps()
    ensures chains { StepsAreChains }
    ensures no_starts { StepsAreNoStarts }
    ensures reads { ReadsAreFew }
    ensures booked { StepsAreBooked }
{
    step_laws::steps_are_chains();
    step_laws::steps_are_no_starts();
    step_laws::reads_are_few();
    book_laws::steps_are_booked();
}

/// The laws of single starts that are used.
fn laws_of_starts()
    ensures chains { StartsAreChains }
    ensures of_books { StartsAreOfBooks }
    ensures booked { StartsAreBooked }
{
    step_laws::starts_are_chains();
    step_laws::starts_are_of_books();
    book_laws::starts_are_booked();
}

/// In a world in which what is written in Facts and Epochs holds, a control message that may be delivered to a live tunnel, which is neither frozen
/// nor restored, is of that tunnel's own epoch; the 16 bits of both its numbers are read as the numbers without an end are; and where it comes
/// next it is the next letter of those that its sender gave in that epoch. Or it is a StopCCN of no tunnel.
pub fn letters_are_of_their_epoch()
    ensures { NoneIsOfAnother }
{
    laws_below();
}

/// Whatever line of the grammar fits does one of a few things: nothing with the nodes; a node is declared; a stop is armed; a node falls; it makes a step, or
/// starts, and all that it leaves is committed; or a stop cuts that off.
pub fn lines_do()
    ensures { LinesDo }
{}

/// A move of a step keeps what holds where it gives and takes no letter and neither makes nor enters an epoch: where a recovery tunnel goes on or ends, a
/// message is ignored by a tunnel that is frozen or restored, a tunnel is cleared, a call ends of which nobody is told, a frame goes, a link
/// is called, or a letter goes on the wire, once or again.
pub fn still_moves_keep()
    ensures { StillMovesKeep }
{
    laws_below();
}

/// A move of a step keeps what holds where an attempt of the other end is answered, which freezes the tunnel and makes an epoch of its link, and where
/// either end resets its tunnel, and so enters the epoch of the answer.
pub fn recoveries_keep()
    ensures { RecoveriesKeep }
{
    laws_below();
}

/// A move of a step keeps what holds where an established tunnel is given a letter and takes none: it asks for a call, tells of the end
/// of one, says that it is there, or asks, behind a reset, which sessions its other end still has.
pub fn giving_moves_keep()
    ensures { GivingMovesKeep }
{
    laws_below();
}

/// A move of a step keeps what holds where a tunnel that opens learns its other end by the answer to its SCCRQ, is confirmed by an SCCCN, or is closed
/// as it rejects that answer. All these are of a tunnel in epoch 0.
pub fn opening_moves_keep()
    ensures { OpeningMovesKeep }
{
    laws_below();
}

/// A move of a step keeps what holds where a live tunnel, in whatever epoch, takes a letter of its other end, hears what that
/// acknowledges, is closed, or has a call that rings. So it is where it answers which sessions it still has, and where it is answered, and
/// calls end by that.
pub fn taking_moves_keep()
    ensures { TakingMovesKeep }
{
    laws_below();
}

/// A move of a step keeps what holds where a tunnel is opened, or accepted by an opening that recovers nothing, and where an opening is declined.
pub fn beginning_moves_keep()
    ensures { BeginningMovesKeep }
{
    laws_below();
}

/// A step of a node that is up, all of which was committed, keeps what holds of channels over crashes: with the packets that it sends, and
/// the book that its checkpoint has behind it; as long as the epochs of linked ends are known before each of its moves, and no channel was
/// given nearly 2^64 letters. No channel is given more than 81,919 letters more than any was before, and the moves of the step lead to a
/// world that has the ends that it leaves, and keeps the same of each tunnel and each answer.
pub fn whole_steps_keep()
    ensures { WholeStepsKeep }
{
    laws_below();
    laws_of_steps();
    still_moves_keep();
    recoveries_keep();
    giving_moves_keep();
    opening_moves_keep();
    taking_moves_keep();
    beginning_moves_keep();
}

/// A move of a start keeps what holds: where a tunnel that the book has comes back with its calls, and an attempt at its recovery begins;
/// where one is forgotten; and where the link of a call is opened. Nothing needs to be known of epochs, as no letter is given or taken.
pub fn starting_moves_keep()
    ensures { StartingMovesKeep }
{}

/// The start of a node that is down, all of which was committed, keeps what holds of channels over crashes: with the packets that it sends,
/// and the book that its checkpoint has behind it. No channel is given a letter, and the moves of the start lead to a world that has the
/// ends that it leaves, and keeps the same of each tunnel and each answer.
pub fn starts_keep()
    ensures { StartsKeep }
{
    laws_of_starts();
}

/// A step of a node that is up, or the start of one that is down, which a stop cuts off amid its records, keeps what holds of channels over
/// crashes: nothing is done, and each tunnel that a record brought into the book was known by what had been sent before the step; as long
/// as the epochs of linked ends are known wherever the moves of the step would lead. The records of a start bring none.
pub fn cut_steps_keep()
    ensures { CutStepsKeep }
{
    laws_below();
    laws_of_steps();
    laws_of_starts();
    still_moves_keep();
    recoveries_keep();
    giving_moves_keep();
    opening_moves_keep();
    taking_moves_keep();
    beginning_moves_keep();
}

/// The first moves of a step that a stop cuts off, however many, lead to a world in which all holds of channels over crashes: each is made
/// where those before it lead, and the node has still the checkpoint that it had before.
pub fn parts_of_steps_lead()
    ensures { PartsLead }
{
    laws_below();
    laws_of_steps();
    still_moves_keep();
    recoveries_keep();
    giving_moves_keep();
    opening_moves_keep();
    taking_moves_keep();
    beginning_moves_keep();
}

/// Each line of the grammar that fits keeps what holds of channels over crashes: one in which a node is declared, a stop is armed, a node
/// falls, makes a step or starts, and one in which a stop cuts that off; as long as the epochs of linked ends are known wherever the moves
/// of a step lead, and no channel was given nearly 2^64 letters.
pub fn lines_keep()
    ensures { LinesKeep }
{
    laws_below();
    laws_of_steps();
    laws_of_starts();
    still_moves_keep();
    recoveries_keep();
    giving_moves_keep();
    opening_moves_keep();
    taking_moves_keep();
    beginning_moves_keep();
}
