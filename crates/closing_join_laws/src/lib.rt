//! The moves by which an opening is declined, or a tunnel is closed by its other end, are moves of the abstract machine.
#![tactic(auto)]

ghost use Rattle.connection_laws.specs.Steps.{MovesKeep, StopIsHeard};
ghost use Rattle.channel_laws.specs.Recoveries.{WrittenHasRoom, WrittenIsRead};
ghost use Rattle.epoch_laws.specs.Epochs.{EpochsOfRuns};
ghost use Rattle.frame_laws.specs.Codecs.{Codecs};
ghost use Rattle.letter_laws.specs.Letters.{LettersOfRuns};
ghost use Rattle.closing_join_laws.specs.Lost.{LostOfRuns};
ghost use Rattle.closing_join_laws.specs.Moves.{DeclinesJoin, StopsJoin};
ghost use Rattle.recv_window.specs.Window.{ClassIsTrue};
ghost use Rattle.recovery_laws.specs.Growing.{ChannelsGrow};

/// The laws that are used.
fn laws_below()
    ensures codecs { Codecs }
    ensures again { WrittenIsRead }
    ensures room { WrittenHasRoom }
    ensures classes { ClassIsTrue }
    ensures moves { MovesKeep }
    ensures stop { StopIsHeard }
    ensures epochs { EpochsOfRuns }
    ensures letters { LettersOfRuns }
    ensures grow { ChannelsGrow }
{
    frame_laws::written_is_read_again();
    control_message::reads_what_was_written();
    control_message::has_room();
    recv_window::the_class_is_true();
    connection_laws::steps_keep();
    epoch_laws::epochs_rise();
    letter_laws::letters_are_next();
    recovery_laws::channels_grow();
}

/// Where an opening is declined, the machine refuses the opener whose SCCRQ it is, and nobody where it is that of an attempt at a
/// recovery.
pub fn declines_join()
    ensures { DeclinesJoin }
{
    laws_below();
}

/// Where a tunnel is closed by a StopCCN that it takes, so is the machine's, with its calls. It takes the letter of the tunnel that gave it, in
/// its place and its epoch: that one has learned this tunnel, or is an opener that closed before it learned one. Or it takes the refusal of
/// its SCCRQ.
pub fn stops_join()
    ensures { StopsJoin }
{
    laws_below();
}

/// After every list of moves of the machine: an opener that gave a StopCCN before it had taken its SCCRP has learned no acceptor, also none by
/// a record that a stop kept.
pub fn lost_openers_learn_none()
    ensures { LostOfRuns }
{
    laws_below();
}
