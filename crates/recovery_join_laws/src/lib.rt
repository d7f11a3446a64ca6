//! The resets of a recovery, and what is asked for and answered behind it, are moves of the abstract machine.
#![tactic(auto)]

ghost use Rattle.birth_laws.specs.Births.{BirthsOfRuns};
ghost use Rattle.channel_laws.specs.Recoveries.{WrittenHasRoom, WrittenIsRead};
ghost use Rattle.frame_laws.specs.Codecs.{Codecs};
ghost use Rattle.recovery_join_laws.specs.Moves.{QueriesJoin, ResetsJoin};
ghost use Rattle.recovery_laws.specs.Asking.{QueriesAreMoves};
ghost use Rattle.recovery_laws.specs.Growing.{ChannelsGrow};
ghost use Rattle.recovery_laws.specs.Left.{QueriesGoOn};

/// The laws that are used.
fn laws_below()
    ensures codecs { Codecs }
    ensures again { WrittenIsRead }
    ensures room { WrittenHasRoom }
    ensures births { BirthsOfRuns }
    ensures grow { ChannelsGrow }
    ensures are { QueriesAreMoves }
    ensures on { QueriesGoOn }
{
    frame_laws::written_is_read_again();
    control_message::reads_what_was_written();
    control_message::has_room();
    birth_laws::each_birth_has_one_mate();
    recovery_laws::channels_grow();
    recovery_laws::queries_are_moves();
    recovery_laws::queries_go_on();
}

/// Where an end resets its tunnel, as it takes the answer to its attempt, or the confirmation of its answer, the machine's tunnel enters
/// the epoch of that answer. The machine allows it: the answer is to this attempt, or the other end has confirmed it. The tunnel then
/// asks there for the sessions that it asks for here.
pub fn resets_join()
    ensures { ResetsJoin }
{
    laws_below();
}

/// Where a tunnel that was reset asks for sessions, the machine's asks for each of them; where one is asked, the machine's takes a
/// question for each session, and answers it the same; and where one takes the answer, the machine's takes an answer for each session, by
/// which those calls end that end here, and no others. What is left to ask for is the same in both.
pub fn queries_join()
    ensures { QueriesJoin }
{
    laws_below();
}
