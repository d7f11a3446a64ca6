//! Frames of calls, and births of calls, in every run of a schedule's lines, whatever crashes.
#![tactic(auto)]

ghost use Rattle.frame_laws.specs.Births.{BirthsOfRuns};
ghost use Rattle.frame_laws.specs.Codecs.{Codecs};
ghost use Rattle.frame_laws.specs.Facts.{CalmFactsOfRuns, FactsOfRuns, HeldOfRuns, LooksOfRuns, StepLaws};
ghost use Rattle.frame_laws.specs.Frames.{FramesOfRuns, GivenInRuns, PacketsOfRuns};
ghost use Rattle.frame_laws.specs.Reports.{ReportsOfRuns};
ghost use Rattle.frame_laws.specs.Unrecovered.{MovesOfRuns};

/// What the codecs promise of what they write.
pub fn written_is_read_again()
    ensures { Codecs }
{
    l2tp_header::reads_what_was_written();
    avp_codec::reads_what_was_written();
    control_message::reads_what_was_written();
    control_message::has_room();
    control_message::hidden_requests_are_read();
    end_model::twelve_digits();
}

/// The laws of steps, of starts and of books that are used.
fn laws_of_steps()
    ensures { StepLaws }
{
    step_laws::steps_are_chains();
    step_laws::looks_are_true();
    step_laws::ups_are_moves();
    step_laws::steps_are_no_starts();
    step_laws::starts_are_chains();
    step_laws::starts_are_of_books();
    book_laws::steps_are_booked();
    book_laws::starts_are_booked();
}

/// Over every list of lines of the grammar, whichever nodes crash, stop amid a step and start again, each frame that an end
/// hands up in a call was sent at an earlier line, in a call of the same birth, by an end of the other kind, at the node that
/// the call's tunnel goes to. So a frame that was sent in a call before a crash comes to no other call behind it.
pub fn frames_were_sent()
    ensures { FramesOfRuns }
{
    written_is_read_again();
    laws_of_steps();
}

/// Over every list of lines of the grammar, whatever crashes, each frame that counts as sent is one that its line gave to
/// its end in its call, or at a LAC one that the host of the call sent in the Ethernet frame of its line, or at an LNS an LCP
/// packet that the LCP end of the call gave in its line, or as the call came back in the start of its line; and it is carried
/// by a packet, from the node that sent it to the one that the call's tunnel goes to.
pub fn sent_frames_are_packets()
    ensures packets { PacketsOfRuns }
    ensures given { GivenInRuns }
{
    written_is_read_again();
    laws_of_steps();
}

/// In every run of lines of the grammar, whatever crashes, the entries of the report that tell of frames which are handed up
/// are, in order, those of the moves that hand one up. A step that a stop cuts off hands none up.
pub fn reports_tell_the_past()
    ensures { ReportsOfRuns }
{
    written_is_read_again();
    laws_of_steps();
}

/// After every list of lines of the grammar, whatever crashes, each frame that a node holds was sent in the call for which it
/// is held, by that call's other end. A node that fell holds none.
pub fn held_frames_were_sent()
    ensures { HeldOfRuns }
{
    written_is_read_again();
    laws_of_steps();
}

/// What holds of every world, whatever crashes: of its nodes and their calls, of what their checkpoints have of calls, and of
/// each packet. Each call, live or in a book, that knows the session of the other end knows its mate, which has its birth.
pub fn facts_hold()
    ensures { FactsOfRuns }
{
    written_is_read_again();
    laws_of_steps();
}

/// And what holds beside it where no node crashes, is to stop, or starts: no tunnel recovers or asks for a session, and no
/// packet tells of a recovery.
pub fn calm_facts_hold()
    ensures { CalmFactsOfRuns }
{
    written_is_read_again();
    laws_of_steps();
}

/// After every list of lines of the grammar, whatever crashes, what the data plane of each node sees of a session is so of
/// its call.
pub fn looks_are_true()
    ensures { LooksOfRuns }
{
    written_is_read_again();
    laws_of_steps();
}

/// After every list of fewer than 2^47 lines, whatever crashes, two sessions of LACs with one birth are one session: a birth
/// is one subscriber's call.
pub fn births_are_apart()
    ensures { BirthsOfRuns }
{
    written_is_read_again();
    laws_of_steps();
}

/// In every run of lines of the grammar in which no node crashes, is to stop, or starts, no move is one of a recovery.
pub fn moves_are_main()
    ensures { MovesOfRuns }
{
    written_is_read_again();
    laws_of_steps();
}
