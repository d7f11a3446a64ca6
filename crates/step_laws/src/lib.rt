//! What a step of an end does, as a chain of moves: what each move needs before it and what it changes.
#![tactic(auto)]

ghost use Rattle.step_laws.specs.Answers.{RequestsAreAnswered};
ghost use Rattle.step_laws.specs.Causes.{CausesStand};
ghost use Rattle.step_laws.specs.Codes.{FaultsHaveCodes};
ghost use Rattle.step_laws.specs.Gone.{CallsGoOnce};
ghost use Rattle.step_laws.specs.Left.{CallsAreAsked, CallsStaySound, FailedTunnelsGo, LateCallsEnd, TunnelsBeginFew, TunnelsStayFew};
ghost use Rattle.step_laws.specs.Looks.{LooksBeginTrue, LooksStayTrue};
ghost use Rattle.step_laws.specs.Rings.{RingsCome};
ghost use Rattle.step_laws.specs.Room.{StepsRefuseTruly, FullAreRefused};
ghost use Rattle.step_laws.specs.Sent.{FramesAreOfSteps};
ghost use Rattle.step_laws.specs.Starts.{StartsAreAllowed, StartsAreChains, StartsAreOfBooks, StartsLookTrue, StartsTellForgotten};
ghost use Rattle.step_laws.specs.Steps.{StepsAreChains, StepsAreNoStarts};
ghost use Rattle.step_laws.specs.Tables.{TablesAreDone};
ghost use Rattle.step_laws.specs.Ups.{BirthsAreFew, ReadsAreFew, UpsAreFew, UpsAreMoves};

/// Each step of an end whose tunnels are kept is a chain of its moves: each move has what it needs in the end that the moves
/// before it lead to, and the last one leads to the end that is left, whose tunnels are kept. What is sent goes to the peer of
/// a tunnel, and is of that tunnel as it stands at one end of the chain, which may be before other moves change or remove it: a
/// letter that it keeps, under its number; an acknowledgement alone; a frame that one of the moves up to there sends; or, with the ids
/// of its recovery tunnel, a letter which that holds, or an acknowledgement alone. Or it is the StopCCN of no tunnel by which a move
/// declines an opening. What is handed up is what one of the moves hands up.
pub fn steps_are_chains()
    ensures { StepsAreChains }
{}

/// A start over a sound book is such a chain too, whatever event comes then: from an end without tunnels, each tunnel that was kept comes back
/// with its calls and an attempt at its recovery, and the links of its calls are opened; or it is forgotten. The tunnels that are there
/// then are kept.
pub fn starts_are_chains()
    ensures { StartsAreChains }
{}

/// By each of its moves a tunnel of the book comes back, with the calls that the book has of it, or one is forgotten; or it is of the link of a
/// call, as that is opened.
pub fn starts_are_of_books()
    ensures { StartsAreOfBooks }
{}

/// After a start over such a book, what the data plane sees of each session is so of its call.
pub fn starts_look_true()
    ensures { StartsLookTrue }
{}

/// And no more than 1,024 tunnels are there, each call is in a state that a call of the end's role can be in, under a session of 16
/// bits, and none waits for its tunnel.
pub fn starts_are_allowed()
    ensures { StartsAreAllowed }
{}

/// What it tells as gone are calls of the book, none twice, and none of them has its place then.
pub fn starts_tell_forgotten()
    ensures { StartsTellForgotten }
{}

/// No move of a step brings a tunnel back or forgets one.
pub fn steps_are_no_starts()
    ensures { StepsAreNoStarts }
{}

/// Each frame that a step sends down a call is given by its event; or the call's LCP end gives it, as the call is before the step, at the
/// moment of the step: as it is opened, with the magic number of the step's random block; for its timer; or on a packet that the peer of the
/// call's tunnel sent in the call, with that block. So no frame of LCP comes of another number, or on the packet of another peer. Of an end whose
/// tunnels are kept, and whose looks are true.
pub fn frames_are_of_steps()
    ensures { FramesAreOfSteps }
{}

/// What the data plane sees of a session is so of its call, at first and after each step: each session that has a place is
/// that of a live call, each live call has its place in its tunnel, and what is seen there follows from the call's state
/// and from where its tunnel goes.
pub fn looks_are_true()
    ensures begin { LooksBeginTrue }
    ensures stay { LooksStayTrue }
{
    steps_are_chains();
}

/// What a step of an end tells as gone are the calls that ended in it. No session is told twice; each had its place in the end before the
/// step and has none after it; and each that had one and has none is told. So the end of a call is told once, in the step that takes its
/// place away, also where calls end in several tunnels in one tick; none is told that wasn't there, or that was made in the same step. Of
/// an end whose tunnels are kept, and whose looks are true.
pub fn calls_go_once()
    ensures { CallsGoOnce }
{}

/// In each step of each end, the frames that its outputs hand up are those that its moves hand up: in the same order, each
/// in the same session, to the same side, with the same bytes.
pub fn ups_are_moves()
    ensures { UpsAreMoves }
{}

/// A step hands one frame up at most, and none on an event that is no datagram.
pub fn ups_are_few()
    ensures { UpsAreFew }
{}

/// One call at most is born in a step, and none on an event that is neither a ring nor the admission of a host.
pub fn births_are_few()
    ensures { BirthsAreFew }
{}

/// Nr is read once at most in a step, and only of a datagram.
pub fn reads_are_few()
    ensures { ReadsAreFew }
{}

/// A step of an end whose tunnels are kept drops an event for want of room only where it is the next message of a tunnel, and the
/// letters that the tunnel holds, once Nr is read, those that its calls owe and four more are over 8,192. So there is room for
/// each letter that a tunnel has to give. And each such message that names its tunnel is dropped for it.
pub fn steps_refuse_truly()
    ensures only { StepsRefuseTruly }
    ensures full { FullAreRefused }
{}

/// Each cause that a step of an end whose tunnels are kept tells is so, of the end before the step and of what came. Where a
/// request or a ring could have several, none stands that counts before the one that is told.
pub fn causes_stand()
    ensures { CausesStand }
{}

/// The error code that a CDN or a StopCCN tells on a message that has a fault is 2 where its pairs can't be read, 3 where a value is wrong or
/// wanting, and 8 where something in it has to be understood and isn't.
pub fn faults_have_codes()
    ensures { FaultsHaveCodes }
{}

/// The calls of an end whose tunnels are kept have ids of 16 bits and states of the end's table, at first and after each step. A
/// tick leaves none of them that took as long as a call may to be set up; and a step leaves none in an open tunnel that waits to
/// be asked for, where none did before it.
pub fn calls_are_not_left()
    ensures sound { CallsStaySound }
    ensures late { LateCallsEnd }
    ensures asked { CallsAreAsked }
{
    steps_are_chains();
}

/// A tick leaves no tunnel that was made 60 seconds ago or more and isn't set up, none that was closed 31 seconds ago or more, and none whose
/// oldest unacknowledged letter was repeated five times, the last time 8 seconds ago or more.
pub fn failed_tunnels_go()
    ensures { FailedTunnelsGo }
{}

/// An end has no more than 1,024 tunnels, those among them that are closed: at first none, and none of its steps leaves more.
pub fn tunnels_stay_few()
    ensures begin { TunnelsBeginFew }
    ensures stay { TunnelsStayFew }
{
    steps_are_chains();
}

/// Each call request is answered. Where the next message of the peer of an open tunnel asks for a call, and is taken, one move of the
/// step is an answer and no more than one: an ICRQ that names no call, and against which no cause stands, is replied to; one against
/// which a cause stands is refused with the codes of the first that counts; one that names a call ends it; an OCRQ is refused; and a faulty
/// one is refused, ends the call that it names, or closes the tunnel where it can't be answered. Beside each of these answers but a reply the
/// cause is told whose codes it has, and no other; beside a reply none is. And each ring of a LAC
/// asks for a call in an open tunnel, adds one to a tunnel that waits for its SCCRP or is opened for it, or does nothing and tells
/// one cause.
pub fn requests_are_answered()
    ensures { RequestsAreAnswered }
{}

/// Where the next message of the peer of a tunnel, which isn't closed and which its header names, is taken, the step does what the tables
/// want on it: an ICRQ, ICRP or ICCN for a live call that has no use for it ends the call, with a CDN or without a word, as the call's row says; a
/// message about a call that has a fault does the same, or is refused where there is no call or it is an OCRQ; and on any other with a fault the
/// tunnel closes, as its row says.
pub fn tables_are_done()
    ensures { TablesAreDone }
{}

/// Each ring of a LAC, by a port or by a host that was admitted, comes to a call of the session that is drawn, which lives after the step, and
/// beside which no cause is told; or to one cause and no other, of those for which a ring is refused, and then the calls are those that were.
pub fn rings_come_to_calls_or_causes()
    ensures { RingsCome }
{}
