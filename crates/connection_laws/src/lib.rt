//! Control connections in every run of a schedule's lines in which no node crashes, is to stop, or starts: what two ends take of
//! each other's letters, what they count as acknowledged, and how they read numbers of 16 bits.
#![tactic(auto)]

ghost use Rattle.frame_laws.specs.Codecs.{Codecs};
ghost use Rattle.step_laws.specs.Steps.{StepsAreChains, StepsAreNoStarts};
ghost use Rattle.step_laws.specs.Ups.{ReadsAreFew};
ghost use Rattle.connection_laws.specs.Channels.{AcksOfRuns, HoldsInRuns, LettersOfRuns, NumbersOfRuns};
ghost use Rattle.connection_laws.specs.Steps.{ClosingsAreKnown, DeclinesAreOfOpenings, LettersAreHeard, LinesGoOn, MovesKeep, NextIsHeard, FaultsAreOfRequests, NoneIsFaultyInTunnel, OpeningsAreAcceptable, PlainIsHeard, RunsBegin, StopIsHeard};
ghost use Rattle.recv_window.specs.Window.{ClassIsTrue};

/// The laws that are used.
fn laws_below()
    ensures codecs { Codecs }
    ensures chains { StepsAreChains }
    ensures starts { StepsAreNoStarts }
    ensures reads { ReadsAreFew }
    ensures classes { ClassIsTrue }
{
    frame_laws::written_is_read_again();
    step_laws::steps_are_chains();
    step_laws::steps_are_no_starts();
    step_laws::reads_are_few();
    recv_window::the_class_is_true();
}

/// What holds of every world that lines lead to in which no node crashes, is to stop, or starts: of each tunnel that is or was, of
/// each live tunnel and its channel, and of each packet.
pub fn facts_hold()
    ensures { HoldsInRuns }
{
    laws_below();
}

/// Each move of a step keeps all of it; the next letter that a tunnel hears is the next one of its sender's list, and any that
/// it hears is in that list, where it neither opens, accepts nor stops a tunnel; so is the StopCCN by which a tunnel is closed,
/// whose sender has learned it, or was lost before it did, or it is of no tunnel and declines this one's SCCRQ; one that a
/// tunnel gives goes to the tunnel that it knows; what is declined is the SCCRQ of a tunnel of the sender's; no opening that is
/// heard has another version, wants a recovery or has a challenge, and no message has a fault; and each line of a run that fits,
/// and by which no node crashes, is to stop, or starts, goes on from where it holds: it does nothing, adds a node, or makes a step
/// whose moves are made where all of it holds, and none of them is one of a recovery.
pub fn steps_keep()
    ensures moves { MovesKeep }
    ensures heard { NextIsHeard }
    ensures plain { PlainIsHeard }
    ensures letters { LettersAreHeard }
    ensures stop { StopIsHeard }
    ensures known { ClosingsAreKnown }
    ensures openings { DeclinesAreOfOpenings }
    ensures acceptable { OpeningsAreAcceptable }
    ensures faulty { FaultsAreOfRequests }
    ensures sound_in_tunnel { NoneIsFaultyInTunnel }
    ensures lines { LinesGoOn }
    ensures begins { RunsBegin }
{
    laws_below();
}

/// Over every list of fewer than 2^47 lines of the grammar in which no node crashes, is to stop, or starts: each control message
/// is a copy of the letter at its number in its sender's list, or of none, and goes to its sender's peer, or it is a StopCCN of no
/// tunnel, which declines an opening; no recovery tunnel sends one; and what a tunnel took, as long as it wasn't closed, are the
/// first letters of the list of its partner, the one tunnel that it has learned, in order and each once. What it did with each
/// is what the letter says: it learned the id and the window that an opening tells, it made a call for the request that names
/// the other end's, and a call came up or ended that the letter's header names; or a call ended by a CDN whose header names
/// none, of which no more is said. Of a letter that it took plainly, by which it did nothing else, nothing is said.
pub fn letters_are_carried()
    ensures { LettersOfRuns }
{
    laws_below();
}

/// Over the same lists: each letter that a live tunnel counts as acknowledged was taken by its other end, the tunnel that it has
/// learned, or one that accepted its SCCRQ; or ignored by that end, which had been closed by then; or is an SCCRQ that was declined.
pub fn acks_are_true()
    ensures { AcksOfRuns }
{
    laws_below();
}

/// Over the same lists: each control message that may be delivered, since its numbers haven't outlived half of them, is read as
/// the numbers without an end say: its class by Ns, and how many letters its Nr acknowledges.
pub fn numbers_are_read()
    ensures { NumbersOfRuns }
{
    laws_below();
}
