//! Runs over several nodes and single steps, computed over the definitions.
//!
//! A definition and the code that follows it can be wrong together. Here each id, birth and node differs from those that it
//! could be taken for.
#![tactic(auto)]

ghost use Rattle.run_examples.specs.Crashes.{FramesOutliveCrashes};
ghost use Rattle.run_examples.specs.Crossing.{FramesCross};
ghost use Rattle.run_examples.specs.Endings.{CallsEndOnce};
ghost use Rattle.run_examples.specs.Held.{FramesAreHeld};
ghost use Rattle.run_examples.specs.Leaving.{StepsLeaveRecords};
ghost use Rattle.run_examples.specs.Messages.{MessagesAreTakenInOrder, MessagesAreAcknowledged, WindowsAreKept, OpeningsComeOnce};
ghost use Rattle.run_examples.specs.Outlived.{OldPacketsAreRefused};
ghost use Rattle.run_examples.specs.Owed.{LettersOwedAreCounted};
ghost use Rattle.run_examples.specs.Recoveries.{BothEndsRecover, FrozenCallsEndSilently, OldEpochsAreRefused, TunnelsAreRecovered};
ghost use Rattle.run_examples.specs.Refusals.{CallsAreRefused};
ghost use Rattle.run_examples.specs.Rules.{DataAreNumbered, FramesAreLookedAt, IdsRunOut};
ghost use Rattle.run_examples.specs.Tables.{TablesTell};

/// A run in which two LACs have calls at one LNS: what was sent and what was handed up, with sessions and births.
pub fn frames_cross()
    ensures { FramesCross }
{}

/// What the steps of a LAC and of an LNS leave in their checkpoints: ceilings of ids, tunnels and calls that come up, with whom they
/// are to, and those that go. A call that was never established leaves nothing, and a tunnel goes with its calls.
pub fn steps_leave_records()
    ensures { StepsLeaveRecords }
{}

/// An end that takes no calls refuses one that it is asked for, by a CDN that names none of its own.
pub fn calls_are_refused()
    ensures { CallsAreRefused }
{}

/// A frame that is held as its call is hung up comes up in that call.
pub fn frames_are_held()
    ensures { FramesAreHeld }
{}

/// A frame that is under way as an end crashes comes up in its call, which the start of the end brings back: at a LAC, and at an
/// LNS, whose link asks anew.
pub fn frames_outlive_crashes()
    ensures { FramesOutliveCrashes }
{}

/// A call that is dropped at one end while it is hung up at the other is gone once at each.
pub fn calls_end_once()
    ensures { CallsEndOnce }
{}

/// A ring is refused where the letters that calls owe leave no room for those of one more: else the end of a call couldn't be
/// told.
pub fn letters_owed_are_counted()
    ensures { LettersOwedAreCounted }
{}

/// A frame is handed up for the call that it was sent in: without a look at the address that it came from, or at the tunnel
/// that its header names, a step isn't a chain of its moves. Nor is one that hands up a frame of the network before LCP is open
/// in its call, or one of LCP to another than the LNS's LCP end.
pub fn frames_are_looked_at()
    ensures { FramesAreLookedAt }
{}

/// The next message of a tunnel is taken. One that came before is acknowledged again and does nothing else, and one that is
/// ahead is dropped.
pub fn messages_are_taken_in_order()
    ensures { MessagesAreTakenInOrder }
{}

/// A message that is taken is acknowledged by what goes out, and alone where nothing does; what it acknowledges is read
/// whether it is taken or not.
pub fn messages_are_acknowledged()
    ensures { MessagesAreAcknowledged }
{}

/// No more letters are outstanding than the peer's window has.
pub fn windows_are_kept()
    ensures { WindowsAreKept }
{}

/// An SCCRQ that comes again opens no second tunnel.
pub fn openings_come_once()
    ensures { OpeningsComeOnce }
{}

/// A packet that has outlived half of the numbers of its channel isn't delivered: a message could be taken twice.
pub fn old_packets_are_refused()
    ensures { OldPacketsAreRefused }
{}

/// The data messages of a call whose ICCN had Sequencing Required are counted modulo 65536, LCP's with them.
pub fn data_are_numbered()
    ensures { DataAreNumbered }
{}

/// Where every id of a kind was drawn, what needs one is refused, and the end is as before.
pub fn ids_run_out()
    ensures { IdsRunOut }
{}

/// A call that isn't up is no session, and ends agree only where each took all that the other gave.
pub fn tables_tell()
    ensures { TablesTell }
{}

/// A tunnel of an LNS that crashed is recovered, byte for byte: the SCCRQ with its draw number, LCP's requests, the SCCRP with the
/// numbers to go on with, and the SCCCN.
pub fn tunnels_are_recovered()
    ensures { TunnelsAreRecovered }
{}

/// Of two ends that both crashed the LNS answers and the LAC doesn't, and an attempt that comes late is dropped.
pub fn both_ends_recover()
    ensures { BothEndsRecover }
{}

/// A call that is hung up while its tunnel is frozen ends without a message.
pub fn frozen_calls_end_silently()
    ensures { FrozenCallsEndSilently }
{}

/// A message that was sent before the reset of its tunnel ends the run, told with both epochs.
pub fn old_epochs_are_refused()
    ensures { OldEpochsAreRefused }
{}
