//! What a step of an end may do on a datagram of a stranger: of an address that is that of no live tunnel's peer. Whoever sends under a
//! peer's address is no stranger here, since a peer is told by its address alone.
#![tactic(auto)]

ghost use Rattle.stranger_steps.specs.Strangers.{DatagramsAreOfEnds, StrangersChangeNothing};

/// A step of an end on a datagram whose peer is that of none of its live tunnels, and so of no recovery either, changes nothing of what
/// is there: each live tunnel with its calls, letters, recovery and mark is as it was, and so is what the data plane sees of the calls.
/// No frame is handed up, and no call is told as gone. One packet at most is sent, to that peer. At most one tunnel is there more: to
/// that peer, from which it waits for an SCCCN, without calls, under the tunnel id that was drawn, which no tunnel had. No other id is
/// drawn, and nothing is committed but ceilings of tunnel ids. So it is of an LNS and of a LAC, which holds the hosts that it held and
/// answers none.
///
/// Of the end nothing is needed but that its looks fit its tunnels, as those of each end of each run do. A closed tunnel that is still kept
/// is one of its live tunnels.
pub fn strangers_change_nothing()
    ensures ends { StrangersChangeNothing }
    ensures hosts { DatagramsAreOfEnds }
{}
