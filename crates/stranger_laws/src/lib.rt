//! What datagrams of strangers may do in a run, and what those of one peer do to the tunnels of another: a stranger's address is that of no
//! live tunnel's peer. Whoever sends under a peer's address is no stranger here, since a peer is told by its address alone.
#![tactic(auto)]

ghost use Rattle.book_laws.specs.Books.{CallsAreByPlace, StepsAreBooked};
ghost use Rattle.node_laws.specs.Nodes.{EndsOfRuns, NodesOfRuns};
ghost use Rattle.step_laws.specs.Gone.{CallsGoOnce};
ghost use Rattle.step_laws.specs.Looks.{LooksStayTrue};
ghost use Rattle.step_laws.specs.Steps.{StepsAreChains};
ghost use Rattle.stranger_laws.specs.Lines.{AddressesAreOfNodes, StrangersChangeNoCall};
ghost use Rattle.stranger_laws.specs.Looks.{TrueLooksFit};
ghost use Rattle.stranger_laws.specs.Others.{DatagramsLeaveOthersAlone, LinesLeaveOthersAlone, TunnelsOutlastStrangers};

/// What the data plane sees fits an end's tunnels where the end's looks are true, as they are at first, after each step and after each
/// start of each run. That is all that a step of an end needs, so that a datagram of a stranger changes nothing there.
pub fn true_looks_fit()
    ensures { TrueLooksFit }
{}

/// After every list of lines of the grammar, whatever crashed, a line that delivers a packet to a node, or loads it there, from a node
/// that is the peer of none of its live tunnels, changes no tunnel and no call: neither in the node's end nor, with the tunnels' marks,
/// in its checkpoint, where only the ceiling of tunnel ids may be new. The other nodes are as they were. No call is born, none is told as
/// gone, and no frame is handed up or held. One packet at most is sent, back to that node. The node has one tunnel more at most, to that
/// peer, without calls, which waits for an SCCCN. Or a stop that was armed there cuts the step off, as it commits the ceiling; then the
/// node is down.
pub fn strangers_change_no_call()
    ensures lines { StrangersChangeNoCall }
    ensures addresses { AddressesAreOfNodes }
{
    stranger_steps::strangers_change_nothing();
    true_looks_fit();
    node_laws::books_are_of_ends();
}

/// To each tunnel all are strangers but its peer: a datagram of another one, whether that has tunnels of its own or not, leaves the tunnel
/// as it is, with its calls, letters, recovery and mark, and with what the data plane sees of the calls. None of the calls is told as
/// gone, and no frame is handed up in one. So whatever others send to an end, and however many datagrams that are, the tunnel is then as
/// it was before. Of an end whose tunnels are kept, and whose looks are true.
pub fn strangers_leave_tunnels_alone()
    ensures each { DatagramsLeaveOthersAlone }
    ensures all { TunnelsOutlastStrangers }
{
    step_laws::steps_are_chains();
    step_laws::looks_are_true();
    step_laws::calls_go_once();
}

/// After every list of lines of the grammar, whatever crashed, a line that delivers a packet to a node, or loads it there, leaves each
/// tunnel of the node to another peer than the one from which the packet comes as it is, with its calls, in the node's end and in its
/// checkpoint; and every other node has the end and the checkpoint that it had. A line whose step a stop cuts off is left out.
pub fn lines_leave_others_alone()
    ensures { LinesLeaveOthersAlone }
{
    strangers_leave_tunnels_alone();
    step_laws::looks_are_true();
    book_laws::steps_are_booked();
    book_laws::calls_are_by_place();
    node_laws::books_are_of_ends();
}
