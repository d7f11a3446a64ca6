//! The causes that reports tell, the room for letters, how many tunnels there are, the calls and tunnels that are left, and the answers to
//! requests and to hosts, in the run of every list of lines of the grammar, crashes among them.
#![tactic(auto)]

ghost use Rattle.cause_laws.specs.Answers.{AnswersOfRuns};
ghost use Rattle.cause_laws.specs.Causes.{CausesOfRuns, NoneIsLeftInRuns, RoomInRuns, TunnelsAreFewInRuns};
ghost use Rattle.cause_laws.specs.Hosts.{HostsAreHeldOn, HostsOfRuns};
ghost use Rattle.book_laws.specs.Starts.{StartsAreBooked, StartsSendOnly};
ghost use Rattle.node_laws.specs.Nodes.{EndsOfRuns, NodesOfRuns};
ghost use Rattle.step_laws.specs.Answers.{RequestsAreAnswered};
ghost use Rattle.step_laws.specs.Causes.{CausesStand};
ghost use Rattle.step_laws.specs.Left.{CallsAreAsked, CallsStaySound, FailedTunnelsGo, LateCallsEnd, TunnelsBeginFew, TunnelsStayFew};
ghost use Rattle.step_laws.specs.Rings.{RingsCome};
ghost use Rattle.step_laws.specs.Room.{StepsRefuseTruly, FullAreRefused};
ghost use Rattle.step_laws.specs.Steps.{StepsAreChains};

/// The laws that are used.
fn laws_below()
    ensures causes { CausesStand }
    ensures room { StepsRefuseTruly }
    ensures full { FullAreRefused }
    ensures rings { RingsCome }
    ensures sound { CallsStaySound }
    ensures late { LateCallsEnd }
    ensures asked { CallsAreAsked }
    ensures gone { FailedTunnelsGo }
    ensures begin_few { TunnelsBeginFew }
    ensures stay_few { TunnelsStayFew }
    ensures answers { RequestsAreAnswered }
    ensures chains { StepsAreChains }
    ensures nodes { NodesOfRuns }
    ensures ends { EndsOfRuns }
    ensures starting { StartsAreBooked }
    ensures quiet { StartsSendOnly }
{
    step_laws::causes_stand();
    step_laws::steps_refuse_truly();
    step_laws::rings_come_to_calls_or_causes();
    step_laws::calls_are_not_left();
    step_laws::failed_tunnels_go();
    step_laws::tunnels_stay_few();
    step_laws::requests_are_answered();
    step_laws::steps_are_chains();
    node_laws::books_are_of_ends();
    book_laws::starts_are_booked();
}

/// Over every list of lines of the grammar, crashes among them, each cause that an entry of the report tells stands in the world before the
/// entry's line, and none does that counts before it; and a message is dropped for want of room only where it is the next one of a tunnel
/// that holds so many letters, with those that its calls owe, that four more would be too many. And each such message that names its tunnel
/// is told so. Each frame that an entry tells answers a host; a host that enters and gets no call gets the one cause that the step tells.
/// And each host is answered: a PADI for a service that is served by its PADO alone; a PADR by one PADS, which
/// has the cause that is told where discovery refuses it, and comes alone where it repeats that of a live call; else the host's address
/// rings. No stop cuts off the answer to a PADI, or to a PADR that is refused or repeated; of any other step that a stop cut off it isn't
/// said that it answers, nor that it tells of room. A start tells no cause, drops nothing and hands nothing up.
pub fn reports_tell_true_causes()
    ensures { CausesOfRuns }
{
    laws_below();
}

/// Over every list of lines of the grammar, crashes among them, the letters that a live tunnel holds and those that its calls owe are fewer
/// than a channel holds, as long as the tunnel isn't closed, so that no letter which it has to give is refused; a closed one has no calls, and
/// holds no more letters than a channel may; and each has 4,096 calls at most.
pub fn tunnels_have_room()
    ensures { RoomInRuns }
{
    laws_below();
}

/// Over every list of lines of the grammar, crashes among them, each end has 1,024 tunnels at most, the closed ones among them.
pub fn no_end_has_too_many_tunnels()
    ensures { TunnelsAreFewInRuns }
{
    laws_below();
}

/// Over every list of lines of the grammar, crashes among them, a call waits for its tunnel only where the tunnel's SCCRQ isn't answered
/// yet: in an open tunnel each is asked for. And where the last line is a tick of a node, none of that node's calls that are still being set up
/// has taken 60 seconds or more; nor is one of its tunnels left that isn't set up and was made 60 seconds ago or more, that was closed 31
/// seconds ago or more, or whose oldest unacknowledged letter was repeated five times, the last time 8 seconds ago or more.
pub fn no_call_is_left()
    ensures { NoneIsLeftInRuns }
{
    laws_below();
}

/// Over every list of lines of the grammar, crashes among them, the hosts that a LAC holds and that came by one address and Host-Uniq have
/// one session at most: as such a host enters again, it isn't the holder of the session that it had. So a PADR repeats that of one call at
/// most. And a host that is held is held on after each line, as long as its call lives and its LAC is up.
pub fn hosts_are_held_once()
    ensures once { HostsOfRuns }
    ensures on { HostsAreHeldOn }
{
    laws_below();
}

/// Over every list of lines of the grammar, crashes among them, each call request that a line brings to a node is answered, by one move of
/// what the line does and no more than one, as the tables and the causes say; and so is each ring: by a call that is asked for or waits for
/// its tunnel, or by a cause. The moves of the step are a chain from the end that the node has before the line to the one that it has after
/// it, so that the move which answers puts one letter on its tunnel's channel, behind those that the tunnel gave before it. A line whose
/// step a stop cut off is left out.
pub fn requests_are_answered_in_runs()
    ensures { AnswersOfRuns }
{
    laws_below();
}
