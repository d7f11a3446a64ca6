//! Laws of every call of a link, and of every run of its calls.

ghost use Rattle.call_link.specs.Laws.{EachFrameIsMade, EachPacketIsGiven, EachFrameIsForLink, EachTellsOpening, EachOpensOnce, EachEndsForGood, EachEndsByLcp, EachEndIsTold, EachTellsLcp, EachStaysAsItWas, EachTellsDue, EachBeginsByAsking};

use lcp_end::outputs_tell_open;

/// Each frame that a link gives has an LCP packet which its own LCP end gives in that very step, and is for the link of its peer.
/// Each packet that the LCP end gives is in one of them, in order.
pub fn frames_are_made()
    ensures made { EachFrameIsMade }
    ensures all { EachPacketIsGiven }
    ensures for_link { EachFrameIsForLink }
{}

/// That frames of the network pass is told where they begin to, and in every run once at most; from then on they do for good.
pub fn networks_open_once()
    ensures told { EachTellsOpening }
    ensures once { EachOpensOnce }
{}

/// A link is over from the call on that ends it, and in every run after that nothing comes of it.
pub fn ended_links_stay_still()
    ensures { EachEndsForGood }
{}

/// A call ends for LCP alone, whose end is finished then, and wherever it is. Nothing is sent beside it, and the network doesn't
/// open.
pub fn ends_are_of_lcp()
    ensures only { EachEndsByLcp }
    ensures always { EachEndIsTold }
{}

/// What a call gives tells whether LCP is open: it is where it came up, or was open and didn't go down.
pub fn turns_tell_whether_lcp_is_open()
    ensures { EachTellsLcp }
{
    outputs_tell_open();
}

/// Nothing comes of a frame of another protocol, nor of time before the timer runs out. The block counts for frames alone.
pub fn other_calls_change_nothing()
    ensures { EachStaysAsItWas }
{}

/// The timer of a link has run out from the moment on that it tells, and where it tells none, never.
pub fn timers_run_out_when_told()
    ensures { EachTellsDue }
{}

/// A new link begins with a Configure-Request, whose magic number is the last four bytes of the step's block, or 1.
pub fn new_links_ask_first()
    ensures { EachBeginsByAsking }
{}
