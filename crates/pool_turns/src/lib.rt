//! What the calling thread of a pool does on its ports, by definitions: turn after turn it takes what waits, and puts each datagram for a
//! worker. When what comes of it goes out isn't said, since workers finish when they do.
#![tactic(auto)]

ghost use Rattle.pool_turns.specs.Laws.{PutsAll, MayGiveMore, IsOneOf, MayGiveThen};

/// Laws: turns put as many datagrams as the link gave; ports may be given more after a run; and a run that was made to its end is one that
/// may have ended early.
pub fn turns_follow()
    ensures puts { PutsAll }
    ensures more { MayGiveMore }
    ensures early { IsOneOf }
    ensures then { MayGiveThen }
{}
