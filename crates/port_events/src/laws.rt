//! How the events of an end lead on, as laws over its steps.

ghost use Rattle.port_events.specs.Laws.{FeedsJoin, StopsJoin, NothingStops, LeadsAsFunction};

use crate::end::EndStep;

/// Events that are fed behind others are fed with them; where they stop early, all of the others are over; where nothing was taken,
/// nothing goes out; and where a step is a function, so is what events lead to.
pub fn events_follow<S: EndStep>()
    ensures fed { FeedsJoin S.steps }
    ensures stopped { StopsJoin S.steps S.stops }
    ensures nothing { NothingStops S.steps S.stops }
    ensures function { LeadsAsFunction S.steps }
{}
