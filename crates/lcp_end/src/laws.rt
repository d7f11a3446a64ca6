//! Laws of every step of an end, and of every run of its calls.

ghost use Rattle.lcp_end.specs.Laws.{EachTellsOpen, IgnoresOthers, EachAnswersOptions, EachSuggestsGood, CountsIds};

/// What a call gives tells whether the link is open: it is where it came up, or was open and didn't go down.
pub fn outputs_tell_open()
    ensures { EachTellsOpen }
{}

/// An answer to another request than the last one changes nothing.
pub fn other_answers_change_nothing()
    ensures { IgnoresOthers }
{}

/// In every run the packets that an end begins, repeated Configure-Requests too, have the identifiers from 1 on, modulo
/// 256.
pub fn identifiers_are_counted()
    ensures { CountsIds }
{}

/// An Ack has all options of the request, a Reject those that are refused, as they came, and a Nak a suggestion for each
/// that isn't fine; what it suggests is fine.
pub fn answers_name_options()
    ensures options { EachAnswersOptions }
    ensures suggestions { EachSuggestsGood }
{}
