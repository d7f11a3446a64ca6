//! What the steps and the starts of an end leave in its checkpoint is in place, and the book of it has what the end has.
#![tactic(auto)]

ghost use Rattle.book_laws.specs.Books.{CallsAreByPlace, ContentsHaveTheBook, MovesAreBooked, NewEndsAreBooked, RunsAreBooked, StepsAreBooked};
ghost use Rattle.book_laws.specs.Starts.{StartedRunsAreBooked, StartsAreBooked, StartsBringBack, StartsSendOnly};

/// A book mirrors an end where it has the end's established tunnels, each with its mark, and their established calls, and no others. Each
/// record that a move of a step leaves fits the book that those before it make, and the book after them mirrors the end after the move: of an
/// end whose tables fit, and of a book that mirrors it and whose ceilings are no lower than the ids that the end has drawn. The tables fit after
/// the move too.
pub fn moves_are_booked()
    ensures { MovesAreBooked }
{}

/// An end has a book where the book mirrors it and has the ceilings of its ids. Each record that a step of such an end leaves, the ceilings
/// first and then those of its moves, fits the book that the ones before it make, and the book after them all is that of the end after the
/// step; so it is after a run of steps. What a new end leaves, whatever comes to it and when, has the end's own book.
pub fn steps_are_booked()
    ensures each { StepsAreBooked }
    ensures run { RunsAreBooked }
    ensures new { NewEndsAreBooked }
{
    step_laws::steps_are_chains();
    step_laws::steps_are_no_starts();
}

/// Of a book that fits together, and has none of what calls of the end's role have none of, each record that a start leaves fits the book
/// that the ones before it make, and the book after them all is that of the end which the start leads to; so it is after a run of steps from
/// there on. It is the book that was, without the tunnels whose peer can't recover, without those for whose recovery no id is left, and
/// without their calls; these are told as gone, each once, and no others. Each tunnel of that end is established, and so is each of its calls;
/// its tables are kept, and what the data plane sees of its sessions is so. So over the book of an end that fell each established tunnel is there
/// again whose peer can recover, as far as ids are left, with its peer, ids, window, flags and mark, and with its established calls; and nothing
/// else is. A start tells no cause, drops nothing and hands nothing up.
pub fn starts_are_booked()
    ensures booked { StartsAreBooked }
    ensures run { StartedRunsAreBooked }
    ensures back { StartsBringBack }
    ensures quiet { StartsSendOnly }
{
    steps_are_booked();
}

/// What a book that mirrors an end has under a session's id is the established call at the session's place, where the end's looks are true;
/// and it has nothing there where the session has no place.
pub fn calls_are_by_place()
    ensures { CallsAreByPlace }
{}

/// Records that are in place from an empty checkpoint on, and whose fields fit their bytes, are spelled as contents that make the book
/// which these records make.
pub fn contents_have_the_book()
    ensures { ContentsHaveTheBook }
{
    session_book::records_are_read_again();
}
