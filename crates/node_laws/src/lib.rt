//! What holds of each node by itself, over every list of lines: of those in which nodes crash, stop inside a commit and start again, too.
#![tactic(auto)]

ghost use Rattle.node_laws.specs.Nodes.{EndsOfRuns, IdsOfRuns, NodesOfRuns, RecordsOfRuns, RestartsOfRuns};

/// After every list of lines of the grammar, the book of a node that is up is that of its end's tables, and the other way round: it has the
/// established tunnels, each with its mark, and calls and no others, and the ceilings of the end's ids. So it is after a start, too, in which
/// those tunnels came back whose peer can recover. A node that is down is an end without tunnels, which draws above the ceilings of its book.
/// The tables of each end are kept, and what the data plane sees of its sessions is so.
pub fn books_are_of_ends()
    ensures nodes { NodesOfRuns }
    ensures ends { EndsOfRuns }
{
    step_laws::steps_are_chains();
    step_laws::looks_are_true();
    book_laws::steps_are_booked();
    book_laws::starts_are_booked();
}

/// After every list of lines of the grammar, each record of each step of a node that is up is in place in its checkpoint, and so is each of a
/// start of one that is down: none is left out, and the book is the one that all of them make. After a start it is that of the end that the
/// start leads to: the book that was, without the tunnels whose peer can't recover or for whose recovery no id is left, and their calls.
pub fn records_are_in_place()
    ensures { RecordsOfRuns }
{
    books_are_of_ends();
    book_laws::steps_are_booked();
    book_laws::starts_are_booked();
}

/// After every list of lines of the grammar, where a node that is up falls and starts again, each of its established tunnels is established
/// again whose peer can recover, as far as ids are left for the recovery: with its peer, both ids, the peer's window, the flags and the mark, and
/// with its established calls. No other tunnel and no other call is there.
pub fn tunnels_outlive_crashes()
    ensures { RestartsOfRuns }
{
    books_are_of_ends();
    book_laws::starts_are_booked();
}

/// After every list of lines of the grammar, no tunnel id, no session id and no draw number was drawn above the ceiling that is committed for
/// it, and a node that is down draws above it from then on, as its start does for the attempts at recoveries. So none is drawn a second time
/// over crashes, as a ceiling never falls.
pub fn ids_are_above_ceilings()
    ensures { IdsOfRuns }
{
    books_are_of_ends();
}
