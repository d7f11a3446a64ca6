//! That the right moves make a line, and no other.

ghost use Rattle.node_notes.specs.Telling.{QuietMovesMakeNoText, MovesHaveTheirNotes, RecordsHaveTheirNotes};

/// A law: a step by whose moves neither a tunnel nor a call of the end comes up or ends, and no tunnel is restored, frozen or recovered,
/// makes no text, whatever it gives. An opening that is declined, a call that is refused, what a recovery tunnel does beside its reset, and a
/// query of sessions are such moves.
pub fn quiet_moves_make_no_text()
    ensures { QuietMovesMakeNoText }
{}

/// A law: each move that isn't one of those has one line, but for an answer to a query of sessions, which has one for each call that it ends.
pub fn moves_have_their_notes()
    ensures { MovesHaveTheirNotes }
{}

/// A law: each record that the moves of a step leave in the checkpoint of the end, of a tunnel or a call that comes up or goes, is told by a
/// line of its own, in the order of the records. So no tunnel and no call comes into a checkpoint or goes from it without a line. A mark
/// has no line of its own.
pub fn records_have_their_notes()
    ensures { RecordsHaveTheirNotes }
{}
