//! What is spelled and read, and what a crash in a commit or in a compaction leaves, as laws over the format.

ghost use Rattle.checkpoint_journal.specs.Laws.{SpellingOpens, CommitSpellsOneMore, CutIsBeforeOrAfter, CutIsBefore, CutIsAfter, CompactionIsOldOrNew, CompactionIsOld, CompactionIsNew};

/// Opening reads the contents that a journal spells, whatever stands behind its last gate.
pub fn what_is_spelled_is_read()
    ensures { SpellingOpens }
{}

/// The four calls of a commit to a journal that is spelled spell one with the content last.
pub fn a_commit_spells_one_more()
    ensures { CommitSpellsOneMore }
{}

/// After any number of the four calls of a commit, each image that a crash may leave opens with the contents from before or
/// with these and the new one last: until the gate is written with those from before, and after the last call with the new
/// one.
pub fn a_crash_leaves_whole_commits()
    ensures either { CutIsBeforeOrAfter }
    ensures before { CutIsBefore }
    ensures after { CutIsAfter }
{}

/// After any number of the four calls of a compaction, each image that a crash may leave opens with the contents from before
/// or with those that the journal is compacted to: until the selector is written with those from before, and after the last
/// call with the others.
pub fn a_crash_leaves_one_list()
    ensures either { CompactionIsOldOrNew }
    ensures old { CompactionIsOld }
    ensures fresh { CompactionIsNew }
{}
