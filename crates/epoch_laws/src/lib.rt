//! The epochs of both ends of a link, in every run of the machine.
#![tactic(auto)]

ghost use Rattle.epoch_laws.specs.Epochs.{EpochsOfRuns};
ghost use Rattle.epoch_laws.specs.Answers.{AnswersOfRuns};
ghost use Rattle.epoch_laws.specs.Numbers.{NumbersOfRuns};

/// After every list of moves: the epochs that a tunnel enters rise; of two linked ends the one whose epoch is lower isn't
/// open; and the two resets of a recovery meet in one epoch.
pub fn epochs_rise()
    ensures { EpochsOfRuns }
{}

/// After every list of moves: of the answers of one link's two ends one makes each epoch, and both ends that entered an epoch
/// entered it by that answer.
pub fn each_epoch_has_one_answer()
    ensures { AnswersOfRuns }
{}

/// After every list of moves: both ends of a link that entered an epoch begin with the numbers of one answer, its giver with
/// the one and the other end with the other; an answer keeps its numbers; and in epoch 0 both ends begin with 0.
pub fn both_ends_begin_alike()
    ensures { NumbersOfRuns }
{}
