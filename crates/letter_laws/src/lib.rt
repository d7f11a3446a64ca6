//! Which letter a tunnel takes, in every run of the machine.
#![tactic(auto)]

ghost use Rattle.letter_laws.specs.Letters.{LettersOfRuns};

/// After every list of moves: a letter that a tunnel takes is the next one of the learned tunnel's list in the taker's
/// epoch, or a StopCCN that closes an opener in epoch 0; and a letter of a newer epoch reaches only a tunnel that isn't
/// active: neither open nor on the way there.
pub fn letters_are_next()
    ensures { LettersOfRuns }
{}
