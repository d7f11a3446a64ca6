//! Births and mates of calls, in every run of the machine.
#![tactic(auto)]

ghost use Rattle.birth_laws.specs.Births.{BirthsOfRuns};

/// After every list of moves: a call is asked for once, its request is answered at most once, by a call of that very birth,
/// and each name of the other end's that a call, a letter, a record or a query holds is that of the mate.
pub fn each_birth_has_one_mate()
    ensures { BirthsOfRuns }
{}
