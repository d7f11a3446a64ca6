//! The generator of numbers.

ghost use Rattle.std.specs.Prelude.{◌≡◌, ◌<◌};
ghost use Rattle.schedule_making.specs.Drawing.{next_state, drawn};

use std::marker::Model;

const MULTIPLIER: u64 = 6_364_136_223_846_793_005;

const INCREMENT: u64 = 1_442_695_040_888_963_407;

/// A linear congruential generator of 64 bits. It gives the same numbers again for the same seed, and isn't meant to keep a secret.
#[derive(Drop)]
pub(crate) struct Draws {
    state: u64,
}

impl Model for Draws {
    ghost use Rattle.std.specs.Prelude.{ℕ};

    ghost Value = { ℕ };

    ghost view = { λ d. d.state };
}

impl Draws {
    pub(crate) fn new(seed: u64) -> Draws
        ensures { result ≡ seed }
    {
        Draws { state: seed }
    }

    /// Goes on to the next state, and gives it.
    #[tactic(auto, using(crate::proofs::States::next_is))]
    fn advance(&mut self) -> u64
        ensures gives { result ≡ next_state self.old }
        ensures state { self.new ≡ next_state self.old }
    {
        self.state = self.state.wrapping_mul(MULTIPLIER).wrapping_add(INCREMENT);
        self.state
    }

    /// A number below a bound, from the upper bits, which are the better ones.
    #[tactic(auto, using(std::proofs::lemmas::Nat::mod_below))]
    pub(crate) fn below(&mut self, bound: u64) -> u64
        requires { 0 < bound }
        ensures drawn { result ≡ drawn bound self.old }
        ensures state { self.new ≡ next_state self.old }
        ensures within { result < bound }
    {
        (self.advance() >> 33) % bound
    }
}
