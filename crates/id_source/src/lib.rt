//! Numbers for tunnels, sessions and recoveries, each drawn once: a number is drawn only where it is at most a ceiling that
//! was committed before, so that an end which starts again from its ceiling draws none a second time.
#![tactic(auto)]

ghost use Rattle.std.specs.Prelude.{◌≡◌, ◌≤◌, IfOk, IfErr};
ghost use Rattle.id_source.specs.Spaces.{new_space, space_from, draws, after_draw, takes_id, after_id, CountsOn, EachIsDrawnOnce};
ghost use Rattle.id_source.specs.Taking.{TakesAreDraws};

use std::marker::Model;

/// By how much the ceiling of a space is raised.
const STRIDE: u32 = 64;

/// Why no number is drawn. The space is as before.
#[derive(Clone, Copy, Debug, PartialEq, Eq)]
pub enum IdError {
    /// The last number of the space was drawn, which is this one.
    NoIds { drawn: u32 },
    /// The next number is this one, and it is above the ceiling.
    NeedCeiling { next: u32 },
}

/// A space of numbers from 1 to a last one, of which those up to the ceiling may be drawn.
#[derive(Clone, Copy)]
pub struct Ids {
    last: u32,
    ceiling: u32,
    /// The number before the next one.
    before: u32,
}

impl Model for Ids {
    ghost use Rattle.std.specs.Prelude.{ℕ, ◌≤◌, ◌+◌, ◌-◌};
    ghost use Rattle.id_source.specs.Spaces.{Space};

    ghost Value = { Space };

    ghost view = { λ s. record { last = s.last; ceiling = s.ceiling; next = s.before + 1 } };

    ghost inverse = { λ k. record { last = k.last; ceiling = k.ceiling; before = k.next - 1 } };

    ghost invariant = { λ s. (s.before ≤ s.ceiling) × (s.ceiling ≤ s.last) };
}

impl Ids {
    /// A space of which nothing was drawn, with the ceiling 0.
    pub fn new(last: u32) -> Ids
        ensures { result ≡ new_space last }
    {
        Ids {
            last,
            ceiling: 0,
            before: 0,
        }
    }

    /// A space that starts again from its committed ceiling: the next number is the one above it.
    pub fn from_ceiling(last: u32, ceiling: u32) -> Ids
        requires { ceiling ≤ last }
        ensures { result ≡ space_from last ceiling }
    {
        Ids {
            last,
            ceiling,
            before: ceiling,
        }
    }

    /// The next number. It takes no memory.
    #[tactic(auto, unfolding(crate::specs::Spaces::draws))]
    pub fn draw(&mut self) -> Result<u32, IdError>
        ensures answer { result ≡ draws self.old }
        ensures after { self.new ≡ after_draw self.old }
        ensures within { IfOk result (λ id. (1 ≤ id) × (id ≤ self.old.last)) }
    {
        if self.before == self.last {
            return Err(IdError::NoIds { drawn: self.before });
        }
        let next = self.before + 1;
        if self.before == self.ceiling {
            return Err(IdError::NeedCeiling { next });
        }
        self.before = next;
        Ok(next)
    }

    /// The next number. Where it is above the ceiling, the ceiling is raised by 64, at most up to the last number; it is then to be
    /// committed before anybody sees the number. It takes no memory.
    #[tactic(auto, unfolding(crate::specs::Spaces::takes_id))]
    pub fn take(&mut self) -> Result<u32, IdError>
        ensures answer { result ≡ takes_id self.old }
        ensures after { self.new ≡ after_id self.old }
        ensures within { IfOk result (λ id. (1 ≤ id) × (id ≤ self.old.last)) }
    {
        if self.before == self.last {
            return Err(IdError::NoIds { drawn: self.before });
        }
        if self.ceiling == self.before {
            self.ceiling = self.last.min(self.ceiling.saturating_add(STRIDE));
        }
        self.before += 1;
        Ok(self.before)
    }

    /// Raises the ceiling.
    pub fn raise(&mut self, ceiling: u32)
        requires above { self.old.ceiling ≤ ceiling }
        requires within { ceiling ≤ self.old.last }
        ensures { self.new ≡ record self.old { ceiling = ceiling } }
    {
        self.ceiling = ceiling;
    }

    /// The last number of the space.
    pub fn last(&self) -> u32
        ensures number { result ≡ self.now.last }
        ensures above { self.now.ceiling ≤ self.now.last }
    {
        self.last
    }

    /// Up to which number may be drawn.
    pub fn ceiling(&self) -> u32
        ensures { result ≡ self.now.ceiling }
    {
        self.ceiling
    }
}

/// Laws: over every list of draws, raised ceilings and starts from the ceiling no number is drawn twice, as each is above those before
/// it; as long as there is no start, they count on from the next one; and what an end draws is a raise of the ceiling, which stays
/// within the space, and a draw.
pub fn each_number_is_drawn_once()
    ensures once { EachIsDrawnOnce }
    ensures counted { CountsOn }
    ensures taken { TakesAreDraws }
{}
