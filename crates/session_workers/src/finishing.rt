//! The queue of what is finished, and its rule.

use crate::finished::Finished;
use crate::views::FinishedView;
use crossbeam_queue::RuledArrayQueue;
use crossbeam_queue::protocol::{Join, Lesson, Outcome, Protocol, Split};
use std::marker::{Brand, PhantomData};

/// What is handed over is collected, or waits.
pub struct FinishedRule;

impl Protocol<Finished, FinishedView> for FinishedRule {
    ghost use Rattle.session_workers.specs.Finishing.{IsCounted, first_finished};

    ghost holds = { λ items views. IsCounted items views };

    ghost first = { first_finished };
}

/// The items that are finished and wait to be collected.
pub(crate) type FinishedQueue = RuledArrayQueue<Finished, FinishedView, FinishedRule>;

/// What was made of an item. Each call that makes something picks it.
pub trait Making {
    ghost use Rattle.std.specs.Prelude.{List};
    ghost use Rattle.session_workers.specs.declared.finished.Finished.{Finished};

    ghost made: { List Finished };
}

impl Making for Brand {
    ghost use Rattle.std.specs.Prelude.{[]};

    ghost made = { [] };
}

/// Something was made of an item.
pub struct Made<J: Making> {
    of: PhantomData<J>,
}

impl<J: Making> Split<FinishedView> for Made<J> {
    ghost use Rattle.session_workers.specs.Finishing.{making_finished, spent_finished};

    ghost left = { λ v. making_finished v J.made };

    ghost right = { λ v. spent_finished };
}

/// One part is cut off.
pub struct OnePart;

impl Split<FinishedView> for OnePart {
    ghost use Rattle.session_workers.specs.Finishing.{splitting_finished, one_finished};

    ghost left = { splitting_finished };

    ghost right = { one_finished };
}

/// A pass comes back.
impl Join<FinishedView> for OnePart {
    ghost use Rattle.session_workers.specs.Finishing.{joined_finished, spent_finished};

    ghost both = { joined_finished };

    ghost spent = { spent_finished };
}

/// An item is handed over.
pub struct Gives;

impl Outcome<Finished, FinishedView> for Gives {
    ghost use Rattle.session_workers.specs.Finishing.{GivesOne};

    ghost then = { GivesOne };
}

impl Lesson<Finished, FinishedView> for Gives {
    ghost use Rattle.session_workers.specs.Finishing.{Evens};

    ghost fact = { Evens };
}

/// An item is collected.
pub struct Gets;

impl Outcome<Finished, FinishedView> for Gets {
    ghost use Rattle.session_workers.specs.Finishing.{GetsOne};

    ghost then = { GetsOne };
}

impl Lesson<Finished, FinishedView> for Gets {
    ghost use Rattle.session_workers.specs.Finishing.{Evens};

    ghost fact = { Evens };
}
