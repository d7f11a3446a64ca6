//! The queue of items, and its rule.

use crate::item::Numbered;
use crate::views::{ItemView, RowName};
use crossbeam_queue::RuledArrayQueue;
use crossbeam_queue::protocol::{Join, Lesson, Outcome, Protocol, Split};
use std::marker::{Brand, PhantomData};

/// Each item has its number, and no number is taken twice.
pub struct ItemRule;

impl Protocol<Numbered, ItemView> for ItemRule {
    ghost use Rattle.session_workers.specs.Items.{IsKept, first_view};

    ghost holds = { λ items views. IsKept items views };

    ghost first = { first_view };
}

/// The items that wait for a worker.
pub(crate) type ItemQueue = RuledArrayQueue<Numbered, ItemView, ItemRule>;

/// Which row of cells the items are of. Each call that opens the queues picks it.
pub trait Naming {
    ghost use Rattle.session_workers.specs.declared.views.RowName.{RowName};

    ghost name: { RowName };
}

impl Naming for Brand {
    ghost name = { record { number = 0; log_name = 0; cells_name = 0 } };
}

/// The opener learns of which row the items are to be.
pub struct Named<J: Naming> {
    of: PhantomData<J>,
}

impl<J: Naming> Split<ItemView> for Named<J> {
    ghost use Rattle.session_workers.specs.Items.{named_view, spent_view};

    ghost left = { λ v. named_view v J.name };

    ghost right = { λ v. spent_view };
}

/// Another worker's pass is made.
pub struct Worker;

impl Split<ItemView> for Worker {
    ghost use Rattle.session_workers.specs.Items.{splitting_view, worker_view};

    ghost left = { splitting_view };

    ghost right = { worker_view };
}

/// A worker's pass comes back.
impl Join<ItemView> for Worker {
    ghost use Rattle.session_workers.specs.Items.{joined_view, spent_view};

    ghost both = { joined_view };

    ghost spent = { spent_view };
}

/// What a pass took, it took once.
impl Lesson<Numbered, ItemView> for Worker {
    ghost use Rattle.session_workers.specs.Items.{TookOnce};

    ghost fact = { TookOnce };
}

/// An item is put.
pub struct Puts;

impl Outcome<Numbered, ItemView> for Puts {
    ghost use Rattle.session_workers.specs.Items.{PutsOne};

    ghost then = { PutsOne };
}

impl Lesson<Numbered, ItemView> for Puts {
    ghost use Rattle.session_workers.specs.Items.{Tells};

    ghost fact = { Tells };
}

/// An item is taken.
pub struct Takes;

impl Outcome<Numbered, ItemView> for Takes {
    ghost use Rattle.session_workers.specs.Items.{TakesOne};

    ghost then = { TakesOne };
}

impl Lesson<Numbered, ItemView> for Takes {
    ghost use Rattle.session_workers.specs.Items.{Tells};

    ghost fact = { Tells };
}
