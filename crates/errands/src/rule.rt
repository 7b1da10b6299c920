// What the two seats of the table know, the rule of the table, and what each atomic step tells. No value of a view is made.

use crate::errand::Errand;
use atomic_table::{Play, Split, TableRule};
use std::marker::PhantomData;

/// What a seat does.
pub enum Role {
    /// The first seat of a new table.
    Fresh,
    /// It took the empty slot, and makes the worker.
    Opened,
    /// It has the slot, and handed over nothing.
    Idle,
    /// It handed something over.
    Away,
    /// It said that nothing more comes.
    Over,
    /// The worker waits.
    Waits,
    /// The worker has what was handed over.
    Busy,
    /// The worker was told that nothing more comes.
    Told,
}

/// What a seat knows: what it does, and what was handed over.
pub struct View<T> {
    pub role: Role,
    pub sent: Option<T>,
}

/// The rule.
pub struct Handing<T> {
    errand: PhantomData<T>,
}

impl<T: Errand> TableRule<Option<T>, View<T>, ()> for Handing<T> {
    ghost use Rattle.errands.specs.Rule.{Kept, fresh};

    ghost holds = { λ _. Kept T.ready T.served };

    ghost first = { λ _. fresh };
}

/// The empty slot is taken.
pub struct Opens;

impl<T> Play<Option<T>, View<T>> for Opens {
    ghost use Rattle.errands.specs.Rule.{HasOpened};

    ghost then = { HasOpened };
}

/// The worker is made.
pub struct Hires;

impl<T> Split<View<T>> for Hires {
    ghost use Rattle.errands.specs.Rule.{idle, waits};

    ghost left = { λ _. idle };

    ghost right = { λ _. waits };
}

/// Something is handed over.
pub struct Gives;

impl<T> Play<Option<T>, View<T>> for Gives {
    ghost use Rattle.errands.specs.Rule.{HasGiven};

    ghost then = { HasGiven };
}

/// The one that handed over looks.
pub struct Asks<T> {
    errand: PhantomData<T>,
}

impl<T: Errand> Play<Option<T>, View<T>> for Asks<T> {
    ghost use Rattle.errands.specs.Rule.{HasAsked};

    ghost then = { HasAsked T.served };
}

/// The worker looks.
pub struct Looks<T> {
    errand: PhantomData<T>,
}

impl<T: Errand> Play<Option<T>, View<T>> for Looks<T> {
    ghost use Rattle.errands.specs.Rule.{HasLooked};

    ghost then = { HasLooked T.ready };
}

/// The worker leaves what is served.
pub struct Leaves;

impl<T> Play<Option<T>, View<T>> for Leaves {
    ghost use Rattle.errands.specs.Rule.{HasLeft};

    ghost then = { HasLeft };
}

/// Nothing more comes.
pub struct Ends;

impl<T> Play<Option<T>, View<T>> for Ends {
    ghost use Rattle.errands.specs.Rule.{HasEnded};

    ghost then = { HasEnded };
}
