// What each atomic step tells the seat that makes it.
ghost use Rattle.turn_lock.specs.Steps.{DrewTicket, Looked, Raised};
ghost use Rattle.turn_lock.specs.Views.{issuer_after, issued, joined, spent};

use crate::object::{Named, Object};
use crate::view::View;
use atomic_table::{Join, Play, Split};
use std::marker::PhantomData;

/// A ticket is drawn.
pub(crate) struct Draw;

impl<S, B> Play<S, View<B>> for Draw {
    ghost then = { DrewTicket };
}

/// The number that is served is read. Where it is the seat's ticket, the seat takes the slot.
pub(crate) struct Look<T> {
    object: PhantomData<T>,
}

impl<T: Object> Play<Option<T>, View<T::Base>> for Look<T> {
    ghost then = { Looked T.stands };
}

/// The slot goes home, and the next number is served: the entry that `N` names is made.
pub(crate) struct Raise<N> {
    name: PhantomData<N>,
}

impl<S, B, N: Named> Play<S, View<B>> for Raise<N> {
    ghost then = { Raised N.operation };
}

/// A pass is issued.
pub(crate) struct Issue;

impl<B> Split<View<B>> for Issue {
    ghost left = { issuer_after };

    ghost right = { issued };
}

/// A pass is taken in.
pub(crate) struct TakeIn;

impl<B> Join<View<B>> for TakeIn {
    ghost both = { joined };

    ghost spent = { spent };
}
