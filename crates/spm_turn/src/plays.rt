// What each step on the table tells the seat that makes it.
ghost use Rattle.std.specs.Prelude.{ℕ};

use crate::chronicle::Chronicle;
use crate::view::View;
use atomic_table::{Join, Play, Split};
use std::marker::{Brand, PhantomData};

// A number that a call picks for its proof: what a split gives away, or how many numbers the lock has.
pub trait Picked {
    ghost number: { ℕ };
}

impl Picked for Brand {
    ghost number = { 0 };
}

// The first seat takes the empty slot.
pub struct Open;

impl<T, E, C> Play<Option<T>, View<E, C>> for Open {
    ghost use Rattle.spm_turn.specs.Told.{opened};

    ghost then = { opened };
}

// A seat draws the next ticket.
pub struct Draw;

impl<S, E, C> Play<S, View<E, C>> for Draw {
    ghost use Rattle.spm_turn.specs.Told.{drawn};

    ghost then = { drawn };
}

// A seat looks which ticket is served, and takes the slot with the state where it is its own.
pub struct Look<T, N> {
    state: PhantomData<T>,
    numbers: PhantomData<N>,
}

impl<T: Chronicle, N: Picked> Play<Option<T>, View<T::Entry, T::Terms>> for Look<T, N> {
    ghost use Rattle.spm_turn.specs.Told.{looked};

    ghost then = { looked T.history T.terms T.by N.number };
}

// A seat counts its entry.
pub struct Count<T> {
    state: PhantomData<T>,
}

impl<T: Chronicle> Play<Option<T>, View<T::Entry, T::Terms>> for Count<T> {
    ghost use Rattle.spm_turn.specs.Told.{counted};

    ghost then = { counted T.history };
}

// A seat gives the slot back, and serves the next ticket.
pub struct Pass;

impl<S, E, C> Play<S, View<E, C>> for Pass {
    ghost use Rattle.spm_turn.specs.Told.{passed};

    ghost then = { passed };
}

// A seat reads how long the log is.
pub struct Rest;

impl<S, E, C> Play<S, View<E, C>> for Rest {
    ghost use Rattle.spm_turn.specs.Told.{rested};

    ghost then = { rested };
}

// A seat that was just met learns how what it has now follows from what the two had.
pub struct Settle<T> {
    state: PhantomData<T>,
}

impl<T: Chronicle> Play<Option<T>, View<T::Entry, T::Terms>> for Settle<T> {
    ghost use Rattle.spm_turn.specs.Told.{settled};

    ghost then = { settled T.by };
}

// A seat gives one of its numbers to a new seat.
pub struct Cut<N> {
    given: PhantomData<N>,
}

impl<E, C, N: Picked> Split<View<E, C>> for Cut<N> {
    ghost use Rattle.spm_turn.specs.Views.{keeping, giving};

    ghost left = { keeping N.number };

    ghost right = { giving N.number };
}

// A seat takes in what another knows and has.
pub struct Meet<T> {
    state: PhantomData<T>,
}

impl<T: Chronicle> Join<View<T::Entry, T::Terms>> for Meet<T> {
    ghost use Rattle.spm_turn.specs.Views.{met, spent};

    ghost both = { met };

    ghost spent = { spent T.blank };
}
