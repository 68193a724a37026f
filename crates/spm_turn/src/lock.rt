//! The lock.
ghost use Rattle.std.specs.Prelude.{◌≡◌, ℕ, ◌<◌, ◌≤◌, true, false, List, [], ◌∷◌, ◌++◌, length, max, IfOk, IsSomeAnd, Some, None};
ghost use Rattle.spm_turn.specs.Log.{has, below, without, longer, of_numbers, AddsAtMostOne, AreMarkedBelow, OthersFollow};

use crate::NoMemory;
use crate::chronicle::Chronicle;
use crate::rule::{Founding, Steps};
use crate::seat::Seat;
use crate::steps::shut;
use crate::turn::Turn;
use crate::view::View;
use atomic_table::Table;
use std::alloc::Global;
use std::marker::{Brand, Model};
use std::sync::Wait;

// The lock's table.
pub(crate) type Board<T> = Table<
    Option<T>,
    View<<T as Chronicle>::Entry, <T as Chronicle>::Terms>,
    Founding<T>,
    Steps<T>,
    Global,
>;

/// A state whose callers take turns. Contracts see which lock it is, and how many numbers its seats have (`Locking` of
/// `specs/Sitting.antt`).
///
/// Each call on it has the condition that the seats which it is given are of this lock. `new`, `split` and `meet` make such seats.
#[derive(Drop)]
pub struct TurnLock<T: Chronicle + Send + Drop> {
    pub(crate) table: Board<T>,
}

impl<T: Chronicle + Send + Drop> Model for TurnLock<T> {
    ghost use Rattle.std.specs.Prelude.{◌≡◌};
    ghost use Rattle.spm_turn.specs.Sitting.{Locking, locking_code};

    ghost Value = { Locking };

    ghost coded = { locking_code };

    ghost view = { λ l. record { id = l.table.shared.table_id; numbers = l.table.shared.key.numbers } };

    ghost invariant = { λ l. (l.table.shared.table_id.words ≡ 3) × (l.table.shared.table_id.slots ≡ 1) };
}

impl<T: Chronicle + Send + Drop> TurnLock<T> {
    /// A lock round a state without history, and a seat that has all numbers below `numbers`. For want of memory the state is dropped.
    pub fn new(alloc: Global, state: T, numbers: u32) -> Result<(TurnLock<T>, Seat<T>), NoMemory>
        requires fresh { T.history state ≡ [] }
        requires some { 0 < numbers }
        ensures lock { IfOk result (λ r. r.0.numbers ≡ numbers) }
        ensures seat { IfOk result (λ r. r.1
            ≡ record { of = r.0.id; terms = T.terms state; seen = []; numbers = below numbers; told = 0; base = None }) }
    {
        let founding = Founding { numbers, state };
        let (table, mut place) = Table::vacant(alloc, &[1, 0, 0], 1, &founding)?;
        let Founding { numbers: _, state } = founding;
        let lock = TurnLock { table };
        lock.open(&mut place, state);
        Ok((lock, Seat { place, count: 0 }))
    }

    /// Draws a ticket, waits for its turn, and takes the state. The seat has to give it back before it does anything else. Where no
    /// ticket is left below the greatest `u64`, it goes on waiting.
    pub fn take<R: Wait>(&self, rt: &R, seat: &mut Seat<T>) -> Turn<T>
        requires own { (seat.old.of ≡ self.now.id) × (seat.old.base ≡ None) }
        ensures seat { seat.new ≡ record seat.old { base = Some (T.history result) } }
        ensures others { OthersFollow T.by seat.old.numbers seat.old.seen (T.history result) }
        ensures told { seat.old.told ≤ length (T.history result) }
        ensures terms { T.terms result ≡ seat.old.terms }
        ensures marked { AreMarkedBelow T.by self.now.numbers (T.history result) }
    {
        let ticket = self.draw(rt, &mut seat.place);
        let state = self.await_turn::<Brand, R>(rt, &mut seat.place, ticket);
        seat.count = state.entries();
        Turn { state }
    }

    /// Gives the turn back. Since it was taken, the state got one entry at most, and that carries one of the seat's numbers.
    pub fn give(&self, seat: &mut Seat<T>, turn: Turn<T>)
        requires own { seat.old.of ≡ self.now.id }
        requires turn { IsSomeAnd seat.old.base (λ base. AddsAtMostOne T.by seat.old.numbers base (T.history turn)) }
        requires terms { T.terms turn ≡ seat.old.terms }
        ensures { seat.new ≡ record seat.old { seen = T.history turn; base = None } }
    {
        let Turn { state } = turn;
        let count = state.entries();
        self.finish(&mut seat.place, state, count > seat.count);
        seat.count = count;
    }

    /// Waits until the history is longer than what the seat has seen. What it has seen stays.
    pub fn rest<R: Wait>(&self, rt: &R, seat: &mut Seat<T>)
        requires own { (seat.old.of ≡ self.now.id) × (seat.old.base ≡ None) }
        ensures seat { seat.new ≡ record seat.old { told = seat.new.told } }
        ensures told { (seat.old.told ≤ seat.new.told) × (length seat.old.seen < seat.new.told) }
    {
        self.watch(rt, &mut seat.place, seat.count);
    }

    /// A seat of its own for one of the seat's numbers. The seat keeps its other numbers, of which there is one at least. Takes no
    /// memory.
    pub fn split(&self, seat: &mut Seat<T>, number: u32) -> Seat<T>
        requires own { (seat.old.of ≡ self.now.id) × (seat.old.base ≡ None) }
        requires number { has seat.old.numbers number ≡ true }
        requires another { 0 < length (without number seat.old.numbers) }
        ensures kept { seat.new ≡ record seat.old { numbers = without number seat.old.numbers } }
        ensures given { result ≡ record seat.old { numbers = number ∷ [] } }
    {
        let place = self.cut::<Brand>(&mut seat.place, number);
        let count = seat.count;
        Seat { place, count }
    }

    /// One seat of two, with the numbers of both. What it has seen is the longer of what the two had seen, and the other is a beginning
    /// of that. Takes no memory.
    pub fn meet(&self, first: Seat<T>, second: Seat<T>) -> Seat<T>
        requires own { (first.of ≡ self.now.id) × (second.of ≡ self.now.id) × (first.base ≡ None) × (second.base ≡ None) }
        ensures seat { (result.of ≡ self.now.id) × (result.numbers ≡ first.numbers ++ second.numbers)
            × (result.told ≡ max first.told second.told) × (result.base ≡ None) }
        ensures terms { (result.terms ≡ first.terms) × (result.terms ≡ second.terms) }
        ensures longer { result.seen ≡ longer first.seen second.seen }
        ensures first { OthersFollow T.by first.numbers first.seen result.seen }
        ensures second { OthersFollow T.by second.numbers second.seen result.seen }
        ensures apart { (n : ℕ) → has first.numbers n ≡ true → has second.numbers n ≡ false }
    {
        let Seat {
            mut place,
            count: one,
        } = first;
        let Seat {
            place: other,
            count: two,
        } = second;
        self.join(&mut place, other);
        let count = if one < two { two } else { one };
        Seat { place, count }
    }

    /// The state, for the seat that has all numbers. What that seat has seen is its history, and all entries are its own.
    pub fn close(self, seat: Seat<T>) -> T
        requires own { (seat.of ≡ self.id) × (seat.base ≡ None) }
        requires all { (n : ℕ) → n < self.numbers → has seat.numbers n ≡ true }
        ensures history { T.history result ≡ seat.seen }
        ensures terms { T.terms result ≡ seat.terms }
        ensures own { of_numbers T.by seat.numbers seat.seen ≡ seat.seen }
    {
        let TurnLock { table } = self;
        let Seat { place, count: _ } = seat;
        shut(table, place)
    }
}
