// The steps on a lock's table, as functions on a seat's place.
ghost use Rattle.std.specs.Prelude.{◌≡◌, ℕ, ◌<◌, ◌≤◌, true, List, [], ◌∷◌, ◌++◌, length, Some, None, MatchBool};
ghost use Rattle.spm_turn.specs.Log.{has, of_numbers, AreMarkedBelow, NoneShared, OthersFollow};
ghost use Rattle.spm_turn.specs.Views.{after_turn, at_stage, base_of, giving, is_served, keeping, met, with_told};
ghost use Rattle.spm_turn.specs.declared.view.Stage.TheVariants.{Counted, Idle, Opening, Served, Waits};

use crate::chronicle::Chronicle;
use crate::lock::{Board, TurnLock};
use crate::plays::{Count, Cut, Draw, Look, Meet, Open, Pass, Picked, Rest, Settle};
use crate::seat::Place;
use std::sync::Wait;

// The words: the next ticket, the ticket that is served, and the length of the history.
const TICKETS: usize = 0;

const SERVING: usize = 1;

const COUNT: usize = 2;

// The state, out of the table that no thread shares any more.
pub(crate) fn shut<T: Chronicle + Drop>(table: Board<T>, place: Place<T>) -> T
    requires own { (place.table_id ≡ table.shared.table_id) × (table.shared.table_id.slots ≡ 1) }
    requires idle { (place.me.0.stage ≡ Idle) × (0 < length place.me.0.numbers) }
    requires all { (n : ℕ) → n < table.shared.key.numbers → has place.me.0.numbers n ≡ true }
    ensures history { T.history result ≡ place.me.0.seen }
    ensures terms { T.terms result ≡ place.me.0.terms }
    ensures own { of_numbers T.by place.me.0.numbers place.me.0.seen ≡ place.me.0.seen }
{
    let mut closed = table.close_with(place);
    let slot = closed.take(0);
    closed.free();
    slot.unwrap()
}

impl<T: Chronicle + Send + Drop> TurnLock<T> {
    // The first seat's turn, in which it puts the state into the slot.
    pub(crate) fn open(&self, place: &mut Place<T>, state: T)
        requires own { place.old.table_id ≡ self.now.id }
        requires opening { (place.old.me.0.stage ≡ Opening) × (place.old.me.1 ≡ []) }
        requires state { (T.history state ≡ []) × (T.terms state ≡ place.old.me.0.terms) }
        ensures same { (place.new.table_id ≡ place.old.table_id) × (place.new.id ≡ place.old.id) }
        ensures me { place.new.me
            ≡ (record { terms = place.old.me.0.terms; seen = []; numbers = place.old.me.0.numbers; told = place.old.me.0.told; stage = Idle }, []) }
    {
        self.table.shared.load::<Open>(place, SERVING);
        self.table.shared.exchange(place, 0, Some(state));
        self.pass_on(place);
    }

    // Draws the next ticket. Where none is left it waits for ever.
    pub(crate) fn draw<R: Wait>(&self, rt: &R, place: &mut Place<T>) -> u64
        requires own { place.old.table_id ≡ self.now.id }
        requires idle { (place.old.me.0.stage ≡ Idle) × (0 < length place.old.me.0.numbers) }
        ensures same { (place.new.table_id ≡ place.old.table_id) × (place.new.id ≡ place.old.id) }
        ensures me { place.new.me ≡ (at_stage place.old.me.0 (Waits result), place.old.me.1) }
    {
        let shared = &self.table.shared;
        for _ in rt.forever() {
            let next = shared.peek(TICKETS);
            if next < u64::MAX {
                let found = shared.compare_exchange::<Draw>(place, TICKETS, next, next + 1);
                if found == next {
                    return next;
                }
            }
        }
        unreachable!()
    }

    // Waits until the ticket is served, and takes the state out of the slot.
    pub(crate) fn await_turn<N: Picked, R: Wait>(
        &self,
        rt: &R,
        place: &mut Place<T>,
        ticket: u64,
    ) -> T
        requires own { place.old.table_id ≡ self.now.id }
        requires number { N.number ≡ self.now.numbers }
        requires waits { (place.old.me.0.stage ≡ Waits ticket) × (place.old.me.1 ≡ []) }
        ensures same { (place.new.table_id ≡ place.old.table_id) × (place.new.id ≡ place.old.id) }
        ensures me { place.new.me ≡ (at_stage place.old.me.0 (Served ticket (T.history result)), (0, None) ∷ []) }
        ensures others { OthersFollow T.by place.old.me.0.numbers place.old.me.0.seen (T.history result) }
        ensures told { place.old.me.0.told ≤ length (T.history result) }
        ensures terms { T.terms result ≡ place.old.me.0.terms }
        ensures marked { AreMarkedBelow T.by N.number (T.history result) }
    {
        let shared = &self.table.shared;
        for _ in rt.forever() {
            let serving = shared.load::<Look<T, N>>(place, SERVING);
            if serving == ticket {
                let held = shared.exchange(place, 0, None);
                return held.unwrap();
            }
            shared.park(rt, SERVING, (serving & 0xffff_ffff) as u32);
        }
        unreachable!()
    }

    // Counts the entry of the state that is back in the seat's slot.
    pub(crate) fn count(&self, place: &mut Place<T>)
        requires own { place.old.table_id ≡ self.now.id }
        requires grown { (t : ℕ) × (base : List T.Entry) × (state : T) × (e : T.Entry) × (place.old.me.0.stage ≡ Served t base)
            × (place.old.me.1 ≡ (0, Some state) ∷ []) × (T.history state ≡ base ++ e ∷ []) × (has place.old.me.0.numbers (T.by e) ≡ true) }
        ensures same { (place.new.table_id ≡ place.old.table_id) × (place.new.id ≡ place.old.id) }
        ensures me { (t : ℕ) (base : List T.Entry) (state : T) → place.old.me.0.stage ≡ Served t base
            → place.old.me.1 ≡ (0, Some state) ∷ []
            → place.new.me ≡ (at_stage place.old.me.0 (Counted t (T.history state)), place.old.me.1) }
    {
        self.table.shared.fetch_add::<Count<T>>(place, COUNT, 1);
        self.table.shared.wake_all(COUNT);
    }

    // Gives the slot back, and serves the next ticket.
    pub(crate) fn pass_on(&self, place: &mut Place<T>)
        requires own { place.old.table_id ≡ self.now.id }
        requires full { (state : T) × (is_served place.old.me.0.stage ≡ true) × (base_of place.old.me.0.stage ≡ T.history state)
            × (place.old.me.1 ≡ (0, Some state) ∷ []) × (T.terms state ≡ place.old.me.0.terms) }
        ensures same { (place.new.table_id ≡ place.old.table_id) × (place.new.id ≡ place.old.id) }
        ensures me { place.new.me ≡ (after_turn place.old.me.0, []) }
    {
        self.table.shared.fetch_add::<Pass>(place, SERVING, 1);
        self.table.shared.wake_all(SERVING);
    }

    // Puts the state back, counts its entry if there is one, and passes the turn on.
    pub(crate) fn finish(&self, place: &mut Place<T>, state: T, grew: bool)
        requires own { place.old.table_id ≡ self.now.id }
        requires turn { (t : ℕ) × (base : List T.Entry) × (place.old.me.0.stage ≡ Served t base) × (place.old.me.1 ≡ (0, None) ∷ [])
            × MatchBool grew ((e : T.Entry) × (T.history state ≡ base ++ e ∷ []) × (has place.old.me.0.numbers (T.by e) ≡ true))
            (T.history state ≡ base) }
        requires terms { T.terms state ≡ place.old.me.0.terms }
        ensures same { (place.new.table_id ≡ place.old.table_id) × (place.new.id ≡ place.old.id) }
        ensures me { place.new.me
            ≡ (record { terms = place.old.me.0.terms; seen = T.history state; numbers = place.old.me.0.numbers; told = place.old.me.0.told; stage = Idle }, []) }
    {
        self.table.shared.exchange(place, 0, Some(state));
        if grew {
            self.count(place);
        }
        self.pass_on(place);
    }

    // Waits until the history is longer than `count`.
    pub(crate) fn watch<R: Wait>(&self, rt: &R, place: &mut Place<T>, count: u64)
        requires own { place.old.table_id ≡ self.now.id }
        requires idle { place.old.me.0.stage ≡ Idle }
        ensures same { (place.new.table_id ≡ place.old.table_id) × (place.new.id ≡ place.old.id) }
        ensures me { (n : ℕ) × (place.new.me ≡ (with_told place.old.me.0 n, place.old.me.1)) × (place.old.me.0.told ≤ n) × (count < n) }
    {
        let shared = &self.table.shared;
        for _ in rt.forever() {
            let found = shared.load::<Rest>(place, COUNT);
            if found > count {
                return;
            }
            shared.park(rt, COUNT, (found & 0xffff_ffff) as u32);
        }
        unreachable!()
    }

    // A place of its own for one of the numbers.
    pub(crate) fn cut<N: Picked>(&self, place: &mut Place<T>, number: u32) -> Place<T>
        requires own { place.old.table_id ≡ self.now.id }
        requires idle { place.old.me.0.stage ≡ Idle }
        requires number { (number ≡ N.number) × (has place.old.me.0.numbers number ≡ true) }
        ensures kept { (place.new.table_id ≡ place.old.table_id) × (place.new.me ≡ (keeping number place.old.me.0, place.old.me.1)) }
        ensures given { (result.table_id ≡ place.old.table_id) × (result.me ≡ (giving number place.old.me.0, [])) }
    {
        self.table.shared.split_seat::<Cut<N>>(place)
    }

    // One place of two.
    pub(crate) fn join(&self, place: &mut Place<T>, other: Place<T>)
        requires own { (place.old.table_id ≡ self.now.id) × (other.table_id ≡ self.now.id) }
        requires idle { (place.old.me.0.stage ≡ Idle) × (other.me.0.stage ≡ Idle) × (other.me.1 ≡ []) }
        requires numbered { (0 < length place.old.me.0.numbers) × (0 < length other.me.0.numbers) }
        ensures same { place.new.table_id ≡ place.old.table_id }
        ensures me { place.new.me ≡ (at_stage (met place.old.me.0 other.me.0) Idle, place.old.me.1) }
        ensures first { OthersFollow T.by place.old.me.0.numbers place.old.me.0.seen place.new.me.0.seen }
        ensures second { OthersFollow T.by other.me.0.numbers other.me.0.seen place.new.me.0.seen }
        ensures apart { NoneShared place.old.me.0.numbers other.me.0.numbers }
        ensures terms { place.old.me.0.terms ≡ other.me.0.terms }
    {
        self.table.shared.join_seat::<Meet<T>>(place, other);
        self.table.shared.load::<Settle<T>>(place, TICKETS);
    }
}
