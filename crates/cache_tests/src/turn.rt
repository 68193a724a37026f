//! The turn lock in threads, over a list of numbers.
ghost use Rattle.std.specs.Prelude.{◌≡◌, ℕ, true, [], ◌∷◌, ◌++◌, None, IfOk, OnErr, OnOk};
ghost use Rattle.spm_turn.specs.Log.{has};

use spm_turn::{Chronicle, NoMemory, Seat, TurnLock};
use std::alloc::Global;
use std::sync::Wait;
use std::thread::{Threads, join};

// A number, and who noted it.
#[derive(Debug, Clone, Copy)]
pub struct Note {
    pub by: u32,
    pub value: u64,
}

// The numbers, and a name that stays.
#[derive(Drop)]
pub struct Tally {
    pub name: u32,
    pub notes: Vec<Note>,
}

impl Chronicle for Tally {
    type Entry = Note;

    type Terms = u32;

    ghost history = { λ t. t.notes.items };

    ghost terms = { λ t. t.name };

    ghost blank = { 0 };

    ghost by = { λ e. e.by };

    fn entries(&self) -> u64 {
        self.notes.len() as u64
    }
}

impl Tally {
    fn note(&mut self, by: u32, value: u64) -> Result<(), NoMemory>
        ensures name { self.new.name ≡ self.old.name }
        ensures ok { OnOk result (self.new.notes.items ≡ self.old.notes.items ++ record { by = by; value = value } ∷ []) }
        ensures err { OnErr result (self.new.notes.items ≡ self.old.notes.items) }
    {
        self.notes.push(Note { by, value })?;
        Ok(())
    }
}

// A turn in which a number is noted.
fn add<R: Wait>(
    rt: &R,
    lock: &TurnLock<Tally>,
    seat: &mut Seat<Tally>,
    by: u32,
    value: u64,
) -> Result<(), NoMemory>
    requires own { (seat.old.of ≡ lock.now.id) × (seat.old.base ≡ None) }
    requires number { has seat.old.numbers by ≡ true }
    ensures own { (seat.new.of ≡ lock.now.id) × (seat.new.base ≡ None) × (seat.new.numbers ≡ seat.old.numbers) }
{
    let mut turn = lock.take(rt, seat);
    let added = turn.state().note(by, value);
    lock.give(seat, turn);
    added
}

// A turn in which the notes are counted.
fn counted<R: Wait>(rt: &R, lock: &TurnLock<Tally>, seat: &mut Seat<Tally>) -> u64
    requires own { (seat.old.of ≡ lock.now.id) × (seat.old.base ≡ None) }
{
    let mut turn = lock.take(rt, seat);
    let count = turn.state().entries();
    lock.give(seat, turn);
    count
}

// Notes the numbers below a hundred, and gives the seat back.
fn add_all<R: Wait>(
    rt: &R,
    lock: &TurnLock<Tally>,
    mut seat: Seat<Tally>,
    by: u32,
) -> Result<Seat<Tally>, NoMemory>
    requires own { (seat.of ≡ lock.now.id) × (seat.base ≡ None) × (seat.numbers ≡ by ∷ []) }
    ensures own { IfOk result (λ s. (s.of ≡ lock.now.id) × (s.base ≡ None) × (s.numbers ≡ by ∷ [])) }
{
    for value in 0..100 {
        add(rt, lock, &mut seat, by, value)?;
    }
    Ok(seat)
}

// The state of a lock that has the numbers zero and one.
fn finish(lock: TurnLock<Tally>, first: Seat<Tally>, second: Seat<Tally>) -> Tally
    requires lock { (lock.numbers ≡ 2) × (first.of ≡ lock.id) × (second.of ≡ lock.id) }
    requires idle { (first.base ≡ None) × (second.base ≡ None) }
    requires numbers { (first.numbers ≡ 0 ∷ []) × (second.numbers ≡ 1 ∷ []) }
{
    let seat = lock.meet(first, second);
    lock.close(seat)
}

// Two threads note the numbers below a hundred each.
fn two_threads<R: Threads + Wait + Sync>(rt: &R, alloc: Global) -> Result<Tally, NoMemory> {
    let notes = Vec::new(alloc);
    let (lock, mut seat) = TurnLock::new(alloc, Tally { name: 7, notes }, 2)?;
    let other = lock.split(&mut seat, 1);
    let shared = &lock;
    let (first, second) = join(
        rt,
        move || -> Result<Seat<Tally>, NoMemory>
            requires { (seat.of ≡ shared.now.id) × (seat.base ≡ None) × (seat.numbers ≡ 0 ∷ []) }
            ensures { IfOk result (λ s. (s.of ≡ shared.entry.now.id) × (s.base ≡ None) × (s.numbers ≡ 0 ∷ [])) }
        { add_all(rt, shared, seat, 0) },
        move || -> Result<Seat<Tally>, NoMemory>
            requires { (other.of ≡ shared.now.id) × (other.base ≡ None) × (other.numbers ≡ 1 ∷ []) }
            ensures { IfOk result (λ s. (s.of ≡ shared.entry.now.id) × (s.base ≡ None) × (s.numbers ≡ 1 ∷ [])) }
        { add_all(rt, shared, other, 1) },
    );
    Ok(finish(lock, first?, second?))
}

// How many notes the two made, if each made its own in order.
fn in_order(notes: &[Note]) -> Option<[u64; 2]> {
    let (mut first, mut second) = (0u64, 0u64);
    for note in notes {
        match note.by {
            0 if note.value == first => first = first.saturating_add(1),
            1 if note.value == second => second = second.saturating_add(1),
            _ => return None,
        }
    }
    Some([first, second])
}

#[test]
fn two_threads_note_a_hundred_numbers_each(rt: HostRuntime) {
    let tally = two_threads(&rt, rt.alloc()).expect(&rt, "memory");
    assert_eq!(rt; tally.name, 7);
    assert!(rt; in_order(&tally.notes) == Some([100, 100]));
}

// The seat, once the history is longer than what it has seen.
fn rested<R: Wait>(rt: &R, lock: &TurnLock<Tally>, mut seat: Seat<Tally>) -> Seat<Tally>
    requires own { (seat.of ≡ lock.now.id) × (seat.base ≡ None) }
    ensures own { (result.of ≡ lock.now.id) × (result.base ≡ None) }
    ensures seen { result.seen ≡ seat.seen }
{
    lock.rest(rt, &mut seat);
    seat
}

// A seat that has seen nothing rests until another has noted a number. How many there are then.
fn rests<R: Threads + Wait + Sync>(rt: &R, alloc: Global) -> Result<u64, NoMemory> {
    let notes = Vec::new(alloc);
    let (lock, mut seat) = TurnLock::new(alloc, Tally { name: 7, notes }, 2)?;
    let mut other = lock.split(&mut seat, 1);
    let shared = &lock;
    let (mut seat, added) = join(
        rt,
        move || -> Seat<Tally>
            requires { (seat.of ≡ shared.now.id) × (seat.base ≡ None) }
            ensures { (result.of ≡ shared.entry.now.id) × (result.base ≡ None) }
        { rested(rt, shared, seat) },
        || add(rt, shared, &mut other, 1, 5),
    );
    added?;
    Ok(counted(rt, &lock, &mut seat))
}

#[test]
fn a_seat_rests_until_another_notes_a_number(rt: HostRuntime) {
    assert_eq!(rt; rests(&rt, rt.alloc()).expect(&rt, "memory"), 1);
}
