// Sets of choices.
ghost use Rattle.std.specs.Prelude.{◌≡◌, IfOk};

use pub_set::{Choices, NoMemory, Run};
use std::alloc::Global;
use std::process::Abort;

const SIZE: u32 = 5;

// The set of the choices, or the one without choices where some choice is not below the size.
pub(crate) fn made(alloc: Global, size: u32, choices: &[u32]) -> Result<Choices, NoMemory>
    ensures { IfOk result (λ set. set.size ≡ size) }
{
    if choices.iter().all(|choice| *choice < size) {
        Choices::of(alloc, size, choices)
    } else {
        Choices::none(alloc, size)
    }
}

// The set of the bits of a number: 0b10001 has the first choice and the last.
pub(crate) fn set(alloc: Global, size: u32, bits: u32) -> Result<Choices, NoMemory>
    ensures { IfOk result (λ set. set.size ≡ size) }
{
    let mut choices = Vec::new(alloc);
    for choice in 0..size.min(32) {
        if bits >> choice & 1 == 1 {
            choices.push(choice)?;
        }
    }
    made(alloc, size, &choices)
}

// The bits of the set's choices.
fn bits(set: &Choices) -> u32 {
    let mut bits = 0;
    for choice in 0..SIZE {
        if set.has(choice) {
            bits |= 1 << choice;
        }
    }
    bits
}

// Asserts which choices a set of these has.
fn assert_made(rt: &impl Abort, alloc: Global, choices: &[u32], found: u32) {
    let set = made(alloc, SIZE, choices).expect(rt, "memory");
    assert_eq!(rt; bits(&set), found, "of {choices:?}");
}

#[test]
fn sets_are_made_of_choices_in_any_order(rt: HostRuntime) {
    let alloc = rt.alloc();
    assert_made(&rt, alloc, &[0, 1, 2, 3, 4, 0], 0b11111);
    assert_made(&rt, alloc, &[4, 3, 2, 1, 0, 4], 0b11111);
    assert_made(&rt, alloc, &[3, 3, 3, 3, 3, 3], 0b01000);
    assert_made(&rt, alloc, &[0, 4, 4, 0, 0, 4], 0b10001);
    assert_made(&rt, alloc, &[2, 0, 1, 2, 0, 4], 0b10111);
    assert_made(&rt, alloc, &[1, 3, 1, 1, 3, 1], 0b01010);
    assert_made(&rt, alloc, &[], 0);
}

#[test]
fn has_answers_of_any_number(rt: HostRuntime) {
    let ends = made(rt.alloc(), 5, &[0, 4]).expect(&rt, "memory");
    let there = [0, 4].iter().all(|choice| ends.has(*choice));
    let absent = [1, 5, u32::MAX].iter().all(|choice| !ends.has(*choice));
    assert!(rt; there && absent && ends.size() == 5);
}

// Whether what is in both sets and in one of them is right.
fn are_joined(
    alloc: Global,
    first: &Choices,
    second: &Choices,
    both: u32,
    either: u32,
) -> Result<bool, NoMemory>
    requires { first.now.size ≡ second.now.size }
{
    let shared = first.intersect(alloc, second)?;
    let united = first.unite(alloc, second)?;
    Ok(bits(&shared) == both && bits(&united) == either)
}

// Whether the sets of the two numbers' bits are joined and compared as they should.
fn are_right(alloc: Global, x: u32, y: u32) -> Result<bool, NoMemory> {
    let first = set(alloc, SIZE, x)?;
    let second = set(alloc, SIZE, y)?;
    let compared = first.within(&second) == (x & !y == 0)
        && first.meets(&second) == (x & y != 0)
        && (first == second) == (x == y);
    Ok(compared && are_joined(alloc, &first, &second, x & y, x | y)?)
}

#[test]
fn any_two_small_sets_are_joined_and_compared(rt: HostRuntime) {
    let alloc = rt.alloc();
    assert!(rt; (0..1024).all(|pair| are_right(alloc, pair / 32, pair % 32) == Ok(true)));
}

// Whether the set of the number's bits, its copy and its opposite are as they should.
fn is_right(alloc: Global, x: u32) -> Result<bool, NoMemory> {
    let set = set(alloc, SIZE, x)?;
    let others = bits(&set.opposite(alloc)?);
    let is_copied = set.copy(alloc)? == set;
    Ok(others == x ^ 31 && is_copied && set.is_empty() == (x == 0) && set.is_whole() == (x == 31))
}

#[test]
fn any_small_set_has_an_opposite_and_a_copy(rt: HostRuntime) {
    let alloc = rt.alloc();
    assert!(rt; (0..32).all(|x| is_right(alloc, x) == Ok(true)));
}

// Asserts whether the set without choices has none, and has every choice.
fn assert_none(rt: &impl Abort, alloc: Global, size: u32, whole: bool) {
    let none = Choices::none(alloc, size).expect(rt, "memory");
    assert!(rt; none.is_empty() && none.is_whole() == whole);
}

// Asserts whether the sets of the same choices are equal.
fn assert_equal(rt: &impl Abort, alloc: Global, size: u32, other: u32, equal: bool) {
    let first = made(alloc, size, &[0, 2]).expect(rt, "memory");
    let second = made(alloc, other, &[0, 2]).expect(rt, "memory");
    assert!(rt; (first == second) == equal);
}

#[test]
fn sizes_count(rt: HostRuntime) {
    let alloc = rt.alloc();
    assert_none(&rt, alloc, 0, true);
    assert_none(&rt, alloc, 1, false);
    assert_none(&rt, alloc, u32::MAX, false);
    assert_equal(&rt, alloc, 3, 3, true);
    assert_equal(&rt, alloc, 3, 4, false);
    assert_equal(&rt, alloc, 4, 3, false);
}

// How many choices of a set of this size leave this rest by two.
fn count(set: &Choices, size: u32, rest: u32) -> usize {
    (0..size)
        .filter(|choice| choice % 2 == rest && set.has(*choice))
        .count()
}

// The set of the even numbers below the size.
fn evens(alloc: Global, size: u32) -> Result<Choices, NoMemory>
    ensures { IfOk result (λ set. set.size ≡ size) }
{
    let choices: Vec<u32> = (0..size).filter(|choice| choice % 2 == 0).collect(alloc)?;
    made(alloc, size, &choices)
}

// Whether two sets have nothing in common, and are all of the choices together.
fn are_halves(alloc: Global, evens: &Choices, odds: &Choices) -> Result<bool, NoMemory>
    requires { odds.now.size ≡ evens.now.size }
{
    let is_apart = odds.intersect(alloc, evens)?.is_empty();
    let is_whole = odds.unite(alloc, evens)?.is_whole();
    Ok(is_apart && is_whole && !odds.meets(evens) && odds.opposite(alloc)? == *evens)
}

// The same of the set of the even numbers and its opposite; and how many choices they have.
fn halves(alloc: Global, size: u32) -> Result<(bool, usize, usize), NoMemory> {
    let evens = evens(alloc, size)?;
    let odds = evens.opposite(alloc)?;
    let are = are_halves(alloc, &evens, &odds)?;
    Ok((are, count(&evens, size, 0), count(&odds, size, 1)))
}

#[test]
fn sets_have_thousands_of_choices(rt: HostRuntime) {
    assert_eq!(rt; halves(rt.alloc(), 8193), Ok((true, 4097, 4096)));
}

// Whether the opposite of a choice has these runs.
fn has_runs(alloc: Global, size: u32, choice: u32, runs: &[Run]) -> Result<bool, NoMemory> {
    let opposite = made(alloc, size, &[choice])?.opposite(alloc)?;
    Ok(opposite.runs() == runs)
}

#[test]
fn an_opposite_has_a_run_on_each_side(rt: HostRuntime) {
    let (first, last) = (2, 4096);
    let runs = [Run { first: 0, last: 0 }, Run { first, last }];
    assert_eq!(rt; has_runs(rt.alloc(), 4097, 1, &runs), Ok(true));
}

#[test]
fn choices_are_listed(rt: HostRuntime) {
    let set = made(rt.alloc(), 5, &[4, 0, 3]).expect(&rt, "memory");
    let choices = set.to_vec(rt.alloc()).expect(&rt, "memory");
    assert!(rt; choices.as_slice() == [0, 3, 4].as_slice());
}

#[test]
fn want_of_memory_is_printed(rt: HostRuntime) {
    let printed = NoMemory.to_string(rt.alloc()).expect(&rt, "memory");
    assert_eq!(rt; printed.as_str(), "memory allocation failed");
}
