// The walk of a conflict down the trail.
ghost use Rattle.std.specs.Prelude.{◌≡◌, ◌<◌, [], ◌∷◌, length, reverse, set, All, IfOk, if◌then◌else◌, ◌==◌};
ghost use Rattle.pub_set.specs.Choices.{intersection};
ghost use Rattle.pub_term.specs.Known.{known_at};
ghost use Rattle.pub_trail.specs.Invariant.{IsFormed};
ghost use Rattle.pub_trail.specs.KnownOf.{AreBefore, AreLeft, IsEntry};
ghost use Rattle.pub_trail.specs.Outcome.{IsAsked};
ghost use Rattle.pub_trail.specs.Trail.{previous_level};
ghost use Rattle.pub_trail.specs.Turn.{conflict, is_refutation};
ghost use Rattle.pub_trail.specs.Walk.{ending_of, terms_of};

use crate::left::{Left, narrowed};
use crate::trail::{Assigned, Reason};
use pub_set::Choices;
use pub_term::{Incompat, resolve};
use spm_version::{Items, NoMemory};
use std::alloc::Global;

/// A resolution with the incompatibility of this number, on this node.
#[derive(Debug, Drop)]
pub struct Cited {
    pub number: u64,
    pub node: u32,
}

/// What a conflict comes to: a refutation, or what was learned and the level to go back to.
#[derive(Debug, Drop)]
pub enum Ending {
    Refuted(Incompat, Items<Cited>),
    Learned(Incompat, Items<Cited>, u32),
}

// Whether there is no term, or one on the root alone.
fn is_refutation(incompat: &Incompat) -> bool
    ensures { result ≡ is_refutation incompat.now.terms }
{
    for term in incompat.terms.as_slice() {
        if term.node != 0 {
            return false;
        }
    }
    true
}

// What is left with one assignment more.
fn left_with(
    alloc: Global,
    left: &[Choices],
    satisfier: &Assigned,
) -> Result<Vec<Choices>, NoMemory>
    requires there { satisfier.now.node < length left.now }
    requires size { (known_at left.now satisfier.now.node).size ≡ satisfier.now.choices.size }
    ensures { IfOk result (λ with_it. with_it.items
        ≡ set left.now satisfier.now.node (intersection (known_at left.now satisfier.now.node) satisfier.now.choices)) }
{
    let mut copies = Vec::new(alloc);
    for choices in left {
        copies.push(choices.copy(alloc)?)?;
    }
    let node = satisfier.node as usize;
    let narrow = narrowed(alloc, &left[node], satisfier)?;
    copies[node] = narrow;
    Ok(copies)
}

// What is left for the entry's node without the entry, but with the satisfier.
fn left_without(
    alloc: Global,
    before: &Choices,
    entry: &Assigned,
    satisfier: &Assigned,
) -> Result<Choices, NoMemory>
    requires { entry.now.node ≡ satisfier.now.node → before.now.size ≡ satisfier.now.choices.size }
    ensures { IfOk result (λ choices. choices
        ≡ (if entry.now.node == satisfier.now.node then intersection before.now satisfier.now.choices else before.now)) }
{
    if entry.node == satisfier.node {
        narrowed(alloc, before, satisfier)
    } else {
        before.copy(alloc)
    }
}

// The level of the previous satisfier, among what is before the satisfier.
fn previous_level(
    alloc: Global,
    sizes: &[u32],
    trail: &[Assigned],
    left: &Left,
    satisfier: &Assigned,
    incompat: &Incompat,
) -> Result<u32, NoMemory>
    requires entries { All (λ entry. IsEntry sizes.now entry) trail.now }
    requires left { AreLeft sizes.now (reverse trail.now) left.now.now.items }
    requires before { AreBefore sizes.now trail.now left.now.before.items }
    requires satisfier { IsEntry sizes.now satisfier.now }
    requires formed { IsFormed sizes.now incompat.now.terms }
    ensures { IfOk result (λ level. level ≡ previous_level sizes.now satisfier.now (reverse trail.now) incompat.now.terms) }
{
    let mut with_it = left_with(alloc, &left.now, satisfier)?;
    let mut place = trail.len();
    while place > 0 {
        place -= 1;
        let entry = &trail[place];
        let choices = left_without(alloc, &left.before[place], entry, satisfier)?;
        with_it[entry.node as usize] = choices;
        if !incompat.holds(&with_it) {
            return Ok(entry.level);
        }
    }
    Ok(1)
}

/// What a conflict comes to. The trail has the newest behind the others.
pub fn walk_down(
    alloc: Global,
    sizes: &[u32],
    incompats: &[Incompat],
    trail: &[Assigned],
    left: Left,
    first: &Incompat,
) -> Result<Ending, NoMemory>
    requires entries { All (λ entry. IsEntry sizes.now entry) trail.now }
    requires left { AreLeft sizes.now (reverse trail.now) left.now.items }
    requires before { AreBefore sizes.now trail.now left.before.items }
    requires asked { IsAsked sizes.now (terms_of incompats.now) (reverse trail.now) first.now.terms }
    ensures { IfOk result (λ e. ending_of e ≡ conflict sizes.now (terms_of incompats.now) (reverse trail.now) first.now.terms []) }
{
    let mut left = left;
    let mut incompat = first.copy(alloc)?;
    let mut steps = Items::new(alloc);
    let mut place = trail.len();
    while place > 0 && !is_refutation(&incompat) {
        place -= 1;
        let satisfier = &trail[place];
        let choices = left.before[place].copy(alloc)?;
        left.now[satisfier.node as usize] = choices;
        if incompat.holds(&left.now) {
            continue;
        }
        let level = previous_level(alloc, sizes, &trail[..place], &left, satisfier, &incompat)?;
        match satisfier.reason {
            Reason::Derived(number) if satisfier.level == level => {
                incompat = resolve(
                    alloc,
                    &incompat,
                    &incompats[number as usize],
                    satisfier.node,
                )?;
                steps.push(Cited {
                    number,
                    node: satisfier.node,
                })?;
            }
            _ => return Ok(Ending::Learned(incompat, steps, level)),
        }
    }
    Ok(Ending::Refuted(incompat, steps))
}
