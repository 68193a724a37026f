// The derivation behind a refutation.
ghost use Rattle.std.specs.Prelude.{◌≡◌, ◌<◌, ◌≤◌, ℕ, IfOk, List, [], Some, length, reverse, slice_index_or};
ghost use Rattle.pub_facts.specs.Known.{IsWithinLimits, lookups_of};
ghost use Rattle.pub_facts.specs.Numbered.{sizes_of};
ghost use Rattle.pub_plain.specs.Answers.{lookups_by};
ghost use Rattle.pub_plain.specs.Derivation.{derivation_in};
ghost use Rattle.pub_plain.specs.Kept.{state_with};
ghost use Rattle.pub_plain.specs.Told.{answers_to};
ghost use Rattle.pub_plain.specs.Turning.{IsTurning, rules_by};
ghost use Rattle.pub_plain.specs.Writing.{AreSteps, AreWritable, IsRefuted, IsRefutedBy, put_of, written_at, written_steps};
ghost use Rattle.pub_term.specs.declared.term.Term.{Term};
ghost use Rattle.pub_trail.specs.KnownOf.{AreBefore, AreLeft};
ghost use Rattle.pub_trail.specs.Trail.{holds};
ghost use Rattle.pub_trail.specs.Turn.{Refuted, Step, conflict, newest_from, turn_of};
ghost use Rattle.pub_trail.specs.Walk.{ending_of, terms_of};

use crate::lists::Lists;
use crate::ordering::ordered;
use crate::renaming::lines_in;
use crate::told::Told;
use crate::turning::{left_of, newest_conflict};
use crate::writing::{LineOrigin, WrittenLine, put};
use pub_facts::Known;
use pub_proof::Derivation;
use pub_term::{Cause, NodeName, resolve};
use pub_trail::{Cited, Ending, Left, Origin, walk_down};
use spm_version::{Items, NoMemory};
use std::alloc::Global;

// Writes the incompatibility of a number, after what it comes from, and tells the number of its line. At most so many stand behind one
// another.
#[cycle(writing)]
fn write(
    alloc: Global,
    lists: &Lists,
    depth: usize,
    number: u64,
    lines: &mut Vec<WrittenLine>,
) -> Result<u64, NoMemory>
    requires writable { AreWritable lists.now }
    requires deep { depth ≤ length lists.now.incompats }
    requires below { number < depth }
    ensures { IfOk result (λ line. put_of lines.new.items line
        ≡ written_at ⟦<Cause as PartialEq>⟧.eq lists.now depth number lines.old.items) }
{
    match &lists.origins[number as usize] {
        Origin::OfLoad(cause) => {
            let incompat = lists.incompats[number as usize].copy(alloc)?;
            let origin = LineOrigin::Fact(cause.copy(alloc)?);
            let line = put(lines, WrittenLine { incompat, origin })?;
            Ok(line)
        }
        Origin::OfConflict(first, steps) => {
            let line = write_steps(alloc, lists, depth - 1, *first, steps.as_slice(), lines)?;
            Ok(line)
        }
    }
}

// Writes the incompatibility in conflict and then each step, and tells the number of the last line.
#[cycle(writing)]
fn write_steps(
    alloc: Global,
    lists: &Lists,
    depth: usize,
    first: u64,
    steps: &[Cited],
    lines: &mut Vec<WrittenLine>,
) -> Result<u64, NoMemory>
    requires writable { AreWritable lists.now }
    requires steps { AreSteps lists.now depth first steps.now }
    ensures { IfOk result (λ line. put_of lines.new.items line
        ≡ written_steps ⟦<Cause as PartialEq>⟧.eq lists.now depth first steps.now lines.old.items) }
{
    let mut line = write(alloc, lists, depth, first, lines)?;
    let mut incompat = lists.incompats[first as usize].copy(alloc)?;
    for step in steps {
        let second = write(alloc, lists, depth, step.number, lines)?;
        let other = &lists.incompats[step.number as usize];
        incompat = resolve(alloc, &incompat, other, step.node)?;
        let origin = LineOrigin::Resolution {
            first: line,
            second,
            on: step.node,
        };
        let incompat = incompat.copy(alloc)?;
        line = put(lines, WrittenLine { incompat, origin })?;
    }
    Ok(line)
}

// What the conflict of the incompatibility of this number comes to.
fn conflict_of(
    alloc: Global,
    told: &Told,
    lists: &Lists,
    left: Left,
    first: usize,
) -> Result<Ending, NoMemory>
    requires turning { IsTurning told.now lists.now }
    requires left { AreLeft lists.now.sizes (reverse lists.now.trail) left.now.items }
    requires before { AreBefore lists.now.sizes lists.now.trail left.before.items }
    requires found { newest_from (holds lists.now.sizes (reverse lists.now.trail)) 0 (terms_of lists.now.incompats) ≡ Some first }
    ensures { IfOk result (λ ending. ending_of ending ≡ conflict lists.now.sizes (terms_of lists.now.incompats) (reverse lists.now.trail)
        (slice_index_or (terms_of lists.now.incompats) first []) []) }
{
    let ending = walk_down(
        alloc,
        &lists.sizes,
        &lists.incompats,
        &lists.trail,
        left,
        &lists.incompats[first],
    )?;
    Ok(ending)
}

// The conflict and its steps that a refutation comes from.
fn refuted(alloc: Global, told: &Told, lists: &Lists) -> Result<(u64, Items<Cited>), NoMemory>
    requires turning { IsTurning told.now lists.now }
    requires refuted { IsRefuted told.now lists.now }
    ensures { IfOk result (λ found. IsRefutedBy told.now lists.now found.0 found.1) }
{
    let left = left_of(alloc, told, lists)?;
    let Some(first) = newest_conflict(told, lists, &left) else {
        unreachable!()
    };
    match conflict_of(alloc, told, lists, left, first)? {
        Ending::Refuted(_, steps) => Ok((first as u64, steps)),
        Ending::Learned(_, _, _) => unreachable!(),
    }
}

// How many choices each of these nodes has.
fn sizes_of(alloc: Global, known: &Known, nodes: &[NodeName]) -> Result<Items<u32>, NoMemory>
    requires { IsWithinLimits known.now }
    ensures { IfOk result (λ sizes. sizes ≡ sizes_of (lookups_of known.now) nodes.now) }
{
    let mut sizes = Items::new(alloc);
    for node in nodes {
        sizes.push(known.size_of(node))?;
    }
    Ok(sizes)
}

/// The derivation behind the refutation that the next turn comes to.
///
/// # Errors
///
/// `NoMemory` alone.
pub fn derivation(alloc: Global, told: &Told, lists: &Lists) -> Result<Derivation, NoMemory>
    requires turning { IsTurning told.now lists.now }
    requires refuted { IsRefuted told.now lists.now }
    ensures { IfOk result (λ derivation. (terms : List Term) (first : ℕ) (steps : List Step)
        → turn_of (rules_by told.now) (state_with told.now.known.nodes lists.now) ≡ Refuted terms first steps
        → derivation ≡ derivation_in ⟦<Cause as PartialEq>⟧.eq (lookups_by (answers_to told.now))
        (state_with told.now.known.nodes lists.now) first steps) }
{
    let (first, steps) = refuted(alloc, told, lists)?;
    let mut lines = Vec::new(alloc);
    let depth = lists.incompats.len();
    write_steps(alloc, lists, depth, first, steps.as_slice(), &mut lines)?;
    let names = told.known.nodes.as_slice();
    let nodes = ordered(alloc, names)?;
    let sizes = sizes_of(alloc, &told.known, nodes.as_slice())?;
    let lines = lines_in(alloc, nodes.as_slice(), names, lines)?;
    Ok(Derivation {
        nodes,
        sizes,
        lines,
    })
}
