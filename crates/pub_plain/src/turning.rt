// One turn: a load, a conflict, a derivation or a decision.
ghost use Rattle.std.specs.Prelude.{◌≡◌, ◌<◌, ◌≤◌, ◌++◌, IfOk, List, OnErr, OnOk, Some, [], length, reverse, slice_index, slice_index_or, take};
ghost use Rattle.std.specs.Option.{option_map};
ghost use Rattle.pub_facts.specs.Known.{IsWithinLimits, lookups_of};
ghost use Rattle.pub_facts.specs.Numbered.{number_in, numbered, sizes_of};
ghost use Rattle.pub_plain.specs.Kept.{loaded_kept, state_with};
ghost use Rattle.pub_plain.specs.Loading.{brings, facts_at, load_at, name_at, named_first};
ghost use Rattle.pub_plain.specs.Next.{next_of};
ghost use Rattle.pub_plain.specs.Told.{catalogue_of, job_of};
ghost use Rattle.pub_plain.specs.Turning.{IsDue, IsSame, IsTurning, TurnsTo, rules_by, turned_of, with_nodes};
ghost use Rattle.pub_term.specs.declared.node.NodeName.{NodeName};
ghost use Rattle.pub_trail.specs.Invariant.{IsSettled};
ghost use Rattle.pub_trail.specs.KnownOf.{AreBefore, AreLeft};
ghost use Rattle.pub_trail.specs.Trail.{holds, level_of};
ghost use Rattle.pub_trail.specs.Turn.{
  Went,
  after_conflict,
  after_load,
  after_next,
  conflict,
  decided,
  forced_entry,
  newest_forced,
  newest_from,
  turn_of,
};
ghost use Rattle.pub_trail.specs.Walk.{terms_of};

use crate::lists::Lists;
use crate::loading::{facts_by, new_names, wide_in};
use crate::next::{NextNode, next_node};
use crate::reading::{Stop, stop_of};
use crate::told::Told;
use pub_facts::LoadPlace;
use pub_set::Choices;
use pub_term::NodeName;
use pub_trail::{Assigned, Ending, Left, Place, Reason, Turned, forced, newest_of, walk_down};
use spm_version::{Items, NoMemory};
use std::alloc::Global;
use std::mem;

// How many choices each of these nodes has.
fn sizes_of(alloc: Global, told: &Told, names: &[NodeName]) -> Result<Vec<u32>, NoMemory>
    requires { IsWithinLimits told.now.known }
    ensures { IfOk result (λ sizes. sizes.items ≡ sizes_of (lookups_of told.now.known) names.now) }
{
    let mut sizes = Vec::new(alloc);
    for name in names {
        sizes.push(told.known.size_of(name))?;
    }
    Ok(sizes)
}

// Puts new names behind the others, as far as memory goes.
fn push_names(nodes: &mut Items<NodeName>, names: Items<NodeName>) -> Result<(), NoMemory>
    ensures ok { OnOk result (nodes.new ≡ nodes.old ++ names) }
    ensures err { take (length nodes.old) nodes.new ≡ nodes.old }
{
    for name in names.into_vec() {
        nodes.push(name)?;
    }
    Ok(())
}

// Drops the names behind the first so many.
fn keep_names(alloc: Global, nodes: &mut Items<NodeName>, count: usize)
    ensures { nodes.new ≡ take count nodes.old }
{
    let mut all = mem::replace(nodes, Items::new(alloc)).into_vec();
    all.truncate(count);
    *nodes = Items::from_vec(all);
}

// Names the new nodes of a load and puts its facts behind the others. Where memory runs out, the lists stay, and the names begin with
// those that were there.
fn grow(
    alloc: Global,
    told: &mut Told,
    lists: &mut Lists,
    place: Place,
    load: &LoadPlace,
    names: Items<NodeName>,
) -> Result<(), NoMemory>
    requires turning { IsTurning told.old lists.old }
    requires due { IsDue told.old place }
    requires load { (load.now.node ≡ name_at told.old.known.nodes place.node) × (load.now.choice ≡ place.choice) }
    requires few { length (told.old.known.nodes ++ names) ≤ 4096 }
    requires names { names ≡ named_first (job_of told.old) (catalogue_of told.old) told.old.known.nodes (load_at told.old.known.nodes place) }
    ensures told { told.new ≡ with_nodes told.old told.new.known.nodes }
    ensures ok { OnOk result (told.new.known.nodes ≡ told.old.known.nodes ++ names) }
    ensures lists { OnOk result (lists.new ≡ loaded_kept lists.old place (sizes_of (lookups_of told.old.known) names)
        (numbered (number_in (told.old.known.nodes ++ names)) (facts_at (job_of told.old) (catalogue_of told.old) (load_at told.old.known.nodes place)))) }
    ensures err { OnErr result (lists.new ≡ lists.old) }
    ensures kept { take (length told.old.known.nodes) told.new.known.nodes ≡ told.old.known.nodes }
{
    let sizes = sizes_of(alloc, told, names.as_slice())?;
    push_names(&mut told.known.nodes, names)?;
    let facts = facts_by(alloc, told, load)?;
    lists.put_load(alloc, place, sizes, facts)
}

// A load that nothing stops: it passes a limit, or brings something.
fn bring(
    alloc: Global,
    told: &mut Told,
    lists: &mut Lists,
    place: Place,
    load: &LoadPlace,
) -> Result<Turned, NoMemory>
    requires turning { IsTurning told.old lists.old }
    requires due { IsDue told.old place }
    requires load { (load.now.node ≡ name_at told.old.known.nodes place.node) × (load.now.choice ≡ place.choice) }
    ensures ok { IfOk result (λ turned. TurnsTo turned (after_load (state_with told.old.known.nodes lists.old) place
        (brings (job_of told.old) (catalogue_of told.old) told.old.known.nodes (load_at told.old.known.nodes place)))
        told.old lists.old told.new lists.new) }
    ensures err { OnErr result (IsSame told.old lists.old told.new lists.new) }
{
    let names = new_names(alloc, told, load)?;
    if let Some(wide) = wide_in(told.known.nodes.as_slice(), names.as_slice()) {
        return Ok(Turned::TooWide(wide));
    }
    let count = told.known.nodes.as_slice().len();
    match grow(alloc, told, lists, place, load, names) {
        Ok(()) => Ok(Turned::Went),
        Err(fault) => {
            keep_names(alloc, &mut told.known.nodes, count);
            Err(fault)
        }
    }
}

// What a load that stops answers.
fn stopped(stop: Stop) -> Turned
    ensures { result ≡ turned_of stop }
{
    match stop {
        Stop::Lacks(key) => Turned::Need(key),
        Stop::Passes(wide) => Turned::TooWide(wide),
    }
}

// A load.
fn load(alloc: Global, told: &mut Told, lists: &mut Lists, place: Place) -> Result<Turned, NoMemory>
    requires turning { IsTurning told.old lists.old }
    requires due { IsDue told.old place }
    ensures ok { IfOk result (λ turned. TurnsTo turned (after_load (state_with told.old.known.nodes lists.old) place
        ((rules_by told.old).load (state_with told.old.known.nodes lists.old) place)) told.old lists.old told.new lists.new) }
    ensures err { OnErr result (IsSame told.old lists.old told.new lists.new) }
{
    let node = told.known.nodes.as_slice()[place.node as usize].copy(alloc)?;
    let load = LoadPlace {
        node,
        choice: place.choice,
    };
    match stop_of(alloc, told, &load)? {
        Some(stop) => Ok(stopped(stop)),
        None => bring(alloc, told, lists, place, &load),
    }
}

// A conflict of the incompatibility of this number.
fn resolve_conflict(
    alloc: Global,
    told: &Told,
    lists: &mut Lists,
    left: Left,
    first: usize,
) -> Result<Turned, NoMemory>
    requires turning { IsTurning told.now lists.old }
    requires left { AreLeft lists.old.sizes (reverse lists.old.trail) left.now.items }
    requires before { AreBefore lists.old.sizes lists.old.trail left.before.items }
    requires found { newest_from (holds lists.old.sizes (reverse lists.old.trail)) 0 (terms_of lists.old.incompats) ≡ Some first }
    ensures ok { IfOk result (λ turned. TurnsTo turned (after_conflict (state_with told.now.known.nodes lists.old) first
        (conflict lists.old.sizes (terms_of lists.old.incompats) (reverse lists.old.trail)
        (slice_index_or (terms_of lists.old.incompats) first []) [])) told.now lists.old told.now lists.new) }
    ensures err { OnErr result (lists.new ≡ lists.old) }
{
    let ending = walk_down(
        alloc,
        &lists.sizes,
        &lists.incompats,
        &lists.trail,
        left,
        &lists.incompats[first],
    )?;
    match ending {
        Ending::Refuted(_, _) => Ok(Turned::Refuted),
        Ending::Learned(incompat, steps, level) => {
            lists.go_back(first as u64, incompat, steps, level)?;
            Ok(Turned::Went)
        }
    }
}

// A decision.
fn decide(alloc: Global, lists: &mut Lists, next: NextNode) -> Result<(), NoMemory>
    requires node { next.node < length lists.old.sizes }
    requires choice { next.choice < slice_index lists.old.sizes next.node }
    requires level { level_of (reverse lists.old.trail) ≤ 4096 }
    ensures ok { OnOk result ((names : List NodeName) → decided (state_with names lists.old) (next_of next) ≡ Went (state_with names lists.new)) }
    ensures err { OnErr result (lists.new ≡ lists.old) }
{
    let size = lists.sizes[next.node as usize];
    let choices = Choices::of(alloc, size, &[next.choice])?;
    let level = lists.level() + 1;
    lists.assign(Assigned {
        node: next.node,
        choices,
        level,
        reason: Reason::Decided,
    })
}

// The next node: it is loaded, or decided where that load is done; where none is next, the decisions are a selection.
fn go_on(
    alloc: Global,
    told: &mut Told,
    lists: &mut Lists,
    left: &[Choices],
) -> Result<Turned, NoMemory>
    requires turning { IsTurning told.old lists.old }
    requires left { AreLeft lists.old.sizes (reverse lists.old.trail) left.now }
    requires settled { IsSettled (state_with told.old.known.nodes lists.old) }
    ensures ok { IfOk result (λ turned. TurnsTo turned (after_next (rules_by told.old) (state_with told.old.known.nodes lists.old)
        ((rules_by told.old).next (state_with told.old.known.nodes lists.old))) told.old lists.old told.new lists.new) }
    ensures err { OnErr result (IsSame told.old lists.old told.new lists.new) }
{
    let Some(next) = next_node(alloc, told, lists, left)? else {
        return Ok(Turned::Selected);
    };
    if lists.is_loaded(&next.place) {
        decide(alloc, lists, next)?;
        return Ok(Turned::Went);
    }
    load(alloc, told, lists, next.place)
}

/// What the trail leaves each node.
pub fn left_of(alloc: Global, told: &Told, lists: &Lists) -> Result<Left, NoMemory>
    requires { IsTurning told.now lists.now }
    ensures now { IfOk result (λ left. AreLeft lists.now.sizes (reverse lists.now.trail) left.now.items) }
    ensures before { IfOk result (λ left. AreBefore lists.now.sizes lists.now.trail left.before.items) }
{
    Left::of(alloc, &lists.sizes, &lists.trail)
}

/// The number of the newest incompatibility that holds.
pub fn newest_conflict(told: &Told, lists: &Lists, left: &Left) -> Option<usize>
    requires turning { IsTurning told.now lists.now }
    requires left { AreLeft lists.now.sizes (reverse lists.now.trail) left.now.now.items }
    ensures { result ≡ newest_from (holds lists.now.sizes (reverse lists.now.trail)) 0 (terms_of lists.now.incompats) }
{
    newest_of(&left.now, &lists.incompats)
}

// What the newest incompatibility that is almost satisfied forces.
fn newest_forced(
    alloc: Global,
    told: &Told,
    lists: &Lists,
    left: &Left,
) -> Result<Option<Assigned>, NoMemory>
    requires turning { IsTurning told.now lists.now }
    requires left { AreLeft lists.now.sizes (reverse lists.now.trail) left.now.now.items }
    ensures { IfOk result (λ entry. entry ≡ option_map (forced_entry (level_of (reverse lists.now.trail)))
        (newest_forced lists.now.sizes (reverse lists.now.trail) 0 (terms_of lists.now.incompats))) }
{
    let level = lists.level();
    forced(alloc, &left.now, &lists.incompats, level)
}

/// One turn: the first of its cases that applies.
///
/// # Errors
///
/// `NoMemory` alone. Nothing has changed then.
pub fn turn(alloc: Global, told: &mut Told, lists: &mut Lists) -> Result<Turned, NoMemory>
    requires turning { IsTurning told.old lists.old }
    ensures ok { IfOk result (λ turned. TurnsTo turned (turn_of (rules_by told.old) (state_with told.old.known.nodes lists.old))
        told.old lists.old told.new lists.new) }
    ensures err { OnErr result (IsSame told.old lists.old told.new lists.new) }
{
    let root = Place { node: 0, choice: 1 };
    if !lists.is_loaded(&root) {
        return load(alloc, told, lists, root);
    }
    let left = left_of(alloc, told, lists)?;
    if let Some(first) = newest_conflict(told, lists, &left) {
        return resolve_conflict(alloc, told, lists, left, first);
    }
    if let Some(entry) = newest_forced(alloc, told, lists, &left)? {
        lists.assign(entry)?;
        return Ok(Turned::Went);
    }
    go_on(alloc, told, lists, &left.now)
}
