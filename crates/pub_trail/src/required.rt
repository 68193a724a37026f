// What the facts of the loads require.
ghost use Rattle.std.specs.Prelude.{◌≡◌, ◌<◌, length, reverse, All, IfOk, IfSome, List};
ghost use Rattle.pub_term.specs.declared.term.Incompat.{Incompat};
ghost use Rattle.pub_term.specs.declared.term.Term.{Term};
ghost use Rattle.pub_trail.specs.First.{first_or};
ghost use Rattle.pub_trail.specs.Required.{AreAmong, AreDecisions, AreMarked, AreOpen, decision_in, if_undecided, is_kept, loaded_facts, required_in};
ghost use Rattle.pub_trail.specs.Walk.{terms_of};
ghost use Rattle.pub_trail.specs.declared.trail.Assigned.{Assigned};

use crate::origin::Origin;
use crate::trail::{Assigned, Reason};
use pub_set::Choices;
use pub_term::{Incompat, Term};
use spm_version::NoMemory;
use std::alloc::Global;

// The first of some choices, or 0.
#[tactic(auto, using(crate::proofs::RequiredLemmas::first_run))]
fn first_choice(choices: &Choices) -> u32
    ensures { result ≡ first_or choices.now.members 0 }
{
    match choices.runs().first() {
        Some(run) => run.first,
        None => 0,
    }
}

/// For each of so many nodes its decided choice, if it is decided. The trail has the newest behind the others.
pub fn decisions(
    alloc: Global,
    count: usize,
    trail: &[Assigned],
) -> Result<Vec<Option<u32>>, NoMemory>
    requires { All (λ entry. entry.node < count) trail.now }
    ensures { IfOk result (λ found. AreDecisions count (reverse trail.now) found.items) }
{
    let mut found = Vec::new(alloc);
    while found.len() < count {
        found.push(None)?;
    }
    for entry in trail {
        if let Reason::Decided = entry.reason {
            found[entry.node as usize] = Some(first_choice(&entry.choices));
        }
    }
    Ok(found)
}

// Whether a term has the decided choice of its node.
fn is_kept(decision: Option<u32>, term: &Term) -> bool
    ensures { result ≡ is_kept decision term.now }
{
    match decision {
        Some(choice) => term.choices.has(choice),
        None => false,
    }
}

// The node of a term, if it isn't decided and the set has 0.
fn if_undecided(decision: Option<u32>, term: &Term) -> Option<u32>
    ensures { result ≡ if_undecided decision term.now }
{
    if decision.is_none() && term.choices.has(0) {
        Some(term.node)
    } else {
        None
    }
}

// The node that a fact requires and that isn't decided, if there is one.
fn required_in(decisions: &[Option<u32>], fact: &Incompat) -> Option<u32>
    requires { All (λ (term : Term). term.node < length decisions.now) fact.now.terms }
    ensures node { result ≡ required_in (decision_in decisions.now) fact.now.terms }
    ensures within { IfSome result (λ node. node < length decisions.now) }
{
    let mut missing: Option<&Term> = None;
    for term in fact.terms.as_slice() {
        if is_kept(decisions[term.node as usize], term) {
            continue;
        }
        if missing.is_some() {
            return None;
        }
        missing = Some(term);
    }
    let term = missing?;
    if_undecided(decisions[term.node as usize], term)
}

// For each node whether a fact of the loads requires it, by what is decided of nodes.
fn marked(
    alloc: Global,
    incompats: &[Incompat],
    origins: &[Origin],
    decisions: &[Option<u32>],
) -> Result<Vec<bool>, NoMemory>
    requires long { length incompats.now ≡ length origins.now }
    requires among { All (λ (incompat : Incompat). AreAmong (length decisions.now) incompat.terms) incompats.now }
    ensures { IfOk result (λ marks. AreMarked (decision_in decisions.now) (length decisions.now)
        (loaded_facts (terms_of incompats.now) origins.now) marks.items) }
{
    let mut marks = Vec::new(alloc);
    while marks.len() < decisions.len() {
        marks.push(false)?;
    }
    let mut place = 0;
    while place < incompats.len() {
        if let Origin::OfLoad(_) = &origins[place] {
            if let Some(node) = required_in(decisions, &incompats[place]) {
                marks[node as usize] = true;
            }
        }
        place += 1;
    }
    Ok(marks)
}

/// For each node whether a fact of the loads requires it and it isn't decided, from what is decided of each node.
pub fn open_nodes(
    alloc: Global,
    incompats: &[Incompat],
    origins: &[Origin],
    decisions: &[Option<u32>],
) -> Result<Vec<bool>, NoMemory>
    requires long { length incompats.now ≡ length origins.now }
    requires among { All (λ (incompat : Incompat). AreAmong (length decisions.now) incompat.terms) incompats.now }
    ensures { IfOk result (λ opens. (trail : List Assigned) → AreDecisions (length decisions.now) trail decisions.now
        → AreOpen (length decisions.now) (loaded_facts (terms_of incompats.now) origins.now) trail opens.items) }
{
    let opens = marked(alloc, incompats, origins, decisions)?;
    Ok(opens)
}
