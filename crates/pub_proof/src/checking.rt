ghost use Rattle.std.specs.Prelude.{◌≡◌, ◌+◌, ◌-◌, ◌^◌, ◌<◌, ◌≤◌, [], length, map, IfOk};
ghost use Rattle.pub_proof.specs.Checked.{at_line, checked_of, earlier_line, last_in, line_in, lines_after};
ghost use Rattle.pub_proof.specs.Checks.{Checks, ChecksAll, own_facts, terms_of};
ghost use Rattle.pub_proof.specs.Formed.{AreFormed, IsFormed};
ghost use Rattle.pub_proof.specs.Root.{is_on_root, is_refutation, is_root, root_of};
ghost use Rattle.pub_proof.specs.Sound.{Follows, RefutesRoot};

use crate::derivation::{Derivation, Line};
use crate::fact::fact_line;
use crate::fault::{ProofFault, ProofKind};
use crate::resolving::{earlier_line, resolved_line};
use pub_term::{Incompat, NodeName};
use spm_version::Items;
use std::alloc::Global;

// What a line says, given the lines before it, or what is wrong with it.
fn line_terms(
    alloc: Global,
    sizes: &[u32],
    facts: &[Incompat],
    earlier: &[Incompat],
    place: usize,
    line: &Line,
    number: u64,
) -> Result<Incompat, ProofFault>
    requires { AreFormed sizes.now (terms_of earlier.now) }
    ensures checked { Checks result (at_line number (line_in sizes.now (terms_of facts.now) (terms_of earlier.now) line.now)) }
    ensures formed { IfOk result (λ incompat. IsFormed sizes.now incompat.terms) }
{
    match line {
        Line::Fact(incompat, _) => fact_line(alloc, sizes, facts, place, incompat, number),
        Line::Resolve { first, second, on } => {
            resolved_line(alloc, sizes, earlier, (*first, *second), *on, number)
        }
    }
}

// The number of fact lines, with this line.
fn place_after(place: usize, line: &Line) -> usize
    requires { place < 2 ^ 64 - 1 }
    ensures { result ≤ place + 1 }
{
    match line {
        Line::Fact(_, _) => place + 1,
        Line::Resolve { .. } => place,
    }
}

// What all lines say, or the first bad line.
#[tactic(auto, using(crate::proofs::FormedLemmas::length_terms_of))]
fn all_lines(
    alloc: Global,
    sizes: &[u32],
    facts: &[Incompat],
    lines: &[Line],
) -> Result<Items<Incompat>, ProofFault>
    ensures checked { ChecksAll result (lines_after sizes.now (terms_of facts.now) [] lines.now) }
    ensures formed { IfOk result (λ all. AreFormed sizes.now (terms_of all)) }
{
    let mut derived = Items::new(alloc);
    let mut place = 0;
    for line in lines {
        let earlier = derived.as_slice();
        let number = earlier.len() as u64 + 1;
        let next = line_terms(alloc, sizes, facts, earlier, place, line, number)?;
        derived.push(next)?;
        place = place_after(place, line);
    }
    Ok(derived)
}

impl Derivation {
    /// What each line says, in their order, by the derivation's own facts.
    ///
    /// # Errors
    ///
    /// The first bad line with what is wrong with it, and want of memory.
    pub fn said(&self, alloc: Global) -> Result<Items<Incompat>, ProofFault>
        ensures checked { ChecksAll result (lines_after self.now.sizes (own_facts self.now.lines) [] self.now.lines) }
        // What a line says has nodes that ascend, no set that is empty or whole, and sets of their nodes' sizes.
        ensures formed { IfOk result (λ all. AreFormed self.now.sizes (terms_of all)) }
    {
        let facts = self.facts(alloc)?;
        let (sizes, lines) = (self.sizes.as_slice(), self.lines.as_slice());
        all_lines(alloc, sizes, facts.as_slice(), lines)
    }
}

// The place of the first node that is named as the root.
fn root_of(nodes: &[NodeName]) -> Option<usize>
    ensures { result ≡ root_of nodes.now }
{
    nodes.iter().position(|name| is_root(name))
}

// Whether the node is named as the root.
fn is_root(name: &NodeName) -> bool
    ensures { result ≡ is_root name.now }
{
    matches!(name, NodeName::Root)
}

// Whether the node is the root.
fn is_on_root(root: Option<usize>, node: u32) -> bool
    ensures { result ≡ is_on_root root node }
{
    match root {
        None => false,
        Some(root) => node as usize == root,
    }
}

// Whether there is no term, or one on the root alone.
fn is_refutation(root: Option<usize>, incompat: &Incompat) -> bool
    ensures { result ≡ is_refutation root incompat.now.terms }
{
    for term in incompat.terms.as_slice() {
        if !is_on_root(root, term.node) {
            return false;
        }
    }
    true
}

// What the last line says, if that is a refutation.
fn last_line(alloc: Global, root: Option<usize>, all: &[Incompat]) -> Result<Incompat, ProofFault>
    ensures { Checks result (last_in root (length all.now) (earlier_line (terms_of all.now) (length all.now))) }
{
    let kind = ProofKind::NotARefutation;
    let line = all.len() as u64;
    let Some(last) = earlier_line(all, line) else {
        return Err(ProofFault::At { line: 0, kind });
    };
    if !is_refutation(root, last) {
        return Err(ProofFault::At { line, kind });
    }
    let last = last.copy(alloc)?;
    Ok(last)
}

/// Checks a derivation against the facts that it may use, and answers what its last line says. A yes means that whatever
/// violates that line violates one of the facts; and that no assignment whose choice on the root, the first node that is named
/// so, is one of that line's leaves every fact unviolated. Without a term, or without a root, no assignment at all does. An
/// assignment gives each node one of its choices: the one on a node that is resolved too, which [`resolution_is_sound`] asks.
///
/// [`resolution_is_sound`]: pub_term::resolution_is_sound
///
/// # Errors
///
/// The first bad line with what is wrong with it, or the last line where it is no refutation; and want of memory.
pub fn check(
    alloc: Global,
    derivation: &Derivation,
    facts: &[Incompat],
) -> Result<Incompat, ProofFault>
    ensures checked { Checks result
        (checked_of derivation.now.nodes derivation.now.sizes (map (λ fact. fact.terms) facts.now) derivation.now.lines) }
    // Whatever violates the last line violates one of the facts.
    ensures sound { IfOk result (λ last. Follows derivation.now.sizes (map (λ fact. fact.terms) facts.now) last.terms) }
    // So no assignment with the root chosen leaves every fact unviolated.
    ensures refutes { IfOk result (λ last. RefutesRoot (root_of derivation.now.nodes) derivation.now.sizes
        (map (λ fact. fact.terms) facts.now) last.terms) }
{
    let root = root_of(derivation.nodes.as_slice());
    let sizes = derivation.sizes.as_slice();
    let all = all_lines(alloc, sizes, facts, derivation.lines.as_slice())?;
    last_line(alloc, root, all.as_slice())
}
