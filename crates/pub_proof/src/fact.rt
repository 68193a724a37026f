// The tests of a fact's line.
ghost use Rattle.std.specs.Prelude.{◌≡◌, length, nat_lt, IfOk, None};
ghost use Rattle.std.specs.List.{list_all, list_any};
ghost use Rattle.pub_proof.specs.Checked.{at_line, do_ascend, fact_in, is_proper, terms_fault};
ghost use Rattle.pub_proof.specs.Checks.{Checks, terms_of};
ghost use Rattle.pub_proof.specs.Formed.{IsFormed};
ghost use Rattle.pub_proof.specs.Same.{same_terms};

use crate::fault::{ProofFault, ProofKind};
use crate::order::is_above;
use pub_term::{Incompat, Term};
use std::alloc::Global;

// Whether there is such a node.
fn is_known(sizes: &[u32], term: &Term) -> bool
    ensures { result ≡ nat_lt term.now.node (length sizes.now) }
{
    (term.node as usize) < sizes.len()
}

// Whether each term's node is there.
fn are_known(sizes: &[u32], terms: &[Term]) -> bool
    ensures { result ≡ list_all (λ term. nat_lt term.node (length sizes.now)) terms.now }
{
    for term in terms {
        if !is_known(sizes, term) {
            return false;
        }
    }
    true
}

// Whether the nodes strictly ascend.
fn do_ascend(terms: &[Term]) -> bool
    ensures { result ≡ do_ascend None terms.now }
{
    let mut before = None;
    for term in terms {
        if !is_above(before, term.node) {
            return false;
        }
        before = Some(term.node);
    }
    true
}

// Whether the set has its node's size, and is neither empty nor whole.
fn is_proper(sizes: &[u32], term: &Term) -> bool
    ensures { result ≡ is_proper sizes.now term.now }
{
    let size = sizes.get(term.node as usize).copied().unwrap_or(0);
    term.choices.size() == size && !term.choices.is_empty() && !term.choices.is_whole()
}

// The same of each set.
fn are_proper(sizes: &[u32], terms: &[Term]) -> bool
    ensures { result ≡ list_all (is_proper sizes.now) terms.now }
{
    for term in terms {
        if !is_proper(sizes, term) {
            return false;
        }
    }
    true
}

// What is wrong with the terms of a fact's line.
fn terms_fault(sizes: &[u32], terms: &[Term]) -> Option<ProofKind>
    ensures { result ≡ terms_fault sizes.now terms.now }
{
    if !are_known(sizes, terms) {
        return Some(ProofKind::NoSuchNode);
    }
    if !do_ascend(terms) || !are_proper(sizes, terms) {
        return Some(ProofKind::BadSet);
    }
    None
}

// Whether one of the facts has these terms.
fn is_among(facts: &[Incompat], incompat: &Incompat) -> bool
    ensures { result ≡ list_any (same_terms incompat.now.terms) (terms_of facts.now) }
{
    for fact in facts {
        if *incompat == *fact {
            return true;
        }
    }
    false
}

// The same, where the fact at a place is compared first.
fn is_fact(facts: &[Incompat], place: usize, incompat: &Incompat) -> bool
    ensures { result ≡ list_any (same_terms incompat.now.terms) (terms_of facts.now) }
{
    if let Some(fact) = facts.get(place) {
        if *incompat == *fact {
            return true;
        }
    }
    is_among(facts, incompat)
}

// What a fact's line says, or what is wrong with it. The fact at the place is compared first.
pub(crate) fn fact_line(
    alloc: Global,
    sizes: &[u32],
    facts: &[Incompat],
    place: usize,
    incompat: &Incompat,
    line: u64,
) -> Result<Incompat, ProofFault>
    ensures checked { Checks result (at_line line (fact_in sizes.now (terms_of facts.now) incompat.now.terms)) }
    ensures formed { IfOk result (λ fact. IsFormed sizes.now fact.terms) }
{
    if let Some(kind) = terms_fault(sizes, incompat.terms.as_slice()) {
        return Err(ProofFault::At { line, kind });
    }
    if !is_fact(facts, place, incompat) {
        let kind = ProofKind::NotAFact;
        return Err(ProofFault::At { line, kind });
    }
    let fact = incompat.copy(alloc)?;
    Ok(fact)
}
