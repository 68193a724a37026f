ghost use Rattle.std.specs.Prelude.{◌≡◌, ◌==◌, ◌++◌, Some, IfOk, OnOk};
ghost use Rattle.pub_set.specs.Choices.{IsSet};
ghost use Rattle.pub_term.specs.Resolvent.{CanResolve, joined, resolvent, with_node};
ghost use Rattle.pub_term.specs.Term.{IsIncompat};

use crate::term::{Incompat, Term};
use pub_set::Choices;
use spm_version::{Items, NoMemory};
use std::alloc::Global;
use std::cmp::Ordering;

// What two sets on a node say together: their union on the node that is resolved, unless it is all choices, and their
// intersection on another.
fn joined_set(
    alloc: Global,
    first: &Choices,
    second: &Choices,
    is_on: bool,
) -> Result<Option<Choices>, NoMemory>
    requires { first.now.size ≡ second.now.size }
    ensures joined { IfOk result (λ set. set ≡ joined is_on (Some first.now) (Some second.now)) }
    ensures set { IsSet first.now }
{
    prove_eq!(first.size(), second.size());
    if !is_on {
        let shared = first.intersect(alloc, second)?;
        return Ok(Some(shared));
    }
    let either = first.unite(alloc, second)?;
    if either.is_whole() {
        Ok(None)
    } else {
        Ok(Some(either))
    }
}

// Puts what two terms on a node say together behind the others.
fn push_joined(
    alloc: Global,
    terms: &mut Items<Term>,
    first: &Term,
    second: &Term,
    on: u32,
) -> Result<(), NoMemory>
    requires { first.now.choices.size ≡ second.now.choices.size }
    ensures pushed { OnOk result
        (terms.new ≡ terms.old ++ with_node first.now.node
        (joined (first.now.node == on) (Some first.now.choices) (Some second.now.choices))) }
    ensures set { IsSet first.now.choices }
{
    let node = first.node;
    let choices = joined_set(alloc, &first.choices, &second.choices, node == on)?;
    if let Some(choices) = choices {
        terms.push(Term { node, choices })?;
    }
    Ok(())
}

// Puts copies of more terms behind the others.
fn push_copies(alloc: Global, terms: &mut Items<Term>, more: &[Term]) -> Result<(), NoMemory>
    ensures { OnOk result (terms.new ≡ terms.old ++ more.now) }
{
    for term in more {
        terms.push(term.copy(alloc)?)?;
    }
    Ok(())
}

/// The resolution of two incompatibilities on a node: on other nodes the terms are intersected, on this one the union stands,
/// dropped if it is all choices (PubGrub's rule of resolution, said over sets).
///
/// # Errors
///
/// `NoMemory` alone.
pub fn resolve(
    alloc: Global,
    first: &Incompat,
    second: &Incompat,
    on: u32,
) -> Result<Incompat, NoMemory>
    requires first { IsIncompat first.now.terms }
    requires second { IsIncompat second.now.terms }
    requires can { CanResolve first.now.terms second.now.terms on }
    ensures resolvent { IfOk result (λ incompat. incompat.terms ≡ resolvent first.now.terms second.now.terms on) }
    ensures incompat { IfOk result (λ incompat. IsIncompat incompat.terms) }
{
    let first = first.terms.as_slice();
    let second = second.terms.as_slice();
    let mut terms = Items::new(alloc);
    let (mut i, mut j) = (0, 0);
    while i < first.len() && j < second.len() {
        let (x, y) = (&first[i], &second[j]);
        match x.node.cmp(&y.node) {
            Ordering::Less => {
                terms.push(x.copy(alloc)?)?;
                i += 1;
            }
            Ordering::Greater => {
                terms.push(y.copy(alloc)?)?;
                j += 1;
            }
            Ordering::Equal => {
                push_joined(alloc, &mut terms, x, y, on)?;
                i += 1;
                j += 1;
            }
        }
    }
    push_copies(alloc, &mut terms, &first[i..])?;
    push_copies(alloc, &mut terms, &second[j..])?;
    Ok(Incompat { terms })
}
