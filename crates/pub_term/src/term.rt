ghost use Rattle.std.specs.Prelude.{◌≡◌, ◌<◌, length, IfOk};
ghost use Rattle.std.specs.Cmp.{partial_equiv_from_equiv};
ghost use Rattle.std.specs.Option.{option_copied};
ghost use Rattle.pub_set.specs.Choices.{do_meet};
ghost use Rattle.pub_term.specs.Known.{AreKnown, almost_on, holds, is_held, known_at};
ghost use Rattle.pub_term.specs.Term.{set_at};
ghost use Rattle.pub_term.specs.TermLaws.{same_terms, same_terms_equiv};

use pub_set::Choices;
use spm_version::{Duplicate, Items, NoMemory};
use std::alloc::Global;

/// A node with a set of its choices.
#[derive(Debug, PartialEq, Eq, Drop)]
pub struct Term {
    pub node: u32,
    pub choices: Choices,
}

impl Term {
    /// A copy of the term.
    ///
    /// # Errors
    ///
    /// `NoMemory` alone.
    pub fn copy(&self, alloc: Global) -> Result<Term, NoMemory>
        ensures { IfOk result (λ term. term ≡ self.now) }
    {
        Ok(Term {
            node: self.node,
            choices: self.choices.copy(alloc)?,
        })
    }
}

impl Duplicate for Term {
    fn duplicate(&self, alloc: Global) -> Result<Term, NoMemory> {
        self.copy(alloc)
    }
}

// Whether what is known of the term's node lies within its set.
fn is_held(known: &[Choices], term: &Term) -> bool
    requires node { term.now.node < length known.now }
    requires size { (known_at known.now term.now.node).size ≡ term.now.choices.size }
    ensures { result ≡ is_held known.now term.now }
{
    known[term.node as usize].within(&term.choices)
}

// Whether what is known of the term's node meets its set.
fn is_met(known: &[Choices], term: &Term) -> bool
    requires node { term.now.node < length known.now }
    requires size { (known_at known.now term.now.node).size ≡ term.now.choices.size }
    ensures { result ≡ do_meet (known_at known.now term.now.node) term.now.choices }
{
    known[term.node as usize].meets(&term.choices)
}

/// Terms that can't all hold: nodes strictly ascending, no set empty or whole. The type alone promises neither, since a file
/// may say otherwise.
#[derive(Debug, Drop)]
pub struct Incompat {
    pub terms: Items<Term>,
}

impl Incompat {
    /// Whether each term holds: what is known of its node lies within its set. It takes no memory.
    pub fn holds(&self, known: &[Choices]) -> bool
        requires { AreKnown known.now self.now.terms }
        ensures { result ≡ holds known.now self.now.terms }
    {
        for term in self.terms.as_slice() {
            if !is_held(known, term) {
                return false;
            }
        }
        true
    }

    /// The node of the one term that doesn't hold, if all others do and what is known of the node meets its set. It takes no
    /// memory.
    pub fn almost(&self, known: &[Choices]) -> Option<u32>
        requires { AreKnown known.now self.now.terms }
        ensures { result ≡ almost_on known.now self.now.terms }
    {
        let mut open: Option<&Term> = None;
        for term in self.terms.as_slice() {
            if is_held(known, term) {
                continue;
            }
            if open.is_some() {
                return None;
            }
            open = Some(term);
        }
        let term = open?;
        if is_met(known, term) {
            Some(term.node)
        } else {
            None
        }
    }

    /// The set of the term on a node, where there is one. It takes no memory.
    pub fn set_on(&self, node: u32) -> Option<&Choices>
        ensures { option_copied result ≡ set_at self.now.terms node }
    {
        for term in self.terms.as_slice() {
            if term.node == node {
                return Some(&term.choices);
            }
        }
        None
    }

    /// A copy of the incompatibility.
    ///
    /// # Errors
    ///
    /// `NoMemory` alone.
    pub fn copy(&self, alloc: Global) -> Result<Incompat, NoMemory>
        ensures { IfOk result (λ incompat. incompat ≡ self.now) }
    {
        let terms = self.terms.copy(alloc)?;
        Ok(Incompat { terms })
    }
}

impl Duplicate for Incompat {
    fn duplicate(&self, alloc: Global) -> Result<Incompat, NoMemory> {
        self.copy(alloc)
    }
}

impl PartialEq for Incompat {
    ghost eq = { same_terms };

    ghost laws = { partial_equiv_from_equiv same_terms_equiv };

    fn eq(&self, other: &Incompat) -> bool {
        self.terms.as_slice() == other.terms.as_slice()
    }
}

impl Eq for Incompat {
    ghost laws = { same_terms_equiv };
}
