ghost use Rattle.std.specs.Prelude.{◌≡◌, ◌∷◌, [], IfOk};
ghost use Rattle.pub_facts.specs.Facts.{
  asked_always,
  asked_under,
  enables,
  fact,
  load_of,
  required,
  subject_of,
  under_names,
  unmet_cause,
  words_ask,
};
ghost use Rattle.pub_facts.specs.Known.{IsWithinLimits, lookups_of};
ghost use Rattle.pub_term.specs.Node.{trait_of};

use crate::cause::{own_subject, subject_of, under_both, unmet_cause};
use crate::fact::{Fact, Written, outside, switched};
use crate::known::{Known, LoadPlace};
use pub_term::Cause;
use spm_ident::Identity;
use spm_manifest::Need;
use spm_trait::TraitName;
use spm_version::{Items, NoMemory};
use std::alloc::Global;

/// The subject alone, with a cause.
pub fn alone(alloc: Global, cause: Cause) -> Fact
    ensures { result ≡ fact [] cause }
{
    Fact {
        terms: Items::new(alloc),
        cause,
    }
}

// One term, with a cause.
fn with_term(alloc: Global, term: Written, cause: Cause) -> Result<Fact, NoMemory>
    ensures { IfOk result (λ one. one ≡ fact (term ∷ []) cause) }
{
    let mut terms = Items::new(alloc);
    terms.push(term)?;
    Ok(Fact { terms, cause })
}

/// A need is on no known package.
pub fn unmet(alloc: Global, known: &Known, place: &LoadPlace, need: &Need) -> Result<Fact, NoMemory>
    ensures { IfOk result (λ one. one ≡ fact []
        (unmet_cause (subject_of (lookups_of known.now) (load_of place.now.node place.now.choice) (under_names (trait_of place.now.node)))
        need.now.requirement need.now.target)) }
{
    let subject = own_subject(alloc, known, place)?;
    let cause = unmet_cause(alloc, subject, need)?;
    Ok(alone(alloc, cause))
}

/// A package has a version that the need doesn't contain, or none.
pub fn required(
    alloc: Global,
    known: &Known,
    place: &LoadPlace,
    target: &Identity,
    need: &Need,
) -> Result<Fact, NoMemory>
    requires { IsWithinLimits known.now }
    ensures { IfOk result (λ one. one
        ≡ required (lookups_of known.now) (load_of place.now.node place.now.choice) target.now need.now.requirement) }
{
    let term = outside(alloc, known, target, &need.requirement)?;
    let subject = own_subject(alloc, known, place)?;
    let requirement = need.requirement.copy(alloc)?;
    let cause = Cause::Requires(subject, target.copy(alloc)?, requirement);
    with_term(alloc, term, cause)
}

/// A trait is asked of a package always, and is off.
pub fn asked_always(
    alloc: Global,
    known: &Known,
    place: &LoadPlace,
    target: &Identity,
    name: &TraitName,
) -> Result<Fact, NoMemory>
    ensures { IfOk result (λ one. one
        ≡ asked_always (lookups_of known.now) (load_of place.now.node place.now.choice) target.now name.now) }
{
    let term = switched(alloc, Some(target), name, 0)?;
    let subject = own_subject(alloc, known, place)?;
    let cause = Cause::Asks(subject, target.copy(alloc)?, name.copy(alloc)?);
    with_term(alloc, term, cause)
}

/// A trait is asked of a package under a condition, which is on, and is off.
pub fn asked_under(
    alloc: Global,
    known: &Known,
    place: &LoadPlace,
    target: &Identity,
    name: &TraitName,
    condition: &TraitName,
) -> Result<Fact, NoMemory>
    ensures { IfOk result (λ one. one
        ≡ asked_under (lookups_of known.now) (load_of place.now.node place.now.choice) target.now name.now condition.now) }
{
    let mut terms = Items::new(alloc);
    terms.push(switched(alloc, place.node.package(), condition, 1)?)?;
    terms.push(switched(alloc, Some(target), name, 0)?)?;
    let under = under_both(alloc, place, condition)?;
    let subject = subject_of(alloc, known, place, under)?;
    let cause = Cause::Asks(subject, target.copy(alloc)?, name.copy(alloc)?);
    Ok(Fact { terms, cause })
}

/// A trait that the words ask of the root is off.
pub fn words_ask(alloc: Global, name: &TraitName) -> Result<Fact, NoMemory>
    ensures { IfOk result (λ one. one ≡ words_ask name.now) }
{
    let term = switched(alloc, None, name, 0)?;
    let cause = Cause::WordsAsk(name.copy(alloc)?);
    with_term(alloc, term, cause)
}

/// A trait that the load's trait enables is off.
pub fn enables(
    alloc: Global,
    known: &Known,
    place: &LoadPlace,
    other: &TraitName,
) -> Result<Fact, NoMemory>
    ensures { IfOk result (λ one. one
        ≡ enables (lookups_of known.now) (load_of place.now.node place.now.choice) other.now) }
{
    let term = switched(alloc, place.node.package(), other, 0)?;
    let subject = own_subject(alloc, known, place)?;
    let cause = Cause::Enables(subject, other.copy(alloc)?);
    with_term(alloc, term, cause)
}
