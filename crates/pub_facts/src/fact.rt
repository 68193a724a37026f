ghost use Rattle.std.specs.Prelude.{◌≡◌, ◌<◌, IfOk};
ghost use Rattle.std.specs.Option.{option_copied};
ghost use Rattle.pub_term.specs.Node.{package_of};
ghost use Rattle.pub_facts.specs.Facts.{load_of, only, outside, owner_node, subject_terms, switched, trait_node};
ghost use Rattle.pub_facts.specs.Known.{IsInRange, IsWithinLimits, lookups_of};

use crate::known::{Known, LoadPlace};
use pub_set::Choices;
use pub_term::{Cause, NodeName};
use spm_ident::Identity;
use spm_trait::TraitName;
use spm_version::{Duplicate, Items, NoMemory, Requirement, ranks};
use std::alloc::Global;

/// A term as it is written: a node by its name, with a set of its choices.
#[derive(Debug, Drop)]
pub struct Written {
    pub node: NodeName,
    pub choices: Choices,
}

impl Duplicate for Written {
    fn duplicate(&self, alloc: Global) -> Result<Written, NoMemory> {
        Ok(Written {
            node: self.node.copy(alloc)?,
            choices: self.choices.copy(alloc)?,
        })
    }
}

/// A fact as it is written: two terms may be on one node.
#[derive(Debug, Drop)]
pub struct Fact {
    pub terms: Items<Written>,
    pub cause: Cause,
}

// The name of a trait's node.
fn trait_node(
    alloc: Global,
    owner: Option<&Identity>,
    name: &TraitName,
) -> Result<NodeName, NoMemory>
    ensures { IfOk result (λ node. node ≡ trait_node (option_copied owner.entry) name.now) }
{
    let name = name.copy(alloc)?;
    match owner {
        None => Ok(NodeName::RootTrait(name)),
        Some(identity) => Ok(NodeName::PackageTrait(identity.copy(alloc)?, name)),
    }
}

/// The trait of an owner is off at the choice 0, or on at the choice 1.
pub fn switched(
    alloc: Global,
    owner: Option<&Identity>,
    name: &TraitName,
    choice: u32,
) -> Result<Written, NoMemory>
    requires { choice < 2 }
    ensures { IfOk result (λ written. written ≡ switched (option_copied owner.entry) name.now choice) }
{
    let node = trait_node(alloc, owner, name)?;
    let choices = Choices::of(alloc, 2, &[choice])?;
    Ok(Written { node, choices })
}

/// The package has no version, or one that isn't contained.
#[tactic(auto, using(crate::proofs::OutsideLemmas::outside_is, crate::proofs::OutsideLemmas::ranks_below, crate::proofs::KnownLemmas::short_list))]
pub fn outside(
    alloc: Global,
    known: &Known,
    identity: &Identity,
    requirement: &Requirement,
) -> Result<Written, NoMemory>
    requires { IsWithinLimits known.now }
    ensures { IfOk result (λ written. written ≡ outside (lookups_of known.now) identity.now requirement.now) }
{
    let list = known.list_of(identity);
    let contained = ranks(alloc, list, requirement)?;
    let inside = Choices::of(alloc, list.len() as u32 + 1, &contained)?;
    let choices = inside.opposite(alloc)?;
    let node = NodeName::Package(identity.copy(alloc)?);
    Ok(Written { node, choices })
}

// The load's owner has its choice.
#[tactic(auto, using(crate::proofs::KnownLemmas::choice_below))]
fn owner_term(alloc: Global, known: &Known, place: &LoadPlace) -> Result<Written, NoMemory>
    requires within { IsWithinLimits known.now }
    requires there { IsInRange (lookups_of known.now) (load_of place.now.node place.now.choice) }
    ensures { IfOk result (λ term. term
        ≡ only (lookups_of known.now) (owner_node (package_of place.now.node)) place.now.choice) }
{
    let node = match place.node.package() {
        None => NodeName::Root,
        Some(identity) => NodeName::Package(identity.copy(alloc)?),
    };
    let choices = Choices::of(alloc, known.size_of(&node), &[place.choice])?;
    Ok(Written { node, choices })
}

/// The load's node has its choice: its owner has it, and of a trait's load the trait is on.
pub fn subject_terms(
    alloc: Global,
    known: &Known,
    place: &LoadPlace,
) -> Result<Items<Written>, NoMemory>
    requires within { IsWithinLimits known.now }
    requires there { IsInRange (lookups_of known.now) (load_of place.now.node place.now.choice) }
    ensures { IfOk result (λ terms. terms ≡ subject_terms (lookups_of known.now) (load_of place.now.node place.now.choice)) }
{
    let mut terms = Items::new(alloc);
    terms.push(owner_term(alloc, known, place)?)?;
    if let Some(name) = place.node.trait_name() {
        terms.push(switched(alloc, place.node.package(), name, 1)?)?;
    }
    Ok(terms)
}
