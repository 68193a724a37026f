ghost use Rattle.std.specs.Prelude.{◌≡◌, IfOk};
ghost use Rattle.std.specs.Option.{option_copied};
ghost use Rattle.pub_term.specs.Node.{trait_of};
ghost use Rattle.pub_facts.specs.Catalogue.{release_at};
ghost use Rattle.pub_facts.specs.Facts.{load_of, place_text, subject_of, under_both, under_names, unmet_cause};
ghost use Rattle.pub_facts.specs.Known.{lookups_of};

use crate::known::{Known, LoadPlace};
use pub_term::{Cause, Subject};
use spm_manifest::{Need, Target};
use spm_trait::TraitName;
use spm_version::{Items, NoMemory, Release, Requirement, Text};
use std::alloc::Global;

/// The release at a choice of a package, which the choice 0 doesn't have.
pub fn release_at(list: &[Release], choice: u32) -> Option<&Release>
    ensures { option_copied result ≡ release_at list.now choice }
{
    if choice == 0 {
        return None;
    }
    list.get(choice as usize - 1)
}

/// The load's owner, with these traits behind it.
pub fn subject_of(
    alloc: Global,
    known: &Known,
    place: &LoadPlace,
    under: Items<TraitName>,
) -> Result<Subject, NoMemory>
    ensures { IfOk result (λ subject. subject ≡ subject_of (lookups_of known.now) (load_of place.now.node place.now.choice) under) }
{
    let Some(identity) = place.node.package() else {
        return Ok(Subject { owner: None, under });
    };
    match release_at(known.list_of(identity), place.choice) {
        None => Ok(Subject { owner: None, under }),
        Some(release) => {
            let owner = Some((identity.copy(alloc)?, release.copy(alloc)?));
            Ok(Subject { owner, under })
        }
    }
}

/// The load's trait, where it has one.
pub fn under_names(alloc: Global, place: &LoadPlace) -> Result<Items<TraitName>, NoMemory>
    ensures { IfOk result (λ under. under ≡ under_names (trait_of place.now.node)) }
{
    let mut under = Items::new(alloc);
    if let Some(name) = place.node.trait_name() {
        under.push(name.copy(alloc)?)?;
    }
    Ok(under)
}

/// The load's owner, with the load's trait behind it, where it has one.
pub fn own_subject(alloc: Global, known: &Known, place: &LoadPlace) -> Result<Subject, NoMemory>
    ensures { IfOk result (λ subject. subject
        ≡ subject_of (lookups_of known.now) (load_of place.now.node place.now.choice) (under_names (trait_of place.now.node))) }
{
    let under = under_names(alloc, place)?;
    subject_of(alloc, known, place, under)
}

/// The load's trait, and the condition of what is asked, if it is another.
pub fn under_both(
    alloc: Global,
    place: &LoadPlace,
    condition: &TraitName,
) -> Result<Items<TraitName>, NoMemory>
    ensures { IfOk result (λ under. under ≡ under_both (trait_of place.now.node) condition.now) }
{
    let mut under = under_names(alloc, place)?;
    if place.node.trait_name() != Some(condition) {
        under.push(condition.copy(alloc)?)?;
    }
    Ok(under)
}

// The URL or the path of a dependency.
fn place_text(alloc: Global, target: &Target) -> Result<Text, NoMemory>
    ensures { IfOk result (λ text. text ≡ place_text target.now) }
{
    match target {
        Target::Registry(identity) => Text::from_str(alloc, identity.text()),
        Target::Url(url) => url.copy(alloc),
        Target::Local(path) => path.copy(alloc),
    }
}

/// Why a need is on no known package.
pub fn unmet_cause(alloc: Global, subject: Subject, need: &Need) -> Result<Cause, NoMemory>
    ensures { IfOk result (λ cause. cause ≡ unmet_cause subject need.now.requirement need.now.target) }
{
    let text = place_text(alloc, &need.target)?;
    match &need.requirement {
        Requirement::Exact(_) | Requirement::Range(_, _) => Ok(Cause::UnknownUrl(subject, text)),
        Requirement::Branch(_) | Requirement::Revision(_) | Requirement::Path => {
            let requirement = need.requirement.copy(alloc)?;
            Ok(Cause::Unversioned(subject, requirement, text))
        }
    }
}
