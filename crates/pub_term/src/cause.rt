ghost use Rattle.std.specs.Prelude.{◌≡◌, IfOk};
ghost use Rattle.std.specs.Cmp.{partial_equiv_from_equiv};
ghost use Rattle.pub_term.specs.CauseLaws.{same_subject, same_subject_equiv};

use spm_ident::Identity;
use spm_trait::TraitName;
use spm_version::{Duplicate, Items, Kind, NoMemory, Release, Requirement, Text, ToolsVersion};
use std::alloc::Global;

/// Whose need or trait a fact comes from: the root, where there is no owner, or a package at a version; and the traits that
/// stand behind it.
#[derive(Debug, Drop)]
pub struct Subject {
    pub owner: Option<(Identity, Release)>,
    pub under: Items<TraitName>,
}

impl Subject {
    /// A copy of the subject.
    ///
    /// # Errors
    ///
    /// `NoMemory` alone.
    pub fn copy(&self, alloc: Global) -> Result<Subject, NoMemory>
        ensures { IfOk result (λ subject. subject ≡ self.now) }
    {
        Ok(Subject {
            owner: copy_of_owner(alloc, &self.owner)?,
            under: self.under.copy(alloc)?,
        })
    }
}

impl Duplicate for Subject {
    fn duplicate(&self, alloc: Global) -> Result<Subject, NoMemory> {
        self.copy(alloc)
    }
}

/// The same owner, and the same traits in the same order.
impl PartialEq for Subject {
    ghost eq = { same_subject };

    ghost laws = { partial_equiv_from_equiv same_subject_equiv };

    fn eq(&self, other: &Subject) -> bool {
        self.owner == other.owner && self.under.as_slice() == other.under.as_slice()
    }
}

impl Eq for Subject {
    ghost laws = { same_subject_equiv };
}

// A copy of a subject's owner.
fn copy_of_owner(
    alloc: Global,
    owner: &Option<(Identity, Release)>,
) -> Result<Option<(Identity, Release)>, NoMemory>
    ensures { IfOk result (λ copy. copy ≡ owner.now) }
{
    match owner {
        None => Ok(None),
        Some((identity, release)) => Ok(Some((identity.copy(alloc)?, release.copy(alloc)?))),
    }
}

/// Why a fact holds.
#[derive(Debug, PartialEq, Eq, Drop)]
pub enum Cause {
    /// The subject needs a package within a requirement.
    Requires(Subject, Identity, Requirement),
    /// The subject asks a trait of a package.
    Asks(Subject, Identity, TraitName),
    /// The words ask a trait of the root.
    WordsAsk(TraitName),
    /// The subject's trait enables another.
    Enables(Subject, TraitName),
    /// The subject has no such trait.
    NoTrait(Subject),
    /// The subject has no manifest.
    NoManifest(Subject),
    /// The subject's manifest has its first fault at this place.
    Unreadable(Subject, Text, Kind),
    /// The subject needs these tools.
    Tools(Subject, ToolsVersion),
    /// The subject needs a branch, a revision or a path: the requirement, and the URL or the path.
    Unversioned(Subject, Requirement, Text),
    /// The subject needs a URL that the registry doesn't know.
    UnknownUrl(Subject, Text),
    /// The fact stands in a file of a derivation, which says no cause.
    Given,
}

impl Cause {
    /// A copy of the cause.
    ///
    /// # Errors
    ///
    /// `NoMemory` alone.
    pub fn copy(&self, alloc: Global) -> Result<Cause, NoMemory>
        ensures { IfOk result (λ cause. cause ≡ self.now) }
    {
        match self {
            Cause::Requires(subject, identity, requirement) => Ok(Cause::Requires(
                subject.copy(alloc)?,
                identity.copy(alloc)?,
                requirement.copy(alloc)?,
            )),
            Cause::Asks(subject, identity, name) => Ok(Cause::Asks(
                subject.copy(alloc)?,
                identity.copy(alloc)?,
                name.copy(alloc)?,
            )),
            Cause::WordsAsk(name) => Ok(Cause::WordsAsk(name.copy(alloc)?)),
            Cause::Enables(subject, name) => Ok(Cause::Enables(
                subject.copy(alloc)?,
                name.copy(alloc)?,
            )),
            Cause::NoTrait(subject) => Ok(Cause::NoTrait(subject.copy(alloc)?)),
            Cause::NoManifest(subject) => Ok(Cause::NoManifest(subject.copy(alloc)?)),
            Cause::Unreadable(subject, place, kind) => Ok(Cause::Unreadable(
                subject.copy(alloc)?,
                place.copy(alloc)?,
                *kind,
            )),
            Cause::Tools(subject, tools) => Ok(Cause::Tools(subject.copy(alloc)?, *tools)),
            Cause::Unversioned(subject, requirement, text) => Ok(Cause::Unversioned(
                subject.copy(alloc)?,
                requirement.copy(alloc)?,
                text.copy(alloc)?,
            )),
            Cause::UnknownUrl(subject, url) => {
                Ok(Cause::UnknownUrl(subject.copy(alloc)?, url.copy(alloc)?))
            }
            Cause::Given => Ok(Cause::Given),
        }
    }
}

impl Duplicate for Cause {
    fn duplicate(&self, alloc: Global) -> Result<Cause, NoMemory> {
        self.copy(alloc)
    }
}
