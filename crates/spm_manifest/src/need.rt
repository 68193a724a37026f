ghost use Rattle.std.specs.Prelude.{◌≡◌, IfOk};

use spm_ident::Identity;
use spm_trait::TraitName;
use spm_version::{Duplicate, Items, NoMemory, Requirement, Text};
use std::alloc::Global;

/// What a dependency is on.
#[derive(Debug, Drop)]
pub enum Target {
    /// A package of the registry.
    Registry(Identity),
    /// A source-control URL, which the registry may know.
    Url(Text),
    /// A folder of this machine.
    Local(Text),
}

impl Target {
    /// A copy of the target.
    ///
    /// # Errors
    ///
    /// `NoMemory` alone.
    pub fn copy(&self, alloc: Global) -> Result<Target, NoMemory>
        ensures { IfOk result (λ copy. copy ≡ self.now) }
    {
        match self {
            Target::Registry(identity) => Ok(Target::Registry(identity.copy(alloc)?)),
            Target::Url(url) => Ok(Target::Url(url.copy(alloc)?)),
            Target::Local(path) => Ok(Target::Local(path.copy(alloc)?)),
        }
    }
}

/// When a dependency is in force (SE-0450).
#[derive(Debug, Drop)]
pub enum Guard {
    /// Always.
    Always,
    /// Where one of these traits of its package is enabled.
    Any(Items<TraitName>),
}

impl Guard {
    /// A copy of the guard.
    ///
    /// # Errors
    ///
    /// `NoMemory` alone.
    pub fn copy(&self, alloc: Global) -> Result<Guard, NoMemory>
        ensures { IfOk result (λ copy. copy ≡ self.now) }
    {
        match self {
            Guard::Always => Ok(Guard::Always),
            Guard::Any(names) => Ok(Guard::Any(names.copy(alloc)?)),
        }
    }
}

/// A trait that is asked of a dependency.
#[derive(Debug, Drop)]
pub struct Ask {
    pub name: TraitName,
    /// Where one of these traits is enabled; always, where there are none.
    pub under: Items<TraitName>,
}

impl Ask {
    /// A copy of what is asked.
    ///
    /// # Errors
    ///
    /// `NoMemory` alone.
    pub fn copy(&self, alloc: Global) -> Result<Ask, NoMemory>
        ensures { IfOk result (λ copy. copy ≡ self.now) }
    {
        Ok(Ask {
            name: self.name.copy(alloc)?,
            under: self.under.copy(alloc)?,
        })
    }
}

impl Duplicate for Ask {
    fn duplicate(&self, alloc: Global) -> Result<Ask, NoMemory> {
        self.copy(alloc)
    }
}

/// A dependency of a package: on what, within which versions, when, and with which traits.
#[derive(Debug, Drop)]
pub struct Need {
    pub target: Target,
    pub requirement: Requirement,
    pub guard: Guard,
    pub asked: Items<Ask>,
}

impl Need {
    /// A copy of the need.
    ///
    /// # Errors
    ///
    /// `NoMemory` alone.
    pub fn copy(&self, alloc: Global) -> Result<Need, NoMemory>
        ensures { IfOk result (λ copy. copy ≡ self.now) }
    {
        Ok(Need {
            target: self.target.copy(alloc)?,
            requirement: self.requirement.copy(alloc)?,
            guard: self.guard.copy(alloc)?,
            asked: self.asked.copy(alloc)?,
        })
    }
}

impl Duplicate for Need {
    fn duplicate(&self, alloc: Global) -> Result<Need, NoMemory> {
        self.copy(alloc)
    }
}
