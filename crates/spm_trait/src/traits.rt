ghost use Rattle.std.specs.Prelude.{◌≡◌, IfOk};

use crate::NoMemory;
use crate::trait_name::TraitName;
use spm_version::{Duplicate, Items};
use std::alloc::Global;

/// A declared trait, and the traits that it enables.
#[derive(Debug, Drop)]
pub struct TraitEntry {
    pub name: TraitName,
    pub enables: Items<TraitName>,
}

impl TraitEntry {
    /// A copy of the entry.
    ///
    /// # Errors
    ///
    /// `NoMemory` alone.
    pub fn copy(&self, alloc: Global) -> Result<TraitEntry, NoMemory>
        ensures { IfOk result (λ entry. entry ≡ self.now) }
    {
        Ok(TraitEntry {
            name: self.name.copy(alloc)?,
            enables: self.enables.copy(alloc)?,
        })
    }
}

impl Duplicate for TraitEntry {
    fn duplicate(&self, alloc: Global) -> Result<TraitEntry, NoMemory> {
        self.copy(alloc)
    }
}

/// The traits that a package declares, with distinct names, in the order of its manifest. `default` counts as declared even
/// without an entry.
#[derive(Debug, Drop)]
pub struct Traits {
    pub entries: Items<TraitEntry>,
}

impl Traits {
    /// A copy of the traits.
    ///
    /// # Errors
    ///
    /// `NoMemory` alone.
    pub fn copy(&self, alloc: Global) -> Result<Traits, NoMemory>
        ensures { IfOk result (λ traits. traits ≡ self.now) }
    {
        let entries = self.entries.copy(alloc)?;
        Ok(Traits { entries })
    }
}
