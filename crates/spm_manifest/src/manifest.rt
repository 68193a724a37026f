ghost use Rattle.std.specs.Prelude.{◌≡◌, IfOk};
ghost use Rattle.spm_json.specs.Reading.{Gives};
ghost use Rattle.spm_manifest.specs.Profile.{manifest_of};

use crate::dump::{Contents, Dump};
use crate::guard::needs_of;
use crate::need::Need;
use spm_json::{ReadFault, read_whole};
use spm_trait::Traits;
use spm_version::{NoMemory, ToolsVersion};
use std::alloc::Global;
use std::marker::Model;

/// A dumped manifest.
#[derive(Debug, Drop)]
pub struct Manifest {
    contents: Contents,
}

impl Model for Manifest {
    ghost use Rattle.spm_manifest.specs.declared.dump.Contents.{Contents};

    ghost Value = { Contents };

    ghost view = { λ m. m.contents };
}

impl Manifest {
    /// Reads a manifest dump (after `swift package dump-package`; traits after SE-0450).
    ///
    /// # Errors
    ///
    /// The first fault in the reading order: its kind, and its place as a path from the document's root, which is `/`; and `Memory`.
    #[tactic(auto, unfolding(crate::specs::Profile::manifest_of))]
    pub fn read(alloc: Global, bytes: &[u8]) -> Result<Manifest, ReadFault>
        ensures { Gives result (manifest_of bytes.now) }
    {
        let dump: Dump = read_whole(alloc, bytes)?;
        let Dump {
            name,
            tools,
            traits,
            dependencies,
            targets,
        } = dump;
        let needs = needs_of(alloc, dependencies.as_slice(), targets.as_slice())?;
        Ok(Manifest {
            contents: Contents {
                name,
                tools,
                traits,
                needs,
            },
        })
    }

    /// The package's name.
    pub fn name(&self) -> &str
        ensures { result.now ≡ self.now.name }
    {
        self.contents.name.as_str()
    }

    /// The least tools version that the package may be built with.
    pub fn tools(&self) -> ToolsVersion
        ensures { result ≡ self.now.tools }
    {
        self.contents.tools
    }

    /// The traits that the package declares, with distinct names.
    pub fn traits(&self) -> &Traits
        ensures { result.now ≡ self.now.traits }
    {
        &self.contents.traits
    }

    /// The package's dependencies, in their order.
    pub fn needs(&self) -> &[Need]
        ensures { result.now ≡ self.now.needs }
    {
        self.contents.needs.as_slice()
    }

    /// A copy of the manifest.
    ///
    /// # Errors
    ///
    /// `NoMemory` alone.
    pub fn copy(&self, alloc: Global) -> Result<Manifest, NoMemory>
        ensures { IfOk result (λ copy. copy ≡ self.now) }
    {
        Ok(Manifest {
            contents: Contents {
                name: self.contents.name.copy(alloc)?,
                tools: self.contents.tools,
                traits: self.contents.traits.copy(alloc)?,
                needs: self.contents.needs.copy(alloc)?,
            },
        })
    }
}
