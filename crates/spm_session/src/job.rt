use crate::outcome::Outcome;
use spm_ident::Identity;
use spm_manifest::Manifest;
use spm_trait::TraitName;
use spm_version::{Items, Release, Text, ToolsVersion};

/// What the files of a root say.
#[derive(Debug, Drop)]
pub enum RootInput {
    /// The manifest, the SHA-256 of its bytes, and the releases that are pinned.
    Ready {
        manifest: Manifest,
        origin: [u8; 32],
        pins: Items<(Identity, Release)>,
    },
    /// The root is refused before it is resolved.
    Refused(Outcome),
}

/// What is to be resolved: a root by its name, with the traits that the words ask of it and the running version of the tools.
#[derive(Debug, Drop)]
pub struct RootJob {
    pub name: Text,
    pub input: RootInput,
    pub asked: Items<TraitName>,
    pub tools: ToolsVersion,
}
