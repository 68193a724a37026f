// What a solver is told: its job, its pins, and what the replies that were given say.
use pub_facts::Known;
use spm_api::Said;
use spm_ident::Identity;
use spm_manifest::Manifest;
use spm_version::{Items, Release, ToolsVersion};

/// What is said of a package's manifest.
#[derive(Debug, Drop)]
pub struct GivenManifest {
    pub identity: Identity,
    pub release: Release,
    pub said: Said,
}

/// What a solver is told.
#[derive(Debug, Drop)]
pub struct Told {
    /// The root's manifest.
    pub root: Manifest,
    /// The running tools version.
    pub tools: ToolsVersion,
    /// The releases that are pinned.
    pub pins: Items<(Identity, Release)>,
    /// The traits that the words ask, the lists, the packages of URLs, and the nodes that are named.
    pub known: Known,
    /// The packages whose lists are too long.
    pub long: Items<Identity>,
    /// What is said of manifests.
    pub manifests: Items<GivenManifest>,
}
