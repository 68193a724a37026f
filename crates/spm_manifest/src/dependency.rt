ghost use Rattle.std.specs.Prelude.{◌≡◌, [], ◌∷◌, codes, IfOk};
ghost use Rattle.serde_json.specs.Find.{get};
ghost use Rattle.serde_json.specs.View.{view};
ghost use Rattle.spm_json.specs.Object.{data_of};
ghost use Rattle.spm_json.specs.Reading.{Gives};
ghost use Rattle.spm_manifest.specs.Dependency.{
  ask_default,
  ask_reading,
  asked_reading,
  at_location,
  by_folder,
  by_local,
  by_source,
  dependency_reading,
  folder,
  folder_dependency,
  location_reading,
  registry_dependency,
  remote_reading,
  repository,
  source_dependency,
};

use crate::limited::Limited;
use crate::need::{Ask, Target};
use crate::requirement::{RegistryRequirement, SourceRequirement};
use crate::traits::Condition;
use serde_json::Value;
use spm_ident::Identity;
use spm_json::{FromJson, Object, ReadFault, sole_member};
use spm_trait::TraitName;
use spm_version::{Items, Kind, NoMemory, Requirement, Text};
use std::alloc::Global;

/// How many dependencies a manifest may have.
const MAX_DEPENDENCIES: usize = 512;

/// How many traits may be asked of a dependency.
const MAX_ASKS: usize = 300;

impl FromJson for Ask {
    ghost reading = { ask_reading };

    fn from_json(alloc: Global, value: &Value) -> Result<Ask, ReadFault> {
        let object = Object::of(alloc, value)?;
        let name = object.field("name")?;
        let condition: Option<Condition> = object.optional_field("condition")?;
        Ok(Ask {
            name,
            under: match condition {
                Some(condition) => condition.traits,
                None => Items::from_vec(Vec::new(alloc)),
            },
        })
    }
}

// What is asked of a dependency without a list: its traits by default.
fn default_asks(alloc: Global) -> Result<Items<Ask>, NoMemory>
    ensures { IfOk result (λ asked. asked ≡ ask_default ∷ []) }
{
    let Ok(name) = TraitName::parse(alloc, "default") else {
        return Err(NoMemory);
    };
    let under = Items::from_vec(Vec::new(alloc));
    let mut asked = Items::new(alloc);
    asked.push(Ask { name, under })?;
    Ok(asked)
}

// What is asked of a dependency.
fn asked(alloc: Global, object: &Object) -> Result<Items<Ask>, ReadFault>
    ensures { Gives result (asked_reading (data_of object.now)) }
{
    let asks: Option<Limited<Ask, MAX_ASKS>> = object.optional_field("traits")?;
    match asks {
        Some(asks) => Ok(asks.items),
        None => Ok(default_asks(alloc)?),
    }
}

/// A dependency, with the text by which uses name it.
#[derive(Drop)]
pub struct Dependency {
    pub identity: Text,
    pub target: Target,
    pub requirement: Requirement,
    pub asked: Items<Ask>,
}

/// A dependency on a package of the registry.
#[derive(Drop)]
pub struct RegistryDependency {
    pub dependency: Dependency,
}

impl FromJson for RegistryDependency {
    ghost reading = { registry_dependency };

    fn from_json(alloc: Global, value: &Value) -> Result<RegistryDependency, ReadFault> {
        let object = Object::of(alloc, value)?;
        let identity: Identity = object.field("identity")?;
        let requirement: RegistryRequirement = object.field("requirement")?;
        let asked = asked(alloc, &object)?;
        Ok(RegistryDependency {
            dependency: Dependency {
                identity: Text::from_str(alloc, identity.text())?,
                target: Target::Registry(identity),
                requirement: requirement.requirement,
                asked,
            },
        })
    }
}

/// A repository's URL.
#[derive(Drop)]
pub struct Remote {
    pub url: Text,
}

impl FromJson for Remote {
    ghost reading = { remote_reading };

    fn from_json(alloc: Global, value: &Value) -> Result<Remote, ReadFault> {
        match value.as_str() {
            Some(url) => {
                let url = Text::from_str(alloc, url)?;
                Ok(Remote { url })
            }
            None => {
                let object = Object::of(alloc, value)?;
                let url = object.field("urlString")?;
                Ok(Remote { url })
            }
        }
    }
}

/// Where a repository is: at a URL, or in a folder.
#[derive(Drop)]
pub struct Location {
    pub target: Target,
}

// The folder in which a repository is.
fn local(alloc: Global, object: &Object) -> Result<Location, ReadFault>
    ensures { Gives result (by_local (get (codes "local") (data_of object.now))) }
{
    match object.get("local") {
        Some(value) => {
            let path: Text = sole_member(alloc, "local", value)?;
            Ok(Location {
                target: Target::Local(path),
            })
        }
        None => Err(ReadFault::here(alloc, Kind::Missing)),
    }
}

impl FromJson for Location {
    ghost reading = { location_reading };

    fn from_json(alloc: Global, value: &Value) -> Result<Location, ReadFault> {
        let object = Object::of(alloc, value)?;
        match object.get("remote") {
            Some(value) => {
                let remote: Remote = sole_member(alloc, "remote", value)?;
                Ok(Location {
                    target: Target::Url(remote.url),
                })
            }
            None => local(alloc, &object),
        }
    }
}

// A dependency on a folder, of which nothing further is read.
fn folder(alloc: Global, identity: Text, target: Target) -> Result<Dependency, NoMemory>
    ensures { IfOk result (λ dependency. dependency ≡ folder identity target) }
{
    let asked = default_asks(alloc)?;
    Ok(Dependency {
        identity,
        target,
        requirement: Requirement::Path,
        asked,
    })
}

// A dependency on a repository at a URL.
fn repository(
    alloc: Global,
    identity: Text,
    target: Target,
    object: &Object,
) -> Result<Dependency, ReadFault>
    ensures { Gives result (repository identity target (data_of object.now)) }
{
    let requirement: SourceRequirement = object.field("requirement")?;
    let asked = asked(alloc, object)?;
    Ok(Dependency {
        identity,
        target,
        requirement: requirement.requirement,
        asked,
    })
}

// A dependency on what is at a location.
fn at_location(
    alloc: Global,
    identity: Text,
    target: Target,
    object: &Object,
) -> Result<Dependency, ReadFault>
    ensures { Gives result (at_location identity target (data_of object.now)) }
{
    match target {
        Target::Local(path) => Ok(folder(alloc, identity, Target::Local(path))?),
        target => repository(alloc, identity, target, object),
    }
}

/// A dependency on a repository.
#[derive(Drop)]
pub struct SourceDependency {
    pub dependency: Dependency,
}

impl FromJson for SourceDependency {
    ghost reading = { source_dependency };

    fn from_json(alloc: Global, value: &Value) -> Result<SourceDependency, ReadFault> {
        let object = Object::of(alloc, value)?;
        let identity = object.field("identity")?;
        let location: Location = object.field("location")?;
        let dependency = at_location(alloc, identity, location.target, &object)?;
        Ok(SourceDependency { dependency })
    }
}

/// A dependency on a folder.
#[derive(Drop)]
pub struct FolderDependency {
    pub dependency: Dependency,
}

impl FromJson for FolderDependency {
    ghost reading = { folder_dependency };

    fn from_json(alloc: Global, value: &Value) -> Result<FolderDependency, ReadFault> {
        let object = Object::of(alloc, value)?;
        let identity = object.field("identity")?;
        let path = object.field("path")?;
        let dependency = folder(alloc, identity, Target::Local(path))?;
        Ok(FolderDependency { dependency })
    }
}

// The folder that the member `fileSystem` is.
fn folder_of(alloc: Global, object: &Object) -> Result<Dependency, ReadFault>
    ensures { Gives result (by_folder (get (codes "fileSystem") (data_of object.now))) }
{
    match object.get("fileSystem") {
        Some(value) => {
            let found: FolderDependency = sole_member(alloc, "fileSystem", value)?;
            Ok(found.dependency)
        }
        None => Err(ReadFault::here(alloc, Kind::Missing)),
    }
}

// The repository or the folder that the member `sourceControl` or `fileSystem` is.
fn source_of(alloc: Global, object: &Object) -> Result<Dependency, ReadFault>
    ensures { Gives result (by_source (get (codes "sourceControl") (data_of object.now)) (data_of object.now)) }
{
    match object.get("sourceControl") {
        Some(value) => {
            let found: SourceDependency = sole_member(alloc, "sourceControl", value)?;
            Ok(found.dependency)
        }
        None => folder_of(alloc, object),
    }
}

impl FromJson for Dependency {
    ghost reading = { dependency_reading };

    fn from_json(alloc: Global, value: &Value) -> Result<Dependency, ReadFault> {
        let object = Object::of(alloc, value)?;
        match object.get("registry") {
            Some(value) => {
                let found: RegistryDependency = sole_member(alloc, "registry", value)?;
                Ok(found.dependency)
            }
            None => source_of(alloc, &object),
        }
    }
}

/// The list `dependencies`.
pub type Dependencies = Limited<Dependency, MAX_DEPENDENCIES>;
