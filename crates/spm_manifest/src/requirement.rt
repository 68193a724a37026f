ghost use Rattle.std.specs.Prelude.{codes};
ghost use Rattle.serde_json.specs.Find.{get};
ghost use Rattle.serde_json.specs.View.{view};
ghost use Rattle.spm_json.specs.Object.{data_of};
ghost use Rattle.spm_json.specs.Reading.{Gives};
ghost use Rattle.spm_manifest.specs.Requirement.{
  bounds_reading,
  branch_reading,
  by_branch,
  by_revision,
  exact_reading,
  no_branch,
  range_reading,
  registry_requirement,
  revision_reading,
  source_requirement,
  versions_reading,
};

use serde_json::Value;
use spm_json::{FromJson, Object, ReadFault, sole_member};
use spm_version::{Kind, Release, Requirement, Text};
use std::alloc::Global;

/// The bounds of a range of versions.
#[derive(Drop)]
pub struct Bounds {
    pub lower: Release,
    pub upper: Release,
}

impl FromJson for Bounds {
    ghost reading = { bounds_reading };

    fn from_json(alloc: Global, value: &Value) -> Result<Bounds, ReadFault> {
        let object = Object::of(alloc, value)?;
        let lower = object.field("lowerBound")?;
        let upper = object.field("upperBound")?;
        Ok(Bounds { lower, upper })
    }
}

// The range that the member `range` is.
fn range(alloc: Global, value: &Value) -> Result<Requirement, ReadFault>
    ensures { Gives result (range_reading (view value.now)) }
{
    let bounds: Bounds = sole_member(alloc, "range", value)?;
    Ok(Requirement::Range(bounds.lower, bounds.upper))
}

// The one version that the member `exact` is.
fn exact(alloc: Global, value: &Value) -> Result<Requirement, ReadFault>
    ensures { Gives result (exact_reading (view value.now)) }
{
    let release: Release = sole_member(alloc, "exact", value)?;
    Ok(Requirement::Exact(release))
}

// The branch that the member `branch` is.
fn branch(alloc: Global, value: &Value) -> Result<Requirement, ReadFault>
    ensures { Gives result (branch_reading (view value.now)) }
{
    let name: Text = sole_member(alloc, "branch", value)?;
    Ok(Requirement::Branch(name))
}

// The revision that the member `revision` is.
fn revision(alloc: Global, value: &Value) -> Result<Requirement, ReadFault>
    ensures { Gives result (revision_reading (view value.now)) }
{
    let name: Text = sole_member(alloc, "revision", value)?;
    Ok(Requirement::Revision(name))
}

// The versions that are required, where it is versions.
fn versions(alloc: Global, object: &Object) -> Result<Option<Requirement>, ReadFault>
    ensures { Gives result (versions_reading (data_of object.now)) }
{
    if let Some(value) = object.get("range") {
        let requirement = range(alloc, value)?;
        return Ok(Some(requirement));
    }
    match object.get("exact") {
        Some(value) => {
            let requirement = exact(alloc, value)?;
            Ok(Some(requirement))
        }
        None => Ok(None),
    }
}

// Why a package of the registry is required without versions.
fn no_versions(alloc: Global, object: &Object) -> Result<Requirement, ReadFault>
    ensures { Gives result (no_branch (get (codes "branch") (data_of object.now)) (data_of object.now)) }
{
    if object.get("branch").is_some() {
        return Err(ReadFault::of_member(alloc, Kind::WrongKind, "branch"));
    }
    if object.get("revision").is_some() {
        return Err(ReadFault::of_member(alloc, Kind::WrongKind, "revision"));
    }
    Err(ReadFault::here(alloc, Kind::Missing))
}

/// What is required of a package of the registry.
#[derive(Drop)]
pub struct RegistryRequirement {
    pub requirement: Requirement,
}

impl FromJson for RegistryRequirement {
    ghost reading = { registry_requirement };

    fn from_json(alloc: Global, value: &Value) -> Result<RegistryRequirement, ReadFault> {
        let object = Object::of(alloc, value)?;
        let requirement = match versions(alloc, &object)? {
            Some(requirement) => requirement,
            None => no_versions(alloc, &object)?,
        };
        Ok(RegistryRequirement { requirement })
    }
}

// The branch or the revision at which a repository is required.
fn commit(alloc: Global, object: &Object) -> Result<Requirement, ReadFault>
    ensures { Gives result (by_branch (get (codes "branch") (data_of object.now)) (data_of object.now)) }
{
    if let Some(value) = object.get("branch") {
        return branch(alloc, value);
    }
    match object.get("revision") {
        Some(value) => revision(alloc, value),
        None => Err(ReadFault::here(alloc, Kind::Missing)),
    }
}

/// What is required of a repository.
#[derive(Drop)]
pub struct SourceRequirement {
    pub requirement: Requirement,
}

impl FromJson for SourceRequirement {
    ghost reading = { source_requirement };

    fn from_json(alloc: Global, value: &Value) -> Result<SourceRequirement, ReadFault> {
        let object = Object::of(alloc, value)?;
        let requirement = match versions(alloc, &object)? {
            Some(requirement) => requirement,
            None => commit(alloc, &object)?,
        };
        Ok(SourceRequirement { requirement })
    }
}
