// What a load brings: the nodes that it names first, and its facts.
ghost use Rattle.std.specs.Prelude.{◌≡◌, ◌≤◌, Contains, IfOk, length};
ghost use Rattle.pub_facts.specs.Facts.{load_of};
ghost use Rattle.pub_facts.specs.Known.{IsInRange, IsWithinLimits, lookups_of};
ghost use Rattle.pub_facts.specs.Numbered.{AreNamed, number_in, numbered};
ghost use Rattle.pub_plain.specs.Loading.{facts_at, is_package, named_first, package_count, wide_in};
ghost use Rattle.pub_plain.specs.Told.{IsUnusable, catalogue_of, job_of};

use crate::reading::{trouble, usable};
use crate::told::Told;
use pub_facts::{LoadPlace, facts_of, named_by, unusable};
use pub_term::{Cause, Incompat, NodeName};
use pub_trail::Wide;
use spm_version::{Items, NoMemory};
use std::alloc::Global;

/// How many nodes there may be.
const MAX_NODES: usize = 4096;
/// How many packages there may be beside the root.
const MAX_PACKAGES: usize = 1024;

/// The nodes that a load names first.
///
/// # Errors
///
/// `NoMemory` alone.
pub fn new_names(alloc: Global, told: &Told, load: &LoadPlace) -> Result<Items<NodeName>, NoMemory>
    requires within { IsWithinLimits told.now.known }
    requires there { IsInRange (lookups_of told.now.known) (load_of load.now.node load.now.choice) }
    requires named { Contains told.now.known.nodes load.now.node }
    ensures { IfOk result (λ names. names
        ≡ named_first (job_of told.now) (catalogue_of told.now) told.now.known.nodes (load_of load.now.node load.now.choice)) }
{
    match usable(told, load) {
        Some(manifest) => named_by(alloc, load, manifest, &told.known),
        None => Ok(Items::new(alloc)),
    }
}

// The one fact of a package's version that can't be used; a trait of it has none.
fn trouble_facts(
    alloc: Global,
    told: &Told,
    load: &LoadPlace,
) -> Result<Items<(Incompat, Cause)>, NoMemory>
    requires within { IsWithinLimits told.now.known }
    requires there { IsInRange (lookups_of told.now.known) (load_of load.now.node load.now.choice) }
    requires unusable { IsUnusable told.now (load_of load.now.node load.now.choice) }
    ensures { IfOk result (λ facts. facts ≡ numbered (number_in told.now.known.nodes)
        (facts_at (job_of told.now) (catalogue_of told.now) (load_of load.now.node load.now.choice))) }
{
    let mut facts = Items::new(alloc);
    if load.node.trait_name().is_none() {
        let cause = trouble(alloc, told, load)?;
        let fact = unusable(alloc, load, &told.known, cause)?;
        facts.push(fact)?;
    }
    Ok(facts)
}

/// The facts of a load, once its nodes are named.
///
/// # Errors
///
/// `NoMemory` alone.
pub fn facts_by(
    alloc: Global,
    told: &Told,
    load: &LoadPlace,
) -> Result<Items<(Incompat, Cause)>, NoMemory>
    requires within { IsWithinLimits told.now.known }
    requires there { IsInRange (lookups_of told.now.known) (load_of load.now.node load.now.choice) }
    requires named { AreNamed told.now.known.nodes
        (facts_at (job_of told.now) (catalogue_of told.now) (load_of load.now.node load.now.choice)) }
    ensures { IfOk result (λ facts. facts ≡ numbered (number_in told.now.known.nodes)
        (facts_at (job_of told.now) (catalogue_of told.now) (load_of load.now.node load.now.choice))) }
{
    match usable(told, load) {
        Some(manifest) => facts_of(alloc, load, manifest, &told.known),
        None => trouble_facts(alloc, told, load),
    }
}

/// Whether a node is a package's.
pub fn is_package(node: &NodeName) -> bool
    ensures { result ≡ is_package node.now }
{
    match node {
        NodeName::Package(_) => true,
        NodeName::Root | NodeName::RootTrait(_) | NodeName::PackageTrait(_, _) => false,
    }
}

// How many of the nodes are packages.
fn package_count(nodes: &[NodeName]) -> usize
    ensures count { result ≡ package_count nodes.now }
{
    let mut count = 0;
    for node in nodes {
        if is_package(node) {
            count += 1;
        }
    }
    count
}

/// The first limit that new names pass, behind those that are named.
pub fn wide_in(nodes: &[NodeName], names: &[NodeName]) -> Option<Wide>
    requires { length nodes.now ≤ 4096 }
    ensures { result ≡ wide_in (length nodes.now) (package_count nodes.now) names.now }
{
    let mut count = nodes.len();
    let mut packages = package_count(nodes);
    for name in names {
        let is_one = is_package(name);
        if is_one && packages == MAX_PACKAGES {
            return Some(Wide::Packages);
        }
        if count == MAX_NODES {
            return Some(Wide::Nodes);
        }
        count += 1;
        if is_one {
            packages += 1;
        }
    }
    None
}
