ghost use Rattle.std.specs.Prelude.{◌≡◌, IfOk};
ghost use Rattle.std.specs.Option.{option_copied};
ghost use Rattle.pub_facts.specs.Catalogue.{target_of};
ghost use Rattle.pub_facts.specs.Facts.{size_of};
ghost use Rattle.pub_facts.specs.Known.{IsWithinLimits, list_in, lookups_of, package_in};
ghost use Rattle.pub_facts.specs.Numbered.{number_in};

use pub_term::NodeName;
use spm_ident::Identity;
use spm_manifest::{Need, Target};
use spm_trait::TraitName;
use spm_version::{Items, NoMemory, Release, Requirement, Text};
use std::alloc::Global;

/// What is loaded: a node at a choice. The root is loaded at its choice 1, and a package at one of its releases, counted from 1;
/// a trait is loaded at its owner's choice.
#[derive(Debug, Drop)]
pub struct LoadPlace {
    pub node: NodeName,
    pub choice: u32,
}

impl LoadPlace {
    /// A copy of the place.
    ///
    /// # Errors
    ///
    /// `NoMemory` alone.
    pub fn copy(&self, alloc: Global) -> Result<LoadPlace, NoMemory>
        ensures { IfOk result (λ place. place ≡ self.now) }
    {
        let node = self.node.copy(alloc)?;
        Ok(LoadPlace {
            node,
            choice: self.choice,
        })
    }
}

/// What is known when a node is loaded.
#[derive(Debug, Drop)]
pub struct Known {
    /// The traits of the root that the words ask.
    pub asked: Items<TraitName>,
    /// The usable releases of packages, ascending.
    pub lists: Items<(Identity, Items<Release>)>,
    /// The packages of URLs, where the registry knows one.
    pub urls: Items<(Text, Option<Identity>)>,
    /// The nodes that are named, in the order of naming: a node's number is its place.
    pub nodes: Items<NodeName>,
}

impl Known {
    /// The usable releases of a package; none where its list isn't known.
    pub fn list_of(&self, identity: &Identity) -> &[Release]
        ensures { result.now ≡ list_in self.now.lists identity.now }
    {
        for (package, list) in self.lists.as_slice() {
            if package == identity {
                return list.as_slice();
            }
        }
        &[]
    }

    /// The package of a URL, where the registry is known to know one.
    pub fn package_of(&self, url: &Text) -> Option<&Identity>
        ensures { option_copied result ≡ package_in self.now.urls url.now }
    {
        for (known, package) in self.urls.as_slice() {
            if known == url {
                return package.as_ref();
            }
        }
        None
    }

    /// The package of a need for a range or for one version, where it is known.
    pub fn target_of<'k>(&'k self, need: &'k Need) -> Option<&'k Identity>
        ensures { option_copied result ≡ target_of (lookups_of self.now) need.now }
    {
        match need.requirement {
            Requirement::Exact(_) | Requirement::Range(_, _) => match &need.target {
                Target::Registry(identity) => Some(identity),
                Target::Url(url) => self.package_of(url),
                Target::Local(_) => None,
            },
            Requirement::Branch(_) | Requirement::Revision(_) | Requirement::Path => None,
        }
    }

    /// How many choices a node has: a package one more than its list, each other node two.
    #[tactic(auto, using(crate::proofs::KnownLemmas::short_list))]
    pub fn size_of(&self, node: &NodeName) -> u32
        requires { IsWithinLimits self.now }
        ensures { result ≡ size_of (lookups_of self.now) node.now }
    {
        match node {
            NodeName::Package(identity) => self.list_of(identity).len() as u32 + 1,
            NodeName::Root | NodeName::RootTrait(_) | NodeName::PackageTrait(_, _) => 2,
        }
    }

    // The number of a node: its place, or how many there are.
    pub(crate) fn number_of(&self, node: &NodeName) -> u32
        requires { IsWithinLimits self.now }
        ensures number { result ≡ number_in self.now.nodes node.now }
    {
        let mut number = 0;
        for known in self.nodes.as_slice() {
            if known == node {
                return number;
            }
            number += 1;
        }
        number
    }

    /// A copy of what is known.
    ///
    /// # Errors
    ///
    /// `NoMemory` alone.
    pub fn copy(&self, alloc: Global) -> Result<Known, NoMemory>
        ensures { IfOk result (λ known. known ≡ self.now) }
    {
        let mut copy = Known::nothing(alloc);
        copy.asked = self.asked.copy(alloc)?;
        copy.lists = copy_of_lists(alloc, self.lists.as_slice())?;
        copy.urls = copy_of_urls(alloc, self.urls.as_slice())?;
        copy.nodes = self.nodes.copy(alloc)?;
        Ok(copy)
    }

    // Nothing is known.
    fn nothing(alloc: Global) -> Known {
        Known {
            asked: Items::new(alloc),
            lists: Items::new(alloc),
            urls: Items::new(alloc),
            nodes: Items::new(alloc),
        }
    }
}

// A copy of packages with their lists.
fn copy_of_lists(
    alloc: Global,
    lists: &[(Identity, Items<Release>)],
) -> Result<Items<(Identity, Items<Release>)>, NoMemory>
    ensures { IfOk result (λ copy. copy ≡ lists.now) }
{
    let mut copy = Items::new(alloc);
    for (identity, list) in lists {
        copy.push((identity.copy(alloc)?, list.copy(alloc)?))?;
    }
    Ok(copy)
}

// A copy of a package, where there is one.
fn copy_of_package(alloc: Global, found: &Option<Identity>) -> Result<Option<Identity>, NoMemory>
    ensures { IfOk result (λ copy. copy ≡ found.now) }
{
    match found {
        None => Ok(None),
        Some(identity) => Ok(Some(identity.copy(alloc)?)),
    }
}

// A copy of URLs with their packages.
fn copy_of_urls(
    alloc: Global,
    urls: &[(Text, Option<Identity>)],
) -> Result<Items<(Text, Option<Identity>)>, NoMemory>
    ensures { IfOk result (λ copy. copy ≡ urls.now) }
{
    let mut copy = Items::new(alloc);
    for (url, package) in urls {
        copy.push((url.copy(alloc)?, copy_of_package(alloc, package)?))?;
    }
    Ok(copy)
}
