ghost use Rattle.std.specs.Prelude.{◌≡◌, IfOk, Some, refl};
ghost use Rattle.std.specs.Cmp.{partial_equiv_from_equiv};
ghost use Rattle.std.specs.Option.{option_copied};
ghost use Rattle.pub_term.specs.Node.{node_cmp, node_text, package_of, trait_of};
ghost use Rattle.pub_term.specs.NodeLaws.{node_eq, node_equiv, node_po, node_ties, node_total};

use spm_ident::Identity;
use spm_trait::TraitName;
use spm_version::{Duplicate, NoMemory};
use std::alloc::Global;
use std::cmp::Ordering;
use std::fmt;

/// A node of a resolution.
#[derive(Debug, Drop)]
pub enum NodeName {
    /// The root.
    Root,
    /// A trait of the root.
    RootTrait(TraitName),
    /// A package.
    Package(Identity),
    /// A trait of a package.
    PackageTrait(Identity, TraitName),
}

impl NodeName {
    /// A copy of the name.
    ///
    /// # Errors
    ///
    /// `NoMemory` alone.
    pub fn copy(&self, alloc: Global) -> Result<NodeName, NoMemory>
        ensures { IfOk result (λ name. name ≡ self.now) }
    {
        match self {
            NodeName::Root => Ok(NodeName::Root),
            NodeName::RootTrait(name) => Ok(NodeName::RootTrait(name.copy(alloc)?)),
            NodeName::Package(identity) => { Ok(NodeName::Package(identity.copy(alloc)?)) }
            NodeName::PackageTrait(identity, name) => Ok(NodeName::PackageTrait(
                identity.copy(alloc)?,
                name.copy(alloc)?,
            )),
        }
    }

    /// The package, which the root and its traits don't have.
    pub fn package(&self) -> Option<&Identity>
        ensures { option_copied result ≡ package_of self.now }
    {
        match self {
            NodeName::Root | NodeName::RootTrait(_) => None,
            NodeName::Package(identity) | NodeName::PackageTrait(identity, _) => Some(identity),
        }
    }

    /// The trait's name, which the root and a package don't have.
    pub fn trait_name(&self) -> Option<&TraitName>
        ensures { option_copied result ≡ trait_of self.now }
    {
        match self {
            NodeName::Root | NodeName::Package(_) => None,
            NodeName::RootTrait(name) | NodeName::PackageTrait(_, name) => Some(name),
        }
    }
}

impl Duplicate for NodeName {
    fn duplicate(&self, alloc: Global) -> Result<NodeName, NoMemory> {
        self.copy(alloc)
    }
}

/// `root`, `root#trait`, `identity` or `identity#trait`.
impl fmt::Display for NodeName {
    ghost output = { λ name. Some (node_text name) };

    fn fmt<W: fmt::Write>(&self, f: &mut fmt::Formatter<W>) -> fmt::Result {
        match self {
            NodeName::Root => f.write_str("root"),
            NodeName::RootTrait(name) => write!(f, "root#{name}"),
            NodeName::Package(identity) => write!(f, "{identity}"),
            NodeName::PackageTrait(identity, name) => write!(f, "{identity}#{name}"),
        }
    }
}

/// By the package and the trait.
impl PartialEq for NodeName {
    ghost eq = { node_eq };

    ghost laws = { partial_equiv_from_equiv node_equiv };

    fn eq(&self, other: &NodeName) -> bool {
        self.package() == other.package() && self.trait_name() == other.trait_name()
    }
}

impl Eq for NodeName {
    ghost laws = { node_equiv };
}

impl PartialOrd for NodeName {
    ghost partial_cmp = { λ x y. Some (node_cmp x y) };

    ghost laws = { node_po };

    fn partial_cmp(&self, other: &NodeName) -> Option<Ordering> {
        Some(self.cmp(other))
    }
}

/// The root first, then its traits, then each package before its traits, by the bytes of the texts.
impl Ord for NodeName {
    ghost cmp = { node_cmp };

    ghost total = { node_total };

    ghost matches_partial_cmp = { λ x y. refl };

    ghost matches_eq = { node_ties };

    fn cmp(&self, other: &NodeName) -> Ordering {
        let by_package = self.package().cmp(&other.package());
        by_package.then(self.trait_name().cmp(&other.trait_name()))
    }
}
