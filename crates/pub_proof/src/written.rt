// Nodes and lines as a file writes them: a node by its name.
ghost use Rattle.std.specs.Prelude.{◌≡◌, None, Some};
ghost use Rattle.pub_proof.specs.File.{line_reading, name_in, name_reading, node_of, owner_in, trait_text};
ghost use Rattle.spm_json.specs.Reading.{Gives};

use pub_term::NodeName;
use serde_json::Value;
use spm_ident::Identity;
use spm_json::{FromJson, Object, ReadFault, identity, member_as, text};
use spm_trait::{TraitFault, TraitName};
use spm_version::{Items, Kind};
use std::alloc::Global;
use std::marker::Model;

// A node's name in a file.
#[derive(Drop)]
pub(crate) struct WrittenName {
    pub(crate) name: NodeName,
}

impl Model for WrittenName {
    ghost use Rattle.pub_term.specs.declared.node.NodeName.{NodeName};

    ghost Value = { NodeName };

    ghost view = { λ written. written.name };
}

impl FromJson for WrittenName {
    ghost reading = { name_reading };

    fn from_json(alloc: Global, value: &Value) -> Result<WrittenName, ReadFault> {
        let read = text(alloc, value)?;
        let name = node_name(alloc, read)?;
        Ok(WrittenName { name })
    }
}

// The node that a text names.
fn node_name(alloc: Global, read: &str) -> Result<NodeName, ReadFault>
    ensures { Gives result (name_in read.now) }
{
    match read.split_once('#') {
        Some((before, behind)) => {
            let owner = owner(alloc, before)?;
            let name = trait_name(alloc, behind)?;
            Ok(trait_node(owner, name))
        }
        None => {
            let owner = owner(alloc, read)?;
            Ok(owner_node(owner))
        }
    }
}

// The package that a text names, if it isn't the root.
fn owner(alloc: Global, read: &str) -> Result<Option<Identity>, ReadFault>
    ensures { Gives result (owner_in read.now) }
{
    if read == "root" {
        return Ok(None);
    }
    let identity = identity(alloc, read)?;
    Ok(Some(identity))
}

// The trait that a text names.
fn trait_name(alloc: Global, read: &str) -> Result<TraitName, ReadFault>
    ensures { Gives result (trait_text read.now) }
{
    match TraitName::parse(alloc, read) {
        Ok(name) => Ok(name),
        Err(TraitFault::Memory) => Err(ReadFault::Memory),
        Err(_) => Err(ReadFault::here(alloc, Kind::BadTrait)),
    }
}

// The node of a package, or the root.
fn owner_node(owner: Option<Identity>) -> NodeName
    ensures { result ≡ node_of owner None }
{
    match owner {
        None => NodeName::Root,
        Some(identity) => NodeName::Package(identity),
    }
}

// The node of a trait of a package, or of the root.
fn trait_node(owner: Option<Identity>, name: TraitName) -> NodeName
    ensures { result ≡ node_of owner (Some name) }
{
    match owner {
        None => NodeName::RootTrait(name),
        Some(identity) => NodeName::PackageTrait(identity, name),
    }
}

// A node with choices, as a file has them.
pub(crate) type WrittenTerm = (WrittenName, Items<u32>);

// A line of a file.
#[derive(Drop)]
pub(crate) enum WrittenLine {
    // A fact.
    Fact(Items<WrittenTerm>),
    // The resolution of two earlier lines on a node.
    Resolve(WrittenName, (u64, u64)),
}

impl FromJson for WrittenLine {
    ghost reading = { line_reading };

    fn from_json(alloc: Global, value: &Value) -> Result<WrittenLine, ReadFault> {
        let object = Object::of(alloc, value)?;
        if let Some(terms) = object.get("fact") {
            let terms = member_as(alloc, "fact", terms)?;
            return Ok(WrittenLine::Fact(terms));
        }
        let Some(cited) = object.get("resolve") else {
            return Err(ReadFault::here(alloc, Kind::Missing));
        };
        let on = object.field("on")?;
        let cited = member_as(alloc, "resolve", cited)?;
        Ok(WrittenLine::Resolve(on, cited))
    }
}
