ghost use Rattle.spm_manifest.specs.Profile.{dump_reading, tools_object_reading};

use crate::dependency::{Dependencies, Dependency};
use crate::need::Need;
use crate::traits::Declared;
use crate::uses::UsingTarget;
use serde_json::Value;
use spm_json::{FromJson, Object, ReadFault};
use spm_trait::Traits;
use spm_version::{Items, Text, ToolsVersion};
use std::alloc::Global;

/// The object `toolsVersion`.
#[derive(Drop)]
pub struct ToolsObject {
    pub tools: ToolsVersion,
}

impl FromJson for ToolsObject {
    ghost reading = { tools_object_reading };

    fn from_json(alloc: Global, value: &Value) -> Result<ToolsObject, ReadFault> {
        let object = Object::of(alloc, value)?;
        let tools = object.field("_version")?;
        Ok(ToolsObject { tools })
    }
}

/// What a dump says, in its own parts.
#[derive(Drop)]
pub struct Dump {
    pub name: Text,
    pub tools: ToolsVersion,
    pub traits: Traits,
    pub dependencies: Items<Dependency>,
    pub targets: Items<UsingTarget>,
}

impl FromJson for Dump {
    ghost reading = { dump_reading };

    fn from_json(alloc: Global, value: &Value) -> Result<Dump, ReadFault> {
        let object = Object::of(alloc, value)?;
        let name = object.field("name")?;
        let tools: ToolsObject = object.field("toolsVersion")?;
        let declared: Option<Declared> = object.optional_field("traits")?;
        let dependencies: Option<Dependencies> = object.optional_field("dependencies")?;
        let targets: Option<Items<UsingTarget>> = object.optional_field("targets")?;
        Ok(Dump {
            name,
            tools: tools.tools,
            traits: match declared {
                Some(declared) => declared.traits,
                None => Traits {
                    entries: Items::from_vec(Vec::new(alloc)),
                },
            },
            dependencies: match dependencies {
                Some(found) => found.items,
                None => Items::new(alloc),
            },
            targets: match targets {
                Some(targets) => targets,
                None => Items::new(alloc),
            },
        })
    }
}

/// What a dump says of its package.
#[derive(Debug, Drop)]
pub struct Contents {
    pub name: Text,
    pub tools: ToolsVersion,
    pub traits: Traits,
    pub needs: Items<Need>,
}
