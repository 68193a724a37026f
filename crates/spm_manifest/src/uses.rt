ghost use Rattle.std.specs.Prelude.{◌≡◌, codes, map, option_map, option_and_then, slice_get, IfOk};
ghost use Rattle.serde_json.specs.Find.{as_str, get};
ghost use Rattle.serde_json.specs.View.{view};
ghost use Rattle.spm_json.specs.Object.{data_of};
ghost use Rattle.spm_json.specs.Reading.{Gives, at_index};
ghost use Rattle.spm_manifest.specs.Uses.{
  by_name,
  condition_in,
  item_at,
  name_reading,
  package_in,
  product_reading,
  target_reading,
  text_in,
  use_reading,
};

use crate::traits::Condition;
use serde_json::Value;
use spm_json::{FromJson, Object, ReadFault, item_as, list, within};
use spm_trait::TraitName;
use spm_version::{Items, Kind, NoMemory, Text};
use std::alloc::Global;

/// How many items a use of a product has at most: a name, a package, aliases, a condition.
const PRODUCT_ITEMS: usize = 4;

/// How many items a use by name has at most: a name, a condition.
const NAME_ITEMS: usize = 2;

/// What a target uses.
#[derive(Debug, Drop)]
pub enum Named {
    /// A package of this name.
    Package(Text),
    /// A package or a target of this name.
    Name(Text),
    /// What could be of every dependency.
    Everything,
}

/// A use of a dependency by a target.
#[derive(Debug, Drop)]
pub struct Use {
    pub named: Named,
    /// The traits under which it counts; none where it always does.
    pub condition: Items<TraitName>,
}

// The item at this place, where there is one.
#[tactic(auto, using(crate::proofs::Places::item_there, crate::proofs::Places::item_absent))]
fn item<'v>(items: &'v [Value], index: usize) -> Option<&'v Value>
    ensures { option_map (λ v. view v.now) result ≡ slice_get (map view items.now) index }
{
    if index < items.len() {
        Some(&items[index])
    } else {
        None
    }
}

// The item at this place, where it is there and not null.
fn item_at<'v>(items: &'v [Value], index: usize) -> Option<&'v Value>
    ensures { option_map (λ v. view v.now) result ≡ item_at index (map view items.now) }
{
    match item(items, index) {
        Some(Value::Null) => None,
        found => found,
    }
}

// The name at the front of a use.
fn name_at(alloc: Global, items: &[Value]) -> Result<Text, ReadFault>
    ensures { Gives result (at_index 0 (text_in (item_at 0 (map view items.now)))) }
{
    match item_at(items, 0) {
        Some(value) => item_as(alloc, 0, value),
        None => Err(ReadFault::here(alloc, Kind::WrongKind).under_index(alloc, 0)),
    }
}

// The package behind the name of a use.
fn package_at(alloc: Global, items: &[Value]) -> Result<Named, ReadFault>
    ensures { Gives result (at_index 1 (package_in (item_at 1 (map view items.now)))) }
{
    match item_at(items, 1) {
        Some(value) => {
            let name: Text = item_as(alloc, 1, value)?;
            Ok(Named::Package(name))
        }
        None => Ok(Named::Everything),
    }
}

// The condition at this place of a use.
fn condition_at(alloc: Global, items: &[Value], index: usize) -> Result<Condition, ReadFault>
    ensures { Gives result (at_index index (condition_in (item_at index (map view items.now)))) }
{
    match item_at(items, index) {
        Some(value) => item_as(alloc, index, value),
        None => Ok(Condition {
            traits: Items::from_vec(Vec::new(alloc)),
        }),
    }
}

// A use of a product.
fn product(alloc: Global, value: &Value) -> Result<Use, ReadFault>
    ensures { Gives result (product_reading (view value.now)) }
{
    let items = list(alloc, value)?.as_slice();
    if items.len() > PRODUCT_ITEMS {
        return Err(ReadFault::here(alloc, Kind::WrongKind));
    }
    let _name = name_at(alloc, items)?;
    let named = package_at(alloc, items)?;
    let condition = condition_at(alloc, items, 3)?;
    Ok(Use {
        named,
        condition: condition.traits,
    })
}

// A use by name.
fn by_name(alloc: Global, value: &Value) -> Result<Use, ReadFault>
    ensures { Gives result (name_reading (view value.now)) }
{
    let items = list(alloc, value)?.as_slice();
    if items.len() > NAME_ITEMS {
        return Err(ReadFault::here(alloc, Kind::WrongKind));
    }
    let name = name_at(alloc, items)?;
    let condition = condition_at(alloc, items, 1)?;
    Ok(Use {
        named: Named::Name(name),
        condition: condition.traits,
    })
}

/// A use, or none where it is of a target of this manifest.
#[derive(Debug, Drop)]
pub struct OptionalUse {
    pub found: Option<Use>,
}

// The use that the member `byName` or `target` is, or one of every dependency.
fn other_use(alloc: Global, object: &Object) -> Result<OptionalUse, ReadFault>
    ensures { Gives result (by_name (get (codes "byName") (data_of object.now)) (data_of object.now)) }
{
    if let Some(value) = object.get("byName") {
        let found = within(alloc, "byName", by_name(alloc, value))?;
        return Ok(OptionalUse { found: Some(found) });
    }
    match object.get("target") {
        Some(_) => Ok(OptionalUse { found: None }),
        None => Ok(OptionalUse {
            found: Some(Use {
                named: Named::Everything,
                condition: Items::from_vec(Vec::new(alloc)),
            }),
        }),
    }
}

impl FromJson for OptionalUse {
    ghost reading = { use_reading };

    fn from_json(alloc: Global, value: &Value) -> Result<OptionalUse, ReadFault> {
        let object = Object::of(alloc, value)?;
        match object.get("product") {
            Some(value) => {
                let found = within(alloc, "product", product(alloc, value))?;
                Ok(OptionalUse { found: Some(found) })
            }
            None => other_use(alloc, &object),
        }
    }
}

/// A target: its name, where it has one, and its uses.
#[derive(Debug, Drop)]
pub struct UsingTarget {
    pub name: Option<Text>,
    pub uses: Items<OptionalUse>,
}

// The text under the key `name`, where there is one.
fn name_text(alloc: Global, object: &Object) -> Result<Option<Text>, NoMemory>
    ensures { IfOk result (λ name. name ≡ option_and_then as_str (get (codes "name") (data_of object.now))) }
{
    match object.get("name").and_then(Value::as_str) {
        Some(name) => Ok(Some(Text::from_str(alloc, name)?)),
        None => Ok(None),
    }
}

impl FromJson for UsingTarget {
    ghost reading = { target_reading };

    fn from_json(alloc: Global, value: &Value) -> Result<UsingTarget, ReadFault> {
        let object = Object::of(alloc, value)?;
        let uses: Option<Items<OptionalUse>> = object.optional_field("dependencies")?;
        let name = name_text(alloc, &object)?;
        Ok(UsingTarget {
            name,
            uses: match uses {
                Some(uses) => uses,
                None => Items::new(alloc),
            },
        })
    }
}
