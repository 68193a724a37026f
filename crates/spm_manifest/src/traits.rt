ghost use Rattle.std.specs.Str.{bytes_eq};
ghost use Rattle.std.specs.Prelude.{◌≡◌, ◌||◌, ℕ, List, [], codes, map, IfOk};
ghost use Rattle.serde_json.specs.View.{view};
ghost use Rattle.spm_json.specs.Names.{has_name};
ghost use Rattle.spm_json.specs.Reading.{Gives};
ghost use Rattle.spm_json.specs.Field.{field_of};
ghost use Rattle.spm_json.specs.Object.{data_of};
ghost use Rattle.spm_manifest.specs.Traits.{
  condition_reading,
  declared_reading,
  entries_after,
  entry_reading,
  new_trait_reading,
  or_nothing,
};

use serde_json::Value;
use spm_json::{FromJson, Names, Object, ReadFault, at_index, limited_list, within};
use spm_trait::{TraitEntry, TraitName, Traits};
use spm_version::{Items, Kind};
use std::alloc::Global;

/// How many traits a manifest may declare.
const MAX_TRAITS: usize = 300;

/// The traits of a condition. None is no condition.
#[derive(Debug, Drop)]
pub struct Condition {
    pub traits: Items<TraitName>,
}

impl FromJson for Condition {
    ghost reading = { condition_reading };

    fn from_json(alloc: Global, value: &Value) -> Result<Condition, ReadFault> {
        let object = Object::of(alloc, value)?;
        let traits: Option<Items<TraitName>> = object.optional_field("traits")?;
        Ok(Condition {
            traits: or_no_names(alloc, traits),
        })
    }
}

// The names, or none.
fn or_no_names(alloc: Global, names: Option<Items<TraitName>>) -> Items<TraitName>
    ensures { result ≡ or_nothing names }
{
    match names {
        Some(names) => names,
        None => Items::from_vec(Vec::new(alloc)),
    }
}

// A trait's name that isn't among these, which it then joins.
fn new_trait(alloc: Global, names: &mut Names, value: &Value) -> Result<TraitName, ReadFault>
    ensures read { Gives result (new_trait_reading (has_name names.old) (view value.now)) }
    ensures names { IfOk result (λ name. (other : List ℕ) → has_name names.new other ≡ (bytes_eq name other || has_name names.old other)) }
{
    let name = TraitName::from_json(alloc, value)?;
    if names.insert(alloc, name.text())? {
        Ok(name)
    } else {
        Err(ReadFault::here(alloc, Kind::Doubled))
    }
}

// The name of an entry, under its key.
fn new_name(alloc: Global, names: &mut Names, object: &Object) -> Result<TraitName, ReadFault>
    ensures read { Gives result (field_of (new_trait_reading (has_name names.old)) (codes "name") (data_of object.now)) }
    ensures names { IfOk result (λ name. (other : List ℕ) → has_name names.new other ≡ (bytes_eq name other || has_name names.old other)) }
{
    match object.get("name") {
        Some(value) => within(alloc, "name", new_trait(alloc, names, value)),
        None => Err(ReadFault::of_member(alloc, Kind::Missing, "name")),
    }
}

// A declared trait, whose name isn't among these, which it then joins.
fn entry(alloc: Global, names: &mut Names, value: &Value) -> Result<TraitEntry, ReadFault>
    ensures read { Gives result (entry_reading (has_name names.old) (view value.now)) }
    ensures names { IfOk result (λ entry. (other : List ℕ) → has_name names.new other ≡ (bytes_eq entry.name other || has_name names.old other)) }
{
    let object = Object::of(alloc, value)?;
    let name = new_name(alloc, names, &object)?;
    let enables: Option<Items<TraitName>> = object.optional_field("enabledTraits")?;
    Ok(TraitEntry {
        name,
        enables: or_no_names(alloc, enables),
    })
}

// The entries that these items are.
fn each_entry(alloc: Global, values: &[Value]) -> Result<Items<TraitEntry>, ReadFault>
    ensures { Gives result (entries_after [] (map view values.now)) }
{
    let mut names = Names::new(alloc);
    let mut read = Vec::new(alloc);
    for (index, item) in values.iter().enumerate() {
        read.push(at_index(alloc, index, entry(alloc, &mut names, item))?)?;
    }
    Ok(Items::from_vec(read))
}

/// The list `traits`.
#[derive(Drop)]
pub struct Declared {
    pub traits: Traits,
}

impl FromJson for Declared {
    ghost reading = { declared_reading };

    fn from_json(alloc: Global, value: &Value) -> Result<Declared, ReadFault> {
        let values = limited_list(alloc, value, MAX_TRAITS)?;
        let entries = each_entry(alloc, values.as_slice())?;
        Ok(Declared {
            traits: Traits { entries },
        })
    }
}
