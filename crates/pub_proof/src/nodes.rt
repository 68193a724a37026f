// The list of nodes of a file.
ghost use Rattle.std.specs.Prelude.{◌≡◌, ◌==◌, ℕ, None, IfOk, is_some};
ghost use Rattle.pub_term.specs.declared.node.NodeName.{NodeName as Name};
ghost use Rattle.serde_json.specs.View.{view};
ghost use Rattle.spm_json.specs.Reading.{Gives, at_index};
ghost use Rattle.pub_proof.specs.File.{new_name_reading, node_reading, nodes_reading, number_of, size_of, size_reading};
ghost use Rattle.pub_proof.specs.Places.{place_in, with_place};

use crate::written::WrittenName;
use pub_term::NodeName;
use serde_json::Value;
use spm_json::{FromJson, ReadFault, limited_list, list};
use spm_version::{Items, Kind};
use std::alloc::Global;
use std::collections::BTreeMap;
use std::marker::Model;

/// How many nodes a file may have.
const MAX_NODES: usize = 4096;

// The nodes, the sizes of their sets of choices, and the place of each name.
#[derive(Drop)]
pub(crate) struct Nodes {
    pub(crate) names: Items<NodeName>,
    pub(crate) sizes: Items<u32>,
    places: BTreeMap<NodeName, u32>,
}

impl Model for Nodes {
    ghost use Rattle.std.specs.Prelude.{◌≡◌, ◌<◌, ◌^◌, length};
    ghost use Rattle.pub_proof.specs.File.{NodeList};
    ghost use Rattle.pub_proof.specs.Places.{ArePlaces};

    ghost Value = { NodeList };

    ghost view = { λ nodes. record { names = nodes.names; sizes = nodes.sizes } };

    ghost invariant = { λ nodes. ArePlaces nodes.names nodes.places × (length nodes.names < 2 ^ 32) };
}

impl Nodes {
    // The number of a node: its place, or the number behind the last for a name that is no node's.
    pub(crate) fn number(&self, name: &NodeName) -> u32
        ensures { result ≡ number_of self.now name.now }
    {
        match self.places.get(name) {
            Some(place) => *place,
            None => self.names.as_slice().len() as u32,
        }
    }

    // The size of the sets of the node with this number.
    pub(crate) fn size(&self, number: u32) -> u32
        ensures { result ≡ size_of self.now number }
    {
        self.sizes
            .as_slice()
            .get(number as usize)
            .copied()
            .unwrap_or(0)
    }
}

impl FromJson for Nodes {
    ghost reading = { nodes_reading };

    fn from_json(alloc: Global, value: &Value) -> Result<Nodes, ReadFault> {
        let values = limited_list(alloc, value, MAX_NODES)?;
        if values.is_empty() {
            return Err(ReadFault::here(alloc, Kind::Missing));
        }
        let mut names = Items::new(alloc);
        let mut sizes = Items::new(alloc);
        let mut places = BTreeMap::new(alloc);
        for (index, item) in values.iter().enumerate() {
            match node(alloc, index as u32, &mut places, item) {
                Ok((name, size)) => {
                    names.push(name)?;
                    sizes.push(size)?;
                }
                Err(fault) => return Err(fault.under_index(alloc, index)),
            }
        }
        Ok(Nodes {
            names,
            sizes,
            places,
        })
    }
}

// The node at this place. `places` has the names before it.
fn node(
    alloc: Global,
    place: u32,
    places: &mut BTreeMap<NodeName, u32>,
    value: &Value,
) -> Result<(NodeName, u32), ReadFault>
    ensures node { Gives result (node_reading (place == 0) (λ name. is_some (place_in places.old name)) (view value.now)) }
    ensures new { IfOk result (λ node. place_in places.old node.0 ≡ None) }
    ensures met { IfOk result (λ node. (other : Name) → place_in places.new other ≡ with_place places.old node.0 place other) }
{
    match list(alloc, value)?.as_slice() {
        [name, size] => {
            let name = first_of_node(alloc, place, places, name)?;
            let size = second_of_node(alloc, size)?;
            Ok((name, size))
        }
        _ => Err(ReadFault::here(alloc, Kind::WrongKind)),
    }
}

// The name of the node at this place.
fn first_of_node(
    alloc: Global,
    place: u32,
    places: &mut BTreeMap<NodeName, u32>,
    value: &Value,
) -> Result<NodeName, ReadFault>
    ensures name { Gives result (at_index 0 (new_name_reading (place == 0) (λ name. is_some (place_in places.old name)) (view value.now))) }
    ensures new { IfOk result (λ name. place_in places.old name ≡ None) }
    ensures met { IfOk result (λ name. (other : Name) → place_in places.new other ≡ with_place places.old name place other) }
{
    match new_name(alloc, place, places, value) {
        Ok(name) => Ok(name),
        Err(fault) => Err(fault.under_index(alloc, 0)),
    }
}

// The name at this place, which isn't there before it, and is there now.
fn new_name(
    alloc: Global,
    place: u32,
    places: &mut BTreeMap<NodeName, u32>,
    value: &Value,
) -> Result<NodeName, ReadFault>
    ensures name { Gives result (new_name_reading (place == 0) (λ name. is_some (place_in places.old name)) (view value.now)) }
    ensures new { IfOk result (λ name. place_in places.old name ≡ None) }
    ensures met { IfOk result (λ name. (other : Name) → place_in places.new other ≡ with_place places.old name place other) }
{
    let name = WrittenName::from_json(alloc, value)?.name;
    if place == 0 && name != NodeName::Root {
        return Err(ReadFault::here(alloc, Kind::BadIdentity));
    }
    match places.insert(name.copy(alloc)?, place)? {
        Some(_) => Err(ReadFault::here(alloc, Kind::Doubled)),
        None => Ok(name),
    }
}

// The size of a node's sets of choices.
fn second_of_node(alloc: Global, value: &Value) -> Result<u32, ReadFault>
    ensures { Gives result (at_index 1 (size_reading (view value.now))) }
{
    match node_size(alloc, value) {
        Ok(size) => Ok(size),
        Err(fault) => Err(fault.under_index(alloc, 1)),
    }
}

// A size of sets of choices.
fn node_size(alloc: Global, value: &Value) -> Result<u32, ReadFault>
    ensures { Gives result (size_reading (view value.now)) }
{
    let size = u32::from_json(alloc, value)?;
    if size < 2 || size > 4097 {
        return Err(ReadFault::here(alloc, Kind::WrongKind));
    }
    Ok(size)
}
