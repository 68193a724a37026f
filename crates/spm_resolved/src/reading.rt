ghost use Rattle.std.specs.Str.{bytes_eq};
ghost use Rattle.std.specs.Prelude.{◌≡◌, ◌||◌, ℕ, List, Some, IfOk, codes, option_to_list};
ghost use Rattle.serde_json.specs.View.{view};
ghost use Rattle.spm_json.specs.Field.{field_of};
ghost use Rattle.spm_json.specs.Names.{has_name};
ghost use Rattle.spm_json.specs.Object.{data_of};
ghost use Rattle.spm_json.specs.Reading.{Gives, GivesBy};
ghost use Rattle.spm_json.specs.Shape.{object_of};
ghost use Rattle.spm_resolved.specs.Pin.{identity_unless};
ghost use Rattle.spm_resolved.specs.Reading.{has_pin, pin_reading, pins_reading, registry_pin, resolved_of, resolved_reading};

use serde_json::Value;
use spm_ident::Identity;
use spm_json::{
    FromJson, Names, Object, ReadFault, expect_version, identity, list, read_whole, within,
};
use spm_version::{Items, Kind, NoMemory, Release, Text};
use std::alloc::Global;

/// The version of the format.
const FORMAT: u64 = 3;

/// The kind of a pin on a package of the registry.
const REGISTRY: &str = "registry";

/// A lock file, as far as a resolution needs it.
#[derive(Debug, Drop)]
pub struct Resolved {
    /// The SHA-256 of the manifest that it was written for, as it is written.
    pub origin: Option<Text>,
    /// The pins on packages of the registry, in the order of the file, with distinct identities.
    pub pins: Items<(Identity, Release)>,
}

impl Resolved {
    /// Reads a `Package.resolved` of version 3.
    ///
    /// # Errors
    ///
    /// The first fault in the reading order, with its place from the document's root, which is `/`; and `Memory`.
    pub fn read(alloc: Global, bytes: &[u8]) -> Result<Resolved, ReadFault>
        ensures { Gives result (resolved_of bytes.now) }
    {
        read_whole(alloc, bytes)
    }

    /// A copy.
    ///
    /// # Errors
    ///
    /// `NoMemory` alone.
    pub fn copy(&self, alloc: Global) -> Result<Resolved, NoMemory>
        ensures { IfOk result (λ copy. copy ≡ self.now) }
    {
        let origin = match &self.origin {
            Some(origin) => Some(origin.copy(alloc)?),
            None => None,
        };
        let pins = copy_pins(alloc, self.pins.as_slice())?;
        Ok(Resolved { origin, pins })
    }
}

impl FromJson for Resolved {
    ghost reading = { resolved_reading };

    fn from_json(alloc: Global, value: &Value) -> Result<Resolved, ReadFault> {
        let object = Object::of(alloc, value)?;
        expect_version(alloc, &object, FORMAT)?;
        let origin = object.optional_field("originHash")?;
        let pins = pins_of(alloc, &object)?;
        Ok(Resolved { origin, pins })
    }
}

// The member `pins`.
fn pins_of(alloc: Global, object: &Object) -> Result<Items<(Identity, Release)>, ReadFault>
    ensures { Gives result (field_of pins_reading (codes "pins") (data_of object.now)) }
{
    match object.get("pins") {
        Some(value) => within(alloc, "pins", pins(alloc, value)),
        None => Err(ReadFault::of_member(alloc, Kind::Missing, "pins")),
    }
}

// The pins of a list on packages of the registry. Each identity is looked up in the set of those before it.
fn pins(alloc: Global, value: &Value) -> Result<Items<(Identity, Release)>, ReadFault>
    ensures { Gives result (pins_reading (view value.now)) }
{
    let values = list(alloc, value)?;
    let mut met = Names::new(alloc);
    let mut pins = Vec::new(alloc);
    for (index, item) in values.iter().enumerate() {
        match pin(alloc, &mut met, item) {
            Ok(Some(pin)) => pins.push(pin)?,
            Ok(None) => {}
            Err(fault) => return Err(fault.under_index(alloc, index)),
        }
    }
    Ok(Items::from_vec(pins))
}

// A pin, or nothing where it is of another kind than those of the registry. `met` has the identities before it.
fn pin(
    alloc: Global,
    met: &mut Names,
    value: &Value,
) -> Result<Option<(Identity, Release)>, ReadFault>
    ensures pin { Gives result (pin_reading (has_name met.old) (view value.now)) }
    ensures met { IfOk result (λ pin. (other : List ℕ)
        → has_name met.new other ≡ (has_pin (option_to_list pin) other || has_name met.old other)) }
{
    let object = Object::of(alloc, value)?;
    let identity: Text = object.field("identity")?;
    let kind: Text = object.field("kind")?;
    let _location: Text = object.field("location")?;
    let state = state_of(alloc, &object)?;
    if kind.as_str() != REGISTRY {
        return Ok(None);
    }
    let pin = registry_pin(alloc, met, identity.as_str(), &state)?;
    Ok(Some(pin))
}

// The member `state`, which is an object.
fn state_of<'v>(alloc: Global, object: &Object<'v>) -> Result<Object<'v>, ReadFault>
    ensures { GivesBy data_of result (field_of object_of (codes "state") (data_of object.now)) }
{
    match object.get("state") {
        Some(value) => match Object::of(alloc, value) {
            Ok(state) => Ok(state),
            Err(fault) => Err(fault.under_key(alloc, "state")),
        },
        None => Err(ReadFault::of_member(alloc, Kind::Missing, "state")),
    }
}

// A pin of the registry: its identity, and then its version.
fn registry_pin(
    alloc: Global,
    met: &mut Names,
    read: &str,
    state: &Object,
) -> Result<(Identity, Release), ReadFault>
    ensures pin { GivesBy Some result (registry_pin (has_name met.old) read.now (data_of state.now)) }
    ensures met { IfOk result (λ pin. (other : List ℕ)
        → has_name met.new other ≡ (bytes_eq pin.0 other || has_name met.old other)) }
{
    let identity = within(alloc, "identity", new_identity(alloc, met, read))?;
    let release = within(alloc, "state", state.field("version"))?;
    Ok((identity, release))
}

// An identity that wasn't met before, and is met now.
fn new_identity(alloc: Global, met: &mut Names, read: &str) -> Result<Identity, ReadFault>
    ensures identity { Gives result (identity_unless (has_name met.old) read.now) }
    ensures met { IfOk result (λ identity. (other : List ℕ)
        → has_name met.new other ≡ (bytes_eq identity other || has_name met.old other)) }
{
    let identity = identity(alloc, read)?;
    if met.insert(alloc, identity.text())? {
        Ok(identity)
    } else {
        Err(ReadFault::here(alloc, Kind::Doubled))
    }
}

// A copy of these pins.
fn copy_pins(
    alloc: Global,
    pins: &[(Identity, Release)],
) -> Result<Items<(Identity, Release)>, NoMemory>
    ensures { IfOk result (λ copy. copy ≡ pins.now) }
{
    let mut copy = Vec::with_capacity(alloc, pins.len())?;
    for (identity, release) in pins {
        copy.push((identity.copy(alloc)?, release.copy(alloc)?))?;
    }
    Ok(Items::from_vec(copy))
}
