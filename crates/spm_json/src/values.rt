ghost use Rattle.spm_json.specs.Shape.{small_number_of, text_of, whole_number_of};
ghost use Rattle.serde_json.specs.View.{view};
ghost use Rattle.spm_json.specs.Object.{data_of};
ghost use Rattle.spm_json.specs.Value.{
  identity_in,
  identity_reading,
  release_in,
  release_reading,
  tools_reading,
  trait_reading,
  version_field,
  version_reading,
};
ghost use Rattle.spm_json.specs.Reading.{Gives};

use crate::fault::ReadFault;
use crate::from_json::FromJson;
use crate::object::Object;
use crate::places::within;
use crate::shape::{text, whole_number};
use serde_json::Value;
use spm_ident::{IdentFault, Identity};
use spm_trait::{TraitFault, TraitName};
use spm_version::{Kind, Release, Text, ToolsVersion, VersionFault};
use std::alloc::Global;

impl FromJson for Text {
    ghost reading = { text_of };

    fn from_json(alloc: Global, value: &Value) -> Result<Text, ReadFault> {
        let read = text(alloc, value)?;
        Ok(Text::from_str(alloc, read)?)
    }
}

impl FromJson for u64 {
    ghost reading = { whole_number_of };

    fn from_json(alloc: Global, value: &Value) -> Result<u64, ReadFault> {
        whole_number(alloc, value)
    }
}

impl FromJson for u32 {
    ghost reading = { small_number_of };

    fn from_json(alloc: Global, value: &Value) -> Result<u32, ReadFault> {
        let number = whole_number(alloc, value)?;
        match u32::try_from(number) {
            Ok(number) => Ok(number),
            Err(_) => Err(ReadFault::here(alloc, Kind::WrongKind)),
        }
    }
}

/// The identity that a text is, as an item or as a key.
///
/// # Errors
///
/// `BadIdentity`, at the item itself; and `Memory`.
pub fn identity(alloc: Global, read: &str) -> Result<Identity, ReadFault>
    ensures { Gives result (identity_in read.now) }
{
    match Identity::parse(alloc, read) {
        Ok(identity) => Ok(identity),
        Err(IdentFault::Memory) => Err(ReadFault::Memory),
        Err(_) => Err(ReadFault::here(alloc, Kind::BadIdentity)),
    }
}

impl FromJson for Identity {
    ghost reading = { identity_reading };

    fn from_json(alloc: Global, value: &Value) -> Result<Identity, ReadFault> {
        let read = text(alloc, value)?;
        identity(alloc, read)
    }
}

/// The release that a text is, as an item or as a key.
///
/// # Errors
///
/// `BadVersion`, at the item itself; and `Memory`.
pub fn release(alloc: Global, read: &str) -> Result<Release, ReadFault>
    ensures { Gives result (release_in read.now) }
{
    match Release::parse(alloc, read) {
        Ok(release) => Ok(release),
        Err(VersionFault::Memory) => Err(ReadFault::Memory),
        Err(VersionFault::BadVersion) => Err(ReadFault::here(alloc, Kind::BadVersion)),
    }
}

impl FromJson for Release {
    ghost reading = { release_reading };

    fn from_json(alloc: Global, value: &Value) -> Result<Release, ReadFault> {
        let read = text(alloc, value)?;
        release(alloc, read)
    }
}

impl FromJson for ToolsVersion {
    ghost reading = { tools_reading };

    fn from_json(alloc: Global, value: &Value) -> Result<ToolsVersion, ReadFault> {
        let read = text(alloc, value)?;
        match ToolsVersion::parse(read) {
            Some(tools) => Ok(tools),
            None => Err(ReadFault::here(alloc, Kind::BadVersion)),
        }
    }
}

impl FromJson for TraitName {
    ghost reading = { trait_reading };

    fn from_json(alloc: Global, value: &Value) -> Result<TraitName, ReadFault> {
        let read = text(alloc, value)?;
        match TraitName::parse(alloc, read) {
            Ok(name) => Ok(name),
            Err(TraitFault::Memory) => Err(ReadFault::Memory),
            Err(_) => Err(ReadFault::here(alloc, Kind::BadTrait)),
        }
    }
}

// The version of a file's own format has to be this number, as an integer.
fn version(alloc: Global, value: &Value, wanted: u64) -> Result<(), ReadFault>
    ensures { Gives result (version_reading wanted (view value.now)) }
{
    if !value.is_number() {
        return Err(ReadFault::here(alloc, Kind::WrongKind));
    }
    match value.as_u64() {
        Some(number) if number == wanted => Ok(()),
        _ => Err(ReadFault::here(alloc, Kind::BadVersion)),
    }
}

/// The member `version` of a file has to be this number.
///
/// # Errors
///
/// `Missing`, `WrongKind` or, at another number, `BadVersion`, at the member's place; and `Memory`.
pub fn expect_version(alloc: Global, object: &Object, wanted: u64) -> Result<(), ReadFault>
    ensures { Gives result (version_field wanted (data_of object.now)) }
{
    match object.get("version") {
        Some(value) => within(alloc, "version", version(alloc, value, wanted)),
        None => Err(ReadFault::of_member(alloc, Kind::Missing, "version")),
    }
}
