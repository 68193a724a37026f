ghost use Rattle.std.specs.Prelude.{◌≡◌, option_map};
ghost use Rattle.serde_json.specs.Find.{get};
ghost use Rattle.serde_json.specs.View.{view};
ghost use Rattle.spm_json.specs.Reading.{Gives, GivesBy, within};

use crate::fault::ReadFault;
use crate::from_json::FromJson;
use crate::places::within;
use serde_json::Value;
use spm_version::Kind;
use std::alloc::Global;

/// Reads the member `key`, whose value this is.
///
/// # Errors
///
/// The first fault in the reading order, with its place from the object; and `Memory`.
pub fn member_as<T: FromJson + Drop>(
    alloc: Global,
    key: &str,
    value: &Value,
) -> Result<T, ReadFault>
    ensures { Gives result (within key.now (T.reading (view value.now))) }
{
    within(alloc, key, T::from_json(alloc, value))
}

/// An item that is an object.
#[derive(Clone, Copy)]
pub struct Object<'v> {
    alloc: Global,
    value: &'v Value,
}

impl<'v> Object<'v> {
    ghost use Rattle.spm_json.specs.Shape.{object_of};
    ghost use Rattle.spm_json.specs.Field.{field_of, needed_field_of, optional_field_of, optional_member};
    ghost use Rattle.spm_json.specs.Object.{data_of};

    /// The item as an object, or else the fault that it is of the wrong kind.
    ///
    /// # Errors
    ///
    /// `WrongKind`, at the item itself.
    pub fn of(alloc: Global, value: &'v Value) -> Result<Object<'v>, ReadFault>
        ensures { GivesBy data_of result (object_of (view value.now)) }
    {
        match value.as_object() {
            Some(_) => Ok(Object { alloc, value }),
            None => Err(ReadFault::here(alloc, Kind::WrongKind)),
        }
    }

    /// The value of the member `key`, `null` included.
    pub fn get(&self, key: &str) -> Option<&'v Value>
        ensures { option_map (λ v. view v.now) result ≡ get key.now (data_of self.now) }
    {
        self.value.get(key)
    }

    /// The value of the optional member `key`: `null` counts as absent.
    pub fn optional(&self, key: &str) -> Option<&'v Value>
        ensures { option_map (λ v. view v.now) result ≡ optional_member key.now (data_of self.now) }
    {
        match self.value.get(key) {
            Some(Value::Null) => None,
            found => found,
        }
    }

    /// Reads the member `key`. Where it is absent it is missing, at its own place.
    ///
    /// # Errors
    ///
    /// The first fault in the reading order, with its place from the object; and `Memory`.
    pub fn field<T: FromJson + Drop>(&self, key: &str) -> Result<T, ReadFault>
        ensures { Gives result (field_of T.reading key.now (data_of self.now)) }
    {
        match self.get(key) {
            Some(value) => member_as(self.alloc, key, value),
            None => Err(ReadFault::of_member(self.alloc, Kind::Missing, key)),
        }
    }

    /// Reads the member `key`, which is optional in its format and needed here: where it is absent
    /// or `null` it is missing, at its own place.
    ///
    /// # Errors
    ///
    /// The first fault in the reading order, with its place from the object; and `Memory`.
    pub fn needed_field<T: FromJson + Drop>(&self, key: &str) -> Result<T, ReadFault>
        ensures { Gives result (needed_field_of T.reading key.now (data_of self.now)) }
    {
        match self.optional(key) {
            Some(value) => member_as(self.alloc, key, value),
            None => Err(ReadFault::of_member(self.alloc, Kind::Missing, key)),
        }
    }

    /// Reads the optional member `key`, where it is there and not `null`.
    ///
    /// # Errors
    ///
    /// The first fault in the reading order, with its place from the object; and `Memory`.
    pub fn optional_field<T: FromJson + Drop>(&self, key: &str) -> Result<Option<T>, ReadFault>
        ensures { Gives result (optional_field_of T.reading key.now (data_of self.now)) }
    {
        match self.optional(key) {
            Some(value) => match member_as(self.alloc, key, value) {
                Ok(x) => Ok(Some(x)),
                Err(fault) => Err(fault),
            },
            None => Ok(None),
        }
    }
}
