ghost use Rattle.std.specs.Prelude.{◌≡◌, IfOk, OnErr, OnOk, map};
ghost use Rattle.serde_json.specs.Data.{array, no_members, object, put, string};
ghost use Rattle.serde_json.specs.View.{items_of, view};

use serde_json::{Map, Value};
use spm_ident::Identity;
use spm_version::NoMemory;
use std::alloc::Global;
use std::marker::Model;

/// An object that is being written, whose members stand in the byte order of their keys.
#[derive(Drop)]
pub struct WrittenObject {
    members: Map<String, Value>,
}

impl Model for WrittenObject {
    ghost use Rattle.serde_json.specs.Data.{Members};
    ghost use Rattle.serde_json.specs.View.{members_view};
    ghost use Rattle.spm_json.specs.MembersCode.{members_code};

    ghost Value = { Members };

    ghost coded = { members_code };

    ghost view = { λ written. members_view written.members.entries };
}

impl WrittenObject {
    /// An object without members. It takes no memory.
    pub fn new(alloc: Global) -> WrittenObject
        ensures { result ≡ no_members }
    {
        WrittenObject {
            members: Map::new(alloc),
        }
    }

    /// Puts a member, in place of one with the same key.
    ///
    /// # Errors
    ///
    /// `NoMemory` alone, which leaves the object as it was.
    pub fn put(&mut self, alloc: Global, key: &str, value: Value) -> Result<(), NoMemory>
        ensures ok { OnOk result (self.new ≡ put key.now (view value) self.old) }
        ensures err { OnErr result (self.new ≡ self.old) }
    {
        let name = String::from_str(alloc, key)?;
        self.members.insert(name, value)?;
        Ok(())
    }

    /// The object.
    pub fn into_value(self) -> Value
        ensures { view result ≡ object self }
    {
        Value::Object(self.members)
    }
}

/// An array of identities, as it is written.
///
/// # Errors
///
/// `NoMemory` alone.
pub fn identities_value(alloc: Global, identities: &[Identity]) -> Result<Value, NoMemory>
    ensures { IfOk result (λ value. view value ≡ array (items_of (map string identities.now))) }
{
    let mut values = Vec::new(alloc);
    for identity in identities {
        values.push(Value::String(String::from_str(alloc, identity.text())?))?;
    }
    Ok(Value::Array(values))
}
