ghost use Rattle.serde_json.specs.Data.{Data};
ghost use Rattle.serde_json.specs.View.{view};
ghost use Rattle.std.specs.Prelude.{ℕ, List};
ghost use Rattle.spm_json.specs.Reading.{Gives, Reading};

use crate::fault::ReadFault;
use serde_json::Value;
use std::alloc::Global;

/// A value that is read from an item.
pub trait FromJson {
    /// What an item is read as.
    ghost reading: { Data → Reading Self };

    /// Reads the item, or answers its first fault.
    ///
    /// # Errors
    ///
    /// The first fault in the reading order, with its place from this item; and `Memory`.
    fn from_json(alloc: Global, value: &Value) -> Result<Self, ReadFault>
    where
        Self: Sized,
        ensures { Gives result (reading (view value.now)) };
}

/// A value that is read from a member of an object whose keys are foreign text.
pub trait FromMember {
    /// What a member is read as, given the members before it, its key and its value.
    ghost reading: { List Self → List ℕ → Data → Reading Self };

    /// Reads the member, or answers its first fault.
    ///
    /// # Errors
    ///
    /// The first fault in the reading order, with its place from the value; and `Memory`.
    fn from_member(
        alloc: Global,
        earlier: &[Self],
        key: &str,
        value: &Value,
    ) -> Result<Self, ReadFault>
    where
        Self: Sized,
        ensures { Gives result (reading earlier.now key.now (view value.now)) };
}
