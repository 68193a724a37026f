// What was read of a part, as part of the item around it: a fault's place goes on behind the part's.
ghost use Rattle.std.specs.Prelude.{◌≡◌, IfOk};
ghost use Rattle.spm_json.specs.Reading.{Gives, Reading, at_foreign_key, at_index, within};

use crate::fault::ReadFault;
use std::alloc::Global;

/// What was read of the member `key`, as part of its object.
///
/// # Errors
///
/// The fault that was read, seen from the object; and `Memory`.
pub fn within<T>(alloc: Global, key: &str, read: Result<T, ReadFault>) -> Result<T, ReadFault>
    ensures gives { (reading : Reading T) → Gives read reading → Gives result (within key.now reading) }
    ensures same { IfOk result (λ x. read ≡ Ok x) }
{
    match read {
        Ok(x) => Ok(x),
        Err(fault) => Err(fault.under_key(alloc, key)),
    }
}

/// What was read of the item at this place of a list, as part of the list.
///
/// # Errors
///
/// The fault that was read, seen from the list; and `Memory`.
pub fn at_index<T>(alloc: Global, index: usize, read: Result<T, ReadFault>) -> Result<T, ReadFault>
    ensures gives { (reading : Reading T) → Gives read reading → Gives result (at_index index reading) }
    ensures same { IfOk result (λ x. read ≡ Ok x) }
{
    match read {
        Ok(x) => Ok(x),
        Err(fault) => Err(fault.under_index(alloc, index)),
    }
}

/// What was read of a member whose key is foreign text, as part of its object.
///
/// # Errors
///
/// The fault that was read, at the object's own place.
pub fn at_foreign_key<T>(alloc: Global, read: Result<T, ReadFault>) -> Result<T, ReadFault>
    ensures gives { (reading : Reading T) → Gives read reading → Gives result (at_foreign_key reading) }
    ensures same { IfOk result (λ x. read ≡ Ok x) }
{
    match read {
        Ok(x) => Ok(x),
        Err(fault) => Err(fault.under_foreign_key(alloc)),
    }
}
