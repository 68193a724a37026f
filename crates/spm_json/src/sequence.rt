ghost use Rattle.std.specs.Prelude.{[], IfOk, map};
ghost use Rattle.serde_json.specs.View.{view};
ghost use Rattle.spm_json.specs.Reading.{Gives, at_index, within};
ghost use Rattle.spm_json.specs.Sequence.{items_after, items_of, limited_items_of, members_of, pair_of, sole_of};
ghost use Rattle.spm_json.specs.Shape.{HasAscendingKeys};

use crate::fault::ReadFault;
use crate::from_json::{FromJson, FromMember};
use crate::places::{at_foreign_key, at_index, within};
use crate::shape::{limited_list, list};
use serde_json::Value;
use spm_version::{Items, Kind};
use std::alloc::Global;

/// Reads the item at this place of a list, whose value this is.
///
/// # Errors
///
/// The item's first fault, seen from the list; and `Memory`.
pub fn item_as<T: FromJson + Drop>(
    alloc: Global,
    index: usize,
    value: &Value,
) -> Result<T, ReadFault>
    ensures { Gives result (at_index index (T.reading (view value.now))) }
{
    at_index(alloc, index, T::from_json(alloc, value))
}

// Reads each of these items of a list.
fn each_item<T: FromJson + Drop>(alloc: Global, values: &[Value]) -> Result<Items<T>, ReadFault>
    ensures { Gives result (items_after T.reading [] (map view values.now)) }
{
    let mut read = Vec::new(alloc);
    for (index, item) in values.iter().enumerate() {
        read.push(item_as(alloc, index, item)?)?;
    }
    Ok(Items::from_vec(read))
}

impl<T: FromJson + Drop> FromJson for Items<T> {
    ghost reading = { items_of T.reading };

    fn from_json(alloc: Global, value: &Value) -> Result<Items<T>, ReadFault> {
        items(alloc, value)
    }
}

/// Reads each item of a list.
///
/// # Errors
///
/// The first fault in the reading order, with its place from this item; and `Memory`.
pub fn items<T: FromJson + Drop>(alloc: Global, value: &Value) -> Result<Items<T>, ReadFault>
    ensures { Gives result (items_of T.reading (view value.now)) }
{
    let values = list(alloc, value)?;
    each_item(alloc, values.as_slice())
}

/// Reads each item of a list that has at most `limit` of them.
///
/// # Errors
///
/// The first fault in the reading order, with its place from this item; and `Memory`.
pub fn limited_items<T: FromJson + Drop>(
    alloc: Global,
    value: &Value,
    limit: usize,
) -> Result<Items<T>, ReadFault>
    ensures { Gives result (limited_items_of T.reading limit (view value.now)) }
{
    let values = limited_list(alloc, value, limit)?;
    each_item(alloc, values.as_slice())
}

/// Reads the one item of a list. A list of another length is of the wrong kind.
///
/// # Errors
///
/// The first fault in the reading order, with its place from this item; and `Memory`.
pub fn sole<T: FromJson + Drop>(alloc: Global, value: &Value) -> Result<T, ReadFault>
    ensures { Gives result (sole_of T.reading (view value.now)) }
{
    match list(alloc, value)?.as_slice() {
        [item] => item_as(alloc, 0, item),
        _ => Err(ReadFault::here(alloc, Kind::WrongKind)),
    }
}

/// Reads each member of an object whose keys are foreign text, in the byte order of the keys.
///
/// # Errors
///
/// The first fault in the reading order, at the place of this item; and `Memory`.
pub fn members<T: FromMember + Drop>(alloc: Global, value: &Value) -> Result<Items<T>, ReadFault>
    ensures gives { Gives result (members_of T.reading (view value.now)) }
    // The keys ascend strictly by their bytes.
    ensures ascending { IfOk result (λ _. HasAscendingKeys (view value.now)) }
{
    let Some(object) = value.as_object() else {
        return Err(ReadFault::here(alloc, Kind::WrongKind));
    };
    let mut read = Vec::new(alloc);
    for (key, member) in object {
        let x = T::from_member(alloc, read.as_slice(), key.as_str(), member);
        read.push(at_foreign_key(alloc, x)?)?;
    }
    Ok(Items::from_vec(read))
}

/// Reads the one item of the list that the member `key` is.
///
/// # Errors
///
/// The first fault in the reading order, with its place from the object; and `Memory`.
pub fn sole_member<T: FromJson + Drop>(
    alloc: Global,
    key: &str,
    value: &Value,
) -> Result<T, ReadFault>
    ensures { Gives result (within key.now (sole_of T.reading (view value.now))) }
{
    within(alloc, key, sole(alloc, value))
}

/// A list of two items. A list of another length is of the wrong kind.
impl<A: FromJson + Drop, B: FromJson + Drop> FromJson for (A, B) {
    ghost reading = { pair_of A.reading B.reading };

    fn from_json(alloc: Global, value: &Value) -> Result<(A, B), ReadFault> {
        match list(alloc, value)?.as_slice() {
            [first, second] => {
                let first = item_as(alloc, 0, first)?;
                let second = item_as(alloc, 1, second)?;
                Ok((first, second))
            }
            _ => Err(ReadFault::here(alloc, Kind::WrongKind)),
        }
    }
}
