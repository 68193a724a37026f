ghost use Rattle.std.specs.Prelude.{◌≡◌, map};
ghost use Rattle.serde_json.specs.View.{view};
ghost use Rattle.spm_json.specs.Reading.{Gives, GivesBy};
ghost use Rattle.spm_json.specs.Shape.{document_of, limited_list_of, list_of, text_of, whole_number_of, whole_of};

use crate::fault::ReadFault;
use crate::from_json::FromJson;
use serde_json::Value;
use spm_version::Kind;
use std::alloc::Global;

/// The document that the bytes spell (RFC 8259).
///
/// # Errors
///
/// `NotJson`, at the document itself; and `Memory`.
pub fn read_document(alloc: Global, bytes: &[u8]) -> Result<Value, ReadFault>
    ensures { GivesBy view result (document_of bytes.now) }
{
    match Value::from_slice(alloc, bytes) {
        Ok(value) => Ok(value),
        Err(e) if e.is_memory() => Err(ReadFault::Memory),
        Err(_) => Err(ReadFault::here(alloc, Kind::NotJson)),
    }
}

/// What a whole document is read as.
///
/// # Errors
///
/// The first fault in the reading order, with its place as a path from the document's root, which is `/`; and `Memory`.
pub fn read_whole<T: FromJson + Drop>(alloc: Global, bytes: &[u8]) -> Result<T, ReadFault>
    ensures { Gives result (whole_of T.reading bytes.now) }
{
    match read_document(alloc, bytes) {
        Ok(document) => match T::from_json(alloc, &document) {
            Ok(x) => Ok(x),
            Err(fault) => Err(fault.of_document(alloc)),
        },
        Err(fault) => Err(fault.of_document(alloc)),
    }
}

/// The text of an item.
///
/// # Errors
///
/// `WrongKind`, at the item itself.
pub fn text(alloc: Global, value: &Value) -> Result<&str, ReadFault>
    ensures { GivesBy (λ t. t.now) result (text_of (view value.now)) }
{
    match value.as_str() {
        Some(text) => Ok(text),
        None => Err(ReadFault::here(alloc, Kind::WrongKind)),
    }
}

/// An integer from 0 to the greatest `u64`.
///
/// # Errors
///
/// `WrongKind`, at the item itself.
pub fn whole_number(alloc: Global, value: &Value) -> Result<u64, ReadFault>
    ensures { Gives result (whole_number_of (view value.now)) }
{
    match value.as_u64() {
        Some(number) => Ok(number),
        None => Err(ReadFault::here(alloc, Kind::WrongKind)),
    }
}

/// The items of a list.
///
/// # Errors
///
/// `WrongKind`, at the item itself.
pub fn list(alloc: Global, value: &Value) -> Result<&Vec<Value>, ReadFault>
    ensures { GivesBy (λ v. map view v.now.items) result (list_of (view value.now)) }
{
    match value.as_array() {
        Some(items) => Ok(items),
        None => Err(ReadFault::here(alloc, Kind::WrongKind)),
    }
}

/// The items of a list that has at most `limit` of them.
///
/// # Errors
///
/// `WrongKind` or `TooMany`, at the item itself.
pub fn limited_list(alloc: Global, value: &Value, limit: usize) -> Result<&Vec<Value>, ReadFault>
    ensures { GivesBy (λ v. map view v.now.items) result (limited_list_of limit (view value.now)) }
{
    let items = list(alloc, value)?;
    if items.len() > limit {
        return Err(ReadFault::here(alloc, Kind::TooMany));
    }
    Ok(items)
}
