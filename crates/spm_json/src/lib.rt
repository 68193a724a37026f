//! The layer on which every format stands: reading a JSON document item by item.
//!
//! A format is read in one order, and its refusal is the first fault in that order: a place and a
//! kind. Here a reading is stated once, as a function on the document's data (`specs/Reading.antt`,
//! `Shape`, `Field`, `Sequence`, `Value`) that gives a value or the first fault. Each reader of the
//! code has one clause: it gives what its definition gives, unless memory runs out.
//!
//! A format of the layer above writes its definition with `field_of`, `optional_field_of`,
//! `items_of`, `limited_items_of`, `sole_of` and `members_of`, and its code as `FromJson` for each shape, with
//! [`Object::field`], [`Object::optional_field`], [`items`], [`limited_items`], [`sole`] and [`members`] in the same
//! order. What is read by another function is placed by [`within`], [`at_index`] or [`at_foreign_key`]. Code of that
//! form mostly needs no proof file. [`WrittenObject`] is the way back: an object that is written, with its members in
//! the byte order of their keys.
//!
//! The proof: a fault's place grows from the inside outward, as the readings return, so that no place is built where
//! nothing is wrong. `src/places.rt` has the one function for each way in which a fault is seen from the item around
//! it. What is written has no float, so that its text is the compact one (`proofs/WrittenLemmas.antt`).
#![tactic(auto)]

mod fault;
mod from_json;
mod names;
mod object;
mod places;
mod sequence;
mod shape;
mod values;
mod written;

pub use fault::ReadFault;
pub use from_json::{FromJson, FromMember};
pub use names::Names;
pub use object::{Object, member_as};
pub use places::{at_foreign_key, at_index, within};
pub use sequence::{item_as, items, limited_items, members, sole, sole_member};
pub use shape::{limited_list, list, read_document, read_whole, text, whole_number};
pub use values::{expect_version, identity, release};
pub use written::{WrittenObject, identities_value};
