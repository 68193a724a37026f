//! Dumped manifests: from bytes to a name, a tools version, traits and needs.
//!
//! The contract that the layer above uses is that of [`Manifest::read`]: it answers what `manifest_of` gives of the bytes
//! (`specs/Profile.antt`, over the whole profile of dumps), the first fault in the reading order included, unless memory
//! runs out. A need's guard is defined over the whole list of uses of all targets (`specs/Guard.antt`).
//!
//! Each shape reads its members with the combinators of `spm_json` in the order of its definition, so that the check finds
//! each of these proofs alone. The guards are counted: each identity gets a number, each use says for which numbers it
//! counts (`specs/Counted.antt`), and a dependency's uses are those that count for its number. `proofs/Counting.antt` shows
//! that these are the uses of the definition.
#![tactic(auto)]

mod dependency;
mod dump;
mod guard;
mod limited;
mod manifest;
mod need;
mod requirement;
mod shared;
mod traits;
mod uses;

pub use manifest::Manifest;
pub use need::{Ask, Guard, Need, Target};
pub use spm_json::ReadFault as ManifestFault;
