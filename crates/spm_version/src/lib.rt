//! Versions and requirements, and the small types that the crates above hold their values in.
//!
//! - `Release` is a version of SemVer 2.0, over the kit's `semver`. Contracts see its five parts. `Release::parse`
//!   reads exactly the grammar (`release_grammar`), and says `BadVersion` of exactly the other texts.
//! - `Requirement` is what a manifest asks for. `contains` and `ranks` answer as `specs/Requirement.antt` defines:
//!   precedence by SemVer 2.0, section 11, and SwiftPM's rule for pre-releases in ranges.
//! - `ToolsVersion` is the version of the tools that a manifest names, and `Kind` what is wrong at a place.
//! - `Text`, `Bytes` and `Items` hold a `String`, bytes and a `Vec`. Contracts see lists, also where another type
//!   holds one, and a copy is equal to its source. `NoMemory` is the one fault of what only allocates.
//!
//! The contract that the layers above use: `requirement.contains(&release)` is `contains` of the two values, and
//! `ranks` gives the places, from 1, of the releases of a list that are contained.
//!
//! Most is proved with no file. `proofs/` shows that reading a version wants no memory by itself (`ReadLemmas`),
//! that parts and text tell each other (`ReleaseLemmas`), and that a text cut at its dots and read digit by digit
//! is what its definition says (`ToolsLemmas`).
#![tactic(auto)]

mod bytes;
mod items;
mod kind;
mod release;
mod requirement;
mod shared;
mod text;
mod tools_version;

pub use crate::bytes::Bytes;
pub use crate::items::{Duplicate, Items};
pub use crate::kind::Kind;
pub use crate::release::{Release, VersionFault, ends_in_zip, release_grammar};
pub use crate::requirement::{Requirement, ranks};
pub use crate::text::Text;
pub use crate::tools_version::ToolsVersion;
/// There was no memory for what a call had to make: the one fault of what only allocates.
pub use std::alloc::AllocError as NoMemory;
