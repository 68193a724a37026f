//! Writes and reads `Package.resolved`, the file that keeps which release of each package was chosen, in the version 3
//! that SwiftPM writes for packages of a registry.
//!
//! The contracts that the layer above uses:
//!
//! - `write(origin, pins)` is, byte by byte, `resolved_text` of the sum of the manifest and of the pins, in the order in
//!   which they are given (`specs/Resolved.antt`). Nothing in it is chosen by the code, so the same sum and the same
//!   pins always give the same file.
//! - [`Resolved::read`] answers what `resolved_of` gives of the bytes (`specs/Reading.antt`), the first fault in the
//!   reading order with its place included, unless memory runs out. A pin of another kind than those of the registry
//!   is read over.
//! - `lock_reads_back` ties the two: what is written of bytes and of pins in strictly ascending order is read back.
//!
//! How the proof goes: one pin's lines, the list and the file are functions of their own, each of which says what
//! it adds to the text. The list goes through the pins once, and its loop keeps that the text so far and the lines
//! of the pins still to come are the whole list.
//!
//! A reader goes through the list once too. Its loop keeps that the set of texts that were met has exactly the
//! identities of the pins so far, and that the items still to come go on behind these pins.
//!
//! The law goes through the layers of reading: texts that stand for themselves in a string (`proofs/Tame.antt`,
//! `TameParts`), the tokens of the text (`LockTokens`), its data (`LockData`), and what these are read as
//! (`LockReading`), each for one pin and then by induction on the list. `LockLaw` joins them.
#![tactic(auto)]

mod laws;
mod reading;
mod shared;
mod writing;

pub use crate::laws::lock_reads_back;
pub use crate::reading::Resolved;
pub use crate::writing::write;
pub use spm_json::ReadFault as ResolvedFault;
