//! Traits of packages (SE-0450): their names, and which of them are enabled where some are asked.
//!
//! [`TraitName::parse`] answers exactly `trait_name_of` (`specs/TraitName.antt`): the name, or the first of the text's
//! faults. [`Traits`] is what a manifest declares.
//!
//! The contract that the layers above use is that of [`closure`]: it answers the least set that has the asked names and
//! what each of its members enables, in byte order (`IsClosure` of `specs/Closure.antt`), and `Unknown` exactly where that
//! set has a name that isn't declared, with the least such name (`IsLeastUnknown`), unless memory runs out.
//!
//! How the proof goes. A name is read in one pass over its characters, and `proofs/Chars.antt` shows that the pass over
//! what is left answers what `first_bad` says of the whole.
//!
//! A closure is a search. A map holds what the entries enable by their names (`IsIndex` of `specs/Reached.antt`). One set
//! holds the names that are reached, and a list those that still wait. Each turn takes a name from the list; one that is
//! new goes into the set, and what it enables waits. `proofs/Search.antt` has what each turn keeps (`IsSearch`): what is
//! reached or waits belongs to each set with the asked names and all that its members enable, and the asked names, and
//! those that reached names enable, are reached or wait. Once no name waits, the reached ones are such a set, and the least.
//! The search ends, since a new name takes what it enables from what the unreached entries can still give. The set keeps
//! the byte order, so the first of its names that isn't declared is the least (`proofs/Names.antt`), and
//! `proofs/ClosureLemmas.antt` carries all this from the map to the entries.
#![tactic(auto)]

mod closures;
mod shared;
mod trait_name;
mod traits;

pub use closures::{ClosureFault, closure};
pub use trait_name::{TraitFault, TraitName};
pub use traits::{TraitEntry, Traits};
/// There was no memory for what a call had to make: the one fault of what only allocates.
pub use std::alloc::AllocError as NoMemory;
