//! Which selections are valid and which is first, and the facts that say so to a solver.
//!
//! `specs/` has the definitions, over what the lists, lookups and manifests of a registry say (`specs/Catalogue.antt`): what a
//! selection reaches and enables, as least sets (SE-0450, `specs/Enabled.antt`); when it is valid, need by need, with no solver
//! (`specs/Valid.antt`); and when it is the first one, step by step (`specs/First.antt`). A solver sees nodes with choices
//! instead: the root, packages and traits. What it learns when it loads a node at a choice are incompatibilities with their
//! causes, which [`facts_of`] makes from a manifest, and [`unusable`] where the manifest can't be used.
//!
//! The contract that the layers above use is that of [`facts_of`]: it answers the facts of the load as `specs/Facts.antt` lists
//! them, by the names of their nodes and in that order, written by the numbers of the nodes (`specs/Numbered.antt`): two terms on
//! one node are intersected, a term of all choices is dropped, and a fact with an empty set is left out. [`named_by`] answers the
//! nodes that a load names first, so that the caller can number them.
//!
//! Two laws tie the two sides: [`valid_selections_violate_nothing`] and [`unviolated_assignments_are_valid`]. Two say what "first" means:
//! there is at most one first selection ([`first_selections_are_one`]), and a valid one that is preferred to all others, as the pins of a
//! lock file are, is first ([`a_valid_selection_is_settled`]).
//!
//! How the proof goes:
//!
//! - `src/clause.rt` and `src/load.rt` say a load's clauses, without the subject; each loop keeps that those so far, with those of
//!   what is left, are all (`proofs/ListSteps`, `LoadLemmas`). Then the subject's terms are put before each.
//! - `src/merging.rt` makes an incompatibility of a fact: the place of a term among the others is searched first
//!   (`specs/Merging.antt`, `proofs/MergingLemmas`).
//! - What a package may not be is the opposite of the ranks of what a requirement contains (`proofs/OutsideLemmas`).
//! - Each fact has one of four shapes (`proofs/FactLemmas`), so each of its terms is a set of its node's size, and merging keeps
//!   that (`proofs/MergeLemmas`).
//! - For the first law, what is active in a valid selection is met, and so is each fact of its loads (`proofs/FirstLaw`). For the
//!   second, what is reached is right by induction over the least sets (`proofs/SecondLaw`).
//! - Two first selections go through the same parts, and neither has more than the last of these (`proofs/PartLemmas`, `FirstOne`).
#![tactic(auto)]

mod cause;
mod clause;
mod fact;
mod known;
mod laws;
mod load;
mod merging;
mod numbering;
mod shared;

pub use cause::{own_subject, release_at, unmet_cause};
pub use known::{Known, LoadPlace};
pub use laws::{
    a_valid_selection_is_settled, first_selections_are_one, unviolated_assignments_are_valid,
    valid_selections_violate_nothing,
};
pub use load::{enabled_by, is_declared, is_of};
pub use numbering::{facts_of, named_by, unusable};
