//! Tests of `pub_set`, `pub_term`, `pub_proof` and `spm_explain` over their public calls.
//!
//! They stand here and not in the crates, since a crate with tests is proved twice. This crate has no code of its own.
//!
//! What holds of every input is a clause there. Here are
//!
//! - small sets by tables, worked out by hand: what is made of choices in any order, and each operation on two sets;
//! - resolutions of small incompatibilities, what holds by what is known, and the order and texts of nodes, by tables too;
//! - derivations of three lines, each with the answer of `check`, by a table;
//! - files of derivations, by tables: what `check` answers of them by their own facts, or the place and the kind of their first
//!   fault, what is written of them, and whether any item of one may be another;
//! - texts of derivations, by tables: a sentence for each cause, its escapes, and lines without terms;
//! - one run of each call that can answer want of memory, where there is memory;
//! - a set of thousands of choices.
//!
//! A test is a loop over a table of cases, or a few calls in a row. Where a call asks something of its arguments, a helper
//! finds out first whether it is so; `specs/Agreed.antt` says what a resolution asks term by term.
#![tactic(auto)]

#[cfg(test)]
mod derivations;
#[cfg(test)]
mod explain;
#[cfg(test)]
mod files;
#[cfg(test)]
mod sets;
#[cfg(test)]
mod terms;
