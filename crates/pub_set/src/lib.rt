//! Sets of choices: finite sets of numbers below a size, for the terms of incompatibilities.
//!
//! Contracts see a set as its size and its members in ascending order (`ChoiceSet` of `specs/Choices.antt`), and each call is
//! the set operation of its name, said over all numbers below the size: [`Choices::intersect`] answers `intersection`, and so
//! on. What is kept are the set's maximal runs, ascending, with a gap between two neighbours ([`Choices::runs`] lends them). So
//! a set costs what its runs cost, however many choices they have.
//!
//! The contract that the layers above use: `first.intersect(alloc, &second)` is the set of the choices that are in both
//! (`intersection`), and [`sets_have`] says what such a set has: [`Choices::has`] is true of just the choices below the size
//! that pass the test, and two sets of one size that have the same choices are equal. [`runs_are_maximal`] says what a set's
//! runs are, [`few_runs`] how many an operation's result has, and [`choices_are_counted`] how many choices.
//!
//! Looking up a choice takes the logarithm of the runs. [`Choices::within`], [`Choices::meets`], [`Choices::intersect`] and
//! [`Choices::unite`] go through both lists of runs once, and [`Choices::opposite`] through one.
//!
//! How the proof goes:
//!
//! - The invariant is `AreRuns` (`specs/Runs.antt`): each run ends before the gap that the next begins behind, and the last one
//!   below the size. The members that contracts see are the numbers of the runs.
//! - Ascending numbers are told by which they are: two lists with the same are equal. So a list that has just the numbers below
//!   the size that pass a test is the list of those numbers, filtered, which is how `set_where` defines a set
//!   (`proofs/AscendingLemmas`). Each operation then shows two things: its runs are runs, and they have the right numbers
//!   (`HasRuns`).
//! - The loops stand in private functions over slices (`src/runs.rt`), whose contracts say these two things. `RunLemmas` has the
//!   numbers of runs and how runs grow, `StepLemmas` what a step of each loop keeps, `PlaceLemmas` the search and the sort.
//! - `SetLemmas` proves the laws over the definitions. How many runs there are is counted by where they begin.
#![tactic(auto)]

mod choices;
mod laws;
mod runs;
mod shared;

pub use choices::Choices;
pub use laws::{choices_are_counted, few_runs, runs_are_maximal, sets_have};
pub use runs::Run;
/// There was no memory for what a call had to make: the one fault of what only allocates.
pub use std::alloc::AllocError as NoMemory;
